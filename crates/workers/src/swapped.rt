//! Shards that are not behind their own locks.

use thiserror::Error;

/// The shard behind the lock with this number is another one. No program sees it unless a worker exchanges shards, which none does, but no
/// contract says.
#[derive(Clone, Copy, Debug, PartialEq, Eq, Drop, Error)]
#[error("the shard behind lock {0} is another one")]
pub struct Swapped(pub usize);
