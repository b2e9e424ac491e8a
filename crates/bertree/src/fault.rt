//! Why octets are not read as a tree.

use std::alloc::{AllocError, AllocFailed};
use thiserror::Error;

/// Why octets are not read as a tree.
#[derive(Clone, Copy, Debug, PartialEq, Eq, Drop, Error)]
pub enum TreeFault {
    /// There are too many octets (profile).
    #[error("more than 4096 octets")]
    TooLong,
    /// The octets spell no tree.
    #[error("no tree of the basic encoding rules")]
    NotBer,
    /// The octets spell a tree of too many levels (profile).
    #[error("more than 32 levels")]
    TooDeep,
    /// An allocation failed.
    #[error("out of memory")]
    Memory,
}

impl From<AllocError> for TreeFault {
    ghost use Rattle.std.specs.Prelude.{◌≡◌};
    ghost use Rattle.bertree.specs.declared.fault.TreeFault.TheVariants.{Memory};

    ghost from_gives = { λ _ fault. fault ≡ Memory };

    fn from(_refused: AllocError) -> TreeFault {
        TreeFault::Memory
    }
}

impl<T: Drop> From<AllocFailed<T>> for TreeFault {
    ghost use Rattle.std.specs.Prelude.{◌≡◌};
    ghost use Rattle.bertree.specs.declared.fault.TreeFault.TheVariants.{Memory};

    ghost from_gives = { λ _ fault. fault ≡ Memory };

    fn from(_refused: AllocFailed<T>) -> TreeFault {
        TreeFault::Memory
    }
}
