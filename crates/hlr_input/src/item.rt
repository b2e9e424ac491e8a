//! What a line of a script says.

use hlr_types::{Imsi, Peer};
use records::Codes;

/// One line of a script.
#[derive(Clone, Copy, Drop)]
pub enum Item<'a> {
    /// A frame: its source address, and its octets as written in the script.
    Frame { from: Peer, octets: &'a [u8] },
    /// A clock value for each shard.
    Clock(u64),
    /// An expiry of each shard.
    Expire,
    /// The end of a batch.
    Batch,
    /// New teleservice codes for a subscriber.
    Codes { imsi: Imsi, codes: Codes },
    /// The end of a subscription.
    Withdraw { imsi: Imsi },
}
