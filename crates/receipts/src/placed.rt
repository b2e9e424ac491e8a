//! Where the entry of a job stands.

use hlrcore::{OutList, ShardNumber};

/// Where the entry of a job stands: its shard, 0 to 15, and its position in that shard's journal, counted from 0; and the frames
/// to send, in order.
#[derive(Drop)]
pub struct Placed {
    pub shard: ShardNumber,
    pub position: usize,
    pub outs: OutList,
}
