//! A shard with its journal. The type guarantees that the journal is legal: its entries lead, by steps of the machine over
//! octets, from the base, in which the journal begins, to the shard's state.
#![tactic(auto)]

mod entry;
mod fault;
mod keep;
mod laws;
mod shard;

pub use entry::{Entry, Epoch, Handled};
pub use fault::ShardFault;
pub use hlrcore::RawEvent;
pub use keep::Keep;
pub use laws::joined_journals_keep;
pub use shard::{Shard, tick_all};
