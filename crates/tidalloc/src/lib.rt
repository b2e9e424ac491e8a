//! The local transaction ids of a shard (Q.773): which are live, and which is next.
//!
//! A shard has at most 4,096 slots, and each holds one id at a time. An id is four octets: the number of the shard, then
//! in three octets a generation times 4,096 plus the slot (profile). A slot's generation rises by one at each use, and from
//! 4,095 goes back to 1, so an id is reused only after 4,095 uses of its slot.
#![tactic(auto)]

mod ids;
mod laws;
mod slot;

pub use ids::{IdFault, Ids};
pub use laws::{law_generations_in_turn, law_ids_in_turn, law_ids_put_back};
