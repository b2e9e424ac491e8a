//! The whole register in one thread: sixteen shards, each with its journal. Together they are one state of the machine, and the
//! handled events, in order, are a run of the machine over octets.
#![tactic(auto)]

mod fault;
mod laws;
mod node;
mod opening;
mod reading;

pub use fault::{Cause, NodeFault};
pub use laws::{journals_merge, merges_are_runs, runs_are_replayed, runs_have_room};
pub use node::Node;
pub use opening::opening_states;
pub use reading::read_lot;
pub use shardlog::Keep;
