//! The deadlines of a shard's own invocations (Q.774, invocation timer and reject timer), and which of those that are due is
//! the earliest.
#![tactic(auto)]

mod deadlines;
mod index;
mod timer;
mod timers;

pub use deadlines::Deadlines;
pub use timer::{Invocation, Timer};
pub use timers::Timers;
