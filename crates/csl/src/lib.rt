//! The own invocations of a shard's dialogues (Q.774, component sublayer; operations of class 1): which are in Operation Sent
//! or Wait for Reject, when their timers expire, and what received components do to them.
#![tactic(auto)]

mod effect;
mod ending;
mod fault;
mod invocation;
mod invocations;
mod laws;
mod list;
mod lists;
mod offer;
mod problems;
mod remaining;
mod timers;
mod was;

pub use effect::effect_of_begin;
pub use fault::CslFault;
pub use invocations::Invocations;
pub use laws::{law_lists_are_put, law_moves_are_rows, law_parameters_have_no_effect};
pub use offer::{Conclusion, Due, Effect, Offer};
pub use remaining::Remaining;
pub use was::Was;
