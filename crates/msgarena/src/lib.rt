//! What becomes of a frame of any octets: it is discarded, answered with an Abort, or a message (ITU-T Q.773, 3GPP TS 29.002).
//!
//! [`Round::take`] decodes a frame in an arena, copies out what it reads to, and resets the arena. An [`Indication`] is the
//! frame with the [`Verdict`] on it, and owns both. It guarantees that the verdict is the one of the definitions, down to the
//! arguments of the Invokes.
#![tactic(auto)]

mod components;
mod fault;
mod heard;
mod indication;
mod message;
mod parameter;
mod round;
mod verdict;

pub use fault::RoundFault;
pub use heard::Heard;
pub use indication::Indication;
pub use message::{ReadMessage, Response, Verdict};
pub use parameter::{Argument, Parameter};
pub use round::Round;
