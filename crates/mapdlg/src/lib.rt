//! The dialogue of an application context (3GPP TS 29.002, Q.773): whether a received Begin is accepted, and how its context is
//! accepted or refused.
#![tactic(auto)]

mod answers;
mod begins;
mod portions;
mod why;

pub use answers::refuse;
pub use begins::{Accepted, accept};
pub use portions::{answer_contents, first_answer, first_request, request_contents};
pub use why::Why;
