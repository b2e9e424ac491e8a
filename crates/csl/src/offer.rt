//! What received components are checked against, and what they do (Q.774, component sublayer).

use crate::remaining::Remaining;
use crate::was::Was;
use hlr_types::Tid;
use q773_comp::Rejection;

/// What the peer may invoke in a dialogue.
#[derive(Clone, Copy, PartialEq, Eq)]
pub struct Offer {
    /// The invoke id of the peer's own open Invoke.
    pub open_id: Option<i8>,
    /// The code of the operation that the peer may invoke.
    pub operation: Option<u8>,
    /// Whether the first component may start it.
    pub may_start: bool,
    /// Whether the parameter of the first component is there and of its type.
    pub typed: bool,
}

/// The own invocations of a dialogue after received components (profile).
#[derive(Clone, Copy, PartialEq, Eq)]
pub enum Conclusion {
    /// One was concluded by an error or a Reject.
    HasFailed,
    /// None is left in Operation Sent.
    HasSucceeded,
    /// One waits for its answer.
    GoesOn,
}

/// What received components do to the own invocations of a dialogue.
#[derive(Drop)]
pub struct Effect {
    /// The Rejects to be sent, in the order of what they reject.
    pub rejects: Vec<Rejection>,
    /// The invoke id of what started.
    pub started: Option<i8>,
    /// The conclusion.
    pub conclusion: Conclusion,
    /// What is left of the invocations.
    pub left: Remaining,
}

/// An own invocation whose timer is due.
#[derive(Clone, Copy, PartialEq, Eq)]
pub struct Due {
    /// The local transaction id of its dialogue.
    pub id: Tid,
    /// Its invoke id.
    pub invoke: i8,
    /// The state that it was in.
    pub was: Was,
}
