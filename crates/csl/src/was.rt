//! The states of an own invocation.

/// The state of an own invocation that is not Idle (Q.774, operations of class 1).
#[derive(Clone, Copy, PartialEq, Eq)]
pub enum Was {
    /// Operation Sent: it waits for its answer.
    Sent,
    /// Wait for Reject: it was answered, and the answer may still be rejected.
    Waiting,
}
