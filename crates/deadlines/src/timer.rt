//! Invocations, and deadlines of them.

use hlr_types::Tid;

/// An own invocation: the local transaction id of its dialogue, and its invoke id. Invocations are ordered by the octets
/// of the local id, and then by the invoke id as a signed number.
#[derive(Clone, Copy, PartialEq, Eq, PartialOrd, Ord)]
pub struct Invocation {
    pub id: Tid,
    pub invoke: i8,
}

/// A deadline of an invocation, in clock ticks. Deadlines are ordered by time, then by invocation.
#[derive(Clone, Copy, PartialEq, Eq, PartialOrd, Ord)]
pub struct Timer {
    pub deadline: u64,
    pub invocation: Invocation,
}
