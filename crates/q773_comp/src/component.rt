//! Components (Q.773, component portion).

/// The code of an operation or an error (Q.773).
#[derive(Clone, Copy, Debug, PartialEq, Eq)]
pub enum Code {
    /// A local code of one octet.
    Number(u8),
    /// A longer local code or a global one. No operation or error known here has such a code.
    Other,
}

/// Which kind of component a Reject's problem is of (Q.773, problem code).
#[derive(Clone, Copy, Debug, PartialEq, Eq)]
pub enum Side {
    General,
    OfInvoke,
    OfResult,
    OfError,
}

/// A received component. `P` is the type of an Invoke's parameter: a node of the tree that was read, or a value made from
/// it.
///
/// Limitation: the code and the parameter of a result and the parameter of an error are accepted, and not kept (profile).
#[derive(Clone, Copy, Debug, PartialEq, Eq, Drop)]
pub enum Component<P> {
    Invoke {
        id: i8,
        linked: Option<i8>,
        operation: Code,
        parameter: Option<P>,
    },
    ResultLast {
        id: i8,
    },
    ResultNotLast {
        id: i8,
    },
    ReturnError {
        id: i8,
        error: Code,
    },
    /// A Reject; without an id it rejects a component that had none.
    Reject {
        id: Option<i8>,
        side: Side,
        problem: u8,
    },
    /// An ill-formed component: its id, if that can be read, and the general problem that is answered (profile).
    Bad(Option<i8>, u8),
    /// An ill-formed Reject, which keeps its place (profile).
    Ignored,
}

/// The kinds of component that begin with an id.
#[derive(Clone, Copy)]
pub(crate) enum Kind {
    Invoke,
    ResultLast,
    ResultNotLast,
    ReturnError,
}
