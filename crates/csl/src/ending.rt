//! How a component concludes an invocation (Q.774, operations of class 1).

ghost use Rattle.std.specs.Prelude.{◌≡◌, IfSome, FitsSigned, Some};
ghost use Rattle.std.specs.Int.{w8};
ghost use Rattle.csl.specs.Seen.{heard};
ghost use Rattle.csl.specs.Endings.{ending, is_failing};

use q773_comp::{Component, Side};

/// How an invocation in Operation Sent is concluded.
#[derive(Clone, Copy)]
pub(crate) enum How {
    /// A ReturnResultLast.
    Succeeds,
    /// A ReturnError.
    Fails,
    /// A Reject of the Invoke.
    IsRejected,
}

/// The ending of the invocation with this id.
#[derive(Clone, Copy)]
pub(crate) struct Ending {
    pub(crate) id: i8,
    pub(crate) how: How,
}

/// Whether the operation has failed.
pub(crate) fn is_failing(how: How) -> bool
    ensures { result ≡ is_failing how }
{
    match how {
        How::Succeeds => false,
        How::Fails | How::IsRejected => true,
    }
}

/// The ending that a component causes, if it can conclude an invocation. A Reject does if its problem is a general or an
/// invoke problem.
pub(crate) fn ending_of<P>(component: &Component<P>) -> Option<Ending>
    ensures exact { result ≡ ending (heard component.now) }
    // A caller that looks for the id needs its range.
    ensures fits { IfSome result (λ ending. FitsSigned w8 ending.id) }
{
    match component {
        Component::ResultLast { id } => Some(Ending {
            id: *id,
            how: How::Succeeds,
        }),
        Component::ReturnError { id, .. } => Some(Ending {
            id: *id,
            how: How::Fails,
        }),
        Component::Reject {
            id: Some(id),
            side: Side::General | Side::OfInvoke,
            ..
        } => Some(Ending {
            id: *id,
            how: How::IsRejected,
        }),
        _ => None,
    }
}
