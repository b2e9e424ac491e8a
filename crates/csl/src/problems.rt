//! The Reject of one received component (Q.774, component sublayer; the problems are those of Q.773).

ghost use Rattle.std.specs.Prelude.{◌≡◌, true, option_map, option_to_list};
ghost use Rattle.machine.specs.Effect.{in_sent, is_id, is_operation, problem_of, problem_of_start, reject_answer, started_by};
ghost use Rattle.q773_comp.specs.Seen.{code, rejection, side};
ghost use Rattle.csl.specs.Seen.{heard};
ghost use Rattle.csl.specs.Effects.{linked_now, offered, reject_now};

use crate::invocation::Invocation;
use crate::list::in_sent;
use crate::offer::Offer;
use machine::numbers::{
    DUPLICATE_INVOKE_ID, INVOKE_RESOURCE_LIMITATION, LINKED_RESPONSE_UNEXPECTED,
    MISTYPED_PARAMETER, UNRECOGNIZED_INVOKE_ID, UNRECOGNIZED_LINKED_ID, UNRECOGNIZED_OPERATION,
};
use q773_comp::{Code, Component, Rejection, Side};

/// Whether this is the id.
fn is_id(waited: Option<i8>, id: i8) -> bool
    ensures { result ≡ is_id waited id }
{
    match waited {
        Some(waited) => waited == id,
        None => false,
    }
}

/// Whether the code is that of the operation that may be invoked.
fn is_operation(offer: &Offer, operation: Code) -> bool
    ensures { result ≡ is_operation offer.now.operation (code operation) }
{
    match (offer.operation, operation) {
        (Some(offered), Code::Number(number)) => offered == number,
        _ => false,
    }
}

/// The problem of an Invoke of the operation that the peer may invoke.
fn problem_of_start(offer: &Offer, is_first: bool) -> Option<u8>
    ensures { result ≡ problem_of_start (offered offer.now) is_first }
{
    if !is_first || !offer.may_start {
        Some(INVOKE_RESOURCE_LIMITATION)
    } else if offer.typed {
        None
    } else {
        Some(MISTYPED_PARAMETER)
    }
}

/// The problem of an Invoke, if any, by the checks in their order (profile).
fn problem_of(
    offer: &Offer,
    is_open: bool,
    linked: Option<bool>,
    operation: Code,
    is_first: bool,
) -> Option<u8>
    ensures { result ≡ problem_of (offered offer.now) is_open linked (code operation) is_first }
{
    if is_open {
        return Some(DUPLICATE_INVOKE_ID);
    }
    match linked {
        Some(true) => Some(LINKED_RESPONSE_UNEXPECTED),
        Some(false) => Some(UNRECOGNIZED_LINKED_ID),
        None if is_operation(offer, operation) => problem_of_start(offer, is_first),
        None => Some(UNRECOGNIZED_OPERATION),
    }
}

/// Whether the linked id, if there is one, is that of an invocation in Operation Sent.
fn linked_to(list: &[Invocation], linked: Option<i8>) -> Option<bool>
    ensures { result ≡ linked_now list.now linked }
{
    match linked {
        Some(id) => Some(in_sent(list, id)),
        None => None,
    }
}

/// The Reject of a result or an error for no invocation in Operation Sent.
fn reject_answer(list: &[Invocation], id: i8, of: Side) -> Option<Rejection>
    ensures { option_to_list (option_map rejection result)
        ≡ reject_answer id (side of) (in_sent id list.now) }
{
    if in_sent(list, id) {
        return None;
    }
    Some(Rejection {
        id: Some(id),
        side: of,
        problem: UNRECOGNIZED_INVOKE_ID,
    })
}

/// The Reject of a component, if any, with the invocations as the components before it leave them. `started` is ignored for
/// the first component. A Reject is never answered.
pub(crate) fn rejection_of<P>(
    offer: &Offer,
    list: &[Invocation],
    started: Option<i8>,
    is_first: bool,
    component: &Component<P>,
) -> Option<Rejection>
    ensures { option_to_list (option_map rejection result)
        ≡ reject_now (offered offer.now) list.now started is_first (heard component.now) }
{
    match component {
        Component::Invoke {
            id,
            linked,
            operation,
            ..
        } => {
            let is_open = is_id(offer.open_id, *id) || (!is_first && is_id(started, *id));
            let linked = linked_to(list, *linked);
            let problem = problem_of(offer, is_open, linked, *operation, is_first)?;
            Some(Rejection {
                id: Some(*id),
                side: Side::OfInvoke,
                problem,
            })
        }
        Component::ResultLast { id } | Component::ResultNotLast { id } => {
            reject_answer(list, *id, Side::OfResult)
        }
        Component::ReturnError { id, .. } => reject_answer(list, *id, Side::OfError),
        Component::Bad(id, problem) => Some(Rejection {
            id: *id,
            side: Side::General,
            problem: *problem,
        }),
        Component::Reject { .. } | Component::Ignored => None,
    }
}

/// What the first component comes to: the invoke id of what starts, if it is an Invoke without a problem, and its Reject, if
/// any.
pub(crate) fn first_heard<P>(
    offer: &Offer,
    list: &[Invocation],
    first: &Component<P>,
) -> (Option<i8>, Option<Rejection>)
    ensures started { result.0 ≡ started_by (offered offer.now) list.now (heard first.now) }
    ensures rejected { option_to_list (option_map rejection result.1)
        ≡ reject_now (offered offer.now) list.now None true (heard first.now) }
{
    let rejection = rejection_of(offer, list, None, true, first);
    let Component::Invoke { id, .. } = first else {
        return (None, rejection);
    };
    match rejection {
        Some(_) => (None, rejection),
        None => (Some(*id), None),
    }
}
