//! Whether a received Begin is accepted.

ghost use Rattle.std.specs.Prelude.{◌≡◌, ℕ, List, length, option_map};
ghost use Rattle.machine.specs.Received.{Component};
ghost use Rattle.machine.specs.State.{Local};
ghost use Rattle.machine.specs.Contexts.{accepted};
ghost use Rattle.machine.specs.Begins.{begins};
ghost use Rattle.mapctx.specs.Seen.{context};
ghost use Rattle.mapdlg.specs.Accepting.{decision, decision_in, decision_under, begins_as};
ghost use Rattle.mapdlg.specs.Seen.{decided};

use crate::why::Why;
use mapctx::{Context, ContextName, Named, context_of, name_of, operation_of};

/// What is decided on a Begin before its components are handled.
#[derive(Clone, Copy, PartialEq, Eq)]
pub enum Accepted {
    /// It begins in this context, in which a peer may begin.
    Go(Context),
    /// It is answered with an Abort for this reason.
    Refuse(Why),
}

/// What is decided on a received Begin, by the name of the context that its dialogue portion requests and by how many components
/// it has. It is refused without a dialogue portion, then in a context in which a peer may not begin, then without a component
/// (profile). It does not allocate.
pub fn accept(name: Option<&ContextName>, count: usize) -> Accepted
    ensures exact { (components : List Component) → count ≡ length components
        → decided result ≡ decision (option_map (λ n. n.now) name.entry) components }
    // The machine does the same.
    ensures machine { (here : Local) (from origin : List ℕ) (components : List Component)
        (new : List ℕ) → count ≡ length components
        → begins here from origin (option_map (λ n. n.now) name.entry) components new
        ≡ begins_as (decided result) here from origin components new }
{
    match name {
        Some(name) => accept_under(name, count),
        None => Accepted::Refuse(Why::NoCause),
    }
}

/// What is decided on a Begin whose dialogue request has this context name.
#[tactic(auto, using(crate::proofs::Deciding::deciding))]
fn accept_under(name: &ContextName, count: usize) -> Accepted
    ensures { (components : List Component) → count ≡ length components
        → decided result ≡ decision_under name.now (accepted name.now) components }
{
    match context_of(name.as_slice()) {
        Named::Known(context) if operation_of(context).is_some() => accept_in(context, count),
        Named::OtherVersion(context) => {
            let offered = ContextName::from_slice(&name_of(context));
            Accepted::Refuse(Why::Refusing(offered))
        }
        Named::Known(_) | Named::Unknown => Accepted::Refuse(Why::Refusing(*name)),
    }
}

/// What is decided on a Begin in a context in which a peer may begin.
#[tactic(auto, using(crate::proofs::Deciding::with_components))]
fn accept_in(of: Context, count: usize) -> Accepted
    ensures { (components : List Component) → count ≡ length components
        → decided result ≡ decision_in (context of) components }
{
    if count == 0 {
        Accepted::Refuse(Why::NoCause)
    } else {
        Accepted::Go(of)
    }
}
