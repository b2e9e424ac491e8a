//! The parameter of an Invoke, read by its operation (TS 29.002, 17.7.1 and 17.7.6).

ghost use Rattle.std.specs.Prelude.{◌≡◌};
ghost use Rattle.bertree.specs.Nodes.{tree};
ghost use Rattle.frames.specs.Arguments.{update_of, purge_of, route_of, parameter_of};
ghost use Rattle.q773_comp.specs.Seen.{code};
ghost use Rattle.msgarena.specs.Seen.{parameter, unread};

use bertree::Node;
use machine::numbers::{PURGE_MS, SEND_ROUTING_INFO_FOR_SM, UPDATE_LOCATION};
use mapargs_loc::{ArgFault, PurgeArg, UpdateArg, read_purge, read_update};
use mapargs_sm::{RouteArg, read_route};
use q773_comp::Code;

/// The argument of an operation that a peer may invoke (TS 29.002, 17.6).
#[derive(Clone, Copy, Debug, PartialEq, Eq)]
pub enum Argument {
    /// Of the operation's type, but an identity or a number in it is invalid.
    BadValue,
    Update(UpdateArg),
    Purge(PurgeArg),
    Route(RouteArg),
}

/// The parameter of an Invoke, read by its operation.
#[derive(Clone, Copy, Debug, PartialEq, Eq)]
pub enum Parameter {
    /// Not of the operation's type. Every parameter of an operation that no peer may invoke is mistyped.
    Mistyped,
    Typed(Argument),
}

/// The parameter that is no argument, for this reason.
fn unread(fault: ArgFault) -> Parameter
    ensures { parameter result ≡ unread fault }
{
    match fault {
        ArgFault::Mistyped => Parameter::Mistyped,
        ArgFault::BadValue => Parameter::Typed(Argument::BadValue),
    }
}

/// The parameter of an updateLocation (UpdateLocationArg).
fn update(node: &Node) -> Parameter
    ensures { parameter result ≡ update_of (tree node.now) }
{
    match read_update(node) {
        Ok(update) => Parameter::Typed(Argument::Update(update)),
        Err(fault) => unread(fault),
    }
}

/// The parameter of a purgeMS (PurgeMS-Arg).
fn purge(node: &Node) -> Parameter
    ensures { parameter result ≡ purge_of (tree node.now) }
{
    match read_purge(node) {
        Ok(purge) => Parameter::Typed(Argument::Purge(purge)),
        Err(fault) => unread(fault),
    }
}

/// The parameter of a sendRoutingInfoForSM (RoutingInfoForSM-Arg).
fn route(node: &Node) -> Parameter
    ensures { parameter result ≡ route_of (tree node.now) }
{
    match read_route(node) {
        Ok(route) => Parameter::Typed(Argument::Route(route)),
        Err(fault) => unread(fault),
    }
}

/// The parameter of an Invoke with this code.
#[tactic(auto, unfolding(frames::specs::Arguments::parameter_of))]
pub(crate) fn parameter_of(operation: Code, node: &Node) -> Parameter
    ensures { parameter result ≡ parameter_of (code operation) (tree node.now) }
{
    match operation {
        Code::Number(UPDATE_LOCATION) => update(node),
        Code::Number(PURGE_MS) => purge(node),
        Code::Number(SEND_ROUTING_INFO_FOR_SM) => route(node),
        Code::Number(_) | Code::Other => Parameter::Mistyped,
    }
}
