//! The argument of a sendRoutingInfoForSM, as it is received (TS 29.002, 12.1, MAP-SEND-ROUTING-INFO-FOR-SM; type 17.7.6).

ghost use Rattle.std.specs.Prelude.{◌≡◌, ◌↔◌, Err, IfOk, option_map};
ghost use Rattle.bertree.specs.Nodes.{tree};
ghost use Rattle.frames.specs.Arguments.{route_typed, route_of};
ghost use Rattle.frames.specs.ArgumentForms.{IsTyped, Arg};
ghost use Rattle.machine.specs.declared.numbers.TheConstants.{SEND_ROUTING_INFO_FOR_SM};
ghost use Rattle.machine.specs.Received.{Argument, Typed};
ghost use Rattle.mapargs_loc.specs.Seen.{answer};
ghost use Rattle.mapargs_sm.specs.Seen.{route_argument};

use bertree::Node;
use bertree::elements::octets;
use frames::tags::{ROUTE_MSISDN, SEQUENCE, SERVICE_CENTRE, SM_RP_PRI};
use hlr_types::IsdnAddress;
use mapargs_loc::ArgFault;

/// The RoutingInfoForSM-Arg: where is the subscriber with this MSISDN?
///
/// Limitation: sm-RP-PRI and serviceCentreAddress are not kept.
#[derive(Clone, Copy, Debug, PartialEq, Eq)]
pub struct RouteArg {
    pub msisdn: IsdnAddress,
}

/// The octets of the msisdn, if the type is right. The sm-RP-PRI is a BOOLEAN, of one octet (X.690, 8.2.1).
#[tactic(auto, unfolding(frames::specs::Arguments::route_typed))]
fn typed<'a>(parameter: &Node<'a>) -> Option<&'a [u8]>
    ensures { option_map (λ o. o.now) result ≡ route_typed (tree parameter.now) }
{
    let elements = parameter.children(SEQUENCE)?;
    let (msisdn, elements) = octets(elements, ROUTE_MSISDN)?;
    let (priority, elements) = elements.split_first()?;
    let _priority = priority.octet(SM_RP_PRI)?;
    let (_centre, _further) = octets(elements, SERVICE_CENTRE)?;
    Some(msisdn)
}

/// The argument, or its first fault: the type is checked before the value.
#[tactic(auto, unfolding(frames::specs::Arguments::route_value))]
fn route_in(parameter: &Node) -> Result<RouteArg, ArgFault>
    ensures { answer route_argument result ≡ route_of (tree parameter.now) }
{
    let octets = typed(parameter).ok_or(ArgFault::Mistyped)?;
    let msisdn = IsdnAddress::read(octets).ok_or(ArgFault::BadValue)?;
    Ok(RouteArg { msisdn })
}

/// The received RoutingInfoForSM-Arg: `30`, and in it msisdn `80`, sm-RP-PRI `81` and serviceCentreAddress `82`. It does not
/// allocate.
///
/// Limitation: the serviceCentreAddress and further elements are accepted unread.
pub fn read_route(parameter: &Node) -> Result<RouteArg, ArgFault>
    // What is read is the argument that the tree spells, and whatever spells one is read.
    ensures found { IfOk result (λ route. Arg SEND_ROUTING_INFO_FOR_SM (tree parameter.now)
        (route_argument route)) }
    ensures only { (argument : Argument)
        → Arg SEND_ROUTING_INFO_FOR_SM (tree parameter.now) argument
        → answer route_argument result ≡ Typed argument }

    // A fault says that the tree is not of the type, or that it is of the type and spells no argument.
    ensures mistyped { (result ≡ Err ArgFault.Mistyped)
        ↔ (IsTyped SEND_ROUTING_INFO_FOR_SM (tree parameter.now) → ⊥) }
    ensures bad_value { (result ≡ Err ArgFault.BadValue)
        ↔ (IsTyped SEND_ROUTING_INFO_FOR_SM (tree parameter.now)
        × ((argument : Argument) → Arg SEND_ROUTING_INFO_FOR_SM (tree parameter.now) argument
        → ⊥)) }

    // The result is a function of the tree.
    ensures exact { answer route_argument result ≡ route_of (tree parameter.now) }
{
    route_in(parameter)
}
