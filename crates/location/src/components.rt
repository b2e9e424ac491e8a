//! The results and errors that procedures answer with (TS 29.002).

ghost use Rattle.std.specs.Prelude.{◌≡◌};
ghost use Rattle.machine.specs.Sent as machine;
ghost use Rattle.machine.specs.Begins.{route_component};
ghost use Rattle.outgoing.specs.Seen.{component};
ghost use Rattle.smroute.specs.Seen.{machine_answer};

use dialogues::InvokeId;
use hlr_types::IsdnAddress;
use outgoing::SentComponent;
use smroute::RouteAnswer;

/// A ReturnError.
pub(crate) fn error(invoke: InvokeId, code: u8) -> SentComponent
    ensures { component result ≡ machine.SentError invoke code }
{
    SentComponent::Error {
        id: invoke.number(),
        code,
    }
}

/// The result of updateLocation (MAP-MS-DataTypes, UpdateLocationRes).
pub(crate) fn update_result(invoke: InvokeId, hlr: IsdnAddress) -> SentComponent
    ensures { component result ≡ machine.UpdateResult invoke hlr }
{
    SentComponent::UpdateResult {
        id: invoke.number(),
        hlr,
    }
}

/// The result of purgeMS (MAP-MS-DataTypes, PurgeMS-Res).
pub(crate) fn purge_result(invoke: InvokeId, freeze: bool) -> SentComponent
    ensures { component result ≡ machine.PurgeResult invoke freeze }
{
    SentComponent::PurgeResult {
        id: invoke.number(),
        freeze,
    }
}

/// The answer to sendRoutingInfoForSM: RoutingInfoForSM-Res (MAP-SM-DataTypes), or an error.
pub(crate) fn route_answer(invoke: InvokeId, answer: RouteAnswer) -> SentComponent
    ensures { component result ≡ route_component invoke (machine_answer answer) }
{
    match answer {
        RouteAnswer::NoRoute(code) => error(invoke, code),
        RouteAnswer::RouteTo { imsi, msc, lmsi } => SentComponent::RouteResult {
            id: invoke.number(),
            imsi,
            msc,
            lmsi,
        },
    }
}
