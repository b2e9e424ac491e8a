//! The route of one subscriber.

ghost use Rattle.std.specs.Prelude.{◌≡◌, ℕ, List, IfSome, option_map, if◌then◌else◌};
ghost use Rattle.machine.specs.SmRoute.{NoRoute, sm_route, route_by, has_short_messages};
ghost use Rattle.machine.specs.declared.numbers.TheConstants.{TELESERVICE_NOT_PROVISIONED};
ghost use Rattle.smroute.specs.Seen.{machine_subscriber, machine_register, machine_answer};

use crate::answer::RouteAnswer;
use hlr_types::{Imsi, Register};
use machine::numbers::{
    ABSENT_SUBSCRIBER_SM, ALL_SHORT_MESSAGE_SERVICES, SHORT_MESSAGE_MT_PP,
    TELESERVICE_NOT_PROVISIONED, UNKNOWN_SUBSCRIBER,
};
use records::Record;

/// The SM route of a subscriber (TS 29.002, 12.1). Does not allocate.
///
/// Errors in this order (profile): unknownSubscriber if there is no record or it is withdrawn; teleserviceNotProvisioned if no
/// code is for short messages to the subscriber; absentSubscriberSM if there is no serving register, or it has purged the
/// subscriber.
pub fn route_sm(subscriber: Option<&Record>) -> RouteAnswer
    ensures { (imsi : List ℕ) → IfSome subscriber.entry (λ s. s.now.imsi ≡ imsi)
        → machine_answer result ≡ sm_route imsi
        (option_map (λ s. machine_subscriber s.now) subscriber.entry) }
{
    match subscriber {
        Some(subscriber) if !subscriber.withdrawn => route_of(subscriber),
        _ => RouteAnswer::NoRoute(UNKNOWN_SUBSCRIBER),
    }
}

/// The route of a subscriber who is not withdrawn.
fn route_of(subscriber: &Record) -> RouteAnswer
    ensures { machine_answer result ≡ (if has_short_messages subscriber.now.codes
        then route_by subscriber.now.imsi subscriber.now.purged (option_map machine_register subscriber.now.register)
        else NoRoute TELESERVICE_NOT_PROVISIONED) }
{
    if !has_short_messages(subscriber.codes.as_slice()) {
        return RouteAnswer::NoRoute(TELESERVICE_NOT_PROVISIONED);
    }
    route_by(subscriber.imsi, subscriber.purged, subscriber.register)
}

/// Whether short messages to the subscriber are provisioned.
fn has_short_messages(codes: &[u8]) -> bool
    ensures { result ≡ has_short_messages codes.now }
{
    codes.iter().any(|code| *code == ALL_SHORT_MESSAGE_SERVICES || *code == SHORT_MESSAGE_MT_PP)
}

/// The route through the serving register, if there is one.
fn route_by(imsi: Imsi, purged: bool, register: Option<Register>) -> RouteAnswer
    ensures { machine_answer result ≡ route_by imsi purged (option_map machine_register register) }
{
    match register {
        Some(register) if !purged => RouteAnswer::RouteTo {
            imsi,
            msc: register.msc,
            lmsi: register.lmsi,
        },
        _ => RouteAnswer::NoRoute(ABSENT_SUBSCRIBER_SM),
    }
}
