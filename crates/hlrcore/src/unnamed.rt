//! The plan of an event that names no open dialogue.

ghost use Rattle.std.specs.Prelude.{◌≡◌};
ghost use Rattle.hlrcore.specs.Unnamed.{known_imsi, unnamed_plan};

use crate::plan::{Named, Plan};
use hlr_types::{Imsi, ShortList, Tid};
use location::Outcome;
use records::Record;

/// The IMSI of a record, if there is one.
fn known(subscriber: Option<&Record>) -> Option<Imsi>
    ensures { result ≡ known_imsi subscriber.entry }
{
    match subscriber {
        Some(subscriber) => Some(subscriber.imsi),
        None => None,
    }
}

/// The plan of an event that names no open dialogue. Its subject is the subscriber, if there is a record.
pub(crate) fn unnamed(
    imsi: Option<Imsi>,
    subscriber: Option<&Record>,
    new: Tid,
    codes: ShortList<32>,
    outcome: Outcome,
) -> Plan
    ensures { result ≡ unnamed_plan imsi subscriber.entry new codes outcome }
{
    Plan {
        imsi,
        subject: known(subscriber),
        named: Named::Nothing,
        new,
        codes,
        outcome,
    }
}
