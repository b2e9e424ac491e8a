//! The outcomes of the procedures for single events, and what is sent, octet for octet.

use crate::given::{FIRST, imsi, peer};
use crate::samples::{INSERT, RECORDS, ROUTE, ROUTE_ANSWER, UPDATE_WITH_ONE_NUMBER};
use bumpalo::Bump;
use csl::{Due, Was};
use dialogues::{Dialogue, Kind};
use hlr_types::Imsi;
use location::{After, DialogueChange, Outcome, begins, expires, withdraws};
use mapargs_loc::CancellationType;
use msgarena::{Indication, ReadMessage, Round, Verdict};
use outgoing::{Addressed, octets_of};
use records::{Records, read_records};
use std::alloc::Global;
use tsl::Transaction;

fn subscriber() -> Option<Imsi> {
    imsi(b"234150000000001").ok()
}

fn records(alloc: Global) -> Option<Records> {
    read_records(alloc, RECORDS).ok()?.part(1).ok()
}

/// What these octets read to.
fn taken(alloc: Global, octets: &[u8]) -> Option<Indication> {
    let from = peer(b"447700900012").ok()?;
    Round::take(alloc, &mut Bump::new(alloc), from, octets).ok()
}

/// The outcome of a Begin, none if it is out of memory.
fn begun(alloc: Global, indication: &Indication, records: &Records) -> Option<Outcome> {
    let Verdict::Read(message) = indication.verdict() else {
        return None;
    };
    let ReadMessage::Begin {
        origin,
        components,
        ..
    } = message
    else {
        return None;
    };
    let found = records.get(&subscriber()?);
    let heard = components.as_slice();
    begins(alloc, indication, *origin, heard, found, 0, FIRST).ok()
}

/// The outcome of a Begin of these octets.
fn outcome_of(alloc: Global, octets: &[u8]) -> Option<Outcome> {
    begun(alloc, &taken(alloc, octets)?, &records(alloc)?)
}

/// Whether this is sent.
fn says(alloc: Global, sent: &Option<Addressed>, octets: &[u8]) -> Option<bool> {
    match sent {
        Some(out) => Some(octets_of(alloc, &out.message).ok()?.as_slice() == octets),
        None => Some(false),
    }
}

/// How many operations a dialogue that opens invokes; 0 if none opens.
fn invoked(outcome: &Outcome) -> u8 {
    match &outcome.dialogue {
        DialogueChange::Opens(opening) => opening.invoked,
        _ => 0,
    }
}

/// Whether a route is answered, with the record unchanged and no dialogue opened.
fn is_route_answered(alloc: Global) -> Option<bool> {
    let outcome = outcome_of(alloc, &ROUTE)?;
    let is_answer = says(alloc, &outcome.message, &ROUTE_ANSWER)?;
    Some(is_answer && matches!(outcome.after, After::Same) && invoked(&outcome) == 0)
}

/// Whether an update changes the record and opens a dialogue with one insert.
fn is_update_opened(alloc: Global) -> Option<bool> {
    let outcome = outcome_of(alloc, &UPDATE_WITH_ONE_NUMBER)?;
    let is_insert = says(alloc, &outcome.message, &INSERT)?;
    Some(is_insert && matches!(outcome.after, After::Location { .. }) && invoked(&outcome) == 1)
}

#[test]
fn begins_are_answered(rt: HostRuntime) {
    assert!(rt; is_route_answered(rt.alloc()) == Some(true), "a route");
    assert!(rt; is_update_opened(rt.alloc()) == Some(true), "an update");
}

/// The outcome of the expiry of a cancel's first attempt to these digits.
fn expired(alloc: Global, vlr: &[u8]) -> Option<Outcome> {
    let records = records(alloc)?;
    let subscriber = subscriber()?;
    let vlr = peer(vlr).ok()?;
    let dialogue = Dialogue {
        subscriber,
        transaction: Transaction {
            peer: vlr,
            remote: None,
        },
        kind: Kind::Cancel {
            vlr,
            attempt: 1,
            why: CancellationType::UpdateProcedure,
        },
    };
    let due = Due {
        id: FIRST,
        invoke: 1,
        was: Was::Sent,
    };
    let found = records.get(&subscriber);
    Some(expires(alloc, found, None, &dialogue, due, FIRST))
}

/// Whether a cancel is repeated, but not to the serving register.
fn is_repeated(alloc: Global) -> Option<bool> {
    let elsewhere = expired(alloc, b"447700900012")?;
    let serving = expired(alloc, b"447700900011")?;
    Some(invoked(&elsewhere) == 1 && elsewhere.cancel.is_some() && invoked(&serving) == 0)
}

/// Whether a withdrawal opens a cancel.
fn is_withdrawn(alloc: Global) -> Option<bool> {
    let records = records(alloc)?;
    let withdrawn = withdraws(records.get(&subscriber()?), FIRST);
    Some(matches!(withdrawn.after, After::Withdrawn) && invoked(&withdrawn) == 1)
}

#[test]
fn cancels_are_sent(rt: HostRuntime) {
    assert!(rt; is_repeated(rt.alloc()) == Some(true), "an expiry");
    assert!(rt;
        is_withdrawn(rt.alloc()) == Some(true),
        "the end of a subscription"
    );
}
