//! A procedure that runs out of memory.

use crate::given::{FIRST, is_shown, loaded, part, peer, subscriber};
use crate::samples::{INSERT_AND_REJECTS, OTHER_VLR, PURGE, PURGED, UPDATE_AND_RESULTS};
use bumpalo::Bump;
use location::{Outcome, begins};
use msgarena::{Indication, ReadMessage, Round, Verdict};
use outgoing::octets_of;
use records::Records;
use std::alloc::Global;

fn records(alloc: Global) -> Option<Records> {
    part(&loaded(alloc)?)
}

/// What these octets read to.
pub(crate) fn taken(alloc: Global, octets: &[u8]) -> Option<Indication> {
    Round::take(alloc, &mut Bump::new(alloc), peer(OTHER_VLR)?, octets).ok()
}

pub(crate) fn copied(alloc: Global, indication: &Indication) -> Option<Indication> {
    indication.try_copy(alloc).ok()
}

/// The outcome of a Begin, none if it is out of memory.
fn begun(alloc: Global, indication: &Indication, records: &Records) -> Option<Outcome> {
    let Verdict::Read(message) = indication.verdict() else {
        return None;
    };
    let ReadMessage::Begin {
        origin,
        components,
        ..
    } = message
    else {
        return None;
    };
    let found = records.get(&subscriber()?);
    let heard = components.as_slice();
    begins(alloc, indication, *origin, heard, found, 0, FIRST).ok()
}

pub(crate) fn are_alike(one: &Indication, other: &Indication) -> bool {
    if one.from() != other.from() {
        return false;
    }
    if one.octets() != other.octets() {
        return false;
    }
    one.verdict() == other.verdict()
}

/// Whether an outcome sends this first.
fn sends(alloc: Global, left: &Outcome, octets: &[u8]) -> Option<bool> {
    match &left.message {
        Some(out) => Some(octets_of(alloc, &out.message).ok()?.as_slice() == octets),
        None => Some(false),
    }
}

/// Whether what a procedure was given is as it was, and the procedure then sends this.
fn answers_again(
    alloc: Global,
    given: &Indication,
    before: &Indication,
    records: &Records,
    answer: &[u8],
) -> Option<bool> {
    if !are_alike(given, before) {
        return Some(false);
    }
    match begun(alloc, given, records) {
        Some(left) => sends(alloc, &left, answer),
        None => Some(false),
    }
}

/// Whether the procedure of a Begin sends this, at the second try if the first fails; on error what it was given is as it was.
fn answers(alloc: Global, octets: &[u8], answer: &[u8]) -> Option<bool> {
    let records = records(alloc)?;
    let given = taken(alloc, octets)?;
    let before = copied(alloc, &given)?;
    match begun(alloc, &given, &records) {
        Some(left) => sends(alloc, &left, answer),
        None => answers_again(alloc, &given, &before, &records, answer),
    }
}

/// An update whose Begin has more components to reject than its list has room for at first, and a purge.
#[test]
fn updates_and_purges(rt: HostRuntime) {
    let update = answers(rt.alloc(), &UPDATE_AND_RESULTS, &INSERT_AND_REJECTS);
    assert!(rt; is_shown(&rt, update), "an update");
    let purge = answers(rt.alloc(), &PURGE, &PURGED);
    assert!(rt; is_shown(&rt, purge), "a purge");
}
