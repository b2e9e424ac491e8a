//! The events of the tests, by their numbers, and what the register sends for each.

use crate::frame_samples::{
    ABORT, CANCEL_AGAIN, CONTEXT_REFUSED, INSERT, NO_COMPONENT, NO_CONTEXT, OTHER_CONTEXT,
    OTHER_VERSION, PURGED_NOTHING, RESULT, ROUTED, UPDATED_AND_CANCEL, VERSION_REFUSED, WITHDRAWAL,
};
use crate::given::{frame, subscriber};
use crate::samples::{PURGE, ROUTE, UPDATE};
use bumpalo::Bump;
use hlrcore::{Change, Event, RawEvent, ShardNumber};
use std::alloc::Global;

/// How many events there are.
pub(crate) const EVENTS: usize = 11;

/// How many of them are frames. These are the first.
pub(crate) const FRAMES: usize = 8;

/// The frames: four updates whose context is refused, an update, the result of its insert (so an End, and a cancel), a route, and a
/// purge.
pub(crate) fn frame_octets(number: usize) -> &'static [u8] {
    match number {
        0 => &OTHER_VERSION,
        1 => &OTHER_CONTEXT,
        2 => &NO_CONTEXT,
        3 => &NO_COMPONENT,
        4 => &UPDATE,
        5 => &RESULT,
        6 => &ROUTE,
        _ => &PURGE,
    }
}

/// What is sent for each event, one frame after another.
pub(crate) fn sent_octets(number: usize) -> &'static [u8] {
    match number {
        0 => &VERSION_REFUSED,
        1 => &CONTEXT_REFUSED,
        2 | 3 => &ABORT,
        4 => &INSERT,
        5 => &UPDATED_AND_CANCEL,
        6 => &ROUTED,
        7 => &PURGED_NOTHING,
        9 => &CANCEL_AGAIN,
        10 => &WITHDRAWAL,
        _ => &[],
    }
}

fn clock_value() -> Option<RawEvent> {
    let shard = ShardNumber::new(1)?;
    Some(RawEvent::Clock { shard, now: 100 })
}

fn expiry() -> Option<RawEvent> {
    let shard = ShardNumber::new(1)?;
    Some(RawEvent::Expire { shard })
}

fn withdrawal() -> Option<RawEvent> {
    let imsi = subscriber()?;
    let change = Change::Withdraw;
    Some(RawEvent::Change { imsi, change })
}

/// The frames, a clock value, an expiry (so the cancel again), and a withdrawal (so another cancel).
fn event(alloc: Global, number: usize) -> Option<RawEvent> {
    match number {
        8 => clock_value(),
        9 => expiry(),
        10 => withdrawal(),
        _ => frame(alloc, frame_octets(number)),
    }
}

/// The events from this number on.
pub(crate) fn events_from(alloc: Global, first: usize) -> Option<Vec<RawEvent>> {
    let mut events = Vec::new(alloc);
    for number in first..EVENTS {
        events.push(event(alloc, number)?).ok()?;
    }
    Some(events)
}

/// An event, read.
pub(crate) fn read_event(alloc: Global, number: usize) -> Option<Event> {
    Event::of(alloc, &mut Bump::new(alloc), &event(alloc, number)?).ok()
}
