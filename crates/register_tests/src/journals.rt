//! Journals of a shard, and the answer when one is full.

use crate::given::{octets_at, peer};
use crate::samples::{RECORDS, ROUTE, ROUTE_ANSWER};
use bumpalo::Bump;
use hlrcore::{Event, RawEvent, ShardNumber, State, addressee_of};
use machine::numbers::MAX_ENTRIES;
use records::read_records;
use shardlog::{Entry, Handled, Keep, Shard, ShardFault};
use std::alloc::Global;
use std::process::Abort;
use std::test::Fail;

/// An event: a sendRoutingInfoForSM for a subscriber of shard 1, or the clock value 5 of a shard.
#[derive(Clone, Copy)]
enum Given {
    Route,
    Clock(u8),
}

/// A call, and its expected answer.
enum Step {
    /// The position of the entry, and the octets of the first frame, if one is sent.
    Handles(Given, usize, &'static [u8]),
    Refuses(Given, ShardFault),
    /// Handles clock values until the journal is full.
    Fills,
    /// The number of entries of the journal that is cut off.
    Cuts(usize),
    CountIs(usize),
    /// The last entry is that of a route, with the frame sent.
    LastIsRoute,
}

/// Shard 1 with an empty journal.
fn shard(alloc: Global) -> Result<Shard, Fail> {
    let loaded = read_records(alloc, RECORDS)?;
    let state = State::new(alloc, 1, &loaded)?;
    Ok(Shard::new(alloc, state, Keep::Entries).ok().ok_or("shard")?)
}

fn raw_event(alloc: Global, given: Given) -> Option<RawEvent> {
    match given {
        Given::Route => Some(RawEvent::Frame {
            from: peer(b"447700909999").ok()?,
            octets: ROUTE.to_vec(alloc).ok()?,
        }),
        Given::Clock(shard) => Some(RawEvent::Clock {
            shard: ShardNumber::new(shard)?,
            now: 5,
        }),
    }
}

fn event(alloc: Global, given: Given) -> Option<Event> {
    let raw = raw_event(alloc, given)?;
    Event::of(alloc, &mut Bump::new(alloc), &raw).ok()
}

fn handled(shard: &mut Shard, event: &mut Event) -> Result<Handled, ShardFault> {
    let found = addressee_of(shard.state().directory(), event);
    shard.handle(event, found)
}

fn handles(
    alloc: Global,
    shard: &mut Shard,
    given: Given,
    place: usize,
    said: &[u8],
) -> Option<bool> {
    let handled = handled(shard, &mut event(alloc, given)?).ok()?;
    Some(handled.position == place && octets_at(handled.outs.as_slice(), 0) == said)
}

fn refuses(alloc: Global, shard: &mut Shard, given: Given) -> Option<ShardFault> {
    handled(shard, &mut event(alloc, given)?).err()
}

fn fills(alloc: Global, shard: &mut Shard) -> Option<bool> {
    let mut tick = event(alloc, Given::Clock(1))?;
    for _ in 0..MAX_ENTRIES {
        if handled(shard, &mut tick).is_err() {
            return None;
        }
    }
    Some(true)
}

/// Whether the entry is that of an answered route.
fn is_route(entry: &Entry) -> bool {
    let said = octets_at(entry.outs.as_slice(), 0);
    said == ROUTE_ANSWER.as_slice() && entry.subject.is_some() && entry.id.is_none()
}

/// Whether a call answers as expected.
fn is_so(alloc: Global, shard: &mut Shard, step: &Step) -> Option<bool> {
    match step {
        Step::Handles(given, place, said) => handles(alloc, shard, *given, *place, said),
        Step::Refuses(given, fault) => Some(refuses(alloc, shard, *given)? == *fault),
        Step::Fills => fills(alloc, shard),
        Step::Cuts(count) => Some(shard.cut().ok()?.entries.len() == *count),
        Step::CountIs(count) => Some(shard.entries().len() == *count),
        Step::LastIsRoute => Some(is_route(shard.entries().last()?)),
    }
}

fn play(rt: &impl Abort, alloc: Global, steps: &[Step]) -> Result<(), Fail> {
    let mut shard = shard(alloc)?;
    for (place, step) in steps.iter().enumerate() {
        assert!(rt;
            is_so(alloc, &mut shard, step) == Some(true),
            "step {place}"
        );
    }
    Ok(())
}

const OF_TWO_EVENTS: [Step; 7] = [
    // An event of another shard leaves no entry.
    Step::Refuses(Given::Clock(2), ShardFault::NotMine),
    Step::CountIs(0),
    Step::Handles(Given::Clock(1), 0, &[]),
    Step::CountIs(1),
    Step::Handles(Given::Route, 1, &ROUTE_ANSWER),
    Step::CountIs(2),
    Step::LastIsRoute,
];

#[test]
fn an_event_is_journalled(rt: HostRuntime) -> Result<(), Fail> {
    play(&rt, rt.alloc(), &OF_TWO_EVENTS)
}

const OF_ONE_ROUTE: [Step; 3] = [
    Step::Handles(Given::Route, 0, &ROUTE_ANSWER),
    Step::CountIs(1),
    Step::LastIsRoute,
];

#[test]
fn an_entry_has_what_was_sent(rt: HostRuntime) -> Result<(), Fail> {
    play(&rt, rt.alloc(), &OF_ONE_ROUTE)
}

const OF_A_FULL_JOURNAL: [Step; 7] = [
    Step::Fills,
    Step::Refuses(Given::Clock(1), ShardFault::JournalFull),
    Step::Refuses(Given::Clock(2), ShardFault::NotMine),
    Step::CountIs(MAX_ENTRIES),
    Step::Cuts(MAX_ENTRIES),
    Step::CountIs(0),
    Step::Handles(Given::Clock(1), 0, &[]),
];

#[test]
fn a_full_journal_is_cut(rt: HostRuntime) -> Result<(), Fail> {
    play(&rt, rt.alloc(), &OF_A_FULL_JOURNAL)
}
