//! Shards without a journal: what they send, and their states, are as with one.

use crate::given::peer;
use crate::samples::{RECORDS, UPDATE};
use bumpalo::Bump;
use hlrcore::{Event, OutList, RawEvent, ShardNumber, State, addressee_of};
use records::read_records;
use shardlog::{Handled, Keep, Shard};
use std::alloc::Global;
use std::test::Fail;
use wholenode::{Node, read_lot};

/// An update (so an insert), a clock value by which its timer is due, and the expiry of that (so the update ends with an error).
fn events(alloc: Global) -> Option<Vec<RawEvent>> {
    let shard = ShardNumber::new(1)?;
    let mut events = Vec::with_capacity(alloc, 3).ok()?;
    let from = peer(b"447700900012").ok()?;
    let octets = UPDATE.to_vec(alloc).ok()?;
    events.push(RawEvent::Frame { from, octets }).ok()?;
    events.push(RawEvent::Clock { shard, now: 100 }).ok()?;
    events.push(RawEvent::Expire { shard }).ok()?;
    Some(events)
}

/// Shard 1 with an empty journal, or without one.
fn shard(alloc: Global, keep: Keep) -> Option<Shard> {
    let state = State::new(alloc, 1, &read_records(alloc, RECORDS).ok()?).ok()?;
    Shard::new(alloc, state, keep).ok()
}

fn node(alloc: Global, keep: Keep) -> Option<Node> {
    Node::new(alloc, read_records(alloc, RECORDS).ok()?, keep, 0).ok()
}

/// What a shard sends for an event, given as its kind is: one that is read, a clock value, or an expiry.
fn sent(alloc: Global, shard: &mut Shard, raw: &RawEvent) -> Option<OutList> {
    let handled = match raw {
        RawEvent::Clock { shard: number, now } => shard.tick(*number, *now).ok()?,
        RawEvent::Expire { shard: number } => shard.expire(*number).ok()?,
        _ => read_and_handled(alloc, shard, raw)?.0,
    };
    Some(handled.outs)
}

/// The same for an event that is read, whatever its kind, with what is left of it.
fn read_and_handled(alloc: Global, shard: &mut Shard, raw: &RawEvent) -> Option<(Handled, Event)> {
    let mut event = Event::of(alloc, &mut Bump::new(alloc), raw).ok()?;
    let found = addressee_of(shard.state().directory(), &event);
    let handled = shard.handle(&mut event, found).ok()?;
    Some((handled, event))
}

fn are_same(one: &State, other: &State) -> Option<bool> {
    one.same(other).ok()
}

/// Whether no entry is kept: the journal is empty, and begins in the state.
fn has_none(shard: &Shard) -> Option<bool> {
    let is_empty = matches!(shard.keep(), Keep::Nothing) && shard.entries().is_empty();
    Some(is_empty && are_same(shard.base(), shard.state())?)
}

/// How many frames two shards send for an event, one with a journal and one without. None if they differ in these or in their states, or if
/// the event has no entry in the one, or one in the other.
fn sent_by_both(
    alloc: Global,
    one: &mut Shard,
    other: &mut Shard,
    raw: &RawEvent,
) -> Option<usize> {
    let count = one.entries().len();
    let answers = sent(alloc, one, raw)?;
    let again = sent(alloc, other, raw)?;
    let has_entry = one.entries().len() == count.saturating_add(1);
    let is_as_well = are_same(one.state(), other.state())? && has_none(other)?;
    if has_entry && is_as_well && answers.as_slice() == again.as_slice() {
        Some(answers.as_slice().len())
    } else {
        None
    }
}

fn sent_for_all(alloc: Global) -> Option<usize> {
    let (mut one, mut other) = (shard(alloc, Keep::Entries)?, shard(alloc, Keep::Nothing)?);
    let mut count: usize = 0;
    for raw in &events(alloc)? {
        count = count.saturating_add(sent_by_both(alloc, &mut one, &mut other, raw)?);
    }
    Some(count)
}

#[test]
fn a_shard_sends_the_same(rt: HostRuntime) {
    assert_eq!(rt; sent_for_all(rt.alloc()), Some(2));
}

fn octets_left(event: &mut Event) -> usize {
    match event.take_raw() {
        RawEvent::Frame { octets, .. } => octets.len(),
        _ => 0,
    }
}

/// How many octets of a frame are left in it when it was handled.
fn left(alloc: Global, keep: Keep) -> Option<usize> {
    let mut shard = shard(alloc, keep)?;
    let mut left = read_and_handled(alloc, &mut shard, events(alloc)?.first()?)?;
    Some(octets_left(&mut left.1))
}

/// An entry takes the octets of its frame; without one they stay, so that their buffer can be used again.
#[test]
fn octets_stay_without_an_entry(rt: HostRuntime) {
    let alloc = rt.alloc();
    assert_eq!(rt; left(alloc, Keep::Entries), Some(0));
    assert_eq!(rt; left(alloc, Keep::Nothing), Some(UPDATE.len()));
}

/// What a register sends for the events.
fn run(alloc: Global, keep: Keep) -> Option<Vec<Handled>> {
    node(alloc, keep)?
        .run(&mut Bump::new(alloc), &events(alloc)?)
        .ok()
}

/// The same, one event after the other, each handed over.
fn taken(alloc: Global, keep: Keep) -> Option<Vec<Handled>> {
    let (mut node, mut bump) = (node(alloc, keep)?, Bump::new(alloc));
    let mut sent = Vec::with_capacity(alloc, 3).ok()?;
    for raw in events(alloc)? {
        sent.push(node.take(&mut bump, raw).ok()?).ok()?;
    }
    Some(sent)
}

fn are_those_of(sent: &[Handled], done: &[Handled]) -> bool {
    for (outs, handled) in sent.iter().zip(done) {
        if outs.outs.as_slice() != handled.outs.as_slice() {
            return false;
        }
    }
    sent.len() == done.len()
}

#[test]
fn a_register_sends_the_same(rt: HostRuntime) -> Result<(), Fail> {
    let done = run(rt.alloc(), Keep::Entries).ok_or("run")?;
    for keep in [Keep::Entries, Keep::Nothing] {
        let sent = taken(rt.alloc(), keep).ok_or("taken")?;
        assert!(rt; are_those_of(&sent, &done));
    }
    Ok(())
}

/// How many events are left in their list, and how many stand in the list of those that were read, which had one before.
fn left_and_read(alloc: Global) -> Option<(usize, usize)> {
    let (mut events, mut read) = (events(alloc)?, Vec::new(alloc));
    let shard = ShardNumber::new(2)?;
    read.push(Event::Expire { shard }).ok()?;
    read_lot(alloc, &mut Bump::new(alloc), &mut events, &mut read).ok()?;
    Some((events.len(), read.len()))
}

#[test]
fn a_lot_is_read(rt: HostRuntime) {
    assert_eq!(rt; left_and_read(rt.alloc()), Some((0, 3)));
}
