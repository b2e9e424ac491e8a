//! The entries of one subscriber in a journal, and what they come to alone.

use crate::given::peer;
use crate::samples::UPDATE;
use bumpalo::Bump;
use hlr_types::{Digits, Imsi};
use hlrcore::{Event, Out, RawEvent, ShardNumber, State, addressee_of};
use records::read_records;
use shardlog::{Entry, Keep, Shard};
use std::alloc::Global;
use std::test::Fail;

/// Two subscribers of shard 1.
const RECORDS: &[u8] = b"HLR1 447700900100
234150000000001 447700900000 11,21 * 447700900011,447700900001,-,s
234150000000017 447700900217 11 * -
";

/// An updateLocation of each, the second after 5 seconds; at 25 the timers of both are due, and two expiries.
fn events(alloc: Global) -> Result<Vec<RawEvent>, Fail> {
    let shard = ShardNumber::new(1).ok_or("shard number")?;
    let from = peer(b"447700900012")?;
    let octets = UPDATE.to_vec(alloc)?;
    let mut others = UPDATE.to_vec(alloc)?;
    for (place, octet) in [(60, 0x10), (61, 0xF7)] {
        *others.get_mut(place).ok_or("octet")? = octet;
    }
    let mut events = Vec::new(alloc);
    events.push(RawEvent::Frame { from, octets })?;
    events.push(RawEvent::Clock { shard, now: 5 })?;
    events.push(RawEvent::Frame {
        from,
        octets: others,
    })?;
    events.push(RawEvent::Clock { shard, now: 25 })?;
    events.push(RawEvent::Expire { shard })?;
    events.push(RawEvent::Expire { shard })?;
    Ok(events)
}

/// Shard 1 after the events at these places.
fn played(alloc: Global, events: &[RawEvent], places: &[usize]) -> Result<Shard, Fail> {
    let state = State::new(alloc, 1, &read_records(alloc, RECORDS)?)?;
    let mut shard = Shard::new(alloc, state, Keep::Entries).ok().ok_or("shard")?;
    for place in places {
        let raw = events.get(*place).ok_or("event")?;
        let mut event = Event::of(alloc, &mut Bump::new(alloc), raw)
            .ok()
            .ok_or("reading")?;
        let found = addressee_of(shard.state().directory(), &event);
        let _handled = shard.handle(&mut event, found)?;
    }
    Ok(shard)
}

/// The positions of the entries whose subject this is, and of every clock value.
fn positions_of(alloc: Global, entries: &[Entry], imsi: &[u8]) -> Result<Vec<usize>, Fail> {
    let imsi = Imsi::from_digits(Digits::from_text(imsi).ok_or("digits")?).ok();
    let mut positions = Vec::new(alloc);
    for (position, entry) in entries.iter().enumerate() {
        if entry.subject == imsi || matches!(entry.event, RawEvent::Clock { .. }) {
            positions.push(position)?;
        }
    }
    Ok(positions)
}

/// Whether two entries have the same frames.
fn are_alike(one: &[Out], other: &[Out]) -> bool {
    let mut pairs = one.iter().zip(other);
    one.len() == other.len()
        && pairs.all(|(one, other)| one.to == other.to && one.octets == other.octets)
}

/// Of six entries the first subscriber has four, and the other four. The first one's are answered alone as they are beside the other's.
#[test]
fn one_subscriber_alone(rt: HostRuntime) -> Result<(), Fail> {
    let alloc = rt.alloc();
    let events = events(alloc)?;
    let whole = played(alloc, &events, &[0, 1, 2, 3, 4, 5])?;
    let own = positions_of(alloc, whole.entries(), b"234150000000001")?;
    let others = positions_of(alloc, whole.entries(), b"234150000000017")?;
    assert_eq!(rt;
        (own.as_slice(), others.as_slice()),
        ([0, 1, 3, 4].as_slice(), [1, 2, 3, 5].as_slice())
    );
    let alone = played(alloc, &events, &own)?;
    for (entry, position) in alone.entries().iter().zip(&own) {
        let beside = whole.entries().get(*position).ok_or("entry")?;
        assert_eq!(rt; entry.subject, beside.subject);
        assert!(rt; are_alike(entry.outs.as_slice(), beside.outs.as_slice()));
    }
    assert_eq!(rt; alone.entries().len(), 4);
    Ok(())
}
