//! Several events of a shard by one call.

use crate::given::{FIRST, octets_at, peer};
use crate::samples::{INSERT, RECORDS, ROUTE, ROUTE_ANSWER, UPDATE};
use bumpalo::Bump;
use hlrcore::{Event, RawEvent, State, StepAnswer, StepFault};
use records::read_records;
use std::alloc::Global;
use std::test::Fail;

/// The register that sends UPDATE.
const NEW_REGISTER: &[u8] = b"447700900012";

/// A Continue with the last result of the first insert, around the local id.
const RESULT_BEFORE_ID: [u8; 10] = [0x65, 0x13, 0x48, 0x04, 0x00, 0x00, 0x00, 0x0B, 0x49, 0x04];

const RESULT_BEHIND_ID: [u8; 7] = [0x6C, 0x05, 0xA2, 0x03, 0x02, 0x01, 0x01];

/// The End of an update, with its result.
const UPDATED: [u8; 31] = [
    0x64, 0x1D, 0x49, 0x04, 0x00, 0x00, 0x00, 0x0B, 0x6C, 0x15, 0xA2, 0x13, 0x02, 0x01, 0x01, 0x30,
    0x0E, 0x02, 0x01, 0x02, 0x30, 0x09, 0x04, 0x07, 0x91, 0x44, 0x77, 0x00, 0x09, 0x10, 0x00,
];

/// The cancel to the old register, around the local id.
const CANCEL_BEFORE_ID: [u8; 4] = [0x62, 0x3F, 0x48, 0x04];

const CANCEL_BEHIND_ID: [u8; 57] = [
    0x6B, 0x1E, 0x28, 0x1C, 0x06, 0x07, 0x00, 0x11, 0x86, 0x05, 0x01, 0x01, 0x01, 0xA0, 0x11, 0x60,
    0x0F, 0x80, 0x02, 0x07, 0x80, 0xA1, 0x09, 0x06, 0x07, 0x04, 0x00, 0x00, 0x01, 0x00, 0x02, 0x03,
    0x6C, 0x17, 0xA1, 0x15, 0x02, 0x01, 0x01, 0x02, 0x01, 0x03, 0xA3, 0x0D, 0x04, 0x08, 0x32, 0x14,
    0x05, 0x00, 0x00, 0x00, 0x00, 0xF1, 0x0A, 0x01, 0x00,
];

/// Shard 1 as it begins.
fn state(alloc: Global) -> Result<State, Fail> {
    let loaded = read_records(alloc, RECORDS)?;
    Ok(State::new(alloc, 1, &loaded)?)
}

/// The octets around an id.
fn around(alloc: Global, before: &[u8], id: &[u8], behind: &[u8]) -> Result<Vec<u8>, Fail> {
    let mut octets = Vec::new(alloc);
    octets.extend_from_slice(before)?;
    octets.extend_from_slice(id)?;
    octets.extend_from_slice(behind)?;
    Ok(octets)
}

/// The frame of these octets, from the new register.
fn frame(alloc: Global, octets: Vec<u8>) -> Result<Event, Fail> {
    let from = peer(NEW_REGISTER)?;
    let mut bump = Bump::new(alloc);
    Ok(Event::of(alloc, &mut bump, &RawEvent::Frame { from, octets })?)
}

/// An update, the result of its insert, and then a route.
fn whole_update(alloc: Global) -> Result<Vec<Event>, Fail> {
    let mut events = Vec::new(alloc);
    events.push(frame(alloc, UPDATE.to_vec(alloc)?)?)?;
    events.push(frame(
        alloc,
        around(alloc, &RESULT_BEFORE_ID, &FIRST.0, &RESULT_BEHIND_ID)?,
    )?)?;
    events.push(frame(alloc, ROUTE.to_vec(alloc)?)?)?;
    Ok(events)
}

/// Whether these are the answers to them: the insert; the End, and the cancel with its own id; the route to the new register.
fn are_its_answers(alloc: Global, done: &[StepAnswer]) -> Result<bool, Fail> {
    let [insert, result, route] = done else {
        return Ok(false);
    };
    let id = result.id.ok_or("no cancel")?;
    let cancel = around(alloc, &CANCEL_BEFORE_ID, &id.0, &CANCEL_BEHIND_ID)?;
    let mut routed = ROUTE_ANSWER;
    routed[86] = 0x20;
    Ok(
        octets_at(insert.outs.as_slice(), 0) == INSERT.as_slice()
            && octets_at(result.outs.as_slice(), 0) == UPDATED.as_slice()
            && octets_at(result.outs.as_slice(), 1) == cancel.as_slice()
            && octets_at(route.outs.as_slice(), 0) == routed.as_slice(),
    )
}

/// Whether the states are equal.
fn are_same(state: &State, other: &State) -> Result<bool, Fail> {
    Ok(state.same(other)?)
}

/// The answers to the events, one by one.
fn steps(alloc: Global, state: &mut State, events: &[Event]) -> Result<Vec<StepAnswer>, Fail> {
    let mut done = Vec::new(alloc);
    for event in events {
        done.push(state.step(event)?)?;
    }
    Ok(done)
}

#[test]
fn whole_update_by_one_run(rt: HostRuntime) -> Result<(), Fail> {
    let mut state = state(rt.alloc())?;
    let done = state.run(&whole_update(rt.alloc())?).ok().ok_or("run")?;
    assert!(rt; are_its_answers(rt.alloc(), &done)?);
    Ok(())
}

#[test]
fn whole_update_through_a_copy(rt: HostRuntime) -> Result<(), Fail> {
    let state = state(rt.alloc())?;
    let mut copy = state.try_copy()?;
    assert!(rt; are_same(&state, &copy)?);
    let done = steps(rt.alloc(), &mut copy, &whole_update(rt.alloc())?)?;
    assert!(rt; are_its_answers(rt.alloc(), &done)?);
    assert!(rt; !are_same(&state, &copy)?);
    Ok(())
}

/// The fault with which a run refuses the events.
fn refused(state: &mut State, events: &[Event]) -> Option<StepFault> {
    match state.run(events) {
        Ok(_) => None,
        Err(refused) => Some(refused.fault),
    }
}

#[test]
fn another_shard_ends_a_run(rt: HostRuntime) -> Result<(), Fail> {
    let loaded = read_records(rt.alloc(), RECORDS)?;
    let mut other = State::new(rt.alloc(), 2, &loaded)?;
    let mut events = Vec::new(rt.alloc());
    events.push(frame(rt.alloc(), ROUTE.to_vec(rt.alloc())?)?)?;
    assert!(rt; refused(&mut other, &events) == Some(StepFault::NotMine));
    Ok(())
}
