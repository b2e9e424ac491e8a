//! Single events of a shard, octet for octet.

ghost use Rattle.std.specs.Prelude.{◌<◌};

use crate::given::{FIRST, imsi, peer};
use crate::samples::{ABSENT, PURGE, PURGED, ROUTE, ROUTE_ANSWER, UPDATE};
use bumpalo::Bump;
use hlr_types::Tid;
use hlrcore::{Change, Event, RawEvent, ShardNumber, State, StepFault};
use records::{Codes, read_records};
use std::alloc::Global;
use std::process::Abort;
use std::test::Fail;

/// Two subscribers: one of shard 1 with a register, one of shard 2 without.
const RECORDS_OF_TWO_SHARDS: &[u8] = b"HLR1 447700900100
234150000000001 447700900000 11,21 * 447700900011,447700900001,-,s
234150000000002 447700900202 21 * -
";

/// The id of the second dialogue of shard 1.
const SECOND: Tid = Tid([1, 0, 0x10, 1]);

/// The next id of the first dialogue's slot.
const AFTER_FIRST: Tid = Tid([1, 0, 0x20, 0]);

/// A Continue with the last result of the first insert, for the first dialogue of shard 1.
const RESULT: [u8; 21] = [
    0x65, 0x13, 0x48, 0x04, 0x00, 0x00, 0x00, 0x0B, 0x49, 0x04, 0x01, 0x00, 0x10, 0x00, 0x6C, 0x05,
    0xA2, 0x03, 0x02, 0x01, 0x01,
];

/// A Continue for a dialogue of shard 1 that is not open.
const CONTINUE: [u8; 14] = [
    0x65, 0x0C, 0x48, 0x04, 0x00, 0x00, 0x00, 0x07, 0x49, 0x04, 0x01, 0x00, 0x00, 0x01,
];

/// Its answer.
const UNKNOWN_ID: [u8; 11] = [
    0x67, 0x09, 0x49, 0x04, 0x00, 0x00, 0x00, 0x07, 0x4A, 0x01, 0x01,
];

/// An End for the same.
const END: [u8; 8] = [0x64, 0x06, 0x49, 0x04, 0x01, 0x00, 0x00, 0x01];

/// A Continue whose destination id has five octets.
const BAD_CONTINUE: [u8; 15] = [
    0x65, 0x0D, 0x48, 0x04, 0x00, 0x00, 0x00, 0x07, 0x49, 0x05, 0x01, 0x00, 0x00, 0x00, 0x01,
];

/// Its answer.
const BADLY_FORMATTED: [u8; 11] = [
    0x67, 0x09, 0x49, 0x04, 0x00, 0x00, 0x00, 0x07, 0x4A, 0x01, 0x02,
];

fn state(alloc: Global, shard: u8) -> Result<State, Fail>
    requires { shard < 16 }
{
    let loaded = read_records(alloc, RECORDS_OF_TWO_SHARDS)?;
    Ok(State::new(alloc, shard, &loaded)?)
}

/// An event; a change is of the first subscriber.
#[derive(Clone, Copy)]
enum Given {
    Frame(&'static [u8]),
    Clock(u64),
    Expire,
    Codes(&'static [u8]),
    Withdraw,
}

fn change(alloc: Global, given: &Given) -> Option<Change> {
    match given {
        Given::Codes(text) => Some(Change::Codes(Box::new(alloc, Codes::read(text)?).ok()?)),
        _ => Some(Change::Withdraw),
    }
}

fn raw_event(alloc: Global, shard: ShardNumber, given: &Given) -> Option<RawEvent> {
    match given {
        Given::Frame(octets) => Some(RawEvent::Frame {
            from: peer(b"447700909999").ok()?,
            octets: octets.to_vec(alloc).ok()?,
        }),
        Given::Clock(now) => Some(RawEvent::Clock { shard, now: *now }),
        Given::Expire => Some(RawEvent::Expire { shard }),
        given => Some(RawEvent::Change {
            imsi: imsi(b"234150000000001").ok()?,
            change: change(alloc, given)?,
        }),
    }
}

/// An event of shard 1.
fn event(alloc: Global, given: &Given) -> Option<Event> {
    let raw = raw_event(alloc, ShardNumber::new(1)?, given)?;
    Event::of(alloc, &mut Bump::new(alloc), &raw).ok()
}

/// Received octets, and the answer, one frame or none.
type Exchange = (&'static [u8], &'static [u8]);

/// Whether the shard answers these octets as expected.
fn answers(alloc: Global, state: &mut State, octets: &'static [u8], said: &[u8]) -> Option<bool> {
    let answer = state.step(&event(alloc, &Given::Frame(octets))?).ok()?;
    match answer.outs.as_slice().first() {
        Some(out) => Some(out.octets.as_slice() == said),
        None => Some(said.is_empty()),
    }
}

fn exchange(rt: &impl Abort, alloc: Global, state: &mut State, rows: &[Exchange]) {
    for (place, (octets, said)) in rows.iter().enumerate() {
        assert!(rt;
            answers(alloc, state, octets, said) == Some(true),
            "row {place}"
        );
    }
}

#[test]
fn a_route_is_answered(rt: HostRuntime) -> Result<(), Fail> {
    let mut state = state(rt.alloc(), 1)?;
    exchange(&rt, rt.alloc(), &mut state, &[(&ROUTE, &ROUTE_ANSWER)]);
    Ok(())
}

#[test]
fn a_purge_is_kept(rt: HostRuntime) -> Result<(), Fail> {
    let mut state = state(rt.alloc(), 1)?;
    let mut copy = state.try_copy()?;
    exchange(
        &rt,
        rt.alloc(),
        &mut state,
        &[(&PURGE, &PURGED), (&ROUTE, &ABSENT)],
    );
    // A copy is a state of its own.
    exchange(&rt, rt.alloc(), &mut copy, &[(&ROUTE, &ROUTE_ANSWER)]);
    Ok(())
}

#[test]
fn what_is_for_no_dialogue(rt: HostRuntime) -> Result<(), Fail> {
    let mut state = state(rt.alloc(), 1)?;
    exchange(
        &rt,
        rt.alloc(),
        &mut state,
        &[(&CONTINUE, &UNKNOWN_ID), (&END, &[])],
    );
    Ok(())
}

#[test]
fn what_is_no_message(rt: HostRuntime) -> Result<(), Fail> {
    let mut state = state(rt.alloc(), 0)?;
    exchange(
        &rt,
        rt.alloc(),
        &mut state,
        &[(&BAD_CONTINUE, &BADLY_FORMATTED), (&[], &[])],
    );
    Ok(())
}

/// An event; how many frames are sent, the id taken, how many dialogues are then open, and whether the first is.
struct Row {
    given: Given,
    frames: usize,
    id: Option<Tid>,
    open: usize,
    first_is_open: bool,
}

/// An update opens a dialogue; its result completes it and opens a cancel in its place; the same result again is late.
const OPENS_AND_COMPLETES: [Row; 3] = [
    Row {
        given: Given::Frame(&UPDATE),
        frames: 1,
        id: Some(FIRST),
        open: 1,
        first_is_open: true,
    },
    Row {
        given: Given::Frame(&RESULT),
        frames: 2,
        id: Some(AFTER_FIRST),
        open: 1,
        first_is_open: false,
    },
    Row {
        given: Given::Frame(&RESULT),
        frames: 1,
        id: None,
        open: 1,
        first_is_open: false,
    },
];

/// Nothing is due before the timer expires.
const RUNS_OUT: [Row; 4] = [
    Row {
        given: Given::Frame(&UPDATE),
        frames: 1,
        id: Some(FIRST),
        open: 1,
        first_is_open: true,
    },
    Row {
        given: Given::Expire,
        frames: 0,
        id: None,
        open: 1,
        first_is_open: true,
    },
    Row {
        given: Given::Clock(20),
        frames: 0,
        id: None,
        open: 1,
        first_is_open: true,
    },
    Row {
        given: Given::Expire,
        frames: 1,
        id: None,
        open: 0,
        first_is_open: false,
    },
];

/// New codes go to the register, and a withdrawal sends it a cancel.
const CHANGES: [Row; 2] = [
    Row {
        given: Given::Codes(b"22"),
        frames: 1,
        id: Some(FIRST),
        open: 1,
        first_is_open: true,
    },
    Row {
        given: Given::Withdraw,
        frames: 1,
        id: Some(SECOND),
        open: 2,
        first_is_open: true,
    },
];

/// Whether a step is as the row has it. The subject of a change is its subscriber.
fn is_so(alloc: Global, state: &mut State, row: &Row) -> Option<bool> {
    let answer = state.step(&event(alloc, &row.given)?).ok()?;
    let is_change = matches!(row.given, Given::Codes(_) | Given::Withdraw);
    let is_subject = answer.subject == imsi(b"234150000000001").ok();
    Some(
        answer.outs.as_slice().len() == row.frames
            && answer.id == row.id
            && (is_subject || !is_change)
            && state.dialogues().len() == row.open
            && state.dialogues().get(FIRST).is_some() == row.first_is_open,
    )
}

fn play(rt: &impl Abort, alloc: Global, rows: &[Row]) -> Result<(), Fail> {
    let mut state = state(alloc, 1)?;
    for (place, row) in rows.iter().enumerate() {
        assert!(rt; is_so(alloc, &mut state, row) == Some(true), "row {place}");
    }
    Ok(())
}

#[test]
fn an_update_opens_and_completes(rt: HostRuntime) -> Result<(), Fail> {
    play(&rt, rt.alloc(), &OPENS_AND_COMPLETES)
}

#[test]
fn a_timer_runs_out(rt: HostRuntime) -> Result<(), Fail> {
    play(&rt, rt.alloc(), &RUNS_OUT)
}

#[test]
fn a_change_opens(rt: HostRuntime) -> Result<(), Fail> {
    play(&rt, rt.alloc(), &CHANGES)
}

/// The fault with which a shard refuses a route.
fn refused(alloc: Global, state: &mut State) -> Option<StepFault> {
    state.step(&event(alloc, &Given::Frame(&ROUTE))?).err()
}

#[test]
fn another_shard_has_its_own(rt: HostRuntime) -> Result<(), Fail> {
    let mut state = state(rt.alloc(), 2)?;
    assert!(rt; refused(rt.alloc(), &mut state) == Some(StepFault::NotMine));
    Ok(())
}

/// Whether the copy of a change has its codes.
fn is_copied(alloc: Global) -> Option<bool> {
    let change = change(alloc, &Given::Codes(b"11,21"))?;
    let imsi = imsi(b"234150000000002").ok()?;
    let event = RawEvent::Change { imsi, change };
    let copy = event.try_copy(alloc).ok()?;
    match &copy {
        RawEvent::Change {
            change: Change::Codes(codes),
            ..
        } => Some(codes.as_slice() == [0x11, 0x21].as_slice()),
        _ => None,
    }
}

#[test]
fn a_change_is_copied(rt: HostRuntime) {
    assert!(rt; is_copied(rt.alloc()) == Some(true));
}
