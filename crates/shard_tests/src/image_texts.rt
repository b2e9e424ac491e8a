//! The image of shards that have open dialogues, written, damaged and read again.

ghost use Rattle.std.specs.Prelude.{◌≢◌, ◌<◌, [], IfOk};
ghost use Rattle.std.specs.List.{AllByRecursion};
ghost use Rattle.images.specs.Fits.{NoneOpen};

use crate::given::{imsi, peer};
use crate::samples::UPDATE;
use bumpalo::Bump;
use hlrcore::{Change, Event, RawEvent, ShardNumber, State};
use images::{ImageFault, read_image, write_shard};
use records::{Codes, read_records};
use std::alloc::Global;
use std::process::Abort;
use std::test::Fail;

/// A subscriber of shard 1 with a register and one without, and one of shard 2: as they begin, and as `busy` leaves them.
const RECORDS: &[u8] = b"HLR2 447700900100
234150000000001 447700900000 11,21 * 447700900011,447700900001,-,s a
234150000000017 447700900217 21 * - a
234150000000002 447700900202 21 * - a
";

const SAVED: &[u8] = b"HLR2 447700900100
234150000000001 447700900000 21,22 * 447700900011,447700900001,-,s a
234150000000017 447700900217 21 * - a
234150000000002 447700900202 21 * - a
";

/// The image of both shards: of shard 1 after `busy`, and of shard 2 as it begins.
const IMAGE: &[u8] = b"S1 1 27 0
T 01001000
T 01001001
F 01001000
I 1 sent 27
D 01001001 234150000000001 447700900002 0000000B * update 447700900012 447700900002 - 1
E
S1 2 0 0
E
";

fn opening(alloc: Global, records: &[u8], shard: u8) -> Result<State, Fail>
    requires { shard < 16 }
    ensures { IfOk result NoneOpen }
{
    let loaded = read_records(alloc, records)?;
    Ok(State::new(alloc, shard, &loaded)?)
}

fn openings(alloc: Global) -> Result<Vec<State>, Fail>
    ensures begin { IfOk result (λ both. AllByRecursion NoneOpen both.items) }
    ensures some { IfOk result (λ both. both.items ≢ []) }
{
    let mut both = Vec::new(alloc);
    both.push(opening(alloc, SAVED, 1)?)?;
    both.push(opening(alloc, SAVED, 2)?)?;
    Ok(both)
}

fn step(alloc: Global, state: &mut State, raw: RawEvent) -> Result<(), Fail> {
    let mut bump = Bump::new(alloc);
    let event = Event::of_owned(alloc, &mut bump, raw)?;
    state.step(&event)?;
    Ok(())
}

/// Shard 1 at clock 27, with a data dialogue that has expired and an open update.
fn busy(alloc: Global) -> Result<State, Fail> {
    let mut state = opening(alloc, RECORDS, 1)?;
    let shard = ShardNumber::new(1).ok_or("shard")?;
    let imsi = imsi(b"234150000000001")?;
    let codes = Codes::read(b"21,22").ok_or("codes")?;
    let change = Change::Codes(Box::new(alloc, codes)?);
    let from = peer(b"447700900002")?;
    let octets = UPDATE.to_vec(alloc)?;
    state.tick(7);
    step(alloc, &mut state, RawEvent::Change { imsi, change })?;
    step(alloc, &mut state, RawEvent::Frame { from, octets })?;
    state.tick(27);
    step(alloc, &mut state, RawEvent::Expire { shard })?;
    Ok(state)
}

fn image(alloc: Global, shards: &[State]) -> Result<String, Fail> {
    let mut text = String::new(alloc);
    for shard in shards {
        write_shard(&mut text, shard)?;
    }
    Ok(text)
}

/// What is written is read again as the same shards.
#[test]
fn written_is_read(rt: HostRuntime) -> Result<(), Fail> {
    let alloc = rt.alloc();
    let mut shards = Vec::new(alloc);
    shards.push(busy(alloc)?)?;
    shards.push(opening(alloc, RECORDS, 2)?)?;
    let text = image(alloc, &shards)?;
    assert!(rt; text.as_bytes() == IMAGE, "{text}");
    let again = read_image(alloc, openings(alloc)?, text.as_bytes())?;
    assert!(rt; again.len() == 2);
    assert!(rt; again[0].same(&shards[0])?);
    assert!(rt; again[1].same(&shards[1])?);
    Ok(())
}

/// An image that is cut anywhere before the end of its last line is not read; the line feed after it may be left out.
#[test]
fn a_part_is_not_read(rt: HostRuntime) -> Result<(), Fail> {
    let alloc = rt.alloc();
    for count in 0..IMAGE.len() - 1 {
        let read = read_image(alloc, openings(alloc)?, &IMAGE[..count]);
        assert!(rt; read.is_err(), "{count} octets");
    }
    read_image(alloc, openings(alloc)?, &IMAGE[..IMAGE.len() - 1])?;
    Ok(())
}

/// Texts that are no image, and why.
const FAULTS: [(&[u8], ImageFault); 20] = [
    (b"", ImageFault::CutShort),
    (b"S1 1 0 0\n", ImageFault::CutShort),
    (b"S1 1 0 0\nE\n", ImageFault::CutShort),
    (b"S1 1 0 0\nE\nS1 2 0 0\n", ImageFault::CutShort),
    (b"S1 2 0 0\nE\n", ImageFault::Line(1)),
    (b"E\n", ImageFault::Line(1)),
    (b"S1 1 0 0\nS1 2 0 0\nE\n", ImageFault::Line(2)),
    (b"S1 1 0 0\nE\nE\n", ImageFault::Line(3)),
    (b"S1 1 0 0\nE\nS1 3 0 0\nE\n", ImageFault::Line(3)),
    (b"S1 1 0 0\nE\nS1 2 0 0\nE\nE\n", ImageFault::Line(5)),
    (
        b"S1 1 0 0\nE\nS1 2 0 0\nE\nS1 3 0 0\nE\n",
        ImageFault::Line(5),
    ),
    (b"S1 1 0 0\nT 01001001\n", ImageFault::Line(2)),
    (b"S1 1 0 0\nT 01000000\n", ImageFault::Line(2)),
    (b"S1 1 0 0\nT 01001000\nS1 2 0 0\nE\n", ImageFault::Line(3)),
    (b"S1 1 0 0\nT 01001000\nF 01002000\n", ImageFault::Line(3)),
    (
        b"S1 1 0 0\nT 01001000\nF 01001000\nT 01001001\n",
        ImageFault::Line(4),
    ),
    // An invocation is to wait for its answer, and the subscriber is to be known.
    (
        b"S1 1 0 0\nT 01001000\nI 1 wait 5\nD 01001000 234150000000001 1 - - data\n",
        ImageFault::Line(4),
    ),
    (
        b"S1 1 0 0\nT 01001000\nI 1 sent 5\nD 01001000 234150000000033 1 - - data\n",
        ImageFault::Line(4),
    ),
    // No dialogue is to be left, and no invocation to wait for one.
    (b"S1 1 0 0\nT 01001000\nE\n", ImageFault::Line(3)),
    (b"S1 1 0 0\nI 1 sent 5\nE\n", ImageFault::Line(3)),
];

#[test]
fn faults_have_their_line(rt: HostRuntime) -> Result<(), Fail> {
    let alloc = rt.alloc();
    for (place, (text, fault)) in FAULTS.iter().enumerate() {
        let read = read_image(alloc, openings(alloc)?, text);
        assert!(rt; read.err() == Some(*fault), "row {place}");
    }
    Ok(())
}
