//! A register that workers share, part after part.

use crate::given::{clock, frame};
use crate::samples::{DATA_TAKEN, RECORDS, ROUTE, ROUTE_ANSWER, UPDATE};
use hlr_types::{Digits, Imsi};
use hlrcore::{Change, OutList, RawEvent};
use records::{Codes, read_records};
use std::alloc::Global;
use std::process::Abort;
use std::sync::Wait;
use std::test::Fail;
use std::thread::Threads;
use workers::{SharedFault, SharedRegister};

/// How many dialogues a shard may have open (profile).
const MAX_OPEN: usize = 4_096;

/// Has workers handle a part, and appends what each event sends.
fn take<R: Threads + Wait + Sync>(
    register: &mut SharedRegister,
    rt: &R,
    workers: usize,
    part: Vec<RawEvent>,
    sent: &mut Vec<OutList>,
) -> Result<Result<(), SharedFault>, Fail> {
    if workers == 0 || workers > 16 {
        return Err(Fail::from("workers"));
    }
    if part.len() > 65_536 {
        return Err(Fail::from("part"));
    }
    let mut part = part;
    let count = part.len();
    let taken = register.run_part(rt, workers, &mut part);
    if taken.is_ok() {
        if !part.is_empty() {
            return Err(Fail::from("events are left"));
        }
        for receipt in register.last_receipts(count) {
            if let Ok(placed) = &receipt.answer {
                sent.push(placed.outs.try_share()?)?;
            }
        }
    }
    Ok(taken)
}

/// How many frames were sent.
fn count(sent: &[OutList]) -> usize {
    let mut frames: usize = 0;
    for outs in sent {
        frames = frames.saturating_add(outs.as_slice().len());
    }
    frames
}

/// The octets of the last frame that the last event sent, empty if it sent none.
fn last(sent: &[OutList]) -> &[u8] {
    let Some(outs) = sent.last() else {
        return &[];
    };
    match outs.as_slice().last() {
        Some(out) => &out.octets,
        None => &[],
    }
}

/// An update begins in one part and completes in the next, and the part after it asks for the route: the answer is the new one,
/// after what the others sent. At the end the shards are returned, with an entry for each event.
fn parts_go_on<R: Threads + Wait + Sync + Abort>(
    rt: &R,
    alloc: Global,
    workers: usize,
) -> Result<(), Fail> {
    let mut register = SharedRegister::new(alloc, read_records(alloc, RECORDS)?)?;
    let mut sent = Vec::new(alloc);
    let update = frame(alloc, b"447700900012", &UPDATE)?;
    let first = vec![in alloc; update, clock(3, 1)?]?;
    take(&mut register, rt, workers, first, &mut sent)??;
    let begun = count(&sent);
    let taken = frame(alloc, b"447700900012", &DATA_TAKEN)?;
    take(
        &mut register,
        rt,
        workers,
        vec![in alloc; taken]?,
        &mut sent,
    )??;
    let done = count(&sent);
    let route = frame(alloc, b"447700909999", &ROUTE)?;
    take(
        &mut register,
        rt,
        workers,
        vec![in alloc; route]?,
        &mut sent,
    )??;
    assert_eq!(rt;
        (begun < done, count(&sent)),
        (true, done.saturating_add(1))
    );
    assert_eq!(rt; last(&sent), ROUTE_ANSWER.as_slice());
    let (shards, _, _) = register.close(rt, workers)?;
    let mut entries: usize = 0;
    for shard in &shards {
        entries = entries.saturating_add(shard.entries().len());
    }
    assert_eq!(rt; (shards.len(), entries), (16, 4));
    Ok(())
}

#[test]
fn parts_of_workers(rt: HostRuntime) -> Result<(), Fail> {
    for workers in [1, 2] {
        parts_go_on(&rt, rt.alloc(), workers)?;
    }
    Ok(())
}

/// An operator's change of the first subscriber's codes. Each opens a dialogue with its register.
fn change(alloc: Global) -> Result<RawEvent, Fail> {
    let digits = Digits::from_text(b"234150000000001").ok_or("digits")?;
    let imsi = Imsi::from_digits(digits).ok().ok_or("imsi")?;
    let codes = Codes::read(b"11,21").ok_or("codes")?;
    Ok(RawEvent::Change {
        imsi,
        change: Change::Codes(Box::new(alloc, codes)?),
    })
}

/// Changes are handled until the shard is full. One more stops its part for lack of room, although the part also has an event that
/// is handled.
#[test]
fn no_room(rt: HostRuntime) -> Result<(), Fail> {
    let alloc = rt.alloc();
    let mut register = SharedRegister::new(alloc, read_records(alloc, RECORDS)?)?;
    let mut sent = Vec::new(alloc);
    let mut changes = Vec::new(alloc);
    for _ in 0..MAX_OPEN {
        changes.push(change(alloc)?)?;
    }
    take(&mut register, &rt, 2, changes, &mut sent)??;
    let more = vec![in alloc; clock(3, 1)?, change(alloc)?]?;
    let stopped = take(&mut register, &rt, 2, more, &mut sent)?;
    assert_eq!(rt;
        (count(&sent), stopped),
        (MAX_OPEN, Err(SharedFault::NoRoom))
    );
    Ok(())
}
