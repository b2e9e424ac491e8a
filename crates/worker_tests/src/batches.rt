//! Batches that workers share.

use crate::gates::{Alone, Open, UntilAll, UntilDone};
use crate::given::{Register, clock, frame};
use crate::samples::{DATA_TAKEN, OTHER_ROUTE, ROUTE, ROUTE_ANSWER, UPDATE};
use std::alloc::Global;
use std::process::Abort;
use std::sync::Wait;
use std::test::Fail;
use std::thread::Threads;
use workers::{Unaccounted, reconcile};

/// An update in shard 1 is held inside while a route is handled in shard 2. Then the update is done, and its subscriber has the new
/// route. Jobs and receipts account for the journals, in whatever order the receipts are. Without its receipt the last job is
/// unaccounted for; without the job too its entry is left over.
fn update_beside_a_route<R: Threads + Wait + Sync + Abort>(
    rt: &R,
    alloc: Global,
    workers: usize,
) -> Result<(), Fail> {
    let mut register = Register::new(alloc)?;
    let gate = UntilDone::new();
    let update = frame(alloc, b"447700900012", &UPDATE)?;
    let other = frame(alloc, b"447700909999", &OTHER_ROUTE)?;
    register.take(rt, &gate, workers, vec![in alloc; update, other]?)?;
    let taken = frame(alloc, b"447700900012", &DATA_TAKEN)?;
    register.take(rt, &gate, workers, vec![in alloc; taken]?)?;
    let route = frame(alloc, b"447700909999", &ROUTE)?;
    register.take(rt, &gate, workers, vec![in alloc; route]?)?;
    assert_eq!(rt;
        (gate.was_in_time(), register.sent_last()),
        (true, ROUTE_ANSWER.as_slice())
    );
    let (shards, mut jobs, mut receipts) = register.close()?;
    let whole = reconcile(rt, workers, &shards, &jobs, &receipts);
    if receipts.len() != 4 {
        return Err(Fail::from("receipts"));
    }
    receipts.swap(0, 1);
    let exchanged = reconcile(rt, workers, &shards, &jobs, &receipts);
    receipts.truncate(3);
    let without_receipt = reconcile(rt, workers, &shards, &jobs, &receipts);
    jobs.truncate(3);
    let without_job = reconcile(rt, workers, &shards, &jobs, &receipts);
    assert_eq!(rt;
        (whole, exchanged, without_receipt, without_job),
        (Ok(()), Ok(()), Err(Unaccounted(4)), Err(Unaccounted(0)))
    );
    Ok(())
}

#[test]
fn two_at_once(rt: HostRuntime) -> Result<(), Fail> {
    for workers in [2, 16] {
        update_beside_a_route(&rt, rt.alloc(), workers)?;
    }
    Ok(())
}

/// Sixteen workers are inside sixteen shards at once.
#[test]
fn sixteen_at_once(rt: HostRuntime) -> Result<(), Fail> {
    let mut register = Register::new(rt.alloc())?;
    let gate = UntilAll::new(16);
    let mut events = Vec::new(rt.alloc());
    for shard in 0..16 {
        events.push(clock(shard, 1)?)?;
    }
    register.take(&rt, &gate, 16, events)?;
    let (shards, jobs, receipts) = register.close()?;
    assert_eq!(rt;
        (gate.in_time(), reconcile(&rt, 2, &shards, &jobs, &receipts)),
        (16, Ok(()))
    );
    Ok(())
}

/// Four workers are never inside one shard together: a job is inside while its shard is locked, and not before or after.
#[test]
fn one_at_a_time_in_a_shard(rt: HostRuntime) -> Result<(), Fail> {
    let mut register = Register::new(rt.alloc())?;
    let gate = Alone::new();
    let mut events = Vec::new(rt.alloc());
    for now in 0..64 {
        events.push(clock(3, now)?)?;
    }
    register.take(&rt, &gate, 4, events)?;
    let (shards, jobs, receipts) = register.close()?;
    assert_eq!(rt;
        (gate.counts(), reconcile(&rt, 2, &shards, &jobs, &receipts)),
        ((64, 0), Ok(()))
    );
    Ok(())
}

/// A hundred batches of sixteen workers, most jobs of each for one shard. Jobs and receipts account for the journals; after the
/// journals are cut, so they do for the next batch.
#[test]
fn a_hundred_batches(rt: HostRuntime) -> Result<(), Fail> {
    let alloc = rt.alloc();
    let mut register = Register::new(alloc)?;
    for batch in 0..100 {
        let mut events = Vec::new(alloc);
        for shard in 0..16 {
            events.push(clock(shard, batch)?)?;
            for _ in 0..4 {
                events.push(frame(alloc, b"447700909999", &ROUTE)?)?;
            }
        }
        register.take(&rt, &Open, 16, events)?;
    }
    let whole = register.account(&rt);
    assert_eq!(rt;
        (register.receipts.len(), register.shards().len()),
        (8_000, 16)
    );
    register.cut()?;
    register.take(&rt, &Open, 3, vec![in alloc; clock(3, 7)?, clock(3, 8)?]?)?;
    assert_eq!(rt; (whole, register.account(&rt)), (Ok(()), Ok(())));
    Ok(())
}

/// A register of which each shard has had so many clock values, in one batch.
fn ticked<R: Threads + Wait + Sync>(
    rt: &R,
    alloc: Global,
    workers: usize,
    values: u64,
) -> Result<Register, Fail> {
    let mut register = Register::new(alloc)?;
    let mut events = Vec::new(alloc);
    for now in 0..values {
        for shard in 0..16 {
            events.push(clock(shard, now)?)?;
        }
    }
    register.take(rt, &Open, workers, events)?;
    Ok(register)
}

/// More than 65,536 jobs. The thread that sends them takes none before it has sent the last, so the channel has to hold all. Each
/// job has its receipt, with one worker, who has no channel, too.
#[test]
fn all_lots_are_held(rt: HostRuntime) -> Result<(), Fail> {
    for workers in [1, 2] {
        let register = ticked(&rt, rt.alloc(), workers, 4_200)?;
        assert_eq!(rt;
            (register.receipts.len(), register.account(&rt)),
            (67_200, Ok(()))
        );
    }
    Ok(())
}

/// Jobs and receipts that several threads compare: all are found to account for the journals, and one job alone not to, in whichever half
/// it is. (To name that one takes time as the product of jobs and receipts.)
#[test]
fn halves_of_jobs(rt: HostRuntime) -> Result<(), Fail> {
    let (shards, jobs, receipts) = ticked(&rt, rt.alloc(), 4, 256)?.close()?;
    for threads in [1, 2, 5, 16] {
        assert_eq!(rt; reconcile(&rt, threads, &shards, &jobs, &receipts), Ok(()));
    }
    for wrong in [0, 1_023, 1_024, 2_047] {
        let (shards, mut jobs, receipts) = ticked(&rt, rt.alloc(), 4, 128)?.close()?;
        let Some(job) = jobs.get_mut(wrong) else {
            return Err(Fail::from("jobs"));
        };
        job.event = clock(3, 1_000)?;
        let number = job.number.get();
        for threads in [1, 5] {
            let found = reconcile(&rt, threads, &shards, &jobs, &receipts);
            assert_eq!(rt; found, Err(Unaccounted(number)));
        }
    }
    Ok(())
}
