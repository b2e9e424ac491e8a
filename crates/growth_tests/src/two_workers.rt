//! An update that two workers share with routes, while memory is refused.

use crate::batches::{Open, Shared, job, new_shared, run, shards_of};
use crate::frame_samples::{INSERT, NO_ROUTE, OTHER_ROUTE, RESULT, ROUTED, UPDATED_AND_CANCEL};
use crate::given::{are_frames, frame, is_shown};
use crate::samples::{ROUTE, UPDATE};
use shardlog::Shard;
use std::alloc::Global;
use std::sync::Wait;
use std::thread::Threads;
use workers::{Job, Receipt};

/// An update beside a route of another shard, the result of its insert, and the route of its subscriber.
fn asked(number: u64) -> &'static [u8] {
    match number {
        1 => &UPDATE,
        2 => &OTHER_ROUTE,
        3 => &RESULT,
        _ => &ROUTE,
    }
}

/// What is sent for each.
fn answered(number: u64) -> &'static [u8] {
    match number {
        1 => &INSERT,
        2 => &NO_ROUTE,
        3 => &UPDATED_AND_CANCEL,
        _ => &ROUTED,
    }
}

/// The jobs from one number up to another.
fn jobs(alloc: Global, first: u64, last: u64) -> Option<Vec<Job>> {
    let mut jobs = Vec::new(alloc);
    for number in first..last.saturating_add(1) {
        jobs.push(job(number, frame(alloc, asked(number))?)?).ok()?;
    }
    Some(jobs)
}

/// The receipts of a batch of these jobs, `None` if it has none.
fn receipts_of<R: Threads + Wait + Sync>(
    rt: &R,
    alloc: Global,
    shared: &mut Shared,
    first: u64,
    last: u64,
) -> Option<Vec<Receipt>> {
    run(rt, alloc, shared, &jobs(alloc, first, last)?, &Open, 2)
}

/// Whether a job has its entry and sent what it has to, `None` if it was refused.
fn is_right(receipt: &Receipt) -> Option<bool> {
    match &receipt.answer {
        Ok(placed) => Some(are_frames(placed.outs.as_slice(), answered(receipt.job.get()))),
        Err(_) => None,
    }
}

/// Whether a job that is a batch of its own sends what it has to.
fn is_right_alone<R: Threads + Wait + Sync>(
    rt: &R,
    alloc: Global,
    shared: &mut Shared,
    number: u64,
) -> Option<bool> {
    is_right(receipts_of(rt, alloc, shared, number, number)?.first()?)
}

/// Whether a job sends what it has to, at the second try if it is refused at the first.
fn is_right_at_last<R: Threads + Wait + Sync>(
    rt: &R,
    alloc: Global,
    shared: &mut Shared,
    receipt: &Receipt,
) -> bool {
    match is_right(receipt) {
        Some(is_right) => is_right,
        None => is_right_alone(rt, alloc, shared, receipt.job.get()) == Some(true),
    }
}

/// Whether each job of a batch does.
fn are_right<R: Threads + Wait + Sync>(
    rt: &R,
    alloc: Global,
    shared: &mut Shared,
    first: u64,
    last: u64,
) -> Option<bool> {
    for receipt in &receipts_of(rt, alloc, shared, first, last)? {
        if !is_right_at_last(rt, alloc, shared, receipt) {
            return Some(false);
        }
    }
    Some(true)
}

/// How many entries these shards have.
fn count(shards: &[Shard]) -> usize {
    let mut entries: usize = 0;
    for shard in shards {
        entries = entries.saturating_add(shard.entries().len());
    }
    entries
}

/// Whether all jobs of three batches send what they have to. `None` if a batch has no receipts: some of its jobs may have been
/// handled.
fn three_right<R: Threads + Wait + Sync>(
    rt: &R,
    alloc: Global,
    shared: &mut Shared,
) -> Option<bool> {
    let update = are_right(rt, alloc, shared, 1, 2)?;
    let result = are_right(rt, alloc, shared, 3, 3)?;
    let route = are_right(rt, alloc, shared, 4, 4)?;
    Some(update && result && route)
}

/// Whether they do, and have an entry each.
fn whole_row<R: Threads + Wait + Sync>(rt: &R, alloc: Global) -> Option<bool> {
    let mut shared = new_shared(alloc)?;
    let is_right = three_right(rt, alloc, &mut shared)?;
    Some(is_right && count(&shards_of(shared)?) == 4)
}

#[test]
fn update_beside_a_route(rt: HostRuntime) {
    assert!(rt; is_shown(&rt, whole_row(&rt, rt.alloc())));
}
