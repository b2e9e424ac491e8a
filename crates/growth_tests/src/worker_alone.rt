//! Batches of two workers, while memory is refused to the one that has a thread of its own, and not to the caller's.

use crate::batches::{Shared, job, new_shared, run, shards_of};
use crate::given::is_shown;
use hlrcore::{RawEvent, ShardNumber};
use shardlog::Shard;
use std::alloc::Global;
use std::sync::Wait;
use std::thread::{self, Threads};
use workers::{Gate, Job, Receipt};

/// How many batches there are.
const BATCHES: u64 = 3;

/// For how many turns of other threads a gate holds a job.
const TURNS: usize = 100_000;

/// Holds each job inside its shard, long enough for the other worker to take the other job.
#[derive(Drop)]
struct Held;

impl Gate for Held {
    fn inside(&self, _job: u64) {
        for _ in 0..TURNS {
            thread::yield_now();
        }
    }

    fn done(&self, _job: u64) {}
}

/// Two clock values of two shards, under numbers from this one on.
fn two_jobs(alloc: Global, first: u64) -> Option<Vec<Job>> {
    let mut jobs = Vec::new(alloc);
    for number in first..first.saturating_add(2) {
        let shard = ShardNumber::new((number % 2) as u8)?;
        let event = RawEvent::Clock { shard, now: number };
        jobs.push(job(number, event)?).ok()?;
    }
    Some(jobs)
}

/// How many jobs have an entry by their receipts, and how many batches have no receipts.
#[derive(Clone, Copy)]
struct Counts {
    handled: usize,
    failed: usize,
}

fn and(one: Counts, other: Counts) -> Counts {
    Counts {
        handled: one.handled.saturating_add(other.handled),
        failed: one.failed.saturating_add(other.failed),
    }
}

/// How many of these jobs have an entry.
fn count_handled(receipts: &[Receipt]) -> usize {
    receipts.iter().fold(0usize, |sum, receipt| {
        if receipt.answer.is_ok() {
            sum.saturating_add(1)
        } else {
            sum
        }
    })
}

/// Has two workers share a batch.
fn share<R: Threads + Wait + Sync>(
    rt: &R,
    alloc: Global,
    shared: &mut Shared,
    first: u64,
) -> Option<Counts> {
    let jobs = two_jobs(alloc, first)?;
    match run(rt, alloc, shared, &jobs, &Held, 2) {
        Some(receipts) => Some(Counts {
            handled: count_handled(&receipts),
            failed: 0,
        }),
        None => Some(Counts {
            handled: 0,
            failed: 1,
        }),
    }
}

fn share_all<R: Threads + Wait + Sync>(
    rt: &R,
    alloc: Global,
    shared: &mut Shared,
) -> Option<Counts> {
    let mut counts = Counts {
        handled: 0,
        failed: 0,
    };
    for batch in 0..BATCHES {
        let first = batch.saturating_mul(2).saturating_add(1);
        counts = and(counts, share(rt, alloc, shared, first)?);
    }
    Some(counts)
}

fn count_entries(shards: &[Shard]) -> usize {
    shards.iter().fold(
        0usize,
        |sum, shard| sum.saturating_add(shard.entries().len()),
    )
}

/// Whether the journals have the entries that receipts name, and of a batch without receipts at most one.
fn is_untouched(counts: Counts, entries: usize) -> bool {
    let most = counts.handled.saturating_add(counts.failed);
    counts.failed <= 1 && counts.handled <= entries && entries <= most
}

fn refused_worker<R: Threads + Wait + Sync>(rt: &R, alloc: Global) -> Option<bool> {
    let mut shared = new_shared(alloc)?;
    let counts = share_all(rt, alloc, &mut shared)?;
    Some(is_untouched(counts, count_entries(&shards_of(shared)?)))
}

/// A batch has no receipts only because the worker with the thread had no memory for one. Then that worker has touched no shard: of the
/// two jobs, at most the one that the caller's thread took has an entry. The other batches are as ever.
#[test]
fn no_shard_is_touched(rt: HostRuntime) {
    assert!(rt; is_shown(&rt, refused_worker(&rt, rt.alloc())));
}
