//! Batches that workers share while memory is refused.

use crate::given::{frame_from, is_shown, loaded};
use crate::samples::{GATEWAY, ROUTE};
use bumpalo::Bump;
use hlrcore::{RawEvent, ShardNumber};
use shardlog::Shard;
use std::alloc::Global;
use std::sync::Wait;
use std::thread::Threads;
use wholenode::{Keep, Node};
use workers::{
    Gate, Job, JobNumber, Receipt, Refusal, Unaccounted, numbers_rise, reconcile, run_batch,
};

fn clock_value(now: u64) -> Option<RawEvent> {
    let shard = ShardNumber::new(3)?;
    Some(RawEvent::Clock { shard, now })
}

/// A route, or a value of a clock.
fn event(alloc: Global, number: u64) -> Option<RawEvent> {
    if number % 2 == 0 {
        frame_from(alloc, GATEWAY, &ROUTE)
    } else {
        clock_value(number)
    }
}

pub(crate) fn job(number: u64, event: RawEvent) -> Option<Job> {
    let number = JobNumber::new(number)?;
    Some(Job { number, event })
}

/// So many jobs, from this number on.
fn jobs_from(alloc: Global, first: u64, count: u64) -> Option<Vec<Job>> {
    let mut jobs = Vec::new(alloc);
    for number in first..first.saturating_add(count) {
        jobs.push(job(number, event(alloc, number)?)?).ok()?;
    }
    Some(jobs)
}

/// The jobs that ran out of memory: how many, and the last of them.
#[derive(Clone, Copy)]
struct Lost {
    count: u64,
    last: Option<u64>,
}

/// These and one more.
fn and_lost(lost: Lost, number: u64) -> Lost {
    Lost {
        count: lost.count.saturating_add(1),
        last: Some(number),
    }
}

/// These and those that ran out of memory by their receipts. Any other refusal counts as job 0.
fn and_refused(before: Lost, receipts: &[Receipt]) -> Lost {
    let mut lost = before;
    for receipt in receipts {
        lost = match &receipt.answer {
            Ok(_) => lost,
            Err(Refusal::Memory) => and_lost(lost, receipt.job.get()),
            Err(_) => and_lost(lost, 0),
        };
    }
    lost
}

/// Holds no job.
#[derive(Drop)]
pub(crate) struct Open;

impl Gate for Open {
    fn inside(&self, _job: u64) {}

    fn done(&self, _job: u64) {}
}

/// A register that workers share, and the arena of the caller's thread.
#[derive(Drop)]
pub(crate) struct Shared {
    bump: Bump,
    node: Option<Node>,
}

/// The receipts of a batch that so many workers share, `None` if it has none.
pub(crate) fn run<R: Threads + Wait + Sync, G: Gate + Sync>(
    rt: &R,
    alloc: Global,
    shared: &mut Shared,
    jobs: &[Job],
    gate: &G,
    workers: usize,
) -> Option<Vec<Receipt>> {
    if workers == 0 || workers > 16 {
        return None;
    }
    if !numbers_rise(jobs) {
        return None;
    }
    let node = shared.node.take()?;
    let bump = &mut shared.bump;
    let done = run_batch(rt, alloc, bump, node, jobs, gate, workers).ok()?;
    shared.node = Some(done.node);
    done.receipts.ok()
}

/// Batches: how many, with how many jobs and workers each.
#[derive(Clone, Copy)]
struct Batches {
    count: u64,
    jobs: u64,
    workers: usize,
}

/// The jobs so far, their receipts, and those that ran out of memory.
#[derive(Drop)]
struct Row {
    jobs: Vec<Job>,
    receipts: Vec<Receipt>,
    lost: Lost,
}

fn new_row(alloc: Global) -> Row {
    Row {
        jobs: Vec::new(alloc),
        receipts: Vec::new(alloc),
        lost: Lost {
            count: 0,
            last: None,
        },
    }
}

/// Adds a batch with its receipts.
fn add(row: &mut Row, mut jobs: Vec<Job>, mut receipts: Vec<Receipt>) -> Option<()> {
    row.lost = and_refused(row.lost, &receipts);
    row.receipts.append(&mut receipts).ok()?;
    row.jobs.append(&mut jobs).ok()
}

/// Adds a batch without receipts, whose first job is this.
fn add_without(row: &mut Row, mut jobs: Vec<Job>, first: u64) -> Option<()> {
    row.lost = and_lost(row.lost, first);
    row.jobs.append(&mut jobs).ok()
}

/// Has workers share a batch whose first job is this.
fn share<R: Threads + Wait + Sync>(
    rt: &R,
    alloc: Global,
    shared: &mut Shared,
    row: &mut Row,
    first: u64,
    given: Batches,
) -> Option<()> {
    let jobs = jobs_from(alloc, first, given.jobs)?;
    match run(rt, alloc, shared, &jobs, &Open, given.workers) {
        Some(receipts) => add(row, jobs, receipts),
        None => add_without(row, jobs, first),
    }
}

/// The least job that is not accounted for.
fn least_unaccounted<R: Threads + Sync>(rt: &R, shards: &[Shard], row: &Row) -> Option<u64> {
    match reconcile(rt, 2, shards, &row.jobs, &row.receipts) {
        Ok(()) => None,
        Err(Unaccounted(number)) => Some(number),
    }
}

/// The register of the records file.
pub(crate) fn new_shared(alloc: Global) -> Option<Shared> {
    let loaded = loaded(alloc)?;
    let node = Node::new(alloc, loaded, Keep::Entries, 0).ok()?;
    Some(Shared {
        bump: Bump::new(alloc),
        node: Some(node),
    })
}

pub(crate) fn shards_of(shared: Shared) -> Option<Vec<Shard>> {
    Some(shared.node?.into_shards())
}

/// Has workers share some batches.
fn share_all<R: Threads + Wait + Sync>(
    rt: &R,
    alloc: Global,
    shared: &mut Shared,
    row: &mut Row,
    given: Batches,
) -> Option<()> {
    for batch in 0..given.count {
        let first = batch.saturating_mul(given.jobs).saturating_add(1);
        share(rt, alloc, shared, row, first, given)?;
    }
    Some(())
}

/// Whether at most one job ran out of memory, and is the least that is not accounted for.
fn is_accounted<R: Threads + Sync>(rt: &R, shards: &[Shard], row: &Row) -> bool {
    row.lost.count <= 1 && row.lost.last == least_unaccounted(rt, shards, row)
}

/// Whether at most one job ran out of memory in some batches (of a batch without receipts its first), and is the least that is not accounted
/// for. `None` if the test itself ran out of memory.
fn lose_one_at_most<R: Threads + Wait + Sync>(
    rt: &R,
    alloc: Global,
    given: Batches,
) -> Option<bool> {
    let mut shared = new_shared(alloc)?;
    let mut row = new_row(alloc);
    share_all(rt, alloc, &mut shared, &mut row, given)?;
    Some(is_accounted(rt, &shards_of(shared)?, &row))
}

/// At most one job, or one batch, has no entry: the batches after it are unaffected. `reconcile` finds it. (A batch has twenty jobs
/// for each worker.)
#[test]
fn one_batch_or_job_at_most(rt: HostRuntime) {
    let given = Batches {
        count: 3,
        jobs: 80,
        workers: 4,
    };
    assert!(rt; is_shown(&rt, lose_one_at_most(&rt, rt.alloc(), given)));
}
