//! A batch of routes over sixteen shards, handled in one thread and by workers that share it, and whether jobs and receipts account
//! for the journals then.

use crate::request::FIRST_ROUTE;
use anyhow::{Context, Result, bail};
use bumpalo::Bump;
use hlr_types::{Digits, Peer};
use hlrcore::RawEvent;
use records::{Loaded, read_records};
use std::alloc::Global;
use std::sync::Wait;
use std::thread::Threads;
use std::time::Instant;
use wholenode::{Keep, Node};
use workers::{BatchDone, Job, JobNumber, OpenGate, numbers_rise, reconcile, run_batch};

/// A subscriber of each shard, all with one serving register.
const RECORDS: &[u8] = b"HLR1 447700900100
234150000000000 447700900000 11,21 * 447700900011,447700900001,-,s
234150000000001 447700900001 11,21 * 447700900011,447700900001,-,s
234150000000002 447700900002 11,21 * 447700900011,447700900001,-,s
234150000000003 447700900003 11,21 * 447700900011,447700900001,-,s
234150000000004 447700900004 11,21 * 447700900011,447700900001,-,s
234150000000005 447700900005 11,21 * 447700900011,447700900001,-,s
234150000000006 447700900006 11,21 * 447700900011,447700900001,-,s
234150000000007 447700900007 11,21 * 447700900011,447700900001,-,s
234150000000008 447700900008 11,21 * 447700900011,447700900001,-,s
234150000000009 447700900009 11,21 * 447700900011,447700900001,-,s
234150000000010 447700900010 11,21 * 447700900011,447700900001,-,s
234150000000011 447700900011 11,21 * 447700900011,447700900001,-,s
234150000000012 447700900012 11,21 * 447700900011,447700900001,-,s
234150000000013 447700900013 11,21 * 447700900011,447700900001,-,s
234150000000014 447700900014 11,21 * 447700900011,447700900001,-,s
234150000000015 447700900015 11,21 * 447700900011,447700900001,-,s
";

/// The last two digits of the MSISDN of each of them, as TBCD has them.
const LAST_DIGITS: [u8; 16] = [
    0x00, 0x10, 0x20, 0x30, 0x40, 0x50, 0x60, 0x70, 0x80, 0x90, 0x01, 0x11, 0x21, 0x31, 0x41, 0x51,
];

/// Where they stand in a route.
const PLACE: usize = 60;

/// How many workers share the batch.
const WORKERS: [usize; 5] = [1, 2, 4, 8, 16];

/// The most jobs of a batch.
const MAX_JOBS: u64 = 65_536;

fn loaded(alloc: Global) -> Result<Loaded> {
    read_records(alloc, RECORDS).ok().context("records")
}

/// A route for a subscriber of this shard.
fn route(alloc: Global, digits: u8) -> Result<RawEvent> {
    let from = Digits::from_text(b"447700909999").context("digits")?;
    let mut octets = FIRST_ROUTE;
    octets[PLACE] = digits;
    Ok(RawEvent::Frame {
        from: Peer::new(from),
        octets: octets.to_vec(alloc)?,
    })
}

/// Routes, this many, of the shards in turn.
fn routes(alloc: Global, count: u64) -> Result<Vec<RawEvent>> {
    let mut events = Vec::new(alloc);
    for number in 0..count {
        let place = usize::try_from(number % 16)?;
        let digits = LAST_DIGITS.get(place).context("digits")?;
        events.push(route(alloc, *digits)?)?;
    }
    Ok(events)
}

/// The same as jobs, numbered from 1.
fn jobs(alloc: Global, count: u64) -> Result<Vec<Job>> {
    let mut jobs = Vec::new(alloc);
    let mut next = 0u64;
    for event in routes(alloc, count)? {
        next = next.saturating_add(1);
        let number = JobNumber::new(next).context("number")?;
        jobs.push(Job { number, event })?;
    }
    Ok(jobs)
}

/// Prints the nanoseconds since `start`, in all and for each job.
fn tell(rt: &HostRuntime, name: &str, start: &Instant, count: u64) -> Result<()> {
    let nanoseconds = start.elapsed(rt)?.as_nanos();
    let each = nanoseconds.checked_div(u128::from(count)).unwrap_or(0);
    println!(rt; "{name}: {nanoseconds} ns, {each} ns a job")?;
    Ok(())
}

fn time_node(rt: &HostRuntime, count: u64) -> Result<()> {
    let alloc = rt.alloc();
    let mut node = Node::new(alloc, loaded(alloc)?, Keep::Entries, 0)?;
    let events = routes(alloc, count)?;
    let start = Instant::now(rt)?;
    let done = node
        .run(&mut Bump::new(alloc), &events)
        .ok()
        .context("run")?;
    tell(rt, "one thread", &start, done.len() as u64)
}

fn run<R: Threads + Wait + Sync>(
    threads: &R,
    alloc: Global,
    node: Node,
    jobs: &[Job],
    workers: usize,
) -> Result<BatchDone> {
    if workers == 0 || workers > 16 {
        bail!("workers");
    }
    if !numbers_rise(jobs) {
        bail!("numbers");
    }
    let bump = &mut Bump::new(alloc);
    Ok(run_batch(threads, alloc, bump, node, jobs, &OpenGate, workers)?)
}

fn time_workers<R: Threads + Wait + Sync>(
    rt: &HostRuntime,
    threads: &R,
    count: u64,
    workers: usize,
) -> Result<()> {
    let alloc = rt.alloc();
    let node = Node::new(alloc, loaded(alloc)?, Keep::Entries, 0)?;
    let jobs = jobs(alloc, count)?;
    let start = Instant::now(rt)?;
    let done = run(threads, alloc, node, &jobs, workers)?;
    println!(rt; "{workers} workers")?;
    tell(rt, "batch", &start, count)?;
    let receipts = done.receipts?;
    let start = Instant::now(rt)?;
    reconcile(threads, workers, done.node.shards(), &jobs, &receipts)
        .ok()
        .context("unaccounted")?;
    tell(rt, "reconcile", &start, count)
}

/// Times a batch of `count` routes, at most 65,536, in one thread, and by 1 to 16 workers.
pub fn time<R: Threads + Wait + Sync>(rt: &HostRuntime, threads: &R, count: u64) -> Result<()> {
    let count = count.min(MAX_JOBS);
    time_node(rt, count)?;
    for workers in WORKERS {
        time_workers(rt, threads, count, workers)?;
    }
    Ok(())
}
