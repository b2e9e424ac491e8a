//! How long the layers take.
//!
//! Without words one round of each is run, and what it did is counted. With a name and a number, as in `read 1000000`, that
//! many rounds of it are run, and the time of one is printed, in nanoseconds. `batches 65536` times a batch of that many
//! routes in one thread and with 1 to 16 workers.
#![tactic(auto)]

mod answer;
mod batches;
mod judging;
mod reading;
mod request;
mod stepping;
mod tables;
mod writing;

use anyhow::{Context, Result, bail};
use std::alloc::Global;
use std::env;
use std::sync::Wait;
use std::thread::Threads;
use std::time::Instant;

/// What can be run.
#[derive(Clone, Copy, PartialEq, Eq)]
enum Layer {
    Read,
    JudgeRoute,
    JudgeUpdate,
    Step,
    Write,
    Ids,
    Deadlines,
}

fn layer_of(name: &str) -> Option<Layer> {
    match name {
        "read" => Some(Layer::Read),
        "judge-route" => Some(Layer::JudgeRoute),
        "judge-update" => Some(Layer::JudgeUpdate),
        "step" => Some(Layer::Step),
        "write" => Some(Layer::Write),
        "ids" => Some(Layer::Ids),
        "deadlines" => Some(Layer::Deadlines),
        _ => None,
    }
}

/// Runs this number of rounds, and counts what they did: elements read, components read, octets sent or written, ids taken, or
/// deadlines found.
fn run(alloc: Global, layer: Layer, rounds: u64) -> Result<u64> {
    match layer {
        Layer::Read => reading::run(alloc, &request::FIRST_ROUTE, rounds),
        Layer::JudgeRoute => judging::run(alloc, &request::FIRST_ROUTE, rounds),
        Layer::JudgeUpdate => judging::run(alloc, &request::FIRST_UPDATE, rounds),
        Layer::Step => stepping::run(alloc, &request::FIRST_ROUTE, rounds),
        Layer::Write => writing::run(alloc, rounds),
        Layer::Ids => tables::take_ids(alloc, rounds),
        Layer::Deadlines => tables::move_deadlines(alloc, rounds),
    }
}

fn count(rt: &HostRuntime) -> Result<()> {
    println!(rt; "read: {} elements", run(rt.alloc(), Layer::Read, 1)?)?;
    println!(rt;
        "judge-route: {} components",
        run(rt.alloc(), Layer::JudgeRoute, 1)?
    )?;
    println!(rt;
        "judge-update: {} components",
        run(rt.alloc(), Layer::JudgeUpdate, 1)?
    )?;
    println!(rt; "step: {} octets", run(rt.alloc(), Layer::Step, 1)?)?;
    println!(rt; "write: {} octets", run(rt.alloc(), Layer::Write, 1)?)?;
    println!(rt; "ids: {} taken", run(rt.alloc(), Layer::Ids, 1)?)?;
    println!(rt;
        "deadlines: {} found",
        run(rt.alloc(), Layer::Deadlines, 1)?
    )?;
    Ok(())
}

fn time<R: Threads + Wait + Sync>(
    rt: &HostRuntime,
    threads: &R,
    name: &str,
    rounds: u64,
) -> Result<()> {
    if name == "batches" {
        return batches::time(rt, threads, rounds);
    }
    let layer = layer_of(name).context("no such layer")?;
    let start = Instant::now(rt)?;
    let done = run(rt.alloc(), layer, rounds)?;
    let nanoseconds = start.elapsed(rt)?.as_nanos();
    let each = nanoseconds.checked_div(u128::from(rounds)).unwrap_or(0);
    println!(rt; "{name}: {rounds} rounds, {done} in all, {each} ns each")?;
    Ok(())
}

fn serve<R: Threads + Wait + Sync>(rt: &HostRuntime, threads: &R) -> Result<()> {
    let mut words = env::args(rt)?.skip(1);
    match (words.next(), words.next()) {
        (None, _) => count(rt),
        (Some(name), Some(rounds)) => time(rt, threads, &name, rounds.parse::<u64>()?),
        (Some(_), None) => bail!("a layer and a number of rounds"),
    }
}

fn main(rt: HostRuntime) -> Result<()> {
    serve(&rt, &rt)
}
