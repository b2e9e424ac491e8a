//! Shards that are put behind locks with entries, and a state that these led to; and a job that was refused.

use crate::gates::Open;
use crate::given::{Register, clock, frame};
use crate::samples::{DATA_TAKEN, ROUTE, ROUTE_ANSWER, UPDATE};
use hlrcore::State;
use shardlog::Shard;
use std::alloc::Global;
use std::test::Fail;
use workers::{Job, Receipt, Refusal, Unaccounted, reconcile};

/// A job that was refused is found.
#[test]
fn refused_job(rt: HostRuntime) -> Result<(), Fail> {
    let alloc = rt.alloc();
    let mut register = Register::new(alloc)?;
    register.take(&rt, &Open, 1, vec![in alloc; clock(3, 1)?]?)?;
    let (shards, jobs, mut receipts) = register.close()?;
    let whole = reconcile(&rt, 2, &shards, &jobs, &receipts);
    if let Some(receipt) = receipts.first_mut() {
        receipt.answer = Err(Refusal::NotMine);
    }
    assert_eq!(rt;
        (whole, reconcile(&rt, 2, &shards, &jobs, &receipts)),
        (Ok(()), Err(Unaccounted(1)))
    );
    Ok(())
}

/// A copy of the state of each shard, and how many entries each has.
fn states_and_counts(alloc: Global, shards: &[Shard]) -> Result<Vec<(State, usize)>, Fail> {
    let mut found = Vec::new(alloc);
    for shard in shards {
        found.push((shard.state().try_copy()?, shard.entries().len()))?;
    }
    Ok(found)
}

/// How many of the shards have these states and counts.
fn are_same(shards: &[Shard], before: &[(State, usize)]) -> Result<usize, Fail> {
    let mut same: usize = 0;
    for (shard, (state, count)) in shards.iter().zip(before) {
        if shard.state().same(state)? && shard.entries().len() == *count {
            same = same.saturating_add(1);
        }
    }
    Ok(same)
}

/// The jobs, and receipts, from this place on.
fn from_place(place: usize, jobs: Vec<Job>, receipts: Vec<Receipt>) -> (Vec<Job>, Vec<Receipt>) {
    let (mut jobs, mut receipts) = (jobs, receipts);
    jobs.drain(..place.min(jobs.len()));
    receipts.drain(..place.min(receipts.len()));
    (jobs, receipts)
}

/// Shards with entries, one of them with an open update, are put behind locks once more. Those for which there is no job come back with their entries and
/// states. The update completes, and the route is the new one. Jobs and receipts account for the journals, but not the later ones alone.
#[test]
fn shards_with_entries(rt: HostRuntime) -> Result<(), Fail> {
    let alloc = rt.alloc();
    let mut register = Register::new(alloc)?;
    let update = frame(alloc, b"447700900012", &UPDATE)?;
    register.take(&rt, &Open, 2, vec![in alloc; update, clock(3, 7)?]?)?;
    let before = states_and_counts(alloc, register.shards())?;
    register.take(&rt, &Open, 2, vec![in alloc; clock(5, 7)?, clock(6, 7)?]?)?;
    let shards = register.shards();
    assert_eq!(rt; (shards.len(), are_same(shards, &before)?), (16, 14));
    let taken = frame(alloc, b"447700900012", &DATA_TAKEN)?;
    register.take(&rt, &Open, 2, vec![in alloc; taken, clock(4, 7)?]?)?;
    let route = frame(alloc, b"447700909999", &ROUTE)?;
    register.take(&rt, &Open, 2, vec![in alloc; clock(4, 8)?, route]?)?;
    assert_eq!(rt; register.sent_last(), ROUTE_ANSWER.as_slice());
    let (shards, jobs, receipts) = register.close()?;
    let whole = reconcile(&rt, 2, &shards, &jobs, &receipts);
    let (jobs, receipts) = from_place(2, jobs, receipts);
    assert_eq!(rt;
        (whole, reconcile(&rt, 2, &shards, &jobs, &receipts)),
        (Ok(()), Err(Unaccounted(0)))
    );
    Ok(())
}
