//! A batch that the caller's thread handles alone.

ghost use Rattle.std.specs.Prelude.{◌≡◌, map, IfOk, IfSome};
ghost use Rattle.std.specs.List.Sorted.{IsPermutation};
ghost use Rattle.hlrcore.specs.Events.{raw_of};
ghost use Rattle.receipts.specs.Receipts.{place_of};
ghost use Rattle.wholenode.specs.Keeping.{AreShards, NodeKeeps};
ghost use Rattle.workers.specs.Answered.{IsAnswered};
ghost use Rattle.workers.specs.Going.{HaveGoneOn};

use crate::apply::{apply, unread};
use crate::batch::BatchDone;
use crate::gate::Gate;
use bumpalo::Bump;
use hlrcore::{Event, addressee_of};
use receipts::{Job, JobNumber, Placed, Receipt, Refusal};
use records::Directory;
use shardlog::Shard;
use std::alloc::{AllocError, Global};
use wholenode::Node;

/// Handles the jobs one after another, with no lock. The receipts are in their order. If there is no memory for them, no job is handled.
pub(crate) fn serve_alone<G: Gate>(
    alloc: Global,
    bump: &mut Bump,
    node: Node,
    jobs: &[Job],
    gate: &G,
) -> BatchDone
    ensures directory { result.node.directory ≡ node.directory }
    ensures gone_on { HaveGoneOn node.shards result.node.shards }
    ensures keeps { NodeKeeps result.node }
    ensures one_each { IfOk result.receipts (λ rs. IsPermutation
        (map (λ j. j.number) jobs.now) (map (λ r. r.job) rs.items)) }
{
    let (directory, mut shards) = node.into_parts();
    let receipts = answer_each(alloc, bump, &directory, &mut shards, jobs, gate);
    BatchDone {
        node: Node::of_parts(alloc, directory, shards),
        receipts,
    }
}

/// The receipts of the jobs, each of which is handled in its shard.
fn answer_each<G: Gate>(
    alloc: Global,
    bump: &mut Bump,
    directory: &Directory,
    shards: &mut [Shard],
    jobs: &[Job],
    gate: &G,
) -> Result<Vec<Receipt>, AllocError>
    requires { AreShards directory.now shards.old }
    ensures are { AreShards directory.now shards.new }
    ensures gone_on { HaveGoneOn shards.old shards.new }
    ensures all { IfOk result (λ rs. map (λ r. r.job) rs.items ≡ map (λ j. j.number) jobs.now) }
{
    let mut receipts = Vec::with_capacity(alloc, jobs.len())?;
    for job in jobs {
        let answer = answer_one(alloc, bump, directory, shards, job, gate);
        let number = job.number;
        gate.done(number.get());
        receipts.push_reserved(Receipt {
            job: number,
            answer,
        });
    }
    Ok(receipts)
}

/// Reads the event of a job, and handles it in its shard.
fn answer_one<G: Gate>(
    alloc: Global,
    bump: &mut Bump,
    directory: &Directory,
    shards: &mut [Shard],
    job: &Job,
    gate: &G,
) -> Result<Placed, Refusal>
    requires { AreShards directory.now shards.old }
    ensures are { AreShards directory.now shards.new }
    ensures gone_on { HaveGoneOn shards.old shards.new }
    ensures place { IfSome (place_of result) (IsAnswered job.now.event) }
{
    // What is read stays where it is made, since it is as large as whatever a frame may hold.
    let mut read = Event::of(alloc, bump, &job.event);
    match &mut read {
        Ok(event) => handle_one(directory, shards, job.number, event, gate),
        Err(fault) => Err(unread(alloc, bump, fault)),
    }
}

/// Handles an event in its shard.
fn handle_one<G: Gate>(
    directory: &Directory,
    shards: &mut [Shard],
    job: JobNumber,
    event: &mut Event,
    gate: &G,
) -> Result<Placed, Refusal>
    requires { AreShards directory.now shards.old }
    ensures are { AreShards directory.now shards.new }
    ensures gone_on { HaveGoneOn shards.old shards.new }
    ensures place { IfSome (place_of result) (IsAnswered (raw_of event.old)) }
{
    let found = addressee_of(directory, event);
    let shard = &mut shards[usize::from(found.shard)];
    gate.inside(job.get());
    apply(shard, event, found)
}
