//! A worker.

ghost use Rattle.std.specs.Prelude.{◌≡◌, ◌++◌, false, [], map, IfOk, OnOk, OnErr};
ghost use Rattle.crossbeam_channel.specs.Claims.{view, IsSeatAt};
ghost use Rattle.crossbeam_channel.specs.Ends.{receives_on};
ghost use Rattle.workers.specs.Hands.{hand};
ghost use Rattle.workers.specs.Batch.{HasTaken};

use crate::gate::Gate;
use crate::locked::Naming;
use crate::locks::Locks;
use crate::rule::{Receiver, Seat, Takes, Work};
use bumpalo::Bump;
use receipts::{Job, Receipt};
use std::alloc::{AllocError, Global};
use std::sync::Wait;

/// What a worker returns: its pass, its receipts in the order in which it took the jobs, and whether it ran out of memory for one.
#[derive(Drop)]
pub struct Served {
    pub seat: Seat,
    pub receipts: Vec<Receipt>,
    pub refused: bool,
}

/// A worker: takes lots of the jobs of a batch from a channel until it takes `Stop`. For a lot it reserves memory for the receipts, and reads the
/// events in its own arena; then it locks each shard that some of them are for once, and handles these there, in their order: first the shards
/// whose locks are free, and then, waiting for them, those that others held. The receipts are, in order, for the jobs that its pass took. If
/// memory for a lot runs out, they are for the jobs before it; it then goes on taking lots without touching a shard.
///
/// Limitation: no contract says what a lock held, so none says that a receipt has its entry; `reconcile` finds out. Progress is
/// not claimed: a call that waits for a message or a lock may wait forever.
pub fn serve<R: Wait, G: Gate, J: Naming>(
    rt: &R,
    alloc: Global,
    channel: &Receiver,
    mut seat: Seat,
    locks: &Locks<J>,
    jobs: &[Job],
    gate: &G,
) -> Served
    requires seat { IsSeatAt (receives_on channel.now) seat }
    requires new { view seat ≡ hand false 1 [] [] }
    ensures seat { IsSeatAt (receives_on channel.now) result.seat }
    ensures taken { HasTaken jobs.now 1 (view result.seat)
        (map (λ r. r.job) result.receipts.items) result.refused }
{
    let mut bump = Bump::new(alloc);
    let mut receipts = Vec::new(alloc);
    let mut refused = false;
    for _ in rt.forever() {
        let Ok(work) = channel.recv_as::<Takes, R>(rt, &mut seat) else {
            continue;
        };
        let lot = match work {
            Work::Do(lot) => lot,
            Work::Stop => {
                return Served {
                    seat,
                    receipts,
                    refused,
                };
            }
        };
        if !refused {
            let jobs = lot.of(jobs);
            refused = answer_lot(rt, alloc, locks, &mut bump, jobs, gate, &mut receipts).is_err();
        }
    }
    unreachable!()
}

/// Handles the jobs of a lot, and appends their receipts, in the order of the jobs. All events are read first, while the code that reads
/// them is near; then each shard that some are for is locked once, a free one before one that another worker holds. If there is no memory for
/// the receipts, no job is handled.
fn answer_lot<R: Wait, G: Gate, J: Naming>(
    rt: &R,
    alloc: Global,
    locks: &Locks<J>,
    bump: &mut Bump,
    jobs: &[Job],
    gate: &G,
    receipts: &mut Vec<Receipt>,
) -> Result<(), AllocError>
    ensures ok { OnOk result (map (λ r. r.job) receipts.new.items
        ≡ map (λ r. r.job) receipts.old.items ++ map (λ j. j.number) jobs.now) }
    ensures err { OnErr result (receipts.new.items ≡ receipts.old.items) }
{
    receipts.reserve(jobs.len())?;
    let mut tasks = locks.read_tasks(alloc, bump, jobs)?;
    locks.handle_free(&mut tasks, gate);
    for place in 0..jobs.len() {
        let receipt = locks.answer(rt, &mut tasks, place, gate);
        let job = receipt.job;
        receipts.push_reserved(receipt);
        gate.done(job.get());
    }
    Ok(())
}
