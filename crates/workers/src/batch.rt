//! A batch of jobs that workers share.

ghost use Rattle.std.specs.Prelude.{◌≡◌, ◌+◌, ◌-◌, ◌<◌, ◌≤◌, ◌++◌, ◌∷◌, [], List, map, replicate, true, false, IfOk, IsOkAnd, IfErr};
ghost use Rattle.std.specs.List.Sorted.{IsPermutation, IsStrictlyIncreasing};
ghost use Rattle.crossbeam_channel.specs.Claims.{view, IsSeatAt};
ghost use Rattle.crossbeam_channel.specs.Ends.{sends_on, receives_on};
ghost use Rattle.workers.specs.declared.rule.Work.TheVariants.{Do, Stop};
ghost use Rattle.workers.specs.declared.lot.Lot.{Lot};
ghost use Rattle.workers.specs.Hands.{hand, IsBatch};
ghost use Rattle.receipts.specs.Numbers.{AreApart};
ghost use Rattle.workers.specs.Batch.{jobs_in, stops_in, HasTaken, HasGathered};
ghost use Rattle.workers.specs.Going.{HaveGoneOn};
ghost use Rattle.wholenode.specs.Keeping.{NodeKeeps};

use crate::caller::serve_alone;
use crate::gate::Gate;
use crate::locked::Naming;
use crate::locks::Locks;
use crate::lot::{Lot, crew_size, lot_size, messages};
use crate::rule::{Hires, Receiver, Seat, Sender, Sends, Totals, Work};
use crate::swapped::Swapped;
use crate::worker::{Served, serve};
use bumpalo::Bump;
use crossbeam_channel::bounded_with;
use receipts::{Job, Receipt};
use std::alloc::{AllocError, Global};
use std::marker::Brand;
use std::sync::Wait;
use std::thread::{self, Promise, Scope, Threads};
use wholenode::Node;

/// Sends one message. A reported disconnect proves nothing, so it tries again.
fn put<R: Wait>(rt: &R, channel: &Sender, mut seat: Seat, work: Work) -> Seat
    requires seat { IsSeatAt (sends_on channel.now) seat }
    requires sends { (view seat).sends ≡ true }
    requires batch { IsBatch ((view seat).sent ++ work ∷ []) }
    ensures seat { IsSeatAt (sends_on channel.now) result }
    ensures sent { view result ≡ hand true (view seat).shares ((view seat).sent ++ work ∷ [])
        (view seat).taken }
{
    let mut work = work;
    for _ in rt.forever() {
        match channel.send_as::<Sends, R>(rt, &mut seat, work) {
            Ok(()) => return seat,
            Err(refused) => work = refused.into_inner(),
        }
    }
    unreachable!()
}

/// Sends the jobs in lots, which have `most` jobs and the last perhaps fewer.
fn put_jobs<R: Wait>(rt: &R, channel: &Sender, mut seat: Seat, jobs: &[Job], most: usize) -> Seat
    requires seat { IsSeatAt (sends_on channel.now) seat }
    requires new { (view seat ≡ hand true (view seat).shares [] []) }
    requires most { 1 ≤ most }
    ensures seat { IsSeatAt (sends_on channel.now) result }
    ensures sent { (lots : List Lot)
        × (view result ≡ hand true (view seat).shares (map Do lots) [])
        × (jobs_in jobs.now lots ≡ jobs.now) }
{
    let mut from = 0;
    while from < jobs.len() {
        let count = most.min(jobs.len() - from);
        seat = put(rt, channel, seat, Work::Do(Lot { from, count }));
        from += count;
    }
    seat
}

/// Sends `Stop` `count` times.
fn put_stops<R: Wait>(rt: &R, channel: &Sender, mut seat: Seat, count: usize) -> Seat
    requires seat { IsSeatAt (sends_on channel.now) seat }
    requires sends { (view seat).sends ≡ true }
    requires batch { IsBatch (view seat).sent }
    ensures seat { IsSeatAt (sends_on channel.now) result }
    ensures sent { view result ≡ hand true (view seat).shares
        ((view seat).sent ++ replicate count Stop) (view seat).taken }
{
    for _ in 0..count {
        seat = put(rt, channel, seat, Work::Stop);
    }
    seat
}

/// The promise of a worker's thread.
#[derive(Clone, Copy)]
struct Serving<'a>(&'a Receiver, &'a [Job]);

impl<'a> Promise<Served> for Serving<'a> {
    ghost kept_by = { λ p r. IsSeatAt (receives_on p.0.now) r.seat
        × HasTaken p.1.now 1 (view r.seat) (map (λ x. x.job) r.receipts.items) r.refused };
}

/// Sends the jobs, and one `Stop` for each of the `workers`, and then serves as one of them.
fn lead<R: Wait, G: Gate, J: Naming>(
    rt: &R,
    alloc: Global,
    to: &Sender,
    from: &Receiver,
    locks: &Locks<J>,
    gate: &G,
    jobs: &[Job],
    workers: usize,
    seat: Seat,
) -> (Seat, Result<Vec<Receipt>, AllocError>)
    requires ends { receives_on from.now ≡ sends_on to.now }
    requires seat { IsSeatAt (sends_on to.now) seat }
    requires new { view seat ≡ hand true (view seat).shares [] [] }
    requires shares { 1 < (view seat).shares }
    requires workers { 1 ≤ workers }
    ensures seat { IsSeatAt (sends_on to.now) result.0 }
    ensures ok { IfOk result.1 (λ r. HasGathered (view seat).shares 1 jobs.now workers
        (map (λ x. x.job) r.items) (view result.0)) }
    ensures stops { stops_in (view result.0).sent
        ≡ workers - 1 + stops_in (view result.0).taken }
{
    let most = lot_size(jobs.len(), workers);
    let seat = put_jobs(rt, to, seat, jobs, most);
    let mut seat = put_stops(rt, to, seat, workers);
    let own = to.another::<Hires>(&mut seat);
    let served = serve(rt, alloc, from, own, locks, jobs, gate);
    gather(to, seat, Ok(Vec::new(alloc)), served)
}

/// Starts `left` more workers, each in a thread of its own, leads the batch, and joins those `left`.
fn team<'s, E, R: Threads + Wait + Sync, G: Gate + Sync, J: Naming + Send + Sync>(
    scope: &Scope<'s, E>,
    rt: &'s R,
    alloc: Global,
    to: &Sender,
    from: &'s Receiver,
    locks: &'s Locks<J>,
    gate: &'s G,
    jobs: &'s [Job],
    workers: usize,
    left: usize,
    mut seat: Seat,
) -> (Seat, Result<Vec<Receipt>, AllocError>)
    requires ends { receives_on from.now ≡ sends_on to.now }
    requires seat { IsSeatAt (sends_on to.now) seat }
    requires new { view seat ≡ hand true (view seat).shares [] [] }
    requires shares { left + 1 < (view seat).shares }
    requires left { left < workers }
    ensures seat { IsSeatAt (sends_on to.now) result.0 }
    ensures ok { IfOk result.1 (λ r. HasGathered (view seat).shares (left + 1) jobs.now workers
        (map (λ x. x.job) r.items) (view result.0)) }
    // On error too: as many `Stop`s were sent as workers had been started before and served or were joined here; each of these took one.
    ensures stops { stops_in (view result.0).sent
        ≡ workers - (left + 1) + stops_in (view result.0).taken }
{
    if left == 0 {
        return lead(rt, alloc, to, from, locks, gate, jobs, workers, seat);
    }
    let theirs = to.another::<Hires>(&mut seat);
    let Ok(worker) = scope.spawn_with(Serving(from, jobs), move || {
        serve(rt, alloc, from, theirs, locks, jobs, gate)
    }) else {
        let seat = put_stops(rt, to, seat, workers - left - 1);
        return (seat, Err(AllocError));
    };
    let (seat, others) = team(
        scope,
        rt,
        alloc,
        to,
        from,
        locks,
        gate,
        jobs,
        workers,
        left - 1,
        seat,
    );
    gather(to, seat, others, worker.join(rt))
}

/// Joins a worker's pass, and appends its receipts to the others.
fn gather(
    to: &Sender,
    mut seat: Seat,
    others: Result<Vec<Receipt>, AllocError>,
    served: Served,
) -> (Seat, Result<Vec<Receipt>, AllocError>)
    requires seat { IsSeatAt (sends_on to.now) seat × IsSeatAt (sends_on to.now) served.seat }
    ensures seat { IsSeatAt (sends_on to.now) result.0 }
    ensures view { view result.0 ≡ hand (view seat).sends
        ((view seat).shares + (view served.seat).shares) (view seat).sent
        ((view seat).taken ++ (view served.seat).taken) }
    ensures all { IfOk result.1 (λ all. IsOkAnd others
        (λ o. (all.items ≡ o.items ++ served.receipts.items) × (served.refused ≡ false))) }
{
    let Served {
        seat: theirs,
        mut receipts,
        refused,
    } = served;
    to.absorb::<Hires>(&mut seat, theirs);
    if refused {
        return (seat, Err(AllocError));
    }
    let Ok(mut all) = others else {
        return (seat, Err(AllocError));
    };
    match all.append(&mut receipts) {
        Ok(()) => (seat, Ok(all)),
        Err(refused) => (seat, Err(refused)),
    }
}

/// A register after a batch, and the receipts of its jobs.
#[derive(Drop)]
pub struct BatchDone {
    pub node: Node,
    pub receipts: Result<Vec<Receipt>, AllocError>,
}

/// Has 1 to 16 workers handle the jobs, but no more than there are jobs. One of them is the caller's thread, and a thread is started for
/// each other; meanwhile each shard is behind a lock of its own. One worker alone takes the jobs in order, with no lock, and reads them in
/// this arena. There is one receipt for each job, by ascending number. If a worker could not be started, or there is no memory for the
/// locks, the channel or the receipts, there are none, after all started workers have stopped: some jobs may then have been handled. The
/// register is returned in any case, with its shards as they are by then.
///
/// `Swapped` if a lock holds another shard at the end than at the beginning, which no contract excludes. The register is dropped then.
///
/// Limitation: no contract says which worker takes a job, in which order the jobs of a batch reach their shard, or that the call
/// returns. That a receipt has its entry is known only from `reconcile`.
pub fn run_batch<R: Threads + Wait + Sync, G: Gate + Sync>(
    rt: &R,
    alloc: Global,
    bump: &mut Bump,
    node: Node,
    jobs: &[Job],
    gate: &G,
    workers: usize,
) -> Result<BatchDone, Swapped>
    requires workers { (1 ≤ workers) × (workers ≤ 16) }
    requires distinct { AreApart (map (λ j. j.number) jobs.now) }
    ensures directory { IfOk result (λ done. done.node.directory ≡ node.directory) }
    // Each shard is as before, or has gone on by a run of the machine; if it keeps entries, they follow those that it had.
    ensures gone_on { IfOk result (λ done. HaveGoneOn node.shards done.node.shards) }
    ensures keeps { IfOk result (λ done. NodeKeeps done.node) }
    ensures one_each { IfOk result (λ done. IfOk done.receipts (λ rs. IsPermutation
        (map (λ j. j.number) jobs.now) (map (λ r. r.job) rs.items))) }
    ensures rising { IfOk result (λ done. IfOk done.receipts (λ rs. IsStrictlyIncreasing
        (map (λ r. r.job) rs.items))) }
    ensures place { IfErr result (λ swapped. swapped.0 < 16) }
{
    let done = in_any_order(rt, alloc, bump, node, jobs, gate, workers)?;
    Ok(BatchDone {
        node: done.node,
        receipts: by_number(done.receipts),
    })
}

/// The same with the receipts in any order.
fn in_any_order<R: Threads + Wait + Sync, G: Gate + Sync>(
    rt: &R,
    alloc: Global,
    bump: &mut Bump,
    node: Node,
    jobs: &[Job],
    gate: &G,
    workers: usize,
) -> Result<BatchDone, Swapped>
    requires workers { (1 ≤ workers) × (workers ≤ 16) }
    ensures directory { IfOk result (λ done. done.node.directory ≡ node.directory) }
    ensures gone_on { IfOk result (λ done. HaveGoneOn node.shards done.node.shards) }
    ensures keeps { IfOk result (λ done. NodeKeeps done.node) }
    ensures one_each { IfOk result (λ done. IfOk done.receipts (λ rs. IsPermutation
        (map (λ j. j.number) jobs.now) (map (λ r. r.job) rs.items))) }
    ensures place { IfErr result (λ swapped. swapped.0 < 16) }
{
    let workers = crew_size(jobs.len(), workers);
    if workers == 1 {
        return Ok(serve_alone(alloc, bump, node, jobs, gate));
    }
    behind_locks::<R, G, Brand>(rt, alloc, node, jobs, gate, workers)
}

/// The same receipts by ascending number.
fn by_number(receipts: Result<Vec<Receipt>, AllocError>) -> Result<Vec<Receipt>, AllocError>
    ensures same { IfOk result (λ rs. IsOkAnd receipts (λ all. IsPermutation
        (map (λ r. r.job) all.items) (map (λ r. r.job) rs.items))) }
    ensures rising { IfOk result (λ rs. IsOkAnd receipts (λ all. AreApart
        (map (λ r. r.job) all.items) → IsStrictlyIncreasing (map (λ r. r.job) rs.items))) }
{
    let mut receipts = receipts?;
    receipts.sort_by_key(|r| r.job)?;
    Ok(receipts)
}

/// Has several workers handle the jobs, with each shard behind a lock. The receipts are in any order.
fn behind_locks<R: Threads + Wait + Sync, G: Gate + Sync, J: Naming + Send + Sync>(
    rt: &R,
    alloc: Global,
    node: Node,
    jobs: &[Job],
    gate: &G,
    workers: usize,
) -> Result<BatchDone, Swapped>
    requires began { node ≡ J.began }
    requires workers { (1 ≤ workers) × (workers ≤ 16) }
    ensures directory { IfOk result (λ done. done.node.directory ≡ node.directory) }
    ensures gone_on { IfOk result (λ done. HaveGoneOn node.shards done.node.shards) }
    ensures keeps { IfOk result (λ done. NodeKeeps done.node) }
    ensures one_each { IfOk result (λ done. IfOk done.receipts (λ rs. IsPermutation
        (map (λ j. j.number) jobs.now) (map (λ r. r.job) rs.items))) }
    ensures place { IfErr result (λ swapped. swapped.0 < 16) }
{
    let locks = match Locks::<J>::of_node(alloc, node) {
        Ok(locks) => locks,
        Err((node, refused)) => {
            return Ok(BatchDone {
                node,
                receipts: Err(refused),
            });
        }
    };
    let receipts = share(rt, alloc, &locks, jobs, gate, workers);
    let node = locks.into_node()?;
    Ok(BatchDone { node, receipts })
}

/// The receipts of all jobs, in any order.
fn share<R: Threads + Wait + Sync, G: Gate + Sync, J: Naming + Send + Sync>(
    rt: &R,
    alloc: Global,
    locks: &Locks<J>,
    jobs: &[Job],
    gate: &G,
    workers: usize,
) -> Result<Vec<Receipt>, AllocError>
    requires workers { (1 ≤ workers) × (workers ≤ 16) }
    ensures one_each { IfOk result (λ rs. IsPermutation (map (λ j. j.number) jobs.now)
        (map (λ r. r.job) rs.items)) }
{
    let (to, from, seat) = bounded_with(alloc, messages(jobs.len(), workers))?;
    let (sender, receiver) = (&to, &from);
    let (mut seat, gathered) = thread::scope(
        thread::scope_env(),
        rt,
        |scope| -> (Seat, Result<Vec<Receipt>, AllocError>)
            requires ends { receives_on receiver.now ≡ sends_on sender.now }
            requires seat { IsSeatAt (sends_on sender.now) seat }
            requires view { view seat ≡ hand true 17 [] [] }
            requires workers { (1 ≤ workers) × (workers ≤ 16) }
            ensures seat { IsSeatAt (sends_on sender.entry.now) result.0 }
            ensures ok { IfOk result.1 (λ r. HasGathered 17 workers jobs.entry.now workers
                (map (λ x. x.job) r.items) (view result.0)) }
            // On error too: as many `Stop`s were sent as were taken, one by each worker that served.
            ensures stops { stops_in (view result.0).sent ≡ stops_in (view result.0).taken }
        {
            team(
                scope,
                rt,
                alloc,
                sender,
                receiver,
                locks,
                gate,
                jobs,
                workers,
                workers - 1,
                seat,
            )
        },
    );
    let receipts = gathered?;
    to.learn_as::<Totals>(&mut seat);
    Ok(receipts)
}
