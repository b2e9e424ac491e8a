//! A register that workers share.

use crate::batch::run_batch;
use crate::gate::OpenGate;
use crate::lot::paying_crew;
use crate::part::{first_fault, longest_with, number_jobs};
use crate::settle::{cut, settle};
use crate::shared_fault::SharedFault;
use bumpalo::Bump;
use hlrcore::RawEvent;
use machine::numbers::MAX_ENTRIES;
use receipts::{Job, Receipt};
use records::Loaded;
use shardlog::Shard;
use std::alloc::{AllocError, Global};
use std::marker::Model;
use std::sync::Wait;
use std::thread::Threads;
use wholenode::{Keep, Node};

/// For how many jobs and receipts there is room at first.
const FIRST_ROOM: usize = 8_192;

/// A register that worker threads share: its sixteen shards, which are behind locks while a batch is handled, and the jobs and receipts since their
/// journals were last cut. Contracts see the bases of the shards, the jobs and the receipts.
#[derive(Drop)]
pub struct SharedRegister {
    alloc: Global,
    /// The arena of the caller's thread.
    bump: Bump,
    node: Option<Node>,
    jobs: Vec<Job>,
    receipts: Vec<Receipt>,
    /// The number of the next job.
    next: u64,
    /// Each entry that the receipts name stands before this position: no journal is longer.
    longest: usize,
}

impl Model for SharedRegister {
    ghost use Rattle.std.specs.Prelude.{IfSome};
    ghost use Rattle.workers.specs.Going.{KeepEntries};
    ghost use Rattle.workers.specs.Shared.{SharedState, bases_in, shared_state, shared_state_code};

    ghost Value = { SharedState };

    ghost coded = { shared_state_code };

    ghost view = { λ s. shared_state (bases_in s.node) s.jobs.items s.receipts.items };

    ghost invariant = { λ s. IfSome s.node (λ n. KeepEntries n.shards) };
}

impl SharedRegister {
    ghost use Rattle.std.specs.Prelude.{◌≡◌, ◌≤◌, ◌-◌, ◌++◌, [], ℕ, List, drop, length, map, IfOk, OnOk};
    ghost use Rattle.std.specs.List.Sorted.{IsPermutation, IsStrictlyIncreasing};
    ghost use Rattle.receipts.specs.Numbers.{AreApart};
    ghost use Rattle.frames.specs.Octets as octets;
    ghost use Rattle.hlrcore.specs.Events.{raw_event};
    ghost use Rattle.machine.specs.declared.numbers.TheConstants.{MAX_ENTRIES};
    ghost use Rattle.machine.specs.Opening.{opening};
    ghost use Rattle.machine.specs.State.{State};
    ghost use Rattle.hlrcore.specs.Shards.{directory_of, records_of};
    ghost use Rattle.frames.specs.Account as account;
    ghost use Rattle.workers.specs.Shared.{AddsJobs, AreLast, GoesOn, HandsOut, StandsBehind, jobs_of_receipts, numbers_of_jobs, sent_for, shared_state};

    /// The register of a records file: its records, no open dialogue, and no job. On error the loaded value is dropped.
    pub fn new(alloc: Global, loaded: Loaded) -> Result<SharedRegister, AllocError>
        ensures begins { IfOk result (StandsBehind
            (opening (records_of loaded.records)
            (directory_of loaded.directory) loaded.hlr) [] []) }
    {
        let node = Node::new(alloc, loaded, Keep::Entries, 0)?;
        Ok(SharedRegister {
            alloc,
            bump: Bump::new(alloc),
            node: Some(node),
            jobs: Vec::with_capacity(alloc, FIRST_ROOM)?,
            receipts: Vec::with_capacity(alloc, FIRST_ROOM)?,
            next: 1,
            longest: 0,
        })
    }

    /// Has 1 to 16 workers handle a part of a batch, whose events are taken out of this list: at most one for each 128 events, since it takes
    /// as long to start a thread, and at least one. `last_receipts` has what it sends.
    ///
    /// If by the receipts some journal has no room for that many more entries, all journals are cut first, once jobs and receipts
    /// account for them. The epochs are dropped.
    ///
    /// The part fails with the first of its jobs that is refused for lack of memory or of room, or if journals to be cut are not
    /// accounted for. The register must not be used after that.
    pub fn run_part<R: Threads + Wait + Sync>(
        &mut self,
        rt: &R,
        workers: usize,
        part: &mut Vec<RawEvent>,
    ) -> Result<(), SharedFault>
        requires workers { (1 ≤ workers) × (workers ≤ 16) }
        requires few { length part.old.items ≤ MAX_ENTRIES }
        ensures handles { OnOk result ((receipts : List account.Receipt)
            × GoesOn self.old (map raw_event part.old.items) (sent_for receipts) self.new
            × AreLast receipts self.new) }
        ensures emptied { OnOk result (part.new.items ≡ []) }
        ensures less { length part.new.items ≤ length part.old.items }
    {
        self.make_room(rt, workers, part.len())?;
        let from = self.jobs.len();
        self.number(part)?;
        let receipts = self.handle(rt, workers, from)?;
        self.keep(receipts)?;
        Ok(())
    }

    /// The receipts of the last so many events since the last cut, in their order; those of all, if they are fewer.
    pub fn last_receipts(&self, count: usize) -> &[Receipt]
        ensures { result.now ≡ drop (length self.now.receipts - count) self.now.receipts }
    {
        let from = self.receipts.len().saturating_sub(count);
        &self.receipts[from..]
    }

    /// The shards, if jobs and receipts since the last cut account for their journals, as so many threads find out. The jobs and the
    /// receipts are returned too. On error all is dropped.
    pub fn close<R: Threads + Sync>(
        self,
        rt: &R,
        threads: usize,
    ) -> Result<(Vec<Shard>, Vec<Job>, Vec<Receipt>), SharedFault>
        ensures hands_out { IfOk result (λ closed. (begin : State) (events : List octets.RawEvent)
            (sent : List (List octets.RawOut)) → StandsBehind begin events sent self
            → HandsOut begin events sent closed.0.items) }
        ensures account { IfOk result (λ closed. (closed.1.items ≡ self.jobs)
            × (closed.2.items ≡ self.receipts)) }
    {
        let SharedRegister {
            alloc: _,
            bump: _,
            node,
            jobs,
            receipts,
            next: _,
            longest: _,
        } = self;
        let Some(node) = node else {
            return Err(SharedFault::Unaccounted(0));
        };
        settle(rt, threads, &node, &jobs, &receipts)?;
        Ok((node.into_shards(), jobs, receipts))
    }

    /// Cuts all journals, if one of them has no room for `count` more entries.
    fn make_room<R: Threads + Sync>(
        &mut self,
        rt: &R,
        threads: usize,
        count: usize,
    ) -> Result<(), SharedFault>
        requires { count ≤ MAX_ENTRIES }
        ensures { OnOk result (GoesOn self.old [] [] self.new) }
    {
        if self.longest > MAX_ENTRIES - count {
            return self.cut(rt, threads);
        }
        Ok(())
    }

    /// Cuts all journals, if jobs and receipts account for them.
    fn cut<R: Threads + Sync>(&mut self, rt: &R, threads: usize) -> Result<(), SharedFault>
        ensures { OnOk result (GoesOn self.old [] [] self.new) }
    {
        let Some(node) = self.node.take() else {
            return Err(SharedFault::Unaccounted(0));
        };
        settle(rt, threads, &node, &self.jobs, &self.receipts)?;
        self.node = Some(cut(self.alloc, node));
        self.jobs.clear();
        self.receipts.clear();
        self.longest = 0;
        Ok(())
    }

    /// Appends the events as jobs, with the next numbers.
    fn number(&mut self, part: &mut Vec<RawEvent>) -> Result<(), SharedFault>
        ensures adds { OnOk result ((first : ℕ) × AddsJobs first (map raw_event part.old.items)
            self.old.jobs self.new.jobs) }
        ensures same { OnOk result (self.new
            ≡ shared_state self.old.bases self.new.jobs self.old.receipts) }
        ensures emptied { OnOk result (part.new.items ≡ []) }
        ensures less { length part.new.items ≤ length part.old.items }
    {
        let first = self.next;
        let Some(next) = first.checked_add(part.len() as u64) else {
            return Err(SharedFault::Memory);
        };
        self.next = next;
        number_jobs(first, part, &mut self.jobs)
    }

    /// Has workers handle the jobs from a place on. There is one receipt for each, in their order.
    fn handle<R: Threads + Wait + Sync>(
        &mut self,
        rt: &R,
        workers: usize,
        from: usize,
    ) -> Result<Vec<Receipt>, SharedFault>
        requires workers { (1 ≤ workers) × (workers ≤ 16) }
        requires from { from ≤ length self.old.jobs }
        requires rising { IsStrictlyIncreasing (numbers_of_jobs (drop from self.old.jobs)) }
        ensures same { OnOk result (self.new ≡ self.old) }
        ensures pairs { IfOk result (λ receipts. jobs_of_receipts receipts.items
            ≡ numbers_of_jobs (drop from self.old.jobs)) }
    {
        let crew = paying_crew(self.jobs.len() - from, workers);
        let receipts = self.run_jobs(rt, crew, from)?;
        match first_fault(&receipts) {
            Some(fault) => Err(fault),
            None => Ok(receipts),
        }
    }

    /// The receipts of the jobs from a place on, which so many workers handle.
    fn run_jobs<R: Threads + Wait + Sync>(
        &mut self,
        rt: &R,
        workers: usize,
        from: usize,
    ) -> Result<Vec<Receipt>, SharedFault>
        requires workers { (1 ≤ workers) × (workers ≤ 16) }
        requires from { from ≤ length self.old.jobs }
        requires distinct { AreApart (numbers_of_jobs (drop from self.old.jobs)) }
        ensures same { OnOk result (self.new ≡ self.old) }
        ensures one_each { IfOk result (λ receipts. IsPermutation
            (numbers_of_jobs (drop from self.old.jobs)) (jobs_of_receipts receipts.items)) }
        ensures rising { IfOk result (λ receipts. IsStrictlyIncreasing
            (jobs_of_receipts receipts.items)) }
    {
        let Some(node) = self.node.take() else {
            return Err(SharedFault::Unaccounted(0));
        };
        let (bump, jobs) = (&mut self.bump, &self.jobs[from..]);
        let done = run_batch(rt, self.alloc, bump, node, jobs, &OpenGate, workers)?;
        self.node = Some(done.node);
        Ok(done.receipts?)
    }

    /// Appends the receipts to those since the last cut.
    fn keep(&mut self, receipts: Vec<Receipt>) -> Result<(), AllocError>
        ensures { OnOk result (self.new ≡ shared_state self.old.bases self.old.jobs
            (self.old.receipts ++ receipts.items)) }
    {
        let mut receipts = receipts;
        self.longest = longest_with(self.longest, &receipts);
        self.receipts.append(&mut receipts)?;
        Ok(())
    }
}
