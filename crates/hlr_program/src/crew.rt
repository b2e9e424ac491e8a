//! A register that worker threads share, with their number.

use crate::answers::Answers;
use crate::each::Each;
use crate::fault::Fault;
use hlrcore::{RawEvent, ShardNumber};
use machine::numbers::{MAX_ENTRIES, SHARDS};
use records::Loaded;
use shardlog::Shard;
use std::alloc::{AllocError, Global};
use std::marker::Model;
use std::mem;
use std::sync::Wait;
use std::thread::Threads;
use workers::SharedRegister;

/// A register whose batches are handled by 1 to 16 workers, a part at a time.
#[derive(Drop)]
pub struct Crew {
    alloc: Global,
    register: SharedRegister,
    workers: usize,
    /// The events of a part that are not handled yet.
    part: Vec<RawEvent>,
}

impl Model for Crew {
    ghost use Rattle.std.specs.Prelude.{◌≤◌, length, map};
    ghost use Rattle.machine.specs.declared.numbers.TheConstants.{MAX_ENTRIES};
    ghost use Rattle.hlrcore.specs.Events.{raw_event};
    ghost use Rattle.workers.specs.Shared.{SharedState, shared_state_code};
    ghost use Rattle.hlr_program.specs.Gathered.{Gathered, gathered_code, with_part};

    ghost Value = { Gathered SharedState };

    ghost coded = { gathered_code SharedState shared_state_code };

    ghost view = { λ c. with_part c.register (map raw_event c.part.items) };

    ghost invariant = { λ c. (1 ≤ c.workers) × (c.workers ≤ 16) × (length c.part.items ≤ MAX_ENTRIES) };
}

impl Crew {
    ghost use Rattle.std.specs.Prelude.{◌≡◌, ◌≤◌, ◌∷◌, [], List, IfOk, IfErr, OnOk, None};
    ghost use Rattle.frames.specs.Octets.{RawEvent as Event, RawOut};
    ghost use Rattle.machine.specs.State.{State};
    ghost use Rattle.hlrcore.specs.Events.{raw_event};
    ghost use Rattle.workers.specs.Shared.{HandsOut, StandsBehind};
    ghost use Rattle.hlr_program.specs.declared.register.Register.TheVariants as register;
    ghost use Rattle.hlr_program.specs.Gathering.{Adds, AddingStops, progress};
    ghost use Rattle.hlr_program.specs.Runs.{opening_of};
    ghost use Rattle.hlr_program.specs.Shards.{events_for};
    ghost use Rattle.hlr_program.specs.Stopping.{HandingOutStops};

    /// The register of a records file, for this number of workers.
    pub fn new(alloc: Global, loaded: Loaded, workers: u8) -> Result<Crew, AllocError>
        requires { (1 ≤ workers) × (workers ≤ 16) }
        ensures begins { IfOk result (λ crew. StandsBehind (opening_of loaded) [] [] crew.register) }
        ensures none { IfOk result (λ crew. crew.part ≡ []) }
    {
        let register = SharedRegister::new(alloc, loaded)?;
        Ok(Crew {
            alloc,
            register,
            workers: usize::from(workers),
            part: Vec::new(alloc),
        })
    }

    /// An empty list for the octets of a frame.
    pub fn take_room(&self) -> Vec<u8> {
        Vec::new(self.alloc)
    }

    /// Gathers an event. Those that are gathered are handled first if they are a whole part.
    pub fn take<R: Threads + Wait + Sync>(
        &mut self,
        rt: &R,
        raw: RawEvent,
        answers: &mut Answers,
    ) -> Result<(), Fault>
        ensures adds { OnOk result (Adds (progress (register.Shared self.old) answers.old)
            (raw_event raw ∷ []) (progress (register.Shared self.new) answers.new)) }
        ensures stops { IfErr result (AddingStops (progress (register.Shared self.old) answers.old)
            (raw_event raw ∷ [])) }
    {
        if self.part.len() >= MAX_ENTRIES {
            self.run(rt, answers)?;
        }
        self.part.push(raw).map_err(|_| Fault::Memory)?;
        Ok(())
    }

    /// Gathers an event of each shard, in order of the shards.
    pub fn take_each<R: Threads + Wait + Sync>(
        &mut self,
        rt: &R,
        said: Each,
        answers: &mut Answers,
    ) -> Result<(), Fault>
        ensures adds { OnOk result (Adds (progress (register.Shared self.old) answers.old)
            (events_for said) (progress (register.Shared self.new) answers.new)) }
        ensures stops { IfErr result (AddingStops (progress (register.Shared self.old) answers.old)
            (events_for said)) }
    {
        for number in 0..SHARDS {
            let shard = ShardNumber::new(number).unwrap();
            self.take(rt, said.of(shard), answers)?;
        }
        Ok(())
    }

    /// Handles the events that are gathered, and appends the lines of what they send, event by event in order.
    pub fn run<R: Threads + Wait + Sync>(
        &mut self,
        rt: &R,
        answers: &mut Answers,
    ) -> Result<(), Fault>
        ensures adds { OnOk result (Adds (progress (register.Shared self.old) answers.old) []
            (progress (register.Shared self.new) answers.new)) }
        ensures none { OnOk result (self.new.part ≡ []) }
        ensures stops { IfErr result (AddingStops (progress (register.Shared self.old) answers.old) []) }
    {
        if self.part.is_empty() {
            return Ok(());
        }
        let count = self.part.len();
        self.register.run_part(rt, self.workers, &mut self.part)?;
        answers.push_receipts(self.register.last_receipts(count))?;
        Ok(())
    }

    /// Takes the shards out of their locks, if jobs and receipts account for their journals.
    pub fn into_shards<R: Threads + Sync>(self, rt: &R) -> Result<Vec<Shard>, Fault>
        ensures hands_out { IfOk result (λ shards. (begin : State) (events : List Event)
            (sent : List (List RawOut))
            → StandsBehind begin events sent self.register → HandsOut begin events sent shards.items) }
        ensures stops { IfErr result (HandingOutStops None) }
    {
        let Crew {
            alloc: _,
            register,
            workers,
            part: _,
        } = self;
        match register.close(rt, workers) {
            Ok((shards, jobs, receipts)) => {
                // The process ends soon, and gives back all of its memory at once. To free each job and each receipt takes a tenth of a run.
                mem::forget((jobs, receipts));
                Ok(shards)
            }
            Err(fault) => Err(Fault::at_close(fault)),
        }
    }
}
