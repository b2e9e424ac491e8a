//! The register of a run: in one thread, or shared by workers.

use crate::alone::Alone;
use crate::answers::Answers;
use crate::crew::Crew;
use crate::each::Each;
use crate::fault::Fault;
use hlrcore::RawEvent;
use records::Loaded;
use shardlog::Shard;
use std::alloc::{AllocError, Global};
use std::sync::Wait;
use std::thread::Threads;

/// The sixteen shards, and who handles their events.
#[derive(Drop)]
pub enum Register {
    /// One thread, event by event in order.
    Alone(Alone),
    /// Workers, in any order.
    Shared(Crew),
}

impl Register {
    ghost use Rattle.std.specs.Prelude.{◌≡◌, ◌≤◌, ◌∷◌, [], IfOk, IfErr, OnOk};
    ghost use Rattle.hlrcore.specs.Events.{raw_event};
    ghost use Rattle.hlr_program.specs.Gathering.{Adds, AddingStops, progress};
    ghost use Rattle.hlr_program.specs.Registers.{CountsFirst, HandsOver, IsOf, OpensWith, part_of, state_known};
    ghost use Rattle.hlr_program.specs.Shards.{events_for};
    ghost use Rattle.hlr_program.specs.Stopping.{HandingOutStops};

    /// The register of a records file: in one thread if `workers` is 0. `listed` says whether the journals are listed at the end. In one
    /// thread entries are kept only then; with workers they always are, since jobs and receipts account for them.
    pub fn new(
        alloc: Global,
        loaded: Loaded,
        workers: u8,
        listed: bool,
    ) -> Result<Register, AllocError>
        requires { workers ≤ 16 }
        ensures is_of { IfOk result (IsOf workers) }
        ensures opens { IfOk result (OpensWith listed loaded) }
    {
        if workers == 0 {
            let alone = Alone::new(alloc, loaded, listed)?;
            return Ok(Register::Alone(alone));
        }
        let crew = Crew::new(alloc, loaded, workers)?;
        Ok(Register::Shared(crew))
    }

    /// Whether the events of a batch are counted before it: for room in the journals, which workers make by themselves.
    pub fn counts(&self) -> bool
        ensures { CountsFirst self.now result }
    {
        match self {
            Register::Alone(alone) => alone.keeps_entries(),
            Register::Shared(_) => false,
        }
    }

    /// A batch of so many events begins.
    pub fn begin_batch(&mut self, events: usize)
        ensures { self.new ≡ self.old }
    {
        match self {
            Register::Alone(alone) => alone.begin_batch(events),
            Register::Shared(_) => {}
        }
    }

    /// An empty list for the octets of a frame, if there is one with the buffer of a frame that is handled.
    pub fn take_room(&mut self) -> Vec<u8>
        ensures { self.new ≡ self.old }
    {
        match self {
            Register::Alone(alone) => alone.take_room(),
            Register::Shared(crew) => crew.take_room(),
        }
    }

    /// Takes an event. It is handled at once, or with others, at the latest when the batch ends; the lines of what is sent are appended
    /// then.
    pub fn take<R: Threads + Wait + Sync>(
        &mut self,
        rt: &R,
        raw: RawEvent,
        answers: &mut Answers,
    ) -> Result<(), Fault>
        ensures adds { OnOk result (Adds (progress self.old answers.old) (raw_event raw ∷ [])
            (progress self.new answers.new)) }
        ensures stops { IfErr result (AddingStops (progress self.old answers.old) (raw_event raw ∷ [])) }
    {
        match self {
            Register::Alone(alone) => alone.take(raw, answers),
            Register::Shared(crew) => crew.take(rt, raw, answers),
        }
    }

    /// Takes an event of each shard, in order of the shards.
    pub fn take_each<R: Threads + Wait + Sync>(
        &mut self,
        rt: &R,
        said: Each,
        answers: &mut Answers,
    ) -> Result<(), Fault>
        ensures adds { OnOk result (Adds (progress self.old answers.old) (events_for said)
            (progress self.new answers.new)) }
        ensures stops { IfErr result (AddingStops (progress self.old answers.old) (events_for said)) }
    {
        match self {
            Register::Alone(alone) => alone.take_each(said, answers),
            Register::Shared(crew) => crew.take_each(rt, said, answers),
        }
    }

    /// Handles the events of the batch that are not handled yet, and appends the lines of what they send.
    pub fn end_batch<R: Threads + Wait + Sync>(
        &mut self,
        rt: &R,
        answers: &mut Answers,
    ) -> Result<(), Fault>
        ensures adds { OnOk result (Adds (progress self.old answers.old) []
            (progress self.new answers.new)) }
        ensures none { OnOk result (part_of self.new ≡ []) }
        ensures stops { IfErr result (AddingStops (progress self.old answers.old) []) }
    {
        match self {
            Register::Alone(alone) => alone.run(answers),
            Register::Shared(crew) => crew.run(rt, answers),
        }
    }

    /// Consumes the register, and returns its shards, indexed by their numbers.
    pub fn into_shards<R: Threads + Sync>(self, rt: &R) -> Result<Vec<Shard>, Fault>
        ensures hands_over { IfOk result (λ shards. HandsOver self shards.items) }
        ensures stops { IfErr result (HandingOutStops (state_known self)) }
    {
        match self {
            Register::Alone(alone) => Ok(alone.into_shards()),
            Register::Shared(crew) => crew.into_shards(rt),
        }
    }
}
