//! The state of a shard.

ghost use Rattle.std.specs.Prelude.{◌≡◌, ◌≢◌, ◌<◌, ◌≤◌, ◌↔◌, true, None, IfOk, Ok, OnOk, OnErr, Err, IsTrue};
ghost use Rattle.std.specs.FinSet as set;
ghost use Rattle.std.specs.Arc.{arc_value};
ghost use Rattle.frames.specs.Octets.{IsRouted, RawClock, RawExpire};
ghost use Rattle.machine.specs.declared.numbers.TheConstants.{MAX_CLOCK};
ghost use Rattle.machine.specs.Effect.{AreRising};
ghost use Rattle.machine.specs.Deadlines.{HasDue, IsFirst, IsTimer};
ghost use Rattle.machine.specs.Opening.{opening};
ghost use Rattle.machine.specs.Parts.{part};
ghost use Rattle.machine.specs.Routing.{route as shard_for};
ghost use Rattle.machine.specs.Step.{HasNoRoom};
ghost use Rattle.records.specs.Fresh.{AreFresh};
ghost use Rattle.records.specs.Maps.{RecordMap, part_of};
ghost use Rattle.hlrcore.specs.Shards.{IsOpening, IsSameShard, state_of, records_of, directory_of};
ghost use Rattle.hlrcore.specs.Addressees.{IsAddressee};
ghost use Rattle.hlrcore.specs.Events.{event_of, raw_of};
ghost use Rattle.hlrcore.specs.Ids.{MovesIds};
ghost use Rattle.hlrcore.specs.Leading.{Leads, Steps};
ghost use Rattle.hlrcore.specs.Resuming.{may_reopen, reopened, resumed};
ghost use Rattle.dialogues.specs.Dialogues.{dialogues_of};
ghost use Rattle.dialogues.specs.Seen.{dialogue_with};
ghost use Rattle.hlrcore.specs.Sound.{IsSoundShard};

use crate::answer::StepAnswer;
use crate::event::Event;
use crate::fault::StepFault;
use crate::parts::ShardParts;
use crate::routing::{Addressee, addressee_of};
use crate::unchanged::silent;
use csl::Remaining;
use dialogues::{Dialogue, Dialogues};
use hlr_types::IsdnAddress;
use records::{Directory, Loaded, Records};
use std::alloc::{AllocError, Global};
use std::marker::Model;
use std::sync::Arc;
use tidalloc::Ids;

/// The state of one shard, which handles events. It is always a sound state of its shard.
#[derive(Drop)]
pub struct State {
    parts: ShardParts,
}

impl Model for State {
    ghost use Rattle.hlrcore.specs.Shards.{ShardState, shard_state_code};
    ghost use Rattle.hlrcore.specs.Sound.{IsSoundShard};

    ghost Value = { ShardState };

    ghost coded = { shard_state_code };

    ghost view = { λ s. s.parts };

    ghost invariant = { λ s. IsSoundShard s.parts };
}

impl State {
    /// The shard that begins with its part of a records file: its records, no dialogue, and its clock at 0. It is start 0 of `of_part`.
    pub fn new(alloc: Global, shard: u8, loaded: &Loaded) -> Result<State, AllocError>
        requires { shard < 16 }
        ensures opening { IfOk result (IsOpening 0 shard
            (part_of loaded.now.records shard) loaded.now.directory loaded.now.hlr) }
        ensures part { IfOk result (λ state. state_of state
            ≡ part (opening (records_of loaded.now.records)
            (directory_of loaded.now.directory) loaded.now.hlr) shard) }
    {
        let records = loaded.part(shard)?;
        let directory = loaded.shared_directory()?;
        State::of_part(alloc, 0, shard, records, directory, *loaded.hlr())
    }

    /// The same for records that are already the shard's part, as read from a file, with the directory and the HLR number that all
    /// shards share. The number of the start moves where local ids begin, so that what a peer sends for a dialogue of an earlier start
    /// names, as a rule, none of this one; starts whose numbers are equal modulo 4,095 begin alike.
    pub fn of_part(
        alloc: Global,
        start: u32,
        shard: u8,
        records: Records,
        directory: Arc<Directory>,
        hlr: IsdnAddress,
    ) -> Result<State, AllocError>
        requires shard { shard < 16 }
        requires own { (all : RecordMap) × (records ≡ part_of all shard) }
        requires fresh { AreFresh records }
        ensures opening { IfOk result (IsOpening start shard records
            (arc_value directory) hlr) }
        ensures part { IfOk result (λ state. (all : RecordMap) → records ≡ part_of all shard
            → state_of state ≡ part (opening (records_of all)
            (directory_of (arc_value directory)) hlr) shard) }
    {
        Ok(State {
            parts: ShardParts::of_part(alloc, start, shard, records, directory, hlr)?,
        })
    }

    /// The number of the shard.
    pub fn number(&self) -> u8
        ensures { result ≡ self.now.shard }
    {
        self.parts.number()
    }

    /// The clock.
    pub fn clock(&self) -> u64
        ensures value { result ≡ self.now.clock }
        ensures early { result ≤ MAX_CLOCK }
    {
        self.parts.clock()
    }

    /// The first deadline of a timer, whether it is due or not; `None` if no timer runs.
    pub fn first_deadline(&self) -> Option<u64>
        ensures { IsFirst (IsTimer (state_of self.now) self.now.shard) result }
    {
        self.parts.dialogues().first_deadline()
    }

    /// Whether a timer is due: its deadline is not after the clock.
    pub fn is_due(&self) -> bool
        ensures { IsTrue result ↔ HasDue (state_of self.now) self.now.shard }
    {
        match self.first_deadline() {
            Some(deadline) => deadline <= self.clock(),
            None => false,
        }
    }

    /// The HLR number.
    pub fn hlr(&self) -> IsdnAddress
        ensures { result ≡ self.now.hlr }
    {
        self.parts.hlr()
    }

    /// The records of the shard.
    pub fn records(&self) -> &Records
        ensures { result.now ≡ self.now.records }
    {
        self.parts.records()
    }

    /// The open dialogues of the shard.
    pub fn dialogues(&self) -> &Dialogues
        ensures value { result.now ≡ self.now.dialogues }
        ensures own { self.now.dialogues.shard ≡ self.now.shard }
    {
        self.parts.dialogues()
    }

    /// The directory, which all shards share.
    pub fn directory(&self) -> &Directory
        ensures { result.now ≡ self.now.directory }
    {
        self.parts.directory()
    }

    /// The allocator of the state.
    pub(crate) fn alloc(&self) -> Global {
        self.parts.alloc
    }

    /// Whether the states are equal, the number of the shard included.
    pub fn same(&self, other: &State) -> Result<bool, AllocError>
        ensures { IfOk result (λ same. IsTrue same ↔ (self.now ≡ other.now)) }
    {
        self.parts.same(&other.parts)
    }

    /// Handles one event. `NotMine` if it is for another shard; `NoRoom` if it is an operator's change that would open a dialogue
    /// in a full shard; `Memory` if an allocation fails. On error nothing changes.
    pub fn step(&mut self, event: &Event) -> Result<StepAnswer, StepFault>
        ensures { Steps self.old (raw_of event.now) (event_of event.now) result self.new }
    {
        let found = addressee_of(self.directory(), event);
        self.step_for(event, found)
    }

    /// The same for an event of which it is known whom it is for, so that this is not found twice.
    pub fn step_for(&mut self, event: &Event, found: Addressee) -> Result<StepAnswer, StepFault>
        requires { IsAddressee (directory_of self.old.directory) (event_of event.now) found }
        ensures { Steps self.old (raw_of event.now) (event_of event.now) result self.new }
    {
        self.parts.step_for(event, found)
    }

    /// Handles the expiry of the least timer that is due, if any, as `step` does for such an event of this shard. On error nothing
    /// changes.
    pub fn expire(&mut self) -> Result<StepAnswer, AllocError>
        // It is a step of the machine over octets.
        ensures stepped { IfOk result (λ a. Leads self.old
            (RawExpire self.old.shard) a self.new) }
        ensures ids { IfOk result (λ a. MovesIds self.old.dialogues a.id self.new.dialogues) }
        ensures err { OnErr result (self.new ≡ self.old) }
        ensures same_shard { IsSameShard self.old self.new }
    {
        self.parts.expire()
    }

    /// Handles a clock value, as `step` does for such an event of this shard: sets the clock to `now`, which counts as at most 2^62, if
    /// that is later. It never goes back (profile). Does not allocate.
    pub fn tick(&mut self, now: u64) -> StepAnswer
        // It is a step of the machine over octets.
        ensures stepped { Leads self.old (RawClock self.old.shard now) result self.new }
        ensures ids { MovesIds self.old.dialogues result.id self.new.dialogues }
        ensures same_shard { IsSameShard self.old self.new }
    {
        self.parts.tick(now);
        silent()
    }

    /// Begins again at this clock, with these ids, of which none is live, in place of its own; the shard has no open dialogue. On error nothing
    /// changes.
    pub fn resume(&mut self, clock: u64, ids: Ids) -> Result<(), AllocError>
        requires none_open { dialogues_of self.old.dialogues ≡ (λ _. None) }
        requires shard { ids.shard ≡ self.old.shard }
        requires early { clock ≤ MAX_CLOCK }
        requires none_live { ids.live ≡ set.empty }
        ensures ok { OnOk result (self.new ≡ resumed self.old clock ids) }
        ensures err { OnErr result (self.new ≡ self.old) }
    {
        self.parts.resume(clock, ids)
    }

    /// Puts a dialogue back under the next id, with these invocations; it may be the current update of its subscriber. `false`, and nothing
    /// changes, if it cannot be put back: the shard is full, no invocation waits for its answer, or the subscriber cannot have it. On error
    /// nothing changes.
    pub fn reopen(
        &mut self,
        dialogue: &Dialogue,
        is_current: bool,
        left: &Remaining,
    ) -> Result<bool, AllocError>
        requires rising { AreRising left.now }
        ensures may { IfOk result (λ is. is
            ≡ may_reopen self.old is_current (dialogue_with left.now dialogue.now)) }
        ensures opened { result ≡ Ok true
            → self.new ≡ reopened self.old is_current (dialogue_with left.now dialogue.now) }
        ensures same { result ≢ Ok true → self.new ≡ self.old }
    {
        self.parts.reopen(dialogue, is_current, left)
    }

    /// Law: the state is a sound state of its shard, which is its invariant.
    pub fn law_sound(&self)
        ensures { IsSoundShard self.now }
    {
        let _parts = &self.parts;
    }

    /// An equal copy.
    pub fn try_copy(&self) -> Result<State, AllocError>
        ensures equal { IfOk result (λ copy. copy ≡ self.now) }
        // The invariant of the state.
        ensures sound { IsSoundShard self.now }
    {
        Ok(State {
            parts: self.parts.try_copy()?,
        })
    }
}
