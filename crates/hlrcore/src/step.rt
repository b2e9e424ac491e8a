//! One event of a shard.

ghost use Rattle.std.specs.Prelude.{◌≡◌, ◌≢◌, ◌↔◌, IfOk, OnOk, OnErr, Err};
ghost use Rattle.frames.specs.Octets.{IsRouted, RawChange, RawExpire};
ghost use Rattle.machine.specs.Events as machine;
ghost use Rattle.machine.specs.Routing.{route};
ghost use Rattle.machine.specs.Step.{HasNoRoom};
ghost use Rattle.machine.specs.Turns.{Changes};
ghost use Rattle.hlrcore.specs.Shards.{IsSameShard, directory_of, state_of};
ghost use Rattle.hlrcore.specs.Addressees.{IsAddressee};
ghost use Rattle.hlrcore.specs.Events.{change as said, event_of, raw_of};
ghost use Rattle.hlrcore.specs.Ids.{MovesIds};
ghost use Rattle.hlrcore.specs.Leading.{IsMine, Leads, Steps};
ghost use Rattle.hlrcore.specs.Planning.{IsPlan};

use crate::answer::StepAnswer;
use crate::change::Change;
use crate::change_plan::{plan_codes, plan_withdrawal};
use crate::event::Event;
use crate::expiry::{nothing_is_due, plan_expiry};
use crate::fault::StepFault;
use crate::parts::ShardParts;
use crate::plan::Plan;
use crate::routing::Addressee;
use crate::unchanged::silent;
use hlr_types::Imsi;
use std::alloc::AllocError;

impl ShardParts {
    /// Handles one event, as `State::step_for` says.
    pub(crate) fn step_for(
        &mut self,
        event: &Event,
        found: Addressee,
    ) -> Result<StepAnswer, StepFault>
        requires { IsAddressee (directory_of self.old.directory) (event_of event.now) found }
        ensures { Steps self.old (raw_of event.now) (event_of event.now) result self.new }
    {
        if found.shard != self.number() {
            return Err(StepFault::NotMine);
        }
        match event {
            Event::Frame(indication) => Ok(self.receive(indication, found.subject)?),
            Event::Clock { now, .. } => {
                self.tick(*now);
                Ok(silent())
            }
            Event::Expire { .. } => Ok(self.expire()?),
            Event::Change { imsi, change } => self.change(*imsi, change),
        }
    }

    /// Handles the expiry of the least timer that is due, if any.
    pub(crate) fn expire(&mut self) -> Result<StepAnswer, AllocError>
        ensures expired { IfOk result (λ a. Leads self.old (RawExpire self.old.shard) a self.new) }
        ensures ids { IfOk result (λ a. MovesIds self.old.dialogues a.id self.new.dialogues) }
        ensures err { OnErr result (self.new ≡ self.old) }
        ensures same_shard { IsSameShard self.old self.new }
    {
        if nothing_is_due(self) {
            return Ok(silent());
        }
        self.expire_due()
    }

    /// The same if something is due. It stands apart, never inlined, since at nearly each expiry nothing is: only here is space made
    /// for a plan.
    #[inline(never)]
    fn expire_due(&mut self) -> Result<StepAnswer, AllocError>
        ensures expired { IfOk result (λ a. Leads self.old (RawExpire self.old.shard) a self.new) }
        ensures ids { IfOk result (λ a. MovesIds self.old.dialogues a.id self.new.dialogues) }
        ensures err { OnErr result (self.new ≡ self.old) }
        ensures same_shard { IsSameShard self.old self.new }
    {
        match plan_expiry(self.alloc, self) {
            Some(plan) => self.settle(plan),
            None => Ok(silent()),
        }
    }

    /// Handles an operator's change.
    fn change(&mut self, imsi: Imsi, change: &Change) -> Result<StepAnswer, StepFault>
        requires { IsMine self.old (RawChange imsi (said change.now))
            (machine.Operator imsi (said change.now)) }
        ensures changed { IfOk result (λ a. Leads self.old
            (RawChange imsi (said change.now)) a self.new) }
        ensures ids { IfOk result (λ a. MovesIds self.old.dialogues a.id self.new.dialogues) }
        ensures mine { result ≢ Err StepFault.NotMine }
        ensures no_room { result ≡ Err StepFault.NoRoom
            → HasNoRoom (state_of self.old) (machine.Operator imsi (said change.now)) }
        ensures err { OnErr result (self.new ≡ self.old) }
        ensures same_shard { IsSameShard self.old self.new }
    {
        let plan = self.plan_change(imsi, change);
        if !self.has_room(&plan) {
            return Err(StepFault::NoRoom);
        }
        Ok(self.settle(plan)?)
    }

    /// The plan of an operator's change.
    fn plan_change(&self, imsi: Imsi, change: &Change) -> Plan
        ensures { IsPlan self.now (Changes imsi (said change.now)) result }
    {
        match change {
            Change::Codes(codes) => plan_codes(self, imsi, codes.list()),
            Change::Withdraw => plan_withdrawal(self, imsi),
        }
    }
}
