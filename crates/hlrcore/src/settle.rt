//! Carrying out a plan.

ghost use Rattle.std.specs.Prelude.{◌≡◌, ◌↔◌, IfOk, OnOk, OnErr, IsTrue, false};
ghost use Rattle.machine.specs.Step.{taken};
ghost use Rattle.hlrcore.specs.Answers.{Says};
ghost use Rattle.hlrcore.specs.Ids.{MovesIds};
ghost use Rattle.hlrcore.specs.Plans.{CanSettle, HasRoom, Overflows, plan_outcome, state_after_plan};
ghost use Rattle.hlrcore.specs.Shards.{IsSameShard, state_of};

use crate::answer::StepAnswer;
use crate::changing::change;
use crate::parts::ShardParts;
use crate::plan::Plan;
use crate::sending::outs_of;
use crate::writing::write;
use std::alloc::AllocError;

impl ShardParts {
    /// Whether there is room for what a plan opens. There is none exactly if a dialogue would open beside the open ones and the
    /// shard is full.
    pub fn has_room(&self, plan: &Plan) -> bool
        ensures room { IsTrue result ↔ HasRoom self.now plan.now }
        ensures full { (result ≡ false) ↔ Overflows self.now plan.now }
    {
        if !plan.opens_beside() {
            return true;
        }
        !self.dialogues().is_full()
    }

    /// Carries out a plan: afterwards the record, the named dialogue and the one that opens are as the outcome says. On error
    /// nothing changes.
    #[inline(always)]
    pub fn settle(&mut self, plan: Plan) -> Result<StepAnswer, AllocError>
        requires can { CanSettle self.old plan }
        requires room { HasRoom self.old plan }
        ensures settled { OnOk result (state_of self.new ≡ state_after_plan self.old plan) }
        ensures says { IfOk result (λ a. Says a (taken plan.new (plan_outcome self.old plan).opens)
            plan.subject (plan_outcome self.old plan).sent) }
        ensures ids { IfOk result (λ a. MovesIds self.old.dialogues a.id self.new.dialogues) }
        // Its dialogues have ids of its own number.
        ensures own { self.old.dialogues.shard ≡ self.old.shard }
        ensures err { OnErr result (self.new ≡ self.old) }
        ensures same_shard { IsSameShard self.old self.new }
    {
        let Plan {
            imsi,
            subject,
            named,
            codes,
            outcome,
            ..
        } = plan;
        let outs = outs_of(self.alloc, &outcome.message, &outcome.cancel)?;
        let clock = self.clock();
        let id = change(&mut self.dialogues, clock, named, &outcome.dialogue)?;
        write(&mut self.records, imsi, outcome.after, codes);
        Ok(StepAnswer { outs, id, subject })
    }
}
