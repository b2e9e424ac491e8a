//! A received frame (Q.773, Q.774).

ghost use Rattle.std.specs.Prelude.{◌≡◌, IfOk, OnErr, map};
ghost use Rattle.frames.specs.Frames.{IsVerdict};
ghost use Rattle.machine.specs.Events.{Frame};
ghost use Rattle.machine.specs.Received.{Read};
ghost use Rattle.machine.specs.Routing.{route, subject_of_begin};
ghost use Rattle.msgarena.specs.Seen.{message as message_of, parameter};
ghost use Rattle.q773_comp.specs.Seen.{component};
ghost use Rattle.location.specs.Asking.{IsBeginOf};
ghost use Rattle.hlrcore.specs.Shards.{IsSameShard, directory_of};
ghost use Rattle.hlrcore.specs.Addressees.{subject_of_message, subject_of_verdict};
ghost use Rattle.hlrcore.specs.Ids.{MovesIds};
ghost use Rattle.hlrcore.specs.Receiving.{Receives, IsForMe, IsClosing, IsContinueOf};

use crate::answer::StepAnswer;
use crate::begin::plan_begin;
use crate::closing::plan_close;
use crate::continuing::plan_continue;
use crate::parts::ShardParts;
use crate::unchanged::{aborted, silent};
use hlr_types::{Imsi, RemoteId};
use machine::numbers::{RESOURCE_LIMITATION, UNRECOGNIZED_TRANSACTION_ID};
use msgarena::{Indication, Parameter, ReadMessage, Verdict};
use q773_comp::Component;
use std::alloc::AllocError;

impl ShardParts {
    /// Handles a received frame. `subject` is the subscriber that a Begin is about.
    pub(crate) fn receive(
        &mut self,
        indication: &Indication,
        subject: Option<Imsi>,
    ) -> Result<StepAnswer, AllocError>
        requires mine { route (directory_of self.old.directory)
            (Frame indication.now.from indication.now.verdict) ≡ self.old.shard }
        requires about { subject
            ≡ subject_of_verdict (directory_of self.old.directory) indication.now.verdict }
        ensures received { IfOk result (λ a. Receives self.old indication.now a self.new) }
        ensures ids { IfOk result (λ a. MovesIds self.old.dialogues a.id self.new.dialogues) }
        ensures judged { IsVerdict indication.now.octets indication.now.verdict }
        ensures err { OnErr result (self.new ≡ self.old) }
        ensures same_shard { IsSameShard self.old self.new }
    {
        match indication.verdict() {
            Verdict::Discard => Ok(silent()),
            Verdict::Refuse(origin, cause) => {
                aborted(self.alloc, indication.from(), *origin, *cause, None)
            }
            Verdict::Read(message) => self.receive_message(indication, message, subject),
        }
    }

    /// Handles a received message.
    fn receive_message(
        &mut self,
        indication: &Indication,
        message: &ReadMessage,
        subject: Option<Imsi>,
    ) -> Result<StepAnswer, AllocError>
        requires mine { IsForMe self.old indication.now }
        requires message { indication.now.verdict ≡ Read (message_of message.now) }
        requires about { subject
            ≡ subject_of_message (directory_of self.old.directory) (message_of message.now) }
        ensures received { IfOk result (λ a. Receives self.old indication.now a self.new) }
        ensures ids { IfOk result (λ a. MovesIds self.old.dialogues a.id self.new.dialogues) }
        ensures err { OnErr result (self.new ≡ self.old) }
        ensures same_shard { IsSameShard self.old self.new }
    {
        match message {
            ReadMessage::Begin {
                origin,
                components,
                ..
            } => self.begin(indication, *origin, components.as_slice(), subject),
            ReadMessage::Continue {
                origin,
                destination,
                components,
                ..
            } => self.continue_(indication, *origin, *destination, components.as_slice()),
            ReadMessage::End { destination, .. } | ReadMessage::Abort { destination } => {
                self.close(indication, *destination)
            }
        }
    }

    /// Handles a Begin. In a full shard one that would open a dialogue is answered with an Abort, cause resourceLimitation
    /// (profile).
    fn begin(
        &mut self,
        indication: &Indication,
        origin: RemoteId,
        components: &[Component<Parameter>],
        subject: Option<Imsi>,
    ) -> Result<StepAnswer, AllocError>
        requires mine { IsForMe self.old indication.now }
        requires begin { IsBeginOf indication.now.verdict origin
            (map (component parameter) components.now) }
        requires about { subject ≡ subject_of_begin (directory_of self.old.directory)
            (map (component parameter) components.now) }
        ensures received { IfOk result (λ a. Receives self.old indication.now a self.new) }
        ensures ids { IfOk result (λ a. MovesIds self.old.dialogues a.id self.new.dialogues) }
        ensures err { OnErr result (self.new ≡ self.old) }
        ensures same_shard { IsSameShard self.old self.new }
    {
        let plan = plan_begin(self.alloc, self, indication, origin, components, subject)?;
        if !self.has_room(&plan) {
            let from = indication.from();
            return aborted(self.alloc, from, origin, RESOURCE_LIMITATION, plan.subject);
        }
        self.settle(plan)
    }

    /// Handles a Continue. One for no open dialogue is answered with an Abort, cause unrecognizedTransactionID (Q.774).
    fn continue_(
        &mut self,
        indication: &Indication,
        origin: RemoteId,
        destination: RemoteId,
        components: &[Component<Parameter>],
    ) -> Result<StepAnswer, AllocError>
        requires mine { IsForMe self.old indication.now }
        requires continues { IsContinueOf indication.now.verdict origin destination
            (map (component parameter) components.now) }
        ensures received { IfOk result (λ a. Receives self.old indication.now a self.new) }
        ensures ids { IfOk result (λ a. MovesIds self.old.dialogues a.id self.new.dialogues) }
        ensures err { OnErr result (self.new ≡ self.old) }
        ensures same_shard { IsSameShard self.old self.new }
    {
        let from = indication.from();
        let found = plan_continue(self.alloc, self, from, origin, destination, components)?;
        match found {
            Some(plan) => self.settle(plan),
            None => {
                let cause = UNRECOGNIZED_TRANSACTION_ID;
                aborted(self.alloc, from, origin, cause, None)
            }
        }
    }

    /// Handles an End or an Abort. One for no open dialogue is discarded (Q.774).
    fn close(
        &mut self,
        indication: &Indication,
        destination: RemoteId,
    ) -> Result<StepAnswer, AllocError>
        requires mine { IsForMe self.old indication.now }
        requires closes { IsClosing indication.now.verdict destination }
        ensures received { IfOk result (λ a. Receives self.old indication.now a self.new) }
        ensures ids { IfOk result (λ a. MovesIds self.old.dialogues a.id self.new.dialogues) }
        ensures err { OnErr result (self.new ≡ self.old) }
        ensures same_shard { IsSameShard self.old self.new }
    {
        match plan_close(self, destination) {
            Some(plan) => self.settle(plan),
            None => Ok(silent()),
        }
    }
}
