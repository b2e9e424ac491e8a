//! A shard's open dialogues, its marks and its clock, put back as they were.

ghost use Rattle.std.specs.Prelude.{◌≡◌, ◌≢◌, ◌≤◌, true, IfOk, OnErr, OnOk, Ok, option_copied};
ghost use Rattle.machine.specs.State as machine;
ghost use Rattle.std.specs.FinMap as finite;
ghost use Rattle.std.specs.FinSet as set;
ghost use Rattle.machine.specs.declared.numbers.TheConstants.{MAX_CLOCK};
ghost use Rattle.dialogues.specs.Seen.{dialogue_with, kind_of};
ghost use Rattle.hlrcore.specs.Resuming.{HasPlace, may_have, may_reopen, is_update, marked, resumed, reopened};

use crate::parts::ShardParts;
use csl::Remaining;
use dialogues::{Dialogue, Dialogues, Kind};
use hlr_types::{Imsi, Tid};
use records::{Record, Records};
use std::alloc::AllocError;
use tidalloc::Ids;

/// Whether the dialogue is an update.
fn is_update(kind: &Kind) -> bool
    ensures { result ≡ is_update (kind_of kind.now) }
{
    match kind {
        Kind::Update { .. } => true,
        Kind::Cancel { .. } => false,
        Kind::Data => false,
    }
}

/// Whether the subscriber, if there is one, can have a dialogue of this kind, as the current update or not.
fn may_have(is_current: bool, kind: &Kind, found: Option<&Record>) -> bool
    ensures { result ≡ may_have is_current (kind_of kind.now) (option_copied found.entry) }
{
    match found {
        None => false,
        Some(found) => {
            !is_current || is_update(kind) && !found.withdrawn && found.current.is_none()
        }
    }
}

/// Marks the update with this id as its subscriber's current one.
fn mark(records: &mut Records, imsi: &Imsi, id: Tid)
    requires { (kind : machine.Kind) × (may_have true kind (finite.get records.old imsi.now) ≡ true) }
    ensures { records.new ≡ marked imsi.now id (finite.get records.old imsi.now) records.old }
{
    let Some(found) = records.get(imsi) else {
        return;
    };
    let register = found.register;
    let purged = found.purged;
    records.set(imsi, register, purged, Some(id));
}

impl ShardParts {
    /// Begins again at this clock, with no open dialogue, and with these ids, of which none is live. On error nothing changes.
    pub(crate) fn resume(&mut self, clock: u64, ids: Ids) -> Result<(), AllocError>
        requires shard { ids.shard ≡ self.old.shard }
        requires early { clock ≤ MAX_CLOCK }
        requires none_live { ids.live ≡ set.empty }
        ensures ok { OnOk result (self.new ≡ resumed self.old clock ids) }
        ensures err { OnErr result (self.new ≡ self.old) }
    {
        self.dialogues = Dialogues::with_ids(self.alloc, ids)?;
        self.clock = clock;
        Ok(())
    }

    /// Whether the dialogue can be put back.
    fn may_reopen(&self, dialogue: &Dialogue, is_current: bool, left: &Remaining) -> bool
        ensures value { result ≡ may_reopen self.now is_current (dialogue_with left.now dialogue.now) }
        ensures place { result ≡ true → HasPlace self.now }
    {
        let found = self.records().get(&dialogue.subscriber);
        self.dialogues.next_id().is_some()
            && left.any_sent()
            && may_have(is_current, &dialogue.kind, found)
    }

    /// Puts a dialogue back under the next id, if it can be put back, and returns whether it can. On error nothing changes.
    pub(crate) fn reopen(
        &mut self,
        dialogue: &Dialogue,
        is_current: bool,
        left: &Remaining,
    ) -> Result<bool, AllocError>
        ensures may { IfOk result (λ is. is ≡ may_reopen self.old is_current (dialogue_with left.now dialogue.now)) }
        ensures opened { result ≡ Ok true
            → self.new ≡ reopened self.old is_current (dialogue_with left.now dialogue.now) }
        ensures same { result ≢ Ok true → self.new ≡ self.old }
        ensures place { result ≡ Ok true → HasPlace self.old }
    {
        if !self.may_reopen(dialogue, is_current, left) {
            return Ok(false);
        }
        let id = self.dialogues.reopen(dialogue, left)?;
        if is_current {
            mark(&mut self.records, &dialogue.subscriber, id);
        }
        Ok(true)
    }
}
