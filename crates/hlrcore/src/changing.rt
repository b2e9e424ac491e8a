//! Changing the open dialogues.

ghost use Rattle.std.specs.Prelude.{◌≡◌, ◌≢◌, ◌≤◌, ◌^◌, ℕ, List, Some, None, IfOk, IfSome, OnOk, OnErr, option_map};
ghost use Rattle.machine.specs.Keys.{put};
ghost use Rattle.machine.specs.Step.{named_stays, taken};
ghost use Rattle.dialogues.specs.Dialogues.{KeepsIds, dialogues_of, forgotten, freed, gone_on, next_of};
ghost use Rattle.tidalloc.specs.LiveIds.{after_taking, next_id};
ghost use Rattle.location.specs.Seen.{opening_of, opens_of};
ghost use Rattle.hlrcore.specs.Ids.{MovesIds};
ghost use Rattle.hlrcore.specs.Changing.{IsNext, changed, named_among};
ghost use Rattle.hlrcore.specs.Plans.{IsForgetting, IsOpening, id_of};

use crate::plan::Named;
use csl::Remaining;
use dialogues::{Dialogues, InvokeId};
use hlr_types::Tid;
use location::{DialogueChange, Opening};
use std::alloc::AllocError;

/// Opens a dialogue beside the open ones, or in place of one.
fn open(
    dialogues: &mut Dialogues,
    clock: u64,
    place: Option<Tid>,
    opening: &Opening,
) -> Result<Tid, AllocError>
    requires early { clock ≤ 2 ^ 62 }
    requires is_open { IfSome place (λ id. dialogues_of dialogues.old id ≢ None) }
    requires room { place ≡ None → next_of dialogues.old ≢ None }
    ensures next { IfOk result (λ id. (new : List ℕ) → IsNext dialogues.old place new → id ≡ new) }
    ensures opened { IfOk result (λ id. dialogues_of dialogues.new
        ≡ put (named_stays place None (dialogues_of dialogues.old)) id
        (Some (opening_of clock opening.now))) }
    ensures other { IfOk result (λ id. place ≢ Some id) }
    ensures taken { IfOk result (λ id. next_id dialogues.old.shard
        (freed place dialogues.old.supply) ≡ Some id) }
    ensures used { OnOk result (dialogues.new.supply
        ≡ after_taking (freed place dialogues.old.supply)) }
    ensures shard { dialogues.new.shard ≡ dialogues.old.shard }
    ensures err { OnErr result (dialogues.new ≡ dialogues.old) }
{
    match place {
        Some(id) => dialogues.replace(id, &opening.dialogue, opening.invoked, clock),
        None => dialogues.open(&opening.dialogue, opening.invoked, clock),
    }
}

/// Closes the named dialogue, if any.
fn close(dialogues: &mut Dialogues, id: Option<Tid>)
    requires { IfSome id (λ id. dialogues_of dialogues.old id ≢ None) }
    ensures closed { dialogues_of dialogues.new ≡ named_stays id None (dialogues_of dialogues.old) }
    ensures freed { dialogues.new.supply ≡ freed id dialogues.old.supply }
    ensures shard { dialogues.new.shard ≡ dialogues.old.shard }
{
    if let Some(id) = id {
        dialogues.close(id);
    }
}

/// The named dialogue, if any, goes on with these invocations, and its transaction is as the received message leaves it.
fn go_on(dialogues: &mut Dialogues, named: Named, left: &Remaining) -> Result<(), AllocError>
    requires { IfSome (id_of named) (λ id. dialogues_of dialogues.old id ≢ None) }
    ensures ok { OnOk result (dialogues_of dialogues.new
        ≡ named_stays (id_of named) (option_map (gone_on left.now)
        (named_among named (dialogues_of dialogues.old))) (dialogues_of dialogues.old)) }
    ensures ids { KeepsIds dialogues.old dialogues.new }
    ensures err { OnErr result (dialogues.new ≡ dialogues.old) }
{
    match named {
        Named::Nothing => Ok(()),
        Named::Open(id) => dialogues.go_on(id, left),
        Named::Continued { id, peer, remote } => {
            dialogues.go_on(id, left)?;
            dialogues.activate(id, peer, remote);
            Ok(())
        }
    }
}

/// An invocation of the named dialogue, if any, becomes Idle. The rest of the dialogue stays the same.
fn forget(dialogues: &mut Dialogues, named: Named, invoke: InvokeId)
    requires { IsForgetting named (DialogueChange.Forgets invoke) }
    ensures forgotten { dialogues_of dialogues.new
        ≡ named_stays (id_of named) (option_map (forgotten invoke)
        (named_among named (dialogues_of dialogues.old))) (dialogues_of dialogues.old) }
    ensures ids { KeepsIds dialogues.old dialogues.new }
{
    if let Named::Open(id) = named {
        dialogues.forget_one(id, invoke.number());
    }
}

/// Applies the outcome of a procedure to the named dialogue, if any, and opens the dialogue that opens. Returns the id of the
/// latter.
pub(crate) fn change(
    dialogues: &mut Dialogues,
    clock: u64,
    named: Named,
    stays: &DialogueChange,
) -> Result<Option<Tid>, AllocError>
    requires early { clock ≤ 2 ^ 62 }
    requires is_open { IfSome (id_of named) (λ id. dialogues_of dialogues.old id ≢ None) }
    requires forgetting { IsForgetting named stays.now }
    requires room { IsOpening stays.now → id_of named ≡ None → next_of dialogues.old ≢ None }
    ensures taken { IfOk result (λ id. (new : List ℕ) → IsNext dialogues.old (id_of named) new
        → id ≡ taken new (opens_of clock stays.now)) }
    ensures changed { OnOk result ((new : List ℕ) → IsNext dialogues.old (id_of named) new
        → dialogues_of dialogues.new ≡ changed clock named stays.now new
        (dialogues_of dialogues.old)) }
    ensures ids { IfOk result (λ id. MovesIds dialogues.old id dialogues.new) }
    ensures shard { dialogues.new.shard ≡ dialogues.old.shard }
    ensures err { OnErr result (dialogues.new ≡ dialogues.old) }
{
    match stays {
        DialogueChange::Opens(opening) => Ok(Some(open(dialogues, clock, named.id(), opening)?)),
        DialogueChange::Closes => {
            close(dialogues, named.id());
            Ok(None)
        }
        DialogueChange::GoesOn(left) => {
            go_on(dialogues, named, left)?;
            Ok(None)
        }
        DialogueChange::Forgets(invoke) => {
            forget(dialogues, named, *invoke);
            Ok(None)
        }
    }
}
