//! The open dialogue that an event is for, and its plan.

ghost use Rattle.hlrcore.specs.OpenOnes.{IsFor, IsOpenAt, IsPlanFor};

use crate::parts::ShardParts;
use crate::plan::{Named, Plan};
use dialogues::Dialogue;
use hlr_types::{ShortList, Tid};
use location::Outcome;
use tsl::{Head, Received};

/// An open dialogue, its id, and the id for a dialogue that opens as this one closes.
#[derive(Clone, Copy)]
pub(crate) struct Opened {
    pub(crate) id: Tid,
    pub(crate) dialogue: Dialogue,
    pub(crate) new: Tid,
}

/// The open dialogue with this id, if there is one.
pub(crate) fn opened_at(shard: &ShardParts, id: Tid) -> Option<Opened>
    ensures { IsOpenAt shard.now.dialogues id result }
{
    let dialogues = shard.dialogues();
    let dialogue = dialogues.get(id)?;
    Some(Opened {
        id,
        dialogue,
        new: dialogues.next_after(id),
    })
}

/// The open dialogue that a Continue, an End or an Abort is for, if any (Q.774).
pub(crate) fn opened_for(shard: &ShardParts, head: &Head) -> Option<Opened>
    ensures { IsFor shard.now.dialogues head.now result }
{
    match shard.dialogues().look(head) {
        Received::For(id) => opened_at(shard, id),
        Received::NotAssigned(_) | Received::Nothing => None,
    }
}

/// A plan for an open dialogue and its subscriber.
pub(crate) fn plan_for(dialogue: &Dialogue, named: Named, new: Tid, outcome: Outcome) -> Plan
    ensures { IsPlanFor dialogue.now.subscriber named new outcome result }
{
    Plan {
        imsi: Some(dialogue.subscriber),
        subject: Some(dialogue.subscriber),
        named,
        new,
        codes: ShortList::new(),
        outcome,
    }
}
