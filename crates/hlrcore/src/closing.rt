//! A received End or Abort (Q.774).

ghost use Rattle.std.specs.Prelude.{[]};
ghost use Rattle.machine.specs.Turns.{close_at};
ghost use Rattle.dialogues.specs.Dialogues.{dialogues_of};
ghost use Rattle.hlrcore.specs.Planning.{IsPlanOr};

use crate::opened::{Opened, opened_for, plan_for};
use crate::parts::ShardParts;
use crate::plan::{Named, Plan};
use hlr_types::RemoteId;
use tsl::Head;

/// The plan of a received End or Abort. `None` if it is for no open dialogue; it is then discarded.
pub fn plan_close(shard: &ShardParts, destination: RemoteId) -> Option<Plan>
    ensures { IsPlanOr shard.now (close_at destination
        (dialogues_of shard.now.dialogues destination)) [] result }
{
    let Opened { id, dialogue, new } = opened_for(shard, &Head::End { destination })?;
    let subscriber = shard.records().get(&dialogue.subscriber);
    let outcome = location::closes(subscriber, id);
    Some(plan_for(&dialogue, Named::Open(id), new, outcome))
}
