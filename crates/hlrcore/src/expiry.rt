//! The expiry of a shard's least timer that is due (Q.774).

ghost use Rattle.std.specs.Prelude.{◌≡◌, IfSome, None, option_map};
ghost use Rattle.std.specs.Bool.{OnFalse, OnTrue};
ghost use Rattle.machine.specs.State.{local_of};
ghost use Rattle.machine.specs.Expiries.{current_register};
ghost use Rattle.smroute.specs.Seen.{machine_register};
ghost use Rattle.hlrcore.specs.Shards.{state_of};
ghost use Rattle.hlrcore.specs.Planning.{IsExpiry};

use crate::opened::{Opened, opened_at, plan_for};
use crate::parts::ShardParts;
use crate::plan::{Named, Plan};
use hlr_types::{Imsi, Register};
use location::register_of;
use records::Record;
use std::alloc::Global;

/// The register of a subscriber's current update.
fn current_register(
    shard: &ShardParts,
    imsi: &Imsi,
    subscriber: Option<&Record>,
) -> Option<Register>
    ensures { IfSome subscriber.entry (λ s. current_register
        (local_of (state_of shard.now) shard.now.shard imsi.now) s.now.current
        ≡ option_map machine_register result) }
{
    let current = subscriber?.current?;
    register_of(*imsi, shard.dialogues().get(current))
}

/// Whether nothing is due.
pub fn nothing_is_due(shard: &ShardParts) -> bool
    ensures none { OnTrue result (IsExpiry shard.now None) }
    ensures due { OnFalse result (IsExpiry shard.now None → ⊥) }
{
    match shard.dialogues().least_due(shard.clock()) {
        Some(_) => false,
        None => true,
    }
}

/// The plan of an expiry. `None` if nothing is due.
pub fn plan_expiry(alloc: Global, shard: &ShardParts) -> Option<Plan>
    ensures { IsExpiry shard.now result }
{
    let due = shard.dialogues().least_due(shard.clock())?;
    let Opened { id, dialogue, new } = opened_at(shard, due.id)?;
    let subscriber = shard.records().get(&dialogue.subscriber);
    let current = current_register(shard, &dialogue.subscriber, subscriber);
    let outcome = location::expires(alloc, subscriber, current, &dialogue, due, new);
    Some(plan_for(&dialogue, Named::Open(id), new, outcome))
}
