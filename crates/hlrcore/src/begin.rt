//! A received Begin (Q.774).

ghost use Rattle.std.specs.Prelude.{◌≡◌, List, ℕ, Option, IfOk, map};
ghost use Rattle.machine.specs.Received as machine;
ghost use Rattle.machine.specs.Received.{Read};
ghost use Rattle.machine.specs.Routing.{subject_of_begin};
ghost use Rattle.machine.specs.Turns.{Begins};
ghost use Rattle.q773_comp.specs.Seen.{component};
ghost use Rattle.msgarena.specs.Seen.{parameter};
ghost use Rattle.location.specs.Asking.{IsBeginOf};
ghost use Rattle.hlrcore.specs.Shards.{directory_of};
ghost use Rattle.hlrcore.specs.Planning.{IsPlan};

use crate::new_id::next_or_any;
use crate::parts::ShardParts;
use crate::plan::Plan;
use crate::subscriber::record_of;
use crate::unnamed::unnamed;
use hlr_types::{Imsi, RemoteId, ShortList};
use msgarena::{Indication, Parameter};
use q773_comp::Component;
use std::alloc::{AllocError, Global};

/// The plan of a received Begin, which is about this subscriber.
pub fn plan_begin(
    alloc: Global,
    shard: &ShardParts,
    indication: &Indication,
    origin: RemoteId,
    components: &[Component<Parameter>],
    imsi: Option<Imsi>,
) -> Result<Plan, AllocError>
    requires begin { IsBeginOf indication.now.verdict origin
        (map (component parameter) components.now) }
    requires about { imsi ≡ subject_of_begin (directory_of shard.now.directory)
        (map (component parameter) components.now) }
    ensures { IfOk result (λ plan. (name : Option (List ℕ))
        → indication.now.verdict ≡ Read (machine.Begin origin name
        (map (component parameter) components.now))
        → IsPlan shard.now (Begins indication.now.from origin name
        (map (component parameter) components.now)) plan) }
{
    let subscriber = record_of(shard, imsi.as_ref());
    let new = next_or_any(shard);
    let now = shard.clock();
    let outcome = location::begins(alloc, indication, origin, components, subscriber, now, new)?;
    Ok(unnamed(imsi, subscriber, new, ShortList::new(), outcome))
}
