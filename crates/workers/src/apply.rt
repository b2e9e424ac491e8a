//! A job in its shard, once the event is read.

ghost use Rattle.std.specs.Prelude.{◌≡◌, ◌<◌, IfOk, IfSome, OnErr};
ghost use Rattle.hlrcore.specs.Addressees.{IsAddressee};
ghost use Rattle.hlrcore.specs.Events.{event_of, raw_of};
ghost use Rattle.hlrcore.specs.Shards.{directory_of};
ghost use Rattle.shardlog.specs.Log.{LogKeeps};
ghost use Rattle.workers.specs.Answered.{IsAnswered};
ghost use Rattle.workers.specs.Going.{HasGoneOn};
ghost use Rattle.receipts.specs.Receipts.{IsPlaced, place_of};
ghost use Rattle.receipts.specs.Refusals.{unread};

use bumpalo::Bump;
use hlrcore::{Addressee, Event, EventFault, ShardNumber};
use receipts::{Placed, Refusal};
use shardlog::Shard;
use std::alloc::Global;

/// Why a job has no entry whose event was not read. The arena's contents are unspecified then: the worker gets a new one.
pub(crate) fn unread(alloc: Global, bump: &mut Bump, fault: &EventFault) -> Refusal
    ensures { result ≡ unread fault.now }
{
    *bump = Bump::new(alloc);
    Refusal::of_unread(fault)
}

/// Handles an event, of which it is known whom it is for, in its shard. Its entry takes its octets, and the receipt says where the entry stands.
pub(crate) fn apply(
    shard: &mut Shard,
    event: &mut Event,
    found: Addressee,
) -> Result<Placed, Refusal>
    requires { IsAddressee (directory_of shard.old.state.directory) (event_of event.old) found }
    ensures ok { IfOk result (λ placed. IsPlaced shard.old.state.shard shard.old
        (raw_of event.old) placed shard.new) }
    ensures answered { IfSome (place_of result) (IsAnswered (raw_of event.old)) }
    ensures gone_on { HasGoneOn shard.old shard.new }
    ensures keeps { LogKeeps shard.new }
    ensures err { OnErr result (shard.new ≡ shard.old) }
{
    shard.state().law_sound();
    let number = ShardNumber::new(shard.state().number()).unwrap();
    let handled = shard.handle(event, found)?;
    Ok(Placed {
        shard: number,
        position: handled.position,
        outs: handled.outs,
    })
}
