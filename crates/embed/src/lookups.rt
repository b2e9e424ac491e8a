//! What is looked up in a register.

ghost use Rattle.std.specs.Prelude.{◌≡◌, ◌<◌, ◌↔◌, IsTrue, None, Some, length, option_copied, option_map, slice_get};
ghost use Rattle.machine.specs.Deadlines.{HasDue, IsFirst};
ghost use Rattle.hlrcore.specs.Events.{raw_event};
ghost use Rattle.smroute.specs.Seen.{machine_subscriber};
ghost use Rattle.wholenode.specs.Keeping.{NodeKeeps};
ghost use Rattle.wholenode.specs.Nodes.{whole};
ghost use Rattle.embed.specs.Lookups.{IsIdle, IsTimerOf, TimerBelow, earlier, record_by_number, record_of};

use hlr_types::{Imsi, IsdnAddress};
use hlrcore::{RawEvent, ShardNumber};
use records::{Record, shard_of};
use shardlog::Shard;
use wholenode::Node;

/// How full a shard is.
#[derive(Clone, Copy, Debug, PartialEq, Eq, Drop)]
pub struct Counts {
    /// The open dialogues; 4,096 fit.
    pub dialogues: usize,
    /// The entries of its journal; 65,536 fit.
    pub entries: usize,
}

/// The shard with this number.
pub(crate) fn shard_at(node: &Node, number: u8) -> &Shard
    requires { number < 16 }
    ensures stands { slice_get node.now.shards number ≡ Some result.now }
    ensures keeps { NodeKeeps node.now }
{
    let shards = node.shards();
    let place = usize::from(number);
    &shards[place]
}

/// Whether the event does nothing: an expiry when no timer is due, or an operator's change of a subscriber without a record.
pub(crate) fn is_idle(node: &Node, raw: &RawEvent) -> bool
    ensures { IsTrue result ↔ IsIdle node.now (raw_event raw.now) }
{
    match raw {
        RawEvent::Expire { shard } => nothing_is_due(node, *shard),
        RawEvent::Change { imsi, .. } => is_unknown(node, imsi),
        _ => false,
    }
}

/// Whether no timer of the shard is due.
fn nothing_is_due(node: &Node, shard: ShardNumber) -> bool
    ensures { IsTrue result ↔ (HasDue (whole node.now.shards) shard → ⊥) }
{
    !shard_at(node, shard.number()).state().is_due()
}

/// Whether the subscriber has no record.
fn is_unknown(node: &Node, imsi: &Imsi) -> bool
    ensures { IsTrue result ↔ ((whole node.now.shards).records imsi.now ≡ None) }
{
    record_of(node, imsi).is_none()
}

/// The record of a subscriber.
pub(crate) fn record_of<'a>(node: &'a Node, imsi: &Imsi) -> Option<&'a Record>
    ensures value { option_copied result ≡ record_of node.now imsi.now }
    // It is the machine's.
    ensures whole { option_map (λ found. machine_subscriber found.now) result
        ≡ (whole node.now.shards).records imsi.now }
{
    shard_at(node, shard_of(imsi)).state().records().get(imsi)
}

/// The record of the subscriber with this MSISDN.
pub(crate) fn record_by_number<'a>(node: &'a Node, msisdn: &IsdnAddress) -> Option<&'a Record>
    ensures { option_copied result ≡ record_by_number node.now msisdn.now }
{
    let Some(imsi) = shard_at(node, 0).state().directory().find(msisdn) else {
        return None;
    };
    record_of(node, &imsi)
}

/// The first deadline of all shards; `None` if no timer runs.
pub(crate) fn first_deadline(node: &Node) -> Option<u64>
    ensures { IsFirst (IsTimerOf node.now) result }
{
    first_in(node.shards())
}

fn first_in(shards: &[Shard]) -> Option<u64>
    ensures { IsFirst (TimerBelow shards.now (length shards.now)) result }
{
    let mut first = None;
    for shard in shards {
        first = earlier(first, shard.state().first_deadline());
    }
    first
}

/// The earlier of two deadlines.
fn earlier(one: Option<u64>, other: Option<u64>) -> Option<u64>
    ensures { result ≡ earlier one other }
{
    match (one, other) {
        (Some(one), Some(other)) => Some(one.min(other)),
        (Some(one), None) => Some(one),
        (None, other) => other,
    }
}
