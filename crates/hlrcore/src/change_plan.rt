//! An operator's change of one subscriber.

ghost use Rattle.machine.specs.Events as events;
ghost use Rattle.machine.specs.Turns.{Changes};
ghost use Rattle.records.specs.Subscriber.{AreAllowed};
ghost use Rattle.hlrcore.specs.Planning.{IsPlan};

use crate::new_id::next_or_any;
use crate::parts::ShardParts;
use crate::plan::Plan;
use crate::subscriber::record_of;
use crate::unnamed::unnamed;
use hlr_types::{Imsi, ShortList};

/// The plan of an operator's new codes for a subscriber.
pub fn plan_codes(shard: &ShardParts, imsi: Imsi, codes: ShortList<32>) -> Plan
    requires { AreAllowed codes }
    ensures { IsPlan shard.now (Changes imsi (events.Codes codes)) result }
{
    let subscriber = record_of(shard, Some(&imsi));
    let new = next_or_any(shard);
    let outcome = location::new_codes(subscriber, codes, new);
    unnamed(Some(imsi), subscriber, new, codes, outcome)
}

/// The plan of an operator's withdrawal of a subscriber.
pub fn plan_withdrawal(shard: &ShardParts, imsi: Imsi) -> Plan
    ensures { IsPlan shard.now (Changes imsi events.Withdraw) result }
{
    let subscriber = record_of(shard, Some(&imsi));
    let new = next_or_any(shard);
    let outcome = location::withdraws(subscriber, new);
    unnamed(Some(imsi), subscriber, new, ShortList::new(), outcome)
}
