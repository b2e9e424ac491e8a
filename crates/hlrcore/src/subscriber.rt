//! The record of an event's subscriber.

ghost use Rattle.std.specs.Prelude.{◌≡◌, IfSome, Some, option_copied};
ghost use Rattle.hlrcore.specs.Shards.{record_at};

use crate::parts::ShardParts;
use hlr_types::Imsi;
use records::Record;

/// The record of a subscriber, if there is one.
pub(crate) fn record_of<'a>(shard: &'a ShardParts, imsi: Option<&Imsi>) -> Option<&'a Record>
    ensures found { option_copied result ≡ record_at shard.now.records (option_copied imsi.entry) }
    ensures own { IfSome result (λ found. option_copied imsi.entry ≡ Some found.now.imsi) }
{
    match imsi {
        Some(imsi) => shard.records().get(imsi),
        None => None,
    }
}
