//! The records file that is saved of shards.

ghost use Rattle.std.specs.Prelude.{IfOk, string_bytes};
ghost use Rattle.audit.specs.Saving.{Saves};

use crate::gathered::records_by_imsi;
use records::save;
use shardlog::Shard;
use std::alloc::{AllocError, Global};

/// The records file of version 2 with the records of the shards, by IMSI, and the HLR number of the first shard; without shards
/// the empty text.
///
/// It is read again as the same records, without their current updates, if no two of them share an IMSI or an MSISDN.
pub fn save_records(alloc: Global, shards: &[Shard]) -> Result<String, AllocError>
    ensures { IfOk result (λ text. Saves shards.now (string_bytes text)) }
{
    let Some(first) = shards.first() else {
        return Ok(String::new(alloc));
    };
    let all = records_by_imsi(alloc, shards)?;
    save(alloc, &first.state().hlr(), &all)
}
