//! The shards at the beginning.

ghost use Rattle.std.specs.Prelude.{◌≡◌, ◌<◌, All, IfOk, map as each};
ghost use Rattle.std.specs.Arc.{arc_value};
ghost use Rattle.records.specs.Fresh.{AreFresh};
ghost use Rattle.records.specs.Maps.{RecordMap, part_of};
ghost use Rattle.shardlog.specs.Log.{LogKeeps, fresh};
ghost use Rattle.wholenode.specs.Opening.{AreBeginning, Begins};

use hlr_types::IsdnAddress;
use hlrcore::State;
use records::{Directory, Loaded, Records};
use shardlog::{Keep, Shard};
use std::alloc::{AllocError, Global};
use std::sync::Arc;

/// The states of the sixteen shards when the records are loaded, in order: no dialogue is open, and each clock is at 0. Local ids begin as
/// those of the start with this number (`Node::new`). No record is copied. On error the loaded value is dropped.
pub fn opening_states(alloc: Global, loaded: Loaded, start: u32) -> Result<Vec<State>, AllocError>
    ensures { IfOk result (λ states. AreBeginning loaded start 16 states.items) }
{
    let directory = loaded.shared_directory()?;
    let hlr = *loaded.hlr();
    let parts = loaded.into_parts()?;
    let mut states = Vec::with_capacity(alloc, 16)?;
    let mut number = 0;
    for records in parts {
        let directory = Arc::try_clone(&directory)?;
        states.push(opening_state(alloc, start, number, records, directory, hlr)?)?;
        number += 1;
    }
    Ok(states)
}

/// A shard with these records and no open dialogue.
fn opening_state(
    alloc: Global,
    start: u32,
    number: u8,
    records: Records,
    directory: Arc<Directory>,
    hlr: IsdnAddress,
) -> Result<State, AllocError>
    requires shard { number < 16 }
    requires own { (all : RecordMap) × (records ≡ part_of all number) }
    requires fresh { AreFresh records }
    ensures { IfOk result (Begins start number records (arc_value directory) hlr) }
{
    let state = State::of_part(alloc, start, number, records, directory, hlr)?;
    let _own = state.dialogues();
    Ok(state)
}

/// These shards, each with an empty journal.
pub(crate) fn with_journals(
    alloc: Global,
    states: Vec<State>,
    keep: Keep,
) -> Result<Vec<Shard>, AllocError>
    ensures shards { IfOk result (λ shards. shards.items ≡ each (fresh keep) states.items) }
    ensures keeps { IfOk result (λ shards. All LogKeeps shards.items) }
{
    let mut shards = Vec::with_capacity(alloc, states.len())?;
    for state in states {
        shards.push(with_journal(alloc, state, keep)?)?;
    }
    Ok(shards)
}

/// This shard, with an empty journal.
fn with_journal(alloc: Global, state: State, keep: Keep) -> Result<Shard, AllocError>
    ensures begins { IfOk result (λ shard. shard ≡ fresh keep state) }
    ensures keeps { IfOk result LogKeeps }
{
    match Shard::new(alloc, state, keep) {
        Ok(shard) => Ok(shard),
        Err(refused) => Err(refused.1),
    }
}
