//! What a listing has of all shards, in its order.

ghost use Rattle.std.specs.Prelude.{◌≡◌, ◌++◌, IfOk, OnOk, map as each};
ghost use Rattle.std.specs.FinMap as finite;
ghost use Rattle.hlr_types.specs.Orders.{octets_cmp};
ghost use Rattle.records.specs.Maps.{digits_cmp};
ghost use Rattle.shardlog.specs.Entries.{raw_entries};
ghost use Rattle.audit.specs.Gathered.{opened, placed};
ghost use Rattle.audit.specs.Listing.{entries_in, id_of, imsi_of, open_in, place_cmp, place_of, placed_from, records_in};
ghost use Rattle.audit.specs.Orders.{InOrder};

use csl::Was;
use dialogues::{Dialogue, Dialogues};
use hlr_types::Tid;
use records::{Record, Records};
use shardlog::{Entry, Shard};
use std::alloc::{AllocError, Global};

/// An open dialogue of a shard, with its invocations.
#[derive(Drop)]
pub struct Opened {
    pub id: Tid,
    pub dialogue: Dialogue,
    pub invocations: Vec<(i8, Was, u64)>,
}

/// An entry, with its shard and position.
#[derive(Clone, Copy)]
pub struct PlacedEntry<'a> {
    pub shard: u8,
    pub position: usize,
    pub entry: &'a Entry,
}

/// The records of all shards, by IMSI.
pub fn records_by_imsi<'a>(
    alloc: Global,
    shards: &'a [Shard],
) -> Result<Vec<&'a Record>, AllocError>
    ensures { IfOk result (λ all. InOrder imsi_of digits_cmp (records_in shards.now)
        (each (λ found. found.now) all.items)) }
{
    let mut all = all_records(alloc, shards)?;
    all.sort_by_key(|found| found.imsi)?;
    Ok(all)
}

fn all_records<'a>(alloc: Global, shards: &'a [Shard]) -> Result<Vec<&'a Record>, AllocError>
    ensures { IfOk result (λ all. each (λ found. found.now) all.items ≡ records_in shards.now) }
{
    let mut all = Vec::new(alloc);
    for shard in shards {
        push_records(&mut all, shard.state().records())?;
    }
    Ok(all)
}

fn push_records<'a>(all: &mut Vec<&'a Record>, records: &'a Records) -> Result<(), AllocError>
    ensures { OnOk result (each (λ found. found.now) all.new.items
        ≡ each (λ found. found.now) all.old.items ++ finite.values records.now) }
{
    let list = records.list()?;
    for found in &list {
        all.push(*found)?;
    }
    Ok(())
}

/// The open dialogues of all shards, by local id.
pub fn dialogues_by_id(alloc: Global, shards: &[Shard]) -> Result<Vec<Opened>, AllocError>
    ensures { IfOk result (λ all. InOrder id_of octets_cmp (open_in shards.now)
        (each opened all.items)) }
{
    let mut all = all_dialogues(alloc, shards)?;
    all.sort_by_key(|one| one.id)?;
    Ok(all)
}

fn all_dialogues(alloc: Global, shards: &[Shard]) -> Result<Vec<Opened>, AllocError>
    ensures { IfOk result (λ all. each opened all.items ≡ open_in shards.now) }
{
    let mut all = Vec::new(alloc);
    for shard in shards {
        push_open(&mut all, shard.state().dialogues())?;
    }
    Ok(all)
}

fn push_open(all: &mut Vec<Opened>, dialogues: &Dialogues) -> Result<(), AllocError>
    ensures { OnOk result (each opened all.new.items
        ≡ each opened all.old.items ++ finite.entries dialogues.now.open_ones) }
{
    let ids = dialogues.list()?;
    for id in &ids {
        let Some(dialogue) = dialogues.get(*id) else {
            unreachable!();
        };
        let invocations = dialogues.invocations(*id)?;
        all.push(Opened {
            id: *id,
            dialogue,
            invocations,
        })?;
    }
    Ok(())
}

/// The entries of all journals, by shard and position.
pub fn entries_by_place<'a>(
    alloc: Global,
    shards: &'a [Shard],
) -> Result<Vec<PlacedEntry<'a>>, AllocError>
    ensures { IfOk result (λ all. InOrder place_of place_cmp (entries_in shards.now)
        (each placed all.items)) }
{
    let mut all = all_entries(alloc, shards)?;
    all.sort_by_key(|entry| (entry.shard, entry.position))?;
    Ok(all)
}

fn all_entries<'a>(alloc: Global, shards: &'a [Shard]) -> Result<Vec<PlacedEntry<'a>>, AllocError>
    ensures { IfOk result (λ all. each placed all.items ≡ entries_in shards.now) }
{
    let mut all = Vec::new(alloc);
    for shard in shards {
        push_entries(&mut all, shard.state().number(), shard.entries())?;
    }
    Ok(all)
}

fn push_entries<'a>(
    all: &mut Vec<PlacedEntry<'a>>,
    shard: u8,
    entries: &'a [Entry],
) -> Result<(), AllocError>
    ensures { OnOk result (each placed all.new.items
        ≡ each placed all.old.items ++ placed_from shard 0 (raw_entries entries.now)) }
{
    let mut position = 0;
    for entry in entries {
        all.push(PlacedEntry {
            shard,
            position,
            entry,
        })?;
        position += 1;
    }
    Ok(())
}
