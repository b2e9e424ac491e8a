//! Listings, as texts of lines.

ghost use Rattle.std.specs.Prelude.{◌≡◌, ◌++◌, IfOk, OnOk, map as each, string_bytes};
ghost use Rattle.std.specs.List.{flat_map};
ghost use Rattle.audit.specs.Gathered.{opened, placed, told_back};
ghost use Rattle.audit.specs.Lines.{invocation_text, record_text};
ghost use Rattle.audit.specs.Listing.{ListsDialogues, ListsJournal, ListsRecords, open_text, placed_text};

use crate::gathered::{Opened, PlacedEntry, dialogues_by_id, entries_by_place, records_by_imsi};
use crate::lines::{push_dialogue, push_entry, push_invocation, push_record};
use csl::Was;
use records::Record;
use shardlog::Shard;
use std::alloc::{AllocError, Global};

/// The records of shards, by IMSI, one line each: `R ` and its line in a records file of version 2.
///
/// The only error is out of memory. The text is ASCII, each line ended by a line feed; without items it is empty.
pub fn list_records(alloc: Global, shards: &[Shard]) -> Result<String, AllocError>
    ensures { IfOk result (λ text. ListsRecords shards.now (string_bytes text)) }
{
    let all = records_by_imsi(alloc, shards)?;
    let mut text = String::new(alloc);
    push_records(alloc, &mut text, &all)?;
    Ok(text)
}

fn push_records(alloc: Global, text: &mut String, all: &[&Record]) -> Result<(), AllocError>
    ensures { OnOk result (string_bytes text.new
        ≡ string_bytes text.old ++ flat_map record_text (each (λ found. found.now) all.now)) }
{
    for found in all {
        push_record(alloc, text, found)?;
    }
    Ok(())
}

/// The open dialogues of shards, by local id, one line each, followed by one line for each of its invocations, by invoke id.
///
/// - `D <local id> <update|cancel|data> <Sent|Active> <imsi> <remote id or ->`, both ids in hexadecimal.
/// - `I <invoke id> <sent|wait> <deadline>`: Operation Sent or Wait for Reject, until this tick.
///
/// The only error is out of memory.
pub fn list_dialogues(alloc: Global, shards: &[Shard]) -> Result<String, AllocError>
    ensures { IfOk result (λ text. ListsDialogues shards.now (string_bytes text)) }
{
    let all = dialogues_by_id(alloc, shards)?;
    let mut text = String::new(alloc);
    push_all_opened(alloc, &mut text, &all)?;
    Ok(text)
}

fn push_all_opened(alloc: Global, text: &mut String, all: &[Opened]) -> Result<(), AllocError>
    ensures { OnOk result (string_bytes text.new
        ≡ string_bytes text.old ++ flat_map open_text (each opened all.now)) }
{
    for one in all {
        push_opened(alloc, text, one)?;
    }
    Ok(())
}

fn push_opened(alloc: Global, text: &mut String, one: &Opened) -> Result<(), AllocError>
    ensures { OnOk result (string_bytes text.new
        ≡ string_bytes text.old ++ open_text (opened one.now)) }
{
    push_dialogue(alloc, text, one.id, &one.dialogue)?;
    push_invocations(text, &one.invocations)?;
    Ok(())
}

fn push_invocations(text: &mut String, told: &[(i8, Was, u64)]) -> Result<(), AllocError>
    ensures { OnOk result (string_bytes text.new
        ≡ string_bytes text.old ++ flat_map invocation_text (each told_back told.now)) }
{
    for (invoke, standing, deadline) in told {
        push_invocation(text, *invoke, *standing, *deadline)?;
    }
    Ok(())
}

/// The journals of shards, by shard and position, one line for each entry:
/// `J <shard> <position> <F|C|E|O> <subject's imsi or -> <number of frames sent>`. The letter stands for a frame, a clock value,
/// an expiry or an operator's change; positions count from 0.
///
/// The only error is out of memory.
pub fn list_journal(alloc: Global, shards: &[Shard]) -> Result<String, AllocError>
    ensures { IfOk result (λ text. ListsJournal shards.now (string_bytes text)) }
{
    let all = entries_by_place(alloc, shards)?;
    let mut text = String::new(alloc);
    push_entries(&mut text, &all)?;
    Ok(text)
}

fn push_entries(text: &mut String, all: &[PlacedEntry]) -> Result<(), AllocError>
    ensures { OnOk result (string_bytes text.new
        ≡ string_bytes text.old ++ flat_map placed_text (each placed all.now)) }
{
    for placed in all {
        push_entry(text, placed.shard, placed.position, placed.entry)?;
    }
    Ok(())
}
