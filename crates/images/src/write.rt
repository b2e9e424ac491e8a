//! Appends the image of a shard to a text. On error a part may have been appended.

ghost use Rattle.std.specs.Prelude.{◌≡◌, ◌≢◌, ◌++◌, ◌∷◌, [], None, Some, OnOk, map as each, string_bytes};
ghost use Rattle.std.specs.FinMap as finite;
ghost use Rattle.std.specs.List.{AllByRecursion, flat_map};
ghost use Rattle.machine.specs.State as machine;
ghost use Rattle.image_lines.specs.Lines.{Freed, HasLimits, IsLine, IsShard, Used, line_text};
ghost use Rattle.image_lines.specs.Seen.{line_of};
ghost use Rattle.tidalloc.specs.Resumed.{freed_ids, used_ids};
ghost use Rattle.dialogues.specs.Dialogues.{dialogues_of};
ghost use Rattle.images.specs.Appended.{GoesOnWith, waits_line};
ghost use Rattle.images.specs.Written.{is_current, opened_lines, shard_lines, shard_text};

use csl::Was;
use dialogues::Dialogues;
use hlr_types::{Imsi, Tid};
use hlrcore::State;
use image_lines::{Line, is_line, write_line};
use records::Records;
use std::alloc::AllocError;
use tidalloc::Ids;

/// Appends the image of a shard: lines, each ended by a line feed (`image_lines::write_line`). First the shard, with its clock and where its
/// ids begin; then each slot that was used, in order; then those that are free, in the order in which they were freed; then the open
/// dialogues by ascending local id, each after its invocations by ascending invoke id; and last that the shard is whole. On error, when out
/// of memory, a part may have been appended.
#[tactic(auto, using(crate::proofs::WriteLemmas::all_then))]
pub fn write_shard(text: &mut String, shard: &State) -> Result<(), AllocError>
    ensures text { OnOk result (string_bytes text.new
        ≡ string_bytes text.old ++ shard_text shard.now) }
    ensures lines { OnOk result (AllByRecursion IsLine (shard_lines shard.now)) }
{
    shard.law_sound();
    let dialogues = shard.dialogues();
    let ids = dialogues.ids();
    let begins = Line::Shard {
        shard: shard.number(),
        clock: shard.clock(),
        first: ids.first(),
    };
    push_line(text, begins)?;
    push_used(text, ids)?;
    push_freed(text, ids)?;
    push_dialogues(text, shard.records(), dialogues)?;
    push_line(text, Line::End)
}

/// A line with its line feed.
fn push_line(text: &mut String, line: Line) -> Result<(), AllocError>
    ensures text { OnOk result (string_bytes text.new
        ≡ string_bytes text.old ++ (line_text (line_of line) ++ 10 ∷ [])) }
    ensures is_line { HasLimits (line_of line) → IsLine (line_of line) }
{
    is_line(&line);
    write_line(text, &line)?;
    text.push_str("\n")
}

/// The slots that were used.
fn push_used(text: &mut String, ids: &Ids) -> Result<(), AllocError>
    ensures { OnOk result (GoesOnWith
        (each (λ id. Used id) (used_ids ids.now.shard 0 ids.now.supply.generations))
        (string_bytes text.old) (string_bytes text.new)) }
{
    ids.law_resumed();
    for slot in 0..Ids::MAX_IDS {
        let Some(id) = ids.id_of_slot(slot) else {
            return Ok(());
        };
        push_line(text, Line::Used(id))?;
    }
    Ok(())
}

/// The slots that are free, in the order in which they were freed.
fn push_freed(text: &mut String, ids: &Ids) -> Result<(), AllocError>
    ensures { OnOk result (GoesOnWith
        (each (λ id. Freed id) (freed_ids ids.now.shard ids.now.supply))
        (string_bytes text.old) (string_bytes text.new)) }
{
    ids.law_resumed();
    for slot in ids.free_slots() {
        let Some(id) = ids.id_of_slot(usize::from(*slot)) else {
            unreachable!()
        };
        push_line(text, Line::Freed(id))?;
    }
    Ok(())
}

/// The open dialogues, in ascending order of their ids.
fn push_dialogues(
    text: &mut String,
    records: &Records,
    dialogues: &Dialogues,
) -> Result<(), AllocError>
    ensures { OnOk result (GoesOnWith
        (flat_map (opened_lines records.now) (finite.entries dialogues.now.open_ones))
        (string_bytes text.old) (string_bytes text.new)) }
{
    let ids = dialogues.list()?;
    for id in &ids {
        push_dialogue(text, records, dialogues, *id)?;
    }
    Ok(())
}

/// An open dialogue, after its invocations.
fn push_dialogue(
    text: &mut String,
    records: &Records,
    dialogues: &Dialogues,
    id: Tid,
) -> Result<(), AllocError>
    requires { dialogues_of dialogues.now id ≢ None }
    ensures { OnOk result ((d : machine.Dialogue) → dialogues_of dialogues.now id ≡ Some d
        → GoesOnWith (opened_lines records.now (id, d))
        (string_bytes text.old) (string_bytes text.new)) }
{
    let Some(dialogue) = dialogues.get(id) else {
        unreachable!()
    };
    let told = dialogues.invocations(id)?;
    let is_current = is_current(records, &dialogue.subscriber, id);
    let opened = Line::Opened {
        id,
        is_current,
        dialogue,
    };
    push_opened(text, &told, opened)
}

/// The invocations of an open dialogue, and then its own line.
fn push_opened(text: &mut String, told: &[(i8, Was, u64)], opened: Line) -> Result<(), AllocError>
    ensures { OnOk result (HasLimits (line_of opened)
        → GoesOnWith (each waits_line told.now ++ line_of opened ∷ [])
        (string_bytes text.old) (string_bytes text.new)) }
{
    push_invocations(text, told)?;
    push_line(text, opened)
}

/// The invocations of the dialogue that comes next.
fn push_invocations(text: &mut String, told: &[(i8, Was, u64)]) -> Result<(), AllocError>
    ensures { OnOk result (GoesOnWith (each waits_line told.now)
        (string_bytes text.old) (string_bytes text.new)) }
{
    for (invoke, was, deadline) in told {
        let line = Line::Waits {
            invoke: *invoke,
            was: *was,
            deadline: *deadline,
        };
        push_line(text, line)?;
    }
    Ok(())
}

/// Whether the dialogue with this id is its subscriber's current update.
fn is_current(records: &Records, imsi: &Imsi, id: Tid) -> bool
    ensures { result ≡ is_current id (finite.get records.now imsi.now) }
{
    match records.get(imsi) {
        Some(found) => found.current == Some(id),
        None => false,
    }
}
