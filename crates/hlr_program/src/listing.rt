//! What is printed about the register at the end of a script.

ghost use Rattle.std.specs.Prelude.{◌≡◌, ◌++◌, ℕ, List, IfOk, OnOk};
ghost use Rattle.hlr_program.specs.Closing.{Asked, Closes, Lists, SavesLines, behind_v};

use audit::{list_dialogues, list_journal, list_records, save_records};
use hlr_input::Options;
use shardlog::Shard;
use std::alloc::{AllocError, Global};
use texts::Lines;

/// What the options ask for: the records, the open dialogues and the journals; at the very end the lines of the saved records
/// file, each after `V `.
pub fn closing_lines(
    alloc: Global,
    options: &Options,
    shards: &[Shard],
) -> Result<Vec<u8>, AllocError>
    ensures { IfOk result (λ text. Closes options.now.list options.now.save shards.now text.items) }
{
    let mut text = Vec::new(alloc);
    push_asked_listings(alloc, &mut text, shards, options.list)?;
    push_asked_saved(alloc, &mut text, shards, options.save)?;
    Ok(text)
}

fn push_asked_listings(
    alloc: Global,
    text: &mut Vec<u8>,
    shards: &[Shard],
    asked: bool,
) -> Result<(), AllocError>
    ensures { OnOk result ((listed : List ℕ) × Asked asked (Lists shards.now) listed
        × (text.new.items ≡ text.old.items ++ listed)) }
{
    if asked {
        return push_listings(alloc, text, shards);
    }
    Ok(())
}

fn push_asked_saved(
    alloc: Global,
    text: &mut Vec<u8>,
    shards: &[Shard],
    asked: bool,
) -> Result<(), AllocError>
    ensures { OnOk result ((saved : List ℕ) × Asked asked (SavesLines shards.now) saved
        × (text.new.items ≡ text.old.items ++ saved)) }
{
    if asked {
        return push_saved(alloc, text, shards);
    }
    Ok(())
}

fn push_listings(alloc: Global, text: &mut Vec<u8>, shards: &[Shard]) -> Result<(), AllocError>
    ensures { OnOk result ((listed : List ℕ) × Lists shards.now listed
        × (text.new.items ≡ text.old.items ++ listed)) }
{
    text.extend_from_slice(list_records(alloc, shards)?.as_bytes())?;
    text.extend_from_slice(list_dialogues(alloc, shards)?.as_bytes())?;
    text.extend_from_slice(list_journal(alloc, shards)?.as_bytes())?;
    Ok(())
}

fn push_saved(alloc: Global, text: &mut Vec<u8>, shards: &[Shard]) -> Result<(), AllocError>
    ensures { OnOk result ((saved : List ℕ) × SavesLines shards.now saved
        × (text.new.items ≡ text.old.items ++ saved)) }
{
    let file = save_records(alloc, shards)?;
    push_behind_v(text, file.as_bytes())
}

/// Appends the lines of a text, each after `V `.
fn push_behind_v(text: &mut Vec<u8>, file: &[u8]) -> Result<(), AllocError>
    ensures { OnOk result (text.new.items ≡ text.old.items ++ behind_v file.now) }
{
    let mut left = Lines::new(file);
    'lines: while let Some((line, behind)) = left.next() {
        text.extend_from_slice(b"V ")?;
        text.extend_from_slice(line.text)?;
        text.push(b'\n')?;
        left = behind;
    }
    Ok(())
}
