//! Appends the lines of a listing to a text. On error a part of a line may have been appended.

ghost use Rattle.std.specs.Prelude.{◌≡◌, ◌++◌, List, OnOk, string_bytes};
ghost use Rattle.hex.specs.Hex.{encode_upper};
ghost use Rattle.machine.specs.State.{Invocation};
ghost use Rattle.csl.specs.Seen.{invocation_of, was};
ghost use Rattle.dialogues.specs.Seen.{dialogue_with, kind_of};
ghost use Rattle.shardlog.specs.Entries.{raw_entry, raw_event};
ghost use Rattle.audit.specs.Lines.{dialogue_line, entry_text, invocation_text, kind_text, letter_text, record_text, remote_text, standing_text, subject_text, was_text};

use csl::Was;
use dialogues::{Dialogue, Kind};
use hex::encode_upper;
use hlr_types::{Imsi, RemoteId, Tid};
use records::{Record, Version, write_line};
use shardlog::{Entry, RawEvent};
use std::alloc::{AllocError, Global};

/// `R`, and the record's line in a file of version 2.
pub fn push_record(alloc: Global, text: &mut String, found: &Record) -> Result<(), AllocError>
    ensures { OnOk result (string_bytes text.new ≡ string_bytes text.old ++ record_text found.now) }
{
    let line = write_line(alloc, Version::Two, found)?;
    text.push_str("R ")?;
    text.push_str(&line)?;
    text.push_str("\n")?;
    Ok(())
}

/// `D`, the local id, the kind of the dialogue, its transaction state, the subscriber, and the remote id.
pub fn push_dialogue(
    alloc: Global,
    text: &mut String,
    id: Tid,
    dialogue: &Dialogue,
) -> Result<(), AllocError>
    ensures { (vs : List Invocation) → OnOk result
        (string_bytes text.new ≡ string_bytes text.old
        ++ dialogue_line id (dialogue_with vs dialogue.now)) }
{
    let remote = &dialogue.transaction.remote;
    text.push_str("D ")?;
    push_octets(alloc, text, id.as_slice())?;
    text.push_str(" ")?;
    push_kind(text, &dialogue.kind)?;
    text.push_str(" ")?;
    push_standing(text, remote)?;
    write!(text, " {} ", dialogue.subscriber)?;
    push_remote(alloc, text, remote)?;
    text.push_str("\n")?;
    Ok(())
}

fn push_kind(text: &mut String, kind: &Kind) -> Result<(), AllocError>
    ensures { OnOk result (string_bytes text.new
        ≡ string_bytes text.old ++ kind_text (kind_of kind.now)) }
{
    match kind {
        Kind::Update { .. } => text.push_str("update"),
        Kind::Cancel { .. } => text.push_str("cancel"),
        Kind::Data => text.push_str("data"),
    }
}

fn push_standing(text: &mut String, remote: &Option<RemoteId>) -> Result<(), AllocError>
    ensures { OnOk result (string_bytes text.new
        ≡ string_bytes text.old ++ standing_text remote.now) }
{
    match remote {
        None => text.push_str("Sent"),
        Some(_) => text.push_str("Active"),
    }
}

fn push_remote(
    alloc: Global,
    text: &mut String,
    remote: &Option<RemoteId>,
) -> Result<(), AllocError>
    ensures { OnOk result (string_bytes text.new
        ≡ string_bytes text.old ++ remote_text remote.now) }
{
    match remote {
        None => text.push_str("-"),
        Some(remote) => push_octets(alloc, text, remote.as_slice()),
    }
}

/// Octets in upper case hexadecimal.
fn push_octets(alloc: Global, text: &mut String, octets: &[u8]) -> Result<(), AllocError>
    ensures { OnOk result (string_bytes text.new
        ≡ string_bytes text.old ++ encode_upper octets.now) }
{
    let digits = encode_upper(alloc, octets)?;
    text.push_str(&digits)
}

/// `I`, the invoke id, its state (Operation Sent or Wait for Reject), and its deadline.
pub fn push_invocation(
    text: &mut String,
    invoke: i8,
    standing: Was,
    deadline: u64,
) -> Result<(), AllocError>
    ensures { OnOk result (string_bytes text.new
        ≡ string_bytes text.old ++ invocation_text (invocation_of invoke standing deadline)) }
{
    write!(text, "I {invoke} ")?;
    push_was(text, standing)?;
    write!(text, " {deadline}\n")?;
    Ok(())
}

fn push_was(text: &mut String, standing: Was) -> Result<(), AllocError>
    ensures { OnOk result (string_bytes text.new
        ≡ string_bytes text.old ++ was_text (was standing)) }
{
    match standing {
        Was::Sent => text.push_str("sent"),
        Was::Waiting => text.push_str("wait"),
    }
}

/// `J`, the shard, the position, the letter of the event, the subject, and the number of frames sent.
pub fn push_entry(
    text: &mut String,
    shard: u8,
    position: usize,
    entry: &Entry,
) -> Result<(), AllocError>
    ensures { OnOk result (string_bytes text.new
        ≡ string_bytes text.old ++ entry_text shard position (raw_entry entry.now)) }
{
    write!(text, "J {shard} {position} ")?;
    push_letter(text, &entry.event)?;
    text.push_str(" ")?;
    push_subject(text, &entry.subject)?;
    let sent = entry.outs.as_slice().len();
    write!(text, " {sent}\n")?;
    Ok(())
}

fn push_letter(text: &mut String, event: &RawEvent) -> Result<(), AllocError>
    ensures { OnOk result (string_bytes text.new
        ≡ string_bytes text.old ++ letter_text (raw_event event.now)) }
{
    match event {
        RawEvent::Frame { .. } => text.push_str("F"),
        RawEvent::Clock { .. } => text.push_str("C"),
        RawEvent::Expire { .. } => text.push_str("E"),
        RawEvent::Change { .. } => text.push_str("O"),
    }
}

fn push_subject(text: &mut String, subject: &Option<Imsi>) -> Result<(), AllocError>
    ensures { OnOk result (string_bytes text.new
        ≡ string_bytes text.old ++ subject_text subject.now) }
{
    match subject {
        None => text.push_str("-"),
        Some(imsi) => write!(text, "{imsi}"),
    }
}
