//! Appends a line to a text. On error a part of the line may have been appended.

ghost use Rattle.std.specs.Prelude.{◌≡◌, ◌++◌, ◌∷◌, [], OnOk, string_bytes};
ghost use Rattle.std.specs.List.{join_with_byte};
ghost use Rattle.hex.specs.Hex.{encode_upper};
ghost use Rattle.csl.specs.Seen.{invocation_of, was};
ghost use Rattle.dialogues.specs.Seen.{dialogue_with, kind_of};
ghost use Rattle.mapargs_loc.specs.Seen.{cancellation, register};
ghost use Rattle.image_lines.specs.Lines.{Freed, Opened, Used, Waits, dialogue_fields, kind_fields, line_text, mark_text, octets_text, was_text, why_text};
ghost use Rattle.machine.specs.State as machine;
ghost use Rattle.image_lines.specs.Seen.{line_of};

use crate::line::Line;
use csl::Was;
use dialogues::{Dialogue, InvokeId, Kind};
use hex::encode_upper;
use hlr_types::{Lmsi, Peer, Register, RemoteId, Tid};
use mapargs_loc::CancellationType;
use std::alloc::AllocError;

/// Appends a line to a text, without a line feed:
///
/// - `S1 <shard> <clock> <first>`: a shard, in version 1 of an image: its clock in ticks, and the generation before the first use of a slot;
/// - `T <id>`: a slot that was used, and its last local id, of eight hexadecimal digits;
/// - `F <id>`: a slot that is free;
/// - `D <id> <imsi> <peer> <remote id or -> <* or -> <kind>`: an open dialogue, `*` if it is its subscriber's current update; the kind is
///   `update <vlr> <msc> <lmsi or -> <invoke id>`, `cancel <vlr> <attempt> <update or withdraw>` or `data`;
/// - `I <invoke id> <sent or wait> <deadline>`: an invocation of the next dialogue, and the tick at which its timer expires;
/// - `E`: the shard is whole.
///
/// Numbers are in decimal, octets in upper case hexadecimal. On error, when out of memory, the text may have a part of the line.
pub fn write_line(text: &mut String, line: &Line) -> Result<(), AllocError>
    ensures { OnOk result (string_bytes text.new
        ≡ string_bytes text.old ++ line_text (line_of line.now)) }
{
    match line {
        Line::Shard {
            shard,
            clock,
            first,
        } => write!(text, "S1 {shard} {clock} {first}"),
        Line::Used(id) => push_used(text, *id),
        Line::Freed(id) => push_freed(text, *id),
        Line::Opened {
            id,
            is_current,
            dialogue,
        } => push_opened(text, *id, *is_current, dialogue),
        Line::Waits {
            invoke,
            was,
            deadline,
        } => push_waits(text, *invoke, *was, *deadline),
        Line::End => text.push_str("E"),
    }
}

fn push_used(text: &mut String, id: Tid) -> Result<(), AllocError>
    ensures { OnOk result (string_bytes text.new ≡ string_bytes text.old ++ line_text (Used id)) }
{
    text.push_str("T ")?;
    push_octets(text, id.as_slice())
}

fn push_freed(text: &mut String, id: Tid) -> Result<(), AllocError>
    ensures { OnOk result (string_bytes text.new ≡ string_bytes text.old ++ line_text (Freed id)) }
{
    text.push_str("F ")?;
    push_octets(text, id.as_slice())
}

fn push_opened(
    text: &mut String,
    id: Tid,
    is_current: bool,
    dialogue: &Dialogue,
) -> Result<(), AllocError>
    ensures { OnOk result (string_bytes text.new ≡ string_bytes text.old
        ++ line_text (Opened id is_current (dialogue_with [] dialogue.now))) }
{
    text.push_str("D ")?;
    push_octets(text, id.as_slice())?;
    text.push_str(" ")?;
    push_dialogue(text, is_current, dialogue)
}

/// The fields of an open dialogue after its local id.
fn push_dialogue(text: &mut String, is_current: bool, dialogue: &Dialogue) -> Result<(), AllocError>
    ensures { OnOk result (string_bytes text.new ≡ string_bytes text.old ++ join_with_byte 32
        (dialogue_fields is_current (dialogue_with [] dialogue.now))) }
{
    let transaction = &dialogue.transaction;
    write!(text, "{} {} ", dialogue.subscriber, transaction.peer)?;
    push_remote(text, &transaction.remote)?;
    text.push_str(" ")?;
    push_marked(text, is_current, &dialogue.kind)
}

/// Whether it is its subscriber's current update, and its kind.
fn push_marked(text: &mut String, is_current: bool, kind: &Kind) -> Result<(), AllocError>
    ensures { OnOk result (string_bytes text.new ≡ string_bytes text.old
        ++ join_with_byte 32 (mark_text is_current ∷ kind_fields (kind_of kind.now))) }
{
    push_mark(text, is_current)?;
    text.push_str(" ")?;
    push_kind(text, kind)
}

fn push_waits(text: &mut String, invoke: i8, standing: Was, deadline: u64) -> Result<(), AllocError>
    ensures { OnOk result (string_bytes text.new ≡ string_bytes text.old
        ++ line_text (Waits (invocation_of invoke standing deadline))) }
{
    write!(text, "I {invoke} ")?;
    push_was(text, standing)?;
    write!(text, " {deadline}")
}

fn push_was(text: &mut String, standing: Was) -> Result<(), AllocError>
    ensures { OnOk result (string_bytes text.new
        ≡ string_bytes text.old ++ was_text (was standing)) }
{
    match standing {
        Was::Sent => text.push_str("sent"),
        Was::Waiting => text.push_str("wait"),
    }
}

fn push_mark(text: &mut String, is_current: bool) -> Result<(), AllocError>
    ensures { OnOk result (string_bytes text.new ≡ string_bytes text.old ++ mark_text is_current) }
{
    text.push_str(if is_current { "*" } else { "-" })
}

fn push_remote(text: &mut String, remote: &Option<RemoteId>) -> Result<(), AllocError>
    ensures { OnOk result (string_bytes text.new
        ≡ string_bytes text.old ++ octets_text remote.now) }
{
    match remote {
        None => text.push_str("-"),
        Some(remote) => push_octets(text, remote.as_slice()),
    }
}

fn push_lmsi(text: &mut String, lmsi: &Option<Lmsi>) -> Result<(), AllocError>
    ensures { OnOk result (string_bytes text.new ≡ string_bytes text.old ++ octets_text lmsi.now) }
{
    match lmsi {
        None => text.push_str("-"),
        Some(lmsi) => push_octets(text, lmsi.as_slice()),
    }
}

/// Octets in upper case hexadecimal.
fn push_octets(text: &mut String, octets: &[u8]) -> Result<(), AllocError>
    ensures { OnOk result (string_bytes text.new
        ≡ string_bytes text.old ++ encode_upper octets.now) }
{
    let digits = encode_upper(*text.allocator(), octets)?;
    text.push_str(&digits)
}

/// The kind of a dialogue, with what follows it.
fn push_kind(text: &mut String, kind: &Kind) -> Result<(), AllocError>
    ensures { OnOk result (string_bytes text.new ≡ string_bytes text.old
        ++ join_with_byte 32 (kind_fields (kind_of kind.now))) }
{
    match kind {
        Kind::Update { register, invoke } => push_update(text, register, *invoke),
        Kind::Cancel { vlr, attempt, why } => push_cancel(text, vlr, *attempt, *why),
        Kind::Data => text.push_str("data"),
    }
}

fn push_update(text: &mut String, of: &Register, invoke: InvokeId) -> Result<(), AllocError>
    ensures { OnOk result (string_bytes text.new ≡ string_bytes text.old
        ++ join_with_byte 32 (kind_fields (machine.Updates (register of.now) invoke))) }
{
    write!(text, "update {} {} ", of.vlr, of.msc)?;
    push_lmsi(text, &of.lmsi)?;
    write!(text, " {}", invoke.number())
}

fn push_cancel(
    text: &mut String,
    vlr: &Peer,
    attempt: u8,
    why: CancellationType,
) -> Result<(), AllocError>
    ensures { OnOk result (string_bytes text.new ≡ string_bytes text.old
        ++ join_with_byte 32 (kind_fields (machine.Cancels vlr.now attempt (cancellation why)))) }
{
    write!(text, "cancel {vlr} {attempt} ")?;
    push_why(text, why)
}

fn push_why(text: &mut String, why: CancellationType) -> Result<(), AllocError>
    ensures { OnOk result (string_bytes text.new
        ≡ string_bytes text.old ++ why_text (cancellation why)) }
{
    match why {
        CancellationType::UpdateProcedure => text.push_str("update"),
        CancellationType::SubscriptionWithdraw => text.push_str("withdraw"),
    }
}
