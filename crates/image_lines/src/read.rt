//! Reads a line.

ghost use Rattle.std.specs.Prelude.{◌≡◌, Some, IfSome, option_map};
ghost use Rattle.texts.specs.Lines.{parts};
ghost use Rattle.image_lines.specs.Lines.{IsLine, line_text};
ghost use Rattle.image_lines.specs.Lines as image;
ghost use Rattle.image_lines.specs.Reading.{dialogue_from, dialogue_in, end_in, id_in, line_by, line_in, opened_in, shard_in, waits_in};
ghost use Rattle.image_lines.specs.Seen.{line_of, said_of};

use crate::fields::{last, next, read_imsi, read_mark, read_was};
use crate::hexadecimal::{read_id, read_remote};
use crate::kind::read_kind;
use crate::line::Line;
use crate::numbers::{read_decimal, read_signed, read_up_to};
use dialogues::Dialogue;
use hlr_types::{Digits, Peer, Tid};
use machine::numbers::MAX_CLOCK;
use tsl::Transaction;

/// Reads a line, in the form in which `write_line` appends it, without a line feed. `None` for any other text: also for a number with a
/// leading zero or above its limit, for octets in lower case, and for two spaces. The shard is 0 to 15, its clock 0 to 2^62, the
/// generation 0 to 4,095.
pub fn read_line(text: &[u8]) -> Option<Line>
    ensures found { IfSome result (λ line. text.now ≡ line_text (line_of line)) }
    ensures only { (line : image.Line) → IsLine line → text.now ≡ line_text line
        → option_map line_of result ≡ Some line }
    ensures bounded { IfSome result (λ line. IsLine (line_of line)) }
{
    read_fields(text)
}

#[tactic(auto, unfolding(crate::specs::Reading::line_in))]
fn read_fields(text: &[u8]) -> Option<Line>
    ensures { option_map line_of result ≡ line_in (parts 32 text.now) }
{
    match next(text) {
        Some((word, rest)) => read_by(word, rest),
        None => read_end(text),
    }
}

#[tactic(auto, unfolding(crate::specs::Reading::end_in))]
fn read_end(text: &[u8]) -> Option<Line>
    ensures { option_map line_of result ≡ end_in (parts 32 text.now) }
{
    let word = last(text)?;
    if word == b"E".as_slice() {
        return Some(Line::End);
    }
    None
}

#[tactic(auto, unfolding(crate::specs::Reading::line_by))]
fn read_by(word: &[u8], text: &[u8]) -> Option<Line>
    ensures { option_map line_of result ≡ line_by word.now (parts 32 text.now) }
{
    if word == b"S1".as_slice() {
        return read_shard(text);
    }
    if word == b"T".as_slice() {
        return Some(Line::Used(read_only_id(text)?));
    }
    if word == b"F".as_slice() {
        return Some(Line::Freed(read_only_id(text)?));
    }
    if word == b"D".as_slice() {
        return read_opened(text);
    }
    if word == b"I".as_slice() {
        return read_waits(text);
    }
    None
}

#[tactic(auto, unfolding(crate::specs::Reading::shard_in))]
fn read_shard(text: &[u8]) -> Option<Line>
    ensures { option_map line_of result ≡ shard_in (parts 32 text.now) }
{
    let (shard, rest) = next(text)?;
    let (clock, rest) = next(rest)?;
    let first = last(rest)?;
    let shard = read_up_to(shard, 15)? as u8;
    let clock = read_up_to(clock, MAX_CLOCK)?;
    let first = read_up_to(first, 4095)? as u16;
    Some(Line::Shard {
        shard,
        clock,
        first,
    })
}

#[tactic(auto, unfolding(crate::specs::Reading::id_in))]
fn read_only_id(text: &[u8]) -> Option<Tid>
    ensures { result ≡ id_in (parts 32 text.now) }
{
    let id = last(text)?;
    read_id(id)
}

#[tactic(auto, unfolding(crate::specs::Reading::opened_in))]
fn read_opened(text: &[u8]) -> Option<Line>
    ensures { option_map line_of result ≡ opened_in (parts 32 text.now) }
{
    let (id, rest) = next(text)?;
    let id = read_id(id)?;
    let (is_current, dialogue) = read_dialogue(rest)?;
    Some(Line::Opened {
        id,
        is_current,
        dialogue,
    })
}

/// The fields of an open dialogue after its local id: whether it is its subscriber's current update, and the dialogue.
#[tactic(auto, unfolding(crate::specs::Reading::dialogue_in))]
fn read_dialogue(text: &[u8]) -> Option<(bool, Dialogue)>
    ensures { option_map said_of result ≡ dialogue_in (parts 32 text.now) }
{
    let (subscriber, rest) = next(text)?;
    let (peer, rest) = next(rest)?;
    let (remote, rest) = next(rest)?;
    let (mark, kind) = next(rest)?;
    dialogue_from(subscriber, peer, remote, mark, kind)
}

fn dialogue_from(
    subscriber: &[u8],
    peer: &[u8],
    remote: &[u8],
    mark: &[u8],
    kind: &[u8],
) -> Option<(bool, Dialogue)>
    ensures { option_map said_of result
        ≡ dialogue_from subscriber.now peer.now remote.now mark.now (parts 32 kind.now) }
{
    let subscriber = read_imsi(subscriber)?;
    let peer = Peer::new(Digits::from_text(peer)?);
    let remote = read_remote(remote)?;
    let is_current = read_mark(mark)?;
    let kind = read_kind(kind)?;
    let dialogue = Dialogue {
        subscriber,
        transaction: Transaction { peer, remote },
        kind,
    };
    Some((is_current, dialogue))
}

#[tactic(auto, unfolding(crate::specs::Reading::waits_in))]
fn read_waits(text: &[u8]) -> Option<Line>
    ensures { option_map line_of result ≡ waits_in (parts 32 text.now) }
{
    let (invoke, rest) = next(text)?;
    let (was, rest) = next(rest)?;
    let deadline = last(rest)?;
    Some(Line::Waits {
        invoke: read_signed(invoke)?,
        was: read_was(was)?,
        deadline: read_decimal(deadline)?,
    })
}
