//! One line of a script.

ghost use Rattle.std.specs.Prelude.{◌≡◌, ◌∷◌, [], true, ℕ, List, Some, IfSome, IfNone, IsSomeAnd};
ghost use Rattle.texts.specs.Lines.{parts};
ghost use Rattle.records.specs.Reading.{imsi_in};
ghost use Rattle.records.specs.Spelling.{IsImsiNumber};
ghost use Rattle.hlr_input.specs.Script.{Line, IsLine, is_closed, line_of};
ghost use Rattle.hlr_input.specs.Reading.{IsWritten, Reads};

use crate::item::Item;
use crate::ticks::read_ticks;
use hlr_types::{Digits, Imsi, Peer};
use records::Codes;
use texts::cut;

/// Reads a line; its fields are separated by one space:
///
/// - `F <from> <octets>`: a frame from an address of 1 to 16 digits;
/// - `C <ticks>`: a clock value;
/// - `E`: an expiry;
/// - `W`: the end of a batch;
/// - `O <imsi> <codes>`: new teleservice codes, in the form of the records file;
/// - `X <imsi>`: the end of a subscription.
///
/// The octets of a frame are the rest of the line, and are not looked at. If they have a space, the line has a field too many, and
/// says nothing; anyone who looks at them finds that, since octets have none.
#[tactic(auto, using(crate::proofs::LineLaws::line_found, crate::proofs::LineLaws::line_only))]
pub fn read_line<'a>(line: &'a [u8]) -> Option<Item<'a>>
    // Exactly what is written, whatever the octets of a frame are.
    ensures written { Reads (IsWritten line.now) result }
    // Of a frame whose octets have no space, and of every other line, it is what the line says.
    ensures found { IfSome result (λ item. is_closed (line_of item) ≡ true
        → IsLine line.now (line_of item)) }
    ensures only { (said : Line) → IsLine line.now said
        → IsSomeAnd result (λ item. line_of item ≡ said) }
{
    read_written(line)
}

fn read_written<'a>(line: &'a [u8]) -> Option<Item<'a>>
    ensures { Reads (IsWritten line.now) result }
{
    match line {
        [b'F', b' ', rest @ ..] => read_frame(rest),
        _ => read_other(line),
    }
}

/// A frame's line, after its kind.
fn read_frame<'a>(rest: &'a [u8]) -> Option<Item<'a>>
    ensures { Reads (IsWritten (70 ∷ 32 ∷ rest.now)) result }
{
    let Some(front) = Digits::from_front(rest, b' ') else {
        return None;
    };
    let (from, octets) = front;
    Some(Item::Frame {
        from: Peer::new(from),
        octets,
    })
}

/// Another line. It stands apart, never inlined, since nearly each line is a frame's.
#[inline(never)]
fn read_other<'a>(line: &'a [u8]) -> Option<Item<'a>>
    requires { (rest : List ℕ) → line.now ≡ 70 ∷ 32 ∷ rest → ⊥ }
    ensures { Reads (IsWritten line.now) result }
{
    match line {
        [b'E'] => Some(Item::Expire),
        [b'W'] => Some(Item::Batch),
        [b'C', b' ', rest @ ..] => read_clock(rest),
        [b'X', b' ', rest @ ..] => read_withdrawal(rest),
        [b'O', b' ', rest @ ..] => read_codes(rest),
        _ => None,
    }
}

fn read_clock<'a>(rest: &[u8]) -> Option<Item<'a>>
    ensures { Reads (IsWritten (67 ∷ 32 ∷ rest.now)) result }
{
    let now = read_ticks(rest)?;
    Some(Item::Clock(now))
}

fn read_withdrawal<'a>(rest: &[u8]) -> Option<Item<'a>>
    ensures { Reads (IsWritten (88 ∷ 32 ∷ rest.now)) result }
{
    let imsi = imsi(rest)?;
    Some(Item::Withdraw { imsi })
}

fn read_codes<'a>(rest: &[u8]) -> Option<Item<'a>>
    ensures { Reads (IsWritten (79 ∷ 32 ∷ rest.now)) result }
{
    let (number, field) = two_fields(rest)?;
    let imsi = imsi(number)?;
    let Some(codes) = Codes::read(field) else {
        return None;
    };
    Some(Item::Codes { imsi, codes })
}

/// The fields of a text that has two.
#[tactic(auto, using(crate::proofs::LineLaws::three_parts))]
fn two_fields(text: &[u8]) -> Option<(&[u8], &[u8])>
    ensures found { IfSome result (λ r. parts 32 text.now ≡ r.0.now ∷ r.1.now ∷ []) }
    ensures none { IfNone result ((number field : List ℕ)
        → parts 32 text.now ≡ number ∷ field ∷ [] → ⊥) }
{
    let (first, Some(rest)) = cut(text, b' ') else {
        return None;
    };
    match cut(rest, b' ') {
        (second, None) => Some((first, second)),
        (_, Some(_)) => None,
    }
}

#[tactic(auto, using(crate::proofs::LineLaws::imsi_found, crate::proofs::LineLaws::imsi_only))]
fn imsi(text: &[u8]) -> Option<Imsi>
    ensures found { IfSome result (λ imsi. IsImsiNumber text.now imsi) }
    ensures only { (digits : List ℕ) → IsImsiNumber text.now digits → result ≡ Some digits }
{
    imsi_of(text)
}

fn imsi_of(text: &[u8]) -> Option<Imsi>
    ensures { result ≡ imsi_in text.now }
{
    Imsi::from_digits(Digits::from_text(text)?).ok()
}
