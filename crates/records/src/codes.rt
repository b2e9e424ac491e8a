//! The field of teleservice codes.

ghost use Rattle.std.specs.Prelude.{◌≡◌, ◌==◌, ℕ, List, [], IfSome, Some};
ghost use Rattle.std.specs.List.{list_any};
ghost use Rattle.texts.specs.Lines.{parts};
ghost use Rattle.records.specs.Spelling.{IsCodes};
ghost use Rattle.records.specs.Subscriber.{AreAllowed};
ghost use Rattle.records.specs.Reading.{octet_in, codes_in, codes_after};

use hex::FromHex;
use hlr_types::ShortList;
use texts::cut;

/// How many codes a subscriber may have (profile).
const MAX_CODES: usize = 32;

/// The teleservice codes in a field of a records file: `-`, or 1 to 32 different octets of two hexadecimal digits, with
/// commas. `None` if it is neither.
pub fn read_codes(field: &[u8]) -> Option<ShortList<32>>
    // The result is exactly what the field stands for.
    ensures found { IfSome result (λ codes. IsCodes field.now codes) }
    ensures only { (codes : List ℕ) → IsCodes field.now codes → result ≡ Some codes }
    ensures allowed { IfSome result (λ codes. AreAllowed codes) }
{
    codes_field(field)
}

#[tactic(auto, unfolding(crate::specs::Reading::codes_in))]
pub(crate) fn codes_field(field: &[u8]) -> Option<ShortList<32>>
    ensures { result ≡ codes_in field.now }
{
    if field == b"-".as_slice() {
        return Some(ShortList::new());
    }
    listed_codes(field)
}

#[tactic(auto, unfolding(crate::specs::Reading::codes_after))]
fn listed_codes(field: &[u8]) -> Option<ShortList<32>>
    ensures { result ≡ codes_after [] (parts 44 field.now) }
{
    let mut codes = ShortList::new();
    let mut rest = Some(field);
    while let Some(text) = rest {
        let (part, after) = cut(text, b',');
        let Some(code) = octet(part) else {
            return None;
        };
        if is_among(code, codes.as_slice()) {
            return None;
        }
        if codes.len() >= MAX_CODES {
            return None;
        }
        codes.push(code);
        rest = after;
    }
    Some(codes)
}

/// The octet that two hexadecimal digits stand for.
fn octet(part: &[u8]) -> Option<u8>
    ensures { result ≡ octet_in part.now }
{
    let octets = <[u8; 1]>::from_hex(part).ok()?;
    Some(octets[0])
}

fn is_among(code: u8, codes: &[u8]) -> bool
    ensures { result ≡ list_any (λ c. c == code) codes.now }
{
    codes.contains(&code)
}
