//! The digits of octets that are printed.

ghost use Rattle.std.specs.Prelude.{◌≡◌, ◌++◌, ◌+◌, ◌*◌, ◌<◌, ◌≤◌, [], ◌∷◌, OnErr, OnOk, length, take, drop};
ghost use Rattle.hex.specs.Hex.{encode_upper};

use std::alloc::AllocError;

/// How many octets are written at once, and how many digits these have.
const AT_ONCE: usize = 16;

const DIGITS_AT_ONCE: usize = 2 * AT_ONCE;

/// Appends the two hexadecimal digits of each octet, in upper case, to a text. On error the text stays as it was.
pub fn push_digits(text: &mut Vec<u8>, octets: &[u8]) -> Result<(), AllocError>
    ensures appended { OnOk result (text.new.items ≡ text.old.items ++ encode_upper octets.now) }
    ensures kept { OnErr result (text.new.items ≡ text.old.items) }
{
    let before = text.len();
    let Some(more) = octets.len().checked_mul(2) else {
        return Err(AllocError);
    };
    let Some(after) = before.checked_add(more) else {
        return Err(AllocError);
    };
    text.resize(after, 0)?;
    write_digits(&mut text[before..], octets);
    Ok(())
}

/// Writes the digits of octets over as many: of sixteen octets at once, and of the last sixteen again from where they begin, so that none
/// is left to be written by itself.
fn write_digits(digits: &mut [u8], octets: &[u8])
    requires { length digits.old ≡ 2 * length octets.now }
    ensures { digits.new ≡ encode_upper octets.now }
{
    let Some(last) = octets.len().checked_sub(AT_ONCE) else {
        write_few(digits, octets);
        return;
    };
    let mut place = 0;
    'lots: while place < last {
        write_lot(digits, octets, place);
        place += AT_ONCE;
    }
    write_lot(digits, octets, last);
}

/// The same for fewer than sixteen octets: the digits of sixteen are made, and those beyond the text are left.
fn write_few(digits: &mut [u8], octets: &[u8])
    requires few { length octets.now < 16 }
    requires twice { length digits.old ≡ 2 * length octets.now }
    ensures { digits.new ≡ encode_upper octets.now }
{
    let mut chunk = [0u8; AT_ONCE];
    chunk[..octets.len()].copy_from_slice(octets);
    let lot = digits_of_lot(&chunk);
    digits.copy_from_slice(&lot[..digits.len()]);
}

/// The same for the sixteen octets from a place on. The other digits stay.
fn write_lot(digits: &mut [u8], octets: &[u8], place: usize)
    requires room { place + 16 ≤ length octets.now }
    requires twice { length digits.old ≡ 2 * length octets.now }
    ensures { digits.new ≡ take (2 * place) digits.old
        ++ (encode_upper (take 16 (drop place octets.now)) ++ drop (2 * place + 32) digits.old) }
{
    let chunk = octets[place..].first_chunk::<AT_ONCE>().unwrap();
    let at = 2 * place;
    digits[at..at + DIGITS_AT_ONCE].copy_from_slice(&digits_of_lot(chunk));
}

/// The digits of sixteen octets.
#[inline(always)]
fn digits_of_lot(octets: &[u8; AT_ONCE]) -> [u8; DIGITS_AT_ONCE]
    ensures { result ≡ encode_upper octets.now }
{
    let mut digits = [0u8; DIGITS_AT_ONCE];
    'octets: for place in 0..AT_ONCE {
        let [first, second] = digits_of(octets[place]);
        digits[2 * place] = first;
        digits[2 * place + 1] = second;
    }
    digits
}

/// The two digits of an octet. Both are made at once, as the two bytes of one number, and no branch depends on what they are: so the compiler
/// takes eight octets at a time.
fn digits_of(octet: u8) -> [u8; 2]
    ensures { result ≡ encode_upper (octet ∷ []) }
{
    let octet = u16::from(octet);
    // The octet AB becomes B0AB and then 0B0A: the low byte, which comes first, is the first half.
    let halves = (octet % 16 * 0x1000 + octet) / 16;
    // For each half below ten 7, and 0 for the others: 76 + 9 is 7F, and 76 + A is 80.
    let below_ten = ((halves + 0x7676) / 16) & 0x0707;
    // 37 + A is the character A, and 37 + 0 is seven above the character 0.
    (halves + 0x3737 - below_ten).to_le_bytes()
}
