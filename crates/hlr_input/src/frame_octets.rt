//! The octets of a frame in a script.

ghost use Rattle.std.specs.List.{list_all};
ghost use Rattle.hex.specs.Hex.{decode_of, hex_digit_value, is_hex_digit};
ghost use Rattle.std.specs.Prelude.{◌≡◌, ◌%◌, ◌<◌, ◌≤◌, ◌+◌, ◌*◌, ◌==◌, ◌&&◌, true, IsTrue, IsNone, ℕ, List, [], Ok, unwrap_or, vec_capacity, IsOk, IfOk, IfSome, Some, length, slice_index, option_map};
ghost use Rattle.hlr_input.specs.declared.group.Group.{Group};
ghost use Rattle.hlr_input.specs.Digits.{AreOctetsOf, octet_at};
ghost use Rattle.hlr_input.specs.Octets.{IsOctets, ids_in, octets_of, are_known};
ghost use Rattle.hlr_input.specs.Reading.{group_in, letter_in, are_groups, octets_stand, stands, octets_after, octets_in};
ghost use Rattle.records.specs.Reading.{octet_in};

use crate::group::Group;
use hex::FromHex;
use hlr_types::Tid;
use std::alloc::AllocError;

/// How many octets are read at once from their digits, and how many digits these are.
const AT_ONCE: usize = 16;

const DIGITS_AT_ONCE: usize = 2 * AT_ONCE;

/// Whether the text is the octets of a frame, with no letter but the first `known`: `-` for none, otherwise groups of two characters,
/// each an octet in hexadecimal digits of either case, or `$` and a letter.
#[tactic(auto, using(crate::proofs::OctetLaws::stand_known))]
pub fn are_octets(text: &[u8], known: usize) -> bool
    ensures octets { IsTrue result → (groups : List Group) × IsOctets text.now groups }
    ensures known { (groups : List Group) → IsOctets text.now groups
        → result ≡ are_known known groups }
{
    stand(text, known)
}

/// The same as the definitions read them. Most texts have no letter, and are gone through once, as digits alone.
fn stand(text: &[u8], known: usize) -> bool
    ensures { result ≡ octets_stand known text.now }
{
    if text == b"-".as_slice() {
        return true;
    }
    if text.is_empty() {
        return false;
    }
    are_digit_pairs(text) || groups_stand(text, known)
}

/// Whether the text is two hexadecimal digits for each octet.
fn are_digit_pairs(text: &[u8]) -> bool
    ensures { result ≡ (length text.now % 2 == 0) && list_all is_hex_digit text.now }
{
    text.len() % 2 == 0 && are_digits(text)
}

/// Whether each character is a hexadecimal digit, of either case. It looks at all of them, since the compiler takes sixteen at a
/// time if no character ends the loop.
fn are_digits(text: &[u8]) -> bool
    ensures { result ≡ list_all is_hex_digit text.now }
{
    let mut all = true;
    for character in text {
        all = all & is_digit(*character);
    }
    all
}

#[tactic(auto, using(crate::proofs::DigitLaws::digit_is_digit))]
fn is_digit(character: u8) -> bool
    ensures { result ≡ is_hex_digit character }
{
    character.is_ascii_hexdigit()
}

/// Whether the text is groups of two characters, with no letter but the first `known`.
fn groups_stand(text: &[u8], known: usize) -> bool
    ensures { result ≡ are_groups known text.now }
{
    let mut rest = text;
    'groups: while rest.len() >= 2 {
        let (pair, more) = rest.split_at(2);
        if !stands(group(pair), known) {
            return false;
        }
        rest = more;
    }
    rest.is_empty()
}

/// Whether it is a group, and no letter but the first `known`.
fn stands(group: Option<Group>, known: usize) -> bool
    ensures { result ≡ stands known group }
{
    match group {
        Some(Group::Octet(_)) => true,
        Some(Group::Letter(letter)) => usize::from(letter) < known,
        None => false,
    }
}

/// The octets of a frame, with these ids in place of the letters, in the buffer of a list whose own octets are given up. `None` if the text
/// has another form or a letter has no id.
///
/// No ids are passed for octets that are known to have no letter: these are not looked through for one, and no memory is asked for where
/// the list has room for half as many octets as the text has.
#[tactic(auto, using(crate::proofs::OctetLaws::octets_found, crate::proofs::OctetLaws::octets_again))]
pub fn read_octets(
    room: Vec<u8>,
    text: &[u8],
    ids: Option<&[Tid]>,
) -> Result<Option<Vec<u8>>, AllocError>
    requires plain { IsNone ids → (groups : List Group) × (octets : List ℕ)
        × IsOctets text.now groups × (octets_of [] groups ≡ Some octets) }
    ensures found { IfOk result (λ read. IfSome read (λ octets.
        (groups : List Group) × IsOctets text.now groups
        × (octets_of (ids_in (option_map (λ i. i.now) ids.entry)) groups ≡ Some octets.items))) }
    ensures only { (groups : List Group) → IsOctets text.now groups
        → IfOk result (λ read. option_map (λ octets. octets.items) read
        ≡ octets_of (ids_in (option_map (λ i. i.now) ids.entry)) groups) }
    ensures had_room { IsNone ids.entry → length text.now ≤ 2 * vec_capacity room → IsOk result }
{
    octets_with(room, text, ids)
}

/// The same as the definitions read them. Most texts have no letter, and are read as digits alone.
fn octets_with(
    room: Vec<u8>,
    text: &[u8],
    ids: Option<&[Tid]>,
) -> Result<Option<Vec<u8>>, AllocError>
    requires plain { IsNone ids → (groups : List Group) × (octets : List ℕ)
        × IsOctets text.now groups × (octets_of [] groups ≡ Some octets) }
    ensures read { IfOk result (λ read. option_map (λ octets. octets.items) read
        ≡ octets_in (ids_in (option_map (λ i. i.now) ids.entry)) text.now) }
    ensures had_room { IsNone ids.entry → length text.now ≤ 2 * vec_capacity room → IsOk result }
{
    let mut octets = room;
    octets.clear();
    if text == b"-".as_slice() {
        return Ok(Some(octets));
    }
    if text.is_empty() {
        return Ok(None);
    }
    match ids {
        Some(ids) if !are_digit_pairs(text) => group_octets(octets, text, ids),
        _ => {
            let octets = digit_octets(octets, text)?;
            Ok(Some(octets))
        }
    }
}

/// The octets that hexadecimal digits stand for, two for each.
fn digit_octets(room: Vec<u8>, digits: &[u8]) -> Result<Vec<u8>, AllocError>
    requires none { room.items ≡ [] }
    requires even { length digits.now % 2 ≡ 0 }
    requires all { list_all is_hex_digit digits.now ≡ true }
    ensures read { IfOk result (λ octets. decode_of digits.now ≡ Ok octets.items) }
    ensures had_room { length digits.now ≤ 2 * vec_capacity room → IsOk result }
{
    let mut octets = room;
    octets.resize(digits.len() / 2, 0)?;
    write_octets(&mut octets, digits);
    Ok(octets)
}

/// Writes the octets of digits over as many octets: sixteen at once, and the last sixteen again from where they begin, so that none is left
/// to be read by itself, which takes several times as long.
fn write_octets(octets: &mut [u8], digits: &[u8])
    requires { length digits.now ≡ 2 * length octets.old }
    ensures { AreOctetsOf digits.now octets.new }
{
    let Some(last) = octets.len().checked_sub(AT_ONCE) else {
        write_few(octets, digits);
        return;
    };
    let mut place = 0;
    'lots: while place < last {
        write_lot(octets, digits, place);
        place += AT_ONCE;
    }
    write_lot(octets, digits, last);
}

/// The same for fewer than sixteen: they are read as sixteen, and what is read beyond them is left.
fn write_few(octets: &mut [u8], digits: &[u8])
    requires few { length octets.old < 16 }
    requires half { length digits.now ≡ 2 * length octets.old }
    ensures { AreOctetsOf digits.now octets.new }
{
    let mut chunk = [b'0'; DIGITS_AT_ONCE];
    chunk[..digits.len()].copy_from_slice(digits);
    let lot = octets_of_lot(&chunk);
    octets.copy_from_slice(&lot[..octets.len()]);
}

/// The same for the sixteen octets from a place on.
fn write_lot(octets: &mut [u8], digits: &[u8], place: usize)
    requires room { place + 16 ≤ length octets.old }
    requires half { length digits.now ≡ 2 * length octets.old }
    ensures len { length octets.new ≡ length octets.old }
    ensures written { (k : ℕ) → place ≤ k → k < place + 16
        → slice_index octets.new k ≡ octet_at digits.now k }
    ensures before { (k : ℕ) → k < place → slice_index octets.new k ≡ slice_index octets.old k }
    ensures behind { (k : ℕ) → place + 16 ≤ k
        → slice_index octets.new k ≡ slice_index octets.old k }
{
    let (chunk, _) = digits[2 * place..]
        .split_first_chunk::<DIGITS_AT_ONCE>()
        .unwrap();
    octets[place..place + AT_ONCE].copy_from_slice(&octets_of_lot(chunk));
}

/// The sixteen octets of their digits. Each digit is read by itself, and no branch depends on what it is: letters and decimal digits come
/// in no order that a processor guesses, and a wrong guess takes it longer than a digit does. Their values come first, so that the
/// compiler takes sixteen at a time in both loops.
#[inline(always)]
fn octets_of_lot(digits: &[u8; DIGITS_AT_ONCE]) -> [u8; AT_ONCE]
    ensures { AreOctetsOf digits.now result }
{
    let mut values = [0u8; DIGITS_AT_ONCE];
    'values: for place in 0..DIGITS_AT_ONCE {
        values[place] = digit_value(digits[place]);
    }
    let mut octets = [0u8; AT_ONCE];
    'octets: for place in 0..AT_ONCE {
        octets[place] = values[2 * place] * 16 + values[2 * place + 1];
    }
    octets
}

/// The value of a hexadecimal digit, which is that of the octet of 0 and the digit. 0 if it is none.
fn digit_value(digit: u8) -> u8
    ensures value { result ≡ unwrap_or (hex_digit_value digit) 0 }
    ensures bound { result < 16 }
{
    match <[u8; 1]>::from_hex([b'0', digit]) {
        Ok(octets) => octets[0],
        Err(_) => 0,
    }
}

/// The octets of groups, in the buffer of a list without octets.
fn group_octets(room: Vec<u8>, text: &[u8], ids: &[Tid]) -> Result<Option<Vec<u8>>, AllocError>
    requires { room.items ≡ [] }
    ensures { IfOk result (λ read. option_map (λ octets. octets.items) read
        ≡ octets_after ids.now [] text.now) }
{
    let mut octets = room;
    octets.reserve(text.len() / 2)?;
    let mut rest = text;
    'groups: while rest.len() >= 2 {
        let (pair, more) = rest.split_at(2);
        match group(pair) {
            Some(Group::Octet(octet)) => octets.push(octet)?,
            Some(Group::Letter(letter)) => {
                let Some(id) = ids.get(usize::from(letter)) else {
                    return Ok(None);
                };
                octets.extend_from_slice(id.as_slice())?;
            }
            None => return Ok(None),
        }
        rest = more;
    }
    if rest.is_empty() {
        Ok(Some(octets))
    } else {
        Ok(None)
    }
}

/// What two characters stand for.
fn group(pair: &[u8]) -> Option<Group>
    requires { length pair.now ≡ 2 }
    ensures { result ≡ group_in (slice_index pair.now 0) (slice_index pair.now 1) }
{
    if pair[0] == b'$' {
        return letter(pair[1]);
    }
    let octet = octet(pair)?;
    Some(Group::Octet(octet))
}

fn letter(character: u8) -> Option<Group>
    ensures { result ≡ letter_in character }
{
    if b'A' <= character && character <= b'Z' {
        Some(Group::Letter(character - b'A'))
    } else {
        None
    }
}

/// The octet that two hexadecimal digits stand for.
fn octet(pair: &[u8]) -> Option<u8>
    ensures { result ≡ octet_in pair.now }
{
    let octets = <[u8; 1]>::from_hex(pair).ok()?;
    Some(octets[0])
}
