//! Telephony binary coded decimal (TS 29.002 17.7.8, TBCD-STRING): two digits to an octet, the first in the low half;
//! 1111 in the last high half fills an odd count.

ghost use Rattle.std.specs.Prelude.{◌≡◌, ◌<◌, ◌≤◌, ◌+◌, ◌*◌, ◌-◌, ◌/◌, ◌%◌, ◌^◌, ◌==◌, if◌then◌else◌, ℕ, List, [], ◌∷◌, ◌++◌, length, IfOk, Ok, Err, Some, None, true};
ghost use Rattle.hlr_types.specs.declared.tbcd.TbcdFault.TheVariants.{BadDigit};
ghost use Rattle.hlr_types.specs.Tbcd.{IsTbcd, tbcd, digits_of, halves, last_halves, are_digits, AreTwoForms, AreInverse};
ghost use Rattle.hlr_types.specs.Words.{IsWord, in_word, packed};

use crate::digits::Digits;
use crate::short_list::ShortList;
use thiserror::Error;

/// Why octets are no digits, or digits no IMSI. If both faults are there, it is the count.
#[derive(Clone, Copy, PartialEq, Eq, Debug, Drop, Error)]
pub enum TbcdFault {
    /// Too few or too many octets or digits.
    #[error("too few or too many digits")]
    BadCount,
    /// A half octet is neither a digit from 0 to 9 nor the filler at the end.
    #[error("a half octet is no digit from 0 to 9")]
    BadDigit,
}

/// The TBCD form of digits: 1 to 8 octets.
pub type Tbcd = ShortList<8>;

/// The digits of 1 to 8 octets of TBCD. No octet, or more than 8, is `BadCount`; then a half octet that is no digit,
/// other than the filler F in the high half of the last octet, is `BadDigit`.
///
/// Limitation: the further digit codes (`*`, `#`, a, b, c) are no digits here.
#[tactic(auto, using(crate::proofs::TbcdLaws::tbcd_laws))]
pub fn tbcd_read(octets: &[u8]) -> Result<Digits, TbcdFault>
    // What is read has the form, and whatever has the form is read.
    ensures found { IfOk result (λ digits. IsTbcd octets.now digits) }
    ensures only { (digits : List ℕ) → IsTbcd octets.now digits → result ≡ Ok digits }

    // Which fault it is.
    ensures exact { result ≡ digits_of octets.now }
{
    digits_of(octets)
}

/// The one TBCD form of digits.
#[tactic(auto, using(crate::proofs::TbcdLaws::tbcd_laws))]
pub fn tbcd_write(digits: &Digits) -> Tbcd
    ensures value { result ≡ tbcd digits.now }
    ensures form { IsTbcd result digits.now }
    ensures again { digits_of result ≡ Ok digits.now }
{
    octets_of(digits.word())
}

/// Law: digits and octets are two forms of one text, and reading and writing convert each to the other.
#[tactic(auto, using(crate::proofs::TbcdLaws::two_forms))]
pub fn law_two_forms()
    ensures forms { AreTwoForms }
    ensures inverse { AreInverse }
{}

#[tactic(auto, using(crate::proofs::ReadLemmas::read_laws))]
fn digits_of(octets: &[u8]) -> Result<Digits, TbcdFault>
    ensures { result ≡ digits_of octets.now }
{
    let Some((last, front)) = octets.split_last() else {
        return Err(TbcdFault::BadCount);
    };
    if front.len() >= 8 {
        return Err(TbcdFault::BadCount);
    }
    match number_of(front) {
        Some(number) => with_last(number, front, *last),
        None => Err(TbcdFault::BadDigit),
    }
}

/// The number that the half octets make, if each is a digit: a half octet for each, its digit plus one. No list of them is
/// made, as this is called for each address of a frame.
#[tactic(auto, using(crate::proofs::ReadLemmas::number_laws))]
fn number_of(octets: &[u8]) -> Option<u64>
    requires { length octets.now < 8 }
    ensures { result ≡ (if are_digits (halves octets.now)
        then Some (packed (length (halves octets.now)) (halves octets.now)) else None) }
{
    let mut number: u64 = 0;
    for octet in octets {
        if *octet % 16 >= 10 || *octet / 16 >= 10 {
            return None;
        }
        number = number * 256 + u64::from(*octet % 16 * 16 + *octet / 16 + 17);
    }
    Some(number)
}

/// The digits of the front, which make this number, and of the last octet. Its high half is kept plus one, so the filler
/// becomes the 0 of no digit.
#[tactic(auto, using(crate::proofs::ReadLemmas::last_laws))]
fn with_last(number: u64, front: &[u8], last: u8) -> Result<Digits, TbcdFault>
    requires few { length front.now < 8 }
    requires digits { are_digits (halves front.now) ≡ true }
    requires value { number ≡ packed (length (halves front.now)) (halves front.now) }
    ensures { result ≡ (if are_digits (last_halves last)
        then Ok (halves front.now ++ last_halves last) else Err BadDigit) }
{
    let end = (last / 16 + 1) % 16;
    if last % 16 >= 10 || end > 10 {
        return Err(TbcdFault::BadDigit);
    }
    let whole = number * 256 + u64::from(last % 16 * 16 + 16 + end);
    Ok(Digits::of_word(whole << (56 - 8 * front.len())))
}

/// The octets of a word's digits, two from the high end at a time.
#[tactic(auto, using(crate::proofs::PackLemmas::write_laws))]
fn octets_of(word: u64) -> Tbcd
    requires { IsWord word }
    ensures { result ≡ tbcd (in_word word) }
{
    let mut items = [0u8; 8];
    let mut count: usize = 0;
    let mut rest = word;
    while rest != 0 {
        items[count] = octet_of((rest >> 56) as u8);
        count += 1;
        rest <<= 8;
    }
    ShortList::of_parts(&items, count as u8)
}

/// The octet of two half octets of a word, the first digit in its low half. Both are digits plus one; if the second is the 0
/// of no digit, one less is the filler.
fn octet_of(pair: u8) -> u8
    ensures { result ≡ (pair % 16 * 16 + pair / 16 + 239) % 256 }
{
    (pair % 16 * 16 + pair / 16).wrapping_sub(17)
}
