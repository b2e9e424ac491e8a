//! Addresses of the telephone network (ITU-T E.164): those of registers and of subscribers.

ghost use Rattle.std.specs.Prelude.{◌≡◌, List, ℕ, IfSome, Some};
ghost use Rattle.std.specs.Fmt.{padded};
ghost use Rattle.hlr_types.specs.Digits.{AreSomeDigits};
ghost use Rattle.hlr_types.specs.DigitTexts.{text_of};
ghost use Rattle.hlr_types.specs.Words.{IsWord, in_word};
ghost use Rattle.hlr_types.specs.Identities.{address_of, address_octets, IsAddress, AreAddressForms};

use crate::digits::Digits;
use crate::short_list::ShortList;
use crate::tbcd::{tbcd_read, tbcd_write};
use std::fmt;
use std::marker::Model;

/// The first octet of an address that is sent (TS 29.002 17.7.8, AddressString): no extension, an international number,
/// numbering plan E.164.
pub const INTERNATIONAL_E164: u8 = 0x91;

/// An address of the telephone network (TS 29.002 17.7.8, ISDN-AddressString): 1 to 16 digits. Two addresses are the
/// same if their digits are; they are ordered as texts.
///
/// Limitation: the nature of the address and its numbering plan are not kept. What is sent is an international number
/// of E.164.
#[derive(Clone, Copy, Debug, PartialEq, Eq, PartialOrd, Ord)]
pub struct IsdnAddress {
    digits: Digits,
}

impl Model for IsdnAddress {
    ghost use Rattle.std.specs.Prelude.{List, ℕ};

    ghost Value = { List ℕ };

    ghost view = { λ a. a.digits };

    ghost inverse = { λ v. record { digits = v } };
}

impl IsdnAddress {
    /// The address of these digits.
    pub fn new(digits: Digits) -> IsdnAddress
        ensures { result ≡ digits }
    {
        IsdnAddress { digits }
    }

    /// The address of 2 to 9 octets: the first has bit 8 set and is not kept, the others are the digits in TBCD.
    #[tactic(auto, using(crate::proofs::IdentityLaws::address_laws))]
    pub fn read(octets: &[u8]) -> Option<IsdnAddress>
        ensures found { IfSome result (λ address. IsAddress octets.now address) }
        ensures only { (digits : List ℕ) → IsAddress octets.now digits → result ≡ Some digits }
        ensures exact { result ≡ address_of octets.now }
    {
        match octets {
            [nature, digits @ ..] if *nature >= 0x80 => Some(IsdnAddress {
                digits: tbcd_read(digits).ok()?,
            }),
            _ => None,
        }
    }

    /// Its digits.
    pub fn digits(&self) -> &Digits
        ensures { result.now ≡ self.now }
    {
        &self.digits
    }

    /// The word of its digits, in which each has a half octet, from the highest on. The order of words is that of addresses.
    pub fn word(&self) -> u64
        ensures value { in_word result ≡ self.now }
        ensures word { IsWord result }
    {
        self.digits.word()
    }

    /// The octets that are sent: 91, and the digits in TBCD.
    #[tactic(auto, using(crate::proofs::IdentityLaws::address_laws))]
    pub fn octets(&self) -> ShortList<9>
        ensures value { result ≡ address_octets self.now }
        ensures form { IsAddress result self.now }
    {
        octets_sent(&self.digits)
    }
}

/// Writes the digits as their text.
impl fmt::Display for IsdnAddress {
    ghost output = { λ digits. Some (text_of digits) };

    ghost styled_output = { λ digits spec. Some (padded spec (text_of digits)) };

    fn fmt<W: fmt::Write>(&self, f: &mut fmt::Formatter<W>) -> fmt::Result {
        self.digits.fmt(f)
    }
}

#[tactic(auto, using(crate::proofs::TbcdLemmas::address_steps))]
fn octets_sent(digits: &Digits) -> ShortList<9>
    ensures value { result ≡ address_octets digits.now }
    ensures digits { AreSomeDigits digits.now }
{
    let tbcd = tbcd_write(digits);
    let mut items = [0u8; 9];
    items[0] = INTERNATIONAL_E164;
    // The zeros after the digits are copied too, as eight octets are moved at once.
    items[1..].copy_from_slice(tbcd.padded());
    ShortList::of_parts(&items, tbcd.len() as u8 + 1)
}

/// Law: what is sent for an address is read as its digits; an address has 2 to 9 octets, and one text of digits.
#[tactic(auto, using(crate::proofs::IdentityLaws::address_forms))]
pub fn law_address_forms()
    ensures { AreAddressForms }
{}
