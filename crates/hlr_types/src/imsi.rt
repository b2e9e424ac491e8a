//! The identity of a subscriber.

ghost use Rattle.std.specs.Prelude.{◌≡◌, List, ℕ, IfSome, Some, Ok};
ghost use Rattle.std.specs.Fmt.{padded};
ghost use Rattle.hlr_types.specs.Digits.{AreImsiDigits};
ghost use Rattle.hlr_types.specs.Tbcd.{tbcd};
ghost use Rattle.hlr_types.specs.DigitTexts.{text_of};
ghost use Rattle.hlr_types.specs.Identities.{imsi_from, imsi_of, IsImsi, AreImsiForms};

use crate::digits::Digits;
use crate::tbcd::{Tbcd, TbcdFault, tbcd_read, tbcd_write};
use std::fmt;
use std::marker::Model;

/// An IMSI (ITU-T E.212; TS 23.003 2.2): 5 to 15 digits, which are ordered as texts.
#[derive(Clone, Copy, Debug, PartialEq, Eq, PartialOrd, Ord)]
pub struct Imsi {
    digits: Digits,
}

impl Model for Imsi {
    ghost use Rattle.std.specs.Prelude.{List, ℕ};

    ghost Value = { List ℕ };

    ghost use Rattle.hlr_types.specs.Digits.{AreImsiDigits};

    ghost view = { λ i. i.digits };

    ghost invariant = { λ i. AreImsiDigits i.digits };

    ghost inverse = { λ v. record { digits = v } };
}

impl Imsi {
    /// The IMSI of these digits. Fewer than 5 or more than 15 are `BadCount`.
    pub fn from_digits(digits: Digits) -> Result<Imsi, TbcdFault>
        ensures { result ≡ imsi_from digits }
    {
        if digits.have_imsi_count() {
            Ok(Imsi { digits })
        } else {
            Err(TbcdFault::BadCount)
        }
    }

    /// The IMSI of 3 to 8 octets of TBCD (TS 29.002 17.7.8, IMSI).
    #[tactic(auto, using(crate::proofs::IdentityLaws::imsi_laws))]
    pub fn read(octets: &[u8]) -> Option<Imsi>
        ensures found { IfSome result (λ imsi. IsImsi octets.now imsi) }
        ensures only { (digits : List ℕ) → IsImsi octets.now digits → result ≡ Some digits }
        ensures exact { result ≡ imsi_of octets.now }
    {
        Imsi::from_digits(tbcd_read(octets).ok()?).ok()
    }

    /// Its digits.
    pub fn digits(&self) -> &Digits
        ensures value { result.now ≡ self.now }
        ensures count { AreImsiDigits result.now }
    {
        &self.digits
    }

    /// Its octets: 3 to 8 octets of TBCD.
    #[tactic(auto, using(crate::proofs::IdentityLaws::imsi_laws))]
    pub fn octets(&self) -> Tbcd
        ensures value { result ≡ tbcd self.now }
        ensures form { IsImsi result self.now }
    {
        tbcd_write(&self.digits)
    }
}

/// Writes the digits as their text.
impl fmt::Display for Imsi {
    ghost output = { λ digits. Some (text_of digits) };

    ghost styled_output = { λ digits spec. Some (padded spec (text_of digits)) };

    fn fmt<W: fmt::Write>(&self, f: &mut fmt::Formatter<W>) -> fmt::Result {
        self.digits.fmt(f)
    }
}

/// Law: each text of 5 to 15 digits is the IMSI of exactly one octet string, of 3 to 8 octets.
#[tactic(auto, using(crate::proofs::IdentityLaws::imsi_forms))]
pub fn law_imsi_forms()
    ensures { AreImsiForms }
{}
