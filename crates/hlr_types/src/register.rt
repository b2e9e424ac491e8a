//! The register that serves a subscriber.

ghost use Rattle.std.specs.Prelude.{◌≡◌, length, List, ℕ, IfSome, Some};
ghost use Rattle.hlr_types.specs.Identities.{lmsi_of, IsLmsi};

use crate::address::IsdnAddress;
use std::marker::Model;

/// An LMSI (TS 23.003 2.5; TS 29.002 17.7.8): the four octets under which a register knows a subscriber.
#[derive(Clone, Copy, Debug, PartialEq, Eq)]
pub struct Lmsi(pub [u8; 4]);

impl Model for Lmsi {
    ghost use Rattle.std.specs.Prelude.{List, ℕ};

    ghost Value = { List ℕ };

    ghost view = { λ l. l.0 };

    ghost inverse = { λ v. record { 0 = v } };
}

impl Lmsi {
    /// The LMSI of four octets.
    #[tactic(auto, using(crate::proofs::IdentityLaws::lmsi_laws))]
    pub fn read(octets: &[u8]) -> Option<Lmsi>
        ensures found { IfSome result (λ lmsi. IsLmsi octets.now lmsi) }
        ensures only { (lmsi : List ℕ) → IsLmsi octets.now lmsi → result ≡ Some lmsi }
        ensures exact { result ≡ lmsi_of octets.now }
    {
        match octets {
            [a, b, c, d] => Some(Lmsi([*a, *b, *c, *d])),
            _ => None,
        }
    }

    /// Its four octets.
    pub fn as_slice(&self) -> &[u8]
        ensures value { result.now ≡ self.now }
        ensures count { length result.now ≡ 4 }
    {
        &self.0
    }
}

/// The register that serves a subscriber (TS 23.012): its VLR number and its MSC number, and the LMSI under which it
/// knows the subscriber.
#[derive(Clone, Copy, Debug, PartialEq, Eq)]
pub struct Register {
    pub vlr: IsdnAddress,
    pub msc: IsdnAddress,
    pub lmsi: Option<Lmsi>,
}
