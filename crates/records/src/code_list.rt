//! A subscriber's teleservice codes.

ghost use Rattle.std.specs.Prelude.{◌≡◌, List, ℕ, IfSome, Some};
ghost use Rattle.records.specs.Subscriber.{AreAllowed};

use crate::codes::read_codes;
use hlr_types::ShortList;
use std::marker::Model;

/// Teleservice codes that a subscriber may have (TS 29.002, TeleserviceCode): at most 32, all different (profile).
#[derive(Clone, Copy, Debug)]
pub struct Codes {
    codes: ShortList<32>,
}

impl Model for Codes {
    ghost use Rattle.std.specs.Prelude.{List, ℕ};
    ghost use Rattle.records.specs.Subscriber.{AreAllowed};

    ghost Value = { List ℕ };

    ghost view = { λ c. c.codes };

    ghost invariant = { λ c. AreAllowed c.codes };

    ghost inverse = { λ v. record { codes = v } };
}

impl Codes {
    ghost use Rattle.records.specs.Spelling.{IsCodes};

    /// The codes in a field of a records file: `-`, or 1 to 32 different octets of two hexadecimal digits, with commas. `None` if
    /// it is neither.
    pub fn read(field: &[u8]) -> Option<Codes>
        ensures found { IfSome result (λ codes. IsCodes field.now codes) }
        ensures only { (codes : List ℕ) → IsCodes field.now codes → result ≡ Some codes }
    {
        let Some(codes) = read_codes(field) else {
            return None;
        };
        Some(Codes { codes })
    }

    /// The codes, in their order.
    pub fn list(&self) -> ShortList<32>
        ensures value { result ≡ self.now }
        ensures allowed { AreAllowed result }
    {
        self.codes
    }

    /// The codes, in their order.
    pub fn as_slice(&self) -> &[u8]
        ensures value { result.now ≡ self.now }
        ensures allowed { AreAllowed result.now }
    {
        self.codes.as_slice()
    }
}
