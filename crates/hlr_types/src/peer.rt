//! The source and the destination of frames.

ghost use Rattle.std.specs.Prelude.{◌≡◌, List, ℕ, Some};
ghost use Rattle.std.specs.Fmt.{padded};
ghost use Rattle.hlr_types.specs.DigitTexts.{text_of};

use crate::digits::Digits;
use std::fmt;
use std::marker::Model;

/// The source or destination of a frame: the digits of its address.
#[derive(Clone, Copy, Debug, PartialEq, Eq, PartialOrd, Ord)]
pub struct Peer {
    digits: Digits,
}

impl Model for Peer {
    ghost use Rattle.std.specs.Prelude.{List, ℕ};

    ghost Value = { List ℕ };

    ghost view = { λ p. p.digits };

    ghost inverse = { λ v. record { digits = v } };
}

impl Peer {
    /// The peer at these digits.
    pub fn new(digits: Digits) -> Peer
        ensures { result ≡ digits }
    {
        Peer { digits }
    }

    /// Its digits.
    pub fn digits(&self) -> &Digits
        ensures { result.now ≡ self.now }
    {
        &self.digits
    }
}

/// Writes the digits as their text.
impl fmt::Display for Peer {
    ghost output = { λ digits. Some (text_of digits) };

    ghost styled_output = { λ digits spec. Some (padded spec (text_of digits)) };

    fn fmt<W: fmt::Write>(&self, f: &mut fmt::Formatter<W>) -> fmt::Result {
        self.digits.fmt(f)
    }
}
