//! An invoke id.

ghost use Rattle.std.specs.Prelude.{◌≡◌, FitsSigned};
ghost use Rattle.std.specs.Int.{w8};

use std::marker::Model;

/// An invoke id (Q.773), -128 to 127.
#[derive(Clone, Copy, PartialEq, Eq)]
pub struct InvokeId {
    number: i8,
}

impl Model for InvokeId {
    ghost use Rattle.std.specs.Prelude.{ℤ, FitsSigned};
    ghost use Rattle.std.specs.Int.{w8};

    ghost Value = { ℤ };

    ghost view = { λ i. i.number };

    ghost invariant = { λ i. FitsSigned w8 i.number };

    ghost inverse = { λ v. record { number = v } };
}

impl InvokeId {
    /// The invoke id of this number.
    pub fn new(number: i8) -> InvokeId
        ensures { result ≡ number }
    {
        InvokeId { number }
    }

    /// Its number.
    pub fn number(self) -> i8
        ensures value { result ≡ self }
        ensures fits { FitsSigned w8 result }
    {
        self.number
    }
}
