//! The number of a shard.

ghost use Rattle.std.specs.Prelude.{◌≡◌, ◌<◌, ◌≤◌, IfSome, IfNone};

use std::marker::Model;

/// The number of a shard, 0 to 15.
#[derive(Clone, Copy, Debug, PartialEq, Eq)]
pub struct ShardNumber {
    number: u8,
}

impl Model for ShardNumber {
    ghost use Rattle.std.specs.Prelude.{ℕ, ◌<◌};

    ghost Value = { ℕ };

    ghost view = { λ s. s.number };

    ghost invariant = { λ s. s.number < 16 };

    ghost inverse = { λ v. record { number = v } };
}

impl ShardNumber {
    /// The shard of this number, if there is one.
    pub fn new(number: u8) -> Option<ShardNumber>
        ensures found { IfSome result (λ shard. shard ≡ number) }
        ensures none { IfNone result (16 ≤ number) }
    {
        if number < 16 {
            Some(ShardNumber { number })
        } else {
            None
        }
    }

    /// Its number.
    pub fn number(self) -> u8
        ensures value { result ≡ self }
        ensures small { result < 16 }
    {
        self.number
    }
}
