//! The shard of a subscriber.

ghost use Rattle.std.specs.Prelude.{◌≡◌, ◌<◌};
ghost use Rattle.records.specs.Maps.{shard_of};

use hlr_types::Imsi;

/// The number made of the last two digits of the IMSI, modulo 16 (profile).
#[tactic(auto, unfolding(crate::specs::Maps::shard_of))]
pub fn shard_of(imsi: &Imsi) -> u8
    ensures value { result ≡ shard_of imsi.now }
    ensures small { result < 16 }
{
    imsi.digits().last_two() % 16
}
