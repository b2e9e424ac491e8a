//! Where the local ids of a start begin.

ghost use Rattle.std.specs.Prelude.{◌≡◌, ◌<◌};
ghost use Rattle.hlrcore.specs.Ids.{first_generation as generation_before};

/// The generation after which the ids of a start begin, in each slot.
pub(crate) fn first_generation(start: u32) -> u16
    ensures value { result ≡ generation_before start }
    ensures small { result < 4096 }
{
    (u64::from(start) * 2531 % 4095) as u16
}
