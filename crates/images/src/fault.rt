//! Why an image was not read.

ghost use Rattle.std.specs.Prelude.{◌≡◌};

use std::alloc::AllocError;
use thiserror::Error;

/// Why an image was not read.
#[derive(Clone, Copy, PartialEq, Eq, Debug, Drop, Error)]
pub enum ImageFault {
    /// The first line with a fault, counted from 1: it does not have the form of a line, or it cannot follow those before it.
    #[error("image line {0}")]
    Line(u64),
    /// The text ends too early: a shard is not whole, or there are more shards.
    #[error("image ends early")]
    CutShort,
    /// Out of memory.
    #[error("memory")]
    Memory,
}

impl From<AllocError> for ImageFault {
    ghost use Rattle.std.specs.Prelude.{◌≡◌};
    ghost use Rattle.images.specs.declared.fault.ImageFault.TheVariants.{Memory};

    ghost from_gives = { λ _ fault. fault ≡ Memory };

    fn from(_: AllocError) -> ImageFault {
        ImageFault::Memory
    }
}
