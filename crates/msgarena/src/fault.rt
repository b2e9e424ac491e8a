//! Why a round fails.

use crate::indication::Indication;
use std::alloc::AllocError;
use thiserror::Error;

/// Why a round fails. The arena's contents are then unspecified: the caller makes a new arena.
#[derive(Debug, Drop, Error)]
pub enum RoundFault {
    /// An allocation failed.
    #[error("out of memory")]
    Memory,
    /// The arena could not be reset. The frame was decoded, and this is its indication.
    #[error("the arena could not be reset")]
    ResetRefused(Indication),
}

impl From<AllocError> for RoundFault {
    ghost use Rattle.std.specs.Prelude.{◌≡◌};
    ghost use Rattle.msgarena.specs.declared.fault.RoundFault.TheVariants.{Memory};

    ghost from_gives = { λ _ fault. fault ≡ Memory };

    fn from(_refused: AllocError) -> RoundFault {
        RoundFault::Memory
    }
}
