//! Why a step was not taken.

ghost use Rattle.std.specs.Prelude.{◌≡◌};

use std::alloc::{AllocError, AllocFailed};
use thiserror::Error;

/// Why a step was not taken.
#[derive(Clone, Copy, Debug, PartialEq, Eq, Drop, Error)]
pub enum StepFault {
    /// The event is for another shard.
    #[error("the event is for another shard")]
    NotMine,
    /// An operator's change would open a dialogue, and the shard is full: 4,096 dialogues are open.
    #[error("the shard is full: 4,096 dialogues are open")]
    NoRoom,
    /// Out of memory.
    #[error("out of memory")]
    Memory,
}

impl From<AllocError> for StepFault {
    ghost use Rattle.std.specs.Prelude.{◌≡◌};
    ghost use Rattle.hlrcore.specs.declared.fault.StepFault.TheVariants.{Memory};

    ghost from_gives = { λ _ fault. fault ≡ Memory };

    fn from(_refused: AllocError) -> StepFault {
        StepFault::Memory
    }
}

impl<T: Drop> From<AllocFailed<T>> for StepFault {
    ghost use Rattle.std.specs.Prelude.{◌≡◌};
    ghost use Rattle.hlrcore.specs.declared.fault.StepFault.TheVariants.{Memory};

    ghost from_gives = { λ _ fault. fault ≡ Memory };

    fn from(_refused: AllocFailed<T>) -> StepFault {
        StepFault::Memory
    }
}
