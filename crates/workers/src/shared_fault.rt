//! Why a register that workers share cannot go on.

use crate::swapped::Swapped;
use receipts::Unaccounted;
use std::alloc::{AllocError, AllocFailed};
use thiserror::Error;

/// Why a register that workers share cannot go on. It must not be used after a fault.
#[derive(Clone, Copy, Debug, PartialEq, Eq, Drop, Error)]
pub enum SharedFault {
    /// Out of memory: an allocation failed, an arena could not be reset, or there are no more job numbers.
    #[error("out of memory")]
    Memory,
    /// An operator's change would open a dialogue, and the shard is full: 4,096 dialogues are open.
    #[error("the shard is full: 4,096 dialogues are open")]
    NoRoom,
    /// The job with this number is unaccounted for; 0 if an entry is left over, a lock held another shard, or the shards are gone
    /// after an earlier fault.
    #[error("job {0} is unaccounted for")]
    Unaccounted(u64),
}

impl From<AllocError> for SharedFault {
    ghost use Rattle.std.specs.Prelude.{◌≡◌};
    ghost use Rattle.workers.specs.declared.shared_fault.SharedFault.TheVariants.{Memory};

    ghost from_gives = { λ _ fault. fault ≡ Memory };

    fn from(_refused: AllocError) -> SharedFault {
        SharedFault::Memory
    }
}

impl<T: Drop> From<AllocFailed<T>> for SharedFault {
    ghost use Rattle.std.specs.Prelude.{◌≡◌};
    ghost use Rattle.workers.specs.declared.shared_fault.SharedFault.TheVariants.{Memory};

    ghost from_gives = { λ _ fault. fault ≡ Memory };

    fn from(_refused: AllocFailed<T>) -> SharedFault {
        SharedFault::Memory
    }
}

impl From<Swapped> for SharedFault {
    ghost use Rattle.std.specs.Prelude.{◌≡◌};
    ghost use Rattle.workers.specs.declared.shared_fault.SharedFault.TheVariants.{Unaccounted};

    ghost from_gives = { λ _ fault. fault ≡ Unaccounted 0 };

    fn from(_swapped: Swapped) -> SharedFault {
        SharedFault::Unaccounted(0)
    }
}

impl From<Unaccounted> for SharedFault {
    ghost use Rattle.std.specs.Prelude.{◌≡◌};
    ghost use Rattle.workers.specs.declared.shared_fault.SharedFault.TheVariants.{Unaccounted as not_accounted};

    ghost from_gives = { λ left fault. fault ≡ not_accounted left.0 };

    fn from(left: Unaccounted) -> SharedFault {
        SharedFault::Unaccounted(left.0)
    }
}
