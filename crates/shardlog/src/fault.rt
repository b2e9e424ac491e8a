//! Why an event was not handled.

use hlrcore::StepFault;
use std::alloc::{AllocError, AllocFailed};
use thiserror::Error;

/// Why an event was not handled.
#[derive(Clone, Copy, Debug, PartialEq, Eq, Drop, Error)]
pub enum ShardFault {
    /// The event is for another shard.
    #[error("the event is for another shard")]
    NotMine,
    /// The journal is full: it has 65,536 entries.
    #[error("the journal is full")]
    JournalFull,
    /// An operator's change would open a dialogue, and the shard is full: 4,096 dialogues are open.
    #[error("the shard is full: 4,096 dialogues are open")]
    NoRoom,
    /// Out of memory.
    #[error("out of memory")]
    Memory,
}

impl From<StepFault> for ShardFault {
    ghost use Rattle.std.specs.Prelude.{◌≡◌};
    ghost use Rattle.shardlog.specs.Faults.{fault_of};

    ghost from_gives = { λ fault given. given ≡ fault_of fault };

    fn from(fault: StepFault) -> ShardFault {
        match fault {
            StepFault::NotMine => ShardFault::NotMine,
            StepFault::NoRoom => ShardFault::NoRoom,
            StepFault::Memory => ShardFault::Memory,
        }
    }
}

impl From<AllocError> for ShardFault {
    ghost use Rattle.std.specs.Prelude.{◌≡◌};
    ghost use Rattle.shardlog.specs.declared.fault.ShardFault.TheVariants.{Memory};

    ghost from_gives = { λ _ fault. fault ≡ Memory };

    fn from(_refused: AllocError) -> ShardFault {
        ShardFault::Memory
    }
}

impl<T: Drop> From<AllocFailed<T>> for ShardFault {
    ghost use Rattle.std.specs.Prelude.{◌≡◌};
    ghost use Rattle.shardlog.specs.declared.fault.ShardFault.TheVariants.{Memory};

    ghost from_gives = { λ _ fault. fault ≡ Memory };

    fn from(_refused: AllocFailed<T>) -> ShardFault {
        ShardFault::Memory
    }
}
