//! Why a job has no entry.

use hlrcore::EventFault;
use shardlog::ShardFault;
use thiserror::Error;

/// Why a job has no entry.
#[derive(Clone, Copy, Debug, PartialEq, Eq, Drop, Error)]
pub enum Refusal {
    /// The shard behind the lock has another number.
    #[error("another shard is behind the lock")]
    NotMine,
    /// The journal of the shard is full: it has 65,536 entries.
    #[error("the journal is full")]
    JournalFull,
    /// An operator's change would open a dialogue, and the shard is full: 4,096 dialogues are open.
    #[error("the shard is full: 4,096 dialogues are open")]
    NoRoom,
    /// Out of memory.
    #[error("out of memory")]
    Memory,
    /// The worker's arena could not be reset. The event went to no shard.
    #[error("the arena could not be reset")]
    ResetRefused,
}

impl From<ShardFault> for Refusal {
    ghost use Rattle.std.specs.Prelude.{◌≡◌};
    ghost use Rattle.receipts.specs.Refusals.{refusal_of};

    ghost from_gives = { λ fault refusal. refusal ≡ refusal_of fault };

    fn from(fault: ShardFault) -> Refusal {
        match fault {
            ShardFault::NotMine => Refusal::NotMine,
            ShardFault::JournalFull => Refusal::JournalFull,
            ShardFault::NoRoom => Refusal::NoRoom,
            ShardFault::Memory => Refusal::Memory,
        }
    }
}

impl Refusal {
    ghost use Rattle.std.specs.Prelude.{◌≡◌};
    ghost use Rattle.receipts.specs.Refusals.{unread};

    /// Why the job has no entry whose event was not read.
    pub fn of_unread(fault: &EventFault) -> Refusal
        ensures { result ≡ unread fault.now }
    {
        match fault {
            EventFault::Memory => Refusal::Memory,
            EventFault::ResetRefused(_) => Refusal::ResetRefused,
        }
    }
}
