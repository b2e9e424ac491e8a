//! Why a run stops early.

ghost use Rattle.std.specs.Prelude.{◌≡◌, ◌≢◌};
ghost use Rattle.wholenode.specs.Causes.{unhandled, unread};

use hlrcore::EventFault;
use shardlog::{Handled, ShardFault};
use std::alloc::AllocError;
use thiserror::Error;

/// Why an event was not handled.
#[derive(Clone, Copy, Debug, PartialEq, Eq, Drop, Error)]
pub enum Cause {
    /// Out of memory.
    #[error("out of memory")]
    Memory,
    /// The journal of the event's shard is full: it has 65,536 entries.
    #[error("the journal is full")]
    JournalFull,
    /// The arena could not be reset after a frame.
    #[error("the arena could not be reset")]
    ResetRefused,
    /// An operator's change would open a dialogue, and the shard is full: 4,096 dialogues are open.
    #[error("the shard is full: 4,096 dialogues are open")]
    NoRoom,
}

/// A run that stopped early: the events handled, in order, and why the next one was not.
#[derive(Drop)]
pub struct NodeFault {
    pub done: Vec<Handled>,
    pub cause: Cause,
}

impl From<AllocError> for Cause {
    ghost use Rattle.std.specs.Prelude.{◌≡◌};
    ghost use Rattle.wholenode.specs.declared.fault.Cause.TheVariants.{Memory};

    ghost from_gives = { λ _ cause. cause ≡ Memory };

    fn from(_refused: AllocError) -> Cause {
        Cause::Memory
    }
}

/// Why an event was not read.
pub(crate) fn unread(fault: &EventFault) -> Cause
    ensures { result ≡ unread fault.now }
{
    match fault {
        EventFault::Memory => Cause::Memory,
        EventFault::ResetRefused(_) => Cause::ResetRefused,
    }
}

/// Why an event's shard did not handle it.
pub(crate) fn refusal(fault: ShardFault) -> Cause
    requires { fault ≢ ShardFault.NotMine }
    ensures { result ≡ unhandled fault }
{
    match fault {
        ShardFault::NotMine => unreachable!(),
        ShardFault::JournalFull => Cause::JournalFull,
        ShardFault::NoRoom => Cause::NoRoom,
        ShardFault::Memory => Cause::Memory,
    }
}
