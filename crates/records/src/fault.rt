//! Why a records file was not read.

ghost use Rattle.std.specs.Prelude.{◌≡◌};

use std::alloc::AllocError;
use thiserror::Error;

/// The first fault of a records file. Lines count from 1.
#[derive(Clone, Copy, PartialEq, Eq, Debug, Drop, Error)]
pub enum RecordsFault {
    /// The line does not have its form.
    #[error("records line {0}")]
    BadLine(u64),
    /// The line's IMSI or MSISDN is also on an earlier line.
    #[error("records line {0} twice")]
    Twice(u64),
    /// Out of memory.
    #[error("memory")]
    Memory,
}

impl From<AllocError> for RecordsFault {
    ghost use Rattle.std.specs.Prelude.{◌≡◌};
    ghost use Rattle.records.specs.declared.fault.RecordsFault.TheVariants.{Memory};

    ghost from_gives = { λ _ fault. fault ≡ Memory };

    fn from(_: AllocError) -> RecordsFault {
        RecordsFault::Memory
    }
}
