//! Why an operation was not invoked.

use std::alloc::AllocError;
use thiserror::Error;

/// Why an operation was not invoked.
#[derive(Clone, Copy, Debug, PartialEq, Eq, Drop, Error)]
pub enum CslFault {
    /// The invoke id is in use: in Operation Sent or Wait for Reject.
    #[error("invoke id in use")]
    IdInUse,
    /// Out of memory.
    #[error("out of memory")]
    Memory,
}

impl From<AllocError> for CslFault {
    ghost use Rattle.std.specs.Prelude.{◌≡◌};
    ghost use Rattle.csl.specs.declared.fault.CslFault.TheVariants.{Memory};

    ghost from_gives = { λ _ fault. fault ≡ Memory };

    fn from(_refused: AllocError) -> CslFault {
        CslFault::Memory
    }
}
