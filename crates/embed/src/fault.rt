//! Why a text was not written into a caller's buffer, why a log was not replayed, and why a register was not restored.

ghost use Rattle.std.specs.Prelude.{◌≡◌};

use records::RecordsFault;
use restoring::ImageFault;
use std::alloc::AllocError;
use thiserror::Error;
use wholenode::Cause;

/// Why a text was not written into a caller's buffer.
#[derive(Clone, Copy, Debug, PartialEq, Eq, Drop, Error)]
pub enum BufferFault {
    /// The buffer has fewer octets than the text, which has this many.
    #[error("the text has {0} octets")]
    Small(usize),
    /// Out of memory.
    #[error("out of memory")]
    Memory,
}

impl From<AllocError> for BufferFault {
    ghost use Rattle.std.specs.Prelude.{◌≡◌};
    ghost use Rattle.embed.specs.declared.fault.BufferFault.TheVariants.{Memory};

    ghost from_gives = { λ _ fault. fault ≡ Memory };

    fn from(_refused: AllocError) -> BufferFault {
        BufferFault::Memory
    }
}

/// Why a line of a log was not done.
#[derive(Clone, Copy, Debug, PartialEq, Eq, Drop, Error)]
pub enum LineFault {
    /// It has no event and no clock value.
    #[error("it is not a line of a log")]
    NotALine,
    /// The register refused it, or memory ran out.
    #[error("{0}")]
    Refused(Cause),
}

/// A log that was not replayed to its end: the lines before this one are done.
#[derive(Clone, Copy, Debug, PartialEq, Eq, Drop, Error)]
#[error("line {line}: {why}")]
pub struct ReplayFault {
    /// The octets of the lines that are done.
    pub used: usize,
    /// The number of the line that is not, from 1.
    pub line: u64,
    pub why: LineFault,
}

impl From<AllocError> for LineFault {
    ghost use Rattle.std.specs.Prelude.{◌≡◌};
    ghost use Rattle.embed.specs.declared.fault.LineFault.TheVariants.{Refused};
    ghost use Rattle.wholenode.specs.declared.fault.Cause.TheVariants as cause;

    ghost from_gives = { λ _ fault. fault ≡ Refused cause.Memory };

    fn from(_refused: AllocError) -> LineFault {
        LineFault::Refused(Cause::Memory)
    }
}

impl From<Cause> for LineFault {
    ghost use Rattle.std.specs.Prelude.{◌≡◌};
    ghost use Rattle.embed.specs.declared.fault.LineFault.TheVariants.{Refused};

    ghost from_gives = { λ cause fault. fault ≡ Refused cause };

    fn from(cause: Cause) -> LineFault {
        LineFault::Refused(cause)
    }
}

/// Why a register was not restored.
#[derive(Clone, Copy, Debug, PartialEq, Eq, Drop, Error)]
pub enum RestoreFault {
    /// The first fault of the records file; or out of memory.
    #[error("{0}")]
    Records(RecordsFault),
    /// The first fault of the image; or out of memory.
    #[error("{0}")]
    Image(ImageFault),
}

impl From<RecordsFault> for RestoreFault {
    ghost use Rattle.std.specs.Prelude.{◌≡◌};
    ghost use Rattle.embed.specs.declared.fault.RestoreFault.TheVariants.{Records};

    ghost from_gives = { λ why fault. fault ≡ Records why };

    fn from(why: RecordsFault) -> RestoreFault {
        RestoreFault::Records(why)
    }
}

impl From<ImageFault> for RestoreFault {
    ghost use Rattle.std.specs.Prelude.{◌≡◌};
    ghost use Rattle.embed.specs.declared.fault.RestoreFault.TheVariants.{Image};

    ghost from_gives = { λ why fault. fault ≡ Image why };

    fn from(why: ImageFault) -> RestoreFault {
        RestoreFault::Image(why)
    }
}
