//! The command line's options, and its faults.

ghost use Rattle.std.specs.Prelude.{◌≡◌, ◌≤◌, IfSome};
ghost use Rattle.hlr_input.specs.CommandLine.{workers_of};

use clap::Error;
use clap::error::ErrorKind;
use std::alloc::AllocError;

/// What the words ask for.
#[derive(Drop)]
pub struct Options {
    /// The path of the records file.
    pub records: String,
    /// The path of the script.
    pub script: String,
    /// The number of worker threads, at most 16; 0 for one thread and no lock.
    pub workers: u8,
    /// Whether records, dialogues and journals are printed at the end.
    pub list: bool,
    /// Whether the records are printed as a records file at the very end.
    pub save: bool,
    ghost few_workers: { workers ≤ 16 },
}

/// Why the words were not read.
#[derive(Clone, Copy, PartialEq, Eq, Drop)]
pub enum WordsFault {
    /// The words are no command line of the program.
    Line,
    Memory,
}

impl From<AllocError> for WordsFault {
    ghost use Rattle.std.specs.Prelude.{◌≡◌};
    ghost use Rattle.hlr_input.specs.declared.options.WordsFault.TheVariants.{Memory};

    ghost from_gives = { λ _ fault. fault ≡ Memory };

    fn from(_: AllocError) -> WordsFault {
        WordsFault::Memory
    }
}

/// Every answer of `clap` other than a match, help and version included, counts as no command line.
impl From<Error> for WordsFault {
    ghost use Rattle.std.specs.Prelude.{◌≡◌};
    ghost use Rattle.clap.specs.Words.{kind_of};
    ghost use Rattle.clap.specs.declared.error.kind.ErrorKind.TheVariants.{OutOfMemory};
    ghost use Rattle.hlr_input.specs.declared.options.WordsFault.TheVariants.{Line, Memory};

    ghost from_gives = { λ error fault. (kind_of error ≡ OutOfMemory → fault ≡ Memory)
        × ((kind_of error ≡ OutOfMemory → ⊥) → fault ≡ Line) };

    fn from(error: Error) -> WordsFault {
        if error.kind() == ErrorKind::OutOfMemory {
            WordsFault::Memory
        } else {
            WordsFault::Line
        }
    }
}

/// A number of workers, 0 to 16, in decimal without sign or leading zero.
pub(crate) fn workers_in(text: &[u8]) -> Option<u8>
    ensures few { IfSome result (λ workers. workers ≤ 16) }
    ensures value { result ≡ workers_of text.now }
{
    match text {
        [digit @ b'0'..=b'9'] => Some(*digit - b'0'),
        [b'1', digit @ b'0'..=b'6'] => Some(10 + (*digit - b'0')),
        _ => None,
    }
}
