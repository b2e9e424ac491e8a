//! Faults that end a run early.

use hlr_input::WordsFault;
use records::RecordsFault;
use std::alloc::{AllocError, AllocFailed};
use std::error::Error;
use std::fmt;
use workers::SharedFault;

/// Why a run ends: one line on standard error, and a status.
#[derive(Clone, Copy, PartialEq, Eq, Debug, Drop)]
pub enum Fault {
    /// The words are no command line that the program serves.
    CommandLine,
    UnreadableRecords,
    /// The number of the first line of the records file that does not have its form.
    BadRecord(u64),
    /// The number of the first line of the records file whose IMSI or MSISDN is also on an earlier one.
    TwiceRecord(u64),
    UnreadableScript,
    /// The number of the first line of the script that has none of the forms, or that has a letter without an id in its batch.
    BadLine(u64),
    /// A change that has to open a dialogue met a full shard.
    NoRoom,
    Memory,
    /// The number of a job whose receipt or journal entry is missing or wrong.
    Unaccounted(u64),
    Output,
}

/// The line on standard error. Its text is promised, so it is written here: no clause speaks of a derive's text.
impl fmt::Display for Fault {
    ghost use Rattle.std.specs.Prelude.{Some};
    ghost use Rattle.hlr_program.specs.Statuses.{message_of};

    ghost output = { λ fault. Some (message_of fault) };

    fn fmt<W: fmt::Write>(&self, f: &mut fmt::Formatter<W>) -> fmt::Result {
        match self {
            Fault::CommandLine => write!(f, "hlr: command line"),
            Fault::UnreadableRecords => write!(f, "hlr: cannot read records"),
            Fault::BadRecord(line) => write!(f, "hlr: records line {line}"),
            Fault::TwiceRecord(line) => write!(f, "hlr: records line {line} twice"),
            Fault::UnreadableScript => write!(f, "hlr: cannot read script"),
            Fault::BadLine(line) => write!(f, "hlr: script line {line}"),
            Fault::NoRoom => write!(f, "hlr: no room"),
            Fault::Memory => write!(f, "hlr: memory"),
            Fault::Unaccounted(job) => write!(f, "hlr: unaccounted job {job}"),
            Fault::Output => write!(f, "hlr: output"),
        }
    }
}

impl Error for Fault {}

impl Fault {
    ghost use Rattle.std.specs.Prelude.{◌≡◌};
    ghost use Rattle.hlr_program.specs.Statuses.{closing_fault, status_of};

    /// The status that the program ends with.
    pub fn status(self) -> u8
        ensures { result ≡ status_of self }
    {
        match self {
            Fault::Memory => 2,
            Fault::Unaccounted(_) => 3,
            _ => 1,
        }
    }

    /// The fault if workers' shards are not returned. No event is handled then, so no room is needed.
    pub fn at_close(fault: SharedFault) -> Fault
        ensures { result ≡ closing_fault fault }
    {
        match fault {
            SharedFault::Memory => Fault::Memory,
            SharedFault::NoRoom => Fault::Unaccounted(0),
            SharedFault::Unaccounted(number) => Fault::Unaccounted(number),
        }
    }
}

impl From<AllocError> for Fault {
    ghost use Rattle.std.specs.Prelude.{◌≡◌};
    ghost use Rattle.hlr_program.specs.declared.fault.Fault.TheVariants.{Memory};

    ghost from_gives = { λ _ fault. fault ≡ Memory };

    fn from(_: AllocError) -> Fault {
        Fault::Memory
    }
}

impl<T: Drop> From<AllocFailed<T>> for Fault {
    ghost use Rattle.std.specs.Prelude.{◌≡◌};
    ghost use Rattle.hlr_program.specs.declared.fault.Fault.TheVariants.{Memory};

    ghost from_gives = { λ _ fault. fault ≡ Memory };

    fn from(_: AllocFailed<T>) -> Fault {
        Fault::Memory
    }
}

impl From<WordsFault> for Fault {
    ghost use Rattle.std.specs.Prelude.{◌≡◌};
    ghost use Rattle.hlr_program.specs.Statuses.{words_fault};

    ghost from_gives = { λ fault given. given ≡ words_fault fault };

    fn from(fault: WordsFault) -> Fault {
        match fault {
            WordsFault::Line => Fault::CommandLine,
            WordsFault::Memory => Fault::Memory,
        }
    }
}

impl From<RecordsFault> for Fault {
    ghost use Rattle.std.specs.Prelude.{◌≡◌};
    ghost use Rattle.hlr_program.specs.Statuses.{records_fault};

    ghost from_gives = { λ fault given. given ≡ records_fault fault };

    fn from(fault: RecordsFault) -> Fault {
        match fault {
            RecordsFault::BadLine(line) => Fault::BadRecord(line),
            RecordsFault::Twice(line) => Fault::TwiceRecord(line),
            RecordsFault::Memory => Fault::Memory,
        }
    }
}

impl From<SharedFault> for Fault {
    ghost use Rattle.std.specs.Prelude.{◌≡◌};
    ghost use Rattle.hlr_program.specs.Statuses.{shared_fault};

    ghost from_gives = { λ fault given. given ≡ shared_fault fault };

    fn from(fault: SharedFault) -> Fault {
        match fault {
            SharedFault::Memory => Fault::Memory,
            SharedFault::NoRoom => Fault::NoRoom,
            SharedFault::Unaccounted(job) => Fault::Unaccounted(job),
        }
    }
}
