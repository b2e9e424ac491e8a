//! The numbers that C is answered.

ghost use Rattle.std.specs.Prelude.{◌≡◌};
ghost use Rattle.kunchrol.specs.Refusals.{code_of, code_of_file, line_of_file};

use records::RecordsFault;
use wholenode::Cause;

/// It was done.
pub const OK: u32 = 0;

/// No frame waits.
pub const NONE: u32 = 1;

/// The buffer is too small.
pub const SMALL: u32 = 2;

/// Digits, codes, a shard or a clock value are not of their form.
pub const ARGUMENT: u32 = 3;

/// The handle has no register.
pub const CLOSED: u32 = 4;

/// The handle has a register.
pub const OPEN: u32 = 5;

/// The journal of the shard is full.
pub const JOURNAL: u32 = 6;

/// As many dialogues are open as may be.
pub const NO_ROOM: u32 = 7;

/// Out of memory.
pub const MEMORY: u32 = 8;

/// A line of the records file is not of its form.
pub const LINE: u32 = 9;

/// The IMSI or MSISDN of a line stands on an earlier line.
pub const TWICE: u32 = 10;

/// A line of an image is not of its form, or cannot follow those before it.
pub const IMAGE_LINE: u32 = 11;

/// An image ends before all shards are whole.
pub const IMAGE_SHORT: u32 = 12;

/// Why an event was not handled.
pub fn code_of_cause(cause: Cause) -> u32
    ensures { result ≡ code_of cause }
{
    match cause {
        Cause::JournalFull => JOURNAL,
        Cause::NoRoom => NO_ROOM,
        Cause::Memory | Cause::ResetRefused => MEMORY,
    }
}

/// Why a text was not read as a records file.
pub fn code_of_records(fault: RecordsFault) -> u32
    ensures { result ≡ code_of_file fault }
{
    match fault {
        RecordsFault::BadLine(_) => LINE,
        RecordsFault::Twice(_) => TWICE,
        RecordsFault::Memory => MEMORY,
    }
}

/// The line of a fault in a records file, from 1; 0 if memory ran out.
pub fn line_of(fault: RecordsFault) -> u64
    ensures { result ≡ line_of_file fault }
{
    match fault {
        RecordsFault::BadLine(line) | RecordsFault::Twice(line) => line,
        RecordsFault::Memory => 0,
    }
}
