//! A whole file, up to a limit.

ghost use Rattle.std.specs.Prelude.{◌≡◌, ◌≤◌, vec_len, IfOk, IfSome};

use std::alloc::Global;
use std::io::{Error, ErrorKind, Read};

/// How many octets a file may have (profile).
pub const MAX_FILE_OCTETS: usize = 16_777_216;

/// Why a file was not read.
#[derive(Clone, Copy, PartialEq, Eq, Drop)]
pub enum InputFault {
    /// A read failed, or the file is longer than the limit.
    Unreadable,
    /// Out of memory.
    Memory,
}

/// Every failure of a reader but want of memory counts as a file that cannot be read.
impl From<Error> for InputFault {
    ghost use Rattle.std.specs.Prelude.{◌≡◌};
    ghost use Rattle.std.specs.IoError.{error_kind};
    ghost use Rattle.std.specs.declared.io.ErrorKind.TheVariants.{OutOfMemory};
    ghost use Rattle.hlr_input.specs.declared.input.InputFault.TheVariants.{Unreadable, Memory};

    ghost from_gives = { λ error fault. (error_kind error ≡ OutOfMemory → fault ≡ Memory)
        × ((error_kind error ≡ OutOfMemory → ⊥) → fault ≡ Unreadable) };

    fn from(error: Error) -> InputFault {
        if error.kind() == ErrorKind::OutOfMemory {
            InputFault::Memory
        } else {
            InputFault::Unreadable
        }
    }
}

/// Reads a reader to its end. A read that a signal interrupts is repeated.
pub fn read_all<R: Read>(alloc: Global, reader: &mut R) -> Result<Vec<u8>, InputFault>
    ensures most { IfOk result (λ text. vec_len text ≤ MAX_FILE_OCTETS) }
    ensures whole { IfOk result (λ text. IfSome (R.remaining reader.old)
        (λ all. text.items ≡ all)) }
{
    let mut text = Vec::new(alloc);
    reader
        .take(MAX_FILE_OCTETS as u64 + 1)
        .read_to_end(&mut text)?;
    if text.len() > MAX_FILE_OCTETS {
        return Err(InputFault::Unreadable);
    }
    Ok(text)
}
