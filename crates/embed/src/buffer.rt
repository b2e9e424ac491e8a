//! Texts in a caller's buffer.

ghost use Rattle.std.specs.Prelude.{◌≡◌, ◌<◌, ◌≤◌, ℕ, Err, IfErr, IfOk, OnErr, OnOk, length};
ghost use Rattle.records.specs.Written.{record_line};
ghost use Rattle.embed.specs.Buffers.{Writes};

use crate::fault::BufferFault;
use records::{Record, Version, write_line};
use std::alloc::Global;

/// `Small` with the length of the text, if the buffer has fewer octets.
pub(crate) fn check_buffer(buffer: &[u8], text: &[u8]) -> Result<(), BufferFault>
    ensures fits { OnOk result (length text.now ≤ length buffer.now) }
    ensures small { IfErr result (λ fault. (length buffer.now < length text.now)
        × (fault ≡ BufferFault.Small (length text.now))) }
{
    if buffer.len() < text.len() {
        return Err(BufferFault::Small(text.len()));
    }
    Ok(())
}

/// Writes the text at the front of the buffer, and returns its length.
pub(crate) fn write_text(buffer: &mut [u8], text: &[u8]) -> usize
    requires { length text.now ≤ length buffer.old }
    ensures { Writes text.now buffer.old result buffer.new }
{
    let count = text.len();
    buffer[..count].copy_from_slice(text);
    count
}

/// Writes a record at the front of the buffer, as a line of a records file of version 2 without a line feed (`records::write_line`), and
/// returns the number of octets written. On error the buffer is unchanged.
pub fn write_record(alloc: Global, found: &Record, buffer: &mut [u8]) -> Result<usize, BufferFault>
    ensures writes { IfOk result (λ count.
        Writes (record_line Version.Two found.now) buffer.old count buffer.new) }
    ensures small { (n : ℕ) → result ≡ Err (BufferFault.Small n) → (length buffer.old < n)
        × (n ≡ length (record_line Version.Two found.now)) }
    ensures err { OnErr result (buffer.new ≡ buffer.old) }
{
    let line = write_line(alloc, Version::Two, found)?;
    check_buffer(buffer, line.as_bytes())?;
    Ok(write_text(buffer, line.as_bytes()))
}
