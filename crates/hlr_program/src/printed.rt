//! The lines that are printed.

ghost use Rattle.std.specs.Prelude.{◌≡◌, ◌++◌, ◌∷◌, [], IfErr, OnOk};
ghost use Rattle.std.specs.Io.KnownBytes.{Appends};
ghost use Rattle.hlr_program.specs.Printed.{WritesFront, sent_line};
ghost use Rattle.hlr_program.specs.Statuses.{message_of};

use crate::fault::Fault;
use crate::octet_digits::push_digits;
use arrayvec::ArrayString;
use hlrcore::Out;
use std::alloc::AllocError;
use std::fmt::Write as _;
use std::io::{ErrorKind, Write};

/// A buffer for the longest fault line: the words around a number of 20 digits.
const MAX_TOLD: usize = 64;

/// Prints a text. If the writer fails, a prefix of the text was written.
pub fn print<W: Write>(text: &[u8], out: &mut W) -> Result<(), Fault>
    ensures printed { OnOk result (Appends (W.contents out.old) (W.contents out.new) text.now) }
    ensures front { WritesFront (W.contents out.old) text.now (W.contents out.new) }
    ensures failed { IfErr result (λ fault. fault ≡ Fault.Output) }
{
    let mut rest = text;
    for _ in 0..u64::MAX {
        if rest.is_empty() {
            return Ok(());
        }
        match out.write(rest) {
            Ok(0) => return Err(Fault::Output),
            Ok(count) => rest = &rest[count..],
            Err(error) if error.kind() == ErrorKind::Interrupted => {}
            Err(_) => return Err(Fault::Output),
        }
    }
    Err(Fault::Output)
}

/// Prints why a run ends, on one line. Does not allocate, so that running out of memory can be reported too.
pub fn tell<W: Write>(fault: Fault, err: &mut W)
    ensures { WritesFront (W.contents err.old) (message_of fault ++ 10 ∷ []) (W.contents err.new) }
{
    let mut line = ArrayString::<MAX_TOLD>::new();
    if let Ok(()) = writeln!(line, "{fault}") {
        let _ = print(line.as_str().as_bytes(), err);
    }
}

/// Appends the line of a sent frame: `S`, the address, and the octets in upper case.
pub fn push_sent(text: &mut Vec<u8>, sent: &Out) -> Result<(), AllocError>
    ensures { OnOk result (text.new.items
        ≡ text.old.items ++ sent_line sent.now.to sent.now.octets.items) }
{
    text.extend_from_slice(b"S ")?;
    text.extend_from_slice(sent.to.digits().text().as_slice())?;
    text.push(b' ')?;
    push_digits(text, sent.octets.as_slice())?;
    text.push(b'\n')?;
    Ok(())
}
