//! Records as lines, and as a file.

ghost use Rattle.std.specs.Prelude.{◌≡◌, map as each, IfOk, string_bytes};
ghost use Rattle.records.specs.Spelling.{IsRecordLine, MayBeWithdrawn};
ghost use Rattle.records.specs.File.{File, AreApart};
ghost use Rattle.records.specs.Subscriber.{unmarked};
ghost use Rattle.records.specs.Written.{record_line, saved_file, saved_contents, SavedIsRead};

use crate::push::{push_header, push_line, push_lines};
use crate::record::Record;
use crate::version::Version;
use hlr_types::IsdnAddress;
use std::alloc::{AllocError, Global};

/// A record's line in a file of this version, without a line feed. Hexadecimal digits are upper case.
///
/// Version 1 has no field for withdrawn: a withdrawn subscriber's line is that of one who is not.
pub fn write_line(
    alloc: Global,
    version: Version,
    subscriber: &Record,
) -> Result<String, AllocError>
    ensures line { IfOk result (λ line. string_bytes line ≡ record_line version subscriber.now) }

    // The line stands for the record without its current update.
    ensures again { MayBeWithdrawn version subscriber.now
        → IfOk result (λ line. IsRecordLine version (string_bytes line) (unmarked subscriber.now)) }
{
    let _facts = &subscriber.codes;
    let mut line = String::new(alloc);
    push_line(&mut line, version, subscriber)?;
    Ok(line)
}

/// Law: what is saved is read again.
#[tactic(auto, using(crate::proofs::SavedLaws::saved_is_read))]
pub fn law_saved_is_read()
    ensures { SavedIsRead }
{}

/// The records file of version 2 with the HLR number and these records, in this order.
///
/// It is read again as the same records, without their current updates, if no two of them share an IMSI or an MSISDN.
pub fn save(alloc: Global, hlr: &IsdnAddress, subscribers: &[&Record]) -> Result<String, AllocError>
    ensures text { IfOk result (λ text.
        string_bytes text ≡ saved_file hlr.now (each (λ s. s.now) subscribers.now)) }
    ensures again { AreApart (each (λ s. s.now) subscribers.now)
        → IfOk result (λ text.
        File (string_bytes text) (saved_contents hlr.now (each (λ s. s.now) subscribers.now))) }
{
    let mut text = String::new(alloc);
    push_header(&mut text, hlr)?;
    push_lines(&mut text, subscribers)?;
    Ok(text)
}
