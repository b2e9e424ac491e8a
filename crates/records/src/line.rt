//! One line of a records file.

ghost use Rattle.std.specs.Prelude.{◌≡◌, ◌&&◌, is_some, IfOk};
ghost use Rattle.hlr_types.specs.Digits.{AreSomeDigits};
ghost use Rattle.texts.specs.Lines.{parts};
ghost use Rattle.records.specs.Reading.{record_of, record_after, subscriber_from, version_in, header_in};

use crate::codes::codes_field;
use crate::cut_digits::cut_digits;
use crate::fields::{register_field, roam_field, withdrawn_field};
use crate::numbers::{are_octets, register_numbers};
use crate::record::Record;
use crate::version::Version;
use hlr_types::{Digits, Imsi, IsdnAddress, Register};
use std::alloc::{AllocError, Global};
use texts::cut;

/// The length of `HLR1 ` in octets.
const MARK_LEN: usize = 5;

/// The version of the file, and the HLR number.
#[tactic(auto, unfolding(crate::specs::Reading::header_in))]
pub fn read_header(line: &[u8]) -> Option<(Version, IsdnAddress)>
    ensures { result ≡ header_in line.now }
{
    if line.len() < MARK_LEN {
        return None;
    }
    let (mark, number) = line.split_at(MARK_LEN);
    let version = version_of(mark)?;
    let hlr = Digits::from_text(number)?;
    Some((version, IsdnAddress::new(hlr)))
}

fn version_of(mark: &[u8]) -> Option<Version>
    ensures { result ≡ version_in mark.now }
{
    if mark == b"HLR1 ".as_slice() {
        return Some(Version::One);
    }
    if mark == b"HLR2 ".as_slice() {
        return Some(Version::Two);
    }
    None
}

/// The fields that each version has.
#[derive(Clone, Copy)]
struct Fields<'a> {
    imsi: Digits,
    msisdn: Digits,
    codes: &'a [u8],
    roam: &'a [u8],
    register: &'a [u8],
}

/// The record of a line. `None` if the line does not have its version's form.
#[tactic(auto, using(crate::proofs::DigitParts::record_laws))]
pub fn read_record(
    alloc: Global,
    version: Version,
    line: &[u8],
) -> Result<Option<Record>, AllocError>
    ensures { IfOk result (λ read. read ≡ record_of version (parts 32 line.now)) }
{
    let Some((imsi, rest)) = cut_digits(line, b' ') else {
        return Ok(None);
    };
    let Some((msisdn, rest)) = cut_digits(rest, b' ') else {
        return Ok(None);
    };
    record_behind(alloc, version, imsi, msisdn, rest)
}

/// The record of these numbers, of which the other fields are left to read.
#[tactic(auto, using(crate::proofs::DigitParts::fields_laws), unfolding(crate::specs::Reading::record_after))]
fn record_behind(
    alloc: Global,
    version: Version,
    imsi: Digits,
    msisdn: Digits,
    left: &[u8],
) -> Result<Option<Record>, AllocError>
    requires imsi { AreSomeDigits imsi }
    requires msisdn { AreSomeDigits msisdn }
    ensures { IfOk result (λ read. read ≡ record_after version imsi msisdn (parts 32 left.now)) }
{
    let (codes, Some(rest)) = cut(left, b' ') else {
        return Ok(None);
    };
    let (roam, Some(rest)) = cut(rest, b' ') else {
        return Ok(None);
    };
    let (register, rest) = cut(rest, b' ');
    let fields = Fields {
        imsi,
        msisdn,
        codes,
        roam,
        register,
    };
    match (version, rest) {
        (Version::One, None) => record_from(alloc, fields, false),
        (Version::Two, Some(rest)) => {
            let (mark, None) = cut(rest, b' ') else {
                return Ok(None);
            };
            let Some(withdrawn) = withdrawn_field(mark) else {
                return Ok(None);
            };
            record_from(alloc, fields, withdrawn)
        }
        _ => Ok(None),
    }
}

#[tactic(auto, unfolding(crate::specs::Reading::subscriber_from))]
fn record_from(alloc: Global, fields: Fields, withdrawn: bool) -> Result<Option<Record>, AllocError>
    requires imsi { AreSomeDigits fields.imsi }
    requires msisdn { AreSomeDigits fields.msisdn }
    ensures { IfOk result
        (λ read. read ≡ subscriber_from fields.entry.imsi fields.entry.msisdn
        fields.entry.codes.now fields.entry.roam.now fields.entry.register.now withdrawn) }
{
    let Ok(imsi) = Imsi::from_digits(fields.imsi) else {
        return Ok(None);
    };
    let Some(codes) = codes_field(fields.codes) else {
        return Ok(None);
    };
    let Some(roam) = roam_field(alloc, fields.roam)? else {
        return Ok(None);
    };
    let Some((register, purged)) = register_field(fields.register) else {
        return Ok(None);
    };
    if has_stayed(withdrawn, &register) {
        return Ok(None);
    }
    are_octets(codes.as_slice());
    register_numbers(&register);
    Ok(Some(Record {
        imsi,
        msisdn: IsdnAddress::new(fields.msisdn),
        codes,
        roam,
        register,
        purged,
        current: None,
        withdrawn,
    }))
}

/// Whether the subscriber is withdrawn but still has a register.
fn has_stayed(withdrawn: bool, register: &Option<Register>) -> bool
    ensures { result ≡ (withdrawn && is_some register.now) }
{
    withdrawn && register.is_some()
}
