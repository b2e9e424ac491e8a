//! The other fields of a line.

ghost use Rattle.std.specs.Prelude.{◌≡◌, [], IfOk, option_map};
ghost use Rattle.texts.specs.Lines.{parts};
ghost use Rattle.records.specs.Roam.{prefixes_of};
ghost use Rattle.records.specs.Reading.{lmsi_in, purged_in, withdrawn_in, register_of, register_after, register_in, roam_in, prefixes_after};

use crate::cut_digits::cut_digits;
use crate::roam::Roam;
use hex::FromHex;
use hlr_types::{Digits, IsdnAddress, Lmsi, Register};
use std::alloc::{AllocError, Global};
use texts::cut;

/// How many roaming prefixes a subscriber may have (profile).
const MAX_PREFIXES: usize = 8;

/// Where a subscriber may roam: `*`, or 1 to 8 prefixes, with commas.
#[tactic(auto, unfolding(crate::specs::Reading::roam_in))]
pub fn roam_field(alloc: Global, field: &[u8]) -> Result<Option<Roam>, AllocError>
    ensures { IfOk result (λ read. option_map prefixes_of read ≡ roam_in field.now) }
{
    if field == b"*".as_slice() {
        return Ok(Some(Roam::Everywhere));
    }
    match listed_prefixes(alloc, field)? {
        Some(prefixes) => Ok(Some(Roam::Within(Box::new(alloc, prefixes)?))),
        None => Ok(None),
    }
}

#[tactic(auto, unfolding(crate::specs::Reading::prefixes_after))]
fn listed_prefixes(alloc: Global, field: &[u8]) -> Result<Option<Vec<Digits>>, AllocError>
    ensures { IfOk result (λ read. option_map (λ prefixes. prefixes.items) read
        ≡ prefixes_after [] (parts 44 field.now)) }
{
    let mut prefixes = Vec::new(alloc);
    let mut rest = Some(field);
    while let Some(text) = rest {
        let (part, after) = cut(text, b',');
        let Some(digits) = Digits::from_text(part) else {
            return Ok(None);
        };
        if prefixes.len() >= MAX_PREFIXES {
            return Ok(None);
        }
        prefixes.push(digits)?;
        rest = after;
    }
    Ok(Some(prefixes))
}

/// The serving register, and whether it has purged the subscriber: `-`, or its numbers, its LMSI and a mark.
#[tactic(auto, unfolding(crate::specs::Reading::register_in))]
pub fn register_field(field: &[u8]) -> Option<(Option<Register>, bool)>
    ensures { result ≡ register_in field.now }
{
    if field == b"-".as_slice() {
        return Some((None, false));
    }
    let (register, purged) = listed_register(field)?;
    Some((Some(register), purged))
}

#[tactic(auto, using(crate::proofs::DigitParts::register_laws))]
fn listed_register(field: &[u8]) -> Option<(Register, bool)>
    ensures { result ≡ register_of (parts 44 field.now) }
{
    let Some((vlr, rest)) = cut_digits(field, b',') else {
        return None;
    };
    let Some((msc, rest)) = cut_digits(rest, b',') else {
        return None;
    };
    register_at(IsdnAddress::new(vlr), IsdnAddress::new(msc), rest)
}

/// The register at these numbers, of which the LMSI and the mark are left to read.
#[tactic(auto, using(crate::proofs::DigitParts::register_after_five), unfolding(crate::specs::Reading::register_after))]
fn register_at(vlr: IsdnAddress, msc: IsdnAddress, left: &[u8]) -> Option<(Register, bool)>
    ensures { result ≡ register_after vlr msc (parts 44 left.now) }
{
    let (lmsi, Some(rest)) = cut(left, b',') else {
        return None;
    };
    let (mark, None) = cut(rest, b',') else {
        return None;
    };
    let lmsi = lmsi_field(lmsi)?;
    let purged = purged_field(mark)?;
    Some((Register { vlr, msc, lmsi }, purged))
}

fn lmsi_field(field: &[u8]) -> Option<Option<Lmsi>>
    ensures { result ≡ lmsi_in field.now }
{
    if field == b"-".as_slice() {
        return Some(None);
    }
    let octets = <[u8; 4]>::from_hex(field).ok()?;
    Some(Some(Lmsi(octets)))
}

fn purged_field(field: &[u8]) -> Option<bool>
    ensures { result ≡ purged_in field.now }
{
    if field == b"p".as_slice() {
        return Some(true);
    }
    if field == b"s".as_slice() {
        return Some(false);
    }
    None
}

/// Whether the subscriber is withdrawn.
pub fn withdrawn_field(field: &[u8]) -> Option<bool>
    ensures { result ≡ withdrawn_in field.now }
{
    if field == b"w".as_slice() {
        return Some(true);
    }
    if field == b"a".as_slice() {
        return Some(false);
    }
    None
}
