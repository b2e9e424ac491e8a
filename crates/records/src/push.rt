//! Appends the parts of a line to a text. On error a part of the line may have been appended.

ghost use Rattle.std.specs.Prelude.{◌≡◌, ◌<◌, ◌++◌, ◌∷◌, [], OnOk, string_bytes, slice_index};
ghost use Rattle.std.specs.List.{AllByRecursion, flat_map};
ghost use Rattle.hlr_types.specs.Digits.{AreSomeDigits};
ghost use Rattle.records.specs.Subscriber.{IsRecord};
ghost use Rattle.hex.specs.Hex.{upper_digits};
ghost use Rattle.hlr_types.specs.DigitTexts.{text_of};
ghost use Rattle.records.specs.declared.version.Version.TheVariants.{One, Two};
ghost use Rattle.records.specs.Roam.{prefixes_of};
ghost use Rattle.records.specs.Spelling.{withdrawn_text, purged_text};
ghost use Rattle.records.specs.Written.{code_text, codes_text, roam_text, lmsi_text, register_text, record_line, header_line, following_codes, following_prefixes};

use crate::record::Record;
use crate::roam::Roam;
use crate::version::Version;
use hlr_types::{Digits, Imsi, IsdnAddress, Lmsi, Register};
use std::alloc::AllocError;

/// The upper case hexadecimal digits.
const DIGITS: &[u8; 16] = b"0123456789ABCDEF";

#[tactic(auto, using(crate::proofs::OctetLemmas::upper_ascii))]
fn digit(value: u8) -> u8
    requires { value < 16 }
    ensures value { result ≡ slice_index upper_digits value }
    ensures ascii { result < 128 }
{
    DIGITS[value as usize]
}

fn push_ascii(out: &mut String, character: u8) -> Result<(), AllocError>
    requires { character < 128 }
    ensures { OnOk result (string_bytes out.new ≡ string_bytes out.old ++ character ∷ []) }
{
    out.push(character as char)
}

#[tactic(auto, unfolding(hex::specs::Hex::encode_with))]
fn push_octet(out: &mut String, octet: u8) -> Result<(), AllocError>
    ensures { OnOk result (string_bytes out.new ≡ string_bytes out.old ++ code_text octet) }
{
    push_ascii(out, digit(octet / 16))?;
    push_ascii(out, digit(octet % 16))
}

fn push_octets(out: &mut String, octets: &[u8]) -> Result<(), AllocError>
    ensures { OnOk result (string_bytes out.new
        ≡ string_bytes out.old ++ flat_map code_text octets.now) }
{
    for octet in octets {
        push_octet(out, *octet)?;
    }
    Ok(())
}

fn push_digits(out: &mut String, digits: &Digits) -> Result<(), AllocError>
    ensures { OnOk result (string_bytes out.new ≡ string_bytes out.old ++ text_of digits.now) }
{
    let text = digits.text();
    let Ok(text) = str::from_utf8(text.as_slice()) else {
        unreachable!();
    };
    out.push_str(text)
}

fn push_codes(out: &mut String, codes: &[u8]) -> Result<(), AllocError>
    ensures { OnOk result (string_bytes out.new ≡ string_bytes out.old ++ codes_text codes.now) }
{
    let Some((first, rest)) = codes.split_first() else {
        return out.push_str("-");
    };
    push_octet(out, *first)?;
    push_following_codes(out, rest)?;
    Ok(())
}

fn push_following_codes(out: &mut String, codes: &[u8]) -> Result<(), AllocError>
    ensures { OnOk result (string_bytes out.new
        ≡ string_bytes out.old ++ following_codes codes.now) }
{
    for code in codes {
        out.push_str(",")?;
        push_octet(out, *code)?;
    }
    Ok(())
}

fn push_roam(out: &mut String, roam: &Roam) -> Result<(), AllocError>
    ensures { OnOk result (string_bytes out.new
        ≡ string_bytes out.old ++ roam_text (prefixes_of roam.now)) }
{
    match roam {
        Roam::Everywhere => out.push_str("*"),
        Roam::Within(prefixes) => push_prefixes(out, prefixes.as_slice()),
    }
}

fn push_prefixes(out: &mut String, prefixes: &[Digits]) -> Result<(), AllocError>
    ensures { OnOk result (string_bytes out.new
        ≡ string_bytes out.old ++ roam_text (Some prefixes.now)) }
{
    let Some((first, rest)) = prefixes.split_first() else {
        return Ok(());
    };
    push_digits(out, first)?;
    push_following_prefixes(out, rest)?;
    Ok(())
}

fn push_following_prefixes(out: &mut String, prefixes: &[Digits]) -> Result<(), AllocError>
    ensures { OnOk result (string_bytes out.new
        ≡ string_bytes out.old ++ following_prefixes prefixes.now) }
{
    for prefix in prefixes {
        out.push_str(",")?;
        push_digits(out, prefix)?;
    }
    Ok(())
}

fn push_lmsi(out: &mut String, lmsi: &Option<Lmsi>) -> Result<(), AllocError>
    ensures { OnOk result (string_bytes out.new ≡ string_bytes out.old ++ lmsi_text lmsi.now) }
{
    match lmsi {
        None => out.push_str("-"),
        Some(lmsi) => push_octets(out, lmsi.as_slice()),
    }
}

fn push_register(
    out: &mut String,
    register: &Option<Register>,
    purged: bool,
) -> Result<(), AllocError>
    ensures { OnOk result (string_bytes out.new
        ≡ string_bytes out.old ++ register_text register.now purged) }
{
    let Some(register) = register else {
        return out.push_str("-");
    };
    push_digits(out, register.vlr.digits())?;
    out.push_str(",")?;
    push_digits(out, register.msc.digits())?;
    out.push_str(",")?;
    push_lmsi(out, &register.lmsi)?;
    out.push_str(",")?;
    push_purged(out, purged)
}

fn push_purged(out: &mut String, purged: bool) -> Result<(), AllocError>
    ensures { OnOk result (string_bytes out.new ≡ string_bytes out.old ++ purged_text purged) }
{
    out.push_str(if purged { "p" } else { "s" })
}

fn push_withdrawn(out: &mut String, withdrawn: bool) -> Result<(), AllocError>
    ensures { OnOk result (string_bytes out.new
        ≡ string_bytes out.old ++ withdrawn_text withdrawn) }
{
    out.push_str(if withdrawn { "w" } else { "a" })
}

fn push_identity(out: &mut String, imsi: &Imsi, msisdn: &IsdnAddress) -> Result<(), AllocError>
    ensures { OnOk result (string_bytes out.new
        ≡ string_bytes out.old ++ (text_of imsi.now ++ 32 ∷ text_of msisdn.now)) }
{
    push_digits(out, imsi.digits())?;
    out.push_str(" ")?;
    push_digits(out, msisdn.digits())
}

fn push_data(out: &mut String, codes: &[u8], roam: &Roam) -> Result<(), AllocError>
    ensures { OnOk result (string_bytes out.new
        ≡ string_bytes out.old ++ (codes_text codes.now
        ++ 32 ∷ roam_text (prefixes_of roam.now))) }
{
    push_codes(out, codes)?;
    out.push_str(" ")?;
    push_roam(out, roam)
}

/// The fields of both versions.
fn push_fields(out: &mut String, subscriber: &Record) -> Result<(), AllocError>
    ensures { OnOk result (string_bytes out.new
        ≡ string_bytes out.old ++ record_line One subscriber.now) }
{
    push_identity(out, &subscriber.imsi, &subscriber.msisdn)?;
    out.push_str(" ")?;
    push_data(out, subscriber.codes.as_slice(), &subscriber.roam)?;
    out.push_str(" ")?;
    push_register(out, &subscriber.register, subscriber.purged)?;
    Ok(())
}

/// A record's line, without a line feed.
pub fn push_line(out: &mut String, version: Version, subscriber: &Record) -> Result<(), AllocError>
    ensures { OnOk result (string_bytes out.new
        ≡ string_bytes out.old ++ record_line version subscriber.now) }
{
    push_fields(out, subscriber)?;
    match version {
        Version::One => Ok(()),
        Version::Two => {
            out.push_str(" ")?;
            push_withdrawn(out, subscriber.withdrawn)?;
            Ok(())
        }
    }
}

/// The first line of a file of version 2.
pub fn push_header(out: &mut String, hlr: &IsdnAddress) -> Result<(), AllocError>
    ensures line { OnOk result (string_bytes out.new
        ≡ string_bytes out.old ++ (header_line Two hlr.now ++ 10 ∷ [])) }
    ensures digits { AreSomeDigits hlr.now }
{
    let digits = hlr.digits();
    digits.are_some_digits();
    out.push_str("HLR2 ")?;
    push_digits(out, digits)?;
    out.push_str("\n")
}

/// The line of a record in a file of version 2.
fn push_ended_line(out: &mut String, subscriber: &Record) -> Result<(), AllocError>
    ensures line { OnOk result (string_bytes out.new
        ≡ string_bytes out.old ++ (record_line Two subscriber.now ++ 10 ∷ [])) }
    ensures facts { IsRecord subscriber.now }
{
    let _facts = &subscriber.codes;
    push_line(out, Version::Two, subscriber)?;
    out.push_str("\n")
}

/// The lines of records in a file of version 2.
pub fn push_lines(out: &mut String, subscribers: &[&Record]) -> Result<(), AllocError>
    ensures lines { OnOk result (string_bytes out.new
        ≡ string_bytes out.old ++ flat_map
        (λ s. record_line Two s.now ++ 10 ∷ []) subscribers.now) }
    ensures facts { OnOk result (AllByRecursion (λ s. IsRecord s.now) subscribers.now) }
{
    for subscriber in subscribers {
        push_ended_line(out, subscriber)?;
    }
    Ok(())
}
