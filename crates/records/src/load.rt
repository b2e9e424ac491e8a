//! The reading of a records file.

ghost use Rattle.std.specs.Prelude.{◌≡◌, ◌⊎◌, ℕ, ◌<◌, ◌≤◌, ◌+◌, ◌^◌, length, IfOk, IfSome, MatchResult, Ok};
ghost use Rattle.texts.specs.Lines.{lines};
ghost use Rattle.records.specs.File.{Contents, File, IsBadLine, IsTwice};
ghost use Rattle.records.specs.Loaded.{loaded_from};
ghost use Rattle.records.specs.Spelling.{Each, IsRecordLine};
ghost use Rattle.records.specs.Reading.{contents_of, below_header, Answers};

use crate::fault::RecordsFault;
use crate::line::{read_header, read_record};
use crate::loaded::{Loaded, Loading};
use crate::record::Record;
use crate::version::Version;
use hlr_types::IsdnAddress;
use std::alloc::{AllocError, Global};
use texts::first_line;

/// The fewest octets that the line of a record has, with its line feed.
const LEAST_LINE: usize = 13;

/// So many line feeds can be counted in one octet.
const MOST_COUNTED: usize = 255;

/// Reads a records file of version 1 or 2: ASCII lines, each ended by a line feed, which the last may lack. The first line is
/// `HLR1 ` or `HLR2 ` and the digits of the HLR number. Every other line is a record, its fields separated by one space:
/// `<imsi> <msisdn> <codes> <roam> <register>`, in version 2 also `<a or w>`.
///
/// - codes: `-`, or 1 to 32 different octets of two hexadecimal digits, with commas.
/// - roam: `*`, or 1 to 8 prefixes of 1 to 16 digits, with commas.
/// - register: `-`, or `<vlr>,<msc>,<lmsi or ->,<s or p>`; the LMSI has eight hexadecimal digits, `p` means purged.
/// - `w` if the subscriber is withdrawn (the register is then `-`), else `a`.
///
/// A line that does not have its form is `BadLine`, as is the first line of an empty file; a line whose IMSI or MSISDN is also
/// on an earlier line is `Twice`. The first line with a fault decides.
pub fn read_records(alloc: Global, text: &[u8]) -> Result<Loaded, RecordsFault>
    // A text that is read is a records file, and what is loaded are its contents.
    ensures found { IfOk result (λ loaded. (contents : Contents)
        × File text.now contents × (loaded ≡ loaded_from contents)) }

    // A records file is read, unless memory runs out.
    ensures only { (contents : Contents) → File text.now contents
        → MatchResult result (λ loaded. loaded ≡ loaded_from contents)
        (λ fault. fault ≡ RecordsFault.Memory) }

    // A fault is the one of the first line with a fault.
    ensures bad_line { (n : ℕ) → result ≡ Err (RecordsFault.BadLine n) → IsBadLine text.now n }
    ensures twice { (n : ℕ) → result ≡ Err (RecordsFault.Twice n) → IsTwice text.now n }

    // The first line with a fault is reported, unless memory runs out.
    ensures at_bad_line { (n : ℕ) → IsBadLine text.now n
        → MatchResult result (λ _. ⊥) (λ fault. (fault ≡ RecordsFault.BadLine n)
        ⊎ (fault ≡ RecordsFault.Memory)) }
    ensures at_twice { (n : ℕ) → IsTwice text.now n
        → MatchResult result (λ _. ⊥) (λ fault. (fault ≡ RecordsFault.Twice n)
        ⊎ (fault ≡ RecordsFault.Memory)) }
{
    load(alloc, text)
}

#[tactic(auto, using(texts::proofs::LinesLemmas::lines_nil), unfolding(crate::specs::Reading::contents_of))]
fn load(alloc: Global, text: &[u8]) -> Result<Loaded, RecordsFault>
    ensures { Answers result (contents_of (lines text.now)) }
{
    if text.len() == 0 {
        return Err(RecordsFault::BadLine(1));
    }
    let (header, below) = first_line(text);
    let Some((version, hlr)) = read_header(header) else {
        return Err(RecordsFault::BadLine(1));
    };
    load_lines(alloc, version, hlr, below)
}

/// What the lines below the header make.
fn load_lines(
    alloc: Global,
    version: Version,
    hlr: IsdnAddress,
    text: &[u8],
) -> Result<Loaded, RecordsFault>
    requires { length text.now + 1 < 2 ^ 64 }
    ensures { Answers result (below_header version hlr (lines text.now)) }
{
    match load_faultless(alloc, version, hlr, text)? {
        Some(loaded) => Ok(loaded),
        None => load_until_fault(alloc, version, hlr, text),
    }
}

/// What the lines make if none has a fault. They are sorted to see that no two records share an IMSI or an MSISDN, since that
/// is far cheaper than to look for each among those before it. Which fault is the first is not known here.
fn load_faultless(
    alloc: Global,
    version: Version,
    hlr: IsdnAddress,
    text: &[u8],
) -> Result<Option<Loaded>, AllocError>
    ensures { IfOk result (λ found. IfSome found
        (λ loaded. Answers (Ok loaded) (below_header version hlr (lines text.now)))) }
{
    let Some(all) = read_each(alloc, version, text)? else {
        return Ok(None);
    };
    Loaded::of_records(alloc, hlr, all)
}

/// The records of the lines, if each line is one.
fn read_each(
    alloc: Global,
    version: Version,
    text: &[u8],
) -> Result<Option<Vec<Record>>, AllocError>
    ensures { IfOk result (λ found. IfSome found
        (λ all. Each (IsRecordLine version) (lines text.now) all.items)) }
{
    let mut all = Vec::with_capacity(alloc, room_for(text))?;
    let mut rest = text;
    while !rest.is_empty() {
        let (line, after) = first_line(rest);
        let Some(subscriber) = read_record(alloc, version, line)? else {
            return Ok(None);
        };
        all.push(subscriber)?;
        rest = after;
    }
    Ok(Some(all))
}

/// What the lines make, or the first fault: each record is looked for among those before it.
fn load_until_fault(
    alloc: Global,
    version: Version,
    hlr: IsdnAddress,
    text: &[u8],
) -> Result<Loaded, RecordsFault>
    requires { length text.now + 1 < 2 ^ 64 }
    ensures { Answers result (below_header version hlr (lines text.now)) }
{
    let mut loading = Loading::with_room(alloc, hlr, room_for(text))?;
    let mut before = 1;
    let mut rest = text;
    while !rest.is_empty() {
        let number = before + 1;
        let (line, after) = first_line(rest);
        let Some(subscriber) = read_record(alloc, version, line)? else {
            return Err(RecordsFault::BadLine(number));
        };
        let is_new = loading.add(subscriber)?;
        if !is_new {
            return Err(RecordsFault::Twice(number));
        }
        before = number;
        rest = after;
    }
    Ok(loading.finish(alloc)?)
}

/// At least as many as these lines have records. So the records of a file are not moved while it is read. Nothing is known of the
/// count of line feeds: were it too low, the list would grow.
fn room_for(text: &[u8]) -> usize
    ensures { result ≤ length text.now + 1 }
{
    let mut ends: usize = 0;
    for part in text.chunks(MOST_COUNTED) {
        ends = ends.wrapping_add(usize::from(ends_in(part)));
    }
    ends.min(text.len() / LEAST_LINE).saturating_add(1)
}

/// How many line feeds a part of a text has. They are counted in one octet, so that the compiler counts in sixteen places at a
/// time; a count that takes 64 bits, place by place, took six instructions for each octet of a file.
fn ends_in(part: &[u8]) -> u8 {
    let mut ends: u8 = 0;
    for octet in part {
        ends = ends.wrapping_add(u8::from(*octet == b'\n'));
    }
    ends
}
