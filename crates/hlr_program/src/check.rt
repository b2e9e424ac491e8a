//! The check of a script before it runs, and of the letters of a batch before it is handled.

ghost use Rattle.std.specs.Prelude.{◌≡◌, ◌≤◌, ◌++◌, ℕ, List, Err, IfErr, IfOk, IfNone, IsNone, OnOk, OnSome, Some, drop, length, option_map, take, true, false, codes};
ghost use Rattle.std.specs.List.{AllByRecursion};
ghost use Rattle.std.specs.Thread.{IsSync};
ghost use Rattle.texts.specs.Lines.{lines};
ghost use Rattle.records.specs.Reading.{is_text};
ghost use Rattle.hlr_input.specs.declared.group.Group.{Group};
ghost use Rattle.hlr_input.specs.Octets.{IsOctets, are_known, ids_in};
ghost use Rattle.hlr_program.specs.Statuses.{IsScriptFault};
ghost use Rattle.hlr_program.specs.Batches.{IsGood, IsBad, HasIds, LacksId, IsFirst, batch_of};
ghost use Rattle.hlr_program.specs.Checked.{IsChecked, IsFirstBad, IsSeen};

use crate::fault::Fault;
use hlr_input::{Item, MAX_LETTERS, are_octets, read_line};
use hlr_types::Tid;
use std::thread::{self, Threads};
use texts::Lines;

/// A script, and what its check finds.
#[derive(Drop)]
pub struct Script {
    pub text: Vec<u8>,
    /// Whether its lines have letters.
    pub lettered: bool,
}

/// The least number of octets of which another thread checks a half: that takes longer than to start the thread.
const OCTETS_OF_A_START: usize = 65_536;

/// What the check of some lines finds.
#[derive(Clone, Copy, Drop)]
struct Seen {
    /// How many they are.
    lines: u64,
    /// Whether they have letters.
    lettered: bool,
}

/// Finds the first line of a script that has none of the forms, by so many threads, but at most one for each 32,768 octets. On the way they
/// look for letters.
pub fn check_script<R: Threads + Sync>(
    rt: &R,
    threads: usize,
    text: Vec<u8>,
) -> Result<Script, Fault>
    ensures whole { IfOk result (λ script. script.text.items ≡ text.items) }
    ensures checked { IfOk result IsChecked }
    ensures bad { (n : ℕ) → result ≡ Err (Fault.BadLine n)
        → IsFirst IsGood IsBad (lines text.items) 0 n }
    ensures of_script { IfErr result IsScriptFault }
{
    match check_by(rt, threads, &text) {
        Ok(seen) => Ok(Script {
            text,
            lettered: seen.lettered,
        }),
        Err(number) => Err(Fault::BadLine(number)),
    }
}

/// Checks the lines of a text, by so many threads: each half of the text by a half of them. The number is that of the first line that has
/// none of the forms.
#[cycle(halves)]
fn check_by<R: Threads + Sync>(rt: &R, threads: usize, text: &[u8]) -> Result<Seen, u64>
    ensures seen { IfOk result (IsSeen text.now) }
    ensures bad { IfErr result (IsFirstBad text.now) }
{
    if threads < 2 || text.len() < OCTETS_OF_A_START {
        return check_lines(text);
    }
    let (text, more) = text.split_at(end_of_line(text, text.len() / 2));
    let (first, second) = thread::join(
        rt,
        || -> Result<Seen, u64>
            requires { IsSync R.row }
            ensures seen { IfOk result (IsSeen text.entry.now) }
            ensures bad { IfErr result (IsFirstBad text.entry.now) }
        { check_by(rt, threads / 2, text) },
        || -> Result<Seen, u64>
            requires { IsSync R.row }
            ensures seen { IfOk result (IsSeen more.entry.now) }
            ensures bad { IfErr result (IsFirstBad more.entry.now) }
        { check_by(rt, threads - threads / 2, more) },
    );
    match (first, second) {
        (Ok(first), Ok(second)) => Ok(Seen {
            lines: first.lines + second.lines,
            lettered: first.lettered || second.lettered,
        }),
        (Ok(first), Err(number)) => Err(first.lines + number),
        (Err(number), _) => Err(number),
    }
}

/// The place after the line feed that ends the line at this place, or the end of the text.
fn end_of_line(text: &[u8], place: usize) -> usize
    requires { place ≤ length text.now }
    ensures within { result ≤ length text.now }
    ensures cut { lines text.now ≡ lines (take result text.now) ++ lines (drop result text.now) }
{
    for end in place..text.len() {
        if text[end] == b'\n' {
            return end + 1;
        }
    }
    text.len()
}

/// Checks the lines of a text, one after the other.
fn check_lines(text: &[u8]) -> Result<Seen, u64>
    ensures seen { IfOk result (IsSeen text.now) }
    ensures bad { IfErr result (IsFirstBad text.now) }
{
    let mut lettered = false;
    let mut left = Lines::new(text);
    'lines: while let Some((line, behind)) = left.next() {
        match find_letters(line.text) {
            Some(has_letter) => lettered = lettered || has_letter,
            None => return Err(line.number),
        }
        left = behind;
    }
    Ok(Seen {
        lines: left.before,
        lettered,
    })
}

/// Whether a line has a letter. `None` if it has none of the forms.
fn find_letters(line: &[u8]) -> Option<bool>
    ensures good { OnSome result (IsGood line.now) }
    ensures plain { result ≡ Some false → HasIds 0 line.now }
    ensures lettered { result ≡ Some true → LacksId 0 line.now }
    ensures bad { IfNone result (IsBad line.now) }
{
    let Some(item) = read_line(line) else {
        return None;
    };
    match item {
        Item::Frame { octets, .. } => find_letters_in(octets),
        _ => Some(false),
    }
}

/// The same for the octets of a frame.
fn find_letters_in(octets: &[u8]) -> Option<bool>
    ensures good { OnSome result ((groups : List Group) × IsOctets octets.now groups) }
    ensures plain { result ≡ Some false → (groups : List Group) → IsOctets octets.now groups
        → are_known 0 groups ≡ true }
    ensures lettered { result ≡ Some true → (groups : List Group) → IsOctets octets.now groups
        → are_known 0 groups ≡ false }
    ensures bad { IfNone result ((groups : List Group) → IsOctets octets.now groups → ⊥) }
{
    if are_octets(octets, 0) {
        return Some(false);
    }
    if are_octets(octets, MAX_LETTERS) {
        return Some(true);
    }
    None
}

/// Finds the first line of a batch with a letter without an id. No ids are passed if no line has a letter.
pub fn check_letters(from: Lines, ids: Option<&[Tid]>) -> Result<(), Fault>
    requires good { AllByRecursion IsGood (batch_of (lines from.rest.now)) }
    requires plain { IsNone ids → AllByRecursion (HasIds 0) (batch_of (lines from.rest.now)) }
    ensures known { OnOk result (AllByRecursion
        (HasIds (length (ids_in (option_map (λ i. i.now) ids.entry))))
        (batch_of (lines from.entry.rest.now))) }
    ensures unknown { (n : ℕ) → result ≡ Err (Fault.BadLine n)
        → IsFirst (HasIds (length (ids_in (option_map (λ i. i.now) ids.entry))))
        (LacksId (length (ids_in (option_map (λ i. i.now) ids.entry))))
        (batch_of (lines from.entry.rest.now)) from.entry.before n }
    ensures of_script { IfErr result IsScriptFault }
{
    match ids {
        Some(ids) => find_unknown(from, ids.len()),
        None => Ok(()),
    }
}

/// The same, if the first `known` letters have an id.
fn find_unknown(from: Lines, known: usize) -> Result<(), Fault>
    requires { AllByRecursion IsGood (batch_of (lines from.rest.now)) }
    ensures known { OnOk result (AllByRecursion (HasIds known)
        (batch_of (lines from.entry.rest.now))) }
    ensures unknown { (n : ℕ) → result ≡ Err (Fault.BadLine n)
        → IsFirst (HasIds known) (LacksId known)
        (batch_of (lines from.entry.rest.now)) from.entry.before n }
    ensures of_script { IfErr result IsScriptFault }
{
    let mut left = from;
    'lines: while let Some((line, behind)) = left.next() {
        if is_end(line.text) {
            return Ok(());
        }
        if lacks_id(line.text, known) {
            return Err(Fault::BadLine(line.number));
        }
        left = behind;
    }
    Ok(())
}

/// Whether the line ends a batch.
pub fn is_end(line: &[u8]) -> bool
    ensures { result ≡ is_text line.now (codes "W") }
{
    line == b"W".as_slice()
}

/// Whether a line has a letter without an id.
fn lacks_id(line: &[u8], known: usize) -> bool
    requires { IsGood line.now }
    ensures lacks { result ≡ true → LacksId known line.now }
    ensures has { result ≡ false → HasIds known line.now }
{
    let Some(item) = read_line(line) else {
        return false;
    };
    match item {
        Item::Frame { octets, .. } => !are_octets(octets, known),
        _ => false,
    }
}
