//! Tables as texts: rows, and octets as the standards print them.

use std::alloc::{AllocError, Global};
use std::process::Abort;
use std::test::Fail;

/// A Begin from 00000001 that asks for the route to 447700900000.
pub(crate) const FIRST_ROUTE: &str =
    "62 47 48 04 00 00 00 01 6B 1E 28 1C 06 07 00 11 86 05 01 01 01 A0 11
    60 0F 80 02 07 80 A1 09 06 07 04 00 00 01 00 14 03 6C 1F A1 1D 02 01 01 02 01 2D 30 15 80 07 91 44 77 00
    09 00 00 81 01 FF 82 07 91 44 77 00 09 99 99";

/// The dialogue portion that asks for the context shortMsgGateway of version 3.
const ASKING: &str = "6B1E281C060700118605010101A011600F80020780A109060704000001001403";

/// The dialogue portion that accepts it.
const ACCEPTING: &str =
    "6B2A2828060700118605010101A01D611B80020780A109060704000001001403A203020100A305A103020100";

/// A Reject of a component without an id.
const REJECT: &str = "A4050500800100";

/// The digits of a word: a name for octets that many rows share, or the digits themselves.
fn digits(word: &str) -> &str {
    match word {
        "DQ" => ASKING,
        "DA" => ACCEPTING,
        "REJECT" => REJECT,
        _ => word,
    }
}

/// Adds the octets of a word: hexadecimal digits or a name for octets, and `*` with a number if they are
/// repeated.
fn push_word(alloc: Global, octets: &mut Vec<u8>, word: &str) -> Result<(), Fail> {
    let (once, times) = word.split_once('*').unwrap_or((word, "1"));
    let once = hex::decode(alloc, digits(once))?;
    for _ in 0..times.parse::<usize>()? {
        octets.extend_from_slice(&once)?;
    }
    Ok(())
}

/// The octets of a text of words.
pub(crate) fn octets(alloc: Global, text: &str) -> Result<Vec<u8>, Fail> {
    let mut octets = Vec::new(alloc);
    for word in text.split_whitespace() {
        push_word(alloc, &mut octets, word)?;
    }
    Ok(octets)
}

/// A text in one line, with one space after each word.
fn words(alloc: Global, text: &str) -> Result<String, AllocError> {
    let mut line = String::new(alloc);
    for word in text.split_whitespace() {
        line.push_str(word)?;
        line.push_str(" ")?;
    }
    Ok(line)
}

/// The fields of a row: its name, its input, and the expected output.
pub(crate) fn fields(row: &str) -> Option<(&str, &str, &str)> {
    let (name, rest) = row.split_once('|')?;
    let (given, told) = rest.split_once('|')?;
    Some((name, given, told))
}

/// The output for each row's input is its last field. A row begins with `- ` on a line of its own.
pub(crate) fn check<F: Fn(Global, &str) -> Result<String, Fail>>(
    rt: &(impl Abort + AllocGlobal),
    table: &str,
    told: F,
) -> Result<(), Fail>
    requires { F.IsAlwaysCallable told }
{
    let alloc = rt.alloc();
    for row in table.split("\n- ").skip(1) {
        let (name, given, expected) = fields(row).ok_or("a row has three fields")?;
        let found = words(alloc, &told(alloc, given)?)?;
        assert_eq!(rt; found.as_str(), words(alloc, expected)?.as_str(), "{name}");
    }
    Ok(())
}

/// These are the octets of a text.
pub(crate) fn is_written(
    rt: &(impl Abort + AllocGlobal),
    written: &[u8],
    text: &str,
) -> Result<(), Fail> {
    let expected = octets(rt.alloc(), text)?;
    assert_eq!(rt; written, expected.as_slice(), "{text}");
    Ok(())
}
