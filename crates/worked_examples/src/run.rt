//! A run of the program in memory.

use hlr_program::{read_words, serve_script};
use std::alloc::{AllocError, Global};
use std::io::{self, Read};
use std::process::Abort;
use std::sync::Wait;
use std::test::Fail;
use std::thread::Threads;

/// A register with four subscribers, the first of them registered.
pub const RECORDS: &str = "HLR1 447700900100
234150000000001 447700900000 11,21 * 447700900011,447700900001,-,s
234150000000002 447700900202 11,12,20,21,22,61,62,91,92 * -
234150000000003 447700900203 21 4478 -
234150000000004 447700900204 11 * -
";

/// A frame: its source or destination digits, and its octets in hexadecimal digits, in parts.
#[derive(Clone, Copy)]
pub struct Frame<'a> {
    pub address: &'a str,
    pub parts: &'a [&'a str],
}

/// A text that is read to its end.
#[derive(Drop)]
struct Given<'a> {
    rest: &'a [u8],
}

impl Read for Given<'_> {
    fn read(&mut self, buf: &mut [u8]) -> io::Result<usize> {
        let count = self.rest.len().min(buf.len());
        let (front, rest) = self.rest.split_at(count);
        buf[..count].copy_from_slice(front);
        self.rest = rest;
        Ok(count)
    }
}

/// The result of a run: its status, and what it prints on standard output and standard error.
#[derive(PartialEq, Eq, Drop)]
pub struct Ran {
    pub status: u8,
    pub printed: Vec<u8>,
    pub fault: Vec<u8>,
}

/// The program in one thread, and with one worker, two and sixteen.
pub const WITH_WORKERS: [&str; 4] = [
    "hlr records script",
    "hlr records script --workers 1",
    "hlr records script --workers 2",
    "hlr records script --workers 16",
];

/// Runs the program on a records file and a script.
pub fn run(
    rt: &(impl Threads + Wait + Sync + AllocGlobal),
    records: &str,
    script: &str,
) -> Result<Ran, Fail> {
    run_with(rt, WITH_WORKERS[0], records, script)
}

/// The same with these words, separated by spaces.
pub fn run_with(
    rt: &(impl Threads + Wait + Sync + AllocGlobal),
    line: &str,
    records: &str,
    script: &str,
) -> Result<Ran, Fail> {
    let alloc = rt.alloc();
    let mut words = Vec::new(alloc);
    for word in line.split(' ') {
        words.push(String::from_str(alloc, word)?)?;
    }
    let options = read_words(alloc, &words).ok().ok_or("no command line")?;
    let mut records = Given {
        rest: records.as_bytes(),
    };
    let mut script = Given {
        rest: script.as_bytes(),
    };
    let mut printed = Vec::new(alloc);
    let mut fault = Vec::new(alloc);
    let status = serve_script(
        rt,
        alloc,
        &options,
        &mut records,
        &mut script,
        &mut printed,
        &mut fault,
    );
    Ok(Ran {
        status,
        printed,
        fault,
    })
}

/// These digits `times` times.
pub fn repeated(alloc: Global, digits: &str, times: usize) -> Result<String, AllocError> {
    let mut text = String::new(alloc);
    for _ in 0..times {
        text.push_str(digits)?;
    }
    Ok(text)
}

/// Appends a line for a frame: its kind, the address, and the octets, `-` for none.
pub fn push_line(text: &mut String, kind: &str, frame: &Frame) -> Result<(), AllocError> {
    text.push_str(kind)?;
    text.push_str(" ")?;
    text.push_str(frame.address)?;
    text.push_str(" ")?;
    let begin = text.len();
    for part in frame.parts {
        for octet in part.split(' ') {
            text.push_str(octet)?;
        }
    }
    if text.len() == begin {
        text.push_str("-")?;
    }
    text.push_str("\n")
}

/// A line of a script: a received frame, or the line's text.
#[derive(Clone, Copy)]
pub enum Line<'a> {
    Received(Frame<'a>),
    Said(&'a str),
}

/// The script of these lines, each a batch of its own.
fn script_of(alloc: Global, lines: &[Line]) -> Result<String, AllocError> {
    let mut script = String::new(alloc);
    for line in lines {
        match line {
            Line::Received(frame) => push_line(&mut script, "F", frame)?,
            Line::Said(said) => {
                script.push_str(said)?;
                script.push_str("\n")?;
            }
        }
        script.push_str("W\n")?;
    }
    Ok(script)
}

/// The lines of these frames as they are sent.
fn lines_of(alloc: Global, sent: &[Frame]) -> Result<String, AllocError> {
    let mut lines = String::new(alloc);
    for frame in sent {
        push_line(&mut lines, "S", frame)?;
    }
    Ok(lines)
}

/// Whether the text is the expected one. A lower case letter there stands for the eight digits of a local id: the same letter for
/// the same id, another for another; `?` stands for any id.
pub fn is_as_wanted(text: &[u8], wanted: &[u8]) -> bool {
    let mut ids: [Option<&[u8]>; 26] = [None; 26];
    let mut rest = text;
    for sign in wanted {
        let is_letter = sign.is_ascii_lowercase();
        let count = if is_letter || *sign == b'?' { 8 } else { 1 };
        let Some((found, behind)) = rest.split_at_checked(count) else {
            return false;
        };
        rest = behind;
        if is_letter && !is_id_of(&mut ids, *sign, found) {
            return false;
        }
        if count == 1 && found.first() != Some(sign) {
            return false;
        }
    }
    rest.is_empty()
}

/// Whether these can be the digits of a letter's id: the ones that it stood for before, or new ones.
fn is_id_of<'a>(ids: &mut [Option<&'a [u8]>; 26], letter: u8, found: &'a [u8]) -> bool {
    let place = usize::from(letter.wrapping_sub(b'a'));
    match ids.get(place) {
        Some(Some(known)) => *known == found,
        Some(None) => {
            let is_new = ids.iter().all(|other| *other != Some(found));
            ids[place] = Some(found);
            is_new
        }
        None => false,
    }
}

/// Runs the program on lines, each a batch of its own, and compares what it sends.
pub fn plays(
    rt: &(impl Abort + Threads + Wait + Sync + AllocGlobal),
    records: &str,
    lines: &[Line],
    sent: &[Frame],
) -> Result<(), Fail> {
    plays_with(rt, WITH_WORKERS[0], records, lines, sent)
}

/// The same with these words.
fn plays_with(
    rt: &(impl Abort + Threads + Wait + Sync + AllocGlobal),
    words: &str,
    records: &str,
    lines: &[Line],
    sent: &[Frame],
) -> Result<(), Fail> {
    let script = script_of(rt.alloc(), lines)?;
    let wanted = lines_of(rt.alloc(), sent)?;
    let ran = run_with(rt, words, records, &script)?;
    assert_eq!(rt; ran.fault.as_slice(), b"".as_slice());
    assert_eq!(rt; ran.status, 0);
    if !is_as_wanted(&ran.printed, wanted.as_bytes()) {
        let printed = str::from_utf8(&ran.printed).ok().ok_or("no text")?;
        assert_eq!(rt; printed, wanted.as_str());
    }
    Ok(())
}

/// Runs the program on frames, each a batch of its own, and compares what it sends.
pub fn answers(
    rt: &(impl Abort + Threads + Wait + Sync + AllocGlobal),
    records: &str,
    received: &[Frame],
    sent: &[Frame],
) -> Result<(), Fail> {
    answers_with(rt, WITH_WORKERS[0], records, received, sent)
}

/// The same with these words.
pub fn answers_with(
    rt: &(impl Abort + Threads + Wait + Sync + AllocGlobal),
    words: &str,
    records: &str,
    received: &[Frame],
    sent: &[Frame],
) -> Result<(), Fail> {
    let mut lines = Vec::new(rt.alloc());
    for frame in received {
        lines.push(Line::Received(*frame))?;
    }
    plays_with(rt, words, records, &lines, sent)
}
