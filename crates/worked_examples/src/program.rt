//! Runs with scripts, and with readers and writers that fail at each call in turn.

use hlr_program::{Options, WordsFault, read_words, serve_script};
use std::alloc::Global;
use std::io::{self, Read, Write};
use std::sync::Wait;
use std::test::Fail;
use std::thread::Threads;

/// Never.
const NEVER: u32 = u32::MAX;

/// How many octets a file may have (profile).
const MAX_FILE_OCTETS: usize = 16_777_216;

/// A reader that returns a text a few octets at a time, and fails at one read.
#[derive(Drop)]
struct Given<'a> {
    rest: &'a [u8],
    reads_left: u32,
}

impl Read for Given<'_> {
    fn read(&mut self, buf: &mut [u8]) -> io::Result<usize> {
        if self.reads_left == 0 {
            return Err(io::Error::from(io::ErrorKind::Other));
        }
        self.reads_left -= 1;
        let count = self.rest.len().min(buf.len()).min(20);
        let (front, rest) = self.rest.split_at(count);
        buf[..count].copy_from_slice(front);
        self.rest = rest;
        Ok(count)
    }
}

/// A writer that keeps what is written, and fails at one write or at a flush.
#[derive(Drop)]
struct Kept {
    text: Vec<u8>,
    writes_left: u32,
    flushes: bool,
}

impl Kept {
    fn new(alloc: Global, writes_left: u32) -> Kept {
        Kept {
            text: Vec::new(alloc),
            writes_left,
            flushes: true,
        }
    }
}

impl Write for Kept {
    fn write(&mut self, buf: &[u8]) -> io::Result<usize> {
        if self.writes_left == 0 {
            return Err(io::Error::from(io::ErrorKind::Other));
        }
        self.writes_left -= 1;
        self.text.extend_from_slice(buf)?;
        Ok(buf.len())
    }

    fn flush(&mut self) -> io::Result<()> {
        if self.flushes {
            Ok(())
        } else {
            Err(io::Error::from(io::ErrorKind::Other))
        }
    }
}

/// A reader that returns a number of zeros.
#[derive(Drop)]
struct Zeros {
    left: usize,
}

impl Read for Zeros {
    fn read(&mut self, buf: &mut [u8]) -> io::Result<usize> {
        let count = self.left.min(buf.len());
        self.left -= count;
        Ok(count)
    }
}

const RECORDS: &[u8] =
    b"HLR1 447700900100\n234150000000001 447700900000 11,21 * 447700900011,447700900001,-,s\n";

fn options_of(alloc: Global, text: &str) -> Result<Options, WordsFault> {
    let mut words = Vec::new(alloc);
    for word in text.split(' ') {
        words
            .push(String::from_str(alloc, word)?)
            .map_err(|_| WordsFault::Memory)?;
    }
    read_words(alloc, words.as_slice())
}

/// What a run prints on standard error, and its status.
fn ends<R: Threads + Wait + Sync + AllocGlobal, A: Read, B: Read>(
    rt: &R,
    text: &str,
    records: &mut A,
    script: &mut B,
    out: &mut Kept,
) -> Result<(u8, Vec<u8>), Fail> {
    let alloc = rt.alloc();
    let options = options_of(alloc, text).ok().ok_or("no command line")?;
    let mut err = Vec::new(alloc);
    let status = serve_script(rt, alloc, &options, records, script, out, &mut err);
    Ok((status, err))
}

/// The same for two texts that are read without a fault.
fn ends_on(
    rt: &(impl Threads + Wait + Sync + AllocGlobal),
    text: &str,
    records: &[u8],
    script: &[u8],
) -> Result<(u8, Vec<u8>), Fail> {
    let mut records = Given {
        rest: records,
        reads_left: NEVER,
    };
    let mut script = Given {
        rest: script,
        reads_left: NEVER,
    };
    let mut out = Kept::new(rt.alloc(), NEVER);
    ends(rt, text, &mut records, &mut script, &mut out)
}

/// With a bad line in the script workers get no event.
#[test]
fn bad_line_with_workers(rt: HostRuntime) -> Result<(), Fail> {
    let ran = ends_on(&rt, "hlr a b --workers 16 --list", RECORDS, b"E\n?")?;
    assert_eq!(rt; ran.1.as_slice(), b"hlr: script line 2\n".as_slice());
    assert_eq!(rt; ran.0, 1);
    Ok(())
}

#[test]
fn good_scripts(rt: HostRuntime) -> Result<(), Fail> {
    let scripts: [&[u8]; 5] = [
        b"",
        b"W\nW\n",
        b"F 447700909999 62aAFf\nF 1 -\nC 0\nC 4611686018427387904\nE\nW\n",
        b"O 234150000000001 11,aB\nO 234150000000001 -\nX 99999",
        b"E\nE",
    ];
    for script in scripts {
        let (status, err) = ends_on(&rt, "hlr a b", RECORDS, script)?;
        assert_eq!(rt; err.as_slice(), b"".as_slice());
        assert_eq!(rt; status, 0);
    }
    Ok(())
}

#[test]
fn bad_lines(rt: HostRuntime) -> Result<(), Fail> {
    let lines: [&[u8]; 26] = [
        b"",
        b" E",
        b"E ",
        b"e",
        b"E\r",
        b"E\t",
        b"\xc3\x89",
        b"C",
        b"C ",
        b"C 01",
        b"C -1",
        b"C 4611686018427387905",
        b"C  1",
        b"F 1",
        b"F 1 ",
        b"F 1 A",
        b"F 1 AG",
        b"F 1 -A",
        b"F x 00",
        b"F 12345678901234567 00",
        b"F 1 0$A0",
        b"F 1 $a",
        b"F 1 00 ",
        b"O 2341 11",
        b"O 23415 11,11",
        b"X 23415 ",
    ];
    for line in lines {
        let mut script = Vec::from_slice(rt.alloc(), b"E\n")?;
        script.extend_from_slice(line)?;
        script.extend_from_slice(b"\nE\n")?;
        let (status, err) = ends_on(&rt, "hlr a b", RECORDS, &script)?;
        assert_eq!(rt;
            err.as_slice(),
            b"hlr: script line 2\n".as_slice(),
            "{line:?}"
        );
        assert_eq!(rt; status, 1);
    }
    Ok(())
}

/// A letter without an id comes before every other fault of its batch, and nothing of that batch is printed.
#[test]
fn faults_of_a_batch(rt: HostRuntime) -> Result<(), Fail> {
    let scripts: [(&[u8], &[u8]); 3] = [
        (b"W\nF 1 -\nF 1 65$Z\n", b"hlr: script line 3\n"),
        (
            b"F 1 -\nW\nO 234150000000001 11\nF 1 65$A\n",
            b"hlr: script line 4\n",
        ),
        (b"C 1\nE\nW\nC 2\nF 1 $A$B\n", b"hlr: script line 5\n"),
    ];
    for (script, line) in scripts {
        let ran = ends_on(&rt, "hlr a b --list", RECORDS, script)?;
        assert_eq!(rt; ran.1.as_slice(), line);
        assert_eq!(rt; ran.0, 1);
    }
    Ok(())
}

#[test]
fn each_read_fails_in_turn(rt: HostRuntime) -> Result<(), Fail> {
    let alloc = rt.alloc();
    let needed: [(u32, &[u8]); 2] = [
        (6, b"hlr: cannot read records\n"),
        (3, b"hlr: cannot read script\n"),
    ];
    for (reads, line) in needed {
        for left in 0..=reads {
            let in_records = reads == 6;
            let mut records = Given {
                rest: RECORDS,
                reads_left: if in_records { left } else { NEVER },
            };
            let mut script = Given {
                rest: b"E\nE\nE\nE\nE\nE\nE\nE\nE\nE\nE\nE\n",
                reads_left: if in_records { NEVER } else { left },
            };
            let mut out = Kept::new(alloc, NEVER);
            let (status, err) = ends(&rt, "hlr a b", &mut records, &mut script, &mut out)?;
            let fails = left < reads;
            assert_eq!(rt; status, if fails { 1 } else { 0 });
            assert_eq!(rt; err.as_slice(), if fails { line } else { b"".as_slice() });
        }
    }
    Ok(())
}

#[test]
fn a_flush_fails(rt: HostRuntime) -> Result<(), Fail> {
    let mut records = Given {
        rest: RECORDS,
        reads_left: NEVER,
    };
    let mut out = Kept::new(rt.alloc(), NEVER);
    out.flushes = false;
    let (status, err) = ends(
        &rt,
        "hlr a b",
        &mut records,
        &mut Zeros { left: 0 },
        &mut out,
    )?;
    assert_eq!(rt; err.as_slice(), b"hlr: output\n".as_slice());
    assert_eq!(rt; status, 1);
    Ok(())
}

#[test]
fn files_over_the_limit(rt: HostRuntime) -> Result<(), Fail> {
    let alloc = rt.alloc();
    let lines: [(usize, &[u8]); 2] = [
        (MAX_FILE_OCTETS, b"hlr: records line 1\n"),
        (MAX_FILE_OCTETS + 1, b"hlr: cannot read records\n"),
    ];
    for (left, line) in lines {
        let mut out = Kept::new(alloc, NEVER);
        let (_, err) = ends(
            &rt,
            "hlr a b",
            &mut Zeros { left },
            &mut Zeros { left: 0 },
            &mut out,
        )?;
        assert_eq!(rt; err.as_slice(), line);
    }
    let mut records = Given {
        rest: RECORDS,
        reads_left: NEVER,
    };
    let left = MAX_FILE_OCTETS + 1;
    let mut out = Kept::new(alloc, NEVER);
    let (_, err) = ends(&rt, "hlr a b", &mut records, &mut Zeros { left }, &mut out)?;
    assert_eq!(rt; err.as_slice(), b"hlr: cannot read script\n".as_slice());
    Ok(())
}

/// Two batches and the listings are written by three writes. If one of them fails, those before it stay.
#[test]
fn each_write_fails_in_turn(rt: HostRuntime) -> Result<(), Fail> {
    let alloc = rt.alloc();
    let script = b"O 234150000000001 11\nW\nO 234150000000001 21\n";
    let mut whole = Kept::new(alloc, NEVER);
    for writes in [NEVER, 0, 1, 2, 3] {
        let mut records = Given {
            rest: RECORDS,
            reads_left: NEVER,
        };
        let mut script = Given {
            rest: script,
            reads_left: NEVER,
        };
        let mut out = Kept::new(alloc, writes);
        let (status, err) = ends(&rt, "hlr a b --list", &mut records, &mut script, &mut out)?;
        let fails = writes < 3;
        assert_eq!(rt; status, if fails { 1 } else { 0 });
        assert_eq!(rt;
            err.as_slice(),
            if fails {
                b"hlr: output\n".as_slice()
            } else {
                b""
            }
        );
        if writes == NEVER {
            whole = out;
        } else {
            assert!(rt; whole.text.starts_with(&out.text), "{writes}");
            assert_eq!(rt; whole.text.len() > out.text.len(), fails, "{writes}");
        }
    }
    Ok(())
}
