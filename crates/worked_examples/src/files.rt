//! The command line and the records file.

use crate::routes::{error, request, to_gateway};
use crate::run::{answers, run};
use hlr_program::{Fault, read_words};
use std::alloc::Global;
use std::process::Abort;
use std::sync::Wait;
use std::test::Fail;
use std::thread::Threads;

/// The program's name by itself is no command line.
#[test]
fn digits_and_no_words(rt: HostRuntime) -> Result<(), Fail> {
    let alloc = rt.alloc();
    let words = [String::from_str(alloc, "hlr")?];
    let fault = read_words(alloc, &words).err().map(Fault::from);
    assert_eq!(rt; fault, Some(Fault::CommandLine));
    let line = Fault::CommandLine.to_string(alloc)?;
    assert_eq!(rt; line.as_str(), "hlr: command line");
    Ok(())
}

/// What the words of a command line ask for, as a text: the two paths, the number of workers, and whether to list and to save.
fn asked_for(alloc: Global, line: &str) -> Result<String, Fail> {
    let mut words = Vec::new(alloc);
    for word in line.split(' ') {
        words.push(String::from_str(alloc, word)?)?;
    }
    let Ok(options) = read_words(alloc, &words) else {
        return Ok(String::from_str(alloc, "none")?);
    };
    let (records, script) = (options.records.as_str(), options.script.as_str());
    let (workers, list, save) = (options.workers, options.list, options.save);
    Ok(format!(in alloc; "{records} {script} {workers} {list} {save}")?)
}

/// The options of command lines.
#[test]
fn command_lines(rt: HostRuntime) -> Result<(), Fail> {
    let lines = [
        ("hlr a b", "a b 0 false false"),
        ("hlr b a --list", "b a 0 true false"),
        ("hlr --save a b", "a b 0 false true"),
        ("hlr a --list --save b", "a b 0 true true"),
        ("hlr a b --workers 0", "a b 0 false false"),
        ("hlr a b --workers 16", "a b 16 false false"),
        ("hlr a --workers=7 b --save", "a b 7 false true"),
        ("hlr -- --list --save", "--list --save 0 false false"),
        ("hlr a b --workers 17", "none"),
        ("hlr a b --workers 01", "none"),
        ("hlr a b --list --list", "none"),
        ("hlr a b c", "none"),
        ("hlr a", "none"),
        ("hlr a b --help", "none"),
    ];
    for (line, asked) in lines {
        assert_eq!(rt; asked_for(rt.alloc(), line)?.as_str(), asked, "{line}");
    }
    Ok(())
}

/// These records files end a run with the line after them; the script is not read.
fn faults(
    rt: &(impl Abort + Threads + Wait + Sync + AllocGlobal),
    files: &[(&str, &str)],
) -> Result<(), Fail> {
    for (records, line) in files {
        let ran = run(rt, records, "?\n")?;
        assert_eq!(rt; ran.fault.as_slice(), line.as_bytes());
        assert_eq!(rt; ran.printed.as_slice(), b"".as_slice());
        assert_eq!(rt; ran.status, 1);
    }
    Ok(())
}

#[test]
fn records_faults(rt: HostRuntime) -> Result<(), Fail> {
    faults(
        &rt,
        &[
            ("", "hlr: records line 1\n"),
            (
                "HLR1 447700900100\n2341 447700900000 11,21 * -\n",
                "hlr: records line 2\n",
            ),
            (
                "HLR1 447700900100\n234150000000001 447700900000 11,21 * -\n234150000000001 447700900000 11,21 * -\n",
                "hlr: records line 3 twice\n",
            ),
        ],
    )
}

/// In version 2 a sixth field says whether the subscriber is withdrawn; a withdrawn one has no route and no register.
#[test]
fn records_version_2(rt: HostRuntime) -> Result<(), Fail> {
    let withdrawn = "HLR2 447700900100\n234150000000002 447700900202 - * - w\n";
    let request = request("09 20 20");
    let error = error("01");
    answers(
        &rt,
        withdrawn,
        &[to_gateway(&request)],
        &[to_gateway(&error)],
    )?;
    faults(
        &rt,
        &[
            (
                "HLR2 447700900100\n234150000000002 447700900202 - * 447700900011,447700900001,-,s w\n",
                "hlr: records line 2\n",
            ),
            (
                "HLR2 447700900100\n234150000000002 447700900202 - * -\n",
                "hlr: records line 2\n",
            ),
        ],
    )
}
