//! Command lines: the words that `clap` accepts and refuses.

use hlr_input::{Options, WordsFault, read_words};
use std::alloc::Global;
use std::process::Abort;

/// A command line, and whether the program accepts it.
const LINES: [(&str, bool); 18] = [
    ("hlr a", false),
    ("hlr a b", true),
    ("hlr a b c", false),
    ("hlr a b --list", true),
    ("hlr --workers 2 a b", true),
    ("hlr a b --workers 0", true),
    ("hlr a b --workers 16", true),
    ("hlr a b --workers 17", false),
    ("hlr a b --workers 02", false),
    ("hlr a b --workers +2", false),
    ("hlr a b --workers", false),
    ("hlr a b --workers 1 --workers 1", false),
    ("hlr a b --workers=3 --save", true),
    ("hlr a b --list --list", false),
    ("hlr -- --list b", true),
    ("hlr a b --help", false),
    ("hlr a b --version", false),
    ("hlr a b --other", false),
];

fn options_of(alloc: Global, text: &str) -> Result<Options, WordsFault> {
    let mut words = Vec::new(alloc);
    for word in text.split(' ') {
        words
            .push(String::from_str(alloc, word)?)
            .map_err(|_| WordsFault::Memory)?;
    }
    read_words(alloc, words.as_slice())
}

fn check(rt: &impl Abort, alloc: Global, rows: &[(&str, bool)]) {
    for (text, fits) in rows {
        assert!(rt; options_of(alloc, text).is_ok() == *fits, "{text}");
    }
}

#[test]
fn command_lines(rt: HostRuntime) {
    check(&rt, rt.alloc(), &LINES);
}
