//! The program: a records file and a script of received events in, sent frames out.
#![tactic(auto)]

mod source;

use crate::source::Source;
use hlr_program::{Fault, read_words, serve_script};
use std::io::BufWriter;
use std::process::ExitCode;
use std::sync::Wait;
use std::thread::Threads;
use std::{env, io};

/// The words of the command line, the program's name first. A word that is not UTF-8 is no command line.
fn words(rt: &HostRuntime) -> Result<Vec<String>, Fault> {
    match env::args(rt) {
        Ok(words) => Ok(words.collect(rt.alloc())?),
        Err(error) if error.kind() == io::ErrorKind::OutOfMemory => Err(Fault::Memory),
        Err(_) => Err(Fault::CommandLine),
    }
}

/// Serves what the words ask for, and returns the exit status. The runtime is passed twice: only what `main` passes on by its
/// bounds may start threads and wait for them.
fn run<R: Threads + Wait + Sync>(rt: &HostRuntime, threads: &R) -> Result<u8, Fault> {
    let alloc = rt.alloc();
    let words = words(rt)?;
    let options = read_words(alloc, &words)?;
    let mut records = Source::open(rt, &options.records);
    let mut script = Source::open(rt, &options.script);
    let mut out = BufWriter::new(alloc, rt.stdout()).map_err(|_| Fault::Memory)?;
    let mut err = rt.stderr();
    let status = serve_script(
        threads,
        alloc,
        &options,
        &mut records,
        &mut script,
        &mut out,
        &mut err,
    );
    // What a failed write left over is discarded: a dropped buffer would write it once more.
    let _unwritten = out.into_parts();
    Ok(status)
}

fn main(rt: HostRuntime) -> ExitCode {
    match run(&rt, &rt) {
        Ok(status) => ExitCode::from(status),
        Err(fault) => {
            let _ = eprintln!(rt; "{fault}");
            ExitCode::from(fault.status())
        }
    }
}
