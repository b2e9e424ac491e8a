//! A run of the program.

ghost use Rattle.std.specs.Prelude.{◌≡◌, ◌≤◌, ℕ, [], List, Option, option_map, IfOk, IfErr, IfSome, OnOk};
ghost use Rattle.std.specs.Result.{result_err};
ghost use Rattle.std.specs.Io.KnownBytes.{Appends};
ghost use Rattle.machine.specs.Sound.{Sound};
ghost use Rattle.hlr_program.specs.Batches.{ArePassed};
ghost use Rattle.hlr_program.specs.Checked.{IsChecked};
ghost use Rattle.hlr_program.specs.Registers.{part_of, state_known};
ghost use Rattle.hlr_program.specs.Runs.{BatchRun, IsLoadedFrom, opening_of, printed_of};
ghost use Rattle.hlr_program.specs.Promise.{Ends, HasRun, HasStopped, MayRun, RunsScript, StopsRecords, StopsScript, StopsBatches, Tells, status_at};

use crate::answers::Answers;
use crate::batch::handle_batch;
use crate::check::{Script, check_script};
use crate::fault::Fault;
use crate::listing::closing_lines;
use crate::printed::{print, tell};
use crate::register::Register;
use crate::sharing::workers_for;
use hlr_input::{InputFault, Options, read_all};
use hlr_types::Tid;
use records::{Loaded, read_records};
use std::alloc::Global;
use std::io::{Read, Write};
use std::mem;
use std::sync::Wait;
use std::thread::Threads;
use texts::Lines;

/// How many workers may share a register (profile).
const MAX_WORKERS: u8 = 16;

/// Reads the records and the script, runs the script and prints what is sent, batch by batch. A fault is one line on `err`.
/// Returns the program's exit status: 0 if all was run and printed.
///
/// With 1 to 16 workers that many threads, the caller's among them, check the script, no more than one for 32,768 of its octets. If some
/// batch has 256 lines or more, they share the register: they handle each part of a batch, no more than one for 128 of its events; and at the end
/// they compare the journals with jobs and receipts, no more than one for 1,024 events. Those that are started for one of these are joined after
/// it. If no batch is so long, one thread handles all of them, as without workers.
///
/// Limitation: if workers share the register, the contract does not say in which order the events of a batch are handled, what was handled before a
/// fault, or that a run ends. Once a script was run to its end, the memory of shards, journals, jobs and receipts is not freed: a run is the
/// last thing that a process does.
pub fn serve_script<R: Threads + Wait + Sync, A: Read, B: Read, W: Write, E: Write>(
    rt: &R,
    alloc: Global,
    options: &Options,
    records: &mut A,
    script: &mut B,
    out: &mut W,
    err: &mut E,
) -> u8
    // The program, at every status: whether the run succeeds or with which fault it ends, what is printed on `err`, and what is
    // printed on `out`, for readers whose octets are known.
    ensures ends { (fault : Option Fault) × (result ≡ status_at fault)
        × Tells (E.contents err.old) (E.contents err.new) fault
        × IfSome (A.remaining records.old) (λ file. IfSome (B.remaining script.old) (λ lines.
        Ends options.now file lines (W.contents out.old) (W.contents out.new) fault)) }
    // Options that are not served never end with status 0, whatever is read.
    ensures served { result ≡ 0 → options.now.workers ≤ 16 }
{
    match serve(rt, alloc, options, records, script, out) {
        Ok(()) => 0,
        Err(fault) => {
            tell(fault, err);
            fault.status()
        }
    }
}

fn serve<R: Threads + Wait + Sync, A: Read, B: Read, W: Write>(
    rt: &R,
    alloc: Global,
    options: &Options,
    records: &mut A,
    script: &mut B,
    out: &mut W,
) -> Result<(), Fault>
    ensures ends { IfSome (A.remaining records.old)
        (λ file. IfSome (B.remaining script.old) (λ lines.
        Ends options.now file lines (W.contents out.old) (W.contents out.new)
        (result_err result))) }
    ensures served { OnOk result (options.now.workers ≤ 16) }
{
    if options.workers > MAX_WORKERS {
        return Err(Fault::CommandLine);
    }
    let loaded = load(alloc, records)?;
    let script = read_script(rt, alloc, usize::from(options.workers), script)?;
    run_loaded(rt, alloc, options, loaded, &script, out)
}

/// The contents of the records file.
fn load<R: Read>(alloc: Global, reader: &mut R) -> Result<Loaded, Fault>
    ensures loaded { IfOk result (λ loaded. IfSome (R.remaining reader.old)
        (λ file. IsLoadedFrom file loaded)) }
    ensures sound { IfOk result (λ loaded. Sound (opening_of loaded)) }
    ensures stops { IfErr result (λ fault. IfSome (R.remaining reader.old)
        (λ file. StopsRecords file fault)) }
{
    match read_all(alloc, reader) {
        Ok(text) => load_text(alloc, &text),
        Err(InputFault::Unreadable) => Err(Fault::UnreadableRecords),
        Err(InputFault::Memory) => Err(Fault::Memory),
    }
}

fn load_text(alloc: Global, text: &[u8]) -> Result<Loaded, Fault>
    ensures loaded { IfOk result (IsLoadedFrom text.now) }
    ensures sound { IfOk result (λ loaded. Sound (opening_of loaded)) }
    ensures stops { IfErr result (StopsRecords text.now) }
{
    match read_records(alloc, text) {
        Ok(loaded) => Ok(loaded),
        Err(fault) => Err(Fault::from(fault)),
    }
}

/// The script, each line of which has one of the forms, as so many threads check.
fn read_script<T: Threads + Sync, R: Read>(
    rt: &T,
    alloc: Global,
    threads: usize,
    reader: &mut R,
) -> Result<Script, Fault>
    ensures checked { IfOk result IsChecked }
    ensures whole { IfOk result (λ script. IfSome (R.remaining reader.old)
        (λ all. script.text.items ≡ all)) }
    ensures stops { IfErr result (λ fault. IfSome (R.remaining reader.old)
        (λ all. StopsScript all fault)) }
{
    match read_all(alloc, reader) {
        Ok(text) => check_script(rt, threads, text),
        Err(InputFault::Unreadable) => Err(Fault::UnreadableScript),
        Err(InputFault::Memory) => Err(Fault::Memory),
    }
}

/// Runs a script on the contents of a records file.
fn run_loaded<R: Threads + Wait + Sync, W: Write>(
    rt: &R,
    alloc: Global,
    options: &Options,
    loaded: Loaded,
    script: &Script,
    out: &mut W,
) -> Result<(), Fault>
    requires { MayRun options.now loaded script.now }
    ensures ran { OnOk result (HasRun options.now loaded script.now.text.items
        (W.contents out.old) (W.contents out.new)) }
    ensures stops { IfErr result (HasStopped options.now loaded script.now.text.items
        (W.contents out.old) (W.contents out.new)) }
{
    let ran = run_and_list(rt, alloc, options, loaded, script, out);
    // Nothing is written after a failed write: the buffer would be written a second time.
    if is_broken_off(&ran) {
        return ran;
    }
    let flushed = out.flush();
    match ran {
        Ok(()) if flushed.is_ok() => Ok(()),
        Ok(()) => Err(Fault::Output),
        Err(fault) => Err(fault),
    }
}

/// Whether a write has failed.
fn is_broken_off(ran: &Result<(), Fault>) -> bool {
    matches!(ran, Err(Fault::Output))
}

fn run_and_list<R: Threads + Wait + Sync, W: Write>(
    rt: &R,
    alloc: Global,
    options: &Options,
    loaded: Loaded,
    script: &Script,
    out: &mut W,
) -> Result<(), Fault>
    requires { MayRun options.now loaded script.now }
    ensures ran { OnOk result (HasRun options.now loaded script.now.text.items
        (W.contents out.old) (W.contents out.new)) }
    ensures stops { IfErr result (HasStopped options.now loaded script.now.text.items
        (W.contents out.old) (W.contents out.new)) }
{
    let workers = workers_for(options.workers, script);
    let mut register = Register::new(alloc, loaded, workers, options.list)?;
    run(rt, alloc, &mut register, script, out)?;
    let shards = register.into_shards(rt)?;
    let text = closing_lines(alloc, options, &shards)?;
    let printed = print(&text, out);
    // The process ends next, and gives back all of its memory at once. To free each block of the journals takes a sixth of a run.
    mem::forget(shards);
    printed
}

/// Runs a script, batch by batch.
fn run<R: Threads + Wait + Sync, W: Write>(
    rt: &R,
    alloc: Global,
    register: &mut Register,
    script: &Script,
    out: &mut W,
) -> Result<(), Fault>
    requires checked { IsChecked script.now }
    requires none { part_of register.now ≡ [] }
    ensures ran { OnOk result ((batches : List BatchRun)
        × RunsScript script.now.text.items register.old batches register.new
        × Appends (W.contents out.old) (W.contents out.new) (printed_of batches)) }
    ensures stops { IfErr result (λ fault.
        (printed : List ℕ) × StopsBatches script.now.text.items (state_known register.old) fault printed
        × Appends (W.contents out.old) (W.contents out.new) printed) }
{
    let mut answers = Answers::new(alloc);
    let mut ids = Vec::new(alloc);
    let mut left = Lines::new(&script.text);
    'batches: while !left.rest.is_empty() {
        // The letters of a batch stand for ids of those before it.
        ids.clear();
        ids.extend_from_slice(answers.letters.ids())?;
        let letters = ids_for(script, &ids);
        left = handle_batch(rt, alloc, register, &mut answers, left, letters)?;
        print(&answers.text, out)?;
        answers.text.clear();
    }
    Ok(())
}

/// The ids, if the script has letters.
fn ids_for<'a>(script: &Script, ids: &'a [Tid]) -> Option<&'a [Tid]>
    ensures { ArePassed script.now.lettered (option_map (λ i. i.now) result) ids.now }
{
    if script.lettered {
        return Some(ids);
    }
    None
}
