//! The words of a command line.

ghost use Rattle.std.specs.Prelude.{◌≡◌, drop, map, string_bytes, Err, IfOk, None, Some};
ghost use Rattle.clap.specs.Words.{app_of, found_of};
ghost use Rattle.hlr_input.specs.Command.{hlr, Finds};
ghost use Rattle.hlr_input.specs.CommandLine.{Said, anywhere, asked_by, nothing_said, whole, words_said};
ghost use Rattle.hlr_input.specs.Seen.{asked_of};

use crate::options::{Options, WordsFault, workers_in};
use clap::{Arg, ArgAction, ArgMatches, Command};
use std::alloc::{AllocError, Global};

/// The command line as `clap` reads it.
fn command<'a>(alloc: Global) -> Result<Command<'a>, AllocError>
    ensures { IfOk result (λ command. app_of command ≡ hlr) }
{
    let records = Arg::new(alloc, "records").required(true);
    let script = Arg::new(alloc, "script").required(true);
    let workers = Arg::new(alloc, "workers")
        .long("workers")
        .action(ArgAction::Set);
    let list = Arg::new(alloc, "list")
        .long("list")
        .action(ArgAction::SetTrue);
    let save = Arg::new(alloc, "save")
        .long("save")
        .action(ArgAction::SetTrue);
    Command::new(alloc, "hlr")
        .arg(records)?
        .arg(script)?
        .arg(workers)?
        .arg(list)?
        .arg(save)
}

/// What `clap` finds in the words.
fn find_matches<'a>(alloc: Global, words: &'a [String]) -> Result<ArgMatches<'a>, WordsFault>
    ensures found { IfOk result (λ matches. (said : Said)
        × (words_said anywhere (drop 1 (map string_bytes words.now)) nothing_said ≡ Some said)
        × Finds said (found_of matches)) }
    ensures line { result ≡ Err WordsFault.Line → asked_by (map string_bytes words.now) ≡ None }
{
    Ok(command(alloc)?.try_get_matches_from(words)?)
}

/// The options from what `clap` found.
fn options_in(alloc: Global, matches: &ArgMatches<'_>) -> Result<Options, WordsFault>
    ensures ok { (said : Said) → Finds said (found_of matches.now)
        → IfOk result (λ options. whole said ≡ Some (asked_of options)) }
    ensures line { (said : Said) → Finds said (found_of matches.now)
        → result ≡ Err WordsFault.Line → whole said ≡ None }
{
    let (Some(records), Some(script)) = (matches.get_str("records"), matches.get_str("script"))
    else {
        return Err(WordsFault::Line);
    };
    let workers = match matches.get_str("workers") {
        Some(text) => workers_in(text.as_bytes()).ok_or(WordsFault::Line)?,
        None => 0,
    };
    Ok(Options {
        records: String::from_str(alloc, records)?,
        script: String::from_str(alloc, script)?,
        workers,
        list: matches.get_flag("list"),
        save: matches.get_flag("save"),
    })
}

/// What the words ask for; the first word is the program's name: `hlr RECORDS SCRIPT [--workers N] [--list] [--save]`, N from
/// 0 to 16. Each option occurs at most once; `--workers=N` is accepted, and `--` ends the options.
pub fn read_words(alloc: Global, words: &[String]) -> Result<Options, WordsFault>
    // The result is exactly what the words ask for, unless memory runs out.
    ensures ok { IfOk result (λ options. asked_by (map string_bytes words.now)
        ≡ Some (asked_of options)) }
    ensures line { result ≡ Err WordsFault.Line → asked_by (map string_bytes words.now) ≡ None }
{
    let matches = find_matches(alloc, words)?;
    options_in(alloc, &matches)
}
