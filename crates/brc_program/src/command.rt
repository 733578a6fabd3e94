//! The words of the command line.

ghost use Rattle.std.specs.Prelude.{◌≡◌, ◌≤◌, ◌⊎◌, ◌↔◌, ℕ, true, false, Ok, Some, None, codes, drop};
ghost use Rattle.std.specs.Prelude.{IfErr, IfOk, IfSome, IsTrue};
ghost use Rattle.std.specs.Option.{option_and_then};
ghost use Rattle.brc_text.specs.Numbers.{number_at};
ghost use Rattle.brc_program.specs.Command.{AreWords, IfRun, is_explain, asks_why, is_to_explain};
ghost use Rattle.brc_run.specs.Words.{AreRunOptions};

use crate::help::{ABOUT, MORE, OF_GRAPH, OF_REPLAY, OF_RUN};
use brc_run::{MOST_TURNS, RunOptions};
use brc_text::number_of;
use brc_words::{FEWEST_CELLS, Fault, MOST_CELLS, MOST_LOCAL};
use clap::error::ErrorKind;
use clap::{Arg, ArgAction, ArgMatches, Command};
use std::alloc::{AllocError, Global};

/// What the program is asked for.
#[derive(Debug, Drop)]
pub enum Invocation {
    /// This text, on standard output.
    Help(String),
    /// To replay the trace on standard input, and to say why it is refused, where that is asked for too.
    Replay { explain: bool },
    /// To run the script on standard input, its sections on threads; and to say why it is bad, why sections end by faults
    /// and who made what is left, if that is asked for too.
    Run { options: RunOptions, explain: bool },
    /// To draw what holds what in the report or the world on standard input.
    Graph,
}

/// The number of an option, by the word given for it: the usual one where none is, else what the word spells, from
/// `least` to `most`. A sign or a leading zero would be a second spelling, and is BadOptions.
fn number_of_option(word: Option<&str>, usual: u32, least: u32, most: u32) -> Result<u32, Fault>
    requires { (least ≤ usual) × (usual ≤ most) }

    ensures within { IfOk result (λ number. (least ≤ number) × (number ≤ most)) }
    ensures usual { word.entry ≡ None → result ≡ Ok usual }
    ensures said { IfSome word.entry (λ said. IfOk result (λ number. number_at said.now ≡ Some number)) }
    ensures taken { (number : ℕ) → option_and_then (λ said. number_at said.now) word.entry ≡ Some number →
        least ≤ number → number ≤ most → result ≡ Ok number }
    ensures refused { IfErr result (λ fault. fault ≡ Fault.BadOptions) }
{
    let Some(said) = word else {
        return Ok(usual);
    };
    match number_of(said.as_bytes()) {
        Some(number) if least as u64 <= number && number <= most as u64 => Ok(number as u32),
        _ => Err(Fault::BadOptions),
    }
}

fn run_options(options: &ArgMatches) -> Result<RunOptions, Fault>
    ensures within { IfOk result AreRunOptions }
    ensures refused { IfErr result (λ fault. fault ≡ Fault.BadOptions) }
{
    let usual = RunOptions::DEFAULT;
    let word = options.get_str("cells");
    let cells = number_of_option(word, usual.cells, FEWEST_CELLS, MOST_CELLS)?;
    let word = options.get_str("budget");
    let budget = number_of_option(word, usual.budget as u32, 1, MOST_TURNS as u32)?;
    let word = options.get_str("local-limit");
    let local_limit = number_of_option(word, usual.local_limit, 1, MOST_LOCAL)?;
    Ok(RunOptions {
        cells,
        budget: budget as usize,
        local_limit,
    })
}

/// `replay` with its option.
fn replay_command<'a>(alloc: Global) -> Result<Command<'a>, AllocError> {
    let explain = Arg::new(alloc, "explain")
        .long("explain")
        .action(ArgAction::SetTrue)
        .help("Say why a trace is refused, on a second error line");
    Command::new(alloc, "replay")
        .about("Writes the world that the trace on standard input leads to")
        .override_usage("brc replay [OPTIONS]")
        .after_help(OF_REPLAY)
        .arg(explain)
}

/// `run` with its options.
fn run_command<'a>(alloc: Global) -> Result<Command<'a>, AllocError> {
    let cells = Arg::new(alloc, "cells")
        .long("cells")
        .value_name("N")
        .help("Cells of the heap, 512 to 65536 (default 4096)");
    let budget = Arg::new(alloc, "budget")
        .long("budget")
        .value_name("K")
        .help("Turns of work an instruction, 1 to 1000000 (default 64)");
    let local_limit = Arg::new(alloc, "local-limit")
        .long("local-limit")
        .value_name("L")
        .help("The most an owner counts up, 1 to 4294967294 (default)");
    let explain = Arg::new(alloc, "explain")
        .long("explain")
        .action(ArgAction::SetTrue)
        .help("Say why on standard error, in lines brc: why: ..");
    Command::new(alloc, "run")
        .about("Runs the script on standard input, its sections on threads")
        .override_usage("brc run [OPTIONS]")
        .after_help(OF_RUN)
        .arg(cells)?
        .arg(budget)?
        .arg(local_limit)?
        .arg(explain)
}

/// `graph`, which has no option.
fn graph_command<'a>(alloc: Global) -> Command<'a> {
    Command::new(alloc, "graph")
        .about("Draws what holds what in the report or world on standard input")
        .override_usage("brc graph")
        .after_help(OF_GRAPH)
}

/// Whether the words are the program's name, whatever that is, and this one.
fn are_words(words: &[String], said: &str) -> bool
    ensures { IsTrue result ↔ AreWords words.now said.now }
{
    match words {
        [_name, word] => word.as_str() == said,
        _ => false,
    }
}

/// The program with its three commands.
pub(crate) fn brc_command<'a>(alloc: Global) -> Result<Command<'a>, AllocError> {
    Command::new(alloc, "brc")
        .about(ABOUT)
        .version("0.2.0")
        .no_binary_name(true)
        .after_help(MORE)
        .subcommand_required(true)
        .subcommand(replay_command(alloc)?)?
        .subcommand(run_command(alloc)?)?
        .subcommand(graph_command(alloc))
}

/// The words behind the program's name. `clap` gets these alone, so that help says `brc` by whatever name the program
/// was started.
pub(crate) fn behind_name(words: &[String]) -> &[String]
    ensures { result.now ≡ drop 1 words.now }
{
    match words {
        [] => words,
        [_name, behind @ ..] => behind,
    }
}

fn is_explain(word: &String) -> bool
    ensures { result ≡ is_explain word.now }
{
    word.as_bytes() == b"--explain".as_slice()
}

/// Whether a word behind the program's name is `--explain`.
pub(crate) fn ask_why(words: &[String]) -> bool
    ensures { result ≡ asks_why words.now }
{
    behind_name(words).iter().any(|word| is_explain(word))
}

/// Reads words of which nothing is known. What stands in them only `clap` says.
fn read_any(alloc: Global, words: &[String]) -> Result<Invocation, Fault>
    ensures within { IfOk result (λ asked. IfRun asked AreRunOptions) }
    ensures asked { IfOk result (λ asked. is_to_explain asked ≡ true → asks_why words.now ≡ true) }
    ensures refused { IfErr result (λ fault. (fault ≡ Fault.BadOptions) ⊎ (fault ≡ Fault.OutOfMemory)) }
{
    let asks = ask_why(words);
    match brc_command(alloc)?.try_get_matches_from(behind_name(words)) {
        Ok(matches) => match matches.subcommand() {
            Some(("replay", options)) => Ok(Invocation::Replay {
                explain: asks && options.get_flag("explain"),
            }),
            Some(("run", options)) => Ok(Invocation::Run {
                options: run_options(options)?,
                explain: asks && options.get_flag("explain"),
            }),
            Some(("graph", _)) => Ok(Invocation::Graph),
            _ => Err(Fault::BadOptions),
        },
        Err(error) => match error.kind() {
            ErrorKind::DisplayHelp | ErrorKind::DisplayVersion => {
                Ok(Invocation::Help(error.to_string(alloc)?))
            }
            ErrorKind::OutOfMemory => Err(Fault::OutOfMemory),
            _ => Err(Fault::BadOptions),
        },
    }
}

/// Reads the words; the first is the program's name. If `replay`, `run` or `graph` is the only other one, that command
/// without an option is returned, whatever memory there is. Which options or which help other words ask for isn't
/// promised.
pub fn read_words(alloc: Global, words: &[String]) -> Result<Invocation, Fault>
    ensures within { IfOk result (λ asked. IfRun asked AreRunOptions) }
    // A reason is asked for only by the option.
    ensures asked { IfOk result (λ asked. is_to_explain asked ≡ true → asks_why words.now ≡ true) }
    ensures refused { IfErr result (λ fault. (fault ≡ Fault.BadOptions) ⊎ (fault ≡ Fault.OutOfMemory)) }

    // The command lines without an option.
    ensures replay { AreWords words.now (codes "replay") →
        result ≡ Ok (Invocation.Replay false) }
    ensures run { AreWords words.now (codes "run") →
        result ≡ Ok (Invocation.Run RunOptions.DEFAULT false) }
    ensures graph { AreWords words.now (codes "graph") →
        result ≡ Ok Invocation.Graph }
{
    if are_words(words, "replay") {
        return Ok(Invocation::Replay { explain: false });
    }
    if are_words(words, "run") {
        return Ok(Invocation::Run {
            options: RunOptions::DEFAULT,
            explain: false,
        });
    }
    if are_words(words, "graph") {
        return Ok(Invocation::Graph);
    }
    read_any(alloc, words)
}
