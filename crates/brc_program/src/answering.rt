//! The program over any streams: what it does for each invocation, its statuses and its error lines.

ghost use Rattle.std.specs.Prelude.{◌≡◌, ◌≤◌, ◌⊎◌, true, false, None, codes, IfOk, MatchOption};
ghost use Rattle.brc_words.specs.declared.fault.Fault.TheVariants as faults;
ghost use Rattle.brc_mistakes.specs.Mistakes.{IsMistake};
ghost use Rattle.brc_program.specs.Command.{AreWords, asks_why, is_to_explain};
ghost use Rattle.brc_program.specs.Errors.{WritesError, TellsNotes};
ghost use Rattle.brc_program.specs.Performing.{status_of_world, unexplained, failed_of, Performs, IsPerformed};
ghost use Rattle.brc_program.specs.Performing.{AnswersWords, ProgramEnds};
ghost use Rattle.brc_program.specs.Performing.{FailsAs, IsUndone, status_of_run};
ghost use Rattle.brc_program.specs.Statuses.{status_of, status_of_failed};

use crate::command::{Invocation, ask_why, read_words};
use crate::failed::Failed;
use crate::gate::Open;
use crate::telling::put_told;
use crate::unread::why_unread;
use brc_graph::{Undrawn, draw};
use brc_mistakes::mistake_of;
use brc_run::{Notes, RunEnded, RunOptions, put_notes, run_script, run_script_explained};
use brc_text::put_bytes;
use brc_trace::{Unreplayed, run_replay, run_replay_explained};
use brc_words::Fault;
use std::alloc::Global;
use std::io::{Read, Write};
use std::sync::Wait;
use std::thread::Threads;

/// No mortal object is live at the end.
const NOTHING_LIVE: u8 = 0;
/// Some are.
const SOMETHING_LIVE: u8 = 1;
/// The command line is bad.
const BAD_WORDS: u8 = 2;
/// The text that was read is bad.
const BAD_TEXT: u8 = 3;
/// A growth was refused, or a fault ended a section.
const FAULTED: u8 = 4;
/// A stream failed.
const STREAM: u8 = 5;

/// Does what the words ask for, and returns the status. Of several statuses the highest counts.
///
/// For `brc replay` the output, the error line and the status come of `run_replay`; for `brc run`, of `run_script` with
/// the usual options; for `brc graph`, of `draw`. For other words they come of some invocation: which options or which help they ask for isn't
/// promised. A fault's status is 5 if it can't be told; the first write that fails is the last. If a word is
/// `--explain`, lines that give reasons may stand behind the fault's line, or alone if there is none.
pub fn program<T: Threads + Wait + Sync, R: Read + Drop, W: Write, E: Write>(
    rt: &T,
    alloc: Global,
    words: &[String],
    reader: R,
    writer: &mut W,
    errors: &mut E,
) -> u8
    ensures within { result ≤ 5 }
    ensures came { ProgramEnds (asks_why words.now ≡ true)
        (AnswersWords words.now (R.remaining reader) (W.contents writer.old) (W.contents writer.new))
        (E.contents errors.old) (E.contents errors.new) result }

    // The command lines without an option, for which no reason is told.
    ensures replay { AreWords words.now (codes "replay") →
        ProgramEnds ⊥ (IsPerformed (Invocation.Replay false) (R.remaining reader)
        (W.contents writer.old) (W.contents writer.new))
        (E.contents errors.old) (E.contents errors.new) result }
    ensures run { AreWords words.now (codes "run") →
        ProgramEnds ⊥ (IsPerformed (Invocation.Run RunOptions.DEFAULT false) (R.remaining reader)
        (W.contents writer.old) (W.contents writer.new))
        (E.contents errors.old) (E.contents errors.new) result }
    ensures graph { AreWords words.now (codes "graph") →
        ProgramEnds ⊥ (IsPerformed Invocation.Graph (R.remaining reader)
        (W.contents writer.old) (W.contents writer.new))
        (E.contents errors.old) (E.contents errors.new) result }
{
    let mut notes = None;
    match answer(rt, alloc, words, reader, writer, &mut notes) {
        Ok(status) => tell_notes(errors, &notes, status),
        Err(failed) => refuse_with_why(errors, &failed),
    }
}

/// Writes the notes of a run, if there are any, and answers the run's status; 5 where they couldn't be written.
fn tell_notes<E: Write>(errors: &mut E, notes: &Option<Notes>, status: u8) -> u8
    ensures none { notes.now ≡ None → (E.contents errors.new ≡ E.contents errors.old) × (result ≡ status) }
    ensures within { status ≤ 4 → result ≤ 5 }
    ensures told { ((E.contents errors.new ≡ E.contents errors.old) × (result ≡ status))
        ⊎ TellsNotes (E.contents errors.old) (E.contents errors.new) status result }
{
    let Some(notes) = notes else {
        return status;
    };
    match put_notes(errors, notes) {
        Ok(()) => status,
        Err(_fault) => STREAM,
    }
}

/// Tells of a fault, and answers its status; 5 where it couldn't be told. The first write that fails is the last.
pub fn refuse<E: Write>(errors: &mut E, fault: Fault) -> u8
    ensures within { result ≤ 5 }
    ensures tells { WritesError (E.contents errors.old) (E.contents errors.new) (unexplained fault) result }
{
    refuse_with_why(errors, &unexplained(fault))
}

/// Tells of a fault, and of why it came where that is known, and answers its status.
fn refuse_with_why<E: Write>(errors: &mut E, failed: &Failed) -> u8
    ensures within { result ≤ 5 }
    ensures tells { WritesError (E.contents errors.old) (E.contents errors.new) failed.now result }
{
    match put_told(errors, failed) {
        Ok(()) => status_of_failed(failed),
        Err(_) => STREAM,
    }
}

/// A fault that is told without a reason.
fn unexplained(fault: Fault) -> Failed
    ensures { result ≡ unexplained fault }
{
    Failed::Fault(Unreplayed { fault, why: None })
}

/// Why there is no picture.
fn failed_of(undrawn: Undrawn) -> Failed
    ensures { result ≡ failed_of undrawn }
{
    match undrawn {
        Undrawn::BadLine(line) => Failed::NoGraph(line),
        Undrawn::OutOfMemory => unexplained(Fault::OutOfMemory),
        Undrawn::Io => unexplained(Fault::Io),
    }
}

/// The status of a world, by whether something lives in it.
fn status_of_world(lives: bool) -> u8
    ensures { result ≡ status_of_world lives }
{
    match lives {
        true => SOMETHING_LIVE,
        false => NOTHING_LIVE,
    }
}

/// Why a script gave nothing: of a bad line, what is wrong with it.
fn failed_at(fault: Fault, text: &[u8]) -> Failed
    ensures { FailsAs (IsMistake text.now) fault result }
{
    match fault {
        Fault::BadScript { line } => match mistake_of(text, line) {
            Some(mistake) => Failed::NoScript(line, mistake),
            None => unexplained(fault),
        },
        _ => unexplained(fault),
    }
}

/// The same, if the text is there.
fn failed_run(fault: Fault, text: &Option<Vec<u8>>) -> Failed
    ensures { MatchOption text.now (result ≡ unexplained fault) (λ bytes. FailsAs (IsMistake bytes.items) fault result) }
{
    match text {
        Some(bytes) => failed_at(fault, bytes.as_slice()),
        None => unexplained(fault),
    }
}

/// The status of a script's run.
fn status_of_run(ended: RunEnded) -> u8
    ensures { result ≡ status_of_run ended }
{
    if ended.faulted {
        FAULTED
    } else {
        status_of_world(ended.lives)
    }
}

/// Runs a script, and answers its status.
fn run_plain<T: Threads + Wait + Sync, R: Read + Drop, W: Write>(
    rt: &T,
    alloc: Global,
    options: RunOptions,
    reader: R,
    writer: &mut W,
) -> Result<u8, Failed>
    ensures within { IfOk result (λ status. status ≤ 4) }
    ensures performs { Performs (Invocation.Run options false) (R.remaining reader)
        (W.contents writer.old) (W.contents writer.new) result }
{
    match run_script(rt, alloc, options, reader, writer, &Open) {
        Ok(ended) => Ok(status_of_run(ended)),
        Err(fault) => Err(unexplained(fault)),
    }
}

/// The same, and keeps what is known of the run, and tells what is wrong with a bad script.
fn run_explained<T: Threads + Wait + Sync, R: Read + Drop, W: Write>(
    rt: &T,
    alloc: Global,
    options: RunOptions,
    reader: R,
    writer: &mut W,
    notes: &mut Option<Notes>,
) -> Result<u8, Failed>
    ensures within { IfOk result (λ status. status ≤ 4) }
    ensures performs { Performs (Invocation.Run options true) (R.remaining reader)
        (W.contents writer.old) (W.contents writer.new) result }
{
    let ran = run_script_explained(rt, alloc, options, reader, writer);
    *notes = ran.notes;
    match ran.ended {
        Ok(ended) => Ok(status_of_run(ended)),
        Err(fault) => Err(failed_run(fault, &ran.text)),
    }
}

/// One or the other.
fn run<T: Threads + Wait + Sync, R: Read + Drop, W: Write>(
    rt: &T,
    alloc: Global,
    options: RunOptions,
    explain: bool,
    reader: R,
    writer: &mut W,
    notes: &mut Option<Notes>,
) -> Result<u8, Failed>
    ensures within { IfOk result (λ status. status ≤ 4) }
    ensures performs { Performs (Invocation.Run options explain) (R.remaining reader)
        (W.contents writer.old) (W.contents writer.new) result }
    ensures quiet { explain ≡ false → notes.new ≡ notes.old }
{
    if explain {
        run_explained(rt, alloc, options, reader, writer, notes)
    } else {
        run_plain(rt, alloc, options, reader, writer)
    }
}

/// Does what is asked for; its status, before what was written is flushed. What is known of a run that is to be
/// explained is kept in the notes.
fn perform<T: Threads + Wait + Sync, R: Read + Drop, W: Write>(
    rt: &T,
    alloc: Global,
    asked: Invocation,
    reader: R,
    writer: &mut W,
    notes: &mut Option<Notes>,
) -> Result<u8, Failed>
    ensures within { IfOk result (λ status. status ≤ 4) }
    ensures performs { Performs asked (R.remaining reader) (W.contents writer.old) (W.contents writer.new)
        result }
    ensures quiet { is_to_explain asked ≡ false → notes.new ≡ notes.old }
{
    match asked {
        Invocation::Help(text) => match put_bytes(writer, text.as_bytes()) {
            Ok(()) => Ok(NOTHING_LIVE),
            Err(fault) => Err(unexplained(fault)),
        },
        Invocation::Replay { explain: false } => match run_replay(alloc, reader, writer) {
            Ok(lives) => Ok(status_of_world(lives)),
            Err(fault) => Err(unexplained(fault)),
        },
        Invocation::Replay { explain: true } => match run_replay_explained(alloc, reader, writer) {
            Ok(lives) => Ok(status_of_world(lives)),
            Err(failed) => Err(Failed::Fault(failed)),
        },
        Invocation::Run { options, explain } => {
            run(rt, alloc, options, explain, reader, writer, notes)
        }
        Invocation::Graph => match draw(alloc, reader, writer) {
            Ok(()) => Ok(NOTHING_LIVE),
            Err(undrawn) => Err(failed_of(undrawn)),
        },
    }
}

/// Does what is asked for; its status, once the whole answer is written and flushed.
fn carry_out<T: Threads + Wait + Sync, R: Read + Drop, W: Write>(
    rt: &T,
    alloc: Global,
    asked: Invocation,
    reader: R,
    writer: &mut W,
    notes: &mut Option<Notes>,
) -> Result<u8, Failed>
    ensures within { IfOk result (λ status. status ≤ 4) }
    ensures done { IsPerformed asked (R.remaining reader) (W.contents writer.old) (W.contents writer.new) result }
    ensures quiet { is_to_explain asked ≡ false → notes.new ≡ notes.old }
{
    let status = match perform(rt, alloc, asked, reader, writer, notes) {
        Ok(status) => status,
        Err(failed) => return Err(failed),
    };
    match writer.flush() {
        Ok(()) => Ok(status),
        Err(_) => Err(unexplained(Fault::Io)),
    }
}

/// Why the words ask for nothing. The word at fault is named only if they ask for reasons.
fn undone(alloc: Global, words: &[String], fault: Fault) -> Failed
    requires { (fault ≡ faults.BadOptions) ⊎ (fault ≡ faults.OutOfMemory) }

    ensures { IsUndone words.now result }
{
    match fault {
        Fault::BadOptions if ask_why(words) => match why_unread(alloc, words) {
            Some(unread) => Failed::NoCommand(unread),
            None => unexplained(fault),
        },
        _ => unexplained(fault),
    }
}

/// The same, by the words that ask for it.
fn answer<T: Threads + Wait + Sync, R: Read + Drop, W: Write>(
    rt: &T,
    alloc: Global,
    words: &[String],
    reader: R,
    writer: &mut W,
    notes: &mut Option<Notes>,
) -> Result<u8, Failed>
    ensures within { IfOk result (λ status. status ≤ 4) }
    ensures answers { AnswersWords words.now (R.remaining reader) (W.contents writer.old)
        (W.contents writer.new) result }
    ensures quiet { asks_why words.now ≡ false → notes.new ≡ notes.old }
    ensures replay { AreWords words.now (codes "replay") →
        IsPerformed (Invocation.Replay false) (R.remaining reader)
        (W.contents writer.old) (W.contents writer.new) result × (notes.new ≡ notes.old) }
    ensures run { AreWords words.now (codes "run") →
        IsPerformed (Invocation.Run RunOptions.DEFAULT false) (R.remaining reader)
        (W.contents writer.old) (W.contents writer.new) result × (notes.new ≡ notes.old) }
    ensures graph { AreWords words.now (codes "graph") →
        IsPerformed Invocation.Graph (R.remaining reader)
        (W.contents writer.old) (W.contents writer.new) result × (notes.new ≡ notes.old) }
{
    match read_words(alloc, words) {
        Ok(asked) => carry_out(rt, alloc, asked, reader, writer, notes),
        Err(fault) => Err(undone(alloc, words, fault)),
    }
}

/// The status of a fault.
fn status_of(fault: Fault) -> u8
    ensures within { result ≤ 5 }
    ensures status { result ≡ status_of fault }
{
    match fault {
        Fault::BadOptions => BAD_WORDS,
        Fault::BadTrace { .. } => BAD_TEXT,
        Fault::BadScript { .. } => BAD_TEXT,
        Fault::Io => STREAM,
        _ => FAULTED,
    }
}

/// The status of what failed.
fn status_of_failed(failed: &Failed) -> u8
    ensures within { result ≤ 5 }
    ensures status { result ≡ status_of_failed failed.now }
{
    match failed {
        Failed::Fault(unreplayed) => status_of(unreplayed.fault),
        Failed::NoGraph(_) => BAD_TEXT,
        Failed::NoScript(_, _) => BAD_TEXT,
        Failed::NoCommand(_) => BAD_WORDS,
    }
}
