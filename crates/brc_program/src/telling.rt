//! Error lines: what a fault is, and where it is known why it came.

ghost use Rattle.brc_text.specs.Puts.{PutsText};
ghost use Rattle.brc_program.specs.Errors.{bad_line, numbered_line, fault_line, unreplayed_text, told_text};
ghost use Rattle.brc_program.specs.Errors.{mistake_line, unscripted_text, uncommanded_text};

use crate::explanations::put_why;
use crate::failed::Failed;
use crate::unread::{Unread, put_unread};
use brc_mistakes::{Mistake, put_mistake};
use brc_text::{put_bytes, put_parts};
use brc_trace::Unreplayed;
use brc_words::{Fault, Reason};
use itoa::Buffer;
use std::io::Write;

/// Writes that a line is not what it should be.
fn put_bad_line<E: Write>(errors: &mut E, line: u32, what: &[u8]) -> Result<(), Fault>
    ensures { PutsText (E.contents errors.old) (E.contents errors.new) result (bad_line line what.now) }
{
    put_parts(
        errors,
        &[
            b"brc: line ",
            Buffer::new().format(line).as_bytes(),
            b": not ",
            what,
            b"\n",
        ],
    )
}

/// Writes a fault by its number and its name.
fn put_numbered<E: Write>(errors: &mut E, number: u8, name: &str) -> Result<(), Fault>
    ensures { PutsText (E.contents errors.old) (E.contents errors.new) result (numbered_line number name.now) }
{
    put_parts(
        errors,
        &[
            b"brc: fault ",
            Buffer::new().format(number).as_bytes(),
            b" ",
            name.as_bytes(),
            b"\n",
        ],
    )
}

/// Writes the line of a fault.
fn put_fault<E: Write>(errors: &mut E, fault: Fault) -> Result<(), Fault>
    ensures { PutsText (E.contents errors.old) (E.contents errors.new) result (fault_line fault) }
{
    match fault {
        Fault::BadOptions => put_bytes(errors, b"brc: bad command line\n"),
        Fault::BadTrace {
            line,
            reason: Reason::NotALine,
        } => put_bad_line(errors, line, b"a trace line"),
        Fault::BadTrace {
            line,
            reason: Reason::NotEnabled,
        } => put_bad_line(errors, line, b"enabled"),
        Fault::BadScript { line } => put_bad_line(errors, line, b"a script line"),
        _ => put_numbered(errors, fault.number(), fault.name()),
    }
}

/// Writes the line of a fault, and where it is known why it came, the line that says so.
fn put_unreplayed<E: Write>(errors: &mut E, failed: &Unreplayed) -> Result<(), Fault>
    ensures { PutsText (E.contents errors.old) (E.contents errors.new) result (unreplayed_text failed.now) }
{
    let Some(why) = &failed.why else {
        return put_fault(errors, failed.fault);
    };
    put_fault(errors, failed.fault)?;
    put_why(errors, why)
}

/// Writes what is wrong with a bad line of a script.
fn put_mistake_line<E: Write>(errors: &mut E, mistake: &Mistake) -> Result<(), Fault>
    ensures { PutsText (E.contents errors.old) (E.contents errors.new) result (mistake_line mistake.now) }
{
    put_bytes(errors, b"brc: why: ")?;
    put_mistake(errors, mistake)?;
    put_bytes(errors, b"\n")
}

/// Writes which line isn't one of a script, and why.
fn put_unscripted<E: Write>(errors: &mut E, line: u32, mistake: &Mistake) -> Result<(), Fault>
    ensures { PutsText (E.contents errors.old) (E.contents errors.new) result (unscripted_text line mistake.now) }
{
    put_bad_line(errors, line, b"a script line")?;
    put_mistake_line(errors, mistake)
}

/// Writes that the command line is bad, and why.
fn put_uncommanded<E: Write>(errors: &mut E, unread: &Unread) -> Result<(), Fault>
    ensures { PutsText (E.contents errors.old) (E.contents errors.new) result (uncommanded_text unread.now) }
{
    put_bytes(errors, b"brc: bad command line\n")?;
    put_unread(errors, unread)
}

/// Writes why nothing came of what was asked for.
pub(crate) fn put_told<E: Write>(errors: &mut E, failed: &Failed) -> Result<(), Fault>
    ensures { PutsText (E.contents errors.old) (E.contents errors.new) result (told_text failed.now) }
{
    match failed {
        Failed::Fault(unreplayed) => put_unreplayed(errors, unreplayed),
        Failed::NoGraph(line) => put_bad_line(errors, *line, b"a report or world line"),
        Failed::NoScript(line, mistake) => put_unscripted(errors, *line, mistake),
        Failed::NoCommand(unread) => put_uncommanded(errors, unread),
    }
}
