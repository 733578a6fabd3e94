//! What is known of a run beside its output: why each fault came, and which line made what is left.

ghost use Rattle.brc_run.specs.Notes.{PutsSome};

use crate::phrases::Phrase;
use crate::places::place_of;
use crate::reasons::reason_of;
use crate::watch::Watch;
use crate::words::{NOTHING, NoteWord, name, put_words, quoted};
use crate::{RunReport, SectionEnd};
use brc_report::Remain;
use brc_script::{Instruction, Script};
use brc_words::Fault;
use std::alloc::Global;
use std::io::Write;

/// The notes of a run, with the script and the report that they are of.
#[derive(Drop)]
pub struct Notes {
    pub(crate) script: Script<Global>,
    pub(crate) run: RunReport<Global>,
    /// How many cells the heap had.
    pub(crate) cells: u32,
    pub(crate) watch: Watch,
}

/// Writes why a fault, by its number, ended the section at this place of the script, on this line.
fn put_fault<W: Write>(
    errors: &mut W,
    notes: &Notes,
    index: usize,
    fault: u8,
    line: u32,
) -> Result<(), Fault>
    ensures { PutsSome (W.contents errors.old) (W.contents errors.new) result }
{
    let sections = notes.script.sections();
    let (Some(place), Some(noted)) = (place_of(sections, line), notes.watch.noted(index)) else {
        return Ok(());
    };
    let reason = reason_of(
        sections,
        place.line.instruction(),
        fault,
        notes.cells,
        noted,
    );
    let (in_turn, turn, of_repeat) = if place.repeats {
        (
            NoteWord::Said(Phrase::InTurn),
            NoteWord::Count(noted.turn),
            NoteWord::Said(Phrase::OfItsRepeat),
        )
    } else {
        (NOTHING, NOTHING, NOTHING)
    };
    put_words(
        errors,
        &[
            NoteWord::Said(Phrase::Why),
            name(&place.section.name),
            NoteWord::Said(Phrase::Line),
            NoteWord::Count(line),
            NoteWord::Said(Phrase::Colon),
            reason[0],
            reason[1],
            reason[2],
            reason[3],
            reason[4],
            reason[5],
            reason[6],
            reason[7],
            in_turn,
            turn,
            of_repeat,
            NoteWord::Said(Phrase::Ends),
        ],
    )
}

/// Writes which line made an object that is left, and of a text its first bytes.
fn put_remain<W: Write>(errors: &mut W, notes: &Notes, remain: &Remain) -> Result<(), Fault>
    ensures { PutsSome (W.contents errors.old) (W.contents errors.new) result }
{
    let line = notes.watch.maker(remain.cell);
    let Some(place) = place_of(notes.script.sections(), line) else {
        return Ok(());
    };
    let (comma, text) = match place.line.instruction() {
        Instruction::Text { text, .. } => (NoteWord::Said(Phrase::Text), quoted(text)),
        _ => (NOTHING, NOTHING),
    };
    put_words(
        errors,
        &[
            NoteWord::Said(Phrase::WhyCell),
            NoteWord::Count(remain.cell),
            NoteWord::Said(Phrase::WasMadeBy),
            name(&place.section.name),
            NoteWord::Said(Phrase::Line),
            NoteWord::Count(line),
            comma,
            text,
            NoteWord::Said(Phrase::Ends),
        ],
    )
}

/// Writes why the section at this place of the script ended so, if a fault ended it.
fn put_end<W: Write>(
    errors: &mut W,
    notes: &Notes,
    index: usize,
    end: &SectionEnd<Global>,
) -> Result<(), Fault>
    ensures { PutsSome (W.contents errors.old) (W.contents errors.new) result }
{
    match end.fault {
        Some((fault, line)) => put_fault(errors, notes, index, fault, line),
        None => Ok(()),
    }
}

/// Writes why each section ended that a fault ended, in the script's order.
fn put_faults<W: Write>(errors: &mut W, notes: &Notes) -> Result<(), Fault>
    ensures { PutsSome (W.contents errors.old) (W.contents errors.new) result }
{
    for (index, end) in notes.run.sections.as_slice().iter().enumerate() {
        match put_end(errors, notes, index, end) {
            Ok(()) => {}
            Err(fault) => return Err(fault),
        }
    }
    Ok(())
}

/// Writes which line made each object that is left, in the report's order.
fn put_remains<W: Write>(errors: &mut W, notes: &Notes) -> Result<(), Fault>
    ensures { PutsSome (W.contents errors.old) (W.contents errors.new) result }
{
    for remain in notes.run.report.remains.as_slice() {
        match put_remain(errors, notes, remain) {
            Ok(()) => {}
            Err(fault) => return Err(fault),
        }
    }
    Ok(())
}

/// Writes the notes, each as a line that begins with `brc: why: `: for each section that a fault ended, in the script's
/// order, what its last instruction met; then for each object of the report which line made it. All of it, or Io after
/// a front of it. No memory is taken.
pub fn put_notes<W: Write>(errors: &mut W, notes: &Notes) -> Result<(), Fault>
    ensures { PutsSome (W.contents errors.old) (W.contents errors.new) result }
{
    match put_faults(errors, notes) {
        Ok(()) => {}
        Err(fault) => return Err(fault),
    }
    put_remains(errors, notes)
}
