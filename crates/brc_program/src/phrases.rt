//! What the second error line says of which part of a condition fails.

ghost use Rattle.std.specs.Prelude.{◌≡◌, []};
ghost use Rattle.brc_text.specs.Puts.{PutsText};
ghost use Rattle.brc_program.specs.Explanations.{phrase_text, own_phrase as own_words, told_phrase as told_words};
ghost use Rattle.brc_program.specs.Explanations.{cell_phrase as cell_words, finer_phrase};

use brc_text::put_parts;
use brc_trace::{CellReason, Finer, OwnReason, ToldReason};
use brc_words::Fault;
use itoa::Buffer;
use std::io::Write;

/// A text, a number, a text and a number, each where it has one.
#[derive(Clone, Copy)]
struct PhraseParts {
    before: &'static str,
    number: Option<u32>,
    behind: &'static str,
    last: Option<u32>,
}

/// A phrase without a number.
fn plain(text: &'static str) -> PhraseParts
    ensures before { result.before.now ≡ text.now }
    ensures number { result.number ≡ None }
    ensures behind { result.behind.now ≡ [] }
    ensures last { result.last ≡ None }
{
    PhraseParts {
        before: text,
        number: None,
        behind: "",
        last: None,
    }
}

/// A phrase about this number.
fn about(before: &'static str, number: u32, behind: &'static str) -> PhraseParts
    ensures before { result.before.now ≡ before.now }
    ensures number { result.number ≡ Some number }
    ensures behind { result.behind.now ≡ behind.now }
    ensures last { result.last ≡ None }
{
    PhraseParts {
        before,
        number: Some(number),
        behind,
        last: None,
    }
}

/// Of the thread's own part.
fn own_phrase(reason: OwnReason) -> PhraseParts
    ensures before { result.before.now ≡ (own_words reason).0 }
    ensures number { result.number ≡ (own_words reason).1 }
    ensures behind { result.behind.now ≡ (own_words reason).2 }
    ensures last { result.last ≡ (own_words reason).3 }
{
    match reason {
        OwnReason::ManyBirths => plain("its thread has made 140737488355328 objects"),
        OwnReason::ImmortalKind(_) => plain("objects of its kind are immortal"),
        OwnReason::PlaceTooHigh(place) => about("no frame has place ", place, ""),
        OwnReason::PlaceFilled(place) => about("place ", place, " is filled"),
        OwnReason::PlaceVacant(place) => about("place ", place, " is vacant"),
        OwnReason::PlaceLocked(place) => about("place ", place, " is the locked one"),
        OwnReason::NoEntry(index) => about("entry ", index, " is not there"),
        OwnReason::ManyEntries => plain("its locked object has 1048576 entries"),
        OwnReason::HasEntries(cell) => about("cell ", cell, " has entries"),
        OwnReason::NotOnWorklist(cell) => about("cell ", cell, " is not on the worklist"),
        OwnReason::OnWorklist(cell) => about("cell ", cell, " is on the worklist"),
        OwnReason::NotPopped(cell) => about("cell ", cell, " is not popped"),
        OwnReason::NoWord(word) => about("there is no queue word ", word, ""),
        OwnReason::WordClosed(word) => about("queue word ", word, " is already closed"),
        OwnReason::WordOpen(word) => about("queue word ", word, " is already open"),
        OwnReason::NotNextToClose(word) => about("queue word ", word, " is not the next to close"),
        OwnReason::NotNextToOpen(word) => about("queue word ", word, " is not the next to open"),
        OwnReason::StillFilled(None) => plain("a place is still filled"),
        OwnReason::StillFilled(Some(place)) => about("place ", place, " is still filled"),
        OwnReason::StillPopped(None) => plain("a cell is still popped"),
        OwnReason::StillPopped(Some(cell)) => about("cell ", cell, " is still popped"),
        OwnReason::StillWork(None) => plain("a cell is still on its worklist"),
        OwnReason::StillWork(Some(cell)) => about("cell ", cell, " is still on its worklist"),
    }
}

/// Of whom a step tells, and of what a thread that closes leaves.
fn told_phrase(reason: ToldReason) -> PhraseParts
    ensures before { result.before.now ≡ (told_words reason).0 }
    ensures number { result.number ≡ (told_words reason).1 }
    ensures behind { result.behind.now ≡ (told_words reason).2 }
    ensures last { result.last ≡ (told_words reason).3 }
{
    match reason {
        ToldReason::NotRegistered(thread) => about("thread ", thread, " is not registered"),
        ToldReason::NoWord { thread, word } => PhraseParts {
            before: "thread ",
            number: Some(thread),
            behind: " has no queue word ",
            last: Some(word),
        },
        ToldReason::StillWork(None) => plain("a cell is still on its worklist"),
        ToldReason::StillWork(Some(cell)) => about("cell ", cell, " is still on its worklist"),
        ToldReason::StillOwns(cell) => about("it still owns cell ", cell, ""),
    }
}

/// Of the cell that the event means.
fn cell_phrase(reason: CellReason) -> PhraseParts
    ensures before { result.before.now ≡ (cell_words reason).0 }
    ensures number { result.number ≡ (cell_words reason).1 }
    ensures behind { result.behind.now ≡ (cell_words reason).2 }
    ensures last { result.last ≡ (cell_words reason).3 }
{
    match reason {
        CellReason::Immortal => plain("cells below 266 are immortal"),
        CellReason::NotFree => plain("its cell is not free"),
        CellReason::NotItsOwn => plain("its thread does not own the cell"),
        CellReason::OwnerInactive => plain("its thread owns the cell and is not active"),
        CellReason::ItsOwn => plain("its thread owns the cell, so it counts on the local count"),
        CellReason::AtLimit => plain("its local count is at the limit, so shup"),
        CellReason::BelowLimit => plain("its local count is below the limit, so up"),
        CellReason::NotQueued => plain("its cell is not queued"),
        CellReason::NotMerged => plain("its cell is not merged"),
        CellReason::NotDefault => plain("its cell is queued or merged, so last"),
        CellReason::InDefault => plain("its cell is neither queued nor merged"),
        CellReason::NotAboveZero => plain("its shared count is not above 0, so ask"),
        CellReason::NoOwner => plain("its cell has no owner"),
        CellReason::HasOwner => plain("its cell still has an owner"),
        CellReason::HandFree => plain("its thread's hand is free"),
        CellReason::LockedBy(thread) => about("thread ", thread, " has locked its cell"),
        CellReason::NoContainer => plain("its object is no container"),
    }
}

/// Of any condition that has several parts.
fn phrase_of(finer: Finer) -> PhraseParts
    ensures before { result.before.now ≡ (finer_phrase finer).0 }
    ensures number { result.number ≡ (finer_phrase finer).1 }
    ensures behind { result.behind.now ≡ (finer_phrase finer).2 }
    ensures last { result.last ≡ (finer_phrase finer).3 }
{
    match finer {
        Finer::Own(reason) => own_phrase(reason),
        Finer::Told(reason) => told_phrase(reason),
        Finer::Cell(reason) => cell_phrase(reason),
    }
}

/// Writes the phrase of these parts.
fn put_phrase<E: Write>(
    errors: &mut E,
    before: &str,
    number: Option<u32>,
    behind: &str,
    last: Option<u32>,
) -> Result<(), Fault>
    ensures { PutsText (E.contents errors.old) (E.contents errors.new) result
        (phrase_text (before.now, number, behind.now, last)) }
{
    match (number, last) {
        (None, None) => put_parts(errors, &[before.as_bytes(), behind.as_bytes()]),
        (None, Some(last)) => put_parts(
            errors,
            &[
                before.as_bytes(),
                behind.as_bytes(),
                Buffer::new().format(last).as_bytes(),
            ],
        ),
        (Some(number), None) => put_parts(
            errors,
            &[
                before.as_bytes(),
                Buffer::new().format(number).as_bytes(),
                behind.as_bytes(),
            ],
        ),
        (Some(number), Some(last)) => put_parts(
            errors,
            &[
                before.as_bytes(),
                Buffer::new().format(number).as_bytes(),
                behind.as_bytes(),
                Buffer::new().format(last).as_bytes(),
            ],
        ),
    }
}

/// Writes which part of a condition fails.
pub(crate) fn put_finer<E: Write>(errors: &mut E, finer: Finer) -> Result<(), Fault>
    ensures { PutsText (E.contents errors.old) (E.contents errors.new) result (phrase_text (finer_phrase finer)) }
{
    let phrase = phrase_of(finer);
    put_phrase(
        errors,
        phrase.before,
        phrase.number,
        phrase.behind,
        phrase.last,
    )
}
