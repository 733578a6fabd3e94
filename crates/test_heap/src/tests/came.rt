//! What comes of a step, and whether it is what the row says.

use brc_words::{Fault, Kind, Note};
use std::process::Abort;

/// What a step came to.
#[derive(Clone, Copy, Debug, PartialEq, Eq)]
pub(super) enum Came {
    /// It passed, and there is nothing to be seen.
    Passed,
    Refused(Fault),
    /// A reference to the object of this cell.
    Cell(u32),
    /// So many.
    Count(u64),
    /// An integer with this number.
    Int(i64),
    /// An object of this kind.
    Of(Kind),
    /// A scalar with this note.
    Scalar(Note),
    /// An integer with this number, and a note.
    IntWith(i64, Note),
    /// An object of this kind, and a note.
    With(Kind, Note),
    /// So many births and frees.
    Ledger(u64, u64),
    /// Yes or no.
    Is(bool),
    /// Whether it is what the row says.
    Said(bool),
}

/// The number of this text.
pub(super) fn number(rt: &impl Abort, text: &str) -> u32 {
    let Ok(number) = text.parse::<u32>() else {
        panic!(rt; "{text} is no number")
    };
    number
}

/// How a row names a kind.
fn name_of(kind: Kind) -> &'static str {
    match kind {
        Kind::Int => "int",
        Kind::Text => "text",
        Kind::List => "list",
        Kind::Dict => "dict",
        Kind::Mailbox => "mailbox",
        Kind::Nothing => "none",
        Kind::False => "false",
        Kind::True => "true",
    }
}

/// Whether the text says this number: as it is, or as a number and `+n`; `n` is the count.
fn says_number(text: &str, number: u64, count: u32) -> bool {
    if text == "n" {
        return number == u64::from(count);
    }
    match text.strip_suffix("+n") {
        Some(from) => { from.parse::<u64>().ok() == Some(number.wrapping_sub(u64::from(count))) }
        None => text.parse::<u64>().ok() == Some(number),
    }
}

/// Whether the text says this note: its label, and its bits behind a `/`.
fn says_note(text: &str, note: Note) -> bool {
    match text.split_once("/") {
        Some((label, bits)) => {
            label.parse::<u32>().ok() == Some(note.label)
                && bits.parse::<u64>().ok() == Some(note.bits)
        }
        None => false,
    }
}

/// What the text says in front of ` with ` this note; nothing, where it says another note or none.
fn said_with(text: &str, note: Note) -> Option<&str> {
    match text.split_once(" with ") {
        Some((said, noted)) if says_note(noted, note) => Some(said),
        _ => None,
    }
}

/// Whether the text says so many births and frees.
fn says_ledger(text: &str, births: u64, frees: u64) -> bool {
    match text.split_once(" born, ") {
        Some((born, freed)) => match freed.strip_suffix(" freed") {
            Some(freed) => {
                born.parse::<u64>().ok() == Some(births) && freed.parse::<u64>().ok() == Some(frees)
            }
            None => false,
        },
        None => false,
    }
}

impl Came {
    /// Whether it is what the row says, of which `n` is this count.
    pub(super) fn is(self, answer: &str, count: u32) -> bool {
        match self {
            Came::Passed => answer.is_empty(),
            Came::Refused(fault) => answer == fault.name(),
            Came::Cell(cell) => answer.is_empty() || says_number(answer, u64::from(cell), count),
            Came::Count(found) => says_number(answer, found, count),
            Came::Int(found) => answer.parse::<i64>().ok() == Some(found),
            Came::Of(kind) => answer == name_of(kind),
            Came::Scalar(note) => says_note(answer, note),
            Came::IntWith(found, note) => match said_with(answer, note) {
                Some(said) => said.parse::<i64>().ok() == Some(found),
                None => false,
            },
            Came::With(kind, note) => said_with(answer, note) == Some(name_of(kind)),
            Came::Ledger(births, frees) => says_ledger(answer, births, frees),
            Came::Said(same) => same,
            Came::Is(yes) => answer == if yes { "yes" } else { "no" },
        }
    }

    /// What a call came to that answers nothing.
    pub(super) fn of(answer: Result<(), Fault>) -> Came {
        match answer {
            Ok(()) => Came::Passed,
            Err(fault) => Came::Refused(fault),
        }
    }

    /// What a look at a number came to.
    pub(super) fn of_count(answer: Result<usize, Fault>) -> Came {
        match answer {
            Ok(count) => Came::Count(count as u64),
            Err(fault) => Came::Refused(fault),
        }
    }
}
