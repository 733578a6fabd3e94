//! What a note says of the instruction that a fault ended a section at.

use crate::phrases::Phrase;
use crate::places::place_of;
use crate::watch::{HeldOperand, Noted};
use crate::words::{NOTHING, NoteWord, quoted};
use crate::{first_operand, second_operand};
use brc_script::{Instruction, Register, Section};
use brc_words::{Fault, GLOBALS, Key, Kind, MOST_CELLS};
use std::alloc::Allocator;

/// How many words a reason has at most.
const MOST_WORDS: usize = 8;

/// The words of a reason, in order.
pub(crate) type Reason = [NoteWord; MOST_WORDS];

/// The cell of the immortal integer 0; those of the others from -5 to 256 stand around it.
const CELL_OF_ZERO: i64 = 8;

/// The cell of the lowest of them.
const LEAST_INT: u32 = 3;

/// These words, at most as many as a reason has.
fn worded(words: &[NoteWord]) -> Reason {
    let mut all = [NOTHING; MOST_WORDS];
    for (at, word) in words.iter().enumerate() {
        if at < MOST_WORDS {
            all[at] = *word;
        }
    }
    all
}

/// What is known of an object by the line that made it.
#[derive(Clone, Copy)]
enum KnownOfObject {
    /// An integer of which the number is known.
    Integer(i64),
    /// An object of this kind, made by this line.
    Made(Kind, u32),
    Nothing,
}

/// What the instruction of this line makes.
fn made_by<A: Allocator>(instruction: &Instruction<A>, line: u32) -> KnownOfObject {
    match instruction {
        Instruction::Int { number, .. } => KnownOfObject::Integer(*number),
        Instruction::Text { .. } => KnownOfObject::Made(Kind::Text, line),
        Instruction::List { .. } => KnownOfObject::Made(Kind::List, line),
        Instruction::Dict { .. } => KnownOfObject::Made(Kind::Dict, line),
        Instruction::Mailbox { .. } => KnownOfObject::Made(Kind::Mailbox, line),
        Instruction::Len { .. } | Instruction::Add { .. } => KnownOfObject::Made(Kind::Int, line),
        _ => KnownOfObject::Nothing,
    }
}

fn known_of<A: Allocator>(sections: &[Section<A>], operand: HeldOperand) -> KnownOfObject {
    if LEAST_INT <= operand.cell && operand.cell < GLOBALS {
        return KnownOfObject::Integer(i64::from(operand.cell) - CELL_OF_ZERO);
    }
    match place_of(sections, operand.line) {
        Some(place) => made_by(place.line.instruction(), operand.line),
        None => KnownOfObject::Nothing,
    }
}

fn is_integer(known: KnownOfObject) -> bool {
    matches!(
        known,
        KnownOfObject::Integer(_) | KnownOfObject::Made(Kind::Int, _)
    )
}

/// What a register holds, but for the line that made it.
fn holds_made(kind: Kind) -> Phrase {
    match kind {
        Kind::Int => Phrase::HoldsIntegerOf,
        Kind::Text => Phrase::HoldsTextOf,
        Kind::List => Phrase::HoldsListOf,
        Kind::Dict => Phrase::HoldsDictOf,
        Kind::Mailbox => Phrase::HoldsMailboxOf,
        Kind::Nothing | Kind::False | Kind::True => Phrase::HoldsObject,
    }
}

/// The three words of what a register holds.
fn holds(register: Register, known: KnownOfObject) -> (NoteWord, NoteWord, NoteWord) {
    let name = NoteWord::Register(register);
    match known {
        KnownOfObject::Integer(number) => (
            name,
            NoteWord::Said(Phrase::HoldsInteger),
            NoteWord::Number(number),
        ),
        KnownOfObject::Made(kind, line) => (
            name,
            NoteWord::Said(holds_made(kind)),
            NoteWord::Count(line),
        ),
        KnownOfObject::Nothing => (name, NoteWord::Said(Phrase::HoldsObject), NOTHING),
    }
}

/// An instruction that was refused, and what it was given.
#[derive(Drop)]
struct Refused<'s, A: Allocator> {
    sections: &'s [Section<A>],
    instruction: &'s Instruction<A>,
    noted: Noted,
}

impl<'s, A: Allocator> Refused<'s, A> {
    /// The first register that it read, what is known of the object there, and these words of it.
    fn first(&self, said: Phrase, word: NoteWord) -> Reason {
        match (first_operand(self.instruction), self.noted.first) {
            (Some(register), Some(operand)) => {
                let (name, holds, object) = holds(register, known_of(self.sections, operand));
                worded(&[name, holds, object, NoteWord::Said(said), word])
            }
            _ => worded(&[]),
        }
    }

    /// The same of the second.
    fn second(&self, said: Phrase) -> Reason {
        match (second_operand(self.instruction), self.noted.second) {
            (Some(register), Some(operand)) => {
                let (name, holds, object) = holds(register, known_of(self.sections, operand));
                worded(&[name, holds, object, NoteWord::Said(said)])
            }
            _ => worded(&[]),
        }
    }

    /// A register that it read was empty, or what it asked for wasn't there.
    fn no_such_place(&self) -> Reason {
        let first = match self.noted.first {
            None => first_operand(self.instruction),
            Some(_) => None,
        };
        let second = match self.noted.second {
            None => second_operand(self.instruction),
            Some(_) => None,
        };
        match (first, second) {
            (Some(first), Some(second)) => worded(&[
                NoteWord::Register(first),
                NoteWord::Said(Phrase::And),
                NoteWord::Register(second),
                NoteWord::Said(Phrase::AreEmpty),
            ]),
            (Some(register), None) | (None, Some(register)) => {
                worded(&[
                    NoteWord::Register(register),
                    NoteWord::Said(Phrase::IsEmpty),
                ])
            }
            (None, None) => self.no_such_entry(),
        }
    }

    fn no_such_entry(&self) -> Reason {
        match self.instruction {
            Instruction::Get { index, .. } | Instruction::Set { index, .. } => {
                self.first(Phrase::NoEntry, NoteWord::Count(*index))
            }
            Instruction::Receive { .. } => self.first(Phrase::NoLetters, NOTHING),
            _ => self.first(Phrase::NoEntries, NOTHING),
        }
    }

    fn wrong_kind(&self) -> Reason {
        match self.instruction {
            Instruction::Push { .. }
            | Instruction::Pop { .. }
            | Instruction::Get { .. }
            | Instruction::Set { .. } => self.first(Phrase::ListNeeded, NOTHING),
            Instruction::Put { .. } | Instruction::Find { .. } | Instruction::Delete { .. } => {
                self.first(Phrase::DictNeeded, NOTHING)
            }
            Instruction::Send { .. } | Instruction::Receive { .. } => {
                self.first(Phrase::MailboxNeeded, NOTHING)
            }
            Instruction::Len { .. } => { self.first(Phrase::ContainerNeeded, NOTHING) }
            Instruction::Add { .. } => self.no_summand(),
            _ => worded(&[]),
        }
    }

    /// A summand is no integer. The first is looked at before the second.
    fn no_summand(&self) -> Reason {
        let first = match self.noted.first {
            Some(operand) => known_of(self.sections, operand),
            None => KnownOfObject::Nothing,
        };
        if is_integer(first) {
            self.second(Phrase::IntegerNeeded)
        } else {
            self.first(Phrase::IntegerNeeded, NOTHING)
        }
    }

    /// A key or a name under which nothing is.
    fn no_such_key(&self) -> Reason {
        match self.instruction {
            Instruction::Find { key, .. } | Instruction::Delete { key, .. } => {
                self.first(Phrase::NothingUnder, word_of_key(key))
            }
            Instruction::Fetch { name, .. } => worded(&[
                NoteWord::Said(Phrase::NothingUnderName),
                quoted(name),
                NoteWord::Said(Phrase::NobodyShares),
            ]),
            Instruction::Unshare { name, .. } => {
                worded(&[NoteWord::Said(Phrase::NothingUnderName), quoted(name)])
            }
            _ => worded(&[]),
        }
    }

    fn full(&self) -> Reason {
        match self.instruction {
            Instruction::Share { .. } => { worded(&[NoteWord::Said(Phrase::AllGlobals)]) }
            _ => self.first(Phrase::AllEntries, NOTHING),
        }
    }

    fn overflow(&self) -> Reason {
        let sum = self.first(Phrase::Comma, NOTHING);
        let more = self.second(Phrase::SumTooLarge);
        worded(&[
            sum[0], sum[1], sum[2], sum[3], more[0], more[1], more[2], more[3],
        ])
    }
}

fn word_of_key<A: Allocator>(key: &Key<A>) -> NoteWord {
    match key {
        Key::Int(number) => NoteWord::Number(*number),
        Key::Text(text) => quoted(text),
    }
}

/// All cells of a heap of so many are taken.
fn heap_full(cells: u32) -> Reason {
    let advice = if cells < MOST_CELLS {
        Phrase::CellsTaken
    } else {
        Phrase::MostCellsTaken
    };
    worded(&[
        NoteWord::Said(Phrase::All),
        NoteWord::Count(cells),
        NoteWord::Said(advice),
    ])
}

/// Why the fault of this number ended a section at the instruction, on a heap of so many cells. No words where nothing
/// is known of it.
pub(crate) fn reason_of<A: Allocator>(
    sections: &[Section<A>],
    instruction: &Instruction<A>,
    fault: u8,
    cells: u32,
    noted: Noted,
) -> Reason {
    let refused = Refused {
        sections,
        instruction,
        noted,
    };
    if fault == Fault::HeapFull.number() {
        heap_full(cells)
    } else if fault == Fault::NoSuchPlace.number() {
        refused.no_such_place()
    } else if fault == Fault::NoSuchKey.number() {
        refused.no_such_key()
    } else if fault == Fault::WrongKind.number() {
        refused.wrong_kind()
    } else if fault == Fault::Full.number() {
        refused.full()
    } else if fault == Fault::Overflow.number() {
        refused.overflow()
    } else if fault == Fault::OutOfMemory.number() {
        worded(&[NoteWord::Said(Phrase::NoMemory)])
    } else if fault == Fault::FrameFull.number() {
        worded(&[NoteWord::Said(Phrase::AllPlaces)])
    } else if fault == Fault::LedgerFull.number() {
        worded(&[NoteWord::Said(Phrase::AllBirths)])
    } else {
        worded(&[])
    }
}
