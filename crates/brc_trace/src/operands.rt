//! The operands of a line: numbers in their ranges, kinds, sources, drops and changes, read and written.

ghost use Rattle.std.specs.Prelude.{◌≡◌, nat_lt};
ghost use Rattle.brc_trace.specs.Operands.{is_thread as thread_fits, is_cell, is_place, is_entry, is_queue_word};
ghost use Rattle.brc_trace.specs.Operands.{number_at, kind_named, kind_at, kind_word, source_at};
ghost use Rattle.brc_trace.specs.Operands.{source_token as source_written, dropped_at};
ghost use Rattle.brc_trace.specs.Operands.{dropped_token as dropped_written, last_at, last_token as last_written};
ghost use Rattle.brc_trace.specs.Operands.{change_named, change_at, is_bare as has_no_word, only as only_word};
ghost use Rattle.brc_trace.specs.Operands.{both as both_words};

use brc_text::{Keyword, Letter, Token};
use brc_words::{Kind, MOST_CELLS, MOST_ENTRIES, MOST_PLACES, MOST_THREADS};
use law::world::{Change, Dropped, LastDropped, Source};

/// A word of a merge queue has the bits of 32 cells.
const MOST_QUEUE_WORDS: u32 = MOST_CELLS / 32;

/// Whether a thread may have this number.
pub(crate) fn is_thread(number: u64) -> bool
    ensures { result ≡ thread_fits number }
{
    1 <= number && number <= MOST_THREADS as u64
}

/// The number of a thread.
pub(crate) fn thread_of(word: Token) -> Option<u32>
    ensures { result ≡ number_at thread_fits word }
{
    match word {
        Token::Number(number) if is_thread(number) => Some(number as u32),
        _ => None,
    }
}

/// The number, where it is one below this.
fn below(word: Token, most: u32) -> Option<u32>
    ensures { result ≡ number_at (λ number. nat_lt number most) word }
{
    match word {
        Token::Number(number) if number < most as u64 => Some(number as u32),
        _ => None,
    }
}

/// The number of a cell.
pub(crate) fn cell_of(word: Token) -> Option<u32>
    ensures { result ≡ number_at is_cell word }
{
    below(word, MOST_CELLS)
}

/// The number of a place of a frame.
pub(crate) fn place_of(word: Token) -> Option<u32>
    ensures { result ≡ number_at is_place word }
{
    below(word, MOST_PLACES)
}

/// The index of an entry.
fn entry_of(word: Token) -> Option<u32>
    ensures { result ≡ number_at is_entry word }
{
    below(word, MOST_ENTRIES)
}

/// The number of a word of a merge queue.
pub(crate) fn queue_word_of(word: Token) -> Option<u32>
    ensures { result ≡ number_at is_queue_word word }
{
    below(word, MOST_QUEUE_WORDS)
}

fn kind_named(word: Keyword) -> Option<Kind>
    ensures { result ≡ kind_named word }
{
    match word {
        Keyword::Int => Some(Kind::Int),
        Keyword::Text => Some(Kind::Text),
        Keyword::List => Some(Kind::List),
        Keyword::Dict => Some(Kind::Dict),
        Keyword::Mailbox => Some(Kind::Mailbox),
        _ => None,
    }
}

/// A kind that is born.
pub(crate) fn kind_of(word: Token) -> Option<Kind>
    ensures { result ≡ kind_at word }
{
    match word {
        Token::Word(name) => kind_named(name),
        _ => None,
    }
}

pub(crate) fn word_of_kind(kind: Kind) -> Keyword
    ensures { result ≡ kind_word kind }
{
    match kind {
        Kind::Int => Keyword::Int,
        Kind::Text => Keyword::Text,
        Kind::List => Keyword::List,
        Kind::Dict => Keyword::Dict,
        Kind::Mailbox => Keyword::Mailbox,
        Kind::Nothing | Kind::False | Kind::True => Keyword::Dash,
    }
}

/// Where a thread finds the cell that it counts up.
pub(crate) fn source_of(word: Token) -> Option<Source>
    ensures { result ≡ source_at word }
{
    match word {
        Token::Place(Letter::Frame, place) if place < MOST_PLACES as u64 => {
            Some(Source::Frame(place as u32))
        }
        Token::Place(Letter::Entry, index) if index < MOST_ENTRIES as u64 => {
            Some(Source::Entry(index as u32))
        }
        Token::Place(Letter::Immortal, cell) if cell < MOST_CELLS as u64 => {
            Some(Source::Immortal(cell as u32))
        }
        _ => None,
    }
}

pub(crate) fn source_token(source: Source) -> Token
    ensures { result ≡ source_written source }
{
    match source {
        Source::Frame(place) => Token::Place(Letter::Frame, place as u64),
        Source::Entry(index) => Token::Place(Letter::Entry, index as u64),
        Source::Immortal(cell) => Token::Place(Letter::Immortal, cell as u64),
    }
}

/// The reference that a release gives up.
pub(crate) fn dropped_of(word: Token) -> Option<Dropped>
    ensures { result ≡ dropped_at word }
{
    match word {
        Token::Place(Letter::Frame, place) if place < MOST_PLACES as u64 => {
            Some(Dropped::Frame(place as u32))
        }
        Token::Place(Letter::Work, cell) if cell < MOST_CELLS as u64 => Some(Dropped::Work(
            cell as u32,
        )),
        _ => None,
    }
}

pub(crate) fn dropped_token(dropped: Dropped) -> Token
    ensures { result ≡ dropped_written dropped }
{
    match dropped {
        Dropped::Frame(place) => Token::Place(Letter::Frame, place as u64),
        Dropped::Work(cell) => Token::Place(Letter::Work, cell as u64),
    }
}

/// The reference that goes when the shared word alone counts down.
pub(crate) fn last_of(word: Token) -> Option<LastDropped>
    ensures { result ≡ last_at word }
{
    match word {
        Token::Place(Letter::Popped, cell) if cell < MOST_CELLS as u64 => {
            Some(LastDropped::Popped(cell as u32))
        }
        Token::Word(Keyword::InHand) => Some(LastDropped::Hand),
        _ => Some(LastDropped::Dropped(dropped_of(word)?)),
    }
}

pub(crate) fn last_token(dropped: LastDropped) -> Token
    ensures { result ≡ last_written dropped }
{
    match dropped {
        LastDropped::Dropped(dropped) => dropped_token(dropped),
        LastDropped::Popped(cell) => Token::Place(Letter::Popped, cell as u64),
        LastDropped::Hand => Token::Word(Keyword::InHand),
    }
}

/// Whether there is no operand.
#[tactic(auto, unfolding(crate::specs::Operands::is_bare))]
pub(crate) fn is_bare(operands: &[Token]) -> bool
    ensures { result ≡ has_no_word operands.now }
{
    operands.is_empty()
}

/// The one operand.
#[tactic(auto, unfolding(crate::specs::Operands::only))]
pub(crate) fn only(operands: &[Token]) -> Option<Token>
    ensures { result ≡ only_word operands.now }
{
    match operands {
        [operand] => Some(*operand),
        _ => None,
    }
}

/// Both operands.
#[tactic(auto, unfolding(crate::specs::Operands::both))]
pub(crate) fn both(operands: &[Token]) -> Option<(Token, Token)>
    ensures { result ≡ both_words operands.now }
{
    match operands {
        [first, second] => Some((*first, *second)),
        _ => None,
    }
}

fn change_named(word: Keyword, operands: &[Token]) -> Option<Change>
    ensures { result ≡ change_named word operands.now }
{
    match word {
        Keyword::Keep => {
            if is_bare(operands) {
                Some(Change::Keep)
            } else {
                None
            }
        }
        Keyword::Put => Some(Change::Put(place_of(only(operands)?)?)),
        Keyword::Take => {
            let (index, place) = both(operands)?;
            Some(Change::Take {
                index: entry_of(index)?,
                place: place_of(place)?,
            })
        }
        Keyword::Swap => {
            let (index, place) = both(operands)?;
            Some(Change::Swap {
                index: entry_of(index)?,
                place: place_of(place)?,
            })
        }
        _ => None,
    }
}

/// What an unlock changes.
#[tactic(auto, unfolding(crate::specs::Operands::change_at))]
pub(crate) fn change_of(words: &[Token]) -> Option<Change>
    ensures { result ≡ change_at words.now }
{
    match words {
        [Token::Word(word), operands @ ..] => change_named(*word, operands),
        _ => None,
    }
}
