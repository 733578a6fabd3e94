//! The words of a note, and writing them.

ghost use Rattle.brc_run.specs.Notes.{PutsSome};

use crate::phrases::Phrase;
use brc_script::Register;
use brc_text::{Excerpt, put_bytes, put_parts, put_quoted};
use brc_words::{Fault, Text};
use itoa::Buffer;
use std::alloc::Allocator;
use std::io::Write;

/// A word of a note: plain data, so that a note is put together before any of it is written.
#[derive(Clone, Copy)]
pub(crate) enum NoteWord {
    Said(Phrase),
    /// How many, or the number of a line or of a cell.
    Count(u32),
    /// An integer's number.
    Number(i64),
    /// A register's name.
    Register(Register),
    /// A section's name, which has at most 32 bytes.
    Name(Excerpt),
    /// The first bytes of a text of the script, between quotes.
    Quoted(Excerpt),
}

/// No word.
pub(crate) const NOTHING: NoteWord = NoteWord::Said(Phrase::Nothing);

/// A text of the script, by its first bytes.
pub(crate) fn quoted<A: Allocator>(text: &Text<A>) -> NoteWord {
    NoteWord::Quoted(Excerpt::of(text.as_bytes()))
}

/// A section's name.
pub(crate) fn name<A: Allocator>(text: &Text<A>) -> NoteWord {
    NoteWord::Name(Excerpt::of(text.as_bytes()))
}

fn put_text<W: Write>(errors: &mut W, text: &[u8]) -> Result<(), Fault>
    ensures { PutsSome (W.contents errors.old) (W.contents errors.new) result }
{
    put_bytes(errors, text)
}

fn put_register<W: Write>(errors: &mut W, register: Register) -> Result<(), Fault>
    ensures { PutsSome (W.contents errors.old) (W.contents errors.new) result }
{
    put_parts(
        errors,
        &[b"r", Buffer::new().format(register.number()).as_bytes()],
    )
}

fn put_between_quotes<W: Write>(errors: &mut W, excerpt: &Excerpt) -> Result<(), Fault>
    ensures { PutsSome (W.contents errors.old) (W.contents errors.new) result }
{
    put_quoted(errors, excerpt)
}

/// Writes a word.
fn put_word<W: Write>(errors: &mut W, word: &NoteWord) -> Result<(), Fault>
    ensures { PutsSome (W.contents errors.old) (W.contents errors.new) result }
{
    match word {
        NoteWord::Said(phrase) => put_text(errors, phrase.text().as_bytes()),
        NoteWord::Count(count) => put_text(errors, Buffer::new().format(*count).as_bytes()),
        NoteWord::Number(number) => put_text(errors, Buffer::new().format(*number).as_bytes()),
        NoteWord::Register(register) => put_register(errors, *register),
        NoteWord::Name(excerpt) => put_text(errors, excerpt.bytes()),
        NoteWord::Quoted(excerpt) => put_between_quotes(errors, excerpt),
    }
}

/// Writes words in order, with nothing between them. The first error ends it.
pub(crate) fn put_words<W: Write>(errors: &mut W, words: &[NoteWord]) -> Result<(), Fault>
    ensures { PutsSome (W.contents errors.old) (W.contents errors.new) result }
{
    for word in words {
        match put_word(errors, word) {
            Ok(()) => {}
            Err(fault) => return Err(fault),
        }
    }
    Ok(())
}
