//! Writing a mistake.

ghost use Rattle.std.specs.Prelude.{[], ◌∷◌, ◌++◌, codes, decimal};
ghost use Rattle.brc_text.specs.Puts.{PutsText};
ghost use Rattle.brc_text.specs.Parts.{joined};
ghost use Rattle.brc_text.specs.Excerpts.{quoted};
ghost use Rattle.brc_mistakes.specs.Openings.{word_of};
ghost use Rattle.brc_mistakes.specs.Texts.{together, nearest_text, mistake_text};

use crate::line_opening::Opening;
use crate::mistake::Mistake;
use brc_text::{Excerpt, put_bytes, put_parts, put_quoted};
use brc_words::Fault;
use itoa::Buffer;
use std::io::Write;

/// Writes the word between quotes, and the parts behind it.
fn put_word<W: Write>(writer: &mut W, word: &Excerpt, parts: &[&[u8]]) -> Result<(), Fault>
    ensures { PutsText (W.contents writer.old) (W.contents writer.new) result
        (quoted word.now ++ joined parts.now) }
{
    put_quoted(writer, word)?;
    put_parts(writer, parts)
}

/// Writes that no line begins with the word, and which word is near.
fn put_no_instruction<W: Write>(
    writer: &mut W,
    word: &Excerpt,
    nearest: Option<Opening>,
) -> Result<(), Fault>
    ensures { PutsText (W.contents writer.old) (W.contents writer.new) result
        (quoted word.now ++ together (nearest_text nearest)) }
{
    match nearest {
        Some(opening) => put_word(
            writer,
            word,
            &[b" is no instruction; the nearest is ", opening.word()],
        ),
        None => put_word(writer, word, &[b" is no instruction"]),
    }
}

/// Writes that the register stands twice in the line.
fn put_twice<W: Write>(writer: &mut W, register: u8) -> Result<(), Fault>
    ensures { PutsText (W.contents writer.old) (W.contents writer.new) result
        (together (codes "r" ∷ decimal register ∷ codes " stands twice in it" ∷ [])) }
{
    put_parts(
        writer,
        &[
            b"r",
            Buffer::new().format(register).as_bytes(),
            b" stands twice in it",
        ],
    )
}

/// Writes which line comes before the end.
fn put_not_closed<W: Write>(writer: &mut W, turn: Opening, line: u32) -> Result<(), Fault>
    ensures { PutsText (W.contents writer.old) (W.contents writer.new) result
        (together (codes "no end closes it before the " ∷ word_of turn ∷ codes " of line " ∷ decimal line ∷ [])) }
{
    put_parts(
        writer,
        &[
            b"no end closes it before the ",
            turn.word(),
            b" of line ",
            Buffer::new().format(line).as_bytes(),
        ],
    )
}

/// Writes what is wrong: a text without a line feed. All of it, or Io after a front of it. No memory is taken.
pub fn put_mistake<W: Write>(writer: &mut W, mistake: &Mistake) -> Result<(), Fault>
    ensures { PutsText (W.contents writer.old) (W.contents writer.new) result (mistake_text mistake.now) }
{
    match mistake {
        Mistake::TooLong => put_bytes(writer, b"it has more than 16777216 bytes"),
        Mistake::NoSection => put_bytes(writer, b"no line begins with section"),
        Mistake::OddComment => put_bytes(writer, b"the comment has a byte that is not ASCII"),
        Mistake::CarriageReturn => put_bytes(writer, b"it has a carriage return"),
        Mistake::Tab => put_bytes(writer, b"it has a tab"),
        Mistake::OddByte => put_bytes(writer, b"it has a byte that is not printed ASCII"),
        Mistake::WideSpace => put_bytes(
            writer,
            b"a space stands at one of its ends or behind another",
        ),
        Mistake::NoInstruction { word, nearest } => put_no_instruction(writer, word, *nearest),
        Mistake::NotItsForm(opening) => put_parts(
            writer,
            &[b"its form is ", opening.form().as_bytes()],
        ),
        Mistake::LeadingZero(word) => put_word(writer, word, &[b" begins with a zero"]),
        Mistake::PlusSign(word) => put_word(writer, word, &[b" begins with a plus sign"]),
        Mistake::Unfit { word, operand } => put_word(
            writer,
            word,
            &[b" is no ", operand.rule().as_bytes()],
        ),
        Mistake::Twice(register) => put_twice(writer, *register),
        Mistake::BeforeSections => put_bytes(writer, b"no section begins above it"),
        Mistake::SameName(name) => put_word(writer, name, &[b" is the name of another section"]),
        Mistake::TooManySections => put_bytes(writer, b"a script has at most 63 sections"),
        Mistake::NoRepeat => put_bytes(writer, b"no repeat is open"),
        Mistake::NeverClosed => put_bytes(writer, b"no end closes it"),
        Mistake::NotClosedBefore { turn, line } => put_not_closed(writer, *turn, *line),
    }
}
