//! Putting a text to a writer: all of it, or Io after a front of it.

ghost use Rattle.std.specs.Prelude.{◌≡◌, ◌<◌, ◌≤◌, ◌+◌, ◌*◌, [], ◌∷◌, ◌++◌, length};
ghost use Rattle.std.specs.List.{flat_map};
ghost use Rattle.arrayvec.specs.ArrayVec.{array_vec_len};
ghost use Rattle.brc_text.specs.Tokens.{token, letter as letter_byte_of};
ghost use Rattle.brc_text.specs.Lines.{line};
ghost use Rattle.brc_text.specs.Puts.{PutsText};

use crate::token::{Letter, Token};
use arrayvec::ArrayVec;
use brc_words::Fault;
use itoa::Buffer;
use std::io::Write;

/// Writes the bytes. The first error ends it, as does a write that takes no byte; no memory is taken.
pub fn put_bytes<W: Write>(writer: &mut W, bytes: &[u8]) -> Result<(), Fault>
    ensures { PutsText (W.contents writer.old) (W.contents writer.new) result bytes.now }
{
    let mut rest = bytes;
    while !rest.is_empty() {
        match writer.write(rest) {
            Ok(0) => return Err(Fault::Io),
            Ok(count) => rest = &rest[count..],
            Err(_error) => return Err(Fault::Io),
        }
    }
    Ok(())
}

/// Eight words of at most 21 bytes, and the space or line feed behind each.
pub(crate) type LineText = ArrayVec<u8, 176>;

pub(crate) fn add_bytes(text: &mut LineText, bytes: &[u8])
    requires { array_vec_len text.old + length bytes.now ≤ 176 }

    ensures added { text.new.items ≡ text.old.items ++ bytes.now }
    ensures len { array_vec_len text.new ≡ array_vec_len text.old + length bytes.now }
{
    let _fits = text.try_extend_from_slice(bytes);
}

fn letter_byte(letter: Letter) -> u8
    ensures { result ≡ letter_byte_of letter }
{
    match letter {
        Letter::Frame => b'f',
        Letter::Entry => b'e',
        Letter::Immortal => b'i',
        Letter::Work => b'w',
        Letter::Popped => b'q',
    }
}

pub(crate) fn add_token(text: &mut LineText, word: Token)
    requires { array_vec_len text.old + 21 ≤ 176 }

    ensures added { text.new.items ≡ text.old.items ++ token word }
    ensures len { array_vec_len text.new ≤ array_vec_len text.old + 21 }
{
    match word {
        Token::Number(number) => add_bytes(text, Buffer::new().format(number).as_bytes()),
        Token::Negative(number) => {
            text.push(b'-');
            add_bytes(text, Buffer::new().format(number).as_bytes());
        }
        Token::Place(letter, number) => {
            text.push(letter_byte(letter));
            add_bytes(text, Buffer::new().format(number).as_bytes());
        }
        Token::Word(keyword) => add_bytes(text, keyword.text()),
    }
}

/// Writes the line that begins with the text: behind it each word with a space in front, and a line feed.
// Inlined, so that a line is put together in one function, as if it were written out there.
#[inline(always)]
pub(crate) fn put_behind<W: Write>(
    writer: &mut W,
    text: &mut LineText,
    words: &[Token],
) -> Result<(), Fault>
    requires { array_vec_len text.old + 22 * length words.now < 176 }

    ensures { PutsText (W.contents writer.old) (W.contents writer.new) result
        ((text.old.items ++ flat_map (λ word. 32 ∷ token word) words.now) ++ 10 ∷ []) }
{
    for word in words {
        text.push(b' ');
        add_token(text, *word);
    }
    text.push(b'\n');
    put_bytes(writer, text.as_slice())
}

/// Writes one line. It is put together on the stack and written at once.
pub fn put_line<W: Write>(writer: &mut W, words: &[Token]) -> Result<(), Fault>
    requires { length words.now ≤ 8 }

    ensures { PutsText (W.contents writer.old) (W.contents writer.new) result (line words.now) }
{
    let [first, others @ ..] = words else {
        return put_bytes(writer, b"\n");
    };
    let mut text = LineText::new();
    add_token(&mut text, *first);
    put_behind(writer, &mut text, others)
}
