//! Writing an excerpt between quotes.

ghost use Rattle.std.specs.Prelude.{◌≡◌, ◌≤◌, ◌+◌, ◌<◌, ◌++◌};
ghost use Rattle.arrayvec.specs.ArrayVec.{array_vec_len};
ghost use Rattle.brc_text.specs.Puts.{PutsText};
ghost use Rattle.brc_text.specs.Excerpts.{is_printable, digit_of, shown, quoted};

use crate::excerpt::Excerpt;
use crate::put_bytes;
use arrayvec::ArrayVec;
use brc_words::Fault;
use std::io::Write;

/// Four bytes for each of an excerpt, and the two quotes.
type QuotedText = ArrayVec<u8, 258>;

/// Whether the byte is shown as itself.
fn is_printable(byte: u8) -> bool
    ensures { result ≡ is_printable byte }
{
    32 <= byte && byte <= 126
}

/// The digit of a number below 16.
fn digit_of(number: u8) -> u8
    requires { number < 16 }

    ensures { result ≡ digit_of number }
{
    if number < 10 {
        48 + number
    } else {
        55 + number
    }
}

/// Adds what is shown of the byte.
fn add_shown(text: &mut QuotedText, byte: u8)
    requires { array_vec_len text.old + 4 ≤ 258 }

    ensures added { text.new.items ≡ text.old.items ++ shown byte }
    ensures len { array_vec_len text.new ≤ array_vec_len text.old + 4 }
{
    if is_printable(byte) {
        text.push(byte);
    } else {
        text.push(b'\\');
        text.push(b'x');
        text.push(digit_of(byte / 16));
        text.push(digit_of(byte % 16));
    }
}

/// Writes the excerpt between quotes. It is put together on the stack and written at once.
pub fn put_quoted<W: Write>(writer: &mut W, excerpt: &Excerpt) -> Result<(), Fault>
    ensures { PutsText (W.contents writer.old) (W.contents writer.new) result (quoted excerpt.now) }
{
    let bytes = excerpt.bytes();
    let mut text = QuotedText::new();
    text.push(b'"');
    for byte in bytes {
        add_shown(&mut text, *byte);
    }
    text.push(b'"');
    put_bytes(writer, text.as_slice())
}
