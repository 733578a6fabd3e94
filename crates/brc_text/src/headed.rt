//! Lines that begin with a head of any bytes: one of words, and one of numbers, as many as there are. Both are put
//! together on the stack; `specs/Headed.antt` has their texts.

ghost use Rattle.std.specs.Prelude.{◌≡◌, ◌<◌, ◌≤◌, ◌++◌, ◌∷◌, OnOk, length, decimal};
ghost use Rattle.arrayvec.specs.ArrayVec.{array_vec_len};
ghost use Rattle.brc_text.specs.declared.headed.TheConstants.{MOST_BEFORE};
ghost use Rattle.brc_text.specs.Headed.{headed_line, numbers_line};
ghost use Rattle.brc_text.specs.Puts.{PutsText, PutsBut};

use crate::putting::{LineText, add_bytes, add_token, put_behind, put_bytes};
use crate::token::Token;
use brc_words::Fault;
use std::io::Write;

/// Writes one line: the head, of at most 21 bytes, and each of at most 7 words behind a space. It is put together on
/// the stack and written at once; the first error ends it.
pub fn put_headed_line<W: Write>(writer: &mut W, head: &[u8], words: &[Token]) -> Result<(), Fault>
    requires head { length head.now ≤ 21 }
    requires words { length words.now ≤ 7 }

    ensures { PutsText (W.contents writer.old) (W.contents writer.new) result (headed_line head.now words.now) }
{
    let mut text = LineText::new();
    add_bytes(&mut text, head);
    put_behind(writer, &mut text, words)
}

/// Behind so many bytes a space, a word and the line feed still have room.
const MOST_BEFORE: usize = 153;

/// Writes what is gathered, but only where one word more might not have room.
fn make_room<W: Write>(writer: &mut W, text: &mut LineText) -> Result<(), Fault>
    ensures puts { PutsBut (W.contents writer.old) (W.contents writer.new) result text.old.items text.new.items }
    ensures room { OnOk result (array_vec_len text.new ≤ MOST_BEFORE) }
    ensures waits { array_vec_len text.old ≤ MOST_BEFORE → writer.new ≡ writer.old }
{
    if text.len() <= MOST_BEFORE {
        return Ok(());
    }
    put_bytes(writer, text.as_slice())?;
    text.clear();
    Ok(())
}

/// Gathers one number behind a space. While there is room nothing is written.
fn add_number<W: Write>(writer: &mut W, text: &mut LineText, number: u32) -> Result<(), Fault>
    ensures puts { PutsBut (W.contents writer.old) (W.contents writer.new) result
        (text.old.items ++ 32 ∷ decimal number) text.new.items }
    ensures room { OnOk result (array_vec_len text.new < 176) }
    ensures waits { array_vec_len text.old ≤ MOST_BEFORE → writer.new ≡ writer.old }
{
    make_room(writer, text)?;
    text.push(b' ');
    add_token(text, Token::Number(number as u64));
    Ok(())
}

/// Writes one line: the head, of at most 21 bytes, and each number behind a space. It is put together on the stack and
/// written at its end, and before that where the next number might not have room; the first error ends it.
pub fn put_numbers_line<W: Write>(writer: &mut W, head: &[u8], numbers: &[u32]) -> Result<(), Fault>
    requires { length head.now ≤ 21 }

    ensures { PutsText (W.contents writer.old) (W.contents writer.new) result (numbers_line head.now numbers.now) }
{
    let mut text = LineText::new();
    add_bytes(&mut text, head);
    for number in numbers {
        add_number(writer, &mut text, *number)?;
    }
    text.push(b'\n');
    put_bytes(writer, text.as_slice())
}
