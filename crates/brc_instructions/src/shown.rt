//! What a section prints: values, and the bytes of its lines, each of which ends with a line feed.

ghost use Rattle.std.specs.Prelude.{◌≡◌, ◌++◌, ◌∷◌, [], OnOk, OnErr, IfErr, decimal};
ghost use Rattle.std.specs.Fmt.{signed_decimal};
ghost use Rattle.brc_words.specs.declared.fault.Fault.TheVariants.{OutOfMemory};
ghost use Rattle.brc_instructions.specs.Printing.{text_shown};

use crate::doing::Done;
use brc_words::{Fault, Text};
use itoa::Buffer;
use std::alloc::Allocator;

/// What `print` shows of an object: an integer's number, a copy of a text, or how many entries a container has.
#[derive(Drop)]
pub enum Shown<A: Allocator> {
    Integer(i64),
    Text(Text<A>),
    List(usize),
    Dict(usize),
    Mailbox(usize),
}

/// A word and a text, as one line more. OutOfMemory where it can't be had, and then nothing of it.
fn add_line<A: Allocator>(lines: &mut Vec<u8, A>, word: &[u8], text: &[u8]) -> Done
    ensures added { OnOk result (lines.new.items ≡ lines.old.items ++ (word.now ++ text.now ++ 10 ∷ [])) }
    ensures refused { IfErr result (λ fault. fault ≡ OutOfMemory) }
    ensures unchanged { OnErr result (lines.new.items ≡ lines.old.items) }
{
    let Some(room) = word.len().checked_add(text.len()) else {
        return Err(Fault::OutOfMemory);
    };
    let Some(room) = room.checked_add(1) else {
        return Err(Fault::OutOfMemory);
    };
    // All of the line's room is had before its first byte stands.
    lines.reserve(room)?;
    let Ok(()) = lines.extend_from_slice(word) else {
        unreachable!()
    };
    let Ok(()) = lines.extend_from_slice(text) else {
        unreachable!()
    };
    lines.push_reserved(b'\n');
    Ok(())
}

/// What is shown, as one line more. OutOfMemory where it can't be had, and then nothing of it.
pub fn add_shown<A: Allocator>(lines: &mut Vec<u8, A>, shown: &Shown<A>) -> Done
    ensures added { OnOk result (lines.new.items ≡ lines.old.items ++ (text_shown shown.now ++ 10 ∷ [])) }
    ensures refused { IfErr result (λ fault. fault ≡ OutOfMemory) }
    ensures unchanged { OnErr result (lines.new.items ≡ lines.old.items) }
{
    match shown {
        Shown::Integer(number) => add_line(lines, b"", Buffer::new().format(*number).as_bytes()),
        Shown::Text(text) => add_line(lines, b"", text.as_bytes()),
        Shown::List(entries) => add_line(
            lines,
            b"list ",
            Buffer::new().format(*entries).as_bytes(),
        ),
        Shown::Dict(entries) => add_line(
            lines,
            b"dict ",
            Buffer::new().format(*entries).as_bytes(),
        ),
        Shown::Mailbox(entries) => add_line(
            lines,
            b"mailbox ",
            Buffer::new().format(*entries).as_bytes(),
        ),
    }
}
