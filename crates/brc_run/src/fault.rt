//! The line of the fault that ended a section.

ghost use Rattle.brc_text.specs.Puts.{PutsText};
ghost use Rattle.brc_run.specs.Sections.{fault_line_of, fault_line, fault_part};

use crate::names::name_of_number;
use brc_text::put_parts;
use brc_words::Fault;
use itoa::Buffer;
use std::io::Write;

/// Writes the line of these words.
fn put_fault_words<W: Write>(
    writer: &mut W,
    name: &[u8],
    number: &[u8],
    word: &[u8],
    line: &[u8],
) -> Result<(), Fault>
    ensures { PutsText (W.contents writer.old) (W.contents writer.new) result
        (fault_line_of name.now number.now word.now line.now) }
{
    put_parts(
        writer,
        &[
            name,
            b": fault ",
            number,
            b" ",
            word,
            b" line ",
            line,
            b"\n",
        ],
    )
}

fn put_fault_line<W: Write>(writer: &mut W, name: &[u8], number: u8, line: u32) -> Result<(), Fault>
    ensures { PutsText (W.contents writer.old) (W.contents writer.new) result
        (fault_line name.now (number, line)) }
{
    put_fault_words(
        writer,
        name,
        Buffer::new().format(number).as_bytes(),
        name_of_number(number).as_bytes(),
        Buffer::new().format(line).as_bytes(),
    )
}

/// Writes the line of the fault, where there is one.
pub(crate) fn put_fault<W: Write>(
    writer: &mut W,
    name: &[u8],
    fault: Option<(u8, u32)>,
) -> Result<(), Fault>
    ensures { PutsText (W.contents writer.old) (W.contents writer.new) result
        (fault_part name.now fault) }
{
    match fault {
        Some((number, line)) => put_fault_line(writer, name, number, line),
        None => Ok(()),
    }
}
