//! The lines that a section printed, each behind the section's name.

ghost use Rattle.std.specs.Prelude.{◌≡◌, ◌<◌, ◌∷◌, Bool, length};
ghost use Rattle.brc_text.specs.Lines.{pieces};
ghost use Rattle.brc_text.specs.Puts.{PutsText};
ghost use Rattle.brc_run.specs.Sections.{told_line, told_lines};

use brc_text::put_parts;
use brc_words::Fault;
use std::io::Write;

/// The first line without its line feed, and what stands behind it.
fn first_line(text: &[u8]) -> (&[u8], &[u8])
    requires { 0 < length text.now }

    ensures line { (ended : Bool) × (pieces text.now ≡ (result.0.now, ended) ∷ pieces result.1.now) }
    ensures shorter { length result.1.now < length text.now }
{
    for (at, byte) in text.iter().enumerate() {
        if *byte == b'\n' {
            return (&text[..at], &text[at + 1..]);
        }
    }
    (text, &[])
}

fn put_told_line<W: Write>(writer: &mut W, name: &[u8], line: &[u8]) -> Result<(), Fault>
    ensures { PutsText (W.contents writer.old) (W.contents writer.new) result
        (told_line name.now line.now) }
{
    put_parts(writer, &[name, b": ", line, b"\n"])
}

/// Writes each line of the text.
pub(crate) fn put_told_lines<W: Write>(
    writer: &mut W,
    name: &[u8],
    text: &[u8],
) -> Result<(), Fault>
    ensures { PutsText (W.contents writer.old) (W.contents writer.new) result
        (told_lines name.now text.now) }
{
    let mut rest = text;
    while !rest.is_empty() {
        let (line, behind) = first_line(rest);
        put_told_line(writer, name, line)?;
        rest = behind;
    }
    Ok(())
}
