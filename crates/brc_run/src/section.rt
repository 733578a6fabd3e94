//! The text of a section.

ghost use Rattle.brc_text.specs.Puts.{PutsText};
ghost use Rattle.brc_run.specs.Sections.{section_text};

use crate::fault::put_fault;
use crate::section_lines::put_told_lines;
use brc_words::Fault;
use std::io::Write;

/// Writes what is shown of a section: each of its lines behind its name, and the fault that ended it, if one did, by
/// its number and the number of its line. All of it, or Io after a front of it. No memory is taken.
pub fn write_section<W: Write>(
    writer: &mut W,
    name: &[u8],
    lines: &[u8],
    fault: Option<(u8, u32)>,
) -> Result<(), Fault>
    ensures { PutsText (W.contents writer.old) (W.contents writer.new) result
        (section_text name.now lines.now fault) }
{
    put_told_lines(writer, name, lines)?;
    put_fault(writer, name, fault)
}
