//! What a run came to, as text.

ghost use Rattle.std.specs.Prelude.{◌≡◌};
ghost use Rattle.std.specs.List.{list_any};
ghost use Rattle.brc_text.specs.Puts.{PutsText};
ghost use Rattle.brc_run.specs.Tellings.{sections_text, run_text, ends_by_fault};

use crate::section::write_section;
use crate::{RunReport, SectionEnd};
use brc_report::write_report;
use brc_script::{Script, Section};
use brc_words::Fault;
use std::alloc::Allocator;
use std::io::Write;

/// Writes the sections, as far as each has an end.
fn put_sections<A: Allocator, W: Write>(
    writer: &mut W,
    sections: &[Section<A>],
    ends: &[SectionEnd<A>],
) -> Result<(), Fault>
    ensures { PutsText (W.contents writer.old) (W.contents writer.new) result (sections_text sections.now ends.now) }
{
    for (at, section) in sections.iter().enumerate() {
        let Some(end) = ends.get(at) else {
            return Ok(());
        };
        write_section(
            writer,
            section.name.as_bytes(),
            end.lines.as_slice(),
            end.fault,
        )?;
    }
    Ok(())
}

/// Writes what a run of the script came to: for each section, in the script's order, the lines that it printed, each
/// behind the section's name, and the fault that ended it; then the report of their heap. All of it, or Io after a
/// front of it. No memory is taken.
pub fn write_run<A: Allocator, W: Write>(
    script: &Script<A>,
    run: &RunReport<A>,
    writer: &mut W,
) -> Result<(), Fault>
    ensures { PutsText (W.contents writer.old) (W.contents writer.new) result
        (run_text script.now run.now.sections.items run.now.report) }
{
    put_sections(writer, script.sections(), run.sections.as_slice())?;
    write_report(&run.report, writer)
}

/// Whether a fault ended one of the sections.
pub(crate) fn has_fault<A: Allocator>(ends: &[SectionEnd<A>]) -> bool
    ensures { result ≡ list_any ends_by_fault ends.now }
{
    ends.iter().any(|end| end.fault.is_some())
}
