//! Putting several texts to a writer, one behind the other.

ghost use Rattle.brc_text.specs.Puts.{PutsText};
ghost use Rattle.brc_text.specs.Parts.{joined};

use crate::putting::put_bytes;
use brc_words::Fault;
use std::io::Write;

/// Writes the parts in order. The first error ends it; no memory is taken.
pub fn put_parts<W: Write>(writer: &mut W, parts: &[&[u8]]) -> Result<(), Fault>
    ensures { PutsText (W.contents writer.old) (W.contents writer.new) result (joined parts.now) }
{
    for part in parts {
        put_bytes(writer, part)?;
    }
    Ok(())
}
