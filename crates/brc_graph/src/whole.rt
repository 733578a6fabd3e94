//! A picture from bytes to bytes: a text is read, and its graph is written in DOT.

ghost use Rattle.std.specs.Prelude.{◌≡◌};
ghost use Rattle.brc_graph.specs.Draws.{Draws, undrawn_of};

use crate::boxes::box_cycles;
use crate::picture_writing::write_graph;
use crate::reading::read_graph;
use crate::undrawn::Undrawn;
use brc_text::read_input;
use brc_words::Fault;
use std::alloc::Global;
use std::io::{Read, Write};

/// What a fault of a stream, or want of memory, is told as.
fn undrawn_of(fault: Fault) -> Undrawn
    ensures { result ≡ undrawn_of fault }
{
    match fault {
        Fault::OutOfMemory => Undrawn::OutOfMemory,
        _ => Undrawn::Io,
    }
}

/// Reads a report, what `brc run` writes, or the text of a world, and writes what holds what in DOT, of a world with its
/// cycles. Nothing is written unless the whole text was read.
pub fn draw<R: Read + Drop, W: Write>(
    alloc: Global,
    mut reader: R,
    writer: &mut W,
) -> Result<(), Undrawn>
    ensures { Draws (R.remaining reader) (W.contents writer.old) (W.contents writer.new) result }
{
    let input = match read_input(alloc, &mut reader) {
        Ok(input) => input,
        Err(fault) => return Err(undrawn_of(fault)),
    };
    let graph = match read_graph(alloc, input.as_slice()) {
        Ok(graph) => graph,
        Err(undrawn) => return Err(undrawn),
    };
    let boxed = match box_cycles(alloc, graph) {
        Ok(boxed) => boxed,
        Err(fault) => return Err(undrawn_of(fault)),
    };
    match write_graph(&boxed, writer) {
        Ok(()) => Ok(()),
        Err(fault) => Err(undrawn_of(fault)),
    }
}
