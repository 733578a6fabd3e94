//! A replay from bytes to bytes: a trace is read, replayed, and the text of its world written.

ghost use Rattle.brc_trace.specs.Replaying.{Replays};

use crate::trace_steps::world_of;
use crate::world_text::write_world;
use brc_text::read_input;
use brc_words::Fault;
use std::alloc::Allocator;
use std::io::{Read, Write};

/// Reads a trace, replays it and writes the text of its world; answers whether a mortal object lives at the end.
pub fn run_replay<A: Allocator + Copy, R: Read + Drop, W: Write>(
    alloc: A,
    mut reader: R,
    writer: &mut W,
) -> Result<bool, Fault>
    ensures { Replays (R.remaining reader) (W.contents writer.old) (W.contents writer.new) result }
{
    let input = read_input(alloc, &mut reader)?;
    let world = world_of(alloc, input.as_slice())?;
    write_world(&world, writer)?;
    Ok(world.live() > 0)
}
