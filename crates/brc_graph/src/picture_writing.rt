//! Writing a picture.

ghost use Rattle.std.specs.Prelude.{◌≡◌};
ghost use Rattle.brc_text.specs.Puts.{PutsText};
ghost use Rattle.brc_graph.specs.Pictures.{object_text, remain_text, thread_line, thread_text, frame_line, frame_text};
ghost use Rattle.brc_graph.specs.Pictures.{held_text, entry_text, ring_head, ring_text, cycle_text, drawn_text, drawn_texts};
ghost use Rattle.brc_graph.specs.Pictures.{graph_text};

use crate::drawn::{Drawn, Graph};
use brc_text::{Keyword, put_bytes, put_numbers_line, put_parts};
use brc_words::Fault;
use itoa::Buffer;
use std::alloc::Allocator;
use std::io::Write;

fn put_object<W: Write>(writer: &mut W, cell: u32, kind: Keyword) -> Result<(), Fault>
    ensures { PutsText (W.contents writer.old) (W.contents writer.new) result (object_text cell kind) }
{
    put_parts(
        writer,
        &[
            b"  ",
            Buffer::new().format(cell).as_bytes(),
            b" [label=\"",
            Buffer::new().format(cell).as_bytes(),
            b" ",
            kind.text(),
            b"\"]\n",
        ],
    )
}

fn put_remain<W: Write>(writer: &mut W, cell: u32, kind: Keyword, holder: u32) -> Result<(), Fault>
    ensures { PutsText (W.contents writer.old) (W.contents writer.new) result (remain_text cell kind holder) }
{
    put_parts(
        writer,
        &[
            b"  ",
            Buffer::new().format(cell).as_bytes(),
            b" [label=\"",
            Buffer::new().format(cell).as_bytes(),
            b" ",
            kind.text(),
            b"\"]\n",
            b"  ",
            Buffer::new().format(holder).as_bytes(),
            b" -> ",
            Buffer::new().format(cell).as_bytes(),
            b"\n",
        ],
    )
}

/// Writes the line of these words.
fn put_thread_words<W: Write>(writer: &mut W, thread: &[u8], status: &[u8]) -> Result<(), Fault>
    ensures { PutsText (W.contents writer.old) (W.contents writer.new) result (thread_line thread.now status.now) }
{
    put_parts(
        writer,
        &[
            b"  t",
            thread,
            b" [label=\"thread ",
            thread,
            b" ",
            status,
            b"\", shape=box]\n",
        ],
    )
}

fn put_thread<W: Write>(writer: &mut W, thread: u32, status: Keyword) -> Result<(), Fault>
    ensures { PutsText (W.contents writer.old) (W.contents writer.new) result (thread_text thread status) }
{
    put_thread_words(
        writer,
        Buffer::new().format(thread).as_bytes(),
        status.text(),
    )
}

/// Writes the line of these words.
fn put_frame_words<W: Write>(
    writer: &mut W,
    thread: &[u8],
    place: &[u8],
    cell: &[u8],
) -> Result<(), Fault>
    ensures { PutsText (W.contents writer.old) (W.contents writer.new) result
        (frame_line thread.now place.now cell.now) }
{
    put_parts(
        writer,
        &[
            b"  t",
            thread,
            b" -> ",
            cell,
            b" [label=\"frame ",
            place,
            b"\"]\n",
        ],
    )
}

fn put_frame<W: Write>(writer: &mut W, thread: u32, place: u32, cell: u32) -> Result<(), Fault>
    ensures { PutsText (W.contents writer.old) (W.contents writer.new) result (frame_text thread place cell) }
{
    put_frame_words(
        writer,
        Buffer::new().format(thread).as_bytes(),
        Buffer::new().format(place).as_bytes(),
        Buffer::new().format(cell).as_bytes(),
    )
}

fn put_held<W: Write>(writer: &mut W, thread: u32, by: Keyword, cell: u32) -> Result<(), Fault>
    ensures { PutsText (W.contents writer.old) (W.contents writer.new) result (held_text thread by cell) }
{
    put_parts(
        writer,
        &[
            b"  t",
            Buffer::new().format(thread).as_bytes(),
            b" -> ",
            Buffer::new().format(cell).as_bytes(),
            b" [label=\"",
            by.text(),
            b"\"]\n",
        ],
    )
}

fn put_entry<W: Write>(writer: &mut W, cell: u32, index: u32, entry: u32) -> Result<(), Fault>
    ensures { PutsText (W.contents writer.old) (W.contents writer.new) result (entry_text cell index entry) }
{
    put_parts(
        writer,
        &[
            b"  ",
            Buffer::new().format(cell).as_bytes(),
            b" -> ",
            Buffer::new().format(entry).as_bytes(),
            b" [label=\"",
            Buffer::new().format(index).as_bytes(),
            b"\"]\n",
        ],
    )
}

/// Writes the line with which the box of a cycle begins.
fn put_ring_head<W: Write>(writer: &mut W, first: u32) -> Result<(), Fault>
    ensures { PutsText (W.contents writer.old) (W.contents writer.new) result (ring_head first) }
{
    put_parts(
        writer,
        &[
            b"  subgraph cluster_",
            Buffer::new().format(first).as_bytes(),
            b" {\n    label=\"cycle\"\n",
        ],
    )
}

/// Writes a box round these cells.
fn put_ring<W: Write>(writer: &mut W, first: u32, cells: &[u32]) -> Result<(), Fault>
    ensures { PutsText (W.contents writer.old) (W.contents writer.new) result (ring_text first cells.now) }
{
    put_ring_head(writer, first)?;
    put_numbers_line(writer, b"   ", cells)?;
    put_bytes(writer, b"  }\n")
}

fn put_cycle<W: Write>(writer: &mut W, cells: &[u32]) -> Result<(), Fault>
    ensures { PutsText (W.contents writer.old) (W.contents writer.new) result (cycle_text cells.now) }
{
    let [first, ..] = cells else {
        return Ok(());
    };
    put_ring(writer, *first, cells)
}

fn put_drawn<A: Allocator, W: Write>(writer: &mut W, drawn: &Drawn<A>) -> Result<(), Fault>
    ensures { PutsText (W.contents writer.old) (W.contents writer.new) result (drawn_text drawn.now) }
{
    match drawn {
        Drawn::Nothing => Ok(()),
        Drawn::Object { cell, kind } => put_object(writer, *cell, *kind),
        Drawn::Remain { cell, kind, holder } => put_remain(writer, *cell, *kind, *holder),
        Drawn::Cycle(cells) => put_cycle(writer, cells.as_slice()),
        Drawn::Thread { thread, status } => put_thread(writer, *thread, *status),
        Drawn::Frame {
            thread,
            place,
            cell,
        } => put_frame(writer, *thread, *place, *cell),
        Drawn::Held { thread, by, cell } => put_held(writer, *thread, *by, *cell),
        Drawn::Entry { cell, index, entry } => put_entry(writer, *cell, *index, *entry),
    }
}

fn put_all<A: Allocator, W: Write>(writer: &mut W, all: &[Drawn<A>]) -> Result<(), Fault>
    ensures { PutsText (W.contents writer.old) (W.contents writer.new) result (drawn_texts all.now) }
{
    for drawn in all {
        put_drawn(writer, drawn)?;
    }
    Ok(())
}

fn put_graph_lines<A: Allocator, W: Write>(writer: &mut W, graph: &Graph<A>) -> Result<(), Fault>
    ensures { PutsText (W.contents writer.old) (W.contents writer.new) result (drawn_texts graph.now.drawn.items) }
{
    put_all(writer, graph.drawn.as_slice())
}

/// Writes the picture of the graph in DOT: all of it, or Io after a front of it. No memory is taken.
pub fn write_graph<A: Allocator, W: Write>(graph: &Graph<A>, writer: &mut W) -> Result<(), Fault>
    ensures { PutsText (W.contents writer.old) (W.contents writer.new) result (graph_text graph.now.drawn.items) }
{
    put_bytes(writer, b"digraph brc {\n  265 [label=\"265 globals\"]\n")?;
    put_graph_lines(writer, graph)?;
    put_bytes(writer, b"}\n")
}
