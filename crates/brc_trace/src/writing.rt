//! Writing a trace.

ghost use Rattle.std.specs.Prelude.{◌≡◌};
ghost use Rattle.brc_text.specs.Puts.{PutsText};
ghost use Rattle.brc_trace.specs.Traces.{mark_text, trace_text};
ghost use Rattle.brc_trace.specs.View.{listing};

use crate::event_line::put_event;
use crate::trace::Trace;
use brc_text::{Keyword, Token, put_line};
use brc_words::Fault;
use law::world::Edition;
use std::alloc::Allocator;
use std::io::Write;

/// Writes the line above the head that says which edition the trace is of; a trace of edition One has none.
fn put_mark<W: Write>(writer: &mut W, edition: Edition) -> Result<(), Fault>
    ensures { PutsText (W.contents writer.old) (W.contents writer.new) result (mark_text edition) }
{
    match edition {
        Edition::One => Ok(()),
        Edition::Two => put_line(writer, &[Token::Word(Keyword::Trace), Token::Number(2)]),
    }
}

/// Writes the one spelling of the trace: all of it, or Io after a front of it. No memory is taken.
pub fn write_trace<A: Allocator, W: Write>(trace: &Trace<A>, writer: &mut W) -> Result<(), Fault>
    ensures { PutsText (W.contents writer.old) (W.contents writer.new) result (trace_text (listing trace.now)) }
{
    put_mark(writer, trace.edition)?;
    put_line(
        writer,
        &[
            Token::Word(Keyword::Heap),
            Token::Number(trace.cells as u64),
            Token::Number(trace.local_limit as u64),
        ],
    )?;
    for event in &trace.events {
        put_event(writer, *event)?;
    }
    Ok(())
}
