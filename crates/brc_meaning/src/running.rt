//! A section, line by line.

ghost use Rattle.std.specs.Prelude.{◌≡◌};
ghost use Rattle.brc_meaning.specs.Sections.{line_after, lines_after, times_after, piece_after, pieces_after};
ghost use Rattle.brc_meaning.specs.Sections.{EndsAsMeant};

use crate::state::State;
use crate::stepping::step;
use brc_script::{Line, Piece};
use brc_words::Fault;
use std::alloc::Allocator;

/// Why a section ended before its last line: the first fault, and the number of the line that met it.
#[derive(Clone, Copy)]
pub struct Halt {
    pub fault: Fault,
    pub line: u32,
}

fn run_line<A: Allocator + Copy>(alloc: A, state: &mut State<A>, line: &Line<A>) -> Result<(), Halt>
    ensures { EndsAsMeant result state.new (line_after line.now state.old) }
{
    match step(alloc, state, line.instruction()) {
        Ok(()) => Ok(()),
        Err(fault) => Err(Halt {
            fault,
            line: line.number(),
        }),
    }
}

fn run_lines<A: Allocator + Copy>(
    alloc: A,
    state: &mut State<A>,
    lines: &[Line<A>],
) -> Result<(), Halt>
    ensures { EndsAsMeant result state.new (lines_after lines.now state.old) }
{
    for line in lines {
        run_line(alloc, state, line)?;
    }
    Ok(())
}

fn run_times<A: Allocator + Copy>(
    alloc: A,
    state: &mut State<A>,
    times: u32,
    lines: &[Line<A>],
) -> Result<(), Halt>
    ensures { EndsAsMeant result state.new (times_after times lines.now state.old) }
{
    for _ in 0..times {
        run_lines(alloc, state, lines)?;
    }
    Ok(())
}

fn run_piece<A: Allocator + Copy>(
    alloc: A,
    state: &mut State<A>,
    piece: &Piece<A>,
) -> Result<(), Halt>
    ensures { EndsAsMeant result state.new (piece_after piece.now state.old) }
{
    match piece {
        Piece::One(line) => run_line(alloc, state, line),
        Piece::Repeat { times, lines } => run_times(alloc, state, *times, lines.as_slice()),
    }
}

pub(crate) fn run_pieces<A: Allocator + Copy>(
    alloc: A,
    state: &mut State<A>,
    pieces: &[Piece<A>],
) -> Result<(), Halt>
    ensures { EndsAsMeant result state.new (pieces_after pieces.now state.old) }
{
    for piece in pieces {
        run_piece(alloc, state, piece)?;
    }
    Ok(())
}
