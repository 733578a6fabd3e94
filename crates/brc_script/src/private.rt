//! Which sections look into the globals.

ghost use Rattle.std.specs.Prelude.{◌≡◌};
ghost use Rattle.std.specs.List.{list_any};
ghost use Rattle.brc_script.specs.Instructions.{is_shared};
ghost use Rattle.brc_script.specs.Scripts.{line_shares, shares, is_private};

use crate::instruction::Instruction;
use crate::script::{Line, Piece, Section};
use std::alloc::Allocator;

fn is_shared<A: Allocator>(instruction: &Instruction<A>) -> bool
    ensures { result ≡ is_shared instruction.now }
{
    matches!(
        instruction,
        Instruction::Share { .. } | Instruction::Fetch { .. } | Instruction::Unshare { .. }
    )
}

fn line_shares<A: Allocator>(line: &Line<A>) -> bool
    ensures { result ≡ line_shares line.now }
{
    is_shared(line.instruction())
}

fn is_any_shared<A: Allocator>(lines: &[Line<A>]) -> bool
    ensures { result ≡ list_any line_shares lines.now }
{
    for line in lines {
        if line_shares(line) {
            return true;
        }
    }
    false
}

fn shares<A: Allocator>(piece: &Piece<A>) -> bool
    ensures { result ≡ shares piece.now }
{
    match piece {
        Piece::One(line) => line_shares(line),
        Piece::Repeat { lines, .. } => is_any_shared(lines.as_slice()),
    }
}

/// Whether no other section can see what this one does: no share, fetch or unshare is in it.
pub fn is_private<A: Allocator>(section: &Section<A>) -> bool
    ensures { result ≡ is_private section.now }
{
    for piece in section.pieces.as_slice() {
        if shares(piece) {
            return false;
        }
    }
    true
}
