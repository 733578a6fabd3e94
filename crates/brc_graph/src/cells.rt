//! The cells of a cycle.

ghost use Rattle.std.specs.Prelude.{◌≡◌, IfOk, IfErr};
ghost use Rattle.brc_graph.specs.declared.undrawn.Undrawn.TheVariants.{OutOfMemory};
ghost use Rattle.brc_graph.specs.Cells.{cells_at};

use crate::cutting::cut;
use crate::operands::number_within;
use crate::undrawn::Undrawn;
use brc_report::Cells;
use brc_words::MOST_CELLS;
use std::alloc::Allocator;

/// The highest number of a cell.
pub(crate) const HIGHEST_CELL: u32 = 65_535;

/// The cells of a cycle: 1 to 65,536 of them, with one space between two.
pub(crate) fn cells_of<A: Allocator>(alloc: A, bytes: &[u8]) -> Result<Option<Cells<A>>, Undrawn>
    ensures read { IfOk result (λ cells. cells ≡ cells_at bytes.now) }
    ensures refused { IfErr result (λ undrawn. undrawn ≡ OutOfMemory) }
{
    let mut cells = Vec::new(alloc);
    let mut rest = bytes;
    let mut left = MOST_CELLS;
    while left > 0 {
        let (word, behind) = cut(rest, b' ');
        let Some(cell) = number_within(word, 0, HIGHEST_CELL) else {
            return Ok(None);
        };
        cells.push(cell)?;
        let Some(later) = behind else {
            return Ok(Some(Cells::new(cells)));
        };
        rest = later;
        left -= 1;
    }
    Ok(None)
}
