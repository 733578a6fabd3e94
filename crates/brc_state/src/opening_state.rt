//! The opening world: the immortals, all other cells free, and no thread but the root.

ghost use Rattle.std.specs.Prelude.{◌≡◌, ◌↔◌, [], ◌∷◌, replicate, IfOk, IsTrue};
ghost use Rattle.law.specs.world.Heap.{AreOptions, opening_cells, opening_in};

use crate::bit_words::WordNumbers;
use crate::entries::EntryNumbers;
use crate::frames::Frame;
use crate::marks::Marks;
use crate::tables::Tables;
use brc_words::{FEWEST_CELLS, MOST_CELLS, MOST_LOCAL};
use law::world::{Cell, Edition, no_row, opening_cell};
use std::alloc::{AllocError, Allocator};

/// Whether a heap may have these sizes.
pub fn are_options(cells: u32, local_limit: u32) -> bool
    ensures { IsTrue result ↔ AreOptions cells local_limit }
{
    FEWEST_CELLS <= cells && cells <= MOST_CELLS && 1 <= local_limit && local_limit <= MOST_LOCAL
}

/// All cells as the heap opens.
fn opening_cells<A: Allocator>(alloc: A, cells: u32) -> Result<Vec<Cell, A>, AllocError>
    ensures { IfOk result (λ made. made.items ≡ opening_cells cells) }
{
    let mut made = Vec::with_capacity(alloc, cells as usize)?;
    for cell in 0..cells {
        made.push(opening_cell(cell))?;
    }
    Ok(made)
}

/// No entries, for each cell.
fn opening_entries<A: Allocator + Copy>(
    alloc: A,
    cells: u32,
) -> Result<Vec<EntryNumbers<A>, A>, AllocError>
    ensures { IfOk result (λ made. made.items ≡ replicate cells []) }
{
    let mut made = Vec::with_capacity(alloc, cells as usize)?;
    for cell in 0..cells {
        made.push(EntryNumbers::new(alloc))?;
    }
    Ok(made)
}

/// The list of the root's one item.
fn only<T: Drop, A: Allocator>(alloc: A, item: T) -> Result<Vec<T, A>, AllocError>
    ensures { IfOk result (λ made. made.items ≡ item ∷ []) }
{
    let mut made = Vec::new(alloc);
    made.push(item)?;
    Ok(made)
}

impl<A: Allocator + Copy> Tables<A> {
    /// The tables as a heap of this edition opens.
    pub fn opening(
        alloc: A,
        edition: Edition,
        cells: u32,
        local_limit: u32,
    ) -> Result<Self, AllocError>
        ensures { IfOk result (λ made. made ≡ opening_in edition cells local_limit) }
    {
        let cells_made = opening_cells(alloc, cells)?;
        let entries = opening_entries(alloc, cells)?;
        let rows = only(alloc, no_row())?;
        let frames = only(alloc, Frame::new(alloc))?;
        let popped = only(alloc, WordNumbers::zeros(alloc, 0)?)?;
        let worklists = only(alloc, Marks::unset(alloc, 0)?)?;
        let queues = only(alloc, WordNumbers::zeros(alloc, 0)?)?;
        let notify_words = only(alloc, 0)?;
        let gathered = only(alloc, false)?;
        Ok(Tables {
            alloc,
            local_limit,
            cells: cells_made,
            entries,
            rows,
            frames,
            popped,
            worklists,
            queues,
            notify_words,
            gathered,
            edition,
            registrations: 0,
            past_allocs: 0,
            past_frees: 0,
        })
    }
}
