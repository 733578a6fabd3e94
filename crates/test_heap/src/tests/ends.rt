//! What a heap leaves.

use brc_count::table::Rest;
use std::alloc::Allocator;

/// How many blocks a heap left, if they are those of cell 0 and of the cells that follow it, in their order; None where
/// one is of another cell.
#[tactic(auto, using(brc_thread::proofs::At_Home::fewer_left))]
pub(super) fn cells_left<A: Allocator>(rest: Rest<A>) -> Option<u32> {
    let mut rest = rest;
    let mut cells = 0u32;
    let mut in_order = true;
    while let Some((block, later)) = rest.next() {
        in_order &= block.cell() == cells;
        let _payload = block.into_payload();
        cells = cells.wrapping_add(1);
        rest = later;
    }
    if in_order { Some(cells) } else { None }
}
