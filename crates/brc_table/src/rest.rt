//! What a table leaves when it is taken apart: blocks, to be given back one by one.

ghost use Rattle.std.specs.Prelude.{◌≡◌, [], ◌∷◌, Some, IfSome, IfNone};
ghost use Rattle.brc_table.specs.Rest.{from_block, Remains};

use crate::root::RootSeat;
use crate::table::HeapTable;
use atomic_table::Closed;
use brc_block::Block;
use std::alloc::Allocator;
use std::marker::Model;

/// The slots of a table that is no more, those below `at` without what they had.
pub struct Rest<A: Allocator> {
    closed: Closed<Option<Block<A>>, A>,
    at: usize,
}

impl<A: Allocator> Model for Rest<A> {
    ghost use Rattle.std.specs.Prelude.{◌≡◌, ℕ, ◌<◌, ◌≤◌, false, List, Option, drop, slice_index_or};
    ghost use Rattle.std.specs.Mem.Slots.{slots_items, slots_filled, slots_len};
    ghost use Rattle.std.specs.Mem.Slots.Ownership.{Filled};
    ghost use Rattle.brc_block.specs.declared.payload.Payload.{Payload};

    ghost Value = { List (Option (ℕ × Payload A)) };

    ghost view = { λ r. drop r.at (slots_items r.closed.slots) };

    ghost invariant = { λ r. (r.at ≤ slots_len r.closed.slots) × Filled (slots_filled r.closed.slots) r.at
        (slots_len r.closed.slots) × ((k : ℕ) → k < r.at → slice_index_or (slots_filled r.closed.slots) k false
        ≡ false) };
}

impl<A: Allocator> Rest<A> {
    #[tactic(auto, using(crate::proofs::Remaining::ends_so))]
    /// The next block, by rising cell; with the last one gone the table's own memory is given back.
    pub fn next(self) -> Option<(Block<A>, Rest<A>)>
        ensures gives { IfSome result (λ given. from_block self ≡ Some given.0 ∷ given.1) }
        ensures ended { IfNone result (from_block self ≡ []) }
    {
        let Rest { closed, at } = self;
        let mut closed = closed;
        let mut at = at;
        while at < closed.slot_count() {
            let slot = closed.take(at);
            at += 1;
            match slot {
                Some(block) => return Some((block, Rest { closed, at })),
                None => {}
            }
        }
        closed.free();
        None
    }
}

impl<A: Allocator> HeapTable<A> {
    /// Ends the table, which no thread shares any more.
    pub fn take_apart(self, root: RootSeat<A>) -> Rest<A>
        requires table { root.table ≡ self.table }
        ensures { Remains self.cells self.local_limit root.id root.view result }
    {
        let HeapTable {
            table,
            cells: _cells,
            local_limit: _limit,
        } = self;
        let RootSeat {
            place,
            free: _free,
            rows: _rows,
        } = root;
        let closed = table.close_with(place);
        Rest { closed, at: 0 }
    }
}

impl<A: Allocator> HeapTable<A> {
    /// Ends the table, whichever seats have stepped there: what lies in its slots is left to be given back. Nothing is
    /// said of it.
    pub fn abandon(self) -> Rest<A> {
        let HeapTable {
            table,
            cells: _cells,
            local_limit: _limit,
        } = self;
        Rest {
            closed: table.close(),
            at: 0,
        }
    }
}

impl<A: Allocator> RootSeat<A> {
    /// The seat is given up: it is joined by nobody, and splits off nobody.
    pub fn abandon(self) {
        let RootSeat {
            place: _place,
            free: _free,
            rows: _rows,
        } = self;
    }
}
