//! What callers read of a world, part by part. None of this takes memory.

ghost use Rattle.std.specs.Prelude.{◌≡◌, ◌-◌, ◌==◌, nat_lt, length, slice_get};
ghost use Rattle.brc_core.specs.Readings.{only_if, status_at, has_object, counts_locally};
ghost use Rattle.law.specs.world.Lists.{bit_of, place_at, is_marked, is_bare, is_blank, is_unmarked};
ghost use Rattle.law.specs.world.Heap.{cell_at, entries_at, row_at, frame_at, popped_at, worklist_at, queue_at};
ghost use Rattle.law.specs.world.Heap.{is_registered};

use crate::world::World;
use brc_words::{Kind, Owner, State};
use law::world::{Cell, Edition, Hand, Row, Stage, is_immortal};
use std::alloc::Allocator;

/// How far a thread's life is.
#[derive(Clone, Copy, Debug, PartialEq, Eq)]
pub enum Status {
    /// It runs.
    Active,
    /// It has closed some of its queue words.
    Closing,
    /// All its queue words are closed.
    Left,
    /// The root knows that it holds nothing.
    Gathered,
    /// Its number was used before, and not all its queue words are open again.
    Opening,
}

impl<A: Allocator + Copy> World<A> {
    /// How many cells the heap has.
    #[tactic(auto, using(crate::proofs::Bounds::cells_fit))]
    pub fn cells(&self) -> u32
        ensures { result ≡ length self.now.cells }
    {
        self.tables.cell_count() as u32
    }

    /// Which events there are.
    pub fn edition(&self) -> Edition
        ensures { result ≡ self.now.edition }
    {
        self.tables.edition()
    }

    /// The local count at which an owner counts up on the shared word.
    pub fn local_limit(&self) -> u32
        ensures { result ≡ self.now.limit }
    {
        self.tables.local_limit()
    }

    /// How many threads were registered; they have the numbers from 1 on.
    #[tactic(auto, using(crate::proofs::Bounds::threads_fit))]
    pub fn registered(&self) -> u32
        ensures { result ≡ length self.now.rows - 1 }
    {
        self.tables.row_count().saturating_sub(1) as u32
    }

    // ---- a thread

    /// How far the thread's life is, if it was registered.
    pub fn status(&self, thread: u32) -> Option<Status>
        ensures { result ≡ status_at self.now thread }
    {
        if !self.tables.is_registered(thread) {
            return None;
        }
        if self.tables.is_gathered(thread) {
            return Some(Status::Gathered);
        }
        match self.tables.row(thread).stage {
            Stage::Active => Some(Status::Active),
            Stage::Closing(_) => Some(Status::Closing),
            Stage::Left => Some(Status::Left),
            Stage::Opening(_) => Some(Status::Opening),
        }
    }

    /// What the thread carries, if it was registered.
    pub fn hand(&self, thread: u32) -> Option<Hand>
        ensures { result ≡ only_if (is_registered self.now thread) (row_at self.now thread).hand }
    {
        if self.tables.is_registered(thread) {
            Some(self.tables.row(thread).hand)
        } else {
            None
        }
    }

    /// The thread's own row; that of no thread, if it wasn't registered.
    pub fn row(&self, thread: u32) -> Row
        ensures { result ≡ row_at self.now thread }
    {
        self.tables.row(thread)
    }

    /// The place of the thread's frame whose object it has locked.
    pub fn locked(&self, thread: u32) -> Option<u32>
        ensures { result ≡ (row_at self.now thread).locked }
    {
        self.tables.row(thread).locked
    }

    /// How many places the thread's frame has, up to the last that was ever filled.
    #[tactic(auto, using(crate::proofs::Bounds::places_fit))]
    pub fn places(&self, thread: u32) -> u32
        ensures { result ≡ length (frame_at self.now thread) }
    {
        self.tables.frame_len(thread) as u32
    }

    /// The cell in a place of the thread's frame.
    pub fn place(&self, thread: u32, place: u32) -> Option<u32>
        ensures { result ≡ place_at (frame_at self.now thread) place }
    {
        self.tables.place(thread, place)
    }

    /// Whether no place of the thread's frame has a cell.
    pub fn has_no_place(&self, thread: u32) -> bool
        ensures { result ≡ is_bare (frame_at self.now thread) }
    {
        self.tables.is_bare(thread)
    }

    /// Whether the cell lies in the thread's merge queue.
    pub fn queued(&self, thread: u32, cell: u32) -> bool
        ensures { result ≡ (bit_of (queue_at self.now thread) cell == 1) }
    {
        self.tables.is_queued(thread, cell)
    }

    /// Whether the thread has popped the cell and not dealt with it.
    pub fn popped(&self, thread: u32, cell: u32) -> bool
        ensures { result ≡ (bit_of (popped_at self.now thread) cell == 1) }
    {
        self.tables.is_popped(thread, cell)
    }

    /// Whether the cell is on the thread's worklist.
    pub fn on_worklist(&self, thread: u32, cell: u32) -> bool
        ensures { result ≡ is_marked (worklist_at self.now thread) cell }
    {
        self.tables.is_on_worklist(thread, cell)
    }

    // Whether a pile is empty is asked once, where each of its cells would be asked after one by one.

    /// Whether no cell lies in the thread's merge queue.
    pub fn has_nothing_queued(&self, thread: u32) -> bool
        ensures { result ≡ is_blank (queue_at self.now thread) }
    {
        self.tables.has_nothing_queued(thread)
    }

    /// Whether the thread has dealt with each cell that it popped.
    pub fn has_nothing_popped(&self, thread: u32) -> bool
        ensures { result ≡ is_blank (popped_at self.now thread) }
    {
        self.tables.has_popped_nothing(thread)
    }

    /// Whether no cell is on the thread's worklist.
    pub fn has_no_work(&self, thread: u32) -> bool
        ensures { result ≡ is_unmarked (worklist_at self.now thread) }
    {
        self.tables.is_unmarked(thread)
    }

    // ---- a cell

    /// Whether an object is in the cell, an immortal or a mortal one.
    pub(crate) fn has_object(&self, cell: u32) -> bool
        ensures { result ≡ has_object self.now cell }
    {
        is_immortal(cell) || self.is_live(cell)
    }

    /// The cell's words, also where no object is in it; those of no cell past the last.
    pub fn cell(&self, cell: u32) -> Cell
        ensures { result ≡ cell_at self.now cell }
    {
        self.tables.cell(cell)
    }

    /// Who owns the cell, of each cell of the heap.
    pub fn owner(&self, cell: u32) -> Option<Owner>
        ensures { result ≡ only_if (nat_lt cell (length self.now.cells))
            (cell_at self.now cell).owner }
    {
        if (cell as usize) < self.tables.cell_count() {
            Some(self.tables.cell(cell).owner)
        } else {
            None
        }
    }

    /// What the cell's object is.
    pub fn kind(&self, cell: u32) -> Option<Kind>
        ensures { result ≡ only_if (has_object self.now cell) (cell_at self.now cell).kind }
    {
        if self.has_object(cell) {
            Some(self.tables.cell(cell).kind)
        } else {
            None
        }
    }

    /// The owner's count, until the object is merged.
    pub fn local(&self, cell: u32) -> Option<u32>
        ensures { result ≡ only_if (counts_locally self.now cell) (cell_at self.now cell).local }
    {
        if !self.has_object(cell) {
            return None;
        }
        let found = self.tables.cell(cell);
        match found.state {
            State::Default => Some(found.local),
            State::Queued => Some(found.local),
            State::Merged => None,
        }
    }

    /// The shared count.
    pub fn count(&self, cell: u32) -> Option<i64>
        ensures { result ≡ only_if (has_object self.now cell) (cell_at self.now cell).count }
    {
        if self.has_object(cell) {
            Some(self.tables.cell(cell).count)
        } else {
            None
        }
    }

    /// The state above which the shared count stands.
    pub fn state(&self, cell: u32) -> Option<State>
        ensures { result ≡ only_if (has_object self.now cell) (cell_at self.now cell).state }
    {
        if self.has_object(cell) {
            Some(self.tables.cell(cell).state)
        } else {
            None
        }
    }

    /// The entries of the cell's object.
    pub fn entries(&self, cell: u32) -> &[u32]
        ensures { result.now ≡ entries_at self.now cell }
    {
        self.tables.entries(cell)
    }

    /// One entry of the cell's object.
    pub fn entry(&self, cell: u32, index: u32) -> Option<u32>
        ensures { result ≡ slice_get (entries_at self.now cell) index }
    {
        self.tables.entry(cell, index)
    }
}
