//! Marks of cells: of each thread the dead blocks that it has on its worklist.

ghost use Rattle.std.specs.Prelude.{◌≡◌, false, replicate, slice_set, IfOk};
ghost use Rattle.law.specs.world.Lists.{is_marked, is_unmarked};
ghost use Rattle.brc_state.specs.Effects.{worklists_with};

use crate::tally::recount;
use std::alloc::{AllocError, Allocator};
use std::marker::Model;

/// A mark for each cell, as a list.
#[derive(Drop)]
pub(crate) struct Marks<A: Allocator> {
    marks: Vec<bool, A>,
    // How many cells are marked, so that whether none is takes no search.
    marked: usize,
}

impl<A: Allocator> Model for Marks<A> {
    ghost use Rattle.std.specs.Prelude.{◌≡◌, Bool, List};
    ghost use Rattle.law.specs.world.Lists.{marked_cells};

    ghost Value = { List Bool };

    ghost view = { λ m. m.marks.items };

    ghost invariant = { λ m. m.marked ≡ marked_cells m.marks.items };
}

impl<A: Allocator> Marks<A> {
    /// No mark at all. The root has such a list.
    pub(crate) fn unset(alloc: A, count: usize) -> Result<Self, AllocError>
        ensures { IfOk result (λ made. made ≡ replicate count false) }
    {
        let mut marks = Vec::new(alloc);
        marks.resize(count, false)?;
        Ok(Marks { marks, marked: 0 })
    }

    /// Whether the cell is marked.
    pub(crate) fn has(&self, cell: u32) -> bool
        ensures { result ≡ is_marked self.now cell }
    {
        self.marks.get(cell as usize).copied().unwrap_or(false)
    }

    /// The same, where the cell is told as an index.
    pub(crate) fn has_at(&self, cell: usize) -> bool
        ensures { result ≡ is_marked self.now cell }
    {
        self.marks.get(cell).copied().unwrap_or(false)
    }

    /// Whether no cell is marked.
    pub(crate) fn is_unmarked(&self) -> bool
        ensures { result ≡ is_unmarked self.now }
    {
        self.marked == 0
    }

    /// The cell's mark becomes this one. No memory is taken.
    pub(crate) fn set(&mut self, cell: u32, mark: bool)
        ensures { self.new ≡ slice_set self.old cell mark }
    {
        let before = self.has(cell);
        if let Some(there) = self.marks.get_mut(cell as usize) {
            *there = mark;
            self.marked = recount(self.marked, before, mark);
        }
    }
}

// ---- one thread's worklist among all

/// A block goes off the thread's worklist, or is taken onto it.
#[inline(always)]
pub(crate) fn change_marks<A: Allocator>(
    worklists: &mut Vec<Marks<A>, A>,
    thread: u32,
    frees: bool,
    takes: bool,
    cell: u32,
)
    ensures { worklists.new.items ≡ worklists_with thread frees takes cell worklists.old.items }
{
    if let Some(marks) = worklists.get_mut(thread as usize) {
        if frees {
            marks.set(cell, false);
        } else if takes {
            marks.set(cell, true);
        }
    }
}
