//! An unlock: references pass between a frame and the locked object's entries, and the lock goes.

ghost use Rattle.std.specs.Prelude.{◌≡◌, ◌<◌, true, is_some, length, slice_index_or, OnOk, OnErr};
ghost use Rattle.law.specs.world.Lists.{number_in, place_at};
ghost use Rattle.law.specs.world.Heap.{entries_at, frame_at, row_at};
ghost use Rattle.law.specs.world.Steps.{change_ok, stepped};
ghost use Rattle.brc_state.specs.Effects.{exchanged};
ghost use Rattle.brc_state.specs.Memory.{moves_one};

use crate::entries::{add_entry, remove_entry, set_entry};
use crate::frames::{fill_place, refill_place, vacate_place};
use crate::tables::Tables;
use law::world::{Change, Step};
use std::alloc::{AllocError, Allocator};

/// The number in an option, or 0.
fn number_in(held: Option<u32>) -> u32
    ensures { result ≡ number_in held }
{
    match held {
        None => 0,
        Some(number) => number,
    }
}

impl<A: Allocator + Copy> Tables<A> {
    /// An entry of a cell, or 0.
    fn entry_or_zero(&self, cell: u32, index: u32) -> u32
        ensures { result ≡ slice_index_or (entries_at self.now cell) index 0 }
    {
        self.entries(cell).get(index as usize).copied().unwrap_or(0)
    }

    /// The cell of a place moves to the end of the entries. A refused growth changes nothing.
    fn put_entry(&mut self, thread: u32, cell: u32, place: u32) -> Result<(), AllocError>
        ensures ok { OnOk result (self.new ≡ exchanged self.old thread (Change.Put place) cell) }
        ensures err { OnErr result (self.new ≡ self.old) }
    {
        let entry = number_in(self.place(thread, place));
        add_entry(&mut self.entries, cell, entry)?;
        vacate_place(&mut self.frames, thread, place);
        Ok(())
    }

    /// An entry moves to a place. A refused growth changes nothing.
    fn take_entry(
        &mut self,
        thread: u32,
        cell: u32,
        index: u32,
        place: u32,
    ) -> Result<(), AllocError>
        requires { index < length (entries_at self.old cell) }

        ensures ok { OnOk result
            (self.new ≡ exchanged self.old thread (Change.Take index place) cell) }
        ensures err { OnErr result (self.new ≡ self.old) }
    {
        let entry = self.entry_or_zero(cell, index);
        fill_place(&mut self.frames, thread, place, entry)?;
        remove_entry(&mut self.entries, cell, index);
        Ok(())
    }

    /// An entry and the cell of a place are exchanged.
    fn swap_entry(&mut self, thread: u32, cell: u32, index: u32, place: u32)
        requires { is_some (place_at (frame_at self.old thread) place) ≡ true }

        ensures { self.new ≡ exchanged self.old thread (Change.Swap index place) cell }
    {
        let inward = number_in(self.place(thread, place));
        let outward = self.entry_or_zero(cell, index);
        set_entry(&mut self.entries, cell, index, inward);
        refill_place(&mut self.frames, thread, place, outward);
    }

    /// The references that the change moves. A refused growth changes nothing.
    fn exchange(&mut self, thread: u32, cell: u32, change: Change) -> Result<(), AllocError>
        requires { change_ok (row_at self.old thread).locked (frame_at self.old thread)
            (entries_at self.old cell) change ≡ true }

        ensures ok { OnOk result (self.new ≡ exchanged self.old thread change cell) }
        ensures err { OnErr result (self.new ≡ self.old) }
        ensures memory { OnErr result (moves_one change ≡ true) }
    {
        match change {
            Change::Keep => Ok(()),
            Change::Put(place) => self.put_entry(thread, cell, place),
            Change::Take { index, place } => self.take_entry(thread, cell, index, place),
            Change::Swap { index, place } => {
                self.swap_entry(thread, cell, index, place);
                Ok(())
            }
        }
    }

    /// The locked object in the cell is changed and unlocked. A refused growth changes nothing.
    pub(crate) fn unlock(
        &mut self,
        thread: u32,
        cell: u32,
        change: Change,
    ) -> Result<(), AllocError>
        requires thread_there { thread < length self.old.rows }
        requires cell_there { cell < length self.old.cells }
        requires change { change_ok (row_at self.old thread).locked (frame_at self.old thread)
            (entries_at self.old cell) change ≡ true }

        ensures ok { OnOk result (self.new ≡ stepped self.old thread (Step.Unlock change) cell) }
        ensures err { OnErr result (self.new ≡ self.old) }
        ensures memory { OnErr result (moves_one change ≡ true) }
    {
        self.exchange(thread, cell, change)?;
        self.cells[cell as usize].mutex = 0;
        self.rows[thread as usize].locked = None;
        Ok(())
    }
}
