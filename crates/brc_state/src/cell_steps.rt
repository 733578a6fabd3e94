//! The steps of a thread on one cell that don't unlock it: what each does to every one of the tables.

ghost use Rattle.std.specs.Prelude.{◌≡◌, ◌+◌, ◌<◌, ◌^◌, true, false, OnOk, OnErr, length};
ghost use Rattle.law.specs.world.Heap.{cell_at, row_at};
ghost use Rattle.law.specs.world.Steps.{cell_ok, is_shut, is_unlock, stepped};
ghost use Rattle.brc_state.specs.Memory.{needs_memory};
ghost use Rattle.brc_words.specs.Shared.{CountFits};

use crate::bit_words::{enqueue, settle};
use crate::conditions::is_closed;
use crate::effects::{
    born_cell, filled_place, gone, is_enqueue, is_free_step, settled_cell, takes_block,
    write_cell_and_row,
};
use crate::entries::change_entries;
use crate::frames::change_frame;
use crate::marks::change_marks;
use crate::tables::Tables;
use law::world::Step;
use std::alloc::{AllocError, Allocator};

impl<A: Allocator + Copy> Tables<A> {
    /// Whether the queue word into which the cell would go is closed.
    #[inline(always)]
    fn is_shut(&self, cell: u32) -> bool
        ensures { result ≡ is_shut self.now cell }
    {
        is_closed(self.row(self.cell(cell).bearer).stage, cell / 32)
    }

    /// What a thread's step other than an unlock does, where its cell is this one. A refused growth
    /// changes nothing.
    #[inline(always)]
    #[tactic(auto, using(crate::proofs::Parting::fills_by_memory, crate::proofs::Parting::frame_by_parts, crate::proofs::Parting::entries_by_parts))]
    pub(crate) fn make_cell_step(
        &mut self,
        thread: u32,
        step: Step,
        cell: u32,
    ) -> Result<(), AllocError>
        requires plain { is_unlock step ≡ false }
        requires thread_there { thread < length self.old.rows }
        requires cell_there { cell < length self.old.cells }
        requires cell { cell_ok self.old.limit thread (row_at self.old thread) step cell
            (cell_at self.old cell) ≡ true }
        requires allocs { (row_at self.old thread).allocs + 1 < 2 ^ 64 }
        requires frees { (row_at self.old thread).frees + 1 < 2 ^ 64 }
        requires count { CountFits (cell_at self.old cell).count }

        ensures ok { OnOk result (self.new ≡ stepped self.old thread step cell) }
        ensures err { OnErr result (self.new ≡ self.old) }
        ensures memory { OnErr result (needs_memory step ≡ true) }
    {
        let found = self.cell(cell);
        let shut = self.is_shut(cell);
        let takes = takes_block(step, found);
        let out = gone(step, found);
        // The one growth comes first, so that a refusal leaves all as it was.
        change_frame(&mut self.frames, thread, filled_place(step), out, cell)?;
        write_cell_and_row(
            &mut self.cells[cell as usize],
            &mut self.rows[thread as usize],
            self.local_limit,
            thread,
            step,
            cell,
            shut,
        );
        change_entries(&mut self.entries, born_cell(step), out);
        settle(&mut self.popped, thread, settled_cell(step));
        change_marks(&mut self.worklists, thread, is_free_step(step), takes, cell);
        enqueue(&mut self.queues, is_enqueue(step), shut, found.bearer, cell);
        Ok(())
    }
}
