//! What an enabled event does to a world.

ghost use Rattle.std.specs.Prelude.{◌≡◌, ◌+◌, ◌<◌, ◌≤◌, ◌^◌, ℕ, true, OnOk, OnErr, length};
ghost use Rattle.law.specs.world.Heap.{cell_at, row_at};
ghost use Rattle.law.specs.world.Steps.{enabled, thread_may, target_at, stepped, after};
ghost use Rattle.brc_state.specs.Memory.{needs_memory};
ghost use Rattle.brc_words.specs.Shared.{CountFits};

use crate::tables::Tables;
use brc_words::MOST_CELLS;
use law::world::{Event, Step};
use std::alloc::{AllocError, Allocator};

impl<A: Allocator + Copy> Tables<A> {
    /// A thread's step on this cell. A refused growth changes nothing.
    #[inline(always)]
    #[tactic(auto, using(crate::proofs::Enabling::thread_there, crate::proofs::Enabling::cell_there, crate::proofs::Enabling::unlocked_change))]
    fn make_step(&mut self, thread: u32, step: Step, cell: u32) -> Result<(), AllocError>
        requires may { thread_may self.old thread step ≡ true }
        requires target { target_at self.old thread step ≡ Some cell }
        requires allocs { (row_at self.old thread).allocs + 1 < 2 ^ 64 }
        requires frees { (row_at self.old thread).frees + 1 < 2 ^ 64 }
        requires count { CountFits (cell_at self.old cell).count }

        ensures ok { OnOk result (self.new ≡ stepped self.old thread step cell) }
        ensures err { OnErr result (self.new ≡ self.old) }
        ensures memory { OnErr result (needs_memory step ≡ true) }
    {
        match step {
            Step::Unlock(change) => self.unlock(thread, cell, change),
            _ => self.make_cell_step(thread, step, cell),
        }
    }

    /// Makes the event, which means this cell. A refused growth changes nothing.
    #[inline(always)]
    #[tactic(auto, using(crate::proofs::Enabling::thread_there, crate::proofs::Enabling::named_word_fits))]
    pub fn apply(&mut self, event: &Event, means: Option<u32>) -> Result<(), AllocError>
        requires may { enabled self.old event.now ≡ true }
        requires means { means ≡ target_at self.old event.now.thread event.now.step }
        requires allocs { (row_at self.old event.now.thread).allocs + 1 < 2 ^ 64 }
        requires frees { (row_at self.old event.now.thread).frees + 1 < 2 ^ 64 }
        requires counts { (c : ℕ) → CountFits (cell_at self.old c).count }
        requires cells { length self.old.cells ≤ MOST_CELLS }
        requires few { (u : ℕ) → event.now.step ≡ Step.Register u → self.old.registrations < 65536 }
        requires past_allocs { (u : ℕ) → self.old.past_allocs + (row_at self.old u).allocs < 2 ^ 64 }
        requires past_frees { (u : ℕ) → self.old.past_frees + (row_at self.old u).frees < 2 ^ 64 }

        ensures ok { OnOk result (self.new ≡ after self.old event.now) }
        ensures err { OnErr result (self.new ≡ self.old) }
        ensures memory { OnErr result (needs_memory event.now.step ≡ true) }
    {
        if event.thread == 0 {
            return self.make_root_step(event.step);
        }
        match means {
            Some(cell) => self.make_step(event.thread, event.step, cell),
            None => {
                self.make_word_step(event.thread, event.step);
                Ok(())
            }
        }
    }
}
