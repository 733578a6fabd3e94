//! Settling: polls and work until there is nothing to do.

ghost use Rattle.std.specs.Prelude.{IsTrue};
ghost use Rattle.brc_count.specs.law.living.Living.{OwnLog};
ghost use Rattle.brc_count.specs.law.living.Quiet.{Quietly};
ghost use Rattle.brc_count.specs.Frames.{IsUnlocked, KeepsHandles};
ghost use Rattle.brc_count.specs.Owned.{Keeps};
ghost use Rattle.brc_thread.specs.Settling.{PollsAndWorks, Settles};

use crate::mutator::Mutator;
use brc_count::biased::HasTable;
use std::alloc::Allocator;
use std::sync::Wait;

/// So many turns of work are done between two polls.
const TURNS: usize = 64;

impl<H: HasTable<A>, A: Allocator> Mutator<H, A> {
    /// Works, and polls once no dead block is left; whether that poll was told nothing.
    fn has_settled(&mut self) -> bool
        requires unlocked { IsUnlocked self.old }
        ensures handles { KeepsHandles self.old self.new }
        ensures went { PollsAndWorks self.old self.new }
        ensures settled { IsTrue result → Settles self.old self.new }
        ensures own { IsTrue result → OwnLog self.old.heap.cells self.old.seat.log }
    {
        if self.work(TURNS) == 0 {
            return false;
        }
        self.poll() == 0
    }

    /// Works and polls until a poll was told nothing with no dead block left. Another thread may tell it something at
    /// any time, so that nothing says when that is. The thread only lets go; what its own log before tells of what
    /// lives is so. It takes no memory.
    pub fn settle(&mut self, rt: &impl Wait)
        requires unlocked { IsUnlocked self.old }
        ensures handles { KeepsHandles self.old self.new }
        ensures settled { Settles self.old self.new }
        ensures quiet { Quietly self.old.seat.log self.new.seat.log }
        ensures own { OwnLog self.old.heap.cells self.old.seat.log }

        ensures keeps { Keeps self.old self.new }
        ensures unlocked { IsUnlocked self.new }
    {
        for _ in rt.forever() {
            if self.has_settled() {
                return;
            }
        }
        unreachable!()
    }
}
