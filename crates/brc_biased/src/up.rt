//! Counting up: a source's cell gets one reference more, from a vacant place of the frame.

ghost use Rattle.std.specs.Prelude.{◌≡◌, ◌+◌, ◌<◌, ◌≤◌, ◌∷◌, IsTrue, true};
ghost use Rattle.brc_words.specs.declared.limits.TheConstants.{FIRST_MORTAL};
ghost use Rattle.brc_table.specs.law.declared.world.event.Dropped.TheVariants as drops;
ghost use Rattle.brc_table.specs.law.declared.world.event.Step.TheVariants as steps;
ghost use Rattle.brc_table.specs.law.known.Going_On.{filling};
ghost use Rattle.brc_table.specs.law.declared.rule.told.Moved.TheVariants as moves;
ghost use Rattle.brc_table.specs.law.declared.rule.told.LogItem.TheVariants as told;
ghost use Rattle.brc_table.specs.law.rule.Seen.{counts_seen, risen_seen, contents_locked};
ghost use Rattle.brc_table.specs.Knowing.{known_seen, KeepsNotes};
ghost use Rattle.brc_table.specs.Seated.{IsSameSeat};
ghost use Rattle.brc_biased.specs.Up.{Raising, CountsHere, RaisedImmortal, RaisedShared, KnowsPart};

use crate::counter::Counter;
use crate::home::HasTable;
use brc_table::law::world::Source;
use brc_words::{FIRST_MORTAL, is_risen_word};
use std::alloc::Allocator;

impl<H: HasTable<A>, A: Allocator> Counter<H, A> {
    #[tactic(auto, using(crate::proofs::Owning::owns_more))]
    /// Counts the cell up, in one event: an immortal's count stays, an own object below the local limit is counted in the
    /// thread's own memory, and all else on the shared word (PEP 703, "Biased Reference Counting"). It answers whether the
    /// shared word was found queued or merged, so that the reference's release needs no look.
    #[inline(always)]
    pub fn up(&mut self, source: Source, place: u32, cell: u32) -> bool
        requires inside { cell < self.old.heap.cells }
        requires raising { Raising self.old.heap.cells self.old.seat.log source place cell }

        ensures heap { self.new.heap ≡ self.old.heap }
        ensures seat { IsSameSeat self.old.seat self.new.seat }

        // Which of the three events it is.
        ensures immortal { cell < FIRST_MORTAL →
            RaisedImmortal source place self.old.seat.log self.new.seat.log }
        ensures own { FIRST_MORTAL ≤ cell →
            CountsHere self.old.heap.cells self.old.heap.local_limit self.old.seat.log cell →
            self.new.seat.log ≡ told.Stepped (steps.LocalUp source place)
            (counts_seen self.old.heap.cells self.old.seat.log cell + 1) moves.Nothing ∷ self.old.seat.log }
        ensures shared { FIRST_MORTAL ≤ cell →
            ¬ CountsHere self.old.heap.cells self.old.heap.local_limit self.old.seat.log cell →
            RaisedShared source place self.old.seat.log self.new.seat.log result }

        // What the thread knows then.
        ensures knows { KnowsPart self.old.heap.cells self.new.seat.log
            (filling place cell (known_seen self.old.heap.cells self.old.seat.log)) }
        ensures keeps { KeepsNotes self.old.heap.cells self.old.seat.log self.new.seat.log }
        ensures found { contents_locked self.new.seat.log ≡ contents_locked self.old.seat.log }
        ensures risen { IsTrue result →
            risen_seen self.old.heap.cells self.new.seat.log (drops.Frame place) cell ≡ true }
    {
        let count = self.counts[cell as usize];
        let table = self.heap.table();
        if 0 < count && count < table.local_limit() {
            // The thread's own memory comes first.
            self.counts[cell as usize] = count + 1;
            table.local_up(&mut self.seat, source, place, cell, count);
            return false;
        }
        if cell < FIRST_MORTAL {
            let _found = table.immortal_up(&mut self.seat, source, place, cell);
            return false;
        }

        // Others may count, ask or merge beside this: what the new reference comes from keeps the object alive.
        let found = table.shared_up(&mut self.seat, source, place, cell);
        is_risen_word(found)
    }
}
