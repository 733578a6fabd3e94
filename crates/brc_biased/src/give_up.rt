//! Counting down: a reference in a place of the frame goes, or the last entry of a dead block.

ghost use Rattle.std.specs.Prelude.{◌≡◌, ◌≢◌, ◌<◌, ◌-◌, ◌∷◌, ℕ, List, IfSome, IfNone, OnSome, IsTrue, true, false, None, []};
ghost use Rattle.brc_table.specs.law.declared.world.row.Hand.TheVariants as hands;
ghost use Rattle.brc_table.specs.law.rule.Logs.{entries_in};
ghost use Rattle.brc_table.specs.law.declared.world.event.Step.TheVariants as steps;
ghost use Rattle.brc_table.specs.law.declared.rule.told.Moved.TheVariants as moves;
ghost use Rattle.brc_table.specs.law.declared.rule.told.LogItem.TheVariants as told;
ghost use Rattle.brc_table.specs.law.rule.Seen.{counts_seen, risen_seen};
ghost use Rattle.brc_table.specs.Knowing.{known_seen, entries_of};
ghost use Rattle.brc_table.specs.Moving.{is_there};
ghost use Rattle.brc_table.specs.Seated.{Continues};
ghost use Rattle.brc_table.specs.Shown.{contents_of};
ghost use Rattle.brc_biased.specs.Bounded.{IsBounded};
ghost use Rattle.brc_biased.specs.Counter.{CountsMore};
ghost use Rattle.brc_biased.specs.Released.{IsTakenBlock, Released};
ghost use Rattle.brc_biased.specs.Standing.{HasDead, MayDrop, FillsNoPlace, MayCountDown, entries_left, released};
ghost use Rattle.brc_biased.specs.Up.{KnowsPart};

use crate::counter::Counter;
use crate::home::HasTable;
use crate::own::release_own;
use crate::shared::{release_risen, release_shared};
use brc_table::block::Block;
use brc_table::law::world::Dropped;
use brc_words::FIRST_MORTAL;
use std::alloc::Allocator;

impl<H: HasTable<A>, A: Allocator> Counter<H, A> {
    /// The thread's count of a mortal object, if it is more than one: then a reference to it goes in one event
    /// (`give_up_counted`). None of an immortal object, of the thread's only count, or if the thread has no local
    /// count of it.
    #[inline(always)]
    pub fn several(&self, cell: u32) -> Option<u32>
        requires inside { cell < self.now.heap.cells }
        ensures counts { IfSome result (λ count. counts_seen self.now.heap.cells self.now.seat.log cell ≡ count) }
        ensures more { OnSome result (CountsMore self.now.heap.cells self.now.seat.log cell) }
        ensures other { IfNone result (¬ CountsMore self.now.heap.cells self.now.seat.log cell) }
    {
        let count = self.counts[cell as usize];
        if cell < FIRST_MORTAL || count < 2 {
            None
        } else {
            Some(count)
        }
    }

    #[tactic(auto, using(crate::proofs::Owning::owns_less))]
    /// Gives a reference up that is one of several which the thread counts, in one event; so the object lives on. The
    /// count is what `several` has said. So whoever calls can put its own memory in order between the two.
    #[inline(always)]
    pub fn give_up_counted(&mut self, drop: Dropped, cell: u32, count: u32)
        requires inside { cell < self.old.heap.cells }
        requires holds { MayDrop self.old.heap.cells self.old.seat.log drop cell }
        requires more { CountsMore self.old.heap.cells self.old.seat.log cell }
        requires counts { counts_seen self.old.heap.cells self.old.seat.log cell ≡ count }

        ensures heap { self.new.heap ≡ self.old.heap }
        ensures seat { Continues self.old.seat self.new.seat }

        // What `give_up` says of a reference that ended no object.
        ensures told { self.new.seat.log ≡ told.Stepped (steps.LocalDown drop) (count - 1) moves.Nothing
            ∷ self.old.seat.log }
        ensures bounded { IsBounded self.old.seat.log self.new.seat.log }
        ensures block { IsTakenBlock self.old.heap.cells cell None self.old.seat self.new.seat }
        ensures knows { KnowsPart self.old.heap.cells self.new.seat.log
            (released false drop cell [] (known_seen self.old.heap.cells self.old.seat.log)) }
        ensures stands { MayCountDown self.old.heap.cells self.new.seat.log hands.Free }
        ensures keeps { FillsNoPlace self.old.heap.cells self.old.seat.log self.new.seat.log }
    {
        self.counts[cell as usize] = count - 1;
        match release_own(
            self.heap.table(),
            &mut self.seat,
            &mut self.owned,
            drop,
            cell,
            count,
        ) {
            None => (),
            Some(_ended) => unreachable!(),
        }
    }

    #[tactic(auto, using(crate::proofs::Owning::owns_less))]
    /// Gives a reference up, in at most `MOST_EVENTS` events whatever others do, with one lost exchange in the log, and
    /// answers the block of the object that this ended, if it did (PEP 703, "Biased Reference Counting"). `has_risen`
    /// says that the object was seen queued or merged while the reference was there; then no look is needed. It waits
    /// for nobody, unless its `HasTable` does to find the table.
    #[inline(always)]
    pub fn give_up(&mut self, drop: Dropped, cell: u32, has_risen: bool) -> Option<Block<A>>
        requires inside { cell < self.old.heap.cells }
        requires holds { MayDrop self.old.heap.cells self.old.seat.log drop cell }
        requires risen { IsTrue has_risen →
            risen_seen self.old.heap.cells self.old.seat.log drop cell ≡ true }

        ensures heap { self.new.heap ≡ self.old.heap }
        ensures seat { Continues self.old.seat self.new.seat }

        // Which list of events it is, and what it answers.
        ensures told { Released self.old.heap.cells drop cell has_risen result
            self.old.seat.log self.new.seat.log }
        ensures bounded { IsBounded self.old.seat.log self.new.seat.log }
        ensures block { IsTakenBlock self.old.heap.cells cell result self.old.seat self.new.seat }

        // What the thread knows then: the reference is gone, and the block is its own.
        ensures dead { IfSome result (λ there.
            HasDead self.old.heap.cells self.new.seat.log cell (entries_in (contents_of there.1))) }
        ensures others { (q : ℕ) (entries : List ℕ) → q ≢ cell →
            HasDead self.old.heap.cells self.old.seat.log q entries →
            HasDead self.old.heap.cells self.new.seat.log q (entries_left drop q entries) }
        ensures knows { KnowsPart self.old.heap.cells self.new.seat.log
            (released (is_there result) drop cell (entries_of result)
            (known_seen self.old.heap.cells self.old.seat.log)) }
        ensures stands { MayCountDown self.old.heap.cells self.new.seat.log hands.Free }
        ensures keeps { FillsNoPlace self.old.heap.cells self.old.seat.log self.new.seat.log }
    {
        let count = self.counts[cell as usize];
        let table = self.heap.table();
        if cell < FIRST_MORTAL {
            let _found = table.immortal_down(&mut self.seat, drop, cell);
            return None;
        }
        if count == 0 {
            if has_risen {
                return release_risen(table, &mut self.seat, drop, cell);
            }
            return release_shared(table, &mut self.seat, drop, cell);
        }
        // The thread's own memory comes first, as in `up`.
        self.counts[cell as usize] = count - 1;
        release_own(table, &mut self.seat, &mut self.owned, drop, cell, count)
    }
}
