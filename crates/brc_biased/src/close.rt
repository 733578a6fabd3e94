//! Leaving: a thread hands over what it owns, and then closes its queue words one by one.

ghost use Rattle.std.specs.Prelude.{◌≡◌, ◌<◌, ◌≤◌, ◌==◌, ◌∷◌, ℕ, if◌then◌else◌, IfSome, true};
ghost use Rattle.brc_words.specs.declared.limits.TheConstants.{FIRST_MORTAL};
ghost use Rattle.brc_table.specs.law.world.Steps.{is_active};
ghost use Rattle.brc_table.specs.law.declared.world.row.Hand.TheVariants as hands;
ghost use Rattle.brc_table.specs.law.rule.Logs.{entries_in};
ghost use Rattle.brc_table.specs.law.rule.Seen.{part_seen, counts_seen};
ghost use Rattle.brc_table.specs.law.world.Heap.{words_for};
ghost use Rattle.brc_table.specs.law.declared.world.event.Step.TheVariants as steps;
ghost use Rattle.brc_table.specs.law.known.Going_On.{popping, closing, reopening, taking};
ghost use Rattle.brc_table.specs.law.declared.rule.told.Moved.TheVariants as moves;
ghost use Rattle.brc_table.specs.law.declared.rule.told.LogItem.TheVariants as told;
ghost use Rattle.brc_table.specs.law.steps.Owing.{MayStep, MayClose};
ghost use Rattle.brc_table.specs.law.steps.Taking.{AreQueued};
ghost use Rattle.brc_table.specs.Knowing.{known_seen, entries_of, KeepsNotes};
ghost use Rattle.brc_table.specs.Moving.{is_there};
ghost use Rattle.brc_table.specs.Seated.{IsSameSeat, Continues};
ghost use Rattle.brc_table.specs.Shown.{contents_of};
ghost use Rattle.brc_biased.specs.Released.{IsTakenBlock, HandsOver};
ghost use Rattle.brc_biased.specs.Standing.{HasDead, MayCountDown, FillsNoPlace};
ghost use Rattle.brc_biased.specs.Up.{KnowsPart};

use crate::counter::Counter;
use crate::home::HasTable;
use crate::owned::clear_owned;
use brc_table::Found;
use brc_table::block::Block;
use std::alloc::Allocator;

impl<H: HasTable<A>, A: Allocator> Counter<H, A> {
    /// Closes the next of the thread's queue words, and takes its bits, each a cell of the heap. The thread counts
    /// nothing any more: it has handed over what it owned.
    pub fn close(&mut self, word: u32) -> u64
        requires inside { word < words_for self.old.heap.cells }
        requires closes { MayClose self.old.heap.cells self.old.seat.log word }
        ensures heap { self.new.heap ≡ self.old.heap }
        ensures seat { IsSameSeat self.old.seat self.new.seat }
        ensures told { self.new.seat.log ≡ told.Stepped (steps.Close word) result moves.Nothing ∷ self.old.seat.log }
        ensures knows { KnowsPart self.old.heap.cells self.new.seat.log
            (closing self.old.heap.cells word
            (popping word result (known_seen self.old.heap.cells self.old.seat.log))) }
        ensures keeps { KeepsNotes self.old.heap.cells self.old.seat.log self.new.seat.log }
        ensures cells { AreQueued self.old.heap.cells word result }
    {
        self.heap.table().close(&mut self.seat, word)
    }

    /// Opens one of the thread's queue words again, by the first steps of a thread whose number was used before.
    pub fn open(&mut self, word: u32)
        requires inside { word < words_for self.old.heap.cells }
        requires allowed { MayStep self.old.heap.cells self.old.seat.log (steps.Reopen word) }
        ensures heap { self.new.heap ≡ self.old.heap }
        ensures seat { IsSameSeat self.old.seat self.new.seat }
        ensures told { self.new.seat.log ≡ told.Stepped (steps.Reopen word) 0 moves.Nothing ∷ self.old.seat.log }
        ensures knows { KnowsPart self.old.heap.cells self.new.seat.log
            (reopening self.old.heap.cells word (known_seen self.old.heap.cells self.old.seat.log)) }
        ensures keeps { KeepsNotes self.old.heap.cells self.old.seat.log self.new.seat.log }
    {
        self.heap.table().open_word(&mut self.seat, word);
    }

    #[tactic(auto, using(crate::proofs::Owning::owns_gone))]
    /// Hands an own object over, which the thread counts. The block is answered where no reference is left.
    pub fn hand_on(&mut self, cell: u32) -> Option<Block<A>>
        requires inside { cell < self.old.heap.cells }
        requires mortal { FIRST_MORTAL ≤ cell }
        requires counted { 0 < counts_seen self.old.heap.cells self.old.seat.log cell }
        requires stands { MayCountDown self.old.heap.cells self.old.seat.log hands.Free }
        requires active { is_active (part_seen self.old.heap.cells self.old.seat.log).row.stage ≡ true }

        ensures heap { self.new.heap ≡ self.old.heap }
        ensures seat { Continues self.old.seat self.new.seat }
        ensures told { HandsOver cell result self.old.seat.log self.new.seat.log }
        ensures block { IsTakenBlock self.old.heap.cells cell result self.old.seat self.new.seat }
        ensures dead { IfSome result (λ there.
            HasDead self.old.heap.cells self.new.seat.log cell (entries_in (contents_of there.1))) }
        ensures knows { KnowsPart self.old.heap.cells self.new.seat.log
            (taking (is_there result) cell (entries_of result) (known_seen self.old.heap.cells self.old.seat.log)) }
        ensures counts { (c : ℕ) → counts_seen self.old.heap.cells self.new.seat.log c ≡
            (if c == cell then 0 else counts_seen self.old.heap.cells self.old.seat.log c) }
        ensures stands { MayCountDown self.old.heap.cells self.new.seat.log hands.Free }
        ensures keeps { FillsNoPlace self.old.heap.cells self.old.seat.log self.new.seat.log }
    {
        // From the offer on the object is queued: others count down on its shared word alone, and end it only once it
        // is merged. Whoever asked for it before may still put the reference into this thread's queue. Then the close
        // of that word finds it, or the next thread with this number does.
        let table = self.heap.table();
        let _offered = table.offer(&mut self.seat, cell);
        table.untie_offered(&mut self.seat, cell);

        // Who asks from here on finds nobody, and counts down itself. Others may have counted down below 0 since the offer:
        // the sum finds their counts. If it is 0, the block is this thread's.
        let local = self.counts[cell as usize];
        let Found {
            number: _number,
            block,
        } = table.merge_yielding(&mut self.seat, cell, local);
        self.counts[cell as usize] = 0;
        clear_owned(&mut self.owned, cell);
        block
    }
}
