//! A popped entry: a reference that went through the thread's merge queue, and is the thread's to deal with.

ghost use Rattle.std.specs.Prelude.{◌≡◌, ◌<◌, ◌≤◌, ◌%◌, ◌≢◌, ◌==◌, ℕ, if◌then◌else◌, IfSome, Some, true, false};
ghost use Rattle.brc_words.specs.declared.limits.TheConstants.{FIRST_MORTAL};
ghost use Rattle.brc_words.specs.declared.look.TheConstants.{MERGED_BITS, ONE_COUNT};
ghost use Rattle.brc_table.specs.law.world.Lists.{bit_of};
ghost use Rattle.brc_table.specs.law.world.Steps.{is_active};
ghost use Rattle.brc_table.specs.law.declared.world.event.LastDropped.TheVariants as lasts;
ghost use Rattle.brc_table.specs.law.declared.world.event.Step.TheVariants as steps;
ghost use Rattle.brc_table.specs.law.declared.world.row.Hand.TheVariants as hands;
ghost use Rattle.brc_table.specs.law.declared.known.word.Field.TheVariants as fields;
ghost use Rattle.brc_table.specs.law.known.Going_On.{settling, taking};
ghost use Rattle.brc_table.specs.law.rule.Logs.{entries_in};
ghost use Rattle.brc_table.specs.law.rule.Noted.{noted};
ghost use Rattle.brc_table.specs.law.rule.Seen.{part_seen, counts_seen};
ghost use Rattle.brc_table.specs.Knowing.{known_seen, entries_of};
ghost use Rattle.brc_table.specs.Moving.{is_there};
ghost use Rattle.brc_table.specs.Seated.{Continues};
ghost use Rattle.brc_table.specs.Shown.{contents_of};
ghost use Rattle.brc_biased.specs.Released.{IsTakenBlock, EndsByStep, MergesPopped, Settled};
ghost use Rattle.brc_biased.specs.Standing.{HasDead, MayCountDown, FillsNoPlace};
ghost use Rattle.brc_biased.specs.Up.{KnowsPart};

use crate::counter::Counter;
use crate::home::HasTable;
use crate::owned::clear_owned;
use brc_table::block::Block;
use brc_table::{Found, HeapTable, ThreadSeat};
use brc_words::{FIRST_MORTAL, is_merged_word};
use std::alloc::Allocator;

/// The object was found not merged: it is made nobody's, its local count joins the shared one, and the entry's
/// reference is counted down.
pub(crate) fn merge_popped<A: Allocator>(
    table: &HeapTable<A>,
    seat: &mut ThreadSeat<A>,
    cell: u32,
    shared: u64,
    local: u32,
) -> Option<Block<A>>
    requires table { seat.old.table ≡ table.now.table }
    requires inside { cell < table.now.cells }
    requires stands { MayCountDown table.now.cells seat.old.log hands.Free }
    requires active { is_active (part_seen table.now.cells seat.old.log).row.stage ≡ true }
    requires popped { bit_of (part_seen table.now.cells seat.old.log).popped cell ≡ 1 }
    requires found { noted fields.Shared cell seat.old.log ≡ Some shared }
    requires unmerged { shared % ONE_COUNT ≢ MERGED_BITS }
    requires counted { FIRST_MORTAL ≤ cell → counts_seen table.now.cells seat.old.log cell ≡ local }
    ensures told { MergesPopped cell result seat.old.log seat.new.log }
    ensures block { IsTakenBlock table.now.cells cell result seat.old seat.new }
    ensures seat { Continues seat.old seat.new }
    ensures knows { KnowsPart table.now.cells seat.new.log
        (settling cell (taking (is_there result) cell (entries_of result) (known_seen table.now.cells seat.old.log))) }
    ensures counts { (c : ℕ) → counts_seen table.now.cells seat.new.log c ≡
        (if c == cell then 0 else counts_seen table.now.cells seat.old.log c) }
    ensures keeps { FillsNoPlace table.now.cells seat.old.log seat.new.log }
{
    // From here on nobody owns the object, and this thread alone merges it; the popped bit keeps it alive. It is untied
    // first, since after the merge another thread may free the cell, and somebody may claim it.
    table.untie_popped(seat, cell, shared);

    // Others may count up and down on the shared word before this sum; it finds their counts there.
    let _shared = table.merge_add(seat, cell, local);

    // Whoever brings the merged count to 0 takes the block: this step, or one of another thread's after it.
    let Found {
        number: _number,
        block,
    } = table.last_added(seat, cell);
    block
}

impl<H: HasTable<A>, A: Allocator> Counter<H, A> {
    #[tactic(auto, using(crate::proofs::Owning::owns_gone))]
    /// Deals with a popped entry: an object that isn't merged is merged by the thread; then the entry's reference is
    /// counted down, and the block is answered where that was the last one.
    pub fn settle(&mut self, cell: u32) -> Option<Block<A>>
        requires inside { cell < self.old.heap.cells }
        requires stands { MayCountDown self.old.heap.cells self.old.seat.log hands.Free }
        requires active { is_active (part_seen self.old.heap.cells self.old.seat.log).row.stage ≡ true }
        requires popped { bit_of (part_seen self.old.heap.cells self.old.seat.log).popped cell ≡ 1 }

        ensures heap { self.new.heap ≡ self.old.heap }
        ensures seat { Continues self.old.seat self.new.seat }
        ensures told { Settled cell result self.old.seat.log self.new.seat.log }
        ensures block { IsTakenBlock self.old.heap.cells cell result self.old.seat self.new.seat }
        ensures dead { IfSome result (λ there.
            HasDead self.old.heap.cells self.new.seat.log cell (entries_in (contents_of there.1))) }
        ensures knows { KnowsPart self.old.heap.cells self.new.seat.log
            (settling cell (taking (is_there result) cell (entries_of result)
            (known_seen self.old.heap.cells self.old.seat.log))) }
        ensures stands { MayCountDown self.old.heap.cells self.new.seat.log hands.Free }
        ensures keeps { FillsNoPlace self.old.heap.cells self.old.seat.log self.new.seat.log }
    {
        let table = self.heap.table();

        // A merged object stays merged. One that isn't is merged by nobody else, since it is this thread's.
        let shared = table.load_shared(&mut self.seat, cell);
        if is_merged_word(shared) {
            // Others may count down beside this. Only the step that brings the merged count to 0 takes the block.
            let Found {
                number: _number,
                block,
            } = table.last_popped(&mut self.seat, cell, shared);
            return block;
        }
        let local = self.counts[cell as usize];
        let block = merge_popped(table, &mut self.seat, cell, shared, local);

        // No immortal goes through a queue, but no log says so.
        if FIRST_MORTAL <= cell {
            self.counts[cell as usize] = 0;
            clear_owned(&mut self.owned, cell);
        }
        block
    }

    /// Deals with a popped entry of a thread that has left: its object is merged, since the thread handed over all that
    /// it owned, and so the entry's reference is counted down at once.
    pub fn settle_left(&mut self, cell: u32) -> Option<Block<A>>
        requires inside { cell < self.old.heap.cells }
        requires stands { MayCountDown self.old.heap.cells self.old.seat.log hands.Free }
        requires left { is_active (part_seen self.old.heap.cells self.old.seat.log).row.stage ≡ false }
        requires popped { bit_of (part_seen self.old.heap.cells self.old.seat.log).popped cell ≡ 1 }

        ensures heap { self.new.heap ≡ self.old.heap }
        ensures seat { Continues self.old.seat self.new.seat }
        ensures told { EndsByStep (steps.LastDown (lasts.Popped cell)) cell result self.old.seat.log self.new.seat.log }
        ensures block { IsTakenBlock self.old.heap.cells cell result self.old.seat self.new.seat }
        ensures dead { IfSome result (λ there.
            HasDead self.old.heap.cells self.new.seat.log cell (entries_in (contents_of there.1))) }
        ensures knows { KnowsPart self.old.heap.cells self.new.seat.log
            (settling cell (taking (is_there result) cell (entries_of result)
            (known_seen self.old.heap.cells self.old.seat.log))) }
        ensures stands { MayCountDown self.old.heap.cells self.new.seat.log hands.Free }
        ensures keeps { FillsNoPlace self.old.heap.cells self.old.seat.log self.new.seat.log }
    {
        // Others may count down beside this. Only the step that brings the merged count to 0 takes the block.
        let Found {
            number: _number,
            block,
        } = self.heap.table().last_left(&mut self.seat, cell);
        block
    }
}
