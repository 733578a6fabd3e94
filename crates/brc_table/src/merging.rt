//! Merging: an object is made nobody's, and its local count joins the shared one; who has asked for it puts it into a
//! queue.

ghost use Rattle.std.specs.Prelude.{◌≡◌, ◌<◌, ◌≤◌, ◌∷◌, ◌+◌, ◌*◌, ◌%◌, if◌then◌else◌, Some, None, IfSome};
ghost use Rattle.brc_words.specs.declared.limits.TheConstants.{MOST_THREADS};
ghost use Rattle.brc_words.specs.declared.look.TheConstants.{ONE_COUNT};
ghost use Rattle.law.specs.world.Lists.{WORD_LIMIT};
ghost use Rattle.law.specs.declared.world.event.Step.TheVariants as steps;
ghost use Rattle.law.specs.declared.world.row.Hand.TheVariants as hands;
ghost use Rattle.law.specs.declared.world.row.Phase.TheVariants as phases;
ghost use Rattle.law.specs.known.Items.{is_shut_word};
ghost use Rattle.law.specs.known.Going_On.{handing, counting, taking};
ghost use Rattle.law.specs.declared.rule.told.Moved.TheVariants as moves;
ghost use Rattle.law.specs.declared.rule.told.LogItem.TheVariants as told;
ghost use Rattle.law.specs.steps.Owing.{UntiesOver, UntiesOffered, UntiesPopped, Offers, AddsLocal, MayYield, Enqueues};
ghost use Rattle.law.specs.steps.Taking.{AreCells};
ghost use Rattle.law.specs.world.Steps.{takes_block, added_hand};
ghost use Rattle.law.specs.known.Items.{cell_told};
ghost use Rattle.law.specs.known.Taken.{listed_at};
ghost use Rattle.law.specs.rule.Seen.{part_seen, counts_seen, taken_seen};
ghost use Rattle.brc_table.specs.Moving.{is_there, found_in, out_with};
ghost use Rattle.law.specs.rule.Noted.{newest_step, counted_before};
ghost use Rattle.brc_table.specs.Knowing.{known_seen, entries_of, Knows, KeepsNotes};
ghost use Rattle.brc_table.specs.Queued.{IsEnqueued, hand_left};
ghost use Rattle.brc_table.specs.Seated.{IsSameSeat, Continues};

use crate::layout::bit;
use crate::machine::{add_up, or, store};
use crate::moving::{Found, end_by_add};
use crate::seats::ThreadSeat;
use crate::table::HeapTable;
use brc_words::{ONE_COUNT, QUEUED_BITS, is_closed_word};
use law::known::{Field, Word};
use law::world::Step;
use std::alloc::Allocator;
use std::marker::Brand;

/// What became of a reference that was to go into a queue.
#[derive(Clone, Copy, Debug, PartialEq, Eq)]
pub enum Enqueued {
    /// The owner's queue has it.
    Accepted,
    /// The owner has closed this word of its queue: the reference is still in the hand.
    Closed,
}

impl<A: Allocator> HeapTable<A> {
    #[tactic(auto, using(law::proofs::steps::Untying_Steps::unties_over))]
    /// Untie of an own object whose count is 0, and which others counted or asked for.
    pub fn untie_over(&self, seat: &mut ThreadSeat<A>, cell: u32)
        requires table { seat.old.table ≡ self.now.table }
        requires inside { cell < self.now.cells }
        requires unties { UntiesOver self.now.cells seat.old.log cell }
        ensures told { seat.new.log ≡ told.Stepped (steps.Untie cell) 0 moves.Nothing ∷ seat.old.log }
        ensures seat { IsSameSeat seat.old seat.new }
        ensures knows { Knows self.now.cells seat.new.log
            (handing (hands.Busy phases.Untied cell) (counting cell 0 (known_seen self.now.cells seat.old.log))) }
        ensures keeps { KeepsNotes self.now.cells seat.old.log seat.new.log }
    {
        let word = Word::Of(Field::Owner, cell);
        store(self, &mut seat.place, word, 0, Step::Untie(cell));
    }

    #[tactic(auto, using(law::proofs::steps::Offering_Steps::offers_own))]
    /// Offer: an own object that the thread counts will be handed over, and counts as asked for.
    pub fn offer(&self, seat: &mut ThreadSeat<A>, cell: u32) -> u64
        requires table { seat.old.table ≡ self.now.table }
        requires inside { cell < self.now.cells }
        requires offers { Offers self.now.cells seat.old.log cell }
        ensures told { seat.new.log ≡ told.Stepped (steps.Offer cell) result moves.Nothing ∷ seat.old.log }
        ensures seat { IsSameSeat seat.old seat.new }
        ensures knows { Knows self.now.cells seat.new.log
            (handing (hands.Busy phases.Offered cell) (known_seen self.now.cells seat.old.log)) }
        ensures keeps { KeepsNotes self.now.cells seat.old.log seat.new.log }
    {
        let word = Word::Of(Field::Shared, cell);
        or(self, &mut seat.place, word, QUEUED_BITS, Step::Offer(cell))
    }

    #[tactic(auto, using(law::proofs::steps::Untying_Steps::unties_offered))]
    /// Untie of an own object that the thread has offered.
    pub fn untie_offered(&self, seat: &mut ThreadSeat<A>, cell: u32)
        requires table { seat.old.table ≡ self.now.table }
        requires inside { cell < self.now.cells }
        requires unties { UntiesOffered self.now.cells seat.old.log cell }
        ensures told { seat.new.log ≡ told.Stepped (steps.Untie cell) 0 moves.Nothing ∷ seat.old.log }
        ensures seat { IsSameSeat seat.old seat.new }
        ensures knows { Knows self.now.cells seat.new.log
            (handing (hands.Busy phases.Yielding cell) (counting cell 0 (known_seen self.now.cells seat.old.log))) }
        ensures keeps { KeepsNotes self.now.cells seat.old.log seat.new.log }
        ensures newest { newest_step seat.new.log ≡ Some (steps.Untie cell) }
        ensures counted { counted_before self.now.cells cell seat.new.log ≡ counts_seen self.now.cells seat.old.log cell }
    {
        let word = Word::Of(Field::Owner, cell);
        store(self, &mut seat.place, word, 0, Step::Untie(cell));
    }

    /// Untie of a popped entry that was found not merged.
    pub fn untie_popped(&self, seat: &mut ThreadSeat<A>, cell: u32, shared: u64)
        requires table { seat.old.table ≡ self.now.table }
        requires inside { cell < self.now.cells }
        requires unties { UntiesPopped self.now.cells seat.old.log cell shared }
        ensures told { seat.new.log ≡ told.Stepped (steps.Untie cell) 0 moves.Nothing ∷ seat.old.log }
        ensures seat { IsSameSeat seat.old seat.new }
        ensures knows { Knows self.now.cells seat.new.log
            (handing (hands.Busy phases.Popping cell) (counting cell 0 (known_seen self.now.cells seat.old.log))) }
        ensures keeps { KeepsNotes self.now.cells seat.old.log seat.new.log }
        ensures newest { newest_step seat.new.log ≡ Some (steps.Untie cell) }
        ensures counted { counted_before self.now.cells cell seat.new.log ≡ counts_seen self.now.cells seat.old.log cell }
    {
        let _shared = shared;
        let word = Word::Of(Field::Owner, cell);
        store(self, &mut seat.place, word, 0, Step::Untie(cell));
    }

    /// MergeAdd: the local count, as the log told it before, joins the shared one. It answers the number found; its item is
    /// told the sum.
    pub fn merge_add(&self, seat: &mut ThreadSeat<A>, cell: u32, local: u32) -> u64
        requires table { seat.old.table ≡ self.now.table }
        requires inside { cell < self.now.cells }
        requires adds { AddsLocal self.now.cells seat.old.log cell local }
        ensures told { seat.new.log ≡ told.Stepped (steps.MergeAdd cell)
            ((result + (local * ONE_COUNT + 1)) % WORD_LIMIT) moves.Nothing
            ∷ seat.old.log }
        ensures seat { IsSameSeat seat.old seat.new }
        ensures knows { Knows self.now.cells seat.new.log
            (handing (added_hand cell (part_seen self.now.cells seat.old.log).row.hand)
            (known_seen self.now.cells seat.old.log)) }
        ensures keeps { KeepsNotes self.now.cells seat.old.log seat.new.log }
        ensures newest { newest_step seat.new.log ≡ Some (steps.MergeAdd cell) }
    {
        let word = Word::Of(Field::Shared, cell);
        let more = u64::from(local) * ONE_COUNT + 1;
        add_up::<A, Brand>(self, &mut seat.place, word, more, Step::MergeAdd(cell))
    }

    /// MergeAdd of an object that is handed over. The answer has the sum, which the item is told, and the block where
    /// the object is dead.
    pub fn merge_yielding(&self, seat: &mut ThreadSeat<A>, cell: u32, local: u32) -> Found<A>
        requires table { seat.old.table ≡ self.now.table }
        requires inside { cell < self.now.cells }
        requires yields { MayYield self.now.cells seat.old.log cell local }
        ensures of_cell { IfSome result.block (λ block. block.0 ≡ cell) }
        ensures fresh { IfSome result.block (λ block. listed_at (taken_seen self.now.cells seat.old.log) cell ≡ None) }
        ensures entries { AreCells self.now.cells (entries_of result.block) }
        ensures dead { is_there result.block ≡ takes_block (steps.MergeAdd cell)
            (cell_told (steps.MergeAdd cell) result.number) }
        ensures told { seat.new.log ≡ told.Stepped (steps.MergeAdd cell) result.number (found_in cell result.block)
            ∷ seat.old.log }
        ensures out { seat.new.slots ≡ out_with cell result.block seat.old.slots }
        ensures seat { Continues seat.old seat.new }
        ensures knows { Knows self.now.cells seat.new.log
            (handing hands.Free (taking (is_there result.block) cell (entries_of result.block)
            (known_seen self.now.cells seat.old.log))) }
        ensures keeps { KeepsNotes self.now.cells seat.old.log seat.new.log }
    {
        let added = u64::from(local) * ONE_COUNT + 1;
        end_by_add(self, &mut seat.place, cell, added, Step::MergeAdd(cell))
    }

    /// Enqueue: the reference in the hand goes into the queue of the owner that was found, unless the word is closed.
    pub fn enqueue(&self, seat: &mut ThreadSeat<A>, cell: u32, owner: u32) -> Enqueued
        requires table { seat.old.table ≡ self.now.table }
        requires inside { cell < self.now.cells }
        requires enqueues { Enqueues self.now.cells seat.old.log cell owner }
        ensures told { IsEnqueued cell result seat.old.log seat.new.log }
        ensures seat { IsSameSeat seat.old seat.new }
        ensures knows { Knows self.now.cells seat.new.log
            (handing (hand_left cell result) (known_seen self.now.cells seat.old.log)) }
        ensures keeps { KeepsNotes self.now.cells seat.old.log seat.new.log }
    {
        let found = self.enqueue_word(seat, cell, owner);
        if is_closed_word(found) {
            Enqueued::Closed
        } else {
            Enqueued::Accepted
        }
    }

    #[tactic(auto, using(crate::proofs::Placing::queue_inside))]
    /// The same, and the answer is the number that the word had.
    pub fn enqueue_word(&self, seat: &mut ThreadSeat<A>, cell: u32, owner: u32) -> u64
        requires table { seat.old.table ≡ self.now.table }
        requires inside { cell < self.now.cells }
        requires enqueues { Enqueues self.now.cells seat.old.log cell owner }
        ensures told { seat.new.log ≡ told.Stepped (steps.Enqueue cell) result moves.Nothing ∷ seat.old.log }
        ensures seat { IsSameSeat seat.old seat.new }
        ensures knows { Knows self.now.cells seat.new.log
            (handing (if is_shut_word result then hands.Busy phases.Shut cell else hands.Free)
            (known_seen self.now.cells seat.old.log)) }
        ensures keeps { KeepsNotes self.now.cells seat.old.log seat.new.log }
    {
        let word = Word::Queue(owner, cell / 32);
        let bits = bit(cell % 32);
        or(self, &mut seat.place, word, bits, Step::Enqueue(cell))
    }
}
