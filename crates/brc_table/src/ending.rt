//! The ends of objects: where the number found says that the object is dead, the call answers its block, with the
//! contents as they were put home last.

ghost use Rattle.std.specs.Prelude.{◌≡◌, ◌<◌, ◌≤◌, ◌∷◌, None, IfSome};
ghost use Rattle.law.specs.declared.world.event.LastDropped.TheVariants as lasts;
ghost use Rattle.law.specs.declared.world.event.Step.TheVariants as steps;
ghost use Rattle.law.specs.declared.world.row.Hand.TheVariants as hands;
ghost use Rattle.law.specs.world.Steps.{takes_block};
ghost use Rattle.law.specs.known.Going_On.{handing, taking, seeing_zero, dropping_last, settling};
ghost use Rattle.law.specs.known.Items.{cell_told};
ghost use Rattle.law.specs.known.Taken.{listed_at};
ghost use Rattle.law.specs.declared.rule.told.LogItem.TheVariants as told;
ghost use Rattle.law.specs.rule.Seen.{taken_seen};
ghost use Rattle.law.specs.steps.Owing.{MayCarry, EndsRisen, EndsPopped, EndsAdded, EndsLeft, EndsShut, EndsNobodys};
ghost use Rattle.law.specs.steps.Taking.{AreCells};
ghost use Rattle.brc_table.specs.Knowing.{known_seen, entries_of, Knows, KeepsNotes};
ghost use Rattle.brc_table.specs.Moving.{is_there, found_in, out_with};
ghost use Rattle.brc_table.specs.Seated.{Continues};

use crate::moving::{Found, end_by_load, end_by_or, end_by_sub};
use crate::seats::ThreadSeat;
use crate::table::HeapTable;
use brc_words::{MERGED_BITS, ONE_COUNT};
use law::world::{Dropped, LastDropped, Step};
use std::alloc::Allocator;

impl<A: Allocator> HeapTable<A> {
    /// SeeZero: an own object whose count is 0 is dead if no count of others is left and nobody asked.
    pub fn see_zero(&self, seat: &mut ThreadSeat<A>, cell: u32) -> Found<A>
        requires table { seat.old.table ≡ self.now.table }
        requires inside { cell < self.now.cells }
        requires carries { MayCarry self.now.cells seat.old.log (steps.SeeZero cell) cell }
        ensures of_cell { IfSome result.block (λ block. block.0 ≡ cell) }
        ensures fresh { IfSome result.block (λ block. listed_at (taken_seen self.now.cells seat.old.log) cell ≡ None) }
        ensures entries { AreCells self.now.cells (entries_of result.block) }
        ensures dead { is_there result.block ≡ takes_block (steps.SeeZero cell)
            (cell_told (steps.SeeZero cell) result.number) }
        ensures told { seat.new.log ≡ told.Stepped (steps.SeeZero cell) result.number (found_in cell result.block)
            ∷ seat.old.log }
        ensures out { seat.new.slots ≡ out_with cell result.block seat.old.slots }
        ensures seat { Continues seat.old seat.new }
        ensures knows { Knows self.now.cells seat.new.log
            (seeing_zero (is_there result.block) cell (entries_of result.block)
            (known_seen self.now.cells seat.old.log)) }
        ensures keeps { KeepsNotes self.now.cells seat.old.log seat.new.log }
    {
        let step = Step::SeeZero(cell);
        end_by_load(self, &mut seat.place, cell, step)
    }

    #[tactic(auto, using(law::proofs::steps::Ending_Steps::merges_at_zero))]
    /// MergeZero: the state is merged, and the object is dead where its count is 0.
    pub fn merge_zero(&self, seat: &mut ThreadSeat<A>, cell: u32) -> Found<A>
        requires table { seat.old.table ≡ self.now.table }
        requires inside { cell < self.now.cells }
        requires carries { MayCarry self.now.cells seat.old.log (steps.MergeZero cell) cell }
        ensures of_cell { IfSome result.block (λ block. block.0 ≡ cell) }
        ensures fresh { IfSome result.block (λ block. listed_at (taken_seen self.now.cells seat.old.log) cell ≡ None) }
        ensures entries { AreCells self.now.cells (entries_of result.block) }
        ensures dead { is_there result.block ≡ takes_block (steps.MergeZero cell)
            (cell_told (steps.MergeZero cell) result.number) }
        ensures told { seat.new.log ≡ told.Stepped (steps.MergeZero cell) result.number (found_in cell result.block)
            ∷ seat.old.log }
        ensures out { seat.new.slots ≡ out_with cell result.block seat.old.slots }
        ensures seat { Continues seat.old seat.new }
        ensures knows { Knows self.now.cells seat.new.log
            (handing hands.Free (taking (is_there result.block) cell (entries_of result.block)
            (known_seen self.now.cells seat.old.log))) }
        ensures keeps { KeepsNotes self.now.cells seat.old.log seat.new.log }
    {
        let step = Step::MergeZero(cell);
        end_by_or(self, &mut seat.place, cell, MERGED_BITS, step)
    }

    #[tactic(auto, using(law::proofs::steps::Ending_Steps::counts_last))]
    /// LastDown of a reference to an object that the thread has seen queued or merged.
    pub fn last_down(&self, seat: &mut ThreadSeat<A>, drop: Dropped, cell: u32) -> Found<A>
        requires table { seat.old.table ≡ self.now.table }
        requires inside { cell < self.now.cells }
        requires ends { EndsRisen self.now.cells seat.old.log drop cell }
        ensures of_cell { IfSome result.block (λ block. block.0 ≡ cell) }
        ensures fresh { IfSome result.block (λ block. listed_at (taken_seen self.now.cells seat.old.log) cell ≡ None) }
        ensures entries { AreCells self.now.cells (entries_of result.block) }
        ensures dead { is_there result.block ≡ takes_block (steps.LastDown (lasts.Dropped drop))
            (cell_told (steps.LastDown (lasts.Dropped drop)) result.number) }
        ensures told { seat.new.log ≡ told.Stepped (steps.LastDown (lasts.Dropped drop)) result.number
            (found_in cell result.block) ∷ seat.old.log }
        ensures out { seat.new.slots ≡ out_with cell result.block seat.old.slots }
        ensures seat { Continues seat.old seat.new }
        ensures knows { Knows self.now.cells seat.new.log
            (dropping_last (is_there result.block) drop cell (entries_of result.block)
            (known_seen self.now.cells seat.old.log)) }
        ensures keeps { KeepsNotes self.now.cells seat.old.log seat.new.log }
    {
        let step = Step::LastDown(LastDropped::Dropped(drop));
        end_by_sub(self, &mut seat.place, cell, ONE_COUNT, step)
    }

    #[tactic(auto, using(law::proofs::steps::Last_Steps::ends_popped))]
    /// LastDown of a popped entry that was found merged.
    pub fn last_popped(&self, seat: &mut ThreadSeat<A>, cell: u32, shared: u64) -> Found<A>
        requires table { seat.old.table ≡ self.now.table }
        requires inside { cell < self.now.cells }
        requires ends { EndsPopped self.now.cells seat.old.log cell shared }
        ensures of_cell { IfSome result.block (λ block. block.0 ≡ cell) }
        ensures fresh { IfSome result.block (λ block. listed_at (taken_seen self.now.cells seat.old.log) cell ≡ None) }
        ensures entries { AreCells self.now.cells (entries_of result.block) }
        ensures dead { is_there result.block ≡ takes_block (steps.LastDown (lasts.Popped cell))
            (cell_told (steps.LastDown (lasts.Popped cell)) result.number) }
        ensures told { seat.new.log ≡ told.Stepped (steps.LastDown (lasts.Popped cell)) result.number
            (found_in cell result.block) ∷ seat.old.log }
        ensures out { seat.new.slots ≡ out_with cell result.block seat.old.slots }
        ensures seat { Continues seat.old seat.new }
        ensures knows { Knows self.now.cells seat.new.log
            (settling cell (taking (is_there result.block) cell (entries_of result.block)
            (known_seen self.now.cells seat.old.log))) }
        ensures keeps { KeepsNotes self.now.cells seat.old.log seat.new.log }
    {
        let _shared = shared;
        let step = Step::LastDown(LastDropped::Popped(cell));
        end_by_sub(self, &mut seat.place, cell, ONE_COUNT, step)
    }

    #[tactic(auto, using(law::proofs::steps::Last_Steps::ends_added))]
    /// LastDown of a popped entry that the thread has just merged.
    pub fn last_added(&self, seat: &mut ThreadSeat<A>, cell: u32) -> Found<A>
        requires table { seat.old.table ≡ self.now.table }
        requires inside { cell < self.now.cells }
        requires ends { EndsAdded self.now.cells seat.old.log cell }
        ensures of_cell { IfSome result.block (λ block. block.0 ≡ cell) }
        ensures fresh { IfSome result.block (λ block. listed_at (taken_seen self.now.cells seat.old.log) cell ≡ None) }
        ensures entries { AreCells self.now.cells (entries_of result.block) }
        ensures dead { is_there result.block ≡ takes_block (steps.LastDown (lasts.Popped cell))
            (cell_told (steps.LastDown (lasts.Popped cell)) result.number) }
        ensures told { seat.new.log ≡ told.Stepped (steps.LastDown (lasts.Popped cell)) result.number
            (found_in cell result.block) ∷ seat.old.log }
        ensures out { seat.new.slots ≡ out_with cell result.block seat.old.slots }
        ensures seat { Continues seat.old seat.new }
        ensures knows { Knows self.now.cells seat.new.log
            (settling cell (taking (is_there result.block) cell (entries_of result.block)
            (known_seen self.now.cells seat.old.log))) }
        ensures keeps { KeepsNotes self.now.cells seat.old.log seat.new.log }
    {
        let step = Step::LastDown(LastDropped::Popped(cell));
        end_by_sub(self, &mut seat.place, cell, ONE_COUNT, step)
    }

    #[tactic(auto, using(law::proofs::steps::Last_Steps::ends_left))]
    /// LastDown of a popped entry, once the thread isn't active any more.
    pub fn last_left(&self, seat: &mut ThreadSeat<A>, cell: u32) -> Found<A>
        requires table { seat.old.table ≡ self.now.table }
        requires inside { cell < self.now.cells }
        requires ends { EndsLeft self.now.cells seat.old.log cell }
        ensures of_cell { IfSome result.block (λ block. block.0 ≡ cell) }
        ensures fresh { IfSome result.block (λ block. listed_at (taken_seen self.now.cells seat.old.log) cell ≡ None) }
        ensures entries { AreCells self.now.cells (entries_of result.block) }
        ensures dead { is_there result.block ≡ takes_block (steps.LastDown (lasts.Popped cell))
            (cell_told (steps.LastDown (lasts.Popped cell)) result.number) }
        ensures told { seat.new.log ≡ told.Stepped (steps.LastDown (lasts.Popped cell)) result.number
            (found_in cell result.block) ∷ seat.old.log }
        ensures out { seat.new.slots ≡ out_with cell result.block seat.old.slots }
        ensures seat { Continues seat.old seat.new }
        ensures knows { Knows self.now.cells seat.new.log
            (settling cell (taking (is_there result.block) cell (entries_of result.block)
            (known_seen self.now.cells seat.old.log))) }
        ensures keeps { KeepsNotes self.now.cells seat.old.log seat.new.log }
    {
        let step = Step::LastDown(LastDropped::Popped(cell));
        end_by_sub(self, &mut seat.place, cell, ONE_COUNT, step)
    }

    #[tactic(auto, using(law::proofs::steps::Last_Steps::ends_shut))]
    /// LastDown of the reference in the hand, which met a closed queue word: the object is nobody's.
    pub fn last_shut(&self, seat: &mut ThreadSeat<A>, cell: u32) -> Found<A>
        requires table { seat.old.table ≡ self.now.table }
        requires inside { cell < self.now.cells }
        requires ends { EndsShut self.now.cells seat.old.log cell }
        ensures of_cell { IfSome result.block (λ block. block.0 ≡ cell) }
        ensures fresh { IfSome result.block (λ block. listed_at (taken_seen self.now.cells seat.old.log) cell ≡ None) }
        ensures entries { AreCells self.now.cells (entries_of result.block) }
        ensures dead { is_there result.block ≡ takes_block (steps.LastDown lasts.Hand)
            (cell_told (steps.LastDown lasts.Hand) result.number) }
        ensures told { seat.new.log ≡ told.Stepped (steps.LastDown lasts.Hand) result.number
            (found_in cell result.block)
            ∷ seat.old.log }
        ensures out { seat.new.slots ≡ out_with cell result.block seat.old.slots }
        ensures seat { Continues seat.old seat.new }
        ensures knows { Knows self.now.cells seat.new.log
            (handing hands.Free (taking (is_there result.block) cell (entries_of result.block)
            (known_seen self.now.cells seat.old.log))) }
        ensures keeps { KeepsNotes self.now.cells seat.old.log seat.new.log }
    {
        let step = Step::LastDown(LastDropped::Hand);
        end_by_sub(self, &mut seat.place, cell, ONE_COUNT, step)
    }

    #[tactic(auto, using(law::proofs::steps::Last_Steps::ends_nobodys))]
    /// LastDown of the reference in the hand, of an object that was found nobody's.
    pub fn last_nobodys(&self, seat: &mut ThreadSeat<A>, cell: u32) -> Found<A>
        requires table { seat.old.table ≡ self.now.table }
        requires inside { cell < self.now.cells }
        requires ends { EndsNobodys self.now.cells seat.old.log cell }
        ensures of_cell { IfSome result.block (λ block. block.0 ≡ cell) }
        ensures fresh { IfSome result.block (λ block. listed_at (taken_seen self.now.cells seat.old.log) cell ≡ None) }
        ensures entries { AreCells self.now.cells (entries_of result.block) }
        ensures dead { is_there result.block ≡ takes_block (steps.LastDown lasts.Hand)
            (cell_told (steps.LastDown lasts.Hand) result.number) }
        ensures told { seat.new.log ≡ told.Stepped (steps.LastDown lasts.Hand) result.number
            (found_in cell result.block)
            ∷ seat.old.log }
        ensures out { seat.new.slots ≡ out_with cell result.block seat.old.slots }
        ensures seat { Continues seat.old seat.new }
        ensures knows { Knows self.now.cells seat.new.log
            (handing hands.Free (taking (is_there result.block) cell (entries_of result.block)
            (known_seen self.now.cells seat.old.log))) }
        ensures keeps { KeepsNotes self.now.cells seat.old.log seat.new.log }
    {
        let step = Step::LastDown(LastDropped::Hand);
        end_by_sub(self, &mut seat.place, cell, ONE_COUNT, step)
    }
}
