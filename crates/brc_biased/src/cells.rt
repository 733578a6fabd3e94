//! Cells: an object is born in one that the thread has claimed, and one that is dead and empty is given back.

ghost use Rattle.std.specs.Prelude.{◌≡◌, ◌<◌, ◌≤◌, ◌∷◌, [], ℕ, true, None, Some};
ghost use Rattle.atomic_table.specs.Table.{rest};
ghost use Rattle.brc_words.specs.declared.limits.TheConstants.{FIRST_MORTAL};
ghost use Rattle.brc_words.specs.declared.look.TheConstants.{NO_COUNT};
ghost use Rattle.brc_words.specs.Kinds.{is_mortal};
ghost use Rattle.brc_table.specs.law.declared.world.event.Step.TheVariants as steps;
ghost use Rattle.brc_table.specs.law.declared.world.row.Hand.TheVariants as hands;
ghost use Rattle.brc_table.specs.law.declared.world.row.Phase.TheVariants as phases;
ghost use Rattle.brc_table.specs.law.world.Steps.{is_active, is_vacant};
ghost use Rattle.brc_table.specs.law.known.Going_On.{filling, bearing, giving_back};
ghost use Rattle.brc_table.specs.law.declared.rule.told.Moved.TheVariants as moves;
ghost use Rattle.brc_table.specs.law.declared.rule.told.LogItem.TheVariants as told;
ghost use Rattle.brc_table.specs.law.rule.Logs.{kind_in, entries_in};
ghost use Rattle.brc_table.specs.law.rule.Seen.{part_seen, risen_seen};
ghost use Rattle.brc_table.specs.law.declared.world.event.Dropped.TheVariants as drops;
ghost use Rattle.brc_table.specs.law.world.Lists.{WORD_LIMIT, place_at};
ghost use Rattle.brc_table.specs.law.steps.Owing.{MayCarry};
ghost use Rattle.brc_table.specs.Knowing.{known_seen, KeepsNotes};
ghost use Rattle.brc_table.specs.Seated.{Continues};
ghost use Rattle.brc_table.specs.Shown.{contents_of};
ghost use Rattle.brc_biased.specs.Standing.{MayCountDown};
ghost use Rattle.brc_biased.specs.Up.{KnowsPart};

use crate::counter::Counter;
use crate::home::HasTable;
use crate::owned::{clear_owned, mark_owned};
use brc_table::block::Block;
use brc_words::Kind;
use std::alloc::Allocator;

impl<H: HasTable<A>, A: Allocator> Counter<H, A> {
    #[tactic(auto, using(crate::proofs::Owning::owns_born))]
    /// An object is born in the cell that the thread has claimed: its words are set, its block is put home, and the
    /// place of the frame has the first reference, which the thread counts on its own.
    #[inline(always)]
    pub fn bear(&mut self, block: Block<A>, kind: Kind, place: u32)
        requires inside { block.0 < self.old.heap.cells }
        requires mortal { FIRST_MORTAL ≤ block.0 }
        requires stands { MayCountDown self.old.heap.cells self.old.seat.log (hands.Busy phases.Claimed block.0) }
        requires active { is_active (part_seen self.old.heap.cells self.old.seat.log).row.stage ≡ true }
        requires vacant { is_vacant (part_seen self.old.heap.cells self.old.seat.log).frame place ≡ true }
        requires slot { self.old.seat.slots ≡ (block.0, None) ∷ rest self.old.seat.slots }
        requires kind { kind_in (contents_of block.1) ≡ kind }
        requires mortal_kind { is_mortal kind ≡ true }
        requires empty { entries_in (contents_of block.1) ≡ [] }

        ensures heap { self.new.heap ≡ self.old.heap }
        ensures seat { Continues self.old.seat self.new.seat }
        ensures told { self.new.seat.log ≡
            told.Stepped (steps.Birth block.0 kind place) self.old.seat.thread (moves.Put block.0 (contents_of block.1))
            ∷ told.Stepped (steps.InitShared block.0) NO_COUNT moves.Nothing
            ∷ told.Stepped (steps.InitLocal block.0) 1 moves.Nothing ∷ self.old.seat.log }
        ensures home { self.new.seat.slots ≡ rest self.old.seat.slots }
        ensures knows { KnowsPart self.old.heap.cells self.new.seat.log
            (filling place block.0 (bearing block.0 (known_seen self.old.heap.cells self.old.seat.log))) }
        ensures risen { (k c : ℕ) → place_at (part_seen self.old.heap.cells self.old.seat.log).frame k ≡ Some c →
            risen_seen self.old.heap.cells self.old.seat.log (drops.Frame k) c ≡ true →
            risen_seen self.old.heap.cells self.new.seat.log (drops.Frame k) c ≡ true }
    {
        let cell = block.cell();
        self.counts[cell as usize] = 1;
        mark_owned(&mut self.owned, cell);
        let table = self.heap.table();
        table.init_local(&mut self.seat, cell);
        table.init_shared(&mut self.seat, cell);
        table.birth(&mut self.seat, block, kind, place);
    }

    #[tactic(auto, using(crate::proofs::Owning::owns_freed))]
    /// The cell of a dead object without entries is free again, and its free word is told as it was found; 64 bits
    /// count what the thread has freed.
    #[inline(always)]
    pub fn free(&mut self, cell: u32) -> u64
        requires inside { cell < self.old.heap.cells }
        requires slot { self.old.seat.slots ≡ (cell, None) ∷ rest self.old.seat.slots }
        requires carries { MayCarry self.old.heap.cells self.old.seat.log (steps.Free cell) cell }
        ensures heap { self.new.heap ≡ self.old.heap }
        ensures seat { Continues self.old.seat self.new.seat }
        ensures told { self.new.seat.log ≡
            told.Stepped (steps.Free cell) result moves.Nothing ∷ self.old.seat.log }
        ensures home { self.new.seat.slots ≡ rest self.old.seat.slots }
        ensures knows { KnowsPart self.old.heap.cells self.new.seat.log
            (giving_back cell (known_seen self.old.heap.cells self.old.seat.log)) }
        ensures keeps { KeepsNotes self.old.heap.cells self.old.seat.log self.new.seat.log }
        ensures few { (part_seen self.old.heap.cells self.new.seat.log).row.frees < WORD_LIMIT }
    {
        if self.counts[cell as usize] == 0 {
            clear_owned(&mut self.owned, cell);
        }
        self.heap.table().free(&mut self.seat, cell)
    }
}
