//! Cells: one is claimed, its words are set, and an object is born in it; a dead one's cell is free again.

ghost use Rattle.std.specs.Prelude.{◌≡◌, ◌/◌, ◌%◌, ◌<◌, ◌∷◌, None, OnOk, OnErr, IfOk, IfErr};
ghost use Rattle.std.specs.Int.{bit_at};
ghost use Rattle.atomic_table.specs.Table.{rest};
ghost use Rattle.brc_words.specs.declared.look.TheConstants.{NO_COUNT};
ghost use Rattle.law.specs.world.Lists.{WORD_LIMIT};
ghost use Rattle.law.specs.declared.world.event.Step.TheVariants as steps;
ghost use Rattle.law.specs.declared.world.row.Hand.TheVariants as hands;
ghost use Rattle.law.specs.declared.world.row.Phase.TheVariants as phases;
ghost use Rattle.law.specs.declared.known.word.Word.TheVariants as words;
ghost use Rattle.law.specs.known.Going_On.{handing, filling, counting, bearing, giving_back};
ghost use Rattle.law.specs.known.Taken.{listed_at};
ghost use Rattle.law.specs.declared.rule.told.Moved.TheVariants as moves;
ghost use Rattle.law.specs.declared.rule.told.LogItem.TheVariants as told;
ghost use Rattle.law.specs.rule.Seen.{part_seen, taken_seen};
ghost use Rattle.law.specs.steps.Owing.{MayClaimCell, MayBear, MayCarry};
ghost use Rattle.brc_table.specs.Knowing.{known_seen, Knows, KeepsNotes};
ghost use Rattle.brc_table.specs.Seated.{IsSameSeat, Continues};
ghost use Rattle.brc_table.specs.Shown.{shows, contents_of};

use crate::layout::{all_but, bit, has_bit};
use crate::machine::{store_unless_there, tell};
use crate::moving::{claim_by, give_bit, give_unless_there, put_in};
use crate::seats::ThreadSeat;
use crate::table::HeapTable;
use brc_block::Block;
use brc_words::{Kind, NO_COUNT};
use law::known::{Field, Word};
use law::world::Step;
use std::alloc::Allocator;

impl<A: Allocator> HeapTable<A> {
    /// Claim: a free cell, which is none of the thread's dead blocks, is the thread's to make an object in, and its
    /// empty slot is out with the seat. Either answer tells the cell's free word as it was found.
    pub fn claim(&self, seat: &mut ThreadSeat<A>, cell: u32) -> Result<u64, u64>
        requires table { seat.old.table ≡ self.now.table }
        requires inside { cell < self.now.cells }
        requires claims { MayClaimCell self.now.cells seat.old.log cell }
        ensures fresh { OnOk result (listed_at (taken_seen self.now.cells seat.old.log) cell ≡ None) }
        ensures won { IfOk result (λ found. seat.new.log ≡ told.Stepped (steps.Claim cell) found moves.Nothing
            ∷ seat.old.log) }
        ensures was_free { IfOk result (λ found. bit_at found (cell % 64) ≡ 1) }
        ensures out { OnOk result (seat.new.slots ≡ (cell, None) ∷ seat.old.slots) }
        ensures lost { IfErr result (λ found. seat.new.log ≡ told.Lost (words.FreeWord (cell / 64)) found
            ∷ seat.old.log) }
        ensures taken { IfErr result (λ found. bit_at found (cell % 64) ≡ 0) }
        ensures still { IfErr result (λ found. seat.new.slots ≡ seat.old.slots) }
        ensures seat { Continues seat.old seat.new }
        ensures won_knows { OnOk result
            (Knows self.now.cells seat.new.log
            (handing (hands.Busy phases.Claimed cell) (known_seen self.now.cells seat.old.log))) }
        ensures lost_knows { OnErr result (Knows self.now.cells seat.new.log (known_seen self.now.cells seat.old.log)) }
        ensures keeps { KeepsNotes self.now.cells seat.old.log seat.new.log }
    {
        let mask = all_but(cell % 64);
        let found = claim_by(self, &mut seat.place, cell, mask);
        if has_bit(found, cell % 64) {
            Ok(found)
        } else {
            Err(found)
        }
    }

    #[tactic(auto, using(crate::proofs::Own_Counts::counts_first))]
    /// InitLocal: the first reference is counted.
    pub fn init_local(&self, seat: &mut ThreadSeat<A>, cell: u32)
        requires table { seat.old.table ≡ self.now.table }
        requires inside { cell < self.now.cells }
        requires carries { MayCarry self.now.cells seat.old.log (steps.InitLocal cell) cell }
        ensures told { seat.new.log ≡ told.Stepped (steps.InitLocal cell) 1 moves.Nothing ∷ seat.old.log }
        ensures seat { IsSameSeat seat.old seat.new }
        ensures knows { Knows self.now.cells seat.new.log
            (handing (hands.Busy phases.Counted cell) (known_seen self.now.cells seat.old.log)) }
        ensures keeps { KeepsNotes self.now.cells seat.old.log seat.new.log }
    {
        tell(self, &mut seat.place, 1, Step::InitLocal(cell));
    }

    #[tactic(auto, using(law::proofs::steps::Making_Steps::sets_shared))]
    /// InitShared: nobody else has counted.
    pub fn init_shared(&self, seat: &mut ThreadSeat<A>, cell: u32)
        requires table { seat.old.table ≡ self.now.table }
        requires inside { cell < self.now.cells }
        requires carries { MayCarry self.now.cells seat.old.log (steps.InitShared cell) cell }
        ensures told { seat.new.log ≡ told.Stepped (steps.InitShared cell) NO_COUNT moves.Nothing ∷ seat.old.log }
        ensures seat { IsSameSeat seat.old seat.new }
        ensures knows { Knows self.now.cells seat.new.log
            (handing (hands.Busy phases.Ready cell) (known_seen self.now.cells seat.old.log)) }
        ensures keeps { KeepsNotes self.now.cells seat.old.log seat.new.log }
    {
        let word = Word::Of(Field::Shared, cell);
        let step = Step::InitShared(cell);
        store_unless_there(self, &mut seat.place, word, NO_COUNT, step);
    }

    /// Birth: the block is put home, and the place of the frame has the first reference to it.
    pub fn birth(&self, seat: &mut ThreadSeat<A>, block: Block<A>, kind: Kind, place: u32)
        requires table { seat.old.table ≡ self.now.table }
        requires inside { block.0 < self.now.cells }
        requires slot { seat.old.slots ≡ (block.0, None) ∷ rest seat.old.slots }
        requires bears { MayBear self.now.cells seat.old.log (shows block) kind place block.0 }
        ensures told { seat.new.log ≡ told.Stepped (steps.Birth block.0 kind place) seat.old.thread
            (moves.Put block.0 (contents_of block.1)) ∷ seat.old.log }
        ensures home { seat.new.slots ≡ rest seat.old.slots }
        ensures seat { Continues seat.old seat.new }
        ensures knows { Knows self.now.cells seat.new.log
            (filling place block.0 (counting block.0 1 (bearing block.0 (known_seen self.now.cells seat.old.log)))) }
        ensures keeps { KeepsNotes self.now.cells seat.old.log seat.new.log }
    {
        let cell = block.cell();
        let word = Word::Of(Field::Owner, cell);
        let step = Step::Birth { cell, kind, place };
        put_in(self, &mut seat.place, cell, block);
        give_unless_there(self, &mut seat.place, word, u64::from(seat.thread), step);
    }

    /// Free: the cell of a dead object without entries is free again, and its free word is told as it was found. Births
    /// less frees are the objects that live, so 64 bits count what a thread has freed.
    pub fn free(&self, seat: &mut ThreadSeat<A>, cell: u32) -> u64
        requires table { seat.old.table ≡ self.now.table }
        requires inside { cell < self.now.cells }
        requires slot { seat.old.slots ≡ (cell, None) ∷ rest seat.old.slots }
        requires carries { MayCarry self.now.cells seat.old.log (steps.Free cell) cell }
        ensures told { seat.new.log ≡ told.Stepped (steps.Free cell) result moves.Nothing ∷ seat.old.log }
        ensures home { seat.new.slots ≡ rest seat.old.slots }
        ensures seat { Continues seat.old seat.new }
        ensures knows { Knows self.now.cells seat.new.log (giving_back cell (known_seen self.now.cells seat.old.log)) }
        ensures keeps { KeepsNotes self.now.cells seat.old.log seat.new.log }
        ensures few { (part_seen self.now.cells seat.new.log).row.frees < WORD_LIMIT }
    {
        let word = Word::FreeWord(cell / 64);
        let bits = bit(cell % 64);
        give_bit(self, &mut seat.place, word, bits, Step::Free(cell))
    }
}
