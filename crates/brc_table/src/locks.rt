//! Locks: an object's block goes out with the seat of the thread that locks it, and home with what the thread made of
//! it.

ghost use Rattle.std.specs.Prelude.{◌≡◌, ◌<◌, ◌≤◌, ◌∷◌, None, Some, length, OnOk, OnErr, IfOk, IfErr};
ghost use Rattle.atomic_table.specs.Table.{rest};
ghost use Rattle.brc_words.specs.declared.limits.TheConstants.{MOST_ENTRIES};
ghost use Rattle.law.specs.declared.world.event.Step.TheVariants as steps;
ghost use Rattle.law.specs.declared.known.word.Field.TheVariants as fields;
ghost use Rattle.law.specs.declared.known.word.Word.TheVariants as words;
ghost use Rattle.law.specs.known.Going_On.{locking, unlocking};
ghost use Rattle.law.specs.known.Taken.{listed_at};
ghost use Rattle.law.specs.declared.rule.told.Moved.TheVariants as moves;
ghost use Rattle.law.specs.declared.rule.told.LogItem.TheVariants as told;
ghost use Rattle.law.specs.rule.Logs.{entries_in};
ghost use Rattle.law.specs.rule.Seen.{contents_locked, taken_seen};
ghost use Rattle.law.specs.payloads.Payloads.{FindsOwn};
ghost use Rattle.law.specs.steps.Owing.{MayCarry, MayUnlock};
ghost use Rattle.law.specs.steps.Taking.{AreCells};
ghost use Rattle.brc_table.specs.Knowing.{known_seen, Knows, KeepsNotes};
ghost use Rattle.brc_table.specs.Moving.{found_locked};
ghost use Rattle.brc_table.specs.Seated.{Continues};
ghost use Rattle.brc_table.specs.Shown.{shows, contents_of};

use crate::moving::{give, lock_by, put_in, take_out};
use crate::seats::ThreadSeat;
use crate::table::HeapTable;
use brc_block::Block;
use law::known::{Field, Word};
use law::world::{Change, Step};
use std::alloc::Allocator;

impl<A: Allocator> HeapTable<A> {
    /// Lock: the block of an object that nobody had locked, with the contents that were put home last, by the seat's
    /// own thread where the object is private to it; or who has it locked.
    #[inline(always)]
    pub fn lock(&self, seat: &mut ThreadSeat<A>, place: u32, cell: u32) -> Result<Block<A>, u64>
        requires table { seat.old.table ≡ self.now.table }
        requires inside { cell < self.now.cells }
        requires carries { MayCarry self.now.cells seat.old.log (steps.Lock place) cell }
        ensures of_cell { IfOk result (λ block. block.0 ≡ cell) }
        ensures fresh { IfOk result (λ block. listed_at (taken_seen self.now.cells seat.old.log) cell ≡ None) }
        ensures entries { IfOk result (λ block. AreCells self.now.cells (entries_in (contents_of block.1))) }
        ensures few { IfOk result (λ block. length (entries_in (contents_of block.1)) ≤ MOST_ENTRIES) }
        ensures won { IfOk result
            (λ block. seat.new.log ≡ told.Stepped (steps.Lock place) 0 (moves.Found cell (contents_of block.1))
            ∷ seat.old.log) }
        ensures out { IfOk result (λ block. seat.new.slots ≡ (cell, None) ∷ seat.old.slots) }
        ensures lost { IfErr result (λ found. seat.new.log ≡ told.Lost (words.Of fields.Mutex cell) found
            ∷ seat.old.log) }
        ensures still { IfErr result (λ found. seat.new.slots ≡ seat.old.slots) }
        ensures locked { IfErr result (λ found. 0 < found) }
        ensures seat { Continues seat.old seat.new }
        ensures won_own { IfOk result (λ block. FindsOwn self.now.cells seat.old.log cell (contents_of block.1)) }
        ensures won_knows { IfOk result
            (λ block. Knows self.now.cells seat.new.log (locking place cell (entries_in (contents_of block.1))
            (known_seen self.now.cells seat.old.log))) }
        ensures won_found { IfOk result (λ block. contents_locked seat.new.log ≡ Some (contents_of block.1)) }
        ensures lost_knows { OnErr result (Knows self.now.cells seat.new.log (known_seen self.now.cells seat.old.log)) }
        ensures lost_found { OnErr result (contents_locked seat.new.log ≡ contents_locked seat.old.log) }
        ensures keeps { KeepsNotes self.now.cells seat.old.log seat.new.log }
    {
        let found = lock_by(self, &mut seat.place, place, cell, u64::from(seat.thread));
        if found == 0 {
            Ok(take_out(self, &mut seat.place, cell))
        } else {
            Err(found)
        }
    }

    /// Unlock: the block goes home, with the entries and the keys that the change makes of those found.
    #[inline(always)]
    pub fn unlock(&self, seat: &mut ThreadSeat<A>, block: Block<A>, change: Change)
        requires table { seat.old.table ≡ self.now.table }
        requires inside { block.0 < self.now.cells }
        requires slot { seat.old.slots ≡ (block.0, None) ∷ rest seat.old.slots }
        requires unlocks { MayUnlock self.now.cells seat.old.log (shows block) (found_locked seat.old.log)
            change block.0 }
        ensures told { seat.new.log ≡ told.Stepped (steps.Unlock change) 0 (moves.Put block.0 (contents_of block.1))
            ∷ seat.old.log }
        ensures home { seat.new.slots ≡ rest seat.old.slots }
        ensures seat { Continues seat.old seat.new }
        ensures knows { Knows self.now.cells seat.new.log
            (unlocking change block.0 (known_seen self.now.cells seat.old.log)) }
        ensures found { contents_locked seat.new.log ≡ None }
        ensures keeps { KeepsNotes self.now.cells seat.old.log seat.new.log }
    {
        let cell = block.cell();
        let word = Word::Of(Field::Mutex, cell);
        put_in(self, &mut seat.place, cell, block);
        give(self, &mut seat.place, word, 0, Step::Unlock(change));
    }
}
