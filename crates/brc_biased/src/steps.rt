//! Steps that count nothing: a cell is claimed, an object locked and unlocked, and the thread's merge queue drained.

ghost use Rattle.std.specs.Prelude.{◌≡◌, ◌/◌, ◌%◌, ◌<◌, ◌≤◌, ◌∷◌, None, Some, length, OnOk, OnErr, IfOk, IfErr};
ghost use Rattle.std.specs.Int.{bit_at};
ghost use Rattle.atomic_table.specs.Table.{rest};
ghost use Rattle.brc_words.specs.declared.limits.TheConstants.{MOST_ENTRIES};
ghost use Rattle.brc_table.specs.law.world.Heap.{words_for};
ghost use Rattle.brc_table.specs.law.declared.world.event.Step.TheVariants as steps;
ghost use Rattle.brc_table.specs.law.declared.world.row.Hand.TheVariants as hands;
ghost use Rattle.brc_table.specs.law.declared.world.row.Phase.TheVariants as phases;
ghost use Rattle.brc_table.specs.law.declared.known.word.Field.TheVariants as fields;
ghost use Rattle.brc_table.specs.law.declared.known.word.Word.TheVariants as words;
ghost use Rattle.brc_table.specs.law.known.Going_On.{handing, locking, unlocking, popping};
ghost use Rattle.brc_table.specs.law.known.Taken.{listed_at};
ghost use Rattle.brc_table.specs.law.declared.rule.told.Moved.TheVariants as moves;
ghost use Rattle.brc_table.specs.law.declared.rule.told.LogItem.TheVariants as told;
ghost use Rattle.brc_table.specs.law.rule.Logs.{entries_in};
ghost use Rattle.brc_table.specs.law.rule.Seen.{contents_locked, taken_seen};
ghost use Rattle.brc_table.specs.law.living.Living.{OwnLog};
ghost use Rattle.brc_table.specs.law.payloads.Payloads.{FindsOwn};
ghost use Rattle.brc_table.specs.law.steps.Owing.{MayStep, MayCarry, MayClaimCell, MayUnlock};
ghost use Rattle.brc_table.specs.law.steps.Taking.{AreCells, AreQueued};
ghost use Rattle.brc_table.specs.Knowing.{known_seen, KeepsNotes};
ghost use Rattle.brc_table.specs.Moving.{found_locked};
ghost use Rattle.brc_table.specs.Seated.{Continues, IsSameSeat};
ghost use Rattle.brc_table.specs.Shown.{shows, contents_of};
ghost use Rattle.brc_biased.specs.Up.{KnowsPart};

use crate::counter::Counter;
use crate::home::HasTable;
use brc_table::block::Block;
use brc_table::law::world::Change;
use std::alloc::Allocator;

impl<H: HasTable<A>, A: Allocator> Counter<H, A> {
    /// Claims a free cell, which is none of the thread's dead blocks, to make an object in; or the cell wasn't free.
    /// Either answer tells the cell's free word as it was found.
    #[inline(always)]
    pub fn claim(&mut self, cell: u32) -> Result<u64, u64>
        requires inside { cell < self.old.heap.cells }
        requires claims { MayClaimCell self.old.heap.cells self.old.seat.log cell }
        ensures heap { self.new.heap ≡ self.old.heap }
        ensures seat { Continues self.old.seat self.new.seat }
        ensures fresh { OnOk result
            (listed_at (taken_seen self.old.heap.cells self.old.seat.log) cell ≡ None) }
        ensures won { IfOk result (λ found. self.new.seat.log ≡
            told.Stepped (steps.Claim cell) found moves.Nothing ∷ self.old.seat.log) }
        ensures was_free { IfOk result (λ found. bit_at found (cell % 64) ≡ 1) }
        ensures out { OnOk result (self.new.seat.slots ≡ (cell, None) ∷ self.old.seat.slots) }
        ensures lost { IfErr result (λ found.
            self.new.seat.log ≡ told.Lost (words.FreeWord (cell / 64)) found ∷ self.old.seat.log) }
        ensures taken { IfErr result (λ found. bit_at found (cell % 64) ≡ 0) }
        ensures still { OnErr result (self.new.seat.slots ≡ self.old.seat.slots) }
        ensures won_knows { OnOk result (KnowsPart self.old.heap.cells self.new.seat.log
            (handing (hands.Busy phases.Claimed cell)
            (known_seen self.old.heap.cells self.old.seat.log))) }
        ensures lost_knows { OnErr result (KnowsPart self.old.heap.cells self.new.seat.log
            (known_seen self.old.heap.cells self.old.seat.log)) }
        ensures keeps { KeepsNotes self.old.heap.cells self.old.seat.log self.new.seat.log }
    {
        self.heap.table().claim(&mut self.seat, cell)
    }

    /// Locks the object in a place of the frame, and answers its block; or answers who has it locked.
    #[inline(always)]
    pub fn lock(&mut self, place: u32, cell: u32) -> Result<Block<A>, u64>
        requires inside { cell < self.old.heap.cells }
        requires carries { MayCarry self.old.heap.cells self.old.seat.log (steps.Lock place) cell }
        ensures heap { self.new.heap ≡ self.old.heap }
        ensures seat { Continues self.old.seat self.new.seat }
        ensures of_cell { IfOk result (λ block. block.0 ≡ cell) }
        ensures fresh { IfOk result (λ block.
            listed_at (taken_seen self.old.heap.cells self.old.seat.log) cell ≡ None) }
        ensures entries { IfOk result (λ block.
            AreCells self.old.heap.cells (entries_in (contents_of block.1))) }
        ensures few { IfOk result (λ block.
            length (entries_in (contents_of block.1)) ≤ MOST_ENTRIES) }
        ensures won { IfOk result (λ block. self.new.seat.log ≡ told.Stepped (steps.Lock place) 0
            (moves.Found cell (contents_of block.1)) ∷ self.old.seat.log) }
        ensures out { IfOk result (λ block. self.new.seat.slots ≡ (cell, None) ∷ self.old.seat.slots) }
        ensures lost { IfErr result (λ found.
            self.new.seat.log ≡ told.Lost (words.Of fields.Mutex cell) found ∷ self.old.seat.log) }
        ensures still { OnErr result (self.new.seat.slots ≡ self.old.seat.slots) }
        ensures locked { IfErr result (λ found. 0 < found) }
        ensures won_own { IfOk result (λ block. FindsOwn self.old.heap.cells self.old.seat.log cell
            (contents_of block.1)) }
        ensures won_knows { IfOk result (λ block. KnowsPart self.old.heap.cells self.new.seat.log
            (locking place cell (entries_in (contents_of block.1))
            (known_seen self.old.heap.cells self.old.seat.log))) }
        ensures won_found { IfOk result (λ block.
            contents_locked self.new.seat.log ≡ Some (contents_of block.1)) }
        ensures lost_knows { OnErr result (KnowsPart self.old.heap.cells self.new.seat.log
            (known_seen self.old.heap.cells self.old.seat.log)) }
        ensures lost_found { OnErr result
            (contents_locked self.new.seat.log ≡ contents_locked self.old.seat.log) }
        ensures keeps { KeepsNotes self.old.heap.cells self.old.seat.log self.new.seat.log }
    {
        self.heap.table().lock(&mut self.seat, place, cell)
    }

    /// Unlocks the object whose block this is, with the entries and the keys that the change makes of those found.
    #[inline(always)]
    pub fn unlock(&mut self, block: Block<A>, change: Change)
        requires inside { block.0 < self.old.heap.cells }
        requires slot { self.old.seat.slots ≡ (block.0, None) ∷ rest self.old.seat.slots }
        requires unlocks { MayUnlock self.old.heap.cells self.old.seat.log (shows block)
            (found_locked self.old.seat.log) change block.0 }
        ensures heap { self.new.heap ≡ self.old.heap }
        ensures seat { Continues self.old.seat self.new.seat }
        ensures told { self.new.seat.log ≡ told.Stepped (steps.Unlock change) 0
            (moves.Put block.0 (contents_of block.1)) ∷ self.old.seat.log }
        ensures home { self.new.seat.slots ≡ rest self.old.seat.slots }
        ensures knows { KnowsPart self.old.heap.cells self.new.seat.log
            (unlocking change block.0 (known_seen self.old.heap.cells self.old.seat.log)) }
        ensures found { contents_locked self.new.seat.log ≡ None }
        ensures keeps { KeepsNotes self.old.heap.cells self.old.seat.log self.new.seat.log }
    {
        self.heap.table().unlock(&mut self.seat, block, change);
    }

    /// Takes the bits of one of the thread's queue words, each a cell of the heap.
    pub fn drain(&mut self, word: u32) -> u64
        requires inside { word < words_for self.old.heap.cells }
        requires allowed { MayStep self.old.heap.cells self.old.seat.log (steps.Drain word) }
        ensures heap { self.new.heap ≡ self.old.heap }
        ensures seat { IsSameSeat self.old.seat self.new.seat }
        ensures told { self.new.seat.log ≡ told.Stepped (steps.Drain word) result moves.Nothing ∷ self.old.seat.log }
        ensures knows { KnowsPart self.old.heap.cells self.new.seat.log
            (popping word result (known_seen self.old.heap.cells self.old.seat.log)) }
        ensures keeps { KeepsNotes self.old.heap.cells self.old.seat.log self.new.seat.log }
        ensures cells { AreQueued self.old.heap.cells word result }
    {
        self.heap.table().drain(&mut self.seat, word)
    }

    /// Takes what the thread was told to drain. Its own log before tells what lives.
    pub fn wake(&mut self) -> u64
        requires allowed { MayStep self.old.heap.cells self.old.seat.log steps.Wake }
        ensures heap { self.new.heap ≡ self.old.heap }
        ensures seat { IsSameSeat self.old.seat self.new.seat }
        ensures told { self.new.seat.log ≡ told.Stepped steps.Wake result moves.Nothing ∷ self.old.seat.log }
        ensures knows { KnowsPart self.old.heap.cells self.new.seat.log
            (known_seen self.old.heap.cells self.old.seat.log) }
        ensures keeps { KeepsNotes self.old.heap.cells self.old.seat.log self.new.seat.log }
        ensures own { OwnLog self.old.heap.cells self.old.seat.log }
    {
        self.heap.table().wake(&mut self.seat)
    }
}
