//! The search for a free cell to make an object in.

ghost use Rattle.std.specs.Prelude.{◌≡◌, ◌+◌, ◌*◌, ◌%◌, ◌<◌, ◌≤◌, ◌==◌, ◌∷◌, ℕ, min, true, None, IfSome, IfNone};
ghost use Rattle.std.specs.Prelude.{IsTrue, IsFalse};
ghost use Rattle.brc_words.specs.declared.limits.TheConstants.{FIRST_MORTAL, MOST_BIRTHS};
ghost use Rattle.std.specs.Int.{bit_at};
ghost use Rattle.brc_table.specs.law.known.Free_Words.{free_words_for};
ghost use Rattle.brc_table.specs.law.known.Going_On.{handing};
ghost use Rattle.brc_table.specs.law.known.Taken.{listed_at};
ghost use Rattle.brc_table.specs.law.rule.Seen.{part_seen, taken_seen};
ghost use Rattle.brc_table.specs.law.declared.world.row.Hand.TheVariants as hands;
ghost use Rattle.brc_table.specs.law.declared.world.row.Phase.TheVariants as phases;
ghost use Rattle.brc_table.specs.law.world.Steps.{is_active};
ghost use Rattle.brc_table.specs.Knowing.{known_seen, KeepsNotes};
ghost use Rattle.brc_table.specs.Seated.{Continues};
ghost use Rattle.brc_biased.specs.Seeking.{PassesFrom, PassesOver, ClaimsFrom, ClaimsAround, ClaimsCell, Misses};
ghost use Rattle.brc_biased.specs.Standing.{MayCountDown};
ghost use Rattle.brc_biased.specs.Up.{KnowsPart};

use crate::counter::Counter;
use crate::home::HasTable;
use brc_words::FIRST_MORTAL;
use std::alloc::Allocator;

/// How many of the number's lowest bits are 0.
#[inline(always)]
fn zeros_below(number: u64) -> u32
    ensures few { result ≤ 64 }
    ensures zeros { (i : ℕ) → i < result → bit_at number i ≡ 0 }
{
    if number == 0 {
        64
    } else {
        number.trailing_zeros()
    }
}

/// Whether the number has this bit.
#[inline(always)]
fn has_bit(number: u64, at: u32) -> bool
    requires { at < 64 }
    ensures { result ≡ (bit_at number at == 1) }
{
    (number >> at) & 1 == 1
}

impl<H: HasTable<A>, A: Allocator> Counter<H, A> {
    /// One cell is tried; true where it is the thread's.
    #[inline(always)]
    fn try_cell(&mut self, cell: u32) -> bool
        requires inside { cell < self.old.heap.cells }
        requires mortal { FIRST_MORTAL ≤ cell }
        requires stands { MayCountDown self.old.heap.cells self.old.seat.log hands.Free }
        requires active { is_active (part_seen self.old.heap.cells self.old.seat.log).row.stage ≡ true }
        requires more { (part_seen self.old.heap.cells self.old.seat.log).row.allocs < MOST_BIRTHS }
        ensures heap { self.new.heap ≡ self.old.heap }
        ensures seat { Continues self.old.seat self.new.seat }
        ensures fresh { IsTrue result →
            listed_at (taken_seen self.old.heap.cells self.old.seat.log) cell ≡ None }
        ensures claimed { IsTrue result → ClaimsCell cell self.old.seat.log self.new.seat.log }
        ensures out { IsTrue result → self.new.seat.slots ≡ (cell, None) ∷ self.old.seat.slots }
        ensures claimed_knows { IsTrue result → KnowsPart self.old.heap.cells self.new.seat.log
            (handing (hands.Busy phases.Claimed cell) (known_seen self.old.heap.cells self.old.seat.log)) }
        ensures missed { IsFalse result → Misses cell self.old.seat.log self.new.seat.log }
        ensures still { IsFalse result → self.new.seat.slots ≡ self.old.seat.slots }
        ensures missed_knows { IsFalse result → KnowsPart self.old.heap.cells self.new.seat.log
            (known_seen self.old.heap.cells self.old.seat.log) }
        ensures keeps { KeepsNotes self.old.heap.cells self.old.seat.log self.new.seat.log }
    {
        match self.claim(cell) {
            Ok(_found) => true,
            Err(_found) => false,
        }
    }

    /// The cells of one free word: it is looked at, and each bit that it had is tried once, the lowest first.
    #[inline(always)]
    fn seek_word(&mut self, word: u32) -> Option<u32>
        requires inside { word < free_words_for self.old.heap.cells }
        requires stands { MayCountDown self.old.heap.cells self.old.seat.log hands.Free }
        requires active { is_active (part_seen self.old.heap.cells self.old.seat.log).row.stage ≡ true }
        requires more { (part_seen self.old.heap.cells self.old.seat.log).row.allocs < MOST_BIRTHS }
        ensures heap { self.new.heap ≡ self.old.heap }
        ensures seat { Continues self.old.seat self.new.seat }
        ensures mortal { IfSome result (λ cell. FIRST_MORTAL ≤ cell) }
        ensures inside { IfSome result (λ cell. cell < self.old.heap.cells) }
        ensures ahead { IfSome result (λ cell. word * 64 ≤ cell) }
        ensures fresh { IfSome result (λ cell.
            listed_at (taken_seen self.old.heap.cells self.old.seat.log) cell ≡ None) }
        ensures claimed { IfSome result (λ cell.
            ClaimsFrom (word * 64) cell self.old.seat.log self.new.seat.log) }
        ensures out { IfSome result (λ cell. self.new.seat.slots ≡ (cell, None) ∷ self.old.seat.slots) }
        ensures claimed_knows { IfSome result (λ cell. KnowsPart self.old.heap.cells self.new.seat.log
            (handing (hands.Busy phases.Claimed cell)
            (known_seen self.old.heap.cells self.old.seat.log))) }
        ensures full { IfNone result (PassesFrom (word * 64) self.old.seat.log
            (min (word * 64 + 64) self.old.heap.cells) self.new.seat.log) }
        ensures still { IfNone result (self.new.seat.slots ≡ self.old.seat.slots) }
        ensures full_knows { IfNone result (KnowsPart self.old.heap.cells self.new.seat.log
            (known_seen self.old.heap.cells self.old.seat.log)) }
        ensures keeps { KeepsNotes self.old.heap.cells self.old.seat.log self.new.seat.log }
    {
        let cells = self.heap.table().cells();
        let found = self.heap.table().load_free(&mut self.seat, word);
        // Most words of a heap that is almost full have no bit.
        if found == 0 {
            return None;
        }
        let last = (word * 64 + 64).min(cells);
        let first = (word * 64 + zeros_below(found)).max(FIRST_MORTAL).min(last);
        for cell in first..last {
            if has_bit(found, cell % 64) && self.try_cell(cell) {
                return Some(cell);
            }
        }
        None
    }

    /// The cells of the free words from one on, up to but not with another: word by word, the lowest first.
    #[inline(always)]
    fn seek_words(&mut self, from: u32, to: u32) -> Option<u32>
        requires inside { to ≤ free_words_for self.old.heap.cells }
        requires stands { MayCountDown self.old.heap.cells self.old.seat.log hands.Free }
        requires active { is_active (part_seen self.old.heap.cells self.old.seat.log).row.stage ≡ true }
        requires more { (part_seen self.old.heap.cells self.old.seat.log).row.allocs < MOST_BIRTHS }
        ensures heap { self.new.heap ≡ self.old.heap }
        ensures seat { Continues self.old.seat self.new.seat }
        ensures mortal { IfSome result (λ cell. FIRST_MORTAL ≤ cell) }
        ensures inside { IfSome result (λ cell. cell < self.old.heap.cells) }
        ensures ahead { IfSome result (λ cell. from * 64 ≤ cell) }
        ensures fresh { IfSome result (λ cell.
            listed_at (taken_seen self.old.heap.cells self.old.seat.log) cell ≡ None) }
        ensures claimed { IfSome result (λ cell.
            ClaimsFrom (from * 64) cell self.old.seat.log self.new.seat.log) }
        ensures out { IfSome result (λ cell. self.new.seat.slots ≡ (cell, None) ∷ self.old.seat.slots) }
        ensures claimed_knows { IfSome result (λ cell. KnowsPart self.old.heap.cells self.new.seat.log
            (handing (hands.Busy phases.Claimed cell)
            (known_seen self.old.heap.cells self.old.seat.log))) }
        ensures full { IfNone result (PassesFrom (from * 64) self.old.seat.log
            (min (to * 64) self.old.heap.cells) self.new.seat.log) }
        ensures still { IfNone result (self.new.seat.slots ≡ self.old.seat.slots) }
        ensures full_knows { IfNone result (KnowsPart self.old.heap.cells self.new.seat.log
            (known_seen self.old.heap.cells self.old.seat.log)) }
        ensures keeps { KeepsNotes self.old.heap.cells self.old.seat.log self.new.seat.log }
    {
        for word in from..to {
            if let Some(cell) = self.seek_word(word) {
                return Some(cell);
            }
        }
        None
    }

    /// Claims the first free cell that the thread gets: the free words are looked at from `start` on (word k has the
    /// cells from 64 k on), to the last and then from the first up to it, and each bit that was found is tried once,
    /// the lowest of a word first. From word 4 on, or from one past the last, that is from the first mortal cell on;
    /// threads that make objects at once come upon fewer bits that another takes where each begins with a word of its
    /// own. None where of each mortal cell it was found that it wasn't free, though one that was looked at early may be
    /// free by then.
    #[inline(always)]
    pub fn seek_from(&mut self, start: u32) -> Option<u32>
        requires stands { MayCountDown self.old.heap.cells self.old.seat.log hands.Free }
        requires active { is_active (part_seen self.old.heap.cells self.old.seat.log).row.stage ≡ true }
        requires more { (part_seen self.old.heap.cells self.old.seat.log).row.allocs < MOST_BIRTHS }
        ensures heap { self.new.heap ≡ self.old.heap }
        ensures seat { Continues self.old.seat self.new.seat }

        // A cell is claimed, and it is none of the thread's dead blocks.
        ensures mortal { IfSome result (λ cell. FIRST_MORTAL ≤ cell) }
        ensures inside { IfSome result (λ cell. cell < self.old.heap.cells) }
        ensures fresh { IfSome result (λ cell.
            listed_at (taken_seen self.old.heap.cells self.old.seat.log) cell ≡ None) }
        ensures claimed { IfSome result (λ cell.
            ClaimsAround self.old.heap.cells start cell self.old.seat.log self.new.seat.log) }
        ensures out { IfSome result (λ cell. self.new.seat.slots ≡ (cell, None) ∷ self.old.seat.slots) }
        ensures claimed_knows { IfSome result (λ cell. KnowsPart self.old.heap.cells self.new.seat.log
            (handing (hands.Busy phases.Claimed cell)
            (known_seen self.old.heap.cells self.old.seat.log))) }

        // Or none was to be had.
        ensures full { IfNone result
            (PassesOver self.old.seat.log self.old.heap.cells self.new.seat.log) }
        ensures still { IfNone result (self.new.seat.slots ≡ self.old.seat.slots) }
        ensures full_knows { IfNone result (KnowsPart self.old.heap.cells self.new.seat.log
            (known_seen self.old.heap.cells self.old.seat.log)) }
        ensures keeps { KeepsNotes self.old.heap.cells self.old.seat.log self.new.seat.log }
    {
        let words = self.heap.table().free_words();
        if let Some(cell) = self.seek_words(start, words) {
            return Some(cell);
        }
        self.seek_words(FIRST_MORTAL / 64, start.min(words))
    }
}
