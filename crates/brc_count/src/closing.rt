//! Leaving: a thread without handles and dead blocks hands over what it owns, and closes its queue words. And how one
//! begins whose number was used before: it opens them again.

ghost use Rattle.std.specs.Prelude.{◌≡◌, ◌+◌, ◌<◌, ◌≤◌, ◌==◌, if◌then◌else◌, ℕ, [], List, true};
ghost use Rattle.brc_table.specs.law.world.Heap.{words_for};
ghost use Rattle.brc_table.specs.law.world.Lists.{is_blank};
ghost use Rattle.brc_table.specs.law.declared.rule.told.LogItem.{LogItem};
ghost use Rattle.brc_table.specs.law.rule.Seen.{part_seen};
ghost use Rattle.brc_table.specs.law.world.Steps.{is_left};
ghost use Rattle.brc_table.specs.law.steps.Joining.{HasLeft};
ghost use Rattle.brc_table.specs.Seated.{IsSameSeat, view_of};
ghost use Rattle.brc_count.specs.Frames.{IsUnlocked, IsActive, popped_seen};
ghost use Rattle.brc_words.specs.declared.limits.TheConstants.{FIRST_MORTAL};
ghost use Rattle.brc_table.specs.law.rule.Seen.{counts_seen};
ghost use Rattle.brc_table.specs.law.declared.world.row.Stage.TheVariants as stages;
ghost use Rattle.brc_count.specs.Closing.{ClosesWords, HandsOne, HandsEach, ReopensWords, stage_with, stage_opened};

use crate::holdings::Holdings;
use crate::polling::join;
use brc_biased::HasTable;
use brc_table::ThreadSeat;
use brc_words::FIRST_MORTAL;
use std::alloc::Allocator;

impl<H: HasTable<A>, A: Allocator> Holdings<H, A> {
    /// Closes the next of the thread's queue words; its entries are popped.
    fn close_word(&mut self, word: u32)
        requires inside { word < words_for self.old.heap.cells }
        requires stage { (part_seen self.old.heap.cells self.old.seat.log).row.stage ≡ stage_with
            (words_for self.old.heap.cells) word }
        requires unlocked { IsUnlocked self.old }
        requires idle { self.old.len ≡ 0 }
        requires none { (c : ℕ) → FIRST_MORTAL ≤ c → c < self.old.heap.cells →
            counts_seen self.old.heap.cells self.old.seat.log c ≡ 0 }
        requires blank { word ≡ 0 → is_blank (popped_seen self.old) ≡ true }
        ensures heap { self.new.heap ≡ self.old.heap }
        ensures thread { self.new.seat.thread ≡ self.old.seat.thread }
        ensures closes { (before : List LogItem) → ClosesWords before word self.old.seat.log
            → ClosesWords before (word + 1) self.new.seat.log }
        ensures stage { (part_seen self.old.heap.cells self.new.seat.log).row.stage ≡ stage_with
            (words_for self.old.heap.cells) (word + 1) }
        ensures unlocked { IsUnlocked self.new }
        ensures idle { self.new.len ≡ 0 }
        ensures none { (c : ℕ) → FIRST_MORTAL ≤ c → c < self.old.heap.cells →
            counts_seen self.old.heap.cells self.new.seat.log c ≡ 0 }
    {
        let bits = self.counter.close(word);
        join(&mut self.popped, word as usize, bits);
    }

    /// Hands one own object over.
    fn hand_one(&mut self, cell: u32)
        requires inside { cell < self.old.heap.cells }
        requires mortal { FIRST_MORTAL ≤ cell }
        requires counted { 0 < counts_seen self.old.heap.cells self.old.seat.log cell }
        requires active { IsActive self.old }
        requires unlocked { IsUnlocked self.old }
        ensures heap { self.new.heap ≡ self.old.heap }
        ensures thread { self.new.seat.thread ≡ self.old.seat.thread }
        ensures hands { HandsOne self.old self.new cell }
        ensures counts { (c : ℕ) → counts_seen self.old.heap.cells self.new.seat.log c
            ≡ (if c == cell then 0 else counts_seen self.old.heap.cells self.old.seat.log c) }
        ensures active { IsActive self.new }
        ensures unlocked { IsUnlocked self.new }
        ensures len { self.new.len ≡ self.old.len }
        ensures popped { popped_seen self.new ≡ popped_seen self.old }
    {
        let answered = self.counter.hand_on(cell);
        if let Some(block) = answered {
            self.works.push(block);
        }
    }

    /// Hands over all own objects, by rising cell: then the thread counts none.
    pub(crate) fn hand_all(&mut self)
        requires active { IsActive self.old }
        requires unlocked { IsUnlocked self.old }
        ensures heap { self.new.heap ≡ self.old.heap }
        ensures thread { self.new.seat.thread ≡ self.old.seat.thread }
        ensures hands { HandsEach self.old self.old.heap.cells self.new }
        ensures none { (c : ℕ) → FIRST_MORTAL ≤ c → c < self.old.heap.cells →
            counts_seen self.old.heap.cells self.new.seat.log c ≡ 0 }
        ensures active { IsActive self.new }
        ensures unlocked { IsUnlocked self.new }
        ensures len { self.new.len ≡ self.old.len }
        ensures popped { popped_seen self.new ≡ popped_seen self.old }
    {
        let cells = self.counter.home().table().cells();
        let mut from = FIRST_MORTAL;
        while from < cells {
            let Some(cell) = self.counter.next_owned(from) else {
                return;
            };
            self.hand_one(cell);
            from = cell + 1;
        }
    }

    /// Closes all of the thread's queue words, by rising number: then it has left, and what was in its queue is popped.
    pub(crate) fn close_all(&mut self)
        requires active { IsActive self.old }
        requires unlocked { IsUnlocked self.old }
        requires idle { self.old.len ≡ 0 }
        requires none { (c : ℕ) → FIRST_MORTAL ≤ c → c < self.old.heap.cells →
            counts_seen self.old.heap.cells self.old.seat.log c ≡ 0 }
        requires blank { is_blank (popped_seen self.old) ≡ true }
        ensures heap { self.new.heap ≡ self.old.heap }
        ensures thread { self.new.seat.thread ≡ self.old.seat.thread }
        ensures closes { ClosesWords self.old.seat.log (words_for self.old.heap.cells) self.new.seat.log }
        ensures stage { (part_seen self.old.heap.cells self.new.seat.log).row.stage
            ≡ stage_with (words_for self.old.heap.cells) (words_for self.old.heap.cells) }
        ensures unlocked { IsUnlocked self.new }
        ensures idle { self.new.len ≡ 0 }
    {
        for word in 0..self.words() {
            self.close_word(word);
        }
    }

    /// Opens the next of the thread's queue words again.
    fn open_word(&mut self, word: u32)
        requires inside { word < words_for self.old.heap.cells }
        requires stage { (part_seen self.old.heap.cells self.old.seat.log).row.stage ≡ stage_opened
            (words_for self.old.heap.cells) word }
        requires unlocked { IsUnlocked self.old }
        ensures same { self.new ≡ record self.old { seat = self.new.seat } }
        ensures seat { IsSameSeat self.old.seat self.new.seat }
        ensures opens { (before : List LogItem) → ReopensWords before word self.old.seat.log
            → ReopensWords before (word + 1) self.new.seat.log }
        ensures stage { (part_seen self.old.heap.cells self.new.seat.log).row.stage ≡ stage_opened
            (words_for self.old.heap.cells) (word + 1) }
        ensures unlocked { IsUnlocked self.new }
    {
        self.counter.open(word);
    }

    /// Opens all of the thread's queue words, by rising number: then it is active.
    pub(crate) fn open_all(&mut self)
        requires stage { (part_seen self.old.heap.cells self.old.seat.log).row.stage ≡ stages.Opening 0 }
        requires unlocked { IsUnlocked self.old }
        ensures same { self.new ≡ record self.old { seat = self.new.seat } }
        ensures seat { IsSameSeat self.old.seat self.new.seat }
        ensures opens { ReopensWords self.old.seat.log (words_for self.old.heap.cells) self.new.seat.log }
        ensures stage { (part_seen self.old.heap.cells self.new.seat.log).row.stage
            ≡ stage_opened (words_for self.old.heap.cells) (words_for self.old.heap.cells) }
        ensures unlocked { IsUnlocked self.new }
    {
        for word in 0..self.words() {
            self.open_word(word);
        }
    }

    /// The seat of a thread that has left and holds nothing.
    pub(crate) fn into_seat(self) -> ThreadSeat<A>
    where
        H: Drop,
        requires left { is_left (part_seen self.heap.cells self.seat.log).row.stage ≡ true }
        requires unlocked { IsUnlocked self }
        requires blank { is_blank (popped_seen self) ≡ true }
        requires empty { self.works ≡ [] }
        requires some_thread { 0 < self.seat.thread }
        ensures seat { result ≡ self.seat }
        ensures table { result.table ≡ self.heap.table }
        ensures leaves { HasLeft self.heap.cells (view_of result) }
        ensures bare { result.slots ≡ [] }
    {
        let Holdings {
            counter,
            places: _places,
            works,
            popped: _popped,
            ledger: _ledger,
            start: _start,
        } = self;
        works.end();
        let (_heap, seat) = counter.into_parts();
        seat
    }
}
