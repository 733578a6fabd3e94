//! Taking dead blocks apart, a turn at a time.

ghost use Rattle.std.specs.Prelude.{◌≡◌, ◌-◌, ◌≤◌, ◌<◌, [], IsTrue, IsFalse, true};
ghost use Rattle.brc_biased.specs.Standing.{may_give_up};
ghost use Rattle.brc_table.specs.law.rule.Seen.{part_seen};
ghost use Rattle.brc_count.specs.Frames.{MayGiveUp, Turned, Turns, KeepsHandles, popped_seen, IsUnlocked};

use crate::holdings::Holdings;
use brc_biased::HasTable;
use brc_table::law::world::Dropped;
use std::alloc::Allocator;

impl<H: HasTable<A>, A: Allocator> Holdings<H, A> {
    /// One turn: the front block's last entry is released, or, if it has none, the block is given back; false where
    /// there is no block.
    #[inline(always)]
    pub(crate) fn turn(&mut self) -> bool
        requires stage { MayGiveUp self.old }
        requires unlocked { IsUnlocked self.old }
        ensures keeps { KeepsHandles self.old self.new }
        ensures popped { popped_seen self.new ≡ popped_seen self.old }
        ensures turned { IsTrue result → Turned self.old self.new }
        ensures idle { IsFalse result → self.new.works ≡ [] }
        ensures unchanged { IsFalse result → self.new ≡ self.old }
    {
        if self.works.is_empty() {
            return false;
        }
        if let Some(entry) = self.works.pop_entry() {
            let Some(front) = self.works.front() else {
                unreachable!()
            };
            let drop = Dropped::Work(front);
            if let Some(block) = self.counter.give_up(drop, entry, false) {
                self.works.push(block);
            }
            return true;
        }
        let Some(block) = self.works.pop() else {
            return false;
        };
        let cell = block.cell();

        // From here on another thread may claim the cell and put a block of its own home. This one isn't in the cell's slot
        // any more.
        self.counter.free(cell);
        self.start.freed(cell);
        self.ledger.frees += 1;
        let _payload = block.into_payload();
        true
    }

    /// At most so many turns; the answer is the number of turns that weren't needed.
    #[inline(always)]
    pub(crate) fn work(&mut self, budget: usize) -> usize
        requires stage { MayGiveUp self.old }
        requires unlocked { IsUnlocked self.old }
        ensures keeps { KeepsHandles self.old self.new }
        ensures popped { popped_seen self.new ≡ popped_seen self.old }
        ensures few { result ≤ budget }
        ensures turns { Turns self.old (budget - result) self.new }
        ensures done { 0 < result → self.new.works ≡ [] }
    {
        let mut left = budget;
        while 0 < left {
            if !self.turn() {
                return left;
            }
            left -= 1;
        }
        0
    }
}
