//! A closed frame: what a thread that has left still has to deal with.

ghost use Rattle.std.specs.Prelude.{◌≡◌, ◌-◌, ◌<◌, ◌≤◌, ℕ, [], ◌⊎◌, length, IsTrue, IsFalse, IfOk, IfErr, OnErr, true};
ghost use Rattle.std.specs.Prelude.{false};
ghost use Rattle.brc_table.specs.law.world.Lists.{word_at, is_blank, is_unmarked};
ghost use Rattle.brc_table.specs.law.world.Steps.{is_left, is_free_hand};
ghost use Rattle.brc_table.specs.law.rule.Seen.{part_seen};
ghost use Rattle.brc_count.specs.Frames.{KeepsHandles, ledger_seen, popped_seen};
ghost use Rattle.brc_table.specs.law.steps.Joining.{HasLeft};
ghost use Rattle.brc_table.specs.Seated.{view_of};
ghost use Rattle.brc_count.specs.Closing.{TurnedLeaving, TurnsLeaving};

use crate::holdings::Holdings;
use crate::ledger::Ledger;
use brc_biased::HasTable;
use brc_table::ThreadSeat;
use std::alloc::Allocator;
use std::marker::Model;

/// What a thread that has left holds: popped entries of its queue, and dead blocks.
pub struct ClosedFrame<H: HasTable<A>, A: Allocator> {
    pub(crate) holdings: Holdings<H, A>,
    pub(crate) thread: u32,
    /// All popped words below this one are 0.
    pub(crate) next: usize,
}

impl<H: HasTable<A>, A: Allocator> Model for ClosedFrame<H, A> {
    ghost use Rattle.brc_count.specs.Frames.{FrameSeen, Leaving};

    ghost Value = { FrameSeen A };

    ghost view = { λ f. f.holdings };

    ghost invariant = { λ f. Leaving f.holdings f.thread f.next };
}

impl<H: HasTable<A>, A: Allocator> ClosedFrame<H, A> {
    /// Whose frame it was: the thread's number, from 1 to 64.
    pub fn thread(&self) -> u32
        ensures { result ≡ self.now.seat.thread }
    {
        self.thread
    }

    /// What leads to its heap.
    pub fn home(&self) -> &H
        ensures { H.seen result.now ≡ self.now.heap }
    {
        self.holdings.counter.home()
    }

    /// How many objects the thread made since it was registered, and how many cells it freed, of its own objects and of
    /// others.
    pub fn ledger(&self) -> Ledger
        ensures { result ≡ ledger_seen self.now }
    {
        self.holdings.ledger()
    }

    /// Whether nothing is left to do: no popped entry, and no dead block.
    pub fn is_done(&self) -> bool
        ensures done { IsTrue result → (is_blank (popped_seen self.now) ≡ true) × (self.now.works ≡ []) }
        ensures left { IsFalse result → (is_blank (popped_seen self.now) ≡ false) ⊎ (0 < length self.now.works) }
    {
        if self.holdings.first_popped(self.next).is_some() {
            return false;
        }
        self.holdings.works.is_empty()
    }

    /// One turn: a popped entry is dealt with, or, where none is left, the front block's last entry is released, or the
    /// block given back; false where nothing is left.
    fn turn(&mut self) -> bool
        ensures keeps { KeepsHandles self.old self.new }
        ensures turned { IsTrue result → TurnedLeaving self.old self.new }
        ensures done { IsFalse result → (is_blank (popped_seen self.new) ≡ true) × (self.new.works ≡ []) }
        ensures unchanged { IsFalse result → self.new ≡ self.old }
    {
        let Some(word) = self.holdings.first_popped(self.next) else {
            return self.holdings.turn();
        };
        self.next = word as usize;
        self.holdings.settle_lowest(word);
        true
    }

    /// Deals with popped entries and takes dead blocks apart, at most so many turns: entries come first. The answer is
    /// the number of turns that weren't needed: above 0 only where nothing is left. It takes no memory.
    pub fn work(&mut self, budget: usize) -> usize
        ensures keeps { KeepsHandles self.old self.new }
        ensures few { result ≤ budget }
        ensures turns { TurnsLeaving self.old (budget - result) self.new }
        ensures done { 0 < result → (is_blank (popped_seen self.new) ≡ true) × (self.new.works ≡ []) }
    {
        let mut left = budget;
        while 0 < left {
            if !self.turn() {
                return left;
            }
            left -= 1;
        }
        0
    }

    /// The seat, for the root to join; or, where something is left to do, the frame as it was.
    pub fn finish(self) -> Result<ThreadSeat<A>, ClosedFrame<H, A>>
    where
        H: Drop,
        ensures seat { IfOk result (λ seat. seat ≡ self.seat) }
        ensures table { IfOk result (λ seat. seat.table ≡ self.heap.table) }
        ensures leaves { IfOk result (λ seat. HasLeft self.heap.cells (view_of seat)) }
        ensures bare { IfOk result (λ seat. seat.slots ≡ []) }
        ensures refused { OnErr result ((is_blank (popped_seen self) ≡ false) ⊎ (0 < length self.works)) }
        ensures unchanged { IfErr result (λ same. same ≡ self) }
    {
        if !self.is_done() {
            return Err(self);
        }
        let ClosedFrame {
            holdings,
            thread: _thread,
            next: _next,
        } = self;
        Ok(holdings.into_seat())
    }
}

impl<H: HasTable<A> + Drop, A: Allocator> ClosedFrame<H, A> {
    /// The thread is given up: the memory of its dead blocks is given back, and what was in its queue is dealt with by
    /// nobody. Its seat is joined by nobody, so its heap answers Missing for good.
    pub fn abandon(self) {
        let ClosedFrame {
            holdings,
            thread: _thread,
            next: _next,
        } = self;
        holdings.abandon();
    }
}
