//! A thread that has left, and one that is done.

ghost use Rattle.std.specs.Prelude.{◌≡◌, ◌<◌, ◌≤◌, ◌-◌, [], ◌⊎◌, length, IsTrue, IsFalse, IfOk, IfErr, OnErr, true};
ghost use Rattle.std.specs.Prelude.{false};
ghost use Rattle.brc_count.specs.law.world.Lists.{is_blank};
ghost use Rattle.brc_count.specs.Frames.{KeepsHandles, ledger_seen, popped_seen};
ghost use Rattle.brc_count.specs.Closing.{TurnsLeaving};
ghost use Rattle.brc_thread.specs.Threads.{ledger_of};

use brc_count::biased::HasTable;
use brc_count::table::ThreadSeat;
use brc_count::{ClosedFrame, Ledger};
use std::alloc::{Allocator, Global};
use std::marker::Model;

/// A thread that has left: it owns nothing, and has popped entries to deal with, and dead blocks.
pub struct Leaving<H: HasTable<A>, A: Allocator> {
    pub(crate) frame: ClosedFrame<H, A>,
}

impl<H: HasTable<A>, A: Allocator> Model for Leaving<H, A> {
    ghost use Rattle.brc_count.specs.Frames.{FrameSeen};

    ghost Value = { FrameSeen A };

    ghost view = { λ l. l.frame };
}

/// A thread that holds nothing any more: its seat, for the root to gather. It names no lifetime, so that a thread of
/// the machine can hand it back as it ends.
#[derive(Drop)]
pub struct Retired<A: Allocator = Global> {
    pub(crate) seat: ThreadSeat<A>,
    pub(crate) cells: u32,
    pub(crate) local_limit: u32,
    pub(crate) ledger: Ledger,
}

impl<A: Allocator> Model for Retired<A> {
    ghost use Rattle.brc_thread.specs.Threads.{RetiredSeen, Retires, retired_seen};

    ghost Value = { RetiredSeen A };

    ghost view = { λ r. retired_seen r.seat r.cells r.local_limit };

    ghost invariant = { λ r. Retires A r.seat r.cells r.ledger };
}

impl<H: HasTable<A>, A: Allocator> Leaving<H, A> {
    /// Which thread it was: the number, from 1 to 64.
    pub fn thread(&self) -> u32
        ensures { result ≡ self.now.seat.thread }
    {
        self.frame.thread()
    }

    /// How many objects the thread made, and how many cells it has given back, its own objects' and others', since it
    /// was registered.
    pub fn ledger(&self) -> Ledger
        ensures { result ≡ ledger_seen self.now }
    {
        self.frame.ledger()
    }

    /// Whether nothing is left to do: no popped entry, and no dead block.
    pub fn is_done(&self) -> bool
        ensures done { IsTrue result → (is_blank (popped_seen self.now) ≡ true) × (self.now.works ≡ []) }
        ensures left { IsFalse result → (is_blank (popped_seen self.now) ≡ false) ⊎ (0 < length self.now.works) }
    {
        self.frame.is_done()
    }

    /// Deals with popped entries and takes dead blocks apart, at most so many turns: entries come first. The answer is
    /// the number of turns that weren't needed: above 0 only where nothing is left. It takes no memory.
    pub fn work(&mut self, budget: usize) -> usize
        ensures handles { KeepsHandles self.old self.new }
        ensures few { result ≤ budget }
        ensures turns { TurnsLeaving self.old (budget - result) self.new }
        ensures done { 0 < result → (is_blank (popped_seen self.new) ≡ true) × (self.new.works ≡ []) }
    {
        self.frame.work(budget)
    }

    /// What the root gathers; or, where something is left to do, the thread as it was.
    pub fn finish(self) -> Result<Retired<A>, Leaving<H, A>>
    where
        H: Drop,
        ensures seat { IfOk result (λ retired. retired.seat ≡ self.seat) }
        ensures heap { IfOk result (λ retired. retired.heap ≡ self.heap) }
        ensures refused { OnErr result ((is_blank (popped_seen self) ≡ false) ⊎ (0 < length self.works)) }
        ensures unchanged { IfErr result (λ same. same ≡ self) }
    {
        let Leaving { frame } = self;
        let ledger = frame.ledger();
        let table = frame.home().table();
        let cells = table.cells();
        let local_limit = table.local_limit();
        match frame.finish() {
            Ok(seat) => Ok(Retired {
                seat,
                cells,
                local_limit,
                ledger,
            }),
            Err(frame) => Err(Leaving { frame }),
        }
    }
}

impl<A: Allocator> Retired<A> {
    /// How many objects the thread made, and how many cells it gave back, since it was registered.
    pub fn ledger(&self) -> Ledger
        ensures { result ≡ ledger_of self.now.heap.cells self.now.seat.log }
    {
        self.ledger
    }
}

impl<H: HasTable<A> + Drop, A: Allocator> Leaving<H, A> {
    /// The thread is given up, and can't be gathered any more: its heap answers Missing for good.
    pub fn abandon(self) {
        let Leaving { frame } = self;
        frame.abandon();
    }
}
