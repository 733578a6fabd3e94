//! The root: it registers threads, and gathers those that have left.

ghost use Rattle.std.specs.Prelude.{◌≡◌, ◌≤◌, [], false, IfOk, IfErr, OnOk, OnErr};
ghost use Rattle.brc_count.specs.Frames.{IsUnlocked, first_word, ledger_seen};
ghost use Rattle.brc_words.specs.declared.limits.TheConstants.{MOST_REGISTRATIONS};
ghost use Rattle.brc_count.specs.law.steps.Joining.{next_thread, registering, gathering};
ghost use Rattle.brc_count.specs.table.Seated.{view_of};
ghost use Rattle.brc_thread.specs.Counting.{registrations, gatherings, births_of_all, frees_of_all, in_u32, in_u64};
ghost use Rattle.brc_count.specs.Closing.{BeginsBy};
ghost use Rattle.brc_thread.specs.Threads.{RefusesThread};

use crate::heap::Heap;
use crate::leaving::Retired;
use crate::mutator::Mutator;
use brc_count::biased::HasTable;
use brc_count::table::RootSeat;
use brc_count::{Frame, Ledger};
use brc_words::{Fault, MOST_REGISTRATIONS, MOST_THREADS};
use std::alloc::{Allocator, Global};
use std::marker::Model;

/// The seat of whoever starts threads and waits for their ends. There is one for each heap. It counts whom it registers
/// and whom it gathers, and adds up what those did that it gathered.
pub struct Root<A: Allocator = Global> {
    pub(crate) seat: RootSeat<A>,
    pub(crate) registered: u32,
    pub(crate) gathered: u32,
    pub(crate) ledger: Ledger,
}

impl<A: Allocator> Model for Root<A> {
    ghost use Rattle.std.specs.Prelude.{◌≡◌, true};
    ghost use Rattle.brc_count.specs.table.Seated.{RootSeen};
    ghost use Rattle.brc_thread.specs.Counting.{Counts};

    ghost Value = { RootSeen };

    ghost view = { λ r. r.seat };

    ghost invariant = { λ r. (r.seat.view.active ≡ true) × (r.seat.view.thread ≡ 0) × Counts r.seat.view r.registered
        r.gathered r.ledger };
}

impl<A: Allocator + Copy> Root<A> {
    /// The mutator of the next thread, which is registered with it. Its number, from 1 to 64, is the lowest that nobody
    /// has: once a thread is gathered, its number is given again. TooManyThreads, looked at first, if 64 registered
    /// threads aren't gathered yet, or if 65,536 were registered in all. OutOfMemory if its counts, its owned bits or
    /// its popped bits can't be had. A refusal changes nothing: the number is the next thread's.
    pub fn register<H: HasTable<A> + Drop>(
        &mut self,
        alloc: A,
        heap: H,
    ) -> Result<Mutator<H, A>, Fault>
        requires heap { self.old.table ≡ (H.seen heap).table }
        ensures heap { IfOk result (λ mutator. mutator.heap ≡ H.seen heap) }
        ensures thread { IfOk result (λ mutator. mutator.seat.thread ≡ next_thread self.old.view) }
        ensures begins { IfOk result (λ mutator. BeginsBy mutator.heap.cells self.old.view mutator.seat.log) }
        ensures idle { IfOk result (λ mutator. (mutator.len ≡ 0) × (mutator.works ≡ [])) }
        ensures unlocked { IfOk result (λ mutator. IsUnlocked mutator) }
        ensures first { IfOk result (λ mutator. (mutator.from ≡ first_word) × (mutator.near ≡ false)) }
        ensures ledger { IfOk result (λ mutator. ledger_seen mutator ≡ record { allocs = 0; frees = 0 }) }
        ensures root { OnOk result (self.new.view ≡ registering self.old.view) }
        ensures same_root { (self.new.table ≡ self.old.table) × (self.new.id ≡ self.old.id) }
        ensures refused { IfErr result (RefusesThread self.old) }
        ensures unchanged { OnErr result (self.new ≡ self.old) }
    {
        if self.seat.next() > MOST_THREADS || self.registered >= MOST_REGISTRATIONS {
            return Err(Fault::TooManyThreads);
        }
        match Frame::enter(alloc, heap, &mut self.seat) {
            Ok(frame) => {
                self.registered += 1;
                Ok(Mutator { frame })
            }
            Err(fault) => Err(fault),
        }
    }
}

impl<A: Allocator> Root<A> {
    /// The number that the next thread gets: the lowest that nobody has. It is 65 if all 64 are in use.
    pub fn next(&self) -> u32
        ensures { result ≡ next_thread self.now.view }
    {
        self.seat.next()
    }

    /// How many threads have been registered, each of those that had the same number, too: 65,536 at most.
    pub fn registered(&self) -> u32
        ensures told { result ≡ registrations self.now.view }
        ensures few { result ≤ MOST_REGISTRATIONS }
    {
        self.registered
    }

    /// How many threads have been gathered, as far as 32 bits count. No more are than were registered; but
    /// that is so of the run of the whole heap, and no type of the root's says it.
    pub fn gathered(&self) -> u32
        ensures { result ≡ in_u32 (gatherings self.now.view) }
    {
        self.gathered
    }

    /// What the threads did that were gathered, added up over all registrations, as far as 64 bits count.
    pub fn ledger(&self) -> Ledger
        ensures allocs { result.allocs ≡ in_u64 (births_of_all self.now.view.gathered) }
        ensures frees { result.frees ≡ in_u64 (frees_of_all self.now.view.gathered) }
    {
        self.ledger
    }

    /// Takes a thread in that is done. What it did is the root's to know from now on, and its number is free for
    /// another.
    pub fn gather(&mut self, heap: &Heap<A>, retired: Retired<A>)
        requires heap { self.old.table ≡ heap.now.table }
        requires same_heap { retired.heap ≡ heap.now }
        ensures gathered { self.new.view ≡ gathering self.old.view (view_of retired.seat) }
        ensures same_root { (self.new.table ≡ self.old.table) × (self.new.id ≡ self.old.id) }
    {
        let Retired {
            seat,
            cells: _cells,
            local_limit: _limit,
            ledger,
        } = retired;
        heap.table.join(&mut self.seat, seat);
        self.gathered = self.gathered.saturating_add(1);
        self.ledger = Ledger {
            allocs: self.ledger.allocs.saturating_add(ledger.allocs),
            frees: self.ledger.frees.saturating_add(ledger.frees),
        };
    }
}

impl<A: Allocator> Root<A> {
    /// The root is given up: it registers and gathers nobody any more.
    pub fn abandon(self) {
        let Root {
            seat,
            registered: _registered,
            gathered: _gathered,
            ledger: _ledger,
        } = self;
        seat.abandon();
    }
}
