//! Ways out: how a thread without handles ends.
//!
//! Each handle is given back first, by its own call: none of these vacates a place whose handle may still be out.

ghost use Rattle.std.specs.Prelude.{◌≡◌, IfOk, IfErr};
ghost use Rattle.brc_count.specs.Frames.{IsUnlocked};
ghost use Rattle.brc_thread.specs.Retiring.{Finishes, RetiresAs, EndsThread, Departs, StaysFor};

use crate::heap::Heap;
use crate::leaving::{Leaving, Retired};
use crate::mutator::Mutator;
use crate::root::Root;
use brc_count::Ledger;
use brc_count::biased::HasTable;
use std::alloc::Allocator;
use std::sync::Wait;

/// So many turns are done between two looks whether anything is left.
const TURNS: usize = 64;

impl<H: HasTable<A> + Drop, A: Allocator> Leaving<H, A> {
    /// Deals with all that is left: popped entries first, then dead blocks. Nobody puts more into the queue of a thread
    /// that has left, so this ends; but nothing says after how many turns. It takes no memory.
    pub fn finish_all(self, rt: &impl Wait) -> Retired<A>
        ensures { Finishes self result }
    {
        let mut leaving = self;
        for _ in rt.forever() {
            if leaving.work(TURNS) > 0 {
                match leaving.finish() {
                    Ok(retired) => return retired,
                    Err(_leaving) => unreachable!(),
                }
            }
        }
        unreachable!()
    }
}

impl<H: HasTable<A> + Drop, A: Allocator> Mutator<H, A> {
    /// The thread ends: it settles, leaves, which hands over what it owns, and deals with what is left. It needs no
    /// root, so any thread of the machine can end so; `Root::gather` takes in what comes out. It takes no memory.
    pub fn settle_and_leave(self, rt: &impl Wait) -> Retired<A>
        requires bare { self.len ≡ 0 }
        requires unlocked { IsUnlocked self }
        ensures { RetiresAs self result }
    {
        let mut mutator = self;
        mutator.settle(rt);
        match mutator.leave() {
            Ok(leaving) => leaving.finish_all(rt),
            Err(_mutator) => unreachable!(),
        }
    }

    /// The thread ends, as by `settle_and_leave`, and the root, which is at hand, gathers it. The answer is its ledger.
    pub fn settle_and_join(self, rt: &impl Wait, root: &mut Root<A>, heap: &Heap<A>) -> Ledger
        requires bare { self.len ≡ 0 }
        requires unlocked { IsUnlocked self }
        requires same_heap { self.heap ≡ heap.now }
        requires root { root.old.table ≡ heap.now.table }
        ensures ended { EndsThread self root.old root.new result }
        ensures same_root { (root.new.table ≡ root.old.table) × (root.new.id ≡ root.old.id) }
    {
        let retired = self.settle_and_leave(rt);
        let ledger = retired.ledger();
        root.gather(heap, retired);
        ledger
    }

    /// Leaves without waiting: after at most so many turns of work on dead blocks, and without a poll. What it owns is
    /// handed over, so nothing is asked of it later; `Leaving::work` and `finish` do the rest. If a dead block is left
    /// after that many turns, the mutator is returned. It takes no memory.
    pub fn leave_without_waiting(self, budget: usize) -> Result<Leaving<H, A>, Mutator<H, A>>
        requires bare { self.len ≡ 0 }
        requires unlocked { IsUnlocked self }
        ensures departs { IfOk result (Departs budget self) }
        ensures stays { IfErr result (StaysFor budget self) }
    {
        let mut mutator = self;
        let _left = mutator.work(budget);
        mutator.leave()
    }

    /// The name of before of `settle_and_leave`.
    pub fn retire(self, rt: &impl Wait) -> Retired<A>
        requires bare { self.len ≡ 0 }
        requires unlocked { IsUnlocked self }
        ensures { RetiresAs self result }
    {
        self.settle_and_leave(rt)
    }

    /// The name of before of `settle_and_join`.
    pub fn end(self, rt: &impl Wait, root: &mut Root<A>, heap: &Heap<A>) -> Ledger
        requires bare { self.len ≡ 0 }
        requires unlocked { IsUnlocked self }
        requires same_heap { self.heap ≡ heap.now }
        requires root { root.old.table ≡ heap.now.table }
        ensures ended { EndsThread self root.old root.new result }
        ensures same_root { (root.new.table ≡ root.old.table) × (root.new.id ≡ root.old.id) }
    {
        self.settle_and_join(rt, root, heap)
    }

    /// The name of before of `leave_without_waiting`.
    pub fn depart(self, budget: usize) -> Result<Leaving<H, A>, Mutator<H, A>>
        requires bare { self.len ≡ 0 }
        requires unlocked { IsUnlocked self }
        ensures departs { IfOk result (Departs budget self) }
        ensures stays { IfErr result (StaysFor budget self) }
    {
        self.leave_without_waiting(budget)
    }
}
