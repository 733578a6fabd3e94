//! Registering a thread that makes its objects apart from the others.

ghost use Rattle.std.specs.Prelude.{◌≡◌, ◌≤◌, [], true, IfOk, IfErr, OnOk, OnErr};
ghost use Rattle.brc_words.specs.declared.limits.TheConstants.{FEWEST_CELLS, MOST_CELLS, MOST_THREADS};
ghost use Rattle.brc_count.specs.law.steps.Joining.{next_thread, registering};
ghost use Rattle.brc_count.specs.Frames.{IsUnlocked, ledger_seen, word_asked};
ghost use Rattle.brc_count.specs.Closing.{BeginsBy};
ghost use Rattle.brc_thread.specs.Apart.{first_of_part};
ghost use Rattle.brc_thread.specs.Threads.{RefusesThread};

use crate::mutator::Mutator;
use crate::root::Root;
use brc_count::biased::HasTable;
use brc_words::{FIRST_MORTAL, Fault, MOST_THREADS};
use std::alloc::Allocator;

/// The first cell of a thread's part of a heap that has so many cells.
fn first_of_part(cells: u32, thread: u32) -> u32
    requires enough { FEWEST_CELLS ≤ cells }
    requires few { cells ≤ MOST_CELLS }
    requires thread { thread ≤ MOST_THREADS }
    ensures { result ≡ first_of_part cells thread }
{
    let before = thread.saturating_sub(1);
    FIRST_MORTAL + (cells - FIRST_MORTAL) * before / MOST_THREADS
}

impl<A: Allocator + Copy> Root<A> {
    /// The mutator of the next thread, as by `register`. Its claims begin with a part of the heap of its own, and each
    /// later one near the thread's last (`Mutator::claim_near`). The mortal cells are cut into 64 parts, one for each
    /// number: so threads that make objects at the same time meet in a free word only once a part is full.
    pub fn register_apart<H: HasTable<A> + Drop>(
        &mut self,
        alloc: A,
        heap: H,
    ) -> Result<Mutator<H, A>, Fault>
        requires heap { self.old.table ≡ (H.seen heap).table }
        ensures heap { IfOk result (λ mutator. mutator.heap ≡ H.seen heap) }
        ensures thread { IfOk result (λ mutator. mutator.seat.thread ≡ next_thread self.old.view) }
        ensures begins { IfOk result (λ mutator. BeginsBy mutator.heap.cells self.old.view mutator.seat.log) }
        ensures idle { IfOk result (λ mutator. (mutator.len ≡ 0) × (mutator.works ≡ [])) }
        ensures unlocked { IfOk result (λ mutator. IsUnlocked mutator) }
        ensures from { IfOk result (λ mutator. mutator.from
            ≡ word_asked mutator.heap.cells (first_of_part mutator.heap.cells mutator.seat.thread)) }
        ensures near { IfOk result (λ mutator. mutator.near ≡ true) }
        ensures ledger { IfOk result (λ mutator. ledger_seen mutator ≡ record { allocs = 0; frees = 0 }) }
        ensures root { OnOk result (self.new.view ≡ registering self.old.view) }
        ensures same_root { (self.new.table ≡ self.old.table) × (self.new.id ≡ self.old.id) }
        ensures refused { IfErr result (RefusesThread self.old) }
        ensures unchanged { OnErr result (self.new ≡ self.old) }
    {
        let thread = self.next();
        if thread > MOST_THREADS {
            return Err(Fault::TooManyThreads);
        }
        let first = first_of_part(heap.table().cells(), thread);
        let mut mutator = self.register(alloc, heap)?;
        mutator.claim_near(first);
        Ok(mutator)
    }
}
