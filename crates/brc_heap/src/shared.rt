//! The heap by a count.

ghost use Rattle.std.specs.Prelude.{◌≡◌, ◌↔◌, ◌⊎◌, [], Err, IfOk, IfErr, OnOk, OnErr, IfSome};
ghost use Rattle.brc_words.specs.declared.fault.Fault.TheVariants as faults;
ghost use Rattle.brc_count.specs.law.world.Heap.{AreOptions};
ghost use Rattle.brc_count.specs.Frames.{IsUnlocked, ledger_seen};
ghost use Rattle.brc_count.specs.Closing.{BeginsBy};
ghost use Rattle.brc_count.specs.law.steps.Joining.{next_thread, registering};
ghost use Rattle.brc_thread.specs.Threads.{RefusesThread};
ghost use Rattle.brc_heap.specs.Desk.{EachCountOnce};
ghost use Rattle.brc_heap.specs.Shared.{HasCounted, CountsOf, RegistersHere, ClaimsApart, HasRegistered, RefusesHere, IsSeenAt};
ghost use Rattle.brc_heap.specs.Shared.{GathersHere, ClosesAs, StaysAs, fault_of};

use crate::NoReport;
use crate::inner::Inner;
use crate::last::{LastReport, last_report};
use crate::sight::{Registration, Sight};
use brc_count::Ledger;
use brc_count::biased::HasTable;
use brc_count::table::HeapTable;
use brc_thread::{Heap, Mutator, Options, Retired, Root};
use brc_words::Fault;
use std::alloc::{AllocError, Global};
use std::marker::Model;
use std::sync::Arc;

/// What leads to a heap without a lifetime. When the last one is dropped and nobody has closed the heap, the memory of
/// its blocks is freed without a report.
#[derive(Drop)]
pub struct Shared {
    inner: Arc<Inner, Global>,
}

impl Model for Shared {
    ghost use Rattle.std.specs.Arc.{arc_value};
    ghost use Rattle.brc_heap.specs.Desk.{InnerSeen};

    ghost Value = { InnerSeen };

    ghost view = { λ s. arc_value s.inner };
}

impl HasTable<Global> for Shared {
    ghost seen = { λ s. s.heap };

    fn table(&self) -> &HeapTable<Global> {
        self.inner.heap.table()
    }
}

/// What a heap's root had counted at one moment.
#[derive(Clone, Copy, Debug)]
pub struct RootCounts {
    /// How many threads were registered, also those whose numbers were given again: 65,536 at most.
    pub registered: u32,
    /// How many of them were gathered.
    pub gathered: u32,
    /// What those did, added up.
    pub ledger: Ledger,
}

/// Why a heap isn't closed.
#[derive(Clone, Copy, Debug, PartialEq, Eq)]
pub enum NotClosed {
    /// Another call has the root at this moment.
    Busy,
    /// Not every thread that was registered is gathered. Both numbers count registrations, as in `RootCounts`.
    Missing { registered: u32, gathered: u32 },
    /// Every thread is gathered, and another `Shared` leads to the heap.
    Held,
}

/// Why `close` has no report.
pub enum Stays {
    /// Nothing was done: the same heap is handed back, with the reason, and the root as it was seen, if it was.
    Open(Shared, NotClosed, Option<Sight>),
    /// Memory for the report was missing. The heap has ended, and the memory of its blocks is freed. So its root was.
    Memory(Sight),
}

/// Why nobody was registered.
#[derive(Drop)]
pub enum NotRegistered {
    /// Another call has the root at this moment.
    Busy,
    /// The root, as it was seen, had no number for a thread more.
    TooManyThreads(Sight),
    /// Memory was missing.
    OutOfMemory,
}

impl NotRegistered {
    /// The fault alone.
    pub fn fault(&self) -> Fault
        ensures { result ≡ fault_of self.now }
    {
        match self {
            NotRegistered::Busy => Fault::Busy,
            NotRegistered::TooManyThreads(_) => Fault::TooManyThreads,
            NotRegistered::OutOfMemory => Fault::OutOfMemory,
        }
    }
}

impl Shared {
    /// A new heap. BadOptions, looked at first, if a size is out of its range. OutOfMemory if the words, a block, the
    /// desk or the count can't be had.
    pub fn new(alloc: Global, options: Options) -> Result<Shared, Fault>
        ensures sizes { IfOk result
            (λ made. (made.heap.cells ≡ options.cells) × (made.heap.local_limit ≡ options.local_limit)) }
        ensures options { (result ≡ Err faults.BadOptions) ↔ ¬ (AreOptions options.cells options.local_limit) }
        ensures refused { IfErr result (λ fault. (fault ≡ faults.BadOptions) ⊎ (fault ≡ faults.OutOfMemory)) }
    {
        let (heap, root) = Heap::new(alloc, options)?;
        let Some(inner) = Inner::new(alloc, heap, root) else {
            return Err(Fault::OutOfMemory);
        };
        match Arc::new(alloc, inner) {
            Ok(inner) => Ok(Shared { inner }),
            Err(_) => Err(Fault::OutOfMemory),
        }
    }

    /// One more that leads to the same heap. It takes no memory, and is refused once some 2^63 lead to it.
    pub fn again(&self) -> Result<Shared, AllocError>
        ensures same { IfOk result (λ more. more ≡ self.now) }
    {
        match Arc::try_clone(&self.inner) {
            Ok(inner) => Ok(Shared { inner }),
            Err(refused) => Err(refused),
        }
    }

    /// The mutator of the next thread, by the heap's root. Its claims begin with a part of the heap of its own.
    fn registered_by(
        &self,
        alloc: Global,
        root: &mut Root<Global>,
    ) -> Result<Mutator<Shared, Global>, Fault>
        requires heap { root.old.table ≡ self.now.heap.table }
        ensures heap { IfOk result (λ made. made.heap ≡ self.now.heap) }
        ensures thread { IfOk result (λ made. made.seat.thread ≡ next_thread root.old.view) }
        ensures begins { IfOk result (λ made. BeginsBy made.heap.cells root.old.view made.seat.log) }
        ensures idle { IfOk result (λ made. (made.len ≡ 0) × (made.works ≡ [])) }
        ensures unlocked { IfOk result (λ made. IsUnlocked made) }
        ensures first { IfOk result ClaimsApart }
        ensures ledger { IfOk result (λ made. ledger_seen made ≡ record { allocs = 0; frees = 0 }) }
        ensures root { OnOk result (root.new.view ≡ registering root.old.view) }
        ensures same_root { root.new.table ≡ root.old.table }
        ensures refused { result ≡ Err faults.TooManyThreads → RefusesThread root.old faults.TooManyThreads }
        ensures unchanged { OnErr result (root.new ≡ root.old) }
    {
        match self.again() {
            Ok(shared) => root.register_apart(alloc, shared),
            Err(_) => Err(Fault::OutOfMemory),
        }
    }

    /// The mutator of the next thread, its registration, which says how many were before it, 0 to 65,535, and the root as it
    /// is then. As by `Root::register_apart`, its claims begin with a part of the heap of its own, and each later one near
    /// its last. Busy, looked at first, if another call has the root at this moment; it is to be tried again. Then
    /// TooManyThreads, and OutOfMemory. A refusal registers nobody.
    #[tactic(auto, using(crate::proofs::At_Desk::grows_unchanged))]
    pub fn register(
        &self,
        alloc: Global,
    ) -> Result<(Mutator<Shared, Global>, Registration, Sight), NotRegistered>
        ensures heap { IfOk result (λ made. made.0.heap ≡ self.now.heap) }
        ensures registers { IfOk result (λ made. RegistersHere self.now.heap made.0 made.1) }
        ensures registered { IfOk result (λ made. HasRegistered self.now.heap made.2) }
        ensures at { IfOk result (λ made. IsSeenAt self.now made.1 × IsSeenAt self.now made.2) }
        ensures apart { OnOk result (EachCountOnce self.now.heap) }
        ensures idle { IfOk result (λ made. (made.0.len ≡ 0) × (made.0.works ≡ [])) }
        ensures unlocked { IfOk result (λ made. IsUnlocked made.0) }
        ensures first { IfOk result (λ made. ClaimsApart made.0) }
        ensures ledger { IfOk result (λ made. ledger_seen made.0 ≡ record { allocs = 0; frees = 0 }) }

        ensures refused { IfErr result (RefusesHere self.now) }
    {
        let Some((root, clerk)) = self.inner.take() else {
            return Err(NotRegistered::Busy);
        };
        let mut root = root;
        let before = root.registered();
        match self.registered_by(alloc, &mut root) {
            Ok(mutator) => {
                let (sight, after) = self.inner.put_and_look(root, clerk);
                Ok((mutator, Registration::new(before, sight), after))
            }
            Err(fault) => {
                let seen = self.inner.put(root, clerk);
                if matches!(fault, Fault::TooManyThreads) {
                    Err(NotRegistered::TooManyThreads(seen))
                } else {
                    Err(NotRegistered::OutOfMemory)
                }
            }
        }
    }

    /// Takes in a thread of this heap that is done: the root's counts with it, and the root as it is then. If another call
    /// has the root at this moment, the thread is handed back as it was, to be tried again.
    #[tactic(auto, using(crate::proofs::Gathering::gathers_here))]
    pub fn gather(&self, retired: Retired<Global>) -> Result<(RootCounts, Sight), Retired<Global>>
        requires heap { retired.heap ≡ self.now.heap }
        ensures gathers { IfOk result (λ told. GathersHere self.now.heap retired told.1 told.0) }
        ensures at { IfOk result (λ told. IsSeenAt self.now told.1) }
        ensures back { IfErr result (λ back. back ≡ retired) }
    {
        let Some((root, clerk)) = self.inner.take() else {
            return Err(retired);
        };
        let mut root = root;
        root.gather(&self.inner.heap, retired);
        let counts = counts_of(&root);
        let seen = self.inner.put(root, clerk);
        Ok((counts, seen))
    }

    /// What the root has counted, and the root as it is then; None if another call has the root at this moment.
    pub fn counts(&self) -> Option<(RootCounts, Sight)>
        ensures counts { IfSome result (λ told. CountsOf self.now.heap told.1 told.0) }
        ensures at { IfSome result (λ told. IsSeenAt self.now told.1) }
    {
        let Some((root, clerk)) = self.inner.take() else {
            return None;
        };
        let counts = counts_of(&root);
        let seen = self.inner.put(root, clerk);
        Some((counts, seen))
    }

    /// Closes the heap, and makes its report. It stays open, as it was, if another call has the root at this moment;
    /// then, if a thread that was registered isn't gathered; then, if another `Shared` leads to it. A thread that was
    /// given up (`Mutator::abandon`) is never gathered, so its heap can't be closed any more, only dropped.
    pub fn close(self, alloc: Global) -> Result<LastReport, Stays>
        ensures report { IfOk result (ClosesAs self.heap) }
        ensures at { IfOk result (λ last. last.desk ≡ self.desk) }
        ensures stays { IfErr result (StaysAs self) }
    {
        let Some((root, clerk)) = self.inner.take() else {
            return Err(Stays::Open(self, NotClosed::Busy, None));
        };
        let registered = root.registered();
        let gathered = root.gathered();
        if registered != gathered {
            let seen = self.inner.put(root, clerk);
            let missing = NotClosed::Missing {
                registered,
                gathered,
            };
            return Err(Stays::Open(self, missing, Some(seen)));
        }
        let mut clerk = clerk;
        let seen = self.inner.look(&mut clerk, &root);
        // The root stays in hand until it is known whether others lead to the heap: so nobody is registered between the
        // look at its counts and its end.
        let Shared { inner } = self;
        match Arc::try_unwrap(inner) {
            Ok(inner) => match last_report(alloc, inner.into_heap(), root, clerk) {
                Ok(last) => Ok(last),
                Err(NoReport::Memory) => Err(Stays::Memory(seen)),
                Err(NoReport::Missing { .. }) => unreachable!(),
            },
            Err(inner) => {
                let _put = inner.put(root, clerk);
                Err(Stays::Open(Shared { inner }, NotClosed::Held, Some(seen)))
            }
        }
    }
}

/// What a root has counted.
fn counts_of(root: &Root<Global>) -> RootCounts
    ensures { HasCounted root.now.view result }
{
    RootCounts {
        registered: root.registered(),
        gathered: root.gathered(),
        ledger: root.ledger(),
    }
}
