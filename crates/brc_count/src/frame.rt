//! A frame: the references of one thread that is there.

ghost use Rattle.std.specs.Prelude.{◌≡◌, ◌+◌, ◌-◌, ◌<◌, ◌≤◌, ℕ, Some, None, IsTrue, IsFalse, [], length, replicate};
ghost use Rattle.std.specs.Prelude.{◌⊎◌, IfOk, IfErr, OnOk, OnErr, IfSome, IfNone, OnSome, true, false};
ghost use Rattle.brc_words.specs.declared.limits.TheConstants.{FIRST_MORTAL, GLOBALS, MOST_THREADS};
ghost use Rattle.brc_words.specs.declared.limits.TheConstants.{MOST_PLACES, MOST_REGISTRATIONS};
ghost use Rattle.brc_words.specs.declared.fault.Fault.TheVariants.{OutOfMemory};
ghost use Rattle.brc_table.specs.law.declared.world.event.Source.TheVariants as sources;
ghost use Rattle.brc_table.specs.law.world.Heap.{words_for};
ghost use Rattle.brc_biased.specs.Bounded.{IsBounded};
ghost use Rattle.brc_biased.specs.Counter.{CountsMore};
ghost use Rattle.brc_table.specs.law.steps.Joining.{next_thread, registrations, registering};
ghost use Rattle.brc_table.specs.Seated.{Continues};
ghost use Rattle.brc_table.specs.law.living.Living.{OwnLog};
ghost use Rattle.brc_count.specs.Frames.{place_seen, handle_at, Owns, GivenHandle, Refused, ReleasedOf, IsAsBefore};
ghost use Rattle.brc_count.specs.Frames.{IsUnlocked, Turns, KeepsHandles, KeepsButStart, first_word, word_asked};
ghost use Rattle.brc_count.specs.Locking.{LetsNoneGo};
ghost use Rattle.brc_count.specs.Frames.{CountedDown, HasSpare, IsFull, ledger_seen};
ghost use Rattle.brc_count.specs.Polling.{Polled};
ghost use Rattle.brc_count.specs.Closing.{BeginsBy, GoesOut};
ghost use Rattle.brc_count.specs.Making.{Made, RefusedMaking};
ghost use Rattle.brc_count.specs.Owned.{Keeps, Gains, Loses};
ghost use Rattle.brc_words.specs.Kinds.{is_mortal};
ghost use Rattle.brc_table.specs.law.rule.Logs.{kind_in, entries_in};
ghost use Rattle.brc_table.specs.Shown.{contents_of};

use crate::closed::ClosedFrame;
use crate::handed::HandedBack;
use crate::handle::Handle;
use crate::holdings::Holdings;
use crate::ledger::Ledger;
use brc_biased::{Counter, HasTable, first_counts, no_bits};
use brc_table::RootSeat;
use brc_table::block::Payload;
use brc_table::law::world::Source;
use brc_words::{Fault, GLOBALS};
use std::alloc::Allocator;
use std::marker::Model;
use std::snapshot::Snapshot;

/// What a thread that is active holds, and the thread's number.
pub struct Frame<H: HasTable<A>, A: Allocator> {
    pub(crate) holdings: Holdings<H, A>,
    pub(crate) thread: u32,
}

impl<H: HasTable<A>, A: Allocator> Model for Frame<H, A> {
    ghost use Rattle.brc_count.specs.Frames.{FrameSeen, Framing};

    ghost Value = { FrameSeen A };

    ghost view = { λ f. f.holdings };

    ghost invariant = { λ f. Framing f.holdings f.thread };
}

impl<H: HasTable<A> + Drop, A: Allocator + Copy> Frame<H, A> {
    #[tactic(auto, using(crate::proofs::Beginning::started_first, crate::proofs::Beginning::first_none, crate::proofs::Beginning::again_opening, crate::proofs::Leaving::stage_active))]
    /// The frame of the next thread, which is registered with it. If its number was used before, it opens its queue
    /// words. The memory for its counts, its owned bits and its popped words is had first: if it is missing, OutOfMemory
    /// is returned and nothing has changed.
    pub fn enter(alloc: A, heap: H, root: &mut RootSeat<A>) -> Result<Frame<H, A>, Fault>
        requires table { root.old.table ≡ (H.seen heap).table }
        requires few { next_thread root.old.view ≤ MOST_THREADS }
        requires more { registrations root.old.view < MOST_REGISTRATIONS }
        ensures heap { IfOk result (λ frame. frame.heap ≡ H.seen heap) }
        ensures thread { IfOk result (λ frame. frame.seat.thread ≡ next_thread root.old.view) }
        ensures begins { IfOk result (λ frame. BeginsBy frame.heap.cells root.old.view frame.seat.log) }
        ensures ledger { IfOk result (λ frame. ledger_seen frame ≡ record { allocs = 0; frees = 0 }) }
        ensures bare { IfOk result (λ frame. (frame.len ≡ 0) × (frame.works ≡ [])) }
        ensures unlocked { IfOk result (λ frame. IsUnlocked frame) }
        ensures first { IfOk result (λ frame. (frame.from ≡ first_word) × (frame.near ≡ false)) }
        ensures root { OnOk result (root.new.view ≡ registering root.old.view) }
        ensures same_root { (root.new.table ≡ root.old.table) × (root.new.id ≡ root.old.id) }
        ensures refused { IfErr result (λ fault. fault ≡ OutOfMemory) }
        ensures unchanged { OnErr result (root.new ≡ root.old) }
    {
        let cells = heap.table().cells();
        let Ok(counts) = first_counts(alloc, cells) else {
            return Err(Fault::OutOfMemory);
        };
        let Ok(owned) = no_bits(alloc, cells) else {
            return Err(Fault::OutOfMemory);
        };
        let Ok(popped) = no_bits(alloc, cells) else {
            return Err(Fault::OutOfMemory);
        };
        let thread = root.next();
        let again = root.is_again();
        let seat = heap.table().split(root);
        let counter = Counter::new(heap, seat, counts, owned);
        let mut holdings = Holdings::new(alloc, counter, popped);
        if again {
            holdings.open_all();
        }
        Ok(Frame { holdings, thread })
    }
}

impl<H: HasTable<A>, A: Allocator> Frame<H, A> {
    /// Whose frame it is: the thread's number, from 1 to 64.
    pub fn thread(&self) -> u32
        ensures { result ≡ self.now.seat.thread }
    {
        self.thread
    }

    /// What leads to its heap.
    pub fn home(&self) -> &H
        ensures { H.seen result.now ≡ self.now.heap }
    {
        self.holdings.counter.home()
    }

    /// The frame's handle for a place.
    #[inline(always)]
    pub(crate) fn handle(&self, place: u32) -> Handle<A>
        ensures { result ≡ handle_at self.now place }
    {
        Handle {
            thread: self.thread,
            place,
            heap: Snapshot::of(self.home().table()),
        }
    }

    /// Whether the handle, which is of this frame's heap, is of its thread, and its place has a reference. Nothing at
    /// run time tells one heap from another: that the two are of one heap is what a caller proves.
    pub fn owns(&self, handle: &Handle<A>) -> bool
        requires heap { handle.now.heap ≡ self.now.heap }
        ensures owned { IsTrue result → Owns self.now handle.now }
        ensures foreign { IsFalse result → ¬ Owns self.now handle.now }
    {
        handle.thread == self.thread && self.holdings.cell(handle.place).is_some()
    }

    /// The cell of the object that the handle is a reference to.
    #[inline(always)]
    pub fn cell(&self, handle: &Handle<A>) -> u32
        requires owned { Owns self.now handle.now }
        ensures cell { place_seen self.now.heap.cells self.now.seat.log handle.now.place ≡ Some result }
        ensures inside { result < self.now.heap.cells }
    {
        self.holdings.filled_cell(handle.place)
    }

    /// How many objects the thread has made since it was registered, and how many cells it has freed, of its own
    /// objects and of others.
    pub fn ledger(&self) -> Ledger
        ensures { result ≡ ledger_seen self.now }
    {
        self.holdings.ledger()
    }

    /// Whether there is no handle, and no dead block to take apart.
    pub fn is_idle(&self) -> bool
        ensures idle { IsTrue result → (self.now.len ≡ 0) × (self.now.works ≡ []) }
        ensures busy { IsFalse result → (0 < self.now.len) ⊎ (0 < length self.now.works) }
    {
        self.holdings.is_idle()
    }

    /// How many handles there are.
    pub fn len(&self) -> usize
        ensures { result ≡ self.now.len }
    {
        self.holdings.places.len()
    }

    /// Whether a place is left for a handle, with memory or without: else there are 65,536.
    #[inline(always)]
    pub fn has_vacant(&self) -> bool
        ensures low { IsTrue result → self.now.next < MOST_PLACES }
        ensures full { IsFalse result → IsFull self.now }
    {
        self.holdings.has_vacant()
    }

    /// The place of the next handle, if it is ready: it is below 65,536, and its memory is there.
    #[inline(always)]
    pub fn spare_place(&self) -> Option<u32>
        ensures place { IfSome result (λ place. place ≡ self.now.next) }
        ensures spare { OnSome result (HasSpare self.now) }
        ensures none { IfNone result (¬ HasSpare self.now) }
    {
        self.holdings.spare_place()
    }

    /// One handle more to the same object, in one event (PEP 703, "Biased Reference Counting"). FrameFull where there
    /// are 65,536 handles and so no place is left, looked at first; OutOfMemory where a place more can't be had. A
    /// refusal changes nothing.
    #[inline(always)]
    pub fn retain(&mut self, handle: &Handle<A>) -> Result<Handle<A>, Fault>
        requires owned { Owns self.old handle.now }
        requires unlocked { IsUnlocked self.old }
        ensures heap { self.new.heap ≡ self.old.heap }
        ensures given { IfOk result (λ given. (c : ℕ) →
            place_seen self.old.heap.cells self.old.seat.log handle.now.place ≡ Some c →
            GivenHandle self.old self.new (sources.Frame handle.now.place) c given) }
        ensures refused { IfErr result (Refused self.old) }
        ensures unchanged { OnErr result (IsAsBefore self.old self.new) }

        ensures gains { IfOk result (Gains self.old self.new) }
        ensures keeps { OnErr result (Keeps self.old self.new) }
        ensures unlocked { IsUnlocked self.new }
    {
        let cell = self.cell(handle);
        self.holdings.reserve()?;
        let place = self.holdings.fill(Source::Frame(handle.place), cell);
        Ok(self.handle(place))
    }

    /// A handle to an immortal, cell 0 to 265, in one event that only looks. It is refused as `retain` is.
    #[inline(always)]
    pub fn immortal(&mut self, cell: u32) -> Result<Handle<A>, Fault>
        requires immortal { cell < FIRST_MORTAL }
        requires unlocked { IsUnlocked self.old }
        ensures heap { self.new.heap ≡ self.old.heap }
        ensures given { IfOk result (λ given. GivenHandle self.old self.new (sources.Immortal cell) cell given) }
        ensures refused { IfErr result (Refused self.old) }
        ensures unchanged { OnErr result (IsAsBefore self.old self.new) }

        ensures gains { IfOk result (Gains self.old self.new) }
        ensures keeps { OnErr result (Keeps self.old self.new) }
        ensures unlocked { IsUnlocked self.new }
    {
        // A heap has all immortals: its invariant says so.
        let _cells = self.holdings.counter.home().table().cells();
        self.holdings.reserve()?;
        let place = self.holdings.fill(Source::Immortal(cell), cell);
        Ok(self.handle(place))
    }

    /// A handle to the dictionary of globals, which is immortal. It is refused as `retain` is.
    #[inline(always)]
    pub fn globals(&mut self) -> Result<Handle<A>, Fault>
        requires unlocked { IsUnlocked self.old }
        ensures heap { self.new.heap ≡ self.old.heap }
        ensures given { IfOk result (GivenHandle self.old self.new (sources.Immortal GLOBALS) GLOBALS) }
        ensures refused { IfErr result (Refused self.old) }
        ensures unchanged { OnErr result (IsAsBefore self.old self.new) }

        ensures gains { IfOk result (Gains self.old self.new) }
        ensures keeps { OnErr result (Keeps self.old self.new) }
        ensures unlocked { IsUnlocked self.new }
    {
        self.immortal(GLOBALS)
    }

    /// From now on the thread's claims begin with the free word that has this cell (word k has the cells from 64 k on),
    /// go on to the heap's end, and then from the first mortal cell up to there. For a cell below 266, or past the
    /// heap's last, that is the first mortal cell's word, as for a frame that nobody asked. It is for threads that make
    /// objects at once: where each begins with a part of the heap of its own, they meet in one word only once such a
    /// part is full.
    pub fn claim_from(&mut self, cell: u32)
        ensures from { self.new.from ≡ word_asked self.old.heap.cells cell }
        ensures near { self.new.near ≡ false }
        ensures same { KeepsButStart self.old self.new }

        ensures keeps { Keeps self.old self.new }
        ensures unlocked { IsUnlocked self.old → IsUnlocked self.new }
    {
        self.holdings.claim_at(cell, false);
    }

    /// As `claim_from`, for the first claim; each later one begins with the word of the frame's last claim, or of a
    /// lower cell, not below the word of the cell named here, that the frame has given back since. It is for heaps with
    /// few free cells: a claim finds what the thread freed last, and doesn't pass over all that is taken.
    pub fn claim_near(&mut self, cell: u32)
        ensures from { self.new.from ≡ word_asked self.old.heap.cells cell }
        ensures near { self.new.near ≡ true }
        ensures same { KeepsButStart self.old self.new }

        ensures keeps { Keeps self.old self.new }
        ensures unlocked { IsUnlocked self.old → IsUnlocked self.new }
    {
        self.holdings.claim_at(cell, true);
    }

    /// A new object with this payload, and a handle to it: a cell is claimed, its words are set, and the block is put
    /// home (PEP 703, "Biased Reference Counting": the thread that makes an object owns it, with a local count of 1).
    /// The faults come in this order, and each hands the payload back: FrameFull where there are 65,536 handles and so
    /// no place is left; LedgerFull where the thread has made 2^47 objects since it was registered; OutOfMemory
    /// where the place or the block can't be had; HeapFull where all mortal cells were found taken. A container's payload is empty.
    #[inline(always)]
    pub fn born(
        &mut self,
        alloc: A,
        payload: Payload<A>,
    ) -> Result<Handle<A>, HandedBack<Payload<A>>>
        requires unlocked { IsUnlocked self.old }
        requires mortal { is_mortal (kind_in (contents_of payload)) ≡ true }
        requires empty { entries_in (contents_of payload) ≡ [] }
        ensures heap { self.new.heap ≡ self.old.heap }
        ensures made { IfOk result (Made self.old self.new (contents_of payload)) }
        ensures refused { IfErr result (λ handed. RefusedMaking self.old self.new handed.fault) }
        ensures back { IfErr result (λ handed. handed.value ≡ payload) }

        ensures gains { IfOk result (Gains self.old self.new) }
        ensures keeps { OnErr result (Keeps self.old self.new) }
        ensures unlocked { IsUnlocked self.new }
    {
        match self.holdings.born(alloc, payload) {
            Ok(place) => Ok(self.handle(place)),
            Err((fault, back)) => Err(HandedBack { fault, value: back }),
        }
    }

    /// The reference goes, in at most `MOST_EVENTS` events whatever others do, with one lost exchange in the log; where
    /// the object ends, its block is on the front of the worklist (PEP 703, "Biased Reference Counting"). It waits for
    /// nobody, unless its `HasTable` does to find the table.
    #[inline(always)]
    pub fn release(&mut self, handle: Handle<A>)
        requires owned { Owns self.old handle }
        requires unlocked { IsUnlocked self.old }
        ensures heap { self.new.heap ≡ self.old.heap }
        ensures released { (c : ℕ) → place_seen self.old.heap.cells self.old.seat.log handle.place ≡ Some c →
            ReleasedOf self.old self.new handle.place c }
        ensures bounded { IsBounded self.old.seat.log self.new.seat.log }
        ensures seat { Continues self.old.seat self.new.seat }
        ensures loses { Loses self.old self.new handle }
        ensures unlocked { IsUnlocked self.new }
    {
        self.holdings.release(handle.into_place());
    }

    /// The reference of a handle to None goes, in one event that only looks.
    #[inline(always)]
    pub fn release_none(&mut self, none: Handle<A>)
        requires owned { Owns self.old none }
        requires none { place_seen self.old.heap.cells self.old.seat.log none.place ≡ Some 0 }
        requires unlocked { IsUnlocked self.old }
        ensures gone { LetsNoneGo self.old self.new none.place }
        ensures loses { Loses self.old self.new none }
    {
        self.holdings.release_none(none.into_place());
    }

    /// The reference goes, as by `release`, if it is one of several that the thread counts: that is one event, and the
    /// object lives on. Else the handle is handed back, and nothing is done.
    #[inline(always)]
    pub fn release_counted(&mut self, handle: Handle<A>) -> Result<(), Handle<A>>
        requires owned { Owns self.old handle }
        requires unlocked { IsUnlocked self.old }
        ensures heap { self.new.heap ≡ self.old.heap }
        ensures counts { OnOk result ((c : ℕ) → place_seen self.old.heap.cells self.old.seat.log handle.place ≡ Some c →
            CountsMore self.old.heap.cells self.old.seat.log c) }
        ensures other { OnErr result ((c : ℕ) → place_seen self.old.heap.cells self.old.seat.log handle.place ≡ Some c →
            ¬ CountsMore self.old.heap.cells self.old.seat.log c) }
        ensures told { OnOk result ((c : ℕ) → place_seen self.old.heap.cells self.old.seat.log handle.place ≡ Some c →
            CountedDown self.old self.new handle.place c) }
        ensures released { OnOk result ((c : ℕ) → place_seen self.old.heap.cells self.old.seat.log handle.place ≡ Some c →
            ReleasedOf self.old self.new handle.place c) }
        ensures bounded { IsBounded self.old.seat.log self.new.seat.log }
        ensures seat { Continues self.old.seat self.new.seat }
        ensures loses { OnOk result (Loses self.old self.new handle) }
        ensures back { IfErr result (λ same. same ≡ handle) }
        ensures unchanged { OnErr result (self.new ≡ self.old) }
        ensures unlocked { IsUnlocked self.new }
    {
        if self.holdings.release_counted(handle.place) {
            let _place = handle.into_place();
            Ok(())
        } else {
            Err(handle)
        }
    }

    /// Takes dead blocks apart, at most so many turns: in one, the front block's last entry is released, or, if it has
    /// none, the block is given back. The answer is the number of turns that weren't needed: above 0 only where no
    /// block is left. It takes no memory.
    #[inline(always)]
    pub fn work(&mut self, budget: usize) -> usize
        requires unlocked { IsUnlocked self.old }
        ensures handles { KeepsHandles self.old self.new }
        ensures few { result ≤ budget }
        ensures turns { Turns self.old (budget - result) self.new }
        ensures done { 0 < result → self.new.works ≡ [] }

        ensures keeps { Keeps self.old self.new }
        ensures unlocked { IsUnlocked self.new }
    {
        self.holdings.work(budget)
    }

    /// Takes what the thread was told, drains the queue words that this names, and deals with each entry that was in
    /// them: an object that isn't merged is merged, and the entry's reference counted down (PEP 703, "Biased Reference
    /// Counting"). The answer is what it was told, 0 where nobody put anything into the queue since the last poll. It
    /// takes no memory. What the thread's own log before tells of what lives is so.
    pub fn poll(&mut self) -> u64
        requires unlocked { IsUnlocked self.old }
        ensures handles { KeepsHandles self.old self.new }
        ensures polled { Polled self.old self.new result }
        ensures quiet { result ≡ 0 → self.new.works ≡ self.old.works }
        ensures own { OwnLog self.old.heap.cells self.old.seat.log }

        ensures keeps { Keeps self.old self.new }
        ensures unlocked { IsUnlocked self.new }
    {
        self.holdings.poll()
    }

    /// Leaves: what the thread counts on its own is handed over, by rising cell, and then all of its queue words are
    /// closed, by rising number. A frame with a handle or a dead block is answered as it was.
    pub fn close(self) -> Result<ClosedFrame<H, A>, Frame<H, A>>
        requires unlocked { IsUnlocked self }
        ensures heap { IfOk result (λ closed. closed.heap ≡ self.heap) }
        ensures thread { IfOk result (λ closed. closed.seat.thread ≡ self.seat.thread) }
        ensures goes { IfOk result (λ closed. GoesOut self closed) }
        ensures idle { OnOk result ((self.len ≡ 0) × (self.works ≡ [])) }
        ensures refused { OnErr result ((0 < self.len) ⊎ (0 < length self.works)) }
        ensures unchanged { IfErr result (λ same. same ≡ self) }
    {
        if !self.holdings.is_idle() {
            return Err(self);
        }
        let Frame {
            mut holdings,
            thread,
        } = self;
        holdings.hand_all();

        // There are some words to close: by the last one the thread has left.
        let _words = holdings.words();
        holdings.close_all();
        Ok(ClosedFrame {
            holdings,
            thread,
            next: 0,
        })
    }
}

impl<H: HasTable<A> + Drop, A: Allocator> Frame<H, A> {
    /// The thread is given up without leaving: the memory of its dead blocks is given back, and their cells are never
    /// free again. Its seat is joined by nobody, so its heap answers Missing for good. It has no handle, so no reference
    /// is lost.
    pub fn abandon(self)
        requires bare { self.len ≡ 0 }
    {
        let Frame {
            holdings,
            thread: _thread,
        } = self;
        holdings.abandon();
    }
}
