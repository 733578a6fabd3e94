//! A mutator: what a thread of the runtime works with.

ghost use Rattle.std.specs.Prelude.{◌≡◌, ◌<◌, ◌≤◌, ◌-◌, [], ◌⊎◌, length, true, false, IsTrue, IsFalse, IfOk, IfErr};
ghost use Rattle.std.specs.Prelude.{OnOk, OnErr, IfSome, IfNone, OnSome};
ghost use Rattle.brc_words.specs.declared.limits.TheConstants.{GLOBALS};
ghost use Rattle.brc_count.specs.law.declared.world.event.Source.TheVariants as sources;
ghost use Rattle.brc_count.specs.law.living.Living.{OwnLog};
ghost use Rattle.brc_count.specs.Frames.{GivenHandle, Refused, IsAsBefore, IsUnlocked, KeepsHandles, KeepsButStart};
ghost use Rattle.brc_count.specs.Frames.{Turns};
ghost use Rattle.brc_count.specs.Frames.{HasSpare, word_asked, ledger_seen};
ghost use Rattle.brc_count.specs.Polling.{Polled};
ghost use Rattle.brc_count.specs.Closing.{GoesOut};
ghost use Rattle.brc_count.specs.Owned.{Keeps, Gains};

use crate::leaving::Leaving;
use brc_count::biased::HasTable;
use brc_count::{Frame, Handle, Ledger};
use brc_words::Fault;
use std::alloc::Allocator;
use std::marker::Model;

/// A thread that is registered and hasn't left: its frame, and nothing else. `H` leads to its heap: `&Heap<A>`, for
/// one.
pub struct Mutator<H: HasTable<A>, A: Allocator> {
    pub(crate) frame: Frame<H, A>,
}

impl<H: HasTable<A>, A: Allocator> Model for Mutator<H, A> {
    ghost use Rattle.brc_count.specs.Frames.{FrameSeen};

    ghost Value = { FrameSeen A };

    ghost view = { λ m. m.frame };
}

impl<H: HasTable<A>, A: Allocator> Mutator<H, A> {
    ghost use Rattle.std.specs.Borrow.{sem};
    ghost use Rattle.brc_thread.specs.Lending.{lends_frame};

    /// Which thread it is: the number, from 1 to 64.
    pub fn thread(&self) -> u32
        ensures { result ≡ self.now.seat.thread }
    {
        self.frame.thread()
    }

    /// Its frame, over which objects are made, retained and released.
    pub fn frame(&mut self) -> &mut Frame<H, A>
        ensures* lends { sem 𝓛 (lends_frame H.row A.row H.HasTable A.Allocator self.entry result) }
        ensures frame { result.now ≡ self.old }
    {
        &mut self.frame
    }

    /// How many objects the thread has made, and how many cells it has given back, its own objects' and others', since
    /// it was registered. What an earlier thread with its number did is not counted.
    pub fn ledger(&self) -> Ledger
        ensures { result ≡ ledger_seen self.now }
    {
        self.frame.ledger()
    }

    /// The place of the frame's next handle, if it is ready: it is below 65,536, and its memory is there.
    #[inline(always)]
    pub fn spare_place(&self) -> Option<u32>
        ensures place { IfSome result (λ place. place ≡ self.now.next) }
        ensures spare { OnSome result (HasSpare self.now) }
        ensures none { IfNone result (¬ HasSpare self.now) }
    {
        self.frame.spare_place()
    }

    /// Whether it has no handle, and no dead block to take apart.
    pub fn is_idle(&self) -> bool
        ensures idle { IsTrue result → (self.now.len ≡ 0) × (self.now.works ≡ []) }
        ensures busy { IsFalse result → (0 < self.now.len) ⊎ (0 < length self.now.works) }
    {
        self.frame.is_idle()
    }

    /// A handle to the globals, the immortal dictionary of cell 265. FrameFull, then OutOfMemory; a refusal changes
    /// nothing.
    pub fn globals(&mut self) -> Result<Handle<A>, Fault>
        requires unlocked { IsUnlocked self.old }
        ensures heap { self.new.heap ≡ self.old.heap }
        ensures given { IfOk result (GivenHandle self.old self.new (sources.Immortal GLOBALS) GLOBALS) }
        ensures refused { IfErr result (Refused self.old) }
        ensures unchanged { OnErr result (IsAsBefore self.old self.new) }

        ensures gains { IfOk result (Gains self.old self.new) }
        ensures keeps { OnErr result (Keeps self.old self.new) }
        ensures unlocked { IsUnlocked self.new }
    {
        self.frame.globals()
    }

    /// From now on the thread's claims begin with the 64 cells that have this one, go on to the heap's end, and then
    /// from the first mortal cell up to there. For a cell below 266, or past the heap's last, that is the first mortal
    /// cell, as for a mutator that nobody asked. Threads that make objects at once each begin with a part of the heap
    /// of their own.
    pub fn claim_from(&mut self, cell: u32)
        ensures from { self.new.from ≡ word_asked self.old.heap.cells cell }
        ensures near { self.new.near ≡ false }
        ensures same { KeepsButStart self.old self.new }

        ensures keeps { Keeps self.old self.new }
        ensures unlocked { IsUnlocked self.old → IsUnlocked self.new }
    {
        self.frame.claim_from(cell);
    }

    /// As `claim_from`, for the first claim; each later one begins where the thread claimed or freed last: for a heap
    /// with few free cells, in which a search from the same cell passes over all that is taken.
    pub fn claim_near(&mut self, cell: u32)
        ensures from { self.new.from ≡ word_asked self.old.heap.cells cell }
        ensures near { self.new.near ≡ true }
        ensures same { KeepsButStart self.old self.new }

        ensures keeps { Keeps self.old self.new }
        ensures unlocked { IsUnlocked self.old → IsUnlocked self.new }
    {
        self.frame.claim_near(cell);
    }

    /// Takes what the thread was told, drains the queue words that this names, and deals with each entry that was in
    /// them. The answer is what it was told: 0 where nobody put anything into its queue since the last poll. A runtime
    /// polls where it can let other threads' requests in: between instructions, say. It takes no memory. What the
    /// thread's own log before tells of what lives is so.
    pub fn poll(&mut self) -> u64
        requires unlocked { IsUnlocked self.old }
        ensures handles { KeepsHandles self.old self.new }
        ensures polled { Polled self.old self.new result }
        ensures quiet { result ≡ 0 → self.new.works ≡ self.old.works }
        ensures own { OwnLog self.old.heap.cells self.old.seat.log }

        ensures keeps { Keeps self.old self.new }
        ensures unlocked { IsUnlocked self.new }
    {
        self.frame.poll()
    }

    /// Takes dead blocks apart, at most so many turns: in one, the front block's last entry is released, or, if it has
    /// none, the block is given back. The answer is the number of turns that weren't needed: above 0 only where no
    /// block is left. It takes no memory.
    pub fn work(&mut self, budget: usize) -> usize
        requires unlocked { IsUnlocked self.old }
        ensures handles { KeepsHandles self.old self.new }
        ensures few { result ≤ budget }
        ensures turns { Turns self.old (budget - result) self.new }
        ensures done { 0 < result → self.new.works ≡ [] }

        ensures keeps { Keeps self.old self.new }
        ensures unlocked { IsUnlocked self.new }
    {
        self.frame.work(budget)
    }

    /// Leaves. Each object that it owns is handed over, by rising cell: the object has no owner any more, and its count
    /// is the shared one. Then the queue words are closed, by rising number. It takes no memory. A mutator that isn't
    /// idle, with a handle or a dead block, is answered as it was.
    pub fn leave(self) -> Result<Leaving<H, A>, Mutator<H, A>>
        requires unlocked { IsUnlocked self }
        ensures heap { IfOk result (λ leaving. leaving.heap ≡ self.heap) }
        ensures thread { IfOk result (λ leaving. leaving.seat.thread ≡ self.seat.thread) }
        ensures goes { IfOk result (λ leaving. GoesOut self leaving) }
        ensures idle { OnOk result ((self.len ≡ 0) × (self.works ≡ [])) }
        ensures refused { OnErr result ((0 < self.len) ⊎ (0 < length self.works)) }
        ensures unchanged { IfErr result (λ same. same ≡ self) }
    {
        let Mutator { frame } = self;
        match frame.close() {
            Ok(frame) => Ok(Leaving { frame }),
            Err(frame) => Err(Mutator { frame }),
        }
    }
}

impl<H: HasTable<A> + Drop, A: Allocator> Mutator<H, A> {
    /// The thread is given up without leaving, and can't be gathered any more: its heap answers Missing for good. It
    /// has no handle, so no reference is lost.
    pub fn abandon(self)
        requires bare { self.len ≡ 0 }
    {
        let Mutator { frame } = self;
        frame.abandon();
    }
}
