//! A frame and many of its handles: each call tells that the frame owns them afterwards, and how many others.

ghost use Rattle.std.specs.Prelude.{◌≡◌, ◌≢◌, ◌+◌, ◌<◌, ◌⊎◌, Some, None, [], ◌∷◌, ◌++◌, OnOk, OnErr, IfErr, IsSome};
ghost use Rattle.std.specs.Prelude.{ℕ, length, slice_set};
ghost use Rattle.brc_words.specs.declared.fault.Fault.TheVariants.{OutOfMemory};
ghost use Rattle.brc_count.specs.law.living.Quiet.{Quietly};
ghost use Rattle.brc_count.specs.Frames.{HandleSeen, IsAsBefore, IsUnlocked, Owns, Refused};
ghost use Rattle.brc_count.specs.Owned.{Loses};
ghost use Rattle.brc_handles.specs.Handles.{slot, filled, IsApart, OwnsEach, ComesIn, Retains};
ghost use Rattle.brc_handles.specs.Standing.{Stands, Besides};

use crate::handles::Handles;
use brc_count::biased::HasTable;
use brc_count::{Frame, Handle};
use brc_words::Fault;
use std::alloc::Allocator;

impl<A: Allocator> Handles<A> {
    /// A handle more, in a new place after all others. OutOfMemory where the place can't be had: the handle is
    /// released.
    pub fn keep<H: HasTable<A>>(
        &mut self,
        frame: &mut Frame<H, A>,
        handle: Handle<A>,
    ) -> Result<(), Fault>
        requires each { OwnsEach frame.old self.old }
        requires owned { Owns frame.old handle }
        requires apart { IsApart handle self.old }
        requires unlocked { IsUnlocked frame.old }

        ensures stands { (others : ℕ) → Besides others frame.old self.old handle
            → Stands others frame.new self.new }
        ensures each { OwnsEach frame.new self.new }
        ensures count { frame.new.len + filled self.old + 1 ≡ frame.old.len + filled self.new }
        ensures heap { frame.new.heap ≡ frame.old.heap }
        ensures unlocked { IsUnlocked frame.new }
        ensures owns { (h : HandleSeen) → Owns frame.old h → handle.place ≢ h.place → Owns frame.new h }
        ensures apart { (h : HandleSeen) → h.place ≢ handle.place → IsApart h self.old → IsApart h self.new }

        ensures pushed { OnOk result (self.new ≡ self.old ++ Some handle ∷ []) }
        ensures kept { OnOk result ((frame.new ≡ frame.old) × ComesIn self.old self.new handle) }
        ensures released { OnErr result (Loses frame.old frame.new handle × (self.new ≡ self.old)) }
        ensures refused { IfErr result (λ fault. fault ≡ OutOfMemory) }
    {
        match self.push(handle) {
            Ok(()) => Ok(()),
            Err(handed) => {
                frame.release(handed.value);
                Err(handed.fault)
            }
        }
    }

    /// One more reference to the object of the handle in this place, in a new place after all others. OutOfMemory where
    /// the place can't be had comes first; then FrameFull and OutOfMemory as `Frame::retain` answers them. A refusal
    /// changes nothing.
    pub fn retain<H: HasTable<A>>(
        &mut self,
        frame: &mut Frame<H, A>,
        index: usize,
    ) -> Result<(), Fault>
        requires each { OwnsEach frame.old self.old }
        requires there { IsSome (slot self.old index) }
        requires unlocked { IsUnlocked frame.old }

        ensures stands { (others : ℕ) → Stands others frame.old self.old → Stands others frame.new self.new }
        ensures each { OwnsEach frame.new self.new }
        ensures count { frame.new.len + filled self.old ≡ frame.old.len + filled self.new }
        ensures heap { frame.new.heap ≡ frame.old.heap }
        ensures unlocked { IsUnlocked frame.new }
        ensures owns { (h : HandleSeen) → Owns frame.old h → Owns frame.new h }
        ensures apart { (h : HandleSeen) → Owns frame.old h → IsApart h self.old → IsApart h self.new }

        ensures more { OnOk result (Retains frame.old frame.new self.old self.new index) }
        ensures refused { IfErr result (λ fault. (fault ≡ OutOfMemory) ⊎ Refused frame.old fault) }
        ensures unchanged { OnErr result (IsAsBefore frame.old frame.new × (self.new ≡ self.old)) }
    {
        // The place is had before the reference, so a reference that was given always has one.
        if self.slots.reserve(1).is_err() {
            return Err(Fault::OutOfMemory);
        }
        let Some(handle) = self.get(index) else {
            unreachable!()
        };
        let given = frame.retain(handle)?;
        self.slots.push_reserved(Some(given));
        Ok(())
    }

    /// The reference of this place goes, if one is there; the place is empty then. It takes no memory, as
    /// `Frame::release`.
    pub fn release<H: HasTable<A>>(&mut self, frame: &mut Frame<H, A>, index: usize)
        requires each { OwnsEach frame.old self.old }
        requires inside { index < length self.old }
        requires unlocked { IsUnlocked frame.old }

        ensures stands { (others : ℕ) → Stands others frame.old self.old → Stands others frame.new self.new }
        ensures each { OwnsEach frame.new self.new }
        ensures count { frame.new.len + filled self.old ≡ frame.old.len + filled self.new }
        ensures heap { frame.new.heap ≡ frame.old.heap }
        ensures unlocked { IsUnlocked frame.new }
        ensures owns { (h : HandleSeen) → Owns frame.old h → IsApart h self.old → Owns frame.new h }
        ensures set { self.new ≡ slice_set self.old index None }
        ensures quiet { Quietly frame.old.seat.log frame.new.seat.log }
    {
        match self.take(index) {
            None => {}
            Some(handle) => frame.release(handle),
        }
    }

    /// All of them are released, by rising number: the thread only lets go. It takes no memory, and waits for nobody.
    pub fn release_all<H: HasTable<A>>(self, frame: &mut Frame<H, A>)
        requires each { OwnsEach frame.old self }
        requires unlocked { IsUnlocked frame.old }

        ensures count { frame.new.len + filled self ≡ frame.old.len }
        ensures owns { (h : HandleSeen) → Owns frame.old h → IsApart h self → Owns frame.new h }
        ensures heap { frame.new.heap ≡ frame.old.heap }
        ensures unlocked { IsUnlocked frame.new }
        ensures quiet { Quietly frame.old.seat.log frame.new.seat.log }
    {
        let mut handles = self;
        for index in 0..handles.len() {
            handles.release(frame, index);
        }
        handles.spend();
    }
}
