//! Many handles: by number, and the last one first.

ghost use Rattle.std.specs.Prelude.{◌≡◌, ◌<◌, ℕ, Some, None, [], ◌∷◌, ◌++◌, length, replicate, IfOk, IfErr, OnOk};
ghost use Rattle.std.specs.Prelude.{OnErr, IfSome, IfNone, slice_set};
ghost use Rattle.std.specs.Option.{option_copied};
ghost use Rattle.brc_words.specs.declared.fault.Fault.TheVariants.{OutOfMemory};
ghost use Rattle.brc_handles.specs.Handles.{slot, filled, IsApart, IsBare, ComesIn, ComesOut, Exchanges};

use brc_count::{HandedBack, Handle};
use brc_words::Fault;
use std::alloc::{AllocError, Allocator, Global};
use std::marker::Model;

/// Handles of one frame, each in a place with a number; a place can be empty. No two are of one place of the frame.
/// What is here must be spent, by `release_all`.
pub struct Handles<A: Allocator = Global> {
    pub(crate) slots: Vec<Option<Handle<A>>, A>,
}

impl<A: Allocator> Model for Handles<A> {
    ghost use Rattle.std.specs.Prelude.{List, Option};
    ghost use Rattle.brc_count.specs.Frames.{HandleSeen};
    ghost use Rattle.brc_handles.specs.Handles.{AreApart};

    ghost Value = { List (Option HandleSeen) };

    ghost view = { λ h. h.slots.items };

    ghost invariant = { λ h. AreApart h.slots.items };
}

impl<A: Allocator> Handles<A> {
    /// Without a place. It takes no memory.
    pub fn new(alloc: A) -> Handles<A>
        ensures { result ≡ [] }
    {
        Handles {
            slots: Vec::new(alloc),
        }
    }

    /// So many places, from 0 on, all empty.
    pub fn with_places(alloc: A, count: usize) -> Result<Handles<A>, AllocError>
        ensures empty { IfOk result (λ made. made ≡ replicate count None) }
        ensures bare { IfOk result IsBare }
    {
        let mut slots = Vec::with_capacity(alloc, count)?;
        for _place in 0..count {
            slots.push_reserved(None);
        }
        Ok(Handles { slots })
    }

    /// How many places there are, with a handle or empty.
    #[inline(always)]
    pub fn len(&self) -> usize
        ensures { result ≡ length self.now }
    {
        self.slots.len()
    }

    /// The handle in this place; None where it is empty, or there is no such place.
    #[inline(always)]
    pub fn get(&self, index: usize) -> Option<&Handle<A>>
        ensures { option_copied result ≡ slot self.now index }
    {
        match self.slots.get(index) {
            Some(slot) => slot.as_ref(),
            None => None,
        }
    }

    /// The handle in this place, which is one of them; None where it is empty.
    #[inline(always)]
    pub fn at(&self, index: usize) -> Option<&Handle<A>>
        requires inside { index < length self.now }
        ensures { option_copied result ≡ slot self.now index }
    {
        self.slots[index].as_ref()
    }

    /// A handle more, in a new place after all others. OutOfMemory where the place can't be had: the handle is handed
    /// back.
    #[inline(always)]
    pub fn push(&mut self, handle: Handle<A>) -> Result<(), HandedBack<Handle<A>>>
        requires apart { IsApart handle self.old }
        ensures pushed { OnOk result (self.new ≡ self.old ++ Some handle ∷ []) }
        ensures comes { OnOk result (ComesIn self.old self.new handle) }
        ensures refused { IfErr result (λ handed. handed.fault ≡ OutOfMemory) }
        ensures back { IfErr result (λ handed. handed.value ≡ handle) }
        ensures unchanged { OnErr result (self.new ≡ self.old) }
    {
        if self.slots.reserve(1).is_err() {
            return Err(HandedBack {
                fault: Fault::OutOfMemory,
                value: handle,
            });
        }
        self.slots.push_reserved(Some(handle));
        Ok(())
    }

    /// An empty place more, after all others: room for a handle, which `put` fills without memory. OutOfMemory where it
    /// can't be had.
    #[inline(always)]
    pub fn push_empty(&mut self) -> Result<(), Fault>
        ensures pushed { OnOk result (self.new ≡ self.old ++ None ∷ []) }
        ensures same { OnOk result ((k : ℕ) → slot self.new k ≡ slot self.old k) }
        ensures count { filled self.new ≡ filled self.old }
        ensures refused { IfErr result (λ fault. fault ≡ OutOfMemory) }
        ensures unchanged { OnErr result (self.new ≡ self.old) }
    {
        if self.slots.reserve(1).is_err() {
            return Err(Fault::OutOfMemory);
        }
        self.slots.push_reserved(None);
        Ok(())
    }

    /// The last place goes. The answer is what was in it: a handle, or nothing. None where there is no place.
    #[inline(always)]
    pub fn pop(&mut self) -> Option<Option<Handle<A>>>
        ensures popped { IfSome result (λ last. self.old ≡ self.new ++ last ∷ []) }
        ensures none { IfNone result ((self.old ≡ []) × (self.new ≡ [])) }
        ensures comes { IfSome result (λ last. IfSome last (ComesOut self.old self.new (length self.new))) }
    {
        let Some(last) = self.slots.pop() else {
            return None;
        };
        Some(last)
    }

    /// The handle out of this place, which is empty then; None where it was empty before.
    #[inline(always)]
    pub fn take(&mut self, index: usize) -> Option<Handle<A>>
        requires inside { index < length self.old }
        ensures taken { result ≡ slot self.old index }
        ensures set { self.new ≡ slice_set self.old index None }
        ensures comes { IfSome result (ComesOut self.old self.new index) }
        ensures unchanged { IfNone result (self.new ≡ self.old) }
    {
        self.slots[index].take()
    }

    /// The handle into this place. The answer is the one that was there; None where it was empty.
    #[inline(always)]
    pub fn put(&mut self, index: usize, handle: Handle<A>) -> Option<Handle<A>>
        requires inside { index < length self.old }
        requires apart { IsApart handle self.old }
        ensures taken { result ≡ slot self.old index }
        ensures set { self.new ≡ slice_set self.old index (Some handle) }
        ensures comes { IfNone result (ComesIn self.old self.new handle) }
        ensures exchanges { IfSome result (Exchanges self.old self.new index handle) }
    {
        self.slots[index].replace(handle)
    }

    /// The end of places that are all empty: it wants no frame.
    pub fn spend(self)
        requires empty { (k : ℕ) → slot self k ≡ None }
        ensures bare { IsBare self }
    {
        let Handles { mut slots } = self;
        while let Some(slot) = slots.pop() {
            match slot {
                None => {}
                Some(_handle) => unreachable!(),
            }
        }
        slots.destroy_empty();
    }
}
