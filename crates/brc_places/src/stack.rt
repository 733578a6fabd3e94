//! A stack of handles, whose last place is its top.

ghost use Rattle.std.specs.Prelude.{◌≡◌, ◌≢◌, ◌+◌, ◌-◌, ◌<◌, ◌≤◌, ◌⊎◌, [], ◌∷◌, ◌++◌, Some, None, Err, IfErr, IfSome};
ghost use Rattle.std.specs.Prelude.{IfNone, OnOk, OnErr, MatchOption, length};
ghost use Rattle.std.specs.Option.{option_copied};
ghost use Rattle.brc_words.specs.declared.fault.Fault.TheVariants as faults;
ghost use Rattle.brc_count.specs.law.living.Quiet.{Quietly};
ghost use Rattle.brc_count.specs.Frames.{HandleSeen, IsAsBefore, IsUnlocked, Owns, Refused};
ghost use Rattle.brc_count.specs.Owned.{Keeps, Loses};
ghost use Rattle.brc_things.specs.Called.{Late};
ghost use Rattle.brc_things.specs.Looking.{IntOf};
ghost use Rattle.brc_handles.specs.Handles.{slot, filled, IsApart, OwnsEach, Retains, Swapped};
ghost use Rattle.brc_handles.specs.Standing.{KeepsStanding};
ghost use Rattle.brc_places.specs.declared.placing.To.TheVariants as tos;
ghost use Rattle.brc_places.specs.declared.place_makers.Make.TheVariants as makes;
ghost use Rattle.brc_places.specs.Calls.{MadeBy, GaveLate, TookLate};
ghost use Rattle.brc_places.specs.Placing.{Comes, Lacks, GivesTo, GivesNot, TakesNot};
ghost use Rattle.brc_places.specs.Reading.{ReadsPlace};
ghost use Rattle.brc_places.specs.Stacking.{DropsLast, Stores, TakesTop};

use crate::giving::{GiveBy, give_at};
use crate::place_makers::{Make, make_at};
use crate::placing::{To, fill};
use crate::reading::int_at;
use crate::taking::{TakeBy, take_at};
use brc_count::biased::HasTable;
use brc_count::{Frame, HandedBack, Handle};
use brc_handles::Handles;
use brc_words::Fault;
use std::alloc::{Allocator, Global};
use std::marker::Model;
use std::sync::Wait;

/// The last place goes, and what is in it is released.
#[inline(always)]
fn drop_last<H: HasTable<A>, A: Allocator>(frame: &mut Frame<H, A>, handles: &mut Handles<A>)
    requires each { OwnsEach frame.old handles.old }
    requires unlocked { IsUnlocked frame.old }
    requires some { 0 < length handles.old }
    ensures stands { KeepsStanding frame.old frame.new handles.old handles.new }
    ensures drops { DropsLast frame.old frame.new handles.old handles.new }
{
    match handles.pop_out(frame) {
        None => unreachable!(),
        Some(None) => {}
        Some(Some(handle)) => frame.release(handle),
    }
}

/// Handles, each in a place with a number; the last place is the top. No place is empty: each call that makes one fills
/// it, or takes it off. They must be spent, by `release_all`.
pub struct Stack<A: Allocator = Global> {
    handles: Handles<A>,
}

impl<A: Allocator> Model for Stack<A> {
    ghost use Rattle.std.specs.Prelude.{List, Option};
    ghost use Rattle.brc_count.specs.Frames.{HandleSeen};
    ghost use Rattle.brc_places.specs.Stacking.{AreFilled};

    ghost Value = { List (Option HandleSeen) };

    ghost view = { λ s. s.handles };

    ghost invariant = { λ s. AreFilled s.handles };
}

impl<A: Allocator> Stack<A> {
    /// Without a handle. It takes no memory.
    pub fn new(alloc: A) -> Stack<A>
        ensures { result ≡ [] }
    {
        Stack {
            handles: Handles::new(alloc),
        }
    }

    /// How many places there are.
    #[inline(always)]
    pub fn len(&self) -> usize
        ensures { result ≡ length self.now }
    {
        self.handles.len()
    }

    /// The handle in this place, counted from the first; None where there is no such place.
    #[inline(always)]
    pub fn get(&self, index: usize) -> Option<&Handle<A>>
        ensures found { option_copied result ≡ slot self.now index }
        ensures none { IfNone result (length self.now ≤ index) }
    {
        self.handles.get(index)
    }

    /// The handle on top; None where there is none.
    #[inline(always)]
    pub fn top(&self) -> Option<&Handle<A>>
        ensures found { option_copied result ≡ slot self.now (length self.now - 1) }
        ensures none { IfNone result (self.now ≡ []) }
    {
        self.handles.get(self.handles.len().saturating_sub(1))
    }

    /// A handle on top. OutOfMemory where the place can't be had: the handle is handed back.
    #[inline(always)]
    pub fn push<H: HasTable<A>>(
        &mut self,
        frame: &Frame<H, A>,
        handle: Handle<A>,
    ) -> Result<(), HandedBack<Handle<A>>>
        requires each { OwnsEach frame.now self.old }
        requires owned { Owns frame.now handle }
        requires apart { IsApart handle self.old }

        ensures each { OwnsEach frame.now self.new }
        ensures count { OnOk result (filled self.new ≡ filled self.old + 1) }
        ensures apart { (h : HandleSeen) → h.place ≢ handle.place → IsApart h self.old → IsApart h self.new }

        ensures pushed { OnOk result (self.new ≡ self.old ++ Some handle ∷ []) }
        ensures refused { IfErr result (λ handed. handed.fault ≡ faults.OutOfMemory) }
        ensures back { IfErr result (λ handed. handed.value ≡ handle) }
        ensures unchanged { OnErr result (self.new ≡ self.old) }
    {
        let _frame = frame; // only clauses speak of it
        self.handles.push(handle)
    }

    /// What is made, on top; it is refused as `make_at` is.
    pub fn make<H: HasTable<A>>(
        &mut self,
        alloc: A,
        frame: &mut Frame<H, A>,
        make: Make<'_>,
    ) -> Result<(), Fault>
    where
        A: Copy,
        requires each { OwnsEach frame.old self.old }
        requires unlocked { IsUnlocked frame.old }
        ensures stands { KeepsStanding frame.old frame.new self.old self.new }
        ensures made { OnOk result (Comes tos.Last (MadeBy make.entry frame.old) frame.new self.old self.new) }
        ensures refused { IfErr result (Lacks tos.Last (MadeBy make.entry frame.old) frame.old frame.new self.old) }
        ensures keeps { OnErr result (Keeps frame.old frame.new) }
        ensures unchanged { OnErr result (self.new ≡ self.old) }
    {
        make_at(alloc, frame, &mut self.handles, make, To::Last)
    }

    /// The top goes. The answer is the handle that was in it; None where there is none.
    #[inline(always)]
    pub fn pop<H: HasTable<A>>(&mut self, frame: &Frame<H, A>) -> Option<Handle<A>>
        requires each { OwnsEach frame.now self.old }

        ensures each { OwnsEach frame.now self.new }
        ensures owned { IfSome result (Owns frame.now) }
        ensures loose { IfSome result (λ handle. IsApart handle self.new) }
        ensures count { MatchOption result (filled self.new ≡ filled self.old)
            (λ handle. filled self.new + 1 ≡ filled self.old) }
        ensures apart { (h : HandleSeen) → IsApart h self.old → IsApart h self.new }
        ensures beside { IfSome result (λ handle. (h : HandleSeen) → IsApart h self.old → h.place ≢ handle.place) }

        ensures popped { IfSome result (λ handle. self.old ≡ self.new ++ Some handle ∷ []) }
        ensures none { IfNone result ((self.old ≡ []) × (self.new ≡ [])) }
    {
        match self.handles.pop_out(frame) {
            None => None,
            Some(last) => last,
        }
    }

    /// The top goes, and what was in it is released. NoSuchPlace where there is none.
    #[inline(always)]
    pub fn release<H: HasTable<A>>(&mut self, frame: &mut Frame<H, A>) -> Result<(), Fault>
        requires each { OwnsEach frame.old self.old }
        requires unlocked { IsUnlocked frame.old }
        ensures stands { KeepsStanding frame.old frame.new self.old self.new }
        ensures gone { OnOk result ((handle : HandleSeen) × (self.old ≡ self.new ++ Some handle ∷ [])
            × Loses frame.old frame.new handle) }
        ensures refused { IfErr result (λ fault. (fault ≡ faults.NoSuchPlace) × (frame.new ≡ frame.old)) }
        ensures none { OnErr result (self.old ≡ []) }
        ensures unchanged { OnErr result (self.new ≡ self.old) }
    {
        let Some(handle) = self.pop(frame) else {
            return Err(Fault::NoSuchPlace);
        };
        frame.release(handle);
        Ok(())
    }

    /// One reference more to the object of the handle in this place, counted from the first, on top. NoSuchPlace where
    /// there is no such place; then OutOfMemory for a new one; then as `Frame::retain`. A refusal changes nothing.
    #[inline(always)]
    pub fn load<H: HasTable<A>>(
        &mut self,
        frame: &mut Frame<H, A>,
        index: usize,
    ) -> Result<(), Fault>
        requires each { OwnsEach frame.old self.old }
        requires unlocked { IsUnlocked frame.old }
        ensures stands { KeepsStanding frame.old frame.new self.old self.new }
        ensures more { OnOk result (Retains frame.old frame.new self.old self.new index) }
        ensures refused { IfErr result (λ fault. (fault ≡ faults.NoSuchPlace) ⊎ (fault ≡ faults.OutOfMemory)
            ⊎ Refused frame.old fault) }
        ensures missing { slot self.old index ≡ None → (result ≡ Err faults.NoSuchPlace) × (frame.new ≡ frame.old) }
        ensures none { result ≡ Err faults.NoSuchPlace → slot self.old index ≡ None }
        ensures keeps { OnErr result (IsAsBefore frame.old frame.new) }
        ensures unchanged { OnErr result (self.new ≡ self.old) }
    {
        if self.handles.get(index).is_none() {
            return Err(Fault::NoSuchPlace);
        }
        self.handles.retain(frame, index)
    }

    /// The top's object once more, on top, as `load` does it.
    #[inline(always)]
    pub fn duplicate<H: HasTable<A>>(&mut self, frame: &mut Frame<H, A>) -> Result<(), Fault>
        requires each { OwnsEach frame.old self.old }
        requires unlocked { IsUnlocked frame.old }
        ensures stands { KeepsStanding frame.old frame.new self.old self.new }
        ensures more { OnOk result (Retains frame.old frame.new self.old self.new (length self.old - 1)) }
        ensures refused { IfErr result (λ fault. (fault ≡ faults.NoSuchPlace) ⊎ (fault ≡ faults.OutOfMemory)
            ⊎ Refused frame.old fault) }
        ensures missing { slot self.old (length self.old - 1) ≡ None
            → (result ≡ Err faults.NoSuchPlace) × (frame.new ≡ frame.old) }
        ensures none { result ≡ Err faults.NoSuchPlace → slot self.old (length self.old - 1) ≡ None }
        ensures keeps { OnErr result (IsAsBefore frame.old frame.new) }
        ensures unchanged { OnErr result (self.new ≡ self.old) }
    {
        let top = self.len().saturating_sub(1);
        self.load(frame, top)
    }

    /// The two topmost, each in the other's place. NoSuchPlace where there are fewer than two places.
    #[inline(always)]
    pub fn swap<H: HasTable<A>>(&mut self, frame: &Frame<H, A>) -> Result<(), Fault>
        requires each { OwnsEach frame.now self.old }

        ensures each { OwnsEach frame.now self.new }
        ensures count { filled self.new ≡ filled self.old }
        ensures apart { (h : HandleSeen) → IsApart h self.old → IsApart h self.new }

        ensures swapped { OnOk result (Swapped self.old self.new (length self.old - 1) (length self.old - 2)) }
        ensures refused { IfErr result (λ fault. fault ≡ faults.NoSuchPlace) }
        ensures enough { OnOk result (2 ≤ length self.old) }
        ensures few { OnErr result (length self.old < 2) }
        ensures unchanged { OnErr result (self.new ≡ self.old) }
    {
        let len = self.handles.len();
        if len < 2 {
            return Err(Fault::NoSuchPlace);
        }
        self.handles.swap(frame, len - 1, len - 2)
    }

    /// What the container on top gives, on top of it; it is refused as `give_at` is.
    pub fn give<H: HasTable<A>>(
        &mut self,
        rt: &impl Wait,
        frame: &mut Frame<H, A>,
        by: GiveBy<'_>,
    ) -> Result<(), Fault>
        requires each { OwnsEach frame.old self.old }
        requires unlocked { IsUnlocked frame.old }
        ensures stands { KeepsStanding frame.old frame.new self.old self.new }
        ensures gave { OnOk result
            (GivesTo tos.Last (GaveLate by.entry frame.old) frame.new self.old self.new (length self.old - 1)) }
        ensures refused { IfErr result
            (GivesNot tos.Last (GaveLate by.entry frame.old) frame.old frame.new self.old (length self.old - 1)) }
        ensures keeps { OnErr result (Keeps frame.old frame.new) }
        ensures unchanged { OnErr result (self.new ≡ self.old) }
        ensures waited { IfErr result (λ fault. fault ≢ faults.Busy) }
    {
        let top = self.len().saturating_sub(1);
        give_at(rt, frame, &mut self.handles, top, by, To::Last)
    }

    /// The top goes into the container below it; what came out for it is released. NoSuchPlace where there are fewer
    /// than two places, then as `take_at`: then the top stays.
    pub fn take<H: HasTable<A>>(
        &mut self,
        rt: &impl Wait,
        alloc: A,
        frame: &mut Frame<H, A>,
        by: TakeBy<'_>,
    ) -> Result<(), Fault>
    where
        A: Copy,
        requires each { OwnsEach frame.old self.old }
        requires unlocked { IsUnlocked frame.old }
        ensures stands { KeepsStanding frame.old frame.new self.old self.new }
        ensures took { OnOk result (TakesTop (TookLate by.entry frame.old) frame.new self.old self.new) }
        ensures refused { IfErr result (TakesNot (TookLate by.entry frame.old) frame.old frame.new self.old
            (length self.old - 2) (length self.old - 1)) }
        ensures keeps { OnErr result (Keeps frame.old frame.new) }
        ensures unchanged { OnErr result (self.new ≡ self.old) }
        ensures waited { IfErr result (λ fault. fault ≢ faults.Busy) }
    {
        let len = self.len();
        if len < 2 {
            return Err(Fault::NoSuchPlace);
        }
        match take_at(rt, alloc, frame, &mut self.handles, len - 2, by, len - 1) {
            Err(fault) => Err(fault),
            Ok(()) => {
                drop_last(frame, &mut self.handles);
                Ok(())
            }
        }
    }

    /// The top goes into this place, counted from the first, and what was there is released. NoSuchPlace where there is
    /// no such place below the top: a refusal changes nothing.
    #[inline(always)]
    pub fn store<H: HasTable<A>>(
        &mut self,
        frame: &mut Frame<H, A>,
        index: usize,
    ) -> Result<(), Fault>
        requires each { OwnsEach frame.old self.old }
        requires unlocked { IsUnlocked frame.old }
        ensures stands { KeepsStanding frame.old frame.new self.old self.new }
        ensures stored { OnOk result (Stores frame.old frame.new self.old self.new index) }
        ensures refused { IfErr result (λ fault. (fault ≡ faults.NoSuchPlace) × (frame.new ≡ frame.old)) }
        ensures none { OnErr result (length self.old ≤ index + 1) }
        ensures unchanged { OnErr result (self.new ≡ self.old) }
    {
        if index >= self.len().saturating_sub(1) {
            return Err(Fault::NoSuchPlace);
        }
        let Some(handle) = self.pop(frame) else {
            unreachable!()
        };
        fill(frame, &mut self.handles, index, handle);
        Ok(())
    }

    /// The number of the integer on top, which stays; it is refused as `int_at` is.
    #[inline(always)]
    pub fn int<H: HasTable<A>>(&self, rt: &impl Wait, frame: &mut Frame<H, A>) -> Result<i64, Fault>
        requires each { OwnsEach frame.old self.now }
        requires unlocked { IsUnlocked frame.old }
        ensures stands { KeepsStanding frame.old frame.new self.now self.now }
        ensures read { ReadsPlace frame.old frame.new self.now (length self.now - 1)
            (λ k answer. Late frame.old k (λ mid. IntOf mid frame.new k answer)) result }
        ensures waited { IfErr result (λ fault. fault ≢ faults.Busy) }
    {
        let top = self.len().saturating_sub(1);
        int_at(rt, frame, &self.handles, top)
    }

    /// All of them are released, the first one first: the thread only lets go.
    pub fn release_all<H: HasTable<A>>(self, frame: &mut Frame<H, A>)
        requires each { OwnsEach frame.old self }
        requires unlocked { IsUnlocked frame.old }
        ensures count { frame.new.len + filled self ≡ frame.old.len }
        ensures owns { (h : HandleSeen) → Owns frame.old h → IsApart h self → Owns frame.new h }
        ensures heap { frame.new.heap ≡ frame.old.heap }
        ensures unlocked { IsUnlocked frame.new }
        ensures quiet { Quietly frame.old.seat.log frame.new.seat.log }
    {
        let Stack { handles } = self;
        handles.release_all(frame);
    }
}
