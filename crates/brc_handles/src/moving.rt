//! One place of many handles, beside the frame that owns each of them: a handle comes out, goes in, or changes places.
//!
//! None of these does anything to the frame. It is there so that each says what the frame owns.

ghost use Rattle.std.specs.Prelude.{◌≡◌, ◌≢◌, ◌≤◌, ◌+◌, ◌⊎◌, ℕ, Some, None, [], ◌∷◌, ◌++◌, OnOk, OnErr, IfOk, IfErr};
ghost use Rattle.std.specs.Prelude.{IfSome, IfNone, MatchOption, length, slice_set};
ghost use Rattle.brc_words.specs.declared.fault.Fault.TheVariants.{NoSuchPlace};
ghost use Rattle.brc_count.specs.Frames.{HandleSeen, Owns};
ghost use Rattle.brc_handles.specs.Handles.{slot, filled, IsApart, OwnsEach, Swapped};
ghost use Rattle.brc_handles.specs.Standing.{Stands, Besides};

use crate::handles::Handles;
use brc_count::biased::HasTable;
use brc_count::{Frame, HandedBack, Handle};
use brc_words::Fault;
use std::alloc::Allocator;

impl<A: Allocator> Handles<A> {
    /// The handle out of this place, which is empty then; None where it was empty before, or there is no such place.
    #[inline(always)]
    pub fn take_out<H: HasTable<A>>(
        &mut self,
        frame: &Frame<H, A>,
        index: usize,
    ) -> Option<Handle<A>>
        requires each { OwnsEach frame.now self.old }

        ensures stands { (others : ℕ) → Stands others frame.now self.old
            → MatchOption result (Stands others frame.now self.new) (Besides others frame.now self.new) }
        ensures each { OwnsEach frame.now self.new }
        ensures owned { IfSome result (Owns frame.now) }
        ensures loose { IfSome result (λ handle. IsApart handle self.new) }
        ensures count { IfSome result (λ handle. filled self.new + 1 ≡ filled self.old) }
        ensures apart { (h : HandleSeen) → IsApart h self.old → IsApart h self.new }

        ensures taken { result ≡ slot self.old index }
        ensures set { IfSome result (λ handle. self.new ≡ slice_set self.old index None) }
        ensures unchanged { IfNone result (self.new ≡ self.old) }
    {
        if index >= self.len() {
            return None;
        }
        self.take(index)
    }

    /// The handle into this place. The answer is what was there: a handle, or nothing. NoSuchPlace where there is no
    /// such place: the handle is handed back.
    #[inline(always)]
    pub fn put_in<H: HasTable<A>>(
        &mut self,
        frame: &Frame<H, A>,
        index: usize,
        handle: Handle<A>,
    ) -> Result<Option<Handle<A>>, HandedBack<Handle<A>>>
        requires each { OwnsEach frame.now self.old }
        requires owned { Owns frame.now handle }
        requires apart { IsApart handle self.old }

        ensures stands { (others : ℕ) → Besides others frame.now self.old handle
            → IfOk result (λ was. MatchOption was (Stands others frame.now self.new)
            (Besides others frame.now self.new)) }
        ensures each { OwnsEach frame.now self.new }
        ensures owned { IfOk result (λ was. IfSome was (Owns frame.now)) }
        ensures loose { IfOk result (λ was. IfSome was (λ gone. IsApart gone self.new)) }
        ensures count { IfOk result (λ was. MatchOption was (filled self.new ≡ filled self.old + 1)
            (λ gone. filled self.new ≡ filled self.old)) }
        ensures apart { (h : HandleSeen) → h.place ≢ handle.place → IsApart h self.old → IsApart h self.new }

        ensures taken { IfOk result (λ was. was ≡ slot self.old index) }
        ensures set { OnOk result (self.new ≡ slice_set self.old index (Some handle)) }
        ensures refused { IfErr result (λ handed. handed.fault ≡ NoSuchPlace) }
        ensures past { OnErr result (length self.old ≤ index) }
        ensures back { IfErr result (λ handed. handed.value ≡ handle) }
        ensures unchanged { OnErr result (self.new ≡ self.old) }
    {
        if index >= self.len() {
            return Err(HandedBack {
                fault: Fault::NoSuchPlace,
                value: handle,
            });
        }
        Ok(self.put(index, handle))
    }

    /// The last place goes. The answer is what was in it: a handle, or nothing. None where there is no place.
    #[inline(always)]
    pub fn pop_out<H: HasTable<A>>(&mut self, frame: &Frame<H, A>) -> Option<Option<Handle<A>>>
        requires each { OwnsEach frame.now self.old }

        ensures stands { (others : ℕ) → Stands others frame.now self.old → IfSome result (λ last.
            MatchOption last (Stands others frame.now self.new) (Besides others frame.now self.new)) }
        ensures each { OwnsEach frame.now self.new }
        ensures owned { IfSome result (λ last. IfSome last (Owns frame.now)) }
        ensures loose { IfSome result (λ last. IfSome last (λ handle. IsApart handle self.new)) }
        ensures count { IfSome result (λ last. MatchOption last (filled self.new ≡ filled self.old)
            (λ handle. filled self.new + 1 ≡ filled self.old)) }
        ensures apart { (h : HandleSeen) → IsApart h self.old → IsApart h self.new }
        ensures beside { IfSome result (λ last. IfSome last (λ handle.
            (h : HandleSeen) → IsApart h self.old → h.place ≢ handle.place)) }

        ensures popped { IfSome result (λ last. self.old ≡ self.new ++ last ∷ []) }
        ensures none { IfNone result ((self.old ≡ []) × (self.new ≡ [])) }
    {
        self.pop()
    }

    /// Each of two places has then what the other had. NoSuchPlace where one of them isn't there: nothing is changed.
    #[inline(always)]
    pub fn swap<H: HasTable<A>>(
        &mut self,
        frame: &Frame<H, A>,
        one: usize,
        other: usize,
    ) -> Result<(), Fault>
        requires each { OwnsEach frame.now self.old }

        ensures stands { (others : ℕ) → Stands others frame.now self.old → Stands others frame.now self.new }
        ensures each { OwnsEach frame.now self.new }
        ensures count { filled self.new ≡ filled self.old }
        ensures apart { (h : HandleSeen) → IsApart h self.old → IsApart h self.new }

        ensures swapped { OnOk result (Swapped self.old self.new one other) }
        ensures len { length self.new ≡ length self.old }
        ensures refused { IfErr result (λ fault. fault ≡ NoSuchPlace) }
        ensures past { OnErr result ((length self.old ≤ one) ⊎ (length self.old ≤ other)) }
        ensures unchanged { OnErr result (self.new ≡ self.old) }
    {
        if one >= self.slots.len() || other >= self.slots.len() {
            return Err(Fault::NoSuchPlace);
        }
        self.slots.swap(one, other);
        Ok(())
    }
}
