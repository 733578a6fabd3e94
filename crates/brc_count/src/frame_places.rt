//! The places of a frame: an array, and through it a list of those that are vacant.

ghost use Rattle.std.specs.Prelude.{◌≡◌, ◌≤◌, ◌+◌, ◌<◌, ◌==◌, ℕ, [], Some, None, true, IsTrue, IsFalse, is_some};
ghost use Rattle.brc_words.specs.declared.limits.TheConstants.{MOST_PLACES};
ghost use Rattle.brc_count.specs.PlaceList.{held_by};
ghost use Rattle.brc_count.specs.Places.{held_at, held_in, spare_in, cell_held, Updates};

use crate::held::PlaceEntry;
use brc_words::MOST_PLACES;
use std::alloc::Allocator;
use std::marker::Model;

/// Whether a place has a reference, and whether that was seen queued or merged while the place had it.
#[derive(Clone, Copy)]
enum State {
    Vacant,
    Held,
    Risen,
}

/// A place. A vacant one has the number of the next vacant one, or as many as there are places, if it is the last. Any
/// other has the number of the cell to which it has a reference.
#[derive(Clone, Copy)]
struct Slot {
    state: State,
    number: u32,
}

impl Slot {
    /// The place, as it has this.
    #[inline(always)]
    fn of(held: PlaceEntry) -> Slot
        ensures { held_by result ≡ Some held }
    {
        Slot {
            state: if held.risen {
                State::Risen
            } else {
                State::Held
            },
            number: held.cell,
        }
    }

    /// What it has.
    #[inline(always)]
    fn held(self) -> Option<PlaceEntry>
        ensures { result ≡ held_by self }
    {
        match self.state {
            State::Vacant => None,
            State::Held => Some(PlaceEntry {
                cell: self.number,
                risen: false,
            }),
            State::Risen => Some(PlaceEntry {
                cell: self.number,
                risen: true,
            }),
        }
    }

    /// Whether its reference was seen queued or merged.
    #[inline(always)]
    fn is_risen(self) -> bool
        ensures { is_some (held_by self) ≡ true → held_by self ≡ Some (record { cell = self.number; risen = result }) }
    {
        match self.state {
            State::Risen => true,
            _ => false,
        }
    }
}

/// The places, of which each has a reference or is vacant.
#[derive(Drop)]
pub(crate) struct Places<A: Allocator> {
    slots: Vec<Slot, A>,
    /// The first vacant place, or as many as there are places, if none is vacant.
    next: u32,
    /// How many have a reference.
    len: u32,
}

impl<A: Allocator> Model for Places<A> {
    ghost use Rattle.std.specs.Prelude.{map};
    ghost use Rattle.brc_count.specs.Places.{PlacesSeen};
    ghost use Rattle.brc_count.specs.PlaceList.{held_by, AreLinked};

    ghost Value = { PlacesSeen };

    ghost view = { λ p. record { slots = map held_by p.slots.items; next = p.next } };

    ghost invariant = { λ p. AreLinked p.slots.items p.next p.len };
}

impl<A: Allocator> Places<A> {
    /// No place.
    pub(crate) fn new(alloc: A) -> Self
        ensures none { result.slots ≡ [] }
        ensures first { result.next ≡ 0 }
    {
        Places {
            slots: Vec::new(alloc),
            next: 0,
            len: 0,
        }
    }

    /// How many places have a reference.
    #[inline(always)]
    pub(crate) fn len(&self) -> usize
        ensures { result ≡ held_in self.now }
    {
        self.len as usize
    }

    /// Whether none has.
    #[inline(always)]
    pub(crate) fn is_empty(&self) -> bool
        ensures { result ≡ (held_in self.now == 0) }
    {
        self.len == 0
    }

    /// What the place has; None where it is vacant, or there is no such place.
    #[inline(always)]
    pub(crate) fn get(&self, place: u32) -> Option<PlaceEntry>
        ensures { result ≡ held_at self.now place }
    {
        match self.slots.get(place as usize) {
            Some(there) => there.held(),
            None => None,
        }
    }

    /// The cell to which the place, which isn't vacant, has a reference.
    #[inline(always)]
    pub(crate) fn cell(&self, place: u32) -> u32
        requires filled { is_some (held_at self.now place) ≡ true }
        ensures { cell_held (held_at self.now place) ≡ Some result }
    {
        self.slots[place as usize].number
    }

    /// The place that is filled next.
    #[inline(always)]
    pub(crate) fn next(&self) -> u32
        ensures next { result ≡ self.now.next }
        ensures vacant { held_at self.now result ≡ None }
    {
        self.next
    }

    #[tactic(auto, using(crate::proofs::Place_Lists::inside_few, crate::proofs::Place_Lists::inside_spare))]
    /// Whether it can be filled as it is.
    #[inline(always)]
    pub(crate) fn has_spare(&self) -> bool
        ensures spare { IsTrue result → (0 < spare_in self.now) × (self.now.next < MOST_PLACES) }
        ensures few { IsTrue result → held_in self.now < MOST_PLACES }
        ensures none { IsFalse result → spare_in self.now ≡ 0 }
    {
        (self.next as usize) < self.slots.len()
    }

    /// Whether a place is left, with memory or without: else all 65,536 have something.
    #[inline(always)]
    pub(crate) fn has_vacant(&self) -> bool
        ensures low { IsTrue result → self.now.next < MOST_PLACES }
        ensures full { IsFalse result → MOST_PLACES ≤ held_in self.now }
    {
        self.next < MOST_PLACES
    }

    /// Makes more places; false where there are 65,536, or there is no memory for them.
    #[inline(never)]
    pub(crate) fn grow(&mut self) -> bool
        requires full { spare_in self.old ≡ 0 }
        ensures spare { IsTrue result → (0 < spare_in self.new) × (self.new.next < MOST_PLACES) }
        ensures same { (place : ℕ) → held_at self.new place ≡ held_at self.old place }
        ensures len { held_in self.new ≡ held_in self.old }
        ensures next { self.new.next ≡ self.old.next }
        ensures unchanged { IsFalse result → self.new ≡ self.old }
    {
        let most = MOST_PLACES as usize;
        if self.slots.len() >= most {
            return false;
        }
        let Ok(()) = self.slots.reserve(1) else {
            return false;
        };
        let room = if self.slots.capacity() < most {
            self.slots.capacity()
        } else {
            most
        };
        for at in self.slots.len()..room {
            self.slots.push_reserved(Slot {
                state: State::Vacant,
                number: at as u32 + 1,
            });
        }
        true
    }

    /// The next place, which the caller has looked up, has this. So no store since makes it be loaded again.
    #[inline(always)]
    pub(crate) fn fill(&mut self, place: u32, held: PlaceEntry)
        requires next { place ≡ self.old.next }
        requires spare { 0 < spare_in self.old }
        ensures vacant { held_at self.old place ≡ None }
        ensures updates { Updates self.old self.new place (Some held) }
        ensures len { held_in self.new ≡ held_in self.old + 1 }
    {
        self.next = self.slots[place as usize].number;
        self.len += 1;
        self.slots[place as usize] = Slot::of(held);
    }

    /// The place, which isn't, is vacant; the answer is what it had. It is the next to be filled.
    #[inline(always)]
    pub(crate) fn take(&mut self, place: u32) -> PlaceEntry
        requires filled { is_some (held_at self.old place) ≡ true }
        ensures held { held_at self.old place ≡ Some result }
        ensures updates { Updates self.old self.new place None }
        ensures len { held_in self.new + 1 ≡ held_in self.old }
        ensures next { self.new.next ≡ place }
    {
        let there = self.slots[place as usize];
        self.slots[place as usize] = Slot {
            state: State::Vacant,
            number: self.next,
        };
        self.next = place;
        self.len -= 1;
        PlaceEntry {
            cell: there.number,
            risen: there.is_risen(),
        }
    }

    /// The place, which isn't vacant, has this now.
    #[inline(always)]
    pub(crate) fn replace(&mut self, place: u32, held: PlaceEntry)
        requires filled { is_some (held_at self.old place) ≡ true }
        ensures low { place < MOST_PLACES }
        ensures updates { Updates self.old self.new place (Some held) }
        ensures len { held_in self.new ≡ held_in self.old }
        ensures spare { spare_in self.new ≡ spare_in self.old }
        ensures next { self.new.next ≡ self.old.next }
    {
        self.slots[place as usize] = Slot::of(held);
    }
}
