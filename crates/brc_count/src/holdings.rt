//! What one thread holds of the heap: references in places, popped entries of its merge queue, and dead blocks.

ghost use Rattle.std.specs.Prelude.{◌≡◌, ◌≢◌, ◌+◌, ◌-◌, ◌<◌, ◌≤◌, ℕ, [], replicate, IfOk, IfErr, OnOk, IfSome, IfNone, OnSome, Some};
ghost use Rattle.std.specs.Prelude.{None, true, false, is_some, IsTrue, IsFalse, ◌⊎◌, length};
ghost use Rattle.brc_words.specs.declared.limits.TheConstants.{MOST_PLACES};
ghost use Rattle.brc_table.specs.law.declared.world.event.Step.TheVariants as steps;
ghost use Rattle.brc_table.specs.law.world.Heap.{words_for};
ghost use Rattle.brc_table.specs.law.world.Steps.{is_active, lock_ok};
ghost use Rattle.brc_table.specs.law.known.Items.{meant};
ghost use Rattle.brc_biased.specs.Bounded.{IsBounded};
ghost use Rattle.brc_biased.specs.Standing.{may_give_up};
ghost use Rattle.brc_table.specs.law.rule.Seen.{part_seen};
ghost use Rattle.brc_table.specs.Seated.{Continues};
ghost use Rattle.brc_count.specs.Closing.{IsFirst};
ghost use Rattle.brc_count.specs.Locking.{LetsNoneGo};
ghost use Rattle.brc_count.specs.Frames.{IsActive, MayGiveUp, SourceFits, SourceNames, place_seen, locked_place};
ghost use Rattle.brc_count.specs.Frames.{GivenHandle};
ghost use Rattle.brc_count.specs.Frames.{IsFull, Refused, ReleasedOf, handle_at, IsAsBefore, KeepsRest, ledger_seen};
ghost use Rattle.brc_biased.specs.Counter.{CountsMore};
ghost use Rattle.brc_count.specs.Frames.{CountedDown, HasSpare, popped_seen, IsUnlocked, KeepsButStart, first_word, word_asked};

use crate::frame_places::Places;
use crate::held::PlaceEntry;
use crate::ledger::Ledger;
use crate::start::ClaimStart;
use brc_biased::{Counter, HasTable};
use brc_table::block::Worklist;
use brc_table::law::world::{Dropped, Source};
use brc_words::{Fault, MOST_PLACES};
use std::alloc::Allocator;
use std::marker::Model;

/// A thread's counter, the places of its frame, its dead blocks with the last that died in front, one word of popped
/// entries for each of its queue words, what it has made and given back, and where its claims begin.
pub(crate) struct Holdings<H: HasTable<A>, A: Allocator> {
    pub(crate) counter: Counter<H, A>,
    pub(crate) places: Places<A>,
    pub(crate) works: Worklist<A>,
    pub(crate) popped: Vec<u64, A>,
    pub(crate) ledger: Ledger,
    pub(crate) start: ClaimStart,
}

impl<H: HasTable<A>, A: Allocator> Model for Holdings<H, A> {
    ghost use Rattle.brc_count.specs.Places.{held_in, spare_in};
    ghost use Rattle.brc_count.specs.Frames.{FrameSeen, Holding};

    ghost Value = { FrameSeen A };

    ghost view = { λ f. record {
      heap = f.counter.heap;
      seat = f.counter.seat;
      len = held_in f.places;
      spare = spare_in f.places;
      next = f.places.next;
      works = f.works;
      from = f.start.from;
      near = f.start.near;
    } };

    ghost invariant = { λ f. Holding A f.counter.heap f.counter.seat f.places f.works f.popped.items f.ledger };
}

impl<H: HasTable<A>, A: Allocator> Holdings<H, A> {
    #[tactic(auto, using(crate::proofs::Changes::opening))]
    /// Nothing is held yet.
    pub(crate) fn new(alloc: A, counter: Counter<H, A>, popped: Vec<u64, A>) -> Self
        requires new { IsFirst counter.seat.log }
        requires bare { counter.seat.slots ≡ [] }
        requires blank { popped.items ≡ replicate (words_for counter.heap.cells) 0 }
        ensures heap { result.heap ≡ counter.heap }
        ensures seat { result.seat ≡ counter.seat }
        ensures none { (result.len ≡ 0) × (result.works ≡ []) }
        ensures first { (result.from ≡ first_word) × (result.near ≡ false) }
    {
        Holdings {
            counter,
            places: Places::new(alloc),
            works: Worklist::new(),
            popped,
            ledger: Ledger {
                allocs: 0,
                frees: 0,
            },
            start: ClaimStart::first(),
        }
    }

    /// Claims begin with the word of this cell from now on, and near the last ones, or not.
    pub(crate) fn claim_at(&mut self, cell: u32, near: bool)
        ensures from { self.new.from ≡ word_asked self.old.heap.cells cell }
        ensures near { self.new.near ≡ near }
        ensures same { KeepsButStart self.old self.new }
    {
        let cells = self.counter.home().table().cells();
        self.start = ClaimStart::at(cell, cells, near);
    }

    /// What the thread has made, and given back.
    pub(crate) fn ledger(&self) -> Ledger
        ensures { result ≡ ledger_seen self.now }
    {
        self.ledger
    }

    /// Whether no place is filled, and no block is to be taken apart.
    pub(crate) fn is_idle(&self) -> bool
        ensures idle { IsTrue result → (self.now.len ≡ 0) × (self.now.works ≡ []) }
        ensures busy { IsFalse result → (0 < self.now.len) ⊎ (0 < length self.now.works) }
    {
        self.places.is_empty() && self.works.is_empty()
    }

    /// The cell to which a place has a reference.
    #[inline(always)]
    pub(crate) fn cell(&self, place: u32) -> Option<u32>
        ensures has { place_seen self.now.heap.cells self.now.seat.log place ≡ result }
        ensures inside { IfSome result (λ cell. cell < self.now.heap.cells) }
    {
        match self.places.get(place) {
            Some(held) => Some(held.cell),
            None => None,
        }
    }

    /// The cell to which a place that is filled has a reference.
    #[inline(always)]
    pub(crate) fn filled_cell(&self, place: u32) -> u32
        requires filled { is_some (place_seen self.now.heap.cells self.now.seat.log place) ≡ true }
        ensures has { place_seen self.now.heap.cells self.now.seat.log place ≡ Some result }
        ensures inside { result < self.now.heap.cells }
    {
        self.places.cell(place)
    }

    /// Whether there are 65,536 handles.
    #[inline(always)]
    pub(crate) fn is_full(&self) -> bool
        ensures full { IsTrue result → IsFull self.now }
        ensures few { IsFalse result → ¬ IsFull self.now }
    {
        self.places.len() >= MOST_PLACES as usize
    }

    /// Whether a place is left, with memory or without: else there are 65,536 handles.
    #[inline(always)]
    pub(crate) fn has_vacant(&self) -> bool
        ensures low { IsTrue result → self.now.next < MOST_PLACES }
        ensures full { IsFalse result → IsFull self.now }
    {
        self.places.has_vacant()
    }

    /// The next place, if it can be filled as it is: it is below 65,536, and its memory is there.
    #[inline(always)]
    pub(crate) fn spare_place(&self) -> Option<u32>
        ensures place { IfSome result (λ place. place ≡ self.now.next) }
        ensures spare { OnSome result (HasSpare self.now) }
        ensures none { IfNone result (¬ HasSpare self.now) }
    {
        if self.places.has_spare() {
            Some(self.places.next())
        } else {
            None
        }
    }

    /// Has memory ready for the next place; false where it can't be had, or there are 65,536 handles.
    #[inline(always)]
    pub(crate) fn has_room(&mut self) -> bool
        ensures room { IsTrue result → 0 < self.new.spare }
        ensures low { IsTrue result → self.old.next < MOST_PLACES }
        ensures same { IsAsBefore self.old self.new }
    {
        self.places.has_spare() || self.places.grow()
    }

    /// Makes sure that the next place can be filled: FrameFull where there are 65,536 handles, which comes first;
    /// OutOfMemory where there are fewer, and memory for more places can't be had.
    #[inline(always)]
    pub(crate) fn reserve(&mut self) -> Result<(), Fault>
        ensures room { OnOk result (0 < self.new.spare) }
        ensures low { OnOk result (self.old.next < MOST_PLACES) }
        ensures refused { IfErr result (Refused self.old) }
        ensures same { IsAsBefore self.old self.new }
    {
        // It is asked for where no room is there, and of the frame before.
        let full = self.is_full();
        if self.has_room() {
            return Ok(());
        }
        if full {
            Err(Fault::FrameFull)
        } else {
            Err(Fault::OutOfMemory)
        }
    }

    /// The next place gets a reference to the source's cell; the answer is that place.
    #[inline(always)]
    pub(crate) fn fill(&mut self, source: Source, cell: u32) -> u32
        requires inside { cell < self.old.heap.cells }
        requires low { self.old.next < MOST_PLACES }
        requires room { 0 < self.old.spare }
        requires active { IsActive self.old }
        requires fits { SourceFits source self.old }
        requires named { SourceNames source cell self.old }
        ensures heap { self.new.heap ≡ self.old.heap }
        ensures given { GivenHandle self.old self.new source cell (handle_at self.new result) }
        ensures popped { popped_seen self.new ≡ popped_seen self.old }
    {
        let place = self.places.next();
        let risen = self.counter.up(source, place, cell);
        self.places.fill(place, PlaceEntry { cell, risen });
        place
    }

    /// A place's reference goes; where the object ends, its block is on the front of the worklist.
    #[inline(always)]
    pub(crate) fn release(&mut self, place: u32)
        requires filled { place_seen self.old.heap.cells self.old.seat.log place ≢ None }
        requires stage { MayGiveUp self.old }
        requires unlocked { IsUnlocked self.old }
        ensures heap { self.new.heap ≡ self.old.heap }
        ensures released { (c : ℕ) → place_seen self.old.heap.cells self.old.seat.log place ≡ Some c →
            ReleasedOf self.old self.new place c }
        ensures bounded { IsBounded self.old.seat.log self.new.seat.log }
        ensures seat { Continues self.old.seat self.new.seat }
        ensures len { self.new.len + 1 ≡ self.old.len }
        ensures rest { KeepsRest self.old self.new }
        ensures popped { popped_seen self.new ≡ popped_seen self.old }
    {
        let held = self.places.take(place);
        let drop = Dropped::Frame(place);
        if let Some(block) = self.counter.give_up(drop, held.cell, held.risen) {
            self.works.push(block);
        }
    }
}

impl<H: HasTable<A>, A: Allocator> Holdings<H, A> {
    /// A place's reference, which is to None, goes. None is immortal, so nothing is counted, and nothing ends.
    #[inline(always)]
    pub(crate) fn release_none(&mut self, place: u32)
        requires none { place_seen self.old.heap.cells self.old.seat.log place ≡ Some 0 }
        requires stage { MayGiveUp self.old }
        requires unlocked { IsUnlocked self.old }
        ensures gone { LetsNoneGo self.old self.new place }
        ensures len { self.new.len + 1 ≡ self.old.len }
    {
        let _held = self.places.take(place);
        if let Some(gone) = self.counter.give_up(Dropped::Frame(place), 0, false) {
            self.works.push(gone);
        }
    }

    /// A place's reference goes, if it is one of several that the thread counts; else nothing is done.
    #[inline(always)]
    pub(crate) fn release_counted(&mut self, place: u32) -> bool
        requires filled { place_seen self.old.heap.cells self.old.seat.log place ≢ None }
        requires stage { MayGiveUp self.old }
        requires unlocked { IsUnlocked self.old }
        ensures heap { self.new.heap ≡ self.old.heap }
        ensures counts { IsTrue result → (c : ℕ) → place_seen self.old.heap.cells self.old.seat.log place ≡ Some c →
            CountsMore self.old.heap.cells self.old.seat.log c }
        ensures other { IsFalse result → (c : ℕ) → place_seen self.old.heap.cells self.old.seat.log place ≡ Some c →
            ¬ CountsMore self.old.heap.cells self.old.seat.log c }
        ensures told { IsTrue result → (c : ℕ) → place_seen self.old.heap.cells self.old.seat.log place ≡ Some c →
            CountedDown self.old self.new place c }
        ensures released { IsTrue result → (c : ℕ) → place_seen self.old.heap.cells self.old.seat.log place ≡ Some c →
            ReleasedOf self.old self.new place c }
        ensures bounded { IsBounded self.old.seat.log self.new.seat.log }
        ensures seat { Continues self.old.seat self.new.seat }
        ensures len { IsTrue result → self.new.len + 1 ≡ self.old.len }
        ensures rest { KeepsRest self.old self.new }
        ensures popped { popped_seen self.new ≡ popped_seen self.old }
        ensures unchanged { IsFalse result → self.new ≡ self.old }
    {
        let cell = self.places.cell(place);
        let Some(count) = self.counter.several(cell) else {
            return false;
        };
        // The place is vacated first, as in `release`.
        let _gone = self.places.take(place);
        self.counter
            .give_up_counted(Dropped::Frame(place), cell, count);
        true
    }
}

impl<H: HasTable<A> + Drop, A: Allocator> Holdings<H, A> {
    /// Drops all of it.
    pub(crate) fn abandon(self) {
        let Holdings {
            counter,
            places: _places,
            works,
            popped: _popped,
            ledger: _ledger,
            start: _start,
        } = self;
        let _counter = counter.rest();
        give_all_back(works);
    }
}

/// The memory of each block is given back.
fn give_all_back<A: Allocator>(works: Worklist<A>) {
    let mut works = works;
    while let Some(block) = works.pop() {
        let _payload = block.into_payload();
    }
    works.end();
}
