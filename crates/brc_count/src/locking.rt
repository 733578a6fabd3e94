//! A frame while it has an object locked: the locking, references to the object's entries, and the unlocking by a
//! change.
//!
//! A reference passes between threads through the entries of a locked object alone, and an unlocking moves it there or
//! back in the one event that unlocks. So nothing is counted here, but by `up_entry`.

ghost use Rattle.std.specs.Prelude.{◌≡◌, ◌≢◌, ◌+◌, ◌<◌, ◌++◌, ℕ, [], ◌∷◌, Some, None, true, is_some, length, remove};
ghost use Rattle.std.specs.Prelude.{slice_get, slice_set, IfOk, IfErr, IfSome, IfNone};
ghost use Rattle.brc_words.specs.Kinds.{is_container};
ghost use Rattle.brc_words.specs.declared.limits.TheConstants.{MOST_ENTRIES, MOST_PLACES};
ghost use Rattle.brc_table.specs.law.declared.world.event.Change.TheVariants as changes;
ghost use Rattle.brc_table.specs.law.declared.world.event.Source.TheVariants as sources;
ghost use Rattle.brc_table.specs.law.rule.Keys.{keys_in, KeyPut};
ghost use Rattle.brc_table.specs.law.rule.Logs.{entries_in, kind_in};
ghost use Rattle.brc_table.specs.Shown.{contents_of};
ghost use Rattle.brc_count.specs.Frames.{Owns, handle_at, IsActive, GivenHandle, Refused, IsAsBefore, IsUnlocked};
ghost use Rattle.brc_count.specs.Frames.{popped_seen};
ghost use Rattle.brc_count.specs.Locking.{IsLocked, cell_in, place_locked, cell_locked, contents_found, entries_found};
ghost use Rattle.brc_count.specs.Locking.{keys_found, KeepsThread, KeepsFrame, ChangesPlace, KeepsLock, Began, Busy};
ghost use Rattle.brc_count.specs.Locking.{UnlockedBy, PutsNone, TakesNone, SwapsFresh};

use crate::frame::Frame;
use crate::handle::Handle;
use crate::held::PlaceEntry;
use crate::holdings::Holdings;
use brc_biased::HasTable;
use brc_table::block::Block;
use brc_table::law::world::{Change, Dropped, Source};
use brc_words::Fault;
use std::alloc::Allocator;
use std::mem;

impl<H: HasTable<A>, A: Allocator> Holdings<H, A> {
    /// Locks the object in a place, and answers its block; None where it is found locked.
    #[inline(always)]
    pub(crate) fn begin(&mut self, place: u32) -> Option<Block<A>>
        requires filled { is_some (cell_in self.old place) ≡ true }
        requires active { IsActive self.old }
        requires unlocked { IsUnlocked self.old }
        ensures began { IfSome result (Began self.old self.new place) }
        ensures busy { IfNone result (Busy self.old self.new place) }
        ensures keeps { KeepsThread self.old self.new }
        ensures frame { KeepsFrame self.old self.new }
    {
        let cell = self.filled_cell(place);
        let Ok(block) = self.counter.lock(place, cell) else {
            return None;
        };
        Some(block)
    }

    /// The next place gets a reference to an entry of the locked object; the answer is that place.
    #[inline(always)]
    pub(crate) fn up_entry(&mut self, index: u32, cell: u32) -> u32
        requires active { IsActive self.old }
        requires locked { IsLocked self.old }
        requires entry { slice_get (entries_found self.old) index ≡ Some cell }
        requires room { 0 < self.old.spare }
        requires low { self.old.next < MOST_PLACES }
        ensures heap { self.new.heap ≡ self.old.heap }
        ensures given { GivenHandle self.old self.new (sources.Entry index) cell
            (handle_at self.new result) }
        ensures popped { popped_seen self.new ≡ popped_seen self.old }
        ensures lock { KeepsLock self.old self.new }
    {
        self.fill(Source::Entry(index), cell)
    }

    /// Unlocks, and changes nothing.
    #[inline(always)]
    pub(crate) fn end_keep(&mut self, block: Block<A>)
        requires active { IsActive self.old }
        requires locked { IsLocked self.old }
        requires of_cell { cell_locked self.old ≡ Some block.0 }
        requires same { contents_of block.1 ≡ contents_found self.old }
        ensures ended { UnlockedBy self.old self.new changes.Keep block }
        ensures frame { KeepsFrame self.old self.new }
    {
        self.counter.unlock(block, Change::Keep);
    }

    /// Unlocks, and a place's reference becomes the last entry.
    #[inline(always)]
    pub(crate) fn end_put(&mut self, block: Block<A>, place: u32)
        requires active { IsActive self.old }
        requires locked { IsLocked self.old }
        requires of_cell { cell_locked self.old ≡ Some block.0 }
        requires filled { is_some (cell_in self.old place) ≡ true }
        requires apart { place_locked self.old ≢ Some place }
        requires container { is_container (kind_in (contents_found self.old)) ≡ true }
        requires few { length (entries_found self.old) < MOST_ENTRIES }
        requires same_kind { kind_in (contents_of block.1) ≡ kind_in (contents_found self.old) }
        requires entries { (c : ℕ) → cell_in self.old place ≡ Some c →
            entries_in (contents_of block.1) ≡ entries_found self.old ++ c ∷ [] }
        requires keys { KeyPut (contents_found self.old) (contents_of block.1) }
        ensures ended { UnlockedBy self.old self.new (changes.Put place) block }
        ensures places { ChangesPlace self.old self.new place None }
        ensures len { self.new.len + 1 ≡ self.old.len }
    {
        self.counter.unlock(block, Change::Put(place));
        let _held = self.places.take(place);
    }

    /// Unlocks, and an entry's reference is the next place's; the answer is that place.
    #[inline(always)]
    pub(crate) fn end_take(&mut self, block: Block<A>, index: u32, cell: u32) -> u32
        requires active { IsActive self.old }
        requires locked { IsLocked self.old }
        requires of_cell { cell_locked self.old ≡ Some block.0 }
        requires entry { slice_get (entries_found self.old) index ≡ Some cell }
        requires room { 0 < self.old.spare }
        requires low { self.old.next < MOST_PLACES }
        requires container { is_container (kind_in (contents_found self.old)) ≡ true }
        requires same_kind { kind_in (contents_of block.1) ≡ kind_in (contents_found self.old) }
        requires entries { entries_in (contents_of block.1) ≡ remove (entries_found self.old) index }
        requires keys { keys_in (contents_of block.1) ≡ remove (keys_found self.old) index }
        ensures next { result ≡ self.old.next }
        ensures vacant { cell_in self.old result ≡ None }
        ensures ended { UnlockedBy self.old self.new (changes.Take index result) block }
        ensures places { ChangesPlace self.old self.new result (Some cell) }
        ensures len { self.new.len ≡ self.old.len + 1 }
    {
        let place = self.places.next();
        self.counter.unlock(block, Change::Take { index, place });
        // Whether its state has risen wasn't looked at since the place has it, so its release will look.
        self.places.fill(place, PlaceEntry { cell, risen: false });
        place
    }

    /// Unlocks, and an entry's reference and a place's are exchanged.
    #[inline(always)]
    pub(crate) fn end_swap(&mut self, block: Block<A>, index: u32, cell: u32, place: u32)
        requires active { IsActive self.old }
        requires locked { IsLocked self.old }
        requires of_cell { cell_locked self.old ≡ Some block.0 }
        requires entry { slice_get (entries_found self.old) index ≡ Some cell }
        requires filled { is_some (cell_in self.old place) ≡ true }
        requires apart { place_locked self.old ≢ Some place }
        requires container { is_container (kind_in (contents_found self.old)) ≡ true }
        requires same_kind { kind_in (contents_of block.1) ≡ kind_in (contents_found self.old) }
        requires entries { (c : ℕ) → cell_in self.old place ≡ Some c →
            entries_in (contents_of block.1) ≡ slice_set (entries_found self.old) index c }
        requires keys { keys_in (contents_of block.1) ≡ keys_found self.old }
        ensures ended { UnlockedBy self.old self.new (changes.Swap index place) block }
        ensures places { ChangesPlace self.old self.new place (Some cell) }
        ensures len { self.new.len ≡ self.old.len }
        ensures spare { self.new.spare ≡ self.old.spare }
        ensures next { self.new.next ≡ self.old.next }
        ensures active { IsActive self.new }
    {
        self.counter.unlock(block, Change::Swap { index, place });
        self.places
            .replace(place, PlaceEntry { cell, risen: false });
    }

    /// Unlocks, and a place's reference, which is to None, becomes the last entry. The place has another to None at once:
    /// None is immortal, so nothing is counted.
    #[inline(always)]
    pub(crate) fn end_put_none(&mut self, block: Block<A>, place: u32)
        requires active { IsActive self.old }
        requires locked { IsLocked self.old }
        requires of_cell { cell_locked self.old ≡ Some block.0 }
        requires none { cell_in self.old place ≡ Some 0 }
        requires apart { place_locked self.old ≢ Some place }
        requires container { is_container (kind_in (contents_found self.old)) ≡ true }
        requires few { length (entries_found self.old) < MOST_ENTRIES }
        requires same_kind { kind_in (contents_of block.1) ≡ kind_in (contents_found self.old) }
        requires entries { entries_in (contents_of block.1) ≡ entries_found self.old ++ 0 ∷ [] }
        requires keys { KeyPut (contents_found self.old) (contents_of block.1) }
        ensures ended { PutsNone self.old self.new place block }
        ensures frame { KeepsFrame self.old self.new }
    {
        self.places.replace(
            place,
            PlaceEntry {
                cell: 0,
                risen: false,
            },
        );
        self.counter.unlock(block, Change::Put(place));
        let _risen = self.counter.up(Source::Immortal(0), place, 0);
    }

    /// Unlocks, and an entry's reference is the place's, which had one to None; the next place gets one to None. The
    /// answer is that place.
    #[inline(always)]
    pub(crate) fn end_swap_fresh(
        &mut self,
        block: Block<A>,
        index: u32,
        cell: u32,
        place: u32,
    ) -> u32
        requires active { IsActive self.old }
        requires locked { IsLocked self.old }
        requires of_cell { cell_locked self.old ≡ Some block.0 }
        requires entry { slice_get (entries_found self.old) index ≡ Some cell }
        requires none { cell_in self.old place ≡ Some 0 }
        requires apart { place_locked self.old ≢ Some place }
        requires room { 0 < self.old.spare }
        requires low { self.old.next < MOST_PLACES }
        requires container { is_container (kind_in (contents_found self.old)) ≡ true }
        requires same_kind { kind_in (contents_of block.1) ≡ kind_in (contents_found self.old) }
        requires entries { entries_in (contents_of block.1) ≡ slice_set (entries_found self.old) index 0 }
        requires keys { keys_in (contents_of block.1) ≡ keys_found self.old }
        ensures swapped { SwapsFresh self.old self.new index place cell block (handle_at self.new result) }
    {
        self.end_swap(block, index, cell, place);
        self.fill(Source::Immortal(0), 0)
    }

    /// Unlocks, and an entry's reference, which is to None, goes: through the next place, which is vacant again at once.
    #[inline(always)]
    pub(crate) fn end_take_none(&mut self, block: Block<A>, index: u32)
        requires active { IsActive self.old }
        requires locked { IsLocked self.old }
        requires of_cell { cell_locked self.old ≡ Some block.0 }
        requires entry { slice_get (entries_found self.old) index ≡ Some 0 }
        requires low { self.old.next < MOST_PLACES }
        requires container { is_container (kind_in (contents_found self.old)) ≡ true }
        requires same_kind { kind_in (contents_of block.1) ≡ kind_in (contents_found self.old) }
        requires entries { entries_in (contents_of block.1) ≡ remove (entries_found self.old) index }
        requires keys { keys_in (contents_of block.1) ≡ remove (keys_found self.old) index }
        ensures ended { TakesNone self.old self.new index block }
        ensures frame { KeepsFrame self.old self.new }
    {
        let place = self.places.next();
        self.counter.unlock(block, Change::Take { index, place });
        if let Some(gone) = self.counter.give_up(Dropped::Frame(place), 0, false) {
            self.works.push(gone);
        }
    }
}

impl<H: HasTable<A>, A: Allocator> Frame<H, A> {
    /// Locks the handle's object and answers its block, which an `end` takes back; None where it is found locked.
    #[inline(always)]
    pub fn begin(&mut self, handle: &Handle<A>) -> Option<Block<A>>
        requires owned { Owns self.old handle.now }
        requires unlocked { IsUnlocked self.old }
        ensures began { IfSome result (Began self.old self.new handle.now.place) }
        ensures busy { IfNone result (Busy self.old self.new handle.now.place) }
        ensures keeps { KeepsThread self.old self.new }
        ensures frame { KeepsFrame self.old self.new }
    {
        self.holdings.begin(handle.place)
    }

    /// Makes sure of the next place, for a handle that is given while an object is locked. FrameFull where all 65,536
    /// are taken, looked at first; OutOfMemory where a place, or memory for it, can't be had.
    #[inline(always)]
    pub fn place(&mut self) -> Result<(), Fault>
        ensures room { IfOk result (λ ok. 0 < self.new.spare) }
        ensures low { IfOk result (λ ok. self.new.next < MOST_PLACES) }
        ensures refused { IfErr result (Refused self.old) }
        ensures same { IsAsBefore self.old self.new }
    {
        let _place = self.holdings.reserve()?;
        Ok(())
    }

    /// A handle to an entry of the locked object, counted up in one event. It takes no memory: `place` made sure of it.
    #[inline(always)]
    pub fn up_entry(&mut self, index: u32, cell: u32) -> Handle<A>
        requires locked { IsLocked self.old }
        requires entry { slice_get (entries_found self.old) index ≡ Some cell }
        requires room { 0 < self.old.spare }
        requires low { self.old.next < MOST_PLACES }
        ensures heap { self.new.heap ≡ self.old.heap }
        ensures given { GivenHandle self.old self.new (sources.Entry index) cell result }
        ensures lock { KeepsLock self.old self.new }
    {
        let place = self.holdings.up_entry(index, cell);
        self.handle(place)
    }

    /// Unlocks the object whose block this is, and changes nothing.
    #[inline(always)]
    pub fn end_keep(&mut self, block: Block<A>)
        requires locked { IsLocked self.old }
        requires of_cell { cell_locked self.old ≡ Some block.0 }
        requires same { contents_of block.1 ≡ contents_found self.old }
        ensures ended { UnlockedBy self.old self.new changes.Keep block }
        ensures frame { KeepsFrame self.old self.new }
    {
        self.holdings.end_keep(block);
    }

    /// Unlocks the object whose block this is; the handle's reference is its last entry now.
    #[inline(always)]
    pub fn end_put(&mut self, block: Block<A>, handle: Handle<A>)
        requires locked { IsLocked self.old }
        requires of_cell { cell_locked self.old ≡ Some block.0 }
        requires owned { Owns self.old handle }
        requires apart { place_locked self.old ≢ Some handle.place }
        requires container { is_container (kind_in (contents_found self.old)) ≡ true }
        requires few { length (entries_found self.old) < MOST_ENTRIES }
        requires same_kind { kind_in (contents_of block.1) ≡ kind_in (contents_found self.old) }
        requires entries { (c : ℕ) → cell_in self.old handle.place ≡ Some c →
            entries_in (contents_of block.1) ≡ entries_found self.old ++ c ∷ [] }
        requires keys { KeyPut (contents_found self.old) (contents_of block.1) }
        ensures ended { UnlockedBy self.old self.new (changes.Put handle.place) block }
        ensures places { ChangesPlace self.old self.new handle.place None }
        ensures len { self.new.len + 1 ≡ self.old.len }
    {
        self.holdings.end_put(block, handle.into_place());
    }

    /// Unlocks the object whose block this is; the reference of an entry, of which the cell is told, is the handle's
    /// now, and later entries have closed up. It takes no memory: `place` made sure of it.
    #[inline(always)]
    pub fn end_take(&mut self, block: Block<A>, index: u32, cell: u32) -> Handle<A>
        requires locked { IsLocked self.old }
        requires of_cell { cell_locked self.old ≡ Some block.0 }
        requires entry { slice_get (entries_found self.old) index ≡ Some cell }
        requires room { 0 < self.old.spare }
        requires low { self.old.next < MOST_PLACES }
        requires container { is_container (kind_in (contents_found self.old)) ≡ true }
        requires same_kind { kind_in (contents_of block.1) ≡ kind_in (contents_found self.old) }
        requires entries { entries_in (contents_of block.1) ≡ remove (entries_found self.old) index }
        requires keys { keys_in (contents_of block.1) ≡ remove (keys_found self.old) index }
        ensures heap { result.heap ≡ self.old.heap }
        ensures thread { result.thread ≡ self.old.seat.thread }
        ensures next { result.place ≡ self.old.next }
        ensures vacant { cell_in self.old result.place ≡ None }
        ensures ended { UnlockedBy self.old self.new (changes.Take index result.place) block }
        ensures places { ChangesPlace self.old self.new result.place (Some cell) }
        ensures len { self.new.len ≡ self.old.len + 1 }
    {
        let place = self.holdings.end_take(block, index, cell);
        self.handle(place)
    }

    /// Unlocks the object whose block this is; the references of an entry, of which the cell is told, and of the handle
    /// are exchanged. The answer is the same handle.
    #[inline(always)]
    pub fn end_swap(
        &mut self,
        block: Block<A>,
        index: u32,
        cell: u32,
        handle: Handle<A>,
    ) -> Handle<A>
        requires locked { IsLocked self.old }
        requires of_cell { cell_locked self.old ≡ Some block.0 }
        requires entry { slice_get (entries_found self.old) index ≡ Some cell }
        requires owned { Owns self.old handle }
        requires apart { place_locked self.old ≢ Some handle.place }
        requires container { is_container (kind_in (contents_found self.old)) ≡ true }
        requires same_kind { kind_in (contents_of block.1) ≡ kind_in (contents_found self.old) }
        requires entries { (c : ℕ) → cell_in self.old handle.place ≡ Some c →
            entries_in (contents_of block.1) ≡ slice_set (entries_found self.old) index c }
        requires keys { keys_in (contents_of block.1) ≡ keys_found self.old }
        ensures same { result ≡ handle }
        ensures ended { UnlockedBy self.old self.new (changes.Swap index handle.place) block }
        ensures places { ChangesPlace self.old self.new handle.place (Some cell) }
        ensures len { self.new.len ≡ self.old.len }
    {
        self.holdings.end_swap(block, index, cell, handle.place);
        handle
    }

    /// Unlocks the object whose block this is; its last entry has a reference to None now, which was the handle's. The
    /// handle has another at once, so that one handle to None serves for all that is put.
    #[inline(always)]
    pub fn end_put_none(&mut self, block: Block<A>, none: &Handle<A>)
        requires locked { IsLocked self.old }
        requires of_cell { cell_locked self.old ≡ Some block.0 }
        requires owned { Owns self.old none.now }
        requires none { cell_in self.old none.now.place ≡ Some 0 }
        requires apart { place_locked self.old ≢ Some none.now.place }
        requires container { is_container (kind_in (contents_found self.old)) ≡ true }
        requires few { length (entries_found self.old) < MOST_ENTRIES }
        requires same_kind { kind_in (contents_of block.1) ≡ kind_in (contents_found self.old) }
        requires entries { entries_in (contents_of block.1) ≡ entries_found self.old ++ 0 ∷ [] }
        requires keys { KeyPut (contents_found self.old) (contents_of block.1) }
        ensures ended { PutsNone self.old self.new none.now.place block }
        ensures frame { KeepsFrame self.old self.new }
    {
        self.holdings.end_put_none(block, none.place);
    }

    /// Unlocks the object whose block this is; a reference to None, which an entry has, and the handle's are exchanged. So
    /// the world stays as it is.
    #[inline(always)]
    pub fn end_swap_none(&mut self, block: Block<A>, index: u32, none: &Handle<A>)
        requires locked { IsLocked self.old }
        requires of_cell { cell_locked self.old ≡ Some block.0 }
        requires entry { slice_get (entries_found self.old) index ≡ Some 0 }
        requires owned { Owns self.old none.now }
        requires none { cell_in self.old none.now.place ≡ Some 0 }
        requires apart { place_locked self.old ≢ Some none.now.place }
        requires container { is_container (kind_in (contents_found self.old)) ≡ true }
        requires same_kind { kind_in (contents_of block.1) ≡ kind_in (contents_found self.old) }
        requires entries { entries_in (contents_of block.1) ≡ slice_set (entries_found self.old) index 0 }
        requires keys { keys_in (contents_of block.1) ≡ keys_found self.old }
        ensures ended { UnlockedBy self.old self.new (changes.Swap index none.now.place) block }
        ensures frame { KeepsFrame self.old self.new }
    {
        self.holdings.end_swap(block, index, 0, none.place);
    }

    /// Unlocks the object whose block this is; the reference of an entry, of which the cell is told, and the handle's to
    /// None are exchanged. The answer has the entry's; the handle has another to None, in the next place: `place` made sure
    /// of it.
    #[inline(always)]
    pub fn end_swap_fresh(
        &mut self,
        block: Block<A>,
        index: u32,
        cell: u32,
        none: &mut Handle<A>,
    ) -> Handle<A>
        requires locked { IsLocked self.old }
        requires of_cell { cell_locked self.old ≡ Some block.0 }
        requires entry { slice_get (entries_found self.old) index ≡ Some cell }
        requires owned { Owns self.old none.old }
        requires none { cell_in self.old none.old.place ≡ Some 0 }
        requires apart { place_locked self.old ≢ Some none.old.place }
        requires room { 0 < self.old.spare }
        requires low { self.old.next < MOST_PLACES }
        requires container { is_container (kind_in (contents_found self.old)) ≡ true }
        requires same_kind { kind_in (contents_of block.1) ≡ kind_in (contents_found self.old) }
        requires entries { entries_in (contents_of block.1) ≡ slice_set (entries_found self.old) index 0 }
        requires keys { keys_in (contents_of block.1) ≡ keys_found self.old }
        ensures same { result ≡ none.old }
        ensures swapped { SwapsFresh self.old self.new index none.old.place cell block none.new }
    {
        let place = self.holdings.end_swap_fresh(block, index, cell, none.place);
        let fresh = self.handle(place);
        mem::replace(none, fresh)
    }

    /// Unlocks the object whose block this is; the reference of an entry, which was one to None, is gone, and later
    /// entries have closed up. No handle is given.
    #[inline(always)]
    pub fn end_take_none(&mut self, block: Block<A>, index: u32)
        requires locked { IsLocked self.old }
        requires of_cell { cell_locked self.old ≡ Some block.0 }
        requires entry { slice_get (entries_found self.old) index ≡ Some 0 }
        requires low { self.old.next < MOST_PLACES }
        requires container { is_container (kind_in (contents_found self.old)) ≡ true }
        requires same_kind { kind_in (contents_of block.1) ≡ kind_in (contents_found self.old) }
        requires entries { entries_in (contents_of block.1) ≡ remove (entries_found self.old) index }
        requires keys { keys_in (contents_of block.1) ≡ remove (keys_found self.old) index }
        ensures ended { TakesNone self.old self.new index block }
        ensures frame { KeepsFrame self.old self.new }
    {
        self.holdings.end_take_none(block, index);
    }
}
