//! The guard.

ghost use Rattle.std.specs.Prelude.{◌≡◌, ◌≢◌, ◌<◌, ◌+◌, ◌≤◌, ℕ, Some, None, true, length, slice_get, IfOk, IfErr};
ghost use Rattle.brc_words.specs.Kinds.{is_container};
ghost use Rattle.brc_words.specs.declared.limits.TheConstants.{MOST_PLACES};
ghost use Rattle.brc_count.specs.law.declared.world.event.Change.TheVariants as changes;
ghost use Rattle.brc_count.specs.law.declared.world.event.Source.TheVariants as sources;
ghost use Rattle.brc_count.specs.law.rule.Logs.{kind_in, entries_in};
ghost use Rattle.brc_count.specs.table.Shown.{contents_of};
ghost use Rattle.brc_count.specs.Frames.{Owns, GivenHandle, Refused, IsAsBefore, IsUnlocked};
ghost use Rattle.brc_count.specs.Owned.{Keeps, Gains, Loses};
ghost use Rattle.brc_count.specs.Locking.{KeepsFrame, KeepsLock, ChangesPlace, cell_in};
ghost use Rattle.brc_words.specs.Notes.{bare};
ghost use Rattle.brc_lock.specs.Edits.{with_last, without, replaced, KeyFits};
ghost use Rattle.brc_lock.specs.Holding.{HasLockedBlock, Unlocked, HasRoom, RefusedRoom};

use crate::edits::{make_room, put_last, set_at, take_at};
use brc_count::biased::HasTable;
use brc_count::block::{Block, Payload};
use brc_count::{Frame, Handle};
use brc_words::{Entry, Fault, Key, MOST_ENTRIES};
use std::alloc::Allocator;

/// An object that is locked: its frame, the handle by which it was locked, and its block. It must be unlocked. `B` is
/// `Block<A>`.
pub struct Locked<'f, H: HasTable<A>, A: Allocator, B> {
    pub(crate) frame: &'f mut Frame<H, A>,
    pub(crate) handle: &'f Handle<A>,
    pub(crate) block: B,
}

impl<'f, H: HasTable<A>, A: Allocator> Locked<'f, H, A, Block<A>> {
    pub(crate) fn new(frame: &'f mut Frame<H, A>, handle: &'f Handle<A>, block: Block<A>) -> Self
        ensures same_reference { result.frame.ghost_name ≡ frame.entry.ghost_name }
        ensures frame { result.frame.now ≡ frame.old }
        ensures handle { result.handle.now ≡ handle.now }
        ensures block { result.block ≡ block }
    {
        Locked {
            frame,
            handle,
            block,
        }
    }

    /// What the object holds.
    pub fn payload(&self) -> &Payload<A>
        ensures { result.now ≡ self.now.block.1 }
    {
        self.block.payload()
    }

    /// Makes sure of the next place, for `entry` and `unlock_take`. FrameFull where all 65,536 are taken, looked at
    /// first; OutOfMemory where a place, or memory for it, can't be had.
    pub fn place(&mut self) -> Result<(), Fault>
        requires holds { HasLockedBlock self.old.frame.now self.old.handle.now self.old.block }
        ensures same_reference { self.new.frame.ghost_name ≡ self.old.frame.ghost_name }
        ensures frame { IsAsBefore self.old.frame.now self.new.frame.now }
        ensures keeps { Keeps self.old.frame.now self.new.frame.now }
        ensures handle { self.new.handle.now ≡ self.old.handle.now }
        ensures block { self.new.block ≡ self.old.block }
        ensures holds { HasLockedBlock self.new.frame.now self.new.handle.now self.new.block }
        ensures room { IfOk result (λ ok. 0 < self.new.frame.now.spare) }
        ensures low { IfOk result (λ ok. self.new.frame.now.next < MOST_PLACES) }
        ensures refused { IfErr result (Refused self.old.frame.now) }
    {
        self.frame.place()
    }

    /// A handle to an entry, counted up in one event. It takes no memory: `place` made sure of it.
    pub fn entry(&mut self, index: u32) -> Handle<A>
        requires holds { HasLockedBlock self.old.frame.now self.old.handle.now self.old.block }
        requires there { index < length (entries_in (contents_of self.old.block.1)) }
        requires room { 0 < self.old.frame.now.spare }
        requires low { self.old.frame.now.next < MOST_PLACES }
        ensures same_reference { self.new.frame.ghost_name ≡ self.old.frame.ghost_name }
        ensures given { (c : ℕ) → slice_get (entries_in (contents_of self.old.block.1)) index ≡ Some c
            → GivenHandle self.old.frame.now self.new.frame.now (sources.Entry index) c result }
        ensures heap { self.new.frame.now.heap ≡ self.old.frame.now.heap }
        ensures handle { self.new.handle.now ≡ self.old.handle.now }
        ensures block { self.new.block ≡ self.old.block }
        ensures holds { HasLockedBlock self.new.frame.now self.new.handle.now self.new.block }
        ensures gains { Gains self.old.frame.now self.new.frame.now result }
    {
        let Some(cell) = self.block.payload().entry(index as usize) else {
            unreachable!()
        };
        self.frame.up_entry(index, cell)
    }

    /// Unlocks the object as it was found.
    pub fn unlock(self)
        requires holds { HasLockedBlock self.frame.now self.handle.now self.block }
        ensures unlocks { Unlocked self.entry.frame.now self.exit.0.now changes.Keep self.entry.block.0
            (contents_of self.entry.block.1) }
        ensures frame { KeepsFrame self.entry.frame.now self.exit.0.now }
        ensures keeps { Keeps self.entry.frame.now self.exit.0.now }
        ensures unlocked { IsUnlocked self.exit.0.now }
    {
        let Locked {
            frame,
            handle: _handle,
            block,
        } = self;
        frame.end_keep(block);
    }

    /// Unlocks the object with one entry more, the handle's reference, at the end; of a dictionary beside a key that
    /// isn't in it. `room` made sure of it.
    pub fn unlock_put(self, key: Option<Key<A>>, value: Handle<A>)
        requires holds { HasLockedBlock self.frame.now self.handle.now self.block }
        requires room { HasRoom self.block }
        requires fits { KeyFits (contents_of self.block.1) key }
        requires owned { Owns self.frame.now value }
        requires apart { value.place ≢ self.handle.now.place }
        ensures unlocks { (c : ℕ) → cell_in self.entry.frame.now value.place ≡ Some c →
            Unlocked self.entry.frame.now self.exit.0.now (changes.Put value.place) self.entry.block.0
            (with_last (contents_of self.entry.block.1) key (bare c)) }
        ensures places { ChangesPlace self.entry.frame.now self.exit.0.now value.place None }
        ensures len { self.exit.0.now.len + 1 ≡ self.entry.frame.now.len }
        ensures loses { Loses self.entry.frame.now self.exit.0.now value }
        ensures unlocked { IsUnlocked self.exit.0.now }
    {
        let Locked {
            frame,
            handle: _handle,
            block,
        } = self;
        let mut block = block;
        let entry = Entry::bare(frame.cell(&value));
        put_last(block.payload_mut(), key, entry);
        frame.end_put(block, value);
    }

    /// Unlocks the object with one entry fewer, of a dictionary with its key; its reference is the handle's now.
    /// `place` made sure of it.
    pub fn unlock_take(self, index: u32) -> Handle<A>
        requires holds { HasLockedBlock self.frame.now self.handle.now self.block }
        requires there { index < length (entries_in (contents_of self.block.1)) }
        requires room { 0 < self.frame.now.spare }
        requires low { self.frame.now.next < MOST_PLACES }
        ensures heap { result.heap ≡ self.entry.frame.now.heap }
        ensures thread { result.thread ≡ self.entry.frame.now.seat.thread }
        ensures next { result.place ≡ self.entry.frame.now.next }
        ensures vacant { cell_in self.entry.frame.now result.place ≡ None }
        ensures unlocks { Unlocked self.entry.frame.now self.exit.0.now (changes.Take index result.place)
            self.entry.block.0 (without (contents_of self.entry.block.1) index) }
        ensures places { ChangesPlace self.entry.frame.now self.exit.0.now result.place
            (slice_get (entries_in (contents_of self.entry.block.1)) index) }
        ensures len { self.exit.0.now.len ≡ self.entry.frame.now.len + 1 }
        ensures gains { Gains self.entry.frame.now self.exit.0.now result }
        ensures unlocked { IsUnlocked self.exit.0.now }
    {
        let Locked {
            frame,
            handle: _handle,
            block,
        } = self;
        let mut block = block;
        let entry = take_at(block.payload_mut(), index as usize);
        frame.end_take(block, index, entry.cell)
    }

    /// Unlocks the object with another entry at a place, of a dictionary beside the same key: its reference and the
    /// handle's are exchanged. The answer is the same handle.
    pub fn unlock_swap(self, index: u32, value: Handle<A>) -> Handle<A>
        requires holds { HasLockedBlock self.frame.now self.handle.now self.block }
        requires there { index < length (entries_in (contents_of self.block.1)) }
        requires owned { Owns self.frame.now value }
        requires apart { value.place ≢ self.handle.now.place }
        ensures same { result ≡ value }
        ensures unlocks { (c : ℕ) → cell_in self.entry.frame.now value.place ≡ Some c →
            Unlocked self.entry.frame.now self.exit.0.now (changes.Swap index value.place) self.entry.block.0
            (replaced (contents_of self.entry.block.1) index (bare c)) }
        ensures places { ChangesPlace self.entry.frame.now self.exit.0.now value.place
            (slice_get (entries_in (contents_of self.entry.block.1)) index) }
        ensures len { self.exit.0.now.len ≡ self.entry.frame.now.len }
        ensures keeps { Keeps self.entry.frame.now self.exit.0.now }
        ensures unlocked { IsUnlocked self.exit.0.now }
    {
        let Locked {
            frame,
            handle: _handle,
            block,
        } = self;
        let mut block = block;
        let cell = frame.cell(&value);
        let Some(old) = block.payload().entry(index as usize) else {
            unreachable!()
        };
        let entry = Entry::bare(cell);
        set_at(block.payload_mut(), index as usize, entry);
        frame.end_swap(block, index, old, value)
    }
}

impl<'f, H: HasTable<A>, A: Allocator + Copy> Locked<'f, H, A, Block<A>> {
    /// Makes sure that a list, a dictionary or a mailbox may have an entry more, without memory then. Full where it has
    /// 1,048,576 entries, looked at first; OutOfMemory where memory for one more can't be had.
    pub fn room(&mut self) -> Result<(), Fault>
        requires holds { HasLockedBlock self.old.frame.now self.old.handle.now self.old.block }
        requires container { is_container (kind_in (contents_of self.old.block.1)) ≡ true }
        ensures same_reference { self.new.frame.ghost_name ≡ self.old.frame.ghost_name }
        ensures frame { self.new.frame.now ≡ self.old.frame.now }
        ensures handle { self.new.handle.now ≡ self.old.handle.now }
        ensures contents { contents_of self.new.block.1 ≡ contents_of self.old.block.1 }
        ensures holds { HasLockedBlock self.new.frame.now self.new.handle.now self.new.block }
        ensures room { IfOk result (λ ok. HasRoom self.new.block) }
        ensures refused { IfErr result (RefusedRoom self.old.block) }
    {
        if self.block.payload().len() >= MOST_ENTRIES as usize {
            return Err(Fault::Full);
        }
        match make_room(self.block.payload_mut()) {
            Ok(()) => Ok(()),
            Err(_) => Err(Fault::OutOfMemory),
        }
    }
}
