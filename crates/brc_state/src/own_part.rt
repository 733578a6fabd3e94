//! A thread's own part: which one cell it means with a step, and whether the step fits its frame, its popped bits, its
//! worklist and the object that it has locked.

ghost use Rattle.std.specs.Prelude.{◌≡◌};
ghost use Rattle.law.specs.world.Heap.{frame_at, popped_at, row_at};
ghost use Rattle.law.specs.world.Steps.{cell_in_hand, target_at, is_vacant, may_begin_closing, is_unlocked, untie_ok};
ghost use Rattle.law.specs.world.Steps.{own_ok_at, locked_at};
ghost use Rattle.brc_state.specs.OwnPart.{source_at, dropped_at, last_at, locked_entries_at, close_ok_at, change_ok_at};

use crate::conditions::{closes_next, opens_next};
use crate::tables::Tables;
use brc_words::{MOST_BIRTHS, MOST_ENTRIES, MOST_PLACES, is_mortal_kind};
use law::world::{Change, Dropped, Hand, LastDropped, Source, Step, is_immortal, words_for};
use std::alloc::Allocator;

/// The cell in the hand.
#[inline(always)]
fn cell_in_hand(hand: Hand) -> Option<u32>
    ensures { result ≡ cell_in_hand hand }
{
    match hand {
        Hand::Free => None,
        Hand::Busy(_, cell) => Some(cell),
    }
}

/// Whether the place isn't the locked one.
#[inline(always)]
fn is_unlocked(locked: Option<u32>, place: u32) -> bool
    ensures { result ≡ is_unlocked locked place }
{
    match locked {
        None => true,
        Some(there) => there != place,
    }
}

impl<A: Allocator + Copy> Tables<A> {
    // ---- which cell a step means

    /// The cell that the thread has locked.
    #[inline(always)]
    pub(crate) fn locked_cell(&self, thread: u32) -> Option<u32>
        ensures { result ≡ locked_at self.now thread }
    {
        match self.row(thread).locked {
            Some(place) => self.place(thread, place),
            None => None,
        }
    }

    /// The cell that a source names.
    #[inline(always)]
    fn source_cell(&self, thread: u32, source: Source) -> Option<u32>
        ensures { result ≡ source_at self.now thread source }
    {
        match source {
            Source::Frame(place) => self.place(thread, place),
            Source::Entry(index) => match self.locked_cell(thread) {
                Some(cell) => self.entry(cell, index),
                None => None,
            },
            Source::Immortal(cell) => { if is_immortal(cell) { Some(cell) } else { None } }
        }
    }

    /// The cell whose reference goes.
    #[inline(always)]
    fn dropped_cell(&self, thread: u32, dropped: Dropped) -> Option<u32>
        ensures { result ≡ dropped_at self.now thread dropped }
    {
        match dropped {
            Dropped::Frame(place) => self.place(thread, place),
            Dropped::Work(cell) => {
                if self.is_on_worklist(thread, cell) {
                    self.last_entry(cell)
                } else {
                    None
                }
            }
        }
    }

    /// The cell whose reference the shared word alone counts down.
    #[inline(always)]
    fn last_cell(&self, thread: u32, last: LastDropped) -> Option<u32>
        ensures { result ≡ last_at self.now thread last }
    {
        match last {
            LastDropped::Dropped(dropped) => self.dropped_cell(thread, dropped),
            LastDropped::Popped(cell) => Some(cell),
            LastDropped::Hand => cell_in_hand(self.row(thread).hand),
        }
    }

    /// The one cell that the step means.
    #[inline(always)]
    pub fn target(&self, thread: u32, step: Step) -> Option<u32>
        ensures { result ≡ target_at self.now thread step }
    {
        match step {
            Step::Claim(cell) => Some(cell),
            Step::InitLocal(cell) => Some(cell),
            Step::InitShared(cell) => Some(cell),
            Step::Birth { cell, .. } => Some(cell),
            Step::LocalUp { source, .. } => self.source_cell(thread, source),
            Step::LocalDown(dropped) => self.dropped_cell(thread, dropped),
            Step::SeeZero(cell) => Some(cell),
            Step::Free(cell) => Some(cell),
            Step::Untie(cell) => Some(cell),
            Step::MergeZero(cell) => Some(cell),
            Step::SharedUp { source, .. } => self.source_cell(thread, source),
            Step::SharedDown(dropped) => self.dropped_cell(thread, dropped),
            Step::Ask(dropped) => self.dropped_cell(thread, dropped),
            Step::LastDown(last) => self.last_cell(thread, last),
            Step::Enqueue(cell) => Some(cell),
            Step::Drain(_) => None,
            Step::MergeAdd(cell) => Some(cell),
            Step::Close(_) => None,
            Step::Nudge { .. } => None,
            Step::Wake => None,
            Step::Lock(place) => self.place(thread, place),
            Step::Unlock(_) => self.locked_cell(thread),
            Step::Register(_) => None,
            Step::Gather(_) => None,
            Step::Offer(cell) => Some(cell),
            Step::Reopen(_) => None,
        }
    }

    // ---- whether a step fits

    /// Whether the place is one of a frame, and vacant.
    #[inline(always)]
    fn is_vacant(&self, thread: u32, place: u32) -> bool
        ensures { result ≡ is_vacant (frame_at self.now thread) place }
    {
        place < MOST_PLACES && self.place(thread, place).is_none()
    }

    /// The entries of the object that the thread has locked.
    fn locked_entries(&self, thread: u32) -> &[u32]
        ensures { result.now ≡ locked_entries_at self.now thread }
    {
        match self.locked_cell(thread) {
            Some(cell) => self.entries(cell),
            None => &[],
        }
    }

    /// Whether the change fits the thread's frame and the locked object's entries.
    fn change_ok(&self, thread: u32, change: Change) -> bool
        ensures { result ≡ change_ok_at self.now thread change }
    {
        let locked = self.row(thread).locked;
        let count = self.locked_entries(thread).len();
        match change {
            Change::Keep => true,
            Change::Put(place) => {
                count < MOST_ENTRIES as usize
                    && self.place(thread, place).is_some()
                    && is_unlocked(locked, place)
            }
            Change::Take { index, place } => {
                (index as usize) < count
                    && self.is_vacant(thread, place)
                    && is_unlocked(locked, place)
            }
            Change::Swap { index, place } => {
                (index as usize) < count
                    && self.place(thread, place).is_some()
                    && is_unlocked(locked, place)
            }
        }
    }

    /// Whether a hand that is free has a popped entry to deal with.
    #[inline(always)]
    fn untie_ok(&self, thread: u32, cell: u32) -> bool
        ensures { result ≡ untie_ok (row_at self.now thread).hand
            (popped_at self.now thread) cell }
    {
        match self.row(thread).hand {
            Hand::Free => self.is_popped(thread, cell),
            Hand::Busy(_, _) => true,
        }
    }

    /// Whether closing may begin or go on with this queue word. All popped bits are looked at
    /// before the first.
    fn may_begin_closing(&self, thread: u32, word: u32) -> bool
        ensures { result ≡ may_begin_closing (popped_at self.now thread) word }
    {
        0 < word || self.has_popped_nothing(thread)
    }

    /// Whether the thread may close the queue word.
    fn close_ok(&self, thread: u32, word: u32) -> bool
        ensures { result ≡ close_ok_at self.now thread word }
    {
        (word as usize) < words_for(self.cells.len())
            && closes_next(self.row(thread).stage, word)
            && self.is_bare(thread)
            && self.may_begin_closing(thread, word)
    }

    /// What the thread's own part must be besides.
    #[inline(always)]
    pub(crate) fn own_ok(&self, thread: u32, step: Step) -> bool
        ensures { result ≡ own_ok_at self.now thread step }
    {
        match step {
            Step::Claim(_) => self.row(thread).allocs < MOST_BIRTHS,
            Step::Birth { kind, place, .. } => {
                is_mortal_kind(kind) && self.is_vacant(thread, place)
            }
            Step::LocalUp { place, .. } => self.is_vacant(thread, place),
            Step::Free(cell) => self.is_on_worklist(thread, cell) && self.has_no_entries(cell),
            Step::Untie(cell) => self.untie_ok(thread, cell),
            Step::SharedUp { place, .. } => self.is_vacant(thread, place),
            Step::LastDown(LastDropped::Popped(cell)) => self.is_popped(thread, cell),
            Step::Drain(word) => (word as usize) < words_for(self.cells.len()),
            Step::Close(word) => self.close_ok(thread, word),
            Step::Unlock(change) => self.change_ok(thread, change),
            Step::Offer(cell) => !self.is_on_worklist(thread, cell),
            Step::Reopen(word) => {
                (word as usize) < words_for(self.cells.len())
                    && opens_next(self.row(thread).stage, word)
            }
            _ => true,
        }
    }
}
