//! Why a step doesn't fit its thread's own part: which place, entry, cell or queue word isn't as the step needs it.

ghost use Rattle.std.specs.Prelude.{◌≡◌, length};
ghost use Rattle.law.specs.world.Steps.{closes_next as is_next_to_close, opens_next as is_next_to_open};
ghost use Rattle.law.specs.world.Steps.{may_begin_closing as may_begin};
ghost use Rattle.law.specs.world.Steps.{is_closed as has_closed, untie_ok as may_untie, is_unlocked as isnt_locked};
ghost use Rattle.law.specs.world.Heap.{row_at, popped_at};
ghost use Rattle.brc_state.specs.OwnPart.{locked_entries_at};
ghost use Rattle.brc_trace.specs.OwnReasons.{vacancy as vacancy_of, place_reason as place_reason_of};
ghost use Rattle.brc_trace.specs.OwnReasons.{put_reason as put_of, take_reason as take_of, swap_reason as swap_of};
ghost use Rattle.brc_trace.specs.OwnReasons.{change_reason as change_of, free_reason as free_of};
ghost use Rattle.brc_trace.specs.OwnReasons.{close_reason as close_of, reopen_reason as reopen_of};
ghost use Rattle.brc_trace.specs.OwnReasons.{own_reason as own_reason_of, gather_reason as gather_of};
ghost use Rattle.brc_trace.specs.OwnReasons.{root_reason as root_reason_of, own_reason_at as at_event};

use crate::lowest::{SoughtThread, lowest};
use crate::standing::locked_cell;
use brc_core::{Change, Event, Hand, LastDropped, Step, World};
use brc_words::{Kind, MOST_BIRTHS, MOST_ENTRIES, MOST_PLACES, is_mortal_kind};
use law::world::{Stage, words_for};
use std::alloc::Allocator;

/// What of a thread's own part isn't as a step needs it.
#[derive(Clone, Copy, Debug, PartialEq, Eq)]
pub enum OwnReason {
    /// It has made as many objects as one registration may.
    ManyBirths,
    /// Objects of this kind are immortal, and none is born.
    ImmortalKind(Kind),
    /// No frame has this place.
    PlaceTooHigh(u32),
    /// The place has a cell.
    PlaceFilled(u32),
    /// The place has no cell.
    PlaceVacant(u32),
    /// The place is the one whose object is locked.
    PlaceLocked(u32),
    /// The locked object has no such entry.
    NoEntry(u32),
    /// The locked object has as many entries as it may.
    ManyEntries,
    /// The cell, which is to be given back, has entries.
    HasEntries(u32),
    /// The cell isn't on the worklist.
    NotOnWorklist(u32),
    /// The cell is on the worklist.
    OnWorklist(u32),
    /// The thread hasn't popped the cell.
    NotPopped(u32),
    /// No thread has this queue word.
    NoWord(u32),
    /// The queue word is closed already.
    WordClosed(u32),
    /// The queue word is open already.
    WordOpen(u32),
    /// Queue words below this one are to be closed before it.
    NotNextToClose(u32),
    /// Queue words below this one are to be opened before it.
    NotNextToOpen(u32),
    /// A place of the frame still has a cell: the lowest.
    StillFilled(Option<u32>),
    /// A popped cell isn't dealt with: the lowest.
    StillPopped(Option<u32>),
    /// A cell is still on the worklist: the lowest.
    StillWork(Option<u32>),
}

// ---- places

/// Why the place can't be filled; else this.
fn vacancy<A: Allocator + Copy>(
    world: &World<A>,
    thread: u32,
    place: u32,
    next: Option<OwnReason>,
) -> Option<OwnReason>
    ensures { result ≡ vacancy_of world.now thread place next }
{
    if place >= MOST_PLACES {
        Some(OwnReason::PlaceTooHigh(place))
    } else if world.place(thread, place).is_some() {
        Some(OwnReason::PlaceFilled(place))
    } else {
        next
    }
}

/// Whether the place isn't the locked one.
fn is_unlocked(locked: Option<u32>, place: u32) -> bool
    ensures { result ≡ isnt_locked locked place }
{
    match locked {
        None => true,
        Some(there) => there != place,
    }
}

/// Why an unlock can't change what the place has, which is or isn't the locked one.
fn place_reason<A: Allocator + Copy>(world: &World<A>, thread: u32, place: u32) -> Option<OwnReason>
    ensures { result ≡ place_reason_of world.now thread place }
{
    if is_unlocked(world.locked(thread), place) {
        None
    } else {
        Some(OwnReason::PlaceLocked(place))
    }
}

// ---- the locked object

/// How many entries the locked object has.
fn locked_count<A: Allocator + Copy>(world: &World<A>, thread: u32) -> usize
    ensures { result ≡ length (locked_entries_at world.now thread) }
{
    match locked_cell(world, thread) {
        Some(cell) => world.entries(cell).len(),
        None => 0,
    }
}

fn put_reason<A: Allocator + Copy>(world: &World<A>, thread: u32, place: u32) -> Option<OwnReason>
    ensures { result ≡ put_of world.now thread place }
{
    if locked_count(world, thread) >= MOST_ENTRIES as usize {
        Some(OwnReason::ManyEntries)
    } else if world.place(thread, place).is_none() {
        Some(OwnReason::PlaceVacant(place))
    } else {
        place_reason(world, thread, place)
    }
}

fn take_reason<A: Allocator + Copy>(
    world: &World<A>,
    thread: u32,
    index: u32,
    place: u32,
) -> Option<OwnReason>
    ensures { result ≡ take_of world.now thread index place }
{
    if index as usize >= locked_count(world, thread) {
        Some(OwnReason::NoEntry(index))
    } else {
        vacancy(world, thread, place, place_reason(world, thread, place))
    }
}

fn swap_reason<A: Allocator + Copy>(
    world: &World<A>,
    thread: u32,
    index: u32,
    place: u32,
) -> Option<OwnReason>
    ensures { result ≡ swap_of world.now thread index place }
{
    if index as usize >= locked_count(world, thread) {
        Some(OwnReason::NoEntry(index))
    } else if world.place(thread, place).is_none() {
        Some(OwnReason::PlaceVacant(place))
    } else {
        place_reason(world, thread, place)
    }
}

/// Why the change doesn't fit the frame and the locked object's entries.
fn change_reason<A: Allocator + Copy>(
    world: &World<A>,
    thread: u32,
    change: Change,
) -> Option<OwnReason>
    ensures { result ≡ change_of world.now thread change }
{
    match change {
        Change::Keep => None,
        Change::Put(place) => put_reason(world, thread, place),
        Change::Take { index, place } => take_reason(world, thread, index, place),
        Change::Swap { index, place } => swap_reason(world, thread, index, place),
    }
}

// ---- piles

fn free_reason<A: Allocator + Copy>(world: &World<A>, thread: u32, cell: u32) -> Option<OwnReason>
    ensures { result ≡ free_of world.now thread cell }
{
    if !world.on_worklist(thread, cell) {
        Some(OwnReason::NotOnWorklist(cell))
    } else if !world.entries(cell).is_empty() {
        Some(OwnReason::HasEntries(cell))
    } else {
        None
    }
}

/// Whether a hand that is free has a popped entry to deal with.
fn untie_ok<A: Allocator + Copy>(world: &World<A>, thread: u32, cell: u32) -> bool
    ensures { result ≡ may_untie (row_at world.now thread).hand (popped_at world.now thread) cell }
{
    match world.row(thread).hand {
        Hand::Free => world.popped(thread, cell),
        Hand::Busy(_, _) => true,
    }
}

// ---- queue words

/// Whether the queue word is one of those that the thread has closed.
fn is_closed(stage: Stage, word: u32) -> bool
    ensures { result ≡ has_closed stage word }
{
    match stage {
        Stage::Active => false,
        Stage::Closing(closed) => word < closed,
        Stage::Left => true,
        Stage::Opening(opened) => opened <= word,
    }
}

/// Whether the queue word is the next that the thread closes.
fn closes_next(stage: Stage, word: u32) -> bool
    ensures { result ≡ is_next_to_close stage word }
{
    match stage {
        Stage::Active => word == 0,
        Stage::Closing(closed) => word == closed,
        Stage::Left => false,
        Stage::Opening(_) => false,
    }
}

/// Whether the queue word is the next that the thread opens again.
fn opens_next(stage: Stage, word: u32) -> bool
    ensures { result ≡ is_next_to_open stage word }
{
    match stage {
        Stage::Active => false,
        Stage::Closing(_) => false,
        Stage::Left => false,
        Stage::Opening(opened) => word == opened,
    }
}

/// Whether closing may begin or go on with this queue word: before the first nothing popped is left.
fn may_begin_closing<A: Allocator + Copy>(world: &World<A>, thread: u32, word: u32) -> bool
    ensures { result ≡ may_begin (popped_at world.now thread) word }
{
    0 < word || world.has_nothing_popped(thread)
}

/// Why the thread can't close the queue word.
fn close_reason<A: Allocator + Copy>(world: &World<A>, thread: u32, word: u32) -> Option<OwnReason>
    ensures { result ≡ close_of world.now thread word }
{
    let stage = world.row(thread).stage;
    if word as usize >= words_for(world.cells() as usize) {
        return Some(OwnReason::NoWord(word));
    }
    if !closes_next(stage, word) {
        return if is_closed(stage, word) {
            Some(OwnReason::WordClosed(word))
        } else {
            Some(OwnReason::NotNextToClose(word))
        };
    }
    if !world.has_no_place(thread) {
        return Some(OwnReason::StillFilled(lowest(world, thread, SoughtThread::Filled)));
    }
    if !may_begin_closing(world, thread, word) {
        return Some(OwnReason::StillPopped(lowest(world, thread, SoughtThread::Popped)));
    }
    None
}

/// Why the thread can't open the queue word again.
fn reopen_reason<A: Allocator + Copy>(world: &World<A>, thread: u32, word: u32) -> Option<OwnReason>
    ensures { result ≡ reopen_of world.now thread word }
{
    let stage = world.row(thread).stage;
    if word as usize >= words_for(world.cells() as usize) {
        return Some(OwnReason::NoWord(word));
    }
    if opens_next(stage, word) {
        return None;
    }
    if is_closed(stage, word) {
        Some(OwnReason::NotNextToOpen(word))
    } else {
        Some(OwnReason::WordOpen(word))
    }
}

// ---- any step

/// Why the step doesn't fit its thread's own part; none where it does.
fn own_reason<A: Allocator + Copy>(world: &World<A>, thread: u32, step: Step) -> Option<OwnReason>
    ensures { result ≡ own_reason_of world.now thread step }
{
    match step {
        Step::Claim(_) => {
            if world.row(thread).allocs < MOST_BIRTHS {
                None
            } else {
                Some(OwnReason::ManyBirths)
            }
        }
        Step::Birth { kind, place, .. } => {
            if is_mortal_kind(kind) {
                vacancy(world, thread, place, None)
            } else {
                Some(OwnReason::ImmortalKind(kind))
            }
        }
        Step::LocalUp { place, .. } => vacancy(world, thread, place, None),
        Step::Free(cell) => free_reason(world, thread, cell),
        Step::Untie(cell) => {
            if untie_ok(world, thread, cell) {
                None
            } else {
                Some(OwnReason::NotPopped(cell))
            }
        }
        Step::SharedUp { place, .. } => vacancy(world, thread, place, None),
        Step::LastDown(LastDropped::Popped(cell)) => {
            if world.popped(thread, cell) {
                None
            } else {
                Some(OwnReason::NotPopped(cell))
            }
        }
        Step::Drain(word) => {
            if (word as usize) < words_for(world.cells() as usize) {
                None
            } else {
                Some(OwnReason::NoWord(word))
            }
        }
        Step::Close(word) => close_reason(world, thread, word),
        Step::Unlock(change) => change_reason(world, thread, change),
        Step::Offer(cell) => {
            if world.on_worklist(thread, cell) {
                Some(OwnReason::OnWorklist(cell))
            } else {
                None
            }
        }
        Step::Reopen(word) => reopen_reason(world, thread, word),
        _ => None,
    }
}

/// Why the thread that has left can't be gathered, by what it still holds.
fn gather_reason<A: Allocator + Copy>(world: &World<A>, thread: u32) -> Option<OwnReason>
    ensures { result ≡ gather_of world.now thread }
{
    if !world.has_nothing_popped(thread) {
        return Some(OwnReason::StillPopped(lowest(world, thread, SoughtThread::Popped)));
    }
    if !world.has_no_work(thread) {
        return Some(OwnReason::StillWork(lowest(world, thread, SoughtThread::Work)));
    }
    None
}

/// The same of a step of the root.
fn root_reason<A: Allocator + Copy>(world: &World<A>, step: Step) -> Option<OwnReason>
    ensures { result ≡ root_reason_of world.now step }
{
    match step {
        Step::Gather(thread) => gather_reason(world, thread),
        _ => None,
    }
}

/// Why the event doesn't fit the own part of its thread, or of the one that is gathered.
pub(crate) fn own_reason_at<A: Allocator + Copy>(
    world: &World<A>,
    event: Event,
) -> Option<OwnReason>
    ensures { result ≡ at_event world.now event }
{
    if event.thread == 0 {
        root_reason(world, event.step)
    } else {
        own_reason(world, event.thread, event.step)
    }
}
