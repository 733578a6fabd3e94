//! What stands where an event is refused: its thread, and the cell that it means, as the readers of a world tell them.

ghost use Rattle.std.specs.Prelude.{◌≡◌};
ghost use Rattle.law.specs.world.Heap.{entries_at};
ghost use Rattle.law.specs.world.Lists.{last_of};
ghost use Rattle.law.specs.world.Steps.{locked_at, target_at};
ghost use Rattle.brc_trace.specs.Standing.{thread_spoken_of, source_at, dropped_at, last_at, meant_at, cell_seen, seen};

use brc_core::{Dropped, Event, Hand, LastDropped, Source, Status, Step, World};
use brc_words::{Kind, Owner, State};
use law::world::is_immortal;
use std::alloc::Allocator;

/// A cell that an event means: its owner, if it is one of the heap, and what is said of the object in it, if one is
/// there.
#[derive(Clone, Copy, Debug, PartialEq, Eq)]
pub struct Meant {
    pub cell: u32,
    pub owner: Option<Owner>,
    pub kind: Option<Kind>,
    /// The owner's count, until the object is merged.
    pub local: Option<u32>,
    /// The shared count.
    pub count: Option<i64>,
    pub state: Option<State>,
}

/// What stands where an event is refused.
#[derive(Clone, Copy, Debug, PartialEq, Eq)]
pub struct Standing {
    /// How many threads are registered; they have the numbers from 1 on.
    pub registered: u32,
    /// The thread that makes the event, or that the root registers or gathers.
    pub thread: u32,
    /// How far its life is, if it is registered.
    pub status: Option<Status>,
    /// What it carries.
    pub hand: Option<Hand>,
    /// The place whose object it has locked.
    pub locked: Option<u32>,
    /// The cell that the event means, if its thread is registered and it means one.
    pub meant: Option<Meant>,
}

/// The thread that makes the step, or that the root registers or gathers.
fn thread_spoken_of(thread: u32, step: Step) -> u32
    ensures { result ≡ thread_spoken_of thread step }
{
    match step {
        Step::Register(registered) => registered,
        Step::Gather(gathered) => gathered,
        _ => thread,
    }
}

// ---- which cell a step means

/// The cell that the thread has locked.
pub(crate) fn locked_cell<A: Allocator + Copy>(world: &World<A>, thread: u32) -> Option<u32>
    ensures { result ≡ locked_at world.now thread }
{
    match world.locked(thread) {
        Some(place) => world.place(thread, place),
        None => None,
    }
}

/// The cell that a source names.
fn source_cell<A: Allocator + Copy>(world: &World<A>, thread: u32, source: Source) -> Option<u32>
    ensures { result ≡ source_at world.now thread source }
{
    match source {
        Source::Frame(place) => world.place(thread, place),
        Source::Entry(index) => match locked_cell(world, thread) {
            Some(cell) => world.entry(cell, index),
            None => None,
        },
        Source::Immortal(cell) => { if is_immortal(cell) { Some(cell) } else { None } }
    }
}

/// The last entry of the cell's object.
fn last_entry<A: Allocator + Copy>(world: &World<A>, cell: u32) -> Option<u32>
    ensures { result ≡ last_of (entries_at world.now cell) }
{
    let entries = world.entries(cell);
    match entries.get(entries.len().saturating_sub(1)) {
        Some(entry) => Some(*entry),
        None => None,
    }
}

/// The cell whose reference goes.
fn dropped_cell<A: Allocator + Copy>(world: &World<A>, thread: u32, dropped: Dropped) -> Option<u32>
    ensures { result ≡ dropped_at world.now thread dropped }
{
    match dropped {
        Dropped::Frame(place) => world.place(thread, place),
        Dropped::Work(cell) => {
            if world.on_worklist(thread, cell) {
                last_entry(world, cell)
            } else {
                None
            }
        }
    }
}

/// The cell whose reference the shared word alone counts down, where this is in the thread's hand.
fn last_cell<A: Allocator + Copy>(
    world: &World<A>,
    thread: u32,
    hand: Hand,
    last: LastDropped,
) -> Option<u32>
    ensures { result ≡ last_at world.now thread hand last }
{
    match last {
        LastDropped::Dropped(dropped) => dropped_cell(world, thread, dropped),
        LastDropped::Popped(cell) => Some(cell),
        LastDropped::Hand => match hand {
            Hand::Free => None,
            Hand::Busy(_, cell) => Some(cell),
        },
    }
}

/// The one cell that a registered thread means with its step.
pub(crate) fn meant_cell<A: Allocator + Copy>(
    world: &World<A>,
    thread: u32,
    step: Step,
) -> Option<u32>
    ensures { result ≡ meant_at world.now thread step }
{
    let Some(hand) = world.hand(thread) else {
        return None;
    };
    match step {
        Step::Claim(cell) => Some(cell),
        Step::InitLocal(cell) => Some(cell),
        Step::InitShared(cell) => Some(cell),
        Step::Birth { cell, .. } => Some(cell),
        Step::LocalUp { source, .. } => source_cell(world, thread, source),
        Step::LocalDown(dropped) => dropped_cell(world, thread, dropped),
        Step::SeeZero(cell) => Some(cell),
        Step::Free(cell) => Some(cell),
        Step::Untie(cell) => Some(cell),
        Step::MergeZero(cell) => Some(cell),
        Step::SharedUp { source, .. } => source_cell(world, thread, source),
        Step::SharedDown(dropped) => dropped_cell(world, thread, dropped),
        Step::Ask(dropped) => dropped_cell(world, thread, dropped),
        Step::LastDown(last) => last_cell(world, thread, hand, last),
        Step::Enqueue(cell) => Some(cell),
        Step::Drain(_) => None,
        Step::MergeAdd(cell) => Some(cell),
        Step::Close(_) => None,
        Step::Nudge { .. } => None,
        Step::Wake => None,
        Step::Lock(place) => world.place(thread, place),
        Step::Unlock(_) => locked_cell(world, thread),
        Step::Register(_) => None,
        Step::Gather(_) => None,
        Step::Offer(cell) => Some(cell),
        Step::Reopen(_) => None,
    }
}

// ---- what is seen

fn cell_seen<A: Allocator + Copy>(world: &World<A>, cell: u32) -> Meant
    ensures { result ≡ cell_seen world.now cell }
{
    Meant {
        cell,
        owner: world.owner(cell),
        kind: world.kind(cell),
        local: world.local(cell),
        count: world.count(cell),
        state: world.state(cell),
    }
}

/// What stands in the world where the event is to be made.
pub(crate) fn seen<A: Allocator + Copy>(world: &World<A>, event: Event) -> Standing
    ensures { result ≡ seen world.now event }
{
    let thread = thread_spoken_of(event.thread, event.step);
    let meant = match meant_cell(world, event.thread, event.step) {
        Some(cell) => Some(cell_seen(world, cell)),
        None => None,
    };
    Standing {
        registered: world.registered(),
        thread,
        status: world.status(thread),
        hand: world.hand(thread),
        locked: world.locked(thread),
        meant,
    }
}
