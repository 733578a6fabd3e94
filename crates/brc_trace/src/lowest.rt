//! The lowest place or cell of a thread that keeps it from a step.

ghost use Rattle.std.specs.Prelude.{◌≡◌};
ghost use Rattle.law.specs.world.Steps.{is_owned_by as owned_by};
ghost use Rattle.brc_trace.specs.Lowest.{is_sought as so_of, end_of as where_it_ends, lowest_at};

use brc_core::World;
use brc_words::Owner;
use std::alloc::Allocator;

/// What is sought of a thread.
#[derive(Clone, Copy, Debug, PartialEq, Eq)]
pub(crate) enum SoughtThread {
    /// A place of its frame that has a cell.
    Filled,
    /// A cell that it has popped and not dealt with.
    Popped,
    /// A cell on its worklist.
    Work,
    /// A cell that it owns and that isn't on its worklist.
    Owned,
}

/// Whether the thread owns what has this owner.
pub(crate) fn is_owned_by(thread: u32, owner: Owner) -> bool
    ensures { result ≡ owned_by thread owner }
{
    match owner {
        Owner::Nobody => false,
        Owner::Thread(there) => there == thread,
        Owner::Claimed(_) => false,
        Owner::Free => false,
    }
}

/// Whether the place or cell with this number is one that is sought.
fn is_sought<A: Allocator + Copy>(
    world: &World<A>,
    thread: u32,
    sought: SoughtThread,
    number: u32,
) -> bool
    ensures { result ≡ so_of world.now thread sought number }
{
    match sought {
        SoughtThread::Filled => world.place(thread, number).is_some(),
        SoughtThread::Popped => world.popped(thread, number),
        SoughtThread::Work => world.on_worklist(thread, number),
        SoughtThread::Owned => {
            is_owned_by(thread, world.cell(number).owner) && !world.on_worklist(thread, number)
        }
    }
}

/// The numbers below this one are those of its places, or of all cells.
fn end_of<A: Allocator + Copy>(world: &World<A>, thread: u32, sought: SoughtThread) -> u32
    ensures { result ≡ where_it_ends world.now thread sought }
{
    match sought {
        SoughtThread::Filled => world.places(thread),
        SoughtThread::Popped => world.cells(),
        SoughtThread::Work => world.cells(),
        SoughtThread::Owned => world.cells(),
    }
}

/// The lowest place or cell that is sought.
pub(crate) fn lowest<A: Allocator + Copy>(
    world: &World<A>,
    thread: u32,
    sought: SoughtThread,
) -> Option<u32>
    ensures { result ≡ lowest_at world.now thread sought }
{
    let end = end_of(world, thread, sought);
    for number in 0..end {
        if is_sought(world, thread, sought, number) {
            return Some(number);
        }
    }
    None
}
