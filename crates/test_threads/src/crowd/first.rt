//! The first thread, which makes the list: how it rests while the others are gathered, and how it ends.

ghost use Rattle.std.specs.Prelude.{◌≡◌};
ghost use Rattle.brc_heap.specs.Words.{IsUnlocked};

use crate::crowd::counted::{Counted, Want};
use brc_heap::{Heap, Mutator, Resting, Root};
use std::sync::Wait;

/// Its mutator at rest, once it has nothing to take apart: so it comes out of the scope of the others, within which
/// the root isn't at hand.
pub(crate) fn rests(rt: &impl Wait, mutator: Mutator<'_>) -> Resting
    requires bare { mutator.len ≡ 0 }
    requires unlocked { IsUnlocked mutator }
    ensures heap { result.heap ≡ mutator.entry.heap }
{
    let mut mutator = mutator;
    mutator.settle(rt);
    mutator.rest()
}

/// It clears the globals, settles and leaves, and is gathered.
pub(crate) fn ends(rt: &impl Wait, heap: &Heap, root: &mut Root, first: Resting) -> Counted
    requires root { root.old.table ≡ heap.now.table }
    requires same_heap { first.heap ≡ heap.now }
    ensures root { root.new.table ≡ root.old.table }
{
    let mut first = first.wake(heap);
    let cleared = first.clear_globals();
    let _ledger = first.settle_and_join(rt, root, heap);
    match cleared {
        Ok(()) => Counted::NOTHING,
        Err(_) => Counted::wanting(Want::EmptyGlobals),
    }
}
