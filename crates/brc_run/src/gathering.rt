//! The ends of a script's threads, which the root takes in.

ghost use Rattle.std.specs.Prelude.{◌≡◌, ◌<◌, ◌≤◌, ◌++◌, ◌∷◌, [], All, Some, IfSome, IsSomeAnd, length, map};
ghost use Rattle.std.specs.Prelude.{reverse, vec_capacity};
ghost use Rattle.brc_run.specs.Runs.{IsReady, RootTakesIn, life_of};

use crate::crew::Done;
use brc_heap::{Heap, Resting, Retired, Root};
use brc_section::SectionEnd;
use std::alloc::Allocator;
use std::sync::Wait;

/// The ends so far and one more, if all are there.
fn with_end<A: Allocator>(
    ends: Option<Vec<SectionEnd<A>, A>>,
    end: Option<SectionEnd<A>>,
) -> Option<Vec<SectionEnd<A>, A>>
    requires room { IfSome ends (λ ends. length ends.items < vec_capacity ends) }
    ensures more { IfSome result
        (λ after. IsSomeAnd ends (λ before. IsSomeAnd end (λ one. after.items ≡ before.items ++ one ∷ []))) }
    ensures room { IfSome result (λ after. IsSomeAnd ends (λ before. vec_capacity after ≡ vec_capacity before)) }
{
    let mut ends = ends?;
    ends.push_reserved(end?);
    Some(ends)
}

/// Takes in one thread.
#[tactic(auto, using(crate::proofs::Taken::takes_none, crate::proofs::Taken::takes_gathered))]
fn gather_one<A: Allocator>(heap: &Heap<A>, root: &mut Root<A>, retired: Retired<A>)
    requires heap { root.old.table ≡ heap.now.table }
    requires same_heap { retired.heap ≡ heap.now }
    ensures { RootTakesIn root.old root.new 0 ((retired.seat.thread, retired.seat.log) ∷ []) }
{
    root.gather(heap, retired);
}

/// Takes in each thread, in order, and answers how the sections ended; None where no thread could be had for one.
#[tactic(auto, using(crate::proofs::One_Heap::first_done, crate::proofs::One_Heap::others_done, crate::proofs::One_Heap::gathers_first, crate::proofs::One_Heap::gathers_last))]
pub(crate) fn gather_all<A: Allocator>(
    heap: &Heap<A>,
    root: &mut Root<A>,
    done: Vec<Done<A>, A>,
    ends: Vec<SectionEnd<A>, A>,
) -> Option<Vec<SectionEnd<A>, A>>
    requires heap { root.old.table ≡ heap.now.table }
    requires same_heap { All (λ one. one.retired.heap ≡ heap.now) done.items }
    requires none { ends.items ≡ [] }
    requires room { length done.items ≤ vec_capacity ends }

    ensures gathered { RootTakesIn root.old root.new 0 (reverse (map life_of done.items)) }
    ensures ends { IfSome result (λ ends. map (λ one. one.end) done.items ≡ map Some ends.items) }
{
    let mut ends = Some(ends);
    for one in done {
        let Done { retired, end } = one;
        gather_one(heap, root, retired);
        ends = with_end(ends, end);
    }
    ends
}

/// A thread that was registered, and never ran, ends.
fn dismiss<A: Allocator>(rt: &impl Wait, heap: &Heap<A>, root: &mut Root<A>, resting: Resting<A>)
    requires heap { root.old.table ≡ heap.now.table }
    requires same_heap { resting.heap ≡ heap.now }
    ensures heap { root.new.table ≡ root.old.table }
{
    let mutator = resting.wake(heap);
    let _ledger = mutator.settle_and_join(rt, root, heap);
}

/// Threads that were registered, and never ran, end.
#[tactic(auto, using(crate::proofs::One_Heap::first_at, crate::proofs::One_Heap::others_at))]
pub(crate) fn dismiss_all<A: Allocator>(
    rt: &impl Wait,
    heap: &Heap<A>,
    root: &mut Root<A>,
    crew: Vec<Resting<A>, A>,
)
    requires heap { root.old.table ≡ heap.now.table }
    requires ready { All (IsReady heap.now) crew.items }
    ensures heap { root.new.table ≡ root.old.table }
{
    for resting in crew {
        dismiss(rt, heap, root, resting);
    }
}
