//! The other threads: they are registered, started, joined and gathered.

ghost use Rattle.std.specs.Prelude.{◌≡◌, ◌≤◌, ◌+◌, [], All, length, vec_capacity, vec_len};
ghost use Rattle.std.specs.Vec.Iter.{into_iter_items};
ghost use Rattle.brc_heap.specs.Words.{IsUnlocked, Keeps};

use crate::crowd::counted::{Counted, Want};
use crate::crowd::finding::finds;
use crate::crowd::gate::Gate;
use crate::crowd::lives::{Done, start};
use brc_heap::{Heap, Mutator, Resting, Root};
use std::alloc::Global;
use std::sync::Wait;
use std::thread::{Scope, Threads};
use std::vec::IntoIter;

/// How many there are beside the first thread.
pub(crate) const OTHERS: usize = 63;

/// They are registered, in order, and rest until each is started. Where one can't be had, those before it are there.
pub(crate) fn register_all(
    alloc: Global,
    heap: &Heap,
    root: &mut Root,
    crew: &mut Vec<Resting>,
) -> Counted
    requires root { root.old.table ≡ heap.now.table }
    requires none { crew.old.items ≡ [] }
    requires room { OTHERS ≤ vec_capacity crew.old }
    ensures root { root.new.table ≡ root.old.table }
    ensures crew { All (λ resting. resting.heap ≡ heap.now) crew.new.items }
    ensures few { length crew.new.items ≤ OTHERS }
{
    for _ in 0..OTHERS {
        let Ok(mutator) = root.register(alloc, heap) else {
            return Counted::wanting(Want::Mutator);
        };
        crew.push_reserved(mutator.rest());
    }
    Counted::NOTHING
}

/// Each that is left is started; once all are, the gate is opened, and the first finds the list as they do; then they
/// are joined. It calls itself, since a handle that waits in a call needs no memory that could be refused meanwhile.
pub(crate) fn live_beside<'s, E: 's, R: Threads + Wait + Sync>(
    rt: &'s R,
    scope: &Scope<'s, E>,
    heap: &'s Heap,
    first: &mut Mutator<'s>,
    crew: IntoIter<Resting>,
    gate: &'s Gate,
    done: &mut Vec<Done>,
) -> Counted
    requires unlocked { IsUnlocked first.old }
    requires crew { All (λ resting. resting.heap ≡ heap.now) (into_iter_items crew) }
    requires done { All (λ one. one.retired.heap ≡ heap.now) done.old.items }
    requires room { vec_len done.old + length (into_iter_items crew) ≤ vec_capacity done.old }
    ensures keeps { Keeps first.old first.new }
    ensures unlocked { IsUnlocked first.new }
    ensures done { All (λ one. one.retired.heap ≡ heap.now) done.new.items }
    ensures more { vec_len done.new ≡ vec_len done.old + length (into_iter_items crew) }
    ensures room { vec_capacity done.new ≡ vec_capacity done.old }
{
    let mut crew = crew;
    let Some(resting) = crew.next() else {
        gate.open(rt);
        return finds(rt, first);
    };
    match start(rt, scope, heap, resting, gate) {
        Ok(handle) => {
            let counted = live_beside(rt, scope, heap, first, crew, gate, done);
            done.push_reserved(handle.join(rt));
            counted
        }
        Err(ended) => {
            done.push_reserved(ended);
            live_beside(rt, scope, heap, first, crew, gate, done)
        }
    }
}

/// Each is gathered: what they counted.
pub(crate) fn gather_all(heap: &Heap, root: &mut Root, done: Vec<Done>) -> Counted
    requires root { root.old.table ≡ heap.now.table }
    requires same_heap { All (λ one. one.retired.heap ≡ heap.now) done.items }
    ensures root { root.new.table ≡ root.old.table }
{
    let mut counted = Counted::NOTHING;
    for one in done {
        root.gather(heap, one.retired);
        counted = counted.and(one.counted);
    }
    counted
}
