//! How a thread of a case leaves, or can't.

ghost use Rattle.std.specs.Prelude.{◌≡◌};
ghost use Rattle.brc_count.specs.Frames.{IsUnlocked};
ghost use Rattle.test_heap.specs.Calls.{OwnsAll};

use crate::tests::came::Came;
use crate::tests::places::all_go;
use crate::tests::playing::Playing;
use crate::tests::steps::Step;
use brc_handles::Handles;
use brc_thread::{Heap, Mutator, Root};
use linked_list_allocator::LocalHeap;
use std::mem;
use std::process::Abort;

/// The thread leaves, after so many turns of work, and the root gathers it; another thread takes its place.
pub(super) fn leaves<'h, 'm>(
    rt: &impl Abort,
    playing: &mut Playing<'m>,
    heap: &'h Heap<&'m LocalHeap>,
    root: &mut Root<&'m LocalHeap>,
    thread: &mut Mutator<&'h Heap<&'m LocalHeap>, &'m LocalHeap>,
    handles: &mut Handles<&'m LocalHeap>,
    step: Step<'_>,
)
    requires all { OwnsAll thread.old handles.old }
    requires heap { thread.old.heap ≡ heap.now }
    requires root { root.old.table ≡ heap.now.table }
    ensures all { OwnsAll thread.new handles.new }
    ensures heap { thread.new.heap ≡ heap.now }
    ensures root { root.new.table ≡ root.old.table }
{
    let ample = playing.memories.ample;
    all_go(ample, thread.frame(), handles);
    let next = root.register(ample, heap).expect(rt, "a thread is refused");
    let old = mem::replace(thread, next);
    let came = ends(rt, playing.case, heap, root, old, step.given.place(rt));
    playing.says(rt, step, came);
}

/// The thread can't leave, and is as before.
pub(super) fn stays<'h, 'm>(
    rt: &impl Abort,
    playing: &Playing<'m>,
    heap: &'h Heap<&'m LocalHeap>,
    root: &mut Root<&'m LocalHeap>,
    thread: &mut Mutator<&'h Heap<&'m LocalHeap>, &'m LocalHeap>,
)
    requires unlocked { IsUnlocked thread.old }
    requires heap { thread.old.heap ≡ heap.now }
    requires root { root.old.table ≡ heap.now.table }
    ensures same { thread.new ≡ thread.old }
    ensures root { root.new.table ≡ root.old.table }
{
    let (name, number) = (playing.case, playing.number);
    let next = root
        .register(playing.memories.ample, heap)
        .expect(rt, "a thread is refused");
    let old = mem::replace(thread, next);
    match old.leave() {
        Ok(_leaving) => panic!(rt; "{name}, step {number}: it has left"),
        Err(back) => {
            let next = mem::replace(thread, back);
            let _none = ends(rt, name, heap, root, next, 0);
        }
    }
}

/// A thread without handles leaves, after so many turns of work and no fewer, and the root gathers it: its ledger.
pub(super) fn ends<'h, 'm>(
    rt: &impl Abort,
    name: &str,
    heap: &'h Heap<&'m LocalHeap>,
    root: &mut Root<&'m LocalHeap>,
    thread: Mutator<&'h Heap<&'m LocalHeap>, &'m LocalHeap>,
    turns: usize,
) -> Came
    requires bare { thread.len ≡ 0 }
    requires unlocked { IsUnlocked thread }
    requires heap { thread.heap ≡ heap.now }
    requires root { root.old.table ≡ heap.now.table }
    ensures root { root.new.table ≡ root.old.table }
{
    match thread.leave() {
        Err(_thread) => panic!(rt; "{name}: a handle or a dead block is left"),
        Ok(leaving) => {
            let mut leaving = leaving;
            let early = leaving.work(turns);
            let late = leaving.work(1);
            match leaving.finish() {
                Err(_leaving) => panic!(rt;
                    "{name}: an entry or a block is left after {turns} turns"
                ),
                Ok(retired) => {
                    let ledger = retired.ledger();
                    root.gather(heap, retired);
                    if early == 0 && late == 1 {
                        Came::Ledger(ledger.allocs, ledger.frees)
                    } else {
                        Came::Count(early as u64)
                    }
                }
            }
        }
    }
}
