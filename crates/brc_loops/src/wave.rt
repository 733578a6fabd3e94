//! Threads that come and go in waves.

ghost use Rattle.std.specs.Prelude.{◌≡◌, ◌+◌, ◌*◌, All, IsTrue, length};
ghost use Rattle.brc_thread.specs.Counting.{registrations, gatherings};

use crate::repeating::Nothing;
use crate::threads::{Ended, Life, end_all, rest_more, run_all};
use brc_thread::{Heap, Root};
use std::alloc::Global;
use std::sync::Wait;
use std::thread::Threads;

/// What is made of the answers of threads, one after another.
pub trait Tally<X> {
    /// An answer more.
    fn add(&mut self, answer: X);
}

/// The root gathers each of them, in order, and their answers are added in that order.
fn gather_each<X: Drop, T: Tally<X>>(
    root: &mut Root<Global>,
    heap: &Heap<Global>,
    all: Vec<Ended<X>>,
    tally: &mut T,
)
    requires root { root.old.table ≡ heap.now.table }
    requires heap { All (λ one. one.retired.heap ≡ heap.now) all.items }
    ensures root { root.new.table ≡ root.old.table }
    ensures gathered { gatherings root.new.view ≡ gatherings root.old.view + length all.items }
    ensures registered { registrations root.new.view ≡ registrations root.old.view }
{
    for one in all {
        let Ended { retired, answer } = one;
        root.gather(heap, retired);
        tally.add(answer);
    }
}

/// One wave: whether it had all of its threads, and they lived. They are gathered in any case.
fn one_wave<R: Threads + Wait + Sync, L: Life<R> + Sync, T: Tally<L::Answer>>(
    rt: &R,
    alloc: Global,
    heap: &Heap<Global>,
    root: &mut Root<Global>,
    life: &L,
    crew: u64,
    tally: &mut T,
) -> bool
where
    L::Answer: Send + Drop,
    requires root { root.old.table ≡ heap.now.table }
    ensures root { root.new.table ≡ root.old.table }
    ensures whole { IsTrue result → gatherings root.new.view ≡ gatherings root.old.view + crew }
    ensures nobody_left { registrations root.new.view + gatherings root.old.view
        ≡ registrations root.old.view + gatherings root.new.view }
{
    let mut all = Vec::new(alloc);
    let is_whole = rest_more(rt, alloc, heap, root, &Nothing, crew, &mut all).is_some();
    match run_all(rt, heap, life, all) {
        Ok(ended) => {
            gather_each(root, heap, ended, tally);
            is_whole
        }
        Err(all) => {
            end_all(rt, root, heap, all);
            false
        }
    }
}

/// So many waves, one after another. In each, so many threads are registered, live each on a thread of the machine, and
/// are gathered before the next wave begins; so their numbers are used again. All answers are added, wave by wave.
/// Whether each wave had all of its threads, and they lived: one that has fewer, because no more can be registered or
/// memory ran out, doesn't end the others. Where memory is missing for a wave's run, its threads are ended without
/// having lived, and gathered too. So nobody is left behind, and the heap can be closed, whatever was refused.
pub fn waves<R: Threads + Wait + Sync, L: Life<R> + Sync, T: Tally<L::Answer>>(
    rt: &R,
    alloc: Global,
    heap: &Heap<Global>,
    root: &mut Root<Global>,
    life: &L,
    crew: u64,
    count: u64,
    tally: &mut T,
) -> bool
where
    L::Answer: Send + Drop,
    requires root { root.old.table ≡ heap.now.table }
    ensures root { root.new.table ≡ root.old.table }
    ensures whole { IsTrue result → gatherings root.new.view ≡ gatherings root.old.view + count * crew }
    ensures nobody_left { registrations root.new.view + gatherings root.old.view
        ≡ registrations root.old.view + gatherings root.new.view }
{
    let mut all_whole = true;
    for before in 0..count {
        let is_whole = one_wave(rt, alloc, heap, root, life, crew, tally);
        all_whole = all_whole && is_whole;
    }
    all_whole
}
