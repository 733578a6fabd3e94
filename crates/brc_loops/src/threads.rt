//! Threads of one heap: they are registered and rest, live each on a thread of the machine, and are gathered.

ghost use Rattle.std.specs.Prelude.{◌≡◌, ◌+◌, All, IfOk, IfErr, OnOk, OnErr, IfSome, length, map};
ghost use Rattle.brc_count.specs.Frames.{FrameSeen, IsUnlocked};
ghost use Rattle.brc_thread.specs.Counting.{registrations, gatherings};

use crate::errands::do_all;
use crate::repeating::Task;
use brc_thread::{Heap, Mutator, Resting, Retired, Root};
use std::alloc::{Allocator, Global};
use std::sync::Wait;
use std::thread::Threads;

/// What a thread does between its waking and its end.
pub trait Life<R> {
    /// What it tells those that wait for it.
    type Answer;

    /// It has no handle when it begins, and none afterwards.
    fn live(&self, rt: &R, mutator: &mut Mutator<&Heap<Global>, Global>) -> Self::Answer
        requires bare { mutator.old.len ≡ 0 }
        requires unlocked { IsUnlocked mutator.old }
        ensures heap { mutator.new.heap ≡ mutator.old.heap }
        ensures bare { mutator.new.len ≡ 0 }
        ensures unlocked { IsUnlocked mutator.new };
}

/// A thread that has lived, for the root to gather.
#[derive(Drop)]
pub struct Ended<X> {
    pub answer: X,
    pub retired: Retired<Global>,
}

/// So many threads more are registered, and rest beside the others; each does the task first, after so many threads
/// before it. None if no thread more can be registered (`Root::register`), if memory ran out, or if the task failed:
/// those that were registered up to then rest here, to be run or ended all the same (`run_all`, `end_all`).
pub fn rest_more<'h, T: Task<&'h Heap<A>, A>, A: Allocator + Copy>(
    rt: &impl Wait,
    alloc: A,
    heap: &'h Heap<A>,
    root: &mut Root<A>,
    task: &T,
    count: u64,
    all: &mut Vec<Resting<A>, A>,
) -> Option<()>
    requires root { root.old.table ≡ heap.now.table }
    requires heap { All (λ resting. resting.heap ≡ heap.now) all.old.items }
    requires ready { (frame : FrameSeen A) → T.ready task.now frame }

    ensures root { root.new.table ≡ root.old.table }
    ensures heap { All (λ resting. resting.heap ≡ heap.now) all.new.items }
    ensures count { IfSome result (λ _. length all.new.items ≡ length all.old.items + count) }
    ensures gathered { gatherings root.new.view ≡ gatherings root.old.view }
    ensures registered { registrations root.new.view + length all.old.items
        ≡ registrations root.old.view + length all.new.items }
{
    for before in 0..count {
        all.reserve(1).ok()?;
        let mut mutator = root.register(alloc, heap).ok()?;
        let done = task.run(mutator.frame(), before);
        mutator.settle(rt);
        all.push_reserved(mutator.rest());
        done?;
    }
    Some(())
}

/// A thread's life, from its waking to its end.
fn live_whole<R: Wait, L: Life<R>>(
    rt: &R,
    heap: &Heap<Global>,
    life: &L,
    resting: Resting<Global>,
) -> Ended<L::Answer>
    requires heap { resting.heap ≡ heap.now }
    ensures heap { result.retired.heap ≡ heap.now }
{
    let mut mutator = resting.wake(heap);
    let answer = life.live(rt, &mut mutator);
    Ended {
        answer,
        retired: mutator.settle_and_leave(rt),
    }
}

/// Each wakes on a thread of the machine of its own, where one can be had, lives and retires. The answers are in their
/// order. Where the machine has no thread for one, those before it live first: so one may wait for an earlier one, and
/// not for a later one. All memory is had before the first wakes: if it is missing, all come back, and none has lived.
/// They can be run again, or ended (`end_all`).
pub fn run_all<R: Threads + Wait + Sync, L: Life<R> + Sync>(
    rt: &R,
    heap: &Heap<Global>,
    life: &L,
    all: Vec<Resting<Global>>,
) -> Result<Vec<Ended<L::Answer>>, Vec<Resting<Global>>>
where
    L::Answer: Send + Drop,
    requires heap { All (λ resting. resting.heap ≡ heap.now) all.items }
    ensures heap { IfOk result (λ ended. All (λ one. one.retired.heap ≡ heap.now) ended.items) }
    ensures count { IfOk result (λ ended. length ended.items ≡ length all.items) }
    ensures back { IfErr result (λ same. same ≡ all) }
{
    do_all(
        rt,
        all,
        &|resting| -> Ended<L::Answer>
            requires { resting.heap ≡ heap.now }
            ensures { result.retired.heap ≡ heap.entry.now }
        { live_whole(rt, heap, life, resting) },
    )
}

/// A thread that rests wakes here, retires without having lived, and is gathered. It takes no memory.
pub(crate) fn end_one(
    rt: &impl Wait,
    root: &mut Root<Global>,
    heap: &Heap<Global>,
    resting: Resting<Global>,
)
    requires root { root.old.table ≡ heap.now.table }
    requires heap { resting.heap ≡ heap.now }
    ensures root { root.new.table ≡ root.old.table }
    ensures gathered { gatherings root.new.view ≡ gatherings root.old.view + 1 }
    ensures registered { registrations root.new.view ≡ registrations root.old.view }
{
    let retired = resting.wake(heap).settle_and_leave(rt);
    root.gather(heap, retired);
}

/// Each of these that rest ends here, without having lived, and the root gathers it, in order. So a run that is refused
/// leaves nobody behind. It takes no memory.
pub fn end_all(
    rt: &impl Wait,
    root: &mut Root<Global>,
    heap: &Heap<Global>,
    all: Vec<Resting<Global>>,
)
    requires root { root.old.table ≡ heap.now.table }
    requires heap { All (λ resting. resting.heap ≡ heap.now) all.items }
    ensures root { root.new.table ≡ root.old.table }
    ensures gathered { gatherings root.new.view ≡ gatherings root.old.view + length all.items }
    ensures registered { registrations root.new.view ≡ registrations root.old.view }
{
    for resting in all {
        end_one(rt, root, heap, resting);
    }
}

/// The root gathers each of them, in order.
pub fn gather_all<X: Drop>(root: &mut Root<Global>, heap: &Heap<Global>, all: Vec<Ended<X>>)
    requires root { root.old.table ≡ heap.now.table }
    requires heap { All (λ one. one.retired.heap ≡ heap.now) all.items }
    ensures root { root.new.table ≡ root.old.table }
    ensures gathered { gatherings root.new.view ≡ gatherings root.old.view + length all.items }
{
    for one in all {
        let Ended {
            retired,
            answer: _answer,
        } = one;
        root.gather(heap, retired);
    }
}

/// The root gathers each of them, in order, and their answers come back in that order. The memory for these is had
/// first: if it is missing, all come back as they were, and nobody is gathered.
pub fn gather_answers<X: Drop, B: Allocator>(
    alloc: B,
    root: &mut Root<Global>,
    heap: &Heap<Global>,
    all: Vec<Ended<X>>,
) -> Result<Vec<X, B>, Vec<Ended<X>>>
    requires root { root.old.table ≡ heap.now.table }
    requires heap { All (λ one. one.retired.heap ≡ heap.now) all.items }
    ensures root { root.new.table ≡ root.old.table }
    ensures answers { IfOk result (λ answers. answers.items ≡ map (λ one. one.answer) all.items) }
    ensures gathered { OnOk result (gatherings root.new.view ≡ gatherings root.old.view + length all.items) }
    ensures unchanged { OnErr result (root.new ≡ root.old) }
    ensures back { IfErr result (λ same. same ≡ all) }
{
    let Ok(mut answers) = Vec::with_capacity(alloc, all.len()) else {
        return Err(all);
    };
    for one in all {
        let Ended { retired, answer } = one;
        root.gather(heap, retired);
        answers.push_reserved(answer);
    }
    Ok(answers)
}
