//! Threads that differ: each lives with a job of its own.

ghost use Rattle.std.specs.Prelude.{⊤, ◌≡◌, ◌+◌, ◌++◌, All, IfOk, IfErr, IfSome, length, map};
ghost use Rattle.std.specs.List.{AllZip};
ghost use Rattle.brc_count.specs.Frames.{IsUnlocked};
ghost use Rattle.brc_thread.specs.Counting.{gatherings};

use crate::errands::do_all;
use crate::threads::{Ended, end_one};
use brc_thread::{Heap, Mutator, Resting, Root};
use std::alloc::{Allocator, Global};
use std::sync::Wait;
use std::thread::Threads;

/// What a thread does with its job between its waking and its end.
pub trait Duty<R, J> {
    /// What it tells those that wait for it.
    type Answer;

    // What an answer has to do with its job. A duty that leaves it out says nothing.
    ghost answers: { Self → J → Self.Answer → Type 0 } = { λ _ _ _. ⊤ };

    /// It has no handle when it begins, and none afterwards.
    fn serve(&self, rt: &R, mutator: &mut Mutator<&Heap<Global>, Global>, job: J) -> Self::Answer
        requires bare { mutator.old.len ≡ 0 }
        requires unlocked { IsUnlocked mutator.old }
        ensures answers { answers self.now job result }
        ensures heap { mutator.new.heap ≡ mutator.old.heap }
        ensures bare { mutator.new.len ≡ 0 }
        ensures unlocked { IsUnlocked mutator.new };
}

/// A thread is registered for each job, in their order, and rests beside it behind the others. It makes its objects in a
/// part of the heap of its own (`Root::register_apart`). None if no thread more can be registered or memory ran out:
/// those that were registered up to then rest here, to be run or ended all the same (`run_each`, `end_each`), and the
/// jobs that are left are dropped.
pub fn rest_each<'h, J: Drop, A: Allocator + Copy>(
    alloc: A,
    heap: &'h Heap<A>,
    root: &mut Root<A>,
    jobs: Vec<J, A>,
    all: &mut Vec<(Resting<A>, J), A>,
) -> Option<()>
    requires root { root.old.table ≡ heap.now.table }
    requires heap { All (λ given. given.0.heap ≡ heap.now) all.old.items }

    ensures root { root.new.table ≡ root.old.table }
    ensures heap { All (λ given. given.0.heap ≡ heap.now) all.new.items }
    ensures jobs { IfSome result (λ _. map (λ given. given.1) all.new.items
        ≡ map (λ given. given.1) all.old.items ++ jobs.items) }
    ensures gathered { gatherings root.new.view ≡ gatherings root.old.view }
{
    for job in jobs {
        all.reserve(1).ok()?;
        let mutator = root.register_apart(alloc, heap).ok()?;
        all.push_reserved((mutator.rest(), job));
    }
    Some(())
}

/// A thread's life with its job, from its waking to its end.
fn serve_whole<R: Wait, J, D: Duty<R, J>>(
    rt: &R,
    heap: &Heap<Global>,
    duty: &D,
    given: (Resting<Global>, J),
) -> Ended<D::Answer>
    requires heap { given.0.heap ≡ heap.now }
    ensures heap { result.retired.heap ≡ heap.now }
    ensures answers { D.answers duty.now given.1 result.answer }
{
    let (resting, job) = given;
    let mut mutator = resting.wake(heap);
    let answer = duty.serve(rt, &mut mutator, job);
    Ended {
        answer,
        retired: mutator.settle_and_leave(rt),
    }
}

/// Each thread wakes on a thread of the machine of its own, if one can be had, lives with the job beside it, and
/// retires. Each answers its own job, and the answers are in the order of these. Where the machine has no thread for
/// one, those before it live first: so one may wait for an earlier one, and not for a later one. All memory is had
/// before the first wakes: if it is missing, all of these pairs come back, and none has lived. They can be run again,
/// or ended (`end_each`).
pub fn run_each<R: Threads + Wait + Sync, J: Send + Drop, D: Duty<R, J> + Sync>(
    rt: &R,
    heap: &Heap<Global>,
    duty: &D,
    jobs: Vec<(Resting<Global>, J)>,
) -> Result<Vec<Ended<D::Answer>>, Vec<(Resting<Global>, J)>>
where
    D::Answer: Send + Drop,
    requires heap { All (λ job. job.0.heap ≡ heap.now) jobs.items }
    ensures heap { IfOk result (λ ended. All (λ one. one.retired.heap ≡ heap.now) ended.items) }
    ensures count { IfOk result (λ ended. length ended.items ≡ length jobs.items) }
    ensures each { IfOk result
        (λ ended. AllZip (λ job one. D.answers duty.now job.1 one.answer) jobs.items ended.items) }
    ensures back { IfErr result (λ same. same ≡ jobs) }
{
    do_all(
        rt,
        jobs,
        &|given| -> Ended<D::Answer>
            requires { given.0.heap ≡ heap.now }
            ensures heap { result.retired.heap ≡ heap.entry.now }
            ensures answers { D.answers duty.entry.now given.1 result.answer }
        { serve_whole(rt, heap, duty, given) },
    )
}

/// Each of these threads ends here, without having lived, and the root gathers it, in order; the jobs are dropped. So a
/// run that is refused leaves nobody behind. It takes no memory.
pub fn end_each<J: Drop>(
    rt: &impl Wait,
    root: &mut Root<Global>,
    heap: &Heap<Global>,
    jobs: Vec<(Resting<Global>, J)>,
)
    requires root { root.old.table ≡ heap.now.table }
    requires heap { All (λ job. job.0.heap ≡ heap.now) jobs.items }
    ensures root { root.new.table ≡ root.old.table }
    ensures gathered { gatherings root.new.view ≡ gatherings root.old.view + length jobs.items }
{
    for (resting, _job) in jobs {
        end_one(rt, root, heap, resting);
    }
}
