//! A list that two threads let go as they leave, on each of a thousand heaps. Its maker has put it into the globals and
//! kept a handle, and the other thread has taken it out there. The taker lets it go after 0 to 63 looks at the
//! globals, so the distance of the two changes from heap to heap. It is freed once, by either of them.

ghost use Rattle.std.specs.Prelude.{◌≡◌, IfSome};

use crate::crowd::pair::{Part, parts};
use brc_heap::{Heap, Options, Report, Resting, Retired, Root, close_or_end};
use std::alloc::Global;
use std::sync::Wait;
use std::thread::{Threads, join_mut};

/// How many heaps there are, one after the other.
pub(crate) const HEAPS: u32 = 1_000;

/// The least heap.
const SIZES: Options = Options {
    cells: 512,
    local_limit: 4_294_967_294,
};

/// A thread is gathered, if there was one: whether it has done its part.
fn gathers(heap: &Heap, root: &mut Root, ended: Option<(bool, Retired)>) -> bool
    requires root { root.old.table ≡ heap.now.table }
    requires heap { IfSome ended (λ one. one.1.heap ≡ heap.now) }
    ensures root { root.new.table ≡ root.old.table }
{
    match ended {
        Some((done, retired)) => {
            root.gather(heap, retired);
            done
        }
        None => false,
    }
}

/// A thread at rest, if one can be had.
fn rests(alloc: Global, heap: &Heap, root: &mut Root) -> Option<Resting>
    requires root { root.old.table ≡ heap.now.table }
    ensures root { root.new.table ≡ root.old.table }
    ensures heap { IfSome result (λ resting. resting.heap ≡ heap.now) }
{
    Some(root.register(alloc, heap).ok()?.rest())
}

/// Both live at the same time, each on a thread of the machine, and are gathered: whether both have done their part.
fn two_live<R>(rt: &R, alloc: Global, heap: &Heap, root: &mut Root, after: u32) -> bool
where
    R: Threads + Wait + Sync,
    requires root { root.old.table ≡ heap.now.table }
    ensures root { root.new.table ≡ root.old.table }
{
    let mut first = rests(alloc, heap, root);
    let mut second = rests(alloc, heap, root);
    let (first, second) = join_mut(
        rt,
        &mut || -> Option<(bool, Retired)>
            requires { IfSome first (λ resting. resting.heap ≡ heap.now) }
            ensures { IfSome result (λ ended. ended.1.heap ≡ heap.entry.now) }
        {
            let resting = first.take()?;
            Some(parts(rt, alloc, heap, resting, Part::Makes))
        },
        &mut || -> Option<(bool, Retired)>
            requires { IfSome second (λ resting. resting.heap ≡ heap.now) }
            ensures { IfSome result (λ ended. ended.1.heap ≡ heap.entry.now) }
        {
            let resting = second.take()?;
            Some(parts(rt, alloc, heap, resting, Part::Takes(after)))
        },
    );
    let makes = gathers(heap, root, first);
    let takes = gathers(heap, root, second);
    makes && takes
}

/// Whether one object was made and freed, and nothing is left.
fn is_of_one_life(report: &Report<Global>) -> bool {
    let ledger = report.ledger;
    ledger.allocs == 1 && ledger.frees == 1 && report.live == 0 && report.remains.len() == 0
}

/// Whether the two threads of one heap have done their part, and the heap's report is of one life.
fn is_freed_once<R>(rt: &R, alloc: Global, after: u32) -> bool
where
    R: Threads + Wait + Sync,
{
    let Ok((heap, mut root)) = Heap::new(alloc, SIZES) else {
        return false;
    };
    let done = two_live(rt, alloc, &heap, &mut root, after);
    match close_or_end(alloc, heap, root) {
        Ok(report) => done && is_of_one_life(&report),
        Err(_) => false,
    }
}

/// On how many heaps it is so, up to the first on which it isn't.
pub(crate) fn count_heaps<R>(rt: &R, alloc: Global) -> u32
where
    R: Threads + Wait + Sync,
{
    for before in 0..HEAPS {
        // (how often the two overlap isn't measured)
        if !is_freed_once(rt, alloc, before % 64) {
            return before;
        }
    }
    HEAPS
}
