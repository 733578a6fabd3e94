//! What is tried in each size of memory in turn.

use crate::tests::comparing::same_at;
use brc_words::Fault;
use linked_list_allocator::LocalHeap;
use std::alloc::AllocGlobal;
use std::fmt::Debug;
use std::ops::Range;
use std::process::Abort;

/// Something that wants memory.
pub(crate) trait Tried {
    /// How far it comes in this heap: 0 where it is refused at first, and one more for each refusal that is behind it.
    /// The test ends where a refusal tells of anything but wanting memory, or changes anything.
    fn comes_to<R: Abort + AllocGlobal>(&self, rt: &R, size: usize, heap: &LocalHeap) -> u32;
}

/// How far it comes in heaps that grow, each of so many units of this many bytes: how many ends it has, one after the
/// other. After each try no memory is out.
pub(crate) fn ends_of<R: Abort + AllocGlobal>(
    rt: &R,
    tried: &impl Tried,
    sizes: Range<usize>,
    unit: usize,
) -> u32 {
    let mut next = 0u32;
    for size in sizes {
        let bytes = size.saturating_mul(unit);
        let heap = LocalHeap::new(rt.alloc(), bytes).expect(rt, "memory");
        if tried.comes_to(rt, size, &heap) == next {
            next = next.saturating_add(1);
        }
        same_at(rt, size, heap.used(), 0);
    }
    next
}

/// How far this answer shows that it has come: it is the one that is wanted, or else tells that memory is wanting.
pub(crate) fn has_come<T: PartialEq + Debug + Drop>(
    rt: &impl Abort,
    size: usize,
    answer: Result<T, Fault>,
    wanted: T,
) -> u32 {
    match answer {
        Ok(found) => {
            same_at(rt, size, found, wanted);
            1
        }
        Err(fault) => {
            same_at(rt, size, fault, Fault::OutOfMemory);
            0
        }
    }
}
