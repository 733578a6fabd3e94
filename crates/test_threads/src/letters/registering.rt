//! A thread that has too little memory to be registered apart, with a bit more each time.

use brc_heap::{Fault, Heap, Options, close_or_end};
use std::alloc::{Allocator, Global};
use std::sync::Wait;
use test_heap::{Heaps, Memories};

/// The least heap.
pub(crate) const SIZES: Options = Options {
    cells: 512,
    local_limit: 10,
};

/// Whether a thread is registered apart that has scarce memory. If it is refused for another reason, or the root isn't
/// as it was, there is no answer.
fn is_registered<A: Allocator + Copy>(rt: &impl Wait, memories: Memories<A>) -> Option<bool> {
    let (heap, mut root) = Heap::new(memories.ample, SIZES).ok()?;
    let refused = match root.register_apart(memories.scarce, &heap) {
        Ok(mutator) => {
            let _ledger = mutator.settle_and_join(rt, &mut root, &heap);
            None
        }
        Err(fault) => Some(fault),
    };
    let (next, registered) = (root.next(), root.registered());
    let report = close_or_end(memories.ample, heap, root);
    match refused {
        None => Some(next == 1 && registered == 1 && report.is_ok()),
        Some(Fault::OutOfMemory) if next == 1 && registered == 0 && report.is_ok() => Some(false),
        Some(_) => None,
    }
}

/// Whether so many bytes are enough.
fn registers_with(rt: &impl Wait, alloc: Global, bytes: usize) -> Option<bool> {
    match Heaps::new(alloc, 1 << 22, bytes) {
        Ok(heaps) => is_registered(rt, heaps.memories()),
        Err(_) => None,
    }
}

/// Whether a thread is refused with little memory, more than twice, and registered with more.
pub(crate) fn registers_apart(rt: &impl Wait, alloc: Global) -> bool {
    for size in 1..1_000usize {
        match registers_with(rt, alloc, 64 * size) {
            Some(true) => return size > 3,
            Some(false) => {}
            None => return false,
        }
    }
    false
}
