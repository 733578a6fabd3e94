//! A heap that has too little memory to open, and a thread that has too little to be registered, with a bit more each
//! time.

ghost use Rattle.std.specs.Prelude.{◌≡◌};

use crate::tests::comparing::same;
use crate::tests::phases::SMALL;
use crate::{Heaps, Memories};
use brc_thread::{Heap, Options, Root, give_back, take_apart};
use brc_words::Fault;
use linked_list_allocator::LocalHeap;
use std::alloc::{Allocator, Global};
use std::process::Abort;
use std::sync::Wait;

/// Whether a heap opens with this memory; else it is told that there was no more.
fn opens(rt: &impl Abort, memory: &LocalHeap) -> bool {
    match Heap::new(memory, SMALL) {
        Ok((heap, root)) => {
            give_back(take_apart(heap, root));
            true
        }
        Err(fault) => {
            same(rt, fault, Fault::OutOfMemory);
            false
        }
    }
}

/// Thread 1 is registered, after so many that bore its number, and ends. Where it is refused, the root is as it was.
fn is_registered<R: Abort + Wait, A: Allocator + Copy>(
    rt: &R,
    memory: A,
    heap: &Heap<A>,
    root: &mut Root<A>,
    before: u32,
) -> bool
    requires heap { root.old.table ≡ heap.now.table }
    ensures root { root.new.table ≡ root.old.table }
{
    match root.register(memory, heap) {
        Ok(mutator) => {
            same(rt, mutator.thread(), 1);
            let _ledger = mutator.settle_and_join(rt, root, heap);
            true
        }
        Err(fault) => {
            same(rt, fault, Fault::OutOfMemory);
            same(
                rt,
                (root.next(), root.registered(), root.gathered()),
                (1, before, before),
            );
            false
        }
    }
}

/// Whether a thread is registered that has scarce memory, after so many that bore its number. If it isn't, the next
/// thread bears that number.
fn registers<R: Abort + Wait, A: Allocator + Copy>(
    rt: &R,
    memories: Memories<A>,
    before: u32,
) -> bool {
    let (heap, mut root) = Heap::new(memories.ample, SMALL).expect(rt, "no heap can be had");
    for earlier in 0..before {
        assert!(rt; is_registered(rt, memories.ample, &heap, &mut root, earlier));
    }
    let registers = is_registered(rt, memories.scarce, &heap, &mut root, before);
    assert!(rt; registers || is_registered(rt, memories.ample, &heap, &mut root, before));
    give_back(take_apart(heap, root));
    registers
}

/// The same on a heap of its own, and whether a thread is registered there with memory of this size.
fn registers_with(rt: &(impl Abort + Wait), alloc: Global, size: usize, before: u32) -> bool {
    let heaps = Heaps::new(alloc, 1 << 18, size).expect(rt, "memory");
    let registers = registers(rt, heaps.memories(), before);
    same(rt, heaps.used(), (0, 0));
    registers
}

/// Each size of memory in turn: every growth of an opening is refused at some of them, and what was had goes back.
#[test]
fn a_heap_without_memory_is_not_opened(rt: HostRuntime) {
    let (mut refused, mut opened) = (0u32, 0u32);
    for size in 1_300..3_800usize {
        let memory = LocalHeap::new(rt.alloc(), size * 64).expect(&rt, "memory");
        if opens(&rt, &memory) {
            opened = opened.wrapping_add(1);
        } else {
            refused = refused.wrapping_add(1);
        }
        same(&rt, memory.used(), 0);
    }
    assert!(rt; refused > 300 && opened > 10);
}

/// The same of a registration, of a new number and of one that was used before: its thread opens its queue words, which
/// takes no memory, so the two are refused at the same sizes.
#[test]
fn a_thread_without_memory_is_refused(rt: HostRuntime) {
    let (mut refused, mut registered) = (0u32, 0u32);
    for size in 1..400usize {
        let is_registered = registers_with(&rt, rt.alloc(), size * 16, 0);
        same(
            &rt,
            registers_with(&rt, rt.alloc(), size * 16, 1),
            is_registered,
        );
        if is_registered {
            registered = registered.wrapping_add(1);
        } else {
            refused = refused.wrapping_add(1);
        }
    }
    assert!(rt; refused > 100 && registered > 10);
}

/// Whether a heap of these sizes is refused as none.
fn is_refused(rt: &impl Abort, alloc: Global, cells: u32, local_limit: u32) -> bool {
    let options = Options { cells, local_limit };
    match Heap::new(alloc, options) {
        Err(fault) => fault == Fault::BadOptions,
        Ok(_made) => panic!(rt; "a heap of no size"),
    }
}

#[test]
fn sizes_out_of_range_are_refused(rt: HostRuntime) {
    assert!(rt; is_refused(&rt, rt.alloc(), 511, 1));
    assert!(rt; is_refused(&rt, rt.alloc(), 65_537, 1));
    assert!(rt; is_refused(&rt, rt.alloc(), 512, 0));
    assert!(rt; is_refused(&rt, rt.alloc(), 512, 4_294_967_295));
}
