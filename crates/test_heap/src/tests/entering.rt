//! A thread that has too little memory to enter, with a bit more each time until it enters.

ghost use Rattle.std.specs.Prelude.{◌<◌};

use crate::Memories;
use crate::tests::comparing::same;
use crate::tests::phases::{ends, entered, leaves, opened};
use brc_count::Frame;
use brc_count::biased::{first_counts, no_bits};
use brc_words::Fault;
use bumpalo::Bump;
use std::alloc::{Allocator, Global};
use std::process::Abort;

/// An arena that has so many bytes, and gets no more.
fn an_arena(rt: &impl Abort, alloc: Global, bytes: usize) -> Bump {
    let Ok(arena) = Bump::try_with_capacity(alloc, bytes) else {
        panic!(rt; "memory")
    };
    arena.set_allocation_limit(Some(arena.allocated_bytes()));
    // Its only chunk is a bit larger.
    let taken = arena.chunk_capacity().saturating_sub(bytes);
    assert!(rt; arena.try_alloc_slice_fill_clone(taken, 0u8).is_ok());
    arena
}

/// Whether a thread enters with what memory is left. If it doesn't, the root is as it was, and the next thread is the
/// first.
fn enters<A: Allocator + Copy>(rt: &impl Abort, memories: Memories<A>) -> bool {
    let (table, mut root) = opened(rt, memories.ample);
    let enters = match Frame::enter(memories.scarce, &table, &mut root) {
        Ok(frame) => {
            leaves(rt, &table, &mut root, frame);
            true
        }
        Err(fault) => {
            same(rt, fault, Fault::OutOfMemory);
            assert_eq!(rt; root.next(), 1);
            let frame = entered(rt, memories.ample, &table, &mut root);
            same(rt, frame.thread(), 1);
            leaves(rt, &table, &mut root, frame);
            false
        }
    };
    ends(rt, table.take_apart(root));
    enters
}

/// Whether a thread enters that has so much memory.
fn enters_with(rt: &impl Abort, alloc: Global, bytes: usize) -> bool {
    let ample = an_arena(rt, alloc, 1 << 20);
    let scarce = an_arena(rt, alloc, bytes);
    let memories = Memories {
        ample: &ample,
        scarce: &scarce,
    };
    enters(rt, memories)
}

/// How many of a thread's growths are had from so much memory, before that of its popped words: those of its counts,
/// and that of its owned bits.
fn had_with(rt: &impl Abort, alloc: Global, bytes: usize) -> usize
    ensures { result < 3 }
{
    let scarce = an_arena(rt, alloc, bytes);
    let Ok(_counts) = first_counts(&scarce, 512) else {
        return 0;
    };
    if no_bits(&scarce, 512).is_ok() { 2 } else { 1 }
}

/// The local counts are had as a thread enters, then the owned bits, and then the popped words: each growth of them is
/// refused with some memory.
#[test]
fn a_thread_without_memory_is_not_registered(rt: HostRuntime) {
    let mut refused = [false; 3];
    for size in 0..1_000usize {
        let bytes = size * 16;
        if enters_with(&rt, rt.alloc(), bytes) {
            assert!(rt; refused[0] && refused[1] && refused[2]);
            return;
        }
        refused[had_with(&rt, rt.alloc(), bytes)] = true;
    }
    panic!(rt; "no thread enters");
}
