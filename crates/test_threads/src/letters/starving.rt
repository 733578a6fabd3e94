//! Growths that are refused: of a place for what a wait has, and of the answers of threads.

ghost use Rattle.std.specs.Prelude.{◌≡◌};
ghost use Rattle.brc_heap.specs.Words.{IsUnlocked, Keeps, Owns};
ghost use Rattle.test_heap.specs.Calls.{EndsBare, IsBare, OwnsAll};

use crate::letters::registering::SIZES;
use brc_count::Frame;
use brc_count::biased::HasTable;
use brc_heap::{
    Fault, Handle, Handles, Heap, Key, KeyRef, Mutator, close_or_end, dict_put, new_dict,
    new_mailbox, none, send,
};
use brc_loops::{
    Life, Never, Nothing, Waited, end_all, fetch_until, gather_all, gather_answers, recv_until,
    rest_more, run_all,
};
use linked_list_allocator::LocalHeap;
use std::alloc::{Allocator, Global};
use std::sync::Wait;
use std::thread::Threads;
use test_heap::{Heaps, Memories, Pieces};

/// What is waited for.
#[derive(Clone, Copy)]
pub(crate) enum Awaited {
    /// None, as a letter.
    Letter,
    /// None, beside the key 1.
    Value,
}

/// None goes to where it is waited for, or is released.
fn puts<'h, H: HasTable<&'h LocalHeap>>(
    rt: &impl Wait,
    frame: &mut Frame<H, &'h LocalHeap>,
    object: &Handle<&'h LocalHeap>,
    awaited: Awaited,
)
    requires owned { Owns frame.old object.now }
    requires unlocked { IsUnlocked frame.old }
    ensures keeps { Keeps frame.old frame.new }
    ensures unlocked { IsUnlocked frame.new }
{
    let Ok(value) = none(frame) else {
        return;
    };
    match awaited {
        Awaited::Letter => {
            if let Err(handed) = send(rt, frame, object, value) {
                frame.release(handed.value);
            }
        }
        Awaited::Value => match dict_put(rt, frame, object, Key::Int(1), value) {
            Ok(None) => {}
            Ok(Some(old)) => frame.release(old),
            Err(handed) => frame.release(handed.value.1),
        },
    }
}

/// It is waited for, and what comes is released: whether it comes, or memory for a place is missing.
fn waits<'h, H: HasTable<&'h LocalHeap>>(
    rt: &impl Wait,
    frame: &mut Frame<H, &'h LocalHeap>,
    object: &Handle<&'h LocalHeap>,
    awaited: Awaited,
) -> Option<bool>
    requires owned { Owns frame.old object.now }
    requires unlocked { IsUnlocked frame.old }
    ensures keeps { Keeps frame.old frame.new }
    ensures unlocked { IsUnlocked frame.new }
{
    let waited = match awaited {
        Awaited::Letter => recv_until(rt, frame, object, &Never, 1),
        Awaited::Value => fetch_until(rt, frame, object, KeyRef::Int(1), &Never, 1),
    };
    match waited {
        Waited::Got(value) => {
            frame.release(value);
            Some(true)
        }
        Waited::Refused(Fault::OutOfMemory) => Some(false),
        Waited::Refused(_) => None,
        Waited::Stopped => None,
    }
}

/// Whether the wait is refused until there is memory for a place, with as many handles as before, and then is not.
fn waits_with_memory<'h, H: HasTable<&'h LocalHeap>>(
    rt: &impl Wait,
    pieces: &mut Pieces<'h>,
    frame: &mut Frame<H, &'h LocalHeap>,
    object: &Handle<&'h LocalHeap>,
    awaited: Awaited,
) -> bool
    requires owned { Owns frame.old object.now }
    requires unlocked { IsUnlocked frame.old }
    ensures keeps { Keeps frame.old frame.new }
    ensures unlocked { IsUnlocked frame.new }
{
    let handles = frame.len();
    for tried in 0..1_000 {
        match waits(rt, frame, object, awaited) {
            Some(true) => return tried > 0,
            Some(false) => {}
            None => return false,
        }
        if frame.len() != handles || !pieces.give_one() {
            return false;
        }
    }
    false
}

/// References to None until one is refused: why. None where a thousand were had, or one wasn't kept.
fn fills<H: HasTable<A>, A: Allocator>(
    frame: &mut Frame<H, A>,
    handles: &mut Handles<A>,
) -> Option<Fault>
    requires { OwnsAll frame.old handles.old }
    ensures all { OwnsAll frame.new handles.new }
    ensures heap { frame.new.heap ≡ frame.old.heap }
{
    for _ in 0..1_000 {
        match none(frame) {
            Err(fault) => return Some(fault),
            Ok(handle) => {
                if handles.keep(frame, handle).is_err() {
                    return None;
                }
            }
        }
    }
    None
}

/// All memory that is left is taken, and the frame's places filled, until one is refused for want of memory: the memory.
/// None where it came otherwise.
fn starves<'h, H: HasTable<A>, A: Allocator>(
    alloc: Global,
    scarce: &'h LocalHeap,
    frame: &mut Frame<H, A>,
    handles: &mut Handles<A>,
) -> Option<Pieces<'h>>
    requires { OwnsAll frame.old handles.old }
    ensures all { OwnsAll frame.new handles.new }
    ensures heap { frame.new.heap ≡ frame.old.heap }
{
    let pieces = Pieces::take_all(alloc, scarce)?;
    match fills(frame, handles) {
        Some(Fault::OutOfMemory) => Some(pieces),
        _ => None,
    }
}

/// The same, in a frame that has no handle before and afterwards.
fn waits_bare<'h, H: HasTable<&'h LocalHeap>>(
    rt: &impl Wait,
    alloc: Global,
    memories: Memories<&'h LocalHeap>,
    frame: &mut Frame<H, &'h LocalHeap>,
    awaited: Awaited,
) -> bool
    requires { IsBare frame.old }
    ensures { EndsBare frame.old frame.new }
{
    let made = match awaited {
        Awaited::Letter => new_mailbox(memories.ample, frame),
        Awaited::Value => new_dict(memories.ample, frame),
    };
    let Ok(object) = made else {
        return false;
    };
    puts(rt, frame, &object, awaited);
    let mut handles = Handles::new(memories.ample);
    let _kept = handles.keep(frame, object);
    let pieces = starves(alloc, memories.scarce, frame, &mut handles);
    let waited = match (pieces, handles.get(0)) {
        (Some(mut pieces), Some(object)) => {
            waits_with_memory(rt, &mut pieces, frame, object, awaited)
        }
        _ => false,
    };
    handles.release_all(frame);
    waited
}

/// The same, of a thread on a heap of its own, whose places are of scarce memory.
fn on_a_heap(
    rt: &impl Wait,
    alloc: Global,
    memories: Memories<&LocalHeap>,
    awaited: Awaited,
) -> bool {
    let Ok((heap, mut root)) = Heap::new(memories.ample, SIZES) else {
        return false;
    };
    let mut waited = false;
    if let Ok(mut mutator) = root.register_apart(memories.scarce, &heap) {
        waited = waits_bare(rt, alloc, memories, mutator.frame(), awaited);
        let _ledger = mutator.settle_and_join(rt, &mut root, &heap);
    }
    match close_or_end(memories.ample, heap, root) {
        Ok(report) => waited && report.live == 0,
        Err(_) => false,
    }
}

/// Whether the wait is refused without memory for a place, and has it with more; and nothing is out at the end.
pub(crate) fn is_refused(rt: &impl Wait, alloc: Global, awaited: Awaited) -> bool {
    match Heaps::new(alloc, 1 << 20, 1 << 16) {
        Ok(heaps) => { on_a_heap(rt, alloc, heaps.memories(), awaited) && heaps.used() == (0, 0) }
        Err(_) => false,
    }
}

/// A thread that says which it is.
#[derive(Drop)]
struct SaysWhich;

impl<R> Life<R> for SaysWhich {
    type Answer = u32;

    fn live(&self, _rt: &R, mutator: &mut Mutator) -> u32 {
        mutator.thread()
    }
}

/// Whether the answers of three threads come back in their order from so much memory. If they don't, the threads are
/// gathered all the same.
fn answers_with<R>(rt: &R, alloc: Global, scarce: &LocalHeap) -> bool
where
    R: Threads + Wait + Sync,
{
    let Ok((heap, mut root)) = Heap::new(alloc, SIZES) else {
        return false;
    };
    let mut three = Vec::new(alloc);
    let _all = rest_more(rt, alloc, &heap, &mut root, &Nothing, 3, &mut three);
    let mut had = false;
    match run_all(rt, &heap, &SaysWhich, three) {
        Ok(ended) => match gather_answers(scarce, &mut root, &heap, ended) {
            Ok(answers) => had = answers.as_slice() == [1, 2, 3].as_slice(),
            Err(ended) => gather_all(&mut root, &heap, ended),
        },
        Err(three) => end_all(rt, &mut root, &heap, three),
    }
    close_or_end(alloc, heap, root).is_ok() && had
}

/// Whether they are refused without memory, and had with more.
pub(crate) fn answers_are_refused<R>(rt: &R, alloc: Global) -> bool
where
    R: Threads + Wait + Sync,
{
    let Ok(heaps) = Heaps::new(alloc, 64, 1 << 10) else {
        return false;
    };
    let scarce = heaps.memories().scarce;
    let Some(pieces) = Pieces::take_all(alloc, scarce) else {
        return false;
    };
    let refused = !answers_with(rt, alloc, scarce);
    drop(pieces);
    refused && answers_with(rt, alloc, scarce)
}
