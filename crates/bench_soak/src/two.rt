//! A heap of which two threads are there at a time. Thread 2 stays, and takes lists out of the globals and lets them go,
//! while bearers of number 1 come and go that made them: it may look at the owner word before a bearer leaves, and put
//! its reference into the queue of the next.

ghost use Rattle.std.specs.Prelude.{◌≡◌, IfSome};
ghost use Rattle.brc_heap.specs.Words.{IsUnlocked, Keeps, Owns};

use crate::coming::Coming;
use crate::shared::{clears, puts, takes};
use brc_heap::{Frame, Handle, Heap, Mutator, Resting, Retired, Root};
use std::alloc::Global;
use std::sync::{Mutex, Wait};
use std::thread::{Threads, join_mut};

/// Takes under each key in turn, until nobody comes any more.
fn takes_on(rt: &impl Wait, frame: &mut Frame, globals: &Handle, keys: u32, over: &Mutex<bool>)
    requires owned { Owns frame.old globals.now }
    requires unlocked { IsUnlocked frame.old }
    ensures keeps { Keeps frame.old frame.new }
    ensures unlocked { IsUnlocked frame.new }
{
    let mut key = 0u32;
    for _ in rt.forever() {
        if *over.lock(rt) {
            return;
        }
        takes(rt, frame, globals, key as i64);
        frame.poll();
        key = if key < keys { key + 1 } else { 0 };
    }
}

/// The life of thread 2.
fn stays(rt: &impl Wait, heap: &Heap, resting: Resting, keys: u32, over: &Mutex<bool>) -> Retired
    requires heap { resting.heap ≡ heap.now }
    ensures heap { result.heap ≡ heap.now }
{
    let mut mutator = resting.wake(heap);
    if let Ok(globals) = mutator.globals() {
        takes_on(rt, mutator.frame(), &globals, keys, over);
        mutator.frame().release(globals);
    }
    mutator.settle_and_leave(rt)
}

/// So many lists are shared, under the first keys: whether they all are.
fn shares(
    rt: &impl Wait,
    alloc: Global,
    frame: &mut Frame,
    globals: &Handle,
    coming: &Coming,
) -> bool
    requires owned { Owns frame.old globals.now }
    requires unlocked { IsUnlocked frame.old }
    ensures keeps { Keeps frame.old frame.new }
    ensures unlocked { IsUnlocked frame.new }
{
    let keys = coming.keys.max(1);
    let mut whole = true;
    for list in 0..coming.lists {
        whole &= puts(rt, alloc, frame, globals, (list % keys) as i64);
    }
    whole
}

/// A bearer of number 1 leaves right after it has shared what it should, and is gathered.
fn bears(rt: &impl Wait, alloc: Global, heap: &Heap, root: &mut Root, coming: &Coming) -> bool
    requires root { root.old.table ≡ heap.now.table }
    ensures root { root.new.table ≡ root.old.table }
{
    let Ok(mut mutator) = root.register(alloc, heap) else {
        return false;
    };
    let is_one = mutator.thread() == 1;
    let whole = match mutator.globals() {
        Ok(globals) => {
            let whole = shares(rt, alloc, mutator.frame(), &globals, coming);
            mutator.frame().release(globals);
            whole
        }
        Err(_) => false,
    };
    match mutator.leave_without_waiting(1 << 20) {
        Ok(leaving) => root.gather(heap, leaving.finish_all(rt)),
        Err(mutator) => {
            let _ledger = mutator.settle_and_join(rt, root, heap);
        }
    }
    whole && is_one
}

/// All bearers of number 1, one after the other: whether all did what they should. Then it is over.
fn all_bear(
    rt: &impl Wait,
    alloc: Global,
    heap: &Heap,
    root: &mut Root,
    coming: Coming,
    threads: u32,
    over: &Mutex<bool>,
) -> bool
    requires root { root.old.table ≡ heap.now.table }
    ensures root { root.new.table ≡ root.old.table }
{
    let mut whole = true;
    for _ in 0..threads {
        whole &= bears(rt, alloc, heap, root, &coming);
    }
    *over.lock(rt) = true;
    whole
}

/// Thread 2, at rest; None where it can't be had. A thread that is gathered has number 1 meanwhile.
fn second(rt: &impl Wait, alloc: Global, heap: &Heap, root: &mut Root) -> Option<Resting>
    requires root { root.old.table ≡ heap.now.table }
    ensures root { root.new.table ≡ root.old.table }
    ensures heap { IfSome result (λ resting. resting.heap ≡ heap.now) }
{
    let first = root.register(alloc, heap).ok()?;
    let second = root.register(alloc, heap);
    let _ledger = first.settle_and_join(rt, root, heap);
    Some(second.ok()?.rest())
}

/// Both live at the same time, and thread 2 is gathered.
fn live<R>(
    rt: &R,
    alloc: Global,
    heap: &Heap,
    root: &mut Root,
    resting: Resting,
    coming: Coming,
    threads: u32,
) -> bool
where
    R: Threads + Wait + Sync,
    requires root { root.old.table ≡ heap.now.table }
    requires heap { resting.heap ≡ heap.now }
    ensures root { root.new.table ≡ root.old.table }
{
    let over = Mutex::new(false);
    let over = &over;
    let mut second = Some(resting);
    let (retired, whole) = join_mut(
        rt,
        &mut || -> Option<Retired>
            requires { IfSome second (λ resting. resting.heap ≡ heap.now) }
            ensures { IfSome result (λ retired. retired.heap ≡ heap.entry.now) }
        {
            let resting = second.take()?;
            Some(stays(rt, heap, resting, coming.keys, over))
        },
        &mut || -> bool
            requires { root.now.table ≡ heap.now.table }
            ensures { root.exit.now.table ≡ root.entry.now.table }
        { all_bear(rt, alloc, heap, root, coming, threads, over) },
    );
    match retired {
        Some(retired) => {
            root.gather(heap, retired);
            whole
        }
        None => false,
    }
}

/// Runs a heap so: whether all came to what it should.
pub fn runs_two<R>(rt: &R, alloc: Global, coming: Coming) -> bool
where
    R: Threads + Wait + Sync,
{
    let Ok((heap, mut root)) = Heap::new(alloc, coming.options()) else {
        return false;
    };
    // Thread 2, the one before it, and one that clears the globals make nothing.
    let threads = coming.registered.saturating_sub(3);
    let whole = match second(rt, alloc, &heap, &mut root) {
        Some(resting) => live(rt, alloc, &heap, &mut root, resting, coming, threads),
        None => false,
    };
    let cleared = clears(rt, alloc, &heap, &mut root);
    coming.ends(alloc, heap, root, threads) && whole && cleared
}
