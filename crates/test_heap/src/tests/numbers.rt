//! Numbers of threads: the next thread bears the lowest that nobody has, and 64 bear one at a time. What a thread made
//! is there when another one bears its number.

ghost use Rattle.std.specs.Prelude.{◌≡◌, []};
ghost use Rattle.brc_count.specs.Frames.{IsUnlocked};
ghost use Rattle.test_heap.specs.Calls.{Stays};

use crate::tests::comparing::same;
use crate::tests::phases::{LEAST, SMALL, ends, says};
use brc_count::Frame;
use brc_count::biased::HasTable;
use brc_heap::close_or_end;
use brc_things::{new_list, try_dict_put};
use brc_thread::{Heap, Mutator, Resting, Root, take_apart};
use brc_words::{Fault, Key};
use std::alloc::{Allocator, Global};
use std::process::Abort;
use std::sync::Wait;

/// The next thread, which bears this number, and has made and freed nothing.
fn bears<'h>(
    rt: &impl Abort,
    alloc: Global,
    heap: &'h Heap<Global>,
    root: &mut Root<Global>,
    number: u32,
) -> Mutator<&'h Heap<Global>, Global>
    requires heap { root.old.table ≡ heap.now.table }
    ensures heap { result.heap ≡ heap.now }
    ensures idle { (result.len ≡ 0) × (result.works ≡ []) }
    ensures unlocked { IsUnlocked result }
    ensures root { root.new.table ≡ root.old.table }
{
    same(rt, root.next(), number);
    let mutator = root.register(alloc, heap).expect(rt, "a thread is refused");
    same(rt, mutator.thread(), number);
    says(rt, mutator.ledger(), (0, 0));
    mutator
}

/// The same, at rest.
fn rests(
    rt: &impl Abort,
    alloc: Global,
    heap: &Heap<Global>,
    root: &mut Root<Global>,
    number: u32,
) -> Resting<Global>
    requires heap { root.old.table ≡ heap.now.table }
    ensures heap { result.heap ≡ heap.now }
    ensures root { root.new.table ≡ root.old.table }
{
    bears(rt, alloc, heap, root, number).rest()
}

/// A thread at rest wakes and ends, and the root gathers it: nobody bears its number any more.
fn gathers<R: Abort + Wait>(
    rt: &R,
    heap: &Heap<Global>,
    root: &mut Root<Global>,
    resting: Resting<Global>,
)
    requires heap { root.old.table ≡ heap.now.table }
    requires same_heap { resting.heap ≡ heap.now }
    ensures root { root.new.table ≡ root.old.table }
{
    let ledger = resting.wake(heap).settle_and_join(rt, root, heap);
    says(rt, ledger, (0, 0));
}

/// No thread more is registered, and the root is as it was.
fn is_full(rt: &impl Abort, alloc: Global, heap: &Heap<Global>, root: &mut Root<Global>)
    requires heap { root.old.table ≡ heap.now.table }
    ensures root { root.new.table ≡ root.old.table }
{
    let before = (root.next(), root.registered(), root.gathered());
    match root.register(alloc, heap) {
        Err(fault) => same(rt, fault, Fault::TooManyThreads),
        Ok(mutator) => {
            let _resting = mutator.rest();
            panic!(rt; "a thread too many")
        }
    }
    same(
        rt,
        (root.next(), root.registered(), root.gathered()),
        before,
    );
}

#[test]
fn the_lowest_number_is_given_first(rt: HostRuntime) {
    let (heap, mut root) = Heap::new(rt.alloc(), LEAST).expect(&rt, "no heap can be had");
    let one = rests(&rt, rt.alloc(), &heap, &mut root, 1);
    let two = rests(&rt, rt.alloc(), &heap, &mut root, 2);
    let _three = rests(&rt, rt.alloc(), &heap, &mut root, 3);
    gathers(&rt, &heap, &mut root, two);
    gathers(&rt, &heap, &mut root, one);
    let _one = rests(&rt, rt.alloc(), &heap, &mut root, 1);
    let _two = rests(&rt, rt.alloc(), &heap, &mut root, 2);
    let _four = rests(&rt, rt.alloc(), &heap, &mut root, 4);
    same(&rt, (root.registered(), root.gathered()), (6, 2));
    ends(&rt, take_apart(heap, root));
}

/// At rest a thread can be dropped: but for the first two none of them ever wakes.
#[test]
fn no_more_than_64_threads_are_there(rt: HostRuntime) {
    let (heap, mut root) = Heap::new(rt.alloc(), LEAST).expect(&rt, "no heap can be had");
    let one = rests(&rt, rt.alloc(), &heap, &mut root, 1);
    let two = rests(&rt, rt.alloc(), &heap, &mut root, 2);
    for number in 3..65u32 {
        let _resting = rests(&rt, rt.alloc(), &heap, &mut root, number);
    }
    is_full(&rt, rt.alloc(), &heap, &mut root);
    gathers(&rt, &heap, &mut root, two);
    gathers(&rt, &heap, &mut root, one);
    let _one = rests(&rt, rt.alloc(), &heap, &mut root, 1);
    let _two = rests(&rt, rt.alloc(), &heap, &mut root, 2);
    is_full(&rt, rt.alloc(), &heap, &mut root);
    ends(&rt, take_apart(heap, root));
}

/// One thread after the other, as many as a heap has in its life.
#[test]
fn no_more_than_65_536_threads_are_registered(rt: HostRuntime) {
    let (heap, mut root) = Heap::new(rt.alloc(), LEAST).expect(&rt, "no heap can be had");
    for _ in 0..65_536u32 {
        let resting = rests(&rt, rt.alloc(), &heap, &mut root, 1);
        gathers(&rt, &heap, &mut root, resting);
    }
    same(&rt, root.registered(), 65_536);
    is_full(&rt, rt.alloc(), &heap, &mut root);
    ends(&rt, take_apart(heap, root));
}

/// A new list goes into the globals, beside this key.
fn shares_a_list<H: HasTable<A>, A: Allocator + Copy>(
    rt: &impl Abort,
    alloc: A,
    frame: &mut Frame<H, A>,
    key: i64,
)
    requires unlocked { IsUnlocked frame.old }
    ensures { Stays frame.old frame.new }
{
    let globals = frame.globals().expect(rt, "no place is left");
    let list = new_list(alloc, frame).expect(rt, "no list is made");
    match try_dict_put(frame, &globals, Key::Int(key), list) {
        Ok(None) => {}
        Ok(Some(_old)) => panic!(rt; "the key was there"),
        Err(_handed) => panic!(rt; "a list is refused"),
    }
    frame.release(globals);
}

/// The next thread puts a new list into the globals, beside this key, leaves it there, and is gathered.
fn leaves_a_list<R: Abort + Wait>(
    rt: &R,
    alloc: Global,
    heap: &Heap<Global>,
    root: &mut Root<Global>,
    key: i64,
)
    requires heap { root.old.table ≡ heap.now.table }
    ensures root { root.new.table ≡ root.old.table }
{
    let mut mutator = bears(rt, alloc, heap, root, 1);
    shares_a_list(rt, alloc, mutator.frame(), key);
    match mutator.leave() {
        Err(_mutator) => panic!(rt; "a handle or a block is left"),
        Ok(leaving) => match leaving.finish() {
            Err(_leaving) => panic!(rt; "an entry or a block is left"),
            Ok(retired) => {
                says(rt, retired.ledger(), (1, 0));
                root.gather(heap, retired);
            }
        },
    }
}

/// The next thread clears the globals, which have so many lists, ends and is gathered.
fn clears<R: Abort + Wait>(
    rt: &R,
    alloc: Global,
    heap: &Heap<Global>,
    root: &mut Root<Global>,
    lists: u64,
)
    requires heap { root.old.table ≡ heap.now.table }
    ensures root { root.new.table ≡ root.old.table }
{
    let mut mutator = bears(rt, alloc, heap, root, 1);
    assert!(rt; mutator.clear_globals().is_ok());
    let ledger = mutator.settle_and_join(rt, root, heap);
    says(rt, ledger, (0, lists));
}

/// Each of 200 threads bears number 1 and leaves a list, and one more frees all of these.
#[test]
fn lists_outlive_the_threads_that_made_them(rt: HostRuntime) {
    let (heap, mut root) = Heap::new(rt.alloc(), SMALL).expect(&rt, "no heap can be had");
    for key in 0..200i64 {
        leaves_a_list(&rt, rt.alloc(), &heap, &mut root, key);
    }
    clears(&rt, rt.alloc(), &heap, &mut root, 200);
    same(
        &rt,
        (root.registered(), root.gathered(), root.next()),
        (201, 201, 1),
    );
    says(&rt, root.ledger(), (200, 200));
    let Ok(report) = close_or_end(rt.alloc(), heap, root) else {
        panic!(rt; "no report can be had")
    };
    same(&rt, (report.ledger.allocs, report.ledger.frees), (200, 200));
    same(&rt, (report.live, report.remains.len()), (0, 0));
}
