//! Mailboxes: calls that never wait, and letters of two real threads in one mailbox.

ghost use Rattle.std.specs.Prelude.{◌≡◌};
ghost use Rattle.brc_count.specs.Frames.{IsUnlocked};
ghost use Rattle.test_heap.specs.Calls.{Adds, OwnsOne, Stays};

use crate::tests::comparing::same;
use crate::tests::phases::ends;
use crate::tests::worlds::{Case, WIDE, plays_all};
use brc_count::biased::HasTable;
use brc_count::{Frame, Handle};
use brc_things::{dict_find, int_of, len_of, new_int, new_mailbox, recv, send, try_dict_put};
use brc_thread::{Heap, Options, Resting, Retired, take_apart};
use brc_words::Key;
use std::alloc::{Allocator, Global};
use std::process::Abort;
use std::sync::Wait;
use std::thread::{Threads, join};

const CASES: &[Case] = &[Case {
    name: "calls that never wait find the letters in the order in which they were sent",
    on: WIDE,
    steps: "make mailbox; try_send int 1000 into 0; try_send int 1001 into 0; try_recv 0 = 1000; try_recv 0 = 1001;
        try_recv 0 = NoSuchPlace; release 0; settle; ledger = 3 born, 3 freed",
}];

#[test]
fn mailboxes_do_what_they_should(rt: HostRuntime) {
    plays_all(&rt, rt.alloc(), CASES);
}

/// A handle to the mailbox that stands in the globals beside 7.
fn mailbox<H: HasTable<A>, A: Allocator>(
    rt: &(impl Abort + Wait),
    frame: &mut Frame<H, A>,
) -> Handle<A>
    requires unlocked { IsUnlocked frame.old }
    ensures { Adds frame.old frame.new result }
{
    let globals = frame.globals().expect(rt, "no place is left");
    let mailbox = dict_find(rt, frame, &globals, &Key::Int(7)).expect(rt, "no mailbox is there");
    frame.release(globals);
    mailbox
}

/// One letter with this number goes into it.
fn sends_one<R: Abort + Wait, H: HasTable<A>, A: Allocator + Copy>(
    rt: &R,
    alloc: A,
    frame: &mut Frame<H, A>,
    number: i64,
)
    requires unlocked { IsUnlocked frame.old }
    ensures { Stays frame.old frame.new }
{
    let mailbox = mailbox(rt, frame);
    let letter = new_int(alloc, frame, number).expect(rt, "no integer is made");
    match send(rt, frame, &mailbox, letter) {
        Ok(()) => {}
        Err(_handed) => panic!(rt; "a letter is refused"),
    }
    frame.release(mailbox);
}

/// A thread that sends 1,000 integers, from this number up.
fn sends<R: Abort + Wait, A: Allocator + Copy>(
    rt: &R,
    alloc: A,
    heap: &Heap<A>,
    resting: Resting<A>,
    from: i64,
) -> Retired<A>
    requires heap { resting.heap ≡ heap.now }
    ensures heap { result.heap ≡ heap.now }
{
    let mut mutator = resting.wake(heap);
    for number in 0..1_000 {
        sends_one(rt, alloc, mutator.frame(), from.wrapping_add(number));
        let _told = mutator.poll();
        let _left = mutator.work(2);
    }
    mutator.settle_and_leave(rt)
}

/// Two threads send at once, each on a thread of its own.
fn two_send<R: Threads + Abort + Wait + Sync>(
    rt: &R,
    alloc: Global,
    heap: &Heap<Global>,
    first: Resting<Global>,
    second: Resting<Global>,
) -> (Retired<Global>, Retired<Global>)
    requires first { first.heap ≡ heap.now }
    requires second { second.heap ≡ heap.now }
    ensures first { result.0.heap ≡ heap.now }
    ensures second { result.1.heap ≡ heap.now }
{
    join(
        rt,
        || sends(rt, alloc, heap, first, 1_000),
        || sends(rt, alloc, heap, second, 10_000),
    )
}

/// The first letter's number, which goes.
fn receives<H: HasTable<A>, A: Allocator>(
    rt: &(impl Abort + Wait),
    frame: &mut Frame<H, A>,
    mailbox: &Handle<A>,
) -> i64
    requires { OwnsOne frame.old mailbox.now }
    ensures { Stays frame.old frame.new }
{
    let letter = recv(rt, frame, mailbox).expect(rt, "no letter is there");
    let number = int_of(rt, frame, &letter).expect(rt, "it is no integer");
    frame.release(letter);
    number
}

/// All letters are received: each sender's come in their order, and there are 2,000.
fn receives_all<R: Abort + Wait, H: HasTable<A>, A: Allocator>(rt: &R, frame: &mut Frame<H, A>)
    requires unlocked { IsUnlocked frame.old }
    ensures { Stays frame.old frame.new }
{
    let mailbox = mailbox(rt, frame);
    let mut first: i64 = 1_000;
    let mut second: i64 = 10_000;
    for _ in 0..2_000 {
        let number = receives(rt, frame, &mailbox);
        if number < 10_000 {
            same(rt, number, first);
            first = first.wrapping_add(1);
        } else {
            same(rt, number, second);
            second = second.wrapping_add(1);
        }
        let _told = frame.poll();
        let _left = frame.work(2);
    }
    same(rt, len_of(rt, frame, &mailbox), Ok(0));
    frame.release(mailbox);
}

/// A new mailbox goes into the globals, beside 7.
fn opens<H: HasTable<A>, A: Allocator + Copy>(rt: &impl Abort, alloc: A, frame: &mut Frame<H, A>)
    requires unlocked { IsUnlocked frame.old }
    ensures { Stays frame.old frame.new }
{
    let globals = frame.globals().expect(rt, "no place is left");
    let mailbox = new_mailbox(alloc, frame).expect(rt, "no mailbox is made");
    match try_dict_put(frame, &globals, Key::Int(7), mailbox) {
        Ok(None) => {}
        Ok(Some(_old)) => panic!(rt; "the key was there"),
        Err(_handed) => panic!(rt; "a mailbox is refused"),
    }
    frame.release(globals);
}

#[test]
fn letters_of_two_threads_come_in_their_order(rt: HostRuntime) {
    let (heap, mut root) = Heap::new(rt.alloc(), Options::DEFAULT).expect(
        &rt,
        "no heap can be had",
    );
    let last = root.register(rt.alloc(), &heap);
    let mut last = last.expect(&rt, "a thread is refused");
    opens(&rt, rt.alloc(), last.frame());
    let first = root
        .register(rt.alloc(), &heap)
        .expect(&rt, "a thread is refused")
        .rest();
    let second = root
        .register(rt.alloc(), &heap)
        .expect(&rt, "a thread is refused")
        .rest();
    let (first, second) = two_send(&rt, rt.alloc(), &heap, first, second);
    root.gather(&heap, first);
    root.gather(&heap, second);
    receives_all(&rt, last.frame());
    assert!(rt; last.clear_globals().is_ok());
    let _ledger = last.settle_and_join(&rt, &mut root, &heap);
    same(
        &rt,
        (root.ledger().allocs, root.ledger().frees),
        (2_001, 2_001),
    );
    ends(&rt, take_apart(heap, root));
}
