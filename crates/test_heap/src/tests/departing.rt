//! A thread that departs: it neither waits nor polls, and has no dead block left.

use crate::tests::comparing::same;
use crate::tests::phases::{SMALL, ends};
use brc_things::new_list;
use brc_thread::{Heap, take_apart};

#[test]
fn a_dead_block_keeps_a_thread_until_there_are_turns_for_it(rt: HostRuntime) {
    let (heap, mut root) = Heap::new(rt.alloc(), SMALL).expect(&rt, "no heap can be had");
    let thread = root.register(rt.alloc(), &heap);
    let mut thread = thread.expect(&rt, "a thread is refused");
    let list = new_list(rt.alloc(), thread.frame()).expect(&rt, "no list is made");
    thread.frame().release(list);
    let thread = match thread.leave_without_waiting(0) {
        Ok(_leaving) => panic!(rt; "it has left with a dead block"),
        Err(thread) => thread,
    };
    same(&rt, (thread.ledger().allocs, thread.ledger().frees), (1, 0));
    let leaving = match thread.leave_without_waiting(1) {
        Ok(leaving) => leaving,
        Err(_thread) => panic!(rt; "a dead block is left"),
    };
    assert!(rt; leaving.is_done());
    let retired = leaving.finish_all(&rt);
    same(
        &rt,
        (retired.ledger().allocs, retired.ledger().frees),
        (1, 1),
    );
    root.gather(&heap, retired);
    ends(&rt, take_apart(heap, root));
}
