//! Two heaps at once: objects live and die each at its own. That a handle is of one heap and not of the other is what
//! contracts say of it; both heaps have a thread 1, a place 0 and a cell 266.

ghost use Rattle.brc_count.specs.Frames.{IsUnlocked};
ghost use Rattle.test_heap.specs.Calls.{Adds};

use crate::tests::comparing::same;
use crate::tests::phases::{SMALL, ends, says};
use brc_count::biased::HasTable;
use brc_count::{Frame, Handle};
use brc_things::{new_int, new_list};
use brc_thread::{Heap, take_apart};
use std::alloc::Allocator;
use std::process::Abort;

/// A new list.
fn a_list<H: HasTable<A>, A: Allocator + Copy>(
    rt: &impl Abort,
    alloc: A,
    frame: &mut Frame<H, A>,
) -> Handle<A>
    requires unlocked { IsUnlocked frame.old }
    ensures { Adds frame.old frame.new result }
{
    new_list(alloc, frame).expect(rt, "no list is made")
}

/// A new integer.
fn an_integer<H: HasTable<A>, A: Allocator + Copy>(
    rt: &impl Abort,
    alloc: A,
    frame: &mut Frame<H, A>,
    number: i64,
) -> Handle<A>
    requires unlocked { IsUnlocked frame.old }
    ensures { Adds frame.old frame.new result }
{
    new_int(alloc, frame, number).expect(rt, "no integer is made")
}

#[test]
fn objects_live_and_die_at_their_own_heap(rt: HostRuntime) {
    let (heap, mut root) = Heap::new(rt.alloc(), SMALL).expect(&rt, "no heap can be had");
    let (other, mut others) = Heap::new(rt.alloc(), SMALL).expect(&rt, "no heap can be had");
    let here = root.register(rt.alloc(), &heap);
    let mut here = here.expect(&rt, "a thread is refused");
    let there = others.register(rt.alloc(), &other);
    let mut there = there.expect(&rt, "a thread is refused");
    let list = a_list(&rt, rt.alloc(), here.frame());
    let number = an_integer(&rt, rt.alloc(), there.frame(), 1_000);
    let next = an_integer(&rt, rt.alloc(), there.frame(), 1_001);
    same(&rt, here.frame().cell(&list), 266);
    same(&rt, there.frame().cell(&number), 266);
    there.frame().release(number);
    here.frame().release(list);
    there.frame().release(next);
    says(&rt, here.settle_and_join(&rt, &mut root, &heap), (1, 1));
    says(&rt, there.settle_and_join(&rt, &mut others, &other), (2, 2));
    ends(&rt, take_apart(heap, root));
    ends(&rt, take_apart(other, others));
}
