//! Containers in use, at their limit, and without memory. What a call answers is its contract.

use crate::tests::comparing::{all_hold, holds, same};
use brc_plain::{PlainDict, PlainList, PlainQueue};
use brc_words::{Fault, Key, MOST_ENTRIES};
use linked_list_allocator::LocalHeap;
use std::alloc::{Allocator, Global};
use std::process::Abort;

// Each test makes what has a destructor, and lends it to a function that makes the calls: so they cost the proof less.

/// All the memory that the heap has left, in one piece.
fn fill<'h>(rt: &impl Abort, heap: &'h LocalHeap) -> Vec<u8, &'h LocalHeap> {
    let filler = Vec::with_capacity(heap, heap.free()).expect(rt, "memory");
    assert!(rt; heap.free() == 0);
    filler
}

/// Whether the dictionary has these keys, in this order, each with this value.
fn reads<A: Allocator>(dict: &PlainDict<u32, A>, pairs: &[(i64, u32)]) -> bool {
    if dict.len() != pairs.len() {
        return false;
    }
    for (own, wanted) in dict.as_slice().iter().zip(pairs) {
        if !own.0.is_same(&Key::Int(wanted.0)) || own.1 != wanted.1 {
            return false;
        }
    }
    true
}

fn use_at_the_end(rt: &impl Abort, list: &mut PlainList<u32, Global>) {
    let cases = [
        ("empty", list.is_empty()),
        ("no end", matches!(list.pop(), Err(Fault::NoSuchPlace))),
        ("pushed", list.push(5u32).is_ok()),
        ("pushed", list.push(6).is_ok()),
        ("pushed", list.push(7).is_ok()),
        ("set", matches!(list.set(1, 60), Ok(6))),
        (
            "set past the end",
            matches!(list.set(3, 70), Err((Fault::NoSuchPlace, 70))),
        ),
        ("read", matches!(list.get(1), Ok(60))),
        (
            "read past the end",
            matches!(list.get(3), Err(Fault::NoSuchPlace)),
        ),
        ("the end", matches!(list.pop(), Ok(7))),
        ("its length", list.len() == 2),
    ];
    all_hold(rt, cases.as_slice());
    same(rt, "the rest", list.as_slice(), [5, 60].as_slice());
}

#[test]
fn a_list_is_used_at_its_end(rt: HostRuntime) {
    let mut list = PlainList::new(rt.alloc());
    use_at_the_end(&rt, &mut list);
}

/// The value is put under the key, where this value was.
fn puts<A: Allocator>(
    rt: &impl Abort,
    dict: &mut PlainDict<u32, A>,
    key: i64,
    value: u32,
    old: Option<u32>,
) {
    match dict.put(Key::Int(key), value) {
        Ok(found) => same(rt, "the old value", found, old),
        Err(_refused) => panic!(rt; "refused"),
    }
}

fn keep_the_order(rt: &impl Abort, dict: &mut PlainDict<u32, Global>) {
    holds(rt, "empty", dict.is_empty());
    puts(rt, dict, 1, 10, None);
    puts(rt, dict, 2, 20, None);
    puts(rt, dict, 3, 30, None);
    let cases = [
        ("deleted", matches!(dict.delete(&Key::Int(2)), Ok(20))),
        (
            "twice",
            matches!(dict.delete(&Key::Int(2)), Err(Fault::NoSuchKey)),
        ),
    ];
    all_hold(rt, cases.as_slice());
    puts(rt, dict, 2, 21, None);
    puts(rt, dict, 1, 11, Some(10));
    holds(rt, "in order", reads(dict, &[(1, 11), (3, 30), (2, 21)]));
    let cases = [
        ("found", matches!(dict.find(&Key::Int(3)), Ok(30))),
        (
            "not there",
            matches!(dict.find(&Key::Int(4)), Err(Fault::NoSuchKey)),
        ),
    ];
    all_hold(rt, cases.as_slice());
}

#[test]
fn a_dictionary_keeps_the_order_of_its_keys(rt: HostRuntime) {
    let mut dict = PlainDict::new(rt.alloc());
    keep_the_order(&rt, &mut dict);
}

fn use_at_both_ends(rt: &impl Abort, queue: &mut PlainQueue<u32, Global>) {
    let cases = [
        ("empty", queue.is_empty()),
        (
            "no first",
            matches!(queue.receive(), Err(Fault::NoSuchPlace)),
        ),
        ("sent", queue.send(5u32).is_ok()),
        ("sent", queue.send(6).is_ok()),
        ("sent", queue.send(7).is_ok()),
        ("the first", matches!(queue.receive(), Ok(5))),
        ("the second", matches!(queue.receive(), Ok(6))),
        ("its length", queue.len() == 1),
    ];
    all_hold(rt, cases.as_slice());
}

#[test]
fn a_queue_gives_the_first_put_in(rt: HostRuntime) {
    let mut queue = PlainQueue::new(rt.alloc());
    use_at_both_ends(&rt, &mut queue);
}

/// A list or a queue.
trait Row {
    /// The value goes in at the end.
    fn take(&mut self, value: u32) -> Result<(), (Fault, u32)>;

    fn has_none(&self) -> bool;
}

impl<A: Allocator> Row for PlainList<u32, A> {
    fn take(&mut self, value: u32) -> Result<(), (Fault, u32)> {
        self.push(value)
    }

    fn has_none(&self) -> bool {
        self.is_empty()
    }
}

impl<A: Allocator> Row for PlainQueue<u32, A> {
    fn take(&mut self, value: u32) -> Result<(), (Fault, u32)> {
        self.send(value)
    }

    fn has_none(&self) -> bool {
        self.is_empty()
    }
}

/// As many values go in as it may have, and no more.
fn fill_up(rt: &impl Abort, row: &mut impl Row) {
    for value in 0..MOST_ENTRIES {
        holds(rt, "taken", row.take(value).is_ok());
    }
    same(rt, "one more", row.take(7), Err((Fault::Full, 7)));
}

fn change_the_full_list(rt: &impl Abort, list: &mut PlainList<u32, Global>) {
    let cases = [
        ("set", matches!(list.set(0, 7), Ok(0))),
        ("the end", list.pop() == Ok(MOST_ENTRIES - 1)),
        ("in its place", list.push(8).is_ok()),
    ];
    all_hold(rt, cases.as_slice());
}

#[test]
fn a_full_list_takes_no_more(rt: HostRuntime) {
    let mut list = PlainList::new(rt.alloc());
    fill_up(&rt, &mut list);
    change_the_full_list(&rt, &mut list);
}

#[test]
fn a_full_queue_takes_no_more(rt: HostRuntime) {
    let mut queue = PlainQueue::new(rt.alloc());
    fill_up(&rt, &mut queue);
    same(&rt, "the first", queue.receive(), Ok(0));
    holds(&rt, "in its place", queue.send(8).is_ok());
}

/// All the memory of a heap, for a test that starts with it.
fn heap_of(rt: &impl Abort, alloc: Global) -> LocalHeap {
    LocalHeap::new(alloc, 1_000).expect(rt, "memory")
}

/// Without memory a value is handed back, and with memory it goes in.
fn hands_back(rt: &impl Abort, heap: &LocalHeap, row: &mut impl Row) {
    let filler = fill(rt, heap);
    same(rt, "taken", row.take(7), Err((Fault::OutOfMemory, 7)));
    holds(rt, "empty", row.has_none());
    drop(filler);
    holds(rt, "with memory", row.take(7).is_ok());
}

#[test]
fn a_list_hands_back_what_it_cannot_hold(rt: HostRuntime) {
    let heap = heap_of(&rt, rt.alloc());
    hands_back(&rt, &heap, &mut PlainList::new(&heap));
}

#[test]
fn a_queue_hands_back_what_it_cannot_hold(rt: HostRuntime) {
    let heap = heap_of(&rt, rt.alloc());
    hands_back(&rt, &heap, &mut PlainQueue::new(&heap));
}

#[test]
fn a_dictionary_hands_back_what_it_cannot_hold(rt: HostRuntime) {
    let heap = heap_of(&rt, rt.alloc());
    let mut dict = PlainDict::new(&heap);
    let filler = fill(&rt, &heap);
    assert!(rt;
        matches!(
            dict.put(Key::Int(1), 7),
            Err((Fault::OutOfMemory, (Key::Int(1), 7)))
        )
    );
    holds(&rt, "empty", dict.is_empty());
    drop(filler);
    puts(&rt, &mut dict, 1, 7, None);

    // A key that is there wants no memory.
    let _filler = fill(&rt, &heap);
    puts(&rt, &mut dict, 1, 8, Some(7));
    holds(&rt, "the new value", reads(&dict, &[(1, 8)]));
}
