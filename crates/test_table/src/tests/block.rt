//! Blocks, their lists and what they hold, without memory. What a call answers with memory is its contract.
//!
//! A test makes the values that have destructors, and lends them to the function that makes the calls, which then cost
//! the proof less.

use crate::comparing::{holds, same};
use brc_block::{Block, CellList, Entries, KeyRef, Letters, Pairs, Payload, Worklist};
use brc_words::{Entry, Fault, Key, Note};
use linked_list_allocator::LocalHeap;
use std::alloc::{Allocator, Global};
use std::process::Abort;

/// Pushes a block that holds the number of its cell, if there is memory for it.
fn push_block<A: Allocator>(list: &mut Worklist<A>, alloc: A, cell: u32) {
    if let Ok(block) = Block::new(alloc, cell, Payload::Int(i64::from(cell))) {
        list.push(block);
    }
}

/// The cell's entry, with a note that no other cell's has.
fn noted(cell: u32) -> Entry {
    let note = Note {
        label: cell.saturating_add(7),
        bits: u64::MAX.saturating_sub(u64::from(cell)),
    };
    Entry::new(cell, note)
}

/// Takes all the memory that the heap has left.
fn fill<'h>(rt: &impl Abort, alloc: Global, heap: &'h LocalHeap) -> Vec<Box<u8, &'h LocalHeap>> {
    let mut filler = Vec::new(alloc);
    for _ in 0..1_000_000 {
        match Box::new(heap, 0u8) {
            Ok(byte) => assert!(rt; filler.push(byte).is_ok()),
            Err(_) => return filler,
        }
    }
    panic!(rt; "a heap that is never full")
}

/// A pair more, whose key isn't there yet, or the key back.
fn put_new<A: Allocator + Copy>(
    rt: &impl Abort,
    pairs: &mut Pairs<A>,
    key: Key<A>,
    cell: u32,
) -> Result<(), Key<A>> {
    match pairs.find(KeyRef::of(&key)) {
        Some(_) => panic!(rt; "the key is there"),
        None => pairs.put(key, noted(cell)),
    }
}

/// A cell more, under its number as the key.
fn put_pair<A: Allocator + Copy>(rt: &impl Abort, pairs: &mut Pairs<A>, cell: u32) {
    let key = Key::Int(i64::from(cell));
    holds(rt, "put", put_new(rt, pairs, key, cell).is_ok());
}

/// The last pair has this number as its key and as its cell, and is taken.
fn pops_pair<A: Allocator>(rt: &impl Abort, pairs: &mut Pairs<A>, number: u32) {
    match pairs.pop() {
        Some((Key::Int(key), entry)) => {
            holds(
                rt,
                "its end",
                key == i64::from(number) && entry == noted(number),
            );
        }
        _ => panic!(rt; "another end"),
    }
}

/// A heap with so little memory that a test can fill it.
fn small_heap(rt: &impl Abort, alloc: Global) -> LocalHeap {
    LocalHeap::new(alloc, 1_000).expect(rt, "memory")
}

/// Two cells are put in, for which there is room.
fn takes_two(rt: &impl Abort, entries: &mut impl Entries) {
    for cell in [266, 267] {
        holds(rt, "put", entries.put(noted(cell)).is_ok());
    }
}

/// Two are put in so many times, for which there is just room. With all memory taken no room is made for one more, and
/// they stay. Answers what has the memory.
fn stays<'h>(
    rt: &impl Abort,
    alloc: Global,
    heap: &'h LocalHeap,
    entries: &mut impl Entries,
    times: usize,
) -> Vec<Box<u8, &'h LocalHeap>> {
    for _ in 0..times {
        takes_two(rt, entries);
    }
    let filler = fill(rt, alloc, heap);
    holds(rt, "no room is made", entries.reserve().is_err());
    holds(rt, "nothing is put", entries.put(noted(268)).is_err());
    same(rt, "its length", entries.len(), times.saturating_mul(2));
    same(rt, "its front", entries.noted(0), Some(noted(266)));
    same(rt, "the next", entries.noted(1), Some(noted(267)));
    filler
}

#[test]
fn a_list_without_memory_stays(rt: HostRuntime) {
    let heap = small_heap(&rt, rt.alloc());
    let mut cells = CellList::new(Vec::with_capacity(&heap, 2).expect(&rt, "memory"));
    let _filler = stays(&rt, rt.alloc(), &heap, &mut cells, 1);
    same(
        &rt,
        "as it was",
        cells.as_slice(),
        [noted(266), noted(267)].as_slice(),
    );

    // The place of an entry that was taken serves the next one.
    same(&rt, "its end", cells.pop(), Some(noted(267)));
    holds(&rt, "in its place", cells.put(noted(268)).is_ok());
}

#[test]
fn a_mailbox_without_memory_stays(rt: HostRuntime) {
    let heap = small_heap(&rt, rt.alloc());
    let mut letters = Letters::new(&heap).expect(&rt, "memory");
    // The first growth of a queue makes room for eight.
    let _filler = stays(&rt, rt.alloc(), &heap, &mut letters, 4);
    same(&rt, "its front", letters.take(), Some(noted(266)));
    holds(&rt, "in its place", letters.put(noted(268)).is_ok());
}

/// Pairs go in until there is no memory for one, whose key comes back; the answer is its number.
fn puts_until_refused<A: Allocator + Copy>(rt: &impl Abort, pairs: &mut Pairs<A>) -> u32 {
    for cell in 268..1_268u32 {
        if let Err(back) = put_new(rt, pairs, Key::Int(i64::from(cell)), cell) {
            holds(rt, "handed back", back == Key::Int(i64::from(cell)));
            return cell;
        }
    }
    panic!(rt; "memory that is never missing")
}

/// No room is made for one pair more, and those that are there stay; what takes none of them in wants no memory.
fn pairs_stay<A: Allocator + Copy>(rt: &impl Abort, pairs: &mut Pairs<A>) {
    let refused = puts_until_refused(rt, pairs);
    holds(rt, "no room is made", pairs.reserve().is_err());
    same(
        rt,
        "its length",
        pairs.len(),
        refused.saturating_sub(266) as usize,
    );
    same(rt, "where it was", pairs.find(KeyRef::Int(267)), Some(1));
    pops_pair(rt, pairs, refused.saturating_sub(1));
    if pairs.len() > 1 {
        pairs.set(1, noted(400));
        holds(
            rt,
            "removed",
            matches!(pairs.remove(0), (Key::Int(266), entry) if entry == noted(266)),
        );
    }
    same(rt, "where it is now", pairs.find(KeyRef::Int(267)), Some(0));
    same(rt, "its entry", pairs.noted(0), Some(noted(400)));
}

#[test]
fn a_dictionary_without_memory_stays(rt: HostRuntime) {
    let heap = small_heap(&rt, rt.alloc());
    let mut pairs = Pairs::new(&heap);
    for cell in [266, 267] {
        put_pair(&rt, &mut pairs, cell);
    }
    let _filler = fill(&rt, rt.alloc(), &heap);
    pairs_stay(&rt, &mut pairs);
}

#[test]
fn a_first_pair_without_memory_is_refused(rt: HostRuntime) {
    let heap = small_heap(&rt, rt.alloc());
    let _filler = fill(&rt, rt.alloc(), &heap);
    let mut pairs = Pairs::new(&heap);
    holds(
        &rt,
        "refused",
        pairs.put(Key::Int(266), noted(266)).is_err(),
    );
    same(&rt, "its length", pairs.len(), 0);
    same(&rt, "no entry", pairs.noted(0), None);
}

#[test]
fn a_list_of_blocks_takes_no_memory(rt: HostRuntime) {
    let heap = LocalHeap::new(rt.alloc(), 16_000_000).expect(&rt, "memory");
    let mut first = Worklist::new();
    for cell in 0..100_000u32 {
        push_block(&mut first, &heap, cell);
    }
    let filler = fill(&rt, rt.alloc(), &heap);
    let mut second = Worklist::new();
    while let Some(block) = first.pop() {
        second.push(block);
    }
    assert_eq!(rt; second.len(), 100_000);
    while let Some(block) = second.pop() {
        let _payload = block.into_payload();
    }
    first.end();
    second.end();
    drop(filler);
    assert_eq!(rt; heap.used(), 0);
}

#[test]
fn a_refused_block_gives_the_payload_back(rt: HostRuntime) {
    let heap = LocalHeap::new(rt.alloc(), 16).expect(&rt, "memory");
    match Block::new(&heap, 266, Payload::Int(42)) {
        Ok(block) => {
            let _payload = block.into_payload();
            panic!(rt; "a block in 16 bytes");
        }
        Err((fault, payload)) => {
            assert!(rt; fault == Fault::OutOfMemory && matches!(payload, Payload::Int(42)));
        }
    }
}
