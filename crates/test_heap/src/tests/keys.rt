//! A copy of a key, its growth refused: it is refused until there is memory, and the key stays as it was. Of an
//! integer it takes none.

use crate::tests::comparing::same;
use crate::{Heaps, Memories, Pieces};
use brc_words::{Key, Text};
use linked_list_allocator::LocalHeap;
use std::alloc::{Allocator, Global};
use std::process::Abort;

/// A text that needs more than one piece of memory.
const SOME_TEXT: &str = "a text of more than sixteen bytes";

/// Whether the copy of the key can be had, and is as the key.
fn is_copied<A: Allocator>(alloc: A, key: &Key<A>) -> bool {
    match key.copy(alloc) {
        Err(_) => false,
        Ok(copy) => copy == *key,
    }
}

/// How often the copy is refused before there is memory for it. The key is this text each time.
fn refusals<'h>(
    rt: &impl Abort,
    scarce: &'h LocalHeap,
    pieces: &mut Pieces<'h>,
    key: &Key<&'h LocalHeap>,
    text: &Key<&'h LocalHeap>,
) -> u32 {
    for tried in 0..1_000 {
        assert!(rt; *key == *text);
        if is_copied(scarce, key) {
            return tried;
        }
        assert!(rt; pieces.give_one());
    }
    panic!(rt; "a copy that is never had")
}

/// A key of that text.
fn key_of<A: Allocator>(rt: &impl Abort, alloc: A) -> Key<A> {
    Key::Text(Text::new(String::from_str(alloc, SOME_TEXT).expect(rt, "memory")))
}

/// An integer's copy takes no memory, and a text's does.
fn copies(rt: &impl Abort, alloc: Global, memories: Memories<&LocalHeap>) {
    let key = key_of(rt, memories.scarce);
    let text = key_of(rt, memories.ample);
    let mut pieces = Pieces::take_all(alloc, memories.scarce).expect(
        rt,
        "a heap that is never full",
    );
    let used = pieces.used();
    assert!(rt; is_copied(memories.scarce, &Key::Int(7)));
    let refused = refusals(rt, memories.scarce, &mut pieces, &key, &text);
    assert!(rt; refused > 0);
    same(rt, pieces.used(), used);
}

#[test]
fn a_refused_copy_of_a_key_changes_nothing(rt: HostRuntime) {
    let heaps = Heaps::new(rt.alloc(), 1 << 10, 1 << 10).expect(&rt, "memory");
    copies(&rt, rt.alloc(), heaps.memories());
    same(&rt, heaps.used(), (0, 0));
}
