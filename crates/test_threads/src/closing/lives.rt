//! What the only thread of a heap does before it ends, step by step. If something is refused, the step does no more.

ghost use Rattle.brc_heap.specs.Words.{IsUnlocked, Keeps, Owns};

use brc_heap::{Frame, Handle, Key, Mutator, Text, dict_put, list_push, new_list, new_text};
use std::alloc::Allocator;
use std::sync::Wait;

/// The step by which a list is left that nobody else holds.
pub(crate) const HOLDS_ITSELF: &str = "leave a list that holds itself";

/// A list gets a handle to itself, and its other handle goes.
fn holds_itself<A: Allocator + Copy>(rt: &impl Wait, alloc: A, frame: &mut Frame<'_, A>)
    requires unlocked { IsUnlocked frame.old }
    ensures keeps { Keeps frame.old frame.new }
    ensures unlocked { IsUnlocked frame.new }
{
    let Ok(list) = new_list(alloc, frame) else {
        return;
    };
    let Ok(again) = frame.retain(&list) else {
        frame.release(list);
        return;
    };
    if let Err(handed) = list_push(rt, frame, &list, again) {
        frame.release(handed.value);
    }
    frame.release(list);
}

/// A new text goes into the dictionary.
fn puts_a_text<A: Allocator + Copy>(
    rt: &impl Wait,
    alloc: A,
    frame: &mut Frame<'_, A>,
    dict: &Handle<A>,
)
    requires owned { Owns frame.old dict.now }
    requires unlocked { IsUnlocked frame.old }
    ensures keeps { Keeps frame.old frame.new }
    ensures unlocked { IsUnlocked frame.new }
{
    let Ok(bytes) = String::from_str(alloc, "kept") else {
        return;
    };
    let Ok(text) = new_text(alloc, frame, Text::new(bytes)) else {
        return;
    };
    match dict_put(rt, frame, dict, Key::Int(1), text) {
        Ok(None) => {}
        Ok(Some(old)) => frame.release(old),
        Err(handed) => frame.release(handed.value.1),
    }
}

/// The globals get a new text.
fn leaves_a_text<A: Allocator + Copy>(rt: &impl Wait, alloc: A, mutator: &mut Mutator<'_, A>)
    requires unlocked { IsUnlocked mutator.old }
    ensures keeps { Keeps mutator.old mutator.new }
    ensures unlocked { IsUnlocked mutator.new }
{
    let Ok(globals) = mutator.globals() else {
        return;
    };
    puts_a_text(rt, alloc, mutator.frame(), &globals);
    mutator.frame().release(globals);
}

/// The thread takes these steps, one after the other.
pub(crate) fn lives<A: Allocator + Copy>(
    rt: &impl Wait,
    alloc: A,
    mutator: &mut Mutator<'_, A>,
    steps: &str,
)
    requires unlocked { IsUnlocked mutator.old }
    ensures keeps { Keeps mutator.old mutator.new }
    ensures unlocked { IsUnlocked mutator.new }
{
    for step in steps.split("; ") {
        match step {
            HOLDS_ITSELF => holds_itself(rt, alloc, mutator.frame()),
            "leave a text" => leaves_a_text(rt, alloc, mutator),
            "clear the globals" => {
                let _cleared = mutator.clear_globals();
            }
            _ => {}
        }
    }
}
