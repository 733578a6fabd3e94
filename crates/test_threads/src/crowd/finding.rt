//! The list in the globals: how it comes there, and how a thread finds it.

ghost use Rattle.brc_heap.specs.Words.{IsUnlocked, Keeps, Owns};

use crate::crowd::counted::{Counted, Want};
use crate::globals::{New, puts_new};
use brc_heap::{Fault, Frame, Handle, Key, Kind, Mutator, dict_find, kind_of};
use std::alloc::Global;
use std::sync::Wait;

/// The list's key in the globals.
const LIST: i64 = 1;

/// How often each thread looks for it.
const TRIES: u32 = 100;

/// The globals get a new list, to which no handle is kept, unless something is refused.
pub(crate) fn shares_list(rt: &impl Wait, alloc: Global, mutator: &mut Mutator<'_>) -> Counted
    requires unlocked { IsUnlocked mutator.old }
    ensures keeps { Keeps mutator.old mutator.new }
    ensures unlocked { IsUnlocked mutator.new }
{
    let Ok(globals) = mutator.globals() else {
        return Counted::wanting(Want::Handle);
    };
    let put = puts_new(rt, alloc, mutator.frame(), &globals, LIST, New::List);
    mutator.frame().release(globals);
    match put {
        Some(()) => Counted::NOTHING,
        None => Counted::wanting(Want::List),
    }
}

/// One look for the list, which is let go at once.
fn looks(rt: &impl Wait, frame: &mut Frame, globals: &Handle) -> Counted
    requires owned { Owns frame.old globals.now }
    requires unlocked { IsUnlocked frame.old }
    ensures keeps { Keeps frame.old frame.new }
    ensures unlocked { IsUnlocked frame.new }
{
    match dict_find(rt, frame, globals, &Key::Int(LIST)) {
        Ok(list) => {
            let is_list = matches!(kind_of(rt, frame, &list), Kind::List);
            frame.release(list);
            Counted::look(is_list)
        }
        // The list may be there, and no handle to it can be had.
        Err(Fault::FrameFull | Fault::OutOfMemory) => {
            Counted::look(false).and(Counted::wanting(Want::Handle))
        }
        Err(_) => Counted::look(false),
    }
}

/// As many looks as a thread has.
fn looks_often(rt: &impl Wait, frame: &mut Frame, globals: &Handle) -> Counted
    requires owned { Owns frame.old globals.now }
    requires unlocked { IsUnlocked frame.old }
    ensures keeps { Keeps frame.old frame.new }
    ensures unlocked { IsUnlocked frame.new }
{
    let mut counted = Counted::NOTHING;
    for _ in 0..TRIES {
        counted = counted.and(looks(rt, frame, globals));
    }
    counted
}

/// The thread looks for the list in the globals, again and again.
pub(crate) fn finds(rt: &impl Wait, mutator: &mut Mutator<'_>) -> Counted
    requires unlocked { IsUnlocked mutator.old }
    ensures keeps { Keeps mutator.old mutator.new }
    ensures unlocked { IsUnlocked mutator.new }
{
    let Ok(globals) = mutator.globals() else {
        return Counted::wanting(Want::Handle);
    };
    let counted = looks_often(rt, mutator.frame(), &globals);
    mutator.frame().release(globals);
    counted
}
