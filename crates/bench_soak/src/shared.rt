//! What threads that come and go do with what all of them share: lists that the globals hold, under few keys.

ghost use Rattle.std.specs.Prelude.{◌≡◌, IfSome, IfNone};
ghost use Rattle.brc_heap.specs.Words.{Gains, IsUnlocked, Keeps, Owns};

use brc_heap::{
    Frame, Handle, Heap, Key, Mutator, Root, dict_del, dict_find, dict_put, list_push, new_int,
    new_list,
};
use std::alloc::Global;
use std::sync::Wait;

/// How many objects are made with a list: itself, and the integer in it.
pub const WITH_LIST: u64 = 2;

/// So many turns of work follow a release.
const TURNS: usize = 8;

/// A new list with an integer in it; None where one of them can't be had.
fn a_list(rt: &impl Wait, alloc: Global, frame: &mut Frame) -> Option<Handle>
    requires unlocked { IsUnlocked frame.old }
    ensures gains { IfSome result (Gains frame.old frame.new) }
    ensures keeps { IfNone result (Keeps frame.old frame.new) }
    ensures unlocked { IsUnlocked frame.new }
{
    let list = new_list(alloc, frame).ok()?;
    let Ok(number) = new_int(alloc, frame, 1_000) else {
        frame.release(list);
        return None;
    };
    match list_push(rt, frame, &list, number) {
        Ok(()) => Some(list),
        Err(handed) => {
            frame.release(handed.value);
            frame.release(list);
            None
        }
    }
}

/// A new list goes into the globals, in place of the one that is there under this key: whether it is there now.
pub fn puts(rt: &impl Wait, alloc: Global, frame: &mut Frame, globals: &Handle, key: i64) -> bool
    requires owned { Owns frame.old globals.now }
    requires unlocked { IsUnlocked frame.old }
    ensures keeps { Keeps frame.old frame.new }
    ensures unlocked { IsUnlocked frame.new }
{
    let Some(list) = a_list(rt, alloc, frame) else {
        return false;
    };
    match dict_put(rt, frame, globals, Key::Int(key), list) {
        Ok(None) => true,
        Ok(Some(old)) => {
            frame.release(old);
            frame.work(TURNS);
            true
        }
        Err(handed) => {
            frame.release(handed.value.1);
            false
        }
    }
}

/// The list that is in the globals under this key is taken out of them and let go, if there is one.
pub fn takes(rt: &impl Wait, frame: &mut Frame, globals: &Handle, key: i64)
    requires owned { Owns frame.old globals.now }
    requires unlocked { IsUnlocked frame.old }
    ensures keeps { Keeps frame.old frame.new }
    ensures unlocked { IsUnlocked frame.new }
{
    if let Ok(list) = dict_del(rt, frame, globals, &Key::Int(key)) {
        frame.release(list);
        frame.work(TURNS);
    }
}

/// It is had, and let go again.
pub fn finds(rt: &impl Wait, frame: &mut Frame, globals: &Handle, key: i64)
    requires owned { Owns frame.old globals.now }
    requires unlocked { IsUnlocked frame.old }
    ensures keeps { Keeps frame.old frame.new }
    ensures unlocked { IsUnlocked frame.new }
{
    if let Ok(list) = dict_find(rt, frame, globals, &Key::Int(key)) {
        frame.release(list);
        frame.work(TURNS);
    }
}

/// One thread more clears the globals and ends: whether it could.
pub fn clears(rt: &impl Wait, alloc: Global, heap: &Heap, root: &mut Root) -> bool
    requires root { root.old.table ≡ heap.now.table }
    ensures root { root.new.table ≡ root.old.table }
{
    let Ok(mut last) = root.register(alloc, heap) else {
        return false;
    };
    let cleared = last.clear_globals().is_ok();
    let _ledger = last.settle_and_join(rt, root, heap);
    cleared
}
