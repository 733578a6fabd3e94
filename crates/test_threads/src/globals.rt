//! What threads put into the globals, and find there: a new list or mailbox under a key, which outlives the thread that
//! made it.

ghost use Rattle.std.specs.Prelude.{IfSome, IfNone};
ghost use Rattle.brc_heap.specs.Words.{Gains, IsUnlocked, Keeps, Owns};

use brc_count::Frame;
use brc_count::biased::HasTable;
use brc_heap::{Handle, Key, dict_find, dict_put, list_push, new_int, new_list, new_mailbox};
use std::alloc::Global;
use std::sync::Wait;

/// What is made.
#[derive(Clone, Copy)]
pub(crate) enum New {
    List,
    /// A list with this number as its first entry.
    ListOf(i64),
    Mailbox,
}

/// The number becomes the last entry of a list. None if it can't be had, or has no room there.
fn writes<H: HasTable<Global>>(
    rt: &impl Wait,
    alloc: Global,
    frame: &mut Frame<H, Global>,
    list: &Handle,
    number: i64,
) -> Option<()>
    requires owned { Owns frame.old list.now }
    requires unlocked { IsUnlocked frame.old }
    ensures keeps { Keeps frame.old frame.new }
    ensures unlocked { IsUnlocked frame.new }
{
    let Ok(number) = new_int(alloc, frame, number) else {
        return None;
    };
    match list_push(rt, frame, list, number) {
        Ok(()) => Some(()),
        Err(handed) => {
            frame.release(handed.value); // a refused call hands back what it took
            None
        }
    }
}

#[tactic(auto, using(crate::proofs::Written::written_gains, crate::proofs::Written::dropped_keeps))]
/// It is made. None if it can't be had, or its first entry.
fn makes<H: HasTable<Global>>(
    rt: &impl Wait,
    alloc: Global,
    frame: &mut Frame<H, Global>,
    new: New,
) -> Option<Handle>
    requires unlocked { IsUnlocked frame.old }
    ensures gains { IfSome result (Gains frame.old frame.new) }
    ensures keeps { IfNone result (Keeps frame.old frame.new) }
    ensures unlocked { IsUnlocked frame.new }
{
    let made = match new {
        New::Mailbox => new_mailbox(alloc, frame),
        _ => new_list(alloc, frame),
    };
    let Ok(made) = made else {
        return None;
    };
    let New::ListOf(first) = new else {
        return Some(made);
    };
    match writes(rt, alloc, frame, &made, first) {
        Some(()) => Some(made),
        None => {
            frame.release(made);
            None
        }
    }
}

/// It is made, and takes the place of what is there under this key, which is let go. None if it isn't put there.
pub(crate) fn puts_new<H: HasTable<Global>>(
    rt: &impl Wait,
    alloc: Global,
    frame: &mut Frame<H, Global>,
    globals: &Handle,
    key: i64,
    new: New,
) -> Option<()>
    requires owned { Owns frame.old globals.now }
    requires unlocked { IsUnlocked frame.old }
    ensures keeps { Keeps frame.old frame.new }
    ensures unlocked { IsUnlocked frame.new }
{
    let Some(made) = makes(rt, alloc, frame, new) else {
        return None;
    };
    match dict_put(rt, frame, globals, Key::Int(key), made) {
        Ok(None) => Some(()),
        Ok(Some(old)) => {
            frame.release(old);
            Some(())
        }
        Err(handed) => {
            frame.release(handed.value.1);
            None
        }
    }
}

/// One is put there under each key from the first up to the last, which has none: whether all are.
pub(crate) fn puts_each<H: HasTable<Global>>(
    rt: &impl Wait,
    alloc: Global,
    frame: &mut Frame<H, Global>,
    globals: &Handle,
    first: u32,
    last: u32,
    new: New,
) -> bool
    requires owned { Owns frame.old globals.now }
    requires unlocked { IsUnlocked frame.old }
    ensures keeps { Keeps frame.old frame.new }
    ensures unlocked { IsUnlocked frame.new }
{
    for key in first..last {
        if puts_new(rt, alloc, frame, globals, i64::from(key), new).is_none() {
            return false;
        }
    }
    true
}

/// The number is written to the list that is there under this key, whoever made it. None if it isn't written.
pub(crate) fn writes_to<H: HasTable<Global>>(
    rt: &impl Wait,
    alloc: Global,
    frame: &mut Frame<H, Global>,
    globals: &Handle,
    key: i64,
    number: i64,
) -> Option<()>
    requires owned { Owns frame.old globals.now }
    requires unlocked { IsUnlocked frame.old }
    ensures keeps { Keeps frame.old frame.new }
    ensures unlocked { IsUnlocked frame.new }
{
    let Ok(list) = dict_find(rt, frame, globals, &Key::Int(key)) else {
        return None;
    };
    let written = writes(rt, alloc, frame, &list, number);
    frame.release(list);
    written
}
