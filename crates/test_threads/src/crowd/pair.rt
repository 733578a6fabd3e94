//! The two threads of a heap: one makes a list, the other takes it out of the globals, and both let it go at once, and
//! leave.

ghost use Rattle.std.specs.Prelude.{◌≡◌};
ghost use Rattle.brc_heap.specs.Words.{IsUnlocked, Keeps, Owns};

use brc_heap::{
    Frame, Handle, Heap, Key, Mutator, Resting, Retired, dict_del, dict_put, len_of, new_list,
};
use std::alloc::Global;
use std::sync::Wait;
use std::thread;

/// The list's key in the globals.
const LIST: i64 = 1;

/// How often a thread looks whether the other has done its part, before it gives up: for some seconds.
const LOOKS: u32 = 10_000_000;

/// How many turns a thread that leaves takes at most to take apart what is dead.
const TURNS: usize = 1 << 20;

/// The globals get a reference to the list: whether they have it.
fn puts(rt: &impl Wait, frame: &mut Frame, globals: &Handle, list: &Handle) -> bool
    requires owned { Owns frame.old globals.now }
    requires list_owned { Owns frame.old list.now }
    requires unlocked { IsUnlocked frame.old }
    ensures keeps { Keeps frame.old frame.new }
    ensures unlocked { IsUnlocked frame.new }
{
    let Ok(again) = frame.retain(list) else {
        return false;
    };
    match dict_put(rt, frame, globals, Key::Int(LIST), again) {
        Ok(None) => true,
        Ok(Some(old)) => {
            frame.release(old);
            false
        }
        Err(handed) => {
            frame.release(handed.value.1);
            false
        }
    }
}

/// Waits until the list isn't in the globals any more: whether it came to that.
fn is_taken(rt: &impl Wait, frame: &mut Frame, globals: &Handle) -> bool
    requires owned { Owns frame.old globals.now }
    requires unlocked { IsUnlocked frame.old }
    ensures keeps { Keeps frame.old frame.new }
    ensures unlocked { IsUnlocked frame.new }
{
    for _ in 0..LOOKS {
        if len_of(rt, frame, globals) == Ok(0) {
            return true;
        }
        thread::yield_now();
    }
    false
}

/// A list is made and put into the globals, and let go as soon as the other thread has it: whether it came to that.
fn makes(rt: &impl Wait, alloc: Global, frame: &mut Frame, globals: &Handle) -> bool
    requires owned { Owns frame.old globals.now }
    requires unlocked { IsUnlocked frame.old }
    ensures keeps { Keeps frame.old frame.new }
    ensures unlocked { IsUnlocked frame.new }
{
    let Ok(list) = new_list(alloc, frame) else {
        return false;
    };
    let taken = puts(rt, frame, globals, &list) && is_taken(rt, frame, globals);
    frame.release(list);
    taken
}

/// Looks so often at the globals.
fn looks(rt: &impl Wait, frame: &mut Frame, globals: &Handle, count: u32)
    requires owned { Owns frame.old globals.now }
    requires unlocked { IsUnlocked frame.old }
    ensures keeps { Keeps frame.old frame.new }
    ensures unlocked { IsUnlocked frame.new }
{
    for _ in 0..count {
        let _len = len_of(rt, frame, globals);
    }
}

/// The list is taken out of the globals as soon as it is there, and let go after so many looks at them, since the other
/// thread lets it go a moment later: whether it came to that.
fn takes(rt: &impl Wait, frame: &mut Frame, globals: &Handle, after: u32) -> bool
    requires owned { Owns frame.old globals.now }
    requires unlocked { IsUnlocked frame.old }
    ensures keeps { Keeps frame.old frame.new }
    ensures unlocked { IsUnlocked frame.new }
{
    for _ in 0..LOOKS {
        match dict_del(rt, frame, globals, &Key::Int(LIST)) {
            Ok(list) => {
                looks(rt, frame, globals, after);
                frame.release(list);
                return true;
            }
            Err(_) => thread::yield_now(),
        }
    }
    false
}

/// What a thread of the two does.
#[derive(Clone, Copy)]
pub(crate) enum Part {
    /// It makes the list.
    Makes,
    /// It takes the list, and lets it go after so many looks at the globals.
    Takes(u32),
}

/// A thread does its part: whether it came to that.
fn plays(rt: &impl Wait, alloc: Global, mutator: &mut Mutator, part: Part) -> bool
    requires bare { mutator.old.len ≡ 0 }
    requires unlocked { IsUnlocked mutator.old }
    ensures heap { mutator.new.heap ≡ mutator.old.heap }
    ensures bare { mutator.new.len ≡ 0 }
    ensures unlocked { IsUnlocked mutator.new }
{
    let Ok(globals) = mutator.globals() else {
        return false;
    };
    let frame = mutator.frame();
    let done = match part {
        Part::Makes => makes(rt, alloc, frame, &globals),
        Part::Takes(after) => takes(rt, frame, &globals, after),
    };
    frame.release(globals);
    done
}

/// A thread takes apart what is dead and leaves, and finishes after that: what others asked of it, it looks at only then.
/// One that has too much to take apart settles first.
fn leaves(rt: &impl Wait, mutator: Mutator) -> Retired
    requires bare { mutator.len ≡ 0 }
    requires unlocked { IsUnlocked mutator }
    ensures heap { result.heap ≡ mutator.entry.heap }
{
    match mutator.leave_without_waiting(TURNS) {
        Ok(leaving) => leaving.finish_all(rt),
        Err(mutator) => mutator.settle_and_leave(rt),
    }
}

/// The life of one of the two: whether it has done its part, and what is to be gathered.
pub(crate) fn parts(
    rt: &impl Wait,
    alloc: Global,
    heap: &Heap,
    resting: Resting,
    part: Part,
) -> (bool, Retired)
    requires heap { resting.heap ≡ heap.now }
    ensures heap { result.1.heap ≡ heap.now }
{
    let mut mutator = resting.wake(heap);
    let done = plays(rt, alloc, &mut mutator, part);
    (done, leaves(rt, mutator))
}
