//! Objects that are locked by a guard: looked at, and unlocked as they were found, or with one entry more, fewer or
//! exchanged.

ghost use Rattle.std.specs.Prelude.{◌≡◌};
ghost use Rattle.brc_count.specs.Owned.{Keeps};
ghost use Rattle.brc_lock.specs.Holding.{HasLockedBlock};
ghost use Rattle.test_heap.specs.Calls.{OwnsBoth, OwnsOne, Parts, LosesOrKeeps, GainsOrKeeps, Stays};

use crate::tests::steps::Way;
use brc_count::biased::HasTable;
use brc_count::block::{Block, Entries, Payload};
use brc_count::{Frame, HandedBack, Handle};
use brc_lock::{Locked, lock, try_lock};
use brc_words::{Fault, Key};
use std::alloc::Allocator;
use std::process::Abort;
use std::sync::Wait;

/// A container that is to be locked, and how.
#[derive(Drop)]
pub(super) struct ToLock<'h, A: Allocator> {
    pub(super) container: &'h Handle<A>,
    pub(super) way: Way,
}

/// The container, locked.
fn locked<'f, H: HasTable<A>, A: Allocator>(
    rt: &(impl Abort + Wait),
    frame: &'f mut Frame<H, A>,
    to_lock: ToLock<'f, A>,
) -> Locked<'f, H, A, Block<A>>
    requires { OwnsOne frame.old to_lock.container.now }
    ensures same_reference { result.frame.ghost_name ≡ frame.entry.ghost_name }
    ensures handle { result.handle.now ≡ to_lock.entry.container.now }
    ensures holds { HasLockedBlock result.frame.now to_lock.entry.container.now result.block }
    ensures keeps { Keeps frame.old result.frame.now }
{
    let ToLock { container, way } = to_lock;
    match way {
        Way::AtOnce => match try_lock(frame, container) {
            Ok(locked) => locked,
            Err(_) => panic!(rt; "nobody else has it locked"),
        },
        Way::Late => lock(rt, frame, container),
    }
}

/// The value goes into a list, last. Where room for it is refused the list is unlocked as it was found.
pub(super) fn put_by_guard<H: HasTable<A>, A: Allocator + Copy>(
    rt: &(impl Abort + Wait),
    frame: &mut Frame<H, A>,
    list: ToLock<'_, A>,
    value: Handle<A>,
) -> Result<(), HandedBack<Handle<A>>>
    requires { OwnsBoth frame.old list.container.now value }
    ensures { LosesOrKeeps frame.old frame.new value result }
{
    let mut guard = locked(rt, frame, list);
    let Payload::List(_) = guard.payload() else {
        panic!(rt; "it is no list")
    };
    match guard.room() {
        Ok(()) => {
            guard.unlock_put(None, value);
            Ok(())
        }
        Err(fault) => {
            guard.unlock();
            Err(HandedBack { fault, value })
        }
    }
}

/// The value goes into an empty dictionary, beside this key.
pub(super) fn puts_a_pair<H: HasTable<A>, A: Allocator + Copy>(
    rt: &(impl Abort + Wait),
    frame: &mut Frame<H, A>,
    dict: ToLock<'_, A>,
    key: i64,
    value: Handle<A>,
)
    requires { OwnsBoth frame.old dict.container.now value }
    ensures { Parts frame.old frame.new value }
{
    let mut guard = locked(rt, frame, dict);
    let Payload::Dict(pairs) = guard.payload() else {
        panic!(rt; "it is no dictionary")
    };
    assert!(rt; pairs.len() == 0);
    match guard.room() {
        Ok(()) => guard.unlock_put(Some(Key::Int(key)), value),
        Err(_) => panic!(rt; "no room is made"),
    }
}

/// What becomes of an entry that a handle is had to: it stays in the list, or is taken out of it.
#[derive(Clone, Copy)]
pub(super) enum Entry {
    Stays,
    Goes,
}

/// A handle to an entry of the list. Where a place for it is refused the list is unlocked as it was found.
pub(super) fn had_by_guard<H: HasTable<A>, A: Allocator>(
    rt: &(impl Abort + Wait),
    frame: &mut Frame<H, A>,
    list: ToLock<'_, A>,
    index: u32,
    entry: Entry,
) -> Result<Handle<A>, Fault>
    requires { OwnsOne frame.old list.container.now }
    ensures { GainsOrKeeps frame.old frame.new result }
{
    let mut guard = locked(rt, frame, list);
    let Payload::List(cells) = guard.payload() else {
        panic!(rt; "it is no list")
    };
    assert!(rt; (index as usize) < cells.len());
    match guard.place() {
        Ok(()) => match entry {
            Entry::Stays => {
                let handle = guard.entry(index);
                guard.unlock();
                Ok(handle)
            }
            Entry::Goes => Ok(guard.unlock_take(index)),
        },
        Err(fault) => {
            guard.unlock();
            Err(fault)
        }
    }
}

/// The value and an entry of the list change places.
pub(super) fn swap_by_guard<H: HasTable<A>, A: Allocator>(
    rt: &(impl Abort + Wait),
    frame: &mut Frame<H, A>,
    list: ToLock<'_, A>,
    index: u32,
    value: Handle<A>,
) -> Handle<A>
    requires { OwnsBoth frame.old list.container.now value }
    ensures stays { Stays frame.old frame.new }
    ensures same { result ≡ value }
{
    let guard = locked(rt, frame, list);
    let Payload::List(cells) = guard.payload() else {
        panic!(rt; "it is no list")
    };
    assert!(rt; (index as usize) < cells.len());
    guard.unlock_swap(index, value)
}
