//! The calls on a list that never wait.

ghost use Rattle.std.specs.Prelude.{◌≡◌, ◌≢◌, IfOk, IfErr, OnOk, OnErr};
ghost use Rattle.brc_count.specs.Frames.{IsUnlocked, Owns};
ghost use Rattle.brc_count.specs.Owned.{Keeps, Gains, Loses};
ghost use Rattle.brc_things.specs.List_Calls.{ListPush, ListPop, ListTake, ListGet, ListSet};

use crate::rows::last_place;
use crate::within::{put_locked, share_locked, swap_locked, take_locked};
use brc_count::biased::HasTable;
use brc_count::{Frame, HandedBack, Handle};
use brc_words::{Fault, Kind};
use std::alloc::Allocator;

/// The value's reference becomes the last entry of the list. A refusal hands the value back: Busy where another thread
/// has the object locked, then WrongKind where it is no list, Full where it has 1,048,576 entries, and OutOfMemory.
#[inline]
pub fn try_list_push<H: HasTable<A>, A: Allocator>(
    frame: &mut Frame<H, A>,
    list: &Handle<A>,
    value: Handle<A>,
) -> Result<(), HandedBack<Handle<A>>>
    requires owned { Owns frame.old list.now }
    requires value_owned { Owns frame.old value }
    requires apart { value.place ≢ list.now.place }
    requires unlocked { IsUnlocked frame.old }
    ensures pushed { ListPush frame.old frame.new list.now.place value.place result }
    ensures loses { OnOk result (Loses frame.old frame.new value) }
    ensures keeps { OnErr result (Keeps frame.old frame.new) }
    ensures unlocked { IsUnlocked frame.new }
    ensures back { IfErr result (λ handed. handed.value ≡ value) }
{
    let Some(block) = frame.begin(list) else {
        return Err(HandedBack {
            fault: Fault::Busy,
            value,
        });
    };
    put_locked(frame, Kind::List, block, value)
}

/// The reference of the list's last entry is the answer's now. The faults come in this order: Busy where another thread
/// has the object locked, WrongKind where it is no list, NoSuchPlace where it has no entry, FrameFull, OutOfMemory.
#[inline]
pub fn try_list_pop<H: HasTable<A>, A: Allocator>(
    frame: &mut Frame<H, A>,
    list: &Handle<A>,
) -> Result<Handle<A>, Fault>
    requires owned { Owns frame.old list.now }
    requires unlocked { IsUnlocked frame.old }
    ensures popped { ListPop frame.old frame.new list.now.place result }
    ensures gains { IfOk result (Gains frame.old frame.new) }
    ensures keeps { OnErr result (Keeps frame.old frame.new) }
    ensures unlocked { IsUnlocked frame.new }
{
    let Some(block) = frame.begin(list) else {
        return Err(Fault::Busy);
    };
    let last = last_place(block.payload());
    take_locked(frame, Kind::List, block, last)
}

/// The reference of an entry of the list is the answer's now; later entries close up. The faults come in this order:
/// Busy where another thread has the object locked, WrongKind where it is no list, NoSuchPlace past its end, FrameFull,
/// OutOfMemory.
#[inline]
pub fn try_list_take<H: HasTable<A>, A: Allocator>(
    frame: &mut Frame<H, A>,
    list: &Handle<A>,
    index: u32,
) -> Result<Handle<A>, Fault>
    requires owned { Owns frame.old list.now }
    requires unlocked { IsUnlocked frame.old }
    ensures taken { ListTake frame.old frame.new list.now.place index result }
    ensures gains { IfOk result (Gains frame.old frame.new) }
    ensures keeps { OnErr result (Keeps frame.old frame.new) }
    ensures unlocked { IsUnlocked frame.new }
{
    let Some(block) = frame.begin(list) else {
        return Err(Fault::Busy);
    };
    take_locked(frame, Kind::List, block, index as usize)
}

/// A handle more to an entry of the list. The faults come in this order: Busy where another thread has the object
/// locked, WrongKind where it is no list, NoSuchPlace past its end, FrameFull, OutOfMemory.
#[inline]
pub fn try_list_get<H: HasTable<A>, A: Allocator>(
    frame: &mut Frame<H, A>,
    list: &Handle<A>,
    index: u32,
) -> Result<Handle<A>, Fault>
    requires owned { Owns frame.old list.now }
    requires unlocked { IsUnlocked frame.old }
    ensures shared { ListGet frame.old frame.new list.now.place index result }
    ensures gains { IfOk result (Gains frame.old frame.new) }
    ensures keeps { OnErr result (Keeps frame.old frame.new) }
    ensures unlocked { IsUnlocked frame.new }
{
    let Some(block) = frame.begin(list) else {
        return Err(Fault::Busy);
    };
    share_locked(frame, block, index)
}

/// The references of an entry of the list and of the value are exchanged; the answer is the same handle, which has the
/// old entry's now. It takes no memory. A refusal hands the value back: Busy where another thread has the object
/// locked, then WrongKind where it is no list, and NoSuchPlace past its end.
#[inline]
pub fn try_list_set<H: HasTable<A>, A: Allocator>(
    frame: &mut Frame<H, A>,
    list: &Handle<A>,
    index: u32,
    value: Handle<A>,
) -> Result<Handle<A>, HandedBack<Handle<A>>>
    requires owned { Owns frame.old list.now }
    requires value_owned { Owns frame.old value }
    requires apart { value.place ≢ list.now.place }
    requires unlocked { IsUnlocked frame.old }
    ensures set { ListSet frame.old frame.new list.now.place index value.place result }
    ensures keeps { Keeps frame.old frame.new }
    ensures same { IfOk result (λ old. old ≡ value) }
    ensures unlocked { IsUnlocked frame.new }
    ensures back { IfErr result (λ handed. handed.value ≡ value) }
{
    let Some(block) = frame.begin(list) else {
        return Err(HandedBack {
            fault: Fault::Busy,
            value,
        });
    };
    swap_locked(frame, block, index, value)
}
