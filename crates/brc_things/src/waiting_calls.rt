//! The forms that wait: they try again until the object isn't locked by another thread. What each does then is what its
//! form with `try_` does, from the frame that the lost tries left (`lost_tries_change_nothing`).

ghost use Rattle.std.specs.Prelude.{◌≡◌, ◌≢◌, IfOk, IfErr, OnOk, OnErr};
ghost use Rattle.brc_words.specs.declared.fault.Fault.TheVariants as faults;
ghost use Rattle.brc_count.specs.Frames.{IsUnlocked, Owns};
ghost use Rattle.brc_count.specs.Owned.{Keeps, Gains, Loses};
ghost use Rattle.brc_things.specs.Called.{Late};
ghost use Rattle.brc_things.specs.List_Calls.{ListPush, ListPop, ListTake, ListGet, ListSet, MailboxSend, MailboxReceive};

use crate::late::begin_late;
use crate::rows::last_place;
use crate::within::{put_locked, share_locked, swap_locked, take_locked};
use brc_count::biased::HasTable;
use brc_count::{Frame, HandedBack, Handle};
use brc_words::{Fault, Kind};
use std::alloc::Allocator;
use std::sync::Wait;

/// The value's reference becomes the last entry of the list, once no other thread has it locked. A refusal hands the
/// value back: WrongKind where it is no list, then Full where it has 1,048,576 entries, and OutOfMemory.
#[inline(always)]
pub fn list_push<H: HasTable<A>, A: Allocator>(
    rt: &impl Wait,
    frame: &mut Frame<H, A>,
    list: &Handle<A>,
    value: Handle<A>,
) -> Result<(), HandedBack<Handle<A>>>
    requires owned { Owns frame.old list.now }
    requires value_owned { Owns frame.old value }
    requires apart { value.place ≢ list.now.place }
    requires unlocked { IsUnlocked frame.old }
    ensures pushed { Late frame.old list.now.place (λ mid. ListPush mid frame.new list.now.place value.place result) }
    ensures loses { OnOk result (Loses frame.old frame.new value) }
    ensures keeps { OnErr result (Keeps frame.old frame.new) }
    ensures unlocked { IsUnlocked frame.new }
    ensures back { IfErr result (λ handed. handed.value ≡ value) }
    ensures waited { IfErr result (λ handed. handed.fault ≢ faults.Busy) }
{
    let block = begin_late(rt, frame, list);
    put_locked(frame, Kind::List, block, value)
}

/// The reference of the list's last entry is the answer's now, once no other thread has the list locked. The faults
/// come in this order: WrongKind where it is no list, NoSuchPlace where it has no entry, FrameFull, OutOfMemory.
#[inline(always)]
pub fn list_pop<H: HasTable<A>, A: Allocator>(
    rt: &impl Wait,
    frame: &mut Frame<H, A>,
    list: &Handle<A>,
) -> Result<Handle<A>, Fault>
    requires owned { Owns frame.old list.now }
    requires unlocked { IsUnlocked frame.old }
    ensures popped { Late frame.old list.now.place (λ mid. ListPop mid frame.new list.now.place result) }
    ensures gains { IfOk result (Gains frame.old frame.new) }
    ensures keeps { OnErr result (Keeps frame.old frame.new) }
    ensures unlocked { IsUnlocked frame.new }
    ensures waited { IfErr result (λ fault. fault ≢ faults.Busy) }
{
    let block = begin_late(rt, frame, list);
    let last = last_place(block.payload());
    take_locked(frame, Kind::List, block, last)
}

/// The reference of an entry of the list is the answer's now, once no other thread has the list locked; later entries
/// close up. The faults come in this order: WrongKind where it is no list, NoSuchPlace past its end, FrameFull,
/// OutOfMemory.
#[inline]
pub fn list_take<H: HasTable<A>, A: Allocator>(
    rt: &impl Wait,
    frame: &mut Frame<H, A>,
    list: &Handle<A>,
    index: u32,
) -> Result<Handle<A>, Fault>
    requires owned { Owns frame.old list.now }
    requires unlocked { IsUnlocked frame.old }
    ensures taken { Late frame.old list.now.place (λ mid. ListTake mid frame.new list.now.place index result) }
    ensures gains { IfOk result (Gains frame.old frame.new) }
    ensures keeps { OnErr result (Keeps frame.old frame.new) }
    ensures unlocked { IsUnlocked frame.new }
    ensures waited { IfErr result (λ fault. fault ≢ faults.Busy) }
{
    let block = begin_late(rt, frame, list);
    take_locked(frame, Kind::List, block, index as usize)
}

/// A handle more to an entry of the list, once no other thread has the list locked. The faults come in this order:
/// WrongKind where it is no list, NoSuchPlace past its end, FrameFull, OutOfMemory.
#[inline]
pub fn list_get<H: HasTable<A>, A: Allocator>(
    rt: &impl Wait,
    frame: &mut Frame<H, A>,
    list: &Handle<A>,
    index: u32,
) -> Result<Handle<A>, Fault>
    requires owned { Owns frame.old list.now }
    requires unlocked { IsUnlocked frame.old }
    ensures shared { Late frame.old list.now.place (λ mid. ListGet mid frame.new list.now.place index result) }
    ensures gains { IfOk result (Gains frame.old frame.new) }
    ensures keeps { OnErr result (Keeps frame.old frame.new) }
    ensures unlocked { IsUnlocked frame.new }
    ensures waited { IfErr result (λ fault. fault ≢ faults.Busy) }
{
    let block = begin_late(rt, frame, list);
    share_locked(frame, block, index)
}

/// The references of an entry of the list and of the value are exchanged, once no other thread has the list locked; the
/// answer is the same handle, which has the old entry's now. It takes no memory. A refusal hands the value back:
/// WrongKind where it is no list, then NoSuchPlace past its end.
#[inline]
pub fn list_set<H: HasTable<A>, A: Allocator>(
    rt: &impl Wait,
    frame: &mut Frame<H, A>,
    list: &Handle<A>,
    index: u32,
    value: Handle<A>,
) -> Result<Handle<A>, HandedBack<Handle<A>>>
    requires owned { Owns frame.old list.now }
    requires value_owned { Owns frame.old value }
    requires apart { value.place ≢ list.now.place }
    requires unlocked { IsUnlocked frame.old }
    ensures set { Late frame.old list.now.place (λ mid. ListSet mid frame.new list.now.place index value.place result) }
    ensures keeps { Keeps frame.old frame.new }
    ensures same { IfOk result (λ old. old ≡ value) }
    ensures unlocked { IsUnlocked frame.new }
    ensures back { IfErr result (λ handed. handed.value ≡ value) }
    ensures waited { IfErr result (λ handed. handed.fault ≢ faults.Busy) }
{
    let block = begin_late(rt, frame, list);
    swap_locked(frame, block, index, value)
}

/// The value's reference becomes the last entry of the mailbox, once no other thread has it locked. A refusal hands the
/// value back: WrongKind where it is no mailbox, then Full where it has 1,048,576 entries, and OutOfMemory.
#[inline]
pub fn send<H: HasTable<A>, A: Allocator>(
    rt: &impl Wait,
    frame: &mut Frame<H, A>,
    mailbox: &Handle<A>,
    value: Handle<A>,
) -> Result<(), HandedBack<Handle<A>>>
    requires owned { Owns frame.old mailbox.now }
    requires value_owned { Owns frame.old value }
    requires apart { value.place ≢ mailbox.now.place }
    requires unlocked { IsUnlocked frame.old }
    ensures sent { Late frame.old mailbox.now.place
        (λ mid. MailboxSend mid frame.new mailbox.now.place value.place result) }
    ensures loses { OnOk result (Loses frame.old frame.new value) }
    ensures keeps { OnErr result (Keeps frame.old frame.new) }
    ensures unlocked { IsUnlocked frame.new }
    ensures back { IfErr result (λ handed. handed.value ≡ value) }
    ensures waited { IfErr result (λ handed. handed.fault ≢ faults.Busy) }
{
    let block = begin_late(rt, frame, mailbox);
    put_locked(frame, Kind::Mailbox, block, value)
}

/// The reference of the mailbox's first entry is the answer's now, once no other thread has the mailbox locked. The
/// faults come in this order: WrongKind where it is no mailbox, NoSuchPlace where it has no entry, FrameFull,
/// OutOfMemory.
#[inline]
pub fn recv<H: HasTable<A>, A: Allocator>(
    rt: &impl Wait,
    frame: &mut Frame<H, A>,
    mailbox: &Handle<A>,
) -> Result<Handle<A>, Fault>
    requires owned { Owns frame.old mailbox.now }
    requires unlocked { IsUnlocked frame.old }
    ensures received { Late frame.old mailbox.now.place (λ mid. MailboxReceive mid frame.new mailbox.now.place result) }
    ensures gains { IfOk result (Gains frame.old frame.new) }
    ensures keeps { OnErr result (Keeps frame.old frame.new) }
    ensures unlocked { IsUnlocked frame.new }
    ensures waited { IfErr result (λ fault. fault ≢ faults.Busy) }
{
    let block = begin_late(rt, frame, mailbox);
    take_locked(frame, Kind::Mailbox, block, 0)
}
