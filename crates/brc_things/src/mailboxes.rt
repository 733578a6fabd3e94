//! The calls on a mailbox that never wait.

ghost use Rattle.std.specs.Prelude.{◌≡◌, ◌≢◌, IfOk, IfErr, OnOk, OnErr};
ghost use Rattle.brc_count.specs.Frames.{IsUnlocked, Owns};
ghost use Rattle.brc_count.specs.Owned.{Keeps, Gains, Loses};
ghost use Rattle.brc_things.specs.List_Calls.{MailboxSend, MailboxReceive};

use crate::within::{put_locked, take_locked};
use brc_count::biased::HasTable;
use brc_count::{Frame, HandedBack, Handle};
use brc_words::{Fault, Kind};
use std::alloc::Allocator;

/// The value's reference becomes the last entry of the mailbox. A refusal hands the value back: Busy where another
/// thread has the object locked, then WrongKind where it is no mailbox, Full where it has 1,048,576 entries, and
/// OutOfMemory.
#[inline]
pub fn try_send<H: HasTable<A>, A: Allocator>(
    frame: &mut Frame<H, A>,
    mailbox: &Handle<A>,
    value: Handle<A>,
) -> Result<(), HandedBack<Handle<A>>>
    requires owned { Owns frame.old mailbox.now }
    requires value_owned { Owns frame.old value }
    requires apart { value.place ≢ mailbox.now.place }
    requires unlocked { IsUnlocked frame.old }
    ensures sent { MailboxSend frame.old frame.new mailbox.now.place value.place result }
    ensures loses { OnOk result (Loses frame.old frame.new value) }
    ensures keeps { OnErr result (Keeps frame.old frame.new) }
    ensures unlocked { IsUnlocked frame.new }
    ensures back { IfErr result (λ handed. handed.value ≡ value) }
{
    let Some(block) = frame.begin(mailbox) else {
        return Err(HandedBack {
            fault: Fault::Busy,
            value,
        });
    };
    put_locked(frame, Kind::Mailbox, block, value)
}

/// The reference of the mailbox's first entry is the answer's now. The faults come in this order: Busy where another
/// thread has the object locked, WrongKind where it is no mailbox, NoSuchPlace where it has no entry, FrameFull,
/// OutOfMemory.
#[inline]
pub fn try_recv<H: HasTable<A>, A: Allocator>(
    frame: &mut Frame<H, A>,
    mailbox: &Handle<A>,
) -> Result<Handle<A>, Fault>
    requires owned { Owns frame.old mailbox.now }
    requires unlocked { IsUnlocked frame.old }
    ensures received { MailboxReceive frame.old frame.new mailbox.now.place result }
    ensures gains { IfOk result (Gains frame.old frame.new) }
    ensures keeps { OnErr result (Keeps frame.old frame.new) }
    ensures unlocked { IsUnlocked frame.new }
{
    let Some(block) = frame.begin(mailbox) else {
        return Err(Fault::Busy);
    };
    take_locked(frame, Kind::Mailbox, block, 0)
}
