//! Locking.

ghost use Rattle.std.specs.Prelude.{◌≡◌, IfOk, IfErr};
ghost use Rattle.std.specs.Borrow.{sem, RestsIfErr};
ghost use Rattle.brc_words.specs.declared.fault.Fault.TheVariants as faults;
ghost use Rattle.brc_count.specs.Frames.{IsUnlocked, Owns};
ghost use Rattle.brc_count.specs.Owned.{Keeps};
ghost use Rattle.brc_count.specs.Locking.{Began, KeepsThread, KeepsFrame};
ghost use Rattle.brc_count.specs.contracts.frame.Frame.{the_row};
ghost use Rattle.brc_things.specs.Waiting.{IsBusy, BeginsLate};
ghost use Rattle.brc_lock.specs.Holding.{HasLockedBlock};

use crate::locked::Locked;
use brc_count::biased::HasTable;
use brc_count::block::Block;
use brc_count::{Frame, Handle};
use brc_things::begin_late;
use brc_words::Fault;
use std::alloc::Allocator;
use std::sync::Wait;

/// Locks the handle's object and answers its block, or Busy.
#[inline(always)]
fn begin_or_busy<H: HasTable<A>, A: Allocator>(
    frame: &mut Frame<H, A>,
    handle: &Handle<A>,
) -> Result<Block<A>, Fault>
    requires owned { Owns frame.old handle.now }
    requires unlocked { IsUnlocked frame.old }
    ensures began { IfOk result (Began frame.old frame.new handle.now.place) }
    ensures busy { IfErr result (λ fault. (fault ≡ faults.Busy) × IsBusy frame.old frame.new handle.now.place) }
    ensures keeps { KeepsThread frame.old frame.new }
    ensures frame { KeepsFrame frame.old frame.new }
{
    match frame.begin(handle) {
        Some(block) => Ok(block),
        None => Err(Fault::Busy),
    }
}

/// Locks the handle's object. Busy where another thread has it locked, and then nothing changed but a note.
#[inline]
pub fn try_lock<'f, H: HasTable<A>, A: Allocator>(
    frame: &'f mut Frame<H, A>,
    handle: &'f Handle<A>,
) -> Result<Locked<'f, H, A, Block<A>>, Fault>
    requires owned { Owns frame.old handle.now }
    requires unlocked { IsUnlocked frame.old }
    ensures* rests { sem 𝓛 (RestsIfErr (the_row H.row A.row H.HasTable A.Allocator) frame.entry (λ l. l.frame.ghost_name)
        result (λ last. IsBusy frame.entry.now last handle.now.place)) }
    ensures same_reference { IfOk result (λ l. l.frame.ghost_name ≡ frame.entry.ghost_name) }
    ensures began { IfOk result (λ l. Began frame.old l.frame.now handle.now.place l.block) }
    ensures holds { IfOk result (λ l. HasLockedBlock l.frame.now handle.now l.block) }
    ensures keeps { IfOk result (λ l. KeepsThread frame.old l.frame.now) }
    ensures frame { IfOk result (λ l. KeepsFrame frame.old l.frame.now) }
    ensures owns { IfOk result (λ l. Keeps frame.old l.frame.now) }
    ensures handle { IfOk result (λ l. l.handle.now ≡ handle.now) }
    ensures busy { IfErr result (λ fault. fault ≡ faults.Busy) }
{
    let block = begin_or_busy(frame, handle)?;
    Ok(Locked::new(frame, handle, block))
}

/// Locks the handle's object, once no other thread has it locked.
#[inline]
pub fn lock<'f, H: HasTable<A>, A: Allocator>(
    rt: &impl Wait,
    frame: &'f mut Frame<H, A>,
    handle: &'f Handle<A>,
) -> Locked<'f, H, A, Block<A>>
    requires owned { Owns frame.old handle.now }
    requires unlocked { IsUnlocked frame.old }
    ensures same_reference { result.frame.ghost_name ≡ frame.entry.ghost_name }
    ensures began { BeginsLate frame.old result.frame.now handle.now.place result.block }
    ensures owns { Keeps frame.old result.frame.now }
    ensures holds { HasLockedBlock result.frame.now handle.now result.block }
    ensures handle { result.handle.now ≡ handle.now }
{
    let block = begin_late(rt, frame, handle);
    Locked::new(frame, handle, block)
}
