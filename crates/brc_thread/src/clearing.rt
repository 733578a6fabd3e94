//! Clearing the globals.
//!
//! Their keys aren't known to whoever clears them, so their last entry is taken out, and its handle released, until a
//! look finds none. Another thread may put entries in meanwhile: after as many takes as a container may have entries
//! the call gives up.

ghost use Rattle.std.specs.Prelude.{◌≡◌, Some, OnErr};
ghost use Rattle.brc_words.specs.declared.limits.TheConstants.{GLOBALS};
ghost use Rattle.brc_count.specs.Frames.{IsUnlocked, Owns};
ghost use Rattle.brc_count.specs.Owned.{Keeps};
ghost use Rattle.brc_thread.specs.Clearing.{TakesGlobal, HandsSome, Looks, TakesAll, Clears};

use crate::mutator::Mutator;
use brc_count::biased::HasTable;
use brc_count::{Frame, Handle};
use brc_words::{Fault, MOST_ENTRIES};
use std::alloc::Allocator;

/// The last entry's reference of an object becomes a handle's; None where it has no entry. Busy where another thread
/// has it locked, then FrameFull and OutOfMemory.
fn take_last<H: HasTable<A>, A: Allocator>(
    frame: &mut Frame<H, A>,
    handle: &Handle<A>,
) -> Result<Option<Handle<A>>, Fault>
    requires owned { Owns frame.old handle.now }
    requires unlocked { IsUnlocked frame.old }
    ensures takes { TakesGlobal frame.old frame.new handle.now.place result }
    ensures hands { HandsSome frame.old frame.new result }
    ensures unlocked { IsUnlocked frame.new }
{
    let Some(mut block) = frame.begin(handle) else {
        return Err(Fault::Busy);
    };
    let len = block.payload().len();
    if len == 0 {
        frame.end_keep(block);
        return Ok(None);
    }
    if let Err(fault) = frame.place() {
        frame.end_keep(block);
        return Err(fault);
    }
    let index = len - 1;
    let place = index as u32;
    let entry = block.payload_mut().remove(index);
    Ok(Some(frame.end_take(block, place, entry.cell)))
}

/// Whether an object has an entry. Busy where another thread has it locked.
fn has_entry<H: HasTable<A>, A: Allocator>(
    frame: &mut Frame<H, A>,
    handle: &Handle<A>,
) -> Result<bool, Fault>
    requires owned { Owns frame.old handle.now }
    requires unlocked { IsUnlocked frame.old }
    ensures looks { Looks frame.old frame.new handle.now.place result }
    ensures keeps { Keeps frame.old frame.new }
    ensures unlocked { IsUnlocked frame.new }
{
    let Some(block) = frame.begin(handle) else {
        return Err(Fault::Busy);
    };
    let some = block.payload().len() > 0;
    frame.end_keep(block);
    Ok(some)
}

/// Takes the last entry of an object and releases it, until a look finds none.
fn take_all<H: HasTable<A>, A: Allocator>(
    frame: &mut Frame<H, A>,
    handle: &Handle<A>,
) -> Result<(), Fault>
    requires owned { Owns frame.old handle.now }
    requires unlocked { IsUnlocked frame.old }
    ensures takes { TakesAll frame.old frame.new handle.now.place result }
    ensures keeps { Keeps frame.old frame.new }
    ensures unlocked { IsUnlocked frame.new }
{
    for _ in 0..MOST_ENTRIES {
        match take_last(frame, handle)? {
            None => return Ok(()),
            Some(given) => frame.release(given),
        }
    }
    if has_entry(frame, handle)? {
        return Err(Fault::NotIdle);
    }
    Ok(())
}

impl<H: HasTable<A>, A: Allocator> Mutator<H, A> {
    /// Gives back what the globals hold, the entry that came last first. FrameFull and OutOfMemory where a handle to
    /// the globals can't be had; then, at any entry, Busy where another thread has them locked, FrameFull and
    /// OutOfMemory; and NotIdle where they still have an entry after 1,048,576 were taken. What was taken before a
    /// refusal stays given back.
    pub fn clear_globals(&mut self) -> Result<(), Fault>
        requires unlocked { IsUnlocked self.old }
        ensures clears { Clears self.old self.new result }

        ensures keeps { Keeps self.old self.new }
        ensures unlocked { IsUnlocked self.new }
    {
        let globals = self.frame.globals()?;
        let cleared = take_all(&mut self.frame, &globals);
        self.frame.release(globals);
        cleared
    }
}
