//! Where a result goes: its place is there before the call that gives it is made, so nothing that was given is without
//! one. `open` has the place, then the call is made; `fill` puts in what it gave, and `close` takes a new place off again.

ghost use Rattle.std.specs.Prelude.{◌≡◌, ◌≢◌, ◌+◌, ◌<◌, Some, OnErr, IfOk, IfErr, MatchOption, length, slice_set};
ghost use Rattle.brc_count.specs.Frames.{HandleSeen, IsUnlocked, Owns};
ghost use Rattle.brc_count.specs.Owned.{Loses};
ghost use Rattle.brc_handles.specs.Handles.{slot, filled, IsApart, OwnsEach};
ghost use Rattle.brc_places.specs.Placing.{TakenOff, IsOpen, NotOpened, Opened};

use brc_count::biased::HasTable;
use brc_count::{Frame, Handle};
use brc_handles::Handles;
use brc_words::Fault;
use std::alloc::Allocator;

/// Where a result goes.
#[derive(Clone, Copy, Debug, PartialEq, Eq)]
pub enum To {
    /// Into a new place after all others.
    Last,
    /// Into this place; what is in it is released.
    Place(usize),
}

/// The place that a result will fill, by its number; a new one is empty until then. NoSuchPlace where it isn't there;
/// OutOfMemory where a new one can't be had. It does nothing to the frame, and borrows it to name it.
#[inline(always)]
pub(crate) fn open<H: HasTable<A>, A: Allocator>(
    frame: &Frame<H, A>,
    handles: &mut Handles<A>,
    to: To,
) -> Result<usize, Fault>
    requires each { OwnsEach frame.now handles.old }

    ensures each { OwnsEach frame.now handles.new }
    ensures count { filled handles.new ≡ filled handles.old }
    ensures apart { (h : HandleSeen) → IsApart h handles.old → IsApart h handles.new }

    ensures opened { IfOk result (Opened to handles.old handles.new) }
    ensures refused { IfErr result (NotOpened to handles.old) }
    ensures unchanged { OnErr result (handles.new ≡ handles.old) }
{
    match to {
        To::Place(index) => {
            if index >= handles.len() {
                return Err(Fault::NoSuchPlace);
            }
            Ok(index)
        }
        To::Last => {
            let index = handles.len();
            match handles.push_empty() {
                Ok(()) => Ok(index),
                Err(fault) => Err(fault),
            }
        }
    }
}

/// A place that was opened and not filled is as before: a new one goes.
#[inline(always)]
pub(crate) fn close<A: Allocator>(handles: &mut Handles<A>, to: To)
    requires opened { IsOpen to handles.old }
    ensures closed { TakenOff to handles.old handles.new }
{
    match to {
        To::Place(_) => {}
        To::Last => match handles.pop() {
            Some(None) => {}
            Some(Some(_handle)) => unreachable!(),
            None => unreachable!(),
        },
    }
}

/// The handle into this place, and what was there is released. It takes no memory.
#[inline(always)]
pub(crate) fn fill<H: HasTable<A>, A: Allocator>(
    frame: &mut Frame<H, A>,
    handles: &mut Handles<A>,
    index: usize,
    handle: Handle<A>,
)
    requires each { OwnsEach frame.old handles.old }
    requires owned { Owns frame.old handle }
    requires apart { IsApart handle handles.old }
    requires unlocked { IsUnlocked frame.old }
    requires inside { index < length handles.old }

    ensures each { OwnsEach frame.new handles.new }
    ensures count { frame.new.len + filled handles.old + 1 ≡ frame.old.len + filled handles.new }
    ensures heap { frame.new.heap ≡ frame.old.heap }
    ensures unlocked { IsUnlocked frame.new }
    ensures owns { (h : HandleSeen) → Owns frame.old h → handle.place ≢ h.place → IsApart h handles.old
        → Owns frame.new h }
    ensures apart { (h : HandleSeen) → h.place ≢ handle.place → IsApart h handles.old → IsApart h handles.new }

    ensures set { handles.new ≡ slice_set handles.old index (Some handle) }
    ensures gone { MatchOption (slot handles.old index) (frame.new ≡ frame.old) (Loses frame.old frame.new) }
{
    if let Some(gone) = handles.put(index, handle) {
        frame.release(gone);
    }
}
