//! What the object in a place is and holds.

ghost use Rattle.std.specs.Prelude.{◌≢◌, Err, Ok, Some, IfErr};
ghost use Rattle.brc_words.specs.declared.fault.Fault.TheVariants as faults;
ghost use Rattle.brc_count.specs.Frames.{IsUnlocked};
ghost use Rattle.brc_handles.specs.Handles.{OwnsEach};
ghost use Rattle.brc_handles.specs.Standing.{KeepsStanding};
ghost use Rattle.brc_things.specs.Called.{Late};
ghost use Rattle.brc_things.specs.Looking.{KindOf, LenOf, IntOf, TextOf};
ghost use Rattle.brc_places.specs.Reading.{ReadsPlace};

use brc_count::Frame;
use brc_count::biased::HasTable;
use brc_handles::Handles;
use brc_things::{
    int_of, kind_of, len_of, text_of, try_int_of, try_kind_of, try_len_of, try_text_of,
};
use brc_words::{Fault, Kind, Text};
use std::alloc::Allocator;
use std::sync::Wait;

/// What kind of object the handle in the place is a reference to; NoSuchPlace where no handle is there. It waits while
/// another thread has the object locked.
pub fn kind_at<H: HasTable<A>, A: Allocator>(
    rt: &impl Wait,
    frame: &mut Frame<H, A>,
    handles: &Handles<A>,
    index: usize,
) -> Result<Kind, Fault>
    requires each { OwnsEach frame.old handles.now }
    requires unlocked { IsUnlocked frame.old }
    ensures stands { KeepsStanding frame.old frame.new handles.now handles.now }
    ensures read { ReadsPlace frame.old frame.new handles.now index
        (λ k answer. Late frame.old k (λ mid. KindOf mid frame.new k answer)) result }
    ensures waited { IfErr result (λ fault. fault ≢ faults.Busy) }
{
    let Some(handle) = handles.get(index) else {
        return Err(Fault::NoSuchPlace);
    };
    Ok(kind_of(rt, frame, handle))
}

/// The same without waiting: Busy, where another thread has the object locked, comes after NoSuchPlace.
pub fn try_kind_at<H: HasTable<A>, A: Allocator>(
    frame: &mut Frame<H, A>,
    handles: &Handles<A>,
    index: usize,
) -> Result<Kind, Fault>
    requires each { OwnsEach frame.old handles.now }
    requires unlocked { IsUnlocked frame.old }
    ensures stands { KeepsStanding frame.old frame.new handles.now handles.now }
    ensures read { ReadsPlace frame.old frame.new handles.now index (KindOf frame.old frame.new) result }
{
    let Some(handle) = handles.get(index) else {
        return Err(Fault::NoSuchPlace);
    };
    try_kind_of(frame, handle)
}

/// How many entries the container in the place has: NoSuchPlace where no handle is there, then what `len_of` answers. It
/// waits while another thread has the object locked.
pub fn len_at<H: HasTable<A>, A: Allocator>(
    rt: &impl Wait,
    frame: &mut Frame<H, A>,
    handles: &Handles<A>,
    index: usize,
) -> Result<usize, Fault>
    requires each { OwnsEach frame.old handles.now }
    requires unlocked { IsUnlocked frame.old }
    ensures stands { KeepsStanding frame.old frame.new handles.now handles.now }
    ensures read { ReadsPlace frame.old frame.new handles.now index
        (λ k answer. Late frame.old k (λ mid. LenOf mid frame.new k answer)) result }
    ensures waited { IfErr result (λ fault. fault ≢ faults.Busy) }
{
    let Some(handle) = handles.get(index) else {
        return Err(Fault::NoSuchPlace);
    };
    len_of(rt, frame, handle)
}

/// The same without waiting: Busy, where another thread has the object locked, comes after NoSuchPlace.
pub fn try_len_at<H: HasTable<A>, A: Allocator>(
    frame: &mut Frame<H, A>,
    handles: &Handles<A>,
    index: usize,
) -> Result<usize, Fault>
    requires each { OwnsEach frame.old handles.now }
    requires unlocked { IsUnlocked frame.old }
    ensures stands { KeepsStanding frame.old frame.new handles.now handles.now }
    ensures read { ReadsPlace frame.old frame.new handles.now index (LenOf frame.old frame.new) result }
{
    let Some(handle) = handles.get(index) else {
        return Err(Fault::NoSuchPlace);
    };
    try_len_of(frame, handle)
}

/// The number of the integer in the place: NoSuchPlace where no handle is there, then what `int_of` answers. It waits
/// while another thread has the object locked.
pub fn int_at<H: HasTable<A>, A: Allocator>(
    rt: &impl Wait,
    frame: &mut Frame<H, A>,
    handles: &Handles<A>,
    index: usize,
) -> Result<i64, Fault>
    requires each { OwnsEach frame.old handles.now }
    requires unlocked { IsUnlocked frame.old }
    ensures stands { KeepsStanding frame.old frame.new handles.now handles.now }
    ensures read { ReadsPlace frame.old frame.new handles.now index
        (λ k answer. Late frame.old k (λ mid. IntOf mid frame.new k answer)) result }
    ensures waited { IfErr result (λ fault. fault ≢ faults.Busy) }
{
    let Some(handle) = handles.get(index) else {
        return Err(Fault::NoSuchPlace);
    };
    int_of(rt, frame, handle)
}

/// The same without waiting: Busy, where another thread has the object locked, comes after NoSuchPlace.
pub fn try_int_at<H: HasTable<A>, A: Allocator>(
    frame: &mut Frame<H, A>,
    handles: &Handles<A>,
    index: usize,
) -> Result<i64, Fault>
    requires each { OwnsEach frame.old handles.now }
    requires unlocked { IsUnlocked frame.old }
    ensures stands { KeepsStanding frame.old frame.new handles.now handles.now }
    ensures read { ReadsPlace frame.old frame.new handles.now index (IntOf frame.old frame.new) result }
{
    let Some(handle) = handles.get(index) else {
        return Err(Fault::NoSuchPlace);
    };
    try_int_of(frame, handle)
}

/// A copy of the text in the place: NoSuchPlace where no handle is there, then what `text_of` answers. It waits while
/// another thread has the object locked.
pub fn text_at<H: HasTable<A>, A: Allocator>(
    rt: &impl Wait,
    alloc: A,
    frame: &mut Frame<H, A>,
    handles: &Handles<A>,
    index: usize,
) -> Result<Text<A>, Fault>
    requires each { OwnsEach frame.old handles.now }
    requires unlocked { IsUnlocked frame.old }
    ensures stands { KeepsStanding frame.old frame.new handles.now handles.now }
    ensures read { ReadsPlace frame.old frame.new handles.now index
        (λ k answer. Late frame.old k (λ mid. TextOf mid frame.new k answer)) result }
    ensures waited { IfErr result (λ fault. fault ≢ faults.Busy) }
{
    let Some(handle) = handles.get(index) else {
        return Err(Fault::NoSuchPlace);
    };
    text_of(rt, alloc, frame, handle)
}

/// The same without waiting: Busy, where another thread has the object locked, comes after NoSuchPlace.
pub fn try_text_at<H: HasTable<A>, A: Allocator>(
    alloc: A,
    frame: &mut Frame<H, A>,
    handles: &Handles<A>,
    index: usize,
) -> Result<Text<A>, Fault>
    requires each { OwnsEach frame.old handles.now }
    requires unlocked { IsUnlocked frame.old }
    ensures stands { KeepsStanding frame.old frame.new handles.now handles.now }
    ensures read { ReadsPlace frame.old frame.new handles.now index (TextOf frame.old frame.new) result }
{
    let Some(handle) = handles.get(index) else {
        return Err(Fault::NoSuchPlace);
    };
    try_text_of(alloc, frame, handle)
}
