//! Keys and pairs by their places, in the order in which the keys came.

ghost use Rattle.std.specs.Prelude.{◌≡◌, ◌≢◌, ◌<◌, Some, None, Ok, IfOk, IfErr, IfSome, IfNone, OnOk, OnErr, slice_get};
ghost use Rattle.brc_words.specs.declared.fault.Fault.TheVariants as faults;
ghost use Rattle.brc_words.specs.declared.limits.TheConstants.{MOST_PLACES};
ghost use Rattle.brc_count.specs.table.Shown.{contents_of};
ghost use Rattle.brc_count.specs.Frames.{IsUnlocked, IsAsBefore, Owns};
ghost use Rattle.brc_count.specs.Locking.{IsLocked, cell_locked, contents_found, KeepsThread, KeepsFrame};
ghost use Rattle.brc_count.specs.Owned.{Keeps, Gains};
ghost use Rattle.brc_things.specs.Called.{Late};
ghost use Rattle.brc_things.specs.Changing.{KeepsAllPlaces, RefusedEntry, RefusedPlace};
ghost use Rattle.brc_things.specs.Dict_Calls.{DictKey, DictPair};
ghost use Rattle.brc_things.specs.Indexing.{IsAt, NoPair, ReadsUnlocked, SharesPair, MissesKey, MissesPair};
ghost use Rattle.brc_things.specs.Plain_Dicts.{plain_key_at, plain_value_at};
ghost use Rattle.brc_things.specs.Since.{Since};

use crate::late::begin_late;
use brc_count::biased::HasTable;
use brc_count::block::{Block, Payload};
use brc_count::{Frame, Handle};
use brc_words::{Entry, Fault, Key, MOST_PLACES};
use std::alloc::Allocator;
use std::sync::Wait;

/// The pair at the place: WrongKind where the object is no dictionary, NoSuchPlace past its end.
#[inline]
pub(crate) fn pair_in<A: Allocator>(
    payload: &Payload<A>,
    index: usize,
) -> Result<(&Key<A>, Entry), Fault>
    ensures there { IfOk result (λ pair. IsAt payload.now index pair.0.now pair.1) }
    ensures refused { IfErr result (NoPair payload.now index) }
{
    let Payload::Dict(pairs) = payload else {
        return Err(Fault::WrongKind);
    };
    match pairs.pair(index) {
        Some(pair) => Ok(pair),
        None => Err(Fault::NoSuchPlace),
    }
}

/// A copy of the key at the place.
fn key_in<A: Allocator>(alloc: A, payload: &Payload<A>, index: usize) -> Result<Key<A>, Fault>
    ensures found { IfOk result (λ key. plain_key_at index (contents_of payload.now) ≡ Ok
        (key, contents_of payload.now)) }
    ensures refused { IfErr result (MissesKey A (contents_of payload.now) index) }
{
    let (key, _entry) = pair_in(payload, index)?;
    match key.copy(alloc) {
        Ok(key) => Ok(key),
        Err(_refused) => Err(Fault::OutOfMemory),
    }
}

/// The key at the place of the dictionary that is locked, and its unlocking.
fn key_locked<H: HasTable<A>, A: Allocator>(
    alloc: A,
    frame: &mut Frame<H, A>,
    block: Block<A>,
    index: u32,
) -> Result<Key<A>, Fault>
    requires locked { IsLocked frame.old }
    requires of_cell { cell_locked frame.old ≡ Some block.0 }
    requires found { contents_found frame.old ≡ contents_of block.1 }
    ensures thread { KeepsThread frame.old frame.new }
    ensures frame { KeepsFrame frame.old frame.new }
    ensures unlocked { IsUnlocked frame.new }
    ensures reads { IfOk result (λ key. Since frame.old block
        (λ before k. ReadsUnlocked before frame.new k (plain_key_at index) key)) }
    ensures refused { IfErr result (λ fault. Since frame.old block
        (λ before k. RefusedEntry before frame.new k (plain_key_at {A = A} index) fault)) }
    ensures waits { IfErr result (λ fault. fault ≢ faults.Busy) }
{
    let key = key_in(alloc, block.payload(), index as usize);
    frame.end_keep(block);
    key
}

/// A copy of the key at the place, in the order in which the keys came. Busy where another thread has the dictionary
/// locked, then WrongKind where the object is no dictionary, NoSuchPlace past its end, and OutOfMemory.
pub fn try_dict_key<H: HasTable<A>, A: Allocator>(
    alloc: A,
    frame: &mut Frame<H, A>,
    dict: &Handle<A>,
    index: u32,
) -> Result<Key<A>, Fault>
    requires owned { Owns frame.old dict.now }
    requires unlocked { IsUnlocked frame.old }
    ensures reads { DictKey frame.old frame.new dict.now.place index result }
    ensures keeps { Keeps frame.old frame.new }
    ensures unlocked { IsUnlocked frame.new }
{
    let Some(block) = frame.begin(dict) else {
        return Err(Fault::Busy);
    };
    key_locked(alloc, frame, block, index)
}

/// A copy of the key at the place; WrongKind, NoSuchPlace and OutOfMemory as in `try_dict_key`. It waits while another
/// thread has the dictionary locked.
pub fn dict_key<H: HasTable<A>, A: Allocator>(
    rt: &impl Wait,
    alloc: A,
    frame: &mut Frame<H, A>,
    dict: &Handle<A>,
    index: u32,
) -> Result<Key<A>, Fault>
    requires owned { Owns frame.old dict.now }
    requires unlocked { IsUnlocked frame.old }
    ensures reads { Late frame.old dict.now.place (λ mid. DictKey mid frame.new dict.now.place index result) }
    ensures keeps { Keeps frame.old frame.new }
    ensures unlocked { IsUnlocked frame.new }
    ensures waited { IfErr result (λ fault. fault ≢ faults.Busy) }
{
    let block = begin_late(rt, frame, dict);
    key_locked(alloc, frame, block, index)
}

/// A copy of the key at the place, the entry beside it, and the next place of the frame made sure of.
fn pair_and_place<H: HasTable<A>, A: Allocator>(
    alloc: A,
    frame: &mut Frame<H, A>,
    block: &Block<A>,
    index: usize,
) -> Result<(Key<A>, Entry), Fault>
    ensures same { IsAsBefore frame.old frame.new }
    ensures room { OnOk result (0 < frame.new.spare) }
    ensures low { OnOk result (frame.new.next < MOST_PLACES) }
    ensures there { IfOk result (λ pair. IsAt block.now.1 index pair.0 pair.1) }
    ensures refused { IfErr result (MissesPair frame.old (contents_of block.now.1) index) }
{
    let (key, entry) = pair_in(block.payload(), index)?;
    let full = frame.len() >= MOST_PLACES as usize;
    frame.place()?;
    match key.copy(alloc) {
        Ok(key) => Ok((key, entry)),
        // There is a place, so the frame isn't full; but no contract says so.
        Err(_refused) if full => Err(Fault::FrameFull),
        Err(_refused) => Err(Fault::OutOfMemory),
    }
}

/// The pair at the place of the dictionary that is locked, and its unlocking.
fn pair_locked<H: HasTable<A>, A: Allocator>(
    alloc: A,
    frame: &mut Frame<H, A>,
    block: Block<A>,
    index: u32,
) -> Result<(Key<A>, Handle<A>), Fault>
    requires locked { IsLocked frame.old }
    requires of_cell { cell_locked frame.old ≡ Some block.0 }
    requires found { contents_found frame.old ≡ contents_of block.1 }
    ensures thread { KeepsThread frame.old frame.new }
    ensures unlocked { IsUnlocked frame.new }
    ensures shares { IfOk result (λ pair. Since frame.old block
        (λ before k. SharesPair before frame.new k index pair)) }
    ensures gains { IfOk result (λ pair. Gains frame.old frame.new pair.1) }
    ensures places { IfErr result (λ fault. KeepsAllPlaces frame.old frame.new) }
    ensures refused { IfErr result (λ fault. Since frame.old block
        (λ before k. RefusedPlace before frame.new k (plain_value_at A index) fault)) }
    ensures waits { IfErr result (λ fault. fault ≢ faults.Busy) }
{
    match pair_and_place(alloc, frame, &block, index as usize) {
        Err(fault) => {
            frame.end_keep(block);
            Err(fault)
        }
        Ok((key, entry)) => {
            let given = frame.up_entry(index, entry.cell);
            frame.end_keep(block);
            Ok((key, given))
        }
    }
}

/// A copy of the key at the place, in the order in which the keys came, and a handle to the value beside it, counted up
/// in one event while the dictionary is locked. Busy where another thread has it locked, then WrongKind where the
/// object is no dictionary, NoSuchPlace past its end, FrameFull and OutOfMemory.
pub fn try_dict_pair<H: HasTable<A>, A: Allocator>(
    alloc: A,
    frame: &mut Frame<H, A>,
    dict: &Handle<A>,
    index: u32,
) -> Result<(Key<A>, Handle<A>), Fault>
    requires owned { Owns frame.old dict.now }
    requires unlocked { IsUnlocked frame.old }
    ensures shares { DictPair frame.old frame.new dict.now.place index result }
    ensures gains { IfOk result (λ pair. Gains frame.old frame.new pair.1) }
    ensures keeps { OnErr result (Keeps frame.old frame.new) }
    ensures unlocked { IsUnlocked frame.new }
{
    let Some(block) = frame.begin(dict) else {
        return Err(Fault::Busy);
    };
    pair_locked(alloc, frame, block, index)
}

/// The pair at the place, with a handle to its value; WrongKind, NoSuchPlace, FrameFull and OutOfMemory as in
/// `try_dict_pair`. It waits while another thread has the dictionary locked.
pub fn dict_pair<H: HasTable<A>, A: Allocator>(
    rt: &impl Wait,
    alloc: A,
    frame: &mut Frame<H, A>,
    dict: &Handle<A>,
    index: u32,
) -> Result<(Key<A>, Handle<A>), Fault>
    requires owned { Owns frame.old dict.now }
    requires unlocked { IsUnlocked frame.old }
    ensures shares { Late frame.old dict.now.place (λ mid. DictPair mid frame.new dict.now.place index result) }
    ensures gains { IfOk result (λ pair. Gains frame.old frame.new pair.1) }
    ensures keeps { OnErr result (Keeps frame.old frame.new) }
    ensures unlocked { IsUnlocked frame.new }
    ensures waited { IfErr result (λ fault. fault ≢ faults.Busy) }
{
    let block = begin_late(rt, frame, dict);
    pair_locked(alloc, frame, block, index)
}
