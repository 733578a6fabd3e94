//! A value goes beside a key.

ghost use Rattle.std.specs.Prelude.{◌≡◌, ◌≢◌, ◌<◌, Some, None, IfOk, IfErr, OnOk, OnErr, length, slice_set};
ghost use Rattle.brc_words.specs.declared.fault.Fault.TheVariants as faults;
ghost use Rattle.brc_words.specs.declared.kind.Kind.TheVariants as kinds;
ghost use Rattle.brc_words.specs.declared.limits.TheConstants.{MOST_ENTRIES};
ghost use Rattle.brc_count.specs.block.Lent_Keys.{key_lent};
ghost use Rattle.brc_count.specs.block.Payload.{kind_of, noted_of, entries_of, keys_of, spare_of};
ghost use Rattle.brc_count.specs.table.Shown.{contents_of};
ghost use Rattle.brc_count.specs.Frames.{IsUnlocked, Owns};
ghost use Rattle.brc_count.specs.Locking.{IsLocked, cell_locked, place_locked, contents_found, KeepsThread, KeepsFrame};
ghost use Rattle.brc_count.specs.Owned.{Keeps};
ghost use Rattle.brc_things.specs.Called.{Late};
ghost use Rattle.brc_things.specs.Dict_Calls.{DictPut};
ghost use Rattle.brc_things.specs.Putting.{RefusedRoomFor, HasPut, OwnsPut, RefusedPut};
ghost use Rattle.brc_things.specs.Seeking.{HasKeyAt, IsAbsent};
ghost use Rattle.brc_things.specs.Since.{Since};

use crate::late::begin_late;
use crate::seeking::{Sought, seek};
use brc_count::biased::HasTable;
use brc_count::block::{Block, KeyRef, Payload};
use brc_count::{Frame, HandedBack, Handle};
use brc_words::{Entry, Fault, Key, MOST_ENTRIES};
use std::alloc::Allocator;
use std::sync::Wait;

/// Makes room for one more pair: Full where a dictionary has as many as it may, then OutOfMemory.
#[inline(always)]
#[tactic(auto, using(crate::proofs::Shown::shown_again))]
pub(crate) fn make_room<A: Allocator + Copy>(payload: &mut Payload<A>) -> Result<(), Fault>
    requires dict { kind_of payload.old ≡ kinds.Dict }
    ensures kind { kind_of payload.new ≡ kind_of payload.old }
    ensures entries { entries_of payload.new ≡ entries_of payload.old }
    ensures noted { noted_of payload.new ≡ noted_of payload.old }
    ensures keys { keys_of payload.new ≡ keys_of payload.old }
    ensures room { OnOk result (0 < spare_of payload.new) }
    ensures few { OnOk result (length (entries_of payload.old) < MOST_ENTRIES) }
    ensures refused { IfErr result (RefusedRoomFor (length (entries_of payload.old))) }
    ensures contents { contents_of payload.new ≡ contents_of payload.old }
{
    if MOST_ENTRIES as usize <= payload.len() {
        return Err(Fault::Full);
    }
    match payload.reserve() {
        Ok(()) => Ok(()),
        Err(_refused) => Err(Fault::OutOfMemory),
    }
}

/// A new key goes into the dictionary that is locked, at the end, with the value.
#[inline(never)]
fn append_locked<H: HasTable<A>, A: Allocator + Copy>(
    frame: &mut Frame<H, A>,
    mut block: Block<A>,
    key: Key<A>,
    value: Handle<A>,
) -> Result<Option<Handle<A>>, HandedBack<(Key<A>, Handle<A>)>>
    requires locked { IsLocked frame.old }
    requires of_cell { cell_locked frame.old ≡ Some block.0 }
    requires found { contents_found frame.old ≡ contents_of block.1 }
    requires value_owned { Owns frame.old value }
    requires apart { place_locked frame.old ≢ Some value.place }
    requires absent { IsAbsent block.1 key }
    ensures thread { KeepsThread frame.old frame.new }
    ensures unlocked { IsUnlocked frame.new }
    ensures put { IfOk result (λ answer. Since frame.old block
        (λ before k. HasPut before frame.new k key value answer)) }
    ensures owns { IfOk result (OwnsPut frame.old frame.new value) }
    ensures back { IfErr result (λ handed. handed.value ≡ (key, value)) }
    ensures frame { IfErr result (λ handed. KeepsFrame frame.old frame.new) }
    ensures refused { IfErr result (λ handed. Since frame.old block
        (λ before k. RefusedPut before frame.new k key value handed.fault)) }
    ensures waits { IfErr result (λ handed. handed.fault ≢ faults.Busy) }
{
    let cell = frame.cell(&value);
    if let Err(fault) = make_room(block.payload_mut()) {
        frame.end_keep(block);
        return Err(HandedBack {
            fault,
            value: (key, value),
        });
    }
    let entry = Entry::bare(cell);
    block.payload_mut().put_pair_reserved(key, entry);
    frame.end_put(block, value);
    Ok(None)
}

/// Another entry for a pair. That the object is a dictionary is known, and not looked at once more.
#[inline(always)]
pub(crate) fn set_pair<A: Allocator>(payload: &mut Payload<A>, index: usize, entry: Entry)
    requires dict { kind_of payload.old ≡ kinds.Dict }
    requires within { index < length (entries_of payload.old) }
    ensures set { entries_of payload.new ≡ slice_set (entries_of payload.old) index entry.cell }
    ensures noted { noted_of payload.new ≡ slice_set (noted_of payload.old) index entry }
    ensures kind { kind_of payload.new ≡ kind_of payload.old }
    ensures keys { keys_of payload.new ≡ keys_of payload.old }
{
    match payload {
        Payload::Dict(pairs) => pairs.set(index, entry),
        _ => unreachable!(),
    }
}

/// The value goes beside a key that is there, in the dictionary that is locked; the answer is the old one. It takes no
/// memory.
#[inline(always)]
fn replace_locked<H: HasTable<A>, A: Allocator>(
    frame: &mut Frame<H, A>,
    mut block: Block<A>,
    key: KeyRef<'_>,
    value: Handle<A>,
    index: usize,
    entry: Entry,
) -> Handle<A>
    requires locked { IsLocked frame.old }
    requires of_cell { cell_locked frame.old ≡ Some block.0 }
    requires found { contents_found frame.old ≡ contents_of block.1 }
    requires value_owned { Owns frame.old value }
    requires apart { place_locked frame.old ≢ Some value.place }
    requires there { HasKeyAt block.1 (key_lent key) index entry }
    ensures thread { KeepsThread frame.old frame.new }
    ensures unlocked { IsUnlocked frame.new }
    ensures put { Since frame.old block
        (λ before k. HasPut before frame.new k (key_lent key.entry) value (Some result)) }
    ensures owns { OwnsPut frame.old frame.new value (Some result) }
{
    let place = index as u32;
    let cell = frame.cell(&value);
    let put = Entry::bare(cell);
    set_pair(block.payload_mut(), index, put);
    frame.end_swap(block, place, entry.cell, value)
}

/// A put into the dictionary that is locked, and its unlocking.
#[inline(always)]
fn put_locked<H: HasTable<A>, A: Allocator + Copy>(
    frame: &mut Frame<H, A>,
    block: Block<A>,
    key: Key<A>,
    value: Handle<A>,
) -> Result<Option<Handle<A>>, HandedBack<(Key<A>, Handle<A>)>>
    requires locked { IsLocked frame.old }
    requires of_cell { cell_locked frame.old ≡ Some block.0 }
    requires found { contents_found frame.old ≡ contents_of block.1 }
    requires value_owned { Owns frame.old value }
    requires apart { place_locked frame.old ≢ Some value.place }
    ensures thread { KeepsThread frame.old frame.new }
    ensures unlocked { IsUnlocked frame.new }
    ensures put { IfOk result (λ answer. Since frame.old block
        (λ before k. HasPut before frame.new k key value answer)) }
    ensures owns { IfOk result (OwnsPut frame.old frame.new value) }
    ensures back { IfErr result (λ handed. handed.value ≡ (key, value)) }
    ensures frame { IfErr result (λ handed. KeepsFrame frame.old frame.new) }
    ensures refused { IfErr result (λ handed. Since frame.old block
        (λ before k. RefusedPut before frame.new k key value handed.fault)) }
    ensures waits { IfErr result (λ handed. handed.fault ≢ faults.Busy) }
{
    match seek(block.payload(), KeyRef::of(&key)) {
        Sought::There { index, entry } => {
            let old = replace_locked(frame, block, KeyRef::of(&key), value, index, entry);
            // The key's memory goes once the lock is free.
            drop(key);
            Ok(Some(old))
        }
        Sought::Absent => append_locked(frame, block, key, value),
        Sought::WrongKind => {
            frame.end_keep(block);
            Err(HandedBack {
                fault: Fault::WrongKind,
                value: (key, value),
            })
        }
    }
}

/// A copy of a key that goes into a dictionary: Full where that has as many pairs as it may, then OutOfMemory.
pub(crate) fn copy_for<A: Allocator>(
    alloc: A,
    payload: &Payload<A>,
    key: KeyRef<'_>,
) -> Result<Key<A>, Fault>
    ensures copy { IfOk result (λ copy. copy ≡ key_lent key.entry) }
    ensures refused { IfErr result (RefusedRoomFor (length (entries_of payload.now))) }
{
    if payload.len() >= MOST_ENTRIES as usize {
        return Err(Fault::Full);
    }
    match key.copy(alloc) {
        Ok(copy) => Ok(copy),
        Err(_refused) => Err(Fault::OutOfMemory),
    }
}

/// A copy of the key, which is new, goes into the dictionary that is locked, at the end, with the value.
#[inline(never)]
fn append_copy<H: HasTable<A>, A: Allocator + Copy>(
    alloc: A,
    frame: &mut Frame<H, A>,
    block: Block<A>,
    key: KeyRef<'_>,
    value: Handle<A>,
) -> Result<Option<Handle<A>>, HandedBack<Handle<A>>>
    requires locked { IsLocked frame.old }
    requires of_cell { cell_locked frame.old ≡ Some block.0 }
    requires found { contents_found frame.old ≡ contents_of block.1 }
    requires value_owned { Owns frame.old value }
    requires apart { place_locked frame.old ≢ Some value.place }
    requires absent { IsAbsent block.1 (key_lent key) }
    ensures thread { KeepsThread frame.old frame.new }
    ensures unlocked { IsUnlocked frame.new }
    ensures put { IfOk result (λ answer. Since frame.old block
        (λ before k. HasPut before frame.new k (key_lent key.entry) value answer)) }
    ensures owns { IfOk result (OwnsPut frame.old frame.new value) }
    ensures back { IfErr result (λ handed. handed.value ≡ value) }
    ensures frame { IfErr result (λ handed. KeepsFrame frame.old frame.new) }
    ensures refused { IfErr result (λ handed. Since frame.old block
        (λ before k. RefusedPut before frame.new k (key_lent key.entry) value handed.fault)) }
    ensures waits { IfErr result (λ handed. handed.fault ≢ faults.Busy) }
{
    match copy_for(alloc, block.payload(), key) {
        Ok(copy) => match append_locked(frame, block, copy, value) {
            Ok(answer) => Ok(answer),
            Err(
                HandedBack {
                    fault,
                    value: (_copy, back),
                },
            ) => Err(HandedBack { fault, value: back }),
        },
        Err(fault) => {
            frame.end_keep(block);
            Err(HandedBack { fault, value })
        }
    }
}

/// A put by a key that is lent, into the dictionary that is locked, and its unlocking.
#[inline(always)]
fn set_locked<H: HasTable<A>, A: Allocator + Copy>(
    alloc: A,
    frame: &mut Frame<H, A>,
    block: Block<A>,
    key: KeyRef<'_>,
    value: Handle<A>,
) -> Result<Option<Handle<A>>, HandedBack<Handle<A>>>
    requires locked { IsLocked frame.old }
    requires of_cell { cell_locked frame.old ≡ Some block.0 }
    requires found { contents_found frame.old ≡ contents_of block.1 }
    requires value_owned { Owns frame.old value }
    requires apart { place_locked frame.old ≢ Some value.place }
    ensures thread { KeepsThread frame.old frame.new }
    ensures unlocked { IsUnlocked frame.new }
    ensures put { IfOk result (λ answer. Since frame.old block
        (λ before k. HasPut before frame.new k (key_lent key.entry) value answer)) }
    ensures owns { IfOk result (OwnsPut frame.old frame.new value) }
    ensures back { IfErr result (λ handed. handed.value ≡ value) }
    ensures frame { IfErr result (λ handed. KeepsFrame frame.old frame.new) }
    ensures refused { IfErr result (λ handed. Since frame.old block
        (λ before k. RefusedPut before frame.new k (key_lent key.entry) value handed.fault)) }
    ensures waits { IfErr result (λ handed. handed.fault ≢ faults.Busy) }
{
    match seek(block.payload(), key) {
        Sought::There { index, entry } => {
            let old = replace_locked(frame, block, key, value, index, entry);
            Ok(Some(old))
        }
        Sought::Absent => append_copy(alloc, frame, block, key, value),
        Sought::WrongKind => {
            frame.end_keep(block);
            Err(HandedBack {
                fault: Fault::WrongKind,
                value,
            })
        }
    }
}

/// Puts the value beside the key. A new key comes last, and the answer is None; beside a key that is there the value
/// takes the place of the old one, which is the answer. Busy where another thread has the dictionary locked, then
/// WrongKind where the object is no dictionary, Full where a new key is the 1,048,577th, and OutOfMemory for a new key;
/// a refusal hands key and value back.
#[inline(always)]
pub fn try_dict_put<H: HasTable<A>, A: Allocator + Copy>(
    frame: &mut Frame<H, A>,
    dict: &Handle<A>,
    key: Key<A>,
    value: Handle<A>,
) -> Result<Option<Handle<A>>, HandedBack<(Key<A>, Handle<A>)>>
    requires owned { Owns frame.old dict.now }
    requires value_owned { Owns frame.old value }
    requires apart { value.place ≢ dict.now.place }
    requires unlocked { IsUnlocked frame.old }
    ensures put { DictPut frame.old frame.new dict.now.place key value result }
    ensures owns { IfOk result (OwnsPut frame.old frame.new value) }
    ensures keeps { OnErr result (Keeps frame.old frame.new) }
    ensures unlocked { IsUnlocked frame.new }
    ensures back { IfErr result (λ handed. handed.value ≡ (key, value)) }
{
    let Some(block) = frame.begin(dict) else {
        return Err(HandedBack {
            fault: Fault::Busy,
            value: (key, value),
        });
    };
    put_locked(frame, block, key, value)
}

/// Puts the value beside the key, as `try_dict_put` does; WrongKind, Full and OutOfMemory as there. It waits while
/// another thread has the dictionary locked.
#[inline(always)]
pub fn dict_put<H: HasTable<A>, A: Allocator + Copy>(
    rt: &impl Wait,
    frame: &mut Frame<H, A>,
    dict: &Handle<A>,
    key: Key<A>,
    value: Handle<A>,
) -> Result<Option<Handle<A>>, HandedBack<(Key<A>, Handle<A>)>>
    requires owned { Owns frame.old dict.now }
    requires value_owned { Owns frame.old value }
    requires apart { value.place ≢ dict.now.place }
    requires unlocked { IsUnlocked frame.old }
    ensures put { Late frame.old dict.now.place (λ mid. DictPut mid frame.new dict.now.place key value result) }
    ensures owns { IfOk result (OwnsPut frame.old frame.new value) }
    ensures keeps { OnErr result (Keeps frame.old frame.new) }
    ensures unlocked { IsUnlocked frame.new }
    ensures back { IfErr result (λ handed. handed.value ≡ (key, value)) }
    ensures waited { IfErr result (λ handed. handed.fault ≢ faults.Busy) }
{
    let block = begin_late(rt, frame, dict);
    put_locked(frame, block, key, value)
}

/// Puts the value beside the key, which is lent: as `try_dict_put` does, but that it copies the key, and only where it is
/// new. Busy where another thread has the dictionary locked, then WrongKind where the object is no dictionary, Full where
/// a new key is the 1,048,577th, and OutOfMemory for a new key or its copy; a refusal hands the value back.
#[inline(always)]
pub fn try_dict_set<H: HasTable<A>, A: Allocator + Copy>(
    alloc: A,
    frame: &mut Frame<H, A>,
    dict: &Handle<A>,
    key: KeyRef<'_>,
    value: Handle<A>,
) -> Result<Option<Handle<A>>, HandedBack<Handle<A>>>
    requires owned { Owns frame.old dict.now }
    requires value_owned { Owns frame.old value }
    requires apart { value.place ≢ dict.now.place }
    requires unlocked { IsUnlocked frame.old }
    ensures put { DictPut frame.old frame.new dict.now.place (key_lent key.entry) value result }
    ensures owns { IfOk result (OwnsPut frame.old frame.new value) }
    ensures keeps { OnErr result (Keeps frame.old frame.new) }
    ensures unlocked { IsUnlocked frame.new }
    ensures back { IfErr result (λ handed. handed.value ≡ value) }
{
    let Some(block) = frame.begin(dict) else {
        return Err(HandedBack {
            fault: Fault::Busy,
            value,
        });
    };
    set_locked(alloc, frame, block, key, value)
}

/// Puts the value beside the key, as `try_dict_set` does; WrongKind, Full and OutOfMemory as there. It waits while
/// another thread has the dictionary locked.
#[inline(always)]
pub fn dict_set<H: HasTable<A>, A: Allocator + Copy>(
    rt: &impl Wait,
    alloc: A,
    frame: &mut Frame<H, A>,
    dict: &Handle<A>,
    key: KeyRef<'_>,
    value: Handle<A>,
) -> Result<Option<Handle<A>>, HandedBack<Handle<A>>>
    requires owned { Owns frame.old dict.now }
    requires value_owned { Owns frame.old value }
    requires apart { value.place ≢ dict.now.place }
    requires unlocked { IsUnlocked frame.old }
    ensures put { Late frame.old dict.now.place (λ mid. DictPut mid frame.new dict.now.place (key_lent key.entry) value result) }
    ensures owns { IfOk result (OwnsPut frame.old frame.new value) }
    ensures keeps { OnErr result (Keeps frame.old frame.new) }
    ensures unlocked { IsUnlocked frame.new }
    ensures back { IfErr result (λ handed. handed.value ≡ value) }
    ensures waited { IfErr result (λ handed. handed.fault ≢ faults.Busy) }
{
    let block = begin_late(rt, frame, dict);
    set_locked(alloc, frame, block, key, value)
}
