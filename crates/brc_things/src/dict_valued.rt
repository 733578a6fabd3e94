//! The calls by values on dictionaries.

ghost use Rattle.std.specs.Prelude.{◌≡◌, ◌≢◌, ℕ, Some, IfOk, IfErr, OnErr, OnOk};
ghost use Rattle.brc_words.specs.declared.fault.Fault.TheVariants as faults;
ghost use Rattle.brc_count.specs.block.Lent_Keys.{key_lent};
ghost use Rattle.brc_count.specs.Frames.{IsUnlocked, Owns};
ghost use Rattle.brc_count.specs.Locking.{KeepsThread, KeepsFrame, place_locked};
ghost use Rattle.brc_count.specs.Owned.{Keeps};
ghost use Rattle.brc_things.specs.Called.{Late};
ghost use Rattle.brc_things.specs.Changing.{KeepsAllPlaces, RefusedPlace};
ghost use Rattle.brc_things.specs.Plain_Dicts.{plain_find, plain_del, plain_put};
ghost use Rattle.brc_things.specs.Seeking.{IsAbsent};
ghost use Rattle.brc_things.specs.Since.{Since};
ghost use Rattle.brc_things.specs.Value_Calls.{DictFindValue, DictDelValue, DictSetValue, DictPutNewValue, DictPairValue, PutsNew};
ghost use Rattle.brc_things.specs.Values.{OwnsValue, StandsApart, GainsValue, LosesValue, HasNone, LooksAtValue, TakesOutValue};
ghost use Rattle.brc_things.specs.Values.{PutsValueIn, HasPutValue, RefusedPutting, OwnsPutValue, LosesNew, LooksAtPair, RefusedPairAt};
ghost use Rattle.brc_things.specs.Within.{HasLockedList};

use crate::indexing::pair_in;
use crate::late::begin_late;
use crate::putting::{copy_for, make_room};
use crate::seeking::{Sought, seek};
use crate::valued_entries::{look_entry, set_entry, take_entry};
use crate::{Pair, Value};
use brc_count::biased::HasTable;
use brc_count::block::{Block, KeyRef};
use brc_count::{Frame, HandedBack, Handle};
use brc_words::{Entry, Fault, Kind, MOST_PLACES};
use std::alloc::Allocator;
use std::sync::Wait;

/// What stands beside the key is looked at. The faults: WrongKind, NoSuchKey, FrameFull, OutOfMemory.
#[inline(always)]
fn look_value<H: HasTable<A>, A: Allocator>(
    frame: &mut Frame<H, A>,
    block: Block<A>,
    key: KeyRef<'_>,
) -> Result<Value<A>, Fault>
    requires has { HasLockedList frame.old block }
    ensures thread { KeepsThread frame.old frame.new }
    ensures unlocked { IsUnlocked frame.new }
    ensures looked { IfOk result (λ came. Since frame.old block
        (λ before k. LooksAtValue before frame.new k (plain_find {A = A} (key_lent key.entry)) came)) }
    ensures gains { IfOk result (GainsValue frame.old frame.new) }
    ensures places { OnErr result (KeepsAllPlaces frame.old frame.new) }
    ensures refused { IfErr result (λ fault. Since frame.old block
        (λ before k. RefusedPlace before frame.new k (plain_find {A = A} (key_lent key.entry)) fault)) }
    ensures waits { IfErr result (λ fault. fault ≢ faults.Busy) }
{
    match seek(block.payload(), key) {
        Sought::There { index, entry } => look_entry(frame, block, index as u32, entry),
        Sought::Absent => {
            frame.end_keep(block);
            Err(Fault::NoSuchKey)
        }
        Sought::WrongKind => {
            frame.end_keep(block);
            Err(Fault::WrongKind)
        }
    }
}

/// What stands beside the key comes out, and its pair goes. The faults: WrongKind, NoSuchKey, FrameFull, OutOfMemory.
fn del_value<H: HasTable<A>, A: Allocator>(
    frame: &mut Frame<H, A>,
    block: Block<A>,
    key: KeyRef<'_>,
) -> Result<Value<A>, Fault>
    requires has { HasLockedList frame.old block }
    ensures thread { KeepsThread frame.old frame.new }
    ensures unlocked { IsUnlocked frame.new }
    ensures takes { IfOk result (λ came. Since frame.old block
        (λ before k. TakesOutValue before frame.new k (plain_del {A = A} (key_lent key.entry)) came)) }
    ensures gains { IfOk result (GainsValue frame.old frame.new) }
    ensures places { OnErr result (KeepsAllPlaces frame.old frame.new) }
    ensures refused { IfErr result (λ fault. Since frame.old block
        (λ before k. RefusedPlace before frame.new k (plain_del {A = A} (key_lent key.entry)) fault)) }
    ensures waits { IfErr result (λ fault. fault ≢ faults.Busy) }
{
    match seek(block.payload(), key) {
        Sought::There { index, entry } => take_entry(frame, block, index, entry),
        Sought::Absent => {
            frame.end_keep(block);
            Err(Fault::NoSuchKey)
        }
        Sought::WrongKind => {
            frame.end_keep(block);
            Err(Fault::WrongKind)
        }
    }
}

/// A copy of the key, which is new, goes in at the end, with the value. The faults: Full, OutOfMemory.
#[inline(never)]
fn append_value<H: HasTable<A>, A: Allocator + Copy>(
    alloc: A,
    frame: &mut Frame<H, A>,
    mut block: Block<A>,
    key: KeyRef<'_>,
    none: &Handle<A>,
    value: Value<A>,
) -> Result<(), HandedBack<Value<A>>>
    requires has { HasLockedList frame.old block }
    requires absent { IsAbsent block.1 (key_lent key) }
    requires none { HasNone frame.old none.now }
    requires apart_none { place_locked frame.old ≢ Some none.now.place }
    requires owned { OwnsValue frame.old value }
    requires apart { (k : ℕ) → place_locked frame.old ≡ Some k → StandsApart k value }
    requires other { StandsApart none.now.place value }
    ensures thread { KeepsThread frame.old frame.new }
    ensures unlocked { IsUnlocked frame.new }
    ensures put { OnOk result (Since frame.old block
        (λ before k. PutsValueIn before frame.new k none.now value (plain_put {A = A} (key_lent key.entry)))) }
    ensures loses { OnOk result (LosesValue frame.old frame.new value) }
    ensures none { HasNone frame.new none.now }
    ensures back { IfErr result (λ handed. handed.value ≡ value) }
    ensures frame { OnErr result (KeepsFrame frame.old frame.new) }
    ensures refused { IfErr result (λ handed. Since frame.old block
        (λ before k. RefusedPutting before frame.new k value (plain_put {A = A} (key_lent key.entry)) handed.fault)) }
    ensures waits { IfErr result (λ handed. handed.fault ≢ faults.Busy) }
{
    let copy = match copy_for(alloc, block.payload(), key) {
        Ok(copy) => copy,
        Err(fault) => {
            frame.end_keep(block);
            return Err(HandedBack { fault, value });
        }
    };
    if let Err(fault) = make_room(block.payload_mut()) {
        frame.end_keep(block);
        return Err(HandedBack { fault, value });
    }
    match value {
        Value::Scalar(note) => {
            let entry = Entry::new(0, note);
            block.payload_mut().put_pair_reserved(copy, entry);
            frame.end_put_none(block, none);
            Ok(())
        }
        Value::Object(handle, note) => {
            let cell = frame.cell(&handle);
            let entry = Entry::new(cell, note);
            block.payload_mut().put_pair_reserved(copy, entry);
            frame.end_put(block, handle);
            Ok(())
        }
    }
}

/// The value goes beside the key, and what stood there comes out. The faults: WrongKind; with a new key Full and
/// OutOfMemory; and of a scalar for an object FrameFull and OutOfMemory.
#[inline(always)]
fn set_value_by<H: HasTable<A>, A: Allocator + Copy>(
    alloc: A,
    frame: &mut Frame<H, A>,
    block: Block<A>,
    key: KeyRef<'_>,
    none: &mut Handle<A>,
    value: Value<A>,
) -> Result<Option<Value<A>>, HandedBack<Value<A>>>
    requires has { HasLockedList frame.old block }
    requires none { HasNone frame.old none.old }
    requires apart_none { place_locked frame.old ≢ Some none.old.place }
    requires owned { OwnsValue frame.old value }
    requires apart { (k : ℕ) → place_locked frame.old ≡ Some k → StandsApart k value }
    requires other { StandsApart none.old.place value }
    ensures thread { KeepsThread frame.old frame.new }
    ensures unlocked { IsUnlocked frame.new }
    ensures put { IfOk result (λ came. Since frame.old block
        (λ before k. HasPutValue before frame.new k none.old none.new value (plain_put {A = A} (key_lent key.entry)) came)) }
    ensures owns { IfOk result (OwnsPutValue frame.old frame.new none.new value) }
    ensures none { HasNone frame.new none.new }
    ensures back { IfErr result (λ handed. handed.value ≡ value) }
    ensures places { OnErr result (KeepsAllPlaces frame.old frame.new) }
    ensures same { OnErr result (none.new ≡ none.old) }
    ensures refused { IfErr result (λ handed. Since frame.old block
        (λ before k. RefusedPutting before frame.new k value (plain_put {A = A} (key_lent key.entry)) handed.fault)) }
    ensures waits { IfErr result (λ handed. handed.fault ≢ faults.Busy) }
{
    match seek(block.payload(), key) {
        Sought::There { index, entry } => {
            match set_entry(frame, Kind::Dict, block, index as u32, entry, none, value) {
                Ok(old) => Ok(Some(old)),
                Err(handed) => Err(handed),
            }
        }
        Sought::Absent => match append_value(alloc, frame, block, key, none, value) {
            Ok(()) => Ok(None),
            Err(handed) => Err(handed),
        },
        Sought::WrongKind => {
            frame.end_keep(block);
            Err(HandedBack {
                fault: Fault::WrongKind,
                value,
            })
        }
    }
}

/// The value goes beside the key, if that is new; else it comes back. The faults: WrongKind; with a new key Full and
/// OutOfMemory.
fn put_new_by<H: HasTable<A>, A: Allocator + Copy>(
    alloc: A,
    frame: &mut Frame<H, A>,
    block: Block<A>,
    key: KeyRef<'_>,
    none: &Handle<A>,
    value: Value<A>,
) -> Result<Option<Value<A>>, HandedBack<Value<A>>>
    requires has { HasLockedList frame.old block }
    requires none { HasNone frame.old none.now }
    requires apart_none { place_locked frame.old ≢ Some none.now.place }
    requires owned { OwnsValue frame.old value }
    requires apart { (k : ℕ) → place_locked frame.old ≡ Some k → StandsApart k value }
    requires other { StandsApart none.now.place value }
    ensures thread { KeepsThread frame.old frame.new }
    ensures unlocked { IsUnlocked frame.new }
    ensures put { IfOk result (λ back. Since frame.old block
        (λ before k. PutsNew before frame.new k (key_lent key.entry) none.now value back)) }
    ensures loses { IfOk result (λ back. LosesNew frame.old frame.new value back) }
    ensures none { HasNone frame.new none.now }
    ensures back { IfErr result (λ handed. handed.value ≡ value) }
    ensures places { OnErr result (KeepsAllPlaces frame.old frame.new) }
    ensures refused { IfErr result (λ handed. Since frame.old block
        (λ before k. RefusedPutting before frame.new k value (plain_put {A = A} (key_lent key.entry)) handed.fault)) }
    ensures waits { IfErr result (λ handed. handed.fault ≢ faults.Busy) }
{
    match seek(block.payload(), key) {
        Sought::There { .. } => {
            frame.end_keep(block);
            Ok(Some(value))
        }
        Sought::Absent => match append_value(alloc, frame, block, key, none, value) {
            Ok(()) => Ok(None),
            Err(handed) => Err(handed),
        },
        Sought::WrongKind => {
            frame.end_keep(block);
            Err(HandedBack {
                fault: Fault::WrongKind,
                value,
            })
        }
    }
}

/// The pair at the place, and how many there are. The faults: WrongKind, NoSuchPlace, and of an object FrameFull; then
/// OutOfMemory.
fn look_pair<H: HasTable<A>, A: Allocator>(
    alloc: A,
    frame: &mut Frame<H, A>,
    block: Block<A>,
    index: u32,
) -> Result<Pair<A>, Fault>
    requires has { HasLockedList frame.old block }
    ensures thread { KeepsThread frame.old frame.new }
    ensures unlocked { IsUnlocked frame.new }
    ensures looked { IfOk result (λ pair. Since frame.old block (λ before k. LooksAtPair before frame.new k index pair)) }
    ensures gains { IfOk result (λ pair. GainsValue frame.old frame.new pair.value) }
    ensures places { OnErr result (KeepsAllPlaces frame.old frame.new) }
    ensures refused { IfErr result (λ fault. Since frame.old block
        (λ before k. RefusedPairAt before frame.new k index fault)) }
    ensures waits { IfErr result (λ fault. fault ≢ faults.Busy) }
{
    let of = block.payload().len() as u32;
    let (key, entry) = match pair_in(block.payload(), index as usize) {
        Ok((key, entry)) => (key.copy(alloc), entry),
        Err(fault) => {
            frame.end_keep(block);
            return Err(fault);
        }
    };
    let Ok(key) = key else {
        let full = entry.cell != 0 && frame.len() >= MOST_PLACES as usize;
        frame.end_keep(block);
        return Err(if full {
            Fault::FrameFull
        } else {
            Fault::OutOfMemory
        });
    };
    match look_entry(frame, block, index, entry) {
        Ok(value) => Ok(Pair { key, value, of }),
        Err(fault) => Err(fault),
    }
}

/// What stands beside the key: a scalar, or an object, with a handle more, counted up in one event while the dictionary is
/// locked. The faults come in this order: Busy where another thread has the dictionary locked, WrongKind where the object
/// is none, NoSuchKey; and of an object FrameFull and OutOfMemory.
#[inline(always)]
pub fn try_dict_find_value<H: HasTable<A>, A: Allocator>(
    frame: &mut Frame<H, A>,
    dict: &Handle<A>,
    key: KeyRef<'_>,
) -> Result<Value<A>, Fault>
    requires owned { Owns frame.old dict.now }
    requires unlocked { IsUnlocked frame.old }
    ensures looked { DictFindValue frame.old frame.new dict.now.place (key_lent key.entry) result }
    ensures gains { IfOk result (GainsValue frame.old frame.new) }
    ensures keeps { OnErr result (Keeps frame.old frame.new) }
    ensures unlocked { IsUnlocked frame.new }
{
    let Some(block) = frame.begin(dict) else {
        return Err(Fault::Busy);
    };
    look_value(frame, block, key)
}

/// What stands beside the key comes out, and its pair goes: later pairs move up. The faults come in this order: Busy where
/// another thread has the dictionary locked, WrongKind where the object is none, NoSuchKey; then FrameFull where the frame
/// has no vacant place, which a scalar, too, goes through, and OutOfMemory.
pub fn try_dict_del_value<H: HasTable<A>, A: Allocator>(
    frame: &mut Frame<H, A>,
    dict: &Handle<A>,
    key: KeyRef<'_>,
) -> Result<Value<A>, Fault>
    requires owned { Owns frame.old dict.now }
    requires unlocked { IsUnlocked frame.old }
    ensures takes { DictDelValue frame.old frame.new dict.now.place (key_lent key.entry) result }
    ensures gains { IfOk result (GainsValue frame.old frame.new) }
    ensures keeps { OnErr result (Keeps frame.old frame.new) }
    ensures unlocked { IsUnlocked frame.new }
{
    let Some(block) = frame.begin(dict) else {
        return Err(Fault::Busy);
    };
    del_value(frame, block, key)
}

/// As `try_dict_find_value`, but it waits while another thread has the dictionary locked.
#[inline(always)]
pub fn dict_find_value<H: HasTable<A>, A: Allocator>(
    rt: &impl Wait,
    frame: &mut Frame<H, A>,
    dict: &Handle<A>,
    key: KeyRef<'_>,
) -> Result<Value<A>, Fault>
    requires owned { Owns frame.old dict.now }
    requires unlocked { IsUnlocked frame.old }
    ensures looked { Late frame.old dict.now.place (λ mid. DictFindValue mid frame.new dict.now.place (key_lent key.entry) result) }
    ensures gains { IfOk result (GainsValue frame.old frame.new) }
    ensures keeps { OnErr result (Keeps frame.old frame.new) }
    ensures unlocked { IsUnlocked frame.new }
    ensures waited { IfErr result (λ fault. fault ≢ faults.Busy) }
{
    let block = begin_late(rt, frame, dict);
    look_value(frame, block, key)
}

/// As `try_dict_del_value`, but it waits while another thread has the dictionary locked.
#[inline(always)]
pub fn dict_del_value<H: HasTable<A>, A: Allocator>(
    rt: &impl Wait,
    frame: &mut Frame<H, A>,
    dict: &Handle<A>,
    key: KeyRef<'_>,
) -> Result<Value<A>, Fault>
    requires owned { Owns frame.old dict.now }
    requires unlocked { IsUnlocked frame.old }
    ensures takes { Late frame.old dict.now.place (λ mid. DictDelValue mid frame.new dict.now.place (key_lent key.entry) result) }
    ensures gains { IfOk result (GainsValue frame.old frame.new) }
    ensures keeps { OnErr result (Keeps frame.old frame.new) }
    ensures unlocked { IsUnlocked frame.new }
    ensures waited { IfErr result (λ fault. fault ≢ faults.Busy) }
{
    let block = begin_late(rt, frame, dict);
    del_value(frame, block, key)
}

/// Puts the value beside the key, which is lent. With a new key it comes last, by a copy of the key, and the answer is None;
/// else what stood there comes out. The faults come in this order: Busy where another thread has the dictionary locked,
/// WrongKind where the object is none; with a new key Full at 1,048,576 pairs and OutOfMemory; and where an object comes
/// out for a scalar FrameFull and OutOfMemory. A refusal hands the value back. `none` is as in `try_list_set_value`.
#[inline(always)]
pub fn try_dict_set_value<H: HasTable<A>, A: Allocator + Copy>(
    alloc: A,
    frame: &mut Frame<H, A>,
    none: &mut Handle<A>,
    dict: &Handle<A>,
    key: KeyRef<'_>,
    value: Value<A>,
) -> Result<Option<Value<A>>, HandedBack<Value<A>>>
    requires owned { Owns frame.old dict.now }
    requires unlocked { IsUnlocked frame.old }
    requires none { HasNone frame.old none.old }
    requires apart_none { dict.now.place ≢ none.old.place }
    requires value { OwnsValue frame.old value }
    requires apart { StandsApart dict.now.place value }
    requires other { StandsApart none.old.place value }
    ensures put { DictSetValue frame.old frame.new dict.now.place (key_lent key.entry) none.old none.new value result }
    ensures owns { IfOk result (OwnsPutValue frame.old frame.new none.new value) }
    ensures none { HasNone frame.new none.new }
    ensures same { OnErr result (none.new ≡ none.old) }
    ensures back { IfErr result (λ handed. handed.value ≡ value) }
    ensures keeps { OnErr result (Keeps frame.old frame.new) }
    ensures unlocked { IsUnlocked frame.new }
{
    let Some(block) = frame.begin(dict) else {
        return Err(HandedBack {
            fault: Fault::Busy,
            value,
        });
    };
    set_value_by(alloc, frame, block, key, none, value)
}

/// Puts the value beside the key, which is lent, if the key isn't there: it comes last, by a copy of the key, and the answer
/// is None. Else the value comes back. So of two threads that put one, the first to have the dictionary puts it. The faults
/// come in this order: Busy where another thread has the dictionary locked, WrongKind where the object is none; with a new
/// key Full at 1,048,576 pairs and OutOfMemory. A refusal hands the value back. `none` is as in `try_list_push_value`.
pub fn try_dict_put_new_value<H: HasTable<A>, A: Allocator + Copy>(
    alloc: A,
    frame: &mut Frame<H, A>,
    none: &Handle<A>,
    dict: &Handle<A>,
    key: KeyRef<'_>,
    value: Value<A>,
) -> Result<Option<Value<A>>, HandedBack<Value<A>>>
    requires owned { Owns frame.old dict.now }
    requires unlocked { IsUnlocked frame.old }
    requires none { HasNone frame.old none.now }
    requires apart_none { dict.now.place ≢ none.now.place }
    requires value { OwnsValue frame.old value }
    requires apart { StandsApart dict.now.place value }
    requires other { StandsApart none.now.place value }
    ensures put { DictPutNewValue frame.old frame.new dict.now.place (key_lent key.entry) none.now value result }
    ensures loses { IfOk result (λ back. LosesNew frame.old frame.new value back) }
    ensures none { HasNone frame.new none.now }
    ensures back { IfErr result (λ handed. handed.value ≡ value) }
    ensures keeps { OnErr result (Keeps frame.old frame.new) }
    ensures unlocked { IsUnlocked frame.new }
{
    let Some(block) = frame.begin(dict) else {
        return Err(HandedBack {
            fault: Fault::Busy,
            value,
        });
    };
    put_new_by(alloc, frame, block, key, none, value)
}

/// As `try_dict_put_new_value`, but it waits while another thread has the dictionary locked.
pub fn dict_put_new_value<H: HasTable<A>, A: Allocator + Copy>(
    rt: &impl Wait,
    alloc: A,
    frame: &mut Frame<H, A>,
    none: &Handle<A>,
    dict: &Handle<A>,
    key: KeyRef<'_>,
    value: Value<A>,
) -> Result<Option<Value<A>>, HandedBack<Value<A>>>
    requires owned { Owns frame.old dict.now }
    requires unlocked { IsUnlocked frame.old }
    requires none { HasNone frame.old none.now }
    requires apart_none { dict.now.place ≢ none.now.place }
    requires value { OwnsValue frame.old value }
    requires apart { StandsApart dict.now.place value }
    requires other { StandsApart none.now.place value }
    ensures put { Late frame.old dict.now.place
        (λ mid. DictPutNewValue mid frame.new dict.now.place (key_lent key.entry) none.now value result) }
    ensures loses { IfOk result (λ back. LosesNew frame.old frame.new value back) }
    ensures none { HasNone frame.new none.now }
    ensures back { IfErr result (λ handed. handed.value ≡ value) }
    ensures keeps { OnErr result (Keeps frame.old frame.new) }
    ensures unlocked { IsUnlocked frame.new }
    ensures waited { IfErr result (λ handed. handed.fault ≢ faults.Busy) }
{
    let block = begin_late(rt, frame, dict);
    put_new_by(alloc, frame, block, key, none, value)
}

/// As `try_dict_set_value`, but it waits while another thread has the dictionary locked.
#[inline(always)]
pub fn dict_set_value<H: HasTable<A>, A: Allocator + Copy>(
    rt: &impl Wait,
    alloc: A,
    frame: &mut Frame<H, A>,
    none: &mut Handle<A>,
    dict: &Handle<A>,
    key: KeyRef<'_>,
    value: Value<A>,
) -> Result<Option<Value<A>>, HandedBack<Value<A>>>
    requires owned { Owns frame.old dict.now }
    requires unlocked { IsUnlocked frame.old }
    requires none { HasNone frame.old none.old }
    requires apart_none { dict.now.place ≢ none.old.place }
    requires value { OwnsValue frame.old value }
    requires apart { StandsApart dict.now.place value }
    requires other { StandsApart none.old.place value }
    ensures put { Late frame.old dict.now.place
        (λ mid. DictSetValue mid frame.new dict.now.place (key_lent key.entry) none.old none.new value result) }
    ensures owns { IfOk result (OwnsPutValue frame.old frame.new none.new value) }
    ensures none { HasNone frame.new none.new }
    ensures same { OnErr result (none.new ≡ none.old) }
    ensures back { IfErr result (λ handed. handed.value ≡ value) }
    ensures keeps { OnErr result (Keeps frame.old frame.new) }
    ensures unlocked { IsUnlocked frame.new }
    ensures waited { IfErr result (λ handed. handed.fault ≢ faults.Busy) }
{
    let block = begin_late(rt, frame, dict);
    set_value_by(alloc, frame, block, key, none, value)
}

/// The pair at the place, in the order in which the keys came: a copy of its key, what stands beside it, and how many
/// pairs there are, all as one locking found them. The faults come in this order: Busy where another thread has the
/// dictionary locked, WrongKind where the object is none, NoSuchPlace past its end, of an object FrameFull, and OutOfMemory.
pub fn try_dict_pair_value<H: HasTable<A>, A: Allocator>(
    alloc: A,
    frame: &mut Frame<H, A>,
    dict: &Handle<A>,
    index: u32,
) -> Result<Pair<A>, Fault>
    requires owned { Owns frame.old dict.now }
    requires unlocked { IsUnlocked frame.old }
    ensures looked { DictPairValue frame.old frame.new dict.now.place index result }
    ensures gains { IfOk result (λ pair. GainsValue frame.old frame.new pair.value) }
    ensures keeps { OnErr result (Keeps frame.old frame.new) }
    ensures unlocked { IsUnlocked frame.new }
{
    let Some(block) = frame.begin(dict) else {
        return Err(Fault::Busy);
    };
    look_pair(alloc, frame, block, index)
}

/// As `try_dict_pair_value`, but it waits while another thread has the dictionary locked.
pub fn dict_pair_value<H: HasTable<A>, A: Allocator>(
    rt: &impl Wait,
    alloc: A,
    frame: &mut Frame<H, A>,
    dict: &Handle<A>,
    index: u32,
) -> Result<Pair<A>, Fault>
    requires owned { Owns frame.old dict.now }
    requires unlocked { IsUnlocked frame.old }
    ensures looked { Late frame.old dict.now.place (λ mid. DictPairValue mid frame.new dict.now.place index result) }
    ensures gains { IfOk result (λ pair. GainsValue frame.old frame.new pair.value) }
    ensures keeps { OnErr result (Keeps frame.old frame.new) }
    ensures unlocked { IsUnlocked frame.new }
    ensures waited { IfErr result (λ fault. fault ≢ faults.Busy) }
{
    let block = begin_late(rt, frame, dict);
    look_pair(alloc, frame, block, index)
}
