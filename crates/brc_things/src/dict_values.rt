//! The value beside a key: it is found, or goes with its pair.

ghost use Rattle.std.specs.Prelude.{◌≡◌, ◌≢◌, Some, IfOk, IfErr, OnErr};
ghost use Rattle.brc_words.specs.declared.fault.Fault.TheVariants as faults;
ghost use Rattle.brc_count.specs.block.Lent_Keys.{key_lent};
ghost use Rattle.brc_count.specs.table.Shown.{contents_of};
ghost use Rattle.brc_count.specs.Frames.{IsUnlocked, Owns};
ghost use Rattle.brc_count.specs.Locking.{IsLocked, cell_locked, contents_found, KeepsThread};
ghost use Rattle.brc_count.specs.Owned.{Keeps, Gains};
ghost use Rattle.brc_things.specs.Called.{Late};
ghost use Rattle.brc_things.specs.Changing.{KeepsAllPlaces, Shares, CallTakes, RefusedPlace};
ghost use Rattle.brc_things.specs.Dict_Calls.{DictFind, DictDel};
ghost use Rattle.brc_things.specs.Plain_Dicts.{plain_find, plain_del};
ghost use Rattle.brc_things.specs.Since.{Since};

use crate::late::begin_late;
use crate::seeking::{Sought, seek};
use brc_count::biased::HasTable;
use brc_count::block::{Block, KeyRef};
use brc_count::{Frame, Handle};
use brc_words::{Fault, Key};
use std::alloc::Allocator;
use std::sync::Wait;

/// A find in the dictionary that is locked, and its unlocking.
#[inline(always)]
fn find_locked<H: HasTable<A>, A: Allocator>(
    frame: &mut Frame<H, A>,
    block: Block<A>,
    key: KeyRef<'_>,
) -> Result<Handle<A>, Fault>
    requires locked { IsLocked frame.old }
    requires of_cell { cell_locked frame.old ≡ Some block.0 }
    requires found { contents_found frame.old ≡ contents_of block.1 }
    ensures thread { KeepsThread frame.old frame.new }
    ensures unlocked { IsUnlocked frame.new }
    ensures shares { IfOk result (λ given. Since frame.old block
        (λ before k. Shares before frame.new k (plain_find {A = A} (key_lent key.entry)) given)) }
    ensures gains { IfOk result (Gains frame.old frame.new) }
    ensures places { IfErr result (λ fault. KeepsAllPlaces frame.old frame.new) }
    ensures refused { IfErr result (λ fault. Since frame.old block
        (λ before k. RefusedPlace before frame.new k (plain_find {A = A} (key_lent key.entry)) fault)) }
    ensures waits { IfErr result (λ fault. fault ≢ faults.Busy) }
{
    let (index, entry) = match seek(block.payload(), key) {
        Sought::There { index, entry } => (index, entry),
        Sought::Absent => {
            frame.end_keep(block);
            return Err(Fault::NoSuchKey);
        }
        Sought::WrongKind => {
            frame.end_keep(block);
            return Err(Fault::WrongKind);
        }
    };
    if let Err(fault) = frame.place() {
        frame.end_keep(block);
        return Err(fault);
    }
    let given = frame.up_entry(index as u32, entry.cell);
    frame.end_keep(block);
    Ok(given)
}

/// As `try_dict_find`, by a key that is lent.
#[inline(always)]
pub fn try_dict_find_by<H: HasTable<A>, A: Allocator>(
    frame: &mut Frame<H, A>,
    dict: &Handle<A>,
    key: KeyRef<'_>,
) -> Result<Handle<A>, Fault>
    requires owned { Owns frame.old dict.now }
    requires unlocked { IsUnlocked frame.old }
    ensures shares { DictFind frame.old frame.new dict.now.place (key_lent key.entry) result }
    ensures gains { IfOk result (Gains frame.old frame.new) }
    ensures keeps { OnErr result (Keeps frame.old frame.new) }
    ensures unlocked { IsUnlocked frame.new }
{
    let Some(block) = frame.begin(dict) else {
        return Err(Fault::Busy);
    };
    find_locked(frame, block, key)
}

/// A handle to the value beside the key, counted up in one event while the dictionary is locked. Busy where another
/// thread has it locked, then WrongKind where the object is no dictionary, NoSuchKey, FrameFull and OutOfMemory.
#[inline(always)]
pub fn try_dict_find<H: HasTable<A>, A: Allocator>(
    frame: &mut Frame<H, A>,
    dict: &Handle<A>,
    key: &Key<A>,
) -> Result<Handle<A>, Fault>
    requires owned { Owns frame.old dict.now }
    requires unlocked { IsUnlocked frame.old }
    ensures shares { DictFind frame.old frame.new dict.now.place key.now result }
    ensures gains { IfOk result (Gains frame.old frame.new) }
    ensures keeps { OnErr result (Keeps frame.old frame.new) }
    ensures unlocked { IsUnlocked frame.new }
{
    try_dict_find_by(frame, dict, KeyRef::of(key))
}

/// As `dict_find`, by a key that is lent.
#[inline(always)]
pub fn dict_find_by<H: HasTable<A>, A: Allocator>(
    rt: &impl Wait,
    frame: &mut Frame<H, A>,
    dict: &Handle<A>,
    key: KeyRef<'_>,
) -> Result<Handle<A>, Fault>
    requires owned { Owns frame.old dict.now }
    requires unlocked { IsUnlocked frame.old }
    ensures shares { Late frame.old dict.now.place (λ mid. DictFind mid frame.new dict.now.place (key_lent key.entry) result) }
    ensures gains { IfOk result (Gains frame.old frame.new) }
    ensures keeps { OnErr result (Keeps frame.old frame.new) }
    ensures unlocked { IsUnlocked frame.new }
    ensures waited { IfErr result (λ fault. fault ≢ faults.Busy) }
{
    let block = begin_late(rt, frame, dict);
    find_locked(frame, block, key)
}

/// A handle to the value beside the key; WrongKind, NoSuchKey, FrameFull and OutOfMemory as in `try_dict_find`. It
/// waits while another thread has the dictionary locked.
#[inline(always)]
pub fn dict_find<H: HasTable<A>, A: Allocator>(
    rt: &impl Wait,
    frame: &mut Frame<H, A>,
    dict: &Handle<A>,
    key: &Key<A>,
) -> Result<Handle<A>, Fault>
    requires owned { Owns frame.old dict.now }
    requires unlocked { IsUnlocked frame.old }
    ensures shares { Late frame.old dict.now.place (λ mid. DictFind mid frame.new dict.now.place key.now result) }
    ensures gains { IfOk result (Gains frame.old frame.new) }
    ensures keeps { OnErr result (Keeps frame.old frame.new) }
    ensures unlocked { IsUnlocked frame.new }
    ensures waited { IfErr result (λ fault. fault ≢ faults.Busy) }
{
    dict_find_by(rt, frame, dict, KeyRef::of(key))
}

/// A deletion in the dictionary that is locked, and its unlocking.
fn del_locked<H: HasTable<A>, A: Allocator>(
    frame: &mut Frame<H, A>,
    mut block: Block<A>,
    key: KeyRef<'_>,
) -> Result<Handle<A>, Fault>
    requires locked { IsLocked frame.old }
    requires of_cell { cell_locked frame.old ≡ Some block.0 }
    requires found { contents_found frame.old ≡ contents_of block.1 }
    ensures thread { KeepsThread frame.old frame.new }
    ensures unlocked { IsUnlocked frame.new }
    ensures takes { IfOk result (λ given. Since frame.old block
        (λ before k. CallTakes before frame.new k (plain_del {A = A} (key_lent key.entry)) given)) }
    ensures gains { IfOk result (Gains frame.old frame.new) }
    ensures places { IfErr result (λ fault. KeepsAllPlaces frame.old frame.new) }
    ensures refused { IfErr result (λ fault. Since frame.old block
        (λ before k. RefusedPlace before frame.new k (plain_del {A = A} (key_lent key.entry)) fault)) }
    ensures waits { IfErr result (λ fault. fault ≢ faults.Busy) }
{
    let (index, entry) = match seek(block.payload(), key) {
        Sought::There { index, entry } => (index, entry),
        Sought::Absent => {
            frame.end_keep(block);
            return Err(Fault::NoSuchKey);
        }
        Sought::WrongKind => {
            frame.end_keep(block);
            return Err(Fault::WrongKind);
        }
    };
    if let Err(fault) = frame.place() {
        frame.end_keep(block);
        return Err(fault);
    }
    let place = index as u32;
    let _entry = block.payload_mut().remove(index);
    Ok(frame.end_take(block, place, entry.cell))
}

/// As `try_dict_del`, by a key that is lent.
pub fn try_dict_del_by<H: HasTable<A>, A: Allocator>(
    frame: &mut Frame<H, A>,
    dict: &Handle<A>,
    key: KeyRef<'_>,
) -> Result<Handle<A>, Fault>
    requires owned { Owns frame.old dict.now }
    requires unlocked { IsUnlocked frame.old }
    ensures takes { DictDel frame.old frame.new dict.now.place (key_lent key.entry) result }
    ensures gains { IfOk result (Gains frame.old frame.new) }
    ensures keeps { OnErr result (Keeps frame.old frame.new) }
    ensures unlocked { IsUnlocked frame.new }
{
    let Some(block) = frame.begin(dict) else {
        return Err(Fault::Busy);
    };
    del_locked(frame, block, key)
}

/// The value beside the key, whose pair goes; later ones close up. Busy where another thread has the dictionary locked,
/// then WrongKind where the object is no dictionary, NoSuchKey, FrameFull and OutOfMemory.
pub fn try_dict_del<H: HasTable<A>, A: Allocator>(
    frame: &mut Frame<H, A>,
    dict: &Handle<A>,
    key: &Key<A>,
) -> Result<Handle<A>, Fault>
    requires owned { Owns frame.old dict.now }
    requires unlocked { IsUnlocked frame.old }
    ensures takes { DictDel frame.old frame.new dict.now.place key.now result }
    ensures gains { IfOk result (Gains frame.old frame.new) }
    ensures keeps { OnErr result (Keeps frame.old frame.new) }
    ensures unlocked { IsUnlocked frame.new }
{
    try_dict_del_by(frame, dict, KeyRef::of(key))
}

/// As `dict_del`, by a key that is lent.
pub fn dict_del_by<H: HasTable<A>, A: Allocator>(
    rt: &impl Wait,
    frame: &mut Frame<H, A>,
    dict: &Handle<A>,
    key: KeyRef<'_>,
) -> Result<Handle<A>, Fault>
    requires owned { Owns frame.old dict.now }
    requires unlocked { IsUnlocked frame.old }
    ensures takes { Late frame.old dict.now.place (λ mid. DictDel mid frame.new dict.now.place (key_lent key.entry) result) }
    ensures gains { IfOk result (Gains frame.old frame.new) }
    ensures keeps { OnErr result (Keeps frame.old frame.new) }
    ensures unlocked { IsUnlocked frame.new }
    ensures waited { IfErr result (λ fault. fault ≢ faults.Busy) }
{
    let block = begin_late(rt, frame, dict);
    del_locked(frame, block, key)
}

/// The value beside the key, whose pair goes; WrongKind, NoSuchKey, FrameFull and OutOfMemory as in `try_dict_del`. It
/// waits while another thread has the dictionary locked.
pub fn dict_del<H: HasTable<A>, A: Allocator>(
    rt: &impl Wait,
    frame: &mut Frame<H, A>,
    dict: &Handle<A>,
    key: &Key<A>,
) -> Result<Handle<A>, Fault>
    requires owned { Owns frame.old dict.now }
    requires unlocked { IsUnlocked frame.old }
    ensures takes { Late frame.old dict.now.place (λ mid. DictDel mid frame.new dict.now.place key.now result) }
    ensures gains { IfOk result (Gains frame.old frame.new) }
    ensures keeps { OnErr result (Keeps frame.old frame.new) }
    ensures unlocked { IsUnlocked frame.new }
    ensures waited { IfErr result (λ fault. fault ≢ faults.Busy) }
{
    dict_del_by(rt, frame, dict, KeyRef::of(key))
}
