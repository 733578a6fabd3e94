//! One entry of the object that is locked, by value: it is looked at, taken out or set, and the object is unlocked. Which
//! call on plain data this is, only the caller knows: what is said here holds of each that does so to the block.
//!
//! A scalar goes in and out without a place of the frame. Whatever can be refused comes before the first change, so a
//! refused call unlocks the object as it was found.

ghost use Rattle.std.specs.Prelude.{◌≡◌, ◌≢◌, ◌<◌, ℕ, true, Some, IfOk, IfErr, OnErr, length, slice_get, slice_set};
ghost use Rattle.brc_words.specs.declared.fault.Fault.TheVariants as faults;
ghost use Rattle.brc_words.specs.declared.entry.Entry.{Entry as EntrySeen};
ghost use Rattle.brc_words.specs.declared.note.Note.{Note};
ghost use Rattle.brc_words.specs.Kinds.{is_container};
ghost use Rattle.brc_count.specs.block.Payload.{kind_of, noted_of, entries_of, keys_of};
ghost use Rattle.brc_count.specs.Frames.{IsUnlocked, Owns};
ghost use Rattle.brc_count.specs.Locking.{KeepsThread, place_locked, cell_in};
ghost use Rattle.brc_things.specs.Changing.{KeepsAllPlaces, PlainCall, RefusedPlace};
ghost use Rattle.brc_things.specs.Plain_Values.{PutCall, SetsAt, TakesAt, FindsAt};
ghost use Rattle.brc_things.specs.Since.{Since};
ghost use Rattle.brc_things.specs.Values.{OwnsValue, StandsApart, GainsValue, HasNone, LooksAtValue, TakesOutValue};
ghost use Rattle.brc_things.specs.Values.{SwapsValueIn, RefusedPutting, OwnsSwapped, CameOut};
ghost use Rattle.brc_things.specs.declared.value.Value.TheVariants as values;
ghost use Rattle.brc_things.specs.Within.{HasLockedList};

use crate::Value;
use crate::putting::set_pair;
use brc_count::biased::HasTable;
use brc_count::block::{Block, Payload};
use brc_count::{Frame, HandedBack, Handle};
use brc_words::{Entry, Fault, Kind};
use std::alloc::Allocator;

/// What stands in the entry: a scalar, or an object, with a handle more. The faults: FrameFull, OutOfMemory.
#[inline(always)]
pub(crate) fn look_entry<H: HasTable<A>, A: Allocator>(
    frame: &mut Frame<H, A>,
    block: Block<A>,
    index: u32,
    entry: Entry,
) -> Result<Value<A>, Fault>
    requires has { HasLockedList frame.old block }
    requires there { slice_get (noted_of block.1) index ≡ Some entry }
    ensures thread { KeepsThread frame.old frame.new }
    ensures unlocked { IsUnlocked frame.new }
    ensures looked { IfOk result (λ came. (call : PlainCall EntrySeen) → FindsAt block.1 entry call →
        Since frame.old block (λ before k. LooksAtValue before frame.new k call came)) }
    ensures gains { IfOk result (GainsValue frame.old frame.new) }
    ensures places { OnErr result (KeepsAllPlaces frame.old frame.new) }
    ensures refused { IfErr result (λ fault. (call : PlainCall EntrySeen) → FindsAt block.1 entry call →
        Since frame.old block (λ before k. RefusedPlace before frame.new k call fault)) }
    ensures waits { IfErr result (λ fault. fault ≢ faults.Busy) }
{
    if entry.cell == 0 {
        frame.end_keep(block);
        return Ok(Value::Scalar(entry.note()));
    }
    if let Err(fault) = frame.place() {
        frame.end_keep(block);
        return Err(fault);
    }
    let more = frame.up_entry(index, entry.cell);
    frame.end_keep(block);
    Ok(Value::Object(more, entry.note()))
}

/// The entry comes out, and later ones close up. The faults: FrameFull, OutOfMemory.
#[inline(always)]
pub(crate) fn take_entry<H: HasTable<A>, A: Allocator>(
    frame: &mut Frame<H, A>,
    mut block: Block<A>,
    index: usize,
    entry: Entry,
) -> Result<Value<A>, Fault>
    requires has { HasLockedList frame.old block }
    requires there { slice_get (noted_of block.1) index ≡ Some entry }
    ensures thread { KeepsThread frame.old frame.new }
    ensures unlocked { IsUnlocked frame.new }
    ensures taken { IfOk result (λ came. (call : PlainCall EntrySeen) → TakesAt block.1 index entry call →
        Since frame.old block (λ before k. TakesOutValue before frame.new k call came)) }
    ensures gains { IfOk result (GainsValue frame.old frame.new) }
    ensures places { OnErr result (KeepsAllPlaces frame.old frame.new) }
    ensures refused { IfErr result (λ fault. (call : PlainCall EntrySeen) → TakesAt block.1 index entry call →
        Since frame.old block (λ before k. RefusedPlace before frame.new k call fault)) }
    ensures waits { IfErr result (λ fault. fault ≢ faults.Busy) }
{
    let place = index as u32;
    if entry.cell == 0 {
        if !frame.has_vacant() {
            frame.end_keep(block);
            return Err(Fault::FrameFull);
        }
        let _entry = block.payload_mut().remove(index);
        frame.end_take_none(block, place);
        return Ok(Value::Scalar(entry.note()));
    }
    if let Err(fault) = frame.place() {
        frame.end_keep(block);
        return Err(fault);
    }
    let _entry = block.payload_mut().remove(index);
    let given = frame.end_take(block, place, entry.cell);
    Ok(Value::Object(given, entry.note()))
}

/// Another entry at a place. The kind is the caller's to know: it isn't looked at once more.
#[inline(always)]
fn set_in<A: Allocator>(payload: &mut Payload<A>, kind: Kind, index: usize, entry: Entry)
    requires of_kind { kind_of payload.old ≡ kind }
    requires within { index < length (entries_of payload.old) }
    ensures set { entries_of payload.new ≡ slice_set (entries_of payload.old) index entry.cell }
    ensures noted { noted_of payload.new ≡ slice_set (noted_of payload.old) index entry }
    ensures kind { kind_of payload.new ≡ kind_of payload.old }
    ensures keys { keys_of payload.new ≡ keys_of payload.old }
{
    match kind {
        Kind::Dict => set_pair(payload, index, entry),
        _ => payload.set(index, entry),
    }
}

/// What comes out of an entry for an object that went in: a scalar's None is let go of.
#[inline(always)]
fn came<H: HasTable<A>, A: Allocator>(
    frame: &mut Frame<H, A>,
    old: Handle<A>,
    entry: Entry,
) -> Value<A>
    requires owned { Owns frame.old old }
    requires of_entry { cell_in frame.old old.place ≡ Some entry.cell }
    requires unlocked { IsUnlocked frame.old }
    ensures came { CameOut frame.old frame.new old entry result }
    ensures unlocked { IsUnlocked frame.new }
    ensures thread { KeepsThread frame.old frame.new }
{
    if entry.cell == 0 {
        frame.release_none(old);
        return Value::Scalar(entry.note());
    }
    Value::Object(old, entry.note())
}

/// An object goes into the entry, or a scalar for one, and what stood there comes out. A scalar wants a place of the frame:
/// FrameFull, OutOfMemory. It is a function of its own, so that a scalar for a scalar doesn't carry its code.
fn swap_counted<H: HasTable<A>, A: Allocator>(
    frame: &mut Frame<H, A>,
    kind: Kind,
    mut block: Block<A>,
    index: u32,
    entry: Entry,
    none: &mut Handle<A>,
    value: Value<A>,
) -> Result<Value<A>, HandedBack<Value<A>>>
    requires has { HasLockedList frame.old block }
    requires of_kind { kind_of block.1 ≡ kind }
    requires container { is_container kind ≡ true }
    requires there { slice_get (noted_of block.1) index ≡ Some entry }
    requires none { HasNone frame.old none.old }
    requires apart_none { place_locked frame.old ≢ Some none.old.place }
    requires owned { OwnsValue frame.old value }
    requires apart { (k : ℕ) → place_locked frame.old ≡ Some k → StandsApart k value }
    requires other { StandsApart none.old.place value }
    requires counted { (note : Note) → value ≡ values.Scalar note → entry.cell ≢ 0 }
    ensures thread { KeepsThread frame.old frame.new }
    ensures unlocked { IsUnlocked frame.new }
    ensures swapped { IfOk result (λ came. (call : PutCall) → SetsAt block.1 index entry call →
        Since frame.old block (λ before k. SwapsValueIn before frame.new k none.old none.new value call came)) }
    ensures owns { IfOk result (OwnsSwapped frame.old frame.new none.new value) }
    ensures none { HasNone frame.new none.new }
    ensures back { IfErr result (λ handed. handed.value ≡ value) }
    ensures places { OnErr result (KeepsAllPlaces frame.old frame.new) }
    ensures same { OnErr result (none.new ≡ none.old) }
    ensures refused { IfErr result (λ handed. (call : PutCall) → SetsAt block.1 index entry call →
        Since frame.old block (λ before k. RefusedPutting before frame.new k value call handed.fault)) }
    ensures waits { IfErr result (λ handed. handed.fault ≢ faults.Busy) }
{
    match value {
        Value::Scalar(note) => {
            if let Err(fault) = frame.place() {
                frame.end_keep(block);
                return Err(HandedBack {
                    fault,
                    value: Value::Scalar(note),
                });
            }
            set_in(
                block.payload_mut(),
                kind,
                index as usize,
                Entry::new(0, note),
            );
            let old = frame.end_swap_fresh(block, index, entry.cell, none);
            Ok(Value::Object(old, entry.note()))
        }
        Value::Object(handle, note) => {
            let cell = frame.cell(&handle);
            set_in(
                block.payload_mut(),
                kind,
                index as usize,
                Entry::new(cell, note),
            );
            let old = frame.end_swap(block, index, entry.cell, handle);
            Ok(came(frame, old, entry))
        }
    }
}

/// The value goes into the entry, and what stood there comes out. A scalar wants a place of the frame where an object
/// comes out: FrameFull, OutOfMemory.
#[inline(always)]
pub(crate) fn set_entry<H: HasTable<A>, A: Allocator>(
    frame: &mut Frame<H, A>,
    kind: Kind,
    mut block: Block<A>,
    index: u32,
    entry: Entry,
    none: &mut Handle<A>,
    value: Value<A>,
) -> Result<Value<A>, HandedBack<Value<A>>>
    requires has { HasLockedList frame.old block }
    requires of_kind { kind_of block.1 ≡ kind }
    requires container { is_container kind ≡ true }
    requires there { slice_get (noted_of block.1) index ≡ Some entry }
    requires none { HasNone frame.old none.old }
    requires apart_none { place_locked frame.old ≢ Some none.old.place }
    requires owned { OwnsValue frame.old value }
    requires apart { (k : ℕ) → place_locked frame.old ≡ Some k → StandsApart k value }
    requires other { StandsApart none.old.place value }
    ensures thread { KeepsThread frame.old frame.new }
    ensures unlocked { IsUnlocked frame.new }
    ensures swapped { IfOk result (λ came. (call : PutCall) → SetsAt block.1 index entry call →
        Since frame.old block (λ before k. SwapsValueIn before frame.new k none.old none.new value call came)) }
    ensures owns { IfOk result (OwnsSwapped frame.old frame.new none.new value) }
    ensures none { HasNone frame.new none.new }
    ensures back { IfErr result (λ handed. handed.value ≡ value) }
    ensures places { OnErr result (KeepsAllPlaces frame.old frame.new) }
    ensures same { OnErr result (none.new ≡ none.old) }
    ensures refused { IfErr result (λ handed. (call : PutCall) → SetsAt block.1 index entry call →
        Since frame.old block (λ before k. RefusedPutting before frame.new k value call handed.fault)) }
    ensures waits { IfErr result (λ handed. handed.fault ≢ faults.Busy) }
{
    let Value::Scalar(note) = value else {
        return swap_counted(frame, kind, block, index, entry, none, value);
    };
    if entry.cell == 0 {
        set_in(
            block.payload_mut(),
            kind,
            index as usize,
            Entry::new(0, note),
        );
        frame.end_swap_none(block, index, none);
        return Ok(Value::Scalar(entry.note()));
    }
    let value = Value::Scalar(note);
    swap_counted(frame, kind, block, index, entry, none, value)
}
