//! The part of a call that comes after its locking, the same for the forms that wait and those that don't.
//!
//! Whatever can be refused comes before the first change, so a refused call unlocks the object as it was found.

ghost use Rattle.std.specs.Prelude.{◌≡◌, ◌≢◌, ◌<◌, ℕ, List, true, Some, IfOk, IfErr, OnErr, OnOk, slice_get};
ghost use Rattle.brc_words.specs.declared.fault.Fault.TheVariants as faults;
ghost use Rattle.brc_words.specs.declared.kind.Kind.TheVariants as kinds;
ghost use Rattle.brc_words.specs.declared.limits.TheConstants.{MOST_PLACES};
ghost use Rattle.brc_words.specs.Notes.{bare};
ghost use Rattle.brc_words.specs.declared.entry.Entry.{Entry};
ghost use Rattle.brc_count.specs.block.Payload.{kind_of, noted_of, entries_of};
ghost use Rattle.brc_count.specs.law.declared.world.event.Change.TheVariants as changes;
ghost use Rattle.brc_count.specs.table.Shown.{contents_of};
ghost use Rattle.brc_count.specs.Frames.{IsUnlocked, IsAsBefore, Owns};
ghost use Rattle.brc_count.specs.Locking.{KeepsThread, KeepsFrame, cell_in, contents_found, place_locked};
ghost use Rattle.brc_count.specs.Owned.{Keeps, Gains, Loses};
ghost use Rattle.brc_things.specs.Changing.{KeepsAllPlaces};
ghost use Rattle.brc_things.specs.Plain_Lists.{plain_get, plain_set};
ghost use Rattle.brc_things.specs.Rows.{is_row, plain_put, plain_at, plain_take};
ghost use Rattle.brc_things.specs.Within.{HasLockedList, EndsWith, PutsIn, SwapsIn, TakesOut, SharesOut, RefusesPlainly};
ghost use Rattle.brc_things.specs.Within.{RefusesEntry, RefusesPlace};

use crate::rows::{entry_in, make_room};
use brc_count::biased::HasTable;
use brc_count::block::Block;
use brc_count::{Frame, HandedBack, Handle};
use brc_words::{Entry, Fault, Kind};
use std::alloc::Allocator;

/// The value's reference becomes the last entry of a list or a mailbox.
#[inline(always)]
pub(crate) fn put_locked<H: HasTable<A>, A: Allocator>(
    frame: &mut Frame<H, A>,
    kind: Kind,
    mut block: Block<A>,
    value: Handle<A>,
) -> Result<(), HandedBack<Handle<A>>>
    requires row { is_row kind ≡ true }
    requires has { HasLockedList frame.old block }
    requires owned { Owns frame.old value }
    requires apart { place_locked frame.old ≢ Some value.place }
    ensures thread { KeepsThread frame.old frame.new }
    ensures unlocked { IsUnlocked frame.new }
    ensures put { OnOk result (PutsIn frame.old frame.new value.place (λ c. plain_put kind (bare c)) tt) }
    ensures loses { OnOk result (Loses frame.old frame.new value) }
    ensures back { IfErr result (λ handed. handed.value ≡ value) }
    ensures frame { OnErr result (KeepsFrame frame.old frame.new) }
    ensures kept { OnErr result (EndsWith frame.old frame.new changes.Keep (contents_found frame.old)) }
    ensures refused { IfErr result (λ handed. (c : ℕ)
        → RefusesEntry (plain_put kind (bare c) (contents_found frame.old)) handed.fault) }
    ensures waited { IfErr result (λ handed. handed.fault ≢ faults.Busy) }
{
    if let Err(fault) = make_room(block.payload_mut(), kind) {
        frame.end_keep(block);
        return Err(HandedBack { fault, value });
    }
    let cell = frame.cell(&value);
    let entry = Entry::bare(cell);
    block.payload_mut().put_reserved(entry);
    frame.end_put(block, value);
    Ok(())
}

/// The references of an entry of a list and of the value are exchanged; what was noted beside the entry goes.
#[inline(always)]
pub(crate) fn swap_locked<H: HasTable<A>, A: Allocator>(
    frame: &mut Frame<H, A>,
    mut block: Block<A>,
    index: u32,
    value: Handle<A>,
) -> Result<Handle<A>, HandedBack<Handle<A>>>
    requires has { HasLockedList frame.old block }
    requires owned { Owns frame.old value }
    requires apart { place_locked frame.old ≢ Some value.place }
    ensures thread { KeepsThread frame.old frame.new }
    ensures unlocked { IsUnlocked frame.new }
    ensures swapped { OnOk result (SwapsIn frame.old frame.new value.place (λ c. plain_set index (bare c)) (λ entry. entry)) }
    ensures keeps { Keeps frame.old frame.new }
    ensures same { IfOk result (λ old. old ≡ value) }
    ensures back { IfErr result (λ handed. handed.value ≡ value) }
    ensures frame { OnErr result (KeepsFrame frame.old frame.new) }
    ensures kept { OnErr result (EndsWith frame.old frame.new changes.Keep (contents_found frame.old)) }
    ensures refused { IfErr result (λ handed. (c : ℕ)
        → RefusesPlainly (plain_set index (bare c) (contents_found frame.old)) handed.fault) }
    ensures waited { IfErr result (λ handed. handed.fault ≢ faults.Busy) }
{
    match entry_in(block.payload(), Kind::List, index as usize) {
        Err(fault) => {
            frame.end_keep(block);
            Err(HandedBack { fault, value })
        }
        Ok(entry) => {
            let cell = frame.cell(&value);
            let put = Entry::bare(cell);
            block.payload_mut().set(index as usize, put);
            Ok(frame.end_swap(block, index, entry.cell, value))
        }
    }
}

/// An entry, and the next place made sure of, for a handle to it.
#[inline(always)]
fn entry_and_place<H: HasTable<A>, A: Allocator>(
    frame: &mut Frame<H, A>,
    kind: Kind,
    block: &Block<A>,
    index: usize,
) -> Result<Entry, Fault>
    requires row { is_row kind ≡ true }
    ensures same { IsAsBefore frame.old frame.new }
    ensures room { OnOk result (0 < frame.new.spare) }
    ensures low { OnOk result (frame.new.next < MOST_PLACES) }
    ensures is { OnOk result (kind_of block.now.1 ≡ kind) }
    ensures entry { IfOk result (λ entry. slice_get (noted_of block.now.1) index ≡ Some entry) }
    ensures cell { IfOk result (λ entry. slice_get (entries_of block.now.1) index ≡ Some entry.cell) }
    ensures refused { IfErr result (λ fault. (left : List Entry → List Entry) →
        RefusesPlace frame.old (plain_at kind index left (contents_of block.now.1)) fault) }
{
    let entry = entry_in(block.payload(), kind, index)?;
    frame.place()?;
    Ok(entry)
}

/// A handle more to an entry of a list. It is counted up before the unlocking: after that the entry may go.
#[inline(always)]
pub(crate) fn share_locked<H: HasTable<A>, A: Allocator>(
    frame: &mut Frame<H, A>,
    block: Block<A>,
    index: u32,
) -> Result<Handle<A>, Fault>
    requires has { HasLockedList frame.old block }
    ensures thread { KeepsThread frame.old frame.new }
    ensures unlocked { IsUnlocked frame.new }
    ensures shared { IfOk result (SharesOut frame.old frame.new (plain_get index)) }
    ensures gains { IfOk result (Gains frame.old frame.new) }
    ensures places { OnErr result (KeepsAllPlaces frame.old frame.new) }
    ensures kept { OnErr result (EndsWith frame.old frame.new changes.Keep (contents_found frame.old)) }
    ensures refused { IfErr result (RefusesPlace frame.old (plain_get index (contents_found frame.old))) }
{
    match entry_and_place(frame, Kind::List, &block, index as usize) {
        Err(fault) => {
            frame.end_keep(block);
            Err(fault)
        }
        Ok(entry) => {
            let given = frame.up_entry(index, entry.cell);
            frame.end_keep(block);
            Ok(given)
        }
    }
}

/// The reference of an entry of a list or a mailbox is a new handle's now; what was noted beside it goes.
#[inline(always)]
pub(crate) fn take_locked<H: HasTable<A>, A: Allocator>(
    frame: &mut Frame<H, A>,
    kind: Kind,
    mut block: Block<A>,
    index: usize,
) -> Result<Handle<A>, Fault>
    requires row { is_row kind ≡ true }
    requires has { HasLockedList frame.old block }
    ensures thread { KeepsThread frame.old frame.new }
    ensures unlocked { IsUnlocked frame.new }
    ensures taken { IfOk result (TakesOut frame.old frame.new (plain_take kind index)) }
    ensures gains { IfOk result (Gains frame.old frame.new) }
    ensures places { OnErr result (KeepsAllPlaces frame.old frame.new) }
    ensures kept { OnErr result (EndsWith frame.old frame.new changes.Keep (contents_found frame.old)) }
    ensures refused { IfErr result (RefusesPlace frame.old (plain_take kind index (contents_found frame.old))) }
{
    let entry = match entry_and_place(frame, kind, &block, index) {
        Err(fault) => {
            frame.end_keep(block);
            return Err(fault);
        }
        Ok(entry) => entry,
    };
    let place = index as u32;
    let _entry = block.payload_mut().remove(index);
    Ok(frame.end_take(block, place, entry.cell))
}
