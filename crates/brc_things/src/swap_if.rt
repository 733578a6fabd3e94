//! A value goes into an entry only if that is still what was expected: what threads that count or publish by turns need. The
//! look and the swap are one locking, so no other thread steps in between.

ghost use Rattle.std.specs.Prelude.{◌≡◌, ◌≢◌, ℕ, true, Some, IfOk, IfErr, OnErr, slice_get};
ghost use Rattle.brc_words.specs.declared.fault.Fault.TheVariants as faults;
ghost use Rattle.brc_words.specs.declared.entry.Entry.{Entry as EntrySeen};
ghost use Rattle.brc_words.specs.Kinds.{is_container};
ghost use Rattle.brc_count.specs.block.Lent_Keys.{key_lent};
ghost use Rattle.brc_count.specs.block.Payload.{kind_of, noted_of};
ghost use Rattle.brc_count.specs.Frames.{IsUnlocked, Owns};
ghost use Rattle.brc_count.specs.Locking.{KeepsThread, place_locked};
ghost use Rattle.brc_count.specs.Owned.{Keeps};
ghost use Rattle.brc_things.specs.Called.{Late};
ghost use Rattle.brc_things.specs.Changing.{KeepsAllPlaces, PlainCall};
ghost use Rattle.brc_things.specs.Plain_Dicts.{plain_find, plain_put};
ghost use Rattle.brc_things.specs.Plain_Lists.{plain_get, plain_set};
ghost use Rattle.brc_things.specs.Plain_Values.{PutCall, SetsAt, FindsAt, at_old};
ghost use Rattle.brc_things.specs.Since.{Since};
ghost use Rattle.brc_things.specs.Still.{is_still, only_if, SwapsIfStill, OwnsIfSwapped, ListSwapIf, DictSwapIf};
ghost use Rattle.brc_things.specs.Values.{OwnsValue, StandsApart, HasNone, RefusedPutting};
ghost use Rattle.brc_things.specs.Within.{HasLockedList};

use crate::late::begin_late;
use crate::rows::entry_in;
use crate::seeking::{Sought, seek};
use crate::valued_entries::set_entry;
use crate::{SwapIf, Value};
use brc_count::biased::HasTable;
use brc_count::block::{Block, KeyRef};
use brc_count::{Frame, HandedBack, Handle};
use brc_words::{Entry, Fault, Kind};
use std::alloc::Allocator;
use std::sync::Wait;

/// Whether the entry is still the expected one.
#[inline(always)]
fn stands_still(expected: Entry, entry: Entry) -> bool
    ensures { result ≡ is_still expected entry }
{
    entry.cell == expected.cell
        && (expected.cell != 0 || (entry.label == expected.label && entry.bits == expected.bits))
}

/// The value goes into the entry, if that is still the expected one, and what stood there comes out; else it comes back. A
/// scalar wants a place of the frame where an object comes out: FrameFull, OutOfMemory.
#[inline(always)]
fn swap_entry_if<H: HasTable<A>, A: Allocator>(
    frame: &mut Frame<H, A>,
    kind: Kind,
    block: Block<A>,
    index: u32,
    entry: Entry,
    expected: Entry,
    none: &mut Handle<A>,
    value: Value<A>,
) -> Result<SwapIf<A>, HandedBack<Value<A>>>
    requires has { HasLockedList frame.old block }
    requires of_kind { kind_of block.1 ≡ kind }
    requires container { is_container kind ≡ true }
    requires there { slice_get (noted_of block.1) index ≡ Some entry }
    requires none { HasNone frame.old none.old }
    requires apart_none { place_locked frame.old ≢ Some none.old.place }
    requires owned { OwnsValue frame.old value }
    requires apart { (k : ℕ) → place_locked frame.old ≡ Some k → StandsApart k value }
    requires other { StandsApart none.old.place value }
    ensures thread { KeepsThread frame.old frame.new }
    ensures unlocked { IsUnlocked frame.new }
    ensures swapped { IfOk result (λ did. (look : PlainCall EntrySeen) (call : PutCall) → FindsAt block.1 entry look →
        SetsAt block.1 index entry call → Since frame.old block
        (λ before k. SwapsIfStill before frame.new k none.old none.new value (only_if expected look call) did)) }
    ensures owns { IfOk result (OwnsIfSwapped frame.old frame.new none.new value) }
    ensures none { HasNone frame.new none.new }
    ensures back { IfErr result (λ handed. handed.value ≡ value) }
    ensures places { OnErr result (KeepsAllPlaces frame.old frame.new) }
    ensures same { OnErr result (none.new ≡ none.old) }
    ensures refused { IfErr result (λ handed. (look : PlainCall EntrySeen) (call : PutCall) → FindsAt block.1 entry look →
        SetsAt block.1 index entry call → Since frame.old block
        (λ before k. RefusedPutting before frame.new k value (only_if expected look call) handed.fault)) }
    ensures waits { IfErr result (λ handed. handed.fault ≢ faults.Busy) }
{
    if !stands_still(expected, entry) {
        frame.end_keep(block);
        return Ok(SwapIf::Differs(value));
    }
    match set_entry(frame, kind, block, index, entry, none, value) {
        Ok(old) => Ok(SwapIf::Swapped(old)),
        Err(handed) => Err(handed),
    }
}

/// The value goes into an entry of a list, if that is still the expected one. The faults: WrongKind, NoSuchPlace; and of a
/// scalar for an object FrameFull and OutOfMemory.
#[inline(always)]
fn list_swap<H: HasTable<A>, A: Allocator>(
    frame: &mut Frame<H, A>,
    block: Block<A>,
    index: u32,
    expected: Entry,
    none: &mut Handle<A>,
    value: Value<A>,
) -> Result<SwapIf<A>, HandedBack<Value<A>>>
    requires has { HasLockedList frame.old block }
    requires none { HasNone frame.old none.old }
    requires apart_none { place_locked frame.old ≢ Some none.old.place }
    requires owned { OwnsValue frame.old value }
    requires apart { (k : ℕ) → place_locked frame.old ≡ Some k → StandsApart k value }
    requires other { StandsApart none.old.place value }
    ensures thread { KeepsThread frame.old frame.new }
    ensures unlocked { IsUnlocked frame.new }
    ensures swapped { IfOk result (λ did. Since frame.old block
        (λ before k. SwapsIfStill before frame.new k none.old none.new value
        (only_if expected (plain_get index) (at_old (plain_set index))) did)) }
    ensures owns { IfOk result (OwnsIfSwapped frame.old frame.new none.new value) }
    ensures none { HasNone frame.new none.new }
    ensures back { IfErr result (λ handed. handed.value ≡ value) }
    ensures places { OnErr result (KeepsAllPlaces frame.old frame.new) }
    ensures same { OnErr result (none.new ≡ none.old) }
    ensures refused { IfErr result (λ handed. Since frame.old block
        (λ before k. RefusedPutting before frame.new k value
        (only_if expected (plain_get index) (at_old (plain_set index))) handed.fault)) }
    ensures waits { IfErr result (λ handed. handed.fault ≢ faults.Busy) }
{
    match entry_in(block.payload(), Kind::List, index as usize) {
        Ok(entry) => swap_entry_if(
            frame,
            Kind::List,
            block,
            index,
            entry,
            expected,
            none,
            value,
        ),
        Err(fault) => {
            frame.end_keep(block);
            Err(HandedBack { fault, value })
        }
    }
}

/// The value goes beside a key of a dictionary, if what stands there is still the expected one. The faults: WrongKind,
/// NoSuchKey; and of a scalar for an object FrameFull and OutOfMemory.
#[inline(always)]
fn dict_swap<H: HasTable<A>, A: Allocator>(
    frame: &mut Frame<H, A>,
    block: Block<A>,
    key: KeyRef<'_>,
    expected: Entry,
    none: &mut Handle<A>,
    value: Value<A>,
) -> Result<SwapIf<A>, HandedBack<Value<A>>>
    requires has { HasLockedList frame.old block }
    requires none { HasNone frame.old none.old }
    requires apart_none { place_locked frame.old ≢ Some none.old.place }
    requires owned { OwnsValue frame.old value }
    requires apart { (k : ℕ) → place_locked frame.old ≡ Some k → StandsApart k value }
    requires other { StandsApart none.old.place value }
    ensures thread { KeepsThread frame.old frame.new }
    ensures unlocked { IsUnlocked frame.new }
    ensures swapped { IfOk result (λ did. Since frame.old block
        (λ before k. SwapsIfStill before frame.new k none.old none.new value
        (only_if expected (plain_find {A = A} (key_lent key.entry)) (plain_put {A = A} (key_lent key.entry))) did)) }
    ensures owns { IfOk result (OwnsIfSwapped frame.old frame.new none.new value) }
    ensures none { HasNone frame.new none.new }
    ensures back { IfErr result (λ handed. handed.value ≡ value) }
    ensures places { OnErr result (KeepsAllPlaces frame.old frame.new) }
    ensures same { OnErr result (none.new ≡ none.old) }
    ensures refused { IfErr result (λ handed. Since frame.old block
        (λ before k. RefusedPutting before frame.new k value
        (only_if expected (plain_find {A = A} (key_lent key.entry)) (plain_put {A = A} (key_lent key.entry))) handed.fault)) }
    ensures waits { IfErr result (λ handed. handed.fault ≢ faults.Busy) }
{
    match seek(block.payload(), key) {
        Sought::There { index, entry } => swap_entry_if(
            frame,
            Kind::Dict,
            block,
            index as u32,
            entry,
            expected,
            none,
            value,
        ),
        Sought::Absent => {
            frame.end_keep(block);
            Err(HandedBack {
                fault: Fault::NoSuchKey,
                value,
            })
        }
        Sought::WrongKind => {
            frame.end_keep(block);
            Err(HandedBack {
                fault: Fault::WrongKind,
                value,
            })
        }
    }
}

/// The value goes into an entry of the list, if that is still the expected one: of an object its cell, whatever is noted
/// there; of a scalar label and bits. What stood there comes out; or the value comes back, if something else stands there.
/// The faults come in this order: Busy where another thread has the object locked, WrongKind where it is no list,
/// NoSuchPlace past its end; and where an object comes out for a scalar FrameFull and OutOfMemory. A refusal hands the value
/// back. `none` is as in `try_list_set_value`.
#[inline(always)]
pub fn try_list_swap_if<H: HasTable<A>, A: Allocator>(
    frame: &mut Frame<H, A>,
    none: &mut Handle<A>,
    list: &Handle<A>,
    index: u32,
    expected: Entry,
    value: Value<A>,
) -> Result<SwapIf<A>, HandedBack<Value<A>>>
    requires owned { Owns frame.old list.now }
    requires unlocked { IsUnlocked frame.old }
    requires none { HasNone frame.old none.old }
    requires apart_none { list.now.place ≢ none.old.place }
    requires value { OwnsValue frame.old value }
    requires apart { StandsApart list.now.place value }
    requires other { StandsApart none.old.place value }
    ensures swapped { ListSwapIf frame.old frame.new list.now.place index expected
        none.old none.new value result }
    ensures owns { IfOk result (OwnsIfSwapped frame.old frame.new none.new value) }
    ensures none { HasNone frame.new none.new }
    ensures same { OnErr result (none.new ≡ none.old) }
    ensures back { IfErr result (λ handed. handed.value ≡ value) }
    ensures keeps { OnErr result (Keeps frame.old frame.new) }
    ensures unlocked { IsUnlocked frame.new }
{
    let Some(block) = frame.begin(list) else {
        return Err(HandedBack {
            fault: Fault::Busy,
            value,
        });
    };
    list_swap(frame, block, index, expected, none, value)
}

/// As `try_list_swap_if`, of what stands beside the key of the dictionary: WrongKind where the object is none, then
/// NoSuchKey.
#[inline(always)]
pub fn try_dict_swap_if<H: HasTable<A>, A: Allocator>(
    frame: &mut Frame<H, A>,
    none: &mut Handle<A>,
    dict: &Handle<A>,
    key: KeyRef<'_>,
    expected: Entry,
    value: Value<A>,
) -> Result<SwapIf<A>, HandedBack<Value<A>>>
    requires owned { Owns frame.old dict.now }
    requires unlocked { IsUnlocked frame.old }
    requires none { HasNone frame.old none.old }
    requires apart_none { dict.now.place ≢ none.old.place }
    requires value { OwnsValue frame.old value }
    requires apart { StandsApart dict.now.place value }
    requires other { StandsApart none.old.place value }
    ensures swapped { DictSwapIf frame.old frame.new dict.now.place (key_lent key.entry) expected
        none.old none.new value result }
    ensures owns { IfOk result (OwnsIfSwapped frame.old frame.new none.new value) }
    ensures none { HasNone frame.new none.new }
    ensures same { OnErr result (none.new ≡ none.old) }
    ensures back { IfErr result (λ handed. handed.value ≡ value) }
    ensures keeps { OnErr result (Keeps frame.old frame.new) }
    ensures unlocked { IsUnlocked frame.new }
{
    let Some(block) = frame.begin(dict) else {
        return Err(HandedBack {
            fault: Fault::Busy,
            value,
        });
    };
    dict_swap(frame, block, key, expected, none, value)
}

/// As `try_list_swap_if`, but it waits while another thread has the list locked.
#[inline(always)]
pub fn list_swap_if<H: HasTable<A>, A: Allocator>(
    rt: &impl Wait,
    frame: &mut Frame<H, A>,
    none: &mut Handle<A>,
    list: &Handle<A>,
    index: u32,
    expected: Entry,
    value: Value<A>,
) -> Result<SwapIf<A>, HandedBack<Value<A>>>
    requires owned { Owns frame.old list.now }
    requires unlocked { IsUnlocked frame.old }
    requires none { HasNone frame.old none.old }
    requires apart_none { list.now.place ≢ none.old.place }
    requires value { OwnsValue frame.old value }
    requires apart { StandsApart list.now.place value }
    requires other { StandsApart none.old.place value }
    ensures swapped { Late frame.old list.now.place
        (λ mid. ListSwapIf mid frame.new list.now.place index expected none.old none.new value result) }
    ensures owns { IfOk result (OwnsIfSwapped frame.old frame.new none.new value) }
    ensures none { HasNone frame.new none.new }
    ensures same { OnErr result (none.new ≡ none.old) }
    ensures back { IfErr result (λ handed. handed.value ≡ value) }
    ensures keeps { OnErr result (Keeps frame.old frame.new) }
    ensures unlocked { IsUnlocked frame.new }
    ensures waited { IfErr result (λ handed. handed.fault ≢ faults.Busy) }
{
    let block = begin_late(rt, frame, list);
    list_swap(frame, block, index, expected, none, value)
}

/// As `try_dict_swap_if`, but it waits while another thread has the dictionary locked.
#[inline(always)]
pub fn dict_swap_if<H: HasTable<A>, A: Allocator>(
    rt: &impl Wait,
    frame: &mut Frame<H, A>,
    none: &mut Handle<A>,
    dict: &Handle<A>,
    key: KeyRef<'_>,
    expected: Entry,
    value: Value<A>,
) -> Result<SwapIf<A>, HandedBack<Value<A>>>
    requires owned { Owns frame.old dict.now }
    requires unlocked { IsUnlocked frame.old }
    requires none { HasNone frame.old none.old }
    requires apart_none { dict.now.place ≢ none.old.place }
    requires value { OwnsValue frame.old value }
    requires apart { StandsApart dict.now.place value }
    requires other { StandsApart none.old.place value }
    ensures swapped { Late frame.old dict.now.place
        (λ mid. DictSwapIf mid frame.new dict.now.place (key_lent key.entry) expected none.old none.new value result) }
    ensures owns { IfOk result (OwnsIfSwapped frame.old frame.new none.new value) }
    ensures none { HasNone frame.new none.new }
    ensures same { OnErr result (none.new ≡ none.old) }
    ensures back { IfErr result (λ handed. handed.value ≡ value) }
    ensures keeps { OnErr result (Keeps frame.old frame.new) }
    ensures unlocked { IsUnlocked frame.new }
    ensures waited { IfErr result (λ handed. handed.fault ≢ faults.Busy) }
{
    let block = begin_late(rt, frame, dict);
    dict_swap(frame, block, key, expected, none, value)
}
