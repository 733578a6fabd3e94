//! The calls by values on lists and mailboxes.

ghost use Rattle.std.specs.Prelude.{◌≡◌, ◌≢◌, ℕ, true, Some, IfOk, IfErr, OnErr, OnOk};
ghost use Rattle.brc_words.specs.declared.fault.Fault.TheVariants as faults;
ghost use Rattle.brc_words.specs.declared.entry.Entry.{Entry as EntrySeen};
ghost use Rattle.brc_count.specs.Frames.{IsUnlocked, Owns};
ghost use Rattle.brc_count.specs.Locking.{KeepsThread, KeepsFrame, contents_found, place_locked};
ghost use Rattle.brc_count.specs.Owned.{Keeps};
ghost use Rattle.brc_things.specs.Changing.{KeepsAllPlaces, PlainCall, RefusedPlace};
ghost use Rattle.brc_things.specs.Plain_Lists.{plain_get, plain_set};
ghost use Rattle.brc_things.specs.Plain_Values.{PutCall, Alike, at_new, at_old, plain_put_at};
ghost use Rattle.brc_things.specs.Rows.{is_row, plain_put, plain_take};
ghost use Rattle.brc_things.specs.Since.{Since};
ghost use Rattle.brc_things.specs.Value_Calls.{ListPushValue, ListPopValue, ListTakeValue, ListGetValue, ListSetValue};
ghost use Rattle.brc_things.specs.Value_Calls.{ListPutValue, SendValue, RecvValue};
ghost use Rattle.brc_things.specs.Values.{OwnsValue, StandsApart, GainsValue, LosesValue, HasNone, LooksAtValue, TakesOutValue};
ghost use Rattle.brc_things.specs.Values.{PutsValueIn, SwapsValueIn, HasPutValue, RefusedPutting, OwnsSwapped, OwnsPutValue};
ghost use Rattle.brc_things.specs.Within.{HasLockedList};

use crate::Value;
use crate::rows::{entry_in, last_place, make_room};
use crate::valued_entries::{look_entry, set_entry, take_entry};
use brc_count::biased::HasTable;
use brc_count::block::Block;
use brc_count::{Frame, HandedBack, Handle};
use brc_words::{Entry, Fault, Kind};
use std::alloc::Allocator;

/// The value goes in at the end of a list or a mailbox. The faults: WrongKind, Full, OutOfMemory.
#[inline(always)]
pub(crate) fn put_value<H: HasTable<A>, A: Allocator>(
    frame: &mut Frame<H, A>,
    kind: Kind,
    mut block: Block<A>,
    none: &Handle<A>,
    value: Value<A>,
) -> Result<(), HandedBack<Value<A>>>
    requires row { is_row kind ≡ true }
    requires has { HasLockedList frame.old block }
    requires none { HasNone frame.old none.now }
    requires apart_none { place_locked frame.old ≢ Some none.now.place }
    requires owned { OwnsValue frame.old value }
    requires apart { (k : ℕ) → place_locked frame.old ≡ Some k → StandsApart k value }
    requires other { StandsApart none.now.place value }
    ensures thread { KeepsThread frame.old frame.new }
    ensures unlocked { IsUnlocked frame.new }
    ensures put { OnOk result ((call : PutCall) → Alike (contents_found frame.old) call (at_new (plain_put kind)) →
        Since frame.old block (λ before k. PutsValueIn before frame.new k none.now value call)) }
    ensures loses { OnOk result (LosesValue frame.old frame.new value) }
    ensures none { HasNone frame.new none.now }
    ensures back { IfErr result (λ handed. handed.value ≡ value) }
    ensures frame { OnErr result (KeepsFrame frame.old frame.new) }
    ensures refused { IfErr result (λ handed. (call : PutCall) →
        Alike (contents_found frame.old) call (at_new (plain_put kind)) →
        Since frame.old block (λ before k. RefusedPutting before frame.new k value call handed.fault)) }
    ensures waits { IfErr result (λ handed. handed.fault ≢ faults.Busy) }
{
    if let Err(fault) = make_room(block.payload_mut(), kind) {
        frame.end_keep(block);
        return Err(HandedBack { fault, value });
    }
    match value {
        Value::Scalar(note) => {
            let entry = Entry::new(0, note);
            block.payload_mut().put_reserved(entry);
            frame.end_put_none(block, none);
            Ok(())
        }
        Value::Object(handle, note) => {
            let cell = frame.cell(&handle);
            let entry = Entry::new(cell, note);
            block.payload_mut().put_reserved(entry);
            frame.end_put(block, handle);
            Ok(())
        }
    }
}

/// An entry of a list or a mailbox comes out. The faults: WrongKind, NoSuchPlace, FrameFull, OutOfMemory.
#[inline(always)]
pub(crate) fn take_out_value<H: HasTable<A>, A: Allocator>(
    frame: &mut Frame<H, A>,
    kind: Kind,
    block: Block<A>,
    index: usize,
) -> Result<Value<A>, Fault>
    requires row { is_row kind ≡ true }
    requires has { HasLockedList frame.old block }
    ensures thread { KeepsThread frame.old frame.new }
    ensures unlocked { IsUnlocked frame.new }
    ensures taken { IfOk result (λ came. (call : PlainCall EntrySeen) →
        call (contents_found frame.old) ≡ plain_take kind index (contents_found frame.old) →
        Since frame.old block (λ before k. TakesOutValue before frame.new k call came)) }
    ensures gains { IfOk result (GainsValue frame.old frame.new) }
    ensures places { OnErr result (KeepsAllPlaces frame.old frame.new) }
    ensures refused { IfErr result (λ fault. (call : PlainCall EntrySeen) →
        call (contents_found frame.old) ≡ plain_take kind index (contents_found frame.old) →
        Since frame.old block (λ before k. RefusedPlace before frame.new k call fault)) }
    ensures waits { IfErr result (λ fault. fault ≢ faults.Busy) }
{
    match entry_in(block.payload(), kind, index) {
        Ok(entry) => take_entry(frame, block, index, entry),
        Err(fault) => {
            frame.end_keep(block);
            Err(fault)
        }
    }
}

/// An entry of a list is looked at. The faults: WrongKind, NoSuchPlace, FrameFull, OutOfMemory.
#[inline(always)]
pub(crate) fn look_at_value<H: HasTable<A>, A: Allocator>(
    frame: &mut Frame<H, A>,
    block: Block<A>,
    index: u32,
) -> Result<Value<A>, Fault>
    requires has { HasLockedList frame.old block }
    ensures thread { KeepsThread frame.old frame.new }
    ensures unlocked { IsUnlocked frame.new }
    ensures looked { IfOk result (λ came. Since frame.old block
        (λ before k. LooksAtValue before frame.new k (plain_get index) came)) }
    ensures gains { IfOk result (GainsValue frame.old frame.new) }
    ensures places { OnErr result (KeepsAllPlaces frame.old frame.new) }
    ensures refused { IfErr result (λ fault. Since frame.old block
        (λ before k. RefusedPlace before frame.new k (plain_get index) fault)) }
    ensures waits { IfErr result (λ fault. fault ≢ faults.Busy) }
{
    match entry_in(block.payload(), Kind::List, index as usize) {
        Ok(entry) => look_entry(frame, block, index, entry),
        Err(fault) => {
            frame.end_keep(block);
            Err(fault)
        }
    }
}

/// The value goes into an entry of a list, and what stood there comes out. The faults: WrongKind, NoSuchPlace; and of a
/// scalar for an object FrameFull and OutOfMemory.
#[inline(always)]
pub(crate) fn set_value<H: HasTable<A>, A: Allocator>(
    frame: &mut Frame<H, A>,
    block: Block<A>,
    index: u32,
    none: &mut Handle<A>,
    value: Value<A>,
) -> Result<Value<A>, HandedBack<Value<A>>>
    requires has { HasLockedList frame.old block }
    requires none { HasNone frame.old none.old }
    requires apart_none { place_locked frame.old ≢ Some none.old.place }
    requires owned { OwnsValue frame.old value }
    requires apart { (k : ℕ) → place_locked frame.old ≡ Some k → StandsApart k value }
    requires other { StandsApart none.old.place value }
    ensures thread { KeepsThread frame.old frame.new }
    ensures unlocked { IsUnlocked frame.new }
    ensures swapped { IfOk result (λ came. (call : PutCall) →
        Alike (contents_found frame.old) call (at_old (plain_set index)) →
        Since frame.old block (λ before k. SwapsValueIn before frame.new k none.old none.new value call came)) }
    ensures owns { IfOk result (OwnsSwapped frame.old frame.new none.new value) }
    ensures none { HasNone frame.new none.new }
    ensures back { IfErr result (λ handed. handed.value ≡ value) }
    ensures places { OnErr result (KeepsAllPlaces frame.old frame.new) }
    ensures same { OnErr result (none.new ≡ none.old) }
    ensures refused { IfErr result (λ handed. (call : PutCall) →
        Alike (contents_found frame.old) call (at_old (plain_set index)) →
        Since frame.old block (λ before k. RefusedPutting before frame.new k value call handed.fault)) }
    ensures waits { IfErr result (λ handed. handed.fault ≢ faults.Busy) }
{
    match entry_in(block.payload(), Kind::List, index as usize) {
        Ok(entry) => set_entry(frame, Kind::List, block, index, entry, none, value),
        Err(fault) => {
            frame.end_keep(block);
            Err(HandedBack { fault, value })
        }
    }
}

/// As `set_value`; and at the index that is the list's length the value goes in at the end: Full, OutOfMemory.
#[inline(always)]
pub(crate) fn put_value_at<H: HasTable<A>, A: Allocator>(
    frame: &mut Frame<H, A>,
    block: Block<A>,
    index: u32,
    none: &mut Handle<A>,
    value: Value<A>,
) -> Result<Option<Value<A>>, HandedBack<Value<A>>>
    requires has { HasLockedList frame.old block }
    requires none { HasNone frame.old none.old }
    requires apart_none { place_locked frame.old ≢ Some none.old.place }
    requires owned { OwnsValue frame.old value }
    requires apart { (k : ℕ) → place_locked frame.old ≡ Some k → StandsApart k value }
    requires other { StandsApart none.old.place value }
    ensures thread { KeepsThread frame.old frame.new }
    ensures unlocked { IsUnlocked frame.new }
    ensures put { IfOk result (λ came. Since frame.old block
        (λ before k. HasPutValue before frame.new k none.old none.new value (plain_put_at index) came)) }
    ensures owns { IfOk result (OwnsPutValue frame.old frame.new none.new value) }
    ensures none { HasNone frame.new none.new }
    ensures back { IfErr result (λ handed. handed.value ≡ value) }
    ensures places { OnErr result (KeepsAllPlaces frame.old frame.new) }
    ensures same { OnErr result (none.new ≡ none.old) }
    ensures refused { IfErr result (λ handed. Since frame.old block
        (λ before k. RefusedPutting before frame.new k value (plain_put_at index) handed.fault)) }
    ensures waits { IfErr result (λ handed. handed.fault ≢ faults.Busy) }
{
    if index as usize == block.payload().len() {
        return match put_value(frame, Kind::List, block, none, value) {
            Ok(()) => Ok(None),
            Err(handed) => Err(handed),
        };
    }
    match set_value(frame, block, index, none, value) {
        Ok(old) => Ok(Some(old)),
        Err(handed) => Err(handed),
    }
}

/// The value goes in at the end of the list. The faults come in this order: Busy where another thread has the object
/// locked, WrongKind where it is no list, Full at 1,048,576 entries, OutOfMemory; a refusal hands the value back. `none` is
/// a handle of the frame's to None, of which a scalar's entry gets the reference; it has another at once.
#[inline(always)]
pub fn try_list_push_value<H: HasTable<A>, A: Allocator>(
    frame: &mut Frame<H, A>,
    none: &Handle<A>,
    list: &Handle<A>,
    value: Value<A>,
) -> Result<(), HandedBack<Value<A>>>
    requires owned { Owns frame.old list.now }
    requires unlocked { IsUnlocked frame.old }
    requires none { HasNone frame.old none.now }
    requires apart_none { list.now.place ≢ none.now.place }
    requires value { OwnsValue frame.old value }
    requires apart { StandsApart list.now.place value }
    requires other { StandsApart none.now.place value }
    ensures put { ListPushValue frame.old frame.new list.now.place none.now value result }
    ensures loses { OnOk result (LosesValue frame.old frame.new value) }
    ensures none { HasNone frame.new none.now }
    ensures back { IfErr result (λ handed. handed.value ≡ value) }
    ensures keeps { OnErr result (Keeps frame.old frame.new) }
    ensures unlocked { IsUnlocked frame.new }
{
    let Some(block) = frame.begin(list) else {
        return Err(HandedBack {
            fault: Fault::Busy,
            value,
        });
    };
    put_value(frame, Kind::List, block, none, value)
}

/// The value goes in at the end of the mailbox: as `try_list_push_value`, but WrongKind where the object is no mailbox.
#[inline(always)]
pub fn try_send_value<H: HasTable<A>, A: Allocator>(
    frame: &mut Frame<H, A>,
    none: &Handle<A>,
    mailbox: &Handle<A>,
    value: Value<A>,
) -> Result<(), HandedBack<Value<A>>>
    requires owned { Owns frame.old mailbox.now }
    requires unlocked { IsUnlocked frame.old }
    requires none { HasNone frame.old none.now }
    requires apart_none { mailbox.now.place ≢ none.now.place }
    requires value { OwnsValue frame.old value }
    requires apart { StandsApart mailbox.now.place value }
    requires other { StandsApart none.now.place value }
    ensures put { SendValue frame.old frame.new mailbox.now.place none.now value result }
    ensures loses { OnOk result (LosesValue frame.old frame.new value) }
    ensures none { HasNone frame.new none.now }
    ensures back { IfErr result (λ handed. handed.value ≡ value) }
    ensures keeps { OnErr result (Keeps frame.old frame.new) }
    ensures unlocked { IsUnlocked frame.new }
{
    let Some(block) = frame.begin(mailbox) else {
        return Err(HandedBack {
            fault: Fault::Busy,
            value,
        });
    };
    put_value(frame, Kind::Mailbox, block, none, value)
}

/// What stands in the last entry of the list comes out. The faults come in this order: Busy where another thread has the
/// object locked, WrongKind where it is no list, NoSuchPlace where it is empty; then FrameFull where the frame has no
/// vacant place, which a scalar, too, goes through, and OutOfMemory.
#[inline(always)]
pub fn try_list_pop_value<H: HasTable<A>, A: Allocator>(
    frame: &mut Frame<H, A>,
    list: &Handle<A>,
) -> Result<Value<A>, Fault>
    requires owned { Owns frame.old list.now }
    requires unlocked { IsUnlocked frame.old }
    ensures takes { ListPopValue frame.old frame.new list.now.place result }
    ensures gains { IfOk result (GainsValue frame.old frame.new) }
    ensures keeps { OnErr result (Keeps frame.old frame.new) }
    ensures unlocked { IsUnlocked frame.new }
{
    let Some(block) = frame.begin(list) else {
        return Err(Fault::Busy);
    };
    let last = last_place(block.payload());
    take_out_value(frame, Kind::List, block, last)
}

/// What stands in an entry of the list comes out, and later ones close up: as `try_list_pop_value`, but NoSuchPlace past
/// the list's end.
#[inline(always)]
pub fn try_list_take_value<H: HasTable<A>, A: Allocator>(
    frame: &mut Frame<H, A>,
    list: &Handle<A>,
    index: u32,
) -> Result<Value<A>, Fault>
    requires owned { Owns frame.old list.now }
    requires unlocked { IsUnlocked frame.old }
    ensures takes { ListTakeValue frame.old frame.new list.now.place index result }
    ensures gains { IfOk result (GainsValue frame.old frame.new) }
    ensures keeps { OnErr result (Keeps frame.old frame.new) }
    ensures unlocked { IsUnlocked frame.new }
{
    let Some(block) = frame.begin(list) else {
        return Err(Fault::Busy);
    };
    take_out_value(frame, Kind::List, block, index as usize)
}

/// What stands in the first entry of the mailbox comes out: as `try_list_pop_value`, but WrongKind where the object is no
/// mailbox.
#[inline(always)]
pub fn try_recv_value<H: HasTable<A>, A: Allocator>(
    frame: &mut Frame<H, A>,
    mailbox: &Handle<A>,
) -> Result<Value<A>, Fault>
    requires owned { Owns frame.old mailbox.now }
    requires unlocked { IsUnlocked frame.old }
    ensures takes { RecvValue frame.old frame.new mailbox.now.place result }
    ensures gains { IfOk result (GainsValue frame.old frame.new) }
    ensures keeps { OnErr result (Keeps frame.old frame.new) }
    ensures unlocked { IsUnlocked frame.new }
{
    let Some(block) = frame.begin(mailbox) else {
        return Err(Fault::Busy);
    };
    take_out_value(frame, Kind::Mailbox, block, 0)
}

/// What stands in an entry of the list: a scalar, or an object, with a handle more, counted up in one event while the list
/// is locked. The faults come in this order: Busy where another thread has the object locked, WrongKind where it is no
/// list, NoSuchPlace past its end; and of an object FrameFull and OutOfMemory.
#[inline(always)]
pub fn try_list_get_value<H: HasTable<A>, A: Allocator>(
    frame: &mut Frame<H, A>,
    list: &Handle<A>,
    index: u32,
) -> Result<Value<A>, Fault>
    requires owned { Owns frame.old list.now }
    requires unlocked { IsUnlocked frame.old }
    ensures looked { ListGetValue frame.old frame.new list.now.place index result }
    ensures gains { IfOk result (GainsValue frame.old frame.new) }
    ensures keeps { OnErr result (Keeps frame.old frame.new) }
    ensures unlocked { IsUnlocked frame.new }
{
    let Some(block) = frame.begin(list) else {
        return Err(Fault::Busy);
    };
    look_at_value(frame, block, index)
}

/// The value goes into an entry of the list, and what stood there comes out. The faults come in this order: Busy where
/// another thread has the object locked, WrongKind where it is no list, NoSuchPlace past its end; and where an object
/// comes out for a scalar FrameFull and OutOfMemory. A refusal hands the value back. `none` is as in `try_list_push_value`;
/// but an object that comes out for a scalar comes under that handle, and `none` is a new one.
#[inline(always)]
pub fn try_list_set_value<H: HasTable<A>, A: Allocator>(
    frame: &mut Frame<H, A>,
    none: &mut Handle<A>,
    list: &Handle<A>,
    index: u32,
    value: Value<A>,
) -> Result<Value<A>, HandedBack<Value<A>>>
    requires owned { Owns frame.old list.now }
    requires unlocked { IsUnlocked frame.old }
    requires none { HasNone frame.old none.old }
    requires apart_none { list.now.place ≢ none.old.place }
    requires value { OwnsValue frame.old value }
    requires apart { StandsApart list.now.place value }
    requires other { StandsApart none.old.place value }
    ensures set { ListSetValue frame.old frame.new list.now.place index none.old none.new value result }
    ensures owns { IfOk result (OwnsSwapped frame.old frame.new none.new value) }
    ensures none { HasNone frame.new none.new }
    ensures same { OnErr result (none.new ≡ none.old) }
    ensures back { IfErr result (λ handed. handed.value ≡ value) }
    ensures keeps { OnErr result (Keeps frame.old frame.new) }
    ensures unlocked { IsUnlocked frame.new }
{
    let Some(block) = frame.begin(list) else {
        return Err(HandedBack {
            fault: Fault::Busy,
            value,
        });
    };
    set_value(frame, block, index, none, value)
}

/// As `try_list_set_value`; but at the index that is the list's length the value goes in at the end, as by
/// `try_list_push_value`, and the answer is None.
#[inline(always)]
pub fn try_list_put_value<H: HasTable<A>, A: Allocator>(
    frame: &mut Frame<H, A>,
    none: &mut Handle<A>,
    list: &Handle<A>,
    index: u32,
    value: Value<A>,
) -> Result<Option<Value<A>>, HandedBack<Value<A>>>
    requires owned { Owns frame.old list.now }
    requires unlocked { IsUnlocked frame.old }
    requires none { HasNone frame.old none.old }
    requires apart_none { list.now.place ≢ none.old.place }
    requires value { OwnsValue frame.old value }
    requires apart { StandsApart list.now.place value }
    requires other { StandsApart none.old.place value }
    ensures put { ListPutValue frame.old frame.new list.now.place index none.old none.new value result }
    ensures owns { IfOk result (OwnsPutValue frame.old frame.new none.new value) }
    ensures none { HasNone frame.new none.new }
    ensures same { OnErr result (none.new ≡ none.old) }
    ensures back { IfErr result (λ handed. handed.value ≡ value) }
    ensures keeps { OnErr result (Keeps frame.old frame.new) }
    ensures unlocked { IsUnlocked frame.new }
{
    let Some(block) = frame.begin(list) else {
        return Err(HandedBack {
            fault: Fault::Busy,
            value,
        });
    };
    put_value_at(frame, block, index, none, value)
}
