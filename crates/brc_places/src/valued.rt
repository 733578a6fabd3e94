//! What goes into a container, and what comes out of it, by value.

ghost use Rattle.std.specs.Prelude.{◌≡◌, ◌≢◌, IfOk, IfErr, OnErr};
ghost use Rattle.brc_words.specs.declared.fault.Fault.TheVariants as faults;
ghost use Rattle.brc_count.specs.Frames.{IsUnlocked, Owns};
ghost use Rattle.brc_count.specs.Owned.{Keeps};
ghost use Rattle.brc_things.specs.Values.{OwnsValue, StandsApart, GainsValue, HasNone, OwnsPutValue};
ghost use Rattle.brc_places.specs.Value_Calls.{TookOutValueBy, TookOutValueLate, PutValueBy, PutValueLate};

use crate::giving::GiveBy;
use brc_count::biased::HasTable;
use brc_count::block::KeyRef;
use brc_count::{Frame, HandedBack, Handle};
use brc_things::{
    Value, dict_del_value, dict_find_value, dict_put_new_value, dict_set_value, list_get_value,
    list_pop_value, list_push_value, list_put_value, list_set_value, list_take_value, recv_value,
    send_value, try_dict_del_value, try_dict_find_value, try_dict_put_new_value,
    try_dict_set_value, try_list_get_value, try_list_pop_value, try_list_push_value,
    try_list_put_value, try_list_set_value, try_list_take_value, try_recv_value, try_send_value,
};
use brc_words::Fault;
use std::alloc::Allocator;
use std::sync::Wait;

/// By which call a container takes a value, and so what comes out for it: nothing, or what was there.
#[derive(Clone, Copy, Debug, PartialEq, Eq)]
pub enum PutBy<'k> {
    /// `list_push_value`: it becomes a list's last entry.
    Push,
    /// `list_set_value`: it takes the place of a list's entry, which comes out.
    Set(u32),
    /// `list_put_value`: so; and at the index that is the list's length it becomes the last entry.
    PutAt(u32),
    /// `send_value`: it becomes a mailbox's last letter.
    Send,
    /// `dict_set_value`: it goes beside the key in a dictionary, and what was there comes out.
    Put(KeyRef<'k>),
    /// `dict_put_new_value`: it goes beside the key, if that is new; else it comes back.
    PutNew(KeyRef<'k>),
}

/// The value that the object's call gives, once no other thread has the object locked; so it never answers Busy.
#[inline(always)]
pub fn take_out_value_by<H: HasTable<A>, A: Allocator>(
    rt: &impl Wait,
    frame: &mut Frame<H, A>,
    object: &Handle<A>,
    by: GiveBy<'_>,
) -> Result<Value<A>, Fault>
    requires owned { Owns frame.old object.now }
    requires unlocked { IsUnlocked frame.old }
    ensures did { TookOutValueLate by.entry frame.old frame.new object.now.place result }
    ensures gains { IfOk result (GainsValue frame.old frame.new) }
    ensures keeps { OnErr result (Keeps frame.old frame.new) }
    ensures unlocked { IsUnlocked frame.new }
    ensures waited { IfErr result (λ fault. fault ≢ faults.Busy) }
{
    match by {
        GiveBy::Pop => list_pop_value(rt, frame, object),
        GiveBy::Get(index) => list_get_value(rt, frame, object, index),
        GiveBy::Take(index) => list_take_value(rt, frame, object, index),
        GiveBy::Receive => recv_value(rt, frame, object),
        GiveBy::Find(key) => dict_find_value(rt, frame, object, key),
        GiveBy::Delete(key) => dict_del_value(rt, frame, object, key),
    }
}

/// The same in the form that never waits: Busy, where another thread has the object locked, comes first.
#[inline(always)]
pub fn try_take_out_value_by<H: HasTable<A>, A: Allocator>(
    frame: &mut Frame<H, A>,
    object: &Handle<A>,
    by: GiveBy<'_>,
) -> Result<Value<A>, Fault>
    requires owned { Owns frame.old object.now }
    requires unlocked { IsUnlocked frame.old }
    ensures did { TookOutValueBy by.entry frame.old frame.new object.now.place result }
    ensures gains { IfOk result (GainsValue frame.old frame.new) }
    ensures keeps { OnErr result (Keeps frame.old frame.new) }
    ensures unlocked { IsUnlocked frame.new }
{
    match by {
        GiveBy::Pop => try_list_pop_value(frame, object),
        GiveBy::Get(index) => try_list_get_value(frame, object, index),
        GiveBy::Take(index) => try_list_take_value(frame, object, index),
        GiveBy::Receive => try_recv_value(frame, object),
        GiveBy::Find(key) => try_dict_find_value(frame, object, key),
        GiveBy::Delete(key) => try_dict_del_value(frame, object, key),
    }
}

/// The value goes into the object by the call, once no other thread has the object locked, and what was there comes out;
/// or it is handed back with the fault, which is never Busy.
#[inline(always)]
pub fn put_value_by<H: HasTable<A>, A: Allocator + Copy>(
    rt: &impl Wait,
    alloc: A,
    frame: &mut Frame<H, A>,
    none: &mut Handle<A>,
    object: &Handle<A>,
    by: PutBy<'_>,
    value: Value<A>,
) -> Result<Option<Value<A>>, HandedBack<Value<A>>>
    requires owned { Owns frame.old object.now }
    requires unlocked { IsUnlocked frame.old }
    requires none { HasNone frame.old none.old }
    requires apart_none { object.now.place ≢ none.old.place }
    requires value { OwnsValue frame.old value }
    requires apart { StandsApart object.now.place value }
    requires other { StandsApart none.old.place value }
    ensures did { PutValueLate by.entry frame.old frame.new object.now.place none.old none.new value result }
    ensures owns { IfOk result (OwnsPutValue frame.old frame.new none.new value) }
    ensures none { HasNone frame.new none.new }
    ensures same { OnErr result (none.new ≡ none.old) }
    ensures back { IfErr result (λ handed. handed.value ≡ value) }
    ensures keeps { OnErr result (Keeps frame.old frame.new) }
    ensures unlocked { IsUnlocked frame.new }
    ensures waited { IfErr result (λ handed. handed.fault ≢ faults.Busy) }
{
    match by {
        PutBy::Push => match list_push_value(rt, frame, none, object, value) {
            Ok(()) => Ok(None),
            Err(handed) => Err(handed),
        },
        PutBy::Set(index) => match list_set_value(rt, frame, none, object, index, value) {
            Ok(old) => Ok(Some(old)),
            Err(handed) => Err(handed),
        },
        PutBy::PutAt(index) => list_put_value(rt, frame, none, object, index, value),
        PutBy::Send => match send_value(rt, frame, none, object, value) {
            Ok(()) => Ok(None),
            Err(handed) => Err(handed),
        },
        PutBy::Put(key) => dict_set_value(rt, alloc, frame, none, object, key, value),
        PutBy::PutNew(key) => dict_put_new_value(rt, alloc, frame, none, object, key, value),
    }
}

/// The same in the form that never waits: Busy, where another thread has the object locked, comes first.
#[inline(always)]
pub fn try_put_value_by<H: HasTable<A>, A: Allocator + Copy>(
    alloc: A,
    frame: &mut Frame<H, A>,
    none: &mut Handle<A>,
    object: &Handle<A>,
    by: PutBy<'_>,
    value: Value<A>,
) -> Result<Option<Value<A>>, HandedBack<Value<A>>>
    requires owned { Owns frame.old object.now }
    requires unlocked { IsUnlocked frame.old }
    requires none { HasNone frame.old none.old }
    requires apart_none { object.now.place ≢ none.old.place }
    requires value { OwnsValue frame.old value }
    requires apart { StandsApart object.now.place value }
    requires other { StandsApart none.old.place value }
    ensures did { PutValueBy by.entry frame.old frame.new object.now.place none.old none.new value result }
    ensures owns { IfOk result (OwnsPutValue frame.old frame.new none.new value) }
    ensures none { HasNone frame.new none.new }
    ensures same { OnErr result (none.new ≡ none.old) }
    ensures back { IfErr result (λ handed. handed.value ≡ value) }
    ensures keeps { OnErr result (Keeps frame.old frame.new) }
    ensures unlocked { IsUnlocked frame.new }
{
    match by {
        PutBy::Push => match try_list_push_value(frame, none, object, value) {
            Ok(()) => Ok(None),
            Err(handed) => Err(handed),
        },
        PutBy::Set(index) => match try_list_set_value(frame, none, object, index, value) {
            Ok(old) => Ok(Some(old)),
            Err(handed) => Err(handed),
        },
        PutBy::PutAt(index) => try_list_put_value(frame, none, object, index, value),
        PutBy::Send => match try_send_value(frame, none, object, value) {
            Ok(()) => Ok(None),
            Err(handed) => Err(handed),
        },
        PutBy::Put(key) => try_dict_set_value(alloc, frame, none, object, key, value),
        PutBy::PutNew(key) => try_dict_put_new_value(alloc, frame, none, object, key, value),
    }
}
