//! The calls by values on lists and mailboxes that wait while another thread has the object locked.

ghost use Rattle.std.specs.Prelude.{◌≡◌, ◌≢◌, IfOk, IfErr, OnErr, OnOk};
ghost use Rattle.brc_words.specs.declared.fault.Fault.TheVariants as faults;
ghost use Rattle.brc_count.specs.Frames.{IsUnlocked, Owns};
ghost use Rattle.brc_count.specs.Owned.{Keeps};
ghost use Rattle.brc_things.specs.Called.{Late};
ghost use Rattle.brc_things.specs.Value_Calls.{ListPushValue, ListPopValue, ListTakeValue, ListGetValue, ListSetValue};
ghost use Rattle.brc_things.specs.Value_Calls.{ListPutValue, SendValue, RecvValue};
ghost use Rattle.brc_things.specs.Values.{OwnsValue, StandsApart, GainsValue, LosesValue, HasNone};
ghost use Rattle.brc_things.specs.Values.{OwnsSwapped, OwnsPutValue};

use crate::Value;
use crate::late::begin_late;
use crate::rows::last_place;
use crate::valued::{look_at_value, put_value, put_value_at, set_value, take_out_value};
use brc_count::biased::HasTable;
use brc_count::{Frame, HandedBack, Handle};
use brc_words::{Fault, Kind};
use std::alloc::Allocator;
use std::sync::Wait;

/// As `try_list_push_value`, but it waits while another thread has the list locked.
#[inline(always)]
pub fn list_push_value<H: HasTable<A>, A: Allocator>(
    rt: &impl Wait,
    frame: &mut Frame<H, A>,
    none: &Handle<A>,
    list: &Handle<A>,
    value: Value<A>,
) -> Result<(), HandedBack<Value<A>>>
    requires owned { Owns frame.old list.now }
    requires unlocked { IsUnlocked frame.old }
    requires none { HasNone frame.old none.now }
    requires apart_none { list.now.place ≢ none.now.place }
    requires value { OwnsValue frame.old value }
    requires apart { StandsApart list.now.place value }
    requires other { StandsApart none.now.place value }
    ensures put { Late frame.old list.now.place (λ mid. ListPushValue mid frame.new list.now.place none.now value result) }
    ensures loses { OnOk result (LosesValue frame.old frame.new value) }
    ensures none { HasNone frame.new none.now }
    ensures back { IfErr result (λ handed. handed.value ≡ value) }
    ensures keeps { OnErr result (Keeps frame.old frame.new) }
    ensures unlocked { IsUnlocked frame.new }
    ensures waited { IfErr result (λ handed. handed.fault ≢ faults.Busy) }
{
    let block = begin_late(rt, frame, list);
    put_value(frame, Kind::List, block, none, value)
}

/// As `try_send_value`, but it waits while another thread has the mailbox locked.
#[inline(always)]
pub fn send_value<H: HasTable<A>, A: Allocator>(
    rt: &impl Wait,
    frame: &mut Frame<H, A>,
    none: &Handle<A>,
    mailbox: &Handle<A>,
    value: Value<A>,
) -> Result<(), HandedBack<Value<A>>>
    requires owned { Owns frame.old mailbox.now }
    requires unlocked { IsUnlocked frame.old }
    requires none { HasNone frame.old none.now }
    requires apart_none { mailbox.now.place ≢ none.now.place }
    requires value { OwnsValue frame.old value }
    requires apart { StandsApart mailbox.now.place value }
    requires other { StandsApart none.now.place value }
    ensures put { Late frame.old mailbox.now.place (λ mid. SendValue mid frame.new mailbox.now.place none.now value result) }
    ensures loses { OnOk result (LosesValue frame.old frame.new value) }
    ensures none { HasNone frame.new none.now }
    ensures back { IfErr result (λ handed. handed.value ≡ value) }
    ensures keeps { OnErr result (Keeps frame.old frame.new) }
    ensures unlocked { IsUnlocked frame.new }
    ensures waited { IfErr result (λ handed. handed.fault ≢ faults.Busy) }
{
    let block = begin_late(rt, frame, mailbox);
    put_value(frame, Kind::Mailbox, block, none, value)
}

/// As `try_list_pop_value`, but it waits while another thread has the list locked.
#[inline(always)]
pub fn list_pop_value<H: HasTable<A>, A: Allocator>(
    rt: &impl Wait,
    frame: &mut Frame<H, A>,
    list: &Handle<A>,
) -> Result<Value<A>, Fault>
    requires owned { Owns frame.old list.now }
    requires unlocked { IsUnlocked frame.old }
    ensures takes { Late frame.old list.now.place (λ mid. ListPopValue mid frame.new list.now.place result) }
    ensures gains { IfOk result (GainsValue frame.old frame.new) }
    ensures keeps { OnErr result (Keeps frame.old frame.new) }
    ensures unlocked { IsUnlocked frame.new }
    ensures waited { IfErr result (λ fault. fault ≢ faults.Busy) }
{
    let block = begin_late(rt, frame, list);
    let last = last_place(block.payload());
    take_out_value(frame, Kind::List, block, last)
}

/// As `try_list_take_value`, but it waits while another thread has the list locked.
#[inline(always)]
pub fn list_take_value<H: HasTable<A>, A: Allocator>(
    rt: &impl Wait,
    frame: &mut Frame<H, A>,
    list: &Handle<A>,
    index: u32,
) -> Result<Value<A>, Fault>
    requires owned { Owns frame.old list.now }
    requires unlocked { IsUnlocked frame.old }
    ensures takes { Late frame.old list.now.place (λ mid. ListTakeValue mid frame.new list.now.place index result) }
    ensures gains { IfOk result (GainsValue frame.old frame.new) }
    ensures keeps { OnErr result (Keeps frame.old frame.new) }
    ensures unlocked { IsUnlocked frame.new }
    ensures waited { IfErr result (λ fault. fault ≢ faults.Busy) }
{
    let block = begin_late(rt, frame, list);
    take_out_value(frame, Kind::List, block, index as usize)
}

/// As `try_recv_value`, but it waits while another thread has the mailbox locked.
#[inline(always)]
pub fn recv_value<H: HasTable<A>, A: Allocator>(
    rt: &impl Wait,
    frame: &mut Frame<H, A>,
    mailbox: &Handle<A>,
) -> Result<Value<A>, Fault>
    requires owned { Owns frame.old mailbox.now }
    requires unlocked { IsUnlocked frame.old }
    ensures takes { Late frame.old mailbox.now.place (λ mid. RecvValue mid frame.new mailbox.now.place result) }
    ensures gains { IfOk result (GainsValue frame.old frame.new) }
    ensures keeps { OnErr result (Keeps frame.old frame.new) }
    ensures unlocked { IsUnlocked frame.new }
    ensures waited { IfErr result (λ fault. fault ≢ faults.Busy) }
{
    let block = begin_late(rt, frame, mailbox);
    take_out_value(frame, Kind::Mailbox, block, 0)
}

/// As `try_list_get_value`, but it waits while another thread has the list locked.
#[inline(always)]
pub fn list_get_value<H: HasTable<A>, A: Allocator>(
    rt: &impl Wait,
    frame: &mut Frame<H, A>,
    list: &Handle<A>,
    index: u32,
) -> Result<Value<A>, Fault>
    requires owned { Owns frame.old list.now }
    requires unlocked { IsUnlocked frame.old }
    ensures looked { Late frame.old list.now.place (λ mid. ListGetValue mid frame.new list.now.place index result) }
    ensures gains { IfOk result (GainsValue frame.old frame.new) }
    ensures keeps { OnErr result (Keeps frame.old frame.new) }
    ensures unlocked { IsUnlocked frame.new }
    ensures waited { IfErr result (λ fault. fault ≢ faults.Busy) }
{
    let block = begin_late(rt, frame, list);
    look_at_value(frame, block, index)
}

/// As `try_list_set_value`, but it waits while another thread has the list locked.
#[inline(always)]
pub fn list_set_value<H: HasTable<A>, A: Allocator>(
    rt: &impl Wait,
    frame: &mut Frame<H, A>,
    none: &mut Handle<A>,
    list: &Handle<A>,
    index: u32,
    value: Value<A>,
) -> Result<Value<A>, HandedBack<Value<A>>>
    requires owned { Owns frame.old list.now }
    requires unlocked { IsUnlocked frame.old }
    requires none { HasNone frame.old none.old }
    requires apart_none { list.now.place ≢ none.old.place }
    requires value { OwnsValue frame.old value }
    requires apart { StandsApart list.now.place value }
    requires other { StandsApart none.old.place value }
    ensures set { Late frame.old list.now.place
        (λ mid. ListSetValue mid frame.new list.now.place index none.old none.new value result) }
    ensures owns { IfOk result (OwnsSwapped frame.old frame.new none.new value) }
    ensures none { HasNone frame.new none.new }
    ensures same { OnErr result (none.new ≡ none.old) }
    ensures back { IfErr result (λ handed. handed.value ≡ value) }
    ensures keeps { OnErr result (Keeps frame.old frame.new) }
    ensures unlocked { IsUnlocked frame.new }
    ensures waited { IfErr result (λ handed. handed.fault ≢ faults.Busy) }
{
    let block = begin_late(rt, frame, list);
    set_value(frame, block, index, none, value)
}

/// As `try_list_put_value`, but it waits while another thread has the list locked.
#[inline(always)]
pub fn list_put_value<H: HasTable<A>, A: Allocator>(
    rt: &impl Wait,
    frame: &mut Frame<H, A>,
    none: &mut Handle<A>,
    list: &Handle<A>,
    index: u32,
    value: Value<A>,
) -> Result<Option<Value<A>>, HandedBack<Value<A>>>
    requires owned { Owns frame.old list.now }
    requires unlocked { IsUnlocked frame.old }
    requires none { HasNone frame.old none.old }
    requires apart_none { list.now.place ≢ none.old.place }
    requires value { OwnsValue frame.old value }
    requires apart { StandsApart list.now.place value }
    requires other { StandsApart none.old.place value }
    ensures put { Late frame.old list.now.place
        (λ mid. ListPutValue mid frame.new list.now.place index none.old none.new value result) }
    ensures owns { IfOk result (OwnsPutValue frame.old frame.new none.new value) }
    ensures none { HasNone frame.new none.new }
    ensures same { OnErr result (none.new ≡ none.old) }
    ensures back { IfErr result (λ handed. handed.value ≡ value) }
    ensures keeps { OnErr result (Keeps frame.old frame.new) }
    ensures unlocked { IsUnlocked frame.new }
    ensures waited { IfErr result (λ handed. handed.fault ≢ faults.Busy) }
{
    let block = begin_late(rt, frame, list);
    put_value_at(frame, block, index, none, value)
}
