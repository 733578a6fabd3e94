//! Lists and mailboxes: references go in and come out.

ghost use Rattle.std.specs.Prelude.{◌≡◌, ◌≢◌};
ghost use Rattle.brc_places.specs.Calls.{GaveBy, TookBy};
ghost use Rattle.brc_places.specs.declared.giving.GiveBy.TheVariants as giving;
ghost use Rattle.brc_places.specs.declared.taking.TakeBy.TheVariants as taking;
ghost use Rattle.brc_client.specs.Answers.{Gives, Takes};
ghost use Rattle.brc_c.specs.Exports.{CarriesOut, Writes, WritesNothing, itself, old_number};

use crate::calls::{exchange_by, give_by, put_by};
use crate::slots::CThread;
use brc_client::{Getting, Popping, Receiving, TakeBy, Taking};
use std::alloc::Global;

#[unsafe(no_mangle)]
pub extern "C" fn brc_list_push(alloc: Global, thread: &mut CThread, list: u64, value: u64) -> u32
    ensures does { CarriesOut (Takes (TookBy taking.Push) list value) thread.old.value thread.new.value result
        WritesNothing }
{
    put_by(alloc, thread, list, TakeBy::Push, value)
}

#[unsafe(no_mangle)]
pub extern "C" fn brc_list_pop(thread: &mut CThread, list: u64, value: &mut u64) -> u32
    ensures kept { result ≢ 0 → value.new ≡ value.old }
    ensures does { CarriesOut (Gives (GaveBy giving.Pop) list) thread.old.value thread.new.value result
        (Writes itself value.old value.new) }
{
    give_by(thread, list, Popping, value)
}

#[unsafe(no_mangle)]
pub extern "C" fn brc_list_take(thread: &mut CThread, list: u64, index: u32, value: &mut u64) -> u32
    ensures kept { result ≢ 0 → value.new ≡ value.old }
    ensures does { CarriesOut (Gives (GaveBy (giving.Take index)) list) thread.old.value thread.new.value result
        (Writes itself value.old value.new) }
{
    give_by(thread, list, Taking(index), value)
}

#[unsafe(no_mangle)]
pub extern "C" fn brc_list_get(thread: &mut CThread, list: u64, index: u32, value: &mut u64) -> u32
    ensures kept { result ≢ 0 → value.new ≡ value.old }
    ensures does { CarriesOut (Gives (GaveBy (giving.Get index)) list) thread.old.value thread.new.value result
        (Writes itself value.old value.new) }
{
    give_by(thread, list, Getting(index), value)
}

#[unsafe(no_mangle)]
pub extern "C" fn brc_list_set(
    alloc: Global,
    thread: &mut CThread,
    list: u64,
    index: u32,
    value: u64,
    old: &mut u64,
) -> u32
    ensures kept { result ≢ 0 → old.new ≡ old.old }
    ensures does { CarriesOut (Takes (TookBy (taking.Set index)) list value) thread.old.value thread.new.value result
        (Writes old_number old.old old.new) }
{
    exchange_by(alloc, thread, list, TakeBy::Set(index), value, old)
}

#[unsafe(no_mangle)]
pub extern "C" fn brc_send(alloc: Global, thread: &mut CThread, mailbox: u64, value: u64) -> u32
    ensures does { CarriesOut (Takes (TookBy taking.Send) mailbox value) thread.old.value thread.new.value result
        WritesNothing }
{
    put_by(alloc, thread, mailbox, TakeBy::Send, value)
}

#[unsafe(no_mangle)]
pub extern "C" fn brc_recv(thread: &mut CThread, mailbox: u64, value: &mut u64) -> u32
    ensures kept { result ≢ 0 → value.new ≡ value.old }
    ensures does { CarriesOut (Gives (GaveBy giving.Receive) mailbox) thread.old.value thread.new.value result
        (Writes itself value.old value.new) }
{
    give_by(thread, mailbox, Receiving, value)
}
