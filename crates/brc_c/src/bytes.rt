//! Lists of bytes that needn't be UTF-8: made, read, and as keys.

ghost use Rattle.std.specs.Prelude.{◌≡◌, ◌≢◌};
ghost use Rattle.brc_client.specs.Answers.{FindsOut, Gives, Makes, Takes};
ghost use Rattle.brc_client.specs.Calls.{ShownBytes};
ghost use Rattle.brc_client.specs.Valued.{GivesDatum, TakesDatum};
ghost use Rattle.brc_c.specs.Calls.{MakesText, FindsByText, DeletesByText, PutsByText};
ghost use Rattle.brc_c.specs.Calls.{FindsValueByText, DeletesValueByText, PutsValueByText, value_of, came_of};
ghost use Rattle.brc_c.specs.Exports.{CarriesOut, OrNotValue, Writes, itself, old_number};

use crate::calls::{exchange_by, give_by, make_by};
use crate::outs::{gone, write};
use crate::slots::CThread;
use crate::values::{CValue, exchange_value_by, take_out_value_by};
use brc_client::{DeletingByText, FindingByText, KeyRef, Make, PuttingByText, TakeBy};
use std::alloc::Global;

#[unsafe(no_mangle)]
pub extern "C" fn brc_new_bytes(
    alloc: Global,
    thread: &mut CThread,
    bytes: &[u8],
    made: &mut u64,
) -> u32
    ensures kept { result ≢ 0 → made.new ≡ made.old }
    ensures does { CarriesOut (Makes (MakesText bytes.now)) thread.old.value thread.new.value result
        (Writes itself made.old made.new) }
{
    make_by(alloc, thread, Make::Bytes(bytes), made)
}

#[unsafe(no_mangle)]
pub extern "C" fn brc_bytes_of(
    thread: &mut CThread,
    held: u64,
    to: &mut [u8],
    len: &mut usize,
) -> u32
    ensures kept { result ≢ 0 → (to.new ≡ to.old) × (len.new ≡ len.old) }
    ensures does { CarriesOut (FindsOut (ShownBytes 0 to.old to.new) held) thread.old.value thread.new.value result
        (Writes itself len.old len.new) }
{
    match thread.as_mut().client() {
        Some(client) => write(client.bytes(held, 0, to), len),
        None => gone(),
    }
}

#[unsafe(no_mangle)]
pub extern "C" fn brc_dict_put_bytes(
    alloc: Global,
    thread: &mut CThread,
    dict: u64,
    key: &[u8],
    value: u64,
    old: &mut u64,
) -> u32
    ensures kept { result ≢ 0 → old.new ≡ old.old }
    ensures does { CarriesOut (Takes (PutsByText key.now) dict value) thread.old.value thread.new.value result
        (Writes old_number old.old old.new) }
{
    exchange_by(
        alloc,
        thread,
        dict,
        TakeBy::Put(KeyRef::Text(key)),
        value,
        old,
    )
}

#[unsafe(no_mangle)]
pub extern "C" fn brc_dict_find_bytes(
    thread: &mut CThread,
    dict: u64,
    key: &[u8],
    value: &mut u64,
) -> u32
    ensures kept { result ≢ 0 → value.new ≡ value.old }
    ensures does { CarriesOut (Gives (FindsByText key.now) dict) thread.old.value thread.new.value result
        (Writes itself value.old value.new) }
{
    give_by(thread, dict, FindingByText(key), value)
}

#[unsafe(no_mangle)]
pub extern "C" fn brc_dict_del_bytes(
    thread: &mut CThread,
    dict: u64,
    key: &[u8],
    value: &mut u64,
) -> u32
    ensures kept { result ≢ 0 → value.new ≡ value.old }
    ensures does { CarriesOut (Gives (DeletesByText key.now) dict) thread.old.value thread.new.value result
        (Writes itself value.old value.new) }
{
    give_by(thread, dict, DeletingByText(key), value)
}

#[unsafe(no_mangle)]
pub extern "C" fn brc_dict_put_bytes_value(
    alloc: Global,
    thread: &mut CThread,
    dict: u64,
    key: &[u8],
    bits: u64,
    noted: u64,
    old: &mut CValue,
) -> u32
    ensures kept { result ≢ 0 → old.new ≡ old.old }
    ensures does { CarriesOut (OrNotValue bits noted (TakesDatum (PutsValueByText key.now) dict))
        thread.old.value thread.new.value result (Writes came_of old.old old.new) }
{
    exchange_value_by(alloc, thread, dict, PuttingByText(key), bits, noted, old)
}

#[unsafe(no_mangle)]
pub extern "C" fn brc_dict_find_bytes_value(
    thread: &mut CThread,
    dict: u64,
    key: &[u8],
    value: &mut CValue,
) -> u32
    ensures kept { result ≢ 0 → value.new ≡ value.old }
    ensures does { CarriesOut (GivesDatum (FindsValueByText key.now) dict)
        thread.old.value thread.new.value result (Writes value_of value.old value.new) }
{
    take_out_value_by(thread, dict, FindingByText(key), value)
}

#[unsafe(no_mangle)]
pub extern "C" fn brc_dict_del_bytes_value(
    thread: &mut CThread,
    dict: u64,
    key: &[u8],
    value: &mut CValue,
) -> u32
    ensures kept { result ≢ 0 → value.new ≡ value.old }
    ensures does { CarriesOut (GivesDatum (DeletesValueByText key.now) dict)
        thread.old.value thread.new.value result (Writes value_of value.old value.new) }
{
    take_out_value_by(thread, dict, DeletingByText(key), value)
}
