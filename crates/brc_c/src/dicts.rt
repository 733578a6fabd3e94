//! Dictionaries: values beside keys, which are integers or texts.

ghost use Rattle.std.specs.Prelude.{◌≡◌, ◌≢◌};
ghost use Rattle.brc_count.specs.block.declared.key_ref.KeyRef.TheVariants as lent;
ghost use Rattle.brc_places.specs.Calls.{GaveBy, TookBy};
ghost use Rattle.brc_places.specs.declared.giving.GiveBy.TheVariants as giving;
ghost use Rattle.brc_places.specs.declared.taking.TakeBy.TheVariants as taking;
ghost use Rattle.brc_client.specs.Answers.{Gives, GivesPair, Takes};
ghost use Rattle.brc_c.specs.Calls.{FindsByText, DeletesByText, PutsByText, KeyWritten, WritesPair};
ghost use Rattle.brc_c.specs.Exports.{CarriesOut, OrNotText, Writes, itself, old_number};

use crate::calls::{exchange_by, give_by};
use crate::outs::{gone, write, write_old};
use crate::slots::CThread;
use brc_client::{
    DeletingByInt, DeletingByText, FindingByInt, FindingByText, KeyRef, TakeBy, text_of,
};
use brc_things::copy_prefix;
use brc_words::Key;
use std::alloc::Global;

/// A key as C reads it: an integer, or the length of a text.
#[repr(C)]
#[derive(Drop)]
pub struct CKey {
    pub number: i64,
    pub len: usize,
    pub is_text: u32,
}

#[unsafe(no_mangle)]
pub extern "C" fn brc_dict_put_int(
    alloc: Global,
    thread: &mut CThread,
    dict: u64,
    key: i64,
    value: u64,
    old: &mut u64,
) -> u32
    ensures kept { result ≢ 0 → old.new ≡ old.old }
    ensures does { CarriesOut (Takes (TookBy (taking.Put (lent.Int key))) dict value)
        thread.old.value thread.new.value result (Writes old_number old.old old.new) }
{
    exchange_by(
        alloc,
        thread,
        dict,
        TakeBy::Put(KeyRef::Int(key)),
        value,
        old,
    )
}

#[unsafe(no_mangle)]
pub extern "C" fn brc_dict_put_text(
    alloc: Global,
    thread: &mut CThread,
    dict: u64,
    key: &[u8],
    value: u64,
    old: &mut u64,
) -> u32
    ensures kept { result ≢ 0 → old.new ≡ old.old }
    ensures does { CarriesOut (OrNotText key.now (Takes (PutsByText key.now) dict value))
        thread.old.value thread.new.value result (Writes old_number old.old old.new) }
{
    match thread.as_mut().client() {
        Some(client) => match text_of(key) {
            Ok(_text) => write_old(
                client.take(alloc, dict, TakeBy::Put(KeyRef::Text(key)), value),
                old,
            ),
            Err(status) => status.number(),
        },
        None => gone(),
    }
}

#[unsafe(no_mangle)]
pub extern "C" fn brc_dict_find_int(
    thread: &mut CThread,
    dict: u64,
    key: i64,
    value: &mut u64,
) -> u32
    ensures kept { result ≢ 0 → value.new ≡ value.old }
    ensures does { CarriesOut (Gives (GaveBy (giving.Find (lent.Int key))) dict)
        thread.old.value thread.new.value result (Writes itself value.old value.new) }
{
    give_by(thread, dict, FindingByInt(key), value)
}

#[unsafe(no_mangle)]
pub extern "C" fn brc_dict_find_text(
    thread: &mut CThread,
    dict: u64,
    key: &[u8],
    value: &mut u64,
) -> u32
    ensures kept { result ≢ 0 → value.new ≡ value.old }
    ensures does { CarriesOut (OrNotText key.now (Gives (FindsByText key.now) dict))
        thread.old.value thread.new.value result (Writes itself value.old value.new) }
{
    match thread.as_mut().client() {
        Some(client) => match text_of(key) {
            Ok(_text) => write(client.give(dict, FindingByText(key)), value),
            Err(status) => status.number(),
        },
        None => gone(),
    }
}

#[unsafe(no_mangle)]
pub extern "C" fn brc_dict_del_int(
    thread: &mut CThread,
    dict: u64,
    key: i64,
    value: &mut u64,
) -> u32
    ensures kept { result ≢ 0 → value.new ≡ value.old }
    ensures does { CarriesOut (Gives (GaveBy (giving.Delete (lent.Int key))) dict)
        thread.old.value thread.new.value result (Writes itself value.old value.new) }
{
    give_by(thread, dict, DeletingByInt(key), value)
}

#[unsafe(no_mangle)]
pub extern "C" fn brc_dict_del_text(
    thread: &mut CThread,
    dict: u64,
    key: &[u8],
    value: &mut u64,
) -> u32
    ensures kept { result ≢ 0 → value.new ≡ value.old }
    ensures does { CarriesOut (OrNotText key.now (Gives (DeletesByText key.now) dict))
        thread.old.value thread.new.value result (Writes itself value.old value.new) }
{
    match thread.as_mut().client() {
        Some(client) => match text_of(key) {
            Ok(_text) => write(client.give(dict, DeletingByText(key)), value),
            Err(status) => status.number(),
        },
        None => gone(),
    }
}

#[unsafe(no_mangle)]
pub extern "C" fn brc_dict_pair(
    alloc: Global,
    thread: &mut CThread,
    dict: u64,
    index: u32,
    key: &mut CKey,
    to: &mut [u8],
    value: &mut u64,
) -> u32
    ensures kept { result ≢ 0 → (key.new ≡ key.old) × (to.new ≡ to.old) × (value.new ≡ value.old) }
    ensures does { CarriesOut (GivesPair dict index) thread.old.value thread.new.value result
        (WritesPair value.old value.new key.old key.new to.old to.new) }
{
    match thread.as_mut().client() {
        Some(client) => match client.pair(alloc, dict, index) {
            Ok((found, number)) => {
                *value = number;
                write_key(&found, key, to);
                0
            }
            Err(status) => status.number(),
        },
        None => gone(),
    }
}

/// The key is written; of a text, as many bytes as there is room for.
pub(crate) fn write_key(found: &Key<Global>, key: &mut CKey, to: &mut [u8])
    ensures { KeyWritten found.now key.new to.old to.new }
{
    match found {
        Key::Int(number) => {
            key.number = *number;
            key.len = 0;
            key.is_text = 0;
        }
        Key::Text(text) => {
            key.number = 0;
            key.len = copy_prefix(text.as_bytes(), to);
            key.is_text = 1;
        }
    }
}
