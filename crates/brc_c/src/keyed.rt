//! Whether and where a dictionary has a key.

ghost use Rattle.std.specs.Prelude.{◌≡◌, ◌≢◌};
ghost use Rattle.brc_words.specs.declared.key.Key.TheVariants as keys;
ghost use Rattle.brc_client.specs.Answers.{FindsOut};
ghost use Rattle.brc_client.specs.Keyed.{PlaceOf, HasKey};
ghost use Rattle.brc_c.specs.Exports.{CarriesOut, OrNotText, Writes, itself, truth_number};

use crate::outs::{gone, write, write_truth};
use crate::slots::CThread;
use brc_client::{KeyRef, text_of};

#[unsafe(no_mangle)]
pub extern "C" fn brc_dict_has_int(thread: &mut CThread, dict: u64, key: i64, has: &mut u32) -> u32
    ensures kept { result ≢ 0 → has.new ≡ has.old }
    ensures does { CarriesOut (FindsOut (HasKey (keys.Int key)) dict) thread.old.value thread.new.value result
        (Writes truth_number has.old has.new) }
{
    match thread.as_mut().client() {
        Some(client) => write_truth(client.has(dict, KeyRef::Int(key)), has),
        None => gone(),
    }
}

#[unsafe(no_mangle)]
pub extern "C" fn brc_dict_has_text(
    thread: &mut CThread,
    dict: u64,
    key: &[u8],
    has: &mut u32,
) -> u32
    ensures kept { result ≢ 0 → has.new ≡ has.old }
    ensures does { CarriesOut (OrNotText key.now (FindsOut (HasKey (keys.Text key.now)) dict))
        thread.old.value thread.new.value result (Writes truth_number has.old has.new) }
{
    match thread.as_mut().client() {
        Some(client) => match text_of(key) {
            Ok(_text) => write_truth(client.has(dict, KeyRef::Text(key)), has),
            Err(status) => status.number(),
        },
        None => gone(),
    }
}

#[unsafe(no_mangle)]
pub extern "C" fn brc_dict_place_int(
    thread: &mut CThread,
    dict: u64,
    key: i64,
    index: &mut u32,
) -> u32
    ensures kept { result ≢ 0 → index.new ≡ index.old }
    ensures does { CarriesOut (FindsOut (PlaceOf (keys.Int key)) dict) thread.old.value thread.new.value result
        (Writes itself index.old index.new) }
{
    match thread.as_mut().client() {
        Some(client) => write(client.place(dict, KeyRef::Int(key)), index),
        None => gone(),
    }
}

#[unsafe(no_mangle)]
pub extern "C" fn brc_dict_place_text(
    thread: &mut CThread,
    dict: u64,
    key: &[u8],
    index: &mut u32,
) -> u32
    ensures kept { result ≢ 0 → index.new ≡ index.old }
    ensures does { CarriesOut (OrNotText key.now (FindsOut (PlaceOf (keys.Text key.now)) dict))
        thread.old.value thread.new.value result (Writes itself index.old index.new) }
{
    match thread.as_mut().client() {
        Some(client) => match text_of(key) {
            Ok(_text) => write(client.place(dict, KeyRef::Text(key)), index),
            Err(status) => status.number(),
        },
        None => gone(),
    }
}
