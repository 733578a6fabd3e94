//! Makers: a reference to an immortal, or to a new object.

ghost use Rattle.std.specs.Prelude.{◌≡◌, ◌≢◌};
ghost use Rattle.brc_places.specs.Calls.{MadeBy};
ghost use Rattle.brc_places.specs.declared.place_makers.Make.TheVariants as making;
ghost use Rattle.brc_client.specs.Answers.{Makes};
ghost use Rattle.brc_c.specs.Calls.{MakesText, MakesTruth};
ghost use Rattle.brc_c.specs.Exports.{CarriesOut, OrNotText, Writes, itself};

use crate::calls::make_by;
use crate::outs::{gone, says_yes, write};
use crate::slots::CThread;
use brc_client::{Make, text_of};
use std::alloc::Global;

#[unsafe(no_mangle)]
pub extern "C" fn brc_none(alloc: Global, thread: &mut CThread, made: &mut u64) -> u32
    ensures kept { result ≢ 0 → made.new ≡ made.old }
    ensures does { CarriesOut (Makes (MadeBy making.Nothing)) thread.old.value thread.new.value result
        (Writes itself made.old made.new) }
{
    make_by(alloc, thread, Make::Nothing, made)
}

#[unsafe(no_mangle)]
pub extern "C" fn brc_truth(
    alloc: Global,
    thread: &mut CThread,
    is_true: u32,
    made: &mut u64,
) -> u32
    ensures kept { result ≢ 0 → made.new ≡ made.old }
    ensures does { CarriesOut (MakesTruth is_true) thread.old.value thread.new.value result
        (Writes itself made.old made.new) }
{
    make_by(alloc, thread, Make::Truth(says_yes(is_true)), made)
}

#[unsafe(no_mangle)]
pub extern "C" fn brc_globals(alloc: Global, thread: &mut CThread, made: &mut u64) -> u32
    ensures kept { result ≢ 0 → made.new ≡ made.old }
    ensures does { CarriesOut (Makes (MadeBy making.Globals)) thread.old.value thread.new.value result
        (Writes itself made.old made.new) }
{
    make_by(alloc, thread, Make::Globals, made)
}

#[unsafe(no_mangle)]
pub extern "C" fn brc_new_int(
    alloc: Global,
    thread: &mut CThread,
    value: i64,
    made: &mut u64,
) -> u32
    ensures kept { result ≢ 0 → made.new ≡ made.old }
    ensures does { CarriesOut (Makes (MadeBy (making.Int value))) thread.old.value thread.new.value result
        (Writes itself made.old made.new) }
{
    make_by(alloc, thread, Make::Int(value), made)
}

#[unsafe(no_mangle)]
pub extern "C" fn brc_new_list(alloc: Global, thread: &mut CThread, made: &mut u64) -> u32
    ensures kept { result ≢ 0 → made.new ≡ made.old }
    ensures does { CarriesOut (Makes (MadeBy making.«List»)) thread.old.value thread.new.value result
        (Writes itself made.old made.new) }
{
    make_by(alloc, thread, Make::List, made)
}

#[unsafe(no_mangle)]
pub extern "C" fn brc_new_dict(alloc: Global, thread: &mut CThread, made: &mut u64) -> u32
    ensures kept { result ≢ 0 → made.new ≡ made.old }
    ensures does { CarriesOut (Makes (MadeBy making.Dict)) thread.old.value thread.new.value result
        (Writes itself made.old made.new) }
{
    make_by(alloc, thread, Make::Dict, made)
}

#[unsafe(no_mangle)]
pub extern "C" fn brc_new_list_for(
    alloc: Global,
    thread: &mut CThread,
    entries: u32,
    made: &mut u64,
) -> u32
    ensures kept { result ≢ 0 → made.new ≡ made.old }
    ensures does { CarriesOut (Makes (MadeBy (making.ListFor entries))) thread.old.value thread.new.value result
        (Writes itself made.old made.new) }
{
    make_by(alloc, thread, Make::ListFor(entries), made)
}

#[unsafe(no_mangle)]
pub extern "C" fn brc_new_dict_for(
    alloc: Global,
    thread: &mut CThread,
    pairs: u32,
    made: &mut u64,
) -> u32
    ensures kept { result ≢ 0 → made.new ≡ made.old }
    ensures does { CarriesOut (Makes (MadeBy (making.DictFor pairs))) thread.old.value thread.new.value result
        (Writes itself made.old made.new) }
{
    make_by(alloc, thread, Make::DictFor(pairs), made)
}

#[unsafe(no_mangle)]
pub extern "C" fn brc_new_mailbox(alloc: Global, thread: &mut CThread, made: &mut u64) -> u32
    ensures kept { result ≢ 0 → made.new ≡ made.old }
    ensures does { CarriesOut (Makes (MadeBy making.Mailbox)) thread.old.value thread.new.value result
        (Writes itself made.old made.new) }
{
    make_by(alloc, thread, Make::Mailbox, made)
}

#[unsafe(no_mangle)]
pub extern "C" fn brc_new_text(
    alloc: Global,
    thread: &mut CThread,
    bytes: &[u8],
    made: &mut u64,
) -> u32
    ensures kept { result ≢ 0 → made.new ≡ made.old }
    ensures does { CarriesOut (OrNotText bytes.now (Makes (MakesText bytes.now)))
        thread.old.value thread.new.value result (Writes itself made.old made.new) }
{
    match thread.as_mut().client() {
        Some(client) => match text_of(bytes) {
            Ok(text) => write(client.make(alloc, Make::Text(text)), made),
            Err(status) => status.number(),
        },
        None => gone(),
    }
}
