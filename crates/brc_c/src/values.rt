//! Values: scalars without an object, and references with a label, go into containers and come out of them.

ghost use Rattle.std.specs.Prelude.{◌≡◌, ◌≢◌, ◌<◌, IfOk, IfErr, OnErr};
ghost use Rattle.brc_count.specs.block.declared.key_ref.KeyRef.TheVariants as lent;
ghost use Rattle.brc_places.specs.Value_Calls.{TookOutValueBy, PutValueBy};
ghost use Rattle.brc_places.specs.declared.giving.GiveBy.TheVariants as giving;
ghost use Rattle.brc_places.specs.declared.valued.PutBy.TheVariants as putting;
ghost use Rattle.brc_client.specs.Valued.{GivesDatum, GivesPairDatum, TakesDatum};
ghost use Rattle.brc_client.specs.declared.status.Status.TheVariants as statuses;
ghost use Rattle.brc_c.specs.Calls.{FindsValueByText, DeletesValueByText, PutsValueByText, PutsNewByText};
ghost use Rattle.brc_c.specs.Calls.{value_of, came_of, packed, WritesValuePair};
ghost use Rattle.brc_c.specs.Exports.{CarriesOut, OrNotText, OrNotValue, HandsDatum, Writes, WritesNothing};
ghost use Rattle.brc_c.specs.Exports.{code_of, holds_in};

use crate::dicts::{CKey, write_key};
use crate::outs::{gone, status_of_taking};
use crate::slots::CThread;
use brc_client::{
    Datum, DeletingByInt, DeletingByText, FindingByInt, FindingByText, Getting, Inward, Outward,
    PairDatum, Popping, Pushing, PuttingAt, PuttingByInt, PuttingByText, PuttingNewByInt,
    PuttingNewByText, Receiving, Sending, Setting, Status, Taking, text_of,
};
use brc_words::Note;
use std::alloc::Global;

/// What `holds` says: nothing came out, and what a scalar and a reference are.
const NO_VALUE: u32 = 0;

const SCALAR: u32 = 1;

pub(crate) const REFERENCE: u32 = 2;

/// A value as C has it where it comes out: `brc_value`.
#[repr(C)]
#[derive(Drop)]
pub struct CValue {
    pub bits: u64,
    pub label: u32,
    pub holds: u32,
}

impl CValue {
    #[inline(always)]
    pub(crate) fn write(&mut self, datum: Datum)
        ensures { self.new ≡ value_of datum }
    {
        match datum {
            Datum::Scalar(note) => {
                self.bits = note.bits;
                self.label = note.label;
                self.holds = SCALAR;
            }
            Datum::Object(number, note) => {
                self.bits = number;
                self.label = note.label;
                self.holds = REFERENCE;
            }
        }
    }

    /// The label, and what the value holds above it, as C hands them over in one word.
    #[inline(always)]
    pub(crate) fn packed(&self) -> u64
        ensures { result ≡ packed self.now }
    {
        u64::from(self.holds) * 4_294_967_296 + u64::from(self.label)
    }

    #[inline(always)]
    fn write_nothing(&mut self)
        ensures { self.new ≡ came_of None }
    {
        self.bits = 0;
        self.label = 0;
        self.holds = NO_VALUE;
    }
}

/// A value that C gives. It is handed over in two registers, as the rules of C on x86-64 hand over a structure of 16 bytes:
/// the bits; and what it holds, above the label. NotValue for what it can't hold.
#[inline(always)]
pub(crate) fn datum_of(bits: u64, noted: u64) -> Result<Datum, Status>
    ensures handed { IfOk result (HandsDatum bits noted) }
    ensures refused { IfErr result (λ status. status ≡ statuses.NotValue) }
    ensures other { OnErr result (2 < holds_in noted) }
{
    let label = (noted % 4_294_967_296) as u32;
    let holds = (noted / 4_294_967_296) as u32;
    if holds <= SCALAR {
        return Ok(Datum::Scalar(Note { label, bits }));
    }
    if holds == REFERENCE {
        return Ok(Datum::Object(bits, Note { label, bits: 0 }));
    }
    Err(Status::NotValue)
}

/// What a container gives is written.
#[inline(always)]
fn write_value(made: Result<Datum, Status>, value: &mut CValue) -> u32
    ensures code { result ≡ code_of made }
    ensures written { Writes value_of value.old value.new made }
    ensures kept { result ≢ 0 → value.new ≡ value.old }
{
    match made {
        Ok(item) => {
            value.write(item);
            0
        }
        Err(status) => status.number(),
    }
}

/// What came out for a value is written, or that nothing did.
#[inline(always)]
fn write_came(made: Result<Option<Datum>, Status>, old: &mut CValue) -> u32
    ensures code { result ≡ code_of made }
    ensures written { Writes came_of old.old old.new made }
    ensures kept { result ≢ 0 → old.new ≡ old.old }
{
    match made {
        Ok(Some(item)) => {
            old.write(item);
            0
        }
        Ok(None) => {
            old.write_nothing();
            0
        }
        Err(status) => status.number(),
    }
}

#[inline(always)]
pub(crate) fn take_out_value_by<B: Outward>(
    thread: &mut CThread,
    container: u64,
    by: B,
    value: &mut CValue,
) -> u32
    ensures kept { result ≢ 0 → value.new ≡ value.old }
    ensures does { CarriesOut (GivesDatum (TookOutValueBy (B.call by)) container)
        thread.old.value thread.new.value result (Writes value_of value.old value.new) }
{
    match thread.as_mut().client() {
        Some(client) => write_value(client.take_out_value(container, by), value),
        None => gone(),
    }
}

/// A value goes in, and nothing comes out for it.
#[inline(always)]
fn put_value_by<B: Inward>(
    alloc: Global,
    thread: &mut CThread,
    container: u64,
    by: B,
    bits: u64,
    noted: u64,
) -> u32
    ensures does { CarriesOut (OrNotValue bits noted (TakesDatum (PutValueBy (B.call by)) container))
        thread.old.value thread.new.value result (WritesNothing) }
{
    match thread.as_mut().client() {
        Some(client) => match datum_of(bits, noted) {
            Ok(datum) => status_of_taking(client.put_value(alloc, container, by, datum)),
            Err(status) => status.number(),
        },
        None => gone(),
    }
}

#[inline(always)]
pub(crate) fn exchange_value_by<B: Inward>(
    alloc: Global,
    thread: &mut CThread,
    container: u64,
    by: B,
    bits: u64,
    noted: u64,
    old: &mut CValue,
) -> u32
    ensures kept { result ≢ 0 → old.new ≡ old.old }
    ensures does { CarriesOut (OrNotValue bits noted (TakesDatum (PutValueBy (B.call by)) container))
        thread.old.value thread.new.value result (Writes came_of old.old old.new) }
{
    match thread.as_mut().client() {
        Some(client) => match datum_of(bits, noted) {
            Ok(datum) => write_came(client.put_value(alloc, container, by, datum), old),
            Err(status) => status.number(),
        },
        None => gone(),
    }
}

#[unsafe(no_mangle)]
pub extern "C" fn brc_list_push_value(
    alloc: Global,
    thread: &mut CThread,
    list: u64,
    bits: u64,
    noted: u64,
) -> u32
    ensures does { CarriesOut (OrNotValue bits noted (TakesDatum (PutValueBy putting.Push) list))
        thread.old.value thread.new.value result (WritesNothing) }
{
    put_value_by(alloc, thread, list, Pushing, bits, noted)
}

#[unsafe(no_mangle)]
pub extern "C" fn brc_list_pop_value(thread: &mut CThread, list: u64, value: &mut CValue) -> u32
    ensures kept { result ≢ 0 → value.new ≡ value.old }
    ensures does { CarriesOut (GivesDatum (TookOutValueBy giving.Pop) list)
        thread.old.value thread.new.value result (Writes value_of value.old value.new) }
{
    take_out_value_by(thread, list, Popping, value)
}

#[unsafe(no_mangle)]
pub extern "C" fn brc_list_take_value(
    thread: &mut CThread,
    list: u64,
    index: u32,
    value: &mut CValue,
) -> u32
    ensures kept { result ≢ 0 → value.new ≡ value.old }
    ensures does { CarriesOut (GivesDatum (TookOutValueBy (giving.Take index)) list)
        thread.old.value thread.new.value result (Writes value_of value.old value.new) }
{
    take_out_value_by(thread, list, Taking(index), value)
}

#[unsafe(no_mangle)]
pub extern "C" fn brc_list_get_value(
    thread: &mut CThread,
    list: u64,
    index: u32,
    value: &mut CValue,
) -> u32
    ensures kept { result ≢ 0 → value.new ≡ value.old }
    ensures does { CarriesOut (GivesDatum (TookOutValueBy (giving.Get index)) list)
        thread.old.value thread.new.value result (Writes value_of value.old value.new) }
{
    take_out_value_by(thread, list, Getting(index), value)
}

#[unsafe(no_mangle)]
pub extern "C" fn brc_list_set_value(
    alloc: Global,
    thread: &mut CThread,
    list: u64,
    index: u32,
    bits: u64,
    noted: u64,
    old: &mut CValue,
) -> u32
    ensures kept { result ≢ 0 → old.new ≡ old.old }
    ensures does { CarriesOut (OrNotValue bits noted (TakesDatum (PutValueBy (putting.Set index)) list))
        thread.old.value thread.new.value result (Writes came_of old.old old.new) }
{
    exchange_value_by(alloc, thread, list, Setting(index), bits, noted, old)
}

#[unsafe(no_mangle)]
pub extern "C" fn brc_list_put_value(
    alloc: Global,
    thread: &mut CThread,
    list: u64,
    index: u32,
    bits: u64,
    noted: u64,
    old: &mut CValue,
) -> u32
    ensures kept { result ≢ 0 → old.new ≡ old.old }
    ensures does { CarriesOut (OrNotValue bits noted (TakesDatum (PutValueBy (putting.PutAt index)) list))
        thread.old.value thread.new.value result (Writes came_of old.old old.new) }
{
    exchange_value_by(alloc, thread, list, PuttingAt(index), bits, noted, old)
}

#[unsafe(no_mangle)]
pub extern "C" fn brc_send_value(
    alloc: Global,
    thread: &mut CThread,
    mailbox: u64,
    bits: u64,
    noted: u64,
) -> u32
    ensures does { CarriesOut (OrNotValue bits noted (TakesDatum (PutValueBy putting.Send) mailbox))
        thread.old.value thread.new.value result (WritesNothing) }
{
    put_value_by(alloc, thread, mailbox, Sending, bits, noted)
}

#[unsafe(no_mangle)]
pub extern "C" fn brc_recv_value(thread: &mut CThread, mailbox: u64, value: &mut CValue) -> u32
    ensures kept { result ≢ 0 → value.new ≡ value.old }
    ensures does { CarriesOut (GivesDatum (TookOutValueBy giving.Receive) mailbox)
        thread.old.value thread.new.value result (Writes value_of value.old value.new) }
{
    take_out_value_by(thread, mailbox, Receiving, value)
}

#[unsafe(no_mangle)]
pub extern "C" fn brc_dict_put_int_value(
    alloc: Global,
    thread: &mut CThread,
    dict: u64,
    key: i64,
    bits: u64,
    noted: u64,
    old: &mut CValue,
) -> u32
    ensures kept { result ≢ 0 → old.new ≡ old.old }
    ensures does { CarriesOut (OrNotValue bits noted (TakesDatum (PutValueBy (putting.Put (lent.Int key))) dict))
        thread.old.value thread.new.value result (Writes came_of old.old old.new) }
{
    exchange_value_by(alloc, thread, dict, PuttingByInt(key), bits, noted, old)
}

#[unsafe(no_mangle)]
pub extern "C" fn brc_dict_find_int_value(
    thread: &mut CThread,
    dict: u64,
    key: i64,
    value: &mut CValue,
) -> u32
    ensures kept { result ≢ 0 → value.new ≡ value.old }
    ensures does { CarriesOut (GivesDatum (TookOutValueBy (giving.Find (lent.Int key))) dict)
        thread.old.value thread.new.value result (Writes value_of value.old value.new) }
{
    take_out_value_by(thread, dict, FindingByInt(key), value)
}

#[unsafe(no_mangle)]
pub extern "C" fn brc_dict_del_int_value(
    thread: &mut CThread,
    dict: u64,
    key: i64,
    value: &mut CValue,
) -> u32
    ensures kept { result ≢ 0 → value.new ≡ value.old }
    ensures does { CarriesOut (GivesDatum (TookOutValueBy (giving.Delete (lent.Int key))) dict)
        thread.old.value thread.new.value result (Writes value_of value.old value.new) }
{
    take_out_value_by(thread, dict, DeletingByInt(key), value)
}

#[unsafe(no_mangle)]
pub extern "C" fn brc_dict_find_text_value(
    thread: &mut CThread,
    dict: u64,
    key: &[u8],
    value: &mut CValue,
) -> u32
    ensures kept { result ≢ 0 → value.new ≡ value.old }
    ensures does { CarriesOut (OrNotText key.now (GivesDatum (FindsValueByText key.now) dict))
        thread.old.value thread.new.value result (Writes value_of value.old value.new) }
{
    match thread.as_mut().client() {
        Some(client) => match text_of(key) {
            Ok(_text) => write_value(client.take_out_value(dict, FindingByText(key)), value),
            Err(status) => status.number(),
        },
        None => gone(),
    }
}

#[unsafe(no_mangle)]
pub extern "C" fn brc_dict_del_text_value(
    thread: &mut CThread,
    dict: u64,
    key: &[u8],
    value: &mut CValue,
) -> u32
    ensures kept { result ≢ 0 → value.new ≡ value.old }
    ensures does { CarriesOut (OrNotText key.now (GivesDatum (DeletesValueByText key.now) dict))
        thread.old.value thread.new.value result (Writes value_of value.old value.new) }
{
    match thread.as_mut().client() {
        Some(client) => match text_of(key) {
            Ok(_text) => write_value(client.take_out_value(dict, DeletingByText(key)), value),
            Err(status) => status.number(),
        },
        None => gone(),
    }
}

#[unsafe(no_mangle)]
pub extern "C" fn brc_dict_put_text_value(
    alloc: Global,
    thread: &mut CThread,
    dict: u64,
    key: &[u8],
    bits: u64,
    noted: u64,
    old: &mut CValue,
) -> u32
    ensures kept { result ≢ 0 → old.new ≡ old.old }
    ensures does { CarriesOut (OrNotText key.now (OrNotValue bits noted (TakesDatum (PutsValueByText key.now) dict)))
        thread.old.value thread.new.value result (Writes came_of old.old old.new) }
{
    match thread.as_mut().client() {
        Some(client) => match text_of(key) {
            Ok(_text) => match datum_of(bits, noted) {
                Ok(datum) => write_came(
                    client.put_value(alloc, dict, PuttingByText(key), datum),
                    old,
                ),
                Err(status) => status.number(),
            },
            Err(status) => status.number(),
        },
        None => gone(),
    }
}

#[unsafe(no_mangle)]
pub extern "C" fn brc_dict_put_new_int_value(
    alloc: Global,
    thread: &mut CThread,
    dict: u64,
    key: i64,
    bits: u64,
    noted: u64,
    back: &mut CValue,
) -> u32
    ensures kept { result ≢ 0 → back.new ≡ back.old }
    ensures does { CarriesOut (OrNotValue bits noted (TakesDatum (PutValueBy (putting.PutNew (lent.Int key))) dict))
        thread.old.value thread.new.value result (Writes came_of back.old back.new) }
{
    exchange_value_by(alloc, thread, dict, PuttingNewByInt(key), bits, noted, back)
}

#[unsafe(no_mangle)]
pub extern "C" fn brc_dict_put_new_text_value(
    alloc: Global,
    thread: &mut CThread,
    dict: u64,
    key: &[u8],
    bits: u64,
    noted: u64,
    back: &mut CValue,
) -> u32
    ensures kept { result ≢ 0 → back.new ≡ back.old }
    ensures does { CarriesOut (OrNotText key.now (OrNotValue bits noted (TakesDatum (PutsNewByText key.now) dict)))
        thread.old.value thread.new.value result (Writes came_of back.old back.new) }
{
    match thread.as_mut().client() {
        Some(client) => match text_of(key) {
            Ok(_text) => match datum_of(bits, noted) {
                Ok(datum) => write_came(
                    client.put_value(alloc, dict, PuttingNewByText(key), datum),
                    back,
                ),
                Err(status) => status.number(),
            },
            Err(status) => status.number(),
        },
        None => gone(),
    }
}

#[unsafe(no_mangle)]
pub extern "C" fn brc_dict_pair_value(
    alloc: Global,
    thread: &mut CThread,
    dict: u64,
    index: u32,
    key: &mut CKey,
    to: &mut [u8],
    value: &mut CValue,
    pairs: &mut u32,
) -> u32
    ensures kept { result ≢ 0
        → (key.new ≡ key.old) × (to.new ≡ to.old) × (value.new ≡ value.old) × (pairs.new ≡ pairs.old) }
    ensures does { CarriesOut (GivesPairDatum dict index)
        thread.old.value thread.new.value result (WritesValuePair value.old value.new key.old key.new to.old to.new pairs.old pairs.new) }
{
    match thread.as_mut().client() {
        Some(client) => match client.pair_value(alloc, dict, index) {
            Ok(
                PairDatum {
                    key: found,
                    datum,
                    of,
                },
            ) => {
                value.write(datum);
                write_key(&found, key, to);
                *pairs = of;
                0
            }
            Err(status) => status.number(),
        },
        None => gone(),
    }
}
