//! What an object is: its kind, how many entries it has, its number, its truth, its identity, its text.

ghost use Rattle.std.specs.Prelude.{◌≡◌, ◌≢◌};
ghost use Rattle.brc_things.specs.Looking.{LenOf};
ghost use Rattle.brc_client.specs.Answers.{FindsOut, FindsTruth, FindsIdentity, FindsEqual};
ghost use Rattle.brc_client.specs.Calls.{Shown, IsBytes};
ghost use Rattle.brc_client.specs.Told.{KindTold, IntTold};
ghost use Rattle.brc_c.specs.Exports.{CarriesOut, Writes, code_of, itself, truth_number, kind_number};

use crate::outs::{gone, write, write_truth};
use crate::slots::CThread;
use brc_client::Status;
use brc_words::Kind;

/// The kind as C has it.
fn number_of(kind: Kind) -> u32
    ensures { result ≡ kind_number kind }
{
    match kind {
        Kind::Int => 1,
        Kind::Text => 2,
        Kind::List => 3,
        Kind::Dict => 4,
        Kind::Mailbox => 5,
        Kind::Nothing => 6,
        Kind::False => 7,
        Kind::True => 8,
    }
}

/// The kind's number is written.
fn write_kind(made: Result<Kind, Status>, to: &mut u32) -> u32
    ensures code { result ≡ code_of made }
    ensures written { Writes kind_number to.old to.new made }
    ensures kept { result ≢ 0 → to.new ≡ to.old }
{
    match made {
        Ok(kind) => {
            *to = number_of(kind);
            0
        }
        Err(status) => status.number(),
    }
}

#[unsafe(no_mangle)]
pub extern "C" fn brc_kind_of(thread: &mut CThread, held: u64, kind: &mut u32) -> u32
    ensures kept { result ≢ 0 → kind.new ≡ kind.old }
    ensures does { CarriesOut (FindsOut KindTold held) thread.old.value thread.new.value result
        (Writes kind_number kind.old kind.new) }
{
    match thread.as_mut().client() {
        Some(client) => write_kind(client.kind(held), kind),
        None => gone(),
    }
}

#[unsafe(no_mangle)]
pub extern "C" fn brc_len_of(thread: &mut CThread, held: u64, len: &mut usize) -> u32
    ensures kept { result ≢ 0 → len.new ≡ len.old }
    ensures does { CarriesOut (FindsOut LenOf held) thread.old.value thread.new.value result
        (Writes itself len.old len.new) }
{
    match thread.as_mut().client() {
        Some(client) => write(client.len(held), len),
        None => gone(),
    }
}

#[unsafe(no_mangle)]
pub extern "C" fn brc_int_of(thread: &mut CThread, held: u64, value: &mut i64) -> u32
    ensures kept { result ≢ 0 → value.new ≡ value.old }
    ensures does { CarriesOut (FindsOut IntTold held) thread.old.value thread.new.value result
        (Writes itself value.old value.new) }
{
    match thread.as_mut().client() {
        Some(client) => write(client.int(held), value),
        None => gone(),
    }
}

#[unsafe(no_mangle)]
pub extern "C" fn brc_truth_of(thread: &mut CThread, held: u64, is_true: &mut u32) -> u32
    ensures kept { result ≢ 0 → is_true.new ≡ is_true.old }
    ensures does { CarriesOut (FindsTruth held) thread.old.value thread.new.value result
        (Writes truth_number is_true.old is_true.new) }
{
    match thread.as_mut().client() {
        Some(client) => write_truth(client.truth(held), is_true),
        None => gone(),
    }
}

#[unsafe(no_mangle)]
pub extern "C" fn brc_identity(thread: &mut CThread, held: u64, identity: &mut u64) -> u32
    ensures kept { result ≢ 0 → identity.new ≡ identity.old }
    ensures does { CarriesOut (FindsIdentity held) thread.old.value thread.new.value result
        (Writes itself identity.old identity.new) }
{
    match thread.as_mut().client() {
        Some(client) => write(client.identity(held), identity),
        None => gone(),
    }
}

#[unsafe(no_mangle)]
pub extern "C" fn brc_text_of(
    thread: &mut CThread,
    held: u64,
    to: &mut [u8],
    len: &mut usize,
) -> u32
    ensures kept { result ≢ 0 → (to.new ≡ to.old) × (len.new ≡ len.old) }
    ensures does { CarriesOut (FindsOut (Shown 0 to.old to.new) held) thread.old.value thread.new.value result
        (Writes itself len.old len.new) }
{
    match thread.as_mut().client() {
        Some(client) => write(client.text(held, 0, to), len),
        None => gone(),
    }
}

#[unsafe(no_mangle)]
pub extern "C" fn brc_text_is(
    thread: &mut CThread,
    held: u64,
    bytes: &[u8],
    is_same: &mut u32,
) -> u32
    ensures kept { result ≢ 0 → is_same.new ≡ is_same.old }
    ensures does { CarriesOut (FindsOut (IsBytes bytes.now) held) thread.old.value thread.new.value result
        (Writes truth_number is_same.old is_same.new) }
{
    match thread.as_mut().client() {
        Some(client) => write_truth(client.text_is(held, bytes), is_same),
        None => gone(),
    }
}

#[unsafe(no_mangle)]
pub extern "C" fn brc_text_equal(
    thread: &mut CThread,
    one: u64,
    other: u64,
    is_same: &mut u32,
) -> u32
    ensures kept { result ≢ 0 → is_same.new ≡ is_same.old }
    ensures does { CarriesOut (FindsEqual one other) thread.old.value thread.new.value result
        (Writes truth_number is_same.old is_same.new) }
{
    match thread.as_mut().client() {
        Some(client) => write_truth(client.text_equal(one, other), is_same),
        None => gone(),
    }
}
