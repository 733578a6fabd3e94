//! Step 2, a list of numbers: a number is its entry, and no object is made for it.

ghost use Rattle.std.specs.Prelude.{◌≢◌};
ghost use Rattle.brc_heap.specs.Words.{HasNone, IsUnlocked, Keeps, LosesValue, Owns, OwnsValue};

use brc_heap::{
    Frame, Handle, Note, Value, list_get_value, list_pop_value, list_push_value, new_list, none,
};
use std::alloc::Global;
use std::sync::Wait;

/// The label of this runtime's numbers. A runtime with floats or truths has one more for each.
const NUMBER: u32 = 1;

/// A number, as its entry has it.
pub(crate) fn noted(number: i64) -> Note {
    Note {
        label: NUMBER,
        bits: number.cast_unsigned(),
    }
}

/// The number that came out of an entry. If an object did, its handle is released.
pub(crate) fn number_of(frame: &mut Frame<'_>, value: Value<Global>) -> Option<i64>
    requires owned { OwnsValue frame.old value }
    requires unlocked { IsUnlocked frame.old }
    ensures loses { LosesValue frame.old frame.new value }
    ensures unlocked { IsUnlocked frame.new }
{
    match value {
        Value::Scalar(note) => Some(note.bits.cast_signed()),
        Value::Object(object, _note) => {
            frame.release(object);
            None
        }
    }
}

/// The number becomes the list's last entry. None if it finds no room there.
pub(crate) fn pushes(
    rt: &impl Wait,
    frame: &mut Frame<'_>,
    none: &Handle,
    list: &Handle,
    number: i64,
) -> Option<()>
    requires owned { Owns frame.old list.now }
    requires none { HasNone frame.old none.now }
    requires apart { list.now.place ≢ none.now.place }
    requires unlocked { IsUnlocked frame.old }
    ensures keeps { Keeps frame.old frame.new }
    ensures none { HasNone frame.new none.now }
    ensures unlocked { IsUnlocked frame.new }
{
    let number = Value::Scalar(noted(number));
    match list_push_value(rt, frame, none, list, number) {
        Ok(()) => Some(()),
        Err(handed) => match handed.value {
            Value::Scalar(_note) => None, // a refused call hands back what it took
            Value::Object(_object, _note) => unreachable!(),
        },
    }
}

/// The list's last entry, as a number.
fn pops(rt: &impl Wait, frame: &mut Frame<'_>, list: &Handle) -> Option<i64>
    requires owned { Owns frame.old list.now }
    requires unlocked { IsUnlocked frame.old }
    ensures keeps { Keeps frame.old frame.new }
    ensures unlocked { IsUnlocked frame.new }
{
    let Ok(entry) = list_pop_value(rt, frame, list) else {
        return None;
    };
    number_of(frame, entry)
}

/// The list's first entry, as a number. The entry stays.
pub(crate) fn first(rt: &impl Wait, frame: &mut Frame<'_>, list: &Handle) -> Option<i64>
    requires owned { Owns frame.old list.now }
    requires unlocked { IsUnlocked frame.old }
    ensures keeps { Keeps frame.old frame.new }
    ensures unlocked { IsUnlocked frame.new }
{
    let Ok(entry) = list_get_value(rt, frame, list, 0) else {
        return None;
    };
    number_of(frame, entry)
}

/// Two numbers go into a list, and the last one comes out.
pub(crate) fn pushes_and_pops(rt: &impl Wait, alloc: Global, frame: &mut Frame<'_>) -> Option<i64>
    requires unlocked { IsUnlocked frame.old }
    ensures keeps { Keeps frame.old frame.new }
    ensures unlocked { IsUnlocked frame.new }
{
    let Ok(list) = new_list(alloc, frame) else {
        return None;
    };
    let Ok(none) = none(frame) else {
        frame.release(list);
        return None;
    };
    let _one = pushes(rt, frame, &none, &list, 1_000);
    let _two = pushes(rt, frame, &none, &list, 2_000);
    let last = pops(rt, frame, &list);
    frame.release(none);
    frame.release(list); // with it goes the entry that is left
    last
}
