//! Step 3, a dictionary: a number beside a key that is lent.

ghost use Rattle.brc_heap.specs.Words.{IsUnlocked, Keeps, Owns};

use crate::list::{noted, number_of};
use brc_heap::{Frame, Handle, KeyRef, Value, dict_find_value, dict_set_value, new_dict, none};
use std::alloc::Global;
use std::sync::Wait;

/// The number goes beside the key, and what was there is let go of. None if it isn't put there.
fn puts(
    rt: &impl Wait,
    alloc: Global,
    frame: &mut Frame<'_>,
    dict: &Handle,
    key: KeyRef<'_>,
    number: i64,
) -> Option<()>
    requires owned { Owns frame.old dict.now }
    requires unlocked { IsUnlocked frame.old }
    ensures keeps { Keeps frame.old frame.new }
    ensures unlocked { IsUnlocked frame.new }
{
    let Ok(mut none) = none(frame) else {
        return None;
    };
    let number = Value::Scalar(noted(number));
    let put = match dict_set_value(rt, alloc, frame, &mut none, dict, key, number) {
        Ok(None) => Some(()),
        Ok(Some(Value::Scalar(_old))) => Some(()),
        Ok(Some(Value::Object(object, _note))) => {
            frame.release(object);
            Some(())
        }
        Err(handed) => match handed.value {
            Value::Scalar(_number) => None, // a refused call hands back what it took
            Value::Object(_object, _note) => unreachable!(),
        },
    };
    frame.release(none);
    put
}

/// The number beside the key, if there is one.
fn finds(rt: &impl Wait, frame: &mut Frame<'_>, dict: &Handle, key: KeyRef<'_>) -> Option<i64>
    requires owned { Owns frame.old dict.now }
    requires unlocked { IsUnlocked frame.old }
    ensures keeps { Keeps frame.old frame.new }
    ensures unlocked { IsUnlocked frame.new }
{
    let Ok(found) = dict_find_value(rt, frame, dict, key) else {
        return None;
    };
    number_of(frame, found)
}

/// A number is put beside a word, then another one, and the second is found.
pub(crate) fn puts_and_finds(rt: &impl Wait, alloc: Global, frame: &mut Frame<'_>) -> Option<i64>
    requires unlocked { IsUnlocked frame.old }
    ensures keeps { Keeps frame.old frame.new }
    ensures unlocked { IsUnlocked frame.new }
{
    let Ok(dict) = new_dict(alloc, frame) else {
        return None;
    };
    let _first = puts(rt, alloc, frame, &dict, KeyRef::Text(b"width"), 640);
    let _second = puts(rt, alloc, frame, &dict, KeyRef::Text(b"width"), 1_280);
    let width = finds(rt, frame, &dict, KeyRef::Text(b"width"));
    frame.release(dict);
    width
}
