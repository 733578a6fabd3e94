//! Step 4, the globals: the one dictionary that every thread of a heap reaches. What hangs on it outlives its thread.

ghost use Rattle.std.specs.Prelude.{◌≢◌};
ghost use Rattle.brc_heap.specs.Words.{IsUnlocked, Keeps, Loses, Owns};

use crate::list::{first, pushes};
use brc_heap::{Frame, Handle, KeyRef, dict_find_by, dict_set, new_list, none};
use std::alloc::Global;
use std::sync::Wait;

/// The object goes beside the key, and what was there is released; if the dictionary refuses it, it is released itself.
fn gives(
    rt: &impl Wait,
    alloc: Global,
    frame: &mut Frame<'_>,
    dict: &Handle,
    key: KeyRef<'_>,
    object: Handle,
) -> Option<()>
    requires owned { Owns frame.old dict.now }
    requires object_owned { Owns frame.old object }
    requires apart { object.place ≢ dict.now.place }
    requires unlocked { IsUnlocked frame.old }
    ensures loses { Loses frame.old frame.new object }
    ensures unlocked { IsUnlocked frame.new }
{
    match dict_set(rt, alloc, frame, dict, key, object) {
        Ok(None) => Some(()),
        Ok(Some(old)) => {
            frame.release(old);
            Some(())
        }
        Err(handed) => {
            frame.release(handed.value); // a refused call hands back what it took
            None
        }
    }
}

/// A list with this number is left in the globals, beside this key.
pub(crate) fn leaves(
    rt: &impl Wait,
    alloc: Global,
    frame: &mut Frame<'_>,
    key: i64,
    number: i64,
) -> Option<()>
    requires unlocked { IsUnlocked frame.old }
    ensures keeps { Keeps frame.old frame.new }
    ensures unlocked { IsUnlocked frame.new }
{
    let Ok(globals) = frame.globals() else {
        return None;
    };
    let Ok(list) = new_list(alloc, frame) else {
        frame.release(globals);
        return None;
    };
    let Ok(none) = none(frame) else {
        frame.release(list);
        frame.release(globals);
        return None;
    };
    let _pushed = pushes(rt, frame, &none, &list, number);
    frame.release(none);
    let left = gives(rt, alloc, frame, &globals, KeyRef::Int(key), list);
    frame.release(globals);
    left
}

/// The number in the list that somebody left there.
pub(crate) fn reads(rt: &impl Wait, frame: &mut Frame<'_>, key: i64) -> Option<i64>
    requires unlocked { IsUnlocked frame.old }
    ensures keeps { Keeps frame.old frame.new }
    ensures unlocked { IsUnlocked frame.new }
{
    let Ok(globals) = frame.globals() else {
        return None;
    };
    let found = dict_find_by(rt, frame, &globals, KeyRef::Int(key));
    frame.release(globals);
    let Ok(list) = found else {
        return None;
    };
    let number = first(rt, frame, &list);
    frame.release(list);
    number
}
