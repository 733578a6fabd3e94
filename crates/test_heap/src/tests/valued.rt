//! Steps by value on one object, by its handle: what goes into a container and comes out of it with a note.

ghost use Rattle.std.specs.Prelude.{◌≡◌, ◌≢◌, IfErr, IfOk, OnErr};
ghost use Rattle.brc_count.specs.Frames.{IsUnlocked, Owns};
ghost use Rattle.brc_count.specs.Owned.{Keeps};
ghost use Rattle.brc_things.specs.Values.{GainsValue, HasNone, LosesValue, OwnsPutValue, OwnsValue, StandsApart};
ghost use Rattle.test_heap.specs.Calls.{CameUnder, OwnsBoth, OwnsOne, Parts, Stays};

use crate::tests::calls::OnValue;
use crate::tests::came::{Came, number};
use crate::tests::steps::{Asked, Way, make_of};
use brc_count::biased::HasTable;
use brc_count::{Frame, HandedBack, Handle};
use brc_places::{
    GiveBy, PutBy, make_by, put_value_by, take_out_value_by, try_put_value_by,
    try_take_out_value_by,
};
use brc_things::{
    Pair, Value, dict_pair_value, int_of, kind_of, len_of, none, try_dict_pair_value,
};
use brc_words::{Fault, Key, Note};
use std::alloc::Allocator;
use std::process::Abort;
use std::sync::Wait;

/// The note of this text: a label, and its bits behind a `/`.
fn note_of(rt: &impl Abort, text: &str) -> Note {
    let (label, bits) = text.split_once("/").unwrap_or((text, ""));
    match bits.parse::<u64>() {
        Ok(bits) => Note {
            label: number(rt, label),
            bits,
        },
        Err(_) => panic!(rt; "{text} is no note"),
    }
}

/// The value that the step gives: a note, or what is made for it ` with ` a note.
fn value<H: HasTable<A>, A: Allocator + Copy>(
    rt: &impl Abort,
    asked: &Asked<'_, A>,
    frame: &mut Frame<H, A>,
) -> Value<A>
    requires unlocked { IsUnlocked frame.old }
    ensures gains { GainsValue frame.old frame.new result }
    ensures unlocked { IsUnlocked frame.new }
{
    match asked.given.what.split_once(" with ") {
        None => Value::Scalar(note_of(rt, asked.given.what)),
        Some((thing, note)) => {
            let note = note_of(rt, note);
            let made = make_by(asked.objects, frame, make_of(rt, thing));
            Value::Object(made.expect(rt, "no value is made"), note)
        }
    }
}

/// What the object is, which goes then, and what was noted beside it.
fn looks_at<H: HasTable<A>, A: Allocator>(
    rt: &(impl Abort + Wait),
    frame: &mut Frame<H, A>,
    object: Handle<A>,
    note: Note,
) -> Came
    requires { OwnsOne frame.old object }
    ensures { Parts frame.old frame.new object }
{
    let came = match int_of(rt, frame, &object) {
        Ok(number) => Came::IntWith(number, note),
        Err(_) => Came::With(kind_of(rt, frame, &object), note),
    };
    frame.release(object);
    came
}

/// What the value is, which goes then.
fn looks<H: HasTable<A>, A: Allocator>(
    rt: &(impl Abort + Wait),
    frame: &mut Frame<H, A>,
    value: Value<A>,
) -> Came
    requires owned { OwnsValue frame.old value }
    requires unlocked { IsUnlocked frame.old }
    ensures loses { LosesValue frame.old frame.new value }
    ensures unlocked { IsUnlocked frame.new }
{
    match value {
        Value::Scalar(note) => Came::Scalar(note),
        Value::Object(object, note) => looks_at(rt, frame, object, note),
    }
}

/// The value goes into the object, by the form of the call that is meant, and what stood there comes out. A refusal hands
/// it back.
fn put<H: HasTable<A>, A: Allocator + Copy>(
    rt: &impl Wait,
    asked: &Asked<'_, A>,
    frame: &mut Frame<H, A>,
    none: &mut Handle<A>,
    object: &Handle<A>,
    by: PutBy<'_>,
    value: Value<A>,
) -> Result<Option<Value<A>>, HandedBack<Value<A>>>
    requires owned { Owns frame.old object.now }
    requires unlocked { IsUnlocked frame.old }
    requires none { HasNone frame.old none.old }
    requires apart_none { object.now.place ≢ none.old.place }
    requires value { OwnsValue frame.old value }
    requires apart { StandsApart object.now.place value }
    requires other { StandsApart none.old.place value }
    ensures owns { IfOk result (OwnsPutValue frame.old frame.new none.new value) }
    ensures under { IfOk result (CameUnder none.old none.new value) }
    ensures none { HasNone frame.new none.new }
    ensures same { OnErr result (none.new ≡ none.old) }
    ensures back { IfErr result (λ handed. handed.value ≡ value) }
    ensures keeps { OnErr result (Keeps frame.old frame.new) }
    ensures unlocked { IsUnlocked frame.new }
{
    match asked.given.way {
        Way::Late => put_value_by(rt, asked.objects, frame, none, object, by, value),
        Way::AtOnce => try_put_value_by(asked.objects, frame, none, object, by, value),
    }
}

/// A refusal must hand the scalar with this note back.
fn hands_back<A: Allocator>(rt: &impl Abort, handed: HandedBack<Value<A>>, note: Note) -> Came {
    let HandedBack { fault, value } = handed;
    match value {
        Value::Scalar(back) => {
            assert!(rt; back == note, "another note is handed back");
            Came::Refused(fault)
        }
        Value::Object(_object, _note) => panic!(rt; "an object is handed back for a scalar"),
    }
}

/// The scalar goes into the object. A refusal hands it back.
fn puts_scalar<H: HasTable<A>, A: Allocator + Copy>(
    rt: &(impl Abort + Wait),
    asked: &Asked<'_, A>,
    frame: &mut Frame<H, A>,
    object: &Handle<A>,
    by: PutBy<'_>,
    note: Note,
) -> Came
    requires { OwnsOne frame.old object.now }
    ensures { Stays frame.old frame.new }
{
    match none(frame) {
        Err(fault) => Came::Refused(fault),
        Ok(none) => {
            let mut none = none;
            let put = put(rt, asked, frame, &mut none, object, by, Value::Scalar(note));
            match put {
                Ok(None) => {
                    frame.release(none);
                    Came::Passed
                }
                Ok(Some(Value::Scalar(old))) => {
                    frame.release(none);
                    Came::Scalar(old)
                }
                Ok(Some(Value::Object(old, said))) => {
                    frame.release(none);
                    looks_at(rt, frame, old, said)
                }
                Err(handed) => {
                    frame.release(none);
                    hands_back(rt, handed, note)
                }
            }
        }
    }
}

/// What a refusal hands back must be the object of this cell, with this note. It goes then.
fn lets_go<H: HasTable<A>, A: Allocator>(
    rt: &impl Abort,
    frame: &mut Frame<H, A>,
    handed: HandedBack<Value<A>>,
    cell: u32,
    note: Note,
) -> Came
    requires owned { OwnsValue frame.old handed.value }
    requires unlocked { IsUnlocked frame.old }
    ensures loses { LosesValue frame.old frame.new handed.value }
    ensures unlocked { IsUnlocked frame.new }
{
    let HandedBack { fault, value } = handed;
    match value {
        Value::Scalar(_note) => panic!(rt; "a scalar is handed back for an object"),
        Value::Object(back, said) => {
            assert!(rt; frame.cell(&back) == cell, "another object is handed back");
            assert!(rt; said == note, "another note is handed back");
            frame.release(back);
            Came::Refused(fault)
        }
    }
}

/// The object `value` goes into the other one, with its note. A refusal hands it back.
fn puts_object<H: HasTable<A>, A: Allocator + Copy>(
    rt: &(impl Abort + Wait),
    asked: &Asked<'_, A>,
    frame: &mut Frame<H, A>,
    object: &Handle<A>,
    by: PutBy<'_>,
    value: Handle<A>,
    note: Note,
) -> Came
    requires { OwnsBoth frame.old object.now value }
    ensures { Parts frame.old frame.new value }
{
    let cell = frame.cell(&value);
    match none(frame) {
        Err(fault) => {
            frame.release(value);
            Came::Refused(fault)
        }
        Ok(none) => {
            let mut none = none;
            let put = put(
                rt,
                asked,
                frame,
                &mut none,
                object,
                by,
                Value::Object(value, note),
            );
            match put {
                Ok(None) => {
                    frame.release(none);
                    Came::Passed
                }
                Ok(Some(Value::Scalar(old))) => {
                    frame.release(none);
                    Came::Scalar(old)
                }
                Ok(Some(Value::Object(old, said))) => {
                    frame.release(none);
                    looks_at(rt, frame, old, said)
                }
                Err(handed) => {
                    frame.release(none);
                    lets_go(rt, frame, handed, cell, note)
                }
            }
        }
    }
}

/// The value of the step goes into the object. A refusal hands it back.
fn puts<H: HasTable<A>, A: Allocator + Copy>(
    rt: &(impl Abort + Wait),
    asked: &Asked<'_, A>,
    frame: &mut Frame<H, A>,
    object: &Handle<A>,
    by: PutBy<'_>,
) -> Came
    requires { OwnsOne frame.old object.now }
    ensures { Stays frame.old frame.new }
{
    match value(rt, asked, frame) {
        Value::Scalar(note) => puts_scalar(rt, asked, frame, object, by, note),
        Value::Object(value, note) => puts_object(rt, asked, frame, object, by, value, note),
    }
}

/// What the object gives.
fn gives<H: HasTable<A>, A: Allocator + Copy>(
    rt: &(impl Abort + Wait),
    asked: &Asked<'_, A>,
    frame: &mut Frame<H, A>,
    object: &Handle<A>,
    by: GiveBy<'_>,
) -> Came
    requires { OwnsOne frame.old object.now }
    ensures { Stays frame.old frame.new }
{
    let given = match asked.given.way {
        Way::Late => take_out_value_by(rt, frame, object, by),
        Way::AtOnce => try_take_out_value_by(frame, object, by),
    };
    match given {
        Ok(value) => looks(rt, frame, value),
        Err(fault) => Came::Refused(fault),
    }
}

/// The pair at the place of the step, by the form of the call that is meant.
fn pair<H: HasTable<A>, A: Allocator + Copy>(
    rt: &(impl Abort + Wait),
    asked: &Asked<'_, A>,
    frame: &mut Frame<H, A>,
    dict: &Handle<A>,
) -> Result<Pair<A>, Fault>
    requires { OwnsOne frame.old dict.now }
    ensures gains { IfOk result (λ pair. GainsValue frame.old frame.new pair.value) }
    ensures keeps { OnErr result (Keeps frame.old frame.new) }
    ensures unlocked { IsUnlocked frame.new }
{
    let place = asked.given.index(rt);
    match asked.given.way {
        Way::Late => dict_pair_value(rt, asked.objects, frame, dict, place),
        Way::AtOnce => try_dict_pair_value(asked.objects, frame, dict, place),
    }
}

/// Whether the key is that of the step, and the dictionary has so many pairs.
fn is_as_said<H: HasTable<A>, A: Allocator + Copy>(
    rt: &(impl Abort + Wait),
    asked: &Asked<'_, A>,
    frame: &mut Frame<H, A>,
    dict: &Handle<A>,
    key: &Key<A>,
    of: u32,
) -> bool
    requires { OwnsOne frame.old dict.now }
    ensures { Stays frame.old frame.new }
{
    if !asked.is_key(key) {
        return false;
    }
    len_of(rt, frame, dict) == Ok(of as usize)
}

/// What stands at the place, if it is beside this key and there are as many pairs as the call says.
fn copies_a_pair<H: HasTable<A>, A: Allocator + Copy>(
    rt: &(impl Abort + Wait),
    asked: &Asked<'_, A>,
    frame: &mut Frame<H, A>,
    dict: &Handle<A>,
) -> Came
    requires { OwnsOne frame.old dict.now }
    ensures { Stays frame.old frame.new }
{
    match pair(rt, asked, frame, dict) {
        Ok(found) => {
            let Pair { key, value, of } = found;
            let came = looks(rt, frame, value);
            if is_as_said(rt, asked, frame, dict, &key, of) {
                came
            } else {
                Came::Said(false)
            }
        }
        Err(fault) => Came::Refused(fault),
    }
}

/// The call, and what is seen then.
pub(super) fn on_value<H: HasTable<A>, A: Allocator + Copy>(
    rt: &(impl Abort + Wait),
    asked: &Asked<'_, A>,
    frame: &mut Frame<H, A>,
    object: &Handle<A>,
    call: OnValue,
) -> Came
    requires { OwnsOne frame.old object.now }
    ensures { Stays frame.old frame.new }
{
    match call {
        OnValue::ListPush => puts(rt, asked, frame, object, PutBy::Push),
        OnValue::ListSet => {
            let index = asked.given.index(rt);
            puts(rt, asked, frame, object, PutBy::Set(index))
        }
        OnValue::ListPut => {
            let index = asked.given.index(rt);
            puts(rt, asked, frame, object, PutBy::PutAt(index))
        }
        OnValue::Send => puts(rt, asked, frame, object, PutBy::Send),
        OnValue::DictSet => puts(rt, asked, frame, object, PutBy::Put(asked.key_ref())),
        OnValue::DictPutNew => puts(rt, asked, frame, object, PutBy::PutNew(asked.key_ref())),
        OnValue::ListPop => gives(rt, asked, frame, object, GiveBy::Pop),
        OnValue::ListGet => {
            let index = asked.given.index(rt);
            gives(rt, asked, frame, object, GiveBy::Get(index))
        }
        OnValue::ListTake => {
            let index = asked.given.index(rt);
            gives(rt, asked, frame, object, GiveBy::Take(index))
        }
        OnValue::Recv => gives(rt, asked, frame, object, GiveBy::Receive),
        OnValue::DictFind => gives(rt, asked, frame, object, GiveBy::Find(asked.key_ref())),
        OnValue::DictDel => gives(rt, asked, frame, object, GiveBy::Delete(asked.key_ref())),
        OnValue::DictPair => copies_a_pair(rt, asked, frame, object),
    }
}
