//! Steps on one object, by its handle: calls that take a key of their own, copies, and what is done under a guard.

ghost use Rattle.std.specs.Prelude.{◌≡◌, IfErr, IfOk, IfSome, OnErr};
ghost use Rattle.brc_count.specs.Frames.{IsUnlocked};
ghost use Rattle.brc_count.specs.Owned.{Keeps};
ghost use Rattle.brc_things.specs.Putting.{OwnsPut};
ghost use Rattle.test_heap.specs.Calls.{Adds, OwnsBoth, OwnsOne, Parts, Stays};

use crate::tests::calls::OnObject;
use crate::tests::came::Came;
use crate::tests::guards::{Entry, ToLock, had_by_guard, put_by_guard, puts_a_pair, swap_by_guard};
use crate::tests::steps::{Asked, Beside, Way, make_of};
use brc_count::biased::HasTable;
use brc_count::{Frame, HandedBack, Handle};
use brc_places::make_by;
use brc_things::{
    dict_del, dict_find, dict_key, dict_key_by, dict_pair, dict_put, int_of, kind_of, text_into,
    try_dict_del, try_dict_find, try_dict_key, try_dict_key_by, try_dict_pair, try_dict_put,
    try_text_into,
};
use brc_words::Key;
use std::alloc::Allocator;
use std::process::Abort;
use std::sync::Wait;

/// What a handle is to, which goes then.
fn looks<H: HasTable<A>, A: Allocator>(
    rt: &(impl Abort + Wait),
    frame: &mut Frame<H, A>,
    handle: Handle<A>,
) -> Came
    requires { OwnsOne frame.old handle }
    ensures { Parts frame.old frame.new handle }
{
    let came = match int_of(rt, frame, &handle) {
        Ok(number) => Came::Int(number),
        Err(_) => Came::Of(kind_of(rt, frame, &handle)),
    };
    frame.release(handle);
    came
}

/// A value that is made for the step.
fn value<H: HasTable<A>, A: Allocator + Copy>(
    rt: &impl Abort,
    asked: &Asked<'_, A>,
    frame: &mut Frame<H, A>,
) -> Handle<A>
    requires unlocked { IsUnlocked frame.old }
    ensures { Adds frame.old frame.new result }
{
    make_by(asked.objects, frame, make_of(rt, asked.given.what)).expect(rt, "no value is made")
}

/// The value goes beside the key, by the form of the call that is meant. What stood there comes out with the value's
/// handle, and a refusal hands both back.
fn put_by<H: HasTable<A>, A: Allocator + Copy>(
    rt: &impl Wait,
    way: Way,
    frame: &mut Frame<H, A>,
    dict: &Handle<A>,
    key: Key<A>,
    value: Handle<A>,
) -> Result<Option<Handle<A>>, HandedBack<(Key<A>, Handle<A>)>>
    requires { OwnsBoth frame.old dict.now value }
    ensures owns { IfOk result (OwnsPut frame.old frame.new value) }
    ensures same { IfOk result (λ answer. IfSome answer (λ old. old ≡ value)) }
    ensures keeps { OnErr result (Keeps frame.old frame.new) }
    ensures back { IfErr result (λ handed. handed.value.1 ≡ value) }
    ensures unlocked { IsUnlocked frame.new }
{
    match way {
        Way::Late => dict_put(rt, frame, dict, key, value),
        Way::AtOnce => try_dict_put(frame, dict, key, value),
    }
}

/// A value goes beside a key of its own. A refusal hands both back.
fn puts<H: HasTable<A>, A: Allocator + Copy>(
    rt: &(impl Abort + Wait),
    asked: &Asked<'_, A>,
    frame: &mut Frame<H, A>,
    dict: &Handle<A>,
) -> Came
    requires { OwnsOne frame.old dict.now }
    ensures { Stays frame.old frame.new }
{
    let value = value(rt, asked, frame);
    let (way, key) = (asked.given.way, asked.key(rt));
    match put_by(rt, way, frame, dict, key, value) {
        Ok(None) => Came::Passed,
        Ok(Some(old)) => looks(rt, frame, old),
        Err(handed) => {
            let (fault, (key, back)) = handed.parts();
            assert!(rt; asked.is_key(&key));
            frame.release(back);
            Came::Refused(fault)
        }
    }
}

/// What stands beside a key of its own.
fn finds<H: HasTable<A>, A: Allocator + Copy>(
    rt: &(impl Abort + Wait),
    asked: &Asked<'_, A>,
    frame: &mut Frame<H, A>,
    dict: &Handle<A>,
) -> Came
    requires { OwnsOne frame.old dict.now }
    ensures { Stays frame.old frame.new }
{
    let (way, key) = (asked.given.way, asked.key(rt));
    let found = match way {
        Way::Late => dict_find(rt, frame, dict, &key),
        Way::AtOnce => try_dict_find(frame, dict, &key),
    };
    match found {
        Ok(handle) => looks(rt, frame, handle),
        Err(fault) => Came::Refused(fault),
    }
}

/// The same, which goes from there.
fn deletes<H: HasTable<A>, A: Allocator + Copy>(
    rt: &(impl Abort + Wait),
    asked: &Asked<'_, A>,
    frame: &mut Frame<H, A>,
    dict: &Handle<A>,
) -> Came
    requires { OwnsOne frame.old dict.now }
    ensures { Stays frame.old frame.new }
{
    let (way, key) = (asked.given.way, asked.key(rt));
    let found = match way {
        Way::Late => dict_del(rt, frame, dict, &key),
        Way::AtOnce => try_dict_del(frame, dict, &key),
    };
    match found {
        Ok(handle) => looks(rt, frame, handle),
        Err(fault) => Came::Refused(fault),
    }
}

/// Whether the key at the place is this one.
fn copies_a_key<H: HasTable<A>, A: Allocator + Copy>(
    rt: &(impl Abort + Wait),
    asked: &Asked<'_, A>,
    frame: &mut Frame<H, A>,
    dict: &Handle<A>,
) -> Came
    requires { OwnsOne frame.old dict.now }
    ensures { Stays frame.old frame.new }
{
    let place = asked.given.index(rt);
    let found = match asked.given.way {
        Way::Late => dict_key(rt, asked.objects, frame, dict, place),
        Way::AtOnce => try_dict_key(asked.objects, frame, dict, place),
    };
    match found {
        Ok(key) => Came::Said(asked.is_key(&key)),
        Err(fault) => Came::Refused(fault),
    }
}

/// What stands at the place, if it is beside this key.
fn copies_a_pair<H: HasTable<A>, A: Allocator + Copy>(
    rt: &(impl Abort + Wait),
    asked: &Asked<'_, A>,
    frame: &mut Frame<H, A>,
    dict: &Handle<A>,
) -> Came
    requires { OwnsOne frame.old dict.now }
    ensures { Stays frame.old frame.new }
{
    let place = asked.given.index(rt);
    let found = match asked.given.way {
        Way::Late => dict_pair(rt, asked.objects, frame, dict, place),
        Way::AtOnce => try_dict_pair(asked.objects, frame, dict, place),
    };
    match found {
        Ok((key, handle)) => {
            let came = looks(rt, frame, handle);
            if asked.is_key(&key) {
                came
            } else {
                Came::Said(false)
            }
        }
        Err(fault) => Came::Refused(fault),
    }
}

/// At which place the key stands that is lent.
fn seeks<H: HasTable<A>, A: Allocator + Copy>(
    rt: &(impl Abort + Wait),
    asked: &Asked<'_, A>,
    frame: &mut Frame<H, A>,
    dict: &Handle<A>,
) -> Came
    requires { OwnsOne frame.old dict.now }
    ensures { Stays frame.old frame.new }
{
    let found = match asked.given.way {
        Way::Late => dict_key_by(rt, frame, dict, asked.key_ref()),
        Way::AtOnce => try_dict_key_by(frame, dict, asked.key_ref()),
    };
    match found {
        Ok(place) => Came::Count(u64::from(place)),
        Err(fault) => Came::Refused(fault),
    }
}

/// Whether the text is as the row says, in a buffer.
fn copies_into<H: HasTable<A>, A: Allocator + Copy>(
    rt: &(impl Abort + Wait),
    asked: &Asked<'_, A>,
    frame: &mut Frame<H, A>,
    object: &Handle<A>,
) -> Came
    requires { OwnsOne frame.old object.now }
    ensures { Stays frame.old frame.new }
{
    let mut buffer = String::new(asked.objects);
    let copied = match asked.given.way {
        Way::Late => text_into(rt, frame, object, &mut buffer),
        Way::AtOnce => try_text_into(frame, object, &mut buffer),
    };
    match copied {
        Ok(()) => Came::Said(buffer.as_str() == asked.given.answer),
        Err(fault) => Came::Refused(fault),
    }
}

/// A value goes into a list by a guard. A refusal hands it back.
fn puts_by_guard<H: HasTable<A>, A: Allocator + Copy>(
    rt: &(impl Abort + Wait),
    asked: &Asked<'_, A>,
    frame: &mut Frame<H, A>,
    to_lock: ToLock<'_, A>,
) -> Came
    requires { OwnsOne frame.old to_lock.container.now }
    ensures { Stays frame.old frame.new }
{
    let value = value(rt, asked, frame);
    match put_by_guard(rt, frame, to_lock, value) {
        Ok(()) => Came::Passed,
        Err(HandedBack { fault, value: back }) => {
            frame.release(back);
            Came::Refused(fault)
        }
    }
}

/// A value goes into an empty dictionary by a guard, beside this number.
fn pairs_by_guard<H: HasTable<A>, A: Allocator + Copy>(
    rt: &(impl Abort + Wait),
    asked: &Asked<'_, A>,
    frame: &mut Frame<H, A>,
    to_lock: ToLock<'_, A>,
) -> Came
    requires { OwnsOne frame.old to_lock.container.now }
    ensures { Stays frame.old frame.new }
{
    let Beside::Int(key) = asked.given.beside else {
        panic!(rt; "the key is no number")
    };
    let value = value(rt, asked, frame);
    puts_a_pair(rt, frame, to_lock, key, value);
    Came::Passed
}

/// An entry of a list, by a guard.
fn gets_by_guard<H: HasTable<A>, A: Allocator + Copy>(
    rt: &(impl Abort + Wait),
    asked: &Asked<'_, A>,
    frame: &mut Frame<H, A>,
    to_lock: ToLock<'_, A>,
    entry: Entry,
) -> Came
    requires { OwnsOne frame.old to_lock.container.now }
    ensures { Stays frame.old frame.new }
{
    match had_by_guard(rt, frame, to_lock, asked.given.index(rt), entry) {
        Ok(handle) => looks(rt, frame, handle),
        Err(fault) => Came::Refused(fault),
    }
}

/// A value and an entry of a list change places by a guard.
fn swaps_by_guard<H: HasTable<A>, A: Allocator + Copy>(
    rt: &(impl Abort + Wait),
    asked: &Asked<'_, A>,
    frame: &mut Frame<H, A>,
    to_lock: ToLock<'_, A>,
) -> Came
    requires { OwnsOne frame.old to_lock.container.now }
    ensures { Stays frame.old frame.new }
{
    let index = asked.given.index(rt);
    let value = value(rt, asked, frame);
    let old = swap_by_guard(rt, frame, to_lock, index, value);
    looks(rt, frame, old)
}

/// The call, and what is seen then.
pub(super) fn on_object<H: HasTable<A>, A: Allocator + Copy>(
    rt: &(impl Abort + Wait),
    asked: &Asked<'_, A>,
    frame: &mut Frame<H, A>,
    object: &Handle<A>,
    call: OnObject,
) -> Came
    requires { OwnsOne frame.old object.now }
    ensures { Stays frame.old frame.new }
{
    let to_lock = ToLock {
        container: object,
        way: asked.given.way,
    };
    match call {
        OnObject::DictPut => puts(rt, asked, frame, object),
        OnObject::DictFind => finds(rt, asked, frame, object),
        OnObject::DictDel => deletes(rt, asked, frame, object),
        OnObject::DictKey => copies_a_key(rt, asked, frame, object),
        OnObject::DictPair => copies_a_pair(rt, asked, frame, object),
        OnObject::DictKeyBy => seeks(rt, asked, frame, object),
        OnObject::TextInto => copies_into(rt, asked, frame, object),
        OnObject::GuardPut => puts_by_guard(rt, asked, frame, to_lock),
        OnObject::GuardPair => pairs_by_guard(rt, asked, frame, to_lock),
        OnObject::GuardEntry => gets_by_guard(rt, asked, frame, to_lock, Entry::Stays),
        OnObject::GuardTake => gets_by_guard(rt, asked, frame, to_lock, Entry::Goes),
        OnObject::GuardSwap => swaps_by_guard(rt, asked, frame, to_lock),
    }
}
