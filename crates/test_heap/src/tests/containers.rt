//! Steps on a container in a place: what it takes and gives, and what is read of an object there.

ghost use Rattle.std.specs.Prelude.{◌≡◌};
ghost use Rattle.test_heap.specs.Calls.{OwnsAll};

use crate::tests::calls::OnPlaces;
use crate::tests::came::Came;
use crate::tests::places::{cell_at, last, last_goes, looks_at};
use crate::tests::steps::{Asked, Value, Way};
use brc_count::Frame;
use brc_count::biased::HasTable;
use brc_handles::Handles;
use brc_places::{
    GiveBy, Make, TakeBy, To, give_at, int_at, kind_at, len_at, make_at, take_at, text_at,
    try_give_at, try_int_at, try_kind_at, try_len_at, try_take_at, try_text_at,
};
use brc_words::Fault;
use std::alloc::Allocator;
use std::process::Abort;
use std::sync::Wait;

/// What is in the place becomes the entry of a new list, which is in the place then.
pub(super) fn nests<R: Abort + Wait, H: HasTable<A>, A: Allocator + Copy>(
    rt: &R,
    asked: &Asked<'_, A>,
    frame: &mut Frame<H, A>,
    handles: &mut Handles<A>,
    place: usize,
) -> Came
    requires { OwnsAll frame.old handles.old }
    ensures all { OwnsAll frame.new handles.new }
    ensures heap { frame.new.heap ≡ frame.old.heap }
{
    let made = make_at(asked.objects, frame, handles, Make::List, To::Last);
    assert!(rt; made == Ok(()));
    let list = last(rt, handles);
    match take_at(rt, asked.objects, frame, handles, list, TakeBy::Push, place) {
        Err(fault) => Came::Refused(fault),
        Ok(()) => {
            let swapped = handles.swap(frame, place, list);
            assert!(rt; swapped == Ok(()));
            last_goes(frame, handles);
            Came::Passed
        }
    }
}

/// The value in a place goes into the container in another one.
fn takes_from<R: Abort + Wait, H: HasTable<A>, A: Allocator + Copy>(
    rt: &R,
    asked: &Asked<'_, A>,
    frame: &mut Frame<H, A>,
    handles: &mut Handles<A>,
    by: TakeBy<'_>,
    value: usize,
) -> Result<(), Fault>
    requires { OwnsAll frame.old handles.old }
    ensures all { OwnsAll frame.new handles.new }
    ensures heap { frame.new.heap ≡ frame.old.heap }
{
    let into = asked.given.container(rt);
    match asked.given.way {
        Way::Late => take_at(rt, asked.objects, frame, handles, into, by, value),
        Way::AtOnce => try_take_at(asked.objects, frame, handles, into, by, value),
    }
}

/// The container takes the value. What comes out for it is seen, and goes where the value was made for the call.
pub(super) fn takes<R: Abort + Wait, H: HasTable<A>, A: Allocator + Copy>(
    rt: &R,
    asked: &Asked<'_, A>,
    frame: &mut Frame<H, A>,
    handles: &mut Handles<A>,
    by: TakeBy<'_>,
) -> Came
    requires { OwnsAll frame.old handles.old }
    ensures all { OwnsAll frame.new handles.new }
    ensures heap { frame.new.heap ≡ frame.old.heap }
{
    match asked.given.value(rt) {
        Value::Place(place) => match takes_from(rt, asked, frame, handles, by, place) {
            Ok(()) => looks_at(rt, frame, handles, place),
            Err(fault) => Came::Refused(fault),
        },
        Value::Made(make) => {
            let made = make_at(asked.objects, frame, handles, make, To::Last);
            assert!(rt; made == Ok(()), "no value is made");
            let place = last(rt, handles);
            let came = match takes_from(rt, asked, frame, handles, by, place) {
                Ok(()) => looks_at(rt, frame, handles, place),
                Err(fault) => {
                    assert!(rt; handles.get(place).is_some(), "the value isn't handed back");
                    Came::Refused(fault)
                }
            };
            last_goes(frame, handles);
            came
        }
    }
}

/// What the container gives. It is kept where the step says so, and its cell is seen; else it goes.
pub(super) fn gives<R: Abort + Wait, H: HasTable<A>, A: Allocator>(
    rt: &R,
    asked: &Asked<'_, A>,
    frame: &mut Frame<H, A>,
    handles: &mut Handles<A>,
    by: GiveBy<'_>,
) -> Came
    requires { OwnsAll frame.old handles.old }
    ensures all { OwnsAll frame.new handles.new }
    ensures heap { frame.new.heap ≡ frame.old.heap }
{
    let from = asked.given.place(rt);
    let to = asked.given.to.unwrap_or(To::Last);
    let gave = match asked.given.way {
        Way::Late => give_at(rt, frame, handles, from, by, to),
        Way::AtOnce => try_give_at(frame, handles, from, by, to),
    };
    if let Err(fault) = gave {
        return Came::Refused(fault);
    }
    let place = match to {
        To::Place(place) => place,
        To::Last => last(rt, handles),
    };
    if asked.given.to.is_some() {
        return cell_at(rt, frame, handles, place);
    }
    let came = looks_at(rt, frame, handles, place);
    last_goes(frame, handles);
    came
}

/// What is in a place is read.
pub(super) fn reads<R: Abort + Wait, H: HasTable<A>, A: Allocator + Copy>(
    rt: &R,
    asked: &Asked<'_, A>,
    frame: &mut Frame<H, A>,
    handles: &Handles<A>,
    call: OnPlaces,
) -> Came
    requires { OwnsAll frame.old handles.now }
    ensures all { OwnsAll frame.new handles.now }
    ensures heap { frame.new.heap ≡ frame.old.heap }
{
    let place = asked.given.place(rt);
    match call {
        OnPlaces::KindOf => {
            let kind = match asked.given.way {
                Way::Late => kind_at(rt, frame, handles, place),
                Way::AtOnce => try_kind_at(frame, handles, place),
            };
            match kind {
                Ok(kind) => Came::Of(kind),
                Err(fault) => Came::Refused(fault),
            }
        }
        OnPlaces::IntOf => {
            let number = match asked.given.way {
                Way::Late => int_at(rt, frame, handles, place),
                Way::AtOnce => try_int_at(frame, handles, place),
            };
            match number {
                Ok(number) => Came::Int(number),
                Err(fault) => Came::Refused(fault),
            }
        }
        OnPlaces::TextOf => {
            let text = match asked.given.way {
                Way::Late => text_at(rt, asked.objects, frame, handles, place),
                Way::AtOnce => try_text_at(asked.objects, frame, handles, place),
            };
            match text {
                Ok(text) => Came::Said(text.as_bytes() == asked.given.answer.as_bytes()),
                Err(fault) => Came::Refused(fault),
            }
        }
        _ => Came::of_count(match asked.given.way {
            Way::Late => len_at(rt, frame, handles, place),
            Way::AtOnce => try_len_at(frame, handles, place),
        }),
    }
}
