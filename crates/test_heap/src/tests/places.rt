//! Steps on a thread's places: what is made, retained, read, given and released there.

ghost use Rattle.std.specs.Prelude.{◌≡◌, []};
ghost use Rattle.test_heap.specs.Calls.{OwnsAll};

use crate::tests::calls::OnPlaces;
use crate::tests::came::Came;
use crate::tests::containers::{gives, nests, reads, takes};
use crate::tests::steps::{Asked, make_of};
use brc_count::biased::HasTable;
use brc_count::{Frame, HandedBack};
use brc_handles::Handles;
use brc_places::{GiveBy, TakeBy, To, int_at, kind_at, make_at};
use brc_things::{new_text, none};
use brc_words::{Fault, Text};
use std::alloc::Allocator;
use std::mem;
use std::process::Abort;
use std::sync::Wait;

/// The cell of the object in this place.
pub(super) fn cell_at<H: HasTable<A>, A: Allocator>(
    rt: &impl Abort,
    frame: &Frame<H, A>,
    handles: &Handles<A>,
    place: usize,
) -> Came
    requires { OwnsAll frame.now handles.now }
{
    let handle = handles.get(place).expect(rt, "the place is empty");
    assert!(rt; frame.owns(handle));
    Came::Cell(frame.cell(handle))
}

/// The number of the last place.
pub(super) fn last<A: Allocator>(rt: &impl Abort, handles: &Handles<A>) -> usize {
    handles.len().checked_sub(1).expect(rt, "there is no place")
}

/// What is in the place; nothing, where it is empty.
pub(super) fn looks_at<R: Abort + Wait, H: HasTable<A>, A: Allocator>(
    rt: &R,
    frame: &mut Frame<H, A>,
    handles: &Handles<A>,
    place: usize,
) -> Came
    requires { OwnsAll frame.old handles.now }
    ensures all { OwnsAll frame.new handles.now }
    ensures heap { frame.new.heap ≡ frame.old.heap }
{
    match int_at(rt, frame, handles, place) {
        Ok(number) => Came::Int(number),
        Err(Fault::NoSuchPlace) => Came::Passed,
        Err(_) => match kind_at(rt, frame, handles, place) {
            Ok(kind) => Came::Of(kind),
            Err(fault) => Came::Refused(fault),
        },
    }
}

/// The last place goes, and what is in it.
pub(super) fn last_goes<H: HasTable<A>, A: Allocator>(
    frame: &mut Frame<H, A>,
    handles: &mut Handles<A>,
)
    requires { OwnsAll frame.old handles.old }
    ensures all { OwnsAll frame.new handles.new }
    ensures heap { frame.new.heap ≡ frame.old.heap }
{
    match handles.pop_out(frame) {
        Some(Some(handle)) => frame.release(handle),
        Some(None) => {}
        None => {}
    }
}

/// What is made, and its cell.
fn makes<H: HasTable<A>, A: Allocator + Copy>(
    rt: &impl Abort,
    asked: &Asked<'_, A>,
    frame: &mut Frame<H, A>,
    handles: &mut Handles<A>,
) -> Came
    requires { OwnsAll frame.old handles.old }
    ensures all { OwnsAll frame.new handles.new }
    ensures heap { frame.new.heap ≡ frame.old.heap }
{
    let to = asked.given.to.unwrap_or(To::Last);
    match make_at(
        asked.objects,
        frame,
        handles,
        make_of(rt, asked.given.what),
        to,
    ) {
        Err(fault) => Came::Refused(fault),
        Ok(()) => match to {
            To::Place(place) => cell_at(rt, frame, handles, place),
            To::Last => {
                let place = last(rt, handles);
                cell_at(rt, frame, handles, place)
            }
        },
    }
}

/// A text of its own becomes an object, which has this cell. A refusal hands the text back as it was.
fn makes_text<H: HasTable<A>, A: Allocator + Copy>(
    rt: &impl Abort,
    asked: &Asked<'_, A>,
    frame: &mut Frame<H, A>,
    handles: &mut Handles<A>,
) -> Came
    requires { OwnsAll frame.old handles.old }
    ensures all { OwnsAll frame.new handles.new }
    ensures heap { frame.new.heap ≡ frame.old.heap }
{
    let own = String::from_str(asked.ample, asked.given.what).expect(rt, "memory");
    match new_text(asked.objects, frame, Text::new(own)) {
        Ok(handle) => {
            let cell = frame.cell(&handle);
            assert!(rt; handles.keep(frame, handle).is_ok());
            Came::Cell(cell)
        }
        Err(HandedBack { fault, value: back }) => {
            assert!(rt; back.as_bytes() == asked.given.what.as_bytes());
            Came::Refused(fault)
        }
    }
}

/// One reference more to what is in the place, and its cell.
fn retains<H: HasTable<A>, A: Allocator>(
    rt: &impl Abort,
    frame: &mut Frame<H, A>,
    handles: &mut Handles<A>,
    place: usize,
) -> Came
    requires { OwnsAll frame.old handles.old }
    ensures all { OwnsAll frame.new handles.new }
    ensures heap { frame.new.heap ≡ frame.old.heap }
{
    assert!(rt; handles.get(place).is_some());
    match handles.retain(frame, place) {
        Ok(()) => {
            let place = last(rt, handles);
            cell_at(rt, frame, handles, place)
        }
        Err(fault) => Came::Refused(fault),
    }
}

/// None is kept; where its place is refused it is released.
fn keeps_none<H: HasTable<A>, A: Allocator>(
    rt: &impl Abort,
    frame: &mut Frame<H, A>,
    handles: &mut Handles<A>,
) -> Came
    requires { OwnsAll frame.old handles.old }
    ensures all { OwnsAll frame.new handles.new }
    ensures heap { frame.new.heap ≡ frame.old.heap }
{
    let handle = none(frame).expect(rt, "no None is had");
    Came::of(handles.keep(frame, handle))
}

/// None is pushed; a refusal hands it back.
fn pushes_none<H: HasTable<A>, A: Allocator>(
    rt: &impl Abort,
    frame: &mut Frame<H, A>,
    handles: &mut Handles<A>,
) -> Came
    requires { OwnsAll frame.old handles.old }
    ensures all { OwnsAll frame.new handles.new }
    ensures heap { frame.new.heap ≡ frame.old.heap }
{
    let handle = none(frame).expect(rt, "no None is had");
    match handles.push(handle) {
        Ok(()) => Came::Passed,
        Err(HandedBack { fault, value: back }) => {
            frame.release(back);
            Came::Refused(fault)
        }
    }
}

/// Whether so many places can be had, of the same memory as objects.
fn has_places<A: Allocator + Copy>(rt: &impl Abort, asked: &Asked<'_, A>) -> Came {
    match Handles::with_places(asked.objects, asked.given.place(rt)) {
        Ok(places) => {
            places.spend();
            Came::Passed
        }
        Err(_) => Came::Refused(Fault::OutOfMemory),
    }
}

/// What is in the place goes, which is empty then: its cell.
fn goes<H: HasTable<A>, A: Allocator>(
    rt: &impl Abort,
    frame: &mut Frame<H, A>,
    handles: &mut Handles<A>,
    place: usize,
) -> Came
    requires { OwnsAll frame.old handles.old }
    ensures all { OwnsAll frame.new handles.new }
    ensures heap { frame.new.heap ≡ frame.old.heap }
{
    let cell = cell_at(rt, frame, handles, place);
    assert!(rt; place < handles.len());
    handles.release(frame, place);
    cell
}

/// Whether what is in the place goes by itself, since the thread has another count of the object. Else it is handed
/// back, and is in its place still.
fn goes_counted<H: HasTable<A>, A: Allocator>(
    rt: &impl Abort,
    frame: &mut Frame<H, A>,
    handles: &mut Handles<A>,
    place: usize,
) -> Came
    requires { OwnsAll frame.old handles.old }
    ensures all { OwnsAll frame.new handles.new }
    ensures heap { frame.new.heap ≡ frame.old.heap }
{
    let Some(handle) = handles.take_out(frame, place) else {
        return Came::Refused(Fault::NoSuchPlace);
    };
    match frame.release_counted(handle) {
        Ok(()) => Came::Is(true),
        Err(back) => match handles.put_in(frame, place, back) {
            Ok(None) => Came::Is(false),
            Ok(Some(_other)) => panic!(rt; "the place was empty"),
            Err(_handed) => panic!(rt; "the place was there"),
        },
    }
}

/// All that is kept goes, by rising number.
pub(super) fn all_go<H: HasTable<A>, A: Allocator>(
    alloc: A,
    frame: &mut Frame<H, A>,
    handles: &mut Handles<A>,
)
    requires { OwnsAll frame.old handles.old }
    ensures all { OwnsAll frame.new handles.new }
    ensures heap { frame.new.heap ≡ frame.old.heap }
    ensures bare { frame.new.len ≡ 0 }
    ensures none { handles.new ≡ [] }
{
    let all = mem::replace(handles, Handles::new(alloc));
    all.release_all(frame);
}

/// The call, and what is seen then.
pub(super) fn on_places<R: Abort + Wait, H: HasTable<A>, A: Allocator + Copy>(
    rt: &R,
    asked: &Asked<'_, A>,
    frame: &mut Frame<H, A>,
    handles: &mut Handles<A>,
    call: OnPlaces,
) -> Came
    requires { OwnsAll frame.old handles.old }
    ensures all { OwnsAll frame.new handles.new }
    ensures heap { frame.new.heap ≡ frame.old.heap }
{
    let given = asked.given;
    match call {
        OnPlaces::Make => makes(rt, asked, frame, handles),
        OnPlaces::NewText => makes_text(rt, asked, frame, handles),
        OnPlaces::Retain => retains(rt, frame, handles, given.place(rt)),
        OnPlaces::Duplicate => {
            let place = last(rt, handles);
            retains(rt, frame, handles, place)
        }
        OnPlaces::Drop => {
            last_goes(frame, handles);
            Came::Passed
        }
        OnPlaces::KeepNone => keeps_none(rt, frame, handles),
        OnPlaces::PushNone => pushes_none(rt, frame, handles),
        OnPlaces::WithPlaces => has_places(rt, asked),
        OnPlaces::Release => goes(rt, frame, handles, given.place(rt)),
        OnPlaces::ReleaseCounted => goes_counted(rt, frame, handles, given.place(rt)),
        OnPlaces::ReleaseAll => {
            all_go(asked.ample, frame, handles);
            Came::Passed
        }
        OnPlaces::Nest => nests(rt, asked, frame, handles, given.place(rt)),
        OnPlaces::Cell => cell_at(rt, frame, handles, given.place(rt)),
        OnPlaces::KindOf | OnPlaces::LenOf | OnPlaces::IntOf | OnPlaces::TextOf => {
            reads(rt, asked, frame, handles, call)
        }
        OnPlaces::ListPush => takes(rt, asked, frame, handles, TakeBy::Push),
        OnPlaces::ListSet => {
            let by = TakeBy::Set(given.index(rt));
            takes(rt, asked, frame, handles, by)
        }
        OnPlaces::Send => takes(rt, asked, frame, handles, TakeBy::Send),
        OnPlaces::DictSet => takes(rt, asked, frame, handles, TakeBy::Put(asked.key_ref())),
        OnPlaces::ListPop => gives(rt, asked, frame, handles, GiveBy::Pop),
        OnPlaces::ListGet => gives(rt, asked, frame, handles, GiveBy::Get(given.index(rt))),
        OnPlaces::ListTake => gives(rt, asked, frame, handles, GiveBy::Take(given.index(rt))),
        OnPlaces::Recv => gives(rt, asked, frame, handles, GiveBy::Receive),
        OnPlaces::DictFindBy => gives(rt, asked, frame, handles, GiveBy::Find(asked.key_ref())),
        OnPlaces::DictDelBy => gives(rt, asked, frame, handles, GiveBy::Delete(asked.key_ref())),
    }
}
