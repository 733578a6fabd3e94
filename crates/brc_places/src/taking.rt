//! What a container takes: the reference of a value, out of its place.

ghost use Rattle.std.specs.Prelude.{◌≡◌, ◌≢◌, ◌<◌, Some, None, IfOk, IfErr, IfSome, OnOk, OnErr, MatchOption, length};
ghost use Rattle.std.specs.Prelude.{slice_set};
ghost use Rattle.brc_words.specs.declared.fault.Fault.TheVariants as faults;
ghost use Rattle.brc_count.specs.Frames.{IsUnlocked, Owns};
ghost use Rattle.brc_count.specs.Owned.{Keeps, Loses};
ghost use Rattle.brc_handles.specs.Handles.{slot, IsApart, ComesIn, OwnsEach};
ghost use Rattle.brc_handles.specs.Standing.{KeepsStanding};
ghost use Rattle.brc_places.specs.Calls.{TookBy, TookLate};
ghost use Rattle.brc_places.specs.Placing.{TakesFrom, TakesNot};

use brc_count::biased::HasTable;
use brc_count::block::KeyRef;
use brc_count::{Frame, HandedBack, Handle};
use brc_handles::Handles;
use brc_things::{
    dict_set, list_push, list_set, send, try_dict_set, try_list_push, try_list_set, try_send,
};
use brc_words::Fault;
use std::alloc::Allocator;
use std::sync::Wait;

/// By which call a container takes a reference, and so what comes out for it: nothing, or what was there.
#[derive(Clone, Copy, Debug, PartialEq, Eq)]
pub enum TakeBy<'k> {
    /// `list_push`: it becomes a list's last entry.
    Push,
    /// `list_set`: it takes the place of a list's entry, which comes out.
    Set(u32),
    /// `send`: it becomes a mailbox's last letter.
    Send,
    /// `dict_set`: it goes beside the key in a dictionary, and what was there comes out.
    Put(KeyRef<'k>),
}

/// The value goes by the call, once no other thread has the object locked, and what was there comes out; or it is handed
/// back with the fault, which is never Busy.
#[inline(always)]
pub fn take_by<H: HasTable<A>, A: Allocator + Copy>(
    rt: &impl Wait,
    alloc: A,
    frame: &mut Frame<H, A>,
    object: &Handle<A>,
    by: TakeBy<'_>,
    given: Handle<A>,
) -> Result<Option<Handle<A>>, HandedBack<Handle<A>>>
    requires owned { Owns frame.old object.now }
    requires value_owned { Owns frame.old given }
    requires apart { given.place ≢ object.now.place }
    requires unlocked { IsUnlocked frame.old }
    ensures did { TookLate by.entry frame.old frame.new object.now.place given result }
    ensures owns { IfOk result (λ answer. MatchOption answer (Loses frame.old frame.new given)
        (λ old. Keeps frame.old frame.new × (old ≡ given))) }
    ensures keeps { OnErr result (Keeps frame.old frame.new) }
    ensures unlocked { IsUnlocked frame.new }
    ensures back { IfErr result (λ handed. handed.value ≡ given) }
    ensures waited { IfErr result (λ handed. handed.fault ≢ faults.Busy) }
{
    match by {
        TakeBy::Push => match list_push(rt, frame, object, given) {
            Ok(()) => Ok(None),
            Err(handed) => Err(handed),
        },
        TakeBy::Set(index) => match list_set(rt, frame, object, index, given) {
            Ok(old) => Ok(Some(old)),
            Err(handed) => Err(handed),
        },
        TakeBy::Send => match send(rt, frame, object, given) {
            Ok(()) => Ok(None),
            Err(handed) => Err(handed),
        },
        TakeBy::Put(key) => match dict_set(rt, alloc, frame, object, key, given) {
            Ok(None) => Ok(None),
            Ok(Some(old)) => Ok(Some(old)),
            Err(handed) => Err(handed),
        },
    }
}

/// The same in the form that never waits: Busy, where another thread has the object locked, comes first.
#[inline(always)]
pub fn try_take_by<H: HasTable<A>, A: Allocator + Copy>(
    alloc: A,
    frame: &mut Frame<H, A>,
    object: &Handle<A>,
    by: TakeBy<'_>,
    given: Handle<A>,
) -> Result<Option<Handle<A>>, HandedBack<Handle<A>>>
    requires owned { Owns frame.old object.now }
    requires value_owned { Owns frame.old given }
    requires apart { given.place ≢ object.now.place }
    requires unlocked { IsUnlocked frame.old }
    ensures did { TookBy by.entry frame.old frame.new object.now.place given result }
    ensures owns { IfOk result (λ answer. MatchOption answer (Loses frame.old frame.new given)
        (λ old. Keeps frame.old frame.new × (old ≡ given))) }
    ensures keeps { OnErr result (Keeps frame.old frame.new) }
    ensures unlocked { IsUnlocked frame.new }
    ensures back { IfErr result (λ handed. handed.value ≡ given) }
{
    match by {
        TakeBy::Push => match try_list_push(frame, object, given) {
            Ok(()) => Ok(None),
            Err(handed) => Err(handed),
        },
        TakeBy::Set(index) => match try_list_set(frame, object, index, given) {
            Ok(old) => Ok(Some(old)),
            Err(handed) => Err(handed),
        },
        TakeBy::Send => match try_send(frame, object, given) {
            Ok(()) => Ok(None),
            Err(handed) => Err(handed),
        },
        TakeBy::Put(key) => match try_dict_set(alloc, frame, object, key, given) {
            Ok(None) => Ok(None),
            Ok(Some(old)) => Ok(Some(old)),
            Err(handed) => Err(handed),
        },
    }
}

/// A handle goes into a place that is empty.
#[inline(always)]
fn put_back<A: Allocator>(handles: &mut Handles<A>, index: usize, handle: Handle<A>)
    requires inside { index < length handles.old }
    requires empty { slot handles.old index ≡ None }
    requires apart { IsApart handle handles.old }
    ensures set { handles.new ≡ slice_set handles.old index (Some handle) }
    ensures comes { ComesIn handles.old handles.new handle }
{
    match handles.put(index, handle) {
        None => {}
        Some(_gone) => unreachable!(),
    }
}

/// The handle in the value's place goes into the container in another place, once no other thread has that locked. The
/// value's place has what came out for it then, which lies in the same place of the frame, or is empty. NoSuchPlace
/// where no handle is in one of them, or they are one place; then what the call answers (`brc_things`): the
/// value stays in its place.
pub fn take_at<H: HasTable<A>, A: Allocator + Copy>(
    rt: &impl Wait,
    alloc: A,
    frame: &mut Frame<H, A>,
    handles: &mut Handles<A>,
    container: usize,
    by: TakeBy<'_>,
    value: usize,
) -> Result<(), Fault>
    requires each { OwnsEach frame.old handles.old }
    requires unlocked { IsUnlocked frame.old }

    ensures stands { KeepsStanding frame.old frame.new handles.old handles.new }
    ensures took { OnOk result
        (TakesFrom (TookLate by.entry frame.old) frame.new handles.old handles.new container value) }
    ensures refused { IfErr result
        (TakesNot (TookLate by.entry frame.old) frame.old frame.new handles.old container value) }
    ensures keeps { OnErr result (Keeps frame.old frame.new) }
    ensures came { OnOk result (IfSome (slot handles.new value) (λ came. slot handles.old value ≡ Some came)) }
    ensures unchanged { OnErr result (handles.new ≡ handles.old) }
    ensures waited { IfErr result (λ fault. fault ≢ faults.Busy) }
{
    let Some(given) = handles.take_out(frame, value) else {
        return Err(Fault::NoSuchPlace);
    };
    let Some(object) = handles.get(container) else {
        put_back(handles, value, given);
        return Err(Fault::NoSuchPlace);
    };
    match take_by(rt, alloc, frame, object, by, given) {
        Ok(None) => Ok(()),
        Ok(Some(old)) => {
            put_back(handles, value, old);
            Ok(())
        }
        Err(handed) => {
            put_back(handles, value, handed.value);
            Err(handed.fault)
        }
    }
}

/// The same without waiting: Busy, where another thread has the container locked, comes after NoSuchPlace and before
/// what else the call answers.
pub fn try_take_at<H: HasTable<A>, A: Allocator + Copy>(
    alloc: A,
    frame: &mut Frame<H, A>,
    handles: &mut Handles<A>,
    container: usize,
    by: TakeBy<'_>,
    value: usize,
) -> Result<(), Fault>
    requires each { OwnsEach frame.old handles.old }
    requires unlocked { IsUnlocked frame.old }

    ensures stands { KeepsStanding frame.old frame.new handles.old handles.new }
    ensures took { OnOk result
        (TakesFrom (TookBy by.entry frame.old) frame.new handles.old handles.new container value) }
    ensures refused { IfErr result
        (TakesNot (TookBy by.entry frame.old) frame.old frame.new handles.old container value) }
    ensures keeps { OnErr result (Keeps frame.old frame.new) }
    ensures came { OnOk result (IfSome (slot handles.new value) (λ came. slot handles.old value ≡ Some came)) }
    ensures unchanged { OnErr result (handles.new ≡ handles.old) }
{
    let Some(given) = handles.take_out(frame, value) else {
        return Err(Fault::NoSuchPlace);
    };
    let Some(object) = handles.get(container) else {
        put_back(handles, value, given);
        return Err(Fault::NoSuchPlace);
    };
    match try_take_by(alloc, frame, object, by, given) {
        Ok(None) => Ok(()),
        Ok(Some(old)) => {
            put_back(handles, value, old);
            Ok(())
        }
        Err(handed) => {
            put_back(handles, value, handed.value);
            Err(handed.fault)
        }
    }
}
