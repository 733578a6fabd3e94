//! What a container gives: the reference of an entry goes into a place.

ghost use Rattle.std.specs.Prelude.{◌≡◌, ◌≢◌, IfOk, IfErr, OnOk, OnErr};
ghost use Rattle.brc_words.specs.declared.fault.Fault.TheVariants as faults;
ghost use Rattle.brc_count.specs.Frames.{IsUnlocked, Owns};
ghost use Rattle.brc_count.specs.Owned.{Keeps, Gains};
ghost use Rattle.brc_handles.specs.Handles.{OwnsEach};
ghost use Rattle.brc_handles.specs.Standing.{KeepsStanding};
ghost use Rattle.brc_places.specs.Calls.{GaveBy, GaveLate};
ghost use Rattle.brc_places.specs.Placing.{GivesTo, GivesNot};

use crate::placing::{To, close, fill, open};
use brc_count::biased::HasTable;
use brc_count::block::KeyRef;
use brc_count::{Frame, Handle};
use brc_handles::Handles;
use brc_things::{
    dict_del_by, dict_find_by, list_get, list_pop, list_take, recv, try_dict_del_by,
    try_dict_find_by, try_list_get, try_list_pop, try_list_take, try_recv,
};
use brc_words::Fault;
use std::alloc::Allocator;
use std::sync::Wait;

/// By which call a container gives a reference.
#[derive(Clone, Copy, Debug, PartialEq, Eq)]
pub enum GiveBy<'k> {
    /// `list_pop`: a list's last entry comes out.
    Pop,
    /// `list_get`: the entry of a list at this index stays.
    Get(u32),
    /// `list_take`: it comes out, and later ones close up.
    Take(u32),
    /// `recv`: a mailbox's first letter comes out.
    Receive,
    /// `dict_find_by`: a dictionary's value beside the key stays.
    Find(KeyRef<'k>),
    /// `dict_del_by`: it comes out, and its pair goes.
    Delete(KeyRef<'k>),
}

/// What the object's call gives, once no other thread has the object locked; so it never answers Busy.
#[inline(always)]
pub fn give_by<H: HasTable<A>, A: Allocator>(
    rt: &impl Wait,
    frame: &mut Frame<H, A>,
    object: &Handle<A>,
    by: GiveBy<'_>,
) -> Result<Handle<A>, Fault>
    requires owned { Owns frame.old object.now }
    requires unlocked { IsUnlocked frame.old }
    ensures did { GaveLate by.entry frame.old frame.new object.now.place result }
    ensures gains { IfOk result (Gains frame.old frame.new) }
    ensures keeps { OnErr result (Keeps frame.old frame.new) }
    ensures unlocked { IsUnlocked frame.new }
    ensures waited { IfErr result (λ fault. fault ≢ faults.Busy) }
{
    match by {
        GiveBy::Pop => list_pop(rt, frame, object),
        GiveBy::Get(index) => list_get(rt, frame, object, index),
        GiveBy::Take(index) => list_take(rt, frame, object, index),
        GiveBy::Receive => recv(rt, frame, object),
        GiveBy::Find(key) => dict_find_by(rt, frame, object, key),
        GiveBy::Delete(key) => dict_del_by(rt, frame, object, key),
    }
}

/// The same in the form that never waits: Busy, where another thread has the object locked, comes first.
#[inline(always)]
pub fn try_give_by<H: HasTable<A>, A: Allocator>(
    frame: &mut Frame<H, A>,
    object: &Handle<A>,
    by: GiveBy<'_>,
) -> Result<Handle<A>, Fault>
    requires owned { Owns frame.old object.now }
    requires unlocked { IsUnlocked frame.old }
    ensures did { GaveBy by.entry frame.old frame.new object.now.place result }
    ensures gains { IfOk result (Gains frame.old frame.new) }
    ensures keeps { OnErr result (Keeps frame.old frame.new) }
    ensures unlocked { IsUnlocked frame.new }
{
    match by {
        GiveBy::Pop => try_list_pop(frame, object),
        GiveBy::Get(index) => try_list_get(frame, object, index),
        GiveBy::Take(index) => try_list_take(frame, object, index),
        GiveBy::Receive => try_recv(frame, object),
        GiveBy::Find(key) => try_dict_find_by(frame, object, key),
        GiveBy::Delete(key) => try_dict_del_by(frame, object, key),
    }
}

/// What the container in a place gives goes where it is to go, once no other thread has the container locked.
/// NoSuchPlace where no handle is in that place, or the one to be filled isn't there; then OutOfMemory for a new place;
/// then what the call answers (`brc_things`). A refusal changes nothing: an entry that has no place stays.
pub fn give_at<H: HasTable<A>, A: Allocator>(
    rt: &impl Wait,
    frame: &mut Frame<H, A>,
    handles: &mut Handles<A>,
    container: usize,
    by: GiveBy<'_>,
    to: To,
) -> Result<(), Fault>
    requires each { OwnsEach frame.old handles.old }
    requires unlocked { IsUnlocked frame.old }

    ensures stands { KeepsStanding frame.old frame.new handles.old handles.new }
    ensures gave { OnOk result (GivesTo to (GaveLate by.entry frame.old) frame.new handles.old handles.new container) }
    ensures refused { IfErr result
        (GivesNot to (GaveLate by.entry frame.old) frame.old frame.new handles.old container) }
    ensures keeps { OnErr result (Keeps frame.old frame.new) }
    ensures unchanged { OnErr result (handles.new ≡ handles.old) }
    ensures waited { IfErr result (λ fault. fault ≢ faults.Busy) }
{
    if handles.get(container).is_none() {
        return Err(Fault::NoSuchPlace);
    }
    let room = open(frame, handles, to)?;
    let Some(object) = handles.get(container) else {
        unreachable!()
    };
    match give_by(rt, frame, object, by) {
        Ok(given) => {
            fill(frame, handles, room, given);
            Ok(())
        }
        Err(fault) => {
            close(handles, to);
            Err(fault)
        }
    }
}

/// The same without waiting: Busy, where another thread has the container locked, comes after OutOfMemory for a new
/// place, and before what else the call answers.
pub fn try_give_at<H: HasTable<A>, A: Allocator>(
    frame: &mut Frame<H, A>,
    handles: &mut Handles<A>,
    container: usize,
    by: GiveBy<'_>,
    to: To,
) -> Result<(), Fault>
    requires each { OwnsEach frame.old handles.old }
    requires unlocked { IsUnlocked frame.old }

    ensures stands { KeepsStanding frame.old frame.new handles.old handles.new }
    ensures gave { OnOk result (GivesTo to (GaveBy by.entry frame.old) frame.new handles.old handles.new container) }
    ensures refused { IfErr result
        (GivesNot to (GaveBy by.entry frame.old) frame.old frame.new handles.old container) }
    ensures keeps { OnErr result (Keeps frame.old frame.new) }
    ensures unchanged { OnErr result (handles.new ≡ handles.old) }
{
    if handles.get(container).is_none() {
        return Err(Fault::NoSuchPlace);
    }
    let room = open(frame, handles, to)?;
    let Some(object) = handles.get(container) else {
        unreachable!()
    };
    match try_give_by(frame, object, by) {
        Ok(given) => {
            fill(frame, handles, room, given);
            Ok(())
        }
        Err(fault) => {
            close(handles, to);
            Err(fault)
        }
    }
}
