//! What goes into a container by value. Each call is a type, so that each is compiled by itself: no program looks up which
//! call it is to make, and none carries the code of the others.

ghost use Rattle.std.specs.Prelude.{◌≡◌, ◌≢◌, IfOk, IfErr, OnErr};
ghost use Rattle.brc_count.specs.block.declared.key_ref.KeyRef.TheVariants as lent;
ghost use Rattle.brc_count.specs.Frames.{IsUnlocked, Owns};
ghost use Rattle.brc_count.specs.Owned.{Keeps};
ghost use Rattle.brc_things.specs.Values.{OwnsValue, StandsApart, HasNone, OwnsPutValue};
ghost use Rattle.brc_places.specs.Value_Calls.{PutValueBy};
ghost use Rattle.brc_places.specs.declared.valued.PutBy.{PutBy};
ghost use Rattle.brc_places.specs.declared.valued.PutBy.TheVariants as puts;

use brc_count::block::KeyRef;
use brc_count::{Frame, HandedBack, Handle};
use brc_heap::Shared;
use brc_things::{
    Value, try_dict_put_new_value, try_dict_set_value, try_list_push_value, try_list_put_value,
    try_list_set_value, try_send_value,
};
use std::alloc::Global;

/// A call by which a container takes a value, and gives what was there, if anything was.
pub trait Inward: Copy {
    // which call it is
    ghost call: { Self → PutBy };

    /// The value goes into the object by the call, and what was there comes out; or it is handed back with the fault. It
    /// never waits: Busy, where another thread has the object locked, comes first.
    fn try_put_value(
        self,
        alloc: Global,
        frame: &mut Frame<Shared, Global>,
        none: &mut Handle<Global>,
        object: &Handle<Global>,
        value: Value<Global>,
    ) -> Result<Option<Value<Global>>, HandedBack<Value<Global>>>
        requires owned { Owns frame.old object.now }
        requires unlocked { IsUnlocked frame.old }
        requires none { HasNone frame.old none.old }
        requires apart_none { object.now.place ≢ none.old.place }
        requires value { OwnsValue frame.old value }
        requires apart { StandsApart object.now.place value }
        requires other { StandsApart none.old.place value }
        ensures did { PutValueBy (call self) frame.old frame.new object.now.place none.old none.new value result }
        ensures owns { IfOk result (OwnsPutValue frame.old frame.new none.new value) }
        ensures none { HasNone frame.new none.new }
        ensures same { OnErr result (none.new ≡ none.old) }
        ensures back { IfErr result (λ handed. handed.value ≡ value) }
        ensures keeps { OnErr result (Keeps frame.old frame.new) }
        ensures unlocked { IsUnlocked frame.new };
}

/// `list_push_value`: it becomes a list's last entry.
#[derive(Clone, Copy, Debug, PartialEq, Eq)]
pub struct Pushing;

impl Inward for Pushing {
    ghost call = { λ _. puts.Push };

    #[inline(always)]
    fn try_put_value(
        self,
        _alloc: Global,
        frame: &mut Frame<Shared, Global>,
        none: &mut Handle<Global>,
        object: &Handle<Global>,
        value: Value<Global>,
    ) -> Result<Option<Value<Global>>, HandedBack<Value<Global>>> {
        match try_list_push_value(frame, none, object, value) {
            Ok(()) => Ok(None),
            Err(handed) => Err(handed),
        }
    }
}

/// `list_set_value`: it takes the place of the list's entry at this index, which comes out.
#[derive(Clone, Copy, Debug, PartialEq, Eq)]
pub struct Setting(pub u32);

impl Inward for Setting {
    ghost call = { λ by. puts.Set by.0 };

    #[inline(always)]
    fn try_put_value(
        self,
        _alloc: Global,
        frame: &mut Frame<Shared, Global>,
        none: &mut Handle<Global>,
        object: &Handle<Global>,
        value: Value<Global>,
    ) -> Result<Option<Value<Global>>, HandedBack<Value<Global>>> {
        match try_list_set_value(frame, none, object, self.0, value) {
            Ok(old) => Ok(Some(old)),
            Err(handed) => Err(handed),
        }
    }
}

/// `list_put_value`: so; and at the index that is the list's length it becomes the last entry.
#[derive(Clone, Copy, Debug, PartialEq, Eq)]
pub struct PuttingAt(pub u32);

impl Inward for PuttingAt {
    ghost call = { λ by. puts.PutAt by.0 };

    #[inline(always)]
    fn try_put_value(
        self,
        _alloc: Global,
        frame: &mut Frame<Shared, Global>,
        none: &mut Handle<Global>,
        object: &Handle<Global>,
        value: Value<Global>,
    ) -> Result<Option<Value<Global>>, HandedBack<Value<Global>>> {
        try_list_put_value(frame, none, object, self.0, value)
    }
}

/// `send_value`: it becomes a mailbox's last letter.
#[derive(Clone, Copy, Debug, PartialEq, Eq)]
pub struct Sending;

impl Inward for Sending {
    ghost call = { λ _. puts.Send };

    #[inline(always)]
    fn try_put_value(
        self,
        _alloc: Global,
        frame: &mut Frame<Shared, Global>,
        none: &mut Handle<Global>,
        object: &Handle<Global>,
        value: Value<Global>,
    ) -> Result<Option<Value<Global>>, HandedBack<Value<Global>>> {
        match try_send_value(frame, none, object, value) {
            Ok(()) => Ok(None),
            Err(handed) => Err(handed),
        }
    }
}

/// `dict_set_value`: it goes beside this integer in a dictionary, and what was there comes out.
#[derive(Clone, Copy, Debug, PartialEq, Eq)]
pub struct PuttingByInt(pub i64);

impl Inward for PuttingByInt {
    ghost call = { λ by. puts.Put (lent.Int by.0) };

    #[inline(always)]
    fn try_put_value(
        self,
        alloc: Global,
        frame: &mut Frame<Shared, Global>,
        none: &mut Handle<Global>,
        object: &Handle<Global>,
        value: Value<Global>,
    ) -> Result<Option<Value<Global>>, HandedBack<Value<Global>>> {
        try_dict_set_value(alloc, frame, none, object, KeyRef::Int(self.0), value)
    }
}

/// The same beside this text, or other bytes.
#[derive(Clone, Copy, Debug, PartialEq, Eq)]
pub struct PuttingByText<'k>(pub &'k [u8]);

impl<'k> Inward for PuttingByText<'k> {
    ghost call = { λ by. puts.Put (lent.Text by.0) };

    #[inline(always)]
    fn try_put_value(
        self,
        alloc: Global,
        frame: &mut Frame<Shared, Global>,
        none: &mut Handle<Global>,
        object: &Handle<Global>,
        value: Value<Global>,
    ) -> Result<Option<Value<Global>>, HandedBack<Value<Global>>> {
        try_dict_set_value(alloc, frame, none, object, KeyRef::Text(self.0), value)
    }
}

/// `dict_put_new_value`: it goes beside this integer, if no pair has it; else it comes back.
#[derive(Clone, Copy, Debug, PartialEq, Eq)]
pub struct PuttingNewByInt(pub i64);

impl Inward for PuttingNewByInt {
    ghost call = { λ by. puts.PutNew (lent.Int by.0) };

    #[inline(always)]
    fn try_put_value(
        self,
        alloc: Global,
        frame: &mut Frame<Shared, Global>,
        none: &mut Handle<Global>,
        object: &Handle<Global>,
        value: Value<Global>,
    ) -> Result<Option<Value<Global>>, HandedBack<Value<Global>>> {
        try_dict_put_new_value(alloc, frame, none, object, KeyRef::Int(self.0), value)
    }
}

/// The same beside this text, or other bytes.
#[derive(Clone, Copy, Debug, PartialEq, Eq)]
pub struct PuttingNewByText<'k>(pub &'k [u8]);

impl<'k> Inward for PuttingNewByText<'k> {
    ghost call = { λ by. puts.PutNew (lent.Text by.0) };

    #[inline(always)]
    fn try_put_value(
        self,
        alloc: Global,
        frame: &mut Frame<Shared, Global>,
        none: &mut Handle<Global>,
        object: &Handle<Global>,
        value: Value<Global>,
    ) -> Result<Option<Value<Global>>, HandedBack<Value<Global>>> {
        try_dict_put_new_value(alloc, frame, none, object, KeyRef::Text(self.0), value)
    }
}
