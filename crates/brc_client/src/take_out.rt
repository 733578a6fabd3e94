//! What comes out of a container, by value or as a reference: as in `put_value`, each call is a type.

ghost use Rattle.std.specs.Prelude.{IfOk, IfErr, OnErr};
ghost use Rattle.brc_count.specs.block.declared.key_ref.KeyRef.TheVariants as lent;
ghost use Rattle.brc_count.specs.Frames.{IsUnlocked, Owns};
ghost use Rattle.brc_count.specs.Owned.{Keeps, Gains};
ghost use Rattle.brc_things.specs.Values.{GainsValue};
ghost use Rattle.brc_places.specs.Calls.{GaveBy};
ghost use Rattle.brc_places.specs.Value_Calls.{TookOutValueBy};
ghost use Rattle.brc_places.specs.declared.giving.GiveBy.{GiveBy};
ghost use Rattle.brc_places.specs.declared.giving.GiveBy.TheVariants as gives;

use brc_count::block::KeyRef;
use brc_count::{Frame, Handle};
use brc_heap::Shared;
use brc_things::{
    Value, try_dict_del_by, try_dict_del_value, try_dict_find_by, try_dict_find_value,
    try_list_get, try_list_get_value, try_list_pop, try_list_pop_value, try_list_take,
    try_list_take_value, try_recv, try_recv_value,
};
use brc_words::Fault;
use std::alloc::Global;

/// A call by which a container gives what an entry has.
pub trait Outward: Copy {
    // which call it is
    ghost call: { Self → GiveBy };

    /// The reference that the object gives by the call. It never waits: Busy, where another thread has the object locked,
    /// comes first.
    fn try_take_out(
        self,
        frame: &mut Frame<Shared, Global>,
        object: &Handle<Global>,
    ) -> Result<Handle<Global>, Fault>
        requires owned { Owns frame.old object.now }
        requires unlocked { IsUnlocked frame.old }
        ensures did { GaveBy (call self) frame.old frame.new object.now.place result }
        ensures gains { IfOk result (Gains frame.old frame.new) }
        ensures keeps { OnErr result (Keeps frame.old frame.new) }
        ensures unlocked { IsUnlocked frame.new };

    /// The value that the object gives so.
    fn try_take_out_value(
        self,
        frame: &mut Frame<Shared, Global>,
        object: &Handle<Global>,
    ) -> Result<Value<Global>, Fault>
        requires owned { Owns frame.old object.now }
        requires unlocked { IsUnlocked frame.old }
        ensures did { TookOutValueBy (call self) frame.old frame.new object.now.place result }
        ensures gains { IfOk result (GainsValue frame.old frame.new) }
        ensures keeps { OnErr result (Keeps frame.old frame.new) }
        ensures unlocked { IsUnlocked frame.new };
}

/// `list_pop`: a list's last entry comes out.
#[derive(Clone, Copy, Debug, PartialEq, Eq)]
pub struct Popping;

impl Outward for Popping {
    ghost call = { λ _. gives.Pop };

    #[inline(always)]
    fn try_take_out(
        self,
        frame: &mut Frame<Shared, Global>,
        object: &Handle<Global>,
    ) -> Result<Handle<Global>, Fault> {
        try_list_pop(frame, object)
    }

    #[inline(always)]
    fn try_take_out_value(
        self,
        frame: &mut Frame<Shared, Global>,
        object: &Handle<Global>,
    ) -> Result<Value<Global>, Fault> {
        try_list_pop_value(frame, object)
    }
}

/// `list_get`: the entry of a list at this index stays.
#[derive(Clone, Copy, Debug, PartialEq, Eq)]
pub struct Getting(pub u32);

impl Outward for Getting {
    ghost call = { λ by. gives.Get by.0 };

    #[inline(always)]
    fn try_take_out(
        self,
        frame: &mut Frame<Shared, Global>,
        object: &Handle<Global>,
    ) -> Result<Handle<Global>, Fault> {
        try_list_get(frame, object, self.0)
    }

    #[inline(always)]
    fn try_take_out_value(
        self,
        frame: &mut Frame<Shared, Global>,
        object: &Handle<Global>,
    ) -> Result<Value<Global>, Fault> {
        try_list_get_value(frame, object, self.0)
    }
}

/// `list_take`: it comes out, and later ones close up.
#[derive(Clone, Copy, Debug, PartialEq, Eq)]
pub struct Taking(pub u32);

impl Outward for Taking {
    ghost call = { λ by. gives.Take by.0 };

    #[inline(always)]
    fn try_take_out(
        self,
        frame: &mut Frame<Shared, Global>,
        object: &Handle<Global>,
    ) -> Result<Handle<Global>, Fault> {
        try_list_take(frame, object, self.0)
    }

    #[inline(always)]
    fn try_take_out_value(
        self,
        frame: &mut Frame<Shared, Global>,
        object: &Handle<Global>,
    ) -> Result<Value<Global>, Fault> {
        try_list_take_value(frame, object, self.0)
    }
}

/// `recv`: a mailbox's first letter comes out.
#[derive(Clone, Copy, Debug, PartialEq, Eq)]
pub struct Receiving;

impl Outward for Receiving {
    ghost call = { λ _. gives.Receive };

    #[inline(always)]
    fn try_take_out(
        self,
        frame: &mut Frame<Shared, Global>,
        object: &Handle<Global>,
    ) -> Result<Handle<Global>, Fault> {
        try_recv(frame, object)
    }

    #[inline(always)]
    fn try_take_out_value(
        self,
        frame: &mut Frame<Shared, Global>,
        object: &Handle<Global>,
    ) -> Result<Value<Global>, Fault> {
        try_recv_value(frame, object)
    }
}

/// `dict_find`: a dictionary's value beside this integer stays.
#[derive(Clone, Copy, Debug, PartialEq, Eq)]
pub struct FindingByInt(pub i64);

impl Outward for FindingByInt {
    ghost call = { λ by. gives.Find (lent.Int by.0) };

    #[inline(always)]
    fn try_take_out(
        self,
        frame: &mut Frame<Shared, Global>,
        object: &Handle<Global>,
    ) -> Result<Handle<Global>, Fault> {
        try_dict_find_by(frame, object, KeyRef::Int(self.0))
    }

    #[inline(always)]
    fn try_take_out_value(
        self,
        frame: &mut Frame<Shared, Global>,
        object: &Handle<Global>,
    ) -> Result<Value<Global>, Fault> {
        try_dict_find_value(frame, object, KeyRef::Int(self.0))
    }
}

/// The same beside this text, or other bytes.
#[derive(Clone, Copy, Debug, PartialEq, Eq)]
pub struct FindingByText<'k>(pub &'k [u8]);

impl<'k> Outward for FindingByText<'k> {
    ghost call = { λ by. gives.Find (lent.Text by.0) };

    #[inline(always)]
    fn try_take_out(
        self,
        frame: &mut Frame<Shared, Global>,
        object: &Handle<Global>,
    ) -> Result<Handle<Global>, Fault> {
        try_dict_find_by(frame, object, KeyRef::Text(self.0))
    }

    #[inline(always)]
    fn try_take_out_value(
        self,
        frame: &mut Frame<Shared, Global>,
        object: &Handle<Global>,
    ) -> Result<Value<Global>, Fault> {
        try_dict_find_value(frame, object, KeyRef::Text(self.0))
    }
}

/// `dict_del`: a dictionary's value beside this integer comes out, and its pair goes.
#[derive(Clone, Copy, Debug, PartialEq, Eq)]
pub struct DeletingByInt(pub i64);

impl Outward for DeletingByInt {
    ghost call = { λ by. gives.Delete (lent.Int by.0) };

    #[inline(always)]
    fn try_take_out(
        self,
        frame: &mut Frame<Shared, Global>,
        object: &Handle<Global>,
    ) -> Result<Handle<Global>, Fault> {
        try_dict_del_by(frame, object, KeyRef::Int(self.0))
    }

    #[inline(always)]
    fn try_take_out_value(
        self,
        frame: &mut Frame<Shared, Global>,
        object: &Handle<Global>,
    ) -> Result<Value<Global>, Fault> {
        try_dict_del_value(frame, object, KeyRef::Int(self.0))
    }
}

/// The same beside this text, or other bytes.
#[derive(Clone, Copy, Debug, PartialEq, Eq)]
pub struct DeletingByText<'k>(pub &'k [u8]);

impl<'k> Outward for DeletingByText<'k> {
    ghost call = { λ by. gives.Delete (lent.Text by.0) };

    #[inline(always)]
    fn try_take_out(
        self,
        frame: &mut Frame<Shared, Global>,
        object: &Handle<Global>,
    ) -> Result<Handle<Global>, Fault> {
        try_dict_del_by(frame, object, KeyRef::Text(self.0))
    }

    #[inline(always)]
    fn try_take_out_value(
        self,
        frame: &mut Frame<Shared, Global>,
        object: &Handle<Global>,
    ) -> Result<Value<Global>, Fault> {
        try_dict_del_value(frame, object, KeyRef::Text(self.0))
    }
}
