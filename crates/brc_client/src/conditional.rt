//! A value goes into a container, if what stands there is still what was expected: what threads that count, publish or hand on
//! by turns need. The look and the swap are one locking.

ghost use Rattle.std.specs.Prelude.{◌≡◌, ◌≢◌, ◌⊎◌, false, Some, Ok, Err, IfOk, IfErr, OnOk, OnErr};
ghost use Rattle.brc_count.specs.block.declared.key_ref.KeyRef.TheVariants as lent;
ghost use Rattle.brc_count.specs.Frames.{IsUnlocked, Owns};
ghost use Rattle.brc_count.specs.Owned.{Keeps};
ghost use Rattle.brc_words.specs.declared.entry.Entry.{Entry as EntrySeen};
ghost use Rattle.brc_things.specs.Values.{OwnsValue, StandsApart, HasNone, OwnsPutValue};
ghost use Rattle.brc_things.specs.Still.{OwnsIfSwapped};
ghost use Rattle.brc_client.specs.Clients.{KeepsNames, SpendsName};
ghost use Rattle.brc_client.specs.Swap_If.{SwapsIfAt, AsPut, IsExpectedAs, ExpectsNone};
ghost use Rattle.brc_client.specs.Valued.{NamesDatum, PutsDatum, PutsNoDatum, SpendsDatumName};
ghost use Rattle.brc_client.specs.declared.data.Datum.TheVariants as datums;
ghost use Rattle.brc_client.specs.declared.conditional.SwapIfAt.{SwapIfAt as TheSwapIfAt};
ghost use Rattle.brc_client.specs.declared.conditional.SwapIfAt.TheVariants as places;

use crate::client::{Client, find, lay};
use crate::data::{Datum, number_value};
use crate::status::Status;
use brc_count::block::KeyRef;
use brc_count::{Frame, HandedBack, Handle};
use brc_heap::Shared;
use brc_things::{SwapIf, Value, try_dict_swap_if, try_list_swap_if};
use brc_words::{Entry, Note};
use std::alloc::Global;

/// Where it is looked, and swapped.
#[derive(Clone, Copy, Debug, PartialEq, Eq)]
pub enum SwapIfAt<'k> {
    /// At this index of a list.
    Index(u32),
    /// Beside this key of a dictionary.
    Beside(KeyRef<'k>),
}

/// Whether it was swapped, and what came: what stood there, or the value that didn't go in.
#[derive(Clone, Copy, Debug, PartialEq, Eq)]
pub struct SwapTold {
    pub swapped: bool,
    pub came: Datum,
}

/// A call by which a container takes a value only if the expected one stands there.
pub trait Conditional: Copy {
    // which call it is
    ghost call: { Self → TheSwapIfAt };

    /// The value goes into the object by the call, or comes back; or it is handed back with the fault. It never waits: Busy,
    /// where another thread has the object locked, comes first.
    fn try_swap_if(
        self,
        frame: &mut Frame<Shared, Global>,
        none: &mut Handle<Global>,
        object: &Handle<Global>,
        expected: Entry,
        value: Value<Global>,
    ) -> Result<SwapIf<Global>, HandedBack<Value<Global>>>
        requires owned { Owns frame.old object.now }
        requires unlocked { IsUnlocked frame.old }
        requires none { HasNone frame.old none.old }
        requires apart_none { object.now.place ≢ none.old.place }
        requires value { OwnsValue frame.old value }
        requires apart { StandsApart object.now.place value }
        requires other { StandsApart none.old.place value }
        ensures did { SwapsIfAt (call self) frame.old frame.new object.now.place expected none.old none.new value result }
        ensures owns { IfOk result (OwnsIfSwapped frame.old frame.new none.new value) }
        ensures none { HasNone frame.new none.new }
        ensures same { OnErr result (none.new ≡ none.old) }
        ensures back { IfErr result (λ handed. handed.value ≡ value) }
        ensures keeps { OnErr result (Keeps frame.old frame.new) }
        ensures unlocked { IsUnlocked frame.new };
}

/// `list_swap_if`: at this index of a list.
#[derive(Clone, Copy, Debug, PartialEq, Eq)]
pub struct SwappingAt(pub u32);

impl Conditional for SwappingAt {
    ghost call = { λ by. places.Index by.0 };

    #[inline(always)]
    fn try_swap_if(
        self,
        frame: &mut Frame<Shared, Global>,
        none: &mut Handle<Global>,
        object: &Handle<Global>,
        expected: Entry,
        value: Value<Global>,
    ) -> Result<SwapIf<Global>, HandedBack<Value<Global>>> {
        try_list_swap_if(frame, none, object, self.0, expected, value)
    }
}

/// `dict_swap_if`: beside this integer of a dictionary.
#[derive(Clone, Copy, Debug, PartialEq, Eq)]
pub struct SwappingByInt(pub i64);

impl Conditional for SwappingByInt {
    ghost call = { λ by. places.Beside (lent.Int by.0) };

    #[inline(always)]
    fn try_swap_if(
        self,
        frame: &mut Frame<Shared, Global>,
        none: &mut Handle<Global>,
        object: &Handle<Global>,
        expected: Entry,
        value: Value<Global>,
    ) -> Result<SwapIf<Global>, HandedBack<Value<Global>>> {
        try_dict_swap_if(frame, none, object, KeyRef::Int(self.0), expected, value)
    }
}

/// The same beside this text, or other bytes.
#[derive(Clone, Copy, Debug, PartialEq, Eq)]
pub struct SwappingByText<'k>(pub &'k [u8]);

impl<'k> Conditional for SwappingByText<'k> {
    ghost call = { λ by. places.Beside (lent.Text by.0) };

    #[inline(always)]
    fn try_swap_if(
        self,
        frame: &mut Frame<Shared, Global>,
        none: &mut Handle<Global>,
        object: &Handle<Global>,
        expected: Entry,
        value: Value<Global>,
    ) -> Result<SwapIf<Global>, HandedBack<Value<Global>>> {
        try_dict_swap_if(frame, none, object, KeyRef::Text(self.0), expected, value)
    }
}

/// The call, with whether it swapped, and what came.
#[inline(always)]
fn try_parted<B: Conditional>(
    by: B,
    frame: &mut Frame<Shared, Global>,
    none: &mut Handle<Global>,
    object: &Handle<Global>,
    expected: Entry,
    value: Value<Global>,
) -> Result<(bool, Value<Global>), HandedBack<Value<Global>>>
    requires owned { Owns frame.old object.now }
    requires unlocked { IsUnlocked frame.old }
    requires none { HasNone frame.old none.old }
    requires apart_none { object.now.place ≢ none.old.place }
    requires value { OwnsValue frame.old value }
    requires apart { StandsApart object.now.place value }
    requires other { StandsApart none.old.place value }
    ensures did { IfOk result (λ did. AsPut (SwapsIfAt (B.call by)) expected did.0 frame.old frame.new object.now.place
        none.old none.new value (Ok (Some did.1))) }
    ensures refused { IfErr result (λ handed. AsPut (SwapsIfAt (B.call by)) expected false frame.old frame.new
        object.now.place none.old none.new value (Err handed)) }
    ensures owns { IfOk result (λ did. OwnsPutValue frame.old frame.new none.new value (Some did.1)) }
    ensures none { HasNone frame.new none.new }
    ensures same { OnErr result (none.new ≡ none.old) }
    ensures back { IfErr result (λ handed. handed.value ≡ value) }
    ensures keeps { OnErr result (Keeps frame.old frame.new) }
    ensures unlocked { IsUnlocked frame.new }
{
    match by.try_swap_if(frame, none, object, expected, value) {
        Ok(SwapIf::Swapped(came)) => Ok((true, came)),
        Ok(SwapIf::Differs(back)) => Ok((false, back)),
        Err(handed) => Err(handed),
    }
}

impl Client {
    /// The entry that the value is expected as: that of a scalar, or of the object that its number names. Foreign, Stale.
    #[inline(always)]
    fn expected_as(&mut self, expected: Datum) -> Result<Entry, Status>
        ensures expected { IfOk result (IsExpectedAs self.old expected) }
        ensures refused { IfErr result (ExpectsNone self.old expected) }
        ensures same { self.new ≡ self.old }
    {
        match expected {
            Datum::Scalar(note) => Ok(Entry::new(0, note)),
            Datum::Object(number, note) => {
                let place = self.place_of(number)?;
                let Some(object) = self.handles.get(place) else {
                    unreachable!()
                };
                let cell = self.mutator.frame().cell(object);
                Ok(Entry::new(cell, note))
            }
        }
    }

    /// The value goes where the call looks, if what stands there is still the expected value: the same scalar, label and
    /// bits; or the same object, whatever label it has there. What stood there comes out. Or something else stands there, and
    /// the value comes back. Either way an object that was given has its number no more, and one that comes has a number.
    /// Foreign, Stale for what is expected, then for the container, then for the value; Same; FrameFull and OutOfMemory for a
    /// handle to None; then as the call is refused (`try_swap_if` of `by`), Busy first: then an object has its number still.
    pub fn swap_if<B: Conditional>(
        &mut self,
        container: u64,
        by: B,
        expected: Datum,
        datum: Datum,
    ) -> Result<SwapTold, Status>
        ensures swapped { IfOk result (λ did. (entry : EntrySeen) × IsExpectedAs self.old expected entry
            × PutsDatum (AsPut (SwapsIfAt (B.call by)) entry did.swapped) self.old self.new container datum (Some did.came)) }
        ensures refused { IfErr result (λ status. (ExpectsNone self.old expected status × (self.new ≡ self.old))
            ⊎ ((entry : EntrySeen) × IsExpectedAs self.old expected entry
            × PutsNoDatum (AsPut (SwapsIfAt (B.call by)) entry false) self.old self.new container datum status)) }
        ensures spent { OnOk result (SpendsDatumName self.old self.new datum) }
        ensures came { IfOk result (λ did. NamesDatum self.new did.came) }
        ensures handles { OnErr result (self.new.handles ≡ self.old.handles) }
        ensures numbers { OnErr result (self.new.numbers ≡ self.old.numbers) }
    {
        let entry = self.expected_as(expected)?;
        match datum {
            Datum::Scalar(note) => self.swap_scalar_if(container, by, entry, note),
            Datum::Object(value, note) => self.swap_object_if(container, by, entry, value, note),
        }
    }

    /// As `swap_if`, of a scalar.
    #[inline(always)]
    fn swap_scalar_if<B: Conditional>(
        &mut self,
        container: u64,
        by: B,
        entry: Entry,
        note: Note,
    ) -> Result<SwapTold, Status>
        ensures took { IfOk result (λ did. PutsDatum (AsPut (SwapsIfAt (B.call by)) entry did.swapped) self.old self.new
            container (datums.Scalar note) (Some did.came)) }
        ensures refused { IfErr result
            (PutsNoDatum (AsPut (SwapsIfAt (B.call by)) entry false) self.old self.new container (datums.Scalar note)) }
        ensures spent { OnOk result (KeepsNames self.old self.new) }
        ensures came { IfOk result (λ did. NamesDatum self.new did.came) }
        ensures handles { OnErr result (self.new.handles ≡ self.old.handles) }
        ensures numbers { OnErr result (self.new.numbers ≡ self.old.numbers) }
    {
        self.ready_none(container)?;
        let object = find(&self.handles, &self.numbers, container)?;
        let Some(none) = &mut self.none else {
            unreachable!()
        };
        let value = Value::Scalar(note);
        match try_parted(by, self.mutator.frame(), none, object, entry, value) {
            Ok((swapped, came)) => {
                let came = number_value(&mut self.handles, &self.numbers, came);
                Ok(SwapTold { swapped, came })
            }
            Err(
                HandedBack {
                    fault,
                    value: Value::Scalar(_note),
                },
            ) => Err(Status::Fault(fault)),
            Err(_handed) => unreachable!(),
        }
    }

    /// As `swap_if`, of an object.
    #[inline(always)]
    fn swap_object_if<B: Conditional>(
        &mut self,
        container: u64,
        by: B,
        entry: Entry,
        value: u64,
        note: Note,
    ) -> Result<SwapTold, Status>
        ensures took { IfOk result (λ did. PutsDatum (AsPut (SwapsIfAt (B.call by)) entry did.swapped) self.old self.new
            container (datums.Object value note) (Some did.came)) }
        ensures refused { IfErr result
            (PutsNoDatum (AsPut (SwapsIfAt (B.call by)) entry false) self.old self.new container (datums.Object value note)) }
        ensures spent { OnOk result (SpendsName self.old self.new value) }
        ensures came { IfOk result (λ did. NamesDatum self.new did.came) }
        ensures handles { OnErr result (self.new.handles ≡ self.old.handles) }
        ensures numbers { OnErr result (self.new.numbers ≡ self.old.numbers) }
    {
        let into = self.place_of(container)?;
        let from = self.place_of(value)?;
        if into == from {
            return Err(Status::Same);
        }
        self.ready_none(container)?;
        let Some(given) = self.handles.take(from) else {
            unreachable!()
        };
        let Some(none) = &mut self.none else {
            unreachable!()
        };
        let Some(object) = self.handles.at(into) else {
            unreachable!()
        };
        let given = Value::Object(given, note);
        match try_parted(by, self.mutator.frame(), none, object, entry, given) {
            Ok((swapped, came)) => {
                self.numbers.spend(from);
                let came = number_value(&mut self.handles, &self.numbers, came);
                Ok(SwapTold { swapped, came })
            }
            Err(
                HandedBack {
                    fault,
                    value: Value::Object(back, _note),
                },
            ) => {
                lay(&mut self.handles, back);
                Err(Status::Fault(fault))
            }
            Err(_handed) => unreachable!(),
        }
    }
}
