//! Values by numbers: scalars without an object, and references with a label, go into lists, mailboxes and dictionaries
//! and come out of them.

ghost use Rattle.std.specs.Prelude.{◌≡◌, ◌≢◌, ◌⊎◌, length, Some, None, Err, IfOk, IfErr, IfSome, OnOk, OnErr, IsTrue};
ghost use Rattle.brc_count.specs.Frames.{HandleSeen};
ghost use Rattle.brc_count.specs.Locking.{cell_in};
ghost use Rattle.brc_things.specs.Value_Calls.{DictPairValue};
ghost use Rattle.brc_places.specs.Value_Calls.{TookOutValueBy, PutValueBy};
ghost use Rattle.brc_client.specs.Clients.{KeepsNumbers, KeepsNames, SpendsName};
ghost use Rattle.brc_client.specs.Calls.{OfNamed, RefusedOf};
ghost use Rattle.brc_client.specs.Valued.{AddsDatum, WithPair, NamesDatum, NoneMade, NoneRefused, LacksNoneOf};
ghost use Rattle.brc_client.specs.Valued.{PutsDatum, PutsNoDatum, SpendsDatumName};
ghost use Rattle.brc_client.specs.Valued.{ComesBack, IsFound, IsLoose, LiesThen, NamesDatumIn};
ghost use Rattle.brc_client.specs.declared.data.Datum.TheVariants as datums;

use crate::client::{Client, find, insert, lay};
use crate::numbers::Numbers;
use crate::put_value::Inward;
use crate::status::Status;
use crate::take_out::Outward;
use brc_count::HandedBack;
use brc_handles::Handles;
use brc_things::{Pair, Value, try_dict_pair_value};
use brc_words::{Key, Note};
use std::alloc::Global;

/// A scalar of the client's; or a reference by its number, with what is noted beside it.
#[derive(Clone, Copy, Debug, PartialEq, Eq)]
pub enum Datum {
    Scalar(Note),
    Object(u64, Note),
}

/// A pair of a dictionary: its key, what stands beside it, and how many pairs there are.
pub struct PairDatum {
    pub key: Key<Global>,
    pub datum: Datum,
    pub of: u32,
}

/// A value that came. An object's handle lies in its own place, which is empty, and has a number.
#[inline(always)]
pub(crate) fn number_value(
    handles: &mut Handles<Global>,
    numbers: &Numbers,
    came: Value<Global>,
) -> Datum
    requires places { length handles.old ≡ 65536 }
    requires loose { IsLoose handles.old (Some came) }
    ensures back { ComesBack handles.old handles.new numbers.now (Some came) (Some result) }
    ensures lies { LiesThen handles.old handles.new (Some came) }
    ensures names { NamesDatumIn handles.new numbers.now result }
{
    match came {
        Value::Scalar(note) => Datum::Scalar(note),
        Value::Object(given, note) => {
            let number = insert(handles, numbers, given);
            Datum::Object(number, note)
        }
    }
}

/// What came out for a value, if anything did. (Written over `number_value`, a put takes seven instructions more.)
#[inline(always)]
fn number_came(
    handles: &mut Handles<Global>,
    numbers: &Numbers,
    came: Option<Value<Global>>,
) -> Option<Datum>
    requires places { length handles.old ≡ 65536 }
    requires loose { IsLoose handles.old came }
    ensures back { ComesBack handles.old handles.new numbers.now came result }
    ensures lies { LiesThen handles.old handles.new came }
    ensures names { IfSome result (NamesDatumIn handles.new numbers.now) }
{
    match came {
        None => None,
        Some(Value::Scalar(note)) => Some(Datum::Scalar(note)),
        Some(Value::Object(given, note)) => {
            let number = insert(handles, numbers, given);
            Some(Datum::Object(number, note))
        }
    }
}

impl Client {
    /// The value that the container gives by this call; an object's has a number. Foreign, Stale; then as the call is
    /// refused (`try_take_out_value` of `by`), Busy first.
    #[tactic(auto, using(crate::proofs::Placed::owned, crate::proofs::Placed::vacant, crate::proofs::Placed::apart, crate::proofs::Placed::gained, crate::proofs::Placed::keeps, crate::proofs::Named::names_kept, crate::proofs::Named::names_given))]
    #[inline(always)]
    pub fn take_out_value<B: Outward>(&mut self, container: u64, by: B) -> Result<Datum, Status>
        ensures gave { IfOk result (λ datum. OfNamed self.old container
            (λ object. AddsDatum (λ new. TookOutValueBy (B.call by) self.old.frame new object.place) self.old self.new datum)) }
        ensures refused { IfErr result
            (RefusedOf (λ k fault. TookOutValueBy (B.call by) self.old.frame self.new.frame k (Err fault))
            self.old self.new container) }
        ensures names { IfOk result (NamesDatum self.new) }
        ensures keeps { KeepsNames self.old self.new }
        ensures unchanged { OnErr result (KeepsNumbers self.old self.new) }
        ensures none { self.new.none ≡ self.old.none }
    {
        let object = find(&self.handles, &self.numbers, container)?;
        match by.try_take_out_value(self.mutator.frame(), object) {
            Ok(Value::Scalar(note)) => Ok(Datum::Scalar(note)),
            Ok(Value::Object(given, note)) => {
                let number = insert(&mut self.handles, &self.numbers, given);
                Ok(Datum::Object(number, note))
            }
            Err(fault) => Err(Status::Fault(fault)),
        }
    }

    /// The pair at this index of a dictionary: a copy of its key, the value beside it, and how many pairs there are.
    /// Foreign, Stale; then as `try_dict_pair_value` of `brc_things`: Busy, WrongKind, NoSuchPlace, FrameFull, OutOfMemory.
    #[tactic(auto, using(crate::proofs::Placed::owned, crate::proofs::Placed::vacant, crate::proofs::Placed::apart, crate::proofs::Placed::gained, crate::proofs::Placed::keeps, crate::proofs::Named::names_kept, crate::proofs::Named::names_given))]
    pub fn pair_value(&mut self, alloc: Global, dict: u64, index: u32) -> Result<PairDatum, Status>
        ensures gave { IfOk result (λ pair. OfNamed self.old dict (λ object. AddsDatum
            (λ new value. WithPair pair.key pair.of (DictPairValue self.old.frame new object.place index) value)
            self.old self.new pair.datum)) }
        ensures refused { IfErr result
            (RefusedOf (λ k fault. DictPairValue self.old.frame self.new.frame k index (Err fault)) self.old self.new dict) }
        ensures names { IfOk result (λ pair. NamesDatum self.new pair.datum) }
        ensures keeps { KeepsNames self.old self.new }
        ensures unchanged { OnErr result (KeepsNumbers self.old self.new) }
        ensures none { self.new.none ≡ self.old.none }
    {
        let object = find(&self.handles, &self.numbers, dict)?;
        match try_dict_pair_value(alloc, self.mutator.frame(), object, index) {
            Ok(Pair { key, value, of }) => match value {
                Value::Scalar(note) => Ok(PairDatum {
                    key,
                    datum: Datum::Scalar(note),
                    of,
                }),
                Value::Object(given, note) => {
                    let number = insert(&mut self.handles, &self.numbers, given);
                    Ok(PairDatum {
                        key,
                        datum: Datum::Object(number, note),
                        of,
                    })
                }
            },
            Err(fault) => Err(Status::Fault(fault)),
        }
    }

    /// The value goes into the container by this call, and an object's number names nothing any more. The answer is what
    /// came out for it, if anything did. Foreign, Stale for the container, then for the value; Same; FrameFull and
    /// OutOfMemory for a handle to None, which the first such call makes; then as the call is refused
    /// (`try_put_value` of `by`), Busy first: then an object has its number still.
    #[inline(always)]
    pub fn put_value<B: Inward>(
        &mut self,
        alloc: Global,
        container: u64,
        by: B,
        datum: Datum,
    ) -> Result<Option<Datum>, Status>
        ensures took { IfOk result (PutsDatum (PutValueBy (B.call by)) self.old self.new container datum) }
        ensures refused { IfErr result (PutsNoDatum (PutValueBy (B.call by)) self.old self.new container datum) }
        ensures spent { OnOk result (SpendsDatumName self.old self.new datum) }
        ensures came { IfOk result (λ came. IfSome came (NamesDatum self.new)) }
        ensures handles { OnErr result (self.new.handles ≡ self.old.handles) }
        ensures numbers { OnErr result (self.new.numbers ≡ self.old.numbers) }
    {
        match datum {
            Datum::Scalar(note) => self.put_scalar(alloc, container, by, note),
            Datum::Object(value, note) => self.put_object(alloc, container, by, value, note),
        }
    }

    /// Whether a handle to None is kept.
    #[inline(always)]
    fn has_none(&mut self) -> bool
        ensures kept { IsTrue result → (none : HandleSeen) × (self.old.none ≡ Some none)
            × (cell_in self.old.frame none.place ≡ Some 0) }
        ensures same { self.new ≡ self.old }
    {
        match &self.none {
            Some(kept) => self.mutator.frame().cell(kept) == 0,
            None => false,
        }
    }

    /// A handle to None is made, and kept. Foreign, Stale for the container; FrameFull, OutOfMemory.
    #[cold]
    #[inline(never)]
    fn make_none(&mut self, container: u64) -> Result<(), Status>
        ensures made { OnOk result (NoneMade self.old self.new) }
        ensures named { OnOk result (IsFound self.old container) }
        ensures refused { IfErr result (NoneRefused self.old self.new container) }
        ensures handles { self.new.handles ≡ self.old.handles }
        ensures numbers { self.new.numbers ≡ self.old.numbers }
    {
        let _place = self.place_of(container)?;
        self.new_none()
    }

    /// A handle to None is made, and kept, in place of one that was kept and isn't to None. FrameFull, OutOfMemory.
    #[cold]
    #[inline(never)]
    fn new_none(&mut self) -> Result<(), Status>
        ensures made { OnOk result (NoneMade self.old self.new) }
        ensures refused { IfErr result (LacksNoneOf self.old self.new) }
        ensures handles { self.new.handles ≡ self.old.handles }
        ensures numbers { self.new.numbers ≡ self.old.numbers }
    {
        self.let_none_go();
        match self.mutator.frame().immortal(0) {
            Ok(none) => {
                match self.none.replace(none) {
                    None => (),
                    Some(_gone) => unreachable!(),
                }
                Ok(())
            }
            Err(fault) => Err(Status::Fault(fault)),
        }
    }

    /// A handle to None is kept, as one was, or a new one. FrameFull, OutOfMemory.
    #[inline(always)]
    pub(crate) fn keep_none(&mut self) -> Result<(), Status>
        ensures made { OnOk result (NoneMade self.old self.new) }
        ensures refused { IfErr result (LacksNoneOf self.old self.new) }
        ensures handles { self.new.handles ≡ self.old.handles }
        ensures numbers { self.new.numbers ≡ self.old.numbers }
    {
        if self.has_none() {
            return Ok(());
        }
        // What the call returns into is set to zero here, and not where none is made.
        match self.new_none() {
            Ok(()) => Ok(()),
            Err(status) => Err(status),
        }
    }

    /// A handle to None is kept, as one was, or a new one.
    #[inline(always)]
    pub(crate) fn ready_none(&mut self, container: u64) -> Result<(), Status>
        ensures made { OnOk result (NoneMade self.old self.new) }
        ensures named { OnOk result ((self.new ≡ self.old) ⊎ IsFound self.old container) }
        ensures refused { IfErr result (NoneRefused self.old self.new container) }
        ensures handles { self.new.handles ≡ self.old.handles }
        ensures numbers { self.new.numbers ≡ self.old.numbers }
    {
        if self.has_none() {
            return Ok(());
        }
        // What the call returns into is set to zero here, and not where none is made.
        match self.make_none(container) {
            Ok(()) => Ok(()),
            Err(status) => Err(status),
        }
    }

    /// As `put_value`, of a scalar.
    #[inline(always)]
    fn put_scalar<B: Inward>(
        &mut self,
        alloc: Global,
        container: u64,
        by: B,
        note: Note,
    ) -> Result<Option<Datum>, Status>
        ensures took { IfOk result (PutsDatum (PutValueBy (B.call by)) self.old self.new container (datums.Scalar note)) }
        ensures refused { IfErr result
            (PutsNoDatum (PutValueBy (B.call by)) self.old self.new container (datums.Scalar note)) }
        ensures spent { OnOk result (KeepsNames self.old self.new) }
        ensures came { IfOk result (λ came. IfSome came (NamesDatum self.new)) }
        ensures handles { OnErr result (self.new.handles ≡ self.old.handles) }
        ensures numbers { OnErr result (self.new.numbers ≡ self.old.numbers) }
    {
        self.ready_none(container)?;
        let object = find(&self.handles, &self.numbers, container)?;
        let Some(none) = &mut self.none else {
            unreachable!()
        };
        let value = Value::Scalar(note);
        match by.try_put_value(alloc, self.mutator.frame(), none, object, value) {
            Ok(came) => Ok(number_came(&mut self.handles, &self.numbers, came)),
            Err(
                HandedBack {
                    fault,
                    value: Value::Scalar(_note),
                },
            ) => Err(Status::Fault(fault)),
            Err(_handed) => unreachable!(),
        }
    }

    /// As `put_value`, of an object.
    #[inline(always)]
    fn put_object<B: Inward>(
        &mut self,
        alloc: Global,
        container: u64,
        by: B,
        value: u64,
        note: Note,
    ) -> Result<Option<Datum>, Status>
        ensures took { IfOk result
            (PutsDatum (PutValueBy (B.call by)) self.old self.new container (datums.Object value note)) }
        ensures refused { IfErr result
            (PutsNoDatum (PutValueBy (B.call by)) self.old self.new container (datums.Object value note)) }
        ensures spent { OnOk result (SpendsName self.old self.new value) }
        ensures came { IfOk result (λ came. IfSome came (NamesDatum self.new)) }
        ensures handles { OnErr result (self.new.handles ≡ self.old.handles) }
        ensures numbers { OnErr result (self.new.numbers ≡ self.old.numbers) }
    {
        let into = self.place_of(container)?;
        let from = self.place_of(value)?;
        if into == from {
            return Err(Status::Same);
        }
        self.ready_none(container)?;
        let Some(given) = self.handles.take(from) else {
            unreachable!()
        };
        let Some(none) = &mut self.none else {
            unreachable!()
        };
        let Some(object) = self.handles.at(into) else {
            unreachable!()
        };
        let given = Value::Object(given, note);
        match by.try_put_value(alloc, self.mutator.frame(), none, object, given) {
            Ok(came) => {
                self.numbers.spend(from);
                Ok(number_came(&mut self.handles, &self.numbers, came))
            }
            Err(
                HandedBack {
                    fault,
                    value: Value::Object(back, _note),
                },
            ) => {
                lay(&mut self.handles, back);
                Err(Status::Fault(fault))
            }
            Err(_handed) => unreachable!(),
        }
    }
}
