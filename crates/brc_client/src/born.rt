//! Lists that are made with their values.
//!
//! Whatever can be refused is refused before the list is made. Each value goes in under a lock of its own, as
//! `list_push_value` puts one: a birth stores an empty container, and an unlocking moves one reference.

ghost use Rattle.std.specs.Prelude.{◌≡◌, ◌≢◌, ℕ, None, Err, IfOk, IfErr, OnOk, OnErr};
ghost use Rattle.brc_words.specs.declared.note.Note.{Note as NoteSeen};
ghost use Rattle.brc_places.specs.Calls.{MadeBy};
ghost use Rattle.brc_places.specs.Value_Calls.{PutValueBy};
ghost use Rattle.brc_places.specs.declared.place_makers.Make.TheVariants as makes;
ghost use Rattle.brc_places.specs.declared.valued.PutBy.TheVariants as puts;
ghost use Rattle.brc_client.specs.Clients.{Names, KeepsNumbers, KeepsNames, SpendsName};
ghost use Rattle.brc_client.specs.Calls.{ByHeap, Adds, Releases};
ghost use Rattle.brc_client.specs.Valued.{PutsDatum, SpendsDatumName};
ghost use Rattle.brc_client.specs.Value_Row.{NoneTwice};
ghost use Rattle.brc_client.specs.Born.{AreGiven, NotGiven, SpendsNumbers, PushesEach, RefusesPush, HoldsNone, Awaits};
ghost use Rattle.brc_client.specs.Born.{StopsPushing, ListOf, NoListOf};
ghost use Rattle.brc_client.specs.declared.data.Datum.TheVariants as datums;

use crate::client::{Client, insert, lay};
use crate::data::Datum;
use crate::status::Status;
use crate::value_row::{ValueRow, are_named, none_twice};
use brc_count::HandedBack;
use brc_things::{Value, new_list_with_room, try_list_push_value};
use brc_words::{Fault, MOST_ENTRIES, Note};
use std::alloc::Global;

impl Client {
    /// Whether each object's number names something, and none stands twice: Foreign or Stale of the first that names none;
    /// then Same.
    #[inline(always)]
    fn are_given<S: ValueRow>(&mut self, values: &S) -> Result<(), Status>
        ensures given { OnOk result (AreGiven self.old (S.items values.now)) }
        ensures refused { IfErr result (NotGiven self.old (S.items values.now)) }
        ensures same { self.new ≡ self.old }
    {
        if are_named(&self.handles, &self.numbers, values)? {
            none_twice(&mut self.numbers, values)
        } else {
            Ok(())
        }
    }

    /// An empty list with memory for so many entries, under a number. FrameFull, LedgerFull, OutOfMemory, HeapFull.
    #[inline(always)]
    fn begin_list(&mut self, alloc: Global, room: usize) -> Result<u64, Status>
        ensures made { IfOk result (Adds (MadeBy makes.«List» self.old.frame) self.old self.new) }
        ensures refused { IfErr result (ByHeap (λ fault. MadeBy makes.«List» self.old.frame self.new.frame (Err fault))) }
        ensures names { IfOk result (Names self.new) }
        ensures keeps { KeepsNames self.old self.new }
        ensures unchanged { OnErr result (KeepsNumbers self.old self.new) }
        ensures none { OnOk result (HoldsNone self.old → HoldsNone self.new) }
    {
        match new_list_with_room(alloc, self.mutator.frame(), room) {
            Ok(given) => Ok(insert(&mut self.handles, &self.numbers, given)),
            Err(fault) => Err(Status::Fault(fault)),
        }
    }

    /// A scalar becomes the list's last entry.
    #[inline(always)]
    fn push_scalar(&mut self, list: u64, note: Note) -> Result<(), Status>
        requires list { Names self.old list }
        requires none { HoldsNone self.old }
        ensures pushed { OnOk result (PutsDatum (PutValueBy puts.Push) self.old self.new list (datums.Scalar note) None) }
        ensures refused { IfErr result (RefusesPush list (datums.Scalar note) self.old self.new) }
        ensures spent { OnOk result (KeepsNames self.old self.new) }
        ensures none { OnOk result (HoldsNone self.new) }
    {
        let Some(object) = self.handles.at((list % 65_536) as usize) else {
            unreachable!()
        };
        let Some(none) = &self.none else {
            unreachable!()
        };
        match try_list_push_value(self.mutator.frame(), none, object, Value::Scalar(note)) {
            Ok(()) => Ok(()),
            Err(
                HandedBack {
                    fault,
                    value: Value::Scalar(_note),
                },
            ) => Err(Status::Fault(fault)),
            Err(_handed) => unreachable!(),
        }
    }

    /// An object becomes the list's last entry, and its number names nothing any more.
    #[inline(always)]
    fn push_object(&mut self, list: u64, number: u64, note: Note) -> Result<(), Status>
        requires list { Names self.old list }
        requires named { Names self.old number }
        requires other { list ≢ number }
        requires none { HoldsNone self.old }
        ensures pushed { OnOk result
            (PutsDatum (PutValueBy puts.Push) self.old self.new list (datums.Object number note) None) }
        ensures refused { IfErr result (RefusesPush list (datums.Object number note) self.old self.new) }
        ensures spent { OnOk result (SpendsName self.old self.new number) }
        ensures none { OnOk result (HoldsNone self.new) }
    {
        let from = (number % 65_536) as usize;
        let Some(given) = self.handles.take(from) else {
            unreachable!()
        };
        let Some(none) = &self.none else {
            unreachable!()
        };
        let Some(object) = self.handles.at((list % 65_536) as usize) else {
            unreachable!()
        };
        let given = Value::Object(given, note);
        match try_list_push_value(self.mutator.frame(), none, object, given) {
            Ok(()) => {
                self.numbers.spend(from);
                Ok(())
            }
            Err(
                HandedBack {
                    fault,
                    value: Value::Object(back, _note),
                },
            ) => {
                lay(&mut self.handles, back);
                Err(Status::Fault(fault))
            }
            Err(_handed) => unreachable!(),
        }
    }

    /// A value becomes the list's last entry.
    #[inline(always)]
    fn push_one(&mut self, list: u64, datum: Datum) -> Result<(), Status>
        requires list { Names self.old list }
        requires named { (number : ℕ) (note : NoteSeen) → datum ≡ datums.Object number note → Names self.old number × (list ≢ number) }
        requires none { HoldsNone self.old }
        ensures pushed { OnOk result (PutsDatum (PutValueBy puts.Push) self.old self.new list datum None) }
        ensures refused { IfErr result (RefusesPush list datum self.old self.new) }
        ensures spent { OnOk result (SpendsDatumName self.old self.new datum) }
        ensures none { OnOk result (HoldsNone self.new) }
    {
        match datum {
            Datum::Scalar(note) => self.push_scalar(list, note),
            Datum::Object(number, note) => self.push_object(list, number, note),
        }
    }

    /// All values become entries of the list, in their order.
    #[inline(always)]
    fn push_each<S: ValueRow>(&mut self, list: u64, values: &S) -> Result<(), Status>
        requires ready { Awaits self.old list (S.items values.now) 0 }
        requires apart { NoneTwice (S.items values.now) }
        ensures pushed { OnOk result (PushesEach list (S.items values.now) self.old self.new) }
        ensures stopped { IfErr result (StopsPushing list (S.items values.now) self.old self.new) }
        ensures spent { OnOk result (SpendsNumbers (S.items values.now) self.old self.new) }
        ensures named { Names self.new list }
    {
        for at in 0..values.len() {
            self.push_one(list, values.item(at))?;
        }
        Ok(())
    }

    /// A list goes again that was made.
    #[cold]
    #[inline(never)]
    fn drop_list(&mut self, list: u64)
        requires named { Names self.old list }
        ensures released { Releases self.old self.new list }
    {
        let place = (list % 65_536) as usize;
        let Some(handle) = self.handles.take(place) else {
            unreachable!()
        };
        self.numbers.spend(place);
        self.mutator.frame().release(handle);
    }

    /// A list of these values, in their order, under a number. Its memory is had at once, for just so many. An object's
    /// number names nothing any more then. Full, for more than 1,048,576 values; Foreign or Stale of the first number that
    /// names none; Same, if a number stands twice; FrameFull and OutOfMemory for a handle to None, if none is kept;
    /// FrameFull, LedgerFull, OutOfMemory and HeapFull for the list. A refusal leaves all numbers as they were.
    #[inline(always)]
    pub fn new_list_of<S: ValueRow>(&mut self, alloc: Global, values: &S) -> Result<u64, Status>
        ensures made { IfOk result (ListOf (S.items values.now) self.old self.new) }
        ensures refused { IfErr result (NoListOf (S.items values.now) self.old self.new) }
        ensures names { IfOk result (Names self.new) }
        ensures spent { OnOk result (SpendsNumbers (S.items values.now) self.old self.new) }
    {
        if values.len() > MOST_ENTRIES as usize {
            return Err(Status::Fault(Fault::Full));
        }
        self.are_given(values)?;
        self.keep_none()?;
        let list = self.begin_list(alloc, values.len())?;
        match self.push_each(list, values) {
            Ok(()) => Ok(list),
            Err(status) => {
                self.drop_list(list);
                Err(status)
            }
        }
    }
}
