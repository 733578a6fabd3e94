//! What the object of a number is and holds.

ghost use Rattle.std.specs.Prelude.{◌≡◌, ◌≢◌, ◌⊎◌, Some, IfOk, IfErr, OnErr, IsTrue, IsFalse};
ghost use Rattle.brc_words.specs.declared.fault.Fault.TheVariants as faults;
ghost use Rattle.brc_count.specs.Locking.{cell_in};
ghost use Rattle.brc_things.specs.Makers.{truth_cell};
ghost use Rattle.brc_things.specs.Looking.{LenOf};
ghost use Rattle.brc_client.specs.Clients.{Names, NamesNone, KeepsNumbers};
ghost use Rattle.brc_client.specs.Calls.{OfNamed, RefusedOf, Looks, Shown, ShownBytes, IsBytes, IsOne};
ghost use Rattle.brc_client.specs.Told.{KindTold, IntTold};

use crate::client::{Client, find};
use crate::status::Status;
use crate::told::{int_told, kind_told};
use brc_heap::{same_object, truth_of};
use brc_things::{try_bytes_shown, try_len_of, try_text_is, try_text_shown};
use brc_words::Kind;

impl Client {
    /// What kind of object it is. Foreign, Stale; then Busy. It takes no lock of None, booleans and integers from -5 to 256.
    #[tactic(auto, using(crate::proofs::Placed::keeps))]
    pub fn kind(&mut self, number: u64) -> Result<Kind, Status>
        ensures looked { Looks (KindTold self.old.frame self.new.frame) self.old self.new number result }
        ensures keeps { KeepsNumbers self.old self.new }
    {
        let object = find(&self.handles, &self.numbers, number)?;
        match kind_told(self.mutator.frame(), object) {
            Ok(kind) => Ok(kind),
            Err(fault) => Err(Status::Fault(fault)),
        }
    }

    /// How many entries the container has. Foreign, Stale; then Busy, and WrongKind if it is no container.
    #[tactic(auto, using(crate::proofs::Placed::keeps))]
    pub fn len(&mut self, number: u64) -> Result<usize, Status>
        ensures looked { Looks (LenOf self.old.frame self.new.frame) self.old self.new number result }
        ensures keeps { KeepsNumbers self.old self.new }
    {
        let place = self.place_of(number)?;
        let Some(object) = self.handles.get(place) else {
            unreachable!()
        };
        match try_len_of(self.mutator.frame(), object) {
            Ok(len) => Ok(len),
            Err(fault) => Err(Status::Fault(fault)),
        }
    }

    /// The number that the integer is. Foreign, Stale; then Busy, and WrongKind if it is none. It takes no lock of None,
    /// booleans and integers from -5 to 256.
    #[tactic(auto, using(crate::proofs::Placed::keeps))]
    #[inline]
    pub fn int(&mut self, number: u64) -> Result<i64, Status>
        ensures looked { Looks (IntTold self.old.frame self.new.frame) self.old self.new number result }
        ensures keeps { KeepsNumbers self.old self.new }
    {
        let object = find(&self.handles, &self.numbers, number)?;
        match int_told(self.mutator.frame(), object) {
            Ok(value) => Ok(value),
            Err(fault) => Err(Status::Fault(fault)),
        }
    }

    /// Whether the object is True or False. Foreign, Stale; then WrongKind if it is neither. It takes no lock.
    pub fn truth(&mut self, number: u64) -> Result<bool, Status>
        ensures truth { IfOk result (λ is_true. OfNamed self.old number
            (λ object. cell_in self.old.frame object.place ≡ Some (truth_cell is_true))) }
        ensures refused { IfErr result (RefusedOf (λ k fault. (fault ≡ faults.WrongKind)
            × (cell_in self.old.frame k ≢ Some 1) × (cell_in self.old.frame k ≢ Some 2)) self.old self.new number) }
        ensures same { self.new ≡ self.old }
    {
        let place = self.place_of(number)?;
        let Some(object) = self.handles.get(place) else {
            unreachable!()
        };
        match truth_of(self.mutator.frame(), object) {
            Ok(is_true) => Ok(is_true),
            Err(fault) => Err(Status::Fault(fault)),
        }
    }

    /// A number that no other live object has; once this one is dead, another may get it. Foreign, Stale. It takes no lock.
    pub fn identity(&mut self, number: u64) -> Result<u64, Status>
        ensures identity { IfOk result (λ identity. OfNamed self.old number
            (λ object. cell_in self.old.frame object.place ≡ Some identity)) }
        ensures refused { IfErr result (NamesNone self.old number) }
        ensures same { self.new ≡ self.old }
    {
        let place = self.place_of(number)?;
        let Some(object) = self.handles.get(place) else {
            unreachable!()
        };
        Ok(u64::from(self.mutator.frame().cell(object)))
    }

    /// How long the text is, and its bytes from one on, as many as there is room for. Foreign, Stale; then Busy, and WrongKind
    /// if it is no text. It takes no memory.
    #[tactic(auto, using(crate::proofs::Placed::keeps))]
    pub fn text(&mut self, number: u64, from: usize, to: &mut [u8]) -> Result<usize, Status>
        ensures looked { Looks (Shown from to.old to.new self.old.frame self.new.frame) self.old self.new number result }
        ensures unchanged { OnErr result (to.new ≡ to.old) }
        ensures keeps { KeepsNumbers self.old self.new }
    {
        let place = self.place_of(number)?;
        let Some(object) = self.handles.get(place) else {
            unreachable!()
        };
        match try_text_shown(self.mutator.frame(), object, from, to) {
            Ok(len) => Ok(len),
            Err(fault) => Err(Status::Fault(fault)),
        }
    }

    /// How many bytes the object has, and these from one on, as many as there is room for. Foreign, Stale; then Busy, and
    /// WrongKind if it is neither a text nor other bytes. It takes no memory.
    #[tactic(auto, using(crate::proofs::Placed::keeps))]
    pub fn bytes(&mut self, number: u64, from: usize, to: &mut [u8]) -> Result<usize, Status>
        ensures looked { Looks (ShownBytes from to.old to.new self.old.frame self.new.frame) self.old self.new number result }
        ensures unchanged { OnErr result (to.new ≡ to.old) }
        ensures keeps { KeepsNumbers self.old self.new }
    {
        let place = self.place_of(number)?;
        let Some(object) = self.handles.get(place) else {
            unreachable!()
        };
        match try_bytes_shown(self.mutator.frame(), object, from, to) {
            Ok(len) => Ok(len),
            Err(fault) => Err(Status::Fault(fault)),
        }
    }

    /// Whether a text, or other bytes, are just these. Foreign, Stale; then Busy, and WrongKind if it is neither. It takes no
    /// memory.
    #[tactic(auto, using(crate::proofs::Placed::keeps))]
    pub fn text_is(&mut self, number: u64, bytes: &[u8]) -> Result<bool, Status>
        ensures looked { Looks (IsBytes bytes.now self.old.frame self.new.frame) self.old self.new number result }
        ensures keeps { KeepsNumbers self.old self.new }
    {
        let place = self.place_of(number)?;
        let Some(object) = self.handles.get(place) else {
            unreachable!()
        };
        match try_text_is(self.mutator.frame(), object, bytes) {
            Ok(is_same) => Ok(is_same),
            Err(fault) => Err(Status::Fault(fault)),
        }
    }

    /// Whether the two are references to one object. Foreign, Stale for the first, then for the other. It takes no lock.
    pub fn same_object(&mut self, one: u64, other: u64) -> Result<bool, Status>
        ensures same_object { IfOk result (λ is_same. OfNamed self.old one (λ first. OfNamed self.old other (λ second.
            (IsTrue is_same → IsOne self.old first second) × (IsFalse is_same → IsOne self.old first second → ⊥)))) }
        ensures refused { IfErr result (λ status. NamesNone self.old one status
            ⊎ (Names self.old one × NamesNone self.old other status)) }
        ensures same { self.new ≡ self.old }
    {
        let first = self.place_of(one)?;
        let second = self.place_of(other)?;
        let Some(first) = self.handles.get(first) else {
            unreachable!()
        };
        let Some(second) = self.handles.get(second) else {
            unreachable!()
        };
        Ok(same_object(self.mutator.frame(), first, second))
    }
}
