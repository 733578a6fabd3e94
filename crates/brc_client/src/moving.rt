//! What is made, what a container gives, and what it takes.

ghost use Rattle.std.specs.Prelude.{◌≡◌, ◌<◌, Ok, Err, Some, None, IfOk, IfErr, IfSome, OnOk, OnErr, MatchOption};
ghost use Rattle.brc_handles.specs.Handles.{slot};
ghost use Rattle.brc_things.specs.Dict_Calls.{DictPair};
ghost use Rattle.brc_places.specs.Calls.{MadeBy, GaveBy, TookBy};
ghost use Rattle.brc_client.specs.Numbers.{number_at};
ghost use Rattle.brc_client.specs.Clients.{Names, KeepsNumbers, KeepsNames, SpendsName};
ghost use Rattle.brc_client.specs.Calls.{OfNamed, ByHeap, RefusedOf, Adds, WithKey, PutsIn, PutsNot};

use crate::client::{Client, find, insert};
use crate::numbers::Numbers;
use crate::status::Status;
use crate::take_out::Outward;
use brc_handles::Handles;
use brc_places::{Make, TakeBy, make_by, try_take_at};
use brc_things::try_dict_pair;
use brc_words::Key;
use std::alloc::Global;

/// The number of the handle in the place, if one is there.
#[inline(always)]
fn number_there(handles: &Handles<Global>, numbers: &Numbers, place: usize) -> Option<u64>
    requires inside { place < 65536 }
    ensures { MatchOption (slot handles.now place) (result ≡ None) (λ h. result ≡ Some (number_at numbers.now place)) }
{
    match handles.get(place) {
        None => None,
        Some(_handle) => Some(numbers.number(place)),
    }
}

impl Client {
    /// A reference to what is made, under a number. It is refused as `make_by` of `brc_places` is: FrameFull,
    /// LedgerFull, OutOfMemory, HeapFull.
    #[tactic(auto, using(crate::proofs::Placed::vacant, crate::proofs::Placed::apart, crate::proofs::Placed::gained, crate::proofs::Placed::keeps, crate::proofs::Named::names_kept, crate::proofs::Named::names_given))]
    #[inline(always)]
    pub fn make(&mut self, alloc: Global, make: Make<'_>) -> Result<u64, Status>
        ensures made { IfOk result (Adds (MadeBy make.entry self.old.frame) self.old self.new) }
        ensures refused { IfErr result (ByHeap (λ fault. MadeBy make.entry self.old.frame self.new.frame (Err fault))) }
        ensures names { IfOk result (Names self.new) }
        ensures keeps { KeepsNames self.old self.new }
        ensures unchanged { OnErr result (KeepsNumbers self.old self.new) }
    {
        match make_by(alloc, self.mutator.frame(), make) {
            Ok(given) => Ok(insert(&mut self.handles, &self.numbers, given)),
            Err(fault) => Err(Status::Fault(fault)),
        }
    }

    /// The reference that the container gives by this call, under a number. Foreign, Stale; then as the call is refused
    /// (`try_take_out` of `by`), Busy first.
    #[tactic(auto, using(crate::proofs::Placed::owned, crate::proofs::Placed::vacant, crate::proofs::Placed::apart, crate::proofs::Placed::gained, crate::proofs::Placed::keeps, crate::proofs::Named::names_kept, crate::proofs::Named::names_given))]
    #[inline(always)]
    pub fn give<B: Outward>(&mut self, container: u64, by: B) -> Result<u64, Status>
        ensures gave { IfOk result (λ more. OfNamed self.old container
            (λ object. Adds (λ new. GaveBy (B.call by) self.old.frame new object.place) self.old self.new more)) }
        ensures refused { IfErr result
            (RefusedOf (λ k fault. GaveBy (B.call by) self.old.frame self.new.frame k (Err fault))
            self.old self.new container) }
        ensures names { IfOk result (Names self.new) }
        ensures keeps { KeepsNames self.old self.new }
        ensures unchanged { OnErr result (KeepsNumbers self.old self.new) }
    {
        let object = find(&self.handles, &self.numbers, container)?;
        match by.try_take_out(self.mutator.frame(), object) {
            Ok(given) => Ok(insert(&mut self.handles, &self.numbers, given)),
            Err(fault) => Err(Status::Fault(fault)),
        }
    }

    /// The value's reference goes into the container by this call, and its number names nothing any more. The answer is
    /// the number of what came out for it, if anything did. Foreign, Stale for the container, then for the value; Same;
    /// then as the call is refused (`try_take_by` of `brc_places`), Busy first: then the value has its number still.
    #[tactic(auto, using(crate::proofs::Placed::put_in, crate::proofs::Placed::keeps, crate::proofs::Named::name_spent))]
    #[inline(always)]
    pub fn take(
        &mut self,
        alloc: Global,
        container: u64,
        by: TakeBy<'_>,
        value: u64,
    ) -> Result<Option<u64>, Status>
        ensures took { IfOk result
            (PutsIn (TookBy by.entry self.old.frame self.new.frame) self.old self.new container value) }
        ensures refused { IfErr result
            (PutsNot (TookBy by.entry self.old.frame self.new.frame) self.old self.new container value) }
        ensures spent { OnOk result (SpendsName self.old self.new value) }
        ensures came { IfOk result (λ came. IfSome came (Names self.new)) }
        ensures unchanged { OnErr result (KeepsNumbers self.old self.new) }
    {
        let into = self.place_of(container)?;
        let from = self.place_of(value)?;
        if into == from {
            return Err(Status::Same);
        }
        match try_take_at(
            alloc,
            self.mutator.frame(),
            &mut self.handles,
            into,
            by,
            from,
        ) {
            Err(fault) => Err(Status::Fault(fault)),
            Ok(()) => {
                self.numbers.spend(from);
                Ok(number_there(&self.handles, &self.numbers, from))
            }
        }
    }

    /// A copy of the key at this index of a dictionary, and a reference more to the value beside it, under a number.
    /// Foreign, Stale; then as `try_dict_pair` of `brc_things`: Busy, WrongKind, NoSuchPlace, FrameFull, OutOfMemory.
    #[tactic(auto, using(crate::proofs::Placed::owned, crate::proofs::Placed::vacant, crate::proofs::Placed::apart, crate::proofs::Placed::gained, crate::proofs::Placed::keeps, crate::proofs::Named::names_kept, crate::proofs::Named::names_given))]
    pub fn pair(
        &mut self,
        alloc: Global,
        dict: u64,
        index: u32,
    ) -> Result<(Key<Global>, u64), Status>
        ensures gave { IfOk result (λ pair. OfNamed self.old dict (λ object. Adds
            (λ new given. WithKey pair.0 (DictPair self.old.frame new object.place index) given)
            self.old self.new pair.1)) }
        ensures refused { IfErr result
            (RefusedOf (λ k fault. DictPair self.old.frame self.new.frame k index (Err fault)) self.old self.new dict) }
        ensures names { IfOk result (λ pair. Names self.new pair.1) }
        ensures keeps { KeepsNames self.old self.new }
        ensures unchanged { OnErr result (KeepsNumbers self.old self.new) }
    {
        let object = find(&self.handles, &self.numbers, dict)?;
        match try_dict_pair(alloc, self.mutator.frame(), object, index) {
            Ok((key, given)) => {
                let number = insert(&mut self.handles, &self.numbers, given);
                Ok((key, number))
            }
            Err(fault) => Err(Status::Fault(fault)),
        }
    }
}
