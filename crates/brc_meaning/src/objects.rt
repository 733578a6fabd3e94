//! All objects that a section made.

ghost use Rattle.std.specs.Prelude.{◌≡◌, ◌≤◌, ◌++◌, ◌∷◌, [], length, IfOk, IfErr};
ghost use Rattle.brc_words.specs.declared.fault.Fault.TheVariants.{OutOfMemory};
ghost use Rattle.brc_words.specs.declared.limits.TheConstants.{MOST_ENTRIES};
ghost use Rattle.brc_meaning.specs.declared.reference.Reference.TheVariants.{Object as AnObject};
ghost use Rattle.brc_meaning.specs.Objects.{object_call, keyed_call, entries_in, number_in};
ghost use Rattle.brc_meaning.specs.States.{calling, asked, printing};
ghost use Rattle.brc_meaning.specs.Outcomes.{CallsAsMeant, StepsAsMeant};

use crate::call::{Call, KeyedCall};
use crate::object::Object;
use crate::printed::Printed;
use crate::reference::Reference;
use brc_words::{Fault, Key};
use std::alloc::Allocator;
use std::marker::Model;

/// The objects in the order in which they were made; nothing is ever taken out.
#[derive(Drop)]
pub struct Objects<A: Allocator> {
    made: Vec<Object<A>, A>,
}

impl<A: Allocator> Model for Objects<A> {
    ghost use Rattle.std.specs.Prelude.{List};
    ghost use Rattle.brc_meaning.specs.declared.object.Object.{Object};

    ghost Value = { List (Object A) };

    ghost view = { λ o. o.made.items };
}

impl<A: Allocator> Objects<A> {
    pub(crate) fn new(alloc: A) -> Self
        ensures { result ≡ [] }
    {
        Objects {
            made: Vec::new(alloc),
        }
    }

    /// How many were made.
    pub(crate) fn len(&self) -> usize
        ensures { result ≡ length self.now }
    {
        self.made.len()
    }

    /// One more object, and a reference to it.
    pub(crate) fn add(&mut self, object: Object<A>) -> Result<Reference, Fault>
        ensures added { IfOk result (λ _. self.new ≡ self.old ++ object ∷ []) }
        ensures reference { IfOk result (λ reference. reference ≡ AnObject (length self.old)) }
        ensures refused { IfErr result (λ fault. fault ≡ OutOfMemory) }
    {
        let place = self.made.len();
        self.made.push(object)?;
        Ok(Reference::Object(place))
    }

    /// A call on the list or mailbox that is meant.
    pub(crate) fn call(
        &mut self,
        reference: Reference,
        call: Call,
    ) -> Result<Option<Reference>, Fault>
        ensures { CallsAsMeant result self.old self.new (calling (object_call call) reference self.old) }
    {
        let Reference::Object(place) = reference else {
            return Err(Fault::WrongKind);
        };
        if place >= self.made.len() {
            return Err(Fault::WrongKind);
        }
        let object = &mut self.made[place];
        object.call(call)
    }

    /// A call on the dictionary that is meant.
    pub(crate) fn call_at(
        &mut self,
        alloc: A,
        reference: Reference,
        key: &Key<A>,
        call: KeyedCall,
    ) -> Result<Option<Reference>, Fault>
        ensures { CallsAsMeant result self.old self.new (calling (keyed_call key.now call) reference self.old) }
    {
        let Reference::Object(place) = reference else {
            return Err(Fault::WrongKind);
        };
        if place >= self.made.len() {
            return Err(Fault::WrongKind);
        }
        let object = &mut self.made[place];
        object.call_at(alloc, key, call)
    }

    /// The number of entries of the container that is meant.
    pub(crate) fn entries(&self, reference: Reference) -> Result<usize, Fault>
        ensures counted { result ≡ asked entries_in reference self.now }
        ensures few { IfOk result (λ entries. entries ≤ MOST_ENTRIES) }
    {
        let Reference::Object(place) = reference else {
            return Err(Fault::WrongKind);
        };
        match self.made.get(place) {
            Some(object) => object.entries(),
            None => Err(Fault::WrongKind),
        }
    }

    /// The integer that is meant.
    pub(crate) fn number(&self, reference: Reference) -> Result<i64, Fault>
        ensures { result ≡ asked number_in reference self.now }
    {
        match reference {
            Reference::Small(number) => Ok(number),
            Reference::Object(place) => match self.made.get(place) {
                Some(object) => object.number(),
                None => Err(Fault::WrongKind),
            },
        }
    }

    /// Prints the line of the object that is meant.
    pub(crate) fn print(&self, reference: Reference, printed: &mut Printed<A>) -> Result<(), Fault>
        ensures { StepsAsMeant result printed.old printed.new (printing reference self.now printed.old) }
    {
        match reference {
            Reference::Small(number) => printed.add_integer(number),
            Reference::Object(place) => match self.made.get(place) {
                Some(object) => object.print(printed),
                None => Err(Fault::WrongKind),
            },
        }
    }
}
