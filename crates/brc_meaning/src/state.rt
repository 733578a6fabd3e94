//! What a section has done so far, and the parts of its instructions.

ghost use Rattle.std.specs.Prelude.{◌≡◌, IfOk, IfErr};
ghost use Rattle.brc_words.specs.declared.fault.Fault.TheVariants.{OutOfMemory};
ghost use Rattle.brc_meaning.specs.Objects.{object_call, keyed_call};
ghost use Rattle.brc_meaning.specs.States.{start, with_object, with_integer, called};
ghost use Rattle.brc_meaning.specs.Outcomes.{StepsAsMeant};

use crate::call::{Call, KeyedCall};
use crate::object::Object;
use crate::objects::Objects;
use crate::printed::Printed;
use crate::reference::{Reference, is_small};
use crate::registers::Registers;
use brc_script::Register;
use brc_words::{Fault, Key};
use std::alloc::Allocator;

/// The registers, all objects made, and the printed bytes.
#[derive(Drop)]
pub struct State<A: Allocator> {
    pub registers: Registers,
    pub objects: Objects<A>,
    pub printed: Printed<A>,
}

impl<A: Allocator + Copy> State<A> {
    pub(crate) fn start(alloc: A) -> Self
        ensures { result ≡ start }
    {
        State {
            registers: Registers::empty(),
            objects: Objects::new(alloc),
            printed: Printed::new(alloc),
        }
    }
}

impl<A: Allocator> State<A> {
    /// The register holds a new object.
    pub(crate) fn make(&mut self, to: Register, object: Object<A>) -> Result<(), Fault>
        ensures made { IfOk result (λ _. self.new ≡ with_object object to self.old) }
        ensures refused { IfErr result (λ fault. fault ≡ OutOfMemory) }
    {
        let reference = self.objects.add(object)?;
        self.registers.hold(to, Some(reference));
        Ok(())
    }

    /// The register holds an integer: one that is there always, or a new one.
    pub(crate) fn make_integer(&mut self, to: Register, number: i64) -> Result<(), Fault>
        ensures made { IfOk result (λ _. self.new ≡ with_integer number to self.old) }
        ensures refused { IfErr result (λ fault. fault ≡ OutOfMemory) }
    {
        if is_small(number) {
            self.registers.hold(to, Some(Reference::Small(number)));
            return Ok(());
        }
        self.make(to, Object::Int(number))
    }

    /// A call on the list or mailbox that the register holds; the answer goes to the other register.
    pub(crate) fn call(
        &mut self,
        container: Register,
        call: Call,
        to: Register,
    ) -> Result<(), Fault>
        ensures { StepsAsMeant result self.old self.new (called (object_call call) container to self.old) }
    {
        let reference = self.registers.held(container)?;
        let answer = self.objects.call(reference, call)?;
        self.registers.hold(to, answer);
        Ok(())
    }

    /// A call on the dictionary that the register holds; the answer goes to the other register.
    pub(crate) fn call_at(
        &mut self,
        alloc: A,
        dict: Register,
        key: &Key<A>,
        call: KeyedCall,
        to: Register,
    ) -> Result<(), Fault>
        ensures { StepsAsMeant result self.old self.new (called (keyed_call key.now call) dict to self.old) }
    {
        let reference = self.registers.held(dict)?;
        let answer = self.objects.call_at(alloc, reference, key, call)?;
        self.registers.hold(to, answer);
        Ok(())
    }
}
