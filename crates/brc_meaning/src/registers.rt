//! The registers of a section.

ghost use Rattle.std.specs.Prelude.{◌≡◌};
ghost use Rattle.brc_meaning.specs.States.{held, holding, no_registers};

use crate::reference::Reference;
use brc_script::Register;
use brc_words::Fault;
use std::marker::Model;

/// What each of the sixteen registers holds, by its number.
#[derive(Drop)]
pub struct Registers {
    held: [Option<Reference>; 16],
}

impl Model for Registers {
    ghost use Rattle.std.specs.Prelude.{List, Option};
    ghost use Rattle.brc_meaning.specs.declared.reference.Reference.{Reference};

    ghost Value = { List (Option Reference) };

    ghost view = { λ r. r.held };
}

impl Registers {
    /// All empty, as a section starts.
    pub(crate) fn empty() -> Self
        ensures { result ≡ no_registers }
    {
        Registers { held: [None; 16] }
    }

    /// The reference in the register; an empty one is no place to read from.
    pub(crate) fn held(&self, register: Register) -> Result<Reference, Fault>
        ensures { result ≡ held register self.now }
    {
        match self.held[register.number() as usize] {
            Some(reference) => Ok(reference),
            None => Err(Fault::NoSuchPlace),
        }
    }

    /// From now on the register holds this, and no more what it held.
    pub(crate) fn hold(&mut self, register: Register, reference: Option<Reference>)
        ensures { self.new ≡ holding register reference self.old }
    {
        self.held[register.number() as usize] = reference;
    }
}
