//! The registers of a section.

ghost use Rattle.std.specs.Prelude.{◌≡◌, ◌<◌};

use crate::limits::REGISTERS;
use std::marker::Model;

/// A register, by its number: 0 to 15.
#[derive(Clone, Copy, Debug, PartialEq, Eq)]
pub struct Register {
    number: u8,
}

impl Model for Register {
    ghost use Rattle.std.specs.Prelude.{ℕ, ◌<◌};
    ghost use Rattle.brc_script.specs.declared.limits.TheConstants.{REGISTERS};

    ghost Value = { ℕ };

    ghost view = { λ r. r.number };

    ghost invariant = { λ r. r.number < REGISTERS };

    ghost inverse = { λ n. record { number = n } };
}

impl Register {
    /// The register of this number.
    pub fn new(number: u8) -> Register
        requires { number < REGISTERS }

        ensures { result ≡ number }
    {
        Register { number }
    }

    /// Its number, below 16.
    pub fn number(self) -> u8
        ensures is { result ≡ self }
        ensures less { result < REGISTERS }
    {
        self.number
    }
}
