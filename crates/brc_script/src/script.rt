//! Scripts, their sections, and the lines of these.

ghost use Rattle.std.specs.Prelude.{◌≡◌, ◌≤◌, length, true};
ghost use Rattle.brc_script.specs.Instructions.{registers_differ};

use crate::instruction::Instruction;
use crate::limits::MOST_SECTIONS;
use crate::sequence::Sequence;
use brc_words::Text;
use std::alloc::Allocator;
use std::marker::Model;

/// An instruction, whose registers differ, and the number of its line in the whole script, counted from 1.
#[derive(Drop)]
pub struct Line<A: Allocator> {
    number: u32,
    instruction: Instruction<A>,
}

impl<A: Allocator> Model for Line<A> {
    ghost use Rattle.std.specs.Prelude.{◌≡◌, true};
    ghost use Rattle.brc_script.specs.Instructions.{NumberedLine, registers_differ};

    ghost Value = { NumberedLine A };

    ghost view = { λ l. record { number = l.number; instruction = l.instruction } };

    // No register stands twice in an instruction.
    ghost invariant = { λ l. registers_differ l.instruction ≡ true };
}

impl<A: Allocator> Line<A> {
    pub fn new(number: u32, instruction: Instruction<A>) -> Self
        requires { registers_differ instruction ≡ true }

        ensures number { result.number ≡ number }
        ensures instruction { result.instruction ≡ instruction }
    {
        Line {
            number,
            instruction,
        }
    }

    pub fn number(&self) -> u32
        ensures { result ≡ self.now.number }
    {
        self.number
    }

    pub fn instruction(&self) -> &Instruction<A>
        ensures is { result.now ≡ self.now.instruction }
        ensures differ { registers_differ result.now ≡ true }
    {
        &self.instruction
    }
}

/// One line; or the lines between a `repeat` and its `end`, which are run so many times, 0 to 1,000,000. No `repeat`
/// stands in another.
#[derive(Drop)]
pub enum Piece<A: Allocator> {
    One(Line<A>),
    Repeat {
        times: u32,
        lines: Sequence<Line<A>, A>,
    },
}

/// A section: its name, and its pieces in order.
#[derive(Drop)]
pub struct Section<A: Allocator> {
    pub name: Text<A>,
    pub pieces: Sequence<Piece<A>, A>,
}

/// The sections of a script, seen as their list: 1 to 63.
#[derive(Drop)]
pub struct Script<A: Allocator> {
    sections: Sequence<Section<A>, A>,
}

impl<A: Allocator> Model for Script<A> {
    ghost use Rattle.std.specs.Prelude.{List};
    ghost use Rattle.brc_script.specs.declared.script.Section.{Section};
    ghost use Rattle.brc_script.specs.Scripts.{IsScript};

    ghost Value = { List (Section A) };

    ghost view = { λ s. s.sections };

    ghost invariant = { λ s. IsScript s.sections };
}

impl<A: Allocator> Script<A> {
    /// The script of these sections.
    pub(crate) fn new(sections: Sequence<Section<A>, A>) -> Self
        requires some { 1 ≤ length sections }
        requires few { length sections ≤ MOST_SECTIONS }

        ensures { result ≡ sections }
    {
        Script { sections }
    }

    /// The sections in order.
    pub fn sections(&self) -> &[Section<A>]
        ensures are { result.now ≡ self.now }
        ensures some { 1 ≤ length result.now }
        ensures few { length result.now ≤ MOST_SECTIONS }
    {
        self.sections.as_slice()
    }
}
