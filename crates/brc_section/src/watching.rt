//! What a gate that watches is told of a line: what its instruction has made, and what one that was refused was given.
//!
//! Nothing here takes a lock or makes an event: the cell of a register's object is what its thread's frame has.

ghost use Rattle.brc_instructions.specs.Registers.{OwnsRegisters};

use crate::gate::{Gate, Operands};
use brc_count::Frame;
use brc_count::biased::HasTable;
use brc_instructions::Registers;
use brc_script::{Instruction, Line, Register};
use brc_words::FIRST_MORTAL;
use std::alloc::Allocator;

/// The register that has what the instruction makes, if it makes an object.
fn made_in<A: Allocator>(instruction: &Instruction<A>) -> Option<Register> {
    match instruction {
        Instruction::Int { to, .. }
        | Instruction::Text { to, .. }
        | Instruction::List { to }
        | Instruction::Dict { to }
        | Instruction::Mailbox { to }
        | Instruction::Len { to, .. }
        | Instruction::Add { to, .. } => Some(*to),
        _ => None,
    }
}

/// The first register that the instruction reads: of a container's instruction, the container's.
pub fn first_operand<A: Allocator>(instruction: &Instruction<A>) -> Option<Register> {
    match instruction {
        Instruction::Copy { from: first, .. }
        | Instruction::Drop { from: first }
        | Instruction::Push { list: first, .. }
        | Instruction::Pop { list: first, .. }
        | Instruction::Get { list: first, .. }
        | Instruction::Set { list: first, .. }
        | Instruction::Len {
            container: first,
            ..
        }
        | Instruction::Put { dict: first, .. }
        | Instruction::Find { dict: first, .. }
        | Instruction::Delete { dict: first, .. }
        | Instruction::Share { value: first, .. }
        | Instruction::Send { mailbox: first, .. }
        | Instruction::Receive { mailbox: first, .. }
        | Instruction::Add { first, .. }
        | Instruction::Print { from: first } => Some(*first),
        _ => None,
    }
}

/// The second, if it reads two.
pub fn second_operand<A: Allocator>(instruction: &Instruction<A>) -> Option<Register> {
    match instruction {
        Instruction::Push { value: second, .. }
        | Instruction::Set { value: second, .. }
        | Instruction::Put { value: second, .. }
        | Instruction::Send { value: second, .. }
        | Instruction::Add { second, .. } => Some(*second),
        _ => None,
    }
}

/// The cell of the register's object; None where there is no register, or it is empty.
fn cell_in<H: HasTable<A>, A: Allocator>(
    frame: &Frame<H, A>,
    registers: &Registers<A>,
    register: Option<Register>,
) -> Option<u32>
    requires stands { OwnsRegisters frame.now registers.now }
{
    let Some(register) = register else {
        return None;
    };
    match registers.get(register) {
        Some(handle) => Some(frame.cell(handle)),
        None => None,
    }
}

/// What the line's instruction has made.
#[inline(never)]
fn tell_of_object<G: Gate, H: HasTable<A>, A: Allocator>(
    gate: &G,
    section: u32,
    line: &Line<A>,
    frame: &Frame<H, A>,
    registers: &Registers<A>,
)
    requires stands { OwnsRegisters frame.now registers.now }
{
    match cell_in(frame, registers, made_in(line.instruction())) {
        Some(cell) if cell >= FIRST_MORTAL => gate.made(section, line.number(), cell),
        _ => {}
    }
}

/// What the refused instruction of the line was given.
#[inline(never)]
fn tell_of_operands<G: Gate, H: HasTable<A>, A: Allocator>(
    gate: &G,
    section: u32,
    line: &Line<A>,
    frame: &Frame<H, A>,
    registers: &Registers<A>,
)
    requires stands { OwnsRegisters frame.now registers.now }
{
    let instruction = line.instruction();
    let operands = Operands {
        first: cell_in(frame, registers, first_operand(instruction)),
        second: cell_in(frame, registers, second_operand(instruction)),
    };
    gate.refused(section, line.number(), operands);
}

/// Tells a gate that watches what the line has made, if it has made a mortal object.
#[inline(always)]
pub(crate) fn tell_made<G: Gate, H: HasTable<A>, A: Allocator>(
    gate: &G,
    section: u32,
    line: &Line<A>,
    frame: &Frame<H, A>,
    registers: &Registers<A>,
)
    requires stands { OwnsRegisters frame.now registers.now }
{
    if gate.watches() {
        tell_of_object(gate, section, line, frame, registers);
    }
}

/// Tells a gate that watches that the line's instruction was refused.
#[inline(always)]
pub(crate) fn tell_refused<G: Gate, H: HasTable<A>, A: Allocator>(
    gate: &G,
    section: u32,
    line: &Line<A>,
    frame: &Frame<H, A>,
    registers: &Registers<A>,
)
    requires stands { OwnsRegisters frame.now registers.now }
{
    if gate.watches() {
        tell_of_operands(gate, section, line, frame, registers);
    }
}
