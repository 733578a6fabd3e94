//! A section, line by line.

ghost use Rattle.std.specs.Prelude.{◌≡◌, ◌≢◌, ℕ, ◌∷◌, [], false, IfErr};
ghost use Rattle.std.specs.List.{repeat};
ghost use Rattle.brc_words.specs.declared.fault.Fault.TheVariants as faults;
ghost use Rattle.brc_count.specs.law.living.Later.{IsLater};
ghost use Rattle.brc_instructions.specs.Causes.{Caused};
ghost use Rattle.brc_instructions.specs.Registers.{OwnsRegisters};
ghost use Rattle.brc_script.specs.Instructions.{is_shared};
ghost use Rattle.brc_script.specs.declared.instruction.Instruction.TheVariants as instructions;
ghost use Rattle.brc_meaning.specs.declared.state.State.{State as state};
ghost use Rattle.brc_meaning.specs.Sections.{written_out};
ghost use Rattle.brc_meaning.specs.Steps.{after};
ghost use Rattle.law_isolation.specs.Lines.{At};
ghost use Rattle.brc_section.specs.Ends.{IsLineIn, IsLineOf};
ghost use Rattle.brc_section.specs.Running.{AreOwn, NotesShown, Did, RunsOn};
ghost use Rattle.brc_section.specs.Wants.{HaltsForCause};

use crate::gate::Gate;
use crate::shared_names::{Names, name_at};
use crate::stepping::Silent;
use crate::waiting::SectionContext;
use crate::watching::{tell_made, tell_refused};
use brc_count::Frame;
use brc_count::biased::HasTable;
use brc_instructions::{Done, Execute, Print, Reads, Registers, Shown, add_shown};
use brc_script::{Instruction, Line, Piece, Register};
use brc_words::{Fault, Key};
use std::alloc::Allocator;
use std::sync::Wait;

/// Why a section ended before its last line: the first fault, and the number of the line that met it.
#[derive(Clone, Copy)]
pub(crate) struct Halt {
    pub(crate) fault: Fault,
    pub(crate) line: u32,
}

/// What each line of one section is run with: who asks for memory, whose section it is, and the gate before each line.
pub(crate) struct LineContext<'c, G, A: Allocator + Copy> {
    pub(crate) alloc: A,
    pub(crate) own: &'c SectionContext<'c, A>,
    pub(crate) gate: &'c G,
}

// By hand, since a derive would ask the same of the gate.
impl<'c, G, A: Allocator + Copy> Drop for LineContext<'c, G, A> {
    fn drop(self) {
        let Self {
            alloc: _alloc,
            own: _own,
            gate: _gate,
        } = self;
    }
}

/// What was shown, as one line more; OutOfMemory where it can't be had. A fault stays a fault.
#[inline(always)]
fn note<A: Allocator>(lines: &mut Vec<u8, A>, read: Result<Shown<A>, Fault>) -> Done
    ensures { NotesShown read lines.old.items lines.new.items result }
{
    match read {
        Ok(shown) => add_shown(lines, &shown),
        Err(fault) => Err(fault),
    }
}

/// A line that prints: what it shows, one poll, and work.
#[inline(never)]
fn print_line<R: Wait, H: HasTable<A>, A: Allocator + Copy>(
    rt: &R,
    alloc: A,
    frame: &mut Frame<H, A>,
    registers: &mut Registers<A>,
    lines: &mut Vec<u8, A>,
    from: Register,
    own: &SectionContext<'_, A>,
) -> Done
    requires stands { OwnsRegisters frame.old registers.old }
    ensures stands { OwnsRegisters frame.new registers.new }
    ensures heap { frame.new.heap ≡ frame.old.heap }
    ensures waits { IfErr result (λ fault. fault ≢ faults.Busy) }
    ensures later { IsLater frame.old.seat.log frame.new.seat.log }
    ensures caused { IfErr result (Caused frame.old frame.new) }
    ensures follows { (base : ℕ) (s : state A) → At base frame.old registers.old lines.old.items s
        → Did base frame.new registers.new lines.new.items s (after (instructions.Print from) s) result }
{
    let shown = Print { from }.read(rt, alloc, frame, registers);
    let _told = frame.poll();
    match note(lines, shown) {
        Ok(()) => {}
        Err(fault) => return Err(fault),
    }
    let _left = frame.work(own.budget);
    Ok(())
}

/// The instruction of a line, what it prints, one poll, and work.
#[inline(always)]
fn do_line<R: Wait, H: HasTable<A>, A: Allocator + Copy>(
    rt: &R,
    alloc: A,
    frame: &mut Frame<H, A>,
    registers: &mut Registers<A>,
    lines: &mut Vec<u8, A>,
    line: &Line<A>,
    key: Option<&Key<A>>,
    own: &SectionContext<'_, A>,
) -> Done
    requires stands { OwnsRegisters frame.old registers.old }
    ensures stands { OwnsRegisters frame.new registers.new }
    ensures heap { frame.new.heap ≡ frame.old.heap }
    ensures waits { IfErr result (λ fault. fault ≢ faults.Busy) }
    ensures later { IsLater frame.old.seat.log frame.new.seat.log }
    ensures caused { is_shared line.now.instruction ≡ false → IfErr result (Caused frame.old frame.new) }
    ensures follows { (base : ℕ) (s : state A) → is_shared line.now.instruction ≡ false
        → At base frame.old registers.old lines.old.items s
        → Did base frame.new registers.new lines.new.items s (after line.now.instruction s) result }
{
    let instruction = line.instruction();
    if let Instruction::Print { from } = instruction {
        return print_line(rt, alloc, frame, registers, lines, *from, own);
    }
    let silent = Silent {
        instruction,
        key,
        own,
    };
    let done = silent.act(rt, alloc, frame, registers);
    // After a refused instruction too: what its calls found is told by the log that the poll finds.
    let _told = frame.poll();
    match done {
        Ok(()) => {}
        Err(fault) => return Err(fault),
    }
    let _left = frame.work(own.budget);
    Ok(())
}

/// One line, once the gate has let it through.
#[inline(always)]
fn run_line<R: Wait, G: Gate, H: HasTable<A>, A: Allocator + Copy>(
    rt: &R,
    frame: &mut Frame<H, A>,
    registers: &mut Registers<A>,
    lines: &mut Vec<u8, A>,
    line: &Line<A>,
    key: Option<&Key<A>>,
    context: &LineContext<'_, G, A>,
) -> Result<(), Halt>
    requires stands { OwnsRegisters frame.old registers.old }
    ensures stands { OwnsRegisters frame.new registers.new }
    ensures heap { frame.new.heap ≡ frame.old.heap }
    ensures line { IfErr result (λ halt. line.now.number ≡ halt.line) }
    ensures busy { IfErr result (λ halt. halt.fault ≡ faults.Busy
        → G.may_refuse context.now.gate.now context.now.own.now.number halt.line) }
    ensures runs { RunsOn frame.old registers.old lines.old.items frame.new registers.new lines.new.items
        (line.now ∷ []) result }
    ensures wants { AreOwn (line.now ∷ []) → HaltsForCause frame.old frame.new result }
{
    let number = line.number();
    let gate = context.gate;
    let own = context.own;
    if !gate.at(rt, own.number, number) {
        return Err(Halt {
            fault: Fault::Busy,
            line: number,
        });
    }
    match do_line(rt, context.alloc, frame, registers, lines, line, key, own) {
        Ok(()) => {
            tell_made(gate, own.number, line, frame, registers);
            Ok(())
        }
        Err(fault) => {
            tell_refused(gate, own.number, line, frame, registers);
            Err(Halt {
                fault,
                line: number,
            })
        }
    }
}

/// These lines in order, up to the first fault.
fn run_lines<R: Wait, G: Gate, H: HasTable<A>, A: Allocator + Copy>(
    rt: &R,
    frame: &mut Frame<H, A>,
    registers: &mut Registers<A>,
    lines: &mut Vec<u8, A>,
    body: &[Line<A>],
    keys: &[Option<Key<A>>],
    context: &LineContext<'_, G, A>,
) -> Result<(), Halt>
    requires stands { OwnsRegisters frame.old registers.old }
    ensures stands { OwnsRegisters frame.new registers.new }
    ensures heap { frame.new.heap ≡ frame.old.heap }
    ensures line { IfErr result (λ halt. IsLineIn halt.line body.now) }
    ensures busy { IfErr result (λ halt. halt.fault ≡ faults.Busy
        → G.may_refuse context.now.gate.now context.now.own.now.number halt.line) }
    ensures runs { RunsOn frame.old registers.old lines.old.items frame.new registers.new lines.new.items body.now result }
    ensures wants { AreOwn body.now → HaltsForCause frame.old frame.new result }
{
    for (at, line) in body.iter().enumerate() {
        let key = name_at(keys, at);
        match run_line(rt, frame, registers, lines, line, key, context) {
            Ok(()) => {}
            Err(halt) => return Err(halt),
        }
    }
    Ok(())
}

/// These lines so many times, up to the first fault.
fn run_times<R: Wait, G: Gate, H: HasTable<A>, A: Allocator + Copy>(
    rt: &R,
    frame: &mut Frame<H, A>,
    registers: &mut Registers<A>,
    lines: &mut Vec<u8, A>,
    times: u32,
    body: &[Line<A>],
    keys: &[Option<Key<A>>],
    context: &LineContext<'_, G, A>,
) -> Result<(), Halt>
    requires stands { OwnsRegisters frame.old registers.old }
    ensures stands { OwnsRegisters frame.new registers.new }
    ensures heap { frame.new.heap ≡ frame.old.heap }
    ensures line { IfErr result (λ halt. IsLineIn halt.line body.now) }
    ensures busy { IfErr result (λ halt. halt.fault ≡ faults.Busy
        → G.may_refuse context.now.gate.now context.now.own.now.number halt.line) }
    ensures runs { RunsOn frame.old registers.old lines.old.items frame.new registers.new lines.new.items
        (repeat times body.now) result }
    ensures wants { AreOwn (repeat times body.now) → HaltsForCause frame.old frame.new result }
{
    for turn in 0..times {
        let _done = turn;
        match run_lines(rt, frame, registers, lines, body, keys, context) {
            Ok(()) => {}
            Err(halt) => return Err(halt),
        }
    }
    Ok(())
}

/// A piece of the section, up to the first fault.
fn run_piece<R: Wait, G: Gate, H: HasTable<A>, A: Allocator + Copy>(
    rt: &R,
    frame: &mut Frame<H, A>,
    registers: &mut Registers<A>,
    lines: &mut Vec<u8, A>,
    piece: &Piece<A>,
    keys: &[Option<Key<A>>],
    context: &LineContext<'_, G, A>,
) -> Result<(), Halt>
    requires stands { OwnsRegisters frame.old registers.old }
    ensures stands { OwnsRegisters frame.new registers.new }
    ensures heap { frame.new.heap ≡ frame.old.heap }
    ensures line { IfErr result (λ halt. IsLineOf halt.line (piece.now ∷ [])) }
    ensures busy { IfErr result (λ halt. halt.fault ≡ faults.Busy
        → G.may_refuse context.now.gate.now context.now.own.now.number halt.line) }
    ensures runs { RunsOn frame.old registers.old lines.old.items frame.new registers.new lines.new.items
        (written_out (piece.now ∷ [])) result }
    ensures wants { AreOwn (written_out (piece.now ∷ [])) → HaltsForCause frame.old frame.new result }
{
    match piece {
        Piece::One(line) => {
            let key = name_at(keys, 0);
            run_line(rt, frame, registers, lines, line, key, context)
        }
        Piece::Repeat { times, lines: body } => run_times(
            rt,
            frame,
            registers,
            lines,
            *times,
            body.as_slice(),
            keys,
            context,
        ),
    }
}

/// All pieces in order, up to the first fault.
#[tactic(auto, using(crate::proofs::Lines_In::piece_at))]
pub(crate) fn run_pieces<R: Wait, G: Gate, H: HasTable<A>, A: Allocator + Copy>(
    rt: &R,
    frame: &mut Frame<H, A>,
    registers: &mut Registers<A>,
    lines: &mut Vec<u8, A>,
    pieces: &[Piece<A>],
    names: &Names<A>,
    context: &LineContext<'_, G, A>,
) -> Result<(), Halt>
    requires stands { OwnsRegisters frame.old registers.old }
    ensures stands { OwnsRegisters frame.new registers.new }
    ensures heap { frame.new.heap ≡ frame.old.heap }
    ensures line { IfErr result (λ halt. IsLineOf halt.line pieces.now) }
    ensures busy { IfErr result (λ halt. halt.fault ≡ faults.Busy
        → G.may_refuse context.now.gate.now context.now.own.now.number halt.line) }
    ensures runs { RunsOn frame.old registers.old lines.old.items frame.new registers.new lines.new.items
        (written_out pieces.now) result }
    ensures wants { AreOwn (written_out pieces.now) → HaltsForCause frame.old frame.new result }
{
    for (at, piece) in pieces.iter().enumerate() {
        let keys = names.piece(at);
        match run_piece(rt, frame, registers, lines, piece, keys, context) {
            Ok(()) => {}
            Err(halt) => return Err(halt),
        }
    }
    Ok(())
}
