//! A section from its first line to its end.

ghost use Rattle.std.specs.Prelude.{◌≡◌, ◌≢◌, ◌≤◌, ℕ, ◌+◌, true, [], ◌∷◌, Some, IfSome, IfNone};
ghost use Rattle.brc_words.specs.declared.fault.Fault.TheVariants as faults;
ghost use Rattle.brc_words.specs.declared.limits.TheConstants.{MOST_BIRTHS};
ghost use Rattle.brc_words.specs.Faults.{number_of};
ghost use Rattle.brc_script.specs.Scripts.{is_private};
ghost use Rattle.brc_meaning.specs.Sections.{written_out, meaning};
ghost use Rattle.brc_count.specs.Frames.{IsUnlocked, ledger_seen};
ghost use Rattle.brc_instructions.specs.Causes.{NoneWasFree};
ghost use Rattle.brc_section.specs.Ends.{IsLineOf};
ghost use Rattle.brc_section.specs.Running.{AreOwn, HaltOf, FaultOf, SectionEnded};
ghost use Rattle.brc_section.specs.Wants.{CauseLeft};
ghost use Rattle.brc_section.specs.Isolation.{is_own_end, Prints};

use crate::board::Board;
use crate::gate::Gate;
use crate::running::{Halt, LineContext, run_pieces};
use crate::shared_names::Names;
use crate::waiting::SectionContext;
use brc_count::Frame;
use brc_count::biased::HasTable;
use brc_instructions::Registers;
use brc_script::{Piece, Section};
use brc_thread::Mutator;
use brc_words::Fault;
use std::alloc::Allocator;
use std::sync::Wait;

/// How a section ended.
#[derive(Drop)]
pub struct SectionEnd<A: Allocator> {
    /// The printed lines, each ended by a line feed.
    pub lines: Vec<u8, A>,
    /// The number of the fault that ended it, 1 to 17, and the line that met it, counted from 1 in the whole script.
    pub fault: Option<(u8, u32)>,
}

/// The number of the piece's first line, if it has one.
fn first_in<A: Allocator>(piece: &Piece<A>) -> Option<u32>
    ensures line { IfSome result (λ line. IsLineOf line (piece.now ∷ [])) }
    ensures none { IfNone result (written_out (piece.now ∷ []) ≡ []) }
{
    match piece {
        Piece::One(line) => Some(line.number()),
        Piece::Repeat { lines, .. } => match lines.as_slice() {
            [line, ..] => Some(line.number()),
            [] => None,
        },
    }
}

/// The number of the first line of these pieces, if they have one.
#[tactic(auto, using(crate::proofs::Lines_In::piece_at))]
fn first_line<A: Allocator>(pieces: &[Piece<A>]) -> Option<u32>
    ensures line { IfSome result (λ line. IsLineOf line pieces.now) }
    ensures none { IfNone result (written_out pieces.now ≡ []) }
{
    for (at, piece) in pieces.iter().enumerate() {
        let _at = at;
        if let Some(line) = first_in(piece) {
            return Some(line);
        }
    }
    None
}

/// The halt, where the lines came to one.
fn halt_of(ran: Result<(), Halt>) -> Option<Halt>
    ensures { HaltOf ran result }
{
    match ran {
        Ok(()) => None,
        Err(halt) => Some(halt),
    }
}

/// The number of the fault, and the line that met it.
fn fault_of(halt: Option<Halt>) -> Option<(u8, u32)>
    ensures { FaultOf halt result }
{
    match halt {
        Some(halt) => Some((halt.fault.number(), halt.line)),
        None => None,
    }
}

/// The lines of the section over its frame, which has no handle before and after. The registers are made at the first
/// line, whose fault it is where they can't be had, and released at the end.
fn run_over<R: Wait, G: Gate, H: HasTable<A>, A: Allocator + Copy>(
    rt: &R,
    alloc: A,
    frame: &mut Frame<H, A>,
    lines: &mut Vec<u8, A>,
    section: &Section<A>,
    own: &SectionContext<'_, A>,
    gate: &G,
) -> Option<Halt>
    requires bare { frame.old.len ≡ 0 }
    requires unlocked { IsUnlocked frame.old }
    ensures bare { frame.new.len ≡ 0 }
    ensures unlocked { IsUnlocked frame.new }
    ensures heap { frame.new.heap ≡ frame.old.heap }
    ensures line { IfSome result (λ halt. IsLineOf halt.line section.now.pieces) }
    ensures busy { IfSome result (λ halt. halt.fault ≡ faults.Busy
        → G.may_refuse gate.now own.now.number halt.line) }
    ensures ended { lines.old.items ≡ [] → AreOwn (written_out section.now.pieces) →
        SectionEnded (ledger_seen frame.old).allocs frame.new lines.new.items (written_out section.now.pieces) result }
    ensures wanted { AreOwn (written_out section.now.pieces)
        → IfSome result (λ halt. CauseLeft frame.old frame.new halt.fault) }
{
    let pieces = section.pieces.as_slice();
    let Some(first) = first_line(pieces) else {
        return None;
    };
    let mut registers = match Registers::empty(alloc) {
        Ok(registers) => registers,
        Err(fault) => return Some(Halt { fault, line: first }),
    };
    let names = Names::of(alloc, section);
    let context = LineContext { alloc, own, gate };
    let ran = run_pieces(rt, frame, &mut registers, lines, pieces, &names, &context);
    registers.release_all(frame);
    halt_of(ran)
}

/// Runs a section on a thread of the heap: each line once the gate lets it through, with one poll and at most so many
/// turns of work after it, up to the last line or the first fault. A `fetch` or `recv` that finds nothing waits by the
/// board until another section has changed something, or none is left that could. In the end its registers are
/// released, from r0 to r15, and the thread settles.
///
/// The section's number counts from 1, as the board does; a number that it doesn't have waits for nobody.
pub fn run_section<R: Wait, G: Gate, H: HasTable<A>, A: Allocator + Copy>(
    rt: &R,
    alloc: A,
    mutator: &mut Mutator<H, A>,
    section: &Section<A>,
    number: u32,
    budget: usize,
    board: &Board<A>,
    gate: &G,
) -> SectionEnd<A>
    requires bare { mutator.old.len ≡ 0 }
    requires unlocked { IsUnlocked mutator.old }

    ensures idle { (mutator.new.len ≡ 0) × (mutator.new.works ≡ []) }
    ensures unlocked { IsUnlocked mutator.new }
    ensures heap { mutator.new.heap ≡ mutator.old.heap }

    // The fault is that of a line of the section, and Busy only of one at which the gate may answer false.
    ensures line { IfSome result.fault (λ fault. IsLineOf fault.1 section.now.pieces) }
    ensures busy { (line : ℕ) → result.fault ≡ Some (number_of faults.Busy, line) → G.may_refuse gate.now number line }

    // A section that shares nothing prints its plain meaning, whatever other threads do and whichever cells are used
    // again; and its thread bears as many objects as the section makes.
    ensures prints { is_private section.now ≡ true → Prints section.now result.lines.items result.fault }
    ensures births { is_private section.now ≡ true → is_own_end result.fault ≡ true →
        (ledger_seen mutator.new).allocs ≡ (ledger_seen mutator.old).allocs + (meaning section.now).made }

    // It ends by HeapFull only after a search that found no mortal cell free, by LedgerFull only where its thread has
    // made 2^47 objects since it was registered, and never by FrameFull: it has no more handles than registers and two.
    ensures heap_full { is_private section.now ≡ true → (line : ℕ)
        → result.fault ≡ Some (number_of faults.HeapFull, line)
        → NoneWasFree mutator.old.heap.cells mutator.old.seat.log mutator.new.seat.log }
    ensures no_frame_full { is_private section.now ≡ true → (line : ℕ)
        → result.fault ≢ Some (number_of faults.FrameFull, line) }
    ensures ledger_full { is_private section.now ≡ true → (line : ℕ)
        → result.fault ≡ Some (number_of faults.LedgerFull, line)
        → MOST_BIRTHS ≤ (ledger_seen mutator.new).allocs }
{
    let mut lines = Vec::new(alloc);
    let own = SectionContext {
        board,
        number,
        budget,
    };
    let halt = run_over(rt, alloc, mutator.frame(), &mut lines, section, &own, gate);
    board.end(rt, number);
    mutator.settle(rt);
    SectionEnd {
        lines,
        fault: fault_of(halt),
    }
}
