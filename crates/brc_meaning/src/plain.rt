//! Running a section by itself.

ghost use Rattle.std.specs.Prelude.{◌≡◌, ◌↔◌, IsTrue, length, IfOk, IfErr, true};
ghost use Rattle.brc_words.specs.declared.fault.Fault.TheVariants.{OutOfMemory};
ghost use Rattle.brc_script.specs.Scripts.{is_private};
ghost use Rattle.brc_meaning.specs.Sections.{meaning};

use crate::running::run_pieces;
use crate::state::State;
use brc_script::Section;
use brc_words::Fault;
use std::alloc::Allocator;

/// What a section comes to when it is run by itself.
#[derive(Drop)]
pub struct Plain<A: Allocator> {
    /// The printed lines, each ended by a line feed.
    pub lines: Vec<u8, A>,
    /// The number of the fault that ended it, 1 to 17, and the line that met it, counted from 1 in the whole script.
    pub fault: Option<(u8, u32)>,
    /// The objects made, but for the integers from -5 to 256, which are there always.
    pub made: u64,
}

fn is_want_of_memory(fault: Fault) -> bool
    ensures { IsTrue result ↔ (fault ≡ OutOfMemory) }
{
    matches!(fault, Fault::OutOfMemory)
}

/// What is told of the state in which a section ended.
fn told<A: Allocator>(state: State<A>, fault: Option<(u8, u32)>) -> Plain<A>
    ensures lines { result.lines.items ≡ state.printed }
    ensures fault { result.fault ≡ fault }
    ensures made { result.made ≡ length state.objects }
{
    let State {
        objects,
        printed,
        ..
    } = state;
    Plain {
        lines: printed.into_bytes(),
        fault,
        made: objects.len() as u64,
    }
}

/// Runs a private section over plain values: no cells, no counts, no other section, and nothing dies. The only refusal
/// is want of memory; a fault of the section's own is part of the answer. Memory grows with what the section makes
/// and prints, and not with the turns that it takes.
pub fn plain_run<A: Allocator + Copy>(alloc: A, section: &Section<A>) -> Result<Plain<A>, Fault>
    requires { is_private section.now ≡ true }

    ensures lines { IfOk result (λ plain. plain.lines.items ≡ (meaning section.now).lines) }
    ensures fault { IfOk result (λ plain. plain.fault ≡ (meaning section.now).fault) }
    ensures made { IfOk result (λ plain. plain.made ≡ (meaning section.now).made) }

    ensures refused { IfErr result (λ fault. fault ≡ OutOfMemory) }
{
    let mut state = State::start(alloc);
    match run_pieces(alloc, &mut state, section.pieces.as_slice()) {
        Ok(()) => Ok(told(state, None)),
        Err(halt) => {
            if is_want_of_memory(halt.fault) {
                return Err(Fault::OutOfMemory);
            }
            Ok(told(state, Some((halt.fault.number(), halt.line))))
        }
    }
}
