//! A section on a thread of its own, and what is done where no thread can be had for it.

ghost use Rattle.std.specs.Prelude.{ℕ};
ghost use Rattle.brc_script.specs.declared.script.Section.{Section as section_data};
ghost use Rattle.brc_count.specs.table.Seated.{TableSeen};
ghost use Rattle.brc_run.specs.Runs.{CameBack, IsBegun, IsReady};

use crate::crew::{Done, RunContext, run_one};
use brc_heap::{Heap, Resting};
use brc_script::Section;
use brc_section::{Board, Gate};
use std::alloc::Global;
use std::sync::Wait;
use std::thread::{Promise, PromisedHandle, Scope, Threads};

/// What a section's thread is started with, as far as what it hands back is promised by it.
pub(crate) struct Given<'s, G> {
    pub(crate) number: u32,
    pub(crate) heap: &'s Heap<Global>,
    pub(crate) section: &'s Section<Global>,
    pub(crate) gate: &'s G,
}

// By hand, since a derive would ask the same of the gate.
impl<'s, G> Drop for Given<'s, G> {
    fn drop(self) {
        let Self {
            number: _number,
            heap: _heap,
            section: _section,
            gate: _gate,
        } = self;
    }
}

impl<'s, G: Gate> Promise<Done<Global>> for Given<'s, G> {
    ghost kept_by = { λ given done. CameBack given.heap.now (G.may_refuse given.gate.now) given.number
        given.section.now done };
}

/// A section whose thread was started; or one for which no thread could be had, and which is done.
pub(crate) enum Begun<'s, G: Gate> {
    Started(PromisedHandle<Done<Global>, Given<'s, G>>),
    LeftOut(Done<Global>),
}

impl<'s, G: Gate> Drop for Begun<'s, G> {
    fn drop(self) {
        match self {
            Begun::Started(_handle) => {}
            Begun::LeftOut(_done) => {}
        }
    }
}

impl<'s, G: Gate> Begun<'s, G> {
    /// What the section's thread hands back, once it has ended.
    pub(crate) fn joined<R: Threads>(self, rt: &R) -> Done<Global>
        ensures { (heap : TableSeen) (gate : G) (number : ℕ) (section : section_data Global)
            → IsBegun heap gate (G.may_refuse gate) number section self.entry
            → CameBack heap (G.may_refuse gate) number section result }
    {
        match self {
            Begun::Started(handle) => handle.join(rt),
            Begun::LeftOut(done) => done,
        }
    }
}

/// This section and those after it count as ended.
pub(crate) fn end_from(rt: &impl Wait, board: &Board<Global>, number: u32) {
    board.end(rt, number);
    for earlier in number..board.sections {
        board.end(rt, earlier + 1);
    }
}

/// Begins a section: on a thread of its own, if no thread was refused before. Where none can be had now, this section and
/// those after it count as ended. The thread takes the context's parts along one by one, since what it promises is said of
/// each.
pub(crate) fn begin<'s, E: 's, R: Threads + Wait + Sync, G: Gate>(
    rt: &'s R,
    scope: &Scope<'s, E>,
    context: &RunContext<'s, G>,
    resting: Resting<Global>,
    section: &'s Section<Global>,
    number: u32,
) -> Begun<'s, G>
    requires ready { IsReady context.now.heap.now resting }
    ensures { IsBegun context.now.heap.now context.now.gate.now (G.may_refuse context.now.gate.now) number section.now
        result }
{
    if context.board.has_ended(rt, number) {
        return Begun::LeftOut(run_one(rt, context, resting, section, number));
    }
    let alloc = context.alloc;
    let heap = context.heap;
    let board = context.board;
    let gate = context.gate;
    let budget = context.budget;
    let given = Given {
        number,
        heap,
        section,
        gate,
    };
    let started = scope.spawn_with(
        given,
        move || -> Done<Global>
            requires ready { IsReady heap.now resting }
            ensures done { CameBack heap.entry.now (G.may_refuse gate.entry.now) number section.entry.now result }
        {
            let context = RunContext {
                alloc,
                heap,
                board,
                gate,
                budget,
            };
            run_one(rt, &context, resting, section, number)
        },
    );
    match started {
        Ok(handle) => Begun::Started(handle),
        Err(refused) => {
            end_from(rt, board, number);
            Begun::LeftOut((refused.value)())
        }
    }
}
