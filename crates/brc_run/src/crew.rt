//! The threads of a script's sections: how one is registered, and what it does.

ghost use Rattle.std.specs.Prelude.{◌≡◌, ◌<◌, ◌≤◌, ◌+◌, [], All, IfOk, IfErr, OnOk, length, vec_capacity};
ghost use Rattle.brc_words.specs.declared.fault.Fault.TheVariants as faults;
ghost use Rattle.brc_thread.specs.Counting.{registrations};
ghost use Rattle.brc_run.specs.Runs.{CameBack, IsReady, RootTakesIn};

use brc_heap::{Heap, Resting, Retired, Root};
use brc_script::Section;
use brc_section::{Board, Gate, SectionEnd, run_section};
use brc_words::Fault;
use std::alloc::{Allocator, Global};
use std::sync::Wait;

/// What the threads of one run share, and how much each works between two lines.
pub(crate) struct RunContext<'s, G> {
    pub(crate) alloc: Global,
    pub(crate) heap: &'s Heap<Global>,
    pub(crate) board: &'s Board<Global>,
    pub(crate) gate: &'s G,
    pub(crate) budget: usize,
}

// By hand, since a derive would ask the same of the gate.
impl<'s, G> Drop for RunContext<'s, G> {
    fn drop(self) {
        let Self {
            alloc: _alloc,
            heap: _heap,
            board: _board,
            gate: _gate,
            budget: _budget,
        } = self;
    }
}

/// What a section's thread hands back.
#[derive(Drop)]
pub(crate) struct Done<A: Allocator> {
    pub(crate) retired: Retired<A>,
    /// How the section ended; None where no thread could be had for it.
    pub(crate) end: Option<SectionEnd<A>>,
}

/// The next thread of the heap, at rest.
#[tactic(auto, using(crate::proofs::Taken::takes_none, crate::proofs::Taken::takes_registered, crate::proofs::Taken::only_memory))]
fn register_one(
    alloc: Global,
    heap: &Heap<Global>,
    root: &mut Root<Global>,
) -> Result<Resting<Global>, Fault>
    requires heap { root.old.table ≡ heap.now.table }
    requires few { registrations root.old.view < 64 }

    ensures heap { root.new.table ≡ root.old.table }
    ensures ready { IfOk result (IsReady heap.now) }
    ensures registered { OnOk result (RootTakesIn root.old root.new 1 []) }
    ensures refused { IfErr result (λ fault. fault ≡ faults.OutOfMemory) }
{
    let mutator = root.register(alloc, heap)?;
    Ok(mutator.rest())
}

/// The next threads of the heap, so many, each at rest until one of the machine wakes it. Where one can't be had, those
/// before it are there.
#[tactic(auto, using(crate::proofs::Taken::takes_none, crate::proofs::Taken::one_registered, crate::proofs::One_Heap::one_at))]
pub(crate) fn register_all(
    alloc: Global,
    heap: &Heap<Global>,
    root: &mut Root<Global>,
    sections: usize,
    crew: &mut Vec<Resting<Global>>,
) -> Result<(), Fault>
    requires heap { root.old.table ≡ heap.now.table }
    requires few { registrations root.old.view + sections < 64 }
    requires none { crew.old.items ≡ [] }
    requires room { sections ≤ vec_capacity crew.old }

    ensures heap { root.new.table ≡ root.old.table }
    ensures crew { All (IsReady heap.now) crew.new.items }
    ensures all { OnOk result (length crew.new.items ≡ sections) }
    ensures registered { OnOk result (RootTakesIn root.old root.new sections []) }
    ensures refused { IfErr result (λ fault. fault ≡ faults.OutOfMemory) }
{
    for _ in 0..sections {
        let resting = register_one(alloc, heap, root)?;
        crew.push_reserved(resting);
    }
    Ok(())
}

/// A section's thread, from its first step to its last: it runs the section, unless that counts as ended, and retires.
pub(crate) fn run_one<R: Wait, G: Gate>(
    rt: &R,
    context: &RunContext<'_, G>,
    resting: Resting<Global>,
    section: &Section<Global>,
    number: u32,
) -> Done<Global>
    requires ready { IsReady context.now.heap.now resting }
    ensures { CameBack context.now.heap.now (G.may_refuse context.now.gate.now) number section.now result }
{
    let mut mutator = resting.wake(context.heap);
    let end = if context.board.has_ended(rt, number) {
        None
    } else {
        Some(run_section(
            rt,
            context.alloc,
            &mut mutator,
            section,
            number,
            context.budget,
            context.board,
            context.gate,
        ))
    };
    Done {
        retired: mutator.settle_and_leave(rt),
        end,
    }
}
