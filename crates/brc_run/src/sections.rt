//! A script, from its options to the report of its heap.

ghost use Rattle.std.specs.Prelude.{◌≡◌, ◌↔◌, ◌⊎◌, ◌<◌, ◌≤◌, ◌+◌, [], Err, IfOk, IfErr, length, vec_capacity};
ghost use Rattle.brc_words.specs.declared.fault.Fault.TheVariants as faults;
ghost use Rattle.brc_thread.specs.Counting.{registrations, gatherings};
ghost use Rattle.brc_heap.specs.Closing.{IsReportOfEnd};
ghost use Rattle.brc_run.specs.Options.{AreRunOptions};
ghost use Rattle.brc_run.specs.Runs.{EndsAs, InOrder, TakesInAll, IsReportOf};

use crate::clearing::clear;
use crate::crew::{Done, RunContext, register_all};
use crate::gathering::{dismiss_all, gather_all};
use crate::joining::run_all;
use crate::options::RunOptions;
use brc_heap::{CloseFault, Heap, Options, Resting, Root, close, give_back, take_apart};
use brc_report::Report;
use brc_script::{Script, Section};
use brc_section::{Board, Gate, SectionEnd};
use brc_words::Fault;
use std::alloc::{Allocator, Global};
use std::sync::Wait;
use std::thread::Threads;

/// What a run comes to.
#[derive(Drop)]
pub struct RunReport<A: Allocator> {
    /// How each section ended, in the script's order.
    pub sections: Vec<SectionEnd<A>, A>,
    /// What is said of the heap, which was closed once all had ended.
    pub report: Report<A>,
}

/// What is kept of so many sections; all memory for it is asked for before the first thread is registered.
#[derive(Drop)]
struct Room {
    crew: Vec<Resting<Global>>,
    done: Vec<Done<Global>>,
    ends: Vec<SectionEnd<Global>>,
    board: Board<Global>,
}

/// Room for so many sections.
fn room_for(alloc: Global, sections: usize) -> Result<Room, Fault>
    requires few { sections < 64 }

    ensures crew { IfOk result (λ room. (room.crew.items ≡ []) × (sections ≤ vec_capacity room.crew)) }
    ensures done { IfOk result (λ room. (room.done.items ≡ []) × (sections ≤ vec_capacity room.done)) }
    ensures ends { IfOk result (λ room. (room.ends.items ≡ []) × (sections ≤ vec_capacity room.ends)) }
    ensures refused { IfErr result (λ fault. fault ≡ faults.OutOfMemory) }
{
    Ok(Room {
        crew: Vec::with_capacity(alloc, sections)?,
        done: Vec::with_capacity(alloc, sections)?,
        ends: Vec::with_capacity(alloc, sections)?,
        board: Board::new(alloc, sections as u32)?,
    })
}

/// The sections on threads of the heap, until all threads are gathered, and the globals are cleared.
#[tactic(auto, using(crate::proofs::Ordered::each_is, crate::proofs::Reported::ends_in_order, crate::proofs::Ordered::as_many))]
fn run_on<R: Threads + Wait + Sync, G: Gate>(
    rt: &R,
    alloc: Global,
    heap: &Heap<Global>,
    root: &mut Root<Global>,
    sections: &[Section<Global>],
    budget: usize,
    room: Room,
    gate: &G,
) -> Result<Vec<SectionEnd<Global>>, Fault>
    requires heap { root.old.table ≡ heap.now.table }
    requires few { registrations root.old.view + length sections.now < 64 }
    requires crew { (room.crew.items ≡ []) × (length sections.now ≤ vec_capacity room.crew) }
    requires done { (room.done.items ≡ []) × (length sections.now ≤ vec_capacity room.done) }
    requires ends { (room.ends.items ≡ []) × (length sections.now ≤ vec_capacity room.ends) }

    ensures heap { root.new.table ≡ root.old.table }
    ensures ends { IfOk result (λ ends. InOrder (EndsAs (G.may_refuse gate.now)) 1 sections.now ends.items) }
    ensures gathered { IfOk result (λ ends. TakesInAll heap.now.cells sections.now ends.items root.old root.new) }
    ensures refused { IfErr result (λ fault. fault ≡ faults.OutOfMemory) }
{
    let Room {
        crew,
        done,
        ends,
        board,
    } = room;
    let mut crew = crew;
    if let Err(fault) = register_all(alloc, heap, root, sections.len(), &mut crew) {
        dismiss_all(rt, heap, root, crew);
        return Err(fault);
    }
    let context = RunContext {
        alloc,
        heap,
        board: &board,
        gate,
        budget,
    };
    let done = run_all(rt, context, crew, sections, done);
    let Some(ends) = gather_all(heap, root, done, ends) else {
        return Err(Fault::OutOfMemory);
    };
    clear(rt, alloc, heap, root)?;
    Ok(ends)
}

/// The report of a heap whose threads are all gathered.
fn closed(alloc: Global, heap: Heap<Global>, root: Root<Global>) -> Result<Report<Global>, Fault>
    requires heap { root.table ≡ heap.table }
    requires all { registrations root.view ≡ gatherings root.view }
    ensures report { IfOk result (IsReportOfEnd heap.cells heap.local_limit root.view) }
    ensures refused { IfErr result (λ fault. fault ≡ faults.OutOfMemory) }
{
    match close(alloc, heap, root) {
        Ok(report) => Ok(report),
        Err(CloseFault::Memory) => Err(Fault::OutOfMemory),
        Err(
            CloseFault::Missing {
                registered: _registered,
                gathered: _gathered,
                heap: _heap,
                root: _root,
            },
        ) => unreachable!(),
    }
}

/// Runs a script: its sections at the same time, each on a thread of its own, and then closes their heap. BadOptions,
/// looked at first, where a number of the options is outside its limits; OutOfMemory where a growth was refused, or a
/// thread: then those that were started have run to their ends, all are gathered, and all memory of the heap is given
/// back.
#[tactic(auto, using(crate::proofs::Reported::report_of))]
pub fn run_sections<R: Threads + Wait + Sync, G: Gate>(
    rt: &R,
    alloc: Global,
    script: &Script<Global>,
    options: RunOptions,
    gate: &G,
) -> Result<RunReport<Global>, Fault>
    // Each section's fault is that of one of its lines, and Busy only of one at which the gate may answer false.
    ensures sections { IfOk result (λ run. InOrder (EndsAs (G.may_refuse gate.now)) 1 script.now run.sections.items) }
    // What each section's thread did stands in the run that the report is of, and tells why it wanted room.
    ensures report { IfOk result (λ run. IsReportOf options script.now run.sections.items run.report) }

    ensures options { (result ≡ Err faults.BadOptions) ↔ ¬ (AreRunOptions options) }
    ensures refused { IfErr result (λ fault. (fault ≡ faults.BadOptions) ⊎ (fault ≡ faults.OutOfMemory)) }
{
    if !options.are_within() {
        return Err(Fault::BadOptions);
    }
    let sections = script.sections();
    let room = room_for(alloc, sections.len())?;
    let sizes = Options {
        cells: options.cells,
        local_limit: options.local_limit,
    };
    let (heap, mut root) = Heap::new(alloc, sizes)?;
    match run_on(
        rt,
        alloc,
        &heap,
        &mut root,
        sections,
        options.budget,
        room,
        gate,
    ) {
        Ok(ends) => {
            let report = closed(alloc, heap, root)?;
            Ok(RunReport {
                sections: ends,
                report,
            })
        }
        Err(fault) => {
            give_back(take_apart(heap, root));
            Err(fault)
        }
    }
}
