//! Heaps that are closed, and their reports: a list that holds itself, a text that the globals hold, globals that are
//! cleared, threads that nobody gathered or that are gathered late, and a report for which memory is wanting.

mod late;
mod lives;

use crate::ending::writes;
use brc_heap::{Heap, NoReport, Options, Report, close_or_end};
use late::closed_late;
use lives::{HOLDS_ITSELF, lives};
use std::alloc::{AllocGlobal, Allocator, Global};
use std::io::{self, Write};
use std::sync::Wait;
use test_heap::{Heaps, Memories};

/// The least heap.
pub(crate) const SIZES: Options = Options {
    cells: 512,
    local_limit: 10,
};

/// Lives of a heap's only thread, whose reports are printed: the name of each, and its steps.
const LIVES: [(&str, &str); 3] = [
    ("a list that holds itself", HOLDS_ITSELF),
    ("a text that the globals hold", "leave a text"),
    (
        "globals that are cleared",
        "leave a text; clear the globals",
    ),
];

/// The report of a heap whose only thread took these steps; None if something was refused. It is of scarce memory.
fn report_of<A: Allocator + Copy>(
    rt: &impl Wait,
    memories: Memories<A>,
    steps: &str,
) -> Option<Report<A>> {
    let (heap, mut root) = Heap::new(memories.ample, SIZES).ok()?;
    if let Ok(mut mutator) = root.register(memories.ample, &heap) {
        lives(rt, memories.ample, &mut mutator, steps);
        let _ledger = mutator.settle_and_join(rt, &mut root, &heap);
    }
    close_or_end(memories.scarce, heap, root).ok()
}

/// How many threads were registered, and how many gathered, of a heap that so many left with the root, one after the
/// other, and one more without it. All of them bear number 1.
fn missing<A: Allocator + Copy>(rt: &impl Wait, alloc: A, ends: u32) -> Option<(u32, u32)> {
    let (heap, mut root) = Heap::new(alloc, SIZES).ok()?;
    for _ in 0..ends {
        if let Ok(mutator) = root.register(alloc, &heap) {
            let _ledger = mutator.settle_and_join(rt, &mut root, &heap);
        }
    }
    if let Ok(mutator) = root.register(alloc, &heap) {
        let _retired = mutator.settle_and_leave(rt);
    }
    match close_or_end(alloc, heap, root) {
        Err(
            NoReport::Missing {
                registered,
                gathered,
            },
        ) => Some((registered, gathered)),
        _ => None,
    }
}

/// Whether a report is had from so many bytes.
fn is_had(rt: &impl Wait, alloc: Global, bytes: usize) -> bool {
    match Heaps::new(alloc, 1 << 22, bytes) {
        Ok(heaps) => report_of(rt, heaps.memories(), HOLDS_ITSELF).is_some(),
        Err(_) => false,
    }
}

/// Whether the report is refused with little memory, and had with more.
fn is_refused_first(rt: &impl Wait, alloc: Global) -> bool {
    for more in 0..64usize {
        if is_had(rt, alloc, 64 * (more + 1)) {
            return more > 2;
        }
    }
    false
}

/// A report's text, or that there is none.
fn shows(
    rt: &impl Print,
    output: &mut impl Write,
    what: &str,
    report: Option<Report<Global>>,
) -> io::Result<()> {
    println!(rt; "{what}:")?;
    let Some(report) = report else {
        return println!(rt; "no report");
    };
    writes(rt, output, &report)
}

/// Heaps are made and closed, one after the other; what their reports say is printed.
pub(crate) fn says<R: AllocGlobal + Print + Wait, W: Write>(
    rt: &R,
    output: &mut W,
) -> io::Result<()> {
    let memories = Memories {
        ample: rt.alloc(),
        scarce: rt.alloc(),
    };
    for (name, steps) in LIVES {
        let report = report_of(rt, memories, steps);
        shows(rt, output, name, report)?;
    }
    for ends in 1..3 {
        let missing = missing(rt, rt.alloc(), ends);
        println!(rt; "registered and gathered: {missing:?}")?;
    }
    if let Some(late) = closed_late(rt, rt.alloc()) {
        let (registered, gathered) = late.missing;
        println!(rt; "of three at once: {registered} registered, {gathered} gathered")?;
        shows(rt, output, "once the third is gathered", Some(late.report))?;
    }
    let refused = is_refused_first(rt, rt.alloc());
    println!(rt; "refused for want of memory, and had with more: {refused}")
}
