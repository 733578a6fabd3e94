//! Closing a heap.

ghost use Rattle.std.specs.Prelude.{◌≡◌, ◌≢◌, List, true, Some, None, IfOk, IfErr, IfSome, OnOk};
ghost use Rattle.brc_thread.specs.Counting.{registrations, gatherings};
ghost use Rattle.brc_report.specs.Holding.{remains_of};
ghost use Rattle.brc_report.specs.Spelled.{all_spelled};
ghost use Rattle.brc_report.specs.declared.content.Remain.{Remain as TheRemain};
ghost use Rattle.brc_heap.specs.Closing.{IsReportOfEnd, Reports, StaysOpen};

use crate::collecting::collect;
use brc_report::{Content, Ledger, Report, find_cycles, find_remains};
use brc_thread::{Heap, Root, take_apart};
use std::alloc::Allocator;

/// Why a heap isn't closed, or has no report.
pub enum CloseFault<A: Allocator> {
    /// Not every thread that was registered is gathered: nothing was done, and heap and root are as they were. Both
    /// numbers count registrations, also those whose thread numbers were given again.
    Missing {
        registered: u32,
        gathered: u32,
        heap: Heap<A>,
        root: Root<A>,
    },
    /// Memory for the report was missing. The heap is no more, and all memory of its blocks is given back.
    Memory,
}

/// The report of these contents, of which each mortal cell is held, and is of a mortal kind; None where memory for it
/// is missing.
fn report_of<A: Allocator + Copy>(
    alloc: A,
    ledger: Ledger,
    contents: Vec<Content<A>, A>,
) -> Option<Report<A>>
    requires held { remains_of contents.items ≢ None }
    requires spelled { (remains : List TheRemain) → remains_of contents.items ≡ Some remains
        → all_spelled remains ≡ true }
    ensures { IfSome result (Reports ledger contents.items) }
{
    let Ok(found) = find_remains(alloc, contents.as_slice()) else {
        return None;
    };
    let Some(remains) = found else { unreachable!() };
    let Ok(cycles) = find_cycles(alloc, remains.as_slice()) else {
        return None;
    };
    let live = remains.len() as u64;
    Some(Report {
        ledger,
        live,
        remains,
        cycles,
        contents,
    })
}

/// Closes a heap that no thread shares any more: its report, of the last state. Missing where not every thread that was
/// registered is gathered, which is looked at first: it tells how many registrations there were, and how many gathered
/// threads. Memory where memory for the report is missing.
pub fn close<A: Allocator + Copy>(
    alloc: A,
    heap: Heap<A>,
    root: Root<A>,
) -> Result<Report<A>, CloseFault<A>>
    requires heap { root.table ≡ heap.table }
    ensures report { IfOk result (IsReportOfEnd heap.cells heap.local_limit root.view) }
    ensures all { OnOk result (registrations root.view ≡ gatherings root.view) }
    ensures open { IfErr result (StaysOpen heap root) }
{
    let registered = root.registered();
    let gathered = root.gathered();
    if registered != gathered {
        return Err(CloseFault::Missing {
            registered,
            gathered,
            heap,
            root,
        });
    }
    let done = root.ledger();
    let ledger = Ledger {
        allocs: done.allocs,
        frees: done.frees,
    };
    let rest = take_apart(heap, root);
    let Some(contents) = collect(alloc, rest) else {
        return Err(CloseFault::Memory);
    };
    match report_of(alloc, ledger, contents) {
        Some(report) => Ok(report),
        None => Err(CloseFault::Memory),
    }
}
