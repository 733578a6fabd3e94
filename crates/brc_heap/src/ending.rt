//! An end for every heap: with its report, or with the reason why there is none.

ghost use Rattle.std.specs.Prelude.{◌≡◌, IfOk, IfErr, OnOk};
ghost use Rattle.brc_thread.specs.Counting.{registrations, gatherings};
ghost use Rattle.brc_heap.specs.Closing.{IsReportOfEnd};
ghost use Rattle.brc_heap.specs.Ending.{HasOneTable, reason_of, LacksReport};

use crate::closing::{CloseFault, close};
use brc_report::Report;
use brc_thread::{Heap, Root, give_back, take_apart};
use std::alloc::Allocator;

/// Why a heap that has ended has no report. Nothing in it must be spent.
#[derive(Clone, Copy, Debug, PartialEq, Eq)]
pub enum NoReport {
    /// Not every thread that was registered was gathered. Both numbers count registrations, also those whose thread
    /// numbers were given again.
    Missing { registered: u32, gathered: u32 },
    /// Memory for the report was missing.
    Memory,
}

impl<A: Allocator> CloseFault<A> {
    /// Spends all that it holds, and returns why there is no report. A heap that is still open is taken apart, and the
    /// memory of all its blocks is freed.
    pub fn end(self) -> NoReport
        requires tables { HasOneTable self }
        ensures { result ≡ reason_of self }
    {
        match self {
            CloseFault::Missing {
                registered,
                gathered,
                heap,
                root,
            } => {
                give_back(take_apart(heap, root));
                NoReport::Missing {
                    registered,
                    gathered,
                }
            }
            CloseFault::Memory => NoReport::Memory,
        }
    }
}

/// Ends a heap that no thread shares any more: its report, as by `close`, or why it has none. The memory of all its
/// blocks is freed in each case.
#[tactic(auto, using(crate::proofs::Ended::has_one_table, crate::proofs::Ended::lacks_report))]
pub fn close_or_end<A: Allocator + Copy>(
    alloc: A,
    heap: Heap<A>,
    root: Root<A>,
) -> Result<Report<A>, NoReport>
    requires heap { root.table ≡ heap.table }
    ensures report { IfOk result (IsReportOfEnd heap.cells heap.local_limit root.view) }
    ensures all { OnOk result (registrations root.view ≡ gatherings root.view) }
    ensures none { IfErr result (LacksReport root) }
{
    match close(alloc, heap, root) {
        Ok(report) => Ok(report),
        Err(fault) => Err(fault.end()),
    }
}
