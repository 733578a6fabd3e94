//! The report of a heap that has ended, with what it was made of.

ghost use Rattle.std.specs.Prelude.{◌≡◌, IfOk, IfErr, OnOk};
ghost use Rattle.brc_thread.specs.Counting.{registrations, gatherings};
ghost use Rattle.brc_heap.specs.Closing.{IsReportOfEnd};
ghost use Rattle.brc_heap.specs.Ending.{LacksReport};

use crate::desk::Clerk;
use crate::{NoReport, close_or_end};
use brc_report::Report;
use brc_thread::{Heap, Root};
use std::alloc::Global;
use std::marker::Model;

/// The report of a heap that has ended. It is of this heap's last state, with the root as it was taken from its desk and
/// never put back: that is always so of such a value. Each thread that this root registered was gathered.
#[derive(Drop)]
pub struct LastReport {
    report: Report<Global>,
    clerk: Clerk,
}

impl Model for LastReport {
    ghost use Rattle.std.specs.Prelude.{◌≡◌};
    ghost use Rattle.brc_thread.specs.Counting.{registrations, gatherings};
    ghost use Rattle.brc_heap.specs.Closing.{IsReportOfEnd};
    ghost use Rattle.brc_heap.specs.Lasting.{LastReportSeen};

    ghost Value = { LastReportSeen };

    ghost view = { λ l. record { report = l.report; heap = l.clerk.heap; desk = l.clerk.desk; root = l.clerk.found } };

    ghost invariant = { λ l. (l.clerk.found.table ≡ l.clerk.heap.table)
        × (registrations l.clerk.found.view ≡ gatherings l.clerk.found.view)
        × IsReportOfEnd l.clerk.heap.cells l.clerk.heap.local_limit l.clerk.found.view l.report };
}

impl LastReport {
    /// The report.
    pub fn report(&self) -> &Report<Global>
        ensures { result.now ≡ self.now.report }
    {
        &self.report
    }

    /// The report alone.
    pub fn into_report(self) -> Report<Global>
        ensures { result ≡ self.report }
    {
        let LastReport {
            report,
            clerk: _clerk,
        } = self;
        report
    }
}

/// Ends a heap that no thread shares any more, as `close_or_end` does. The root was taken from its desk by this clerk.
pub(crate) fn last_report(
    alloc: Global,
    heap: Heap<Global>,
    root: Root<Global>,
    clerk: Clerk,
) -> Result<LastReport, NoReport>
    requires heap { root.table ≡ heap.table }
    requires clerk { (clerk.heap ≡ heap) × (clerk.found ≡ root) }
    ensures heap { IfOk result (λ last. last.heap ≡ heap) }
    ensures desk { IfOk result (λ last. last.desk ≡ clerk.desk) }
    ensures root { IfOk result (λ last. last.root ≡ root) }
    ensures report { IfOk result (λ last. IsReportOfEnd heap.cells heap.local_limit root.view last.report) }
    ensures all { OnOk result (registrations root.view ≡ gatherings root.view) }
    ensures none { IfErr result (LacksReport root) }
{
    match close_or_end(alloc, heap, root) {
        Ok(report) => Ok(LastReport { report, clerk }),
        Err(reason) => Err(reason),
    }
}
