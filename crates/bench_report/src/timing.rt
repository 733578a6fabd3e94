//! A report, and how long its parts take.

use crate::graph::{Graph, contents_of};
use brc_report::{Ledger, Report, check_report, find_cycles, find_remains, write_report};
use std::alloc::Global;
use std::fmt::{self, Display, Formatter, Write};
use std::io;
use std::time::{CpuClock, Duration};

/// What stands in a report.
#[derive(Clone, Copy)]
pub struct Counts {
    remains: usize,
    cycles: usize,
    /// Of the text.
    bytes: usize,
    right: bool,
}

impl Display for Counts {
    fn fmt<W: Write>(&self, into: &mut Formatter<W>) -> fmt::Result {
        let Counts {
            remains,
            cycles,
            bytes,
            right,
        } = self;
        write!(into, "{remains} {cycles} {bytes} {right}")
    }
}

/// The processor time of each part.
#[derive(Clone, Copy)]
pub struct Times {
    remains: Duration,
    cycles: Duration,
    text: Duration,
    check: Duration,
}

impl Display for Times {
    /// In microseconds.
    fn fmt<W: Write>(&self, into: &mut Formatter<W>) -> fmt::Result {
        let remains = self.remains.as_micros();
        let cycles = self.cycles.as_micros();
        let text = self.text.as_micros();
        let check = self.check.as_micros();
        write!(into, "{remains} {cycles} {text} {check}")
    }
}

/// The report on this heap; none where memory is missing or a cell has no holder.
pub fn report_on<R: CpuClock>(
    rt: &R,
    alloc: Global,
    graph: Graph,
) -> io::Result<Option<(Counts, Times)>> {
    let Ok(contents) = contents_of(alloc, graph) else {
        return Ok(None);
    };

    let started = rt.thread_cpu_time()?;
    let Ok(Some(remains)) = find_remains(alloc, contents.as_slice()) else {
        return Ok(None);
    };
    let remained = rt.thread_cpu_time()?;
    let Ok(cycles) = find_cycles(alloc, remains.as_slice()) else {
        return Ok(None);
    };
    let cycled = rt.thread_cpu_time()?;

    let live = graph.cells as u64;
    let ledger = Ledger {
        allocs: live,
        frees: 0,
    };
    let Some(report) = Report::new(ledger, live, remains, cycles, contents) else {
        return Ok(None);
    };
    let mut text = Vec::new(alloc);
    let Ok(()) = write_report(&report, &mut text) else {
        return Ok(None);
    };
    let written = rt.thread_cpu_time()?;
    let Ok(right) = check_report(
        alloc,
        report.remains.as_slice(),
        report.cycles.as_slice(),
        report.contents.as_slice(),
    ) else {
        return Ok(None);
    };
    let checked = rt.thread_cpu_time()?;

    let counts = Counts {
        remains: report.remains.len(),
        cycles: report.cycles.len(),
        bytes: text.len(),
        right,
    };
    let times = Times {
        remains: remained.saturating_sub(started),
        cycles: cycled.saturating_sub(remained),
        text: written.saturating_sub(cycled),
        check: checked.saturating_sub(written),
    };
    Ok(Some((counts, times)))
}
