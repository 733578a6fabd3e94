//! The end of a heap: a last thread clears the globals, and the report is printed.

ghost use Rattle.std.specs.Prelude.{◌≡◌};

use brc_heap::{Heap, NoReport, Report, Root, write_report};
use std::alloc::Global;
use std::io::{self, Write};
use std::sync::Wait;

/// A last thread clears the globals, and frees what was left there: whether it could.
pub(crate) fn clears(rt: &impl Wait, alloc: Global, heap: &Heap, root: &mut Root) -> bool
    requires root { root.old.table ≡ heap.now.table }
    ensures root { root.new.table ≡ root.old.table }
{
    let Ok(mut last) = root.register_apart(alloc, heap) else {
        return false;
    };
    let cleared = last.clear_globals().is_ok();
    let _ledger = last.settle_and_join(rt, root, heap);
    cleared
}

/// The report's text.
pub(crate) fn writes(
    rt: &impl Print,
    output: &mut impl Write,
    report: &Report<Global>,
) -> io::Result<()> {
    match write_report(report, output) {
        Ok(()) => Ok(()),
        Err(_) => println!(rt; "not written"),
    }
}

/// The report's text, or why there is none.
pub(crate) fn shows(
    rt: &impl Print,
    output: &mut impl Write,
    closed: Result<Report<Global>, NoReport>,
) -> io::Result<()> {
    match closed {
        Ok(report) => writes(rt, output, &report),
        Err(reason) => println!(rt; "no report: {reason:?}"),
    }
}
