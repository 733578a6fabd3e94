//! 64 threads find one list in the globals and let it go, a hundred times each, all at the same time; then all but its
//! maker leave, the maker clears the globals and leaves too, and the heap is closed: the list was made and freed once.
//! Then two threads let one list go as they leave, on heap after heap.

mod counted;
mod crew;
mod finding;
mod first;
mod gate;
mod lives;
mod pair;
mod pairs;
mod together;

use brc_heap::{Heap, Options, Report, close_or_end};
use counted::Counted;
use pairs::{HEAPS, count_heaps};
use std::alloc::{AllocGlobal, Global};
use std::io;
use std::sync::Wait;
use std::thread::Threads;
use together::all_live;

/// What the threads counted, behind what couldn't be had.
fn shows_counted(rt: &impl Print, counted: Counted) -> io::Result<()> {
    if let Some(want) = counted.want {
        println!(rt; "{want}")?;
    }
    println!(rt; "finds {} of {}", counted.finds, counted.tries)
}

/// What the report counts.
fn shows_report(rt: &impl Print, report: Option<Report<Global>>) -> io::Result<()> {
    let Some(report) = report else {
        return println!(rt; "no report can be had");
    };
    let (ledger, live, remains) = (report.ledger, report.live, report.remains.len());
    println!(rt;
        "allocs {}\nfrees {}\nlive {live}\nremains {remains}",
        ledger.allocs, ledger.frees
    )
}

/// The crowd lives on one heap, and two threads on each of many others; what they counted is printed.
pub(crate) fn says<R: AllocGlobal + Print + Threads + Wait + Sync>(rt: &R) -> io::Result<()> {
    let Ok((heap, mut root)) = Heap::new(rt.alloc(), Options::DEFAULT) else {
        return println!(rt; "no heap can be had");
    };
    let counted = all_live(rt, rt.alloc(), &heap, &mut root);
    let gathered = root.gathered();
    let report = close_or_end(rt.alloc(), heap, root).ok();
    shows_counted(rt, counted)?;
    println!(rt; "gathered {gathered}")?;
    shows_report(rt, report)?;
    let freed = count_heaps(rt, rt.alloc());
    println!(rt; "freed once on {} of {} heaps", freed, HEAPS)
}
