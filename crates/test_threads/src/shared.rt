//! A heap that threads share by a count: none of them names a lifetime, and nobody keeps the root.
//!
//! One thread opens eight sessions in the globals. Then eight threads of the machine, each with a `Shared`, live fifty
//! lives one after the other. In each they are registered at the desk, open a session in the globals, write to their
//! neighbour's, leave, and are gathered by themselves. At last the globals are cleared and the heap is closed; its report
//! has no object left.

mod client;
mod crew;
mod refusals;

use crate::ending::writes;
use brc_heap::{Fault, LastReport, Options, Shared, Stays};
use crew::{all_live, opens_all};
use refusals::{clears, shows_refusals};
use std::alloc::{AllocGlobal, Global};
use std::io::{self, Write};
use std::sync::Wait;
use std::thread::Threads;

/// The report's text, or why there is none.
fn shows(
    rt: &impl Print,
    output: &mut impl Write,
    closed: Result<LastReport, Stays>,
) -> io::Result<()> {
    match closed {
        Ok(last) => writes(rt, output, last.report()),
        Err(Stays::Open(_shared, reason, _seen)) => println!(rt; "still open: {reason:?}"),
        Err(Stays::Memory(_seen)) => println!(rt; "no memory for the report"),
    }
}

/// A heap. If memory was missing it is asked for once more.
fn opened(alloc: Global) -> Result<Shared, Fault> {
    match Shared::new(alloc, Options::DEFAULT) {
        Ok(shared) => Ok(shared),
        Err(Fault::OutOfMemory) => Shared::new(alloc, Options::DEFAULT),
        Err(fault) => Err(fault),
    }
}

/// A heap stays open twice, eight threads of the machine live on it, and it is closed; what came of it is printed.
pub(crate) fn says<R: AllocGlobal + Print + Threads + Wait + Sync, W: Write>(
    rt: &R,
    output: &mut W,
) -> io::Result<()> {
    let Ok(shared) = opened(rt.alloc()) else {
        return println!(rt; "no heap can be had");
    };
    let Some(shared) = shows_refusals(rt, rt.alloc(), shared)? else {
        return println!(rt; "the heap is gone");
    };
    let opened = opens_all(rt, rt.alloc(), &shared);
    let lived = all_live(rt, rt.alloc(), &shared);
    let cleared = clears(rt, rt.alloc(), &shared);
    println!(rt;
        "opened {opened}\nlives {}, numbers {}\ncleared {cleared}",
        lived.whole, lived.numbers
    )?;
    if let Some((counts, _seen)) = shared.counts() {
        println!(rt;
            "registered {}, gathered {}",
            counts.registered, counts.gathered
        )?;
    }
    shows(rt, output, shared.close(rt.alloc()))
}
