//! A server's pool of workers on one heap, in waves: whoever starts the workers keeps the root, and gathers them all
//! before the next eight. Each serves a request and leaves, and what it made lives on in the globals; so every wave
//! finds there what the wave before left, and bears its numbers. At last the globals are cleared, and the heap's report
//! has no object left.

mod waves;
mod worker;

use crate::ending::{clears, shows};
use brc_heap::{Heap, Options, close_or_end};
use std::alloc::AllocGlobal;
use std::io::{self, Write};
use std::sync::Wait;
use std::thread::Threads;
use waves::{opens_all, serves_all};

/// All waves serve on one heap; how many workers served, and the heap's report, are printed.
pub(crate) fn says<R: AllocGlobal + Print + Threads + Wait + Sync, W: Write>(
    rt: &R,
    output: &mut W,
) -> io::Result<()> {
    let Ok((heap, mut root)) = Heap::new(rt.alloc(), Options::DEFAULT) else {
        return println!(rt; "no heap can be had");
    };
    let opened = opens_all(rt, rt.alloc(), &heap, &mut root);
    let served = serves_all(rt, rt.alloc(), &heap, &mut root);
    let ended = clears(rt, rt.alloc(), &heap, &mut root);
    let (registered, next) = (root.registered(), root.next());
    let closed = close_or_end(rt.alloc(), heap, root);
    println!(rt;
        "opened {opened}, served {served}, ended {ended}\nthreads {registered}, the next is {next}"
    )?;
    shows(rt, output, closed)
}
