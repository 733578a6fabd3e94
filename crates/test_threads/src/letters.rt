//! Threads that differ: one puts a mailbox into the globals, some send letters, and others receive them until nobody
//! sends any more. All of them wait for what isn't there yet, by the calls of `brc_loops`. At last the heap's report has
//! no object left. Then each growth of these calls, and of a registration apart, is refused before it is had.

mod crew;
mod mail;
mod registering;
mod starving;

use crate::ending::{clears, shows};
use brc_heap::{Heap, Options, close_or_end};
use crew::all_live;
use registering::registers_apart;
use starving::{Awaited, answers_are_refused, is_refused};
use std::alloc::AllocGlobal;
use std::io::{self, Write};
use std::sync::Wait;
use std::thread::Threads;

/// All threads live on one heap, and growths are refused on others; what came of it is printed.
pub(crate) fn says<R: AllocGlobal + Print + Threads + Wait + Sync, W: Write>(
    rt: &R,
    output: &mut W,
) -> io::Result<()> {
    let Ok((heap, mut root)) = Heap::new(rt.alloc(), Options::DEFAULT) else {
        return println!(rt; "no heap can be had");
    };
    let counted = all_live(rt, rt.alloc(), &heap, &mut root);
    let cleared = clears(rt, rt.alloc(), &heap, &mut root);
    let closed = close_or_end(rt.alloc(), heap, root);
    match counted {
        Some(all) => println!(rt;
            "sent {}, received {}, sum {}",
            all.sent, all.received, all.sum
        )?,
        None => println!(rt; "memory was missing")?,
    }
    println!(rt; "cleared {cleared}")?;
    shows(rt, output, closed)?;
    println!(rt;
        "registered apart once there is memory: {}",
        registers_apart(rt, rt.alloc())
    )?;
    for (what, awaited) in [
        ("a letter", Awaited::Letter),
        ("a value beside a key", Awaited::Value),
    ] {
        let had = is_refused(rt, rt.alloc(), awaited);
        println!(rt; "{what} once there is memory: {had}")?;
    }
    let answers = answers_are_refused(rt, rt.alloc());
    println!(rt; "answers once there is memory: {answers}")
}
