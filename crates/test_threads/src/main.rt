//! Programs of several threads over the heap's calls: what each prints is its own. A word chooses one of them by its
//! name. Without a word they run one after the other, in this order.
//!
//! Each stands in a module of its own. They are one crate, since a crate over the heap costs the gate a minute or more
//! for all that stands below it, whatever it has itself.
#![tactic(auto)]

mod closing;
mod crowd;
mod ending;
mod globals;
mod letters;
mod pool;
mod shared;
mod two_threads;

use std::alloc::AllocGlobal;
use std::env;
use std::io::{self, Write};
use std::sync::Wait;
use std::thread::Threads;

/// The programs, by name, in the order in which all of them run.
const PROGRAMS: [&str; 6] = [
    "two_threads",
    "letters",
    "crowd",
    "closing",
    "pool",
    "shared",
];

/// Runs the program with this name.
fn runs<R: AllocGlobal + Print + Threads + Wait + Sync, W: Write>(
    rt: &R,
    output: &mut W,
    name: &str,
) -> io::Result<()> {
    match name {
        "two_threads" => two_threads::says(rt),
        "letters" => letters::says(rt, output),
        "crowd" => crowd::says(rt),
        "closing" => closing::says(rt, output),
        "pool" => pool::says(rt, output),
        "shared" => shared::says(rt, output),
        _ => println!(rt; "{name} is no program"),
    }
}

/// The word behind the program's own name. If memory for the words is missing, they are asked for once more.
fn word(rt: &HostRuntime) -> io::Result<Option<String>> {
    let mut words = match env::args(rt) {
        Ok(words) => words,
        Err(_) => env::args(rt)?,
    };
    Ok(words.nth(1))
}

fn main(rt: HostRuntime) -> io::Result<()> {
    let mut output = rt.stdout();
    if let Some(name) = word(&rt)? {
        return runs(&rt, &mut output, name.as_str());
    }
    for name in PROGRAMS {
        runs(&rt, &mut output, name)?;
    }
    Ok(())
}
