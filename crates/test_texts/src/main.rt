//! Texts, and what must come of each: the cases that stand in the files of `data/`, each run and compared, and the
//! examples that `data/examples/LIST` names. How a file of cases is written says `data/README.md`.
//!
//! A line on standard output for each file says that all is right. If something isn't, what came of it stands above, and
//! the line says how many are right. A file without a case, and one that isn't there, is not right.
#![tactic(auto)]

mod cases;
mod examples;
mod instructions;
mod listed;
mod programs;
mod scripts;
mod traces;
mod ways;
mod worlds;

use cases::{Case, read_cases};
use examples::run_examples;
use std::alloc::AllocGlobal;
use std::io::Print;
use std::rt::Files;
use std::sync::Wait;
use std::thread::Threads;
use std::{fs, io, str};
use ways::come_of;

/// The files, by name.
const FILES: [&str; 16] = [
    "traces",
    "worked_runs",
    "editions",
    "worlds",
    "explaining",
    "scripts",
    "meaning",
    "options",
    "command_lines",
    "statuses",
    "explanations",
    "mistakes",
    "instructions",
    "runs",
    "notes",
    "graphs",
];

/// The number of the first line that isn't the one that is wanted.
fn first_other(found: &str, wanted: &str) -> u32 {
    let mut number = 1u32;
    let mut wanted = wanted.lines();
    for line in found.lines() {
        if wanted.next() != Some(line) {
            return number;
        }
        number = number.saturating_add(1);
    }
    number
}

/// Whether the case comes out so by this way. If it doesn't, what came of it is printed, and from which line on it is
/// other than it should be.
fn comes_out<R: AllocGlobal + Print + Threads + Wait + Sync>(
    rt: &R,
    case: &Case,
    way: &str,
) -> io::Result<bool> {
    let mut found = Vec::new(rt.alloc());
    come_of(rt, way, case.text.as_str(), &mut found)?;
    if found.as_slice() == case.wanted.as_bytes() {
        return Ok(true);
    }
    let name = case.name.as_str();
    let found = str::from_utf8(found.as_slice()).unwrap_or("no text\n");
    let line = first_other(found, case.wanted.as_str());
    println!(rt; "{name}, by {way}, NOT RIGHT from line {line} on:\n{found}")?;
    Ok(false)
}

/// Whether it comes out so by each of its ways, each time.
fn is_as_wanted<R: AllocGlobal + Print + Threads + Wait + Sync>(
    rt: &R,
    case: &Case,
) -> io::Result<bool> {
    for way in case.ways.as_slice() {
        for _time in 0..case.times {
            if !comes_out(rt, case, way.as_str())? {
                return Ok(false);
            }
        }
    }
    Ok(true)
}

/// Says of so many texts how many came out as they should: all, as a rule.
pub(crate) fn tell_right(rt: &impl Print, name: &str, right: u32, tried: u32) -> io::Result<()> {
    if tried == 0 {
        return println!(rt; "{name}: NONE WAS TRIED");
    }
    if right == tried {
        return println!(rt; "{name}: all right");
    }
    println!(rt; "{name}: {right} of {tried} are right")
}

/// Runs the cases of a file, and says whether all came out as they should.
fn run_file<R: AllocGlobal + Files + Print + Threads + Wait + Sync>(
    rt: &R,
    name: &str,
) -> io::Result<()> {
    let path = format!(in rt.alloc(); "{name}.cases")?;
    let text = fs::read_to_string(rt, path.as_str())?;
    let cases = read_cases(rt.alloc(), text.as_str())?;
    let (mut tried, mut right) = (0u32, 0u32);
    for case in cases.as_slice() {
        if case.ways.is_empty() {
            continue;
        }
        tried = tried.saturating_add(1);
        if is_as_wanted(rt, case)? {
            right = right.saturating_add(1);
        }
    }
    tell_right(rt, name, right, tried)
}

fn main(rt: HostRuntime) -> io::Result<()> {
    for name in FILES {
        run_file(&rt, name)?;
    }
    run_examples(&rt)
}
