//! The running heap, soaked: scripts of a size and shape drawn at random run one after the other, each on a new heap,
//! and what each printed and what its heap's report says is compared with what the script comes to whatever its
//! threads' order.
//!
//! A line on standard input is how many seconds, and a seed. Each second a line on standard error says what was done by
//! then. At the end the line on standard output says that all were balanced, or which wasn't.
//!
//! Or it is `waves` or `two`, how many heaps, how many threads of each, at most 65,536, and a seed: heaps whose threads
//! come and go, some at a time, or two of which one stays. Then each heap has its line on standard error.
#![tactic(auto)]

mod checking;
mod coming;
mod passing;
mod plan;
mod script;
mod shared;
mod soaking;
mod two;
mod waves;

use passing::{Passed, Way, pass};
use soaking::{Soaked, soak};
use std::io;
use std::str::SplitWhitespace;

/// What a line asks for.
#[derive(Clone, Copy)]
enum Request {
    /// Scripts for so many seconds, by a seed.
    Scripts(u64, u64),
    /// So many heaps of so many threads that come and go, by a seed.
    Heaps(Way, u32, u32, u64),
}

/// The heaps, the threads and the seed of a line.
fn heaps<'w>(way: Way, words: &mut SplitWhitespace<'w>) -> Option<Request> {
    let heaps = words.next()?.parse::<u32>().ok()?;
    let threads = words.next()?.parse::<u32>().ok()?;
    let seed = words.next()?.parse::<u64>().ok()?;
    Some(Request::Heaps(way, heaps, threads, seed))
}

/// What this line asks for.
fn asked(line: &str) -> Option<Request> {
    let mut words = line.split_whitespace();
    match words.next()? {
        "waves" => heaps(Way::Waves, &mut words),
        "two" => heaps(Way::Two, &mut words),
        first => {
            let seconds = first.parse::<u64>().ok()?;
            let seed = words.next()?.parse::<u64>().ok()?;
            Some(Request::Scripts(seconds, seed))
        }
    }
}

fn main(rt: HostRuntime) -> io::Result<()> {
    for line in rt.lines(rt.alloc()) {
        let line = line?;
        match asked(line.as_str()) {
            None => println!(rt; "no")?,
            Some(Request::Scripts(seconds, seed)) => {
                match soak(&rt, rt.alloc(), &mut rt.stderr(), seconds, seed)? {
                    Soaked::Balanced => println!(rt; "all balanced")?,
                    Soaked::Unlike(plan) => println!(rt; "not as it should be: {plan:?}")?,
                }
            }
            Some(Request::Heaps(way, heaps, threads, seed)) => {
                match pass(&rt, rt.alloc(), &mut rt.stderr(), way, heaps, threads, seed)? {
                    Passed::Balanced => println!(rt; "all balanced")?,
                    Passed::Unlike(coming) => println!(rt; "not as it should be: {coming:?}")?,
                }
            }
        }
    }
    Ok(())
}
