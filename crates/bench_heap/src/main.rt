//! The running heap, timed: threads that make, retain and release objects over their frames, and call lists,
//! dictionaries and mailboxes. It answers lines as `benches/README.md` has them.
//!
//! `run CASE THREADS N` answers the time that so many operations of each thread took, from the first thread's start to
//! the last one's end, and the processor time of the slowest, in nanoseconds; `count CASE THREADS N` how many objects
//! all threads together made and how many cells they gave back, which is the same whatever the schedule.
#![tactic(auto)]

mod containers;
mod deaths;
mod dict_values;
mod dicts;
mod globals;
mod leavers;
mod letters;
mod lists;
mod lives;
mod operations;
mod request;
mod runs;
mod timing;
mod value_letters;
mod values;

use request::{CASES, Request, read_request};
use runs::run_case;
use std::io;

fn main(rt: HostRuntime) -> io::Result<()> {
    println!(rt; "peer brc")?;
    for line in rt.lines(rt.alloc()) {
        let line = line?;
        match read_request(line.as_str()) {
            Some(Request::List) => println!(rt; "{CASES}")?,
            Some(Request::Run { case, threads, n }) => {
                match run_case(&rt, rt.alloc(), case, threads, n) {
                    Ok(answer) => println!(rt; "{} {}", answer.times.wall, answer.times.cpu)?,
                    Err(_) => println!(rt; "no")?,
                }
            }
            Some(Request::Count { case, threads, n }) => {
                match run_case(&rt, rt.alloc(), case, threads, n) {
                    Ok(answer) => println!(rt; "{} {}", answer.allocs, answer.frees)?,
                    Err(_) => println!(rt; "no")?,
                }
            }
            None => println!(rt; "no")?,
        }
    }
    Ok(())
}
