//! The leak report, timed: it answers lines as `benches/README.md` has them.
//!
//! `run SHAPE CELLS EACH` answers the processor time of each part, in microseconds, for so many live cells with so many
//! entries each; `count SHAPE CELLS EACH` how many remains and cycles there are, and how long the text is.
#![tactic(auto)]

mod graph;
mod request;
mod timing;

use request::{Verb, read_request};
use std::io;
use timing::report_on;

fn main(rt: HostRuntime) -> io::Result<()> {
    println!(rt; "peer brc")?;
    for line in rt.lines(rt.alloc()) {
        let line = line?;
        let Some(request) = read_request(line.as_str()) else {
            println!(rt; "no")?;
            continue;
        };
        match report_on(&rt, rt.alloc(), request.graph)? {
            Some((counts, times)) => match request.verb {
                Verb::Run => println!(rt; "{times}")?,
                Verb::Count => println!(rt; "{counts}")?,
            },
            None => println!(rt; "no")?,
        }
    }
    Ok(())
}
