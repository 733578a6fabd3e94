//! What comes of a trace by the calls of `brc_trace`.

use brc_core::{Edition, replay_in};
use brc_trace::{
    Cause, Trace, Why, explain, read_trace, run_replay, run_replay_explained, write_trace,
};
use std::alloc::Global;
use std::io::{self, Write};

/// Whether it is one.
pub(crate) fn reading(alloc: Global, text: &[u8], out: &mut Vec<u8>) -> io::Result<()> {
    match read_trace(alloc, text) {
        Ok(_trace) => writeln!(out, "Ok(())"),
        Err(fault) => writeln!(out, "Err({fault:?})"),
    }
}

/// Its events; and how it is written, if that isn't as it was read.
pub(crate) fn spelling(alloc: Global, text: &[u8], out: &mut Vec<u8>) -> io::Result<()> {
    let trace = match read_trace(alloc, text) {
        Ok(trace) => trace,
        Err(fault) => return writeln!(out, "Err({fault:?})"),
    };
    writeln!(out, "{:?}", trace.events.as_slice())?;
    let mut written = Vec::new(alloc);
    let answer = write_trace(&trace, &mut written);
    if written.as_slice() != text || answer.is_err() {
        writeln!(out, "written otherwise")?;
    }
    Ok(())
}

/// What its replay writes, and what it answers.
pub(crate) fn replaying(alloc: Global, text: &[u8], out: &mut Vec<u8>) -> io::Result<()> {
    let answer = run_replay(alloc, text, out);
    writeln!(out, "{answer:?}")
}

/// The same of the replay that says why.
pub(crate) fn replaying_explained(alloc: Global, text: &[u8], out: &mut Vec<u8>) -> io::Result<()> {
    let answer = run_replay_explained(alloc, text, out);
    writeln!(out, "{answer:?}")
}

/// Why it is refused: the number of the line that is, and what is wrong with it.
pub(crate) fn explaining(alloc: Global, text: &[u8], out: &mut Vec<u8>) -> io::Result<()> {
    match explain(alloc, text)? {
        None => writeln!(out, "nothing"),
        Some(Why::TooLong) => writeln!(out, "too long"),
        Some(
            Why::Bad {
                line,
                cause: Cause::UnknownWord(_),
            },
        ) => writeln!(out, "{line}: UnknownWord"),
        Some(Why::Bad { line, cause }) => writeln!(out, "{line}: {cause:?}"),
        Some(Why::Refused(refused)) => writeln!(out, "{}: {:?}", refused.line, refused.refusal),
    }
}

/// The same, with what stands there.
pub(crate) fn explaining_whole(alloc: Global, text: &[u8], out: &mut Vec<u8>) -> io::Result<()> {
    let answer = explain(alloc, text);
    writeln!(out, "{answer:?}")
}

/// The end of a heap of this edition behind the events of a trace: its ledgers, with those of the threads before, those
/// of these alone, how far thread 1 is, and how many objects live; or why there is no world.
fn end_in(
    alloc: Global,
    edition: Edition,
    trace: &Trace<Global>,
    out: &mut Vec<u8>,
) -> io::Result<()> {
    let events = trace.events.as_slice();
    match replay_in(alloc, edition, events, trace.cells, trace.local_limit) {
        Ok(world) => {
            let end = (world.ledgers(), world.past(), world.status(1), world.live());
            writeln!(out, "Ok({end:?})")
        }
        Err(fault) => writeln!(out, "Err({fault:?})"),
    }
}

/// Where its events lead in the two editions.
pub(crate) fn in_both_editions(alloc: Global, text: &[u8], out: &mut Vec<u8>) -> io::Result<()> {
    match read_trace(alloc, text) {
        Ok(trace) => {
            end_in(alloc, Edition::One, &trace, out)?;
            end_in(alloc, Edition::Two, &trace, out)
        }
        Err(fault) => writeln!(out, "Err({fault:?})"),
    }
}
