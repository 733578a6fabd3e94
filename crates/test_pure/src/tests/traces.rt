//! Traces as texts: a whole life there and back, the longest text, streams and memory that fail. Which lines are lines,
//! and what a replay comes to, stands in the files of `test_texts`.

use crate::tests::comparing::{same, same_at, shows};
use crate::tests::memory::{Tried, ends_of, has_come};
use brc_trace::*;
use brc_words::{Fault, Reason};
use linked_list_allocator::LocalHeap;
use std::alloc::{AllocGlobal, Allocator, Global};
use std::io::{self, Error, ErrorKind, Read, Write};
use std::process::Abort;
use std::test::*;

/// One object's life, from registration to the cell given back.
const LIFE: &str =
    "heap 512 100\n0 register 1\n1 claim 266\n1 local 266\n1 shared 266\n1 born 266 int 0\n1 up f0 1\n1 down f1\n1 down f0\n1 see 266\n1 free 266\n";

/// A whole life in a heap whose owners count as far as they can.
const SHORT_LIFE: &str =
    "heap 512 4294967294\n0 register 1\n1 claim 266\n1 local 266\n1 shared 266\n1 born 266 list 0\n1 down f0\n1 see 266\n1 free 266\n";

/// The text is no trace, for this line.
fn stops_at(rt: &impl Abort, alloc: Global, case: &str, text: &[u8], line: u32) {
    let found = read_trace(alloc, text).err();
    let reason = Reason::NotALine;
    same(rt, case, found, Some(Fault::BadTrace { line, reason }));
}

/// The trace is written as these bytes, so many at a time.
fn is_written<R: Abort + AllocGlobal>(
    rt: &R,
    trace: &Trace<Global>,
    case: &str,
    text: &[u8],
    at_once: usize,
) -> Result<(), Fail> {
    let mut out = stream(rt.alloc(), at_once, 1000, true);
    same(rt, case, write_trace(trace, &mut out), Ok(()));
    same(rt, case, out.taken.as_slice(), text);
    Ok(())
}

/// Takes so many bytes at a call, and so many in all before it fails or takes none.
#[derive(Drop)]
struct Narrow {
    taken: Vec<u8>,
    at_once: usize,
    room: usize,
    fails: bool,
}

fn stream(alloc: Global, at_once: usize, room: usize, fails: bool) -> Narrow {
    let taken = Vec::new(alloc);
    Narrow {
        taken,
        at_once,
        room,
        fails,
    }
}

impl Write for Narrow {
    fn write(&mut self, buf: &[u8]) -> io::Result<usize> {
        let count = buf.len().min(self.at_once).min(self.room);
        if count == 0 && self.fails {
            return Err(Error::from(ErrorKind::Other));
        }
        self.taken.extend_from_slice(&buf[..count])?;
        self.room -= count;
        Ok(count)
    }

    fn flush(&mut self) -> io::Result<()> {
        Ok(())
    }
}

/// The text is of a trace with this limit and so many events, and is written again, seven bytes at a time.
fn is_a_life<R: Abort + AllocGlobal>(
    rt: &R,
    text: &str,
    local_limit: u32,
    count: usize,
) -> Result<(), Fail> {
    let trace = read_trace(rt.alloc(), text.as_bytes())
        .ok()
        .ok_or("a life is a trace")?;
    same(rt, "cells", trace.cells, 512);
    same(rt, "the limit", trace.local_limit, local_limit);
    same(rt, "events", trace.events.len(), count);
    is_written(rt, &trace, "written", text.as_bytes(), 7)
}

#[test]
fn there_and_back(rt: HostRuntime) -> Result<(), Fail> {
    is_a_life(&rt, LIFE, 100, 10)?;
    is_a_life(&rt, SHORT_LIFE, 4_294_967_294, 8)
}

/// The trace of a life goes to a stream with this room, nine bytes at a time, and the stream has a front of it then.
fn stops_after<R: Abort + AllocGlobal>(rt: &R, trace: &Trace<Global>, room: usize, fails: bool) {
    let mut out = stream(rt.alloc(), 9, room, fails);
    same_at(rt, room, write_trace(trace, &mut out), Err(Fault::Io));
    same_at(
        rt,
        room,
        out.taken.as_slice(),
        LIFE.as_bytes().get(..room).unwrap_or(&[]),
    );
}

#[test]
fn failing_writers(rt: HostRuntime) -> Result<(), Fail> {
    let trace = read_trace(rt.alloc(), LIFE.as_bytes())
        .ok()
        .ok_or("a life is a trace")?;
    for fails in [true, false] {
        for room in [0, 5, 13, 40] {
            stops_after(&rt, &trace, room, fails);
        }
    }
    Ok(())
}

/// How many events of a life are read in this memory.
fn events_in<A: Allocator + Copy>(heap: A) -> Result<usize, Fault> {
    let trace = read_trace(heap, LIFE.as_bytes())?;
    Ok(trace.events.len())
}

/// A life is read.
struct Reads;

impl Tried for Reads {
    fn comes_to<R: Abort + AllocGlobal>(&self, rt: &R, size: usize, heap: &LocalHeap) -> u32 {
        has_come(rt, size, events_in(heap), 10)
    }
}

#[test]
fn refused_memory(rt: HostRuntime) {
    assert_eq!(rt; ends_of(&rt, &Reads, 1..64, 32), 2);
}

/// The world behind it.
const SHORT_LIFE_WORLD: &str = "world 512 4294967294\nthread 1 active\nledger 1 1 0\n";

/// A life is replayed. Where it isn't, nothing is written.
struct Replays;

impl Tried for Replays {
    fn comes_to<R: Abort + AllocGlobal>(&self, rt: &R, size: usize, heap: &LocalHeap) -> u32 {
        let mut out = stream(rt.alloc(), 1000, 1000, true);
        let answer = run_replay(heap, SHORT_LIFE.as_bytes(), &mut out);
        let come_to = has_come(rt, size, answer, false);
        let wanted = if come_to == 0 { "" } else { SHORT_LIFE_WORLD };
        same_at(rt, size, out.taken.as_slice(), wanted.as_bytes());
        come_to
    }
}

/// Every growth of the reading, the replay and the writing is refused at some of the sizes.
#[test]
fn replays_without_memory(rt: HostRuntime) {
    assert_eq!(rt; ends_of(&rt, &Replays, 1..2_500, 32), 2);
}

#[test]
fn long_texts(rt: HostRuntime) -> Result<(), Fail> {
    let mut text = Vec::with_capacity(rt.alloc(), 16_777_217)?;
    text.extend_from_slice(b"heap 512 1\n")?;
    text.resize(16_777_217, b'x')?;
    stops_at(&rt, rt.alloc(), "one byte too long", text.as_slice(), 0);
    text.truncate(16_777_216);
    stops_at(&rt, rt.alloc(), "the longest", text.as_slice(), 2);
    Ok(())
}

/// A replay of what is read answers this, and has written this where it ends.
fn is_replayed<R: Abort + AllocGlobal>(
    rt: &R,
    case: &str,
    input: impl Read + Drop,
    out: Narrow,
    answer: &str,
    written: &str,
) {
    let mut out = out;
    let found = run_replay(rt.alloc(), input, &mut out);
    shows(rt, case, &found, answer);
    same(rt, case, out.taken.as_slice(), written.as_bytes());
}

#[test]
fn writers_of_worlds_that_fail(rt: HostRuntime) {
    for fails in [true, false] {
        let (input, out) = (
            b"heap 512 1\n".as_slice(),
            stream(rt.alloc(), 1000, 7, fails),
        );
        is_replayed(&rt, "the front", input, out, "Err(Io)", "world 5");
    }
}

/// Gives one byte a read, and fails at the read with this number.
#[derive(Drop)]
struct Slow {
    rest: &'static [u8],
    until_failure: u32,
}

impl Read for Slow {
    fn read(&mut self, buf: &mut [u8]) -> io::Result<usize> {
        self.until_failure = self.until_failure.saturating_sub(1);
        if self.until_failure == 0 {
            return Err(Error::from(ErrorKind::Interrupted));
        }
        let count = buf.len().min(self.rest.len()).min(1);
        let (given, rest) = self.rest.split_at(count);
        buf[..count].copy_from_slice(given);
        self.rest = rest;
        Ok(count)
    }
}

#[test]
fn slow_and_failing_readers(rt: HostRuntime) {
    const CASES: &[(&str, u32, &str, &str)] = &[
        (
            "one byte a read",
            1000,
            "Ok(false)",
            "world 512 1\nledger 0 0 0\n",
        ),
        ("the second read fails", 2, "Err(Io)", ""),
        ("the first read fails", 1, "Err(Io)", ""),
    ];
    for &(case, until_failure, answer, written) in CASES {
        let reader = Slow {
            rest: b"heap 512 1\n",
            until_failure,
        };
        let out = stream(rt.alloc(), 1000, 1000, true);
        is_replayed(&rt, case, reader, out, answer, written);
    }
}
