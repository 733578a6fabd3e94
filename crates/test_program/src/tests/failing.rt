//! The program over streams that fail at each read, each write and each flush in turn.

use crate::tests::running::{ended, same, status_of};
use crate::tests::streams::{Drip, Endless, STOPS, Sink, Stop, open, whole};
use std::alloc::AllocGlobal;
use std::process::Abort;
use std::sync::Wait;
use std::sync::atomic::{AtomicU64, Ordering};
use std::test::*;
use std::thread::Threads;

/// What is told where a stream fails.
const IO: &str = "brc: fault 15 Io\n";

/// A command line, an input, the status, the output, and the error line.
type Answer = (&'static str, &'static str, u8, &'static str, &'static str);

/// Inputs that have an answer.
const ANSWERS: [Answer; 3] = [
    (
        "brc replay",
        "heap 512 4294967294\n0 register 1\n1 claim 266\n1 local 266\n1 shared 266\n1 born 266 list 0\n1 down f0\n1 see 266\n1 free 266\n",
        0,
        "world 512 4294967294\nthread 1 active\nledger 1 1 0\n",
        "",
    ),
    (
        "brc run",
        "section a\nlist r0\ncopy r1 r0\npush r0 r1\nprint r0\ndrop r0\n",
        1,
        "a: list 1\nledger 1 0 1\nremain 266 list 266\ncycle 266\n",
        "",
    ),
    (
        "brc graph",
        "a: list 1\nledger 1 0 1\nremain 266 list 266\ncycle 266\n",
        0,
        "digraph brc {\n  265 [label=\"265 globals\"]\n  266 [label=\"266 list\"]\n  266 -> 266\n  subgraph cluster_266 {\n    label=\"cycle\"\n    266\n  }\n}\n",
        "",
    ),
];

/// Inputs that are refused.
const REFUSALS: [Answer; 6] = [
    (
        "brc replay",
        "heap 511 1\n",
        3,
        "",
        "brc: line 1: not a trace line\n",
    ),
    (
        "brc replay --explain",
        "heap 512 1\n0 register 2\n",
        3,
        "",
        "brc: line 2: not enabled\nbrc: why: the next thread has another number, or there are 64; threads 0\n",
    ),
    (
        "brc run",
        "section a\npush r0 r0\n",
        3,
        "",
        "brc: line 2: not a script line\n",
    ),
    (
        "brc graph",
        "ledger 1 0 1\nremain 266 list\n",
        3,
        "",
        "brc: line 2: not a report or world line\n",
    ),
    ("brc run --cells 511", "", 2, "", "brc: bad command line\n"),
    ("brc", "", 2, "", "brc: bad command line\n"),
];

/// Command lines that are answered by help.
const HELPS: [&str; 6] = [
    "brc --help",
    "brc help",
    "brc replay --help",
    "brc run --help",
    "brc graph --help",
    "brc help graph",
];

/// The program with these streams: its status, and what is on standard error.
fn ends<R: Abort + AllocGlobal + Threads + Wait + Sync>(
    rt: &R,
    line: &str,
    input: Drip,
    output: &mut Sink,
) -> Result<(u8, Vec<u8>), Fail> {
    let mut errors = Vec::new(rt.alloc());
    let found = status_of(rt, line, input, output, &mut errors)?;
    Ok((found, errors))
}

/// The stream took the front of the text, and not all of it.
fn is_cut_short(rt: &impl Abort, case: &str, taken: &[u8], text: &str) {
    let text = text.as_bytes();
    assert!(rt; taken.len() < text.len(), "{case}");
    assert!(rt; text.starts_with(taken), "{case}");
}

#[test]
fn a_byte_at_a_time(rt: HostRuntime) -> Result<(), Fail> {
    for (line, input, status, output, told) in ANSWERS {
        let drip = Drip {
            step: 1,
            ..whole(input)
        };
        let mut sink = Sink {
            step: 1,
            ..open(rt.alloc())
        };
        let (found, errors) = ends(&rt, line, drip, &mut sink)?;
        ended(&rt, line, found, status);
        same(&rt, line, sink.taken.as_slice(), output);
        same(&rt, line, errors.as_slice(), told);
    }
    Ok(())
}

/// The first read fails, the second, and so on, until the input is read before one fails: 16 bytes a read, and one read
/// for its end.
#[test]
fn each_read_fails(rt: HostRuntime) -> Result<(), Fail> {
    for (line, input, status, output, _told) in ANSWERS {
        for stop in [Stop::Fails, Stop::IsInterrupted] {
            let mut passed = 0;
            for left in 0..100 {
                let drip = Drip {
                    step: 16,
                    left,
                    stop,
                    ..whole(input)
                };
                let mut sink = open(rt.alloc());
                let (found, errors) = ends(&rt, line, drip, &mut sink)?;
                if found == status {
                    same(&rt, line, sink.taken.as_slice(), output);
                    break;
                }
                passed = left;
                ended(&rt, line, found, 5);
                same(&rt, line, sink.taken.as_slice(), "");
                same(&rt, line, errors.as_slice(), IO);
            }
            assert_eq!(rt; passed as usize, input.len().div_ceil(16), "{line}");
        }
    }
    Ok(())
}

/// The first write fails, the second, and so on: what was taken before is the front of the output.
#[test]
fn each_write_fails(rt: HostRuntime) -> Result<(), Fail> {
    for (line, input, status, output, _told) in ANSWERS {
        for stop in STOPS {
            let mut passed = 0;
            for left in 0..100 {
                let mut sink = Sink {
                    step: 7,
                    left,
                    stop,
                    ..open(rt.alloc())
                };
                let (found, errors) = ends(&rt, line, whole(input), &mut sink)?;
                if found == status {
                    same(&rt, line, sink.taken.as_slice(), output);
                    break;
                }
                passed = left;
                ended(&rt, line, found, 5);
                is_cut_short(&rt, line, sink.taken.as_slice(), output);
                same(&rt, line, errors.as_slice(), IO);
            }
            assert!(rt; passed > 4, "{line}");
        }
    }
    Ok(())
}

/// After a write of seven bytes the next fails.
#[test]
fn seven_bytes_are_written(rt: HostRuntime) -> Result<(), Fail> {
    let (line, input, _status, _output, _told) = ANSWERS[0];
    let mut sink = Sink {
        step: 7,
        left: 1,
        ..open(rt.alloc())
    };
    let (found, errors) = ends(&rt, line, whole(input), &mut sink)?;
    ended(&rt, line, found, 5);
    same(&rt, line, sink.taken.as_slice(), "world 5");
    same(&rt, line, errors.as_slice(), IO);
    Ok(())
}

/// Standard error fails at its first write, its second, and so on.
#[test]
fn each_error_line_fails(rt: HostRuntime) -> Result<(), Fail> {
    for (line, input, status, output, told) in REFUSALS {
        for stop in STOPS {
            for left in 0..100 {
                let mut sink = open(rt.alloc());
                let mut errors = Sink {
                    step: 7,
                    left,
                    stop,
                    ..open(rt.alloc())
                };
                let found = status_of(&rt, line, whole(input), &mut sink, &mut errors)?;
                same(&rt, line, sink.taken.as_slice(), output);
                if found == status {
                    same(&rt, line, errors.taken.as_slice(), told);
                    break;
                }
                ended(&rt, line, found, 5);
                is_cut_short(&rt, line, errors.taken.as_slice(), told);
            }
        }
    }
    Ok(())
}

/// Standard error takes so many bytes, one a write, and fails then. The line of the fault and its line feed are 30
/// bytes, and those of why 31.
#[test]
fn the_second_error_line_fails(rt: HostRuntime) -> Result<(), Fail> {
    for (room, status) in [(0, 5), (30, 5), (60, 5), (61, 3)] {
        let mut output = open(rt.alloc());
        let mut errors = Sink {
            step: 1,
            left: room,
            ..open(rt.alloc())
        };
        let line = "brc replay --explain";
        let found = status_of(&rt, line, whole(""), &mut output, &mut errors)?;
        ended(&rt, line, found, status);
        same(&rt, line, output.taken.as_slice(), "");
        assert_eq!(rt; errors.taken.len(), room as usize);
    }
    Ok(())
}

#[test]
fn each_flush_fails(rt: HostRuntime) -> Result<(), Fail> {
    for (line, input, _status, output, _told) in ANSWERS {
        for stop in [Stop::Fails, Stop::IsInterrupted] {
            let mut sink = Sink {
                stop,
                flushes: 0,
                ..open(rt.alloc())
            };
            let (found, errors) = ends(&rt, line, whole(input), &mut sink)?;
            ended(&rt, line, found, 5);
            same(&rt, line, sink.taken.as_slice(), output);
            same(&rt, line, errors.as_slice(), IO);
        }
    }
    Ok(())
}

/// Help is refused at its first write, and at a later one.
#[test]
fn help_that_cannot_be_written(rt: HostRuntime) -> Result<(), Fail> {
    for line in HELPS {
        for stop in STOPS {
            for left in [0, 3] {
                let mut sink = Sink {
                    step: 7,
                    left,
                    stop,
                    ..open(rt.alloc())
                };
                let (found, errors) = ends(&rt, line, whole(""), &mut sink)?;
                ended(&rt, line, found, 5);
                assert_eq!(rt; sink.taken.len(), 7 * left as usize, "{line}");
                same(&rt, line, errors.as_slice(), IO);
            }
        }
    }
    Ok(())
}

/// Of an input without end one byte more is read than an input may have.
#[test]
fn an_input_without_end(rt: HostRuntime) -> Result<(), Fail> {
    for line in ["brc replay", "brc run", "brc graph"] {
        let given = AtomicU64::new(0);
        let input = Endless { given: &given };
        let mut output = Vec::new(rt.alloc());
        let mut errors = Vec::new(rt.alloc());
        let found = status_of(&rt, line, input, &mut output, &mut errors)?;
        ended(&rt, line, found, 3);
        assert_eq!(rt; given.load(Ordering::SeqCst), 16_777_217, "{line}");
    }
    Ok(())
}

/// An input of one byte more than the most, 16,777,216, all of it lines that are empty or comments: it is looked at
/// before its lines are.
#[test]
fn an_input_that_is_too_long(rt: HostRuntime) -> Result<(), Fail> {
    const CASES: &[(&str, &str)] = &[
        ("brc replay", "brc: line 0: not a trace line\n"),
        ("brc run", "brc: line 0: not a script line\n"),
        ("brc graph", "brc: line 0: not a report or world line\n"),
    ];
    let mut input = Vec::new(rt.alloc());
    input.resize(16_777_217, b'\n')?;
    for &(line, told) in CASES {
        let mut output = Vec::new(rt.alloc());
        let mut errors = Vec::new(rt.alloc());
        let found = status_of(&rt, line, input.as_slice(), &mut output, &mut errors)?;
        ended(&rt, line, found, 3);
        same(&rt, line, output.as_slice(), "");
        same(&rt, line, errors.as_slice(), told);
    }
    Ok(())
}
