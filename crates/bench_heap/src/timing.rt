//! When threads began and ended what is timed.

use std::io;
use std::rt::Clock;
use std::time::{CpuClock, Duration, Instant};

/// A case that can't be run.
pub fn refused() -> io::Error {
    io::ErrorKind::OutOfMemory.into()
}

/// A moment, and the processor time that the thread had had by then.
#[derive(Clone, Copy)]
pub struct Moment {
    pub wall: Instant,
    pub cpu: Duration,
}

/// This moment.
pub fn this_moment<R: Clock + CpuClock>(rt: &R) -> io::Result<Moment> {
    Ok(Moment {
        wall: Instant::now(rt)?,
        cpu: rt.thread_cpu_time()?,
    })
}

/// What is timed of one thread.
#[derive(Clone, Copy)]
pub struct Span {
    pub began: Moment,
    pub ended: Moment,
}

/// The times of a run, in nanoseconds.
#[derive(Clone, Copy)]
pub struct Times {
    /// From the first thread's start to the last one's end.
    pub wall: u128,
    /// The most processor time of one thread.
    pub cpu: u128,
}

impl Times {
    /// Nothing was timed.
    pub const NONE: Times = Times { wall: 0, cpu: 0 };

    /// With those of one span more, which came after the others.
    pub fn and(self, span: Span) -> Times {
        let more = times_of(&[span]);
        Times {
            wall: self.wall.wrapping_add(more.wall),
            cpu: self.cpu.wrapping_add(more.cpu),
        }
    }
}

/// The times of all threads together.
pub fn times_of(spans: &[Span]) -> Times {
    let mut first = None;
    let mut last = None;
    let mut cpu = Duration::ZERO;
    for span in spans {
        first = Some(match first {
            None => span.began.wall,
            Some(first) => span.began.wall.min(first),
        });
        last = Some(match last {
            None => span.ended.wall,
            Some(last) => span.ended.wall.max(last),
        });
        cpu = cpu.max(span.ended.cpu.saturating_sub(span.began.cpu));
    }
    let wall = match (first, last) {
        (Some(first), Some(last)) => last.duration_since(first),
        _ => Duration::ZERO,
    };
    Times {
        wall: wall.as_nanos(),
        cpu: cpu.as_nanos(),
    }
}
