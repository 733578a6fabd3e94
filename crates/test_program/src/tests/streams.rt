//! Streams that fail or are interrupted at a read, a write or a flush, that give or take a byte at a time, and one
//! without end.

ghost use Rattle.std.specs.Prelude.{◌≡◌, IfOk};

use std::alloc::Global;
use std::io::{self, Error, ErrorKind, Read, Write};
use std::sync::atomic::{AtomicU64, Ordering};

/// What a stream does instead of a read, a write or a flush, once: the next one passes.
#[derive(Clone, Copy, Debug)]
pub(crate) enum Stop {
    Fails,
    IsInterrupted,
    TakesNothing,
}

pub(crate) const STOPS: [Stop; 3] = [Stop::Fails, Stop::IsInterrupted, Stop::TakesNothing];

impl Stop {
    fn answer(self) -> io::Result<usize>
        ensures nothing { IfOk result (λ count. count ≡ 0) }
    {
        match self {
            Stop::Fails => Err(Error::from(ErrorKind::Other)),
            Stop::IsInterrupted => Err(Error::from(ErrorKind::Interrupted)),
            Stop::TakesNothing => Ok(0),
        }
    }
}

/// A stop that never comes.
const NEVER: u32 = 4_294_967_295;

/// One more read or write of a stream that stops once so many are done: whether it stops here.
fn stops(left: &mut u32) -> bool {
    if *left == 0 {
        *left = NEVER;
        return true;
    }
    *left -= 1;
    false
}

/// Gives so many bytes a read, and stops once so many reads are done.
#[derive(Drop)]
pub(crate) struct Drip {
    pub(crate) rest: &'static [u8],
    pub(crate) step: usize,
    pub(crate) left: u32,
    pub(crate) stop: Stop,
}

/// It gives all of the text.
pub(crate) fn whole(text: &'static str) -> Drip {
    Drip {
        rest: text.as_bytes(),
        step: 1_000,
        left: NEVER,
        stop: Stop::Fails,
    }
}

impl Read for Drip {
    fn read(&mut self, into: &mut [u8]) -> io::Result<usize> {
        if stops(&mut self.left) {
            return self.stop.answer();
        }
        let count = into.len().min(self.rest.len()).min(self.step);
        let (given, rest) = self.rest.split_at(count);
        into[..count].copy_from_slice(given);
        self.rest = rest;
        Ok(count)
    }
}

/// Takes so many bytes a write, stops once so many writes are done, and keeps what it took.
#[derive(Drop)]
pub(crate) struct Sink {
    pub(crate) taken: Vec<u8>,
    pub(crate) step: usize,
    pub(crate) left: u32,
    pub(crate) stop: Stop,
    pub(crate) flushes: u32,
}

/// It takes all that it is given.
pub(crate) fn open(alloc: Global) -> Sink {
    Sink {
        taken: Vec::new(alloc),
        step: 100_000,
        left: NEVER,
        stop: Stop::Fails,
        flushes: NEVER,
    }
}

impl Write for Sink {
    fn write(&mut self, from: &[u8]) -> io::Result<usize> {
        if stops(&mut self.left) {
            return self.stop.answer();
        }
        let count = from.len().min(self.step);
        self.taken.extend_from_slice(&from[..count])?;
        Ok(count)
    }

    fn flush(&mut self) -> io::Result<()> {
        if stops(&mut self.flushes) {
            self.stop.answer()?;
        }
        Ok(())
    }
}

/// Gives line ends without end, and counts them.
#[derive(Drop)]
pub(crate) struct Endless<'c> {
    pub(crate) given: &'c AtomicU64,
}

impl<'c> Read for Endless<'c> {
    fn read(&mut self, into: &mut [u8]) -> io::Result<usize> {
        into.fill(b'\n');
        self.given.fetch_add(into.len() as u64, Ordering::SeqCst);
        Ok(into.len())
    }
}
