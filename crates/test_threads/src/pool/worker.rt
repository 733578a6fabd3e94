//! A worker: what a thread of the machine does between its waking and its end.

use crate::globals::{New, puts_new, writes_to};
use brc_heap::Mutator;
use brc_loops::Life;
use std::alloc::Global;
use std::sync::Wait;

/// How many work at a time.
pub(crate) const WORKERS: u64 = 8;

/// A session: a list, with its first request.
pub(crate) const SESSION: New = New::ListOf(1_000);

/// It opens a session under its number, and writes to its neighbour's: that of this wave, or of the one before.
#[derive(Drop)]
pub(crate) struct Serving {
    pub(crate) alloc: Global,
}

impl<R: Wait> Life<R> for Serving {
    /// Whether all was had that it asked for.
    type Answer = bool;

    fn live(&self, rt: &R, mutator: &mut Mutator) -> bool {
        let number = i64::from(mutator.thread());
        let neighbour = number % WORKERS as i64 + 1;
        let Ok(globals) = mutator.globals() else {
            return false;
        };
        let frame = mutator.frame();
        let opened = puts_new(rt, self.alloc, frame, &globals, number, SESSION);
        let asked = writes_to(rt, self.alloc, frame, &globals, neighbour, 2_000 + number);
        frame.release(globals);
        opened.is_some() && asked.is_some()
    }
}
