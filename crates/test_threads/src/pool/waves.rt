//! The pool: its sessions, and waves of workers. A session, one for each number of a worker, is a list of what was asked
//! there. It lives on when the thread that opened it has left, until another one opens the next in its place.

ghost use Rattle.std.specs.Prelude.{◌≡◌};

use crate::globals::puts_each;
use crate::pool::worker::{SESSION, Serving, WORKERS};
use brc_heap::{Heap, Root};
use brc_loops::{Tally, waves};
use std::alloc::Global;
use std::sync::Wait;
use std::thread::Threads;

/// How many waves there are: 2,000 workers.
const WAVES: u64 = 250;

/// How many workers served.
#[derive(Drop)]
struct Served {
    count: u32,
}

impl Tally<bool> for Served {
    fn add(&mut self, answer: bool) {
        if answer {
            self.count = self.count.saturating_add(1);
        }
    }
}

/// All waves of eight workers: how many served. If fewer workers can be had, those serve.
pub(crate) fn serves_all<R>(rt: &R, alloc: Global, heap: &Heap, root: &mut Root) -> u32
where
    R: Threads + Wait + Sync,
    requires root { root.old.table ≡ heap.now.table }
    ensures root { root.new.table ≡ root.old.table }
{
    let mut served = Served { count: 0 };
    let life = Serving { alloc };
    let _all_whole = waves(rt, alloc, heap, root, &life, WORKERS, WAVES, &mut served);
    served.count
}

/// A thread opens a session for each number, and leaves: whether it could.
pub(crate) fn opens_all(rt: &impl Wait, alloc: Global, heap: &Heap, root: &mut Root) -> bool
    requires root { root.old.table ≡ heap.now.table }
    ensures root { root.new.table ≡ root.old.table }
{
    let Ok(mut first) = root.register(alloc, heap) else {
        return false;
    };
    let opened = match first.globals() {
        Ok(globals) => {
            let last = WORKERS as u32 + 1;
            let opened = puts_each(rt, alloc, first.frame(), &globals, 1, last, SESSION);
            first.frame().release(globals);
            opened
        }
        Err(_) => false,
    };
    let _ledger = first.settle_and_join(rt, root, heap);
    opened
}
