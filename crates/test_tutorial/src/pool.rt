//! Step 6, a pool: workers come in waves, and a number of a thread that left is given again.

ghost use Rattle.std.specs.Prelude.{◌≡◌};

use crate::globals::{leaves, reads};
use brc_heap::{Heap, Mutator, Root};
use brc_loops::{Life, Tally, waves};
use std::alloc::Global;
use std::sync::Wait;
use std::thread::Threads;

/// A worker leaves its request in the globals, and reads it there.
#[derive(Drop)]
struct Serving {
    alloc: Global,
}

impl<R: Wait> Life<R> for Serving {
    /// Whether it found there what it had left.
    type Answer = bool;

    fn live(&self, rt: &R, mutator: &mut Mutator) -> bool {
        let key = i64::from(mutator.thread());
        let frame = mutator.frame();
        if leaves(rt, self.alloc, frame, key, 1_000 + key).is_none() {
            return false;
        }
        reads(rt, frame, key) == Some(1_000 + key)
    }
}

/// How many workers were served.
#[derive(Drop)]
struct Served {
    count: u32,
}

impl Tally<bool> for Served {
    fn add(&mut self, answer: bool) {
        if answer {
            self.count = self.count.saturating_add(1);
        }
    }
}

/// Ten waves of four workers, one wave after the other.
pub(crate) fn serves<R>(rt: &R, alloc: Global, heap: &Heap, root: &mut Root) -> u32
where
    R: Threads + Wait + Sync,
    requires root { root.old.table ≡ heap.now.table }
    ensures root { root.new.table ≡ root.old.table }
{
    let mut served = Served { count: 0 };
    let _all = waves(
        rt,
        alloc,
        heap,
        root,
        &Serving { alloc },
        4,
        10,
        &mut served,
    );
    served.count
}
