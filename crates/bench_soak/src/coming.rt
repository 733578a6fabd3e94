//! What a heap whose threads come and go is to do, drawn at random, and whether it came to that.

ghost use Rattle.std.specs.Prelude.{◌≡◌};

use crate::shared::WITH_LIST;
use brc_heap::{CloseFault, Heap, Options, Root, close, give_back, take_apart};
use rand::RngExt;
use rand_core::Rng;
use std::alloc::Global;

/// How many threads share what, in a heap of which size.
#[derive(Clone, Copy, Debug)]
pub struct Coming {
    /// How many threads are registered in the heap's life.
    pub registered: u32,
    /// How many live at a time.
    pub workers: u32,
    /// How many lists each shares.
    pub lists: u32,
    /// Under how many keys the globals hold them.
    pub keys: u32,
    pub cells: u32,
    pub local_limit: u32,
    /// By which the threads draw what they do.
    pub seed: u64,
}

impl Coming {
    /// A heap of so many threads.
    pub fn drawn<R: Rng>(rng: &mut R, registered: u32) -> Coming {
        let local_limit = match rng.random_range(0u32..3) {
            0 => 1,
            1 => 10,
            _ => 4_294_967_294,
        };
        Coming {
            registered,
            workers: rng.random_range(1u32..17),
            lists: rng.random_range(1u32..9),
            keys: rng.random_range(1u32..33),
            cells: rng.random_range(1_024u32..8_193),
            local_limit,
            seed: u64::from(rng.random_range(0u32..1_000_000)),
        }
    }

    /// The sizes of its heap.
    pub fn options(&self) -> Options {
        Options {
            cells: self.cells,
            local_limit: self.local_limit,
        }
    }

    /// How many objects so many threads make.
    pub fn births(&self, threads: u32) -> u64 {
        u64::from(threads)
            .wrapping_mul(u64::from(self.lists))
            .wrapping_mul(WITH_LIST)
    }

    /// Closes the heap. As many threads were registered as should be, so many of them made what they should, and all
    /// of that was freed.
    pub fn ends(&self, alloc: Global, heap: Heap, root: Root, threads: u32) -> bool
        requires root { root.table ≡ heap.table }
    {
        let births = self.births(threads);
        let registered = root.registered();
        let ledger = root.ledger();
        match close(alloc, heap, root) {
            Ok(report) => {
                registered == self.registered
                    && ledger.allocs == births
                    && ledger.frees == births
                    && report.ledger.allocs == births
                    && report.ledger.frees == births
                    && report.live == 0
                    && report.remains.len() == 0
            }
            Err(CloseFault::Memory) => false,
            Err(
                CloseFault::Missing {
                    registered: _registered,
                    gathered: _gathered,
                    heap,
                    root,
                },
            ) => {
                give_back(take_apart(heap, root));
                false
            }
        }
    }
}
