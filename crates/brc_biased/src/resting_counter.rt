//! A counter at rest: what is left of it while it is away from its heap. It names no lifetime, and nothing in it must
//! be spent, so that a thread can carry it.

ghost use Rattle.std.specs.Prelude.{◌≡◌};

use crate::counter::Counter;
use crate::home::HasTable;
use brc_table::ThreadSeat;
use std::alloc::Allocator;
use std::marker::Model;

/// A seat with its local counts, and the sizes of its heap.
#[derive(Drop)]
pub struct RestingCounter<A: Allocator> {
    seat: ThreadSeat<A>,
    counts: Vec<u32, A>,
    owned: Vec<u64, A>,
    cells: u32,
    local_limit: u32,
}

impl<A: Allocator> Model for RestingCounter<A> {
    ghost use Rattle.brc_biased.specs.Counter.{CounterSeen, Counting, heap_of};

    ghost Value = { CounterSeen A };

    ghost view = { λ c. record { heap = heap_of c.seat c.cells c.local_limit; seat = c.seat } };

    ghost invariant = { λ c. Counting A (heap_of c.seat c.cells c.local_limit) c.seat c.counts.items
        c.owned.items };
}

impl<H: HasTable<A> + Drop, A: Allocator> Counter<H, A> {
    /// The counter, away from its heap.
    pub fn rest(self) -> RestingCounter<A>
        ensures same { result ≡ self }
    {
        let Counter {
            heap: home,
            seat,
            counts,
            owned,
        } = self;
        let table = home.table();
        RestingCounter {
            seat,
            counts,
            owned,
            cells: table.cells(),
            local_limit: table.local_limit(),
        }
    }
}

impl<A: Allocator> RestingCounter<A> {
    /// The counter, at its heap again.
    pub fn wake<H: HasTable<A>>(self, heap: H) -> Counter<H, A>
        requires heap { self.heap ≡ H.seen heap }
        ensures same { result ≡ self }
    {
        let RestingCounter {
            seat,
            counts,
            owned,
            cells: _cells,
            local_limit: _limit,
        } = self;
        Counter {
            heap,
            seat,
            counts,
            owned,
        }
    }
}
