//! The counter, and how it is made and taken apart.

ghost use Rattle.std.specs.Prelude.{◌≡◌, ◌<◌, ◌≤◌, ℕ, length, replicate, slice_index, IfOk};
ghost use Rattle.brc_words.specs.declared.limits.TheConstants.{FIRST_MORTAL, MOST_CELLS};
ghost use Rattle.brc_table.specs.law.world.Heap.{words_for};
ghost use Rattle.brc_table.specs.law.rule.Seen.{counts_seen};
ghost use Rattle.brc_biased.specs.Counter.{first_count};

use crate::home::HasTable;
use brc_table::ThreadSeat;
use brc_words::{FIRST_MORTAL, IMMORTAL_LOCAL};
use std::alloc::{AllocError, Allocator};
use std::marker::Model;

/// One thread's seat, with the local counts of its own objects, and a bit for each of these.
pub struct Counter<H: HasTable<A>, A: Allocator> {
    pub(crate) heap: H,
    pub(crate) seat: ThreadSeat<A>,
    pub(crate) counts: Vec<u32, A>,
    pub(crate) owned: Vec<u64, A>,
}

impl<H: HasTable<A>, A: Allocator> Model for Counter<H, A> {
    ghost use Rattle.brc_biased.specs.Counter.{CounterSeen, Counting};

    ghost Value = { CounterSeen A };

    ghost view = { λ c. record { heap = H.seen c.heap; seat = c.seat } };

    ghost invariant = { λ c. Counting A (H.seen c.heap) c.seat c.counts.items c.owned.items };
}

/// The counts of a thread that has counted nothing.
pub fn first_counts<A: Allocator>(alloc: A, cells: u32) -> Result<Vec<u32, A>, AllocError>
    ensures wide { IfOk result (λ counts. length counts.items ≡ cells) }
    ensures each { IfOk result (λ counts. (c : ℕ) → c < cells → slice_index counts.items c ≡ first_count c) }
{
    let mut counts = Vec::new(alloc);
    counts.resize(cells as usize, 0)?;
    for cell in 0..FIRST_MORTAL.min(cells) {
        counts[cell as usize] = IMMORTAL_LOCAL;
    }
    Ok(counts)
}

impl<H: HasTable<A>, A: Allocator> Counter<H, A> {
    #[tactic(auto, using(crate::proofs::Owning::owns_none))]
    /// A counter of a thread that counts nothing yet, with its counts as `first_counts` makes them, and its bits as
    /// `no_bits` does.
    pub fn new(
        heap: H,
        seat: ThreadSeat<A>,
        counts: Vec<u32, A>,
        owned: Vec<u64, A>,
    ) -> Counter<H, A>
        requires table { seat.table ≡ (H.seen heap).table }
        requires none { (c : ℕ) → FIRST_MORTAL ≤ c → c < (H.seen heap).cells
            → counts_seen (H.seen heap).cells seat.log c ≡ 0 }
        requires wide { length counts.items ≡ (H.seen heap).cells }
        requires each { (c : ℕ) → c < (H.seen heap).cells → slice_index counts.items c ≡ first_count c }
        requires bits { owned.items ≡ replicate (words_for (H.seen heap).cells) 0 }
        ensures heap { result.heap ≡ H.seen heap }
        ensures seat { result.seat ≡ seat }
    {
        Counter {
            heap,
            seat,
            counts,
            owned,
        }
    }

    /// What leads to its table.
    pub fn home(&self) -> &H
        ensures { H.seen result.now ≡ self.now.heap }
    {
        &self.heap
    }

    /// The heap and the seat; the memory of the counts and the bits goes back.
    pub fn into_parts(self) -> (H, ThreadSeat<A>)
        ensures heap { H.seen result.0 ≡ self.heap }
        ensures seat { result.1 ≡ self.seat }
        ensures table { result.1.table ≡ self.heap.table }
    {
        let Counter {
            heap,
            seat,
            counts: _counts,
            owned: _owned,
        } = self;
        (heap, seat)
    }
}
