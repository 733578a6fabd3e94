//! What tests share that are no rows: a table that opens, a frame that is entered, a thread that leaves, and a heap's end.

ghost use Rattle.std.specs.Prelude.{◌≡◌, ◌<◌, ◌≤◌};
ghost use Rattle.brc_words.specs.declared.limits.TheConstants.{MOST_REGISTRATIONS, MOST_THREADS};
ghost use Rattle.brc_count.specs.law.steps.Joining.{next_thread, registering, registrations};
ghost use Rattle.brc_count.specs.law.rule.Opening.{first_view};
ghost use Rattle.brc_count.specs.Closing.{BeginsBy};
ghost use Rattle.brc_count.specs.Frames.{IsUnlocked};

use crate::tests::comparing::same;
use crate::tests::ends::cells_left;
use brc_count::biased::HasTable;
use brc_count::table::{HeapTable, Rest, RootSeat};
use brc_count::{Frame, Ledger};
use brc_thread::Options;
use std::alloc::Allocator;
use std::process::Abort;

/// A heap of 512 cells whose owners count up to ten references.
pub(super) const SMALL: Options = Options {
    cells: 512,
    local_limit: 10,
};

/// The least heap.
pub(super) const LEAST: Options = Options {
    cells: 512,
    local_limit: 1,
};

/// A table of 512 cells, or the end of the test.
pub(super) fn opened<A: Allocator + Copy>(rt: &impl Abort, alloc: A) -> (HeapTable<A>, RootSeat<A>)
    ensures table { result.1.table ≡ result.0.table }
    ensures view { result.1.view ≡ first_view }
{
    HeapTable::new(alloc, 512, 10).expect(rt, "memory")
}

/// The frame of the next thread.
pub(super) fn entered<H: HasTable<A> + Drop, A: Allocator + Copy>(
    rt: &impl Abort,
    alloc: A,
    heap: H,
    root: &mut RootSeat<A>,
) -> Frame<H, A>
    requires table { root.old.table ≡ (H.seen heap).table }
    requires few { next_thread root.old.view ≤ MOST_THREADS }
    requires more { registrations root.old.view < MOST_REGISTRATIONS }
    ensures heap { result.heap ≡ H.seen heap }
    ensures thread { result.seat.thread ≡ next_thread root.old.view }
    ensures begins { BeginsBy result.heap.cells root.old.view result.seat.log }
    ensures bare { result.len ≡ 0 }
    ensures unlocked { IsUnlocked result }
    ensures told { root.new.view ≡ registering root.old.view }
    ensures root { (root.new.table ≡ root.old.table) × (root.new.id ≡ root.old.id) }
{
    Frame::enter(alloc, heap, root).expect(rt, "memory")
}

/// The ledger has so many births and frees.
pub(super) fn says(rt: &impl Abort, ledger: Ledger, sums: (u64, u64)) {
    same(rt, (ledger.allocs, ledger.frees), sums);
}

/// A thread that has no handle leaves, there is nothing left for it to do, and the root gathers it.
pub(super) fn leaves<H: HasTable<A> + Drop, A: Allocator>(
    rt: &impl Abort,
    table: &HeapTable<A>,
    root: &mut RootSeat<A>,
    frame: Frame<H, A>,
)
    requires table { root.old.table ≡ table.now.table }
    requires heap { frame.heap ≡ table.now }
    requires unlocked { IsUnlocked frame }
    ensures table { root.new.table ≡ root.old.table }
{
    match frame.close() {
        Err(_frame) => panic!(rt; "a handle or a block is left"),
        Ok(closed) => {
            let mut closed = closed;
            same(rt, closed.work(1), 1);
            match closed.finish() {
                Err(_closed) => panic!(rt; "an entry or a block is left"),
                Ok(seat) => table.join(root, seat),
            }
        }
    }
}

/// Of what a heap leaves only the immortals have blocks: cells 0 to 265.
pub(super) fn ends<A: Allocator>(rt: &impl Abort, rest: Rest<A>) {
    same(rt, cells_left(rest), Some(266));
}
