//! Heaps: opened, counted, closed, reported and dropped.

ghost use Rattle.std.specs.Prelude.{◌≡◌, ◌≢◌};
ghost use Rattle.brc_c.specs.Ends.{OpensHeap, TellsCounts, WritesCounts, Closes, WritesLeft, ShowsReport};
ghost use Rattle.brc_c.specs.Exports.{Carries, Writes, itself};

use crate::outs::write;
use crate::parts::Parts;
use crate::slots::{CHeap, HeapRoom};
use brc_client::{Owner, Status};
use brc_words::Fault;
use std::alloc::Global;

/// The version of the interface, 0.2.0: `BRC_VERSION` of `include/brc.h`.
const VERSION: u32 = 200;

#[unsafe(no_mangle)]
pub extern "C" fn brc_version() -> u32
    ensures { result ≡ 200 }
{
    VERSION
}

#[unsafe(no_mangle)]
pub extern "C" fn brc_heap_new(
    alloc: Global,
    at: &mut HeapRoom,
    cells: u32,
    local_limit: u32,
    first: u32,
) -> u32
    ensures kept { result ≢ 0 → at.new ≡ at.old }
    ensures opens { OpensHeap cells local_limit first at.new.value result }
{
    match Owner::new(alloc, cells, local_limit, first) {
        Ok(owner) => match Box::new(alloc, owner) {
            Ok(owner) => {
                *at = CHeap::of_parts(Parts::of(owner)).into_room();
                0
            }
            Err(_) => Status::Fault(Fault::OutOfMemory).number(),
        },
        Err(status) => status.number(),
    }
}

#[unsafe(no_mangle)]
pub extern "C" fn brc_heap_counts(
    heap: &mut CHeap,
    registered: &mut u32,
    left: &mut u32,
    allocs: &mut u64,
    frees: &mut u64,
) -> u32
    ensures kept { result ≢ 0 → (registered.new ≡ registered.old) × (left.new ≡ left.old) }
    ensures kept_ledger { result ≢ 0 → (allocs.new ≡ allocs.old) × (frees.new ≡ frees.old) }
    ensures carries { Carries TellsCounts heap.old.value heap.new.value result
        (WritesCounts registered.new left.new allocs.new frees.new) }
{
    match heap.as_mut().counts() {
        Ok(counts) => {
            *registered = counts.registered;
            *left = counts.gathered;
            *allocs = counts.ledger.allocs;
            *frees = counts.ledger.frees;
            0
        }
        Err(status) => status.number(),
    }
}

#[unsafe(no_mangle)]
pub extern "C" fn brc_heap_close(
    alloc: Global,
    heap: &mut CHeap,
    live: &mut u64,
    cycles: &mut u64,
) -> u32
    ensures kept { result ≢ 0 → (live.new ≡ live.old) × (cycles.new ≡ cycles.old) }
    ensures carries { Carries Closes heap.old.value heap.new.value result (WritesLeft live.new cycles.new) }
{
    match heap.as_mut().close(alloc) {
        Ok(left) => {
            *live = left.live;
            *cycles = left.cycles;
            0
        }
        Err(status) => status.number(),
    }
}

#[unsafe(no_mangle)]
pub extern "C" fn brc_heap_report(
    alloc: Global,
    heap: &mut CHeap,
    from: usize,
    to: &mut [u8],
    len: &mut usize,
) -> u32
    ensures kept { result ≢ 0 → len.new ≡ len.old }
    ensures carries { Carries (ShowsReport from to.old to.new) heap.old.value heap.new.value result
        (Writes itself len.old len.new) }
{
    write(heap.as_mut().report(alloc, from, to), len)
}

#[unsafe(no_mangle)]
pub extern "C" fn brc_heap_drop(heap: CHeap) {
    drop(heap.into_parts().into_box());
}
