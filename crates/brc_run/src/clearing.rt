//! The thread that clears the globals, once all sections have ended.

ghost use Rattle.std.specs.Prelude.{◌≡◌, ◌<◌, IfErr, OnOk};
ghost use Rattle.brc_words.specs.declared.fault.Fault.TheVariants as faults;
ghost use Rattle.brc_count.specs.Frames.{IsUnlocked};
ghost use Rattle.brc_thread.specs.Counting.{registrations};
ghost use Rattle.brc_run.specs.Runs.{ClearsUp, LeavesNone};

use brc_count::biased::HasTable;
use brc_heap::{Heap, Root};
use brc_thread::Mutator;
use brc_words::Fault;
use std::alloc::Allocator;
use std::sync::Wait;

/// Clears the globals, in as many rounds as they need. FrameFull and OutOfMemory as a round answers them.
#[tactic(auto, using(crate::proofs::Cleared::cleared))]
fn clear_rounds<R: Wait, H: HasTable<A>, A: Allocator>(
    rt: &R,
    mutator: &mut Mutator<H, A>,
) -> Result<(), Fault>
    requires bare { mutator.old.len ≡ 0 }
    requires unlocked { IsUnlocked mutator.old }
    ensures bare { mutator.new.len ≡ 0 }
    ensures unlocked { IsUnlocked mutator.new }
    ensures heap { mutator.new.heap ≡ mutator.old.heap }
    ensures none { OnOk result (LeavesNone mutator.new.seat.log) }
{
    for _ in rt.forever() {
        match mutator.clear_globals() {
            Ok(()) => return Ok(()),
            // They have an entry yet, or another thread has them locked.
            Err(Fault::NotIdle | Fault::Busy) => {}
            Err(fault) => return Err(fault),
        }
    }
    unreachable!()
}

/// One more thread is registered, clears the globals, and is gathered. OutOfMemory where the thread can't be had, or
/// memory for a handle; the thread that was there is gathered then, too. A full frame would be told so as well, but it
/// never has more than two handles.
#[tactic(auto, using(crate::proofs::Taken::only_memory))]
pub(crate) fn clear<R: Wait, A: Allocator + Copy>(
    rt: &R,
    alloc: A,
    heap: &Heap<A>,
    root: &mut Root<A>,
) -> Result<(), Fault>
    requires heap { root.old.table ≡ heap.now.table }
    requires few { registrations root.old.view < 64 }
    ensures heap { root.new.table ≡ root.old.table }
    ensures clears { OnOk result (ClearsUp root.old root.new) }
    ensures refused { IfErr result (λ fault. fault ≡ faults.OutOfMemory) }
{
    let mut mutator = root.register(alloc, heap)?;
    let cleared = clear_rounds(rt, &mut mutator);
    let _ledger = mutator.settle_and_join(rt, root, heap);
    match cleared {
        Ok(()) => Ok(()),
        Err(_) => Err(Fault::OutOfMemory),
    }
}
