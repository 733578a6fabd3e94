//! A thread of a shared heap as one value: it names no lifetime, so it can lie in any struct.

ghost use Rattle.std.specs.Prelude.{◌≡◌};
ghost use Rattle.brc_heap.specs.Words.{IsUnlocked};

use brc_heap::{Fault, Retired, RootCounts, Shared, SharedMutator};
use std::alloc::Global;
use std::sync::Wait;
use std::thread;

/// A thread between two of its tasks, with the desk at which it was registered. It has no handle.
pub(crate) struct Client {
    pub(crate) mutator: SharedMutator,
    desk: Shared,
    /// How many were registered before it.
    pub(crate) number: u32,
    ghost same: { mutator.heap ≡ desk.heap },
    ghost bare: { mutator.len ≡ 0 },
    ghost unlocked: { IsUnlocked mutator },
}

/// The thread is gathered at the desk of its heap. Each try finds the root there or doesn't; nobody has it for long.
fn gathers(rt: &impl Wait, desk: &Shared, retired: Retired<Global>) -> RootCounts
    requires heap { retired.heap ≡ desk.now.heap }
{
    let mut retired = retired;
    for _ in rt.forever() {
        match desk.gather(retired) {
            Ok((counts, _seen)) => return counts,
            Err(back) => {
                retired = back;
                thread::yield_now();
            }
        }
    }
    unreachable!()
}

impl Client {
    /// The next thread of the heap. It is tried again while another call has the root, and once more where memory was
    /// missing.
    pub(crate) fn register(rt: &impl Wait, alloc: Global, desk: Shared) -> Result<Client, Fault> {
        let mut was_missing = false;
        for _ in rt.forever() {
            match desk.register(alloc) {
                Ok((mutator, registration, _seen)) => {
                    return Ok(Client {
                        mutator,
                        desk,
                        number: registration.before(),
                    });
                }
                Err(refused) => match refused.fault() {
                    Fault::Busy => thread::yield_now(),
                    Fault::OutOfMemory if !was_missing => was_missing = true,
                    fault => return Err(fault),
                },
            }
        }
        unreachable!()
    }

    /// The thread leaves, and is gathered where it was registered: what the root has counted then.
    pub(crate) fn end(self, rt: &impl Wait) -> RootCounts {
        let Client {
            mutator,
            desk,
            number: _number,
        } = self;
        let retired = mutator.settle_and_leave(rt);
        gathers(rt, &desk, retired)
    }
}
