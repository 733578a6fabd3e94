//! The life of one of the other threads, on a thread of the machine.

ghost use Rattle.std.specs.Prelude.{◌≡◌, IfOk, IfErr};

use crate::crowd::counted::{Counted, Want};
use crate::crowd::finding::finds;
use crate::crowd::gate::Gate;
use brc_heap::{Heap, Resting, Retired};
use std::sync::Wait;
use std::thread::{Promise, PromisedHandle, Scope, Threads};

/// What a thread hands back.
#[derive(Drop)]
pub(crate) struct Done {
    pub(crate) retired: Retired,
    pub(crate) counted: Counted,
}

/// What a thread is started with, as far as what it hands back is promised by it.
#[derive(Clone, Copy)]
pub(crate) struct Given<'s> {
    pub(crate) heap: &'s Heap,
}

impl<'s> Promise<Done> for Given<'s> {
    ghost kept_by = { λ given done. done.retired.heap ≡ given.heap.now };
}

/// A thread wakes, waits at the gate, finds the list again and again, and leaves.
fn lives(rt: &impl Wait, heap: &Heap, resting: Resting, gate: &Gate) -> Done
    requires heap { resting.heap ≡ heap.now }
    ensures heap { result.retired.heap ≡ heap.now }
{
    let mut mutator = resting.wake(heap);
    gate.pass(rt);
    let counted = finds(rt, &mut mutator);
    Done {
        retired: mutator.settle_and_leave(rt),
        counted,
    }
}

/// The machine had no thread for it.
fn without_thread(done: Done) -> Done
    ensures heap { result.retired.heap ≡ done.retired.heap }
{
    Done {
        retired: done.retired,
        counted: done.counted.and(Counted::wanting(Want::Thread)),
    }
}

/// Starts a thread. Where the machine has none for it, it lives here, and the gate is opened first: nobody else could.
pub(crate) fn start<'s, E: 's, R: Threads + Wait + Sync>(
    rt: &'s R,
    scope: &Scope<'s, E>,
    heap: &'s Heap,
    resting: Resting,
    gate: &'s Gate,
) -> Result<PromisedHandle<Done, Given<'s>>, Done>
    requires heap { resting.heap ≡ heap.now }
    ensures started { IfOk result (λ handle. handle.promise.heap.now ≡ heap.now) }
    ensures ended { IfErr result (λ done. done.retired.heap ≡ heap.now) }
{
    let started = scope.spawn_with(
        Given { heap },
        move || -> Done
            requires heap { resting.heap ≡ heap.now }
            ensures heap { result.retired.heap ≡ heap.entry.now }
        { lives(rt, heap, resting, gate) },
    );
    match started {
        Ok(handle) => Ok(handle),
        Err(refused) => {
            gate.open(rt);
            Err(without_thread((refused.value)()))
        }
    }
}
