//! A heap that isn't closed, since one of three threads isn't gathered, and that is closed once it is.

ghost use Rattle.std.specs.Prelude.{◌≡◌, IfSome};

use crate::closing::SIZES;
use crate::closing::lives::{HOLDS_ITSELF, lives};
use brc_heap::{CloseFault, Heap, Report, Retired, Root, close, close_or_end};
use std::alloc::Allocator;
use std::sync::Wait;

/// How many threads were registered and gathered as the heap wasn't closed, and its report as it was.
#[derive(Drop)]
pub(crate) struct Late<A: Allocator> {
    pub(crate) missing: (u32, u32),
    pub(crate) report: Report<A>,
}

/// Three threads are registered, and the first two end and are gathered. The third leaves a list that holds itself, and
/// retires.
fn two_of_three<A: Allocator + Copy>(
    rt: &impl Wait,
    alloc: A,
    heap: &Heap<A>,
    root: &mut Root<A>,
) -> Option<Retired<A>>
    requires root { root.old.table ≡ heap.now.table }
    ensures root { root.new.table ≡ root.old.table }
    ensures heap { IfSome result (λ retired. retired.heap ≡ heap.now) }
{
    let first = root.register(alloc, heap).ok()?.rest();
    let second = root.register(alloc, heap).ok()?.rest();
    let mut third = root.register(alloc, heap).ok()?;
    let _first = first.wake(heap).settle_and_join(rt, root, heap);
    let _second = second.wake(heap).settle_and_join(rt, root, heap);
    lives(rt, alloc, &mut third, HOLDS_ITSELF);
    Some(third.settle_and_leave(rt))
}

/// A heap is closed while the third of three threads isn't gathered; what is handed back is closed once it is. None
/// where something is refused, or the heap is closed too early.
pub(crate) fn closed_late<A: Allocator + Copy>(rt: &impl Wait, alloc: A) -> Option<Late<A>> {
    let (heap, mut root) = Heap::new(alloc, SIZES).ok()?;
    let third = two_of_three(rt, alloc, &heap, &mut root);
    match close(alloc, heap, root) {
        Err(
            CloseFault::Missing {
                registered,
                gathered,
                heap,
                root,
            },
        ) => {
            let mut root = root;
            if let Some(third) = third {
                root.gather(&heap, third);
            }
            let report = close_or_end(alloc, heap, root).ok()?;
            Some(Late {
                missing: (registered, gathered),
                report,
            })
        }
        Err(CloseFault::Memory) => None,
        Ok(_report) => None,
    }
}
