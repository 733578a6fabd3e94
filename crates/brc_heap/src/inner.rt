//! What lies behind the count: the heap, and the desk with its root.

ghost use Rattle.std.specs.Prelude.{◌≡◌, IfSome};
ghost use Rattle.brc_heap.specs.Desk.{Grows};

use crate::desk::{Clerk, Desk};
use crate::sight::Sight;
use brc_thread::{Heap, Root, give_back, take_apart};
use std::alloc::Global;
use std::marker::Model;

/// A heap with the desk of its root.
pub(crate) struct Inner {
    pub(crate) heap: Heap<Global>,
    desk: Desk,
    ghost same: { desk.table.shared.key ≡ heap },
}

impl Model for Inner {
    ghost use Rattle.brc_heap.specs.Desk.{InnerSeen};

    ghost Value = { InnerSeen };

    ghost view = { λ i. record { heap = i.heap; desk = i.desk.table.shared.table_id } };
}

impl Inner {
    /// The heap with its root at a desk. None if memory for the desk is missing: then the heap is taken apart.
    pub(crate) fn new(alloc: Global, heap: Heap<Global>, root: Root<Global>) -> Option<Inner>
        requires heap { root.table ≡ heap.table }
        ensures heap { IfSome result (λ inner. inner.heap ≡ heap) }
    {
        match Desk::new(alloc, &heap, root) {
            Ok(desk) => Some(Inner { heap, desk }),
            Err(root) => {
                give_back(take_apart(heap, root));
                None
            }
        }
    }

    /// The root, which nobody else has then. None if another call has it.
    pub(crate) fn take(&self) -> Option<(Root<Global>, Clerk)>
        ensures of_heap { IfSome result (λ taken. taken.0.table ≡ self.now.heap.table) }
        ensures clerk { IfSome result (λ taken. taken.1 ≡ record {
          desk = self.now.desk;
          heap = self.now.heap;
          found = taken.0;
        }) }
    {
        self.desk.take(&self.heap)
    }

    /// The root lies at the desk again: what the call found there, and what it left.
    pub(crate) fn put(&self, root: Root<Global>, clerk: Clerk) -> Sight
        requires clerk { (clerk.desk ≡ self.now.desk) × (clerk.heap ≡ self.now.heap) }
        requires of_heap { root.table ≡ self.now.heap.table }
        requires grows { Grows clerk.found root }
        ensures at { (result.desk ≡ self.now.desk) × (result.heap ≡ self.now.heap) }
        ensures did { (result.found ≡ clerk.found) × (result.left ≡ root) }
    {
        self.desk.put(root, clerk)
    }

    /// The same, and the root as it was left is seen by a seat more.
    pub(crate) fn put_and_look(&self, root: Root<Global>, clerk: Clerk) -> (Sight, Sight)
        requires clerk { (clerk.desk ≡ self.now.desk) × (clerk.heap ≡ self.now.heap) }
        requires of_heap { root.table ≡ self.now.heap.table }
        requires grows { Grows clerk.found root }
        ensures at { (result.0.desk ≡ self.now.desk) × (result.0.heap ≡ self.now.heap) }
        ensures did { (result.0.found ≡ clerk.found) × (result.0.left ≡ root) }
        ensures also_at { (result.1.desk ≡ self.now.desk) × (result.1.heap ≡ self.now.heap) }
        ensures seen { (result.1.found ≡ root) × (result.1.left ≡ root) }
    {
        self.desk.put_and_look(&self.heap, root, clerk)
    }

    /// The root as the call that has it found it.
    pub(crate) fn look(&self, clerk: &mut Clerk, root: &Root<Global>) -> Sight
        requires clerk { (clerk.old.desk ≡ self.now.desk) × (clerk.old.heap ≡ self.now.heap) }
        requires found { root.now ≡ clerk.old.found }
        ensures same { clerk.new ≡ clerk.old }
        ensures at { (result.desk ≡ self.now.desk) × (result.heap ≡ self.now.heap) }
        ensures did { (result.found ≡ root.now) × (result.left ≡ root.now) }
    {
        self.desk.look(clerk, &self.heap, root)
    }

    /// The heap alone. A root that lies at the desk is given up.
    pub(crate) fn into_heap(self) -> Heap<Global>
        ensures heap { result ≡ self.heap }
    {
        let Inner { heap, desk } = self;
        desk.end();
        heap
    }
}

/// A heap that nobody closed: the memory of its blocks is freed.
impl Drop for Inner {
    fn drop(self) {
        give_back(self.into_heap().abandon());
    }
}
