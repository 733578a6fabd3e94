//! What a call on a shared heap saw of the heap's root.

ghost use Rattle.std.specs.Prelude.{◌≡◌, [], ◌∷◌};
ghost use Rattle.brc_thread.specs.Counting.{registrations};
ghost use Rattle.brc_count.specs.law.steps.Joining.{registering};
ghost use Rattle.brc_heap.specs.declared.desk.Visit.TheVariants as visits;
ghost use Rattle.brc_heap.specs.Desk.{visitor};

use crate::desk::Visitor;
use atomic_table::Badge;
use brc_thread::{Heap, Root};
use std::alloc::Global;
use std::marker::Model;
use std::snapshot::Snapshot;

/// The root of a heap as a call found it at the desk, and as the call left it. It has no bytes. It owns the seat that the
/// call had at the desk, so it can't be made up, copied or told twice: the desk's rule says that the root was so.
#[derive(Drop)]
pub struct Sight {
    pub(crate) seat: Badge<Visitor>,
    pub(crate) heap: Snapshot<Heap<Global>>,
    pub(crate) found: Snapshot<Root<Global>>,
    pub(crate) left: Snapshot<Root<Global>>,
}

impl Model for Sight {
    ghost use Rattle.std.specs.Prelude.{◌≡◌, [], ◌∷◌};
    ghost use Rattle.brc_heap.specs.declared.desk.Visit.TheVariants as visits;
    ghost use Rattle.brc_heap.specs.Desk.{SightSeen, visitor};

    ghost Value = { SightSeen };

    ghost view = { λ s. record {
      desk = s.seat.table_id;
      seat = s.seat.id;
      heap = s.heap.value;
      found = s.found.value;
      left = s.left.value;
    } };

    ghost invariant = { λ s. s.seat.views ≡ visitor s.heap.value (visits.Did s.found.value s.left.value) ∷ [] };
}

impl Sight {
    pub(crate) fn new(
        seat: Badge<Visitor>,
        heap: Snapshot<Heap<Global>>,
        found: Snapshot<Root<Global>>,
        left: Snapshot<Root<Global>>,
    ) -> Sight
        requires knows { seat.views ≡ visitor heap.value (visits.Did found.value left.value) ∷ [] }
        ensures at { (result.desk ≡ seat.table_id) × (result.heap ≡ heap.value) }
        ensures did { (result.found ≡ found.value) × (result.left ≡ left.value) }
    {
        Sight {
            seat,
            heap,
            found,
            left,
        }
    }
}

/// The registration of a thread: the root as it was found before it, and as it was left.
#[derive(Drop)]
pub struct Registration {
    before: u32,
    sight: Sight,
}

impl Model for Registration {
    ghost use Rattle.std.specs.Prelude.{◌≡◌};
    ghost use Rattle.brc_thread.specs.Counting.{registrations};
    ghost use Rattle.brc_count.specs.law.steps.Joining.{registering};
    ghost use Rattle.brc_heap.specs.Desk.{SightSeen};

    ghost Value = { SightSeen };

    ghost view = { λ r. r.sight };

    ghost invariant = { λ r. (r.before ≡ registrations r.sight.found.view)
        × (r.sight.left.view ≡ registering r.sight.found.view) };
}

impl Registration {
    pub(crate) fn new(before: u32, sight: Sight) -> Registration
        requires counted { before ≡ registrations sight.found.view }
        requires registered { sight.left.view ≡ registering sight.found.view }
        ensures { result ≡ sight }
    {
        Registration { before, sight }
    }

    /// How many threads were registered at the heap before this one: 0 to 65,535. No other registration at the heap has
    /// the same count.
    pub fn before(&self) -> u32
        ensures { result ≡ registrations self.now.found.view }
    {
        self.before
    }
}
