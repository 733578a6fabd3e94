//! The root's desk: a slot from which one call at a time takes the root. Nobody waits there.
//!
//! Each call has a seat there of its own, which keeps what it found and what it left. `specs/Desk.antt` says what holds
//! between any two steps: the root only grows, and no two registrations have the same count.

ghost use Rattle.std.specs.Prelude.{◌≡◌, [], ◌∷◌, Some, None, IfOk, IfErr, IfSome};
ghost use Rattle.brc_heap.specs.Desk.{Grows};

use crate::sight::Sight;
use atomic_table::{Play, Refused, Seat, Split, Table, TableRule};
use brc_thread::{Heap, Root};
use std::alloc::Global;
use std::marker::Model;
use std::snapshot::Snapshot;

/// What a call did at the desk. No value of it is made: what a seat knows is for contracts alone.
pub enum Visit {
    /// Nothing: another call had the root.
    Waits,
    /// It has the root, which it found so.
    Has(Root<Global>),
    /// It found the root so, and left it so.
    Did(Root<Global>, Root<Global>),
}

/// What the seat of a call at the desk knows: whose desk it is, and what it did there.
pub struct Visitor {
    pub heap: Heap<Global>,
    pub visit: Visit,
}

/// If the word is 0, the root lies in the slot, and it is the heap's. Each seat knows what its call did with the root.
pub(crate) struct DeskRule;

impl TableRule<Option<Root<Global>>, Visitor, Heap<Global>> for DeskRule {
    ghost use Rattle.brc_heap.specs.declared.desk.Visit.TheVariants as visits;
    ghost use Rattle.brc_heap.specs.Desk.{AtDesk, visitor};

    ghost holds = { AtDesk };

    ghost first = { λ heap. visitor heap visits.Waits };
}

/// Who finds 0 has the root now.
struct TakesFromDesk;

impl Play<Option<Root<Global>>, Visitor> for TakesFromDesk {
    ghost use Rattle.brc_heap.specs.Desk.{TakesRoot};

    ghost then = { TakesRoot };
}

/// The root lies there again.
struct PutsOnDesk;

impl Play<Option<Root<Global>>, Visitor> for PutsOnDesk {
    ghost use Rattle.brc_heap.specs.Desk.{PutsRoot};

    ghost then = { PutsRoot };
}

/// A second seat has seen the root as the first one knows it.
struct LooksToo;

impl Split<Visitor> for LooksToo {
    ghost use Rattle.brc_heap.specs.Desk.{looks};

    ghost left = { λ v. v };

    ghost right = { looks };
}

/// A call that has taken the root, which it found so.
#[derive(Drop)]
pub(crate) struct Clerk {
    seat: Seat<Option<Root<Global>>, Visitor>,
    heap: Snapshot<Heap<Global>>,
    found: Snapshot<Root<Global>>,
}

impl Model for Clerk {
    ghost use Rattle.std.specs.Prelude.{◌≡◌, [], ◌∷◌, None};
    ghost use Rattle.brc_heap.specs.declared.desk.Visit.TheVariants as visits;
    ghost use Rattle.brc_heap.specs.Desk.{ClerkSeen, visitor};

    ghost Value = { ClerkSeen };

    ghost view = { λ c. record { desk = c.seat.table_id; heap = c.heap.value; found = c.found.value } };

    ghost invariant = { λ c. c.seat.me ≡ (visitor c.heap.value (visits.Has c.found.value), (0, None) ∷ []) };
}

/// One word and one slot: 0 while the root lies there, 1 while somebody has it.
pub(crate) struct Desk {
    pub(crate) table: Table<Option<Root<Global>>, Visitor, Heap<Global>, DeskRule, Global>,
    ghost one: { (table.shared.table_id.words ≡ 1) × (table.shared.table_id.slots ≡ 1) },
}

impl Desk {
    /// A desk with the root. If memory for it is missing, the root is handed back.
    #[tactic(auto, using(crate::proofs::At_Desk::opens))]
    pub(crate) fn new(
        alloc: Global,
        heap: &Heap<Global>,
        root: Root<Global>,
    ) -> Result<Desk, Root<Global>>
        requires heap { root.table ≡ heap.now.table }
        ensures desk { IfOk result (λ desk. desk.table.shared.key ≡ heap.now) }
        ensures back { IfErr result (λ back. back ≡ root) }
    {
        let Ok(mut slots) = Vec::with_capacity(alloc, 1) else {
            return Err(root);
        };
        slots.push_reserved(Some(root));
        match Table::new(alloc, &[0], slots, heap) {
            Ok((table, _seat)) => Ok(Desk { table }),
            Err(refused) => {
                let Refused { mut slots } = refused;
                match slots.pop() {
                    Some(Some(root)) => {
                        slots.destroy_empty();
                        Err(root)
                    }
                    _ => unreachable!(),
                }
            }
        }
    }

    /// The root, which nobody else has then. None if another call has it.
    #[tactic(auto, using(crate::proofs::At_Desk::arrives))]
    pub(crate) fn take(&self, heap: &Heap<Global>) -> Option<(Root<Global>, Clerk)>
        requires heap { heap.now ≡ self.now.table.shared.key }
        ensures of_heap { IfSome result (λ taken. taken.0.table ≡ heap.now.table) }
        ensures clerk { IfSome result (λ taken. taken.1 ≡ record {
          desk = self.now.table.shared.table_id;
          heap = heap.now;
          found = taken.0;
        }) }
    {
        // One swap, and no try after it: whoever finds 1 goes away with nothing, and the word stays at 1 for the other.
        let (found, mut seat) = self.table.shared.swap_new_seat::<TakesFromDesk>(0, 1);
        if found != 0 {
            return None;
        }
        match self.table.shared.exchange(&mut seat, 0, None) {
            Some(root) => {
                let found = Snapshot::of(&root);
                let heap = Snapshot::of(heap);
                Some((root, Clerk { seat, heap, found }))
            }
            None => unreachable!(),
        }
    }

    /// The root lies at the desk again.
    #[tactic(auto, using(crate::proofs::At_Desk::allows))]
    pub(crate) fn put(&self, root: Root<Global>, clerk: Clerk) -> Sight
        requires heap { clerk.heap ≡ self.now.table.shared.key }
        requires desk { clerk.desk ≡ self.now.table.shared.table_id }
        requires of_heap { root.table ≡ clerk.heap.table }
        requires grows { Grows clerk.found root }
        ensures at { (result.desk ≡ clerk.desk) × (result.heap ≡ clerk.heap) }
        ensures did { (result.found ≡ clerk.found) × (result.left ≡ root) }
    {
        let Clerk { seat, heap, found } = clerk;
        let mut seat = seat;
        let left = Snapshot::of(&root);
        match self.table.shared.exchange(&mut seat, 0, Some(root)) {
            None => {}
            Some(_root) => unreachable!(),
        }
        // From this store on another thread may have the root, so the slot is filled before it.
        self.table.shared.store::<PutsOnDesk>(&mut seat, 0, 0);
        Sight::new(seat.into_badge(), heap, found, left)
    }

    /// The root lies at the desk again, and it is seen by a seat more as it was left.
    #[tactic(auto, using(crate::proofs::At_Desk::splits))]
    pub(crate) fn put_and_look(
        &self,
        heap: &Heap<Global>,
        root: Root<Global>,
        clerk: Clerk,
    ) -> (Sight, Sight)
        requires heap { (clerk.heap ≡ self.now.table.shared.key) × (heap.now ≡ clerk.heap) }
        requires desk { clerk.desk ≡ self.now.table.shared.table_id }
        requires of_heap { root.table ≡ clerk.heap.table }
        requires grows { Grows clerk.found root }
        ensures at { (result.0.desk ≡ clerk.desk) × (result.0.heap ≡ clerk.heap) }
        ensures did { (result.0.found ≡ clerk.found) × (result.0.left ≡ root) }
        ensures also_at { (result.1.desk ≡ clerk.desk) × (result.1.heap ≡ clerk.heap) }
        ensures seen { (result.1.found ≡ root) × (result.1.left ≡ root) }
    {
        let heap_too = Snapshot::of(heap);
        let found_too = Snapshot::of(&root);
        let left_too = Snapshot::of(&root);
        let sight = self.put(root, clerk);
        let Sight {
            seat: badge,
            heap,
            found,
            left,
        } = sight;
        let mut seat = badge.into_seat::<Option<Root<Global>>>();
        let more = self.table.shared.split_seat::<LooksToo>(&mut seat);
        (
            Sight::new(seat.into_badge(), heap, found, left),
            Sight::new(more.into_badge(), heap_too, found_too, left_too),
        )
    }

    /// The root as the call found it, by a seat of its own.
    #[tactic(auto, using(crate::proofs::At_Desk::splits_out))]
    pub(crate) fn look(&self, clerk: &mut Clerk, heap: &Heap<Global>, root: &Root<Global>) -> Sight
        requires heap { (clerk.old.heap ≡ self.now.table.shared.key) × (heap.now ≡ clerk.old.heap) }
        requires desk { clerk.old.desk ≡ self.now.table.shared.table_id }
        requires found { root.now ≡ clerk.old.found }
        ensures same { clerk.new ≡ clerk.old }
        ensures at { (result.desk ≡ clerk.old.desk) × (result.heap ≡ clerk.old.heap) }
        ensures did { (result.found ≡ root.now) × (result.left ≡ root.now) }
    {
        let seat = self.table.shared.split_seat::<LooksToo>(&mut clerk.seat);
        Sight::new(
            seat.into_badge(),
            Snapshot::of(heap),
            Snapshot::of(root),
            Snapshot::of(root),
        )
    }

    /// The desk ends. What lies there is given up: nothing, if its root was taken to end the heap.
    pub(crate) fn end(self) {
        let Desk { table } = self;
        let mut closed = table.close();
        let slot = closed.take(0);
        closed.free();
        if let Some(root) = slot {
            root.abandon();
        }
    }
}
