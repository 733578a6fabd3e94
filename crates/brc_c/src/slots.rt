//! What C keeps: a variable that is one pointer wide. Its ghosts tell what the pointer leads to, and that it owns that as
//! a box does (`specs/OwnerKept.antt`, `specs/HeldKept.antt`).
//!
//! An export that took a raw pointer would ask for the memory at it, in a `requires*`. Behind `&mut CThread` it asks for
//! nothing: the variable's own type says what C owes.

ghost use Rattle.std.specs.Prelude.{◌≡◌, Option, Some};
ghost use Rattle.brc_c.specs.OwnerKept.{heap_owns, heap_coded, heap_room_owns, heap_room_coded};
ghost use Rattle.brc_c.specs.HeldKept.{thread_owns, thread_coded, thread_room_owns, thread_room_coded};
ghost use Rattle.brc_c.specs.declared.held.Held.{Held};
ghost use Rattle.brc_client.specs.declared.owner.OwnerStage.{OwnerStage};

use crate::held::Held;
use crate::parts::Parts;
use brc_client::Owner;
use std::alloc::Global;
use std::marker::Model;

/// C's variable of a heap before a call fills it: it may have any bits, and owns nothing. Then it owns what a `CHeap` does.
#[derive(Drop)]
#[repr(C)]
pub struct HeapRoom {
    at: *mut u8,
    alloc: Global,
    pub(crate) ghost value: { Option OwnerStage } by { heap_room_coded },
}

impl Model for HeapRoom {
    ghost use Rattle.brc_c.specs.OwnerKept.{heap_room_owns};

    ghost also_owns = { λ t. heap_room_owns t.alloc t.at t.value };
}

/// C's variable of a heap: `brc_heap`.
#[repr(C)]
pub struct CHeap {
    at: *mut u8,
    alloc: Global,
    pub(crate) ghost value: { OwnerStage } by { heap_coded },
}

impl Model for CHeap {
    ghost use Rattle.brc_c.specs.OwnerKept.{heap_owns};

    ghost also_owns = { λ t. heap_owns t.alloc t.at t.value };
}

impl CHeap {
    ghost use types.Logic.{sem};
    ghost use Rattle.brc_c.specs.OwnerFollows.{thing_follows};

    /// The variable over the parts of a box.
    pub(crate) fn of_parts(parts: Parts<Owner, Global>) -> CHeap
        ensures { result.value ≡ parts.value }
    {
        let Parts { ptr, alloc } = parts;
        CHeap {
            at: ptr as *mut u8,
            alloc,
        }
    }

    /// The variable as a call leaves it that has filled it.
    pub(crate) fn into_room(self) -> HeapRoom
        ensures { result.value ≡ Some self.value }
    {
        let CHeap { at, alloc } = self;
        HeapRoom { at, alloc }
    }

    /// What the pointer leads to, for as long as the variable is lent.
    pub(crate) fn as_mut(&mut self) -> &mut Owner
        ensures* writes_back { sem 𝓛 (thing_follows self.entry result) }
        ensures value { result.now ≡ self.old.value }
    {
        unsafe { &mut *(self.at as *mut Owner) }
    }

    /// The parts of the box once more.
    pub(crate) fn into_parts(self) -> Parts<Owner, Global>
        ensures { result.value ≡ self.value }
    {
        let CHeap { at, alloc } = self;
        Parts {
            ptr: at as *mut Owner,
            alloc,
        }
    }
}

/// C's variable of a thread before a call fills it: it may have any bits, and owns nothing. Then it owns what a `CThread` does.
#[derive(Drop)]
#[repr(C)]
pub struct ThreadRoom {
    at: *mut u8,
    alloc: Global,
    pub(crate) ghost value: { Option Held } by { thread_room_coded },
}

impl Model for ThreadRoom {
    ghost use Rattle.brc_c.specs.HeldKept.{thread_room_owns};

    ghost also_owns = { λ t. thread_room_owns t.alloc t.at t.value };
}

/// C's variable of a thread: `brc_thread`.
#[repr(C)]
pub struct CThread {
    at: *mut u8,
    alloc: Global,
    pub(crate) ghost value: { Held } by { thread_coded },
}

impl Model for CThread {
    ghost use Rattle.brc_c.specs.HeldKept.{thread_owns};

    ghost also_owns = { λ t. thread_owns t.alloc t.at t.value };
}

impl CThread {
    ghost use types.Logic.{sem};
    ghost use Rattle.brc_c.specs.HeldFollows.{thing_follows};

    /// The variable over the parts of a box.
    pub(crate) fn of_parts(parts: Parts<Held, Global>) -> CThread
        ensures { result.value ≡ parts.value }
    {
        let Parts { ptr, alloc } = parts;
        CThread {
            at: ptr as *mut u8,
            alloc,
        }
    }

    /// The variable as a call leaves it that has filled it.
    pub(crate) fn into_room(self) -> ThreadRoom
        ensures { result.value ≡ Some self.value }
    {
        let CThread { at, alloc } = self;
        ThreadRoom { at, alloc }
    }

    /// What the pointer leads to, for as long as the variable is lent.
    pub(crate) fn as_mut(&mut self) -> &mut Held
        ensures* writes_back { sem 𝓛 (thing_follows self.entry result) }
        ensures value { result.now ≡ self.old.value }
    {
        unsafe { &mut *(self.at as *mut Held) }
    }

    /// The parts of the box once more.
    pub(crate) fn into_parts(self) -> Parts<Held, Global>
        ensures { result.value ≡ self.value }
    {
        let CThread { at, alloc } = self;
        Parts {
            ptr: at as *mut Held,
            alloc,
        }
    }
}
