//! Handles.

ghost use Rattle.std.specs.Prelude.{◌≡◌, ◌≢◌, IsTrue, IsFalse};

use brc_table::HeapTable;
use std::alloc::{Allocator, Global};
use std::marker::Model;
use std::snapshot::Snapshot;

/// A reference in a frame: of which heap, which thread's, and in which place. It must be given back to its frame.
pub struct Handle<A: Allocator = Global> {
    pub(crate) thread: u32,
    pub(crate) place: u32,
    /// The heap that it is of. It has no bytes: contracts see it, and nothing looks at it.
    pub(crate) heap: Snapshot<HeapTable<A>>,
}

impl<A: Allocator> Model for Handle<A> {
    ghost use Rattle.brc_count.specs.Frames.{HandleSeen};

    ghost Value = { HandleSeen };

    ghost view = { λ h. record { heap = h.heap.value; thread = h.thread; place = h.place } };
}

impl<A: Allocator> Handle<A> {
    /// The number of its place in its frame.
    #[inline(always)]
    pub fn place(&self) -> u32
        ensures { result ≡ self.now.place }
    {
        self.place
    }

    /// The place that it names, where it is given up.
    #[inline(always)]
    pub(crate) fn into_place(self) -> u32
        ensures { result ≡ self.place }
    {
        let Handle {
            thread: _thread,
            place,
            heap: _heap,
        } = self;
        place
    }

    /// Whether the two are of different places, as two handles of one frame are. Who keeps many handles where proofs
    /// don't follow each can ask before a call that wants them apart.
    pub fn is_apart(&self, other: &Handle<A>) -> bool
        ensures apart { IsTrue result → self.now.place ≢ other.now.place }
        ensures same { IsFalse result → self.now.place ≡ other.now.place }
    {
        self.place != other.place
    }
}
