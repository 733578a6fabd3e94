//! A mutator at rest, on its way to another thread of the machine.

ghost use Rattle.std.specs.Prelude.{◌≡◌, []};
ghost use Rattle.brc_count.specs.Frames.{IsUnlocked};

use crate::mutator::Mutator;
use brc_count::RestingFrame;
use brc_count::biased::HasTable;
use std::alloc::{Allocator, Global};
use std::marker::Model;

/// A mutator without handles, away from its heap. It names no lifetime, and nothing in it must be spent: a closure can
/// own it. One that is dropped is a thread that can't be gathered any more, and its number isn't given again.
#[derive(Drop)]
pub struct Resting<A: Allocator = Global> {
    frame: RestingFrame<A>,
}

impl<A: Allocator> Model for Resting<A> {
    ghost use Rattle.brc_count.specs.Frames.{FrameSeen};

    ghost Value = { FrameSeen A };

    ghost view = { λ r. r.frame };
}

impl<H: HasTable<A> + Drop, A: Allocator> Mutator<H, A> {
    /// The mutator, away from its heap.
    pub fn rest(self) -> Resting<A>
        requires idle { (self.len ≡ 0) × (self.works ≡ []) }
        requires unlocked { IsUnlocked self }
        ensures same { result ≡ self }
    {
        let Mutator { frame } = self;
        Resting {
            frame: frame.rest(),
        }
    }
}

impl<A: Allocator> Resting<A> {
    /// Which thread it is: the number, from 1 to 64.
    pub fn thread(&self) -> u32
        ensures { result ≡ self.now.seat.thread }
    {
        self.frame.thread()
    }

    /// The mutator, at its heap again.
    pub fn wake<H: HasTable<A>>(self, heap: H) -> Mutator<H, A>
        requires heap { self.heap ≡ H.seen heap }
        ensures same { result ≡ self }
        ensures idle { (result.len ≡ 0) × (result.works ≡ []) }
        ensures unlocked { IsUnlocked result }
    {
        let Resting { frame } = self;
        Mutator {
            frame: frame.wake(heap),
        }
    }
}
