//! A frame at rest: what is left of it while its thread has no handle and is away from the heap. It names no lifetime,
//! and nothing in it must be spent, so that one thread of the machine can hand it to another.

ghost use Rattle.std.specs.Prelude.{◌≡◌, []};
ghost use Rattle.brc_count.specs.Frames.{IsUnlocked};

use crate::frame::Frame;
use crate::frame_places::Places;
use crate::held::PlaceEntry;
use crate::holdings::Holdings;
use crate::ledger::Ledger;
use crate::start::ClaimStart;
use brc_biased::{HasTable, RestingCounter};
use brc_table::block::Worklist;
use std::alloc::Allocator;
use std::marker::Model;

/// A frame without handles and dead blocks, away from its heap.
#[derive(Drop)]
pub struct RestingFrame<A: Allocator> {
    counter: RestingCounter<A>,
    places: Places<A>,
    popped: Vec<u64, A>,
    ledger: Ledger,
    start: ClaimStart,
    thread: u32,
}

impl<A: Allocator> Model for RestingFrame<A> {
    ghost use Rattle.brc_count.specs.Frames.{FrameSeen, Rests, resting_seen};

    ghost Value = { FrameSeen A };

    ghost view = { λ f. resting_seen f.counter f.places f.start };

    ghost invariant = { λ f. Rests A f.counter f.places f.popped.items f.ledger f.start f.thread };
}

impl<H: HasTable<A> + Drop, A: Allocator> Frame<H, A> {
    /// The frame, away from its heap.
    pub fn rest(self) -> RestingFrame<A>
        requires idle { (self.len ≡ 0) × (self.works ≡ []) }
        requires unlocked { IsUnlocked self }
        ensures same { result ≡ self }
    {
        let Frame { holdings, thread } = self;
        let Holdings {
            counter,
            places,
            works,
            popped,
            ledger,
            start,
        } = holdings;
        works.end();
        RestingFrame {
            counter: counter.rest(),
            places,
            popped,
            ledger,
            start,
            thread,
        }
    }
}

impl<A: Allocator> RestingFrame<A> {
    /// Whose frame it is: the thread's number, from 1 to 64.
    pub fn thread(&self) -> u32
        ensures { result ≡ self.now.seat.thread }
    {
        self.thread
    }

    /// The frame, at its heap again.
    pub fn wake<H: HasTable<A>>(self, heap: H) -> Frame<H, A>
        requires heap { self.heap ≡ H.seen heap }
        ensures same { result ≡ self }
        ensures idle { (result.len ≡ 0) × (result.works ≡ []) }
        ensures unlocked { IsUnlocked result }
    {
        let RestingFrame {
            counter,
            places,
            popped,
            ledger,
            start,
            thread,
        } = self;
        Frame {
            holdings: Holdings {
                counter: counter.wake(heap),
                places,
                works: Worklist::new(),
                popped,
                ledger,
                start,
            },
            thread,
        }
    }
}
