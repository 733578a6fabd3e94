//! How far a case is, what it has taken of its memory, and how it ends the test where a step comes to something else
//! than its row says.

use crate::tests::came::Came;
use crate::tests::ends::cells_left;
use crate::tests::steps::{Asked, Growths, Step};
use crate::{Memories, Pieces};
use brc_count::table::Rest;
use brc_words::Fault;
use linked_list_allocator::LocalHeap;
use std::alloc::{Allocator, Global};
use std::process::Abort;

/// How far a case is, and the memory of its steps.
#[derive(Drop)]
pub(super) struct Playing<'h> {
    pub(super) case: &'h str,
    /// How many steps were begun.
    pub(super) number: u32,
    /// `n`: how often the last step was taken that was to be taken several times.
    pub(super) count: u32,
    pub(super) alloc: Global,
    pub(super) memories: Memories<&'h LocalHeap>,
    /// What new objects are of.
    pub(super) objects: &'h LocalHeap,
    /// What was taken of scarce memory.
    pub(super) taken: Vec<Pieces<'h>>,
}

impl<'h> Playing<'h> {
    /// What the step's call is made with.
    pub(super) fn asked<'s>(&self, step: Step<'s>) -> Asked<'s, &'h LocalHeap> {
        Asked {
            given: step.given,
            count: self.count,
            objects: self.objects,
            ample: self.memories.ample,
        }
    }

    /// All memory that is left is taken.
    pub(super) fn starve(&mut self, rt: &impl Abort) {
        let pieces = Pieces::take_all(self.alloc, self.memories.scarce);
        let pieces = pieces.expect(rt, "a heap that is never full");
        assert!(rt; self.taken.push(pieces).is_ok());
    }

    /// A piece comes back.
    pub(super) fn give_one(&mut self, rt: &impl Abort) {
        let name = self.case;
        match self.taken.last_mut() {
            Some(pieces) => assert!(rt; pieces.give_one(), "{name}: no memory is left to give"),
            None => panic!(rt; "{name}: no memory was taken"),
        }
    }

    /// How much scarce memory is in use, what was taken last aside.
    pub(super) fn used(&self) -> usize {
        match self.taken.last() {
            Some(pieces) => pieces.used(),
            None => 0,
        }
    }

    /// What came of the step is what its row says, or the test ends.
    pub(super) fn says(&self, rt: &impl Abort, step: Step<'_>, came: Came) {
        let (name, number, text) = (self.case, self.number, step.text);
        assert!(rt;
            came.is(step.given.answer, self.count),
            "{name}, step {number}: {text}: came {came:?}"
        );
    }

    /// A refusal is for want of memory, or the test ends.
    pub(super) fn wants(&self, rt: &impl Abort, step: Step<'_>, came: Came) {
        let (name, number, text) = (self.case, self.number, step.text);
        assert!(rt;
            came == Came::Refused(Fault::OutOfMemory),
            "{name}, step {number}: {text}: refused as {came:?}"
        );
    }

    /// There were as many refusals, and at as many growths, as the row says, or the test ends.
    pub(super) fn is_enough(
        &self,
        rt: &impl Abort,
        step: Step<'_>,
        growths: Growths,
        refusals: u32,
        at: u32,
    ) {
        let (name, number, text) = (self.case, self.number, step.text);
        let enough = match growths {
            Growths::Some => refusals > 0,
            Growths::Several => refusals > 1,
            Growths::At(growths) => at == growths,
        };
        assert!(rt;
            enough,
            "{name}, step {number}: {text}: {refusals} refusals, at {at} of its growths"
        );
    }

    /// The thread's ledger has as many frees as births, or the test ends.
    pub(super) fn is_balanced(&self, rt: &impl Abort, came: Came) {
        let name = self.case;
        match came {
            Came::Ledger(births, frees) => {
                assert!(rt; births == frees, "{name}: {births} born, {frees} freed")
            }
            _ => panic!(rt; "{name}: a thread has work left at its end"),
        }
    }

    /// Of what the heap leaves only the immortals have blocks, cells 0 to 265, or the test ends.
    pub(super) fn is_empty<A: Allocator>(&self, rt: &impl Abort, rest: Rest<A>) {
        let (name, left) = (self.case, cells_left(rest));
        assert!(rt; left == Some(266), "{name}: the heap left {left:?}");
    }

    /// What is seen after a refusal is as it was, or the test ends.
    pub(super) fn stands(&self, rt: &impl Abort, step: Step<'_>, before: Seen, after: Seen) {
        let (name, number, text) = (self.case, self.number, step.text);
        assert!(rt;
            before == after,
            "{name}, step {number}: {text}: a refusal left {after:?} of {before:?}"
        );
    }
}

/// What is seen of a thread: its handles, its places, its ledger, and how many entries there are in all the objects of
/// its places.
#[derive(Clone, Copy, Debug, PartialEq, Eq)]
pub(super) struct Seen {
    pub(super) handles: usize,
    pub(super) places: usize,
    pub(super) births: u64,
    pub(super) frees: u64,
    pub(super) entries: usize,
}
