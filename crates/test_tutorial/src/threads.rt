//! Step 5, a second thread: it finds what the first one left, though that one has ended.

ghost use Rattle.std.specs.Prelude.{◌≡◌};

use crate::globals::reads;
use brc_heap::{Heap, Mutator, Root};
use brc_loops::{Life, Nothing, end_all, gather_all, gather_answers, rest_more, run_all};
use std::alloc::Global;
use std::sync::Wait;
use std::thread::Threads;

/// What the second thread does between its waking and its end.
#[derive(Drop)]
struct Reading;

impl<R: Wait> Life<R> for Reading {
    /// What it found in the globals.
    type Answer = Option<i64>;

    fn live(&self, rt: &R, mutator: &mut Mutator) -> Option<i64> {
        reads(rt, mutator.frame(), 0)
    }
}

/// A thread is registered, lives on a thread of the machine, and is gathered: what it found.
pub(crate) fn second_thread<R>(rt: &R, alloc: Global, heap: &Heap, root: &mut Root) -> Option<i64>
where
    R: Threads + Wait + Sync,
    requires root { root.old.table ≡ heap.now.table }
    ensures root { root.new.table ≡ root.old.table }
{
    let mut resting = Vec::new(alloc);
    let _registered = rest_more(rt, alloc, heap, root, &Nothing, 1, &mut resting);
    match run_all(rt, heap, &Reading, resting) {
        Err(resting) => {
            end_all(rt, root, heap, resting); // memory is missing: nobody has lived
            None
        }
        Ok(ended) => match gather_answers(alloc, root, heap, ended) {
            Ok(answers) => match answers.as_slice() {
                [found] => *found,
                _ => None,
            },
            Err(ended) => {
                gather_all(root, heap, ended);
                None
            }
        },
    }
}
