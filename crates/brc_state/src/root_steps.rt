//! The root's steps: a thread is registered, or gathered.

ghost use Rattle.std.specs.Prelude.{◌≡◌, ◌<◌, ◌+◌, ◌^◌, ℕ, [], ◌∷◌, ◌++◌, true, OnOk, OnErr, slice_set, vec_len};
ghost use Rattle.std.specs.Prelude.{vec_capacity};
ghost use Rattle.law.specs.world.Heap.{new_row, row_at, words_for};
ghost use Rattle.law.specs.world.Steps.{registered, registered_again, gathered_in, root_after};
ghost use Rattle.brc_state.specs.Memory.{needs_memory};

use crate::bit_words::WordNumbers;
use crate::frames::Frame;
use crate::marks::Marks;
use crate::tables::Tables;
use law::world::{Hand, Row, Stage, Step, new_row, words_for};
use std::alloc::{AllocError, Allocator};

/// Puts the item at the end of a vector that has room for it.
fn put_last<T: Drop, A: Allocator>(list: &mut Vec<T, A>, item: T)
    requires { vec_len list.old < vec_capacity list.old }

    ensures { list.new.items ≡ list.old.items ++ item ∷ [] }
{
    let _ = list.push(item);
}

/// Puts the item in place of the one that a vector has for the thread.
fn put_at<T: Drop, A: Allocator>(list: &mut Vec<T, A>, thread: u32, item: T)
    ensures { list.new.items ≡ slice_set list.old.items thread item }
{
    if let Some(there) = list.get_mut(thread as usize) {
        *there = item;
    }
}

impl<A: Allocator + Copy> Tables<A> {
    /// One more thread: a row of every table that is indexed by thread. A refused growth changes
    /// nothing.
    fn register(&mut self) -> Result<(), AllocError>
        requires { self.old.registrations < 65536 }

        ensures ok { OnOk result (self.new ≡ registered self.old) }
        ensures err { OnErr result (self.new ≡ self.old) }
    {
        // All growth comes before the first item, so that after a refusal no list is longer than
        // another; and before the thread's own lists, so that few refusals have something to give back.
        self.rows.reserve(1)?;
        self.frames.reserve(1)?;
        self.popped.reserve(1)?;
        self.worklists.reserve(1)?;
        self.queues.reserve(1)?;
        self.notify_words.reserve(1)?;
        self.gathered.reserve(1)?;
        let cells = self.cells.len();
        let popped = WordNumbers::zeros(self.alloc, words_for(cells))?;
        let queue = WordNumbers::zeros(self.alloc, words_for(cells))?;
        let worklist = Marks::unset(self.alloc, cells)?;
        put_last(&mut self.rows, new_row());
        put_last(&mut self.frames, Frame::new(self.alloc));
        put_last(&mut self.popped, popped);
        put_last(&mut self.worklists, worklist);
        put_last(&mut self.queues, queue);
        put_last(&mut self.notify_words, 0);
        put_last(&mut self.gathered, false);
        self.registrations += 1;
        Ok(())
    }

    /// A number that was gathered is used again, and its ledger joins the past. A refused growth changes nothing.
    fn register_again(&mut self, thread: u32) -> Result<(), AllocError>
        requires few { self.old.registrations < 65536 }
        requires allocs { self.old.past_allocs + (row_at self.old thread).allocs < 2 ^ 64 }
        requires frees { self.old.past_frees + (row_at self.old thread).frees < 2 ^ 64 }

        ensures ok { OnOk result (self.new ≡ registered_again self.old thread) }
        ensures err { OnErr result (self.new ≡ self.old) }
    {
        let cells = self.cells.len();
        let popped = WordNumbers::zeros(self.alloc, words_for(cells))?;
        let queue = WordNumbers::zeros(self.alloc, words_for(cells))?;
        let worklist = Marks::unset(self.alloc, cells)?;
        let row = self.row(thread);
        self.past_allocs += row.allocs;
        self.past_frees += row.frees;
        let again = Row {
            allocs: 0,
            frees: 0,
            hand: Hand::Free,
            stage: Stage::Opening(0),
            locked: None,
        };
        put_at(&mut self.rows, thread, again);
        put_at(&mut self.frames, thread, Frame::new(self.alloc));
        put_at(&mut self.popped, thread, popped);
        put_at(&mut self.worklists, thread, worklist);
        put_at(&mut self.queues, thread, queue);
        put_at(&mut self.gathered, thread, false);
        self.registrations += 1;
        Ok(())
    }

    /// One thread is gathered.
    fn gather(&mut self, thread: u32)
        ensures { self.new ≡ gathered_in self.old thread }
    {
        if let Some(gathered) = self.gathered.get_mut(thread as usize) {
            *gathered = true;
        }
    }

    /// What the root's step does. A refused growth changes nothing.
    // Apart, as all that is rare is, so that it takes no registers from the steps that are not.
    #[inline(never)]
    pub(crate) fn make_root_step(&mut self, step: Step) -> Result<(), AllocError>
        requires few { (u : ℕ) → step ≡ Step.Register u → self.old.registrations < 65536 }
        requires allocs { (u : ℕ) → self.old.past_allocs + (row_at self.old u).allocs < 2 ^ 64 }
        requires frees { (u : ℕ) → self.old.past_frees + (row_at self.old u).frees < 2 ^ 64 }

        ensures ok { OnOk result (self.new ≡ root_after self.old step) }
        ensures err { OnErr result (self.new ≡ self.old) }
        ensures memory { OnErr result (needs_memory step ≡ true) }
    {
        match step {
            Step::Register(thread) => {
                if (thread as usize) < self.rows.len() {
                    self.register_again(thread)
                } else {
                    self.register()
                }
            }
            Step::Gather(thread) => {
                self.gather(thread);
                Ok(())
            }
            _ => Ok(()),
        }
    }
}
