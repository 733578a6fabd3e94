//! The entries of a mailbox.

ghost use Rattle.std.specs.Prelude.{◌≡◌, ◌+◌, ◌++◌, [], IfOk, OnSome, IfNone};
ghost use Rattle.std.specs.Option.{option_to_list};

use crate::entries::Entries;
use brc_words::Entry;
use std::alloc::{AllocError, Allocator};
use std::collections::VecDeque;
use std::marker::Model;

/// How many entries the first growth makes room for.
const FEWEST: usize = 8;

/// The entries of a mailbox, as cells with notes: the first put in is the first taken out.
///
/// The queue stands in memory of its own, so that blocks stay small, and is made with the mailbox.
#[derive(Drop)]
pub struct Letters<A: Allocator> {
    queue: Box<VecDeque<Entry, A>, A>,
}

impl<A: Allocator> Model for Letters<A> {
    ghost use Rattle.std.specs.Prelude.{◌-◌};
    ghost use Rattle.brc_words.specs.declared.entry.Entry.{Entry};
    ghost use Rattle.std.specs.VecDeque.{deque_items, deque_len, deque_capacity};
    ghost use Rattle.brc_block.specs.Row.{RowSeen};

    ghost Value = { RowSeen Entry };

    ghost view = { λ l. record {
      items = deque_items l.queue.value;
      spare = deque_capacity l.queue.value - deque_len l.queue.value;
    } };
}

impl<A: Allocator + Copy> Letters<A> {
    /// No entries, and memory for the queue, but none for an entry.
    pub fn new(alloc: A) -> Result<Letters<A>, AllocError>
        ensures items { IfOk result (λ letters. letters.items ≡ []) }
    {
        match Box::new(alloc, VecDeque::new(alloc)) {
            Ok(queue) => Ok(Letters { queue }),
            Err(_refused) => Err(AllocError),
        }
    }
}

impl<A: Allocator> Letters<A> {
    /// Takes the first entry.
    pub fn take(&mut self) -> Option<Entry>
        ensures first { self.old.items ≡ option_to_list result ++ self.new.items }
        ensures spare { OnSome result (self.new.spare ≡ self.old.spare + 1) }
        ensures empty { IfNone result (self.old.items ≡ []) }
        ensures unchanged { IfNone result (self.new ≡ self.old) }
    {
        self.queue.pop_front()
    }
}

impl<A: Allocator> Entries for Letters<A> {
    ghost row = { λ l. l };

    #[inline(always)]
    fn len(&self) -> usize {
        self.queue.len()
    }

    #[inline(always)]
    fn noted(&self, index: usize) -> Option<Entry> {
        self.queue.get(index).copied()
    }

    #[inline(always)]
    fn reserve(&mut self) -> Result<(), AllocError> {
        let len = self.queue.len();
        if len < self.queue.capacity() {
            return Ok(());
        }
        // The capacity doubles, so that few of many puts ask for memory. Of this growth, unlike `reserve`'s, the
        // contract says that a refusal leaves the capacity as it was.
        self.queue.reserve_exact(len.max(FEWEST))
    }

    #[inline(always)]
    fn put_reserved(&mut self, entry: Entry) {
        match self.queue.push_back(entry) {
            Ok(()) => {}
            Err(_refused) => unreachable!(),
        }
    }

    fn set(&mut self, index: usize, entry: Entry) {
        self.queue[index] = entry;
    }

    // The first and the last are taken at once.
    #[inline(always)]
    fn remove(&mut self, index: usize) -> Entry {
        if index == 0 {
            return match self.queue.pop_front() {
                Some(entry) => entry,
                None => unreachable!(),
            };
        }
        match self.queue.remove(index) {
            Some(entry) => entry,
            None => unreachable!(),
        }
    }

    fn pop(&mut self) -> Option<Entry> {
        self.queue.pop_back()
    }
}
