//! A queue.

ghost use Rattle.std.specs.Prelude.{◌≡◌, ◌≤◌, ◌==◌, [], length, IfErr};
ghost use Rattle.std.specs.VecDeque.{deque_items};
ghost use Rattle.brc_words.specs.declared.limits.TheConstants.{MOST_ENTRIES};
ghost use Rattle.brc_plain.specs.Outcomes.{Does, DoesIfRoom, fault_alone};
ghost use Rattle.brc_plain.specs.Queues as queues;

use brc_words::{Fault, MOST_ENTRIES};
use std::alloc::Allocator;
use std::collections::VecDeque;
use std::marker::Model;

/// Entries of which the first put in is the first taken out.
#[derive(Drop)]
pub struct PlainQueue<E: Drop, A: Allocator> {
    entries: VecDeque<E, A>,
}

impl<E: Drop, A: Allocator> Model for PlainQueue<E, A> {
    ghost use Rattle.std.specs.Prelude.{List, ◌≤◌, length};
    ghost use Rattle.std.specs.VecDeque.{deque_items};
    ghost use Rattle.brc_words.specs.declared.limits.TheConstants.{MOST_ENTRIES};

    ghost Value = { List E };

    ghost view = { λ q. deque_items q.entries };

    ghost invariant = { λ q. length (deque_items q.entries) ≤ MOST_ENTRIES };
}

impl<E: Drop, A: Allocator> PlainQueue<E, A> {
    /// No entries, and no memory.
    pub fn new(alloc: A) -> Self
        ensures { result ≡ [] }
    {
        PlainQueue {
            entries: VecDeque::new(alloc),
        }
    }

    pub fn len(&self) -> usize
        ensures entries { result ≡ length self.now }
        ensures few { result ≤ MOST_ENTRIES }
    {
        self.entries.len()
    }

    pub fn is_empty(&self) -> bool
        ensures { result ≡ (length self.now == 0) }
    {
        self.entries.is_empty()
    }

    /// One more entry, at the end; a refusal hands it back.
    pub fn send(&mut self, value: E) -> Result<(), (Fault, E)>
        ensures does { DoesIfRoom (fault_alone result) self.old self.new (queues.send self.old value) }
        ensures back { IfErr result (λ refused. refused.1 ≡ value) }
    {
        if self.entries.len() >= MOST_ENTRIES as usize {
            return Err((Fault::Full, value));
        }
        match self.entries.push_back(value) {
            Ok(()) => Ok(()),
            Err(refused) => Err((Fault::OutOfMemory, refused.value)),
        }
    }

    /// Takes the first entry.
    pub fn receive(&mut self) -> Result<E, Fault>
        ensures { Does result self.old self.new (queues.receive self.old) }
    {
        match self.entries.pop_front() {
            Some(entry) => Ok(entry),
            None => Err(Fault::NoSuchPlace),
        }
    }
}
