//! A list.

ghost use Rattle.std.specs.Prelude.{◌≡◌, ◌≤◌, ◌==◌, [], length, Ok, Err, IfOk, IfErr};
ghost use Rattle.brc_words.specs.declared.limits.TheConstants.{MOST_ENTRIES};
ghost use Rattle.brc_plain.specs.Outcomes.{Does, DoesIfRoom, fault_alone};
ghost use Rattle.brc_plain.specs.Lists as lists;

use brc_words::{Fault, MOST_ENTRIES};
use std::alloc::Allocator;
use std::marker::Model;
use std::mem;

/// Entries in the order in which they were put.
#[derive(Drop)]
pub struct PlainList<E: Drop, A: Allocator> {
    entries: Vec<E, A>,
}

impl<E: Drop, A: Allocator> Model for PlainList<E, A> {
    ghost use Rattle.std.specs.Prelude.{List, ◌≤◌, length};
    ghost use Rattle.brc_words.specs.declared.limits.TheConstants.{MOST_ENTRIES};

    ghost Value = { List E };

    ghost view = { λ l. l.entries.items };

    ghost invariant = { λ l. length l.entries.items ≤ MOST_ENTRIES };
}

impl<E: Drop, A: Allocator> PlainList<E, A> {
    /// No entries, and no memory.
    pub fn new(alloc: A) -> Self
        ensures { result ≡ [] }
    {
        PlainList {
            entries: Vec::new(alloc),
        }
    }

    /// The entries in their order.
    pub fn as_slice(&self) -> &[E]
        ensures { result.now ≡ self.now }
    {
        self.entries.as_slice()
    }

    pub fn len(&self) -> usize
        ensures entries { result ≡ length self.now }
        ensures few { result ≤ MOST_ENTRIES }
    {
        self.entries.len()
    }

    pub fn is_empty(&self) -> bool
        ensures { result ≡ (length self.now == 0) }
    {
        self.entries.is_empty()
    }

    /// One more entry, at the end; a refusal hands it back.
    pub fn push(&mut self, value: E) -> Result<(), (Fault, E)>
        ensures does { DoesIfRoom (fault_alone result) self.old self.new (lists.push self.old value) }
        ensures back { IfErr result (λ refused. refused.1 ≡ value) }
    {
        if self.entries.len() >= MOST_ENTRIES as usize {
            return Err((Fault::Full, value));
        }
        match self.entries.push(value) {
            Ok(()) => Ok(()),
            Err(refused) => Err((Fault::OutOfMemory, refused.value)),
        }
    }

    /// Takes the last entry.
    pub fn pop(&mut self) -> Result<E, Fault>
        ensures { Does result self.old self.new (lists.pop self.old) }
    {
        match self.entries.pop() {
            Some(entry) => Ok(entry),
            None => Err(Fault::NoSuchPlace),
        }
    }

    /// Takes the entry at a place; the later ones close up.
    pub fn take_at(&mut self, index: usize) -> Result<E, Fault>
        ensures { Does result self.old self.new (lists.take_at self.old index) }
    {
        if index < self.entries.len() {
            Ok(self.entries.remove(index))
        } else {
            Err(Fault::NoSuchPlace)
        }
    }

    /// The entry at a place.
    pub fn get(&self, index: usize) -> Result<&E, Fault>
        ensures found { IfOk result (λ entry. lists.get self.now index ≡ Ok entry.now) }
        ensures refused { IfErr result (λ fault. lists.get self.now index ≡ Err fault) }
    {
        if index < self.entries.len() {
            Ok(&self.entries[index])
        } else {
            Err(Fault::NoSuchPlace)
        }
    }

    /// Another entry at a place, for the one that stood there; a refusal hands the new one back.
    pub fn set(&mut self, index: usize, value: E) -> Result<E, (Fault, E)>
        ensures does { Does (fault_alone result) self.old self.new (lists.set self.old index value) }
        ensures back { IfErr result (λ refused. refused.1 ≡ value) }
    {
        if index < self.entries.len() {
            Ok(mem::replace(&mut self.entries[index], value))
        } else {
            Err((Fault::NoSuchPlace, value))
        }
    }
}
