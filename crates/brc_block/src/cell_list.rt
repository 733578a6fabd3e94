//! The entries of a list.

ghost use Rattle.std.specs.Prelude.{◌≡◌, ◌-◌, ◌<◌, Some, OnOk, OnErr, length, remove, slice_get, vec_len};
ghost use Rattle.std.specs.Vec.{vec_capacity};

use crate::entries::Entries;
use brc_words::Entry;
use std::alloc::{AllocError, Allocator};
use std::marker::Model;

/// How many entries the first growth makes room for.
const FEWEST: usize = 8;

/// The entries of a list: cells, each with what is noted beside it.
#[derive(Drop)]
pub struct CellList<A: Allocator> {
    list: Vec<Entry, A>,
}

impl<A: Allocator> Model for CellList<A> {
    ghost use Rattle.std.specs.Prelude.{◌-◌, vec_len};
    ghost use Rattle.brc_words.specs.declared.entry.Entry.{Entry};
    ghost use Rattle.std.specs.Vec.{vec_capacity};
    ghost use Rattle.brc_block.specs.Row.{RowSeen};

    ghost Value = { RowSeen Entry };

    ghost view = { λ c. record {
      items = c.list.items;
      spare = vec_capacity c.list - vec_len c.list;
    } };
}

impl<A: Allocator> CellList<A> {
    /// The vector as entries; its spare capacity stays spare.
    pub fn new(list: Vec<Entry, A>) -> Self
        ensures items { result.items ≡ list.items }
        ensures spare { result.spare ≡ vec_capacity list - vec_len list }
    {
        CellList { list }
    }

    /// Room for as many entries more as there are, at first for `FEWEST`. It stands apart, so that what is inlined
    /// stays small.
    #[cold]
    #[inline(never)]
    fn grow(&mut self) -> Result<(), AllocError>
        requires full { self.old.spare ≡ 0 }
        ensures items { self.new.items ≡ self.old.items }
        ensures made { OnOk result (0 < self.new.spare) }
        ensures unchanged { OnErr result (self.new ≡ self.old) }
    {
        let more = self.list.len().max(FEWEST);
        self.list.reserve_exact(more)
    }

    /// The entries in their order.
    pub fn as_slice(&self) -> &[Entry]
        ensures { result.now ≡ self.now.items }
    {
        self.list.as_slice()
    }
}

impl<A: Allocator> Entries for CellList<A> {
    ghost row = { λ c. c };

    #[inline(always)]
    fn len(&self) -> usize {
        self.list.len()
    }

    #[inline(always)]
    fn noted(&self, index: usize) -> Option<Entry> {
        self.list.get(index).copied()
    }

    #[inline(always)]
    fn reserve(&mut self) -> Result<(), AllocError> {
        if self.list.len() < self.list.capacity() {
            return Ok(());
        }
        self.grow()
    }

    #[inline(always)]
    fn put_reserved(&mut self, entry: Entry) {
        self.list.push_reserved(entry);
    }

    #[inline(always)]
    fn set(&mut self, index: usize, entry: Entry) {
        self.list[index] = entry;
    }

    #[inline(always)]
    fn remove(&mut self, index: usize) -> Entry {
        if self.list.len() - 1 == index {
            self.list.take_last()
        } else {
            remove_between(&mut self.list, index)
        }
    }

    #[inline(always)]
    fn pop(&mut self) -> Option<Entry> {
        self.list.pop()
    }
}

/// An entry that isn't the last goes, by a call. What that returns into is set to zero here, and not where the last goes.
#[inline(always)]
fn remove_between<A: Allocator>(list: &mut Vec<Entry, A>, index: usize) -> Entry
    requires within { index < length list.old.items }
    ensures taken { slice_get list.old.items index ≡ Some result }
    ensures left { list.new.items ≡ remove list.old.items index }
    ensures spare { vec_capacity list.new ≡ vec_capacity list.old }
{
    list.remove(index)
}
