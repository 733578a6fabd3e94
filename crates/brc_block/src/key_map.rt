//! Entries by their keys, in the order in which the keys came.

ghost use Rattle.std.specs.Prelude.{◌≡◌, ◌≢◌, ◌+◌, ◌<◌, ◌≤◌, ◌++◌, [], ◌∷◌, length, take, All, Some, OnOk, OnErr};
ghost use Rattle.std.specs.Prelude.{IfOk, IfSome, IfNone, is_some, position, slice_get, slice_set, remove};
ghost use Rattle.std.specs.Map.{lookup};
ghost use Rattle.std.specs.Option.{option_to_list};
ghost use Rattle.brc_words.specs.Keys.{same_key};
ghost use Rattle.brc_block.specs.Lent_Keys.{key_lent};
ghost use Rattle.brc_block.specs.Pairs.{keys_in, noted_in};

use crate::key_ref::KeyRef;
use brc_words::{Entry, Key};
use indexmap::IndexMap;
use std::alloc::{AllocError, Allocator};
use std::hash::{BuildHasherDefault, FoldHasher};
use std::marker::Model;

/// The map of a dictionary. No key stands twice, and a removal keeps the order.
#[derive(Drop)]
pub(crate) struct KeyMap<A: Allocator> {
    map: IndexMap<Key<A>, Entry, BuildHasherDefault<FoldHasher>, A>,
}

impl<A: Allocator> Model for KeyMap<A> {
    ghost use Rattle.brc_words.specs.declared.entry.Entry.{Entry};
    ghost use Rattle.brc_words.specs.declared.key.Key.{Key};
    ghost use Rattle.indexmap.specs.IndexMap.{spare};
    ghost use Rattle.brc_block.specs.Row.{RowSeen};

    ghost Value = { RowSeen (Key A × Entry) };

    ghost view = { λ m. record {
      items = m.map.entries;
      spare = spare m.map;
    } };
}

impl<A: Allocator + Copy> KeyMap<A> {
    /// No pairs; nothing is allocated.
    pub(crate) fn new(alloc: A) -> Self
        ensures { result.items ≡ [] }
    {
        KeyMap {
            map: IndexMap::new(alloc),
        }
    }

    /// No pairs, and room for so many: that many puts take no memory.
    pub(crate) fn with_room(alloc: A, pairs: usize) -> Result<Self, AllocError>
        ensures items { IfOk result (λ map. map.items ≡ []) }
        ensures room { IfOk result (λ map. pairs ≤ map.spare) }
    {
        let mut made = KeyMap::new(alloc);
        made.map.reserve(pairs)?;
        Ok(made)
    }
}

impl<A: Allocator> KeyMap<A> {
    pub(crate) fn len(&self) -> usize
        ensures { result ≡ length self.now.items }
    {
        self.map.len()
    }

    /// The key and the entry at an index, or None past the end.
    #[inline(always)]
    pub(crate) fn pair(&self, index: usize) -> Option<(&Key<A>, Entry)>
        ensures there { IfSome result
            (λ pair. slice_get self.now.items index ≡ Some (pair.0.now, pair.1)) }
        ensures past { IfNone result (length self.now.items ≤ index) }
    {
        match self.map.get_index(index) {
            Some((key, entry)) => Some((key, *entry)),
            None => None,
        }
    }

    /// The index of the key.
    #[inline(always)]
    pub(crate) fn find(&self, key: KeyRef<'_>) -> Option<usize>
        ensures found { IfSome result
            (λ index. slice_get (keys_in self.now.items) index ≡ Some (key_lent key.entry)) }
        ensures first { IfSome result
            (λ index. All (λ other. other ≢ key_lent key.entry) (take index (keys_in self.now.items))) }
        ensures none { IfNone result (All (λ other. other ≢ key_lent key.entry) (keys_in self.now.items)) }
    {
        self.index_of(key)
    }

    /// The same, as the first place of the key. A number is compared as one: its hash and its comparison fold.
    #[inline(always)]
    fn index_of(&self, key: KeyRef<'_>) -> Option<usize>
        ensures first { result ≡ position (same_key (key_lent key.entry)) (keys_in self.now.items) }
        ensures there { is_some result ≡ is_some (lookup (same_key (key_lent key.entry)) self.now.items) }
    {
        match key {
            KeyRef::Int(number) => self.map.get_index_of(KeyRef::Int(number)),
            KeyRef::Text(_) => self.index_of_text(key),
        }
    }

    /// The same of a text, out of the way of numbers.
    #[inline(never)]
    fn index_of_text(&self, key: KeyRef<'_>) -> Option<usize>
        ensures first { result ≡ position (same_key (key_lent key.entry)) (keys_in self.now.items) }
        ensures there { is_some result ≡ is_some (lookup (same_key (key_lent key.entry)) self.now.items) }
    {
        self.map.get_index_of(key)
    }

    /// Makes room for one more pair. Where the memory is refused the room may still be more than it was.
    #[inline(always)]
    pub(crate) fn reserve(&mut self) -> Result<(), AllocError>
        ensures items { self.new.items ≡ self.old.items }
        ensures kept { self.old.spare ≤ self.new.spare }
        ensures made { OnOk result (0 < self.new.spare) }
        ensures needed { OnErr result (self.old.spare ≡ 0) }
    {
        self.map.reserve(1)
    }

    /// One more pair, of a key that isn't there, at the end, in the room that was made for it.
    #[inline(always)]
    pub(crate) fn put_reserved(&mut self, key: Key<A>, entry: Entry)
        requires room { 0 < self.old.spare }
        requires absent { All (λ other. other ≢ key) (keys_in self.old.items) }
        ensures put { self.new.items ≡ self.old.items ++ (key, entry) ∷ [] }
        ensures used { self.old.spare ≤ self.new.spare + 1 }
    {
        match self.map.insert(key, entry) {
            Ok(_old) => {}
            Err(_refused) => unreachable!(),
        }
    }

    /// Another entry for a key; its place stays.
    #[inline(always)]
    pub(crate) fn set(&mut self, index: usize, entry: Entry)
        requires within { index < length self.old.items }
        ensures set { noted_in self.new.items ≡ slice_set (noted_in self.old.items) index entry }
        ensures keys { keys_in self.new.items ≡ keys_in self.old.items }
        ensures spare { self.new.spare ≡ self.old.spare }
    {
        self.map[index] = entry;
    }

    /// Takes a pair, and the later ones close up.
    pub(crate) fn remove(&mut self, index: usize) -> (Key<A>, Entry)
        requires within { index < length self.old.items }
        ensures taken { slice_get self.old.items index ≡ Some result }
        ensures left { self.new.items ≡ remove self.old.items index }
        ensures spare { self.old.spare ≤ self.new.spare }
    {
        match self.map.shift_remove_index(index) {
            Some(pair) => pair,
            None => unreachable!(),
        }
    }

    /// Takes the last pair.
    pub(crate) fn pop(&mut self) -> Option<(Key<A>, Entry)>
        ensures last { self.old.items ≡ self.new.items ++ option_to_list result }
        ensures spare { self.old.spare ≤ self.new.spare }
        ensures empty { IfNone result (self.old.items ≡ []) }
        ensures unchanged { IfNone result (self.new ≡ self.old) }
    {
        if self.map.is_empty() {
            return None;
        }
        self.map.pop()
    }
}
