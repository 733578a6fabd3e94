//! The entries of a dictionary.

ghost use Rattle.std.specs.Prelude.{◌≡◌, ◌≢◌, ◌+◌, ◌<◌, ◌≤◌, ◌++◌, [], ◌∷◌, length, take, All, Some, None, OnOk, OnErr};
ghost use Rattle.std.specs.Prelude.{IfOk, IfErr, IfSome, IfNone, slice_get, slice_set, remove};
ghost use Rattle.std.specs.Option.{option_to_list};
ghost use Rattle.brc_block.specs.Lent_Keys.{key_lent};
ghost use Rattle.brc_block.specs.Pairs.{keys_in, noted_in};

use crate::key_map::KeyMap;
use crate::key_ref::KeyRef;
use brc_words::{Entry, Key};
use std::alloc::{AllocError, Allocator};
use std::marker::Model;

/// The entries of a dictionary: each key with its cell and note, in the order in which the keys came.
///
/// The map stands in memory of its own, so that blocks stay small, and is made for the first entry.
#[derive(Drop)]
pub struct Pairs<A: Allocator> {
    alloc: A,
    map: Option<Box<KeyMap<A>, A>>,
}

impl<A: Allocator> Model for Pairs<A> {
    ghost use Rattle.brc_words.specs.declared.entry.Entry.{Entry};
    ghost use Rattle.brc_words.specs.declared.key.Key.{Key};
    ghost use Rattle.brc_block.specs.Row.{RowSeen};
    ghost use Rattle.brc_block.specs.Pairs.{row_of};

    ghost Value = { RowSeen (Key A × Entry) };

    ghost view = { λ p. row_of p.map };
}

/// A map without pairs and with room for one.
fn first_map<A: Allocator + Copy>(alloc: A) -> Result<Box<KeyMap<A>, A>, AllocError>
    ensures items { IfOk result (λ map. map.value.items ≡ []) }
    ensures room { IfOk result (λ map. 0 < map.value.spare) }
{
    let mut map = KeyMap::new(alloc);
    map.reserve()?;
    match Box::new(alloc, map) {
        Ok(map) => Ok(map),
        Err(_refused) => Err(AllocError),
    }
}

impl<A: Allocator> Pairs<A> {
    /// No entries; nothing is allocated.
    pub fn new(alloc: A) -> Self
        ensures items { result.items ≡ [] }
        ensures spare { result.spare ≡ 0 }
    {
        Pairs { alloc, map: None }
    }

    pub fn len(&self) -> usize
        ensures { result ≡ length self.now.items }
    {
        match &self.map {
            None => 0,
            Some(map) => map.len(),
        }
    }

    /// A key and its entry, or None past the end.
    #[inline(always)]
    pub fn pair(&self, index: usize) -> Option<(&Key<A>, Entry)>
        ensures there { IfSome result
            (λ pair. slice_get self.now.items index ≡ Some (pair.0.now, pair.1)) }
        ensures past { IfNone result (slice_get self.now.items index ≡ None) }
    {
        match &self.map {
            None => None,
            Some(map) => map.pair(index),
        }
    }

    /// An entry, or None past the end.
    #[inline(always)]
    pub fn noted(&self, index: usize) -> Option<Entry>
        ensures { result ≡ slice_get (noted_in self.now.items) index }
    {
        match self.pair(index) {
            None => None,
            Some((_key, entry)) => Some(entry),
        }
    }

    /// The index of the first pair that has the key.
    #[inline(always)]
    pub fn find(&self, key: KeyRef<'_>) -> Option<usize>
        ensures found { IfSome result
            (λ index. slice_get (keys_in self.now.items) index ≡ Some (key_lent key.entry)) }
        ensures first { IfSome result
            (λ index. All (λ other. other ≢ key_lent key.entry) (take index (keys_in self.now.items))) }
        ensures none { IfNone result (All (λ other. other ≢ key_lent key.entry) (keys_in self.now.items)) }
    {
        match &self.map {
            None => None,
            Some(map) => map.find(key),
        }
    }

    /// One more entry, of a key that isn't there, at the end, in the room that was made for it.
    #[inline(always)]
    pub fn put_reserved(&mut self, key: Key<A>, entry: Entry)
        requires room { 0 < self.old.spare }
        requires absent { All (λ other. other ≢ key) (keys_in self.old.items) }
        ensures put { self.new.items ≡ self.old.items ++ (key, entry) ∷ [] }
        ensures used { self.old.spare ≤ self.new.spare + 1 }
    {
        match &mut self.map {
            None => unreachable!(),
            Some(map) => map.put_reserved(key, entry),
        }
    }

    /// Another entry for a key; its place stays.
    #[inline(always)]
    pub fn set(&mut self, index: usize, entry: Entry)
        requires within { index < length self.old.items }
        ensures set { noted_in self.new.items ≡ slice_set (noted_in self.old.items) index entry }
        ensures keys { keys_in self.new.items ≡ keys_in self.old.items }
        ensures spare { self.new.spare ≡ self.old.spare }
    {
        match &mut self.map {
            None => unreachable!(),
            Some(map) => map.set(index, entry),
        }
    }

    /// Takes a pair, and the later ones close up.
    pub fn remove(&mut self, index: usize) -> (Key<A>, Entry)
        requires within { index < length self.old.items }
        ensures taken { slice_get self.old.items index ≡ Some result }
        ensures left { self.new.items ≡ remove self.old.items index }
        ensures spare { self.old.spare ≤ self.new.spare }
    {
        match &mut self.map {
            None => unreachable!(),
            Some(map) => map.remove(index),
        }
    }

    /// Takes the last pair.
    pub fn pop(&mut self) -> Option<(Key<A>, Entry)>
        ensures last { self.old.items ≡ self.new.items ++ option_to_list result }
        ensures spare { self.old.spare ≤ self.new.spare }
        ensures empty { IfNone result (self.old.items ≡ []) }
        ensures unchanged { IfNone result (self.new ≡ self.old) }
    {
        match &mut self.map {
            None => None,
            Some(map) => map.pop(),
        }
    }
}

impl<A: Allocator + Copy> Pairs<A> {
    /// No entries, and room for so many: that many puts take no memory.
    pub fn with_room(alloc: A, pairs: usize) -> Result<Self, AllocError>
        ensures items { IfOk result (λ made. made.items ≡ []) }
        ensures room { IfOk result (λ made. pairs ≤ made.spare) }
    {
        let map = KeyMap::with_room(alloc, pairs)?;
        match Box::new(alloc, map) {
            Ok(map) => Ok(Pairs {
                alloc,
                map: Some(map),
            }),
            Err(_refused) => Err(AllocError),
        }
    }

    /// Makes room for one more entry: the next put takes no memory then.
    #[inline(always)]
    pub fn reserve(&mut self) -> Result<(), AllocError>
        ensures items { self.new.items ≡ self.old.items }
        ensures kept { self.old.spare ≤ self.new.spare }
        ensures made { OnOk result (0 < self.new.spare) }

        // A growth is refused only where one was needed. The room may be more after it, since the table of a map
        // grows before its columns.
        ensures needed { OnErr result (self.old.spare ≡ 0) }
    {
        match &mut self.map {
            Some(map) => map.reserve(),
            None => {
                self.map = Some(first_map(self.alloc)?);
                Ok(())
            }
        }
    }

    /// One more entry, of a key that isn't there, at the end, or its key back.
    pub fn put(&mut self, key: Key<A>, entry: Entry) -> Result<(), Key<A>>
        requires absent { All (λ other. other ≢ key) (keys_in self.old.items) }
        ensures put { OnOk result (self.new.items ≡ self.old.items ++ (key, entry) ∷ []) }
        ensures left { OnOk result (self.old.spare ≤ self.new.spare + 1) }
        ensures back { IfErr result (λ back. back ≡ key) }
        ensures needed { OnErr result (self.old.spare ≡ 0) }
        ensures unchanged { OnErr result (self.new.items ≡ self.old.items) }
    {
        match self.reserve() {
            Err(AllocError) => Err(key),
            Ok(()) => {
                self.put_reserved(key, entry);
                Ok(())
            }
        }
    }
}
