//! A dictionary.

ghost use Rattle.std.specs.Prelude.{◌≡◌, ◌≤◌, ◌==◌, [], length, Ok, Err, IfOk, IfErr, position};
ghost use Rattle.brc_words.specs.declared.limits.TheConstants.{MOST_ENTRIES};
ghost use Rattle.brc_plain.specs.Outcomes.{Does, DoesIfRoom, fault_alone};
ghost use Rattle.brc_plain.specs.Dicts as dicts;
ghost use Rattle.brc_words.specs.Keys.{same_key};

use brc_words::{Fault, Key, MOST_ENTRIES};
use std::alloc::Allocator;
use std::marker::Model;
use std::mem;

/// Values by their keys, in the order in which the keys came; no key stands twice.
#[derive(Drop)]
pub struct PlainDict<E: Drop, A: Allocator> {
    pairs: Vec<(Key<A>, E), A>,
}

impl<E: Drop, A: Allocator> Model for PlainDict<E, A> {
    ghost use Rattle.std.specs.Prelude.{List, ◌≤◌, length};
    ghost use Rattle.brc_words.specs.declared.key.Key.{Key};
    ghost use Rattle.brc_words.specs.declared.limits.TheConstants.{MOST_ENTRIES};
    ghost use Rattle.brc_plain.specs.Dicts.{HasNoKeyTwice};

    ghost Value = { List (Key A × E) };

    ghost view = { λ d. d.pairs.items };

    ghost invariant = { λ d. (length d.pairs.items ≤ MOST_ENTRIES) × HasNoKeyTwice d.pairs.items };
}

impl<E: Drop, A: Allocator> PlainDict<E, A> {
    /// No pairs, and no memory.
    pub fn new(alloc: A) -> Self
        ensures { result ≡ [] }
    {
        PlainDict {
            pairs: Vec::new(alloc),
        }
    }

    /// The pairs in their order.
    pub fn as_slice(&self) -> &[(Key<A>, E)]
        ensures { result.now ≡ self.now }
    {
        self.pairs.as_slice()
    }

    pub fn len(&self) -> usize
        ensures entries { result ≡ length self.now }
        ensures few { result ≤ MOST_ENTRIES }
    {
        self.pairs.len()
    }

    pub fn is_empty(&self) -> bool
        ensures { result ≡ (length self.now == 0) }
    {
        self.pairs.is_empty()
    }

    /// Where the key stands.
    fn place(&self, key: &Key<A>) -> Option<usize>
        ensures { result ≡ position (λ pair. same_key pair.0 key.now) self.now }
    {
        self.pairs.as_slice().iter().position(|pair| pair.0 == *key)
    }

    /// The value beside the key, in the place of the one that stood there; a new key comes last. A refusal hands both
    /// back.
    pub fn put(&mut self, key: Key<A>, value: E) -> Result<Option<E>, (Fault, (Key<A>, E))>
        ensures does { DoesIfRoom (fault_alone result) self.old self.new (dicts.put self.old key value) }
        ensures back { IfErr result (λ refused. refused.1 ≡ (key, value)) }
    {
        if let Some(index) = self.place(&key) {
            let old = mem::replace(&mut self.pairs[index].1, value);
            drop(key);
            return Ok(Some(old));
        }
        if self.pairs.len() >= MOST_ENTRIES as usize {
            return Err((Fault::Full, (key, value)));
        }
        match self.pairs.push((key, value)) {
            Ok(()) => Ok(None),
            Err(refused) => Err((Fault::OutOfMemory, refused.value)),
        }
    }

    /// The value beside the key.
    pub fn find(&self, key: &Key<A>) -> Result<&E, Fault>
        ensures found { IfOk result (λ value. dicts.find self.now key.now ≡ Ok value.now) }
        ensures refused { IfErr result (λ fault. dicts.find self.now key.now ≡ Err fault) }
    {
        match self.place(key) {
            Some(index) => Ok(&self.pairs[index].1),
            None => Err(Fault::NoSuchKey),
        }
    }

    /// The pair at a place, in the order in which the keys came.
    pub fn pair_at(&self, index: usize) -> Result<&(Key<A>, E), Fault>
        ensures found { IfOk result (λ pair. dicts.pair_at self.now index ≡ Ok pair.now) }
        ensures refused { IfErr result (λ fault. dicts.pair_at self.now index ≡ Err fault) }
    {
        if index < self.pairs.len() {
            Ok(&self.pairs[index])
        } else {
            Err(Fault::NoSuchPlace)
        }
    }

    /// Takes the value beside the key; the pair goes, and the later ones close up.
    pub fn delete(&mut self, key: &Key<A>) -> Result<E, Fault>
        ensures { Does result self.old self.new (dicts.delete self.old key.now) }
    {
        match self.place(key) {
            Some(index) => {
                let (own, value) = self.pairs.remove(index);
                drop(own);
                Ok(value)
            }
            None => Err(Fault::NoSuchKey),
        }
    }
}
