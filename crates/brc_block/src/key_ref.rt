//! Keys that are lent.

ghost use Rattle.std.specs.Prelude.{◌≡◌, IfOk};
ghost use Rattle.std.specs.Str.{bytes_eq};
ghost use Rattle.std.specs.Cmp.Rules.{comparing, hashing};
ghost use Rattle.std.proofs.Common.{rules};
ghost use Rattle.brc_words.specs.Keys.{same_key, same_key-equiv};
ghost use Rattle.brc_block.specs.Lent_Keys.{key_lent, lent_fed, lent_alike};

use brc_words::{Key, Text, hash_bytes};
use indexmap::Equivalent;
use std::alloc::{AllocError, Allocator};
use std::hash::{Hash, Hasher};

/// A key that is lent: what a dictionary is asked by. The bytes of its text, or other bytes, stand where they stood.
#[derive(Clone, Copy, Debug, PartialEq, Eq)]
pub enum KeyRef<'k> {
    Int(i64),
    Text(&'k [u8]),
}

impl<'k> KeyRef<'k> {
    /// The key, lent.
    #[inline(always)]
    pub fn of<A: Allocator>(key: &'k Key<A>) -> KeyRef<'k>
        ensures { key_lent result ≡ key.now }
    {
        match key {
            Key::Int(number) => KeyRef::Int(*number),
            Key::Text(text) => KeyRef::Text(text.as_bytes()),
        }
    }

    /// The same key with memory of its own; only one of bytes asks for it.
    pub fn copy<A: Allocator>(self, alloc: A) -> Result<Key<A>, AllocError>
        ensures { IfOk result (λ copy. copy ≡ key_lent self.entry) }
    {
        match self {
            KeyRef::Int(number) => Ok(Key::Int(number)),
            KeyRef::Text(bytes) => Ok(Key::Text(Text::of_bytes(Vec::from_slice(alloc, bytes)?))),
        }
    }
}

/// As the key that is lent.
impl<'k> Hash for KeyRef<'k> {
    ghost hash_input = { lent_fed };

    ghost respects_eq = { Prim.search (hashing, rules) };

    #[inline(always)]
    fn hash<H: Hasher>(&self, state: &mut H) {
        match self {
            KeyRef::Int(number) => number.hash(state),
            KeyRef::Text(bytes) => hash_bytes(bytes, state),
        }
    }
}

impl<'k, A: Allocator> Equivalent<Key<A>> for KeyRef<'k> {
    ghost equivalent = { λ lent. same_key (key_lent lent) };

    ghost respects_hash = { lent_alike };

    ghost respects_eq = { λ lent x y. same_key-equiv.congr (key_lent lent) x y };

    #[inline(always)]
    fn equivalent(&self, key: &Key<A>) -> bool {
        match (self, key) {
            (KeyRef::Int(number), Key::Int(other)) => number == other,
            (KeyRef::Text(bytes), Key::Text(other)) => has_bytes(other, bytes),
            _ => false,
        }
    }
}

/// Whether the text is these bytes. It is a function of its own, so that a search for a number doesn't carry its code.
#[inline(never)]
fn has_bytes<A: Allocator>(text: &Text<A>, bytes: &[u8]) -> bool
    ensures { result ≡ bytes_eq bytes.now text.now }
{
    bytes == text.as_bytes()
}
