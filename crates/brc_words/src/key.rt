//! The keys of a dictionary.

ghost use Rattle.std.specs.Prelude.{◌≡◌, ◌↔◌, nat_eq, fold, IfOk, IfSome, IfNone, IsTrue};
ghost use Rattle.std.specs.Str.{IsUtf8};
ghost use Rattle.std.specs.String.{string_bytes};
ghost use Rattle.std.specs.Cmp.{partial_equiv_from_equiv, partial_order_from_own_ties};
ghost use Rattle.std.specs.Cmp.Lexicographic.{pointwise, slice_cmp};
ghost use Rattle.std.specs.Cmp.Rules.{comparing, hashing};
ghost use Rattle.std.specs.Hash as fed;
ghost use Rattle.std.specs.Ordering.{nat_cmp, as_partial_cmp};
ghost use Rattle.std.proofs.Common.{rules};
ghost use Rattle.std.proofs.lemmas.Cmp.{nat_list_eq_equiv, nat_list_cmp_total};
ghost use Rattle.brc_words.specs.Keys.{same_key, same_key-equiv, fed_of, same_key-fed};

use std::alloc::{AllocError, Allocator};
use std::cmp::Ordering;
use std::hash::{Hash, Hasher};
use std::marker::Model;

/// A list of bytes, seen as these. It is a text if they are UTF-8; whoever wants to know reads them.
#[derive(Drop)]
#[derive_where(Debug)]
pub struct Text<A: Allocator> {
    bytes: Vec<u8, A>,
}

impl<A: Allocator> Model for Text<A> {
    ghost use Rattle.std.specs.Prelude.{List, ℕ};

    ghost Value = { List ℕ };

    ghost view = { λ t. t.bytes.items };
}

impl<A: Allocator> Text<A> {
    /// The string as a text.
    pub fn new(text: String<A>) -> Self
        ensures { result ≡ string_bytes text }
    {
        Text {
            bytes: text.into_bytes(),
        }
    }

    /// The bytes, whatever they are.
    pub fn of_bytes(bytes: Vec<u8, A>) -> Self
        ensures { result ≡ bytes.items }
    {
        Text { bytes }
    }

    /// The bytes.
    #[inline(always)]
    pub fn as_bytes(&self) -> &[u8]
        ensures { result.now ≡ self.now }
    {
        self.bytes.as_slice()
    }

    /// The bytes as a string slice, if they are UTF-8. It reads all of them to see.
    pub fn as_str(&self) -> Option<&str>
        ensures text { IfSome result (λ text. (text.now ≡ self.now) × IsUtf8 self.now) }
        ensures other { IfNone result (IsUtf8 self.now → ⊥) }
    {
        match str::from_utf8(self.bytes.as_slice()) {
            Ok(text) => Some(text),
            Err(_other) => None,
        }
    }

    /// The same bytes once more, in memory of their own.
    pub fn copy(&self, alloc: A) -> Result<Text<A>, AllocError>
        ensures { IfOk result (λ copy. copy ≡ self.now) }
    {
        Ok(Text {
            bytes: Vec::from_slice(alloc, self.bytes.as_slice())?,
        })
    }
}

/// Feeds a hasher as a string slice of these bytes does.
#[inline(always)]
pub fn hash_bytes<H: Hasher>(bytes: &[u8], state: &mut H)
    ensures { state.new ≡ fold H.write state.old (fed.str bytes.now) }
{
    state.write(bytes);
    state.write_u8(0xff);
}

impl<A: Allocator> PartialEq for Text<A> {
    ghost eq = { pointwise nat_eq };

    ghost laws = { partial_equiv_from_equiv nat_list_eq_equiv };

    fn eq(&self, other: &Self) -> bool {
        self.as_bytes() == other.as_bytes()
    }
}

impl<A: Allocator> Eq for Text<A> {
    ghost laws = { nat_list_eq_equiv };
}

/// By their bytes, the first that differs deciding; a text comes before those that it begins.
impl<A: Allocator> Ord for Text<A> {
    ghost cmp = { slice_cmp nat_cmp };

    ghost total = { nat_list_cmp_total };

    ghost matches_partial_cmp = { Prim.search (comparing, rules) };

    ghost matches_eq = { Prim.search (comparing, rules) };

    fn cmp(&self, other: &Self) -> Ordering {
        self.as_bytes().cmp(other.as_bytes())
    }
}

impl<A: Allocator> PartialOrd for Text<A> {
    ghost partial_cmp = { as_partial_cmp (slice_cmp nat_cmp) };

    ghost laws = { partial_order_from_own_ties
        (Prim.search (comparing, rules)) (Prim.search (comparing, rules)) };

    fn partial_cmp(&self, other: &Self) -> Option<Ordering> {
        Some(self.cmp(other))
    }
}

impl<A: Allocator> Hash for Text<A> {
    ghost hash_input = { fed.str };

    ghost respects_eq = { Prim.search (hashing, rules) };

    fn hash<H: Hasher>(&self, state: &mut H) {
        hash_bytes(self.as_bytes(), state);
    }
}

/// What a dictionary finds an entry by. Integers come before texts.
#[derive(Drop)]
#[derive_where(Debug, PartialOrd, Ord)]
pub enum Key<A: Allocator> {
    Int(i64),
    Text(Text<A>),
}

impl<A: Allocator> Key<A> {
    /// Whether the other is the same key.
    pub fn is_same(&self, other: &Self) -> bool
        ensures { IsTrue result ↔ (self.now ≡ other.now) }
    {
        self == other
    }

    /// The same key once more; only a text's asks for memory.
    pub fn copy(&self, alloc: A) -> Result<Key<A>, AllocError>
        ensures { IfOk result (λ copy. copy ≡ self.now) }
    {
        match self {
            Key::Int(number) => Ok(Key::Int(*number)),
            Key::Text(text) => Ok(Key::Text(text.copy(alloc)?)),
        }
    }
}

impl<A: Allocator> PartialEq for Key<A> {
    ghost eq = { same_key };

    ghost laws = { partial_equiv_from_equiv same_key-equiv };

    #[inline(always)]
    fn eq(&self, other: &Self) -> bool {
        match (self, other) {
            (Key::Int(number), Key::Int(other)) => number == other,
            (Key::Text(text), Key::Text(other)) => text == other,
            _ => false,
        }
    }
}

impl<A: Allocator> Eq for Key<A> {
    ghost laws = { same_key-equiv };
}

/// A key is hashed as its number or its text alone. A number and a text that hash alike are told apart by `==`.
impl<A: Allocator> Hash for Key<A> {
    ghost hash_input = { fed_of };

    ghost respects_eq = { same_key-fed };

    #[inline(always)]
    fn hash<H: Hasher>(&self, state: &mut H) {
        match self {
            Key::Int(number) => number.hash(state),
            Key::Text(text) => text.hash(state),
        }
    }
}
