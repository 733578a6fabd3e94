//! Values in a row.

ghost use Rattle.std.specs.Prelude.{◌≡◌, ◌++◌, [], ◌∷◌, length, IfOk, IfErr};
ghost use Rattle.brc_words.specs.declared.fault.Fault.TheVariants.{OutOfMemory};

use brc_words::Fault;
use std::alloc::Allocator;
use std::marker::Model;

/// Values in their order, seen as their list.
#[derive(Drop)]
pub struct Sequence<T: Drop, A: Allocator> {
    items: Vec<T, A>,
}

impl<T: Drop, A: Allocator> Model for Sequence<T, A> {
    ghost use Rattle.std.specs.Prelude.{List};

    ghost Value = { List T };

    ghost view = { λ s. s.items.items };
}

impl<T: Drop, A: Allocator> Sequence<T, A> {
    pub fn new(items: Vec<T, A>) -> Self
        ensures { result ≡ items.items }
    {
        Sequence { items }
    }

    /// No values, and no memory.
    pub fn empty(alloc: A) -> Self
        ensures { result ≡ [] }
    {
        Sequence {
            items: Vec::new(alloc),
        }
    }

    /// One more, at the end.
    pub fn with(self, item: T) -> Result<Self, Fault>
        ensures all { IfOk result (λ items. items ≡ self ++ item ∷ []) }
        ensures refused { IfErr result (λ fault. fault ≡ OutOfMemory) }
    {
        let mut items = self.items;
        items.push(item)?;
        Ok(Sequence { items })
    }

    pub fn len(&self) -> usize
        ensures { result ≡ length self.now }
    {
        self.items.len()
    }

    pub fn as_slice(&self) -> &[T]
        ensures { result.now ≡ self.now }
    {
        self.items.as_slice()
    }
}
