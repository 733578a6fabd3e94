//! What a report is made of: cells with their contents, and what remains.

ghost use Rattle.std.specs.Prelude.{◌≡◌, nat_eq};
ghost use Rattle.std.specs.Cmp.{partial_equiv_from_equiv};
ghost use Rattle.std.specs.Cmp.Lexicographic.{pointwise};
ghost use Rattle.std.proofs.lemmas.Cmp.{nat_list_eq_equiv};

use brc_words::Kind;
use std::alloc::Allocator;
use std::marker::Model;

/// Cells in their order.
#[derive(Drop)]
pub struct Cells<A: Allocator> {
    list: Vec<u32, A>,
}

impl<A: Allocator> Model for Cells<A> {
    ghost use Rattle.std.specs.Prelude.{List, ℕ};

    ghost Value = { List ℕ };

    ghost view = { λ c. c.list.items };
}

impl<A: Allocator> Cells<A> {
    pub fn new(list: Vec<u32, A>) -> Self
        ensures { result ≡ list.items }
    {
        Cells { list }
    }

    pub fn as_slice(&self) -> &[u32]
        ensures { result.now ≡ self.now }
    {
        self.list.as_slice()
    }
}

impl<A: Allocator> PartialEq for Cells<A> {
    ghost eq = { pointwise nat_eq };

    ghost laws = { partial_equiv_from_equiv nat_list_eq_equiv };

    fn eq(&self, other: &Self) -> bool {
        self.as_slice() == other.as_slice()
    }
}

impl<A: Allocator> Eq for Cells<A> {
    ghost laws = { nat_list_eq_equiv };
}

/// What a live cell held as the heap was closed.
#[derive(Drop)]
pub struct Content<A: Allocator> {
    pub cell: u32,
    pub kind: Kind,
    pub entries: Cells<A>,
}

/// An object that was still alive, and the lowest cell that held it.
#[derive(Clone, Copy, Debug, PartialEq, Eq)]
pub struct Remain {
    pub cell: u32,
    pub kind: Kind,
    pub held_by: u32,
}
