//! The rule of the table, at its sizes.

use atomic_table::TableRule;
use brc_block::Block;
use law::rule::View;
use std::alloc::Allocator;
use std::marker::PhantomData;

/// How many cells the heap has, and how far an owner counts on its own.
#[derive(Clone, Copy, Debug, PartialEq, Eq)]
pub struct Sizes {
    pub cells: u32,
    pub local_limit: u32,
}

/// What stands in the table is the world of one run.
pub struct HeapRule<A> {
    marker: PhantomData<A>,
}

impl<A: Allocator> TableRule<Option<Block<A>>, View, Sizes> for HeapRule<A> {
    ghost use Rattle.law.specs.rule.Rule.{Kept};
    ghost use Rattle.law.specs.rule.Opening.{first_view};
    ghost use Rattle.brc_table.specs.Shown.{shows};

    ghost holds = { λ key. Kept shows key.cells key.local_limit };

    ghost first = { λ _. first_view };
}
