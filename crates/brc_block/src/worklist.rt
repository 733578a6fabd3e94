//! Blocks of dead objects, last pushed first: each link is in its block.

ghost use Rattle.std.specs.Prelude.{◌≡◌, ℕ, ◌+◌, ◌-◌, ◌^◌, ◌<◌, List, [], ◌∷◌, length, min, IfSome, IfNone, IsTrue, IsFalse};
ghost use Rattle.std.specs.Option.{option_copied_mut};
ghost use Rattle.brc_block.specs.Blocks.{front_cell, front_payload, front_entries, most_counted, PopsEntry};

use crate::block::Block;
use crate::payload::Payload;
use std::alloc::Allocator;
use std::marker::Model;
use std::mem;

/// The allocation of a block: the blocks below it, its cell and its payload.
#[cycle(worklist)]
pub(crate) struct Node<A: Allocator> {
    pub(crate) below: Worklist<A>,
    pub(crate) cell: u32,
    pub(crate) payload: Payload<A>,
}

/// A list of blocks, which must be empty at its end.
#[cycle(worklist)]
pub struct Worklist<A: Allocator> {
    top: Option<Box<Node<A>, A>>,
}

impl<A: Allocator> Model for Worklist<A> {
    ghost use Rattle.std.specs.Prelude.{List, ℕ, length};
    ghost use Rattle.brc_block.specs.declared.payload.Payload.{Payload};

    ghost Value = { List (ℕ × Payload A) };

    ghost use Rattle.brc_block.specs.Blocks.{blocks_of};

    ghost view = { λ w. blocks_of w.top };

    ghost size = { length };

    ghost use Rattle.std.proofs.Common.{arith, length-append};

    ghost size_decreases = { λ a h. Prim.grind (arith, length-append) };
}

impl<A: Allocator> Worklist<A> {
    ghost use Rattle.std.specs.Borrow.{sem};
    ghost use Rattle.brc_block.specs.Lending.{lends_front};

    /// No block.
    pub fn new() -> Self
        ensures { result ≡ [] }
    {
        Worklist { top: None }
    }

    #[inline(always)]
    pub fn is_empty(&self) -> bool
        ensures some { IsFalse result → 0 < length self.now }
        ensures none { IsTrue result → self.now ≡ [] }
    {
        self.top.is_none()
    }

    /// How many blocks there are, as far as a `usize` counts; more than memory has room for are not. It goes along all
    /// of them.
    pub fn len(&self) -> usize
        ensures { result ≡ min (length self.now) most_counted }
    {
        let mut passed = 0usize;
        let mut rest = self;
        loop {
            match &rest.top {
                None => return passed,
                Some(node) => {
                    passed = passed.saturating_add(1);
                    rest = &node.below;
                }
            }
        }
    }

    /// The last pushed block is the front.
    #[inline(always)]
    pub fn push(&mut self, block: Block<A>)
        ensures { self.new ≡ block ∷ self.old }
    {
        let mut node = block.into_node();
        let rest = self.take_all();
        node.below.fill(rest);
        self.fill(Worklist { top: Some(node) });
    }

    /// All blocks, in a list of their own.
    #[inline(always)]
    fn take_all(&mut self) -> Self
        ensures taken { result ≡ self.old }
        ensures empty { self.new ≡ [] }
    {
        mem::replace(self, Worklist::new())
    }

    /// The empty list becomes the other.
    #[inline(always)]
    fn fill(&mut self, blocks: Self)
        requires empty { self.old ≡ [] }
        ensures { self.new ≡ blocks }
    {
        let spent = mem::replace(self, blocks);
        spent.end();
    }

    /// Takes the front.
    #[inline(always)]
    pub fn pop(&mut self) -> Option<Block<A>>
        ensures some { IfSome result (λ block. self.old ≡ block ∷ self.new) }
        ensures none { IfNone result (self.old ≡ []) }
        ensures empty { IfNone result (self.new ≡ []) }
    {
        let all = self.take_all();
        let Worklist { top } = all;
        match top {
            None => None,
            Some(node) => {
                let mut node = node;
                let rest = node.below.take_all();
                self.fill(rest);
                let front = Block::from_node(node);
                Some(front)
            }
        }
    }

    /// The cell of the front.
    #[inline(always)]
    pub fn front(&self) -> Option<u32>
        ensures { result ≡ front_cell self.now }
    {
        match &self.top {
            None => None,
            Some(node) => Some(node.cell),
        }
    }

    /// What the front holds, to be changed.
    #[inline(always)]
    pub fn front_mut(&mut self) -> Option<&mut Payload<A>>
        ensures* lends { sem 𝓛 (lends_front A.row A.Allocator self.entry result) }
        ensures value { option_copied_mut result ≡ front_payload self.old }
    {
        match &mut self.top {
            None => None,
            Some(node) => Some(&mut node.payload),
        }
    }

    /// Takes the last entry of the front; None where there is no block or the front has no entries.
    #[inline(always)]
    pub fn pop_entry(&mut self) -> Option<u32>
        ensures popped { IfSome result (PopsEntry self.old self.new) }
        ensures none { IfNone result (front_entries self.old ≡ []) }
        ensures unchanged { IfNone result (self.new ≡ self.old) }
    {
        match self.front_mut() {
            None => None,
            Some(payload) => payload.pop(),
        }
    }

    /// Spends the list, which is empty.
    #[inline(always)]
    pub fn end(self)
        requires empty { self ≡ [] }
    {
        let Worklist { top } = self;
        match top {
            None => {}
            Some(_node) => unreachable!(),
        }
    }
}
