//! One block: an allocation of its own with a link, a cell number and a payload.

ghost use Rattle.std.specs.Prelude.{◌≡◌, ℕ, [], IfOk, IfErr};
ghost use Rattle.brc_words.specs.declared.fault.Fault.TheVariants as fault;

use crate::payload::Payload;
use crate::worklist::{Node, Worklist};
use brc_words::Fault;
use std::alloc::{AllocFailed, Allocator};
use std::marker::Model;

/// The memory of one object, which must be given back.
pub struct Block<A: Allocator> {
    node: Box<Node<A>, A>,
}

impl<A: Allocator> Model for Block<A> {
    ghost use Rattle.std.specs.Prelude.{◌≡◌, ℕ, []};
    ghost use Rattle.brc_block.specs.declared.payload.Payload.{Payload};

    ghost Value = { ℕ × Payload A };

    ghost view = { λ b. (b.node.value.cell, b.node.value.payload) };

    ghost invariant = { λ b. b.node.value.below ≡ [] };
}

impl<A: Allocator> Block<A> {
    ghost use Rattle.std.specs.Borrow.{sem};
    ghost use Rattle.brc_block.specs.Lending.{lends_payload};

    /// A block of the cell with the payload, or the payload back.
    #[inline(always)]
    pub fn new(alloc: A, cell: u32, payload: Payload<A>) -> Result<Self, (Fault, Payload<A>)>
        ensures made { IfOk result (λ block. block ≡ (cell, payload)) }
        ensures refused { IfErr result (λ back. back ≡ (fault.OutOfMemory, payload)) }
    {
        let node = Node {
            below: Worklist::new(),
            cell,
            payload,
        };
        match Box::new(alloc, node) {
            Ok(node) => Ok(Block { node }),
            Err(failed) => {
                let AllocFailed { value: node, .. } = failed;
                let Node {
                    below,
                    cell: _cell,
                    payload,
                } = node;
                below.end();
                Err((Fault::OutOfMemory, payload))
            }
        }
    }

    /// The cell that the block is of.
    #[inline(always)]
    pub fn cell(&self) -> u32
        ensures { result ≡ self.now.0 }
    {
        self.node.cell
    }

    /// The block is of another cell; its payload stays.
    #[inline(always)]
    pub fn set_cell(&mut self, cell: u32)
        ensures { self.new ≡ (cell, self.old.1) }
    {
        self.node.cell = cell;
    }

    /// What the block holds.
    #[inline(always)]
    pub fn payload(&self) -> &Payload<A>
        ensures { result.now ≡ self.now.1 }
    {
        &self.node.payload
    }

    /// What the block holds, to be changed.
    #[inline(always)]
    pub fn payload_mut(&mut self) -> &mut Payload<A>
        ensures* lends { sem 𝓛 (lends_payload A.row A.Allocator self.entry result) }
        ensures value { result.now ≡ self.old.1 }
    {
        &mut self.node.payload
    }

    /// The payload; the memory of the block is given back.
    #[inline(always)]
    pub fn into_payload(self) -> Payload<A>
        ensures { result ≡ self.1 }
    {
        let Block { node } = self;
        let node = Box::into_inner(node);
        let Node {
            below,
            cell: _cell,
            payload,
        } = node;
        below.end();
        payload
    }

    /// The allocation alone, with nothing below it.
    #[inline(always)]
    pub(crate) fn into_node(self) -> Box<Node<A>, A>
        ensures cell { result.value.cell ≡ self.0 }
        ensures payload { result.value.payload ≡ self.1 }
        ensures alone { result.value.below ≡ [] }
    {
        let Block { node } = self;
        node
    }

    /// The allocation as a block, where nothing is below it.
    #[inline(always)]
    pub(crate) fn from_node(node: Box<Node<A>, A>) -> Self
        requires alone { node.value.below ≡ [] }
        ensures { result ≡ (node.value.cell, node.value.payload) }
    {
        Block { node }
    }
}
