//! How a heap ends.

ghost use Rattle.std.specs.Prelude.{◌≡◌};
ghost use Rattle.brc_thread.specs.Ending.{IsLastState};

use crate::heap::Heap;
use crate::root::Root;
use brc_count::block::Block;
use brc_count::table::Rest;
use std::alloc::Allocator;

/// Ends a heap that no thread shares any more. What is left is its blocks, to be given back one by one, by rising cell.
/// The heap's last state is the world of one run of all that its threads did: there counts are references, and births
/// less frees are the live objects (PEP 703, "Biased Reference Counting"; PACT 2018). The root's part of it is its log,
/// with what each thread that it gathered did, and what it counts for a number is the ledger that `Retired` answers of
/// the number's last thread. Where all threads were gathered, the blocks are those of the objects that live and of the
/// immortals, each with what was put home there last.
pub fn take_apart<A: Allocator>(heap: Heap<A>, root: Root<A>) -> Rest<A>
    requires heap { root.table ≡ heap.table }
    ensures ended { IsLastState heap.cells heap.local_limit root.id root.view result }
{
    let Heap { table } = heap;
    let Root {
        seat,
        registered: _registered,
        gathered: _gathered,
        ledger: _ledger,
    } = root;
    table.take_apart(seat)
}

/// A block's memory is given back, with what it holds.
fn give_one<A: Allocator>(block: Block<A>) {
    let _payload = block.into_payload();
}

/// Gives back all that a heap left, block by block.
#[tactic(auto, using(crate::proofs::At_Home::fewer_left))]
pub fn give_back<A: Allocator>(rest: Rest<A>) {
    let mut rest = rest;
    while let Some((block, later)) = rest.next() {
        give_one(block);
        rest = later;
    }
}
