//! What a block of the globals holds, as the worked runs look at it.

ghost use Rattle.std.specs.Prelude.{◌≡◌, ◌↔◌, IsTrue, Some, slice_get};
ghost use Rattle.brc_words.specs.Notes.{bare};
ghost use Rattle.brc_words.specs.declared.key.Key.TheVariants as keys;
ghost use Rattle.brc_table.specs.Shown.{contents_of};
ghost use Rattle.test_table.specs.Parts.{bare_globals, with_entry, with_entries, globals_with};

use crate::holding::Held;
use brc_block::{Block, Pairs, Payload};
use brc_words::{Entry, Key};
use std::alloc::Allocator;

/// Whether the block is of a dictionary without entries.
pub(crate) fn is_bare<A: Allocator>(block: &Block<A>) -> bool
    ensures { IsTrue result ↔ contents_of block.now.1 ≡ bare_globals }
{
    match block.payload() {
        Payload::Dict(pairs) => pairs.len() == 0,
        _ => false,
    }
}

/// Whether this key and this cell stand at the place, with nothing noted.
fn has_at<A: Allocator>(pairs: &Pairs<A>, index: usize, key: i64, cell: u32) -> bool
    ensures { IsTrue result → slice_get pairs.now.items index ≡ Some (keys.Int key, bare cell) }
{
    match pairs.pair(index) {
        Some((Key::Int(there), entry)) => *there == key && entry == Entry::bare(cell),
        _ => false,
    }
}

/// Whether it is of one whose only entry has this key, and this cell.
#[tactic(auto, using(crate::proofs::FewPairs::shows_one))]
pub(crate) fn has_one<A: Allocator>(block: &Block<A>, key: i64, cell: u32) -> bool
    ensures { IsTrue result → contents_of block.now.1 ≡ with_entry key cell }
{
    match block.payload() {
        Payload::Dict(pairs) => pairs.len() == 1 && has_at(pairs, 0, key, cell),
        _ => false,
    }
}

/// Whether it is of one with two entries, of the keys 1 and 2, which both have this cell.
#[tactic(auto, using(crate::proofs::FewPairs::shows_two))]
pub(crate) fn has_two<A: Allocator>(block: &Block<A>, cell: u32) -> bool
    ensures { IsTrue result → contents_of block.now.1 ≡ with_entries cell }
{
    match block.payload() {
        Payload::Dict(pairs) => {
            pairs.len() == 2 && has_at(pairs, 0, 1, cell) && has_at(pairs, 1, 2, cell)
        }
        _ => false,
    }
}

/// Whether it is of a dictionary that holds these.
pub(crate) fn shows<A: Allocator>(block: &Block<A>, held: Held) -> bool
    ensures { IsTrue result → contents_of block.now.1 ≡ globals_with held }
{
    match held {
        Held::Nothing => is_bare(block),
        Held::One { key, cell } => has_one(block, key, cell),
        Held::Two { cell } => has_two(block, cell),
    }
}
