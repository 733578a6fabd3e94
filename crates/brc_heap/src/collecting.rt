//! What the blocks of a heap that was taken apart show, collected as they are given back.

ghost use Rattle.std.specs.Prelude.{◌≡◌, ◌++◌, IfOk, IfSome, IsSomeAnd};
ghost use Rattle.brc_heap.specs.Contents.{content_in, shown_in, contents_in};
ghost use Rattle.brc_thread.specs.Emptied.{blocks_in};

use brc_count::block::Block;
use brc_count::table::Rest;
use brc_report::{Cells, Content};
use brc_words::GLOBALS;
use std::alloc::{AllocError, Allocator};

/// What a block shows: its cell, its kind and its entries.
fn content_of<A: Allocator>(alloc: A, block: &Block<A>) -> Result<Content<A>, AllocError>
    ensures { IfOk result (λ content. content ≡ content_in block.now) }
{
    let payload = block.payload();
    let mut entries = Vec::new(alloc);
    for index in 0..payload.len() {
        match payload.entry(index) {
            Some(cell) => entries.push(cell)?,
            None => unreachable!(),
        }
    }
    Ok(Content {
        cell: block.cell(),
        kind: payload.kind(),
        entries: Cells::new(entries),
    })
}

/// The contents found so far, and what one block more shows: that of the globals, or of a mortal object. Once memory
/// was missing they are lost.
fn with_block<A: Allocator + Copy>(
    alloc: A,
    found: Option<Vec<Content<A>, A>>,
    block: &Block<A>,
) -> Option<Vec<Content<A>, A>>
    ensures { IfSome result (λ after. IsSomeAnd found (λ before. after.items ≡ before.items ++ shown_in block.now)) }
{
    let mut contents = found?;
    if block.cell() < GLOBALS {
        return Some(contents);
    }
    let Ok(content) = content_of(alloc, block) else {
        return None;
    };
    match contents.push(content) {
        Ok(()) => Some(contents),
        Err(_refused) => None,
    }
}

/// A block's memory is given back, with what it holds.
fn give_one<A: Allocator>(block: Block<A>) {
    let _payload = block.into_payload();
}

/// Gives all blocks back, and answers what they showed; None where memory for it was missing.
pub(crate) fn collect<A: Allocator + Copy>(alloc: A, rest: Rest<A>) -> Option<Vec<Content<A>, A>>
    ensures { IfSome result (λ contents. contents.items ≡ contents_in (blocks_in rest)) }
{
    let mut found = Some(Vec::new(alloc));
    let mut rest = rest;
    while let Some((block, later)) = rest.next() {
        found = with_block(alloc, found, &block);
        give_one(block);
        rest = later;
    }
    found
}
