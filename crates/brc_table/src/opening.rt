//! What a table opens with: its words and its blocks.

ghost use Rattle.std.specs.Prelude.{◌≡◌, ◌↔◌, ◌-◌, ◌*◌, ◌^◌, ◌<◌, ◌≤◌, map, IfOk, IfErr, IsTrue};
ghost use Rattle.brc_words.specs.declared.fault.Fault.TheVariants as fault;
ghost use Rattle.brc_words.specs.declared.limits.TheConstants.{FIRST_MORTAL, MOST_CELLS};
ghost use Rattle.law.specs.world.Heap.{AreOptions};
ghost use Rattle.law.specs.known.Free_Words.{free_words_for};
ghost use Rattle.law.specs.rule.Layout.{extent as extent_of};
ghost use Rattle.law.specs.rule.Logs.{opening_contents};
ghost use Rattle.brc_table.specs.Opening.{bits_below, opening_free, opening_words};
ghost use Rattle.brc_table.specs.Opening.{slot_shows, opening_slot, opening_slots};
ghost use Rattle.brc_table.specs.Shown.{contents_of};

use crate::layout::{COUNTS_FROM, bit, extent, free_words_for as free_words};
use brc_block::{Block, Pairs, Payload};
use brc_words::{FEWEST_CELLS, FIRST_MORTAL, Fault, GLOBALS, MOST_CELLS, MOST_LOCAL, NO_COUNT};
use std::alloc::{AllocError, AllocFailed, Allocator};

/// Whether a heap may have these sizes.
pub(crate) fn are_options(cells: u32, local_limit: u32) -> bool
    ensures { IsTrue result ↔ AreOptions cells local_limit }
{
    FEWEST_CELLS <= cells && cells <= MOST_CELLS && 1 <= local_limit && local_limit <= MOST_LOCAL
}

/// How many bits of a free word stand for cells below this one.
fn bits_below(cell: u32, word: u32) -> u32
    requires { word * 64 < 2 ^ 32 }
    ensures { result ≡ bits_below cell word }
{
    cell.saturating_sub(word * 64).min(64)
}

/// The number whose so many lowest bits are 1, and no other.
fn ones(bits: u32) -> u64
    requires { bits ≤ 64 }
    ensures { result ≡ 2 ^ bits - 1 }
{
    if bits == 64 { u64::MAX } else { bit(bits) - 1 }
}

/// A free word.
fn opening_free(cells: u32, word: u32) -> u64
    requires few { cells ≤ MOST_CELLS }
    requires some { FIRST_MORTAL ≤ cells }
    requires inside { word < free_words_for cells }
    ensures { result ≡ opening_free cells word }
{
    ones(bits_below(cells, word)) - ones(bits_below(FIRST_MORTAL, word))
}

#[tactic(auto, using(crate::proofs::Laying::nothing_laid, crate::proofs::Laying::one_word_more, crate::proofs::Laying::all_free, crate::proofs::Laying::one_cell_more, crate::proofs::Laying::all_laid, crate::proofs::Laying::cell_inside, crate::proofs::Laying::free_inside))]
/// All words. Most are 0, so they are filled at once; what isn't 0 is stored after that.
pub(crate) fn opening_words<A: Allocator>(alloc: A, cells: u32) -> Result<Vec<u64, A>, AllocError>
    requires few { cells ≤ MOST_CELLS }
    requires some { FIRST_MORTAL ≤ cells }
    ensures { IfOk result (λ made. made.items ≡ opening_words cells (extent_of cells)) }
{
    let mut made = Vec::new(alloc);
    made.resize(extent(cells), 0)?;
    for word in 0..free_words(cells) {
        made[word as usize] = opening_free(cells, word);
    }
    for cell in 0..cells {
        made[COUNTS_FROM + cell as usize * 8] = NO_COUNT;
    }
    Ok(made)
}

/// What an immortal is.
fn opening_payload<A: Allocator>(alloc: A, cell: u32) -> Payload<A>
    requires { cell < FIRST_MORTAL }
    ensures { contents_of result ≡ opening_contents cell }
{
    if cell == 0 {
        Payload::Nothing
    } else if cell == 1 {
        Payload::Truth(false)
    } else if cell == 2 {
        Payload::Truth(true)
    } else if cell == GLOBALS {
        Payload::Dict(Pairs::new(alloc))
    } else {
        Payload::Int(i64::from(cell) - 8)
    }
}

/// The slot of a cell.
fn opening_slot<A: Allocator + Copy>(alloc: A, cell: u32) -> Result<Option<Block<A>>, Fault>
    ensures made { IfOk result (λ made. slot_shows made ≡ opening_slot cell) }
    ensures refused { IfErr result (λ told. told ≡ fault.OutOfMemory) }
{
    if cell >= FIRST_MORTAL {
        return Ok(None);
    }
    match Block::new(alloc, cell, opening_payload(alloc, cell)) {
        Ok(block) => Ok(Some(block)),
        Err((fault, _payload)) => Err(fault),
    }
}

/// Gives a block's memory back.
fn give_back<A: Allocator>(slot: Option<Block<A>>) {
    match slot {
        None => {}
        Some(block) => {
            let _payload = block.into_payload();
        }
    }
}

/// Gives all blocks' memory back.
pub(crate) fn give_all_back<A: Allocator, B: Allocator>(slots: Vec<Option<Block<A>>, B>) {
    let mut slots = slots;
    while let Some(slot) = slots.pop() {
        give_back(slot);
    }
    slots.destroy_empty();
}

/// All slots. A refused growth gives back what was made.
pub(crate) fn opening_slots<A: Allocator + Copy>(
    alloc: A,
    cells: u32,
) -> Result<Vec<Option<Block<A>>, A>, Fault>
    ensures made { IfOk result (λ made. map slot_shows made.items ≡ opening_slots cells) }
    ensures refused { IfErr result (λ told. told ≡ fault.OutOfMemory) }
{
    let mut made = Vec::with_capacity(alloc, cells as usize)?;
    for cell in 0..cells {
        match opening_slot(alloc, cell) {
            Ok(slot) => {
                if let Err(failed) = made.push(slot) {
                    let AllocFailed { value, .. } = failed;
                    give_back(value);
                    give_all_back(made);
                    return Err(Fault::OutOfMemory);
                }
            }
            Err(fault) => {
                give_all_back(made);
                return Err(fault);
            }
        }
    }
    Ok(made)
}
