//! The owned bits, one for each cell of the heap: they are set at a birth, and cleared where the object is nobody's by
//! now or its cell is given back. So the cells that a thread counts are found without a look at all counts.

ghost use Rattle.std.specs.Prelude.{◌≡◌, ◌≢◌, ◌<◌, ◌≤◌, ◌/◌, ◌%◌, ◌^◌, ◌==◌, ℕ, length, replicate, slice_index, IfOk, IsTrue, IsFalse};
ghost use Rattle.std.specs.Prelude.{IfSome, IfNone};
ghost use Rattle.std.specs.Int.{bit_at};
ghost use Rattle.brc_words.specs.declared.limits.TheConstants.{FIRST_MORTAL};
ghost use Rattle.brc_table.specs.law.world.Heap.{words_for};
ghost use Rattle.brc_table.specs.law.world.Lists.{bit_of, word_at, with_bit, without_bit};
ghost use Rattle.brc_table.specs.law.rule.Seen.{counts_seen};

use crate::counter::Counter;
use crate::home::HasTable;
use std::alloc::{AllocError, Allocator};

/// The bits of a thread that owns nothing.
pub fn no_bits<A: Allocator>(alloc: A, cells: u32) -> Result<Vec<u64, A>, AllocError>
    ensures { IfOk result (λ words. words.items ≡ replicate (words_for cells) 0) }
{
    let mut words = Vec::new(alloc);
    words.resize(cells.div_ceil(32) as usize, 0)?;
    Ok(words)
}

/// The cell's bit is set.
#[inline(always)]
pub(crate) fn mark_owned<A: Allocator>(words: &mut Vec<u64, A>, cell: u32)
    requires inside { cell / 32 < length words.old.items }
    ensures { words.new.items ≡ with_bit words.old.items cell }
{
    let at = (cell / 32) as usize;
    words[at] = words[at] | (1 << (cell % 32));
}

/// The word that has the cell's bit.
#[inline(always)]
fn word_of<A: Allocator>(words: &Vec<u64, A>, cell: u32) -> u64
    requires inside { cell / 32 < length words.now.items }
    ensures { result ≡ word_at words.now.items (cell / 32) }
{
    words[(cell / 32) as usize]
}

/// The bits of that word from the cell's own one on.
#[inline(always)]
fn bits_from<A: Allocator>(words: &Vec<u64, A>, cell: u32) -> u64
    requires inside { cell / 32 < length words.now.items }
    ensures { result ≡ word_at words.now.items (cell / 32) / 2 ^ (cell % 32) }
{
    word_of(words, cell) >> (cell % 32)
}

/// The cell's bit is cleared; it was set.
#[inline(always)]
pub fn strike<A: Allocator>(words: &mut Vec<u64, A>, cell: u32)
    requires inside { cell / 32 < length words.old.items }
    ensures { words.new.items ≡ without_bit words.old.items cell }
{
    let at = (cell / 32) as usize;
    words[at] = words[at] ^ (1 << (cell % 32));
}

/// The bits of a word without one of the lower 32. A mask costs less than a look at the bit.
#[inline(always)]
fn without(bits: u64, at: u32) -> u64
    requires low { at < 32 }
    ensures others { (i : ℕ) → i < 32 → i ≢ at → bit_at result i ≡ bit_at bits i }
{
    bits & !(1 << at)
}

/// The cell's bit is cleared, whether it was set or not.
#[inline(always)]
pub(crate) fn clear_owned<A: Allocator>(words: &mut Vec<u64, A>, cell: u32)
    requires inside { cell / 32 < length words.old.items }
    ensures wide { length words.new.items ≡ length words.old.items }
    ensures others { (c : ℕ) → c ≢ cell → bit_of words.new.items c ≡ bit_of words.old.items c }
{
    let rest = without(word_of(words, cell), cell % 32);
    words[(cell / 32) as usize] = rest;
}

impl<H: HasTable<A>, A: Allocator> Counter<H, A> {
    #[tactic(auto, using(crate::proofs::Owning::none_in_word))]
    /// The first cell at or after one that the thread counts, if there is one.
    pub fn next_owned(&self, from: u32) -> Option<u32>
        requires mortal { FIRST_MORTAL ≤ from }
        ensures some { IfSome result (λ cell. (from ≤ cell) × (FIRST_MORTAL ≤ cell) × (cell < self.now.heap.cells)
            × (0 < counts_seen self.now.heap.cells self.now.seat.log cell)) }
        ensures first { IfSome result (λ cell. (c : ℕ) → from ≤ c → c < cell → FIRST_MORTAL ≤ c
            → c < self.now.heap.cells → counts_seen self.now.heap.cells self.now.seat.log c ≡ 0) }
        ensures none { IfNone result ((c : ℕ) → from ≤ c → FIRST_MORTAL ≤ c → c < self.now.heap.cells
            → counts_seen self.now.heap.cells self.now.seat.log c ≡ 0) }
    {
        let cells = self.heap.table().cells();
        let mut cell = from;
        while cell < cells {
            if bits_from(&self.owned, cell) == 0 {
                cell = (cell / 32 + 1) * 32;
            } else if self.counts[cell as usize] > 0 {
                return Some(cell);
            } else {
                cell += 1;
            }
        }
        None
    }
}
