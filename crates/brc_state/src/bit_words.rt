//! Words of bits, each for 32 cells: of each thread its merge queue, and what it has popped.

ghost use Rattle.std.specs.Prelude.{◌≡◌, ◌==◌, ◌^◌, ◌%◌, ◌<◌, replicate, slice_set, bit_or, IfOk};
ghost use Rattle.law.specs.world.Lists.{bit_of, word_at, with_bit, without_bit, is_blank};
ghost use Rattle.law.specs.world.Steps.{queues_with};
ghost use Rattle.brc_state.specs.Effects.{popped_without, popped_with, queues_without};

use std::alloc::{AllocError, Allocator};
use std::marker::Model;

/// The words, as a list.
#[derive(Drop)]
pub(crate) struct WordNumbers<A: Allocator> {
    words: Vec<u64, A>,
}

impl<A: Allocator> Model for WordNumbers<A> {
    ghost use Rattle.std.specs.Prelude.{ℕ, List};

    ghost Value = { List ℕ };

    ghost view = { λ w. w.words.items };
}

/// The word with this bit alone.
pub(crate) fn only_bit(bit: u32) -> u64
    requires { bit < 64 }

    ensures { result ≡ 2 ^ bit }
{
    1 << bit
}

impl<A: Allocator> WordNumbers<A> {
    /// So many words without a bit.
    pub(crate) fn zeros(alloc: A, count: usize) -> Result<Self, AllocError>
        ensures { IfOk result (λ made. made ≡ replicate count 0) }
    {
        let mut words = Vec::new(alloc);
        words.resize(count, 0)?;
        Ok(WordNumbers { words })
    }

    /// Whether the cell's bit is set.
    pub(crate) fn has(&self, cell: u32) -> bool
        ensures { result ≡ (bit_of self.now cell == 1) }
    {
        let word = self.words.get((cell / 32) as usize).copied().unwrap_or(0);
        (word >> (cell % 32)) % 2 == 1
    }

    /// One word.
    pub(crate) fn word(&self, index: u32) -> u64
        ensures { result ≡ word_at self.now index }
    {
        self.words.get(index as usize).copied().unwrap_or(0)
    }

    /// Whether no bit is set. It looks at every word.
    pub(crate) fn is_blank(&self) -> bool
        ensures { result ≡ is_blank self.now }
    {
        self.words
            .as_slice()
            .iter()
            .filter(|word| **word != 0)
            .count()
            == 0
    }

    /// A word gets these bits besides.
    pub(crate) fn add(&mut self, index: u32, bits: u64)
        ensures { self.new ≡ slice_set self.old index (bit_or (word_at self.old index) bits) }
    {
        if let Some(word) = self.words.get_mut(index as usize) {
            *word |= bits;
        }
    }

    /// A word loses all its bits.
    pub(crate) fn empty(&mut self, index: u32)
        ensures { self.new ≡ slice_set self.old index 0 }
    {
        if let Some(word) = self.words.get_mut(index as usize) {
            *word = 0;
        }
    }

    /// The cell's bit is set.
    pub(crate) fn set_bit(&mut self, cell: u32)
        ensures { self.new ≡ with_bit self.old cell }
    {
        self.add(cell / 32, only_bit(cell % 32));
    }

    /// The cell's bit, which is set, is cleared.
    pub(crate) fn clear_bit(&mut self, cell: u32)
        ensures { self.new ≡ without_bit self.old cell }
    {
        if let Some(word) = self.words.get_mut((cell / 32) as usize) {
            *word ^= only_bit(cell % 32);
        }
    }
}

// ---- one thread's words among all

/// A popped entry of the thread is dealt with.
#[inline(always)]
pub(crate) fn settle<A: Allocator>(
    popped: &mut Vec<WordNumbers<A>, A>,
    thread: u32,
    settled: Option<u32>,
)
    ensures { popped.new.items ≡ popped_without thread settled popped.old.items }
{
    let Some(cell) = settled else {
        return;
    };
    if let Some(words) = popped.get_mut(thread as usize) {
        words.clear_bit(cell);
    }
}

/// The thread's merge queue gets the cell's bit, unless the word of it is shut.
#[inline(always)]
pub(crate) fn enqueue<A: Allocator>(
    queues: &mut Vec<WordNumbers<A>, A>,
    enqueues: bool,
    shut: bool,
    thread: u32,
    cell: u32,
)
    ensures { queues.new.items ≡ queues_with enqueues shut thread cell queues.old.items }
{
    if enqueues && !shut {
        if let Some(words) = queues.get_mut(thread as usize) {
            words.set_bit(cell);
        }
    }
}

/// The bits of a word of the thread's merge queue are popped besides.
pub(crate) fn pop_drained<A: Allocator>(
    popped: &mut Vec<WordNumbers<A>, A>,
    queues: &Vec<WordNumbers<A>, A>,
    thread: u32,
    taken: Option<u32>,
)
    ensures { popped.new.items ≡ popped_with thread taken queues.now.items popped.old.items }
{
    let Some(index) = taken else {
        return;
    };
    let bits = match queues.get(thread as usize) {
        Some(queue) => queue.word(index),
        None => 0,
    };
    if let Some(words) = popped.get_mut(thread as usize) {
        words.add(index, bits);
    }
}

/// A word of the thread's merge queue becomes empty.
pub(crate) fn empty_drained<A: Allocator>(
    queues: &mut Vec<WordNumbers<A>, A>,
    thread: u32,
    taken: Option<u32>,
)
    ensures { queues.new.items ≡ queues_without thread taken queues.old.items }
{
    let Some(index) = taken else {
        return;
    };
    if let Some(words) = queues.get_mut(thread as usize) {
        words.empty(index);
    }
}
