//! Where the words lie.

ghost use Rattle.std.specs.Prelude.{◌-◌, ◌^◌, ◌≡◌, ◌==◌, ◌<◌, ◌≤◌};
ghost use Rattle.std.specs.Int.{bit_at};
ghost use Rattle.brc_words.specs.declared.limits.TheConstants.{MOST_CELLS};
ghost use Rattle.law.specs.world.Lists.{WORD_LIMIT};
ghost use Rattle.law.specs.world.Heap.{words_for as queue_words};
ghost use Rattle.law.specs.known.Free_Words.{free_words_for as free_words};
ghost use Rattle.law.specs.known.Items.{IsWord};
ghost use Rattle.law.specs.rule.Layout.{queues_from as queues_begin, extent as extent_of};
ghost use Rattle.law.specs.rule.Layout.{spot};

use law::known::{Field, Word};
use law::world::words_for;

/// The first notify word: before it is room for the free words of the largest heap.
const NOTIFY_FROM: usize = 1_024;

/// The first of the counts.
pub(crate) const COUNTS_FROM: usize = 1_544;

/// How many free words the table has.
#[inline(always)]
pub(crate) fn free_words_for(cells: u32) -> u32
    requires { cells ≤ MOST_CELLS }
    ensures { result ≡ free_words cells }
{
    // (two instructions, where `div_ceil` takes six: each claim asks)
    (cells + 63) / 64
}

/// The first word after the counts.
#[inline(always)]
fn queues_from(cells: u32) -> usize
    requires { cells ≤ MOST_CELLS }
    ensures { result ≡ queues_begin cells }
{
    COUNTS_FROM + cells as usize * 8
}

/// How many words the table has.
pub(crate) fn extent(cells: u32) -> usize
    requires { cells ≤ MOST_CELLS }
    ensures { result ≡ extent_of cells }
{
    queues_from(cells) + words_for(cells as usize).div_ceil(32) * 65 * 32
}

/// Where a word lies.
#[inline(always)]
pub(crate) fn spot_of(cells: u32, word: Word) -> usize
    requires few { cells ≤ MOST_CELLS }
    requires inside { IsWord cells word }
    ensures { result ≡ spot cells word }
{
    match word {
        Word::Of(Field::Local, _cell) => 0,
        Word::Of(Field::Shared, cell) => COUNTS_FROM + cell as usize * 8,
        Word::Of(Field::Mutex, cell) => COUNTS_FROM + cell as usize * 8 + 1,
        Word::Of(Field::Owner, cell) => COUNTS_FROM + cell as usize * 8 + 2,
        Word::Queue(thread, k) => {
            let (thread, k) = (thread as usize, k as usize);
            queues_from(cells) + (k / 32 * 65 + thread) * 32 + k % 32
        }
        Word::NotifyWord(thread) => NOTIFY_FROM + thread as usize * 8,
        Word::FreeWord(k) => k as usize,
    }
}

/// The number with this bit alone.
#[inline(always)]
pub(crate) fn bit(at: u32) -> u64
    requires { at < 64 }
    ensures { result ≡ 2 ^ at }
{
    1 << at
}

/// The number with all bits but this one.
#[inline(always)]
pub(crate) fn all_but(at: u32) -> u64
    requires { at < 64 }
    ensures { result ≡ WORD_LIMIT - 1 - 2 ^ at }
{
    u64::MAX - bit(at)
}

/// Whether the number has this bit.
#[inline(always)]
pub(crate) fn has_bit(number: u64, at: u32) -> bool
    requires { at < 64 }
    ensures { result ≡ (bit_at number at == 1) }
{
    (number >> at) & 1 == 1
}
