//! What one look at a word of the table tells: whether a state has risen, whether a count is there, whether a queue
//! word is closed.

ghost use Rattle.std.specs.Prelude.{◌≡◌, ◌≢◌, ◌≤◌, ◌<◌, ◌%◌, ◌/◌, ◌+◌, ◌^◌, ◌↔◌, ℤ, pos, ◌<ℤ◌, IsTrue, IsFalse};
ghost use Rattle.brc_words.specs.Shared.{Spells};
ghost use Rattle.brc_words.specs.declared.state.State.TheVariants.{Default, Merged};

use crate::state::State;

/// The shared word of count 0 in default, which a new object has.
pub const NO_COUNT: u64 = 1 << 42;
/// What one reference is worth in a shared word: the two bits below it are the state.
pub const ONE_COUNT: u64 = 4;
/// The state bits of a shared word that is queued: an ask sets them, and an offer.
pub const QUEUED_BITS: u64 = 2;
/// The state bits of a shared word that is merged.
pub const MERGED_BITS: u64 = 3;
/// The bit that closes a queue word. Each of the 32 lowest bits is the entry of a cell.
pub const CLOSED_BIT: u64 = 1 << 63;

/// Whether the word's state is queued or merged.
#[inline(always)]
pub fn is_risen_word(word: u64) -> bool
    ensures risen { IsTrue result → word % 4 ≢ 0 }
    ensures default { IsFalse result → word % 4 ≡ 0 }
    ensures spelled { (count : ℤ) (state : State) → Spells word count state → (IsTrue result ↔ (state ≢ Default)) }
{
    word % ONE_COUNT != 0
}

/// Whether the word's state is merged.
#[inline(always)]
pub fn is_merged_word(word: u64) -> bool
    ensures merged { IsTrue result → word % 4 ≡ 3 }
    ensures unmerged { IsFalse result → word % 4 ≢ 3 }
    ensures spelled { (count : ℤ) (state : State) → Spells word count state → (IsTrue result ↔ (state ≡ Merged)) }
{
    word % ONE_COUNT == MERGED_BITS
}

/// Whether a word in default has a count above 0.
#[inline(always)]
pub fn has_count(word: u64) -> bool
    ensures some { IsTrue result → 2 ^ 42 + 4 ≤ word }
    ensures none { IsFalse result → word < 2 ^ 42 + 4 }
    ensures spelled { (count : ℤ) → Spells word count Default → (IsTrue result ↔ (pos 0 <ℤ count)) }
{
    NO_COUNT + ONE_COUNT <= word
}

/// Whether the queue word is closed: it takes no entry.
#[inline(always)]
pub fn is_closed_word(word: u64) -> bool
    ensures closed { IsTrue result → 2 ^ 63 ≤ word }
    ensures open { IsFalse result → word < 2 ^ 63 }
{
    CLOSED_BIT <= word
}
