//! The opening that is nearest to a word that is none.

ghost use Rattle.std.specs.Prelude.{◌≡◌, ◌<◌, true, length, drop};
ghost use Rattle.brc_mistakes.specs.Nearness.{begin_alike, apart, within_one, within_two};
ghost use Rattle.brc_mistakes.specs.Nearness.{nearest_by_one, nearest_by_two, nearest_to};

use crate::line_opening::{OPENINGS, Opening};

/// Whether both words begin, and with the same byte.
#[tactic(auto, unfolding(crate::specs::Nearness::begin_alike))]
fn begin_alike(word: &[u8], other: &[u8]) -> bool
    ensures alike { result ≡ begin_alike word.now other.now }
    ensures begins { result ≡ true → 0 < length word.now }
{
    match word {
        [] => false,
        [first, ..] => match other {
            [] => false,
            [second, ..] => *first == *second,
        },
    }
}

/// The word without its first byte.
fn behind_first(word: &[u8]) -> &[u8]
    ensures { result.now ≡ drop 1 word.now }
{
    match word {
        [] => word,
        [_, behind @ ..] => behind,
    }
}

/// What stands in each word from where they first differ on.
fn apart<'a>(word: &'a [u8], other: &'a [u8]) -> (&'a [u8], &'a [u8])
    ensures word { result.0.now ≡ (apart word.now other.now).0 }
    ensures other { result.1.now ≡ (apart word.now other.now).1 }
{
    let mut left = word;
    let mut right = other;
    while begin_alike(left, right) {
        left = behind_first(left);
        right = behind_first(right);
    }
    (left, right)
}

/// Whether at most one edit makes the words the same: a byte is left out, put in, or exchanged.
#[tactic(auto, unfolding(crate::specs::Nearness::within_one))]
fn is_within_one(word: &[u8], other: &[u8]) -> bool
    ensures { result ≡ within_one word.now other.now }
{
    let (left, right) = apart(word, other);
    behind_first(left) == right
        || left == behind_first(right)
        || behind_first(left) == behind_first(right)
}

/// Whether at most two do.
#[tactic(auto, unfolding(crate::specs::Nearness::within_two))]
fn is_within_two(word: &[u8], other: &[u8]) -> bool
    ensures { result ≡ within_two word.now other.now }
{
    let (left, right) = apart(word, other);
    is_within_one(behind_first(left), right)
        || is_within_one(left, behind_first(right))
        || is_within_one(behind_first(left), behind_first(right))
}

#[tactic(auto, unfolding(crate::specs::Nearness::nearest_by_one))]
fn nearest_by_one(word: &[u8]) -> Option<Opening>
    ensures { result ≡ nearest_by_one word.now }
{
    OPENINGS
        .iter()
        .copied()
        .find(|opening| is_within_one(opening.word(), word))
}

#[tactic(auto, unfolding(crate::specs::Nearness::nearest_by_two))]
fn nearest_by_two(word: &[u8]) -> Option<Opening>
    ensures { result ≡ nearest_by_two word.now }
{
    OPENINGS
        .iter()
        .copied()
        .find(|opening| is_within_two(opening.word(), word))
}

/// The first opening that one edit makes of the word, or else that two make of it.
pub(crate) fn nearest_to(word: &[u8]) -> Option<Opening>
    ensures { result ≡ nearest_to word.now }
{
    match nearest_by_one(word) {
        Some(opening) => Some(opening),
        None => nearest_by_two(word),
    }
}
