//! The operands of a line.

ghost use Rattle.std.specs.Prelude.{◌≡◌, Some, None, MatchOption};
ghost use Rattle.brc_text.specs.Numbers.{number_at};
ghost use Rattle.brc_graph.specs.Operands.{within, word_among, local_at, below_at, count_at, ahead};

use crate::cutting::cut;
use brc_text::{Keyword, number_of};

// ---- by themselves

/// A number from the least to the most.
#[tactic(auto, unfolding(crate::specs::Operands::within))]
pub(crate) fn number_within(bytes: &[u8], least: u32, most: u32) -> Option<u32>
    ensures { result ≡ within least most bytes.now }
{
    match number_of(bytes) {
        Some(number) if least as u64 <= number && number <= most as u64 => Some(number as u32),
        _ => None,
    }
}

/// The one of these words that the bytes spell.
#[tactic(auto, unfolding(crate::specs::Operands::word_among))]
pub(crate) fn word_among(words: &[Keyword], bytes: &[u8]) -> Option<Keyword>
    ensures { result ≡ word_among words.now bytes.now }
{
    words.iter().copied().find(|word| word.text() == bytes)
}

/// A local count, or 0 for the `-` that stands there if the object is merged.
#[tactic(auto, unfolding(crate::specs::Operands::local_at))]
fn local_of(bytes: &[u8]) -> Option<u32>
    ensures { result ≡ local_at bytes.now }
{
    if Keyword::Dash.text() == bytes {
        return Some(0);
    }
    number_within(bytes, 0, u32::MAX)
}

/// How far below 0 a count is.
#[tactic(auto, unfolding(crate::specs::Operands::below_at))]
fn below_of(digits: &[u8]) -> Option<u64>
    ensures { result ≡ below_at digits.now }
{
    match number_of(digits) {
        Some(number) if 1 <= number => Some(number),
        _ => None,
    }
}

/// How far a count is from 0.
#[tactic(auto, unfolding(crate::specs::Operands::count_at))]
pub(crate) fn count_of(bytes: &[u8]) -> Option<u64>
    ensures { result ≡ count_at bytes.now }
{
    match bytes {
        [] => None,
        [first, digits @ ..] => {
            if *first == b'-' {
                below_of(digits)
            } else {
                number_of(bytes)
            }
        }
    }
}

// ---- before a space

/// A number from the least to the most, a space, and what stands behind it.
#[tactic(auto, unfolding(crate::specs::Operands::ahead))]
pub(crate) fn number_ahead(bytes: &[u8], least: u32, most: u32) -> Option<(u32, &[u8])>
    ensures { MatchOption result (ahead (within least most) bytes.now ≡ None)
        (λ found. ahead (within least most) bytes.now ≡ Some (found.0, found.1.now)) }
{
    let (word, Some(rest)) = cut(bytes, b' ') else {
        return None;
    };
    let Some(number) = number_within(word, least, most) else {
        return None;
    };
    Some((number, rest))
}

/// Any number, a space, and what stands behind it.
#[tactic(auto, unfolding(crate::specs::Operands::ahead))]
pub(crate) fn any_ahead(bytes: &[u8]) -> Option<(u64, &[u8])>
    ensures { MatchOption result (ahead number_at bytes.now ≡ None)
        (λ found. ahead number_at bytes.now ≡ Some (found.0, found.1.now)) }
{
    let (word, Some(rest)) = cut(bytes, b' ') else {
        return None;
    };
    let Some(number) = number_of(word) else {
        return None;
    };
    Some((number, rest))
}

/// One of these words, a space, and what stands behind it.
#[tactic(auto, unfolding(crate::specs::Operands::ahead))]
pub(crate) fn word_ahead<'t>(words: &[Keyword], bytes: &'t [u8]) -> Option<(Keyword, &'t [u8])>
    ensures { MatchOption result (ahead (word_among words.now) bytes.now ≡ None)
        (λ found. ahead (word_among words.now) bytes.now ≡ Some (found.0, found.1.now)) }
{
    let (word, Some(rest)) = cut(bytes, b' ') else {
        return None;
    };
    let Some(word) = word_among(words, word) else {
        return None;
    };
    Some((word, rest))
}

/// A local count or `-`, a space, and what stands behind it.
#[tactic(auto, unfolding(crate::specs::Operands::ahead))]
pub(crate) fn local_ahead(bytes: &[u8]) -> Option<(u32, &[u8])>
    ensures { MatchOption result (ahead local_at bytes.now ≡ None)
        (λ found. ahead local_at bytes.now ≡ Some (found.0, found.1.now)) }
{
    let (word, Some(rest)) = cut(bytes, b' ') else {
        return None;
    };
    let Some(local) = local_of(word) else {
        return None;
    };
    Some((local, rest))
}

/// A count, a space, and what stands behind it.
#[tactic(auto, unfolding(crate::specs::Operands::ahead))]
pub(crate) fn count_ahead(bytes: &[u8]) -> Option<(u64, &[u8])>
    ensures { MatchOption result (ahead count_at bytes.now ≡ None)
        (λ found. ahead count_at bytes.now ≡ Some (found.0, found.1.now)) }
{
    let (word, Some(rest)) = cut(bytes, b' ') else {
        return None;
    };
    let Some(count) = count_of(word) else {
        return None;
    };
    Some((count, rest))
}
