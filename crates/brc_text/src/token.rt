//! Tokens: what one word of a line means.

ghost use Rattle.std.specs.Prelude.{◌≡◌, ℕ, List, ◌++◌, Some, IfSome, IsSomeAnd};
ghost use Rattle.brc_text.specs.declared.token.Token.{Token as TheToken};
ghost use Rattle.brc_text.specs.Tokens.{letter_at, place_at, token_at};
ghost use Rattle.brc_text.specs.Words.{Begins, EndsWord};

use crate::keyword::{Keyword, keyword_ahead};
use crate::number::{has_digit, number_ahead};

/// The letter before a number: where a reference is.
#[derive(Clone, Copy, Debug, PartialEq, Eq)]
pub enum Letter {
    /// `f`: a place of the thread's frame.
    Frame,
    /// `e`: an entry of the object that the thread has locked.
    Entry,
    /// `i`: an immortal cell.
    Immortal,
    /// `w`: the last entry of a cell on the thread's worklist.
    Work,
    /// `q`: a cell whose reference the thread has popped from its merge queue.
    Popped,
}

/// What one word of a line means.
#[derive(Clone, Copy, Debug, PartialEq, Eq)]
pub enum Token {
    Number(u64),
    /// A number below 0, by its distance from 0. Such words are written and never read.
    Negative(u64),
    Place(Letter, u64),
    Word(Keyword),
}

fn letter_of(byte: u8) -> Option<Letter>
    ensures { result ≡ letter_at byte }
{
    match byte {
        b'f' => Some(Letter::Frame),
        b'e' => Some(Letter::Entry),
        b'i' => Some(Letter::Immortal),
        b'w' => Some(Letter::Work),
        b'q' => Some(Letter::Popped),
        _ => None,
    }
}

/// The place with which the text begins, a letter and a number, and what stands behind it; none where it begins with
/// none.
#[inline(always)]
fn place_ahead(text: &[u8]) -> Option<(Token, &[u8])>
    ensures found { IfSome result (λ f. Begins place_at text.now f.0 f.1.now) }
    ensures only { (word rest : List ℕ) (t : TheToken) → text.now ≡ word ++ rest → EndsWord rest
        → place_at word ≡ Some t →
        IsSomeAnd result (λ f. (f.0 ≡ t) × (f.1.now ≡ rest)) }
{
    let [first, digits @ ..] = text else {
        return None;
    };
    let Some(letter) = letter_of(*first) else {
        return None;
    };
    match number_ahead(digits) {
        Some((number, rest)) => Some((Token::Place(letter, number), rest)),
        None => None,
    }
}

/// What the word means with which the text begins, and what stands behind it; none where that is no word of a text.
#[inline(always)]
pub(crate) fn token_ahead(text: &[u8]) -> Option<(Token, &[u8])>
    ensures found { IfSome result (λ f. Begins token_at text.now f.0 f.1.now) }
    ensures only { (word rest : List ℕ) (t : TheToken) → text.now ≡ word ++ rest → EndsWord rest
        → token_at word ≡ Some t →
        IsSomeAnd result (λ f. (f.0 ≡ t) × (f.1.now ≡ rest)) }
{
    // The first two bytes say which of the three a word can be.
    if has_digit(text, 0) {
        match number_ahead(text) {
            Some((number, rest)) => Some((Token::Number(number), rest)),
            None => None,
        }
    } else if has_digit(text, 1) {
        place_ahead(text)
    } else {
        match keyword_ahead(text) {
            Some((word, rest)) => Some((Token::Word(word), rest)),
            None => None,
        }
    }
}
