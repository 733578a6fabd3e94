//! The first bytes of a word, kept apart from the input that it stands in.

ghost use Rattle.std.specs.Prelude.{◌≡◌, ◌≤◌, length, take};

use std::marker::Model;

/// How many bytes of a word are kept.
pub const MOST_SHOWN: usize = 64;

/// The first bytes of a word, at most 64.
#[derive(Clone, Copy, Debug, PartialEq, Eq)]
pub struct Excerpt {
    /// Behind the word's bytes stand zeros, so that equal words are equal values.
    row: [u8; MOST_SHOWN],
    count: usize,
}

impl Model for Excerpt {
    ghost use Rattle.std.specs.Prelude.{ℕ, List, take, length};
    ghost use Rattle.brc_text.specs.Padding.{IsPadded, padded, unpadded};

    ghost Value = { List ℕ };

    ghost view = { λ e. take e.count e.row };

    ghost invariant = { λ e. IsPadded e.row e.count };

    ghost inverse = { λ word. record { row = padded word; count = length word } };

    ghost inverse_ok = { λ e kept i. record {
      row = unpadded e.row e.count kept i;
      count = kept.counted i;
    } };
}

/// As many of the word's bytes as an excerpt has.
fn front_of(word: &[u8]) -> &[u8]
    ensures front { result.now ≡ take MOST_SHOWN word.now }
    ensures short { length result.now ≤ MOST_SHOWN }
{
    if word.len() <= MOST_SHOWN {
        word
    } else {
        &word[..MOST_SHOWN]
    }
}

impl Excerpt {
    /// The first bytes of the word.
    pub fn of(word: &[u8]) -> Excerpt
        ensures { result ≡ take MOST_SHOWN word.now }
    {
        let front = front_of(word);
        let mut row = [0; MOST_SHOWN];
        for (at, byte) in front.iter().enumerate() {
            row[at] = *byte;
        }
        Excerpt {
            row,
            count: front.len(),
        }
    }

    /// The bytes, in order.
    pub fn bytes(&self) -> &[u8]
        ensures all { result.now ≡ self.now }
        ensures short { length result.now ≤ MOST_SHOWN }
    {
        &self.row[..self.count]
    }
}
