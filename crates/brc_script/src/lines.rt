//! The lines of a text, and the words with which they begin.

ghost use Rattle.std.specs.Prelude.{◌≡◌, ◌<◌, ◌∷◌, length};
ghost use Rattle.std.specs.List.{list_any};
ghost use Rattle.brc_script.specs.Walks.{lines_of, opening, decided, is_closed, starts_section};

use crate::cutting::cut;
use crate::first_word::{FirstWord, first_word_of};

/// The first line without its line feed, and what stands behind it.
#[tactic(auto, using(crate::proofs::LinesLaws::ended_line, crate::proofs::LinesLaws::open_line, crate::proofs::LinesLaws::line_shorter))]
pub(crate) fn first_line(text: &[u8]) -> (&[u8], &[u8])
    requires { 0 < length text.now }

    ensures lines { lines_of text.now ≡ result.0.now ∷ lines_of result.1.now }
    ensures shorter { length result.1.now < length text.now }
{
    match cut(text, b'\n') {
        (line, Some(behind)) => (line, behind),
        (_, None) => (text, &[]),
    }
}

/// The word with which the line begins.
#[tactic(auto, unfolding(crate::specs::Walks::opening))]
fn opening_of(line: &[u8]) -> Option<FirstWord>
    ensures { result ≡ opening line.now }
{
    let (word, _) = cut(line, b' ');
    first_word_of(word)
}

/// What a line's first word decides about an open `repeat`: only `end` closes it, before the next `section` or
/// `repeat`.
fn decided(opening: Option<FirstWord>) -> Option<bool>
    ensures { result ≡ decided opening }
{
    match opening {
        Some(FirstWord::End) => Some(true),
        Some(FirstWord::Section) => Some(false),
        Some(FirstWord::Repeat) => Some(false),
        _ => None,
    }
}

/// Whether the first of the lines that begins with `end`, `section` or `repeat` begins with `end`.
pub(crate) fn is_closed(text: &[u8]) -> bool
    ensures { result ≡ is_closed (lines_of text.now) }
{
    let mut rest = text;
    while !rest.is_empty() {
        let (line, behind) = first_line(rest);
        if let Some(closed) = decided(opening_of(line)) {
            return closed;
        }
        rest = behind;
    }
    false
}

/// Whether the line begins with `section`.
fn starts_section(line: &[u8]) -> bool
    ensures { result ≡ starts_section line.now }
{
    matches!(opening_of(line), Some(FirstWord::Section))
}

/// Whether a line begins with `section`.
pub(crate) fn has_section(text: &[u8]) -> bool
    ensures { result ≡ list_any starts_section (lines_of text.now) }
{
    let mut rest = text;
    while !rest.is_empty() {
        let (line, behind) = first_line(rest);
        if starts_section(line) {
            return true;
        }
        rest = behind;
    }
    false
}
