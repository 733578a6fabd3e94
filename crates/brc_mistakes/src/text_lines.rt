//! The lines of a text.

ghost use Rattle.std.specs.Prelude.{◌≡◌, ◌<◌, ◌≤◌, ◌-◌, [], ◌∷◌, length, take, drop, MatchOption};
ghost use Rattle.std.specs.List.{list_any};
ghost use Rattle.brc_script.specs.Walks.{lines_of};
ghost use Rattle.brc_mistakes.specs.Places.{begins_section, lines_from};

use crate::line_cutting::cut;
use crate::places::begins_section;

/// The first line without its line feed, and what stands behind it.
#[tactic(auto, using(brc_script::proofs::LinesLaws::ended_line, brc_script::proofs::LinesLaws::open_line, brc_script::proofs::LinesLaws::line_shorter))]
pub(crate) fn first_line(text: &[u8]) -> (&[u8], &[u8])
    requires { 0 < length text.now }

    ensures lines { lines_of text.now ≡ result.0.now ∷ lines_of result.1.now }
    ensures shorter { length result.1.now < length text.now }
{
    match cut(text, b'\n') {
        (line, Some(behind)) => (line, behind),
        (_, None) => (text, &[]),
    }
}

/// The first of so many lines, and what stands behind it.
pub(crate) fn first_of(text: &[u8], count: u32) -> Option<(&[u8], &[u8])>
    ensures { MatchOption result (take count (lines_of text.now) ≡ [])
        (λ found. (0 < count)
        × (take count (lines_of text.now) ≡ found.0.now ∷ take (count - 1) (lines_of found.1.now))) }
{
    if count == 0 {
        return None;
    }
    if text.is_empty() {
        return None;
    }
    Some(first_line(text))
}

/// What stands behind the first line.
fn behind_line(text: &[u8]) -> &[u8]
    ensures lines { lines_of result.now ≡ drop 1 (lines_of text.now) }
    ensures shorter { length result.now ≤ length text.now }
{
    if text.is_empty() {
        return text;
    }
    first_line(text).1
}

/// The text from the line with this number on.
pub(crate) fn text_from(text: &[u8], number: u32) -> &[u8]
    ensures lines { lines_of result.now ≡ lines_from number text.now }
    ensures shorter { length result.now ≤ length text.now }
{
    let mut rest = text;
    for _ in 0..number.saturating_sub(1) {
        rest = behind_line(rest);
    }
    rest
}

/// Whether a line begins with `section`.
pub(crate) fn has_section(text: &[u8]) -> bool
    ensures { result ≡ list_any begins_section (lines_of text.now) }
{
    let mut rest = text;
    while !rest.is_empty() {
        let (line, behind) = first_line(rest);
        if begins_section(line) {
            return true;
        }
        rest = behind;
    }
    false
}
