//! Finding the mistake of a line.

ghost use Rattle.std.specs.Prelude.{◌≡◌, ◌<◌, ◌≤◌, length, false, Some, IfSome, IfNone};
ghost use Rattle.std.specs.List.{list_any};
ghost use Rattle.brc_words.specs.declared.limits.TheConstants.{MOST_INPUT};
ghost use Rattle.brc_script.specs.Walks.{lines_of};
ghost use Rattle.brc_mistakes.specs.Places.{spot, begins_section};
ghost use Rattle.brc_mistakes.specs.Rules.{IsGoodLine, KeepsRules};
ghost use Rattle.brc_mistakes.specs.Mistakes.{IsMistake, IsOfLine};

use crate::bytes::{is_comment, mistake_of_bytes, mistake_of_comment};
use crate::mistake::Mistake;
use crate::places::mistake_of_place;
use crate::text_lines::{first_line, has_section, text_from};
use crate::words::mistake_of_words;
use brc_words::MOST_INPUT;

/// What is wrong with a line by itself.
fn mistake_of_line(line: &[u8]) -> Option<Mistake>
    ensures told { IfSome result (IsOfLine line.now) }
    ensures none { IfNone result (IsGoodLine line.now) }
{
    if line.is_empty() {
        return None;
    }
    if is_comment(line) {
        return mistake_of_comment(line);
    }
    match mistake_of_bytes(line) {
        Some(mistake) => Some(mistake),
        None => mistake_of_words(line),
    }
}

/// What is wrong with the line that has this number.
fn mistake_at(text: &[u8], number: u32) -> Option<Mistake>
    requires { length text.now ≤ MOST_INPUT }

    ensures told { IfSome result (IsMistake text.now number) }
    ensures none { IfNone result (KeepsRules (spot text.now number)) }
{
    if number as usize > text.len() {
        return None;
    }
    let rest = text_from(text, number);
    if rest.is_empty() {
        return None;
    }
    let (line, below) = first_line(rest);
    match mistake_of_line(line) {
        Some(mistake) => Some(mistake),
        None => mistake_of_place(text, number, line, below),
    }
}

/// What is wrong with the text's first bad line, which has this number: 0 where the text has more than 16,777,216
/// bytes, and 1 also where none of its lines begins with `section`. None where the line keeps each rule.
/// The text is looked at several times, and no memory is taken.
pub fn mistake_of(text: &[u8], line: u32) -> Option<Mistake>
    ensures told { IfSome result (IsMistake text.now line) }

    // The whole text is looked at first.
    ensures long { MOST_INPUT < length text.now → result ≡ Some Mistake.TooLong }
    ensures lacking { length text.now ≤ MOST_INPUT → list_any begins_section (lines_of text.now) ≡ false
        → result ≡ Some Mistake.NoSection }
{
    if text.len() > MOST_INPUT {
        return Some(Mistake::TooLong);
    }
    if !has_section(text) {
        return Some(Mistake::NoSection);
    }
    mistake_at(text, line)
}
