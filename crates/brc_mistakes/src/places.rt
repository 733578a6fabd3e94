//! Mistakes in where a line stands.

ghost use Rattle.std.specs.Prelude.{◌≡◌, ◌<◌, ◌+◌, ◌-◌, ◌∷◌, ◌^◌, Some, None, IfSome, IfNone, MatchOption, length, count_by};
ghost use Rattle.std.specs.Str.{bytes_eq};
ghost use Rattle.std.specs.List.{list_any};
ghost use Rattle.brc_text.specs.Tokens.{or_else};
ghost use Rattle.brc_script.specs.Walks.{lines_of};
ghost use Rattle.brc_mistakes.specs.Words.{opening_of};
ghost use Rattle.brc_mistakes.specs.Places.{lines_above, spot_by, is_section as is_a_section, begins_section, turn_of};
ghost use Rattle.brc_mistakes.specs.Places.{last_turn as last_turn_of, first_turn, is_repeat as is_a_repeat};
ghost use Rattle.brc_mistakes.specs.Places.{is_end as is_an_end};
ghost use Rattle.brc_mistakes.specs.Places.{section_name};
ghost use Rattle.brc_mistakes.specs.Rules.{IsPlacedBy, IsClosedBy, IsPlaced};
ghost use Rattle.brc_mistakes.specs.Mistakes.{IsMistakeAt};

use crate::line_cutting::behind;
use crate::line_opening::Opening;
use crate::mistake::Mistake;
use crate::text_lines::{first_line, first_of};
use crate::words::opening_of;
use brc_script::MOST_SECTIONS;
use brc_text::Excerpt;

// ---- what a line begins with

/// Whether the line begins with `section`.
pub(crate) fn begins_section(line: &[u8]) -> bool
    ensures { result ≡ begins_section line.now }
{
    match opening_of(line) {
        Some(Opening::Section) => true,
        _ => false,
    }
}

/// What the line says of whether a `repeat` is open behind it.
fn turn_of(line: &[u8]) -> Option<Opening>
    ensures { result ≡ turn_of line.now }
{
    match opening_of(line) {
        Some(Opening::Section) => Some(Opening::Section),
        Some(Opening::Repeat) => Some(Opening::Repeat),
        Some(Opening::End) => Some(Opening::End),
        _ => None,
    }
}

// ---- the lines above and below

/// How many more sections a script may have than begin above the line with this number.
fn room_above(text: &[u8], number: u32) -> usize
    ensures { result ≡ MOST_SECTIONS - count_by begins_section (lines_above number text.now) }
{
    let mut room = MOST_SECTIONS;
    let mut rest = text;
    let mut left = number.saturating_sub(1);
    while let Some((line, behind)) = first_of(rest, left) {
        if begins_section(line) {
            room = room.saturating_sub(1);
        }
        rest = behind;
        left -= 1;
    }
    room
}

/// Whether the same line stands above the one with this number.
fn stands_above(text: &[u8], number: u32, line: &[u8]) -> bool
    ensures { result ≡ list_any (bytes_eq line.now) (lines_above number text.now) }
{
    let mut rest = text;
    let mut left = number.saturating_sub(1);
    while let Some((other, behind)) = first_of(rest, left) {
        if line == other {
            return true;
        }
        rest = behind;
        left -= 1;
    }
    false
}

/// What a line says, or where it says nothing, what was said before.
fn latest(turn: Option<Opening>, before: Option<Opening>) -> Option<Opening>
    ensures { result ≡ or_else turn before }
{
    match turn {
        Some(turn) => Some(turn),
        None => before,
    }
}

/// What the last line above this number says of whether a `repeat` is open.
fn last_turn(text: &[u8], number: u32) -> Option<Opening>
    ensures { result ≡ last_turn_of (lines_above number text.now) }
{
    let mut last = None;
    let mut rest = text;
    let mut left = number.saturating_sub(1);
    while let Some((line, behind)) = first_of(rest, left) {
        last = latest(turn_of(line), last);
        rest = behind;
        left -= 1;
    }
    last
}

/// The first line that says whether a `repeat` is still open: its number, where the text begins with this one.
fn next_turn(text: &[u8], number: u32) -> Option<(u32, Opening)>
    requires { number + length text.now < 2 ^ 32 }

    ensures { result ≡ first_turn number (lines_of text.now) }
{
    let mut rest = text;
    let mut at = number;
    while !rest.is_empty() {
        let (line, behind) = first_line(rest);
        if let Some(turn) = turn_of(line) {
            return Some((at, turn));
        }
        rest = behind;
        at += 1;
    }
    None
}

// ---- mistakes

/// What stands behind the line's first space, if anything does.
fn section_name(line: &[u8]) -> &[u8]
    ensures { result.now ≡ section_name line.now }
{
    match behind(line, 1) {
        Some(name) => name,
        None => &[],
    }
}

/// What is wrong with where a section begins.
fn mistake_of_section(text: &[u8], number: u32, line: &[u8], below: &[u8]) -> Option<Mistake>
    requires { opening_of line.now ≡ Some Opening.Section }

    ensures told { IfSome result (IsMistakeAt (spot_by text.now number (line.now ∷ lines_of below.now))) }
    ensures none { IfNone result
        (IsPlacedBy Opening.Section (spot_by text.now number (line.now ∷ lines_of below.now))) }
{
    if stands_above(text, number, line) {
        return Some(Mistake::SameName(Excerpt::of(section_name(line))));
    }
    if room_above(text, number) == 0 {
        Some(Mistake::TooManySections)
    } else {
        None
    }
}

/// What is wrong with where a `repeat` stands.
fn mistake_of_repeat(text: &[u8], number: u32, line: &[u8], below: &[u8]) -> Option<Mistake>
    requires repeats { opening_of line.now ≡ Some Opening.Repeat }
    requires few { number + 1 + length below.now < 2 ^ 32 }

    ensures told { IfSome result (IsMistakeAt (spot_by text.now number (line.now ∷ lines_of below.now))) }
    ensures none { IfNone result
        (IsClosedBy Opening.Repeat (spot_by text.now number (line.now ∷ lines_of below.now))) }
{
    match next_turn(below, number + 1) {
        Some((_, Opening::End)) => None,
        Some((line, turn)) => Some(Mistake::NotClosedBefore { turn, line }),
        None => Some(Mistake::NeverClosed),
    }
}

/// What is wrong with where an `end` stands.
fn mistake_of_end(text: &[u8], number: u32, line: &[u8], below: &[u8]) -> Option<Mistake>
    requires { opening_of line.now ≡ Some Opening.End }

    ensures told { IfSome result (IsMistakeAt (spot_by text.now number (line.now ∷ lines_of below.now))) }
    ensures none { IfNone result
        (IsClosedBy Opening.End (spot_by text.now number (line.now ∷ lines_of below.now))) }
{
    match last_turn(text, number) {
        Some(Opening::Repeat) => None,
        _ => Some(Mistake::NoRepeat),
    }
}

/// What is wrong with where a line with this number stands, by the whole text and the text below it.
pub(crate) fn mistake_of_place(
    text: &[u8],
    number: u32,
    line: &[u8],
    below: &[u8],
) -> Option<Mistake>
    requires { number + 1 + length below.now < 2 ^ 32 }

    ensures told { IfSome result (IsMistakeAt (spot_by text.now number (line.now ∷ lines_of below.now))) }
    ensures none { IfNone result (IsPlaced (spot_by text.now number (line.now ∷ lines_of below.now))) }
{
    let Some(opening) = opening_of(line) else {
        return None;
    };
    match opening {
        Opening::Section => mistake_of_section(text, number, line, below),
        _ if room_above(text, number) == MOST_SECTIONS => Some(Mistake::BeforeSections),
        Opening::Repeat => mistake_of_repeat(text, number, line, below),
        Opening::End => mistake_of_end(text, number, line, below),
        _ => None,
    }
}
