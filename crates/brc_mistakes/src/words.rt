//! Mistakes in the words of a line.

ghost use Rattle.std.specs.Prelude.{◌≡◌, ◌<◌, ℕ, Some, None, IfSome, IfNone, MatchOption, true, false, length};
ghost use Rattle.brc_mistakes.specs.Bytes.{is_comment};
ghost use Rattle.brc_mistakes.specs.Words.{first_word, opening_of, is_text_line as is_of_a_text, has_form, up_to_space};
ghost use Rattle.brc_mistakes.specs.Words.{operand_at, register_of, NamesTwice};
ghost use Rattle.brc_mistakes.specs.Operands.{fits as may_stand};
ghost use Rattle.brc_mistakes.specs.Rules.{IsFitAt, Differ, KeepsForm, KeepsWords};
ghost use Rattle.brc_mistakes.specs.Mistakes.{IsOfLine, IsOfWord};

use crate::fitting::{begins_with, begins_with_zero, fits, register_from};
use crate::line_cutting::{behind, cut};
use crate::line_opening::{Opening, opening_from};
use crate::mistake::Mistake;
use crate::nearness::nearest_to;
use crate::operand::Operand;
use brc_text::Excerpt;

/// No line names more.
const MOST_OPERANDS: usize = 3;

// ---- the first word

fn first_word(line: &[u8]) -> &[u8]
    ensures { result.now ≡ first_word line.now }
{
    cut(line, b' ').0
}

/// The opening of a line.
#[tactic(auto, unfolding(crate::specs::Words::opening_of))]
pub(crate) fn opening_of(line: &[u8]) -> Option<Opening>
    ensures { result ≡ opening_of line.now }
{
    opening_from(first_word(line))
}

/// A line that begins with no opening.
#[tactic(auto, unfolding(crate::specs::Words::opening_of))]
fn no_instruction(line: &[u8]) -> Mistake
    requires some { 0 < length line.now }
    requires no_comment { is_comment line.now ≡ false }
    requires none { opening_of line.now ≡ None }

    ensures { IsOfLine line.now result }
{
    let word = first_word(line);
    Mistake::NoInstruction {
        word: Excerpt::of(word),
        nearest: nearest_to(word),
    }
}

// ---- how many words there are

fn is_text_line(opening: Opening) -> bool
    ensures { result ≡ is_of_a_text opening }
{
    match opening {
        Opening::Text => true,
        _ => false,
    }
}

/// Whether as many words stand behind the first as its form has.
fn has_form(opening: Opening, line: &[u8]) -> bool
    ensures { result ≡ has_form opening line.now }
{
    let count = opening.operands().len();
    behind(line, count).is_some() && (is_text_line(opening) || behind(line, count + 1).is_none())
}

// ---- one word

/// What there is of a word up to the next space; a text goes to the line's end.
fn up_to_space(operand: Operand, rest: &[u8]) -> &[u8]
    ensures { result.now ≡ up_to_space operand rest.now }
{
    match operand {
        Operand::Text => rest,
        _ => cut(rest, b' ').0,
    }
}

/// The word behind so many spaces.
fn operand_at(line: &[u8], operand: Operand, spaces: usize) -> Option<&[u8]>
    ensures { MatchOption result (operand_at operand spaces line.now ≡ None)
        (λ word. operand_at operand spaces line.now ≡ Some word.now) }
{
    match behind(line, spaces) {
        Some(rest) => Some(up_to_space(operand, rest)),
        None => None,
    }
}

/// What is wrong with a word that is to be this.
fn mistake_of_word(operand: Operand, word: &[u8]) -> Option<Mistake>
    ensures told { IfSome result (IsOfWord operand word.now) }
    ensures none { IfNone result (may_stand operand word.now ≡ true) }
{
    if fits(operand, word) {
        None
    } else if operand.is_a_number() && begins_with_zero(word) {
        Some(Mistake::LeadingZero(Excerpt::of(word)))
    } else if operand.is_a_number() && begins_with(word, b'+') {
        Some(Mistake::PlusSign(Excerpt::of(word)))
    } else {
        Some(Mistake::Unfit {
            word: Excerpt::of(word),
            operand,
        })
    }
}

/// What is wrong with the word behind so many others and the first.
fn mistake_of_operand(opening: Opening, line: &[u8], at: usize) -> Option<Mistake>
    requires begins { opening_of line.now ≡ Some opening }
    requires few { at < 3 }

    ensures told { IfSome result (IsOfLine line.now) }
    ensures none { IfNone result (IsFitAt opening line.now at) }
{
    let Some(operand) = opening.operand(at) else {
        return None;
    };
    let Some(word) = operand_at(line, operand, at + 1) else {
        return None;
    };
    mistake_of_word(operand, word)
}

/// What is wrong with the first word that can't stand at its place.
fn mistake_of_operands(opening: Opening, line: &[u8]) -> Option<Mistake>
    requires { opening_of line.now ≡ Some opening }

    ensures told { IfSome result (IsOfLine line.now) }
    ensures none { IfNone result ((at : ℕ) → IsFitAt opening line.now at) }
{
    for at in 0..MOST_OPERANDS {
        if let Some(mistake) = mistake_of_operand(opening, line, at) {
            return Some(mistake);
        }
    }
    None
}

// ---- two words

/// The register at a place of the line.
#[tactic(auto, unfolding(crate::specs::Words::register_of))]
fn register_of(opening: Opening, line: &[u8], at: usize) -> Option<u8>
    requires { at < 3 }

    ensures { result ≡ register_of opening at line.now }
{
    let Some(Operand::Register) = opening.operand(at) else {
        return None;
    };
    let Some(word) = operand_at(line, Operand::Register, at + 1) else {
        return None;
    };
    register_from(word)
}

/// The register that stands at both places.
fn same_register(opening: Opening, line: &[u8], first: usize, second: usize) -> Option<u8>
    requires begins { opening_of line.now ≡ Some opening }
    requires before { first < second }
    requires few { second < 3 }

    ensures told { IfSome result (NamesTwice line.now) }
    ensures none { IfNone result (Differ opening line.now first second) }
{
    let Some(register) = register_of(opening, line, first) else {
        return None;
    };
    let Some(other) = register_of(opening, line, second) else {
        return None;
    };
    if register == other {
        Some(register)
    } else {
        None
    }
}

/// The register that the line names twice.
fn named_twice(opening: Opening, line: &[u8]) -> Option<u8>
    requires { opening_of line.now ≡ Some opening }

    ensures told { IfSome result (NamesTwice line.now) }
    ensures none { IfNone result ((first second : ℕ) → first < second → Differ opening line.now first second) }
{
    for second in 1..MOST_OPERANDS {
        for first in 0..second {
            if let Some(register) = same_register(opening, line, first, second) {
                return Some(register);
            }
        }
    }
    None
}

// ---- all words

/// What is wrong with the words of a line that has this opening.
fn mistake_behind(opening: Opening, line: &[u8]) -> Option<Mistake>
    requires { opening_of line.now ≡ Some opening }

    ensures told { IfSome result (IsOfLine line.now) }
    ensures none { IfNone result (KeepsForm opening line.now) }
{
    if !has_form(opening, line) {
        return Some(Mistake::NotItsForm(opening));
    }
    if let Some(mistake) = mistake_of_operands(opening, line) {
        return Some(mistake);
    }
    match named_twice(opening, line) {
        Some(register) => Some(Mistake::Twice(register)),
        None => None,
    }
}

/// What is wrong with the words of a line that is not empty and no comment.
pub(crate) fn mistake_of_words(line: &[u8]) -> Option<Mistake>
    requires some { 0 < length line.now }
    requires no_comment { is_comment line.now ≡ false }

    ensures told { IfSome result (IsOfLine line.now) }
    ensures none { IfNone result (KeepsWords line.now) }
{
    match opening_of(line) {
        Some(opening) => mistake_behind(opening, line),
        None => Some(no_instruction(line)),
    }
}
