//! Whether a word may stand for what is wanted.

ghost use Rattle.std.specs.Prelude.{◌≡◌, is_some};
ghost use Rattle.std.specs.List.{list_all};
ghost use Rattle.brc_script.specs.Instructions.{is_visible, is_text, is_name, is_index};
ghost use Rattle.brc_script.specs.Operands.{within, is_times, is_below, is_above, register_at, integer_at};
ghost use Rattle.brc_script.specs.Rows.{is_plain, is_section_name};
ghost use Rattle.brc_mistakes.specs.Operands.{is_key, fits, begins_with, without_sign, is_digit, begins_with_zero};

use crate::bytes::are_printed;
use crate::operand::Operand;
use brc_script::{MOST_NAME, MOST_SECTION_NAME, MOST_TEXT, MOST_TIMES, REGISTERS};
use brc_text::number_of;

/// The largest distance of an i64 from 0.
const FARTHEST: u64 = 9_223_372_036_854_775_808;

// ---- numbers and registers

/// The register's number.
#[tactic(auto, unfolding(brc_script::specs::Operands::register_at, brc_script::specs::Operands::within))]
pub(crate) fn register_from(bytes: &[u8]) -> Option<u8>
    ensures { result ≡ register_at bytes.now }
{
    match bytes {
        [b'r', digits @ ..] => match number_of(digits) {
            Some(number) if number < REGISTERS as u64 => Some(number as u8),
            _ => None,
        },
        _ => None,
    }
}

#[tactic(auto, unfolding(brc_script::specs::Operands::within))]
fn is_index(bytes: &[u8]) -> bool
    ensures { result ≡ is_some (within is_index bytes.now) }
{
    match number_of(bytes) {
        Some(number) => number < 4_294_967_296,
        None => false,
    }
}

#[tactic(auto, unfolding(brc_script::specs::Operands::within))]
fn is_turns(bytes: &[u8]) -> bool
    ensures { result ≡ is_some (within is_times bytes.now) }
{
    match number_of(bytes) {
        Some(number) => number <= MOST_TIMES as u64,
        None => false,
    }
}

/// Whether an i64 is so far below 0.
#[tactic(auto, unfolding(brc_script::specs::Operands::within))]
fn is_below(digits: &[u8]) -> bool
    ensures { result ≡ is_some (within is_below digits.now) }
{
    match number_of(digits) {
        Some(number) => 1 <= number && number <= FARTHEST,
        None => false,
    }
}

#[tactic(auto, unfolding(brc_script::specs::Operands::within))]
fn is_above(digits: &[u8]) -> bool
    ensures { result ≡ is_some (within is_above digits.now) }
{
    match number_of(digits) {
        Some(number) => number < FARTHEST,
        None => false,
    }
}

#[tactic(auto, unfolding(brc_script::specs::Operands::integer_at))]
fn is_integer(bytes: &[u8]) -> bool
    ensures { result ≡ is_some (integer_at bytes.now) }
{
    match bytes {
        [] => false,
        [first, digits @ ..] => {
            if *first == b'-' {
                is_below(digits)
            } else {
                is_above(bytes)
            }
        }
    }
}

// ---- texts

fn are_visible(bytes: &[u8]) -> bool
    ensures { result ≡ list_all is_visible bytes.now }
{
    for byte in bytes {
        if !(33 <= *byte && *byte <= 126) {
            return false;
        }
    }
    true
}

fn are_plain(bytes: &[u8]) -> bool
    ensures { result ≡ list_all is_plain bytes.now }
{
    for byte in bytes {
        if !(97 <= *byte && *byte <= 122 || 48 <= *byte && *byte <= 57) {
            return false;
        }
    }
    true
}

fn are_digits(bytes: &[u8]) -> bool
    ensures { result ≡ list_all is_digit bytes.now }
{
    for byte in bytes {
        if !(48 <= *byte && *byte <= 57) {
            return false;
        }
    }
    true
}

#[tactic(auto, unfolding(brc_script::specs::Instructions::is_text))]
fn is_text(bytes: &[u8]) -> bool
    ensures { result ≡ is_text bytes.now }
{
    bytes.len() <= MOST_TEXT && are_printed(bytes)
}

#[tactic(auto, unfolding(brc_script::specs::Instructions::is_name))]
fn is_name(bytes: &[u8]) -> bool
    ensures { result ≡ is_name bytes.now }
{
    1 <= bytes.len() && bytes.len() <= MOST_NAME && are_visible(bytes)
}

#[tactic(auto, unfolding(brc_script::specs::Rows::is_section_name))]
fn is_section_name(bytes: &[u8]) -> bool
    ensures { result ≡ is_section_name bytes.now }
{
    1 <= bytes.len() && bytes.len() <= MOST_SECTION_NAME && are_plain(bytes)
}

#[tactic(auto, unfolding(crate::specs::Operands::is_key))]
fn is_key(bytes: &[u8]) -> bool
    ensures { result ≡ is_key bytes.now }
{
    match bytes {
        [] => false,
        [first, name @ ..] => {
            if *first == b'\'' {
                is_name(name)
            } else {
                is_integer(bytes)
            }
        }
    }
}

// ---- all

/// Whether the word may stand there.
pub(crate) fn fits(operand: Operand, word: &[u8]) -> bool
    ensures { result ≡ fits operand word.now }
{
    match operand {
        Operand::Register => register_from(word).is_some(),
        Operand::Integer => is_integer(word),
        Operand::Index => is_index(word),
        Operand::Turns => is_turns(word),
        Operand::Key => is_key(word),
        Operand::Name => is_name(word),
        Operand::SectionName => is_section_name(word),
        Operand::Text => is_text(word),
    }
}

// ---- how a word begins

/// Whether the word's first byte is this one.
#[tactic(auto, unfolding(crate::specs::Operands::begins_with))]
pub(crate) fn begins_with(word: &[u8], byte: u8) -> bool
    ensures { result ≡ begins_with byte word.now }
{
    match word {
        [] => false,
        [first, ..] => *first == byte,
    }
}

/// The word without a minus sign in front.
#[tactic(auto, unfolding(crate::specs::Operands::without_sign))]
fn without_sign(word: &[u8]) -> &[u8]
    ensures { result.now ≡ without_sign word.now }
{
    match word {
        [] => word,
        [first, digits @ ..] => { if *first == b'-' { digits } else { word } }
    }
}

/// Whether digits begin with a zero, behind a minus sign or not.
pub(crate) fn begins_with_zero(word: &[u8]) -> bool
    ensures { result ≡ begins_with_zero word.now }
{
    let digits = without_sign(word);
    begins_with(digits, b'0') && are_digits(digits)
}
