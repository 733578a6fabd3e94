//! The operands of a line.

ghost use Rattle.std.specs.Prelude.{◌≡◌, Some, None, IfOk, IfErr, MatchOption};
ghost use Rattle.std.specs.List.{list_all};
ghost use Rattle.std.specs.Str.{IsAscii};
ghost use Rattle.brc_words.specs.declared.fault.Fault.TheVariants.{OutOfMemory};
ghost use Rattle.brc_script.specs.Instructions.{is_printed, is_visible, is_text, is_name, is_index};
ghost use Rattle.brc_script.specs.Operands.{within, is_times, register_at, below_at, above_at, integer_at, if_it_is};
ghost use Rattle.brc_script.specs.Operands.{ahead, key_at, two_at, three_at, with_integer_at, two_with_index_at};
ghost use Rattle.brc_script.specs.Operands.{index_between_at};

use crate::cutting::cut;
use crate::limits::{MOST_NAME, MOST_TEXT, MOST_TIMES, REGISTERS};
use crate::register::Register;
use brc_text::number_of;
use brc_words::{Fault, Key, Text};
use std::alloc::Allocator;
use std::str;

/// The largest distance of an i64 from 0.
const FARTHEST: u64 = 9_223_372_036_854_775_808;

// ---- numbers and registers

#[tactic(auto, unfolding(crate::specs::Operands::register_at, crate::specs::Operands::within))]
pub(crate) fn register_of(bytes: &[u8]) -> Option<Register>
    ensures { result ≡ register_at bytes.now }
{
    match bytes {
        [b'r', digits @ ..] => match number_of(digits) {
            Some(number) if number < REGISTERS as u64 => Some(Register::new(number as u8)),
            _ => None,
        },
        _ => None,
    }
}

#[tactic(auto, unfolding(crate::specs::Operands::within))]
pub(crate) fn index_of(bytes: &[u8]) -> Option<u32>
    ensures { result ≡ within is_index bytes.now }
{
    match number_of(bytes) {
        Some(number) if number < 4_294_967_296 => Some(number as u32),
        _ => None,
    }
}

/// How often a `repeat` runs its lines.
#[tactic(auto, unfolding(crate::specs::Operands::within))]
pub(crate) fn times_of(bytes: &[u8]) -> Option<u32>
    ensures { result ≡ within is_times bytes.now }
{
    match number_of(bytes) {
        Some(number) if number <= MOST_TIMES as u64 => Some(number as u32),
        _ => None,
    }
}

/// How far below 0 an i64 is.
#[tactic(auto, unfolding(crate::specs::Operands::within))]
fn below_of(digits: &[u8]) -> Option<i64>
    ensures { result ≡ below_at digits.now }
{
    match number_of(digits) {
        Some(number) if 1 <= number && number <= FARTHEST => Some(-1 - (number - 1) as i64),
        _ => None,
    }
}

#[tactic(auto, unfolding(crate::specs::Operands::within))]
fn above_of(digits: &[u8]) -> Option<i64>
    ensures { result ≡ above_at digits.now }
{
    match number_of(digits) {
        Some(number) if number < FARTHEST => Some(number as i64),
        _ => None,
    }
}

#[tactic(auto, unfolding(crate::specs::Operands::integer_at))]
pub(crate) fn integer_of(bytes: &[u8]) -> Option<i64>
    ensures { result ≡ integer_at bytes.now }
{
    match bytes {
        [] => None,
        [first, digits @ ..] => {
            if *first == b'-' {
                below_of(digits)
            } else {
                above_of(bytes)
            }
        }
    }
}

// ---- texts

fn are_printed(bytes: &[u8]) -> bool
    ensures { result ≡ list_all is_printed bytes.now }
{
    for byte in bytes {
        if !(32 <= *byte && *byte <= 126) {
            return false;
        }
    }
    true
}

fn are_visible(bytes: &[u8]) -> bool
    ensures { result ≡ list_all is_visible bytes.now }
{
    for byte in bytes {
        if !(33 <= *byte && *byte <= 126) {
            return false;
        }
    }
    true
}

/// Whether an object may have this text.
#[tactic(auto, unfolding(crate::specs::Instructions::is_text))]
fn is_text(bytes: &[u8]) -> bool
    ensures { result ≡ is_text bytes.now }
{
    bytes.len() <= MOST_TEXT && are_printed(bytes)
}

/// Whether a shared object, or an entry of a dictionary, may have this name.
#[tactic(auto, unfolding(crate::specs::Instructions::is_name))]
fn is_name(bytes: &[u8]) -> bool
    ensures { result ≡ is_name bytes.now }
{
    1 <= bytes.len() && bytes.len() <= MOST_NAME && are_visible(bytes)
}

/// The bytes as a text of one's own. They are ASCII.
pub(crate) fn copy<A: Allocator>(alloc: A, bytes: &[u8]) -> Result<Option<Text<A>>, Fault>
    requires { IsAscii bytes.now }

    ensures copied { IfOk result (λ text. text ≡ Some bytes.now) }
    ensures refused { IfErr result (λ fault. fault ≡ OutOfMemory) }
{
    let Ok(text) = str::from_utf8(bytes) else {
        return Ok(None);
    };
    let text = String::from_str(alloc, text)?;
    Ok(Some(Text::new(text)))
}

/// The text of an object.
#[tactic(auto, using(crate::proofs::Ascii::text_low))]
pub(crate) fn text_of<A: Allocator>(alloc: A, bytes: &[u8]) -> Result<Option<Text<A>>, Fault>
    ensures read { IfOk result (λ text. text ≡ if_it_is is_text bytes.now) }
    ensures refused { IfErr result (λ fault. fault ≡ OutOfMemory) }
{
    if !is_text(bytes) {
        return Ok(None);
    }
    copy(alloc, bytes)
}

/// The name of a shared object.
#[tactic(auto, using(crate::proofs::Ascii::name_low))]
pub(crate) fn name_of<A: Allocator>(alloc: A, bytes: &[u8]) -> Result<Option<Text<A>>, Fault>
    ensures read { IfOk result (λ name. name ≡ if_it_is is_name bytes.now) }
    ensures refused { IfErr result (λ fault. fault ≡ OutOfMemory) }
{
    if !is_name(bytes) {
        return Ok(None);
    }
    copy(alloc, bytes)
}

/// The key of an entry.
#[tactic(auto, unfolding(crate::specs::Operands::key_at))]
pub(crate) fn key_of<A: Allocator>(alloc: A, bytes: &[u8]) -> Result<Option<Key<A>>, Fault>
    ensures read { IfOk result (λ key. key ≡ key_at bytes.now) }
    ensures refused { IfErr result (λ fault. fault ≡ OutOfMemory) }
{
    let [first, name @ ..] = bytes else {
        return Ok(None);
    };
    if *first != b'\'' {
        let Some(number) = integer_of(bytes) else {
            return Ok(None);
        };
        return Ok(Some(Key::Int(number)));
    }
    match name_of(alloc, name)? {
        Some(name) => Ok(Some(Key::Text(name))),
        None => Ok(None),
    }
}

// ---- several

/// A register, a space, and what stands behind it.
#[tactic(auto, unfolding(crate::specs::Operands::ahead))]
pub(crate) fn register_ahead(bytes: &[u8]) -> Option<(Register, &[u8])>
    ensures { MatchOption result (ahead register_at bytes.now ≡ None)
        (λ found. ahead register_at bytes.now ≡ Some (found.0, found.1.now)) }
{
    let (word, Some(rest)) = cut(bytes, b' ') else {
        return None;
    };
    let Some(register) = register_of(word) else {
        return None;
    };
    Some((register, rest))
}

/// An index, a space, and what stands behind it.
#[tactic(auto, unfolding(crate::specs::Operands::ahead))]
pub(crate) fn index_ahead(bytes: &[u8]) -> Option<(u32, &[u8])>
    ensures { MatchOption result (ahead (within is_index) bytes.now ≡ None)
        (λ found. ahead (within is_index) bytes.now ≡ Some (found.0, found.1.now)) }
{
    let (word, Some(rest)) = cut(bytes, b' ') else {
        return None;
    };
    let Some(index) = index_of(word) else {
        return None;
    };
    Some((index, rest))
}

#[tactic(auto, unfolding(crate::specs::Operands::two_at))]
pub(crate) fn two_of(bytes: &[u8]) -> Option<(Register, Register)>
    ensures { result ≡ two_at bytes.now }
{
    let Some((first, rest)) = register_ahead(bytes) else {
        return None;
    };
    let Some(second) = register_of(rest) else {
        return None;
    };
    Some((first, second))
}

#[tactic(auto, unfolding(crate::specs::Operands::three_at))]
pub(crate) fn three_of(bytes: &[u8]) -> Option<(Register, Register, Register)>
    ensures { result ≡ three_at bytes.now }
{
    let Some((first, rest)) = register_ahead(bytes) else {
        return None;
    };
    let Some((second, third)) = two_of(rest) else {
        return None;
    };
    Some((first, second, third))
}

#[tactic(auto, unfolding(crate::specs::Operands::with_integer_at))]
pub(crate) fn with_integer_of(bytes: &[u8]) -> Option<(Register, i64)>
    ensures { result ≡ with_integer_at bytes.now }
{
    let Some((first, rest)) = register_ahead(bytes) else {
        return None;
    };
    let Some(number) = integer_of(rest) else {
        return None;
    };
    Some((first, number))
}

#[tactic(auto, unfolding(crate::specs::Operands::two_with_index_at))]
pub(crate) fn two_with_index_of(bytes: &[u8]) -> Option<(Register, Register, u32)>
    ensures { result ≡ two_with_index_at bytes.now }
{
    let Some((first, rest)) = register_ahead(bytes) else {
        return None;
    };
    let Some((second, rest)) = register_ahead(rest) else {
        return None;
    };
    let Some(index) = index_of(rest) else {
        return None;
    };
    Some((first, second, index))
}

#[tactic(auto, unfolding(crate::specs::Operands::index_between_at))]
pub(crate) fn index_between_of(bytes: &[u8]) -> Option<(Register, u32, Register)>
    ensures { result ≡ index_between_at bytes.now }
{
    let Some((first, rest)) = register_ahead(bytes) else {
        return None;
    };
    let Some((index, rest)) = index_ahead(rest) else {
        return None;
    };
    let Some(second) = register_of(rest) else {
        return None;
    };
    Some((first, index, second))
}

/// A key, a space, and what stands behind it.
#[tactic(auto, unfolding(crate::specs::Operands::ahead))]
pub(crate) fn key_ahead<A: Allocator>(
    alloc: A,
    bytes: &[u8],
) -> Result<Option<(Key<A>, &[u8])>, Fault>
    ensures read { IfOk result (λ found. MatchOption found (ahead (key_at {A = A}) bytes.now ≡ None)
        (λ found. ahead key_at bytes.now ≡ Some (found.0, found.1.now))) }
    ensures refused { IfErr result (λ fault. fault ≡ OutOfMemory) }
{
    let (word, Some(rest)) = cut(bytes, b' ') else {
        return Ok(None);
    };
    match key_of(alloc, word)? {
        Some(key) => Ok(Some((key, rest))),
        None => Ok(None),
    }
}

/// A name, a space, and what stands behind it.
#[tactic(auto, unfolding(crate::specs::Operands::ahead))]
pub(crate) fn name_ahead<A: Allocator>(
    alloc: A,
    bytes: &[u8],
) -> Result<Option<(Text<A>, &[u8])>, Fault>
    ensures read { IfOk result (λ found. MatchOption found (ahead (if_it_is is_name) bytes.now ≡ None)
        (λ found. ahead (if_it_is is_name) bytes.now ≡ Some (found.0, found.1.now))) }
    ensures refused { IfErr result (λ fault. fault ≡ OutOfMemory) }
{
    let (word, Some(rest)) = cut(bytes, b' ') else {
        return Ok(None);
    };
    match name_of(alloc, word)? {
        Some(name) => Ok(Some((name, rest))),
        None => Ok(None),
    }
}
