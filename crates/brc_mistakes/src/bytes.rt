//! Mistakes in the bytes of a line.

ghost use Rattle.std.specs.Prelude.{◌≡◌, true, false, IfSome, IfNone};
ghost use Rattle.std.specs.List.{list_all};
ghost use Rattle.brc_script.specs.Instructions.{is_printed};
ghost use Rattle.brc_script.specs.Rows.{is_low, is_idle};
ghost use Rattle.brc_mistakes.specs.Operands.{begins_with as has_first};
ghost use Rattle.brc_mistakes.specs.Words.{opening_of};
ghost use Rattle.brc_mistakes.specs.Bytes.{byte_at as byte_there, byte_before as byte_in_front, most_spaced as most_of};
ghost use Rattle.brc_mistakes.specs.Bytes.{is_comment, HasWideSpace};
ghost use Rattle.brc_mistakes.specs.Mistakes.{IsOfLine};

use crate::fitting::begins_with;
use crate::line_opening::Opening;
use crate::mistake::Mistake;
use crate::words::opening_of;

fn are_low(bytes: &[u8]) -> bool
    ensures { result ≡ list_all is_low bytes.now }
{
    for byte in bytes {
        if *byte >= 128 {
            return false;
        }
    }
    true
}

pub(crate) fn are_printed(bytes: &[u8]) -> bool
    ensures { result ≡ list_all is_printed bytes.now }
{
    for byte in bytes {
        if !(32 <= *byte && *byte <= 126) {
            return false;
        }
    }
    true
}

/// Whether the line is a comment.
pub(crate) fn is_comment(line: &[u8]) -> bool
    ensures { result ≡ is_comment line.now }
{
    begins_with(line, b'#')
}

// ---- spaces

/// The byte at this index; a space stands behind the last.
fn byte_at(line: &[u8], at: usize) -> u8
    ensures { result ≡ byte_there line.now at }
{
    match line.get(at) {
        Some(byte) => *byte,
        None => b' ',
    }
}

/// The byte before this index; a space stands before the first.
fn byte_before(line: &[u8], at: usize) -> u8
    ensures { result ≡ byte_in_front line.now at }
{
    if at == 0 { b' ' } else { byte_at(line, at - 1) }
}

/// How far the spaces of a line with this opening stand between words. A text has spaces of its own.
fn most_spaced(opening: Option<Opening>, size: usize) -> usize
    ensures { result ≡ most_of opening size }
{
    match opening {
        Some(Opening::Text) => size.min(5),
        _ => size,
    }
}

/// Whether a space stands at the line's beginning, at its end, or behind another.
fn has_wide_space(line: &[u8]) -> bool
    requires { is_comment line.now ≡ false }

    ensures { result ≡ true → HasWideSpace line.now }
{
    let most = most_spaced(opening_of(line), line.len());
    for at in 0..most + 1 {
        if byte_before(line, at) == b' ' && byte_at(line, at) == b' ' {
            return true;
        }
    }
    false
}

// ---- mistakes

/// What is wrong with the bytes of a comment.
pub(crate) fn mistake_of_comment(line: &[u8]) -> Option<Mistake>
    requires { is_comment line.now ≡ true }

    ensures told { IfSome result (IsOfLine line.now) }
    ensures none { IfNone result (is_idle line.now ≡ true) }
{
    if are_low(line) {
        None
    } else {
        Some(Mistake::OddComment)
    }
}

/// What is wrong with the bytes of another line.
pub(crate) fn mistake_of_bytes(line: &[u8]) -> Option<Mistake>
    requires { is_comment line.now ≡ false }

    ensures told { IfSome result (IsOfLine line.now) }
    ensures none { IfNone result (list_all is_printed line.now ≡ true) }
{
    if line.contains(&b'\r') {
        Some(Mistake::CarriageReturn)
    } else if line.contains(&b'\t') {
        Some(Mistake::Tab)
    } else if !are_printed(line) {
        Some(Mistake::OddByte)
    } else if has_wide_space(line) {
        Some(Mistake::WideSpace)
    } else {
        None
    }
}
