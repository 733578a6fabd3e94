//! What a payload tells.

ghost use Rattle.std.specs.Prelude.{◌≡◌, ◌<◌, ◌+◌, ◌++◌, ℕ, List, IfSome, IfNone, OnOk, OnErr, IsTrue, IsFalse};
ghost use Rattle.std.specs.Prelude.{length, take, drop};
ghost use Rattle.std.specs.Str.{IsUtf8, bytes_eq};
ghost use Rattle.std.specs.String.{string_bytes, string_len, string_capacity};
ghost use Rattle.brc_count.specs.law.declared.rule.contents.Contents.TheVariants as contents;
ghost use Rattle.brc_count.specs.law.rule.Logs.{entries_in};
ghost use Rattle.brc_count.specs.table.Shown.{contents_of};
ghost use Rattle.brc_things.specs.Looking.{IsInt, IsText, HoldsBytes, HoldsContainer, shown_from};

use brc_count::block::{Entries, Payload};
use brc_words::Text;
use std::alloc::{AllocError, Allocator};

/// How many entries a container has; None for anything else.
pub(crate) fn container_len<A: Allocator>(payload: &Payload<A>) -> Option<usize>
    ensures container { IfSome result (λ len. HoldsContainer (contents_of payload.now)) }
    ensures len { IfSome result (λ len. length (entries_in (contents_of payload.now)) ≡ len) }
    ensures other { IfNone result (HoldsContainer (contents_of payload.now) → ⊥) }
{
    match payload {
        Payload::List(cells) => Some(cells.len()),
        Payload::Dict(pairs) => Some(pairs.len()),
        Payload::Mailbox(letters) => Some(letters.len()),
        _ => None,
    }
}

/// The number of an integer; None for anything else.
pub(crate) fn int_in<A: Allocator>(payload: &Payload<A>) -> Option<i64>
    ensures int { IfSome result (λ number. contents_of payload.now ≡ contents.Int number) }
    ensures other { IfNone result (IsInt (contents_of payload.now) → ⊥) }
{
    match payload {
        Payload::Int(number) => Some(*number),
        _ => None,
    }
}

/// Whether it is a text's: bytes that are UTF-8.
pub(crate) fn is_text<A: Allocator>(payload: &Payload<A>) -> bool
    ensures text { IsTrue result → IsText (contents_of payload.now) }
    ensures other { IsFalse result → IsText (contents_of payload.now) → ⊥ }
{
    match payload {
        Payload::Text(text) => text.as_str().is_some(),
        _ => false,
    }
}

/// Whether it has bytes, of a text or not.
pub(crate) fn holds_bytes<A: Allocator>(payload: &Payload<A>) -> bool
    ensures bytes { IsTrue result → HoldsBytes (contents_of payload.now) }
    ensures other { IsFalse result → HoldsBytes (contents_of payload.now) → ⊥ }
{
    match payload {
        Payload::Text(_) => true,
        _ => false,
    }
}

/// A copy of its bytes; None where memory is missing.
pub(crate) fn copy_of_bytes<A: Allocator>(alloc: A, payload: &Payload<A>) -> Option<Text<A>>
    requires bytes { HoldsBytes (contents_of payload.now) }
    ensures copied { IfSome result (λ bytes. contents_of payload.now ≡ contents.Text bytes) }
    ensures text { IfSome result (λ bytes. IsText (contents_of payload.now) → IsUtf8 bytes) }
{
    match payload {
        Payload::Text(text) => match text.copy(alloc) {
            Ok(copy) => Some(copy),
            Err(_) => None,
        },
        _ => unreachable!(),
    }
}

/// The bytes of a text's go behind those of the buffer, or memory for them was missing.
pub(crate) fn append_text<A: Allocator, B: Allocator>(
    payload: &Payload<A>,
    buffer: &mut String<B>,
) -> Result<(), AllocError>
    requires text { IsText (contents_of payload.now) }
    ensures appended { OnOk result ((text : List ℕ) × (contents_of payload.now ≡ contents.Text text) × IsUtf8 text
        × (string_bytes buffer.new ≡ string_bytes buffer.old ++ text)) }
    ensures full { OnErr result ((text : List ℕ) × (contents_of payload.now ≡ contents.Text text) × IsUtf8 text
        × (string_capacity buffer.old < string_len buffer.old + length text)) }
    ensures unchanged { OnErr result (string_bytes buffer.new ≡ string_bytes buffer.old) }
{
    let Payload::Text(text) = payload else {
        unreachable!()
    };
    match text.as_str() {
        Some(text) => buffer.push_str(text),
        None => unreachable!(),
    }
}

/// As many of the bytes as there is room for are written. Returns how many there are.
pub fn copy_prefix(bytes: &[u8], to: &mut [u8]) -> usize
    ensures len { result ≡ length bytes.now }
    ensures copied { to.new ≡ take (length to.old) bytes.now ++ drop (length bytes.now) to.old }
{
    let fits = bytes.len().min(to.len());
    to[..fits].copy_from_slice(&bytes[..fits]);
    bytes.len()
}

/// As much of a text, from a byte on, as there is room for. The answer is how long all of it is.
pub fn show_from(text: &[u8], from: usize, to: &mut [u8]) -> usize
    ensures len { result ≡ length text.now }
    ensures shown { to.new ≡ shown_from text.now from to.old }
{
    if from < text.len() {
        let _len = copy_prefix(&text[from..], to);
    }
    text.len()
}

/// How many bytes it has, and these from one on, as many as there is room for; None where it has none.
pub(crate) fn show_bytes<A: Allocator>(
    payload: &Payload<A>,
    from: usize,
    to: &mut [u8],
) -> Option<usize>
    ensures shown { IfSome result (λ len. (bytes : List ℕ) × (contents_of payload.now ≡ contents.Text bytes)
        × (length bytes ≡ len) × (to.new ≡ shown_from bytes from to.old)) }
    ensures other { IfNone result (HoldsBytes (contents_of payload.now) → ⊥) }
    ensures unchanged { IfNone result (to.new ≡ to.old) }
{
    match payload {
        Payload::Text(text) => Some(show_from(text.as_bytes(), from, to)),
        _ => None,
    }
}

/// The same of a text's alone.
pub(crate) fn show_text<A: Allocator>(
    payload: &Payload<A>,
    from: usize,
    to: &mut [u8],
) -> Option<usize>
    ensures shown { IfSome result (λ len. (text : List ℕ) × (contents_of payload.now ≡ contents.Text text) × IsUtf8 text
        × (length text ≡ len) × (to.new ≡ shown_from text from to.old)) }
    ensures other { IfNone result (IsText (contents_of payload.now) → ⊥) }
    ensures unchanged { IfNone result (to.new ≡ to.old) }
{
    match payload {
        Payload::Text(text) => match text.as_str() {
            Some(text) => Some(show_from(text.as_bytes(), from, to)),
            None => None,
        },
        _ => None,
    }
}

/// Whether it has just these bytes; None where it has none.
pub(crate) fn bytes_are<A: Allocator>(payload: &Payload<A>, bytes: &[u8]) -> Option<bool>
    ensures same { IfSome result (λ same. (text : List ℕ) × (contents_of payload.now ≡ contents.Text text)
        × (same ≡ bytes_eq text bytes.now)) }
    ensures other { IfNone result (HoldsBytes (contents_of payload.now) → ⊥) }
{
    match payload {
        Payload::Text(text) => Some(text.as_bytes() == bytes),
        _ => None,
    }
}
