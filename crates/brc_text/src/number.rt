//! Numbers: decimal, without leading zeros, below 2^64.

ghost use Rattle.std.specs.Prelude.{◌≡◌, ◌==◌, ◌&&◌, ℕ, List, ◌++◌, Some, IfSome, IsSomeAnd, slice_index};
ghost use Rattle.std.specs.Char.{is_ascii_digit};
ghost use Rattle.brc_text.specs.Numbers.{number_at};
ghost use Rattle.brc_text.specs.Words.{Begins, EndsWord};

/// Whether a digit stands there.
#[inline(always)]
pub(crate) fn has_digit(bytes: &[u8], at: usize) -> bool
    ensures { result ≡ is_ascii_digit (slice_index bytes.now at) }
{
    match bytes.get(at) {
        Some(byte) => byte.is_ascii_digit(),
        None => false,
    }
}

/// Whether a digit stands behind a zero: a second spelling of a number would begin so.
#[inline(always)]
fn has_leading_zero(text: &[u8]) -> bool
    ensures { result ≡ (slice_index text.now 0 == 48 && is_ascii_digit (slice_index text.now 1)) }
{
    match text {
        [b'0', second, ..] => second.is_ascii_digit(),
        _ => false,
    }
}

/// The number with which the text begins, and what stands behind its digits; none where it begins with none.
#[inline(always)]
pub(crate) fn number_ahead(text: &[u8]) -> Option<(u64, &[u8])>
    ensures found { IfSome result (λ f. Begins number_at text.now f.0 f.1.now) }
    ensures only { (word rest : List ℕ) (n : ℕ) → text.now ≡ word ++ rest → EndsWord rest → number_at word ≡ Some n →
        IsSomeAnd result (λ f. (f.0 ≡ n) × (f.1.now ≡ rest)) }
{
    if !has_digit(text, 0) || has_leading_zero(text) {
        return None;
    }
    let mut number: u64 = 0;
    for (at, byte) in text.iter().enumerate() {
        if !byte.is_ascii_digit() {
            return Some((number, &text[at..]));
        }
        let Some(shifted) = number.checked_mul(10) else {
            return None;
        };
        let Some(more) = shifted.checked_add((*byte - b'0') as u64) else {
            return None;
        };
        number = more;
    }
    Some((number, &[]))
}

/// The number that the bytes spell, all of them; none where they spell none.
pub fn number_of(bytes: &[u8]) -> Option<u64>
    ensures { result ≡ number_at bytes.now }
{
    let Some((number, rest)) = number_ahead(bytes) else {
        return None;
    };
    if rest.is_empty() { Some(number) } else { None }
}
