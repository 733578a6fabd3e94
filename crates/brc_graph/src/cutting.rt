//! Cutting a text at a byte.

ghost use Rattle.std.specs.Prelude.{◌≡◌, Some, None, MatchOption};
ghost use Rattle.brc_text.specs.Lines.{cut};

/// What stands before the first mark, and what stands behind it, where there is one.
pub(crate) fn cut(bytes: &[u8], mark: u8) -> (&[u8], Option<&[u8]>)
    ensures before { result.0.now ≡ (cut mark bytes.now).0 }
    ensures behind { MatchOption result.1 ((cut mark bytes.now).1 ≡ None)
        (λ rest. (cut mark bytes.now).1 ≡ Some rest.now) }
{
    for (at, byte) in bytes.iter().enumerate() {
        if *byte == mark {
            return (&bytes[..at], Some(&bytes[at + 1..]));
        }
    }
    (bytes, None)
}
