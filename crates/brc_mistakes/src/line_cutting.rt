//! Cutting a line at its spaces.

ghost use Rattle.std.specs.Prelude.{◌≡◌, Some, None, MatchOption};
ghost use Rattle.brc_text.specs.Lines.{cut};
ghost use Rattle.brc_mistakes.specs.Words.{behind};

/// What stands before the first mark, and what stands behind it, where there is one.
pub(crate) fn cut(bytes: &[u8], mark: u8) -> (&[u8], Option<&[u8]>)
    ensures before { result.0.now ≡ (cut mark bytes.now).0 }
    ensures behind { MatchOption result.1 ((cut mark bytes.now).1 ≡ None)
        (λ rest. (cut mark bytes.now).1 ≡ Some rest.now) }
{
    for (at, byte) in bytes.iter().enumerate() {
        if *byte == mark {
            return (&bytes[..at], Some(&bytes[at + 1..]));
        }
    }
    (bytes, None)
}

/// What stands behind the first space.
fn behind_space(bytes: &[u8]) -> Option<&[u8]>
    ensures { MatchOption result ((cut 32 bytes.now).1 ≡ None) (λ rest. (cut 32 bytes.now).1 ≡ Some rest.now) }
{
    cut(bytes, b' ').1
}

/// What stands behind so many spaces of the line.
pub(crate) fn behind(line: &[u8], spaces: usize) -> Option<&[u8]>
    ensures { MatchOption result (behind spaces line.now ≡ None) (λ rest. behind spaces line.now ≡ Some rest.now) }
{
    let mut rest = line;
    for _ in 0..spaces {
        let Some(next) = behind_space(rest) else {
            return None;
        };
        rest = next;
    }
    Some(rest)
}
