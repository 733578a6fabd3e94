//! What a section printed, as `brc run` writes it above its report: `NAME: LINE`.

ghost use Rattle.std.specs.Prelude.{◌≡◌};
ghost use Rattle.std.specs.List.{list_all};
ghost use Rattle.brc_graph.specs.Names.{is_plain, is_name, is_printed};

use crate::cutting::cut;

/// The name of a section has at most this many bytes.
const MOST_NAME: usize = 32;

fn are_plain(bytes: &[u8]) -> bool
    ensures { result ≡ list_all is_plain bytes.now }
{
    for byte in bytes {
        if !(97 <= *byte && *byte <= 122 || 48 <= *byte && *byte <= 57) {
            return false;
        }
    }
    true
}

#[tactic(auto, unfolding(crate::specs::Names::is_name))]
fn is_name(bytes: &[u8]) -> bool
    ensures { result ≡ is_name bytes.now }
{
    1 <= bytes.len() && bytes.len() <= MOST_NAME && are_plain(bytes)
}

/// Whether the line is a name, a colon, a space, and anything behind it.
#[tactic(auto, unfolding(crate::specs::Names::is_printed))]
pub(crate) fn is_printed(line: &[u8]) -> bool
    ensures { result ≡ is_printed line.now }
{
    match cut(line, b':') {
        (name, Some([b' ', ..])) => is_name(name),
        _ => false,
    }
}
