//! The parts of a text, in their order.

ghost use Rattle.std.specs.Prelude.{◌≡◌};
ghost use Rattle.brc_graph.specs.Parts.{after, may_be_printed, is_whole};

use crate::first_word::FirstWord;

/// Where in a text a line stands: by the lines above it.
#[derive(Clone, Copy, Debug, PartialEq, Eq)]
pub(crate) enum TextPart {
    /// There is none.
    Start,
    /// What sections printed.
    Printed,
    /// The ledger of a report, and remains.
    Remains,
    /// The same, and cycles.
    Cycles,
    /// The edition of a world.
    Edition,
    /// The first line of a world, and what it says of threads and cells.
    World,
    /// A whole world.
    Ended,
}

/// Where the next line stands, if one with this first word may stand here.
pub(crate) fn after(part: TextPart, word: FirstWord) -> Option<TextPart>
    ensures { result ≡ after part word }
{
    match part {
        TextPart::Start => match word {
            FirstWord::Edition => Some(TextPart::Edition),
            FirstWord::World => Some(TextPart::World),
            FirstWord::Ledger => Some(TextPart::Remains),
            _ => None,
        },
        TextPart::Printed => match word {
            FirstWord::Ledger => Some(TextPart::Remains),
            _ => None,
        },
        TextPart::Remains => match word {
            FirstWord::Remain => Some(TextPart::Remains),
            FirstWord::Cycle => Some(TextPart::Cycles),
            _ => None,
        },
        TextPart::Cycles => match word {
            FirstWord::Cycle => Some(TextPart::Cycles),
            _ => None,
        },
        TextPart::Edition => match word {
            FirstWord::World => Some(TextPart::World),
            _ => None,
        },
        TextPart::World => match word {
            FirstWord::Ledger => Some(TextPart::Ended),
            FirstWord::Remain => None,
            FirstWord::Cycle => None,
            FirstWord::Edition => None,
            FirstWord::World => None,
            _ => Some(TextPart::World),
        },
        TextPart::Ended => None,
    }
}

/// Whether a line that a section printed may stand here.
pub(crate) fn may_be_printed(part: TextPart) -> bool
    ensures { result ≡ may_be_printed part }
{
    match part {
        TextPart::Start => true,
        TextPart::Printed => true,
        _ => false,
    }
}

/// Whether a text may end here.
pub(crate) fn is_whole(part: TextPart) -> bool
    ensures { result ≡ is_whole part }
{
    match part {
        TextPart::Remains => true,
        TextPart::Cycles => true,
        TextPart::Ended => true,
        _ => false,
    }
}
