//! The first word of a line.

ghost use Rattle.std.specs.Prelude.{◌≡◌};
ghost use Rattle.brc_graph.specs.FirstWords.{first_word, first_word_at};

/// The word with which a line begins.
#[derive(Clone, Copy, Debug, PartialEq, Eq)]
pub(crate) enum FirstWord {
    // Of a report; a world has a ledger too.
    Ledger,
    Remain,
    Cycle,

    // Of a world.
    Edition,
    World,
    Thread,
    Hand,
    Locked,
    Frame,
    Queued,
    Popped,
    Work,
    Entry,
    Object,
}

const FIRST_WORDS: [FirstWord; 14] = [
    FirstWord::Ledger,
    FirstWord::Remain,
    FirstWord::Cycle,
    FirstWord::Edition,
    FirstWord::World,
    FirstWord::Thread,
    FirstWord::Hand,
    FirstWord::Locked,
    FirstWord::Frame,
    FirstWord::Queued,
    FirstWord::Popped,
    FirstWord::Work,
    FirstWord::Entry,
    FirstWord::Object,
];

impl FirstWord {
    /// The word as it stands in a text.
    fn text(self) -> &'static [u8]
        ensures { result.now ≡ first_word self }
    {
        match self {
            FirstWord::Ledger => b"ledger",
            FirstWord::Remain => b"remain",
            FirstWord::Cycle => b"cycle",
            FirstWord::Edition => b"edition",
            FirstWord::World => b"world",
            FirstWord::Thread => b"thread",
            FirstWord::Hand => b"hand",
            FirstWord::Locked => b"locked",
            FirstWord::Frame => b"frame",
            FirstWord::Queued => b"queued",
            FirstWord::Popped => b"popped",
            FirstWord::Work => b"work",
            FirstWord::Entry => b"entry",
            FirstWord::Object => b"object",
        }
    }
}

/// The word that the bytes spell, if they spell one.
#[tactic(auto, unfolding(crate::specs::FirstWords::first_word_at))]
pub(crate) fn first_word_of(bytes: &[u8]) -> Option<FirstWord>
    ensures { result ≡ first_word_at bytes.now }
{
    FIRST_WORDS
        .iter()
        .copied()
        .find(|word| word.text() == bytes)
}
