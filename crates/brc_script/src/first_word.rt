//! The first word of a line.

ghost use Rattle.std.specs.Prelude.{◌≡◌};
ghost use Rattle.brc_script.specs.FirstWords.{first_word, first_word_at};

/// The word with which a line begins.
#[derive(Clone, Copy, Debug, PartialEq, Eq)]
pub(crate) enum FirstWord {
    Int,
    Text,
    List,
    Dict,
    Mailbox,
    Copy,
    Drop,
    Push,
    Pop,
    Get,
    Set,
    Len,
    Put,
    Find,
    Del,
    Share,
    Fetch,
    Unshare,
    Send,
    Recv,
    Add,
    Print,
    Section,
    Repeat,
    End,
}

const FIRST_WORDS: [FirstWord; 25] = [
    FirstWord::Int,
    FirstWord::Text,
    FirstWord::List,
    FirstWord::Dict,
    FirstWord::Mailbox,
    FirstWord::Copy,
    FirstWord::Drop,
    FirstWord::Push,
    FirstWord::Pop,
    FirstWord::Get,
    FirstWord::Set,
    FirstWord::Len,
    FirstWord::Put,
    FirstWord::Find,
    FirstWord::Del,
    FirstWord::Share,
    FirstWord::Fetch,
    FirstWord::Unshare,
    FirstWord::Send,
    FirstWord::Recv,
    FirstWord::Add,
    FirstWord::Print,
    FirstWord::Section,
    FirstWord::Repeat,
    FirstWord::End,
];

impl FirstWord {
    /// The word as it stands in a script.
    fn text(self) -> &'static [u8]
        ensures { result.now ≡ first_word self }
    {
        match self {
            FirstWord::Int => b"int",
            FirstWord::Text => b"text",
            FirstWord::List => b"list",
            FirstWord::Dict => b"dict",
            FirstWord::Mailbox => b"mailbox",
            FirstWord::Copy => b"copy",
            FirstWord::Drop => b"drop",
            FirstWord::Push => b"push",
            FirstWord::Pop => b"pop",
            FirstWord::Get => b"get",
            FirstWord::Set => b"set",
            FirstWord::Len => b"len",
            FirstWord::Put => b"put",
            FirstWord::Find => b"find",
            FirstWord::Del => b"del",
            FirstWord::Share => b"share",
            FirstWord::Fetch => b"fetch",
            FirstWord::Unshare => b"unshare",
            FirstWord::Send => b"send",
            FirstWord::Recv => b"recv",
            FirstWord::Add => b"add",
            FirstWord::Print => b"print",
            FirstWord::Section => b"section",
            FirstWord::Repeat => b"repeat",
            FirstWord::End => b"end",
        }
    }
}

/// The word that the bytes spell, if they spell one.
#[tactic(auto, unfolding(crate::specs::FirstWords::first_word_at))]
pub(crate) fn first_word_of(bytes: &[u8]) -> Option<FirstWord>
    ensures { result ≡ first_word_at bytes.now }
{
    FIRST_WORDS
        .iter()
        .copied()
        .find(|word| word.text() == bytes)
}
