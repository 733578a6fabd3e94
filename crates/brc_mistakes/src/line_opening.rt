//! The first word of a line, and the form of such lines.

ghost use Rattle.std.specs.Prelude.{◌≡◌, slice_get};
ghost use Rattle.brc_mistakes.specs.Openings.{word_of, form_of, operands_of, opening_at};

use crate::operand::Operand;

/// The word with which a line begins. They stand in the order of `brc run --help`.
#[derive(Clone, Copy, Debug, PartialEq, Eq)]
pub enum Opening {
    Section,
    Int,
    Text,
    List,
    Dict,
    Mailbox,
    Copy,
    Drop,
    Add,
    Print,
    Push,
    Pop,
    Get,
    Set,
    Put,
    Find,
    Del,
    Len,
    Share,
    Fetch,
    Unshare,
    Send,
    Recv,
    Repeat,
    End,
}

pub(crate) const OPENINGS: [Opening; 25] = [
    Opening::Section,
    Opening::Int,
    Opening::Text,
    Opening::List,
    Opening::Dict,
    Opening::Mailbox,
    Opening::Copy,
    Opening::Drop,
    Opening::Add,
    Opening::Print,
    Opening::Push,
    Opening::Pop,
    Opening::Get,
    Opening::Set,
    Opening::Put,
    Opening::Find,
    Opening::Del,
    Opening::Len,
    Opening::Share,
    Opening::Fetch,
    Opening::Unshare,
    Opening::Send,
    Opening::Recv,
    Opening::Repeat,
    Opening::End,
];

impl Opening {
    /// The word as it stands in a script.
    pub(crate) fn word(self) -> &'static [u8]
        ensures { result.now ≡ word_of self }
    {
        match self {
            Opening::Section => b"section",
            Opening::Int => b"int",
            Opening::Text => b"text",
            Opening::List => b"list",
            Opening::Dict => b"dict",
            Opening::Mailbox => b"mailbox",
            Opening::Copy => b"copy",
            Opening::Drop => b"drop",
            Opening::Add => b"add",
            Opening::Print => b"print",
            Opening::Push => b"push",
            Opening::Pop => b"pop",
            Opening::Get => b"get",
            Opening::Set => b"set",
            Opening::Put => b"put",
            Opening::Find => b"find",
            Opening::Del => b"del",
            Opening::Len => b"len",
            Opening::Share => b"share",
            Opening::Fetch => b"fetch",
            Opening::Unshare => b"unshare",
            Opening::Send => b"send",
            Opening::Recv => b"recv",
            Opening::Repeat => b"repeat",
            Opening::End => b"end",
        }
    }

    /// The form of its lines, as help has it.
    pub(crate) fn form(self) -> &'static str
        ensures { result.now ≡ form_of self }
    {
        match self {
            Opening::Section => "section NAME",
            Opening::Int => "int R N",
            Opening::Text => "text R BYTES",
            Opening::List => "list R",
            Opening::Dict => "dict R",
            Opening::Mailbox => "mailbox R",
            Opening::Copy => "copy R S",
            Opening::Drop => "drop S",
            Opening::Add => "add R A B",
            Opening::Print => "print S",
            Opening::Push => "push L V",
            Opening::Pop => "pop R L",
            Opening::Get => "get R L I",
            Opening::Set => "set L I V",
            Opening::Put => "put M KEY V",
            Opening::Find => "find R M KEY",
            Opening::Del => "del R M KEY",
            Opening::Len => "len R C",
            Opening::Share => "share NAME V",
            Opening::Fetch => "fetch R NAME",
            Opening::Unshare => "unshare R NAME",
            Opening::Send => "send B V",
            Opening::Recv => "recv R B",
            Opening::Repeat => "repeat N",
            Opening::End => "end",
        }
    }

    /// What stands behind the word, in order.
    pub(crate) fn operands(self) -> &'static [Operand]
        ensures { result.now ≡ operands_of self }
    {
        match self {
            Opening::Section => &[Operand::SectionName],
            Opening::Int => &[Operand::Register, Operand::Integer],
            Opening::Text => &[Operand::Register, Operand::Text],
            Opening::List => &[Operand::Register],
            Opening::Dict => &[Operand::Register],
            Opening::Mailbox => &[Operand::Register],
            Opening::Copy => &[Operand::Register, Operand::Register],
            Opening::Drop => &[Operand::Register],
            Opening::Add => &[Operand::Register, Operand::Register, Operand::Register],
            Opening::Print => &[Operand::Register],
            Opening::Push => &[Operand::Register, Operand::Register],
            Opening::Pop => &[Operand::Register, Operand::Register],
            Opening::Get => &[Operand::Register, Operand::Register, Operand::Index],
            Opening::Set => &[Operand::Register, Operand::Index, Operand::Register],
            Opening::Put => &[Operand::Register, Operand::Key, Operand::Register],
            Opening::Find => &[Operand::Register, Operand::Register, Operand::Key],
            Opening::Del => &[Operand::Register, Operand::Register, Operand::Key],
            Opening::Len => &[Operand::Register, Operand::Register],
            Opening::Share => &[Operand::Name, Operand::Register],
            Opening::Fetch => &[Operand::Register, Operand::Name],
            Opening::Unshare => &[Operand::Register, Operand::Name],
            Opening::Send => &[Operand::Register, Operand::Register],
            Opening::Recv => &[Operand::Register, Operand::Register],
            Opening::Repeat => &[Operand::Turns],
            Opening::End => &[],
        }
    }

    /// What stands behind so many others; none behind the last.
    pub(crate) fn operand(self, at: usize) -> Option<Operand>
        ensures { result ≡ slice_get (operands_of self) at }
    {
        self.operands().get(at).copied()
    }
}

/// The opening that the bytes spell, if they spell one.
#[tactic(auto, unfolding(crate::specs::Openings::opening_at))]
pub(crate) fn opening_from(bytes: &[u8]) -> Option<Opening>
    ensures { result ≡ opening_at bytes.now }
{
    OPENINGS
        .iter()
        .copied()
        .find(|opening| opening.word() == bytes)
}
