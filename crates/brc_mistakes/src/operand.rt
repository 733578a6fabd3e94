//! What stands behind the first word of a line.

ghost use Rattle.std.specs.Prelude.{◌≡◌};
ghost use Rattle.brc_mistakes.specs.Operands.{is_a_number as is_for_a_number};
ghost use Rattle.brc_mistakes.specs.Texts.{rule_of};

/// What a word behind the first one stands for.
#[derive(Clone, Copy, Debug, PartialEq, Eq)]
pub enum Operand {
    Register,
    Integer,
    Index,
    /// How often a `repeat` runs its lines.
    Turns,
    Key,
    Name,
    SectionName,
    /// All that stands behind the space, with spaces of its own.
    Text,
}

impl Operand {
    /// Whether it is, or may be, a number.
    pub(crate) fn is_a_number(self) -> bool
        ensures { result ≡ is_for_a_number self }
    {
        match self {
            Operand::Integer => true,
            Operand::Index => true,
            Operand::Turns => true,
            Operand::Key => true,
            _ => false,
        }
    }

    /// What it is, and which rule it keeps.
    pub(crate) fn rule(self) -> &'static str
        ensures { result.now ≡ rule_of self }
    {
        match self {
            Operand::Register => "register: r0 to r15",
            Operand::Integer => "integer of 64 bits",
            Operand::Index => "index: 0 to 4294967295",
            Operand::Turns => "number of turns: 0 to 1000000",
            Operand::Key => "key: an integer, or ' and 1 to 64 bytes",
            Operand::Name => "name: 1 to 64 bytes",
            Operand::SectionName => "name of a section: 1 to 32 of a to z and 0 to 9",
            Operand::Text => "text: 0 to 4096 bytes",
        }
    }
}
