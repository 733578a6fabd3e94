//! Mistakes.

use crate::line_opening::Opening;
use crate::operand::Operand;
use brc_text::Excerpt;

/// What is wrong with a script, or with a line of it.
#[derive(Clone, Copy, Debug, PartialEq, Eq)]
pub enum Mistake {
    // ---- the text
    /// It has more than 16,777,216 bytes.
    TooLong,
    /// No line of it begins with `section`.
    NoSection,

    // ---- the bytes of the line
    /// A comment has a byte from 128 on.
    OddComment,
    /// It has a carriage return.
    CarriageReturn,
    /// It has a tab.
    Tab,
    /// A byte of it is not printed.
    OddByte,
    /// A space stands at its beginning, at its end, or behind another.
    WideSpace,

    // ---- its words
    /// No line begins with this word; the nearest one that does, where one is near.
    NoInstruction {
        word: Excerpt,
        nearest: Option<Opening>,
    },
    /// It has more or fewer operands than the form of its first word.
    NotItsForm(Opening),
    /// This word stands for a number and begins with a zero.
    LeadingZero(Excerpt),
    /// This word stands for a number and begins with a plus sign.
    PlusSign(Excerpt),
    /// This word isn't what stands at its place.
    Unfit {
        word: Excerpt,
        operand: Operand,
    },
    /// It names this register twice.
    Twice(u8),

    // ---- the place where it stands
    /// No section begins above it.
    BeforeSections,
    /// A section above has this name.
    SameName(Excerpt),
    /// 63 sections begin above it.
    TooManySections,
    /// No `repeat` is open that it could end.
    NoRepeat,
    /// No line below it ends its `repeat`.
    NeverClosed,
    /// A `repeat` or a `section` in this line comes before the end of its `repeat`.
    NotClosedBefore {
        turn: Opening,
        line: u32,
    },
}
