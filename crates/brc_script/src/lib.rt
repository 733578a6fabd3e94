//! Scripts: sections of instructions, each for a thread of its own; and reading one from its text.
//!
//! `specs/Instructions.antt` and `specs/Scripts.antt` are what a script is as a plain value. The types keep that the
//! registers of an instruction differ, that no `repeat` stands in another, and that a script has 1 to 63 sections.
//!
//! `specs/Spellings.antt` is the one spelling of each instruction, and `specs/Texts.antt` says which texts a script
//! has: its lines in order, with empty lines and comments among them. `parse` takes these and nothing else
//! (`proofs/TextLaws.antt`, `proofs/TextAgain.antt`); which line of another text is told is `specs/Walks.antt`, one
//! walk over the lines.
#![tactic(auto)]

mod cutting;
mod first_word;
mod instruction;
mod instruction_line;
mod laws;
mod limits;
mod lines;
mod operands;
mod parsing;
mod private;
mod progress;
mod reading_line;
mod register;
mod row;
mod script;
mod sequence;

pub use instruction::Instruction;
pub use laws::lines_are_read_as_spelled;
pub use limits::{MOST_NAME, MOST_SECTION_NAME, MOST_SECTIONS, MOST_TEXT, MOST_TIMES, REGISTERS};
pub use parsing::parse;
pub use private::is_private;
pub use register::Register;
pub use script::{Line, Piece, Script, Section};
pub use sequence::Sequence;
