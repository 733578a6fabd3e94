//! What is wrong with the first bad line of a script: a second look, at a text that `brc_script` has refused.
//!
//! `specs/Mistakes.antt` says of each mistake when it is one, and `mistake_of` tells none that isn't. The bytes of the
//! line are looked at first, then its words, then the place where it stands. `specs/Texts.antt` is what is written.
#![tactic(auto)]

mod bytes;
mod finding;
mod fitting;
mod line_cutting;
mod line_opening;
mod mistake;
mod nearness;
mod operand;
mod places;
mod text_lines;
mod words;
mod writing;

pub use finding::mistake_of;
pub use line_opening::Opening;
pub use mistake::Mistake;
pub use operand::Operand;
pub use writing::put_mistake;
