//! What all texts of the heap share: numbers, words, the tokens of a line, lines, reading an input whole, and putting
//! a text, or several, to a writer. An error line shows a word of an input by its first bytes (`specs/Excerpts.antt`).
//!
//! A text has one spelling: what a reader here takes is what the writer here puts, byte for byte. The readers equal
//! the definitions of `specs/`; that these read again what is spelled, and nothing else, is `proofs/NumberLaws.antt`,
//! `proofs/TokenLaws.antt` and `proofs/LineLaws.antt`, for the crates above.
#![tactic(auto)]

mod excerpt;
mod headed;
mod keyword;
mod line;
mod number;
mod parts;
mod putting;
mod quoting;
mod token;
mod whole_input;

pub use excerpt::{Excerpt, MOST_SHOWN};
pub use headed::{put_headed_line, put_numbers_line};
pub use keyword::Keyword;
pub use line::Words;
pub use number::number_of;
pub use parts::put_parts;
pub use putting::{put_bytes, put_line};
pub use quoting::put_quoted;
pub use token::{Letter, Token};
pub use whole_input::read_input;
