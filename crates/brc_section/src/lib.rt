//! One section of a script, run on a thread of the running heap.
//!
//! Between two instructions the section's registers have all that its frame owns (`brc_instructions`). So a section
//! leaves its mutator as it got it: without a handle, and with no dead block (`run_section`).
//!
//! Sections that run at the same time share a board, by which those that find nothing to fetch or to receive wait for
//! the others, and a gate, which is asked before each instruction. A gate that watches is told besides what each line
//! has made, and what a refused one was given (`watching.rt`).
#![tactic(auto)]

mod board;
mod gate;
mod lines;
mod running;
mod section;
mod shared_names;
mod standings;
mod stepping;
mod waiting;
mod watching;

pub use board::Board;
pub use gate::{Gate, Operands};
pub use section::{SectionEnd, run_section};
pub use watching::{first_operand, second_operand};
