//! Worked runs of the heap, run by the gate: what no script of `brc run` can say of it. Each is a row: a name, and a
//! text of steps with what must come of each (`src/tests/steps.rt`). One player takes the steps of all rows.
//!
//! Here stands what tests share: memory that is bounded, and comes back a piece at a time. `specs/Calls.antt` has the
//! clauses of their calls: what these need of a frame, and leave of it.
#![tactic(auto)]

mod memory;

pub use memory::{Heaps, Memories, Pieces};

#[cfg(test)]
mod tests;
