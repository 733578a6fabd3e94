//! The plain meaning of a section: what it prints, the fault that ends it, and how many objects it makes, when it is
//! run by itself over plain values. There are no cells here, no counts, no locks and no other section, and nothing
//! dies.
//!
//! `specs/Steps.antt` says what each instruction does to the registers and the objects, by the definitions of the plain
//! containers, and `specs/Sections.antt` what a section comes to; `plain_run` meets them. `src/laws.rt` says what these
//! definitions come to: a `repeat` is its lines written out, and no reference is ever without its object.
#![tactic(auto)]

mod call;
mod laws;
mod object;
mod objects;
mod plain;
mod printed;
mod reference;
mod registers;
mod running;
mod state;
mod stepping;

pub use laws::{references_mean_objects, repeats_are_written_out};
pub use plain::{Plain, plain_run};

// What a section has while it runs: `law_means` speaks of it, and nobody else makes a value of it.
pub use call::{Call, KeyedCall};
pub use object::Object;
pub use objects::Objects;
pub use printed::Printed;
pub use reference::Reference;
pub use registers::Registers;
pub use running::Halt;
pub use state::State;
