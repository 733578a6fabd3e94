//! The counting core of a frame: which event counts a reference up or down, for one thread at the running table.
//!
//! It keeps the thread's local counts in its own memory, so that an owner counts without a look: they are what its
//! seat's log tells (`specs/Counter.antt`). `up` is one event; `give_up` is one of the few lists of events by which a
//! reference goes (`specs/Released.antt`), with the block of the object that it ended, if it did; `seek` claims the
//! first free cell that it gets (`specs/Seeking.antt`). Nothing here waits, tries twice, refuses or allocates.
#![tactic(auto)]

mod asked;
mod cells;
mod close;
mod counter;
mod give_up;
mod home;
mod own;
mod owned;
mod popped;
mod resting_counter;
mod seek;
mod shared;
mod steps;
mod up;

pub use counter::{Counter, first_counts};
pub use home::HasTable;
pub use owned::{no_bits, strike};
pub use resting_counter::RestingCounter;
