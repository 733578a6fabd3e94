//! The world of the heap, its atomic steps and the runs that they make: definitions and laws.
//!
//! Nothing runs here. `brc_core` has the world as a program and proves it against these definitions, and the running
//! table speaks of them.

mod cell;
mod edition;
mod event;
mod laws;
mod opening;
mod row;

pub use cell::Cell;
pub use edition::Edition;
pub use event::{Change, Dropped, Event, LastDropped, Source, Step};
pub use laws::{
    counts_are_references, ledgers_are_told_since_registration, lives_are_told_by_the_run,
    worlds_are_sound,
};
pub use opening::{is_immortal, new_row, no_cell, no_row, opening_cell, words_for};
pub use row::{Hand, Phase, Role, Row, Stage};
