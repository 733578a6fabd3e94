//! The tables of a world as a program: whether an event is enabled, which condition it fails, and what it does.
//!
//! What an event is and does is `law::world`, `specs/world/Steps.antt`. Here each test is proved to be the one that is
//! defined there, and each step, a few writes to tables, to lead where it says. No table keeps an invariant: what a
//! step needs to index or to add is asked of the caller, `brc_core`, whose worlds are reached by runs.
//!
//! What every step goes through is inlined: `brc_core` has a copy of it for each frequent kind of step, in which all
//! matches on the kind fall away. What only the root's steps and steps that mean no cell go through stands apart.
#![tactic(auto)]

mod apply;
mod bit_words;
mod cell_conditions;
mod cell_steps;
mod conditions;
mod effects;
mod entries;
mod frames;
mod marks;
mod opening_state;
mod own_part;
mod refusing;
mod root_steps;
mod tables;
mod tally;
mod unlocking;
mod word_steps;

pub use opening_state::are_options;
pub use refusing::Refusal;
pub use tables::Tables;
