//! The world of the heap as a program: events one by one, replay, and readers of every part.
//!
//! Each `World` is reached by some run of events from an opening one: that is the invariant of its
//! type, so counts are references in every world that a caller has. What an event is and does is
//! `law::world`, `specs/world/Steps.antt`, and the argument is its `proofs/world/Reached.antt`. The steps
//! themselves, a few writes to tables each, are `brc_state`.
#![tactic(auto)]

mod holders;
mod readers;
mod replaying;
mod totals;
mod world;

// What callers write and read.
pub use brc_state::Refusal;
pub use law::world::{
    Cell, Change, Dropped, Edition, Event, Hand, LastDropped, Phase, Source, Step,
};
pub use readers::Status;
pub use replaying::{ReplayFault, replay, replay_in};
pub use totals::Ledger;
pub use world::{StepFault, World};
