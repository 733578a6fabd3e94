//! The yardstick of the heap: which places hold which objects, as sets of holders.
//!
//! It has no count, owner, state or order of queues. The rooms above speak of its definitions
//! (`specs/Holders.antt`) and never run it; `HolderWorld` is the map as a program.
#![tactic(auto)]

mod edits;
mod exchanges;
mod fact;
mod holder;
mod moves;
mod reads;
mod world;

pub use fact::Fact;
pub use holder::Holder;
pub use moves::{Exchange, Handover, Handovers, Move, Spot};
pub use world::{HolderWorld, Refused};
