//! The theory of worlds: what the crates above it cite.
//!
//! `world` has worlds, events and runs; `moves`, `lasting`, `known` and `private` what an event moves, what lasts while
//! others step, and what a thread's own items tell it; `rule`, `payloads`, `living` and `steps` what the table of the
//! running heap keeps, and that each kind of step keeps it.
#![tactic(auto)]

pub mod known;
pub mod lasting;
pub mod living;
pub mod moves;
pub mod payloads;
pub mod private;
pub mod rule;
pub mod steps;
pub mod world;
