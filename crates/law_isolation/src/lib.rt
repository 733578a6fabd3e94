//! What a running section's frame and registers mean, and what each call of the heap makes of that: definitions and
//! laws.
#![tactic(auto)]

pub mod containers;
pub mod laws;
