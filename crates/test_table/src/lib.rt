//! Worked runs of the heap as calls on the seats of its table, run by the gate: one object's whole life, merges, asks
//! and drains, counts below zero, a lost exchange, threads that leave and hand their objects over, and a number that is
//! used again.
//!
//! Tests, and what they look at. Each call's conditions are shown from the contracts of `brc_table` alone, so this is
//! also how a caller uses them; and each answer is compared with what the trace's step finds.
#![tactic(auto)]

mod holding;

pub use holding::Held;

#[cfg(test)]
mod comparing;
#[cfg(test)]
mod counters;
#[cfg(test)]
mod ends;
#[cfg(test)]
mod globals;
#[cfg(test)]
mod helpers;
#[cfg(test)]
mod leaving;
#[cfg(test)]
mod one_life;
#[cfg(test)]
mod parts;
#[cfg(test)]
mod seats;
#[cfg(test)]
mod tests;
#[cfg(test)]
mod worked_runs;
