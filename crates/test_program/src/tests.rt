//! The tests, by what they look at.

mod failing;
mod gates;
mod harness;
mod help;
mod refusals;
mod running;
mod scripts;
mod streams;
