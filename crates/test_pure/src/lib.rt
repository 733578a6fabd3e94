//! Tests of the pure half's crates, each by its public calls alone: texts and what they come to, worked by hand,
//! streams and memory that fail, and each call once on its way.
//!
//! They stand in a crate of their own, so that no crate below is proved a second time for them.
#![tactic(auto)]

#[cfg(test)]
mod tests;
