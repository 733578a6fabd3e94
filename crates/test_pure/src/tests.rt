//! The tests, by crate.

mod comparing;
mod excerpt;
mod explaining;
mod meaning;
mod memory;
mod mistakes;
mod model;
mod plain;
mod report;
mod script;
mod text;
mod traces;
mod words;
mod worlds;
