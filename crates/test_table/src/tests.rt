//! Tests of the crates below, which stand here so that those aren't proved twice.

mod block;
mod queue;
mod table;
