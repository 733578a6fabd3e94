//! Many handles in one value: a stack, and registers by number.
//!
//! A handle must be spent, so what keeps many must be spent too: `Handles::release_all` is its end. That a frame owns
//! each of them, and how many others, is `Stands` (`specs/Standing.antt`), which each call here hands on from what it got
//! to what it leaves; while a handle is out, `Besides`.
#![tactic(auto)]

mod handles;
mod holding;
mod laws;
mod moving;

pub use handles::Handles;
pub use laws::calls_keep_what_stands;
