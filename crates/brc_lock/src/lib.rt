//! The lock of an object: a guard that has the object's block, and its frame and handle as long.
//!
//! `try_lock` answers Busy where another thread has the object locked; `lock` tries again until nobody has. What a
//! guard shows is what the locking found, and what an unlocking puts home is that, or that with one entry more, fewer
//! or exchanged (`specs/Edits.antt`). No reference is counted here but by `Locked::entry`, and no memory is taken but
//! by `room` and `place`.
#![tactic(auto)]

mod edits;
mod locked;
mod locking;

pub use locked::Locked;
pub use locking::{lock, try_lock};
