//! The heap for C: the calls that `include/brc.h` declares.
//!
//! No export asks for more than its parameters' types say: a variable that was filled and not dropped, in one call at a
//! time, and memory to read or write. `brc_client` looks at numbers, so no number does harm. Each export is one `match` on
//! one call of `brc_client`; `calls` has those that several share. Its clause says which call that is, that its status is
//! the call's, and what is written (`specs/Exports.antt`). `slots` has what C's variables own, and `held` what a thread's
//! variable leads to.
//!
//! An `alloc: Global` takes no bytes, so C passes nothing for it. A slice is a pointer and a length.
#![tactic(auto)]

mod born;
mod bytes;
mod calls;
mod dicts;
mod heaps;
mod held;
mod keyed;
mod lists;
mod looks;
mod makers;
mod outs;
mod parts;
mod references;
mod slots;
mod swaps;
mod threads;
mod values;

pub use dicts::CKey;
pub use slots::{CHeap, CThread, HeapRoom, ThreadRoom};
pub use values::CValue;
