//! The life of a thread at the running heap: it is registered, works through a mutator, leaves, and is gathered.
//!
//! `Heap` and `Root` are made together. A `Mutator` is what a thread of the runtime works with: a frame (`brc_count`)
//! and nothing else. `Resting` is a mutator on its way to another thread of the machine; `Leaving` a thread that has
//! handed over what it owned and closed its merge queue, and `Retired` one that is done, for the root to gather. The
//! number of a gathered thread is given again: 64 threads at a time, 65,536 in a heap's life. At the end the heap is
//! taken apart.
#![tactic(auto)]

mod apart;
mod clearing;
mod ends;
mod heap;
mod laws;
mod leaving;
mod mutator;
mod resting;
mod retiring;
mod root;
mod settling;

pub use ends::{give_back, take_apart};
pub use heap::{Heap, Options};
pub use laws::{handles_keep_their_objects, rest_gives_every_block};
pub use leaving::{Leaving, Retired};
pub use mutator::Mutator;
pub use resting::Resting;
pub use root::Root;
