//! Frames and handles: what a thread of the runtime holds, counted up and down.
//!
//! A frame keeps each reference in a place, and a handle names its thread and place. Which events a call makes is the
//! contract of `brc_biased`; here stand the places, popped entries, dead blocks and what is locked
//! (`specs/Frames.antt`), from the thread's first step (`Frame::enter`) to its last (`ClosedFrame::finish`).
#![tactic(auto)]

mod closed;
mod closing;
mod frame;
mod frame_places;
mod handed;
mod handle;
mod held;
mod holdings;
mod ledger;
mod locking;
mod making;
mod polling;
mod resting;
mod start;
mod work;

pub use closed::ClosedFrame;
pub use frame::Frame;
pub use handed::HandedBack;
pub use handle::Handle;
pub use held::PlaceEntry;
pub use ledger::Ledger;
pub use resting::RestingFrame;
pub use start::unasked_claims_take_the_lowest_cell;

// what it stands on, for the crates above
pub use brc_biased as biased;
pub use brc_table as table;
pub use brc_table::{block, law};
