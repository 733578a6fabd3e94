//! A heap and its threads for whoever keeps numbers and no handles, as a program in C does.
//!
//! Each call is total: it asks nothing of its caller, and looks at each number before it uses it. A number says from which
//! registration it is, which place of the thread's frame has the reference, and how often that place was vacated before
//! (`specs/Numbers.antt`). A number that names no reference is refused by name, and nothing is done. One that was released
//! names none, until its place was vacated 2^32 times more. One of another thread names none, as their stamps differ until
//! 65,535 registrations are between them. No call waits: an object that another thread has locked is Busy.
//!
//! `Client` has the calls of a thread. What it has is seen as one value (`specs/Clients.antt`): the frame, the handle of
//! each place, and the numbers. `Thread` is a thread from its registration to its end, and `Owner` a heap from its opening
//! to its report: both can be dropped at any moment.
#![tactic(auto)]

mod born;
mod client;
mod conditional;
mod data;
mod equal;
mod keyed;
mod looking;
mod moving;
mod numbers;
mod owner;
mod put_value;
mod reach;
mod status;
mod take_out;
mod thread;
mod told;
mod value_row;

pub use brc_heap::{Key, KeyRef, Kind, Ledger, RootCounts};
pub use brc_places::{Make, TakeBy};
pub use client::Client;
pub use conditional::{Conditional, SwapIfAt, SwapTold, SwappingAt, SwappingByInt, SwappingByText};
pub use data::{Datum, PairDatum};
pub use equal::alike_pieces_are_the_same_text;
pub use owner::{Left, Owner};
pub use put_value::{
    Inward, Pushing, PuttingAt, PuttingByInt, PuttingByText, PuttingNewByInt, PuttingNewByText,
    Sending, Setting,
};
pub use status::{Status, text_of};
pub use take_out::{
    DeletingByInt, DeletingByText, FindingByInt, FindingByText, Getting, Outward, Popping,
    Receiving, Taking,
};
pub use thread::Thread;
pub use value_row::ValueRow;
