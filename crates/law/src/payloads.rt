//! What a thread's lockings find in cells that are its own: definitions and laws on logs of `law::rule`.
//!
//! A private cell has as its payload what its thread put home there last (`specs/payloads/Payloads.antt`). No other
//! thread opens it (`law::private`), so each locking finds that payload; and in the cells below the globals, which are
//! unlocked by keep alone, what the heap was opened with. Said of a log alone, this can stand in a seat's type. And
//! where a thread puts own cells alone into its private ones, their payloads lead to own ones. Nothing runs here.

mod laws;

pub use laws::{
    lockings_find_own_payloads, payloads_go_on, payloads_lead_to_own_cells,
    payloads_lie_in_their_cells,
};
