//! The moves of the holder map that each event makes, and that each is allowed where it is made.
//!
//! The map is `brc_model`'s: sets of holders, no counts. `specs/moves/Moves.antt` reads a map off a world and lists the
//! moves of an event; `proofs/moves/Allowing.antt` goes through all events.

mod laws;

pub use laws::events_make_their_moves;
