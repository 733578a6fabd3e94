//! The words that every room of the heap stands on: faults, limits, states, owners, kinds, keys, and the
//! entries of containers.
//!
//! A word of the heap's table is a number. This crate says which value each number spells, and that reading gives
//! back what was written; `specs/Shared.antt` and `specs/Owners.antt` are those spellings.
#![tactic(auto)]

mod entry;
mod fault;
mod key;
mod kind;
mod limits;
mod look;
mod note;
mod owner;
mod state;

pub use entry::Entry;
pub use fault::{Fault, Reason};
pub use key::{Key, Text, hash_bytes};
pub use kind::{Kind, is_container_kind, is_mortal_kind};
pub use limits::{
    COUNTED_FROM, FEWEST_CELLS, FIRST_MORTAL, GLOBALS, IMMORTAL_LOCAL, MOST_BIRTHS, MOST_CELLS,
    MOST_ENTRIES, MOST_EVENTS, MOST_INPUT, MOST_LOCAL, MOST_PLACES, MOST_REGISTRATIONS,
    MOST_THREADS,
};
pub use look::{
    CLOSED_BIT, MERGED_BITS, NO_COUNT, ONE_COUNT, QUEUED_BITS, has_count, is_closed_word,
    is_merged_word, is_risen_word,
};
pub use note::Note;
pub use owner::{Owner, OwnerWord};
pub use state::{State, count_of, shared_word, state_of};
