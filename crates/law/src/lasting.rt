//! What a running thread may rely on while others step: definitions and laws on runs of `law::world`.
//!
//! `specs/lasting/Staying.antt` says which facts last and what a hand tells without a look, `specs/lasting/Ranges.antt`
//! which numbers stand for what is there, and `specs/lasting/Progress.antt` which step a thread can go on with. Nothing
//! runs here; the running table cites these laws.

mod laws;

pub use laws::{
    blocks_are_taken_once, dead_blocks_are_unlocked, gathered_threads_hold_nothing, hands_tell,
    held_words_last, locks_are_exclusive, no_thread_is_stuck, numbers_name_what_is_there,
    own_parts_last, owners_last,
};
