//! The merge queues, as a thread works on them. It puts a reference into an owner's queue, and tells others to look.
//! It takes what was put into its own. On its way out it offers what it hands over, and closes its words; if its number
//! was used before, it opens them first.
//!
//! Thin, above `brc_table`: each call is one event of its seat's log, and answers what the caller has to know of the
//! number that was found. What a closed word does is `specs/Queued.antt` of `brc_table`.
#![tactic(auto)]

mod queue;

pub use brc_table::Enqueued;
pub use queue::{close_word, drain_word, enqueue, merge_add, nudge, offer, open_word, wake};
