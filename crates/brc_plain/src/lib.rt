//! Containers as plain data: a list, a dictionary and a queue, each with at most 1,048,576 entries.
//!
//! `specs/Lists.antt`, `specs/Dicts.antt` and `specs/Queues.antt` say of each call what it answers and what the
//! container is after it, for entries of any type; the code here meets them. A refused call leaves its container as it
//! was, and hands back what it took.
#![tactic(auto)]

mod dict;
mod list;
mod queue;

pub use dict::PlainDict;
pub use list::PlainList;
pub use queue::PlainQueue;
