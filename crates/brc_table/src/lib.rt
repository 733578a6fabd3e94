//! The running table: the words and blocks of a heap that threads share, with one call for each event.
//!
//! It keeps that what stands in it is the world of one run (`law::rule`, `specs/rule/Rule.antt`). A call asks what
//! `law::steps` asks of its seat's log (`specs/steps/Owing.antt`), makes one operation on one word, and puts its event
//! with the number found on the log. `src/machine.rt` has one function for each operation, which takes the event as its
//! argument (`src/moving.rt` where a block may move, `src/draining.rt` where queued cells are taken); that the rule
//! allows it is a law of `law::steps`. What the seat knows then stands beside (`specs/Knowing.antt`), so that nobody
//! above unfolds a log. How it opens is `specs/Opening.antt`, what it leaves `specs/Rest.antt`.
#![tactic(auto)]

mod births;
mod counting;
mod draining;
mod ending;
mod laws;
mod layout;
mod locks;
mod looks;
mod machine;
mod merging;
mod moving;
mod opening;
mod queues;
mod rest;
mod root;
mod rule;
mod seats;
mod table;
mod waking;

pub use laws::at_any_moment_the_words_show_one_run;
pub use merging::Enqueued;
pub use moving::Found;
pub use rest::Rest;
pub use root::RootSeat;
pub use rule::{HeapRule, Sizes};
pub use seats::ThreadSeat;
pub use table::HeapTable;

// what it stands on, for the crates above
pub use brc_block as block;
pub use law;
