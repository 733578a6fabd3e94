//! The trace: a heap's size and limit and the events of one run, as text.
//!
//! `specs/Events.antt` is the grammar of a line and `specs/Traces.antt` that of a whole text. Each trace has one
//! spelling: `read_trace` takes it and nothing else, and `write_trace` puts it. That the two agree is
//! `proofs/TextLaws.antt`.
#![tactic(auto)]

mod causes;
mod cell_reasons;
mod event_line;
mod explaining;
mod finer;
mod lowest;
mod operands;
mod own_reasons;
mod replaying;
mod standing;
mod told_reasons;
mod trace;
mod trace_reading;
mod trace_steps;
mod world_text;
mod world_thread;
mod writing;

pub use causes::Cause;
pub use cell_reasons::CellReason;
pub use explaining::{Refused, Unreplayed, Why, explain, run_replay_explained};
pub use finer::Finer;
pub use own_reasons::OwnReason;
pub use replaying::run_replay;
pub use standing::{Meant, Standing};
pub use told_reasons::ToldReason;
pub use trace::Trace;
pub use trace_reading::read_trace;
pub use world_text::{word_of_state, write_world};
pub use world_thread::{word_of_phase, word_of_status};
pub use writing::write_trace;
