//! What `brc` does with the words of its command line, over any streams: the command line is read, its answer is
//! written, and the status says what came of it.
//!
//! What `brc replay`, `brc run` and `brc graph` ask for is the contract of `read_words`, and that the numbers of a run
//! are within their limits; what a trace comes to is that of `brc_trace::run_replay`, what a script comes to that of
//! `brc_run::run_script`, and what a report or a world comes to that of `brc_graph::draw`. Nothing here is of one
//! process, so that tests call it with streams in memory.
#![tactic(auto)]

mod answering;
mod command;
mod explanations;
mod facts;
mod failed;
mod gate;
mod help;
mod phrases;
mod taken;
mod telling;
mod unread;

pub use answering::{program, refuse};
pub use command::{Invocation, read_words};
