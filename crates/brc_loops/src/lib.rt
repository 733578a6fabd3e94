//! Loops that a client of the heap writes round its calls, each with its invariant and its proof.
//!
//! With a frame: a task is repeated (`repeat`), a handle goes from turn to turn (`pass_on`), many handles are had
//! (`fill`), and something is waited for (`wait_for`), or a letter or a value beside a key, until the wait is stopped
//! (`recv_until`, `fetch_until`). With threads: so many are registered and rest (`rest_more`), each lives on a thread of
//! the machine (`run_all`), or each with a job of its own (`rest_each`, `run_each`), and the root gathers them (`gather_all`, and
//! `gather_answers`, which hands their answers back). A run has all of its memory before the first thread wakes; one that
//! is refused hands all threads back, and these are ended (`end_all`, `end_each`), since a heap is closed only once all of
//! its threads are gathered. These can be called over and over, since the number of a gathered thread is given again:
//! `waves` does so. What is done at each turn is the client's, by a trait, whose contract has what the loop needs; an
//! `impl` repeats no clause of it.
//!
//! What a turn needs of the frame is the trait's `ready`, and each `impl` shows that it is so after a turn too: mostly
//! by a field of `Keeps` (`brc_count`), or by `specs/Held.antt` where it needs many handles. What a turn does an `impl`
//! may say too, and then the loop says that it made so many such turns, one after another (`specs/Turns.antt`).
#![tactic(auto)]

mod duties;
mod errands;
mod filling;
mod passing;
mod repeating;
mod stopping;
mod threads;
mod waiting;
mod wave;

// over a frame
pub use filling::{Source, fill};
pub use passing::{Passing, pass_on};
pub use repeating::{Nothing, Task, repeat};
pub use stopping::{Never, Stop, Waited, fetch_until, recv_until};
pub use waiting::{Awaited, Look, wait_for};

// on threads of the machine
pub use duties::{Duty, end_each, rest_each, run_each};
pub use threads::{Ended, Life, end_all, gather_all, gather_answers, rest_more, run_all};
pub use wave::{Tally, waves};
