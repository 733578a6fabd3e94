//! Each call once, as far as one seat allows.

use crate::comparing::is;
use crate::seats::{OfOne, Seat, Table, for_one};
use brc_queue::{close_word, drain_word, wake};
use std::alloc::Global;
use std::process::Abort;

/// A thread that has done nothing finds no notice and no entry, and closes its first words.
struct FindsNothing;

impl OfOne for FindsNothing {
    fn run<R: Abort>(&self, rt: &R, _alloc: Global, table: &Table, seat: &mut Seat) {
        is(rt, wake(table, seat), 0);
        is(rt, drain_word(table, seat, 15), 0);
        is(rt, close_word(table, seat, 0), 0);
        is(rt, close_word(table, seat, 1), 0);
    }
}

#[test]
fn a_thread_drains_and_leaves(rt: HostRuntime) {
    for_one(&rt, &FindsNothing);
}
