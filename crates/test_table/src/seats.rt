//! Tests of one thread or of two, from a table that opens to its end.
//!
//! A test makes the table and the seats, and lends them to what its threads do: calls beside values that have
//! destructors cost the proof more.

ghost use Rattle.std.specs.Prelude.{◌≡◌, []};
ghost use Rattle.test_table.specs.Parts.{StandsAt};

use crate::comparing::is;
use crate::ends::end_all;
use crate::helpers::{ends, opened, opened_for_two};
use brc_table::{HeapTable, ThreadSeat};
use std::alloc::{AllocGlobal, Global};
use std::process::Abort;

pub(crate) type Table = HeapTable<Global>;

pub(crate) type Seat = ThreadSeat<Global>;

/// What a thread does that has done nothing before.
pub(crate) trait OfOne {
    fn run<R: Abort>(&self, rt: &R, alloc: Global, table: &Table, seat: &mut Seat)
        requires new { StandsAt [] table.now seat.old };
}

/// It does so at a new table, and leaves nothing.
pub(crate) fn for_one<R: Abort + AllocGlobal>(rt: &R, run: &impl OfOne) {
    let (table, root) = opened(rt, rt.alloc(), 10);
    let mut root = root;
    let mut seat = table.split(&mut root);
    run.run(rt, rt.alloc(), &table, &mut seat);
    is(rt, u64::from(root.next()), 2);
    drop(seat);
    ends(rt, table, root);
}

/// What two threads do that have done nothing before.
pub(crate) trait OfTwo {
    fn run<R: Abort>(&self, rt: &R, alloc: Global, table: &Table, one: &mut Seat, two: &mut Seat)
        requires limit { table.now.local_limit ≡ 4294967294 }
        requires first { StandsAt [] table.now one.old }
        requires second { StandsAt [] table.now two.old };
}

/// They do so at a new table, which then has so many blocks left: those of the immortals, and of what lives.
pub(crate) fn for_two<R: Abort + AllocGlobal>(rt: &R, run: &impl OfTwo, blocks: u32) {
    let ((table, root), (one, two)) = opened_for_two(rt, rt.alloc());
    let (mut one, mut two) = (one, two);
    run.run(rt, rt.alloc(), &table, &mut one, &mut two);
    drop(one);
    drop(two);
    assert_eq!(rt; end_all(rt, table.take_apart(root)), blocks);
}
