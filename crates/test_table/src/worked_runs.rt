//! The worked runs of the examples, as calls on the seats of up to three threads that one test holds. Each call answers
//! what the trace's step finds.

ghost use Rattle.std.specs.Prelude.{◌≡◌, []};
ghost use Rattle.test_table.specs.Parts.{StandsAt};

use crate::comparing::is;
use crate::helpers::{ends, gone, opened, opened_for_two};
use crate::holding::Held;
use crate::parts::{
    asks, asks_and_enqueues, changes_globals, counts_more, counts_what_is_shared,
    ends_what_is_merged, keeps_a_list_twice, keeps_and_shares_one, lives, makes_a_list,
    merges_at_zero, merges_popped, shares_a_list, shares_and_takes_back, takes_out,
    takes_what_is_shared,
};
use crate::seats::{OfTwo, Seat, Table, for_two};
use brc_table::Found;
use law::world::{Change, Dropped, Source};
use std::alloc::Global;
use std::process::Abort;

/// The owner lets its list go: at count 0 it finds the other's count, and merges. The other's reference is then the
/// last.
struct EndsWhatWasMerged;

impl OfTwo for EndsWhatWasMerged {
    fn run<R: Abort>(&self, rt: &R, alloc: Global, table: &Table, one: &mut Seat, two: &mut Seat) {
        shares_and_takes_back(rt, alloc, table, one, two);
        merges_at_zero(rt, table, one, 4_398_046_511_108);
        ends_what_is_merged(rt, table, two, 1);
        is(rt, table.load_free(one, 4), 18_446_744_073_709_550_592);
    }
}

#[test]
fn objects_merge_at_zero(rt: HostRuntime) {
    for_two(&rt, &EndsWhatWasMerged, 266);
}

/// The owner merges at zero; the other thread counts the list up, shares it once more, and ends it.
struct PutsBackAMergedList;

impl OfTwo for PutsBackAMergedList {
    fn run<R: Abort>(&self, rt: &R, alloc: Global, table: &Table, one: &mut Seat, two: &mut Seat) {
        shares_and_takes_back(rt, alloc, table, one, two);
        merges_at_zero(rt, table, one, 4_398_046_511_108);

        // The second counts the merged list up, and puts that reference into the globals.
        counts_more(rt, table, two, 2, 4_398_046_511_111);
        let list = Held::One { key: 1, cell: 266 };
        let put = Change::Put(2);
        changes_globals(rt, alloc, table, two, 0, Held::Nothing, list, put);

        // The first takes it out, and gives it up; the second's is the last.
        let change = Change::Take { index: 0, place: 0 };
        changes_globals(rt, alloc, table, one, 1, list, Held::Nothing, change);
        is(rt, table.load_shared(one, 266), 4_398_046_511_115);
        let found = table.last_down(one, Dropped::Frame(0), 266);
        lives(rt, found, 4_398_046_511_115);
        ends_what_is_merged(rt, table, two, 1);
        is(rt, table.load_free(one, 4), 18_446_744_073_709_550_592);
    }
}

#[test]
fn merged_object_is_put_back(rt: HostRuntime) {
    for_two(&rt, &PutsBackAMergedList, 266);
}

/// The second thread asks, and the owner drains its queue.
struct AsksAndDrains;

impl OfTwo for AsksAndDrains {
    fn run<R: Abort>(&self, rt: &R, alloc: Global, table: &Table, one: &mut Seat, two: &mut Seat) {
        keeps_and_shares_one(rt, alloc, table, one);

        // The second takes the reference that is in the globals, and asks the owner to merge.
        takes_what_is_shared(rt, alloc, table, two);
        asks_and_enqueues(rt, table, two, 4_398_046_511_104);
        is(rt, table.nudge(two, 1, 8), 0);

        // The owner drains its queue, and merges; its own reference is the last.
        is(rt, table.wake(one), 1);
        is(rt, table.drain(one, 8), 1_024);
        merges_popped(rt, table, one, 4_398_046_511_106, 2);
        lives(rt, table.last_added(one, 266), 4_398_046_511_115);
        ends_what_is_merged(rt, table, one, 0);
    }
}

#[test]
fn asked_object_is_drained(rt: HostRuntime) {
    for_two(&rt, &AsksAndDrains, 266);
}

/// The owner merges between the ask and the entry in its queue.
struct AsksBeforeAMerge;

impl OfTwo for AsksBeforeAMerge {
    fn run<R: Abort>(&self, rt: &R, alloc: Global, table: &Table, one: &mut Seat, two: &mut Seat) {
        shares_and_takes_back(rt, alloc, table, one, two);

        // The second asks, and looks at the owner; then the owner merges on its own.
        asks(rt, table, two, 4_398_046_511_108);
        merges_at_zero(rt, table, one, 4_398_046_511_110);

        // The late entry is found merged, and is the last reference.
        is(rt, table.enqueue_word(two, 266, 1), 0);
        is(rt, table.drain(one, 8), 1_024);
        is(rt, table.load_shared(one, 266), 4_398_046_511_111);
        let Found { number, block } = table.last_popped(one, 266, 4_398_046_511_111);
        is(rt, number, 4_398_046_511_111);
        gone(rt, table, one, block, 266);
    }
}

#[test]
fn asker_enqueues_late(rt: HostRuntime) {
    for_two(&rt, &AsksBeforeAMerge, 266);
}

/// The first shares both of its references; two others give up one each, before it merges.
fn counts_below_zero(
    rt: &impl Abort,
    alloc: Global,
    table: &Table,
    one: &mut Seat,
    two: &mut Seat,
    three: &mut Seat,
)
    requires limit { table.now.local_limit ≡ 4294967294 }
    requires first { StandsAt [] table.now one.old }
    requires second { StandsAt [] table.now two.old }
    requires third { StandsAt [] table.now three.old }
{
    // The first puts both of its references into the globals; the second and the third take one each.
    keeps_a_list_twice(rt, alloc, table, one);
    let first = Held::One { key: 1, cell: 266 };
    let put = Change::Put(0);
    changes_globals(rt, alloc, table, one, 2, Held::Nothing, first, put);
    let both = Held::Two { cell: 266 };
    changes_globals(rt, alloc, table, one, 2, first, both, Change::Put(1));
    let second = Held::One { key: 2, cell: 266 };
    takes_out(rt, alloc, table, two, both, second);
    takes_out(rt, alloc, table, three, second, Held::Nothing);

    // The second asks; the third finds the list queued, and counts the shared word below 0.
    asks_and_enqueues(rt, table, two, 4_398_046_511_104);
    is(rt, table.load_shared(three, 266), 4_398_046_511_106);
    let found = table.last_down(three, Dropped::Frame(1), 266);
    lives(rt, found, 4_398_046_511_106);
    is(rt, table.load_shared(three, 266), 4_398_046_511_102);

    // The owner's count makes it whole: the popped entry is the last reference.
    is(rt, table.drain(one, 8), 1_024);
    merges_popped(rt, table, one, 4_398_046_511_102, 2);
    let Found { number, block } = table.last_added(one, 266);
    is(rt, number, 4_398_046_511_111);
    gone(rt, table, one, block, 266);
    is(rt, table.load_free(two, 4), 18_446_744_073_709_550_592);
}

#[test]
fn counts_go_below_zero(rt: HostRuntime) {
    let ((table, root), (one, two)) = opened_for_two(&rt, rt.alloc());
    let (mut root, mut one, mut two) = (root, one, two);
    let mut three = table.split(&mut root);
    counts_below_zero(&rt, rt.alloc(), &table, &mut one, &mut two, &mut three);
    drop(one);
    drop(two);
    drop(three);
    ends(&rt, table, root);
}

/// At its limit the owner counts in the shared word, and at count 0 it merges.
fn counts_in_the_shared_word(rt: &impl Abort, alloc: Global, table: &Table, one: &mut Seat)
    requires limit { table.now.local_limit ≡ 1 }
    requires first { StandsAt [] table.now one.old }
{
    makes_a_list(rt, alloc, table, one);
    let found = table.shared_up(one, Source::Frame(0), 1, 266);
    is(rt, found, 4_398_046_511_104);
    table.local_down(one, Dropped::Frame(1), 266, 1);
    lives(rt, table.see_zero(one, 266), 4_398_046_511_108);
    table.untie_over(one, 266);
    lives(rt, table.merge_zero(one, 266), 4_398_046_511_108);
    ends_what_is_merged(rt, table, one, 0);
}

#[test]
fn owner_counts_as_others_do_at_its_limit(rt: HostRuntime) {
    let (table, root) = opened(&rt, rt.alloc(), 1);
    let mut root = root;
    let mut one = table.split(&mut root);
    counts_in_the_shared_word(&rt, rt.alloc(), &table, &mut one);
    drop(one);
    ends(&rt, table, root);
}

/// The second counts down by a word that has moved, and then by the one that is there.
struct LosesAnExchange;

impl OfTwo for LosesAnExchange {
    fn run<R: Abort>(&self, rt: &R, alloc: Global, table: &Table, one: &mut Seat, two: &mut Seat) {
        keeps_and_shares_one(rt, alloc, table, one);
        counts_what_is_shared(rt, table, two);
        counts_more(rt, table, two, 2, 4_398_046_511_108);

        // An exchange that expects an older word is lost, and tells the number that is there; a new one is won.
        assert!(rt;
            table.shared_down(two, Dropped::Frame(2), 266, 4_398_046_511_108)
                == Err(4_398_046_511_112)
        );
        assert!(rt; table.shared_down(two, Dropped::Frame(2), 266, 4_398_046_511_112) == Ok(()));
        is(rt, table.load_shared(two, 266), 4_398_046_511_108);
    }
}

#[test]
fn an_exchange_is_lost(rt: HostRuntime) {
    // The list is still there.
    for_two(&rt, &LosesAnExchange, 267);
}

/// The second has counted the list up three times, and asks where the count is above zero, as one does that lost an
/// exchange.
struct AsksAboveZero;

impl OfTwo for AsksAboveZero {
    fn run<R: Abort>(&self, rt: &R, alloc: Global, table: &Table, one: &mut Seat, two: &mut Seat) {
        shares_a_list(rt, alloc, table, one);
        counts_what_is_shared(rt, table, two);
        counts_more(rt, table, two, 2, 4_398_046_511_108);
        counts_more(rt, table, two, 3, 4_398_046_511_112);
        asks_and_enqueues(rt, table, two, 4_398_046_511_116);
        is(rt, table.load_shared(one, 266), 4_398_046_511_118);
    }
}

#[test]
fn a_counted_object_is_asked_for(rt: HostRuntime) {
    // The list is still there.
    for_two(&rt, &AsksAboveZero, 267);
}
