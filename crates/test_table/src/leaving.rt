//! A thread that holds nothing hands its list over on its way out, and closes all its queue words: before another one
//! asks for the list, or after; and its number is used again. These are calls on the seats of two threads that one test
//! holds, of the queues where there is one, and each answers what the trace's step finds.

ghost use Rattle.std.specs.Prelude.{◌≡◌, [], pos};
ghost use Rattle.law.specs.rule.Seen.{part_seen};
ghost use Rattle.brc_table.specs.Seated.{IsSameSeat};
ghost use Rattle.test_table.specs.declared.holding.Held.TheVariants as held;
ghost use Rattle.test_table.specs.Leaving.{HoldsNothing, CountsNone, IsAsNew, left_with, opening_at};
ghost use Rattle.test_table.specs.Parts.{StandsAt, Went, asked_log, given_log, handed_log, taken_log};

use crate::comparing::is;
use crate::helpers::{ends, gone, opened, opened_for_two};
use crate::parts::{asks, asks_and_enqueues, gives_a_list, lives, takes_what_is_shared};
use crate::seats::{OfTwo, Seat, Table, for_two};
use brc_queue::{Enqueued, close_word, drain_word, enqueue, nudge, offer, open_word, wake};
use brc_table::Found;
use law::world::Dropped;
use std::alloc::Global;
use std::process::Abort;

/// The queue word of the list's cell.
const WORD: u32 = 8;

/// The thread closes all its queue words: the one of the list's cell has these bits, and every other one has none.
fn closes_all(rt: &impl Abort, table: &Table, seat: &mut Seat, bits: u64)
    requires table { seat.old.table ≡ table.now.table }
    requires cells { table.now.cells ≡ 512 }
    requires nothing { HoldsNothing (part_seen 512 seat.old.log) }
    requires none { CountsNone seat.old.log }
    ensures seat { IsSameSeat seat.old seat.new }
    ensures left { part_seen 512 seat.new.log ≡ left_with bits (part_seen 512 seat.old.log) }
{
    for word in 0..16 {
        let found = close_word(table, seat, word);
        let expected = if word == WORD { bits } else { 0 };
        is(rt, found, expected);
    }
}

/// A thread whose number was used before opens all its queue words.
fn opens_all(table: &Table, seat: &mut Seat)
    requires table { seat.old.table ≡ table.now.table }
    requires cells { table.now.cells ≡ 512 }
    requires opening { part_seen 512 seat.old.log ≡ opening_at 0 (part_seen 512 []) }
    ensures seat { IsSameSeat seat.old seat.new }
    ensures opened { IsAsNew seat.new.log }
{
    for word in 0..16 {
        open_word(table, seat, word);
    }
}

/// The owner, which has put its list into the globals, offers it, makes it nobody's, and merges it. Another one has
/// asked for it.
fn hands_over(rt: &impl Abort, table: &Table, seat: &mut Seat)
    requires given { StandsAt (given_log seat.old.thread) table.now seat.old }
    ensures went { Went (handed_log seat.old.thread) seat.old seat.new }
{
    is(rt, offer(table, seat, 266), 4_398_046_511_106);
    table.untie_offered(seat, 266);

    // The answer is the sum: one reference of a merged list.
    let found = table.merge_yielding(seat, 266, 1);
    lives(rt, found, 4_398_046_511_111);
}

/// The second thread has asked for the list that the first hands over, and then the first leaves.
fn leaves_what_is_asked_for(
    rt: &impl Abort,
    alloc: Global,
    table: &Table,
    one: &mut Seat,
    two: &mut Seat,
)
    requires first { StandsAt [] table.now one.old }
    requires second { StandsAt [] table.now two.old }
    ensures first { IsSameSeat one.old one.new }
    ensures left { part_seen 512 one.new.log ≡ left_with 0 (part_seen 512 (handed_log one.old.thread)) }
    ensures second { Went (asked_log 4398046511104 (taken_log (held.One (pos 1) 266) held.Nothing)) two.old two.new }
{
    gives_a_list(rt, alloc, table, one);
    takes_what_is_shared(rt, alloc, table, two);
    asks(rt, table, two, 4_398_046_511_104);
    hands_over(rt, table, one);
    closes_all(rt, table, one, 0);
}

/// The asker meets a closed word, and has the last reference in its hand.
struct AsksOneThatLeft;

impl OfTwo for AsksOneThatLeft {
    fn run<R: Abort>(&self, rt: &R, alloc: Global, table: &Table, one: &mut Seat, two: &mut Seat) {
        leaves_what_is_asked_for(rt, alloc, table, one, two);
        let Enqueued::Closed = enqueue(table, two, 266, 1) else {
            panic!(rt; "the word is open")
        };
        let Found { number, block } = table.last_shut(two, 266);
        is(rt, number, 4_398_046_511_111);
        gone(rt, table, two, block, 266);
    }
}

#[test]
fn a_closed_word_takes_nothing(rt: HostRuntime) {
    for_two(&rt, &AsksOneThatLeft, 266);
}

/// The second thread counts the list down between the offer and the merge, which finds one reference less than none.
struct EndsByAHandOver;

impl OfTwo for EndsByAHandOver {
    fn run<R: Abort>(&self, rt: &R, alloc: Global, table: &Table, one: &mut Seat, two: &mut Seat) {
        gives_a_list(rt, alloc, table, one);
        takes_what_is_shared(rt, alloc, table, two);
        is(rt, offer(table, one, 266), 4_398_046_511_104);
        is(rt, table.load_shared(two, 266), 4_398_046_511_106);
        let found = table.last_down(two, Dropped::Frame(1), 266);
        lives(rt, found, 4_398_046_511_106);
        table.untie_offered(one, 266);
        let Found { number, block } = table.merge_yielding(one, 266, 1);
        is(rt, number, 4_398_046_511_107);
        gone(rt, table, one, block, 266);
    }
}

#[test]
fn an_object_ends_as_it_is_handed_over(rt: HostRuntime) {
    for_two(&rt, &EndsByAHandOver, 266);
}

/// The reference is in the owner's queue before it leaves. It finds the entry as it closes the word, and lets it go.
struct LeavesWithAnEntry;

impl OfTwo for LeavesWithAnEntry {
    fn run<R: Abort>(&self, rt: &R, alloc: Global, table: &Table, one: &mut Seat, two: &mut Seat) {
        gives_a_list(rt, alloc, table, one);
        takes_what_is_shared(rt, alloc, table, two);
        asks_and_enqueues(rt, table, two, 4_398_046_511_104);
        hands_over(rt, table, one);
        closes_all(rt, table, one, 1_024);
        let Found { number, block } = table.last_left(one, 266);
        is(rt, number, 4_398_046_511_111);
        gone(rt, table, one, block, 266);
    }
}

#[test]
fn a_thread_leaves_with_an_entry(rt: HostRuntime) {
    for_two(&rt, &LeavesWithAnEntry, 266);
}

#[test]
fn a_thread_leaves_and_is_gathered(rt: HostRuntime) {
    let (table, root) = opened(&rt, rt.alloc(), 4_294_967_294);
    let mut root = root;
    let mut one = table.split(&mut root);
    assert_eq!(rt; root.next(), 2);
    closes_all(&rt, &table, &mut one, 0);
    table.join(&mut root, one);
    assert_eq!(rt; root.next(), 1);
    ends(&rt, table, root);
}

/// The asker, which has looked at the owner before that left, puts its reference into the queue of the number's next
/// bearer; who counts it down, and ends the list.
fn queues_at_the_next(rt: &impl Abort, table: &Table, next: &mut Seat, two: &mut Seat)
    requires tables { (next.old.table ≡ table.now.table) × (table.now.cells ≡ 512) }
    requires next { IsAsNew next.old.log }
    requires slots { next.old.slots ≡ [] }
    requires second { StandsAt (asked_log 4398046511104 (taken_log (held.One (pos 1) 266) held.Nothing)) table.now two.old }
    ensures first { next.new.table ≡ next.old.table }
    ensures second { two.new.table ≡ two.old.table }
{
    let Enqueued::Accepted = enqueue(table, two, 266, 1) else {
        panic!(rt; "the word is closed")
    };
    is(rt, nudge(table, two, 1, WORD), 0);
    is(rt, wake(table, next), 1);
    is(rt, drain_word(table, next, WORD), 1_024);
    is(rt, table.load_shared(next, 266), 4_398_046_511_111);
    let Found { number, block } = table.last_popped(next, 266, 4_398_046_511_111);
    is(rt, number, 4_398_046_511_111);
    gone(rt, table, next, block, 266);
}

#[test]
fn a_reference_is_queued_at_the_next_bearer(rt: HostRuntime) {
    let ((table, root), (one, two)) = opened_for_two(&rt, rt.alloc());
    let (mut root, mut one, mut two) = (root, one, two);
    leaves_what_is_asked_for(&rt, rt.alloc(), &table, &mut one, &mut two);
    table.join(&mut root, one);
    assert!(rt; root.next() == 1 && root.is_again());
    let mut next = table.split(&mut root);
    opens_all(&table, &mut next);
    queues_at_the_next(&rt, &table, &mut next, &mut two);
    drop(next);
    drop(two);
    ends(&rt, table, root);
}
