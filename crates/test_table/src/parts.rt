//! The parts that worked runs share, as calls on one seat or on two.

ghost use Rattle.std.specs.Prelude.{◌≡◌, ◌≢◌, ◌%◌, [], None, pos};
ghost use Rattle.law.specs.declared.world.event.Change.TheVariants as changes;
ghost use Rattle.law.specs.declared.world.event.Dropped.TheVariants as drops;
ghost use Rattle.law.specs.declared.world.event.Source.TheVariants as sources;
ghost use Rattle.law.specs.declared.world.event.Step.TheVariants as steps;
ghost use Rattle.law.specs.rule.Seen.{part_seen, counts_seen};
ghost use Rattle.law.specs.steps.Owing.{MayCarry, EndsRisen, Enqueues, MayRaiseImmortal, MayRaiseShared, MayRelease};
ghost use Rattle.law.specs.steps.Owing.{MayUnlock};
ghost use Rattle.brc_table.specs.Seated.{Continues};
ghost use Rattle.test_table.specs.declared.holding.Held.TheVariants as held;
ghost use Rattle.test_table.specs.Parts.{StandsAt, Went, HasPopped, MayFree, globals_with, globals_log, locked_log};
ghost use Rattle.test_table.specs.Parts.{changed_log, more_log, asked_log, enqueued_log, seen_log, added_log};
ghost use Rattle.test_table.specs.Parts.{last_shared, born_log, shared_log, given_log, taken_back_log, merged_log};
ghost use Rattle.test_table.specs.Parts.{kept_log, shared_twice_log, counted_log, taken_log};

use crate::comparing::is;
use crate::helpers::{a_list, alive, claimed, gone, holding, locked};
use crate::holding::Held;
use crate::seats::{Seat, Table};
use brc_table::Found;
use brc_words::Kind;
use law::world::{Change, Dropped, Source};
use std::alloc::Global;
use std::process::Abort;

// ---- what a thread does more than once

/// The thread has the globals in this place.
fn has_globals(rt: &impl Abort, table: &Table, seat: &mut Seat, place: u32)
    requires stands { StandsAt seat.old.log table.now seat.old }
    requires raises { MayRaiseImmortal 512 seat.old.log (sources.Immortal 265) place 265 }
    ensures went { Went (globals_log place seat.old.log) seat.old seat.new }
{
    let found = table.immortal_up(seat, Source::Immortal(265), place, 265);
    is(rt, found, 4_294_967_295);
}

/// The globals aren't locked, and hold these; the thread, which has them in this place, locks them, and unlocks them
/// with those.
pub(crate) fn changes_globals(
    rt: &impl Abort,
    alloc: Global,
    table: &Table,
    seat: &mut Seat,
    place: u32,
    from: Held,
    to: Held,
    change: Change,
)
    requires stands { StandsAt seat.old.log table.now seat.old }
    requires carries { MayCarry 512 seat.old.log (steps.Lock place) 265 }
    requires unlocks { MayUnlock 512 (locked_log place from seat.old.log) (265, globals_with to) (globals_with from)
        change 265 }
    ensures went { Went (changed_log place from to change seat.old.log) seat.old seat.new }
{
    let globals = locked(rt, table, seat, place, from);
    let globals = holding(rt, alloc, globals, to);
    table.unlock(seat, globals, change);
}

/// The object isn't dead: a step has found this number, and no block.
pub(crate) fn lives(rt: &impl Abort, found: Found<Global>, wanted: u64)
    ensures number { found.number ≡ wanted }
    ensures alive { found.block ≡ None }
{
    let Found { number, block } = found;
    is(rt, number, wanted);
    alive(rt, block);
}

/// The thread counts the list that is in place 1 up, and has it in this place too: it finds this shared word.
pub(crate) fn counts_more(rt: &impl Abort, table: &Table, seat: &mut Seat, place: u32, shared: u64)
    requires stands { StandsAt seat.old.log table.now seat.old }
    requires raises { MayRaiseShared 512 table.now.local_limit seat.old.log (sources.Frame 1) place 266 }
    ensures went { Went (more_log place shared seat.old.log) seat.old seat.new }
{
    let found = table.shared_up(seat, Source::Frame(1), place, 266);
    is(rt, found, shared);
}

/// The thread asks for the list that is in place 1: it finds this shared word, and that thread 1 is the owner.
pub(crate) fn asks(rt: &impl Abort, table: &Table, seat: &mut Seat, shared: u64)
    requires stands { StandsAt seat.old.log table.now seat.old }
    requires releases { MayRelease 512 seat.old.log (steps.Ask (drops.Frame 1)) 266 }
    ensures went { Went (asked_log shared seat.old.log) seat.old seat.new }
{
    is(rt, table.ask(seat, Dropped::Frame(1), 266), shared);
    is(rt, table.load_owner(seat, 266), 1);
}

/// It asks, and hands its reference to the owner's queue, whose word has no entry.
pub(crate) fn asks_and_enqueues(rt: &impl Abort, table: &Table, seat: &mut Seat, shared: u64)
    requires stands { StandsAt seat.old.log table.now seat.old }
    requires releases { MayRelease 512 seat.old.log (steps.Ask (drops.Frame 1)) 266 }
    requires enqueues { Enqueues 512 (asked_log shared seat.old.log) 266 1 }
    ensures went { Went (enqueued_log shared seat.old.log) seat.old seat.new }
{
    asks(rt, table, seat, shared);
    is(rt, table.enqueue_word(seat, 266, 1), 0);
}

/// The list is popped, with this shared word: the thread makes it nobody's, and adds what the owner has counted.
pub(crate) fn merges_popped(
    rt: &impl Abort,
    table: &Table,
    seat: &mut Seat,
    shared: u64,
    local: u32,
)
    requires stands { StandsAt seat.old.log table.now seat.old }
    requires popped { HasPopped table.now.cells seat.old.log }
    requires unmerged { shared % 4 ≢ 3 }
    requires counted { counts_seen table.now.cells seat.old.log 266 ≡ local }
    ensures went { Went (added_log shared local seat.old.log) seat.old seat.new }
{
    is(rt, table.load_shared(seat, 266), shared);
    table.untie_popped(seat, 266, shared);
    is(rt, table.merge_add(seat, 266, local), shared);
}

/// The list is merged, and its last reference is in this place: the thread lets it go, and gives the cell back.
pub(crate) fn ends_what_is_merged(rt: &impl Abort, table: &Table, seat: &mut Seat, place: u32)
    requires stands { StandsAt seat.old.log table.now seat.old }
    requires last { EndsRisen 512 (seen_log last_shared seat.old.log) (drops.Frame place) 266 }
    requires frees { MayFree (part_seen 512 seat.old.log) }
    ensures slots { seat.new.slots ≡ [] }
    ensures seat { Continues seat.old seat.new }
{
    is(rt, table.load_shared(seat, 266), 4_398_046_511_111);
    let Found { number, block } = table.last_down(seat, Dropped::Frame(place), 266);
    is(rt, number, 4_398_046_511_111);
    gone(rt, table, seat, block, 266);
}

// ---- the owner

/// A thread that has done nothing makes a list at cell 266, and has it in place 0.
pub(crate) fn makes_a_list(rt: &impl Abort, alloc: Global, table: &Table, seat: &mut Seat)
    requires new { StandsAt [] table.now seat.old }
    ensures went { Went (born_log seat.old.thread) seat.old seat.new }
{
    let list = a_list(rt, alloc, 266);
    claimed(rt, table, seat, 266);
    table.init_local(seat, 266);
    table.init_shared(seat, 266);
    table.birth(seat, list, Kind::List, 0);
}

/// It makes a list, and puts it into the globals.
pub(crate) fn shares_a_list(rt: &impl Abort, alloc: Global, table: &Table, seat: &mut Seat)
    requires new { StandsAt [] table.now seat.old }
    ensures went { Went (shared_log seat.old.thread) seat.old seat.new }
{
    makes_a_list(rt, alloc, table, seat);
    has_globals(rt, table, seat, 1);
    let list = Held::One { key: 1, cell: 266 };
    let put = Change::Put(0);
    changes_globals(rt, alloc, table, seat, 1, Held::Nothing, list, put);
}

/// It makes a list, puts it into the globals, and has nothing any more.
pub(crate) fn gives_a_list(rt: &impl Abort, alloc: Global, table: &Table, seat: &mut Seat)
    requires new { StandsAt [] table.now seat.old }
    ensures went { Went (given_log seat.old.thread) seat.old seat.new }
{
    shares_a_list(rt, alloc, table, seat);
    let found = table.immortal_down(seat, Dropped::Frame(1), 265);
    is(rt, found, 4_294_967_295);
}

/// It makes a list, has it twice, and has the globals in place 2.
pub(crate) fn keeps_a_list_twice(rt: &impl Abort, alloc: Global, table: &Table, seat: &mut Seat)
    requires limit { table.now.local_limit ≡ 4294967294 }
    requires new { StandsAt [] table.now seat.old }
    ensures went { Went (kept_log seat.old.thread) seat.old seat.new }
{
    makes_a_list(rt, alloc, table, seat);
    table.local_up(seat, Source::Frame(0), 1, 266, 1);
    has_globals(rt, table, seat, 2);
}

/// It makes a list, keeps a reference to it, and puts a second one into the globals.
pub(crate) fn keeps_and_shares_one(rt: &impl Abort, alloc: Global, table: &Table, seat: &mut Seat)
    requires limit { table.now.local_limit ≡ 4294967294 }
    requires new { StandsAt [] table.now seat.old }
    ensures went { Went (shared_twice_log seat.old.thread) seat.old seat.new }
{
    keeps_a_list_twice(rt, alloc, table, seat);
    let list = Held::One { key: 1, cell: 266 };
    let put = Change::Put(1);
    changes_globals(rt, alloc, table, seat, 2, Held::Nothing, list, put);
}

/// It takes its list out of the globals again.
fn takes_back(rt: &impl Abort, alloc: Global, table: &Table, seat: &mut Seat)
    requires shared { StandsAt (shared_log seat.old.thread) table.now seat.old }
    ensures went { Went (taken_back_log seat.old.thread) seat.old seat.new }
{
    let list = Held::One { key: 1, cell: 266 };
    let change = Change::Take { index: 0, place: 0 };
    changes_globals(rt, alloc, table, seat, 1, list, Held::Nothing, change);
}

/// It lets its list go: at count 0 it finds this shared word, which others counted or asked in, and merges.
pub(crate) fn merges_at_zero(rt: &impl Abort, table: &Table, seat: &mut Seat, shared: u64)
    requires back { StandsAt (taken_back_log seat.old.thread) table.now seat.old }
    ensures told { seat.new.log ≡ merged_log seat.old.thread shared }
    ensures slots { seat.new.slots ≡ [] }
    ensures seat { Continues seat.old seat.new }
{
    table.local_down(seat, Dropped::Frame(0), 266, 1);
    lives(rt, table.see_zero(seat, 266), shared);
    table.untie_over(seat, 266);
    lives(rt, table.merge_zero(seat, 266), shared);
}

// ---- another thread

/// A thread that has done nothing finds the list in the globals, and counts it up.
pub(crate) fn counts_what_is_shared(rt: &impl Abort, table: &Table, seat: &mut Seat)
    requires new { StandsAt [] table.now seat.old }
    ensures went { Went counted_log seat.old seat.new }
{
    has_globals(rt, table, seat, 0);
    let globals = locked(rt, table, seat, 0, Held::One { key: 1, cell: 266 });
    let found = table.shared_up(seat, Source::Entry(0), 1, 266);
    is(rt, found, 4_398_046_511_104);
    table.unlock(seat, globals, Change::Keep);
}

/// It takes the first reference to the list out of the globals, which hold these, and leaves those.
pub(crate) fn takes_out(
    rt: &impl Abort,
    alloc: Global,
    table: &Table,
    seat: &mut Seat,
    from: Held,
    to: Held,
)
    requires new { StandsAt [] table.now seat.old }
    requires unlocks { MayUnlock 512 (locked_log 0 from (globals_log 0 [])) (265, globals_with to) (globals_with from)
        (changes.Take 0 1) 265 }
    ensures went { Went (taken_log from to) seat.old seat.new }
{
    has_globals(rt, table, seat, 0);
    let change = Change::Take { index: 0, place: 1 };
    changes_globals(rt, alloc, table, seat, 0, from, to, change);
}

/// It takes the one reference to the list out of the globals, which they have under the key 1.
pub(crate) fn takes_what_is_shared(rt: &impl Abort, alloc: Global, table: &Table, seat: &mut Seat)
    requires new { StandsAt [] table.now seat.old }
    ensures went { Went (taken_log (held.One (pos 1) 266) held.Nothing) seat.old seat.new }
{
    let list = Held::One { key: 1, cell: 266 };
    takes_out(rt, alloc, table, seat, list, Held::Nothing);
}

// ---- the two

/// The first shares a list, the second counts it up, and the first takes its own reference out of the globals again.
pub(crate) fn shares_and_takes_back(
    rt: &impl Abort,
    alloc: Global,
    table: &Table,
    one: &mut Seat,
    two: &mut Seat,
)
    requires first { StandsAt [] table.now one.old }
    requires second { StandsAt [] table.now two.old }
    ensures first { Went (taken_back_log one.old.thread) one.old one.new }
    ensures second { Went counted_log two.old two.new }
{
    shares_a_list(rt, alloc, table, one);
    counts_what_is_shared(rt, table, two);
    takes_back(rt, alloc, table, one);
}
