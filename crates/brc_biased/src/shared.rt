//! Releases by a thread that has no local count of the object.

ghost use Rattle.std.specs.Prelude.{◌≡◌, ◌<◌, ◌≤◌, true};
ghost use Rattle.brc_words.specs.declared.limits.TheConstants.{FIRST_MORTAL};
ghost use Rattle.brc_table.specs.law.declared.world.event.LastDropped.TheVariants as lasts;
ghost use Rattle.brc_table.specs.law.declared.world.event.Step.TheVariants as steps;
ghost use Rattle.brc_table.specs.law.rule.Seen.{counts_seen, risen_seen};
ghost use Rattle.brc_table.specs.Knowing.{known_seen, entries_of};
ghost use Rattle.brc_table.specs.Moving.{is_there};
ghost use Rattle.brc_table.specs.Seated.{Continues};
ghost use Rattle.brc_biased.specs.Released.{EndsByStep, IsTakenBlock, Asks, GoesShared};
ghost use Rattle.brc_biased.specs.Standing.{MayDrop, SameCounts, FillsNoPlace, released};
ghost use Rattle.brc_biased.specs.Up.{KnowsPart};

use crate::asked::hand_over;
use brc_table::block::Block;
use brc_table::law::world::Dropped;
use brc_table::{Found, HeapTable, ThreadSeat};
use brc_words::{has_count, is_risen_word};
use std::alloc::Allocator;

/// The reference goes in one event: the object was seen queued or merged.
#[inline(always)]
pub(crate) fn release_risen<A: Allocator>(
    table: &HeapTable<A>,
    seat: &mut ThreadSeat<A>,
    drop: Dropped,
    cell: u32,
) -> Option<Block<A>>
    requires table { seat.old.table ≡ table.now.table }
    requires inside { cell < table.now.cells }
    requires holds { MayDrop table.now.cells seat.old.log drop cell }
    requires mortal { FIRST_MORTAL ≤ cell }
    requires counted { counts_seen table.now.cells seat.old.log cell ≡ 0 }
    requires risen { risen_seen table.now.cells seat.old.log drop cell ≡ true }
    ensures told { EndsByStep (steps.LastDown (lasts.Dropped drop)) cell result seat.old.log seat.new.log }
    ensures block { IsTakenBlock table.now.cells cell result seat.old seat.new }
    ensures seat { Continues seat.old seat.new }
    ensures knows { KnowsPart table.now.cells seat.new.log
        (released (is_there result) drop cell (entries_of result) (known_seen table.now.cells seat.old.log)) }
    ensures counts { SameCounts table.now.cells seat.old.log seat.new.log }
    ensures keeps { FillsNoPlace table.now.cells seat.old.log seat.new.log }
{
    // Others may count down beside this. Only the step that brings a merged count to 0 takes the block.
    let Found {
        number: _number,
        block,
    } = table.last_down(seat, drop, cell);
    block
}

/// The thread asks: its reference is to be merged, and is in its hand now; or somebody had asked before, or merged.
#[inline(never)]
pub(crate) fn release_asking<A: Allocator>(
    table: &HeapTable<A>,
    seat: &mut ThreadSeat<A>,
    drop: Dropped,
    cell: u32,
) -> Option<Block<A>>
    requires table { seat.old.table ≡ table.now.table }
    requires inside { cell < table.now.cells }
    requires holds { MayDrop table.now.cells seat.old.log drop cell }
    requires mortal { FIRST_MORTAL ≤ cell }
    requires counted { counts_seen table.now.cells seat.old.log cell ≡ 0 }
    ensures told { Asks drop cell result seat.old.log seat.new.log }
    ensures block { IsTakenBlock table.now.cells cell result seat.old seat.new }
    ensures seat { Continues seat.old seat.new }
    ensures knows { KnowsPart table.now.cells seat.new.log
        (released (is_there result) drop cell (entries_of result) (known_seen table.now.cells seat.old.log)) }
    ensures counts { SameCounts table.now.cells seat.old.log seat.new.log }
    ensures keeps { FillsNoPlace table.now.cells seat.old.log seat.new.log }
{
    // Others may count, ask or merge before this step: the reference that goes keeps the object alive until then. Who
    // finds default is the one who asked, and its hand keeps the object alive now.
    let found = table.ask(seat, drop, cell);
    if is_risen_word(found) {
        return release_risen(table, seat, drop, cell);
    }
    hand_over(table, seat, cell)
}

/// The reference goes by a look at the shared word. One exchange is tried; where it is lost the word has moved, so the
/// count that was loaded says nothing any more, and asking is right at any count.
#[inline(always)]
pub(crate) fn release_shared<A: Allocator>(
    table: &HeapTable<A>,
    seat: &mut ThreadSeat<A>,
    drop: Dropped,
    cell: u32,
) -> Option<Block<A>>
    requires table { seat.old.table ≡ table.now.table }
    requires inside { cell < table.now.cells }
    requires holds { MayDrop table.now.cells seat.old.log drop cell }
    requires mortal { FIRST_MORTAL ≤ cell }
    requires counted { counts_seen table.now.cells seat.old.log cell ≡ 0 }
    ensures told { GoesShared drop cell result seat.old.log seat.new.log }
    ensures block { IsTakenBlock table.now.cells cell result seat.old seat.new }
    ensures seat { Continues seat.old seat.new }
    ensures knows { KnowsPart table.now.cells seat.new.log
        (released (is_there result) drop cell (entries_of result) (known_seen table.now.cells seat.old.log)) }
    ensures counts { SameCounts table.now.cells seat.old.log seat.new.log }
    ensures keeps { FillsNoPlace table.now.cells seat.old.log seat.new.log }
{
    // Another thread may move the word after this look. States only rise, so a risen one is still risen, and a count is
    // tried once.
    let word = table.load_shared(seat, cell);
    if is_risen_word(word) {
        return release_risen(table, seat, drop, cell);
    }
    if !has_count(word) {
        return release_asking(table, seat, drop, cell);
    }
    // If nobody stepped in between, the count goes down, and stays 0 or more.
    match table.shared_down(seat, drop, cell, word) {
        Ok(()) => None,
        Err(_) => release_asking(table, seat, drop, cell),
    }
}
