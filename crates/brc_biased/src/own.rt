//! The end of an own object's local count.

ghost use Rattle.std.specs.Prelude.{◌≡◌, ◌-◌, ◌==◌, ◌<◌, ◌≤◌, ◌≢◌, ℕ, if◌then◌else◌, true, length, None};
ghost use Rattle.brc_words.specs.declared.limits.TheConstants.{FIRST_MORTAL};
ghost use Rattle.brc_table.specs.law.world.Heap.{words_for};
ghost use Rattle.brc_table.specs.law.world.Lists.{bit_of};
ghost use Rattle.brc_table.specs.law.world.Steps.{is_active};
ghost use Rattle.brc_table.specs.law.declared.world.row.Hand.TheVariants as hands;
ghost use Rattle.brc_table.specs.law.declared.world.row.Phase.TheVariants as phases;
ghost use Rattle.brc_table.specs.law.rule.Seen.{part_seen, counts_seen};
ghost use Rattle.brc_table.specs.Knowing.{known_seen, entries_of};
ghost use Rattle.brc_table.specs.Moving.{is_there};
ghost use Rattle.brc_table.specs.Seated.{Continues};
ghost use Rattle.brc_biased.specs.Released.{IsTakenBlock, EndedOwn, GoesOwn};
ghost use Rattle.brc_biased.specs.Standing.{MayCountDown, MayDrop, SameCounts, FillsNoPlace, ending, released};
ghost use Rattle.brc_biased.specs.Up.{KnowsPart};

use crate::owned::clear_owned;
use brc_table::block::Block;
use brc_table::law::world::Dropped;
use brc_table::{Found, HeapTable, ThreadSeat};
use std::alloc::Allocator;

/// The thread's count of its own object came to 0: if no count of others is left and nobody asked, the object is dead;
/// else the counts are merged.
#[inline(always)]
pub(crate) fn end_own<A: Allocator>(
    table: &HeapTable<A>,
    seat: &mut ThreadSeat<A>,
    owned: &mut Vec<u64, A>,
    cell: u32,
) -> Option<Block<A>>
    requires table { seat.old.table ≡ table.now.table }
    requires inside { cell < table.now.cells }
    requires words { length owned.old.items ≡ words_for table.now.cells }
    requires stands { MayCountDown table.now.cells seat.old.log (hands.Busy phases.Zero cell) }
    requires active { is_active (part_seen table.now.cells seat.old.log).row.stage ≡ true }
    requires counted { counts_seen table.now.cells seat.old.log cell ≡ 0 }
    ensures told { EndedOwn cell result seat.old.log seat.new.log }
    ensures block { IsTakenBlock table.now.cells cell result seat.old seat.new }
    ensures seat { Continues seat.old seat.new }
    ensures knows { KnowsPart table.now.cells seat.new.log
        (ending (is_there result) cell (entries_of result) (known_seen table.now.cells seat.old.log)) }
    ensures counts { SameCounts table.now.cells seat.old.log seat.new.log }
    ensures keeps { FillsNoPlace table.now.cells seat.old.log seat.new.log }
    ensures words { length owned.new.items ≡ length owned.old.items }
    ensures others { (c : ℕ) → c ≢ cell → bit_of owned.new.items c ≡ bit_of owned.old.items c }
{
    // Others may count up and down, and ask, beside this look. The word isn't merged, so no step of theirs takes the
    // block.
    let Found {
        number: _number,
        block,
    } = table.see_zero(seat, cell);
    if let Some(block) = block {
        return Some(block);
    }

    // The owner word goes to 0 before the state does to merged: from the merge on another thread may free the cell, and
    // a late store here would then fall on whoever has claimed it since.
    clear_owned(owned, cell);
    table.untie_over(seat, cell);
    let Found {
        number: _number,
        block,
    } = table.merge_zero(seat, cell);
    block
}

/// A reference to an own object goes: the thread counts it down, from the count that its log tells.
#[inline(always)]
pub(crate) fn release_own<A: Allocator>(
    table: &HeapTable<A>,
    seat: &mut ThreadSeat<A>,
    owned: &mut Vec<u64, A>,
    drop: Dropped,
    cell: u32,
    count: u32,
) -> Option<Block<A>>
    requires table { seat.old.table ≡ table.now.table }
    requires inside { cell < table.now.cells }
    requires words { length owned.old.items ≡ words_for table.now.cells }
    requires holds { MayDrop table.now.cells seat.old.log drop cell }
    requires active { is_active (part_seen table.now.cells seat.old.log).row.stage ≡ true }
    requires mortal { FIRST_MORTAL ≤ cell }
    requires counted { counts_seen table.now.cells seat.old.log cell ≡ count }
    requires some_count { 0 < count }
    ensures told { GoesOwn table.now.cells drop cell result seat.old.log seat.new.log }
    ensures block { IsTakenBlock table.now.cells cell result seat.old seat.new }
    ensures seat { Continues seat.old seat.new }
    ensures knows { KnowsPart table.now.cells seat.new.log
        (released (is_there result) drop cell (entries_of result) (known_seen table.now.cells seat.old.log)) }
    ensures counts { (c : ℕ) → counts_seen table.now.cells seat.new.log c ≡
        (if c == cell then count - 1 else counts_seen table.now.cells seat.old.log c) }
    ensures keeps { FillsNoPlace table.now.cells seat.old.log seat.new.log }
    ensures words { length owned.new.items ≡ length owned.old.items }
    ensures others { (c : ℕ) → c ≢ cell → bit_of owned.new.items c ≡ bit_of owned.old.items c }
    ensures kept { 1 < count → owned.new ≡ owned.old }
    ensures lives { 1 < count → result ≡ None }
{
    table.local_down(seat, drop, cell, count);
    if count == 1 {
        return end_own(table, seat, owned, cell);
    }
    None
}
