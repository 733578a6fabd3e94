//! A reference that the thread has asked to be merged: it goes into the owner's queue, or, where the object is nobody's
//! by now, is counted down here. A closed queue word says so too: an owner hands over what it owns before it closes.

ghost use Rattle.std.specs.Prelude.{◌≡◌, ◌<◌, ◌≤◌};
ghost use Rattle.brc_table.specs.law.declared.world.row.Hand.TheVariants as hands;
ghost use Rattle.brc_table.specs.law.declared.world.row.Phase.TheVariants as phases;
ghost use Rattle.brc_table.specs.law.rule.Seen.{counts_seen};
ghost use Rattle.brc_table.specs.Knowing.{known_seen, entries_of};
ghost use Rattle.brc_table.specs.Moving.{is_there};
ghost use Rattle.brc_table.specs.Seated.{Continues};
ghost use Rattle.brc_biased.specs.Released.{IsTakenBlock, Asked};
ghost use Rattle.brc_biased.specs.Standing.{MayCountDown, SameCounts, FillsNoPlace, ending};
ghost use Rattle.brc_biased.specs.Up.{KnowsPart};

use brc_table::block::Block;
use brc_table::{Enqueued, Found, HeapTable, ThreadSeat};
use std::alloc::Allocator;

/// The reference is in the hand, and the word turned to queued: the thread whose object it is gets it into its queue
/// and is told so; an object that is nobody's by now is counted down here.
pub(crate) fn hand_over<A: Allocator>(
    table: &HeapTable<A>,
    seat: &mut ThreadSeat<A>,
    cell: u32,
) -> Option<Block<A>>
    requires table { seat.old.table ≡ table.now.table }
    requires inside { cell < table.now.cells }
    requires stands { MayCountDown table.now.cells seat.old.log (hands.Busy phases.Asked cell) }
    requires counted { counts_seen table.now.cells seat.old.log cell ≡ 0 }
    ensures told { Asked cell result seat.old.log seat.new.log }
    ensures block { IsTakenBlock table.now.cells cell result seat.old seat.new }
    ensures seat { Continues seat.old seat.new }
    ensures knows { KnowsPart table.now.cells seat.new.log
        (ending (is_there result) cell (entries_of result) (known_seen table.now.cells seat.old.log)) }
    ensures counts { SameCounts table.now.cells seat.old.log seat.new.log }
    ensures keeps { FillsNoPlace table.now.cells seat.old.log seat.new.log }
{
    // The owner may untie the object right after this look, leave, and its number may be another thread's then. A stale
    // number does no harm: the word found below is closed, or its bearer finds the object merged.
    let owner = table.load_owner(seat, cell);
    if owner == 0 {
        // Others may count down beside this. Only the step that brings the merged count to 0 takes the block.
        let Found {
            number: _number,
            block,
        } = table.last_nobodys(seat, cell);
        return block;
    }
    let owner = owner as u32;
    // Once the bit is in an open word, the owner may take it and free the object at once: it isn't touched from here on.
    if let Enqueued::Closed = table.enqueue(seat, cell, owner) {
        // The owner is leaving, or has left. It handed over what it owned before it closed a word, so the object is
        // nobody's. Others may count down beside this. Only the step that brings the merged count to 0 takes the
        // block.
        let Found {
            number: _number,
            block,
        } = table.last_shut(seat, cell);
        return block;
    }

    // The bit may be gone by now, or the number another thread's: the next poll there finds nothing.
    let _told = table.nudge(seat, owner, cell / 32);
    None
}
