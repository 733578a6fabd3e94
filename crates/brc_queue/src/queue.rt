//! The merge queues: references go into queue words and their bits are popped, notify words say which queue words to
//! look at, and a popped object's local count joins its shared one.

ghost use Rattle.std.specs.Prelude.{◌+◌, ◌*◌, ◌%◌, ◌≡◌, ◌<◌, ◌∷◌, Some};
ghost use Rattle.law.specs.world.Lists.{WORD_LIMIT};
ghost use Rattle.law.specs.world.Heap.{words_for};
ghost use Rattle.law.specs.declared.world.event.Step.TheVariants as steps;
ghost use Rattle.law.specs.declared.rule.told.Moved.TheVariants as moves;
ghost use Rattle.law.specs.declared.rule.told.LogItem.TheVariants as told;
ghost use Rattle.law.specs.world.Steps.{added_hand};
ghost use Rattle.law.specs.rule.Noted.{newest_step};
ghost use Rattle.law.specs.rule.Seen.{part_seen};
ghost use Rattle.law.specs.declared.world.row.Hand.TheVariants as hands;
ghost use Rattle.law.specs.declared.world.row.Phase.TheVariants as phases;
ghost use Rattle.law.specs.steps.Owing.{AddsLocal, MayStep, MayClose, Enqueues, Offers, MayNudge};
ghost use Rattle.law.specs.known.Going_On.{handing, popping, closing, reopening};
ghost use Rattle.brc_table.specs.Knowing.{known_seen, Knows, KeepsNotes};
ghost use Rattle.brc_table.specs.Seated.{IsSameSeat};
ghost use Rattle.brc_table.specs.Queued.{IsEnqueued, hand_left};

use brc_table::{Enqueued, HeapTable, ThreadSeat};
use std::alloc::Allocator;

/// The reference in the hand goes into the queue of the owner that was found.
pub fn enqueue<A: Allocator>(
    table: &HeapTable<A>,
    seat: &mut ThreadSeat<A>,
    cell: u32,
    owner: u32,
) -> Enqueued
    requires table { seat.old.table ≡ table.now.table }
    requires inside { cell < table.now.cells }
    requires enqueues { Enqueues table.now.cells seat.old.log cell owner }
    ensures told { IsEnqueued cell result seat.old.log seat.new.log }
    ensures seat { IsSameSeat seat.old seat.new }
    ensures knows { Knows table.now.cells seat.new.log
        (handing (hand_left cell result) (known_seen table.now.cells seat.old.log)) }
    ensures keeps { KeepsNotes table.now.cells seat.old.log seat.new.log }
{
    table.enqueue(seat, cell, owner)
}

/// Takes the bits of one of the thread's own queue words, which others may go on to fill.
pub fn drain_word<A: Allocator>(table: &HeapTable<A>, seat: &mut ThreadSeat<A>, word: u32) -> u64
    requires table { seat.old.table ≡ table.now.table }
    requires inside { word < words_for table.now.cells }
    requires allowed { MayStep table.now.cells seat.old.log (steps.Drain word) }
    ensures told { seat.new.log ≡ told.Stepped (steps.Drain word) result moves.Nothing ∷ seat.old.log }
    ensures seat { IsSameSeat seat.old seat.new }
    ensures knows { Knows table.now.cells seat.new.log (popping word result (known_seen table.now.cells seat.old.log)) }
    ensures keeps { KeepsNotes table.now.cells seat.old.log seat.new.log }
{
    table.drain(seat, word)
}

/// Closes one of the thread's own queue words, and takes its bits.
pub fn close_word<A: Allocator>(table: &HeapTable<A>, seat: &mut ThreadSeat<A>, word: u32) -> u64
    requires table { seat.old.table ≡ table.now.table }
    requires inside { word < words_for table.now.cells }
    requires closes { MayClose table.now.cells seat.old.log word }
    ensures told { seat.new.log ≡ told.Stepped (steps.Close word) result moves.Nothing ∷ seat.old.log }
    ensures seat { IsSameSeat seat.old seat.new }
    ensures knows { Knows table.now.cells seat.new.log
        (closing table.now.cells word (popping word result (known_seen table.now.cells seat.old.log))) }
    ensures keeps { KeepsNotes table.now.cells seat.old.log seat.new.log }
{
    table.close(seat, word)
}

/// Opens one of the thread's own queue words again, empty.
pub fn open_word<A: Allocator>(table: &HeapTable<A>, seat: &mut ThreadSeat<A>, word: u32)
    requires table { seat.old.table ≡ table.now.table }
    requires inside { word < words_for table.now.cells }
    requires allowed { MayStep table.now.cells seat.old.log (steps.Reopen word) }
    ensures told { seat.new.log ≡ told.Stepped (steps.Reopen word) 0 moves.Nothing ∷ seat.old.log }
    ensures seat { IsSameSeat seat.old seat.new }
    ensures knows { Knows table.now.cells seat.new.log
        (reopening table.now.cells word (known_seen table.now.cells seat.old.log)) }
    ensures keeps { KeepsNotes table.now.cells seat.old.log seat.new.log }
{
    table.open_word(seat, word);
}

/// An own object will be handed over: it counts as asked for.
pub fn offer<A: Allocator>(table: &HeapTable<A>, seat: &mut ThreadSeat<A>, cell: u32) -> u64
    requires table { seat.old.table ≡ table.now.table }
    requires inside { cell < table.now.cells }
    requires offers { Offers table.now.cells seat.old.log cell }
    ensures told { seat.new.log ≡ told.Stepped (steps.Offer cell) result moves.Nothing ∷ seat.old.log }
    ensures seat { IsSameSeat seat.old seat.new }
    ensures knows { Knows table.now.cells seat.new.log
        (handing (hands.Busy phases.Offered cell) (known_seen table.now.cells seat.old.log)) }
    ensures keeps { KeepsNotes table.now.cells seat.old.log seat.new.log }
{
    table.offer(seat, cell)
}

/// The local count, as the log told it before, joins the shared one; answers the shared word that was found. Its item
/// is told the sum.
pub fn merge_add<A: Allocator>(
    table: &HeapTable<A>,
    seat: &mut ThreadSeat<A>,
    cell: u32,
    local: u32,
) -> u64
    requires table { seat.old.table ≡ table.now.table }
    requires inside { cell < table.now.cells }
    requires adds { AddsLocal table.now.cells seat.old.log cell local }
    ensures told { seat.new.log ≡ told.Stepped (steps.MergeAdd cell) ((result + (local * 4 + 1)) % WORD_LIMIT) moves.Nothing
        ∷ seat.old.log }
    ensures seat { IsSameSeat seat.old seat.new }
    ensures knows { Knows table.now.cells seat.new.log
        (handing (added_hand cell (part_seen table.now.cells seat.old.log).row.hand)
        (known_seen table.now.cells seat.old.log)) }
    ensures keeps { KeepsNotes table.now.cells seat.old.log seat.new.log }
    ensures newest { newest_step seat.new.log ≡ Some (steps.MergeAdd cell) }
{
    table.merge_add(seat, cell, local)
}

/// Tells a thread that this one of its queue words has something, and answers what it was told before and hasn't taken
/// yet.
pub fn nudge<A: Allocator>(
    table: &HeapTable<A>,
    seat: &mut ThreadSeat<A>,
    thread: u32,
    word: u32,
) -> u64
    requires table { seat.old.table ≡ table.now.table }
    requires tells { MayNudge table.now.cells seat.old.log thread word }
    ensures told { seat.new.log ≡ told.Stepped (steps.Nudge thread word) result moves.Nothing ∷ seat.old.log }
    ensures seat { IsSameSeat seat.old seat.new }
    ensures knows { Knows table.now.cells seat.new.log (known_seen table.now.cells seat.old.log) }
    ensures keeps { KeepsNotes table.now.cells seat.old.log seat.new.log }
{
    table.nudge(seat, thread, word)
}

/// Takes what the thread was told: bit k says that something was put into one of its queue words from 32 k on.
pub fn wake<A: Allocator>(table: &HeapTable<A>, seat: &mut ThreadSeat<A>) -> u64
    requires table { seat.old.table ≡ table.now.table }
    requires allowed { MayStep table.now.cells seat.old.log steps.Wake }
    ensures told { seat.new.log ≡ told.Stepped steps.Wake result moves.Nothing ∷ seat.old.log }
    ensures seat { IsSameSeat seat.old seat.new }
    ensures knows { Knows table.now.cells seat.new.log (known_seen table.now.cells seat.old.log) }
    ensures keeps { KeepsNotes table.now.cells seat.old.log seat.new.log }
{
    table.wake(seat)
}
