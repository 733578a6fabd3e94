//! Making objects: each is born in a cell that the thread has claimed, and its first reference is a place of the frame.

ghost use Rattle.std.specs.Prelude.{◌≡◌, ◌<◌, [], IfOk, IfErr, OnOk, OnErr, true};
ghost use Rattle.brc_words.specs.Kinds.{is_mortal};
ghost use Rattle.brc_words.specs.declared.limits.TheConstants.{MOST_PLACES, MOST_BIRTHS};
ghost use Rattle.brc_table.specs.law.rule.Logs.{kind_in, entries_in};
ghost use Rattle.brc_table.specs.Shown.{contents_of};
ghost use Rattle.brc_count.specs.Frames.{handle_at, IsActive, IsUnlocked, IsAsBefore, ledger_seen, popped_seen};
ghost use Rattle.brc_count.specs.Making.{Made, FoundNone, RefusedMaking};

use crate::held::PlaceEntry;
use crate::holdings::Holdings;
use brc_biased::HasTable;
use brc_table::block::{Block, Payload};
use brc_words::{Fault, MOST_BIRTHS};
use std::alloc::Allocator;

impl<H: HasTable<A>, A: Allocator> Holdings<H, A> {
    /// Has a place and a block ready for a new object. The faults come in this order: FrameFull, LedgerFull,
    /// OutOfMemory.
    #[inline(always)]
    fn ready(&mut self, alloc: A, payload: Payload<A>) -> Result<Block<A>, (Fault, Payload<A>)>
        ensures block { IfOk result (λ block. block.1 ≡ payload) }
        ensures room { OnOk result (0 < self.new.spare) }
        ensures low { OnOk result (self.old.next < MOST_PLACES) }
        ensures few { OnOk result ((ledger_seen self.old).allocs < MOST_BIRTHS) }
        ensures same { IsAsBefore self.old self.new }
        ensures refused { IfErr result (λ back. RefusedMaking self.old self.new back.0) }
        ensures back { IfErr result (λ back. back.1 ≡ payload) }
    {
        let spare = self.places.has_spare();
        if !spare && self.is_full() {
            return Err((Fault::FrameFull, payload));
        }
        if self.ledger.allocs >= MOST_BIRTHS {
            return Err((Fault::LedgerFull, payload));
        }
        if !spare && !self.places.grow() {
            return Err((Fault::OutOfMemory, payload));
        }
        Block::new(alloc, 0, payload)
    }

    /// The block becomes a new object, in the first cell that is to be had from where claims begin; it is answered
    /// where none is.
    #[inline(always)]
    fn make(&mut self, block: Block<A>) -> Result<u32, Block<A>>
        requires low { self.old.next < MOST_PLACES }
        requires room { 0 < self.old.spare }
        requires few { (ledger_seen self.old).allocs < MOST_BIRTHS }
        requires active { IsActive self.old }
        requires unlocked { IsUnlocked self.old }
        requires mortal { is_mortal (kind_in (contents_of block.1)) ≡ true }
        requires empty { entries_in (contents_of block.1) ≡ [] }
        ensures heap { self.new.heap ≡ self.old.heap }
        ensures made { IfOk result (λ place.
            Made self.old self.new (contents_of block.1) (handle_at self.new place)) }
        ensures none { OnErr result (FoundNone self.old self.new) }
        ensures back { IfErr result (λ back. back ≡ block) }
        ensures popped { popped_seen self.new ≡ popped_seen self.old }
    {
        let kind = block.payload().kind();
        let Some(cell) = self.counter.seek_from(self.start.word()) else {
            return Err(block);
        };
        self.start.claimed(cell);
        let place = self.places.next();
        let mut block = block;
        block.set_cell(cell);
        self.counter.bear(block, kind, place);
        self.places.fill(place, PlaceEntry { cell, risen: false });
        self.ledger.allocs += 1;
        Ok(place)
    }

    /// A new object, and the place that has its first reference. A refusal hands the payload back.
    #[inline(always)]
    pub(crate) fn born(&mut self, alloc: A, payload: Payload<A>) -> Result<u32, (Fault, Payload<A>)>
        requires active { IsActive self.old }
        requires unlocked { IsUnlocked self.old }
        requires mortal { is_mortal (kind_in (contents_of payload)) ≡ true }
        requires empty { entries_in (contents_of payload) ≡ [] }
        ensures heap { self.new.heap ≡ self.old.heap }
        ensures made { IfOk result (λ place.
            Made self.old self.new (contents_of payload) (handle_at self.new place)) }
        ensures refused { IfErr result (λ back. RefusedMaking self.old self.new back.0) }
        ensures back { IfErr result (λ back. back.1 ≡ payload) }
        ensures popped { popped_seen self.new ≡ popped_seen self.old }
    {
        let block = self.ready(alloc, payload)?;
        match self.make(block) {
            Ok(place) => Ok(place),
            Err(block) => Err((Fault::HeapFull, block.into_payload())),
        }
    }
}
