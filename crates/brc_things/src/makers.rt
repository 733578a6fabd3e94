//! Makers: a handle to an immortal, or to a new object.

ghost use Rattle.std.specs.Prelude.{◌≡◌, ◌<◌, [], IfOk, IfErr, OnOk, OnErr, Some, None};
ghost use Rattle.brc_words.specs.declared.limits.TheConstants.{FIRST_MORTAL, MOST_PLACES, MOST_BIRTHS};
ghost use Rattle.brc_count.specs.law.declared.world.event.Source.TheVariants as sources;
ghost use Rattle.brc_count.specs.law.declared.rule.contents.Contents.TheVariants as contents;
ghost use Rattle.brc_count.specs.Frames.{GivenHandle, Refused, IsAsBefore, IsUnlocked, ledger_seen};
ghost use Rattle.brc_count.specs.Making.{Made, RefusedMaking};
ghost use Rattle.brc_count.specs.Owned.{Keeps, Gains};
ghost use Rattle.brc_things.specs.Makers.{small_cell, truth_cell, Answered, RefusedTo};

use brc_count::biased::HasTable;
use brc_count::block::{CellList, Letters, Pairs, Payload};
use brc_count::{Frame, HandedBack, Handle};
use brc_words::{Fault, MOST_BIRTHS, MOST_ENTRIES, MOST_PLACES, Text};
use std::alloc::Allocator;

/// None, which is cell 0. FrameFull, then OutOfMemory; a refusal changes nothing.
pub fn none<H: HasTable<A>, A: Allocator>(frame: &mut Frame<H, A>) -> Result<Handle<A>, Fault>
    requires unlocked { IsUnlocked frame.old }
    ensures heap { frame.new.heap ≡ frame.old.heap }
    ensures given { IfOk result (GivenHandle frame.old frame.new (sources.Immortal 0) 0) }
    ensures refused { IfErr result (Refused frame.old) }
    ensures unchanged { OnErr result (IsAsBefore frame.old frame.new) }

    ensures gains { IfOk result (Gains frame.old frame.new) }
    ensures keeps { OnErr result (Keeps frame.old frame.new) }
    ensures unlocked { IsUnlocked frame.new }
{
    frame.immortal(0)
}

/// False, which is cell 1, or True, which is cell 2. FrameFull, then OutOfMemory; a refusal changes nothing.
pub fn truth<H: HasTable<A>, A: Allocator>(
    frame: &mut Frame<H, A>,
    is_true: bool,
) -> Result<Handle<A>, Fault>
    requires unlocked { IsUnlocked frame.old }
    ensures heap { frame.new.heap ≡ frame.old.heap }
    ensures given { IfOk result (GivenHandle frame.old frame.new (sources.Immortal (truth_cell is_true))
        (truth_cell is_true)) }
    ensures refused { IfErr result (Refused frame.old) }
    ensures unchanged { OnErr result (IsAsBefore frame.old frame.new) }

    ensures gains { IfOk result (Gains frame.old frame.new) }
    ensures keeps { OnErr result (Keeps frame.old frame.new) }
    ensures unlocked { IsUnlocked frame.new }
{
    if is_true {
        return frame.immortal(2);
    }
    frame.immortal(1)
}

/// The cell of an integer that is immortal.
#[inline(always)]
fn small(number: i64) -> Option<u32>
    ensures { result ≡ small_cell number }
{
    if -5 <= number && number <= 256 {
        return Some((number + 8) as u32);
    }
    None
}

/// An integer: the immortal one from -5 to 256, else a new object. The faults of a new object come in the order
/// FrameFull, LedgerFull, OutOfMemory, HeapFull.
#[inline(always)]
pub fn new_int<H: HasTable<A>, A: Allocator>(
    alloc: A,
    frame: &mut Frame<H, A>,
    number: i64,
) -> Result<Handle<A>, Fault>
    requires unlocked { IsUnlocked frame.old }
    ensures heap { frame.new.heap ≡ frame.old.heap }
    ensures made { IfOk result (Answered frame.old frame.new (small_cell number) (contents.Int number)) }
    ensures refused { IfErr result (RefusedTo frame.old frame.new (small_cell number)) }

    ensures gains { IfOk result (Gains frame.old frame.new) }
    ensures keeps { OnErr result (Keeps frame.old frame.new) }
    ensures unlocked { IsUnlocked frame.new }
{
    if let Some(cell) = small(number) {
        return frame.immortal(cell);
    }
    match frame.born(alloc, Payload::Int(number)) {
        Ok(handle) => Ok(handle),
        Err(handed) => Err(handed.fault),
    }
}

/// A new text; a refusal hands it back. The faults come in the order FrameFull, LedgerFull, OutOfMemory, HeapFull.
#[inline(always)]
pub fn new_text<H: HasTable<A>, A: Allocator>(
    alloc: A,
    frame: &mut Frame<H, A>,
    text: Text<A>,
) -> Result<Handle<A>, HandedBack<Text<A>>>
    requires unlocked { IsUnlocked frame.old }
    ensures heap { frame.new.heap ≡ frame.old.heap }
    ensures made { IfOk result (Made frame.old frame.new (contents.Text text)) }
    ensures refused { IfErr result (λ handed. RefusedMaking frame.old frame.new handed.fault) }
    ensures back { IfErr result (λ handed. handed.value ≡ text) }

    ensures gains { IfOk result (Gains frame.old frame.new) }
    ensures keeps { OnErr result (Keeps frame.old frame.new) }
    ensures unlocked { IsUnlocked frame.new }
{
    match frame.born(alloc, Payload::Text(text)) {
        Ok(handle) => Ok(handle),
        Err(
            HandedBack {
                fault,
                value: Payload::Text(back),
            },
        ) => Err(HandedBack { fault, value: back }),
        Err(_) => unreachable!(),
    }
}

/// A new empty list. The faults come in the order FrameFull, LedgerFull, OutOfMemory, HeapFull.
pub fn new_list<H: HasTable<A>, A: Allocator + Copy>(
    alloc: A,
    frame: &mut Frame<H, A>,
) -> Result<Handle<A>, Fault>
    requires unlocked { IsUnlocked frame.old }
    ensures heap { frame.new.heap ≡ frame.old.heap }
    ensures made { IfOk result (Made frame.old frame.new (contents.«List» [])) }
    ensures refused { IfErr result (RefusedMaking frame.old frame.new) }

    ensures gains { IfOk result (Gains frame.old frame.new) }
    ensures keeps { OnErr result (Keeps frame.old frame.new) }
    ensures unlocked { IsUnlocked frame.new }
{
    match frame.born(alloc, Payload::List(CellList::new(Vec::new(alloc)))) {
        Ok(handle) => Ok(handle),
        Err(handed) => Err(handed.fault),
    }
}

/// A new empty dictionary. The faults come in the order FrameFull, LedgerFull, OutOfMemory, HeapFull.
pub fn new_dict<H: HasTable<A>, A: Allocator + Copy>(
    alloc: A,
    frame: &mut Frame<H, A>,
) -> Result<Handle<A>, Fault>
    requires unlocked { IsUnlocked frame.old }
    ensures heap { frame.new.heap ≡ frame.old.heap }
    ensures made { IfOk result (Made frame.old frame.new (contents.Dict [])) }
    ensures refused { IfErr result (RefusedMaking frame.old frame.new) }

    ensures gains { IfOk result (Gains frame.old frame.new) }
    ensures keeps { OnErr result (Keeps frame.old frame.new) }
    ensures unlocked { IsUnlocked frame.new }
{
    match frame.born(alloc, Payload::Dict(Pairs::new(alloc))) {
        Ok(handle) => Ok(handle),
        Err(handed) => Err(handed.fault),
    }
}

/// Whether an object more is refused before memory for it is asked for: FrameFull, then LedgerFull.
fn may_be_born<H: HasTable<A>, A: Allocator>(frame: &Frame<H, A>) -> Result<(), Fault>
    ensures refused { IfErr result (RefusedMaking frame.now frame.now) }
    ensures room { OnOk result (frame.now.len < MOST_PLACES) }
    ensures few { OnOk result ((ledger_seen frame.now).allocs < MOST_BIRTHS) }
{
    if frame.len() >= MOST_PLACES as usize {
        return Err(Fault::FrameFull);
    }
    if frame.ledger().allocs >= MOST_BIRTHS {
        return Err(Fault::LedgerFull);
    }
    Ok(())
}

/// A new empty list, with memory for so many entries, at most as many as there can be. The faults come in the order
/// FrameFull, LedgerFull, OutOfMemory, HeapFull.
#[inline(always)]
pub fn new_list_with_room<H: HasTable<A>, A: Allocator + Copy>(
    alloc: A,
    frame: &mut Frame<H, A>,
    entries: usize,
) -> Result<Handle<A>, Fault>
    requires unlocked { IsUnlocked frame.old }
    ensures heap { frame.new.heap ≡ frame.old.heap }
    ensures made { IfOk result (Made frame.old frame.new (contents.«List» [])) }
    ensures refused { IfErr result (RefusedMaking frame.old frame.new) }

    ensures gains { IfOk result (Gains frame.old frame.new) }
    ensures keeps { OnErr result (Keeps frame.old frame.new) }
    ensures unlocked { IsUnlocked frame.new }
{
    if let Err(fault) = may_be_born(frame) {
        return Err(fault);
    }
    let Ok(room) = Vec::with_capacity(alloc, entries.min(MOST_ENTRIES as usize)) else {
        return Err(Fault::OutOfMemory);
    };
    match frame.born(alloc, Payload::List(CellList::new(room))) {
        Ok(handle) => Ok(handle),
        Err(handed) => Err(handed.fault),
    }
}

/// A new empty dictionary, with memory for so many pairs, at most as many as there can be. The faults come in the order
/// FrameFull, LedgerFull, OutOfMemory, HeapFull.
pub fn new_dict_with_room<H: HasTable<A>, A: Allocator + Copy>(
    alloc: A,
    frame: &mut Frame<H, A>,
    pairs: usize,
) -> Result<Handle<A>, Fault>
    requires unlocked { IsUnlocked frame.old }
    ensures heap { frame.new.heap ≡ frame.old.heap }
    ensures made { IfOk result (Made frame.old frame.new (contents.Dict [])) }
    ensures refused { IfErr result (RefusedMaking frame.old frame.new) }

    ensures gains { IfOk result (Gains frame.old frame.new) }
    ensures keeps { OnErr result (Keeps frame.old frame.new) }
    ensures unlocked { IsUnlocked frame.new }
{
    if let Err(fault) = may_be_born(frame) {
        return Err(fault);
    }
    let Ok(room) = Pairs::with_room(alloc, pairs.min(MOST_ENTRIES as usize)) else {
        return Err(Fault::OutOfMemory);
    };
    match frame.born(alloc, Payload::Dict(room)) {
        Ok(handle) => Ok(handle),
        Err(handed) => Err(handed.fault),
    }
}

/// A new empty mailbox, with memory for its queue. The faults come in the order FrameFull, LedgerFull, OutOfMemory, HeapFull.
pub fn new_mailbox<H: HasTable<A>, A: Allocator + Copy>(
    alloc: A,
    frame: &mut Frame<H, A>,
) -> Result<Handle<A>, Fault>
    requires unlocked { IsUnlocked frame.old }
    ensures heap { frame.new.heap ≡ frame.old.heap }
    ensures made { IfOk result (Made frame.old frame.new (contents.Mailbox [])) }
    ensures refused { IfErr result (RefusedMaking frame.old frame.new) }

    ensures gains { IfOk result (Gains frame.old frame.new) }
    ensures keeps { OnErr result (Keeps frame.old frame.new) }
    ensures unlocked { IsUnlocked frame.new }
{
    may_be_born(frame)?;
    let Ok(letters) = Letters::new(alloc) else {
        return Err(Fault::OutOfMemory);
    };
    match frame.born(alloc, Payload::Mailbox(letters)) {
        Ok(handle) => Ok(handle),
        Err(handed) => Err(handed.fault),
    }
}
