//! What lists and mailboxes have in common: the tests of a call, and room for an entry.

ghost use Rattle.std.specs.Prelude.{◌≡◌, ◌<◌, length, true, Some, IfOk, IfErr, OnOk, OnErr, slice_get};
ghost use Rattle.brc_words.specs.declared.limits.TheConstants.{MOST_ENTRIES};
ghost use Rattle.brc_count.specs.block.Payload.{kind_of, noted_of, entries_of, spare_of};
ghost use Rattle.brc_words.specs.declared.kind.Kind.TheVariants as kinds;
ghost use Rattle.brc_things.specs.Rows.{is_row, EndsAt, NoRoom, NoEntry};

use brc_count::block::{Entries, Payload};
use brc_words::{Entry, Fault, Kind, MOST_ENTRIES};
use std::alloc::Allocator;

/// Makes room for one more entry in an object of this kind: WrongKind for any other, Full where it has 1,048,576
/// entries, then OutOfMemory.
#[inline(always)]
pub(crate) fn make_room<A: Allocator>(payload: &mut Payload<A>, kind: Kind) -> Result<(), Fault>
    requires row { is_row kind ≡ true }
    ensures kind { kind_of payload.new ≡ kind_of payload.old }
    ensures entries { entries_of payload.new ≡ entries_of payload.old }
    ensures noted { noted_of payload.new ≡ noted_of payload.old }
    ensures is { OnOk result (kind_of payload.old ≡ kind) }
    ensures few { OnOk result (length (entries_of payload.old) < MOST_ENTRIES) }
    ensures room { OnOk result (0 < spare_of payload.new) }
    ensures refused { IfErr result (NoRoom kind (kind_of payload.old) (entries_of payload.old)) }
    ensures unchanged { OnErr result (payload.new ≡ payload.old) }
{
    if payload.kind() != kind {
        return Err(Fault::WrongKind);
    }
    if payload.len() >= MOST_ENTRIES as usize {
        return Err(Fault::Full);
    }
    let made = match payload {
        Payload::List(cells) => cells.reserve(),
        Payload::Mailbox(letters) => letters.reserve(),
        _ => unreachable!(),
    };
    match made {
        Ok(()) => Ok(()),
        Err(_) => Err(Fault::OutOfMemory),
    }
}

/// A list's last place: the number before its length. An empty list has none, and of another object it is any number.
#[inline(always)]
pub(crate) fn last_place<A: Allocator>(payload: &Payload<A>) -> usize
    ensures { kind_of payload.now ≡ kinds.«List» → EndsAt result (length (entries_of payload.now)) }
{
    match payload {
        Payload::List(cells) => cells.len().wrapping_sub(1),
        _ => 0,
    }
}

#[tactic(auto, using(brc_words::proofs::Cells::cells_there))]
/// An entry of an object of this kind: WrongKind for any other, NoSuchPlace past the end.
#[inline(always)]
pub(crate) fn entry_in<A: Allocator>(
    payload: &Payload<A>,
    kind: Kind,
    index: usize,
) -> Result<Entry, Fault>
    ensures is { OnOk result (kind_of payload.now ≡ kind) }
    ensures entry { IfOk result (λ entry. slice_get (noted_of payload.now) index ≡ Some entry) }
    ensures cell { IfOk result (λ entry. slice_get (entries_of payload.now) index ≡ Some entry.cell) }
    ensures refused { IfErr result (NoEntry kind index (kind_of payload.now) (noted_of payload.now)) }
{
    if payload.kind() != kind {
        return Err(Fault::WrongKind);
    }
    match payload.noted(index) {
        Some(entry) => Ok(entry),
        None => Err(Fault::NoSuchPlace),
    }
}
