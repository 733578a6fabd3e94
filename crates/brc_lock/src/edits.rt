//! The entries of a locked object, edited.

ghost use Rattle.std.specs.Prelude.{◌≡◌, ◌<◌, ◌≤◌, Some, true, length, slice_get, OnOk, OnErr};
ghost use Rattle.brc_words.specs.Kinds.{is_container};
ghost use Rattle.brc_count.specs.law.rule.Logs.{kind_in, entries_in};
ghost use Rattle.brc_count.specs.block.Payload.{spare_of};
ghost use Rattle.brc_count.specs.table.Shown.{contents_of};
ghost use Rattle.brc_lock.specs.Edits.{with_last, without, replaced, KeyFits};

use brc_count::block::{Entries, Payload};
use brc_words::{Entry, Key};
use std::alloc::{AllocError, Allocator};

/// Makes room for one entry more.
pub(crate) fn make_room<A: Allocator + Copy>(payload: &mut Payload<A>) -> Result<(), AllocError>
    requires container { is_container (kind_in (contents_of payload.old)) ≡ true }
    ensures contents { contents_of payload.new ≡ contents_of payload.old }
    ensures made { OnOk result (0 < spare_of payload.new) }
    ensures needed { OnErr result (spare_of payload.old ≡ 0) }
{
    match payload {
        Payload::List(cells) => cells.reserve(),
        Payload::Dict(pairs) => pairs.reserve(),
        Payload::Mailbox(letters) => letters.reserve(),
        _ => unreachable!(),
    }
}

/// One entry more, at the end, in the room that was made for it; of a dictionary beside this key.
pub(crate) fn put_last<A: Allocator>(payload: &mut Payload<A>, key: Option<Key<A>>, entry: Entry)
    requires fits { KeyFits (contents_of payload.old) key }
    requires room { 0 < spare_of payload.old }
    ensures { contents_of payload.new ≡ with_last (contents_of payload.old) key entry }
{
    match payload {
        Payload::List(cells) => cells.put_reserved(entry),
        Payload::Mailbox(letters) => letters.put_reserved(entry),
        Payload::Dict(pairs) => match key {
            Some(key) => pairs.put_reserved(key, entry),
            None => unreachable!(),
        },
        _ => unreachable!(),
    }
}

#[tactic(auto, using(brc_words::proofs::Cells::cells_there, brc_words::proofs::Cells::cells_long))]
/// One entry fewer, of a dictionary with its key; the answer is the entry.
pub(crate) fn take_at<A: Allocator>(payload: &mut Payload<A>, index: usize) -> Entry
    requires within { index < length (entries_in (contents_of payload.old)) }
    ensures taken { slice_get (entries_in (contents_of payload.old)) index ≡ Some result.cell }
    ensures left { contents_of payload.new ≡ without (contents_of payload.old) index }
{
    match payload {
        Payload::List(cells) => cells.remove(index),
        Payload::Mailbox(letters) => letters.remove(index),
        Payload::Dict(pairs) => {
            let (_key, entry) = pairs.remove(index);
            entry
        }
        _ => unreachable!(),
    }
}

#[tactic(auto, using(brc_words::proofs::Cells::cells_long))]
/// Another entry at a place, of a dictionary beside the same key.
pub(crate) fn set_at<A: Allocator>(payload: &mut Payload<A>, index: usize, entry: Entry)
    requires within { index < length (entries_in (contents_of payload.old)) }
    ensures { contents_of payload.new ≡ replaced (contents_of payload.old) index entry }
{
    match payload {
        Payload::List(cells) => cells.set(index, entry),
        Payload::Mailbox(letters) => letters.set(index, entry),
        Payload::Dict(pairs) => pairs.set(index, entry),
        _ => unreachable!(),
    }
}
