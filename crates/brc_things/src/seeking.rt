//! Where a key stands in an object.

ghost use Rattle.brc_count.specs.block.Lent_Keys.{key_lent};
ghost use Rattle.brc_things.specs.Seeking.{Seeks};

use brc_count::block::{KeyRef, Payload};
use brc_words::Entry;
use std::alloc::Allocator;

/// What a look for a key in an object finds.
#[derive(Clone, Copy)]
pub(crate) enum Sought {
    /// The object is no dictionary.
    WrongKind,
    /// The key stands there, beside this entry.
    There { index: usize, entry: Entry },
    /// It stands beside none.
    Absent,
}

/// Looks for the key, once.
#[inline(always)]
pub(crate) fn seek<A: Allocator>(payload: &Payload<A>, key: KeyRef<'_>) -> Sought
    ensures { Seeks payload.now (key_lent key.entry) result }
{
    let Payload::Dict(pairs) = payload else {
        return Sought::WrongKind;
    };
    let Some(index) = pairs.find(key) else {
        return Sought::Absent;
    };
    match pairs.noted(index) {
        Some(entry) => Sought::There { index, entry },
        None => unreachable!(),
    }
}
