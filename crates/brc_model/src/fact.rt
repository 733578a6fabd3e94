//! One fact of the holder map.

ghost use Rattle.std.specs.Prelude.{◌≡◌};
ghost use Rattle.brc_model.specs.Holders.{holder_code, same_holder};
ghost use Rattle.brc_model.specs.Facts.{says_lives, says_held, entry_in};
ghost use Rattle.brc_model.specs.Tests.{is_no_entry, names};

use crate::holder::Holder;
use brc_words::Kind;

/// Something that is so. What no fact says isn't so.
#[derive(Clone, Copy, Debug, PartialEq, Eq)]
pub enum Fact {
    /// The object lives, and is of this kind.
    Lives { object: u32, kind: Kind },
    /// This place, which is no entry, holds the object.
    Holds { object: u32, holder: Holder },
    /// The object is the next entry of the cell.
    Contains { cell: u32, object: u32 },
}

fn code(holder: &Holder) -> (u8, u32, u32)
    ensures { result ≡ holder_code holder.now }
{
    match *holder {
        Holder::Frame { thread, place } => (0, thread, place),
        Holder::Entry { cell, index } => (1, cell, index),
        Holder::Queue { thread, cell } => (2, thread, cell),
        Holder::Popped { thread, cell } => (3, thread, cell),
        Holder::Hand { thread, cell } => (4, thread, cell),
    }
}

/// Whether two holders are one place.
pub fn is_same(one: &Holder, other: &Holder) -> bool
    ensures { result ≡ same_holder one.now other.now }
{
    let (kind, first, second) = code(one);
    let (other_kind, other_first, other_second) = code(other);
    kind == other_kind && first == other_first && second == other_second
}

/// Whether the fact says that the object lives.
pub fn is_life(fact: &Fact, object: u32) -> bool
    ensures { result ≡ says_lives object fact.now }
{
    match *fact {
        Fact::Lives { object: lives, .. } => object == lives,
        Fact::Holds { .. } | Fact::Contains { .. } => false,
    }
}

/// Whether the fact says that the place holds the object.
pub fn is_hold(fact: &Fact, object: u32, holder: &Holder) -> bool
    ensures { result ≡ says_held object holder.now fact.now }
{
    match fact {
        Fact::Holds {
            object: held,
            holder: place,
        } => object == *held && is_same(holder, place),
        Fact::Lives { .. } | Fact::Contains { .. } => false,
    }
}

/// The object that the fact says is an entry of the cell.
pub fn entry_of(fact: &Fact, cell: u32) -> Option<u32>
    ensures { result ≡ entry_in cell fact.now }
{
    match *fact {
        Fact::Contains {
            cell: container,
            object,
        } if cell == container => Some(object),
        _ => None,
    }
}

/// Whether a place of this kind is none of a cell's entries.
pub fn is_outside(holder: &Holder) -> bool
    ensures { result ≡ is_no_entry holder.now }
{
    !matches!(*holder, Holder::Entry { .. })
}

/// Whether the fact says that some place holds the object.
pub fn is_name(fact: &Fact, object: u32) -> bool
    ensures { result ≡ names object fact.now }
{
    match fact {
        Fact::Lives { .. } => false,
        Fact::Holds {
            object: held,
            holder,
        } => object == *held && is_outside(holder),
        Fact::Contains { object: entry, .. } => object == *entry,
    }
}
