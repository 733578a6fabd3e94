//! What a list of facts says, and which moves it allows.

ghost use Rattle.std.specs.Prelude.{◌≡◌, ℕ, ◌+◌, ◌<◌, ◌≤◌, length, take, slice_get, slice_index, IfSome, IfNone, Some};
ghost use Rattle.std.specs.Prelude.{is_none};
ghost use Rattle.std.specs.List.{list_any, find};
ghost use Rattle.brc_model.specs.Holders.{has};
ghost use Rattle.brc_model.specs.Facts.{says_lives, says_held, entries_in, entry_in, map_of};
ghost use Rattle.brc_model.specs.Tests.{test_held, test_vacant, test_may_hold, test_born, test_add, test_remove};
ghost use Rattle.brc_model.specs.Tests.{test_last, test_dies, fills, names, IsEntryAt};

use crate::fact::{Fact, entry_of, is_hold, is_life, is_name, is_same};
use crate::holder::Holder;
use brc_words::{FIRST_MORTAL, Kind, is_mortal_kind};

pub fn lives(facts: &[Fact], object: u32) -> bool
    ensures { result ≡ (map_of facts.now).live object }
{
    facts.iter().any(|fact| is_life(fact, object))
}

/// The fact by which the object lives.
fn life(facts: &[Fact], object: u32) -> Option<Fact>
    ensures { result ≡ find (says_lives object) facts.now }
{
    facts.iter().copied().find(|fact| is_life(fact, object))
}

/// The kind of what lives in the cell.
pub fn kind_of(facts: &[Fact], object: u32) -> Kind
    ensures { result ≡ (map_of facts.now).kind object }
{
    match life(facts, object) {
        Some(Fact::Lives { kind, .. }) => kind,
        _ => Kind::Nothing,
    }
}

/// Where the fact stands that gives the cell's entry of this number.
pub fn entry_place(facts: &[Fact], cell: u32, index: usize) -> Option<usize>
    ensures there { IfSome result (λ place. IsEntryAt facts.now cell index place) }
    ensures none { IfNone result (length (entries_in facts.now cell) ≤ index) }
{
    let mut left = index;
    for (place, fact) in facts.iter().enumerate() {
        if entry_of(fact, cell).is_some() {
            if left == 0 {
                return Some(place);
            }
            left -= 1;
        }
    }
    None
}

/// The cell's entry of this number.
pub fn entry(facts: &[Fact], cell: u32, index: usize) -> Option<u32>
    ensures { result ≡ slice_get (entries_in facts.now cell) index }
{
    let place = entry_place(facts, cell, index)?;
    entry_of(&facts[place], cell)
}

/// Whether the place, which is no entry, holds the object.
fn is_held_in(facts: &[Fact], object: u32, holder: &Holder) -> bool
    ensures { result ≡ list_any (says_held object holder.now) facts.now }
{
    facts.iter().any(|fact| is_hold(fact, object, holder))
}

/// Whether the object has the holder.
pub fn has(facts: &[Fact], object: u32, holder: &Holder) -> bool
    ensures { result ≡ has (map_of facts.now) object holder.now }
{
    lives(facts, object)
        && match *holder {
            Holder::Entry { cell, index } => entry(facts, cell, index as usize) == Some(object),
            _ => is_held_in(facts, object, holder),
        }
}

/// Whether some fact says that a place holds the object.
fn is_named(facts: &[Fact], object: u32) -> bool
    ensures { result ≡ list_any (names object) facts.now }
{
    facts.iter().any(|fact| is_name(fact, object))
}

/// Whether the object has some holder.
pub fn is_held(facts: &[Fact], object: u32) -> bool
    ensures { result ≡ test_held facts.now object }
{
    lives(facts, object) && is_named(facts, object)
}

fn is_filled(facts: &[Fact], fact: &Fact, thread: u32, place: u32) -> bool
    ensures { result ≡ fills facts.now thread place fact.now }
{
    match fact {
        Fact::Holds { object, holder } => {
            is_same(&Holder::Frame { thread, place }, holder) && lives(facts, *object)
        }
        Fact::Lives { .. } | Fact::Contains { .. } => false,
    }
}

fn is_taken(facts: &[Fact], thread: u32, place: u32) -> bool
    ensures { result ≡ list_any (fills facts.now thread place) facts.now }
{
    facts
        .iter()
        .any(|fact| is_filled(facts, fact, thread, place))
}

/// Whether nothing that lives is in the place of the frame.
pub fn is_vacant(facts: &[Fact], thread: u32, place: u32) -> bool
    ensures { result ≡ test_vacant facts.now thread place }
{
    !is_taken(facts, thread, place)
}

/// Whether the holder may become one of the object's.
pub fn may_hold(facts: &[Fact], object: u32, holder: &Holder) -> bool
    ensures { result ≡ test_may_hold facts.now object holder.now }
{
    match *holder {
        Holder::Frame { thread, place } => is_vacant(facts, thread, place),
        Holder::Entry { .. } => false,
        Holder::Queue { cell, .. } | Holder::Popped { cell, .. } | Holder::Hand { cell, .. } => {
            cell == object
        }
    }
}

pub fn may_be_born(facts: &[Fact], object: u32, kind: Kind, holder: &Holder) -> bool
    ensures { result ≡ test_born facts.now object kind holder.now }
{
    FIRST_MORTAL <= object
        && !lives(facts, object)
        && is_mortal_kind(kind)
        && may_hold(facts, object, holder)
}

pub fn may_be_added(facts: &[Fact], object: u32, holder: &Holder) -> bool
    ensures { result ≡ test_add facts.now object holder.now }
{
    is_held(facts, object) && !has(facts, object, holder) && may_hold(facts, object, holder)
}

/// Whether the entry is the last one of an object that nothing holds.
fn is_last_of_dead(facts: &[Fact], object: u32, cell: u32, index: u32) -> bool
    ensures { result ≡ test_last facts.now object cell index }
{
    lives(facts, cell)
        && !is_named(facts, cell)
        && is_end(facts, cell, index)
        && entry(facts, cell, index as usize) == Some(object)
}

/// Whether the cell has no entry after this one.
fn is_end(facts: &[Fact], cell: u32, index: u32) -> bool
    ensures { result ≡ is_none (slice_get (entries_in facts.now cell) (index + 1)) }
{
    entry(facts, cell, index as usize + 1).is_none()
}

pub fn may_be_removed(facts: &[Fact], object: u32, holder: &Holder) -> bool
    ensures { result ≡ test_remove facts.now object holder.now }
{
    match *holder {
        Holder::Entry { cell, index } => is_last_of_dead(facts, object, cell, index),
        _ => has(facts, object, holder),
    }
}

pub fn may_die(facts: &[Fact], object: u32) -> bool
    ensures { result ≡ test_dies facts.now object }
{
    lives(facts, object) && !is_named(facts, object) && entry(facts, object, 0).is_none()
}
