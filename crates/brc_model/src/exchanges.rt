//! Entries of a container and places of a frame, which change together.

ghost use Rattle.std.specs.Prelude.{◌≡◌, ◌&&◌, ◌||◌, nat_le, ◌≤◌, ◌<◌, true, OnOk, OnErr, vec_len};
ghost use Rattle.std.specs.Vec.{vec_capacity};
ghost use Rattle.brc_model.specs.declared.moves.Exchange.TheVariants as exchange;
ghost use Rattle.brc_model.specs.Holders.{Same, exchanged, place_used, let_go};
ghost use Rattle.brc_words.specs.declared.limits.TheConstants.{FIRST_MORTAL};
ghost use Rattle.brc_model.specs.Facts.{map_of};
ghost use Rattle.brc_model.specs.Tests.{test_occupies, test_vacant, test_container, test_entry, test_fits, test_change};
ghost use Rattle.brc_model.specs.Tests.{test_remove};
ghost use Rattle.brc_model.specs.Edits.{left, come};
ghost use Rattle.brc_model.specs.World.{grows};

use crate::edits::forget;
use crate::fact::Fact;
use crate::holder::Holder;
use crate::moves::{Exchange, Spot};
use crate::reads::{entry, entry_place, has, is_vacant, kind_of, lives};
use brc_words::{FIRST_MORTAL, GLOBALS, MOST_ENTRIES, is_container_kind};
use std::alloc::{AllocError, Allocator};

fn occupies(facts: &[Fact], cell: u32, thread: u32, place: u32) -> bool
    ensures { result ≡ test_occupies facts.now cell thread place }
{
    cell < FIRST_MORTAL || has(facts, cell, &Holder::Frame { thread, place })
}

fn is_container_cell(facts: &[Fact], cell: u32) -> bool
    ensures { result ≡ test_container facts.now cell }
{
    cell == GLOBALS || (lives(facts, cell) && is_container_kind(kind_of(facts, cell)))
}

fn used(change: &Exchange) -> u32
    ensures { result ≡ place_used change.now }
{
    match *change {
        Exchange::Put { from, .. } => from,
        Exchange::Take { to, .. } => to,
        Exchange::Swap { at, .. } => at,
    }
}

fn entry_fits(facts: &[Fact], cell: u32, change: &Exchange) -> bool
    ensures { result ≡ test_entry facts.now cell change.now }
{
    match *change {
        Exchange::Put { .. } => entry(facts, cell, MOST_ENTRIES as usize - 1).is_none(),
        Exchange::Take {
            index,
            cell: out,
            ..
        } => entry(facts, cell, index as usize) == Some(out),
        Exchange::Swap { index, old, .. } => entry(facts, cell, index as usize) == Some(old),
    }
}

/// Whether the place is free once a mortal cell has left it.
fn leaves_free(facts: &[Fact], cell: u32, thread: u32, at: u32) -> bool
    ensures { result ≡ (nat_le FIRST_MORTAL cell || test_vacant facts.now thread at) }
{
    FIRST_MORTAL <= cell || is_vacant(facts, thread, at)
}

fn swap_fits(facts: &[Fact], cell: u32, thread: u32, at: u32) -> bool
    ensures { result ≡ (test_occupies facts.now cell thread at &&
        (nat_le FIRST_MORTAL cell || test_vacant facts.now thread at)) }
{
    occupies(facts, cell, thread, at) && leaves_free(facts, cell, thread, at)
}

fn fits(facts: &[Fact], change: &Exchange, thread: u32) -> bool
    ensures { result ≡ test_fits facts.now change.now thread }
{
    match *change {
        Exchange::Put { from, cell } => occupies(facts, cell, thread, from),
        Exchange::Take { to, .. } => is_vacant(facts, thread, to),
        Exchange::Swap { at, cell, .. } => swap_fits(facts, cell, thread, at),
    }
}

/// Whether the thread may make the change of the container that it holds in the spot.
pub fn may_be_changed(facts: &[Fact], cell: u32, spot: &Spot, change: &Exchange) -> bool
    ensures { result ≡ test_change facts.now cell spot.now change.now }
{
    is_container_cell(facts, cell)
        && occupies(facts, cell, spot.thread, spot.place)
        && used(change) != spot.place
        && entry_fits(facts, cell, change)
        && fits(facts, change, spot.thread)
}

/// The holder goes, and with an entry's holder the entry.
pub fn let_it_go<A: Allocator>(facts: &mut Vec<Fact, A>, object: u32, holder: &Holder)
    requires { test_remove facts.old.items object holder.now ≡ true }
    ensures { Same (map_of facts.new.items) (let_go (map_of facts.old.items) object holder.now) }
{
    match *holder {
        Holder::Entry { cell, index } => {
            if let Some(place) = entry_place(facts, cell, index as usize) {
                facts.remove(place);
            }
        }
        _ => forget(facts, object, holder),
    }
}

/// The cell leaves the place of the frame, in which an immortal never was.
fn leave<A: Allocator>(facts: &mut Vec<Fact, A>, cell: u32, frame: &Holder)
    ensures left { facts.new.items ≡ left facts.old.items cell frame.now }
    ensures len { vec_len facts.new ≤ vec_len facts.old }
    ensures room { vec_capacity facts.new ≡ vec_capacity facts.old }
{
    if FIRST_MORTAL <= cell {
        forget(facts, cell, frame);
    }
}

/// The cell comes into the place of the frame, which for an immortal says nothing.
fn arrive<A: Allocator>(facts: &mut Vec<Fact, A>, cell: u32, frame: Holder)
    requires { vec_len facts.old < vec_capacity facts.old }
    ensures { facts.new.items ≡ come facts.old.items cell frame }
{
    if FIRST_MORTAL <= cell {
        facts.push_reserved(Fact::Holds {
            object: cell,
            holder: frame,
        });
    }
}

fn put<A: Allocator>(
    facts: &mut Vec<Fact, A>,
    container: u32,
    thread: u32,
    from: u32,
    cell: u32,
) -> Result<(), AllocError>
    ensures put { OnOk result
        (Same (map_of facts.new.items) (exchanged (map_of facts.old.items) container thread (exchange.Put from cell))) }
    ensures unchanged { OnErr result (facts.new.items ≡ facts.old.items) }
{
    facts.reserve(1)?;
    facts.push_reserved(Fact::Contains {
        cell: container,
        object: cell,
    });
    let frame = Holder::Frame {
        thread,
        place: from,
    };
    leave(facts, cell, &frame);
    Ok(())
}

fn take<A: Allocator>(
    facts: &mut Vec<Fact, A>,
    container: u32,
    thread: u32,
    index: u32,
    to: u32,
    cell: u32,
)
    requires { test_entry facts.old.items container (exchange.Take index to cell) ≡ true }
    ensures { Same (map_of facts.new.items)
        (exchanged (map_of facts.old.items) container thread (exchange.Take index to cell)) }
{
    if let Some(place) = entry_place(facts, container, index as usize) {
        if cell < FIRST_MORTAL {
            facts.remove(place);
        } else {
            facts[place] = Fact::Holds {
                object: cell,
                holder: Holder::Frame { thread, place: to },
            };
        }
    }
}

fn swap<A: Allocator>(
    facts: &mut Vec<Fact, A>,
    container: u32,
    thread: u32,
    index: u32,
    at: u32,
    cell: u32,
    old: u32,
) -> Result<(), AllocError>
    requires { test_entry facts.old.items container (exchange.Swap index at cell old) ≡ true }
    ensures swapped { OnOk result
        (Same (map_of facts.new.items)
        (exchanged (map_of facts.old.items) container thread (exchange.Swap index at cell old))) }
    ensures unchanged { OnErr result (facts.new.items ≡ facts.old.items) }
{
    facts.reserve(1)?;
    if let Some(place) = entry_place(facts, container, index as usize) {
        facts[place] = Fact::Contains {
            cell: container,
            object: cell,
        };
        let frame = Holder::Frame { thread, place: at };
        leave(facts, cell, &frame);
        arrive(facts, old, frame);
    }
    Ok(())
}

/// Makes the change, for which only a further entry or a further place needs memory.
pub fn change_it<A: Allocator>(
    facts: &mut Vec<Fact, A>,
    container: u32,
    thread: u32,
    change: &Exchange,
) -> Result<(), AllocError>
    requires { test_entry facts.old.items container change.now ≡ true }
    ensures changed { OnOk result
        (Same (map_of facts.new.items) (exchanged (map_of facts.old.items) container thread change.now)) }
    ensures unchanged { OnErr result (facts.new.items ≡ facts.old.items) }
    ensures memory { OnErr result (grows change.now ≡ true) }
{
    match *change {
        Exchange::Put { from, cell } => put(facts, container, thread, from, cell),
        Exchange::Take { index, to, cell } => {
            take(facts, container, thread, index, to, cell);
            Ok(())
        }
        Exchange::Swap {
            index,
            at,
            cell,
            old,
        } => swap(facts, container, thread, index, at, cell, old),
    }
}
