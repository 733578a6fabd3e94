//! The holder map as a program: the yardstick that a run is held against.

ghost use Rattle.std.specs.Prelude.{◌≡◌, ℕ, false, [], OnOk, OnErr, IfErr};
ghost use Rattle.brc_model.specs.Holders.{Same, Allowed, moved, has};
ghost use Rattle.brc_model.specs.Facts.{map_of};
ghost use Rattle.brc_model.specs.World.{IsReasonOfMove};

use crate::edits::{add, begin, end, pass_on};
use crate::exchanges::{change_it, let_it_go, may_be_changed};
use crate::fact::Fact;
use crate::holder::Holder;
use crate::moves::Move;
use crate::reads::{has, lives, may_be_added, may_be_born, may_be_removed, may_die};
use std::alloc::Allocator;
use std::marker::Model;

/// Why a move was not made.
#[derive(Clone, Copy, Debug, PartialEq, Eq)]
pub enum Refused {
    /// The map does not allow it.
    NotAllowed,
    /// The map allows it, and there was no memory.
    Memory,
}

/// Which places hold which objects, as a list of facts.
#[derive(Drop)]
pub struct HolderWorld<A: Allocator> {
    facts: Vec<Fact, A>,
}

impl<A: Allocator> Model for HolderWorld<A> {
    ghost use Rattle.std.specs.Prelude.{List};
    ghost use Rattle.brc_model.specs.declared.fact.Fact.{Fact};

    ghost Value = { List Fact };

    ghost view = { λ w. w.facts.items };
}

impl<A: Allocator> HolderWorld<A> {
    /// Nothing lives, and the globals have no entries. It takes no memory.
    pub fn new(alloc: A) -> Self
        ensures empty { result ≡ [] }
        ensures lifeless { (c : ℕ) → (map_of result).live c ≡ false }
        ensures bare { (c : ℕ) → (map_of result).entries c ≡ [] }
    {
        HolderWorld {
            facts: Vec::new(alloc),
        }
    }

    /// Makes the move, or says why not: what the map does not allow is refused before memory is asked for.
    pub fn apply<B: Allocator>(&mut self, change: &Move<B>) -> Result<(), Refused>
        ensures allowed { OnOk result (Allowed (map_of self.old) change.now) }
        ensures moved { OnOk result (Same (map_of self.new) (moved (map_of self.old) change.now)) }

        ensures reason { IfErr result (λ why. IsReasonOfMove (map_of self.old) change.now why) }
        ensures unchanged { OnErr result (self.new ≡ self.old) }
    {
        match change {
            Move::Born {
                object,
                kind,
                holder,
            } => {
                if !may_be_born(&self.facts, *object, *kind, holder) {
                    return Err(Refused::NotAllowed);
                }
                match begin(&mut self.facts, *object, *kind, *holder) {
                    Ok(()) => Ok(()),
                    Err(_) => Err(Refused::Memory),
                }
            }
            Move::Add { object, holder } => {
                if !may_be_added(&self.facts, *object, holder) {
                    return Err(Refused::NotAllowed);
                }
                match add(&mut self.facts, *object, *holder) {
                    Ok(()) => Ok(()),
                    Err(_) => Err(Refused::Memory),
                }
            }
            Move::Remove { object, holder } => {
                if !may_be_removed(&self.facts, *object, holder) {
                    return Err(Refused::NotAllowed);
                }
                let_it_go(&mut self.facts, *object, holder);
                Ok(())
            }
            Move::Pass { list } => {
                if !pass_on(&mut self.facts, list.as_slice()) {
                    return Err(Refused::NotAllowed);
                }
                Ok(())
            }
            Move::Change {
                cell,
                place,
                change,
            } => {
                if !may_be_changed(&self.facts, *cell, place, change) {
                    return Err(Refused::NotAllowed);
                }
                match change_it(&mut self.facts, *cell, place.thread, change) {
                    Ok(()) => Ok(()),
                    Err(_) => Err(Refused::Memory),
                }
            }
            Move::Dies { object } => {
                if !may_die(&self.facts, *object) {
                    return Err(Refused::NotAllowed);
                }
                end(&mut self.facts, *object);
                Ok(())
            }
        }
    }

    /// Whether an object lives in the cell.
    pub fn is_live(&self, cell: u32) -> bool
        ensures { result ≡ (map_of self.now).live cell }
    {
        lives(&self.facts, cell)
    }

    /// Whether the object has the holder.
    pub fn has(&self, object: u32, holder: &Holder) -> bool
        ensures { result ≡ has (map_of self.now) object holder.now }
    {
        has(&self.facts, object, holder)
    }
}
