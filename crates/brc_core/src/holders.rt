//! The holders of an object: every place that keeps it alive.
//!
//! They are read off frames, entries, queues and hands, and never off a count.

ghost use Rattle.std.specs.Prelude.{◌≡◌, ◌++◌, length, IfOk, IfErr, OnOk};
ghost use Rattle.brc_core.specs.Holders.{count_in, holds, holder_in, in_part, in_frames, in_entries};
ghost use Rattle.brc_core.specs.Readings.{mortal_holders};
ghost use Rattle.law.specs.world.Holding.{carries, if_so, holders_of};
ghost use Rattle.law.specs.world.Lists.{names};

use crate::world::World;
use brc_model::Holder;
use brc_words::Fault;
use law::world::{Hand, Role};
use std::alloc::{AllocError, Allocator};

/// A part of the world in which holders stand, at places that are numbered from 0.
#[derive(Clone, Copy, Debug, PartialEq, Eq)]
pub(crate) enum HolderPart {
    /// The frame of this thread.
    Frame(u32),
    /// The entries of this cell.
    Entries(u32),
    /// The merge queues: the cell's bit of each thread.
    Queues,
    /// What threads have popped: the cell's bit of each.
    Popped,
    /// The hand of each thread.
    Hands,
}

/// Whether a place has this cell.
fn names(cell: u32, held: Option<u32>) -> bool
    ensures { result ≡ names cell held }
{
    match held {
        None => false,
        Some(there) => there == cell,
    }
}

/// Whether the hand has a reference to this cell.
fn carries(cell: u32, hand: Hand) -> bool
    ensures { result ≡ carries cell hand }
{
    match hand {
        Hand::Free => false,
        Hand::Busy(phase, there) => {
            matches!(phase.role(), Role::Carries | Role::Adopts) && there == cell
        }
    }
}

/// The holder of the cell at this number of the part.
fn holder_in(part: HolderPart, cell: u32, number: u32) -> Holder
    ensures { result ≡ holder_in part cell number }
{
    match part {
        HolderPart::Frame(thread) => Holder::Frame {
            thread,
            place: number,
        },
        HolderPart::Entries(at) => Holder::Entry {
            cell: at,
            index: number,
        },
        HolderPart::Queues => Holder::Queue {
            thread: number,
            cell,
        },
        HolderPart::Popped => Holder::Popped {
            thread: number,
            cell,
        },
        HolderPart::Hands => Holder::Hand {
            thread: number,
            cell,
        },
    }
}

/// One more holder, if it is one.
fn put_if<B: Allocator>(
    found: &mut Vec<Holder, B>,
    holds: bool,
    holder: Holder,
) -> Result<(), AllocError>
    ensures { OnOk result (found.new.items ≡ found.old.items ++ if_so holds holder) }
{
    if holds {
        found.push(holder)?;
    }
    Ok(())
}

impl<A: Allocator + Copy> World<A> {
    /// How many threads have rows, the root's counted.
    #[tactic(auto, using(crate::proofs::Bounds::threads_fit))]
    fn threads(&self) -> u32
        ensures { result ≡ length self.now.rows }
    {
        self.tables.row_count() as u32
    }

    /// How many places the part has.
    #[tactic(auto, using(crate::proofs::Bounds::entries_fit))]
    fn count_in(&self, part: HolderPart) -> u32
        ensures { result ≡ count_in self.now part }
    {
        match part {
            HolderPart::Frame(thread) => self.places(thread),
            HolderPart::Entries(at) => self.tables.entries(at).len() as u32,
            HolderPart::Queues => self.threads(),
            HolderPart::Popped => self.threads(),
            HolderPart::Hands => self.threads(),
        }
    }

    /// Whether the part's place with this number holds the cell.
    fn holds(&self, part: HolderPart, cell: u32, number: u32) -> bool
        ensures { result ≡ holds self.now part cell number }
    {
        match part {
            HolderPart::Frame(thread) => names(cell, self.place(thread, number)),
            HolderPart::Entries(at) => names(cell, self.entry(at, number)),
            HolderPart::Queues => self.queued(number, cell),
            HolderPart::Popped => self.popped(number, cell),
            HolderPart::Hands => carries(cell, self.tables.row(number).hand),
        }
    }

    /// Puts the holders of the cell that stand in one part.
    fn put_part<B: Allocator>(
        &self,
        found: &mut Vec<Holder, B>,
        part: HolderPart,
        cell: u32,
    ) -> Result<(), AllocError>
        ensures { OnOk result (found.new.items ≡ found.old.items ++ in_part self.now part cell) }
    {
        for number in 0..self.count_in(part) {
            let holds = self.holds(part, cell, number);
            put_if(found, holds, holder_in(part, cell, number))?;
        }
        Ok(())
    }

    /// Puts those that stand in frames.
    fn put_frames<B: Allocator>(
        &self,
        found: &mut Vec<Holder, B>,
        cell: u32,
    ) -> Result<(), AllocError>
        ensures { OnOk result (found.new.items ≡ found.old.items ++ in_frames self.now cell) }
    {
        for thread in 0..self.threads() {
            self.put_part(found, HolderPart::Frame(thread), cell)?;
        }
        Ok(())
    }

    /// Puts those that stand among entries.
    fn put_entries<B: Allocator>(
        &self,
        found: &mut Vec<Holder, B>,
        cell: u32,
    ) -> Result<(), AllocError>
        ensures { OnOk result (found.new.items ≡ found.old.items ++ in_entries self.now cell) }
    {
        for at in 0..self.cells() {
            self.put_part(found, HolderPart::Entries(at), cell)?;
        }
        Ok(())
    }

    /// Puts all: frame places, entries, queue bits, popped bits, hands.
    fn put_all<B: Allocator>(&self, found: &mut Vec<Holder, B>, cell: u32) -> Result<(), AllocError>
        ensures { OnOk result (found.new.items ≡ found.old.items ++ holders_of self.now cell) }
    {
        // What keeps the lists as long as one another is known of the tables.
        let _ = &self.tables;
        self.put_frames(found, cell)?;
        self.put_entries(found, cell)?;
        self.put_part(found, HolderPart::Queues, cell)?;
        self.put_part(found, HolderPart::Popped, cell)?;
        self.put_part(found, HolderPart::Hands, cell)?;
        Ok(())
    }

    /// The holders of a live mortal object: frame places, entries, queue bits, popped bits, hands,
    /// each by rising numbers.
    pub fn holders<B: Allocator>(&self, alloc: B, cell: u32) -> Result<Vec<Holder, B>, Fault>
        ensures holders { IfOk result (λ list. list.items ≡ mortal_holders self.now cell) }
        ensures refused { IfErr result (λ fault. fault ≡ Fault.OutOfMemory) }
    {
        let mut found = Vec::new(alloc);
        if self.is_live(cell) {
            self.put_all(&mut found, cell)?;
        }
        Ok(found)
    }
}
