//! The numbers of a world: a cell's total count, the ledgers, and how many objects live.

ghost use Rattle.std.specs.Prelude.{◌≡◌, ◌+◌, ◌<◌, ◌^◌, pos, length, drop, sum_by, count_by, IfSome};
ghost use Rattle.brc_core.specs.Readings.{only_if, ledger_of, ledgers_of, past_of};
ghost use Rattle.law.specs.world.Heap.{cell_at, row_at, is_registered};
ghost use Rattle.law.specs.world.Holding.{lives, lives_at, total_of, holders_of, live_count};
ghost use Rattle.brc_words.specs.Shared.{CountFits};

use crate::world::World;
use brc_words::{FIRST_MORTAL, Owner, State};
use law::world::{Cell, Row, is_immortal};
use std::alloc::Allocator;

/// How many objects a thread has made, and how many blocks it has given back.
#[derive(Clone, Copy, Debug, PartialEq, Eq)]
pub struct Ledger {
    pub allocs: u64,
    pub frees: u64,
}

/// Whether an object is in a cell with this owner.
fn lives(owner: Owner) -> bool
    ensures { result ≡ lives owner }
{
    match owner {
        Owner::Nobody => true,
        Owner::Thread(_) => true,
        Owner::Claimed(_) => false,
        Owner::Free => false,
    }
}

/// Once merged the shared count is the count, before that local and shared count together.
fn total_of(found: Cell) -> i64
    requires { CountFits found.count }

    ensures { result ≡ total_of found }
{
    match found.state {
        State::Default => found.local as i64 + found.count,
        State::Queued => found.local as i64 + found.count,
        State::Merged => found.count,
    }
}

/// The births of all rows.
fn allocs(rows: &[Row]) -> u64
    requires { sum_by (λ row. row.allocs) rows.now < 2 ^ 64 }

    ensures { result ≡ sum_by (λ row. row.allocs) rows.now }
{
    rows.iter().map(|row| row.allocs).sum()
}

/// The frees of all rows.
fn frees(rows: &[Row]) -> u64
    requires { sum_by (λ row. row.frees) rows.now < 2 ^ 64 }

    ensures { result ≡ sum_by (λ row. row.frees) rows.now }
{
    rows.iter().map(|row| row.frees).sum()
}

/// How many of the cells have a mortal object that lives.
fn live(cells: &[Cell]) -> usize
    ensures { result ≡ count_by (λ x. lives x.owner) (drop FIRST_MORTAL cells.now) }
{
    cells
        .iter()
        .skip(FIRST_MORTAL as usize)
        .filter(|found| lives(found.owner))
        .count()
}

impl<A: Allocator + Copy> World<A> {
    /// Whether a mortal object lives in the cell.
    pub fn is_live(&self, cell: u32) -> bool
        ensures { result ≡ lives_at self.now cell }
    {
        !is_immortal(cell) && lives(self.tables.cell(cell).owner)
    }

    /// The total count of a live mortal object (PEP 703): its references.
    pub fn total(&self, cell: u32) -> Option<i64>
        ensures total { result ≡ only_if (lives_at self.now cell)
            (total_of (cell_at self.now cell)) }
        ensures references { IfSome result
            (λ total. total ≡ pos (length (holders_of self.now cell))) }
    {
        if !self.is_live(cell) {
            return None;
        }
        Some(total_of(self.tables.cell(cell)))
    }

    /// The ledger of a thread, if it was registered.
    pub fn ledger(&self, thread: u32) -> Option<Ledger>
        ensures { result ≡ only_if (is_registered self.now thread)
            (ledger_of (row_at self.now thread)) }
    {
        if !self.tables.is_registered(thread) {
            return None;
        }
        let row = self.tables.row(thread);
        Some(Ledger {
            allocs: row.allocs,
            frees: row.frees,
        })
    }

    /// The ledgers of all threads together.
    pub fn ledgers(&self) -> Ledger
        ensures { result ≡ ledgers_of self.now }
    {
        Ledger {
            allocs: allocs(self.tables.rows()) + self.tables.past_allocs(),
            frees: frees(self.tables.rows()) + self.tables.past_frees(),
        }
    }

    /// The ledger of all registrations whose number is used again.
    pub fn past(&self) -> Ledger
        ensures { result ≡ past_of self.now }
    {
        Ledger {
            allocs: self.tables.past_allocs(),
            frees: self.tables.past_frees(),
        }
    }

    /// How many mortal objects live.
    pub fn live(&self) -> u32
        ensures live { result ≡ live_count self.now }
        ensures ledger { (ledgers_of self.now).allocs ≡ (ledgers_of self.now).frees + result }
    {
        live(self.tables.cells()) as u32
    }
}
