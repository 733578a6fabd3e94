//! The cycles among the remains, each found once by walks along the holders that stop where a walk has been.

ghost use Rattle.std.specs.Prelude.{◌≡◌, ◌<◌, ℕ, IfOk, IfErr, OnOk, length, get_or, position, ◌==◌};
ghost use Rattle.brc_words.specs.declared.fault.Fault.TheVariants.{OutOfMemory};
ghost use Rattle.brc_report.specs.Tables.{at, sees};
ghost use Rattle.brc_report.specs.Cycles.{holder_in, CycleAt, AreCycles};
ghost use Rattle.brc_report.specs.Walking.{Walked, IsTurned, IsKept};
ghost use Rattle.brc_report.specs.declared.content.Remain.{Remain as TheRemain};

use crate::content::{Cells, Remain};
use crate::table::Table;
use brc_words::Fault;
use std::alloc::{AllocError, Allocator};

/// The holder of each remain. They are gone through from behind, so that the first of one cell stays.
fn holders_in_table<A: Allocator + Copy>(
    alloc: A,
    remains: &[Remain],
) -> Result<Table<u32, A>, AllocError>
    ensures { IfOk result (λ table. (q : ℕ) → at table q ≡ holder_in remains.now q) }
{
    let mut table = Table::new(alloc);
    let mut left = remains.len();
    while left > 0 {
        left -= 1;
        let remain = remains[left];
        table.put(remain.cell, remain.held_by)?;
    }
    Ok(table)
}

/// Walks from a cell to where a walk has been, or to what has no holder: the cells on the way, and where it ends.
fn walk<A: Allocator + Copy>(
    alloc: A,
    remains: &[Remain],
    holders: &Table<u32, A>,
    seen: &mut Table<(), A>,
    from: u32,
) -> Result<(Vec<u32, A>, u32), AllocError>
    requires { (q : ℕ) → at holders.now q ≡ holder_in remains.now q }

    ensures { IfOk result (λ walked.
        Walked (holder_in remains.now) (sees seen.old) (sees seen.new) from walked.0.items walked.1) }
{
    let mut path = Vec::new(alloc);
    let mut cell = from;
    while !seen.has(cell) {
        let Some(next) = holders.get(cell) else {
            return Ok((path, cell));
        };
        seen.put(cell, ())?;
        path.push(cell)?;
        cell = *next;
    }
    Ok((path, cell))
}

/// The cells from their lowest on, and then those before it.
fn from_lowest<A: Allocator + Copy>(alloc: A, cells: &[u32]) -> Result<Vec<u32, A>, AllocError>
    requires { 0 < length cells.now }

    ensures { IfOk result (λ turned. IsTurned cells.now turned.items) }
{
    let mut lowest = 0;
    for index in 1..cells.len() {
        if cells[index] < cells[lowest] {
            lowest = index;
        }
    }
    let mut turned = Vec::new(alloc);
    turned.extend_from_slice(&cells[lowest..])?;
    turned.extend_from_slice(&cells[..lowest])?;
    Ok(turned)
}

/// Where a walk stands at that cell first.
fn place_of(path: &[u32], end: u32) -> Option<usize>
    ensures { result ≡ position (λ cell. cell == end) path.now }
{
    path.iter().position(|cell| *cell == end)
}

/// Keeps the cycle of a walk that ended within itself.
fn keep<A: Allocator + Copy>(
    alloc: A,
    found: &mut Table<Cells<A>, A>,
    path: &[u32],
    end: u32,
) -> Result<(), AllocError>
    ensures { OnOk result (IsKept path.now end (at found.old) (at found.new)) }
{
    let Some(place) = place_of(path, end) else {
        return Ok(());
    };
    let cycle = from_lowest(alloc, &path[place..])?;
    let first = cycle[0];
    found.put(first, Cells::new(cycle))
}

/// The cycles by their first cells.
fn all_found<A: Allocator + Copy>(
    alloc: A,
    remains: &[Remain],
    holders: &Table<u32, A>,
) -> Result<Table<Cells<A>, A>, AllocError>
    requires { (q : ℕ) → at holders.now q ≡ holder_in remains.now q }

    ensures { IfOk result (λ found. (k : ℕ) (d : TheRemain) → k < length remains.now
        → CycleAt (holder_in remains.now) (get_or remains.now k d).cell (at found (get_or remains.now k d).cell)) }
{
    let mut seen = Table::new(alloc);
    let mut found = Table::new(alloc);
    for remain in remains {
        let (path, end) = walk(alloc, remains, holders, &mut seen, remain.cell)?;
        keep(alloc, &mut found, path.as_slice(), end)?;
    }
    Ok(found)
}

/// The cycles of the remains, by their first cells in the order of the remains.
pub fn find_cycles<A: Allocator + Copy>(
    alloc: A,
    remains: &[Remain],
) -> Result<Vec<Cells<A>, A>, Fault>
    ensures cycles { IfOk result (λ cycles. AreCycles remains.now cycles.items) }
    ensures lacks { IfErr result (λ fault. fault ≡ OutOfMemory) }
{
    let holders = holders_in_table(alloc, remains)?;
    let found = all_found(alloc, remains, &holders)?;
    let mut cycles = Vec::new(alloc);
    for remain in remains {
        if let Some(cycle) = found.get(remain.cell) {
            cycles.push(Cells::new(Vec::from_slice(alloc, cycle.as_slice())?))?;
        }
    }
    Ok(cycles)
}
