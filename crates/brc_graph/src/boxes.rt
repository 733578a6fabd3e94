//! The cycles of a world. Its text names none, so they are looked for along the lowest holder of each object, as a
//! report's are.

ghost use Rattle.std.specs.Prelude.{◌≡◌, ◌++◌, ℕ, Some, [], map, IfOk, IfErr, OnOk, nat_eq};
ghost use Rattle.std.specs.HashMap as hash;
ghost use Rattle.brc_words.specs.declared.fault.Fault.TheVariants.{OutOfMemory};
ghost use Rattle.brc_report.specs.Cycles.{in_front};
ghost use Rattle.brc_graph.specs.Reports.{cycle_drawn};
ghost use Rattle.brc_graph.specs.Boxes.{link_of, object_of, lower, with_holder, holder_in, held_object, held_among, HasBoxes};

use crate::drawn::{Drawn, Graph};
use brc_report::{Cells, Remain, find_cycles};
use brc_words::{Fault, Kind};
use std::alloc::{AllocError, Allocator};
use std::collections::HashMap;
use std::hash::{BuildHasherDefault, FoldHasher};

/// The lowest holder of each cell that has one.
type Holders<A> = HashMap<u32, u32, BuildHasherDefault<FoldHasher>, A>;

/// The container and its entry, if the line is of an entry.
fn link_of<A: Allocator>(line: &Drawn<A>) -> Option<(u32, u32)>
    ensures { result ≡ link_of line.now }
{
    match line {
        Drawn::Entry {
            cell,
            index: _index,
            entry,
        } => Some((*cell, *entry)),
        _ => None,
    }
}

/// The cell of the object, if the line is of one.
fn object_of<A: Allocator>(line: &Drawn<A>) -> Option<u32>
    ensures { result ≡ object_of line.now }
{
    match line {
        Drawn::Object { cell, kind: _kind } => Some(*cell),
        _ => None,
    }
}

/// The line's container holds its entry, too.
fn note_link<A: Allocator + Clone>(
    holders: &mut Holders<A>,
    line: &Drawn<A>,
) -> Result<(), AllocError>
    ensures { OnOk result ((q : ℕ) → hash.get nat_eq holders.new q
        ≡ with_holder (link_of line.now) q (hash.get nat_eq holders.old q)) }
{
    let Some((cell, entry)) = link_of(line) else {
        return Ok(());
    };
    let lowest = match holders.get(&entry) {
        Some(other) => lower(cell, *other),
        None => cell,
    };
    match holders.insert(entry, lowest) {
        Ok(_old) => Ok(()),
        Err(_refused) => Err(AllocError),
    }
}

/// The lower of two cells.
fn lower(cell: u32, other: u32) -> u32
    ensures { result ≡ lower cell (Some other) }
{
    if other < cell { other } else { cell }
}

/// Who holds what, by all lines. They are gone through from behind.
fn holders<A: Allocator + Copy>(alloc: A, lines: &[Drawn<A>]) -> Result<Holders<A>, AllocError>
    ensures { IfOk result (λ holders. (q : ℕ) → hash.get nat_eq holders q ≡ holder_in lines.now q) }
{
    let mut holders = HashMap::new(alloc);
    let mut left = lines.len();
    while left > 0 {
        left -= 1;
        note_link(&mut holders, &lines[left])?;
    }
    Ok(holders)
}

/// The line's object behind the others, if it is of one that a container holds. Where cycles are looked for, nobody asks
/// for its kind.
fn push_held<A: Allocator + Clone>(
    held: &mut Vec<Remain, A>,
    lines: &[Drawn<A>],
    holders: &Holders<A>,
    line: &Drawn<A>,
) -> Result<(), AllocError>
    requires { (q : ℕ) → hash.get nat_eq holders.now q ≡ holder_in lines.now q }
    ensures { OnOk result (held.new.items
        ≡ held.old.items ++ in_front (held_object (holder_in lines.now) (object_of line.now)) []) }
{
    let Some(cell) = object_of(line) else {
        return Ok(());
    };
    let Some(holder) = holders.get(&cell) else {
        return Ok(());
    };
    held.push(Remain {
        cell,
        kind: Kind::Nothing,
        held_by: *holder,
    })?;
    Ok(())
}

/// The objects of a world that a container holds.
fn held_objects<A: Allocator + Copy>(
    alloc: A,
    lines: &[Drawn<A>],
) -> Result<Vec<Remain, A>, AllocError>
    ensures { IfOk result (λ held. held.items ≡ held_among lines.now lines.now) }
{
    let holders = holders(alloc, lines)?;
    let mut held = Vec::new(alloc);
    for line in lines {
        push_held(&mut held, lines, &holders, line)?;
    }
    Ok(held)
}

/// A box for each cycle behind the others.
fn push_boxes<A: Allocator>(
    drawn: Vec<Drawn<A>, A>,
    cycles: Vec<Cells<A>, A>,
) -> Result<Vec<Drawn<A>, A>, AllocError>
    ensures { IfOk result (λ all. all.items ≡ drawn.items ++ map cycle_drawn cycles.items) }
{
    let mut drawn = drawn;
    for cycle in cycles {
        drawn.push(Drawn::Cycle(cycle))?;
    }
    Ok(drawn)
}

/// A box more for each cycle of a world, behind what its lines draw. A report names its own, and gets none.
pub fn box_cycles<A: Allocator + Copy>(alloc: A, graph: Graph<A>) -> Result<Graph<A>, Fault>
    ensures boxes { IfOk result (λ boxed. HasBoxes graph.drawn.items boxed.drawn.items) }
    ensures lacks { IfErr result (λ fault. fault ≡ OutOfMemory) }
{
    let held = held_objects(alloc, graph.drawn.as_slice())?;
    let cycles = find_cycles(alloc, held.as_slice())?;
    let Graph { drawn } = graph;
    let drawn = push_boxes(drawn, cycles)?;
    Ok(Graph { drawn })
}
