//! The contents of heaps, made by rule.

ghost use Rattle.std.specs.Prelude.{◌≤◌};

use brc_report::{Cells, Content};
use brc_words::{FIRST_MORTAL, GLOBALS, Kind};
use std::alloc::{AllocError, Global};

/// A heap has at most this many live cells here.
pub const MOST_LIVE: u32 = 65_000;

/// Which cells the entries are.
#[derive(Clone, Copy)]
pub enum Shape {
    /// All entries of a cell are the next one, and of the last cell the first.
    Ring,
    /// The first entry is the next cell, and the others are anywhere.
    Mixed,
}

/// Live lists with so many entries each, and the globals without any.
#[derive(Clone, Copy)]
pub struct Graph {
    pub shape: Shape,
    pub cells: u32,
    pub each: u32,
    ghost some: { 1 ≤ cells },
    ghost few: { cells ≤ 65000 },
}

/// The next of a row of numbers that looks like chance (Knuth's linear congruential generator with the constants of
/// Numerical Recipes).
fn next_number(number: u32) -> u32 {
    number.wrapping_mul(1_664_525).wrapping_add(1_013_904_223)
}

/// The contents of the heap.
pub fn contents_of(alloc: Global, graph: Graph) -> Result<Vec<Content<Global>>, AllocError> {
    let Graph { shape, cells, each } = graph;
    let mut contents = Vec::new(alloc);
    contents.push(Content {
        cell: GLOBALS,
        kind: Kind::Dict,
        entries: Cells::new(Vec::new(alloc)),
    })?;
    let mut number = 1;
    for index in 0..cells {
        let next = FIRST_MORTAL + (index + 1) % cells;
        let mut entries = Vec::new(alloc);
        entries.push(next)?;
        for _ in 1..each {
            number = next_number(number);
            // The low bits of such a row repeat soon.
            let other = FIRST_MORTAL + (number >> 8) % cells;
            entries.push(match shape {
                Shape::Ring => next,
                Shape::Mixed => other,
            })?;
        }
        contents.push(Content {
            cell: FIRST_MORTAL + index,
            kind: Kind::List,
            entries: Cells::new(entries),
        })?;
    }
    Ok(contents)
}
