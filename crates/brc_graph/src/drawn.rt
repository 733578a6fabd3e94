//! What is drawn for a line.

use brc_report::Cells;
use brc_text::Keyword;
use std::alloc::Allocator;

/// What is drawn for a line.
#[derive(Drop)]
pub enum Drawn<A: Allocator> {
    Nothing,
    /// An object, with its kind.
    Object {
        cell: u32,
        kind: Keyword,
    },
    /// An object, with its kind, and the link to it from the cell that holds it.
    Remain {
        cell: u32,
        kind: Keyword,
        holder: u32,
    },
    /// A box round the cells of a cycle.
    Cycle(Cells<A>),
    /// A thread, with its status.
    Thread {
        thread: u32,
        status: Keyword,
    },
    /// The link from a thread to the cell in a place of its frame.
    Frame {
        thread: u32,
        place: u32,
        cell: u32,
    },
    /// The link from a thread to a cell that its queue, its popped bits or its hand holds.
    Held {
        thread: u32,
        by: Keyword,
        cell: u32,
    },
    /// The link from a container to an entry.
    Entry {
        cell: u32,
        index: u32,
        entry: u32,
    },
}

/// What holds what: what is drawn for each line of a text, in order.
#[derive(Drop)]
pub struct Graph<A: Allocator> {
    pub drawn: Vec<Drawn<A>, A>,
}
