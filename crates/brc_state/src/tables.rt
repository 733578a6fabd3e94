//! The tables of a world: one vector for each of its lists, and what is read of them.

ghost use Rattle.std.specs.Prelude.{◌≡◌, ◌==◌, length, slice_get, slice_index_or, Some, None};
ghost use Rattle.law.specs.world.Lists.{bit_of, place_at, is_marked, last_of, is_bare, is_unmarked, is_blank};
ghost use Rattle.law.specs.world.Heap.{cell_at, entries_at, row_at, frame_at, popped_at, worklist_at, queue_at};
ghost use Rattle.law.specs.world.Heap.{is_gathered, is_registered, no_cell, no_row};
ghost use Rattle.law.specs.world.Steps.{is_empty};

use crate::bit_words::WordNumbers;
use crate::entries::EntryNumbers;
use crate::frames::Frame;
use crate::marks::Marks;
use law::world::{Cell, Edition, Row, no_cell, no_row};
use std::alloc::Allocator;
use std::marker::Model;

/// The world's lists, each as a vector. All but the first two are indexed by thread.
#[derive(Drop)]
pub struct Tables<A: Allocator + Copy> {
    pub(crate) alloc: A,
    pub(crate) local_limit: u32,
    pub(crate) cells: Vec<Cell, A>,
    pub(crate) entries: Vec<EntryNumbers<A>, A>,
    pub(crate) rows: Vec<Row, A>,
    pub(crate) frames: Vec<Frame<A>, A>,
    pub(crate) popped: Vec<WordNumbers<A>, A>,
    pub(crate) worklists: Vec<Marks<A>, A>,
    pub(crate) queues: Vec<WordNumbers<A>, A>,
    pub(crate) notify_words: Vec<u64, A>,
    pub(crate) gathered: Vec<bool, A>,
    pub(crate) edition: Edition,
    pub(crate) registrations: u32,
    pub(crate) past_allocs: u64,
    pub(crate) past_frees: u64,
}

impl<A: Allocator + Copy> Model for Tables<A> {
    ghost use Rattle.law.specs.world.Heap.{Heap};

    ghost Value = { Heap };

    ghost view = { λ t. record {
      limit = t.local_limit;
      cells = t.cells.items;
      entries = t.entries.items;
      rows = t.rows.items;
      frames = t.frames.items;
      popped = t.popped.items;
      worklists = t.worklists.items;
      queues = t.queues.items;
      notify_words = t.notify_words.items;
      gathered = t.gathered.items;
      edition = t.edition;
      registrations = t.registrations;
      past_allocs = t.past_allocs;
      past_frees = t.past_frees;
    } };
}

impl<A: Allocator + Copy> Tables<A> {
    /// The local count at which an owner counts up on the shared word.
    pub fn local_limit(&self) -> u32
        ensures { result ≡ self.now.limit }
    {
        self.local_limit
    }

    /// Which events there are.
    pub fn edition(&self) -> Edition
        ensures { result ≡ self.now.edition }
    {
        self.edition
    }

    /// How many objects were made by registrations whose number is used again.
    pub fn past_allocs(&self) -> u64
        ensures { result ≡ self.now.past_allocs }
    {
        self.past_allocs
    }

    /// How many blocks these gave back.
    pub fn past_frees(&self) -> u64
        ensures { result ≡ self.now.past_frees }
    {
        self.past_frees
    }

    /// All cells.
    pub fn cells(&self) -> &[Cell]
        ensures { result.now ≡ self.now.cells }
    {
        self.cells.as_slice()
    }

    /// The rows of all threads, the root's first.
    pub fn rows(&self) -> &[Row]
        ensures { result.now ≡ self.now.rows }
    {
        self.rows.as_slice()
    }

    /// The words of a cell.
    pub fn cell(&self, cell: u32) -> Cell
        ensures { result ≡ cell_at self.now cell }
    {
        self.cells.get(cell as usize).copied().unwrap_or(no_cell())
    }

    /// How many cells there are.
    pub fn cell_count(&self) -> usize
        ensures { result ≡ length self.now.cells }
    {
        self.cells.len()
    }

    /// How many rows of threads there are, the root's counted.
    pub fn row_count(&self) -> usize
        ensures { result ≡ length self.now.rows }
    {
        self.rows.len()
    }

    /// The row of a thread.
    pub fn row(&self, thread: u32) -> Row
        ensures { result ≡ row_at self.now thread }
    {
        self.rows.get(thread as usize).copied().unwrap_or(no_row())
    }

    /// What stands at a place of a thread's frame.
    pub fn place(&self, thread: u32, place: u32) -> Option<u32>
        ensures { result ≡ place_at (frame_at self.now thread) place }
    {
        match self.frames.get(thread as usize) {
            Some(frame) => frame.get(place),
            None => None,
        }
    }

    /// How many places a thread's frame has.
    pub fn frame_len(&self, thread: u32) -> usize
        ensures { result ≡ length (frame_at self.now thread) }
    {
        match self.frames.get(thread as usize) {
            Some(frame) => frame.as_slice().len(),
            None => 0,
        }
    }

    /// Whether the cell is on the thread's worklist.
    pub fn is_on_worklist(&self, thread: u32, cell: u32) -> bool
        ensures { result ≡ is_marked (worklist_at self.now thread) cell }
    {
        match self.worklists.get(thread as usize) {
            Some(marks) => marks.has(cell),
            None => false,
        }
    }

    /// The same, where the cell is told as an index.
    pub(crate) fn is_marked_at(&self, thread: u32, cell: usize) -> bool
        ensures { result ≡ is_marked (worklist_at self.now thread) cell }
    {
        match self.worklists.get(thread as usize) {
            Some(marks) => marks.has_at(cell),
            None => false,
        }
    }

    /// Whether the thread's frame has no cell.
    pub fn is_bare(&self, thread: u32) -> bool
        ensures { result ≡ is_bare (frame_at self.now thread) }
    {
        match self.frames.get(thread as usize) {
            Some(frame) => frame.is_bare(),
            None => true,
        }
    }

    /// Whether the thread's worklist is empty.
    pub fn is_unmarked(&self, thread: u32) -> bool
        ensures { result ≡ is_unmarked (worklist_at self.now thread) }
    {
        match self.worklists.get(thread as usize) {
            Some(marks) => marks.is_unmarked(),
            None => true,
        }
    }

    /// Whether the thread has dealt with all that it took from its merge queue.
    pub fn has_popped_nothing(&self, thread: u32) -> bool
        ensures { result ≡ is_blank (popped_at self.now thread) }
    {
        match self.popped.get(thread as usize) {
            Some(words) => words.is_blank(),
            None => true,
        }
    }

    /// Whether the thread's merge queue has nothing.
    pub fn has_nothing_queued(&self, thread: u32) -> bool
        ensures { result ≡ is_blank (queue_at self.now thread) }
    {
        match self.queues.get(thread as usize) {
            Some(words) => words.is_blank(),
            None => true,
        }
    }

    /// Whether the cell's bit is set in the thread's merge queue.
    pub fn is_queued(&self, thread: u32, cell: u32) -> bool
        ensures { result ≡ (bit_of (queue_at self.now thread) cell == 1) }
    {
        match self.queues.get(thread as usize) {
            Some(words) => words.has(cell),
            None => false,
        }
    }

    /// Whether the thread has taken the cell's bit from its merge queue and not dealt with it.
    pub fn is_popped(&self, thread: u32, cell: u32) -> bool
        ensures { result ≡ (bit_of (popped_at self.now thread) cell == 1) }
    {
        match self.popped.get(thread as usize) {
            Some(words) => words.has(cell),
            None => false,
        }
    }

    /// The entries of a cell.
    pub fn entries(&self, cell: u32) -> &[u32]
        ensures { result.now ≡ entries_at self.now cell }
    {
        match self.entries.get(cell as usize) {
            Some(entries) => entries.as_slice(),
            None => &[],
        }
    }

    /// One entry of a cell.
    pub fn entry(&self, cell: u32, index: u32) -> Option<u32>
        ensures { result ≡ slice_get (entries_at self.now cell) index }
    {
        self.entries(cell).get(index as usize).copied()
    }

    /// The last entry of a cell.
    pub fn last_entry(&self, cell: u32) -> Option<u32>
        ensures { result ≡ last_of (entries_at self.now cell) }
    {
        match self.entries.get(cell as usize) {
            Some(entries) => entries.last(),
            None => None,
        }
    }

    /// Whether a cell has no entries.
    pub fn has_no_entries(&self, cell: u32) -> bool
        ensures { result ≡ is_empty (entries_at self.now cell) }
    {
        self.entries(cell).is_empty()
    }

    /// Whether the number is that of a registered thread.
    pub fn is_registered(&self, thread: u32) -> bool
        ensures { result ≡ is_registered self.now thread }
    {
        0 < thread && (thread as usize) < self.rows.len()
    }

    /// Whether the root has gathered the thread.
    pub fn is_gathered(&self, thread: u32) -> bool
        ensures { result ≡ is_gathered self.now thread }
    {
        self.gathered.get(thread as usize).copied().unwrap_or(false)
    }
}
