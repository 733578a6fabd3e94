//! A trace: the edition that it speaks of, the heap that it asks for, and its events.

ghost use Rattle.std.specs.Prelude.{◌≡◌, true};
ghost use Rattle.brc_trace.specs.Traces.{is_size, is_limit, all_fit};

use law::world::{Edition, Event};
use std::alloc::Allocator;

/// A heap of so many cells, and the events that are to happen in it, in order. They are of one edition, which the text
/// of the trace tells: each edition has a format of its own.
#[derive(Debug, Drop)]
pub struct Trace<A: Allocator> {
    pub edition: Edition,
    pub cells: u32,
    pub local_limit: u32,
    pub events: Vec<Event, A>,

    // Each value has a spelling.
    pub ghost size: { is_size cells ≡ true },
    pub ghost limit: { is_limit local_limit ≡ true },
    pub ghost fit: { all_fit edition events.items ≡ true },
}
