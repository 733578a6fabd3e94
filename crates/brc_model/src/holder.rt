//! The places that keep an object alive.

/// One reference to an object: the place that has it.
#[derive(Clone, Copy, Debug, PartialEq, Eq)]
pub enum Holder {
    /// A place of a thread's frame.
    Frame { thread: u32, place: u32 },
    /// An entry of an object, or of a block on a worklist.
    Entry { cell: u32, index: u32 },
    /// A bit of a thread's merge queue.
    Queue { thread: u32, cell: u32 },
    /// An entry that a thread has taken from its merge queue and not dealt with.
    Popped { thread: u32, cell: u32 },
    /// What a thread carries between two steps of one call.
    Hand { thread: u32, cell: u32 },
}
