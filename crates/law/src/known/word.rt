//! The words of the heap's table.

/// The words of a cell.
#[derive(Clone, Copy, Debug, PartialEq, Eq)]
pub enum Field {
    Owner,
    Local,
    Shared,
    Mutex,
}

/// A word of the table.
#[derive(Clone, Copy, Debug, PartialEq, Eq)]
pub enum Word {
    /// One of a cell.
    Of(Field, u32),
    /// One of the merge queue of this thread.
    Queue(u32, u32),
    /// The notify word of this thread.
    NotifyWord(u32),
    /// Which of 64 cells are free, from 64 times this number on.
    FreeWord(u32),
}
