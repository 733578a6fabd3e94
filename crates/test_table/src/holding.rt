//! The globals of a worked run.

/// What the globals hold in a worked run.
#[derive(Clone, Copy)]
pub enum Held {
    Nothing,
    /// One entry.
    One { key: i64, cell: u32 },
    /// The cell, under the keys 1 and 2.
    Two { cell: u32 },
}
