//! A note.

/// A client's own: what it takes the entry for, and bits that go with it.
#[derive(Clone, Copy, Debug, PartialEq, Eq)]
pub struct Note {
    pub label: u32,
    pub bits: u64,
}
