//! A cell of the heap: what its four words say, and what its object is.

use brc_words::{Kind, Owner, State};

/// One row of the heap's table, with what the table doesn't store: which thread bore the object, and its kind.
///
/// A cell's entries stand beside it in the world.
#[derive(Clone, Copy, Debug, PartialEq, Eq)]
// The widest fields first, since fields lie in the order of the source: a cell is 32 bytes.
pub struct Cell {
    /// The count of all others, which can be below 0 for a time (PEP 703, `ob_ref_shared`).
    pub count: i64,
    /// Who owns it (PEP 703, `ob_tid`).
    pub owner: Owner,
    /// The owner's count (PEP 703, `ob_ref_local`).
    pub local: u32,
    /// The thread that has locked it, or 0 (PEP 703, `ob_mutex`).
    pub mutex: u32,
    /// The thread that made the object, whose merge queue it goes into.
    pub bearer: u32,
    /// The state above which the shared count stands.
    pub state: State,
    /// What the object is.
    pub kind: Kind,
}
