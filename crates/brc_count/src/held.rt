//! What a place of a frame has.

/// A reference to the object of the cell, and whether that was seen queued or merged while the place had it.
#[derive(Clone, Copy)]
pub struct PlaceEntry {
    pub cell: u32,
    pub risen: bool,
}
