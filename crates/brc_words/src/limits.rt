//! The limits of this heap, and the cells that have names.

/// Cells 0 to 264 are immortal and have a fixed value; this one is the immortal dictionary of globals.
pub const GLOBALS: u32 = 265;
/// The first cell that is born and dies.
pub const FIRST_MORTAL: u32 = 266;
/// A heap has at least this many cells.
pub const FEWEST_CELLS: u32 = 512;
/// A heap has at most this many cells.
pub const MOST_CELLS: u32 = 65_536;
/// A heap has at most this many registered threads at a time; the root is thread 0.
pub const MOST_THREADS: u32 = 64;
/// A heap registers threads at most this often, if their numbers are used again.
pub const MOST_REGISTRATIONS: u32 = 65_536;
/// A release makes at most this many events, whatever other threads do.
pub const MOST_EVENTS: u32 = 4;
/// A frame has the places below this number.
pub const MOST_PLACES: u32 = 65_536;
/// A list, dictionary or mailbox has at most this many entries.
pub const MOST_ENTRIES: u32 = 1_048_576;
/// The largest `local_limit`: at it the owner counts up on the shared word.
pub const MOST_LOCAL: u32 = 4_294_967_294;
/// A trace text has at most this many bytes.
pub const MOST_INPUT: usize = 16_777_216;
/// The local word of an immortal (PEP 703: `UINT32_MAX`).
pub const IMMORTAL_LOCAL: u32 = 4_294_967_295;
/// A registered thread bears at most this many objects. A later one with its number counts anew.
pub const MOST_BIRTHS: u64 = 140_737_488_355_328;
/// The shared word of count 0 has this number above its state bits, so that a count below 0 has a spelling.
pub const COUNTED_FROM: i64 = 1_099_511_627_776;
