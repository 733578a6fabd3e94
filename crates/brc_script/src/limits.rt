//! The limits of a script.

/// A section has this many registers, `r0` to `r15`.
pub const REGISTERS: u8 = 16;
/// A script has at most this many sections.
pub const MOST_SECTIONS: usize = 63;
/// The name of a section has at most this many bytes.
pub const MOST_SECTION_NAME: usize = 32;
/// A text has at most this many bytes.
pub const MOST_TEXT: usize = 4_096;
/// A shared name, and a text that is a key, has at most this many bytes.
pub const MOST_NAME: usize = 64;
/// `repeat` runs its lines at most so many times.
pub const MOST_TIMES: u32 = 1_000_000;
