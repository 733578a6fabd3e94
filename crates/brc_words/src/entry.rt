//! An entry.

ghost use Rattle.std.specs.Prelude.{◌≡◌};
ghost use Rattle.brc_words.specs.Notes.{noted, bare, note_in};

use crate::note::Note;

/// An entry of a container: the cell of its reference, and the note beside it. It takes 16 bytes.
#[derive(Clone, Copy, Debug, PartialEq, Eq)]
pub struct Entry {
    pub bits: u64,
    pub cell: u32,
    pub label: u32,
}

impl Entry {
    /// The cell's, with the note.
    #[inline(always)]
    pub fn new(cell: u32, note: Note) -> Self
        ensures { result ≡ noted cell note }
    {
        Entry {
            bits: note.bits,
            cell,
            label: note.label,
        }
    }

    /// The cell's, with nothing noted.
    #[inline(always)]
    pub fn bare(cell: u32) -> Self
        ensures { result ≡ bare cell }
    {
        Entry {
            bits: 0,
            cell,
            label: 0,
        }
    }

    /// What is noted.
    #[inline(always)]
    pub fn note(self) -> Note
        ensures { result ≡ note_in self }
    {
        Note {
            label: self.label,
            bits: self.bits,
        }
    }
}
