//! What the entries of a list and of a mailbox have in common.

ghost use Rattle.std.specs.Prelude.{◌≡◌, ◌+◌, ◌<◌, ◌≤◌, ◌++◌, [], ◌∷◌, length, Some, OnOk, OnErr, OnSome, IfNone};
ghost use Rattle.std.specs.Prelude.{slice_get, slice_set, remove};
ghost use Rattle.std.specs.Option.{option_to_list};
ghost use Rattle.brc_words.specs.declared.entry.Entry.{Entry};
ghost use Rattle.brc_block.specs.Row.{RowSeen};

use brc_words::Entry;
use std::alloc::AllocError;

/// Cells with what is noted beside them, by index. One more goes in at the end.
pub trait Entries: Drop {
    ghost row: { Self → RowSeen Entry };

    fn len(&self) -> usize
        ensures { result ≡ length (row self.now).items };

    /// An entry, or None past the end.
    fn noted(&self, index: usize) -> Option<Entry>
        ensures { result ≡ slice_get (row self.now).items index };

    /// Makes room for one more entry: the next put takes no memory then.
    fn reserve(&mut self) -> Result<(), AllocError>
        ensures items { (row self.new).items ≡ (row self.old).items }
        ensures kept { (row self.old).spare ≤ (row self.new).spare }
        ensures made { OnOk result (0 < (row self.new).spare) }

        // A growth is refused only where one was needed.
        ensures needed { OnErr result ((row self.old).spare ≡ 0) }
        ensures unchanged { OnErr result (self.new ≡ self.old) };

    /// One more entry, at the end, in the room that was made for it.
    fn put_reserved(&mut self, entry: Entry)
        requires room { 0 < (row self.old).spare }
        ensures put { (row self.new).items ≡ (row self.old).items ++ entry ∷ [] }
        ensures used { (row self.new).spare + 1 ≡ (row self.old).spare };

    /// One more entry, at the end.
    final fn put(&mut self, entry: Entry) -> Result<(), AllocError>
        ensures put { OnOk result ((row self.new).items ≡ (row self.old).items ++ entry ∷ []) }
        ensures left { OnOk result ((row self.old).spare ≤ (row self.new).spare + 1) }
        ensures needed { OnErr result ((row self.old).spare ≡ 0) }
        ensures unchanged { OnErr result (self.new ≡ self.old) }
    {
        self.reserve()?;
        self.put_reserved(entry);
        Ok(())
    }

    /// Another entry at a place.
    fn set(&mut self, index: usize, entry: Entry)
        requires within { index < length (row self.old).items }
        ensures set { (row self.new).items ≡ slice_set (row self.old).items index entry }
        ensures spare { (row self.new).spare ≡ (row self.old).spare };

    /// Takes an entry, and the later ones close up.
    fn remove(&mut self, index: usize) -> Entry
        requires within { index < length (row self.old).items }
        ensures taken { slice_get (row self.old).items index ≡ Some result }
        ensures left { (row self.new).items ≡ remove (row self.old).items index }
        ensures spare { (row self.new).spare ≡ (row self.old).spare + 1 };

    /// Takes the last entry.
    fn pop(&mut self) -> Option<Entry>
        ensures last { (row self.old).items ≡ (row self.new).items ++ option_to_list result }
        ensures spare { OnSome result ((row self.new).spare ≡ (row self.old).spare + 1) }
        ensures empty { IfNone result ((row self.old).items ≡ []) }
        ensures unchanged { IfNone result (self.new ≡ self.old) };
}
