//! Entries: of each cell the objects that its object refers to, in their order.

ghost use Rattle.std.specs.Prelude.{◌≡◌, ◌<◌, [], ◌∷◌, ◌++◌, length, remove, slice_index_or, slice_set, OnOk, OnErr};
ghost use Rattle.law.specs.world.Lists.{last_of, front_of};
ghost use Rattle.law.specs.world.Steps.{entries_with};

use law::world::Dropped;
use std::alloc::{AllocError, Allocator};
use std::marker::Model;

/// The cell numbers, as a list.
#[derive(Drop)]
pub(crate) struct EntryNumbers<A: Allocator> {
    list: Vec<u32, A>,
}

impl<A: Allocator> Model for EntryNumbers<A> {
    ghost use Rattle.std.specs.Prelude.{ℕ, List};

    ghost Value = { List ℕ };

    ghost view = { λ e. e.list.items };
}

impl<A: Allocator> EntryNumbers<A> {
    /// No entry, and no memory.
    pub(crate) fn new(alloc: A) -> Self
        ensures { result ≡ [] }
    {
        EntryNumbers {
            list: Vec::new(alloc),
        }
    }

    /// All of them.
    pub(crate) fn as_slice(&self) -> &[u32]
        ensures { result.now ≡ self.now }
    {
        self.list.as_slice()
    }

    /// The last one, if any.
    pub(crate) fn last(&self) -> Option<u32>
        ensures { result ≡ last_of self.now }
    {
        self.list.as_slice().last().copied()
    }

    /// One more at the end. A refused growth changes nothing.
    pub(crate) fn push(&mut self, cell: u32) -> Result<(), AllocError>
        ensures ok { OnOk result (self.new ≡ self.old ++ cell ∷ []) }
        ensures err { OnErr result (self.new ≡ self.old) }
    {
        self.list.push(cell)?;
        Ok(())
    }

    /// One goes, and later ones close up.
    pub(crate) fn remove(&mut self, index: u32)
        requires { index < length self.old }

        ensures { self.new ≡ remove self.old index }
    {
        let _ = self.list.remove(index as usize);
    }

    /// One becomes this cell; past the end nothing happens.
    pub(crate) fn set(&mut self, index: u32, cell: u32)
        ensures { self.new ≡ slice_set self.old index cell }
    {
        if let Some(there) = self.list.get_mut(index as usize) {
            *there = cell;
        }
    }

    /// The last one goes.
    pub(crate) fn drop_last(&mut self)
        ensures { self.new ≡ front_of self.old }
    {
        self.list.truncate(self.list.len().saturating_sub(1));
    }

    /// All go.
    pub(crate) fn clear(&mut self)
        ensures { self.new ≡ [] }
    {
        self.list.clear();
    }
}

// ---- one cell's entries among all

/// The cell gets one more entry. A refused growth changes nothing.
pub(crate) fn add_entry<A: Allocator>(
    lists: &mut Vec<EntryNumbers<A>, A>,
    cell: u32,
    entry: u32,
) -> Result<(), AllocError>
    ensures ok { OnOk result (lists.new.items ≡ slice_set lists.old.items cell
        (slice_index_or lists.old.items cell [] ++ entry ∷ [])) }
    ensures err { OnErr result (lists.new.items ≡ lists.old.items) }
{
    match lists.get_mut(cell as usize) {
        Some(entries) => entries.push(entry),
        None => Ok(()),
    }
}

/// An entry of the cell goes, and later ones close up.
pub(crate) fn remove_entry<A: Allocator>(lists: &mut Vec<EntryNumbers<A>, A>, cell: u32, index: u32)
    requires { index < length (slice_index_or lists.old.items cell []) }

    ensures { lists.new.items ≡ slice_set lists.old.items cell
        (remove (slice_index_or lists.old.items cell []) index) }
{
    if let Some(entries) = lists.get_mut(cell as usize) {
        entries.remove(index);
    }
}

/// An entry of the cell becomes this one.
pub(crate) fn set_entry<A: Allocator>(
    lists: &mut Vec<EntryNumbers<A>, A>,
    cell: u32,
    index: u32,
    entry: u32,
)
    ensures { lists.new.items ≡ slice_set lists.old.items cell
        (slice_set (slice_index_or lists.old.items cell []) index entry) }
{
    if let Some(entries) = lists.get_mut(cell as usize) {
        entries.set(index, entry);
    }
}

/// An object is born without entries, or the last entry of a dead one goes.
#[inline(always)]
pub(crate) fn change_entries<A: Allocator>(
    lists: &mut Vec<EntryNumbers<A>, A>,
    born: Option<u32>,
    out: Option<Dropped>,
)
    ensures { lists.new.items ≡ entries_with born out lists.old.items }
{
    match (born, out) {
        (Some(cell), _) => {
            if let Some(entries) = lists.get_mut(cell as usize) {
                entries.clear();
            }
        }
        (None, Some(Dropped::Work(cell))) => {
            if let Some(entries) = lists.get_mut(cell as usize) {
                entries.drop_last();
            }
        }
        (None, Some(Dropped::Frame(_))) => {}
        (None, None) => {}
    }
}
