//! What an object holds.

ghost use Rattle.std.specs.Prelude.{◌≡◌, ◌≢◌, ◌+◌, ◌<◌, ◌≤◌, ◌++◌, [], ◌∷◌, length, take, All, IsTrue, Some, OnOk};
ghost use Rattle.std.specs.Prelude.{OnErr, IfNone, slice_get, slice_set, remove};
ghost use Rattle.std.specs.Option.{option_map, option_to_list};
ghost use Rattle.brc_words.specs.declared.key.Key.{Key};
ghost use Rattle.brc_words.specs.Kinds.{is_container};
ghost use Rattle.brc_words.specs.declared.kind.Kind.TheVariants as kinds;

use crate::cell_list::CellList;
use crate::entries::Entries;
use crate::letters::Letters;
use crate::pairs::Pairs;
use brc_words::{Entry, Key, Kind, Text};
use std::alloc::{AllocError, Allocator};

/// What an object holds; containers hold cell numbers, each with what is noted beside it.
#[derive(Drop)]
pub enum Payload<A: Allocator> {
    Int(i64),
    Text(Text<A>),
    List(CellList<A>),
    Dict(Pairs<A>),
    Mailbox(Letters<A>),
    Nothing,
    Truth(bool),
}

impl<A: Allocator> Payload<A> {
    ghost use Rattle.brc_block.specs.Payload.{kind_of, noted_of, entries_of, keys_of, spare_of};

    /// What kind of object it is.
    #[inline(always)]
    pub fn kind(&self) -> Kind
        ensures { result ≡ kind_of self.now }
    {
        match self {
            Payload::Int(_) => Kind::Int,
            Payload::Text(_) => Kind::Text,
            Payload::List(_) => Kind::List,
            Payload::Dict(_) => Kind::Dict,
            Payload::Mailbox(_) => Kind::Mailbox,
            Payload::Nothing => Kind::Nothing,
            Payload::Truth(false) => Kind::False,
            Payload::Truth(true) => Kind::True,
        }
    }

    #[tactic(auto, using(brc_words::proofs::Cells::cells_long))]
    /// How many entries it has; only containers have any.
    #[inline(always)]
    pub fn len(&self) -> usize
        ensures { result ≡ length (entries_of self.now) }
    {
        match self {
            Payload::List(cells) => cells.len(),
            Payload::Dict(pairs) => pairs.len(),
            Payload::Mailbox(letters) => letters.len(),
            _ => 0,
        }
    }

    #[tactic(auto, using(brc_words::proofs::Cells::cells_read))]
    /// The cell of an entry, or None past the end.
    #[inline(always)]
    pub fn entry(&self, index: usize) -> Option<u32>
        ensures { result ≡ slice_get (entries_of self.now) index }
    {
        cell_alone(self.noted(index))
    }

    /// An entry with what is noted beside it, or None past the end.
    #[inline(always)]
    pub fn noted(&self, index: usize) -> Option<Entry>
        ensures { result ≡ slice_get (noted_of self.now) index }
    {
        match self {
            Payload::List(cells) => cells.noted(index),
            Payload::Dict(pairs) => pairs.noted(index),
            Payload::Mailbox(letters) => letters.noted(index),
            _ => None,
        }
    }

    #[tactic(auto, using(brc_words::proofs::Cells::cells_put))]
    /// One more entry of a list or a mailbox, at the end, in the room that was made for it.
    #[inline(always)]
    pub fn put_reserved(&mut self, entry: Entry)
        requires keyless { kind_of self.old ≢ kinds.Dict }
        requires room { 0 < spare_of self.old }
        ensures put { entries_of self.new ≡ entries_of self.old ++ entry.cell ∷ [] }
        ensures noted { noted_of self.new ≡ noted_of self.old ++ entry ∷ [] }
        ensures used { spare_of self.new + 1 ≡ spare_of self.old }
        ensures kind { kind_of self.new ≡ kind_of self.old }
        ensures keys { keys_of self.new ≡ keys_of self.old }
    {
        match self {
            Payload::List(cells) => cells.put_reserved(entry),
            Payload::Mailbox(letters) => letters.put_reserved(entry),
            _ => unreachable!(),
        }
    }

    #[tactic(auto, using(brc_words::proofs::Cells::cells_put))]
    /// One more entry of a dictionary, of a key that isn't there, at the end, in the room that was made for it.
    #[inline(always)]
    pub fn put_pair_reserved(&mut self, key: Key<A>, entry: Entry)
        requires keyed { kind_of self.old ≡ kinds.Dict }
        requires room { 0 < spare_of self.old }
        requires absent { All (λ other. other ≢ key) (keys_of self.old) }
        ensures put { entries_of self.new ≡ entries_of self.old ++ entry.cell ∷ [] }
        ensures noted { noted_of self.new ≡ noted_of self.old ++ entry ∷ [] }
        ensures keys { keys_of self.new ≡ keys_of self.old ++ key ∷ [] }
        ensures used { spare_of self.old ≤ spare_of self.new + 1 }
        ensures kind { kind_of self.new ≡ kind_of self.old }
    {
        match self {
            Payload::Dict(pairs) => pairs.put_reserved(key, entry),
            _ => unreachable!(),
        }
    }

    #[tactic(auto, using(brc_words::proofs::Cells::cells_set, brc_words::proofs::Cells::cells_long))]
    /// Another entry at a place; of a dictionary the key and its place stay.
    #[inline(always)]
    pub fn set(&mut self, index: usize, entry: Entry)
        requires within { index < length (entries_of self.old) }
        ensures set { entries_of self.new ≡ slice_set (entries_of self.old) index entry.cell }
        ensures noted { noted_of self.new ≡ slice_set (noted_of self.old) index entry }
        ensures kind { kind_of self.new ≡ kind_of self.old }
        ensures keys { keys_of self.new ≡ keys_of self.old }
        ensures spare { spare_of self.new ≡ spare_of self.old }
    {
        match self {
            Payload::List(cells) => cells.set(index, entry),
            Payload::Dict(pairs) => pairs.set(index, entry),
            Payload::Mailbox(letters) => letters.set(index, entry),
            _ => unreachable!(),
        }
    }

    #[tactic(auto, using(brc_words::proofs::Cells::cells_there, brc_words::proofs::Cells::cells_removed, brc_words::proofs::Cells::cells_long))]
    /// Takes an entry, of a dictionary with its key, and the later ones close up.
    #[inline(always)]
    pub fn remove(&mut self, index: usize) -> Entry
        requires within { index < length (entries_of self.old) }
        ensures taken { slice_get (entries_of self.old) index ≡ Some result.cell }
        ensures left { entries_of self.new ≡ remove (entries_of self.old) index }
        ensures noted { slice_get (noted_of self.old) index ≡ Some result }
        ensures noted_left { noted_of self.new ≡ remove (noted_of self.old) index }
        ensures keys { keys_of self.new ≡ remove (keys_of self.old) index }
        ensures kind { kind_of self.new ≡ kind_of self.old }
        ensures spare { spare_of self.old ≤ spare_of self.new }
    {
        match self {
            Payload::List(cells) => cells.remove(index),
            Payload::Dict(pairs) => remove_pair(pairs, index),
            Payload::Mailbox(letters) => letters.remove(index),
            _ => unreachable!(),
        }
    }

    #[tactic(auto, using(brc_words::proofs::Cells::cells_last, brc_words::proofs::Cells::cells_long))]
    /// Takes the last entry, of a dictionary with its key; None where there is none.
    #[inline(always)]
    pub fn pop(&mut self) -> Option<u32>
        ensures last { entries_of self.old ≡ entries_of self.new ++ option_to_list result }
        ensures keys { keys_of self.new ≡ take (length (entries_of self.new)) (keys_of self.old) }
        ensures kind { kind_of self.new ≡ kind_of self.old }
        ensures spare { spare_of self.old ≤ spare_of self.new }
        ensures empty { IfNone result (entries_of self.old ≡ []) }
        ensures unchanged { IfNone result (self.new ≡ self.old) }
    {
        match self {
            Payload::List(cells) => cell_alone(cells.pop()),
            Payload::Dict(pairs) => match pairs.pop() {
                None => None,
                Some((_key, entry)) => Some(entry.cell),
            },
            Payload::Mailbox(letters) => cell_alone(letters.pop()),
            _ => None,
        }
    }
}

/// A pair goes, by a call. What that returns into is set to zero here, and not where an entry of a list goes.
#[inline(always)]
fn remove_pair<A: Allocator>(pairs: &mut Pairs<A>, index: usize) -> Entry
    requires within { index < length pairs.old.items }
    ensures taken { (key : Key A) × (slice_get pairs.old.items index ≡ Some (key, result)) }
    ensures left { pairs.new.items ≡ remove pairs.old.items index }
    ensures spare { pairs.old.spare ≤ pairs.new.spare }
{
    let (_key, entry) = pairs.remove(index);
    entry
}

/// The cell of an entry, without what is noted beside it.
#[inline(always)]
fn cell_alone(entry: Option<Entry>) -> Option<u32>
    ensures { result ≡ option_map (λ entry. entry.cell) entry }
{
    match entry {
        Some(entry) => Some(entry.cell),
        None => None,
    }
}

impl<A: Allocator + Copy> Payload<A> {
    ghost use Rattle.brc_block.specs.Payload.{kind_of, noted_of, entries_of, keys_of, spare_of};

    /// Makes room for one more entry: the next put takes no memory then.
    #[inline(always)]
    pub fn reserve(&mut self) -> Result<(), AllocError>
        requires container { IsTrue (is_container (kind_of self.old)) }
        ensures kind { kind_of self.new ≡ kind_of self.old }
        ensures entries { entries_of self.new ≡ entries_of self.old }
        ensures noted { noted_of self.new ≡ noted_of self.old }
        ensures keys { keys_of self.new ≡ keys_of self.old }
        ensures kept { spare_of self.old ≤ spare_of self.new }
        ensures made { OnOk result (0 < spare_of self.new) }

        // A growth is refused only where one was needed.
        ensures needed { OnErr result (spare_of self.old ≡ 0) }
    {
        match self {
            Payload::List(cells) => cells.reserve(),
            Payload::Dict(pairs) => pairs.reserve(),
            Payload::Mailbox(letters) => letters.reserve(),
            _ => unreachable!(),
        }
    }
}
