//! Frames: of each thread numbered places, each vacant or with the cell that it holds.

ghost use Rattle.std.specs.Prelude.{◌≡◌, [], true, is_some, slice_index_or, slice_set, OnOk, OnErr};
ghost use Rattle.law.specs.world.Lists.{place_at, reaching, filled, vacated, is_bare};
ghost use Rattle.brc_state.specs.Effects.{frames_with};

use crate::tally::recount;
use law::world::Dropped;
use std::alloc::{AllocError, Allocator};
use std::marker::Model;

/// The places, as a list. Those past its end are vacant.
#[derive(Drop)]
pub(crate) struct Frame<A: Allocator> {
    places: Vec<Option<u32>, A>,
    // How many have a cell, so that whether none has takes no search.
    holding: usize,
}

impl<A: Allocator> Model for Frame<A> {
    ghost use Rattle.std.specs.Prelude.{◌≡◌, ℕ, List, Option};
    ghost use Rattle.law.specs.world.Lists.{filled_places};

    ghost Value = { List (Option ℕ) };

    ghost view = { λ f. f.places.items };

    ghost invariant = { λ f. f.holding ≡ filled_places f.places.items };
}

impl<A: Allocator> Frame<A> {
    /// All places are vacant, and no memory is taken.
    pub(crate) fn new(alloc: A) -> Self
        ensures { result ≡ [] }
    {
        Frame {
            places: Vec::new(alloc),
            holding: 0,
        }
    }

    /// All places up to the last that was ever filled.
    pub(crate) fn as_slice(&self) -> &[Option<u32>]
        ensures { result.now ≡ self.now }
    {
        self.places.as_slice()
    }

    /// The cell in the place.
    pub(crate) fn get(&self, place: u32) -> Option<u32>
        ensures { result ≡ place_at self.now place }
    {
        self.places.get(place as usize).copied().unwrap_or(None)
    }

    /// Whether no place has a cell.
    pub(crate) fn is_bare(&self) -> bool
        ensures { result ≡ is_bare self.now }
    {
        self.holding == 0
    }

    /// The frame is made long enough to have the place. A refused growth changes nothing.
    fn reach(&mut self, place: u32) -> Result<(), AllocError>
        ensures ok { OnOk result (self.new ≡ reaching self.old place) }
        ensures err { OnErr result (self.new ≡ self.old) }
    {
        let index = place as usize;
        if self.places.len() <= index {
            self.places.resize(index + 1, None)?;
        }
        Ok(())
    }

    /// The place gets this content; past the end nothing happens.
    fn set(&mut self, place: u32, content: Option<u32>)
        ensures { self.new ≡ slice_set self.old place content }
    {
        let before = self.get(place).is_some();
        let after = content.is_some();
        if let Some(there) = self.places.get_mut(place as usize) {
            *there = content;
            self.holding = recount(self.holding, before, after);
        }
    }

    /// The place gets this cell. A refused growth changes nothing.
    pub(crate) fn fill(&mut self, place: u32, cell: u32) -> Result<(), AllocError>
        ensures ok { OnOk result (self.new ≡ filled self.old place cell) }
        ensures err { OnErr result (self.new ≡ self.old) }
    {
        self.reach(place)?;
        self.set(place, Some(cell));
        Ok(())
    }

    /// The place, which has a cell, gets another. No memory is taken.
    pub(crate) fn refill(&mut self, place: u32, cell: u32)
        requires { is_some (place_at self.old place) ≡ true }

        ensures { self.new ≡ filled self.old place cell }
    {
        self.set(place, Some(cell));
    }

    /// The place becomes vacant.
    pub(crate) fn vacate(&mut self, place: u32)
        ensures { self.new ≡ vacated self.old place }
    {
        self.set(place, None);
    }
}

// ---- one thread's frame among all

/// A place of the thread's frame gets this cell. A refused growth changes nothing.
#[inline(always)]
pub(crate) fn fill_place<A: Allocator>(
    frames: &mut Vec<Frame<A>, A>,
    thread: u32,
    place: u32,
    cell: u32,
) -> Result<(), AllocError>
    ensures ok { OnOk result (frames.new.items ≡ slice_set frames.old.items thread
        (filled (slice_index_or frames.old.items thread []) place cell)) }
    ensures err { OnErr result (frames.new.items ≡ frames.old.items) }
{
    match frames.get_mut(thread as usize) {
        Some(frame) => frame.fill(place, cell),
        None => Ok(()),
    }
}

/// A place of the thread's frame, which has a cell, gets another.
pub(crate) fn refill_place<A: Allocator>(
    frames: &mut Vec<Frame<A>, A>,
    thread: u32,
    place: u32,
    cell: u32,
)
    requires { is_some (place_at (slice_index_or frames.old.items thread []) place) ≡ true }

    ensures { frames.new.items ≡ slice_set frames.old.items thread
        (filled (slice_index_or frames.old.items thread []) place cell) }
{
    if let Some(frame) = frames.get_mut(thread as usize) {
        frame.refill(place, cell);
    }
}

/// A place of the thread's frame becomes vacant.
#[inline(always)]
pub(crate) fn vacate_place<A: Allocator>(frames: &mut Vec<Frame<A>, A>, thread: u32, place: u32)
    ensures { frames.new.items ≡ slice_set frames.old.items thread
        (vacated (slice_index_or frames.old.items thread []) place) }
{
    if let Some(frame) = frames.get_mut(thread as usize) {
        frame.vacate(place);
    }
}

/// A place of the thread's frame is filled with the cell, or a reference goes. A refused growth
/// changes nothing.
#[inline(always)]
pub(crate) fn change_frame<A: Allocator>(
    frames: &mut Vec<Frame<A>, A>,
    thread: u32,
    into: Option<u32>,
    out: Option<Dropped>,
    cell: u32,
) -> Result<(), AllocError>
    ensures ok { OnOk result
        (frames.new.items ≡ frames_with thread into out cell frames.old.items) }
    ensures err { OnErr result (frames.new.items ≡ frames.old.items) }
    ensures memory { OnErr result (is_some into ≡ true) }
{
    match (into, out) {
        (Some(place), _) => fill_place(frames, thread, place, cell),
        (None, Some(Dropped::Frame(place))) => {
            vacate_place(frames, thread, place);
            Ok(())
        }
        (None, Some(Dropped::Work(_))) => Ok(()),
        (None, None) => Ok(()),
    }
}
