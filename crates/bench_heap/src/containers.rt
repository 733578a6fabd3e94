//! Containers, filled before what is timed, or while it is.

ghost use Rattle.std.specs.Prelude.{◌≡◌, ◌≢◌};
ghost use Rattle.brc_count.specs.Frames.{IsUnlocked, Owns};
ghost use Rattle.brc_count.specs.Owned.{Loses};

use crate::dicts::key_of;
use crate::operations::{Operation, TURNS};
use brc_count::biased::HasTable;
use brc_count::{Frame, Handle};
use brc_loops::{Source, Task, repeat};
use brc_things::{dict_put, list_push, new_dict, new_int, new_list, new_mailbox};
use brc_words::{GLOBALS, Key};
use std::alloc::Allocator;
use std::sync::Wait;

/// Where a reference goes in a container.
#[derive(Drop)]
pub enum Spot<A: Allocator> {
    /// To a list's end.
    End,
    /// Beside a dictionary's new key.
    Beside(Key<A>),
}

/// What an object is.
#[derive(Clone, Copy)]
pub enum Kind {
    Int,
    List,
    Dict,
    /// The dictionary of cell 265.
    Globals,
    Mailbox,
}

impl Kind {
    /// Where the next reference goes in such a container, after so many before: beside the next of 256 keys, or in the
    /// globals under the number of the next thread from 1 on.
    #[inline(always)]
    fn spot<A: Allocator>(self, before: u64) -> Spot<A> {
        match self {
            Kind::Dict => Spot::Beside(key_of(before % 256)),
            Kind::Globals => Spot::Beside(Key::Int(1 + (before % 65_536) as i64)),
            _ => Spot::End,
        }
    }
}

/// Objects of this kind, each new but for the globals.
#[derive(Drop)]
pub struct Objects<A> {
    pub alloc: A,
    pub kind: Kind,
}

impl<H: HasTable<A>, A: Allocator + Copy> Source<H, A> for Objects<A> {
    fn next(&self, frame: &mut Frame<H, A>, _before: u64) -> Option<Handle<A>> {
        match self.kind {
            Kind::Int => new_int(self.alloc, frame, 1_000).ok(),
            Kind::List => new_list(self.alloc, frame).ok(),
            Kind::Dict => new_dict(self.alloc, frame).ok(),
            Kind::Globals => frame.immortal(GLOBALS).ok(),
            Kind::Mailbox => new_mailbox(self.alloc, frame).ok(),
        }
    }
}

/// The value's reference goes beside the key, which is new; where that fails, no reference is left, and the answer is None.
/// It is a function of its own, so that pushes to lists stay small.
#[inline(never)]
fn put_beside<R: Wait, H: HasTable<A>, A: Allocator + Copy>(
    rt: &R,
    frame: &mut Frame<H, A>,
    dict: &Handle<A>,
    key: Key<A>,
    value: Handle<A>,
) -> Option<()>
    requires owned { Owns frame.old dict.now }
    requires value_owned { Owns frame.old value }
    requires apart { value.place ≢ dict.now.place }
    requires unlocked { IsUnlocked frame.old }
    ensures loses { Loses frame.old frame.new value }
    ensures unlocked { IsUnlocked frame.new }
{
    match dict_put(rt, frame, dict, key, value) {
        Err(handed) => {
            frame.release(handed.value.1);
            None
        }
        Ok(Some(other)) => {
            frame.release(other);
            None
        }
        Ok(None) => Some(()),
    }
}

/// The value's reference goes into the container; where that fails, no reference is left, and the answer is None.
#[inline(always)]
pub fn put_in<R: Wait, H: HasTable<A>, A: Allocator + Copy>(
    rt: &R,
    frame: &mut Frame<H, A>,
    container: &Handle<A>,
    spot: Spot<A>,
    value: Handle<A>,
) -> Option<()>
    requires owned { Owns frame.old container.now }
    requires value_owned { Owns frame.old value }
    requires apart { value.place ≢ container.now.place }
    requires unlocked { IsUnlocked frame.old }
    ensures loses { Loses frame.old frame.new value }
    ensures unlocked { IsUnlocked frame.new }
{
    match spot {
        Spot::End => match list_push(rt, frame, container, value) {
            Err(handed) => {
                frame.release(handed.value);
                None
            }
            Ok(()) => Some(()),
        },
        Spot::Beside(key) => put_beside(rt, frame, container, key, value),
    }
}

/// One reference more to the value goes into the container, which is of this kind.
#[derive(Drop)]
pub struct Adding<'h, R, A: Allocator> {
    pub rt: &'h R,
    pub kind: Kind,
    pub container: &'h Handle<A>,
    pub value: &'h Handle<A>,
}

impl<'h, R: Wait, H: HasTable<A>, A: Allocator + Copy> Task<H, A> for Adding<'h, R, A> {
    ghost ready = { λ adding frame. Owns frame adding.container.now × Owns frame adding.value.now };

    ghost stays = { λ adding old new keeps owned.
        (keeps.owns adding.container.now owned.0, keeps.owns adding.value.now owned.1) };

    #[inline(always)]
    fn run(&self, frame: &mut Frame<H, A>, before: u64) -> Option<()> {
        let more = frame.retain(self.value).ok()?;
        put_in(self.rt, frame, self.container, self.kind.spot(before), more)
    }
}

/// New containers, each of so many references to one integer.
#[derive(Drop)]
pub struct Full<'r, R, A> {
    rt: &'r R,
    alloc: A,
    kind: Kind,
    count: u64,
}

impl<'r, R, A> Full<'r, R, A> {
    /// Of this kind, and of so many references each.
    pub fn new(rt: &'r R, alloc: A, kind: Kind, count: u64) -> Full<'r, R, A> {
        Full {
            rt,
            alloc,
            kind,
            count,
        }
    }
}

impl<'r, R: Wait, H: HasTable<A>, A: Allocator + Copy> Source<H, A> for Full<'r, R, A> {
    fn next(&self, frame: &mut Frame<H, A>, before: u64) -> Option<Handle<A>> {
        let alloc = self.alloc;
        let kind = self.kind;
        let container = Objects { alloc, kind }.next(frame, before)?;
        let Ok(value) = new_int(alloc, frame, 1_000) else {
            frame.release(container);
            return None;
        };
        let adding = Adding {
            rt: self.rt,
            kind,
            container: &container,
            value: &value,
        };
        let filled = repeat(&adding, frame, self.count);
        frame.release(value);
        if filled.is_none() {
            frame.release(container);
            return None;
        }
        Some(container)
    }
}

/// A list of ten references to the object is made, released, and taken apart.
#[derive(Drop)]
pub struct NewList10<'r, R, A> {
    pub rt: &'r R,
    pub alloc: A,
}

impl<'r, R: Wait, H: HasTable<A>, A: Allocator + Copy> Operation<H, A> for NewList10<'r, R, A> {
    #[inline(always)]
    fn run_on(&self, frame: &mut Frame<H, A>, value: &Handle<A>, _before: u64) -> Option<()> {
        let list = new_list(self.alloc, frame).ok()?;
        let adding = Adding {
            rt: self.rt,
            kind: Kind::List,
            container: &list,
            value,
        };
        let filled = repeat(&adding, frame, 10);
        frame.release(list);
        frame.work(TURNS);
        filled
    }
}
