//! What threads put into the globals before all of them run, and take out of them.

ghost use Rattle.std.specs.Prelude.{⊤, IfSome, IfNone};
ghost use Rattle.brc_count.specs.Frames.{IsUnlocked};
ghost use Rattle.brc_count.specs.Owned.{Keeps, Gains};

use crate::containers::{Adding, Kind, Objects, Spot, put_in};
use crate::lives::{Asked, FOREIGN};
use crate::operations::{Integers, On, Operation};
use crate::request::Case;
use brc_count::biased::HasTable;
use brc_count::{Frame, Handle};
use brc_loops::{Source, Task, repeat};
use brc_things::dict_del;
use brc_words::{GLOBALS, Key};
use std::alloc::Allocator;
use std::sync::Wait;

/// The first of the keys under which the thread of this number puts integers of its own into the globals.
pub fn first_key(thread: u32) -> u32 {
    thread.saturating_mul(1_000)
}

/// What a thread puts into the globals before the others run.
#[derive(Clone, Copy)]
enum Gift {
    Nothing,
    /// So many integers.
    Integers(u32),
    /// So many references to one object.
    References(Kind, u32),
}

/// What the thread of this number, from 0, gives.
fn gift_of(asked: Asked, number: u64) -> Gift {
    if asked.idle {
        return Gift::Integers(FOREIGN);
    }
    if number > 0 {
        return Gift::Nothing;
    }
    match asked.case {
        Case::PairShared => Gift::References(Kind::Int, asked.threads),
        Case::ListShared => Gift::References(Kind::List, asked.threads),
        Case::Mail | Case::MailValue => Gift::References(Kind::Mailbox, asked.threads),
        _ => Gift::Nothing,
    }
}

/// An integer of the thread's own goes into the globals, under the next key from the first one on.
#[derive(Drop)]
struct GiveInteger<'r, R, A> {
    rt: &'r R,
    alloc: A,
    first: u32,
}

impl<'r, R: Wait, H: HasTable<A>, A: Allocator + Copy> Operation<H, A> for GiveInteger<'r, R, A> {
    fn run_on(&self, frame: &mut Frame<H, A>, globals: &Handle<A>, before: u64) -> Option<()> {
        let integer = Integers { alloc: self.alloc }.next(frame, before)?;
        let key = Key::Int(self.first as i64 + (before % 65_536) as i64);
        put_in(self.rt, frame, globals, Spot::Beside(key), integer)
    }
}

/// The gift goes into the globals; it fails where a reference can't be had or is refused.
#[derive(Drop)]
struct Give<'r, R, A> {
    rt: &'r R,
    alloc: A,
    gift: Gift,
}

impl<'r, R: Wait, H: HasTable<A>, A: Allocator + Copy> Operation<H, A> for Give<'r, R, A> {
    fn run_on(&self, frame: &mut Frame<H, A>, globals: &Handle<A>, before: u64) -> Option<()> {
        let rt = self.rt;
        let alloc = self.alloc;
        match self.gift {
            Gift::Nothing => Some(()),
            Gift::Integers(count) => {
                let first = first_key(frame.thread());
                let give = GiveInteger { rt, alloc, first };
                repeat(&On(globals, give), frame, count as u64)
            }
            Gift::References(kind, count) => {
                let value = Objects { alloc, kind }.next(frame, before)?;
                let adding = Adding {
                    rt,
                    kind: Kind::Globals,
                    container: globals,
                    value: &value,
                };
                let given = repeat(&adding, frame, count as u64);
                frame.release(value);
                given
            }
        }
    }
}

/// What a thread gives, after so many threads before it.
#[derive(Drop)]
pub struct Giving<'r, R, A> {
    pub rt: &'r R,
    pub alloc: A,
    pub asked: Asked,
}

impl<'r, R: Wait, H: HasTable<A>, A: Allocator + Copy> Task<H, A> for Giving<'r, R, A> {
    ghost ready = { λ _ _. ⊤ };

    ghost stays = { λ _ _ _ _ ready. ready };

    fn run(&self, frame: &mut Frame<H, A>, before: u64) -> Option<()> {
        let globals = frame.immortal(GLOBALS).ok()?;
        let give = Give {
            rt: self.rt,
            alloc: self.alloc,
            gift: gift_of(self.asked, before),
        };
        let given = give.run_on(frame, &globals, before);
        frame.release(globals);
        given
    }
}

/// The reference that is in the globals under this key, taken out of them; None where it can't be had.
pub fn take_from_globals<R: Wait, H: HasTable<A>, A: Allocator>(
    rt: &R,
    frame: &mut Frame<H, A>,
    key: i64,
) -> Option<Handle<A>>
    requires unlocked { IsUnlocked frame.old }
    ensures gains { IfSome result (Gains frame.old frame.new) }
    ensures keeps { IfNone result (Keeps frame.old frame.new) }
    ensures unlocked { IsUnlocked frame.new }
{
    let globals = frame.immortal(GLOBALS).ok()?;
    match dict_del(rt, frame, &globals, &Key::Int(key)) {
        Ok(handle) => {
            frame.release(globals);
            Some(handle)
        }
        Err(_) => {
            frame.release(globals);
            None
        }
    }
}
