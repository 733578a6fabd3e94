//! A dictionary, put to and found in while it is timed.

ghost use Rattle.std.specs.Prelude.{◌≡◌, ◌≢◌, ◌<◌};
ghost use Rattle.brc_count.specs.Frames.{IsUnlocked, Owns};
ghost use Rattle.brc_count.specs.Owned.{Keeps};

use crate::containers::{Spot, put_in};
use crate::operations::{On, Operation, strewn};
use brc_count::biased::HasTable;
use brc_count::block::KeyRef;
use brc_count::{Frame, Handle};
use brc_loops::{Passing, Source, pass_on, repeat};
use brc_things::{dict_find, dict_find_by, dict_put, new_dict, new_int};
use brc_words::{Key, Text};
use std::alloc::Allocator;
use std::sync::Wait;

/// The key of this number.
#[inline(always)]
pub fn key_of<A: Allocator>(number: u64) -> Key<A>
    requires { number < 256 }
{
    Key::Int(number as i64 * 7_919)
}

/// How many keys a dictionary has.
#[derive(Clone, Copy)]
pub enum Keys {
    /// 4.
    Few,
    /// 256.
    Many,
}

impl Keys {
    pub fn count(self) -> u64 {
        match self {
            Keys::Few => 4,
            Keys::Many => 256,
        }
    }

    /// The number of the key that is used in this turn: each has its turn.
    #[inline(always)]
    pub fn of_turn(self, turn: u64) -> u64
        ensures { result < 256 }
    {
        match self {
            Keys::Few => turn % 4,
            Keys::Many => strewn(turn),
        }
    }
}

/// What is beside the key is found, and released; None where it can't be had.
#[inline(always)]
fn find<R: Wait, H: HasTable<A>, A: Allocator>(
    rt: &R,
    frame: &mut Frame<H, A>,
    dict: &Handle<A>,
    key: &Key<A>,
) -> Option<()>
    requires owned { Owns frame.old dict.now }
    requires unlocked { IsUnlocked frame.old }
    ensures keeps { Keeps frame.old frame.new }
    ensures unlocked { IsUnlocked frame.new }
{
    let found = dict_find(rt, frame, dict, key).ok()?;
    frame.release(found);
    Some(())
}

/// A value, which goes at each turn beside the key whose turn it is, and is found there; what was there before comes
/// out. A turn fails where the key is new, or a call is refused.
struct PuttingAndFinding<'h, R, A: Allocator> {
    rt: &'h R,
    dict: &'h Handle<A>,
    value: Handle<A>,
    keys: Keys,
}

impl<'h, R: Wait, H: HasTable<A>, A: Allocator + Copy> Passing<H, A>
    for PuttingAndFinding<'h, R, A> {
    ghost held = { λ it. it.value };

    ghost ready = { λ it frame. Owns frame it.dict.now × (it.value.place ≢ it.dict.now.place) };

    #[inline(always)]
    fn pass(self, frame: &mut Frame<H, A>, before: u64) -> Option<Self> {
        let PuttingAndFinding {
            rt,
            dict,
            value,
            keys,
        } = self;
        let number = keys.of_turn(before);
        match dict_put(rt, frame, dict, key_of(number), value) {
            Ok(None) => None,
            Ok(Some(old)) => {
                if find(rt, frame, dict, &key_of(number)).is_none() {
                    frame.release(old);
                    return None;
                }
                Some(PuttingAndFinding {
                    rt,
                    dict,
                    value: old,
                    keys,
                })
            }
            Err(handed) => {
                frame.release(handed.value.1);
                None
            }
        }
    }
}

/// So many puts, each with a find: first of an integer of the thread's own, then of what came out before.
#[derive(Drop)]
pub struct PutsAndFinds<'r, R, A> {
    pub rt: &'r R,
    pub alloc: A,
    pub keys: Keys,
    pub n: u64,
}

impl<'r, R: Wait, H: HasTable<A>, A: Allocator + Copy> Operation<H, A> for PutsAndFinds<'r, R, A> {
    fn run_on(&self, frame: &mut Frame<H, A>, dict: &Handle<A>, _before: u64) -> Option<()> {
        let value = new_int(self.alloc, frame, 1_000).ok()?;
        let turning = PuttingAndFinding {
            rt: self.rt,
            dict,
            value,
            keys: self.keys,
        };
        let PuttingAndFinding {
            rt: _rt,
            dict: _dict,
            value,
            keys: _keys,
        } = pass_on(turning, frame, self.n)?;
        frame.release(value);
        Some(())
    }
}

/// The text key of a dictionary with two keys.
const NAME: &str = "key";

/// The key that is found.
#[derive(Clone, Copy)]
pub enum Sought {
    /// 1.
    Number,
    /// `NAME`.
    Name,
}

impl Sought {
    #[inline(always)]
    pub fn key(self) -> KeyRef<'static> {
        match self {
            Sought::Number => KeyRef::Int(1),
            Sought::Name => KeyRef::Text(NAME.as_bytes()),
        }
    }
}

/// The reference beside a key of a dictionary with two keys is found, and released.
#[derive(Drop)]
pub struct Seek<'r, R> {
    pub rt: &'r R,
    pub sought: Sought,
}

impl<'r, R: Wait, H: HasTable<A>, A: Allocator> Operation<H, A> for Seek<'r, R> {
    #[inline(always)]
    fn run_on(&self, frame: &mut Frame<H, A>, dict: &Handle<A>, _before: u64) -> Option<()> {
        let found = dict_find_by(self.rt, frame, dict, self.sought.key()).ok()?;
        frame.release(found);
        Some(())
    }
}

/// An integer goes beside 1, and then one beside `NAME`.
#[derive(Drop)]
struct PutOne<'r, R, A> {
    rt: &'r R,
    alloc: A,
}

impl<'r, R, A: Allocator + Copy> PutOne<'r, R, A> {
    /// The key of this turn; None if its text can't be had.
    fn key(&self, before: u64) -> Option<Key<A>> {
        if before == 0 {
            return Some(Key::Int(1));
        }
        let mut name = String::new(self.alloc);
        name.push_str(NAME).ok()?;
        Some(Key::Text(Text::new(name)))
    }
}

impl<'r, R: Wait, H: HasTable<A>, A: Allocator + Copy> Operation<H, A> for PutOne<'r, R, A> {
    fn run_on(&self, frame: &mut Frame<H, A>, dict: &Handle<A>, before: u64) -> Option<()> {
        let key = self.key(before)?;
        let value = new_int(self.alloc, frame, 1_000).ok()?;
        put_in(self.rt, frame, dict, Spot::Beside(key), value)
    }
}

/// New dictionaries with two keys.
#[derive(Drop)]
pub struct TwoKeys<'r, R, A> {
    pub rt: &'r R,
    pub alloc: A,
}

impl<'r, R: Wait, H: HasTable<A>, A: Allocator + Copy> Source<H, A> for TwoKeys<'r, R, A> {
    fn next(&self, frame: &mut Frame<H, A>, _before: u64) -> Option<Handle<A>> {
        let rt = self.rt;
        let alloc = self.alloc;
        let dict = new_dict(alloc, frame).ok()?;
        match repeat(&On(&dict, PutOne { rt, alloc }), frame, 2) {
            Some(()) => Some(dict),
            None => {
                frame.release(dict);
                None
            }
        }
    }
}
