//! Dictionaries by value: scalars are put and found while they are timed.

ghost use Rattle.std.specs.Prelude.{◌≡◌, ◌≢◌, ◌<◌, IfSome, IfNone};
ghost use Rattle.brc_count.specs.Frames.{IsUnlocked, Owns};
ghost use Rattle.brc_count.specs.Owned.{Keeps, Loses};

use crate::dicts::{Keys, Sought, key_of};
use crate::operations::Operation;
use crate::values::{let_go, noted};
use brc_count::biased::HasTable;
use brc_count::block::KeyRef;
use brc_count::{Frame, Handle};
use brc_loops::{Passing, Task, pass_on, repeat};
use brc_things::{Value, dict_find_value, dict_set_value, none};
use std::alloc::Allocator;
use std::sync::Wait;

/// What stands beside the key is found, and let go of; None where it can't be had.
#[inline(always)]
fn find<R: Wait, H: HasTable<A>, A: Allocator>(
    rt: &R,
    frame: &mut Frame<H, A>,
    dict: &Handle<A>,
    key: KeyRef<'_>,
) -> Option<()>
    requires owned { Owns frame.old dict.now }
    requires unlocked { IsUnlocked frame.old }
    ensures keeps { Keeps frame.old frame.new }
    ensures unlocked { IsUnlocked frame.new }
{
    let found = dict_find_value(rt, frame, dict, key).ok()?;
    let_go(frame, found);
    Some(())
}

/// The same; the other handle is kept, or released where it can't be had.
#[inline(always)]
fn find_or_release<R: Wait, H: HasTable<A>, A: Allocator>(
    rt: &R,
    frame: &mut Frame<H, A>,
    dict: &Handle<A>,
    key: KeyRef<'_>,
    kept: Handle<A>,
) -> Option<Handle<A>>
    requires owned { Owns frame.old dict.now }
    requires kept_owned { Owns frame.old kept }
    requires unlocked { IsUnlocked frame.old }
    ensures same { IfSome result (λ handle. handle ≡ kept) }
    ensures keeps { IfSome result (λ handle. Keeps frame.old frame.new) }
    ensures loses { IfNone result (Loses frame.old frame.new kept) }
    ensures unlocked { IsUnlocked frame.new }
{
    if find(rt, frame, dict, key).is_none() {
        frame.release(kept);
        return None;
    }
    Some(kept)
}

/// A handle to None, by which a scalar goes at each turn beside the key whose turn it is; what was there before is let go
/// of, and of a scalar the new one is found. A turn fails where the key is new, or a call is refused.
struct PuttingAndFinding<'h, R, A: Allocator> {
    rt: &'h R,
    alloc: A,
    dict: &'h Handle<A>,
    none: Handle<A>,
    keys: Keys,
}

impl<'h, R: Wait, H: HasTable<A>, A: Allocator + Copy> Passing<H, A>
    for PuttingAndFinding<'h, R, A> {
    ghost held = { λ it. it.none };

    ghost ready = { λ it frame. Owns frame it.dict.now × (it.none.place ≢ it.dict.now.place) };

    #[inline(always)]
    fn pass(self, frame: &mut Frame<H, A>, before: u64) -> Option<Self> {
        let PuttingAndFinding {
            rt,
            alloc,
            dict,
            mut none,
            keys,
        } = self;
        if frame.cell(&none) != 0 {
            frame.release(none);
            return None;
        }
        let key = key_of::<A>(keys.of_turn(before));
        let key = KeyRef::of(&key);
        let scalar = Value::Scalar(noted(before));
        match dict_set_value(rt, alloc, frame, &mut none, dict, key, scalar) {
            Ok(Some(Value::Scalar(_old))) => {
                let none = find_or_release(rt, frame, dict, key, none)?;
                Some(PuttingAndFinding {
                    rt,
                    alloc,
                    dict,
                    none,
                    keys,
                })
            }
            Ok(Some(Value::Object(object, _old))) => {
                frame.release(object);
                Some(PuttingAndFinding {
                    rt,
                    alloc,
                    dict,
                    none,
                    keys,
                })
            }
            Ok(None) => {
                frame.release(none);
                None
            }
            Err(handed) => {
                let_go(frame, handed.value);
                frame.release(none);
                None
            }
        }
    }
}

/// So many puts of a scalar, each with a find.
#[derive(Drop)]
pub struct PutsAndFindsValues<'r, R, A> {
    pub rt: &'r R,
    pub alloc: A,
    pub keys: Keys,
    pub n: u64,
}

impl<'r, R: Wait, H: HasTable<A>, A: Allocator + Copy> Operation<H, A>
    for PutsAndFindsValues<'r, R, A> {
    fn run_on(&self, frame: &mut Frame<H, A>, dict: &Handle<A>, _before: u64) -> Option<()> {
        let none = none(frame).ok()?;
        let turning = PuttingAndFinding {
            rt: self.rt,
            alloc: self.alloc,
            dict,
            none,
            keys: self.keys,
        };
        let PuttingAndFinding {
            rt: _rt,
            alloc: _alloc,
            dict: _dict,
            none,
            keys: _keys,
        } = pass_on(turning, frame, self.n)?;
        frame.release(none);
        Some(())
    }
}

/// What stands beside a key of a dictionary with two keys is found.
#[derive(Drop)]
struct Seek<'h, R, A: Allocator> {
    rt: &'h R,
    dict: &'h Handle<A>,
    sought: Sought,
}

impl<'h, R: Wait, H: HasTable<A>, A: Allocator> Task<H, A> for Seek<'h, R, A> {
    ghost ready = { λ it frame. Owns frame it.dict.now };

    ghost stays = { λ it old new keeps owned. keeps.owns it.dict.now owned };

    #[inline(always)]
    fn run(&self, frame: &mut Frame<H, A>, _before: u64) -> Option<()> {
        find(self.rt, frame, self.dict, self.sought.key())
    }
}

/// A scalar goes beside the key, and what was there is let go of.
fn put_first<R: Wait, H: HasTable<A>, A: Allocator + Copy>(
    rt: &R,
    alloc: A,
    frame: &mut Frame<H, A>,
    dict: &Handle<A>,
    key: KeyRef<'_>,
) -> Option<()>
    requires owned { Owns frame.old dict.now }
    requires unlocked { IsUnlocked frame.old }
    ensures keeps { Keeps frame.old frame.new }
    ensures unlocked { IsUnlocked frame.new }
{
    let Ok(mut none) = none(frame) else {
        return None;
    };
    let scalar = Value::Scalar(noted(0));
    let put = match dict_set_value(rt, alloc, frame, &mut none, dict, key, scalar) {
        Ok(None) => Some(()),
        Ok(Some(Value::Scalar(_old))) => Some(()),
        Ok(Some(Value::Object(object, _note))) => {
            frame.release(object);
            Some(())
        }
        Err(handed) => match handed.value {
            Value::Scalar(_scalar) => None,
            Value::Object(_object, _note) => unreachable!(),
        },
    };
    frame.release(none);
    put
}

/// So many finds of the scalar beside a key of a dictionary with two keys, where it is put first.
#[derive(Drop)]
pub struct Finds<'r, R, A> {
    pub rt: &'r R,
    pub alloc: A,
    pub sought: Sought,
    pub n: u64,
}

impl<'r, R: Wait, H: HasTable<A>, A: Allocator + Copy> Operation<H, A> for Finds<'r, R, A> {
    #[inline(never)]
    fn run_on(&self, frame: &mut Frame<H, A>, dict: &Handle<A>, _before: u64) -> Option<()> {
        let rt = self.rt;
        let sought = self.sought;
        put_first(rt, self.alloc, frame, dict, sought.key())?;
        repeat(&Seek { rt, dict, sought }, frame, self.n)
    }
}
