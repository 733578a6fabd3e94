//! Lists by value: scalars and labelled references go in and come out while they are timed.

ghost use Rattle.std.specs.Prelude.{◌≡◌, ◌≢◌};
ghost use Rattle.brc_count.specs.Frames.{IsUnlocked, Owns};
ghost use Rattle.brc_count.specs.Owned.{Keeps};
ghost use Rattle.brc_things.specs.Values.{LosesValue, OwnsValue};

use crate::operations::Operation;
use brc_count::biased::HasTable;
use brc_count::{Frame, Handle};
use brc_loops::{Passing, Task, pass_on, repeat};
use brc_things::{
    Value, list_get_value, list_pop_value, list_push_value, list_set_value, new_int, none,
};
use brc_words::Note;
use std::alloc::Allocator;
use std::sync::Wait;

/// How many entries the list has: `Full` made it of so many references.
pub const ENTRIES: u64 = 10;

/// The label of what is noted here.
const LABEL: u32 = 7;

/// What is noted in this turn.
#[inline(always)]
pub fn noted(turn: u64) -> Note {
    Note {
        label: LABEL,
        bits: turn,
    }
}

/// A value is let go of: an object's handle is released.
#[inline(always)]
pub fn let_go<H: HasTable<A>, A: Allocator>(frame: &mut Frame<H, A>, value: Value<A>)
    requires owned { OwnsValue frame.old value }
    requires unlocked { IsUnlocked frame.old }
    ensures loses { LosesValue frame.old frame.new value }
    ensures unlocked { IsUnlocked frame.new }
{
    match value {
        Value::Scalar(_note) => {}
        Value::Object(object, _note) => frame.release(object),
    }
}

/// A scalar is pushed to the list at each turn, and the list's last entry popped.
#[derive(Drop)]
struct PushAndPop<'h, R, A: Allocator> {
    rt: &'h R,
    list: &'h Handle<A>,
    none: &'h Handle<A>,
}

impl<'h, R: Wait, H: HasTable<A>, A: Allocator> Task<H, A> for PushAndPop<'h, R, A> {
    ghost ready = { λ it frame. Owns frame it.list.now × Owns frame it.none.now
        × (it.list.now.place ≢ it.none.now.place) };

    ghost stays = { λ it old new keeps owned.
        (keeps.owns it.list.now owned.0, keeps.owns it.none.now owned.1, owned.2) };

    #[inline(always)]
    fn run(&self, frame: &mut Frame<H, A>, before: u64) -> Option<()> {
        if frame.cell(self.none) != 0 {
            return None;
        }
        let scalar = Value::Scalar(noted(before));
        if let Err(handed) = list_push_value(self.rt, frame, self.none, self.list, scalar) {
            let_go(frame, handed.value);
            return None;
        }
        let last = list_pop_value(self.rt, frame, self.list).ok()?;
        let_go(frame, last);
        Some(())
    }
}

/// So many pushes of a scalar, each with a pop.
#[derive(Drop)]
pub struct PushesAndPopsValues<'r, R> {
    pub rt: &'r R,
    pub n: u64,
}

impl<'r, R: Wait, H: HasTable<A>, A: Allocator> Operation<H, A> for PushesAndPopsValues<'r, R> {
    #[inline(never)]
    fn run_on(&self, frame: &mut Frame<H, A>, list: &Handle<A>, _before: u64) -> Option<()> {
        let none = none(frame).ok()?;
        let task = PushAndPop {
            rt: self.rt,
            list,
            none: &none,
        };
        let done = repeat(&task, frame, self.n);
        frame.release(none);
        done
    }
}

/// An object, which is pushed to the list with a label at each turn, and the list's last entry popped.
struct PushingAndPoppingLabelled<'h, R, A: Allocator> {
    rt: &'h R,
    list: &'h Handle<A>,
    none: &'h Handle<A>,
    object: Handle<A>,
}

impl<'h, R: Wait, H: HasTable<A>, A: Allocator> Passing<H, A>
    for PushingAndPoppingLabelled<'h, R, A> {
    ghost held = { λ it. it.object };

    ghost ready = { λ it frame. Owns frame it.list.now × Owns frame it.none.now
        × (it.list.now.place ≢ it.none.now.place)
        × (it.object.place ≢ it.list.now.place) × (it.object.place ≢ it.none.now.place) };

    #[inline(always)]
    fn pass(self, frame: &mut Frame<H, A>, before: u64) -> Option<Self> {
        let PushingAndPoppingLabelled {
            rt,
            list,
            none,
            object,
        } = self;
        if frame.cell(none) != 0 {
            frame.release(object);
            return None;
        }
        let labelled = Value::Object(object, noted(before));
        if let Err(handed) = list_push_value(rt, frame, none, list, labelled) {
            let_go(frame, handed.value);
            return None;
        }
        match list_pop_value(rt, frame, list) {
            Ok(Value::Object(object, _note)) => Some(PushingAndPoppingLabelled {
                rt,
                list,
                none,
                object,
            }),
            Ok(Value::Scalar(_note)) => None,
            Err(_) => None,
        }
    }
}

/// So many pushes of a reference with a label, each with a pop: first of an integer of the thread's own, then of what came
/// out before.
#[inline(always)]
fn pass_labelled<R: Wait, H: HasTable<A>, A: Allocator + Copy>(
    rt: &R,
    alloc: A,
    frame: &mut Frame<H, A>,
    list: &Handle<A>,
    none: &Handle<A>,
    n: u64,
) -> Option<()>
    requires owned { Owns frame.old list.now }
    requires none { Owns frame.old none.now }
    requires apart { list.now.place ≢ none.now.place }
    requires unlocked { IsUnlocked frame.old }
    ensures keeps { Keeps frame.old frame.new }
    ensures unlocked { IsUnlocked frame.new }
{
    let Ok(object) = new_int(alloc, frame, 1_000) else {
        return None;
    };
    let turning = PushingAndPoppingLabelled {
        rt,
        list,
        none,
        object,
    };
    match pass_on(turning, frame, n) {
        Some(
            PushingAndPoppingLabelled {
                rt: _rt,
                list: _list,
                none: _none,
                object,
            },
        ) => {
            frame.release(object);
            Some(())
        }
        None => None,
    }
}

/// So many pushes of a reference with a label, each with a pop.
#[derive(Drop)]
pub struct PushesAndPopsLabelled<'r, R, A> {
    pub rt: &'r R,
    pub alloc: A,
    pub n: u64,
}

impl<'r, R: Wait, H: HasTable<A>, A: Allocator + Copy> Operation<H, A>
    for PushesAndPopsLabelled<'r, R, A> {
    #[inline(never)]
    fn run_on(&self, frame: &mut Frame<H, A>, list: &Handle<A>, _before: u64) -> Option<()> {
        let none = none(frame).ok()?;
        let done = pass_labelled(self.rt, self.alloc, frame, list, &none, self.n);
        frame.release(none);
        done
    }
}

/// A handle to None, by which a scalar goes into an entry of the list at each turn; what stood there is let go of.
struct Setting<'h, R, A: Allocator> {
    rt: &'h R,
    list: &'h Handle<A>,
    none: Handle<A>,
}

impl<'h, R: Wait, H: HasTable<A>, A: Allocator> Passing<H, A> for Setting<'h, R, A> {
    ghost held = { λ it. it.none };

    ghost ready = { λ it frame. Owns frame it.list.now × (it.none.place ≢ it.list.now.place) };

    #[inline(always)]
    fn pass(self, frame: &mut Frame<H, A>, before: u64) -> Option<Self> {
        let Setting { rt, list, mut none } = self;
        if frame.cell(&none) != 0 {
            frame.release(none);
            return None;
        }
        let index = (before % ENTRIES) as u32;
        let scalar = Value::Scalar(noted(before));
        match list_set_value(rt, frame, &mut none, list, index, scalar) {
            Ok(Value::Scalar(_old)) => Some(Setting { rt, list, none }),
            Ok(Value::Object(object, _old)) => {
                frame.release(object);
                Some(Setting { rt, list, none })
            }
            Err(handed) => {
                let_go(frame, handed.value);
                frame.release(none);
                None
            }
        }
    }
}

/// So many scalars go into the entries of the list in turn.
#[inline(always)]
fn set_in_turn<R: Wait, H: HasTable<A>, A: Allocator>(
    rt: &R,
    frame: &mut Frame<H, A>,
    list: &Handle<A>,
    n: u64,
) -> Option<()>
    requires owned { Owns frame.old list.now }
    requires unlocked { IsUnlocked frame.old }
    ensures keeps { Keeps frame.old frame.new }
    ensures unlocked { IsUnlocked frame.new }
{
    let none = none(frame).ok()?;
    let Setting {
        rt: _rt,
        list: _list,
        none,
    } = pass_on(Setting { rt, list, none }, frame, n)?;
    frame.release(none);
    Some(())
}

/// So many scalars go into the entries of a list in turn; from the eleventh on one stood there.
#[derive(Drop)]
pub struct Sets<'r, R> {
    pub rt: &'r R,
    pub n: u64,
}

impl<'r, R: Wait, H: HasTable<A>, A: Allocator> Operation<H, A> for Sets<'r, R> {
    #[inline(never)]
    fn run_on(&self, frame: &mut Frame<H, A>, list: &Handle<A>, _before: u64) -> Option<()> {
        set_in_turn(self.rt, frame, list, self.n)
    }
}

/// An entry of the list is looked at.
#[derive(Drop)]
struct Get<'h, R, A: Allocator> {
    rt: &'h R,
    list: &'h Handle<A>,
}

impl<'h, R: Wait, H: HasTable<A>, A: Allocator> Task<H, A> for Get<'h, R, A> {
    ghost ready = { λ it frame. Owns frame it.list.now };

    ghost stays = { λ it old new keeps owned. keeps.owns it.list.now owned };

    #[inline(always)]
    fn run(&self, frame: &mut Frame<H, A>, before: u64) -> Option<()> {
        let index = (before % ENTRIES) as u32;
        let value = list_get_value(self.rt, frame, self.list, index).ok()?;
        let_go(frame, value);
        Some(())
    }
}

/// So many looks at the entries of a list in turn, once each has a scalar.
#[derive(Drop)]
pub struct Gets<'r, R> {
    pub rt: &'r R,
    pub n: u64,
}

impl<'r, R: Wait, H: HasTable<A>, A: Allocator> Operation<H, A> for Gets<'r, R> {
    #[inline(never)]
    fn run_on(&self, frame: &mut Frame<H, A>, list: &Handle<A>, _before: u64) -> Option<()> {
        let rt = self.rt;
        set_in_turn(rt, frame, list, ENTRIES)?;
        repeat(&Get { rt, list }, frame, self.n)
    }
}
