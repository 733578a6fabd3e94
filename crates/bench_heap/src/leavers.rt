//! Threads that come and go, one after the other: each is registered, puts integers into the globals, leaves while they
//! live there, and is gathered. The next one puts its own in their place.

ghost use Rattle.std.specs.Prelude.{◌≡◌};
ghost use Rattle.brc_count.specs.Frames.{IsUnlocked};
ghost use Rattle.brc_count.specs.Owned.{Keeps};

use crate::operations::{Integers, On, Operation};
use crate::timing::{Span, Times, refused, this_moment};
use brc_count::biased::HasTable;
use brc_count::{Frame, Handle};
use brc_loops::{Source, repeat};
use brc_things::dict_put;
use brc_thread::{Heap, Root};
use brc_words::{GLOBALS, Key};
use std::alloc::{Allocator, Global};
use std::io;
use std::rt::Clock;
use std::sync::Wait;
use std::time::CpuClock;

/// An integer of the thread's own goes into the globals in place of the one that is there under the next key, which is
/// taken apart.
#[derive(Drop)]
struct Replace<'r, R, A> {
    rt: &'r R,
    alloc: A,
}

impl<'r, R: Wait, H: HasTable<A>, A: Allocator + Copy> Operation<H, A> for Replace<'r, R, A> {
    fn run_on(&self, frame: &mut Frame<H, A>, globals: &Handle<A>, before: u64) -> Option<()> {
        let integer = Integers { alloc: self.alloc }.next(frame, before)?;
        let key = Key::Int((before % 65_536) as i64);
        match dict_put(self.rt, frame, globals, key, integer) {
            Ok(None) => Some(()),
            Ok(Some(other)) => {
                frame.release(other);
                frame.work(1);
                Some(())
            }
            Err(handed) => {
                frame.release(handed.value.1);
                None
            }
        }
    }
}

/// So many integers of the thread's own go into the globals; None where one can't be had or is refused.
fn shares<R: Wait, H: HasTable<A>, A: Allocator + Copy>(
    rt: &R,
    alloc: A,
    frame: &mut Frame<H, A>,
    objects: u32,
) -> Option<()>
    requires unlocked { IsUnlocked frame.old }
    ensures keeps { Keeps frame.old frame.new }
    ensures unlocked { IsUnlocked frame.new }
{
    let globals = frame.immortal(GLOBALS).ok()?;
    let replace = Replace { rt, alloc };
    let shared = repeat(&On(&globals, replace), frame, objects as u64);
    frame.release(globals);
    shared
}

/// One thread's life, from its registration until it is gathered; None where something was refused.
fn lives<R: Wait>(
    rt: &R,
    alloc: Global,
    heap: &Heap<Global>,
    root: &mut Root<Global>,
    objects: u32,
) -> Option<()>
    requires heap { root.old.table ≡ heap.now.table }
    ensures root { root.new.table ≡ root.old.table }
{
    let mut mutator = root.register(alloc, heap).ok()?;
    let shared = shares(rt, alloc, mutator.frame(), objects);
    let _ledger = mutator.settle_and_join(rt, root, heap);
    shared
}

/// The same: when its leaving began and ended. By then it has no dead block, and others have asked it for nothing.
fn leaves<R: Wait + Clock + CpuClock>(
    rt: &R,
    alloc: Global,
    heap: &Heap<Global>,
    root: &mut Root<Global>,
    objects: u32,
) -> io::Result<Span>
    requires heap { root.old.table ≡ heap.now.table }
    ensures root { root.new.table ≡ root.old.table }
{
    let Ok(mut mutator) = root.register(alloc, heap) else {
        return Err(refused());
    };
    let shared = shares(rt, alloc, mutator.frame(), objects);
    mutator.settle(rt);
    let began = this_moment(rt);
    let left = mutator.leave();
    let ended = this_moment(rt);
    match left {
        Ok(leaving) => root.gather(heap, leaving.finish_all(rt)),
        Err(_mutator) => unreachable!(),
    }
    if shared.is_none() {
        return Err(refused());
    }
    Ok(Span {
        began: began?,
        ended: ended?,
    })
}

/// So many lives, one after the other; None where something was refused in one.
fn live_in_turn<R: Wait>(
    rt: &R,
    alloc: Global,
    heap: &Heap<Global>,
    root: &mut Root<Global>,
    objects: u32,
    n: u64,
) -> Option<()>
    requires heap { root.old.table ≡ heap.now.table }
    ensures root { root.new.table ≡ root.old.table }
{
    for _ in 0..n {
        lives(rt, alloc, heap, root, objects)?;
    }
    Some(())
}

/// The same of so many lives: the times of their leaving, added.
fn leave_in_turn<R: Wait + Clock + CpuClock>(
    rt: &R,
    alloc: Global,
    heap: &Heap<Global>,
    root: &mut Root<Global>,
    objects: u32,
    n: u64,
) -> io::Result<Times>
    requires heap { root.old.table ≡ heap.now.table }
    ensures root { root.new.table ≡ root.old.table }
{
    let mut times = Times::NONE;
    for _ in 0..n {
        times = times.and(leaves(rt, alloc, heap, root, objects)?);
    }
    Ok(times)
}

/// What is timed.
#[derive(Clone, Copy)]
pub enum Timing {
    /// Whole lives.
    Lives,
    /// The leaving alone.
    Leaving,
}

/// So many lives, in each of which a thread shares so many objects: the times.
pub fn times_of_lives<R: Wait + Clock + CpuClock>(
    rt: &R,
    alloc: Global,
    heap: &Heap<Global>,
    root: &mut Root<Global>,
    timing: Timing,
    objects: u32,
    n: u64,
) -> io::Result<Times>
    requires heap { root.old.table ≡ heap.now.table }
    ensures root { root.new.table ≡ root.old.table }
{
    match timing {
        Timing::Lives => {
            let began = this_moment(rt)?;
            let lived = live_in_turn(rt, alloc, heap, root, objects, n);
            let ended = this_moment(rt)?;
            if lived.is_none() {
                return Err(refused());
            }
            Ok(Times::NONE.and(Span { began, ended }))
        }
        Timing::Leaving => leave_in_turn(rt, alloc, heap, root, objects, n),
    }
}

/// One thread more clears the globals, and is gathered; None where it couldn't.
pub fn clears<R: Wait>(
    rt: &R,
    alloc: Global,
    heap: &Heap<Global>,
    root: &mut Root<Global>,
) -> Option<()>
    requires heap { root.old.table ≡ heap.now.table }
    ensures root { root.new.table ≡ root.old.table }
{
    let mut mutator = root.register(alloc, heap).ok()?;
    let cleared = mutator.clear_globals();
    let _ledger = mutator.settle_and_join(rt, root, heap);
    cleared.ok()
}
