//! The operations that are timed.

ghost use Rattle.std.specs.Prelude.{⊤, ◌<◌};
ghost use Rattle.brc_count.specs.Frames.{IsUnlocked, Owns};
ghost use Rattle.brc_count.specs.Owned.{Keeps};
ghost use Rattle.brc_handles.specs.Handles.{OwnsEach};
ghost use Rattle.brc_loops.specs.Held.{each_still};

use brc_count::biased::HasTable;
use brc_count::{Frame, Handle};
use brc_handles::Handles;
use brc_loops::{Source, Task, repeat};
use brc_things::{new_int, new_text};
use brc_words::Text;
use std::alloc::Allocator;

/// What is done with one object, of which the thread has a handle.
pub trait Operation<H: HasTable<A>, A: Allocator> {
    /// It is done once, after so many times before; None where it fails.
    fn run_on(&self, frame: &mut Frame<H, A>, handle: &Handle<A>, before: u64) -> Option<()>
        requires owned { Owns frame.old handle.now }
        requires unlocked { IsUnlocked frame.old }
        ensures keeps { Keeps frame.old frame.new }
        ensures unlocked { IsUnlocked frame.new };
}

/// On the handle's object the operation is done at each turn.
#[derive(Drop)]
pub struct On<'h, O, A: Allocator>(pub &'h Handle<A>, pub O);

impl<'h, O: Operation<H, A>, H: HasTable<A>, A: Allocator> Task<H, A> for On<'h, O, A> {
    ghost ready = { λ on frame. Owns frame on.0.now };

    ghost stays = { λ on old new keeps owned. keeps.owns on.0.now owned };

    #[inline(always)]
    fn run(&self, frame: &mut Frame<H, A>, before: u64) -> Option<()> {
        self.1.run_on(frame, self.0, before)
    }
}

/// One reference more to the object, and one less.
#[derive(Clone, Copy)]
pub struct Pair;

impl<H: HasTable<A>, A: Allocator> Operation<H, A> for Pair {
    #[inline(always)]
    fn run_on(&self, frame: &mut Frame<H, A>, handle: &Handle<A>, _before: u64) -> Option<()> {
        let more = frame.retain(handle).ok()?;
        frame.release(more);
        Some(())
    }
}

/// An operation, with a poll after each 256th.
#[derive(Drop)]
pub struct Polled<O> {
    pub operation: O,
}

impl<O: Operation<H, A>, H: HasTable<A>, A: Allocator> Operation<H, A> for Polled<O> {
    #[inline(always)]
    fn run_on(&self, frame: &mut Frame<H, A>, handle: &Handle<A>, before: u64) -> Option<()> {
        self.operation.run_on(frame, handle, before)?;
        if before % 256 == 0 {
            frame.poll();
        }
        Some(())
    }
}

/// One of 256 numbers, far from that of the turn before: by such steps each has its turn.
#[inline(always)]
pub fn strewn(turn: u64) -> u64
    ensures { result < 256 }
{
    turn % 256 * 37 % 256
}

/// In which order many objects have their turns.
#[derive(Clone, Copy)]
pub enum Order {
    /// By their numbers.
    InTurn,
    /// 256 of them, each far from the one before.
    Strewn,
}

/// A pair on the object whose turn it is; it fails where there is none.
#[derive(Drop)]
pub struct PairOf<'h, A: Allocator> {
    pub handles: &'h Handles<A>,
    pub order: Order,
}

impl<'h, H: HasTable<A>, A: Allocator> Task<H, A> for PairOf<'h, A> {
    ghost ready = { λ pair frame. OwnsEach frame pair.handles.now };

    ghost stays = { λ pair. each_still pair.handles.now };

    #[inline(always)]
    fn run(&self, frame: &mut Frame<H, A>, before: u64) -> Option<()> {
        let number = match self.order {
            Order::InTurn => before,
            Order::Strewn => strewn(before),
        };
        let handle = self.handles.get(number as usize)?;
        Pair.run_on(frame, handle, before)
    }
}

/// A task, so many times at each turn.
#[derive(Drop)]
struct Times<T> {
    task: T,
    count: u64,
}

impl<T: Task<H, A>, H: HasTable<A>, A: Allocator> Task<H, A> for Times<T> {
    ghost ready = { λ times frame. T.ready times.task frame };

    ghost stays = { λ times. T.stays times.task };

    #[inline(always)]
    fn run(&self, frame: &mut Frame<H, A>, _before: u64) -> Option<()> {
        repeat(&self.task, frame, self.count)
    }
}

/// So many pairs on these objects in turn; None where there is no object.
pub fn pairs_in_turn<H: HasTable<A>, A: Allocator>(
    frame: &mut Frame<H, A>,
    handles: &Handles<A>,
    n: u64,
) -> Option<()>
    requires each { OwnsEach frame.old handles.now }
    requires unlocked { IsUnlocked frame.old }
    ensures keeps { Keeps frame.old frame.new }
    ensures unlocked { IsUnlocked frame.new }
{
    let count = handles.len() as u64;
    if count == 0 {
        return None;
    }
    let order = Order::InTurn;
    let task = PairOf { handles, order };
    repeat(&Times { task, count }, frame, n / count)?;
    repeat(&PairOf { handles, order }, frame, n % count)
}

/// So many turns of work follow each object that is made.
pub const TURNS: usize = 64;

/// What the source has next is released, and taken apart.
#[derive(Drop)]
pub struct Ending<S> {
    pub source: S,
}

impl<S: Source<H, A>, H: HasTable<A>, A: Allocator> Task<H, A> for Ending<S> {
    ghost ready = { λ _ _. ⊤ };

    ghost stays = { λ _ _ _ _ ready. ready };

    #[inline(always)]
    fn run(&self, frame: &mut Frame<H, A>, before: u64) -> Option<()> {
        let object = self.source.next(frame, before)?;
        frame.release(object);
        frame.work(TURNS);
        Some(())
    }
}

/// New integers.
#[derive(Drop)]
pub struct Integers<A> {
    pub alloc: A,
}

impl<H: HasTable<A>, A: Allocator + Copy> Source<H, A> for Integers<A> {
    #[inline(always)]
    fn next(&self, frame: &mut Frame<H, A>, before: u64) -> Option<Handle<A>> {
        new_int(self.alloc, frame, 1_000 + (before % 65_536) as i64).ok()
    }
}

/// So many integers, each made, released, and taken apart; None where one can't be had. The loop has a function of its
/// own: beside others, or with texts, LLVM makes a call of taking the block off the worklist.
pub fn new_integers<H: HasTable<A>, A: Allocator + Copy>(
    alloc: A,
    frame: &mut Frame<H, A>,
    n: u64,
) -> Option<()>
    requires unlocked { IsUnlocked frame.old }
    ensures keeps { Keeps frame.old frame.new }
    ensures unlocked { IsUnlocked frame.new }
{
    let source = Integers { alloc };
    repeat(&Ending { source }, frame, n)
}

/// New texts of sixteen bytes.
#[derive(Drop)]
pub struct Texts16<A> {
    pub alloc: A,
}

impl<H: HasTable<A>, A: Allocator + Copy> Source<H, A> for Texts16<A> {
    #[inline(always)]
    fn next(&self, frame: &mut Frame<H, A>, _before: u64) -> Option<Handle<A>> {
        let bytes = String::from_str(self.alloc, "sixteen bytes ..").ok()?;
        new_text(self.alloc, frame, Text::new(bytes)).ok()
    }
}
