//! A task that is repeated.

ghost use Rattle.std.specs.Prelude.{⊤, ◌≡◌, ℕ, IfSome, IfNone};
ghost use Rattle.brc_count.specs.Frames.{FrameSeen, IsUnlocked};
ghost use Rattle.brc_count.specs.Owned.{Keeps};
ghost use Rattle.brc_loops.specs.Turns.{LoopTurns, FailsIn};

use brc_count::Frame;
use brc_count::biased::HasTable;
use std::alloc::Allocator;

/// What is done with a frame, which has the same handles before and afterwards.
pub trait Task<H: HasTable<A>, A: Allocator> {
    // what it needs of the frame
    ghost ready: { Self → FrameSeen A → Type 0 };

    // What it does to the frame where it is done, after so many times before, and where it fails. A task that leaves it
    // out says nothing.
    ghost done: { Self → ℕ → FrameSeen A → FrameSeen A → Type 0 } = { λ _ _ _ _. ⊤ };

    ghost fails: { Self → ℕ → FrameSeen A → FrameSeen A → Type 0 } = { λ _ _ _ _. ⊤ };

    /// It is done once, after so many times before; None where it fails.
    fn run(&self, frame: &mut Frame<H, A>, before: u64) -> Option<()>
        requires ready { ready self.now frame.old }
        requires unlocked { IsUnlocked frame.old }
        ensures done { IfSome result (λ _. done self.now before frame.old frame.new) }
        ensures fails { IfNone result (fails self.now before frame.old frame.new) }
        ensures keeps { Keeps frame.old frame.new }
        ensures unlocked { IsUnlocked frame.new };

    // a frame that keeps its handles has still what it needs
    ghost stays: { (it : Self) (old new : FrameSeen A) → Keeps old new → ready it old → ready it new };
}

/// The task is done so many times; None where it failed, which ends the loop. No turn is left out, and none is made
/// besides.
#[inline(always)]
pub fn repeat<T: Task<H, A>, H: HasTable<A>, A: Allocator>(
    task: &T,
    frame: &mut Frame<H, A>,
    n: u64,
) -> Option<()>
    requires ready { T.ready task.now frame.old }
    requires unlocked { IsUnlocked frame.old }

    ensures done { IfSome result (λ _. LoopTurns (T.done task.now) n frame.old frame.new) }
    ensures fails { IfNone result (FailsIn (T.done task.now) (T.fails task.now) n frame.old frame.new) }
    ensures keeps { Keeps frame.old frame.new }
    ensures unlocked { IsUnlocked frame.new }
{
    for before in 0..n {
        task.run(frame, before)?;
    }
    Some(())
}

/// The task of a thread that has nothing to do.
#[derive(Clone, Copy, Debug, PartialEq, Eq)]
pub struct Nothing;

impl<H: HasTable<A>, A: Allocator> Task<H, A> for Nothing {
    ghost ready = { λ _ _. ⊤ };

    ghost done = { λ _ _ old new. new ≡ old };

    ghost fails = { λ _ _ _ _. ⊥ };

    ghost stays = { λ _ _ _ _ ready. ready };

    fn run(&self, _frame: &mut Frame<H, A>, _before: u64) -> Option<()> {
        Some(())
    }
}
