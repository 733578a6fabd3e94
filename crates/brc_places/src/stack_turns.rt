//! Turns over a frame and a stack, one after another, until one ends them.

ghost use Rattle.std.specs.Prelude.{⊤};
ghost use Rattle.brc_count.specs.Frames.{IsUnlocked};
ghost use Rattle.brc_handles.specs.Handles.{OwnsEach};
ghost use Rattle.brc_handles.specs.Standing.{KeepsStanding};
ghost use Rattle.brc_places.specs.declared.stack_turns.Turn.{Turn};
ghost use Rattle.brc_places.specs.Stack_Turns.{TurnState, TurnsToEnd};

use crate::stack::Stack;
use brc_count::Frame;
use brc_count::biased::HasTable;
use std::alloc::Allocator;
use std::sync::Wait;
use std::thread;

/// What a turn came to.
#[derive(Clone, Copy, Debug, PartialEq, Eq)]
pub enum Turn {
    /// Another turn follows.
    GoesOn,
    /// Another turn follows, once other threads could run.
    Waits,
    /// It was the last one.
    Ends,
}

/// What is done at each turn. What it has besides the frame and the stack, as where it is in a program, is its own.
pub trait Step<R: Wait, H: HasTable<A>, A: Allocator> {
    // What a turn that came to this made of the step, the frame and the stack. A step that leaves it out says nothing.
    ghost turns: { Turn → TurnState Self A → TurnState Self A → Type 0 } = { λ _ _ _. ⊤ };

    /// One turn. Before and afterwards the frame owns each handle of the stack, and as many others.
    fn step(&mut self, rt: &R, frame: &mut Frame<H, A>, stack: &mut Stack<A>) -> Turn
        requires each { OwnsEach frame.old stack.old }
        requires unlocked { IsUnlocked frame.old }
        ensures turned { turns result (record { step = self.old; frame = frame.old; stack = stack.old })
            (record { step = self.new; frame = frame.new; stack = stack.new }) }
        ensures stands { KeepsStanding frame.old frame.new stack.old stack.new };
}

/// Turns until one is the last, which alone says so. Between two of them other threads may run, if the first of the two
/// said so.
pub fn run_steps<S: Step<R, H, A>, R: Wait, H: HasTable<A>, A: Allocator>(
    rt: &R,
    step: &mut S,
    frame: &mut Frame<H, A>,
    stack: &mut Stack<A>,
)
    requires each { OwnsEach frame.old stack.old }
    requires unlocked { IsUnlocked frame.old }
    ensures turned { TurnsToEnd S.turns (record { step = step.old; frame = frame.old; stack = stack.old })
        (record { step = step.new; frame = frame.new; stack = stack.new }) }
    ensures stands { KeepsStanding frame.old frame.new stack.old stack.new }
{
    for _ in rt.forever() {
        match step.step(rt, frame, stack) {
            Turn::GoesOn => {}
            Turn::Waits => thread::yield_now(),
            Turn::Ends => return,
        }
    }
    unreachable!()
}
