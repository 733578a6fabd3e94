//! Something that a thread waits for.

ghost use Rattle.std.specs.Prelude.{⊤, IfSome, IfNone};
ghost use Rattle.brc_count.specs.Frames.{FrameSeen, IsUnlocked};
ghost use Rattle.brc_count.specs.Owned.{Keeps};
ghost use Rattle.brc_loops.specs.declared.waiting.Look.{Look};
ghost use Rattle.brc_loops.specs.declared.waiting.Look.TheVariants as looks;
ghost use Rattle.brc_loops.specs.Turns.{LooksUntil};

use brc_count::Frame;
use brc_count::biased::HasTable;
use std::alloc::Allocator;
use std::sync::Wait;
use std::thread;

/// What a look came to.
#[derive(Clone, Copy, Debug, PartialEq, Eq)]
pub enum Look {
    /// It isn't there yet: another look is to follow.
    NotYet,
    /// It was there.
    Done,
    /// It won't come.
    GivenUp,
}

/// What is waited for.
pub trait Awaited<H: HasTable<A>, A: Allocator> {
    // what a look needs of the frame
    ghost ready: { Self → FrameSeen A → Type 0 };

    // What a look that came to this does to the frame. A type that leaves it out says nothing.
    ghost looks: { Self → Look → FrameSeen A → FrameSeen A → Type 0 } = { λ _ _ _ _. ⊤ };

    /// Looks whether it is there, and deals with it if so. A thread that others may ask something of polls and works
    /// here where it isn't.
    fn look(&self, frame: &mut Frame<H, A>) -> Look
        requires ready { ready self.now frame.old }
        requires unlocked { IsUnlocked frame.old }
        ensures looks { looks self.now result frame.old frame.new }
        ensures keeps { Keeps frame.old frame.new }
        ensures unlocked { IsUnlocked frame.new };

    // a frame that keeps its handles has still what a look needs
    ghost stays: { (it : Self) (old new : FrameSeen A) → Keeps old new → ready it old → ready it new };
}

/// Looks until it is there, and lets other threads run between two looks; None where it won't come. The last look alone
/// said so.
#[inline(always)]
pub fn wait_for<W: Awaited<H, A>, R: Wait, H: HasTable<A>, A: Allocator>(
    rt: &R,
    awaited: &W,
    frame: &mut Frame<H, A>,
) -> Option<()>
    requires ready { W.ready awaited.now frame.old }
    requires unlocked { IsUnlocked frame.old }

    ensures there { IfSome result (λ _. LooksUntil (W.looks awaited.now looks.NotYet) (W.looks awaited.now looks.Done)
        frame.old frame.new) }
    ensures given_up { IfNone result (LooksUntil (W.looks awaited.now looks.NotYet)
        (W.looks awaited.now looks.GivenUp) frame.old frame.new) }
    ensures keeps { Keeps frame.old frame.new }
    ensures unlocked { IsUnlocked frame.new }
{
    for _ in rt.forever() {
        match awaited.look(frame) {
            Look::NotYet => thread::yield_now(),
            Look::Done => return Some(()),
            Look::GivenUp => return None,
        }
    }
    unreachable!()
}
