//! A handle that goes from turn to turn: at each it goes in, and another comes out.

ghost use Rattle.std.specs.Prelude.{⊤, ℕ, IfSome, IfNone};
ghost use Rattle.brc_count.specs.Frames.{FrameSeen, HandleSeen, IsUnlocked, Owns};
ghost use Rattle.brc_count.specs.Owned.{Loses, Trades};
ghost use Rattle.brc_loops.specs.Turns.{LoopTurns, Passes, FailsPassing};

use brc_count::Frame;
use brc_count::biased::HasTable;
use std::alloc::Allocator;

/// What has one handle, and gives it for another at each turn. It is used up by a turn, and comes back: where a method
/// takes a handle beside `&self`, each `impl` would have to repeat these clauses.
pub trait Passing<H: HasTable<A>, A: Allocator>: Sized {
    // the handle that it has
    ghost held: { Self → HandleSeen };

    // what else it needs of the frame
    ghost ready: { Self → FrameSeen A → Type 0 };

    // What a turn makes of it and the frame, after so many before; and what one that fails leaves of the frame. A type
    // that leaves it out says nothing.
    ghost turns: { ℕ → Self → FrameSeen A → Self → FrameSeen A → Type 0 } = { λ _ _ _ _ _. ⊤ };

    ghost fails: { ℕ → Self → FrameSeen A → FrameSeen A → Type 0 } = { λ _ _ _ _. ⊤ };

    /// The handle goes in, after so many turns before, and the answer has the one that comes out; None where it fails:
    /// no handle is left of it.
    fn pass(self, frame: &mut Frame<H, A>, before: u64) -> Option<Self>
        requires ready { ready self frame.old }
        requires owned { Owns frame.old (held self) }
        requires unlocked { IsUnlocked frame.old }
        ensures turns { IfSome result (λ after. turns before self frame.old after frame.new) }
        ensures fails { IfNone result (fails before self frame.old frame.new) }
        ensures trades { IfSome result (λ after. Trades frame.old frame.new (held self) (held after)) }
        ensures ready { IfSome result (λ after. ready after frame.new) }
        ensures loses { IfNone result (Loses frame.old frame.new (held self)) }
        ensures unlocked { IsUnlocked frame.new };
}

/// So many turns; None where one failed, which ends the loop. No turn is left out, and none is made besides.
#[inline(always)]
pub fn pass_on<P: Passing<H, A>, H: HasTable<A>, A: Allocator>(
    passing: P,
    frame: &mut Frame<H, A>,
    n: u64,
) -> Option<P>
    requires ready { P.ready passing frame.old }
    requires owned { Owns frame.old (P.held passing) }
    requires unlocked { IsUnlocked frame.old }

    ensures turns { IfSome result (λ after. LoopTurns (Passes P.turns) n (passing, frame.old) (after, frame.new)) }
    ensures fails { IfNone result (FailsPassing P.turns P.fails n (passing, frame.old) frame.new) }
    ensures trades { IfSome result (λ after. Trades frame.old frame.new (P.held passing) (P.held after)) }
    ensures ready { IfSome result (λ after. P.ready after frame.new) }
    ensures loses { IfNone result (Loses frame.old frame.new (P.held passing)) }
    ensures unlocked { IsUnlocked frame.new }
{
    let mut last = passing;
    for before in 0..n {
        last = last.pass(frame, before)?;
    }
    Some(last)
}
