//! Many handles, had one after the other.

ghost use Rattle.std.specs.Prelude.{⊤, ◌≡◌, ◌+◌, ℕ, IfSome, IfNone};
ghost use Rattle.brc_count.specs.Frames.{FrameSeen, HandleSeen, IsUnlocked, Owns};
ghost use Rattle.brc_count.specs.Owned.{Keeps, Gains};
ghost use Rattle.brc_handles.specs.Handles.{filled, IsApart, OwnsEach};
ghost use Rattle.brc_loops.specs.Turns.{LoopTurns, Fills, LacksIn};

use brc_count::biased::HasTable;
use brc_count::{Frame, Handle};
use brc_handles::Handles;
use std::alloc::Allocator;

/// Where handles come from.
pub trait Source<H: HasTable<A>, A: Allocator> {
    // What it does to the frame where it gives this handle, after so many before, and where it has none. A source that
    // leaves it out says nothing.
    ghost gives: { Self → ℕ → FrameSeen A → FrameSeen A → HandleSeen → Type 0 } = { λ _ _ _ _ _. ⊤ };

    ghost lacks: { Self → ℕ → FrameSeen A → FrameSeen A → Type 0 } = { λ _ _ _ _. ⊤ };

    /// A handle more, after so many before; None where it can't be had.
    fn next(&self, frame: &mut Frame<H, A>, before: u64) -> Option<Handle<A>>
        requires unlocked { IsUnlocked frame.old }
        ensures gives { IfSome result (gives self.now before frame.old frame.new) }
        ensures lacks { IfNone result (lacks self.now before frame.old frame.new) }
        ensures gains { IfSome result (Gains frame.old frame.new) }
        ensures keeps { IfNone result (Keeps frame.old frame.new) }
        ensures unlocked { IsUnlocked frame.new };
}

/// So many handles more, each in a new place after all others. None where the source has none, or a place can't be had:
/// those before it are there. The source is asked once for each.
pub fn fill<S: Source<H, A>, H: HasTable<A>, A: Allocator>(
    source: &S,
    frame: &mut Frame<H, A>,
    handles: &mut Handles<A>,
    count: u64,
) -> Option<()>
    requires each { OwnsEach frame.old handles.old }
    requires unlocked { IsUnlocked frame.old }

    ensures gives { IfSome result (λ _. LoopTurns (Fills (S.gives source.now)) count (frame.old, handles.old)
        (frame.new, handles.new)) }
    ensures lacks { IfNone result (LacksIn (S.gives source.now) (S.lacks source.now) count (frame.old, handles.old)
        (frame.new, handles.new)) }
    ensures each { OwnsEach frame.new handles.new }
    ensures count { frame.new.len + filled handles.old ≡ frame.old.len + filled handles.new }
    ensures filled { IfSome result (λ _. filled handles.new ≡ filled handles.old + count) }
    ensures heap { frame.new.heap ≡ frame.old.heap }
    ensures unlocked { IsUnlocked frame.new }
    ensures owns { (h : HandleSeen) → Owns frame.old h → Owns frame.new h }
    ensures apart { (h : HandleSeen) → Owns frame.old h → IsApart h handles.old → IsApart h handles.new }
{
    for before in 0..count {
        let handle = source.next(frame, before)?;
        let Ok(()) = handles.keep(frame, handle) else {
            return None;
        };
    }
    Some(())
}
