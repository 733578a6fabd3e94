//! What stands before a call over frame and handles stands behind it, as the contract of a function with nothing to do.

ghost use Rattle.std.specs.Prelude.{ℕ, List, Option};
ghost use Rattle.brc_count.specs.Frames.{FrameSeen as frame, HandleSeen as handle};
ghost use Rattle.brc_handles.specs.Standing.{Stands, Besides, KeepsStanding};

/// However many handles the frame owns beside those that are there, it owns as many afterwards, and one that is loose
/// is loose still.
pub fn calls_keep_what_stands<A>()
    ensures stands { (others : ℕ) (old new : frame A) (before after : List (Option handle))
        → KeepsStanding old new before after → Stands others old before → Stands others new after }
    ensures besides { (others : ℕ) (old new : frame A) (before after : List (Option handle)) (loose : handle)
        → KeepsStanding old new before after → Besides others old before loose → Besides others new after loose }
{}
