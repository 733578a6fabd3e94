//! The law of calls on one object, and that of lost tries, as contracts of functions with nothing to do.

ghost use Rattle.std.specs.Prelude.{◌≡◌, ℕ, ◌<◌, List, ◌++◌};
ghost use Rattle.brc_count.specs.law.world.Heap.{AreOptions};
ghost use Rattle.brc_count.specs.law.rule.Logs.{Run, all_of, contents_at, IsLegal};
ghost use Rattle.brc_count.specs.Frames.{FrameSeen};
ghost use Rattle.brc_count.specs.Locking.{KeepsThread, KeepsFrame};
ghost use Rattle.brc_things.specs.Waiting.{Waits};
ghost use Rattle.brc_things.specs.History.{ContainerCall as call, IsSequential, Extends, left_by, history_of};
ghost use Rattle.brc_things.specs.History.{own_history};
ghost use Rattle.brc_things.specs.History.{calls_of};

use std::alloc::Allocator;

/// All calls on the objects in one cell, of whatever threads, are one sequential history: births, and calls that stand
/// where they unlock in the one run of the table. Each call's locking found just what the call before it put home, so
/// that its plain answer (`specs/Changing.antt`) is one on the contents that all earlier calls left. Nothing is said of
/// an order in time between threads but that of the run.
pub fn calls_on_an_object_are_one_history()
    ensures sequential { (n limit : ℕ) (run : Run) (c : ℕ) → AreOptions n limit → IsLegal n limit run
        → IsSequential c (history_of c run) }
    // What stands in the cell after the run is what the last call put home.
    ensures last { (n limit : ℕ) (run : Run) (c : ℕ) → IsLegal n limit run
        → contents_at run c ≡ left_by c (history_of c run) }

    // A run that goes on has a history that goes on, and a front of a legal run, or of a sequential history, is one
    // too.
    ensures extends { (later run : Run) (c : ℕ) → Extends (history_of c run) (history_of c (later ++ run)) }
    ensures earlier { (n limit : ℕ) (later run : Run) → IsLegal n limit (later ++ run) → IsLegal n limit run }
    ensures fronts { (c : ℕ) (older newer : List call) → Extends older newer → IsSequential c newer
        → IsSequential c older }

    // A number's calls stand in it in the order of its own steps, those of all its registrations, as their logs tell
    // them one after the other.
    ensures own { (n limit : ℕ) (run : Run) (c t : ℕ) → AreOptions n limit → IsLegal n limit run
        → calls_of t (history_of c run) ≡ own_history c t (all_of t run) }
{}

/// Tries that find an object locked change nothing of a frame but its log. So what a form that waits says from the
/// frame that its lost tries left (`Late`) holds from the frame that it was called with: places, handles, heap and room
/// are the same.
#[tactic(auto, using(crate::proofs::Waited::waits_thread, crate::proofs::Waited::waits_frame))]
pub fn lost_tries_change_nothing<A: Allocator>()
    ensures thread { (old mid : FrameSeen A) (k : ℕ) → Waits old k mid → KeepsThread old mid }
    ensures frame { (old mid : FrameSeen A) (k : ℕ) → Waits old k mid → KeepsFrame old mid }
{}
