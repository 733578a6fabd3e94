//! The law of own logs, each part as the contract of a function with nothing to do.

ghost use Rattle.std.specs.Prelude.{◌≡◌, ℕ, ◌<◌, if◌then◌else◌, List, ◌∷◌, Option, Some, None, true, false};
ghost use mathlib.Core.Option.{some};
ghost use lib.ListN.{get_elem?};
ghost use Rattle.atomic_table.specs.Table.{State};
ghost use Rattle.law.specs.declared.world.event.Step.TheVariants as steps;
ghost use Rattle.law.specs.world.Lists.{place_at};
ghost use Rattle.law.specs.world.Heap.{row_at, AreOptions};
ghost use Rattle.law.specs.world.Steps.{is_active};
ghost use Rattle.law.specs.declared.rule.contents.Contents.{Contents as contents};
ghost use Rattle.law.specs.declared.rule.told.Moved.{Moved as moved};
ghost use Rattle.law.specs.declared.rule.told.LogItem.{LogItem as told};
ghost use Rattle.law.specs.declared.rule.told.LogItem.TheVariants as tells;
ghost use Rattle.law.specs.declared.rule.view.View.{View as view};
ghost use Rattle.law.specs.rule.Logs.{Run, world, own_of, IsLegal};
ghost use Rattle.law.specs.rule.Rule.{Kept};
ghost use Rattle.law.specs.rule.Seen.{part_seen};
ghost use Rattle.law.specs.payloads.Payloads.{payloads_of, locked_seen};
ghost use Rattle.law.specs.living.Living.{is_dead, OwnLog};
ghost use Rattle.law.specs.living.Quiet.{is_quiet, frees};

/// The log of an active thread, in every run: each locking found what was the thread's own, each cell that was given
/// back was dead, none in which an object was born was private, and at each time what a place had wasn't dead, nor what
/// a private cell had that wasn't.
pub fn own_logs_tell_what_lives<B>()
    ensures runs { (n limit : ℕ) (run : Run) (t : ℕ) → AreOptions n limit → IsLegal n limit run
        → 0 < t → is_active (row_at (world n limit run) t).stage ≡ true → OwnLog n (own_of t run) }

    // Of a table that keeps the rule.
    ensures seats { (shows : B → ℕ × contents) (n limit : ℕ) (s : State (Option B) view)
        (r : Kept shows n limit s) (j : ℕ) (v : view) → get_elem? s.views j ≡ some v → v.active ≡ true
        → 0 < v.thread → is_active (part_seen n v.log).row.stage ≡ true → OwnLog n v.log }
{}

/// After an item by which the thread only lets go, each place has what it had, or nothing; nothing was born; and each
/// payload is as it was, or its cell was given back. Whatever the item is: what isn't dead after it wasn't dead before,
/// but for the cell that it gives back.
pub fn quiet_items_only_let_go()
    ensures places { (n : ℕ) (x : told) (log : List told) (k c : ℕ) → is_quiet x ≡ true
        → place_at (part_seen n (x ∷ log)).frame k ≡ Some c
        → place_at (part_seen n log).frame k ≡ Some c }
    ensures allocs { (n : ℕ) (x : told) (log : List told) → is_quiet x ≡ true
        → (part_seen n (x ∷ log)).row.allocs ≡ (part_seen n log).row.allocs }
    ensures payloads { (n : ℕ) (x : told) (log : List told) (c : ℕ) → is_quiet x ≡ true
        → payloads_of n (x ∷ log) c ≡ (if frees x c then None else payloads_of n log c) }
    ensures alive { (n : ℕ) (x : told) (log : List told) (c : ℕ) → frees x c ≡ false
        → is_dead n (x ∷ log) c ≡ false → is_dead n log c ≡ false }
{}

/// A locking locks the cell of its place.
pub fn lockings_lock_their_place()
    ensures { (n : ℕ) (log : List told) (k number c : ℕ) (moved : moved)
        → place_at (part_seen n log).frame k ≡ Some c
        → locked_seen n (tells.Stepped (steps.Lock k) number moved ∷ log) ≡ Some c }
{}
