//! The law of own payloads, each part as the contract of a function with nothing to do.

ghost use Rattle.std.specs.Prelude.{◌≡◌, ℕ, ◌<◌, ◌==◌, if◌then◌else◌, List, [], ◌∷◌, Option, Some, None, true, false};
ghost use mathlib.Core.Option.{some};
ghost use lib.ListN.{get_elem?};
ghost use Rattle.atomic_table.specs.Table.{State};
ghost use Rattle.brc_words.specs.declared.kind.Kind.{Kind as kind};
ghost use Rattle.brc_words.specs.declared.limits.TheConstants.{GLOBALS};
ghost use Rattle.law.specs.declared.world.event.Change.{Change as change};
ghost use Rattle.law.specs.declared.world.event.Step.{Step as step};
ghost use Rattle.law.specs.declared.world.event.Step.TheVariants as steps;
ghost use Rattle.law.specs.world.Heap.{row_at, AreOptions};
ghost use Rattle.law.specs.world.Steps.{is_active, locked_at};
ghost use Rattle.law.specs.declared.known.word.Word.{Word as word};
ghost use Rattle.law.specs.declared.rule.contents.Contents.{Contents as contents};
ghost use Rattle.law.specs.declared.rule.told.Moved.{Moved as moved};
ghost use Rattle.law.specs.declared.rule.told.Moved.TheVariants as moves;
ghost use Rattle.law.specs.declared.rule.told.LogItem.{LogItem as told};
ghost use Rattle.law.specs.declared.rule.told.LogItem.TheVariants as tells;
ghost use Rattle.law.specs.declared.rule.view.View.{View as view};
ghost use Rattle.law.specs.rule.Logs.{Run, world, own_of, contents_at, opening_contents, IsLegal};
ghost use Rattle.law.specs.rule.Rule.{Kept};
ghost use Rattle.law.specs.rule.Seen.{part_seen};
ghost use Rattle.law.specs.private.Private.{is_shared, is_plain};
ghost use Rattle.law.specs.payloads.Payloads.{private_seen, payloads_of, locked_seen, OwnLocks, HasOwn, keeps_own_seen};
ghost use Rattle.law.specs.payloads.Payloads.{HoldsOwn};

/// Each locking of a thread found what was its own: in a cell that was private, the payload that the thread put home
/// there last; in a cell below the globals, what the heap was opened with. What it has locked now was found so. Both
/// are said of its log alone, in every run, and so of the log of every seat.
pub fn lockings_find_own_payloads<B>()
    ensures found { (n limit : ℕ) (run : Run) (t : ℕ) → AreOptions n limit → IsLegal n limit run
        → OwnLocks n (own_of t run) }
    ensures locked { (n limit : ℕ) (run : Run) (t c : ℕ) → AreOptions n limit → IsLegal n limit run
        → 0 < t → locked_at (world n limit run) t ≡ Some c → HasOwn n (own_of t run) c }

    // Of a table that keeps the rule.
    ensures seats { (shows : B → ℕ × contents) (n limit : ℕ) (s : State (Option B) view)
        (r : Kept shows n limit s) (j : ℕ) (v : view) → get_elem? s.views j ≡ some v → v.active ≡ true
        → OwnLocks n v.log }
    ensures guards { (shows : B → ℕ × contents) (n limit : ℕ) (s : State (Option B) view)
        (r : Kept shows n limit s) (j : ℕ) (v : view) (c : ℕ) → get_elem? s.views j ≡ some v
        → v.active ≡ true → 0 < v.thread → locked_seen n v.log ≡ Some c → HasOwn n v.log c }
{}

/// The payload of an active thread's private cell is what was put home there last, by whomever; and in the cells below
/// the globals lies for good what the heap was opened with.
pub fn payloads_lie_in_their_cells()
    ensures own { (n limit : ℕ) (run : Run) (t c : ℕ) (payload : contents) → AreOptions n limit
        → IsLegal n limit run → 0 < t → is_active (row_at (world n limit run) t).stage ≡ true
        → payloads_of n (own_of t run) c ≡ Some payload → contents_at run c ≡ payload }
    ensures small { (n limit : ℕ) (run : Run) (c : ℕ) → AreOptions n limit → IsLegal n limit run
        → c < GLOBALS → contents_at run c ≡ opening_contents c }
{}

/// Where a thread put own cells alone into its private ones, what it finds in a private cell that it has locked leads
/// to own ones alone: private cells, or cells below the globals.
pub fn payloads_lead_to_own_cells<B>()
    ensures locked { (n limit : ℕ) (run : Run) (t c : ℕ) (payload : contents) → AreOptions n limit
        → IsLegal n limit run → 0 < t → locked_at (world n limit run) t ≡ Some c
        → keeps_own_seen n (own_of t run) ≡ true → payloads_of n (own_of t run) c ≡ Some payload
        → HoldsOwn n (own_of t run) payload }

    // Of a table that keeps the rule.
    ensures guards { (shows : B → ℕ × contents) (n limit : ℕ) (s : State (Option B) view)
        (r : Kept shows n limit s) (j : ℕ) (v : view) (c : ℕ) (payload : contents)
        → get_elem? s.views j ≡ some v → v.active ≡ true → 0 < v.thread
        → locked_seen n v.log ≡ Some c → keeps_own_seen n v.log ≡ true
        → payloads_of n v.log c ≡ Some payload → HoldsOwn n v.log payload }
{}

/// What one more item makes of the payloads: a birth adds its cell with what it puts home, an unlock puts another
/// payload in the place of a private cell's, a free takes its cell away, and an unlock that puts a private cell into
/// one that isn't leaves none, nor does a thread that hands a private cell over. Every other item leaves them as they
/// are.
pub fn payloads_go_on()
    ensures none { (n c : ℕ) → payloads_of n [] c ≡ None }
    ensures born { (n : ℕ) (log : List told) (d : ℕ) (kind : kind) (k number : ℕ) (put : contents)
        (c : ℕ) → payloads_of n (tells.Stepped (steps.Birth d kind k) number (moves.Put d put) ∷ log) c
        ≡ (if d == c then Some put else payloads_of n log c) }
    ensures freed { (n : ℕ) (log : List told) (d number c : ℕ)
        → payloads_of n (tells.Stepped (steps.Free d) number moves.Nothing ∷ log) c
        ≡ (if d == c then None else payloads_of n log c) }
    ensures offered { (n : ℕ) (log : List told) (d number c : ℕ)
        → payloads_of n (tells.Stepped (steps.Offer d) number moves.Nothing ∷ log) c
        ≡ (if private_seen n log d then None else payloads_of n log c) }

    // Unlocking: what it shares, of a private cell, and of another.
    ensures shared { (n : ℕ) (log : List told) (change : change) (number : ℕ) (moved : moved) (c : ℕ)
        → is_shared (private_seen n log) (part_seen n log).frame (locked_seen n log) change ≡ true
        → payloads_of n (tells.Stepped (steps.Unlock change) number moved ∷ log) c ≡ None }
    ensures changed { (n : ℕ) (log : List told) (change : change) (number d : ℕ) (put : contents)
        (c : ℕ)
        → is_shared (private_seen n log) (part_seen n log).frame (locked_seen n log) change ≡ false
        → private_seen n log d ≡ true
        → payloads_of n (tells.Stepped (steps.Unlock change) number (moves.Put d put) ∷ log) c
        ≡ (if d == c then Some put else payloads_of n log c) }
    ensures outside { (n : ℕ) (log : List told) (change : change) (number d : ℕ) (put : contents)
        (c : ℕ)
        → is_shared (private_seen n log) (part_seen n log).frame (locked_seen n log) change ≡ false
        → private_seen n log d ≡ false
        → payloads_of n (tells.Stepped (steps.Unlock change) number (moves.Put d put) ∷ log) c
        ≡ payloads_of n log c }

    // All other items.
    ensures plain { (n : ℕ) (log : List told) (s : step) (number c : ℕ) → is_plain s ≡ true
        → payloads_of n (tells.Stepped s number moves.Nothing ∷ log) c ≡ payloads_of n log c }
    ensures found { (n : ℕ) (log : List told) (s : step) (number d : ℕ) (there : contents) (c : ℕ)
        → is_plain s ≡ true
        → payloads_of n (tells.Stepped s number (moves.Found d there) ∷ log) c ≡ payloads_of n log c }
    ensures saw { (n : ℕ) (log : List told) (w : word) (number c : ℕ)
        → payloads_of n (tells.Loaded w number ∷ log) c ≡ payloads_of n log c }
    ensures lost { (n : ℕ) (log : List told) (w : word) (number c : ℕ)
        → payloads_of n (tells.Lost w number ∷ log) c ≡ payloads_of n log c }
{}
