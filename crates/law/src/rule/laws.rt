//! The laws of the rule, each as the contract of a function with nothing to do. Its lemmas are in `proofs/rule/`; that
//! each kind of step keeps the rule is `law::steps`.

ghost use Rattle.std.specs.Prelude.{◌≡◌, ℕ, ◌<◌, ◌≤◌, List, ◌∷◌, Option, Some, true};
ghost use mathlib.Core.Option.{some};
ghost use lib.ListN.{get_elem?};
ghost use Rattle.atomic_table.specs.Table.{State, Allows, opening as opens_with};
ghost use Rattle.brc_words.specs.declared.limits.TheConstants.{MOST_CELLS, MOST_THREADS};
ghost use Rattle.law.specs.declared.world.event.Step.{Step as step};
ghost use Rattle.law.specs.declared.world.event.Step.TheVariants as steps;
ghost use Rattle.law.specs.declared.world.event.Change.{Change as change};
ghost use Rattle.law.specs.world.Heap.{cell_at, is_gathered, AreOptions};
ghost use Rattle.law.specs.world.Holding.{carries, Headline};
ghost use Rattle.law.specs.world.Runs.{IsReached};
ghost use Rattle.law.specs.world.Steps.{locked_at};
ghost use Rattle.law.specs.declared.known.word.Field.TheVariants as fields;
ghost use Rattle.law.specs.declared.known.word.Word.{Word as word};
ghost use Rattle.law.specs.declared.known.word.Word.TheVariants as words;
ghost use Rattle.law.specs.known.Items.{IsWord, IsPart};
ghost use Rattle.law.specs.declared.rule.contents.Contents.{Contents as contents};
ghost use Rattle.law.specs.declared.rule.told.Moved.TheVariants as moves;
ghost use Rattle.law.specs.declared.rule.told.LogItem.TheVariants as told;
ghost use Rattle.law.specs.declared.rule.view.View.{View as view};
ghost use Rattle.law.specs.rule.Layout.{spot, extent};
ghost use Rattle.law.specs.rule.Keys.{HasDistinctKeys, KeysGo};
ghost use Rattle.law.specs.rule.Logs.{Run, world, own_of, all_of, lives_of, contents_at, keeps, IsLegal};
ghost use Rattle.law.specs.rule.Homes.{AtRest, ContentsFit};
ghost use Rattle.law.specs.rule.Rule.{log_in, with_told, StandsOnce, Kept};
ghost use Rattle.law.specs.rule.Seen.{part_seen, contents_locked};
ghost use Rattle.law.specs.rule.Opening.{first_view, Opens};

/// Each word of the table has a spot of its own.
pub fn words_lie_apart()
    ensures inside { (n : ℕ) (w : word) → IsWord n w → spot n w < extent n }
    ensures apart { (n : ℕ) (w v : word) → n ≤ MOST_CELLS → IsWord n w → IsWord n v → spot n w ≡ spot n v → w ≡ v }
{}

/// A table whose words show the opening world, with a block for each immortal and no other, keeps the rule.
#[tactic(auto, using(crate::proofs::rule::Opening_Law::opens))]
pub fn tables_open_by_the_rule<B>()
    ensures { (shows : B → ℕ × contents) (n limit : ℕ) (words : List ℕ) (slots : List (Option B))
        → AreOptions n limit → Opens shows n limit words slots
        → Kept shows n limit (opens_with words slots first_view) }
{}

/// What stands in a table that keeps the rule is a reached world, so counts are references there; and each seat's part
/// of it is what the seat's own log says.
pub fn what_stands_here_is_one_run<B>()
    ensures reached { (shows : B → ℕ × contents) (n limit : ℕ) (s : State (Option B) view)
        (r : Kept shows n limit s) → IsReached (world n limit r.run) }
    ensures headline { (shows : B → ℕ × contents) (n limit : ℕ) (s : State (Option B) view)
        (r : Kept shows n limit s) → Headline (world n limit r.run) }
    ensures own { (shows : B → ℕ × contents) (n limit : ℕ) (s : State (Option B) view)
        (r : Kept shows n limit s) (j : ℕ) (v : view) → get_elem? s.views j ≡ some v → v.active ≡ true
        → 0 < v.thread → IsPart (world n limit r.run) v.thread (part_seen n v.log) }
{}

/// Each item of that run stands in one log, once and in its order: each of the root's in its seat's, and each of a
/// thread in its seat's, where it has one, or in one of those that the root keeps of registrations that have ended.
pub fn each_item_stands_in_one_log<B>()
    ensures seats { (shows : B → ℕ × contents) (n limit : ℕ) (s : State (Option B) view)
        (r : Kept shows n limit s) (j : ℕ) (v : view) → get_elem? s.views j ≡ some v → v.active ≡ true
        → own_of v.thread r.run ≡ v.log }
    ensures ended { (shows : B → ℕ × contents) (n limit : ℕ) (s : State (Option B) view)
        (r : Kept shows n limit s) (j : ℕ) (v : view) → get_elem? s.views j ≡ some v → v.active ≡ true
        → v.thread ≡ 0 → v.gathered ≡ lives_of r.run }
    ensures root { (shows : B → ℕ × contents) (n limit : ℕ) (s : State (Option B) view)
        (r : Kept shows n limit s) → all_of 0 r.run ≡ own_of 0 r.run }
    ensures once { (shows : B → ℕ × contents) (n limit : ℕ) (s : State (Option B) view)
        (r : Kept shows n limit s) (t : ℕ) → 0 < t → StandsOnce (world n limit r.run) r.run t }
{}

/// A load of any word keeps the rule, and joins its seat's log as a note.
#[tactic(auto, using(crate::proofs::rule::Looking::looks))]
pub fn looks_keep_the_rule<B>()
    ensures { (shows : B → ℕ × contents) (n limit id : ℕ) (v : view) (slots : List (ℕ × Option B)) (w : word)
        → v.active ≡ true → IsWord n w
        → Allows (Kept shows n limit) n id (v, slots) (spot n w) (λ number. number)
        (λ number me. me ≡ (with_told (told.Loaded w number) v, slots)) }
{}

/// A look at the owner word of a cell that the thread carries finds a thread's number or 0.
#[tactic(auto, using(crate::proofs::rule::Small_Looks::looks_owner))]
pub fn looks_at_the_hands_cell_find_small_numbers<B>()
    ensures owner { (shows : B → ℕ × contents) (n limit id : ℕ) (v : view) (slots : List (ℕ × Option B)) (c : ℕ)
        → v.active ≡ true → 0 < v.thread → c < n → carries c (part_seen n v.log).row.hand ≡ true
        → Allows (Kept shows n limit) n id (v, slots) (spot n (words.Of fields.Owner c)) (λ number. number)
        (λ number me. (me ≡ (with_told (told.Loaded (words.Of fields.Owner c) number) v, slots))
        × (number ≤ MOST_THREADS)) }
{}

/// What a locking finds is what the last birth or unlock of that cell put home, and so is what the taker of a dead
/// block finds; an unlock that keeps puts home what its locking found. What was put home last is of the kind, and has
/// the entries, that the world has there, but for a dead block, which loses its entries one by one.
#[tactic(auto, using(crate::proofs::rule::Locked_Contents::found_is_put, crate::proofs::rule::Locked_Contents::kept_is_put, crate::proofs::rule::Locked_Contents::locked_contents, crate::proofs::rule::Contents_Law::contents_fit))]
pub fn lockings_find_what_was_put_home()
    ensures found { (n limit : ℕ) (run : Run) (t : ℕ) (s : step) (number c : ℕ) (p : contents)
        → IsLegal n limit ((t, told.Stepped s number (moves.Found c p)) ∷ run) → p ≡ contents_at run c }
    ensures kept { (n limit : ℕ) (run : Run) (t : ℕ) (s : step) (number c : ℕ) (p : contents)
        → IsLegal n limit ((t, told.Stepped s number (moves.Put c p)) ∷ run) → keeps s ≡ true
        → p ≡ contents_at run c }
    ensures locked { (n limit : ℕ) (run : Run) (t c : ℕ) → AreOptions n limit → IsLegal n limit run
        → 0 < t → locked_at (world n limit run) t ≡ Some c
        → contents_locked (own_of t run) ≡ Some (contents_at run c) }
    ensures fit { (n limit : ℕ) (run : Run) (c : ℕ) → AreOptions n limit → IsLegal n limit run
        → AtRest (world n limit run) c → ContentsFit (world n limit run) run c }
{}

/// What an unlocking puts home has the keys that were put home last in that cell, which are those that its locking
/// found: all of them, in a dictionary one more that wasn't there, or one fewer.
#[tactic(auto, using(crate::proofs::rule::Keys_Law::keys_unlocked))]
pub fn unlockings_pin_the_keys()
    ensures { (n limit : ℕ) (run : Run) (t : ℕ) (how : change) (number c : ℕ) (p : contents)
        → IsLegal n limit ((t, told.Stepped (steps.Unlock how) number (moves.Put c p)) ∷ run)
        → KeysGo how (contents_at run c) p }
{}

/// No key of a dictionary stands twice: in what was put home last in any cell, in what a thread's locking found, and so
/// in the blocks of unlocked objects and in what each seat knows.
pub fn no_key_stands_twice<B>()
    ensures home { (n limit : ℕ) (run : Run) (c : ℕ) → IsLegal n limit run
        → HasDistinctKeys (contents_at run c) }
    ensures locked { (n limit : ℕ) (run : Run) (t : ℕ) (p : contents) → IsLegal n limit run
        → contents_locked (own_of t run) ≡ Some p → HasDistinctKeys p }
    ensures blocks { (shows : B → ℕ × contents) (n limit : ℕ) (s : State (Option B) view)
        (r : Kept shows n limit s) (c : ℕ) (block : B) → c < n → AtRest (world n limit r.run) c
        → (cell_at (world n limit r.run) c).mutex ≡ 0 → get_elem? s.homes c ≡ some (some (Some block))
        → HasDistinctKeys (shows block).1 }
    ensures seats { (shows : B → ℕ × contents) (n limit : ℕ) (s : State (Option B) view)
        (r : Kept shows n limit s) (j : ℕ) (v : view) (p : contents) → get_elem? s.views j ≡ some v
        → v.active ≡ true → contents_locked v.log ≡ Some p → HasDistinctKeys p }
{}
