//! The laws of runs, each as the contract of a function with nothing to do: what holds of every world that a list of
//! enabled events reaches, for any number of threads and every interleaving.

ghost use Rattle.std.specs.Prelude.{◌<◌, ◌≤◌, ℕ, List, length, sum_by};
ghost use Rattle.brc_words.specs.declared.limits.TheConstants.{MOST_ENTRIES};
ghost use Rattle.brc_words.specs.Shared.{CountFits};
ghost use Rattle.law.specs.declared.world.event.Event.{Event as event};
ghost use Rattle.law.specs.world.Since.{HistoriesSince};
ghost use Rattle.law.specs.declared.world.edition.Edition.{Edition as edition};
ghost use Rattle.law.specs.world.Lists.{WORD_LIMIT};
ghost use Rattle.law.specs.world.Heap.{Heap, opening, opening_in, cell_at, entries_at, AreOptions};
ghost use Rattle.law.specs.world.Steps.{enabled};
ghost use Rattle.law.specs.world.Runs.{IsRun, IsReached};
ghost use Rattle.law.specs.world.Holding.{Headline, Histories};
ghost use Rattle.law.specs.world.Sound.{IsSound};

/// Counts are references, an object without references is in some thread's hand, and births less frees are the live
/// objects.
pub fn counts_are_references()
    ensures { (h : Heap) → IsReached h → Headline h }
{}

/// An object dies only without references, once per birth; lives and ledgers are what the run says.
pub fn lives_are_told_by_the_run()
    ensures { (cells limit : ℕ) (run : List event) → AreOptions cells limit → IsRun (opening cells limit) run
        → Histories (opening cells limit) run }
{}

/// The same in either edition: a thread's ledger is what the run says since its number was last registered.
pub fn ledgers_are_told_since_registration()
    ensures { (e : edition) (cells limit : ℕ) (run : List event) → AreOptions cells limit
        → IsRun (opening_in e cells limit) run → HistoriesSince (opening_in e cells limit) run }
{}

/// Every reached world keeps the invariant, on which the running heap will rest.
pub fn worlds_are_sound()
    ensures { (h : Heap) → IsReached h → IsSound h }
{}

/// Every number of a reached world fits its word: shared counts, the births of all threads together, entries.
pub fn numbers_fit()
    ensures counts { (h : Heap) → IsReached h → (c : ℕ)
        → CountFits (cell_at h c).count }
    ensures births { (h : Heap) → IsReached h → sum_by (λ row. row.allocs) h.rows < WORD_LIMIT }
    ensures entries { (h : Heap) → IsReached h → (c : ℕ) → length (entries_at h c) ≤ MOST_ENTRIES }
{}
