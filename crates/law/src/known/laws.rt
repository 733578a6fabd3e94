//! What a thread's own items tell it, each as the contract of a function with nothing to do.

ghost use Rattle.std.specs.Prelude.{◌≡◌, ◌≢◌, ◌≤◌, ℕ, ◌+◌, ◌*◌, ◌<◌, ◌==◌, ◌&&◌, List, [], ◌∷◌, Some, None, true};
ghost use Rattle.std.specs.Prelude.{false, length, slice_index_or};
ghost use Rattle.std.specs.Int.{bit_at};
ghost use Rattle.law.specs.declared.world.cell.Cell.{Cell as cell};
ghost use Rattle.law.specs.declared.world.row.Hand.TheVariants as hands;
ghost use Rattle.law.specs.declared.world.event.Dropped.{Dropped as dropped};
ghost use Rattle.law.specs.declared.world.event.Dropped.TheVariants as drops;
ghost use Rattle.law.specs.declared.world.event.Change.TheVariants as changes;
ghost use Rattle.law.specs.declared.world.event.Source.{Source as source};
ghost use Rattle.law.specs.declared.world.event.Step.{Step as step};
ghost use Rattle.law.specs.declared.world.event.Step.TheVariants as steps;
ghost use Rattle.law.specs.declared.world.event.Event.{Event as event};
ghost use Rattle.law.specs.world.Lists.{WORD_LIMIT, one, names, place_at, word_at, is_marked, is_bare, is_unmarked};
ghost use Rattle.law.specs.world.Lists.{is_blank};
ghost use Rattle.brc_words.specs.Owners.{word_of};
ghost use Rattle.law.specs.world.Holding.{lives};
ghost use Rattle.law.specs.known.Start.{start_of};
ghost use Rattle.law.specs.world.Heap.{Heap, cell_at, entries_at, row_at, frame_at, popped_at, queue_at};
ghost use Rattle.law.specs.world.Heap.{worklist_at, is_registered, is_gathered, AreOptions};
ghost use Rattle.brc_words.specs.declared.owner.Owner.TheVariants as owners;
ghost use Rattle.law.specs.known.Owned.{IsAlive};
ghost use Rattle.law.specs.world.Steps.{is_mine, is_active, needs_no_cell, takes_block, thread_may, after_target};
ghost use Rattle.law.specs.world.Steps.{target_at, owned_are_marked};
ghost use Rattle.law.specs.world.Runs.{IsRun, IsReached};
ghost use Rattle.law.specs.known.Going_On.{KnowsNext, known_of, knows_after, knows_apart, given_up, touched_place};
ghost use Rattle.law.specs.known.Locked.{locked_of, place_locked, KnowsWhatIsLocked};
ghost use Rattle.law.specs.known.Owners_Seen.{has_seen_owner};
ghost use Rattle.law.specs.known.Root.{rows_of, gathered_of};
ghost use Rattle.law.specs.known.Counts.{own_count, counts_of};
ghost use Rattle.law.specs.known.Risen.{is_risen, is_risen_word, drop_in};
ghost use Rattle.law.specs.known.Taken.{listed_at, taken_of, entries_if};
ghost use Rattle.law.specs.world.Sound.{held};
ghost use Rattle.law.specs.declared.world.row.Stage.{Stage as stage};
ghost use Rattle.brc_words.specs.declared.limits.TheConstants.{FIRST_MORTAL, MOST_THREADS};
ghost use Rattle.law.specs.lasting.Staying.{rank};
ghost use Rattle.law.specs.known.Free_Words.{is_free_cell};
ghost use Rattle.law.specs.known.Items.{Word as word, IsWord, WordShows, works_on, Of, Owner, Shared, FreeWord, Item};
ghost use Rattle.law.specs.known.Items.{Stepped};
ghost use Rattle.law.specs.known.Items.{Loaded, Lost, ItemRun, MayCome, AreItems, IsPart, events_of, world_of_items};
ghost use Rattle.law.specs.known.Items.{part_of, meant, cell_told, own};

/// Items are runs with what each step was told: the events of items are a run, and each run is the events of items. A
/// thread's own part of the world, with the entries of what it has locked and of its worklist, is a function of its own
/// items, and so is the cell that each of its steps means.
pub fn own_items_tell_the_part()
    ensures run { (start : Heap) (items : ItemRun) → AreItems start items
        → IsRun start (events_of items) }
    ensures every { (start : Heap) (run : List event) → IsRun start run
        → (items : ItemRun) × AreItems start items × (events_of items ≡ run) }
    ensures told { (cells limit : ℕ) (items : ItemRun) (t : ℕ) → AreOptions cells limit
        → AreItems (start_of cells limit) items
        → is_registered (world_of_items (start_of cells limit) items) t ≡ true
        → IsPart (world_of_items (start_of cells limit) items) t (part_of cells (own t items)) }
    ensures meant { (cells limit : ℕ) (items : ItemRun) (t : ℕ) (s : step)
        → AreOptions cells limit → AreItems (start_of cells limit) items
        → is_registered (world_of_items (start_of cells limit) items) t ≡ true
        → meant (part_of cells (own t items)) s
        ≡ target_at (world_of_items (start_of cells limit) items) t s }
{}

/// The threads of the world are told by the root's own items: how many rows it has, and which threads are gathered.
pub fn root_items_tell_the_threads()
    ensures rows { (cells limit : ℕ) (items : ItemRun) → AreOptions cells limit
        → AreItems (start_of cells limit) items
        → length (world_of_items (start_of cells limit) items).rows ≡ rows_of (own 0 items) }
    ensures gathered { (cells limit : ℕ) (items : ItemRun) (u : ℕ) → AreOptions cells limit
        → AreItems (start_of cells limit) items
        → is_gathered (world_of_items (start_of cells limit) items) u ≡ gathered_of (own 0 items) u }
{}

/// A queue word has bits of its 32 cells alone, and each of these is a cell of the heap: a bit is a reference of its
/// cell, so that lives.
pub fn queue_words_name_cells()
    ensures { (h : Heap) (t k i : ℕ) → IsReached h → bit_at (word_at (queue_at h t) k) i ≡ 1
        → (i < 32) × (k * 32 + i < length h.cells) }
{}

/// A thread gives back no more objects than all threads together make, so 64 bits count what it has given back.
pub fn own_items_tell_few_frees()
    ensures { (cells limit : ℕ) (items : ItemRun) (t : ℕ) → AreOptions cells limit
        → AreItems (start_of cells limit) items
        → is_registered (world_of_items (start_of cells limit) items) t ≡ true
        → (part_of cells (own t items)).row.frees < WORD_LIMIT }
{}

/// The local count of each of a thread's own objects is a function of its own items, with the numbers that they were
/// told: an active thread counts on what it owns without a look. 0 says that it doesn't count there on the local word.
pub fn own_items_tell_the_counts()
    ensures { (cells limit : ℕ) (items : ItemRun) (t c : ℕ) → AreOptions cells limit
        → AreItems (start_of cells limit) items
        → is_registered (world_of_items (start_of cells limit) items) t ≡ true → FIRST_MORTAL ≤ c
        → own_count t (row_at (world_of_items (start_of cells limit) items) t).stage
        (cell_at (world_of_items (start_of cells limit) items) c) ≡ counts_of cells (own t items) c }
{}

/// What an active thread with a free hand owns are the cells that it counts, all alive, and dead ones on its own
/// worklist.
pub fn own_counts_tell_what_is_owned()
    ensures alive { (cells limit : ℕ) (items : ItemRun) (t c : ℕ) → AreOptions cells limit
        → AreItems (start_of cells limit) items
        → is_registered (world_of_items (start_of cells limit) items) t ≡ true → FIRST_MORTAL ≤ c
        → 0 < counts_of cells (own t items) c
        → IsAlive (world_of_items (start_of cells limit) items) t c }
    ensures dead { (cells limit : ℕ) (items : ItemRun) (t c : ℕ) → AreOptions cells limit
        → AreItems (start_of cells limit) items
        → is_registered (world_of_items (start_of cells limit) items) t ≡ true → FIRST_MORTAL ≤ c
        → is_active (row_at (world_of_items (start_of cells limit) items) t).stage ≡ true
        → (row_at (world_of_items (start_of cells limit) items) t).hand ≡ hands.Free
        → counts_of cells (own t items) c ≡ 0
        → (cell_at (world_of_items (start_of cells limit) items) c).owner ≡ owners.Thread t
        → is_marked (worklist_at (world_of_items (start_of cells limit) items) t) c ≡ true }
    ensures all_dead { (cells limit : ℕ) (items : ItemRun) (t : ℕ) → AreOptions cells limit
        → AreItems (start_of cells limit) items
        → is_registered (world_of_items (start_of cells limit) items) t ≡ true
        → is_active (row_at (world_of_items (start_of cells limit) items) t).stage ≡ true
        → (row_at (world_of_items (start_of cells limit) items) t).hand ≡ hands.Free
        → ((c : ℕ) → FIRST_MORTAL ≤ c → counts_of cells (own t items) c ≡ 0) → (n : ℕ)
        → owned_are_marked t (world_of_items (start_of cells limit) items).cells
        (worklist_at (world_of_items (start_of cells limit) items) t) n ≡ true }
{}

/// What a count says: a thread with a bare hand that holds an object and has no count of it doesn't count on its local
/// word, and where it has a count the word has that count.
pub fn counts_say_who_counts()
    ensures none { (h : Heap) (t c : ℕ) → IsReached h → FIRST_MORTAL ≤ c → 1 ≤ held h c
        → (row_at h t).hand ≡ hands.Free → own_count t (row_at h t).stage (cell_at h c) ≡ 0
        → is_mine t (row_at h t).stage (cell_at h c) ≡ false }
    ensures some { (t : ℕ) (g : stage) (x : cell) → 0 < own_count t g x
        → (is_mine t g x ≡ true) × (x.local ≡ own_count t g x) }
{}

/// An object that a thread found queued or merged, in a place of its frame or as the last entry of a dead block that
/// has had it since, is still queued or merged: its release goes straight to the shared word.
pub fn own_items_tell_what_has_risen()
    ensures { (cells limit : ℕ) (items : ItemRun) (t c : ℕ) (drop : dropped) → AreOptions cells limit
        → AreItems (start_of cells limit) items
        → is_registered (world_of_items (start_of cells limit) items) t ≡ true
        → is_risen cells (own t items) drop c ≡ true → FIRST_MORTAL ≤ c
        → 1 ≤ rank (cell_at (world_of_items (start_of cells limit) items) c).state }
{}

/// The dead blocks that a thread has taken, with the entries that they still have, are a function of its own items:
/// they are those on its worklist. A block that a step takes, by the number that the step is told, isn't listed before.
pub fn own_items_tell_the_blocks()
    ensures listed { (cells limit : ℕ) (items : ItemRun) (t c : ℕ) → AreOptions cells limit
        → AreItems (start_of cells limit) items
        → is_registered (world_of_items (start_of cells limit) items) t ≡ true
        → listed_at (taken_of cells (own t items)) c
        ≡ entries_if (is_marked (worklist_at (world_of_items (start_of cells limit) items) t) c)
        (entries_at (world_of_items (start_of cells limit) items) c) }
    ensures fresh { (cells limit : ℕ) (items : ItemRun) (t c : ℕ) (s : step) (number : ℕ)
        (entries : List ℕ) → AreOptions cells limit → AreItems (start_of cells limit) items
        → MayCome (world_of_items (start_of cells limit) items) t (Stepped s number entries) → t ≢ 0
        → meant (part_of cells (own t items)) s ≡ Some c
        → takes_block s (cell_told s number) ≡ true
        → listed_at (taken_of cells (own t items)) c ≡ None }
{}

/// What a thread has locked, with the entries that it found there, is a function of its own items: the place of its
/// frame, whose cell the world has locked and whose entries are those found, until it unlocks.
pub fn own_items_tell_the_lock()
    ensures place { (cells limit : ℕ) (items : ItemRun) (t : ℕ) → AreOptions cells limit
        → AreItems (start_of cells limit) items
        → is_registered (world_of_items (start_of cells limit) items) t ≡ true
        → (part_of cells (own t items)).row.locked ≡ place_locked (locked_of (own t items)) }
    ensures found { (cells limit : ℕ) (items : ItemRun) (t place : ℕ) (entries : List ℕ)
        → AreOptions cells limit → AreItems (start_of cells limit) items
        → is_registered (world_of_items (start_of cells limit) items) t ≡ true
        → locked_of (own t items) ≡ Some (place, entries)
        → KnowsWhatIsLocked cells (world_of_items (start_of cells limit) items) t (own t items) place
        entries }
{}

/// What a thread knows goes on with each of its items as one table says, kind by kind of step; a note changes nothing
/// of it. A step leaves every place of the frame but the one that it may change, and the last entry of every block but
/// the one that it means and the one that gives up its last.
pub fn own_steps_go_on()
    ensures meant { (cells : ℕ) (items : List Item) (s : step) (c number : ℕ) (entries : List ℕ)
        → meant (part_of cells items) s ≡ Some c
        → KnowsNext cells items (Stepped s number entries)
        (knows_after s c number entries (known_of cells items)) }
    ensures apart { (cells : ℕ) (items : List Item) (s : step) (number : ℕ) (entries : List ℕ)
        → needs_no_cell s ≡ true
        → KnowsNext cells items (Stepped s number entries) (knows_apart cells s number (known_of cells items)) }
    ensures places { (cells : ℕ) (items : List Item) (s : step) (c number : ℕ) (entries : List ℕ)
        (j : ℕ) → meant (part_of cells items) s ≡ Some c → touched_place s ≢ Some j
        → place_at (part_of cells (Stepped s number entries ∷ items)).frame j
        ≡ place_at (part_of cells items).frame j }
    ensures entries { (cells : ℕ) (items : List Item) (s : step) (c number : ℕ) (entries : List ℕ)
        (q : ℕ) → meant (part_of cells items) s ≡ Some c → q ≢ c
        → given_up s ≢ Some (drops.Work q)
        → drop_in (part_of cells (Stepped s number entries ∷ items)) (drops.Work q)
        ≡ drop_in (part_of cells items) (drops.Work q) }
    ensures saw { (cells : ℕ) (items : List Item) (w : word) (number : ℕ)
        → KnowsNext cells items (Loaded w number) (known_of cells items) }
    ensures lost { (cells : ℕ) (items : List Item) (w : word) (number : ℕ)
        → KnowsNext cells items (Lost w number) (known_of cells items) }
{}

/// What was seen risen of a place, or of a last entry, is still seen with one more item exactly where these have the
/// cell still: not in a place whose cell was put into the locked object, nor in one that was vacant before, and in one
/// whose cell was exchanged where the same cell came back. It is seen anew by who counts up, asks or looks.
pub fn what_has_risen_stays_seen()
    ensures kept { (cells : ℕ) (items : List Item) (x : Item) (drop : dropped) (c : ℕ)
        → is_risen cells items drop c ≡ true → is_risen cells (x ∷ items) drop c
        ≡ names c (drop_in (part_of cells (x ∷ items)) drop) }
    ensures places { (cells : ℕ) (items : List Item) (s : step) (d number : ℕ) (entries : List ℕ)
        (j c : ℕ) → meant (part_of cells items) s ≡ Some d → touched_place s ≢ Some j
        → is_risen cells items (drops.Frame j) c ≡ true
        → is_risen cells (Stepped s number entries ∷ items) (drops.Frame j) c ≡ true }
    ensures entries { (cells : ℕ) (items : List Item) (s : step) (d number : ℕ) (entries : List ℕ)
        (q c : ℕ) → meant (part_of cells items) s ≡ Some d → q ≢ d
        → given_up s ≢ Some (drops.Work q) → is_risen cells items (drops.Work q) c ≡ true
        → is_risen cells (Stepped s number entries ∷ items) (drops.Work q) c ≡ true }
    ensures apart { (cells : ℕ) (items : List Item) (s : step) (number : ℕ) (entries : List ℕ)
        (drop : dropped) (c : ℕ) → needs_no_cell s ≡ true → is_risen cells items drop c ≡ true
        → is_risen cells (Stepped s number entries ∷ items) drop c ≡ true }

    // The place that an unlocking changes.
    ensures put { (cells : ℕ) (items : List Item) (j d number : ℕ) (entries : List ℕ) (c : ℕ)
        → meant (part_of cells items) (steps.Unlock (changes.Put j)) ≡ Some d
        → is_risen cells (Stepped (steps.Unlock (changes.Put j)) number entries ∷ items)
        (drops.Frame j) c ≡ false }
    ensures took { (cells : ℕ) (items : List Item) (i j number : ℕ) (entries : List ℕ) (c : ℕ)
        → place_at (part_of cells items).frame j ≡ None
        → is_risen cells (Stepped (steps.Unlock (changes.Take i j)) number entries ∷ items)
        (drops.Frame j) c ≡ false }
    ensures swapped { (cells : ℕ) (items : List Item) (i j d number : ℕ) (entries : List ℕ) (c : ℕ)
        → meant (part_of cells items) (steps.Unlock (changes.Swap i j)) ≡ Some d
        → is_risen cells (Stepped (steps.Unlock (changes.Swap i j)) number entries ∷ items)
        (drops.Frame j) c ≡ ((slice_index_or ((part_of cells items).has d) i 0 == c)
        && is_risen cells items (drops.Frame j) c) }

    // What sees it anew.
    ensures counted { (cells : ℕ) (items : List Item) (from : source) (k c number : ℕ)
        (entries : List ℕ) → meant (part_of cells items) (steps.SharedUp from k) ≡ Some c
        → is_risen_word number ≡ true
        → is_risen cells (Stepped (steps.SharedUp from k) number entries ∷ items) (drops.Frame k) c
        ≡ true }
    ensures asked { (cells : ℕ) (items : List Item) (drop : dropped) (c number : ℕ)
        (entries : List ℕ) → drop_in (part_of cells items) drop ≡ Some c
        → is_risen_word number ≡ true
        → is_risen cells (Stepped (steps.Ask drop) number entries ∷ items) drop c ≡ true }
    ensures saw { (cells : ℕ) (items : List Item) (drop : dropped) (c number : ℕ)
        → drop_in (part_of cells items) drop ≡ Some c → is_risen_word number ≡ true
        → is_risen cells (Loaded (Of Shared c) number ∷ items) drop c ≡ true }
    ensures lost { (cells : ℕ) (items : List Item) (drop : dropped) (c number : ℕ)
        → drop_in (part_of cells items) drop ≡ Some c → is_risen_word number ≡ true
        → is_risen cells (Lost (Of Shared c) number ∷ items) drop c ≡ true }
{}

/// What a thread needs to know before it begins to leave: where it has no block and all places are vacant, its worklist
/// has no mark and its frame no cell.
pub fn own_items_tell_what_is_left()
    ensures blocks { (cells limit : ℕ) (items : ItemRun) (t : ℕ) → AreOptions cells limit
        → AreItems (start_of cells limit) items
        → is_registered (world_of_items (start_of cells limit) items) t ≡ true
        → taken_of cells (own t items) ≡ []
        → is_unmarked (worklist_at (world_of_items (start_of cells limit) items) t) ≡ true }
    ensures places { (cells limit : ℕ) (items : ItemRun) (t : ℕ) → AreOptions cells limit
        → AreItems (start_of cells limit) items
        → is_registered (world_of_items (start_of cells limit) items) t ≡ true
        → ((k : ℕ) → place_at (part_of cells (own t items)).frame k ≡ None)
        → is_bare (frame_at (world_of_items (start_of cells limit) items) t) ≡ true }
    ensures popped { (cells limit : ℕ) (items : ItemRun) (t : ℕ) → AreOptions cells limit
        → AreItems (start_of cells limit) items
        → is_registered (world_of_items (start_of cells limit) items) t ≡ true
        → ((k : ℕ) → word_at (part_of cells (own t items)).popped k ≡ 0)
        → is_blank (popped_at (world_of_items (start_of cells limit) items) t) ≡ true }
{}

/// A thread's number that was found in an owner word is registered, then and ever after, so that thread can be told.
pub fn own_looks_tell_the_owners()
    ensures { (cells limit : ℕ) (items : ItemRun) (t q : ℕ) → AreOptions cells limit
        → AreItems (start_of cells limit) items
        → is_registered (world_of_items (start_of cells limit) items) t ≡ true
        → has_seen_owner (own t items) q ≡ true → 0 < q → q ≤ MOST_THREADS
        → is_registered (world_of_items (start_of cells limit) items) q ≡ true }
{}

/// A thread's step works on one word, and every other word of the table shows what it showed.
pub fn a_step_changes_one_word()
    ensures { (h : Heap) (t : ℕ) (s : step) (w : word) (number : ℕ) → IsReached h
        → thread_may h t s ≡ true → IsWord (length h.cells) w
        → w ≢ works_on h t s (target_at h t s) → WordShows h w number
        → WordShows (after_target h t s (target_at h t s)) w number }
{}

/// A free word tells of each of its 64 bits whether that cell is free: a cell of the heap in which no object lives and
/// which nobody has claimed. While an object lives, its owner word tells its owner.
pub fn free_words_tell_the_free_cells()
    ensures free { (h : Heap) (k i number : ℕ) → i < 64 → WordShows h (FreeWord k) number
        → bit_at number i ≡ one (is_free_cell h (k * 64 + i)) }
    ensures small { (h : Heap) (k number : ℕ) → WordShows h (FreeWord k) number → number < WORD_LIMIT }
    ensures owner { (h : Heap) (c number : ℕ) → lives (cell_at h c).owner ≡ true
        → WordShows h (Of Owner c) number → number ≡ word_of (cell_at h c).owner }
{}
