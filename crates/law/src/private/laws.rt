//! The law of private cells, each part as the contract of a function with nothing to do: after every list of items, and
//! then kind by kind of step.

ghost use Rattle.std.specs.Prelude.{◌≡◌, ◌≢◌, ℕ, ◌==◌, if◌then◌else◌, Bool, true, false, List, [], ◌∷◌, Some};
ghost use Rattle.std.specs.Prelude.{slice_get};
ghost use Rattle.std.specs.Prelude.{◌<◌, length};
ghost use Rattle.brc_words.specs.declared.kind.Kind.{Kind as kind};
ghost use Rattle.brc_words.specs.declared.limits.TheConstants.{GLOBALS};
ghost use Rattle.law.specs.declared.world.event.Change.{Change as change};
ghost use Rattle.law.specs.declared.world.event.Step.TheVariants as steps;
ghost use Rattle.law.specs.declared.world.row.Hand.TheVariants as hands;
ghost use Rattle.law.specs.declared.world.row.Phase.{Phase as phase};
ghost use Rattle.law.specs.world.Lists.{place_at, bit_of};
ghost use Rattle.law.specs.declared.world.event.Step.{Step as step};
ghost use Rattle.law.specs.known.Start.{start_of};
ghost use Rattle.law.specs.world.Heap.{Heap, is_registered, AreOptions, row_at, cell_at, frame_at, queue_at};
ghost use Rattle.law.specs.world.Heap.{entries_at};
ghost use Rattle.law.specs.world.Sound.{IsSound};
ghost use Rattle.law.specs.world.Steps.{thread_may, target_at, locked_at, stepped, kept_cells, registered};
ghost use Rattle.law.specs.world.Steps.{registered_again, gathered_in, is_active, is_default, is_keep, is_others};
ghost use Rattle.law.specs.world.Steps.{hand_after};
ghost use Rattle.law.specs.declared.known.word.Word.{Word as word};
ghost use Rattle.law.specs.known.Items.{Item, Stepped, Loaded, Lost, ItemRun, AreItems, world_of_items, own, part_of};
ghost use Rattle.law.specs.private.Private.{Isolated, LeavesInHand, is_plain, is_shared, private_by, private_of};
ghost use Rattle.law.specs.private.Private.{locked_told};
ghost use Rattle.law.specs.private.Own_Entries.{keeps_own, OwnEntries};

/// After every list of items the cells that an active thread's own items call private are its own: whoever holds or
/// grips one is that thread or a private cell, and none is in a merge queue. So no step of another thread means one:
/// none counts it, locks it, frees it or buries it.
pub fn own_items_tell_the_private_cells()
    ensures apart { (cells limit : ℕ) (items : ItemRun) (t : ℕ) → AreOptions cells limit
        → AreItems (start_of cells limit) items
        → is_registered (world_of_items (start_of cells limit) items) t ≡ true
        → is_active (row_at (world_of_items (start_of cells limit) items) t).stage ≡ true
        → Isolated (world_of_items (start_of cells limit) items) t (private_of cells (own t items)) }
    ensures alone { (cells limit : ℕ) (items : ItemRun) (t u : ℕ) (s : step) (c : ℕ)
        → AreOptions cells limit → AreItems (start_of cells limit) items
        → is_registered (world_of_items (start_of cells limit) items) t ≡ true
        → is_active (row_at (world_of_items (start_of cells limit) items) t).stage ≡ true → u ≢ t
        → thread_may (world_of_items (start_of cells limit) items) u s ≡ true
        → target_at (world_of_items (start_of cells limit) items) u s ≡ Some c
        → private_of cells (own t items) c ≢ true }
{}

/// Where a thread put own cells alone into its private ones, private cells or those below the globals, the entries of
/// its private cells are such: what it finds in one of them is again its own.
pub fn own_items_tell_own_entries()
    ensures { (cells limit : ℕ) (items : ItemRun) (t : ℕ) → AreOptions cells limit
        → AreItems (start_of cells limit) items
        → is_registered (world_of_items (start_of cells limit) items) t ≡ true
        → is_active (row_at (world_of_items (start_of cells limit) items) t).stage ≡ true
        → keeps_own cells (own t items) ≡ true
        → OwnEntries (world_of_items (start_of cells limit) items) (private_of cells (own t items)) }
{}

/// Which cells are private after one more own item: a birth adds its cell, a free takes its cell away, and an unlock
/// that puts a private cell into one that isn't leaves none, nor does a thread that hands a private cell over. Every
/// other item leaves them as they are.
pub fn private_cells_go_on()
    ensures none { (cells c : ℕ) → private_of cells [] c ≡ false }
    ensures born { (cells : ℕ) (items : List Item) (d : ℕ) (kind : kind) (k number : ℕ)
        (entries : List ℕ) (c : ℕ)
        → private_of cells (Stepped (steps.Birth d kind k) number entries ∷ items) c
        ≡ (if d == c then true else private_of cells items c) }
    ensures freed { (cells : ℕ) (items : List Item) (d number : ℕ) (entries : List ℕ) (c : ℕ)
        → private_of cells (Stepped (steps.Free d) number entries ∷ items) c
        ≡ (if d == c then false else private_of cells items c) }
    ensures unlocked { (cells : ℕ) (items : List Item) (change : change) (number : ℕ)
        (entries : List ℕ) (c : ℕ)
        → private_of cells (Stepped (steps.Unlock change) number entries ∷ items) c
        ≡ (if is_shared (private_of cells items) (part_of cells items).frame (locked_told cells items) change
        then false else private_of cells items c) }
    ensures offered { (cells : ℕ) (items : List Item) (d number : ℕ) (entries : List ℕ) (c : ℕ)
        → private_of cells (Stepped (steps.Offer d) number entries ∷ items) c
        ≡ (if private_of cells items d then false else private_of cells items c) }
    ensures plain { (cells : ℕ) (items : List Item) (s : step) (number : ℕ) (entries : List ℕ) (c : ℕ)
        → is_plain s ≡ true
        → private_of cells (Stepped s number entries ∷ items) c ≡ private_of cells items c }
    ensures saw { (cells : ℕ) (items : List Item) (w : word) (number c : ℕ)
        → private_of cells (Loaded w number ∷ items) c ≡ private_of cells items c }
    ensures lost { (cells : ℕ) (items : List Item) (w : word) (number c : ℕ)
        → private_of cells (Lost w number ∷ items) c ≡ private_of cells items c }
{}

/// A step of another thread never means a private cell: so no other thread counts it, locks it or frees it.
pub fn others_leave_private_cells()
    ensures { (h : Heap) (t u : ℕ) (set : ℕ → Bool) (s : step) (c : ℕ) → IsSound h
        → Isolated h t set → u ≢ t → thread_may h u s ≡ true
        → target_at h u s ≡ Some c → set c ≢ true }
{}

/// After any step of any thread a private cell stands in no frame but its thread's, and in no merge queue; and after an
/// unlock of its thread it stands in private cells alone.
pub fn steps_keep_private_cells()
    ensures frames { (h : Heap) (t u : ℕ) (set : ℕ → Bool) (s : step) (d : ℕ) → IsSound h
        → Isolated h t set → thread_may h u s ≡ true → target_at h u s ≡ Some d
        → (v k c : ℕ) → set c ≡ true → place_at (frame_at (stepped h u s d) v) k ≡ Some c → v ≡ t }
    ensures queues { (h : Heap) (t u : ℕ) (set : ℕ → Bool) (s : step) (d : ℕ) → IsSound h
        → Isolated h t set → thread_may h u s ≡ true → target_at h u s ≡ Some d
        → (v c : ℕ) → set c ≡ true → bit_of (queue_at (stepped h u s d) v) c ≡ 0 }
    ensures unlock { (h : Heap) (t : ℕ) (set : ℕ → Bool) (change : change) (d : ℕ) → IsSound h
        → Isolated h t set → thread_may h t (steps.Unlock change) ≡ true
        → target_at h t (steps.Unlock change) ≡ Some d → (e i c : ℕ)
        → private_by (frame_at h t) (locked_at h t) (steps.Unlock change) set c ≡ true
        → slice_get (entries_at (stepped h t (steps.Unlock change) d) e) i ≡ Some c
        → private_by (frame_at h t) (locked_at h t) (steps.Unlock change) set e ≡ true }
{}

/// An active thread is the owner of its private cells in the default state, so it never asks for one; and its hand has
/// one only at its birth or its burial.
pub fn private_cells_are_never_asked_for()
    ensures owned { (h : Heap) (t : ℕ) (set : ℕ → Bool) → IsSound h → Isolated h t set → (c : ℕ)
        → set c ≡ true → is_active (row_at h t).stage ≡ true → (row_at h t).hand ≡ hands.Free
        → is_default (cell_at h c).state ≡ true
        → is_others t (row_at h t).stage c (cell_at h c) ≢ true }
    ensures hands { (h : Heap) (t : ℕ) (set : ℕ → Bool) (s : step) (d : ℕ) → IsSound h
        → Isolated h t set → is_active (row_at h t).stage ≡ true → thread_may h t s ≡ true
        → target_at h t s ≡ Some d → set d ≡ true → (p : phase) (c : ℕ) (shut : Bool)
        → hand_after s d (cell_at h d) shut (row_at h t).hand ≡ hands.Busy p c
        → LeavesInHand (row_at h t).hand d c p }
{}

/// A step of another thread on any cell keeps a thread's private cells apart.
pub fn others_keep_private_cells_apart()
    ensures { (h : Heap) (t u : ℕ) (set : ℕ → Bool) → IsSound h → Isolated h t set → u ≢ t
        → (s : step) (d : ℕ) → thread_may h u s ≡ true → target_at h u s ≡ Some d
        → Isolated (stepped h u s d) t set }
{}

/// A step of the thread's own keeps its private cells apart: an unlock, whatever it shares, the handing over of an
/// object, and every step that neither bears nor frees one.
pub fn own_steps_keep_private_cells_apart()
    ensures unlock { (h : Heap) (t : ℕ) (set : ℕ → Bool) → IsSound h → Isolated h t set
        → is_active (row_at h t).stage ≡ true → (change : change) (d : ℕ)
        → thread_may h t (steps.Unlock change) ≡ true → target_at h t (steps.Unlock change) ≡ Some d
        → Isolated (stepped h t (steps.Unlock change) d) t
        (private_by (frame_at h t) (locked_at h t) (steps.Unlock change) set) }
    ensures offer { (h : Heap) (t : ℕ) (set : ℕ → Bool) → IsSound h → Isolated h t set
        → is_active (row_at h t).stage ≡ true → (e d : ℕ)
        → thread_may h t (steps.Offer e) ≡ true → target_at h t (steps.Offer e) ≡ Some d
        → Isolated (stepped h t (steps.Offer e) d) t
        (private_by (frame_at h t) (locked_at h t) (steps.Offer e) set) }
    ensures plain { (h : Heap) (t : ℕ) (set : ℕ → Bool) → IsSound h → Isolated h t set
        → is_active (row_at h t).stage ≡ true → (s : step) (d : ℕ) → is_plain s ≡ true
        → thread_may h t s ≡ true → target_at h t s ≡ Some d
        → Isolated (stepped h t s d) t (private_by (frame_at h t) (locked_at h t) s set) }
{}

/// A birth makes its cell private, and a free ends that; the rest stays apart.
pub fn births_and_frees_keep_private_cells_apart()
    ensures birth { (h : Heap) (t : ℕ) (set : ℕ → Bool) → IsSound h → Isolated h t set
        → is_active (row_at h t).stage ≡ true → (e : ℕ) (kind : kind) (k d : ℕ)
        → thread_may h t (steps.Birth e kind k) ≡ true → target_at h t (steps.Birth e kind k) ≡ Some d
        → Isolated (stepped h t (steps.Birth e kind k) d) t
        (private_by (frame_at h t) (locked_at h t) (steps.Birth e kind k) set) }
    ensures free { (h : Heap) (t : ℕ) (set : ℕ → Bool) → IsSound h → Isolated h t set
        → is_active (row_at h t).stage ≡ true → (e d : ℕ)
        → thread_may h t (steps.Free e) ≡ true → target_at h t (steps.Free e) ≡ Some d
        → Isolated (stepped h t (steps.Free e) d) t
        (private_by (frame_at h t) (locked_at h t) (steps.Free e) set) }
{}

/// The cells below the globals are unlocked by keep alone.
pub fn small_immortals_are_kept()
    ensures { (h : Heap) (t : ℕ) (change : change) (c : ℕ) → IsSound h
        → thread_may h t (steps.Unlock change) ≡ true
        → target_at h t (steps.Unlock change) ≡ Some c → c < GLOBALS → is_keep change ≡ true }
{}

/// A step on a word that is no cell's keeps private cells apart.
pub fn queue_steps_keep_private_cells_apart()
    ensures { (h : Heap) (t u : ℕ) (set : ℕ → Bool) (s : step) → u < length h.rows
        → Isolated h t set → Isolated (kept_cells h u s) t set }
{}

/// Registering a thread keeps private cells apart, also under a number that is used again, and so does gathering one.
pub fn root_steps_keep_private_cells_apart()
    ensures registers { (h : Heap) (t : ℕ) (set : ℕ → Bool) → Isolated h t set
        → Isolated (registered h) t set }
    ensures again { (h : Heap) (u t : ℕ) (set : ℕ → Bool) → Isolated h t set
        → Isolated (registered_again h u) t set }
    ensures gathers { (h : Heap) (u t : ℕ) (set : ℕ → Bool) → Isolated h t set
        → Isolated (gathered_in h u) t set }
{}
