//! The laws that a running thread rests on while others step, each as the contract of a function with nothing to do:
//! what lasts, what a hand tells without a look, and that no condition stands in its way.
//!
//! What lasts over one event of another thread's lasts over any number of them: `proofs/lasting/Standing.antt`,
//! `lasts_over`.

ghost use Rattle.std.specs.Prelude.{[], ◌≡◌, ◌≢◌, ◌≤◌, ℕ, ◌<◌, List, Some, true, false, length, slice_get};
ghost use Rattle.brc_words.specs.declared.kind.Kind.{Kind as kind};
ghost use Rattle.brc_words.specs.declared.owner.Owner.TheVariants as owners;
ghost use Rattle.law.specs.declared.world.cell.Cell.{Cell as cell};
ghost use Rattle.law.specs.declared.world.row.Phase.{Phase as phase};
ghost use Rattle.law.specs.declared.world.row.Phase.TheVariants as phases;
ghost use Rattle.law.specs.declared.world.row.Hand.TheVariants as hands;
ghost use Rattle.law.specs.declared.world.edition.Edition.TheVariants as editions;
ghost use Rattle.law.specs.declared.world.event.Dropped.{Dropped as dropped};
ghost use Rattle.law.specs.declared.world.event.Step.{Step as step};
ghost use Rattle.law.specs.declared.world.event.Step.TheVariants as steps;
ghost use Rattle.law.specs.declared.world.event.Change.TheVariants as changes;
ghost use Rattle.law.specs.declared.world.row.Stage.TheVariants as stages;
ghost use Rattle.law.specs.declared.world.event.Event.{Event as event};
ghost use Rattle.law.specs.world.Lists.{bit_of, is_marked, is_bare, is_unmarked, is_blank};
ghost use Rattle.law.specs.world.Heap.{Heap, opening, cell_at, entries_at, row_at, frame_at, popped_at, worklist_at};
ghost use Rattle.law.specs.world.Heap.{queue_at, is_registered, is_gathered};
ghost use Rattle.brc_words.specs.Kinds.{is_mortal};
ghost use Rattle.law.specs.lasting.Progress.{IsPresent, IsAtRest, next_step, release_step, popped_step};
ghost use Rattle.law.specs.world.Steps.{locked_at, dropped_cell, is_vacant, enabled, after, target_at, takes_block};
ghost use Rattle.law.specs.world.Steps.{may_leave};
ghost use Rattle.law.specs.world.Runs.{IsReached, world_after};
ghost use Rattle.law.specs.world.Sound.{held};
ghost use Rattle.law.specs.lasting.Ranges.{OwnerFits};
ghost use Rattle.law.specs.declared.world.row.Stage.{Stage as stage};
ghost use Rattle.brc_words.specs.declared.limits.TheConstants.{FIRST_MORTAL};
ghost use Rattle.law.specs.lasting.Staying.{IsAnothers, Lasts, SameOwn, IsBearing, Buries, IsLocking, LivesOn, Foreign};
ghost use Rattle.law.specs.lasting.Staying.{OwnedOrNot, Nobodys, IsOwning, StaysMerging, Yields, Adopts, PoppedOwn};
ghost use Rattle.law.specs.lasting.Staying.{PhaseTells};
ghost use Rattle.law.specs.lasting.Staying.{PoppedTells, HoldsNothing};

/// While others step, a thread's own part stays as it is, and a bit of its merge queue stays set.
pub fn own_parts_last()
    ensures own { (t : ℕ) (h : Heap) (e : event) → IsReached h → enabled h e ≡ true
        → IsAnothers t e → SameOwn t h (after h e) }
    ensures queued { (t q : ℕ) → Lasts t (λ h. bit_of (queue_at h t) q ≡ 1) }
{}

/// While others step: the words of a cell that is being made, and of a dead block; a locked object's entries, kind and
/// lock; that what a thread has lives on, as what it is and with its bearer, and its state never falls.
pub fn held_words_last()
    ensures born { (t c : ℕ) (p : phase) (x : cell) → Lasts t (λ h. IsBearing h t c p x) }
    ensures buried { (t c : ℕ) (x : cell) (entries : List ℕ)
        → Lasts t (λ h. Buries h t c x entries) }
    ensures locked { (t c : ℕ) (k : kind) (entries : List ℕ)
        → Lasts t (λ h. IsLocking h t c k entries) }
    ensures kept { (t c : ℕ) (k : kind) (bearer least : ℕ)
        → Lasts t (λ h. LivesOn h t c k bearer least) }
{}

/// While others step: an owner word goes from a thread to nobody alone, and never to the thread that looked; who owns,
/// merges, hands over or adopts an object, or has popped it, is the one that writes its local word.
pub fn owners_last()
    ensures foreign { (t c : ℕ) → Lasts t (λ h. Foreign h t c) }
    ensures owned { (t c s : ℕ) → Lasts t (λ h. OwnedOrNot h t c s) }
    ensures nobodys { (t c : ℕ) → Lasts t (λ h. Nobodys h t c) }
    ensures own { (t c local : ℕ) → Lasts t (λ h. IsOwning h t c local) }
    ensures merging { (t c local : ℕ) (p : phase) → Lasts t (λ h. StaysMerging h t c local p) }
    ensures yielding { (t c local : ℕ) → Lasts t (λ h. Yields h t c local) }
    ensures adopting { (t c s local : ℕ) → Lasts t (λ h. Adopts h t c s local) }
    ensures popped { (t c local : ℕ) → Lasts t (λ h. PoppedOwn h t c local) }
{}

/// What a thread knows without a look: of the cell in its hand, by the phase; and that a popped entry is merged, or its
/// own and asked for.
pub fn hands_tell()
    ensures hand { (h : Heap) (t c : ℕ) (p : phase) → IsReached h
        → (row_at h t).hand ≡ hands.Busy p c → (FIRST_MORTAL ≤ c) × PhaseTells t p (cell_at h c) }
    ensures popped { (h : Heap) (t c : ℕ) → IsReached h → (row_at h t).hand ≡ hands.Free
        → bit_of (popped_at h t) c ≡ 1 → PoppedTells t (cell_at h c) }
{}

/// Nobody has locked a dead block, nor the block that a step takes.
pub fn dead_blocks_are_unlocked()
    ensures listed { (h : Heap) (t c : ℕ) → IsReached h → is_marked (worklist_at h t) c ≡ true
        → (cell_at h c).mutex ≡ 0 }
    ensures taken { (h : Heap) (e : event) (c : ℕ) → IsReached h → enabled h e ≡ true
        → e.thread ≢ 0 → target_at h e.thread e.step ≡ Some c
        → takes_block e.step (cell_at h c) ≡ true → (cell_at h c).mutex ≡ 0 }
{}

/// A block is taken once, and while it is held it is neither freed nor made anew: what a step takes is on no worklist,
/// and a cell that is held is no step's to free or to bear.
pub fn blocks_are_taken_once()
    ensures taken { (h : Heap) (e : event) (c u : ℕ) → IsReached h → enabled h e ≡ true
        → target_at h e.thread e.step ≡ Some c → takes_block e.step (cell_at h c) ≡ true
        → is_marked (worklist_at h u) c ≡ false }
    ensures freed { (h : Heap) (e : event) (c : ℕ) → IsReached h → enabled h e ≡ true
        → 1 ≤ held h c → e.step ≢ steps.Free c }
    ensures born { (h : Heap) (e : event) (c : ℕ) (of : kind) (k : ℕ) → IsReached h
        → enabled h e ≡ true → 1 ≤ held h c → e.step ≢ steps.Birth c of k }
{}

/// What a thread has locked is held, and no other thread has locked it: who unlocks it is the one that locked it.
pub fn locks_are_exclusive()
    ensures held { (h : Heap) (t c : ℕ) → IsReached h → locked_at h t ≡ Some c → 1 ≤ held h c }
    ensures one { (h : Heap) (s t c : ℕ) → IsReached h → locked_at h s ≡ Some c
        → locked_at h t ≡ Some c → s ≡ t }
{}

/// A gathered thread holds nothing: no place, no reference in its hand, none queued or popped, no dead block, no lock.
pub fn gathered_threads_hold_nothing()
    ensures { (h : Heap) (t : ℕ) → IsReached h → is_gathered h t ≡ true → HoldsNothing h t }
{}

/// Owners are registered threads, which stay so; entries are cells of the heap, the cell in a hand is on no worklist,
/// and the local limit stays as the heap was opened.
pub fn numbers_name_what_is_there()
    ensures owners { (h : Heap) (c : ℕ) → IsReached h
        → OwnerFits (length h.rows) (cell_at h c).owner }
    ensures threads { (h : Heap) (e : event) (q : ℕ) → is_registered h q ≡ true
        → is_registered (after h e) q ≡ true }
    ensures entries { (h : Heap) (d i c : ℕ) → IsReached h
        → slice_get (entries_at h d) i ≡ Some c → c < length h.cells }
    ensures hands { (h : Heap) (t s c : ℕ) (p : phase) → IsReached h
        → (row_at h t).hand ≡ hands.Busy p c → is_marked (worklist_at h s) c ≡ false }
    ensures limit { (cells limit : ℕ) (run : List event)
        → (world_after (opening cells limit) run).limit ≡ limit }
{}

/// No thread is stuck by a condition, in either edition. Whatever is in its hand it can go on with, for which a ready
/// object wants a vacant place: a thread whose places are all filled must not claim. A lock it can let go. At rest it
/// can give up every place and every last entry of a dead block, deal with every popped entry, and give back every
/// block without entries; with nothing left it can begin to leave, go on leaving, and then be gathered. In the second
/// edition it can hand over before whatever it owns, and a number that is used again opens its words one by one.
pub fn no_thread_is_stuck()
    ensures hands { (h : Heap) (t c : ℕ) (p : phase) → IsReached h → IsPresent h t
        → (row_at h t).hand ≡ hands.Busy p c → p ≢ phases.Ready
        → enabled h (record { thread = t; step = next_step p c (cell_at h c) }) ≡ true }
    ensures births { (h : Heap) (t c k : ℕ) (of : kind) → IsReached h → IsPresent h t
        → (row_at h t).hand ≡ hands.Busy phases.Ready c → is_mortal of ≡ true
        → is_vacant (frame_at h t) k ≡ true
        → enabled h (record { thread = t; step = steps.Birth c of k }) ≡ true }
    ensures references { (h : Heap) (t c : ℕ) (drop : dropped) → IsReached h → IsAtRest h t
        → dropped_cell (frame_at h t) (worklist_at h t) (entries_at h) drop ≡ Some c
        → enabled h (record {
          thread = t;
          step = release_step t (row_at h t).stage c (cell_at h c) drop;
        }) ≡ true }
    ensures popped { (h : Heap) (t c : ℕ) → IsReached h → IsAtRest h t
        → bit_of (popped_at h t) c ≡ 1
        → enabled h (record { thread = t; step = popped_step c (cell_at h c) }) ≡ true }
    ensures blocks { (h : Heap) (t c : ℕ) → IsReached h → IsAtRest h t
        → is_marked (worklist_at h t) c ≡ true → entries_at h c ≡ []
        → enabled h (record { thread = t; step = steps.Free c }) ≡ true }
    ensures locks { (h : Heap) (t k : ℕ) → IsReached h → IsPresent h t → (row_at h t).locked ≡ Some k
        → enabled h (record { thread = t; step = steps.Unlock changes.Keep }) ≡ true }
    ensures begins { (h : Heap) (t : ℕ) → IsReached h → IsAtRest h t
        → (row_at h t).stage ≡ stages.Active → is_bare (frame_at h t) ≡ true
        → may_leave h.edition t h.cells (worklist_at h t) ≡ true → is_blank (popped_at h t) ≡ true
        → enabled h (record { thread = t; step = steps.Close 0 }) ≡ true }
    ensures offers { (h : Heap) (t c : ℕ) → IsReached h → h.edition ≡ editions.Two → IsAtRest h t
        → (row_at h t).stage ≡ stages.Active → (cell_at h c).owner ≡ owners.Thread t
        → is_marked (worklist_at h t) c ≡ false
        → enabled h (record { thread = t; step = steps.Offer c }) ≡ true }
    ensures closes { (h : Heap) (t n : ℕ) → IsReached h → IsPresent h t
        → (row_at h t).stage ≡ stages.Closing n
        → enabled h (record { thread = t; step = steps.Close n }) ≡ true }
    ensures gathered { (h : Heap) (t : ℕ) → IsReached h → IsAtRest h t
        → (row_at h t).stage ≡ stages.Left → is_unmarked (worklist_at h t) ≡ true
        → is_blank (popped_at h t) ≡ true
        → enabled h (record { thread = 0; step = steps.Gather t }) ≡ true }
    ensures opens { (h : Heap) (t n : ℕ) → IsReached h → h.edition ≡ editions.Two → IsPresent h t
        → (row_at h t).stage ≡ stages.Opening n
        → enabled h (record { thread = t; step = steps.Reopen n }) ≡ true }
{}
