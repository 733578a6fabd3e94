//! What calls of the heap make of what a frame and its registers mean, each part as the contract of a function with
//! nothing to do.

ghost use Rattle.std.specs.Prelude.{◌≡◌, ◌<◌, ℕ, ℤ, List, Option, Some, None, length, slice_set, slice_index_or};
ghost use Rattle.brc_count.specs.law.declared.world.event.Source.TheVariants as sources;
ghost use Rattle.brc_count.specs.law.declared.rule.contents.Contents.TheVariants as contents;
ghost use Rattle.brc_count.specs.Frames.{FrameSeen as frame, HandleSeen as handle, GivenHandle, ReleasedOf, Turns};
ghost use Rattle.brc_count.specs.Frames.{KeepsHandles, IsAsBefore, place_seen, ledger_seen};
ghost use Rattle.brc_count.specs.Making.{Made};
ghost use Rattle.brc_count.specs.Polling.{Polled};
ghost use Rattle.brc_handles.specs.Handles.{slot, IsApart, IsBare};
ghost use Rattle.brc_things.specs.Waiting.{Waits};
ghost use Rattle.brc_meaning.specs.declared.object.Object.{Object as object};
ghost use Rattle.brc_meaning.specs.declared.reference.Reference.{Reference as reference};
ghost use Rattle.brc_meaning.specs.declared.reference.Reference.TheVariants as references;
ghost use Rattle.brc_meaning.specs.declared.state.State.{State as state};
ghost use Rattle.brc_meaning.specs.States.{start, with_register};
ghost use Rattle.brc_meaning.specs.Wholes.{Each};
ghost use Rattle.brc_things.specs.Makers.{Answered, small_cell};
ghost use Rattle.law_isolation.specs.Integers.{with_made, integer_reference, integer_made};
ghost use Rattle.law_isolation.specs.Keeping.{KeepsRegisters};
ghost use Rattle.law_isolation.specs.Means.{Means, MeansBesides, SIXTEEN, contents_meant};
ghost use Rattle.brc_count.specs.law.living.Living.{OwnLog};
ghost use Rattle.brc_count.specs.law.living.Quiet.{Quietly};

/// While the thread only lets go, gives back and looks, its frame shows the state that it showed, where the places of
/// its registers have what they had: over a release of another handle, turns of the work on dead blocks, a poll, and
/// waiting for a lock. What else ends meanwhile is none of the state's. Premise is what the log tells of itself.
pub fn letting_go_keeps_what_is_meant<A>()
    ensures quiet { (base : ℕ) (old new : frame A) (registers : List (Option handle)) (s : state A)
        → Means base old registers s → new.heap ≡ old.heap → Quietly old.seat.log new.seat.log
        → OwnLog new.heap.cells new.seat.log → KeepsRegisters old new registers
        → Means base new registers s }
    ensures released { (base : ℕ) (old new : frame A) (registers : List (Option handle)) (s : state A)
        (gone : handle) (c : ℕ) → Means base old registers s → ReleasedOf old new gone.place c
        → IsApart gone registers → new.heap ≡ old.heap → OwnLog new.heap.cells new.seat.log
        → Means base new registers s }
    ensures worked { (base : ℕ) (old new : frame A) (registers : List (Option handle)) (s : state A)
        (turns : ℕ) → Means base old registers s → Turns old turns new → KeepsHandles old new
        → OwnLog new.heap.cells new.seat.log → Means base new registers s }
    ensures polled { (base : ℕ) (old new : frame A) (registers : List (Option handle)) (s : state A)
        (told : ℕ) → Means base old registers s → Polled old new told → KeepsHandles old new
        → OwnLog new.heap.cells new.seat.log → Means base new registers s }
    ensures waited { (base : ℕ) (old new : frame A) (registers : List (Option handle)) (s : state A)
        (k : ℕ) → Means base old registers s → Waits old k new → OwnLog new.heap.cells new.seat.log
        → Means base new registers s }
    ensures same { (base : ℕ) (old new : frame A) (registers : List (Option handle)) (s : state A)
        → Means base old registers s → IsAsBefore old new → Means base new registers s }
{}

/// As a section starts no register holds anything, and nothing was made. A register that is given a handle holds what
/// that has, and what it held is loose; so is what is taken out of one.
pub fn registers_hold_what_they_are_given<A>()
    ensures begins { (frame : frame A) (registers : List (Option handle)) → IsBare registers
        → length registers ≡ SIXTEEN → Means (ledger_seen frame).allocs frame registers start }
    ensures held { (base : ℕ) (frame : frame A) (registers : List (Option handle)) (s : state A)
        (to : ℕ) (h : handle) (r : reference) → MeansBesides base frame registers s h r → to < SIXTEEN
        → Means base frame (slice_set registers to (Some h)) (with_register to (Some r) s) }
    ensures gone { (base : ℕ) (frame : frame A) (registers : List (Option handle)) (s : state A)
        (to : ℕ) (h gone : handle) (r : reference)
        → MeansBesides base frame registers s h r → slot registers to ≡ Some gone
        → (was : reference) × (slice_index_or s.registers to None ≡ Some was)
        × MeansBesides base frame (slice_set registers to (Some h)) (with_register to (Some r) s) gone was }
    ensures taken { (base : ℕ) (frame : frame A) (registers : List (Option handle)) (s : state A)
        (from : ℕ) (h : handle) → Means base frame registers s → slot registers from ≡ Some h
        → (r : reference) × (slice_index_or s.registers from None ≡ Some r)
        × MeansBesides base frame (slice_set registers from None) (with_register from None s) h r }
{}

/// A new handle has what it is given: what a register's handle has, a new object that refers to nothing, or an integer,
/// which is there always or is a new object.
pub fn handles_have_what_they_are_given<A>()
    ensures retained { (base : ℕ) (old new : frame A) (registers : List (Option handle)) (s : state A)
        (from c : ℕ) (h given : handle) → Means base old registers s → slot registers from ≡ Some h
        → place_seen old.heap.cells old.seat.log h.place ≡ Some c → new.heap ≡ old.heap
        → GivenHandle old new (sources.Frame h.place) c given
        → (r : reference) × (slice_index_or s.registers from None ≡ Some r)
        × MeansBesides base new registers s given r }
    ensures made { (base : ℕ) (old new : frame A) (registers : List (Option handle)) (s : state A)
        (object : object A) (given : handle) → Each (λ reference. ⊥) object
        → Means base old registers s → new.heap ≡ old.heap
        → Made old new (contents_meant (λ place. place) object) given
        → OwnLog new.heap.cells new.seat.log
        → MeansBesides base new registers (with_made object s) given (references.Object (length s.objects)) }
    ensures integer { (base : ℕ) (old new : frame A) (registers : List (Option handle)) (s : state A)
        (given : handle) → Means base old registers s → new.heap ≡ old.heap
        → OwnLog new.heap.cells new.seat.log → (number : ℤ)
        → Answered old new (small_cell number) (contents.Int number) given
        → MeansBesides base new registers (integer_made number s) given (integer_reference number s) }
{}
