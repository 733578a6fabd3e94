//! What calls of the heap on the object of a register make of what is meant, each part as the contract of a function
//! with nothing to do.

ghost use Rattle.std.specs.Prelude.{◌≡◌, ◌≢◌, ℕ, ℤ, List, Option, Some, Result, Ok, MatchResult, IfOk, IfErr};
ghost use Rattle.brc_words.specs.declared.fault.Fault.{Fault as fault};
ghost use Rattle.brc_words.specs.declared.fault.Fault.TheVariants as faults;
ghost use Rattle.brc_words.specs.declared.key.Key.{Key as key};
ghost use Rattle.brc_words.specs.declared.kind.Kind.{Kind as kind};
ghost use Rattle.brc_words.specs.declared.kind.Kind.TheVariants as kinds;
ghost use Rattle.brc_count.specs.declared.handed.HandedBack.{HandedBack as handed};
ghost use Rattle.brc_count.specs.Frames.{FrameSeen as frame, HandleSeen as handle};
ghost use Rattle.brc_handles.specs.Handles.{slot, IsApart};
ghost use Rattle.brc_things.specs.Called.{Late};
ghost use Rattle.brc_things.specs.Looking.{KindOf, LenOf, IntOf, BytesOf};
ghost use Rattle.brc_things.specs.List_Calls.{ListPush, ListPop, ListGet, ListSet, MailboxSend, MailboxReceive};
ghost use Rattle.brc_things.specs.Dict_Calls.{DictPut, DictFind, DictDel};
ghost use Rattle.brc_meaning.specs.declared.reference.Reference.{Reference as reference};
ghost use Rattle.brc_meaning.specs.declared.call.Call.TheVariants as calls;
ghost use Rattle.brc_meaning.specs.declared.call.KeyedCall.TheVariants as keyed;
ghost use Rattle.brc_meaning.specs.declared.object.Object.TheVariants as objects;
ghost use Rattle.brc_meaning.specs.declared.state.State.{State as state};
ghost use Rattle.brc_meaning.specs.Objects.{object_call, keyed_call, entries_in, number_in};
ghost use Rattle.brc_count.specs.law.living.Living.{OwnLog};
ghost use Rattle.law_isolation.specs.Means.{Means, MeansBesides};
ghost use Rattle.law_isolation.specs.Calls.{kind_meant, Finds, HandsMeant, TakesMeant, SwapsMeant, PutsMeant};

/// A value that goes into the object of a register goes into the object that the register means, by the plain call:
/// beside it the registers mean what they did. A refusal, other than for want of memory or of a place, is the plain
/// one, and then the handle that is handed back has the value still.
pub fn calls_put_in_what_is_meant<A>()
    ensures push { (base : ℕ) (old new : frame A) (registers : List (Option handle)) (s : state A)
        → OwnLog new.heap.cells new.seat.log → (container : ℕ) (h : handle)
        → slot registers container ≡ Some h → (value : handle) (r : reference)
        → MeansBesides base old registers s value r → IsApart value registers
        → (result : Result (Unit {0}) (handed handle))
        → Late old h.place (λ mid. ListPush mid new h.place value.place result)
        → IfErr result (λ back. back.fault ≢ faults.Busy)
        → TakesMeant (object_call (calls.Push r)) container base new registers s value r result }
    ensures send { (base : ℕ) (old new : frame A) (registers : List (Option handle)) (s : state A)
        → OwnLog new.heap.cells new.seat.log → (container : ℕ) (h : handle)
        → slot registers container ≡ Some h → (value : handle) (r : reference)
        → MeansBesides base old registers s value r → IsApart value registers
        → (result : Result (Unit {0}) (handed handle))
        → Late old h.place (λ mid. MailboxSend mid new h.place value.place result)
        → IfErr result (λ back. back.fault ≢ faults.Busy)
        → TakesMeant (object_call (calls.Send r)) container base new registers s value r result }
    ensures set { (base : ℕ) (old new : frame A) (registers : List (Option handle)) (s : state A)
        → OwnLog new.heap.cells new.seat.log → (container : ℕ) (h : handle)
        → slot registers container ≡ Some h → (value : handle) (r : reference)
        → MeansBesides base old registers s value r → IsApart value registers
        → (index : ℕ) (result : Result handle (handed handle))
        → Late old h.place (λ mid. ListSet mid new h.place index value.place result)
        → IfOk result (λ given. given ≡ value) → IfErr result (λ back. back.fault ≢ faults.Busy)
        → SwapsMeant (object_call (calls.Set index r)) container base new registers s value r result }
    ensures put { (base : ℕ) (old new : frame A) (registers : List (Option handle)) (s : state A)
        → OwnLog new.heap.cells new.seat.log → (container : ℕ) (h : handle)
        → slot registers container ≡ Some h → (value : handle) (r : reference)
        → MeansBesides base old registers s value r → IsApart value registers
        → (at : key A) (result : Result (Option handle) (handed (key A × handle)))
        → Late old h.place (λ mid. DictPut mid new h.place at value result)
        → IfErr result (λ back. back.fault ≢ faults.Busy)
        → PutsMeant (keyed_call at (keyed.Put r)) container base new registers s value r result }

    // The same by a key that is lent.
    ensures set_key { (base : ℕ) (old new : frame A) (registers : List (Option handle)) (s : state A)
        → OwnLog new.heap.cells new.seat.log → (container : ℕ) (h : handle)
        → slot registers container ≡ Some h → (value : handle) (r : reference)
        → MeansBesides base old registers s value r → IsApart value registers
        → (at : key A) (result : Result (Option handle) (handed handle))
        → Late old h.place (λ mid. DictPut mid new h.place at value result)
        → IfErr result (λ back. back.fault ≢ faults.Busy)
        → PutsMeant (keyed_call at (keyed.Put r)) container base new registers s value r result }
{}

/// What comes out of the object of a register, or is counted up there, is what the plain call answers of the object
/// that the register means. A refusal, other than for want of memory or of a place, is the plain one, and changes
/// nothing.
pub fn calls_hand_out_what_is_meant<A>()
    ensures pop { (base : ℕ) (old new : frame A) (registers : List (Option handle)) (s : state A)
        → OwnLog new.heap.cells new.seat.log → (container : ℕ) (h : handle)
        → slot registers container ≡ Some h → Means base old registers s
        → (result : Result handle fault) → Late old h.place (λ mid. ListPop mid new h.place result)
        → IfErr result (λ fault. fault ≢ faults.Busy)
        → HandsMeant (object_call calls.Pop) container base new registers s result }
    ensures get { (base : ℕ) (old new : frame A) (registers : List (Option handle)) (s : state A)
        → OwnLog new.heap.cells new.seat.log → (container : ℕ) (h : handle)
        → slot registers container ≡ Some h → Means base old registers s
        → (index : ℕ) (result : Result handle fault)
        → Late old h.place (λ mid. ListGet mid new h.place index result)
        → IfErr result (λ fault. fault ≢ faults.Busy)
        → HandsMeant (object_call (calls.Get index)) container base new registers s result }
    ensures receive { (base : ℕ) (old new : frame A) (registers : List (Option handle)) (s : state A)
        → OwnLog new.heap.cells new.seat.log → (container : ℕ) (h : handle)
        → slot registers container ≡ Some h → Means base old registers s
        → (result : Result handle fault)
        → Late old h.place (λ mid. MailboxReceive mid new h.place result)
        → IfErr result (λ fault. fault ≢ faults.Busy)
        → HandsMeant (object_call calls.Receive) container base new registers s result }
    ensures find { (base : ℕ) (old new : frame A) (registers : List (Option handle)) (s : state A)
        → OwnLog new.heap.cells new.seat.log → (container : ℕ) (h : handle)
        → slot registers container ≡ Some h → Means base old registers s
        → (at : key A) (result : Result handle fault)
        → Late old h.place (λ mid. DictFind mid new h.place at result)
        → IfErr result (λ fault. fault ≢ faults.Busy)
        → HandsMeant (keyed_call at keyed.Find) container base new registers s result }
    ensures delete { (base : ℕ) (old new : frame A) (registers : List (Option handle)) (s : state A)
        → OwnLog new.heap.cells new.seat.log → (container : ℕ) (h : handle)
        → slot registers container ≡ Some h → Means base old registers s
        → (at : key A) (result : Result handle fault)
        → Late old h.place (λ mid. DictDel mid new h.place at result)
        → IfErr result (λ fault. fault ≢ faults.Busy)
        → HandsMeant (keyed_call at keyed.Delete) container base new registers s result }
{}

/// A look at the object of a register tells of the object that the register means, and all means what it did.
pub fn looks_tell_what_is_meant<A>()
    ensures kind { (base : ℕ) (old new : frame A) (registers : List (Option handle)) (s : state A)
        → OwnLog new.heap.cells new.seat.log → (container : ℕ) (h : handle)
        → slot registers container ≡ Some h → Means base old registers s → (kind : kind)
        → Late old h.place (λ mid. KindOf mid new h.place (Ok kind))
        → Means base new registers s × Finds container s (λ object. kind_meant object ≡ kind) }
    ensures len { (base : ℕ) (old new : frame A) (registers : List (Option handle)) (s : state A)
        → OwnLog new.heap.cells new.seat.log → (container : ℕ) (h : handle)
        → slot registers container ≡ Some h → Means base old registers s → (result : Result ℕ fault)
        → Late old h.place (λ mid. LenOf mid new h.place result)
        → IfErr result (λ fault. fault ≢ faults.Busy)
        → Means base new registers s × Finds container s (λ object. entries_in object ≡ result) }
    ensures int { (base : ℕ) (old new : frame A) (registers : List (Option handle)) (s : state A)
        → OwnLog new.heap.cells new.seat.log → (container : ℕ) (h : handle)
        → slot registers container ≡ Some h → Means base old registers s → (result : Result ℤ fault)
        → Late old h.place (λ mid. IntOf mid new h.place result)
        → IfErr result (λ fault. fault ≢ faults.Busy)
        → Means base new registers s × Finds container s (λ object. number_in object ≡ result) }
    // Want of memory for a copy says nothing of the kind.
    ensures text { (base : ℕ) (old new : frame A) (registers : List (Option handle)) (s : state A)
        → OwnLog new.heap.cells new.seat.log → (container : ℕ) (h : handle)
        → slot registers container ≡ Some h → Means base old registers s
        → (result : Result (List ℕ) fault) → Late old h.place (λ mid. BytesOf mid new h.place result)
        → IfErr result (λ fault. fault ≢ faults.Busy)
        → Means base new registers s × Finds container s (λ object. MatchResult result
        (λ text. object ≡ objects.Text text) (λ fault. fault ≢ faults.OutOfMemory
        → (fault ≡ faults.WrongKind) × (kind_meant object ≢ kinds.Text))) }
{}
