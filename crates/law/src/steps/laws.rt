//! Each kind of step keeps the rule: what it asks of its seat's log, the word that it works on and what becomes of it,
//! and what its seat knows afterwards. In each clause `there` is the number that the word had.

ghost use Rattle.std.specs.Prelude.{◌≡◌, ℕ, ◌+◌, ◌-◌, ◌*◌, ◌/◌, ◌%◌, ◌^◌, ◌<◌, ◌≤◌, ◌==◌, if◌then◌else◌, List, ◌∷◌};
ghost use Rattle.std.specs.Prelude.{Option, Some, None, true, bit_and, bit_or};
ghost use Rattle.std.specs.Int.{bit_at};
ghost use prog.Atomic.{either};
ghost use Rattle.atomic_table.specs.Table.{Allows, Splits, Joins};
ghost use Rattle.brc_words.specs.declared.kind.Kind.{Kind as kind};
ghost use Rattle.brc_words.specs.declared.limits.TheConstants.{IMMORTAL_LOCAL, MOST_THREADS};
ghost use Rattle.brc_words.specs.declared.look.TheConstants.{CLOSED_BIT, MERGED_BITS, NO_COUNT, ONE_COUNT, QUEUED_BITS};
ghost use Rattle.law.specs.declared.world.event.Change.{Change as change};
ghost use Rattle.law.specs.declared.world.event.Dropped.{Dropped as dropped};
ghost use Rattle.law.specs.declared.world.event.LastDropped.TheVariants as lasts;
ghost use Rattle.law.specs.declared.world.event.Source.{Source as source};
ghost use Rattle.law.specs.declared.world.event.Step.TheVariants as steps;
ghost use Rattle.law.specs.world.Lists.{WORD_LIMIT};
ghost use Rattle.law.specs.world.Heap.{words_for};
ghost use Rattle.law.specs.world.Steps.{takes_block};
ghost use Rattle.law.specs.declared.known.word.Field.TheVariants as fields;
ghost use Rattle.law.specs.declared.known.word.Word.{Word as word};
ghost use Rattle.law.specs.declared.known.word.Word.TheVariants as words;
ghost use Rattle.law.specs.known.Items.{cell_told};
ghost use Rattle.law.specs.declared.rule.contents.Contents.{Contents as contents};
ghost use Rattle.law.specs.declared.rule.told.Moved.TheVariants as moves;
ghost use Rattle.law.specs.declared.rule.told.LogItem.TheVariants as told;
ghost use Rattle.law.specs.declared.rule.view.View.{View as view};
ghost use Rattle.law.specs.rule.Layout.{spot};
ghost use Rattle.law.specs.rule.Rule.{with_told, Kept};
ghost use Rattle.law.specs.steps.Owing.{MayRaise, MayRaiseImmortal, MayLower, MayLowerImmortal, MayRaiseShared};
ghost use Rattle.law.specs.steps.Owing.{MayRelease};
ghost use Rattle.law.specs.steps.Owing.{MayCarry, EndsRisen, MayClaimCell, MayBear, MayUnlock, MayStep, MayNudge};
ghost use Rattle.law.specs.steps.Owing.{EndsPopped};
ghost use Rattle.law.specs.steps.Owing.{EndsAdded, EndsLeft, EndsShut, EndsNobodys, UntiesOver, UntiesOffered};
ghost use Rattle.law.specs.steps.Owing.{UntiesPopped};
ghost use Rattle.law.specs.steps.Owing.{AddsLocal, MayYield, Offers, MayClose, Enqueues};
ghost use Rattle.law.specs.steps.Taking.{AreQueued, CountsSome, EndedObject, Claimed, LockedOrBusy};
ghost use Rattle.law.specs.steps.Joining.{registering, starting, gathering, spent, MayRegister, HasLeft};

/// An owner counts in its log alone, by the number that the log tells: its count stands in no word, so the event is told
/// as any word of the table is loaded. An immortal's count stays.
#[tactic(auto, using(crate::proofs::steps::Local_Steps::counts_up, crate::proofs::steps::Local_Steps::counts_down, crate::proofs::steps::Local_Steps::counts_immortal_up, crate::proofs::steps::Local_Steps::counts_immortal_down))]
pub fn owners_count<B>()
    ensures up { (shows : B → ℕ × contents) (n limit id : ℕ) (v : view) (slots : List (ℕ × Option B)) (u : word)
        (source : source) (k c count : ℕ)
        → v.active ≡ true → 0 < v.thread → MayRaise n limit v.log source k c count
        → Allows (Kept shows n limit) n id (v, slots) (spot n u) (λ there. there)
        (λ there me. me ≡ (with_told (told.Stepped (steps.LocalUp source k) (count + 1) moves.Nothing) v, slots)) }
    ensures down { (shows : B → ℕ × contents) (n limit id : ℕ) (v : view) (slots : List (ℕ × Option B)) (u : word)
        (drop : dropped) (c count : ℕ)
        → v.active ≡ true → 0 < v.thread → MayLower n v.log drop c count
        → Allows (Kept shows n limit) n id (v, slots) (spot n u) (λ there. there)
        (λ there me. me ≡ (with_told (told.Stepped (steps.LocalDown drop) (count - 1) moves.Nothing) v, slots)) }
    ensures immortal_up { (shows : B → ℕ × contents) (n limit id : ℕ) (v : view) (slots : List (ℕ × Option B)) (u : word)
        (source : source) (k c : ℕ)
        → v.active ≡ true → 0 < v.thread → MayRaiseImmortal n v.log source k c
        → Allows (Kept shows n limit) n id (v, slots) (spot n u) (λ there. there)
        (λ there me. me ≡ (with_told (told.Stepped (steps.LocalUp source k) IMMORTAL_LOCAL moves.Nothing) v, slots)) }
    ensures immortal_down { (shows : B → ℕ × contents) (n limit id : ℕ) (v : view) (slots : List (ℕ × Option B)) (u : word)
        (drop : dropped) (c : ℕ)
        → v.active ≡ true → 0 < v.thread → MayLowerImmortal n v.log drop c
        → Allows (Kept shows n limit) n id (v, slots) (spot n u) (λ there. there)
        (λ there me. me ≡ (with_told (told.Stepped (steps.LocalDown drop) IMMORTAL_LOCAL moves.Nothing) v, slots)) }
{}

/// Who doesn't own counts on the shared word: up by an addition of 4, down by a compare-exchange of a word that says
/// default with a count above 0, which may be lost; and asks the owner to merge by setting the bit of queued.
#[tactic(auto, using(crate::proofs::steps::Shared_Steps::counts_up_shared, crate::proofs::steps::Shared_Steps::counts_down_shared, crate::proofs::steps::Shared_Steps::asks))]
pub fn others_count<B>()
    ensures up { (shows : B → ℕ × contents) (n limit id : ℕ) (v : view) (slots : List (ℕ × Option B))
        (source : source) (k c : ℕ)
        → v.active ≡ true → 0 < v.thread → c < n → MayRaiseShared n limit v.log source k c
        → Allows (Kept shows n limit) n id (v, slots) (spot n (words.Of fields.Shared c))
        (λ there. (there + ONE_COUNT) % WORD_LIMIT)
        (λ there me. me ≡ (with_told (told.Stepped (steps.SharedUp source k) there moves.Nothing) v, slots)) }
    ensures down { (shows : B → ℕ × contents) (n limit id : ℕ) (v : view) (slots : List (ℕ × Option B)) (drop : dropped)
        (c old : ℕ)
        → v.active ≡ true → 0 < v.thread → c < n → MayRelease n v.log (steps.SharedDown drop) c
        → old % ONE_COUNT ≡ 0 → NO_COUNT + ONE_COUNT ≤ old
        → Allows (Kept shows n limit) n id (v, slots) (spot n (words.Of fields.Shared c))
        (λ there. either (there == old) (old - ONE_COUNT) there)
        (λ there me. me ≡ (
          (if there == old then with_told (told.Stepped (steps.SharedDown drop) old moves.Nothing) v
              else with_told (told.Lost (words.Of fields.Shared c) there) v),
          slots,
        )) }
    ensures ask { (shows : B → ℕ × contents) (n limit id : ℕ) (v : view) (slots : List (ℕ × Option B))
        (drop : dropped) (c : ℕ)
        → v.active ≡ true → 0 < v.thread → c < n → MayRelease n v.log (steps.Ask drop) c
        → Allows (Kept shows n limit) n id (v, slots) (spot n (words.Of fields.Shared c))
        (λ there. bit_or there QUEUED_BITS)
        (λ there me. me ≡ (with_told (told.Stepped (steps.Ask drop) there moves.Nothing) v, slots)) }
{}

/// An object ends where the number found says so: the seat then has its block, with the contents that were in it.
#[tactic(auto, using(crate::proofs::steps::Ending_Steps::ends_at_zero, crate::proofs::steps::Ending_Steps::merges_at_zero, crate::proofs::steps::Ending_Steps::counts_last))]
pub fn objects_end<B>()
    ensures see_zero { (shows : B → ℕ × contents) (n limit id : ℕ) (v : view) (slots : List (ℕ × Option B)) (c : ℕ)
        → v.active ≡ true → 0 < v.thread → c < n → MayCarry n v.log (steps.SeeZero c) c
        → Allows (Kept shows n limit) n id (v, slots) (spot n (words.Of fields.Shared c)) (λ there. there)
        (λ there me. EndedObject shows n v slots (steps.SeeZero c) c there
        (takes_block (steps.SeeZero c) (cell_told (steps.SeeZero c) there)) me) }
    ensures merge_zero { (shows : B → ℕ × contents) (n limit id : ℕ) (v : view) (slots : List (ℕ × Option B)) (c : ℕ)
        → v.active ≡ true → 0 < v.thread → c < n → MayCarry n v.log (steps.MergeZero c) c
        → Allows (Kept shows n limit) n id (v, slots) (spot n (words.Of fields.Shared c))
        (λ there. bit_or there MERGED_BITS)
        (λ there me. EndedObject shows n v slots (steps.MergeZero c) c there
        (takes_block (steps.MergeZero c) (cell_told (steps.MergeZero c) there)) me) }
    ensures last_down { (shows : B → ℕ × contents) (n limit id : ℕ) (v : view) (slots : List (ℕ × Option B))
        (drop : dropped) (c : ℕ)
        → v.active ≡ true → 0 < v.thread → c < n → EndsRisen n v.log drop c
        → Allows (Kept shows n limit) n id (v, slots) (spot n (words.Of fields.Shared c))
        (λ there. (there + (WORD_LIMIT - ONE_COUNT)) % WORD_LIMIT)
        (λ there me. EndedObject shows n v slots (steps.LastDown (lasts.Dropped drop)) c there
        (takes_block (steps.LastDown (lasts.Dropped drop))
        (cell_told (steps.LastDown (lasts.Dropped drop)) there)) me) }
{}

/// A free cell, which is none of the thread's dead blocks, is claimed by taking its bit from the free word, which tells
/// whether it had it; its words are set by plain stores, and its birth puts the block home; its end gives the empty
/// slot back, and the bit.
#[tactic(auto, using(crate::proofs::steps::Making_Steps::claims_cell, crate::proofs::steps::Making_Steps::sets_local, crate::proofs::steps::Making_Steps::sets_shared, crate::proofs::steps::Making_Steps::bears_object, crate::proofs::steps::Making_Steps::frees_cell))]
pub fn cells_are_used_again<B>()
    ensures claim { (shows : B → ℕ × contents) (n limit id : ℕ) (v : view) (slots : List (ℕ × Option B)) (c : ℕ)
        → v.active ≡ true → 0 < v.thread → c < n → MayClaimCell n v.log c
        → Allows (Kept shows n limit) n id (v, slots) (spot n (words.FreeWord (c / 64)))
        (λ there. bit_and there (WORD_LIMIT - 1 - 2 ^ (c % 64)))
        (λ there me. Claimed n v slots c there (bit_at there (c % 64) == 1) me) }
    ensures init_local { (shows : B → ℕ × contents) (n limit id : ℕ) (v : view) (slots : List (ℕ × Option B)) (u : word) (c : ℕ)
        → v.active ≡ true → 0 < v.thread → MayCarry n v.log (steps.InitLocal c) c
        → Allows (Kept shows n limit) n id (v, slots) (spot n u) (λ there. there)
        (λ there me. me ≡ (with_told (told.Stepped (steps.InitLocal c) 1 moves.Nothing) v, slots)) }
    ensures init_shared { (shows : B → ℕ × contents) (n limit id : ℕ) (v : view) (slots : List (ℕ × Option B)) (c : ℕ)
        → v.active ≡ true → 0 < v.thread → c < n → MayCarry n v.log (steps.InitShared c) c
        → Allows (Kept shows n limit) n id (v, slots) (spot n (words.Of fields.Shared c)) (λ there. NO_COUNT)
        (λ there me. me ≡ (with_told (told.Stepped (steps.InitShared c) NO_COUNT moves.Nothing) v, slots)) }
    ensures birth { (shows : B → ℕ × contents) (n limit id : ℕ) (v : view) (rest : List (ℕ × Option B)) (block : B)
        (kind : kind) (k c : ℕ)
        → v.active ≡ true → 0 < v.thread → c < n → MayBear n v.log (shows block) kind k c
        → Allows (Kept shows n limit) n id (v, (c, Some block) ∷ rest) (spot n (words.Of fields.Owner c))
        (λ there. v.thread)
        (λ there me. me ≡ (
          with_told (told.Stepped (steps.Birth c kind k) v.thread (moves.Put c (shows block).1))
              v,
          rest,
        )) }
    ensures free { (shows : B → ℕ × contents) (n limit id : ℕ) (v : view) (rest : List (ℕ × Option B)) (c : ℕ)
        → v.active ≡ true → 0 < v.thread → c < n → MayCarry n v.log (steps.Free c) c
        → Allows (Kept shows n limit) n id (v, (c, None) ∷ rest) (spot n (words.FreeWord (c / 64)))
        (λ there. bit_or there (2 ^ (c % 64)))
        (λ there me. me ≡ (with_told (told.Stepped (steps.Free c) there moves.Nothing) v, rest)) }
{}

/// A lock is taken by a compare-exchange of 0, with the block and the contents that were put home last; its unlocking
/// puts the block home with those that the change makes of them.
#[tactic(auto, using(crate::proofs::steps::Locking_Steps::locks_cell, crate::proofs::steps::Locking_Steps::unlocks_cell))]
pub fn objects_are_locked<B>()
    ensures lock { (shows : B → ℕ × contents) (n limit id : ℕ) (v : view) (slots : List (ℕ × Option B)) (k c : ℕ)
        → v.active ≡ true → 0 < v.thread → c < n → MayCarry n v.log (steps.Lock k) c
        → Allows (Kept shows n limit) n id (v, slots) (spot n (words.Of fields.Mutex c))
        (λ there. either (there == 0) v.thread there)
        (λ there me. LockedOrBusy shows n v slots k c there (there == 0) me) }
    ensures unlock { (shows : B → ℕ × contents) (n limit id : ℕ) (v : view) (rest : List (ℕ × Option B)) (block : B)
        (found : contents) (change : change) (c : ℕ)
        → v.active ≡ true → 0 < v.thread → c < n → MayUnlock n v.log (shows block) found change c
        → Allows (Kept shows n limit) n id (v, (c, Some block) ∷ rest) (spot n (words.Of fields.Mutex c)) (λ there. 0)
        (λ there me. me ≡ (with_told (told.Stepped (steps.Unlock change) 0 (moves.Put c (shows block).1)) v, rest)) }
{}

/// A thread takes the bits of its own queue words, which are cells of the heap, closes them, opens them again where its
/// number is used again, tells another that it should drain, and takes what it was told.
#[tactic(auto, using(crate::proofs::steps::Queue_Steps::drains, crate::proofs::steps::Queue_Steps::closes, crate::proofs::steps::Queue_Steps::reopens, crate::proofs::steps::Queue_Steps::nudges, crate::proofs::steps::Queue_Steps::wakes))]
pub fn queues_are_drained<B>()
    ensures drain { (shows : B → ℕ × contents) (n limit id : ℕ) (v : view) (slots : List (ℕ × Option B)) (k : ℕ)
        → v.active ≡ true → 0 < v.thread → v.thread ≤ MOST_THREADS → k < words_for n → MayStep n v.log (steps.Drain k)
        → Allows (Kept shows n limit) n id (v, slots) (spot n (words.Queue v.thread k)) (λ there. 0)
        (λ there me. (me ≡ (with_told (told.Stepped (steps.Drain k) there moves.Nothing) v, slots))
        × AreQueued n k there) }
    ensures close { (shows : B → ℕ × contents) (n limit id : ℕ) (v : view) (slots : List (ℕ × Option B)) (k : ℕ)
        → v.active ≡ true → 0 < v.thread → v.thread ≤ MOST_THREADS → k < words_for n → MayClose n v.log k
        → Allows (Kept shows n limit) n id (v, slots) (spot n (words.Queue v.thread k))
        (λ there. bit_or there CLOSED_BIT)
        (λ there me. (me ≡ (with_told (told.Stepped (steps.Close k) there moves.Nothing) v, slots))
        × AreQueued n k there) }
    ensures reopen { (shows : B → ℕ × contents) (n limit id : ℕ) (v : view) (slots : List (ℕ × Option B)) (k : ℕ)
        → v.active ≡ true → 0 < v.thread → v.thread ≤ MOST_THREADS → k < words_for n → MayStep n v.log (steps.Reopen k)
        → Allows (Kept shows n limit) n id (v, slots) (spot n (words.Queue v.thread k)) (λ there. 0)
        (λ there me. me ≡ (with_told (told.Stepped (steps.Reopen k) 0 moves.Nothing) v, slots)) }
    ensures nudge { (shows : B → ℕ × contents) (n limit id : ℕ) (v : view) (slots : List (ℕ × Option B)) (q k : ℕ)
        → v.active ≡ true → 0 < v.thread → MayNudge n v.log q k
        → Allows (Kept shows n limit) n id (v, slots) (spot n (words.NotifyWord q))
        (λ there. bit_or there (2 ^ (k / 32)))
        (λ there me. me ≡ (with_told (told.Stepped (steps.Nudge q k) there moves.Nothing) v, slots)) }
    ensures wake { (shows : B → ℕ × contents) (n limit id : ℕ) (v : view) (slots : List (ℕ × Option B))
        → v.active ≡ true → 0 < v.thread → v.thread ≤ MOST_THREADS → MayStep n v.log steps.Wake
        → Allows (Kept shows n limit) n id (v, slots) (spot n (words.NotifyWord v.thread)) (λ there. 0)
        (λ there me. me ≡ (with_told (told.Stepped steps.Wake there moves.Nothing) v, slots)) }
{}

/// A registered thread's seat is split off the root's; that of a thread that has left is joined to it, and its log is
/// kept.
#[tactic(auto, using(crate::proofs::steps::Root_Steps::splits, crate::proofs::steps::Root_Steps::joins))]
pub fn threads_come_and_go<B>()
    ensures register { (shows : B → ℕ × contents) (n limit id : ℕ) (v : view) → MayRegister v
        → Splits (Kept shows n limit) id v (registering v) (starting v) }
    ensures gather { (shows : B → ℕ × contents) (n limit id : ℕ) (v : view) (other : ℕ) (w : view)
        → v.active ≡ true → v.thread ≡ 0 → HasLeft n w
        → Joins (Kept shows n limit) id v other w (gathering v w) spent }
{}

/// The last reference that went through a merge queue goes: a popped bit of an object that was looked at and merged, or
/// that the thread has just merged itself, or any that is left to a thread which isn't active any more; the hand's that
/// met a closed queue word, or the hand's of an object that was looked at and is nobody's.
#[tactic(auto, using(crate::proofs::steps::Last_Steps::ends_popped, crate::proofs::steps::Last_Steps::ends_added, crate::proofs::steps::Last_Steps::ends_left, crate::proofs::steps::Last_Steps::ends_shut, crate::proofs::steps::Last_Steps::ends_nobodys))]
pub fn queued_references_end<B>()
    ensures popped { (shows : B → ℕ × contents) (n limit id : ℕ) (v : view) (slots : List (ℕ × Option B)) (c number : ℕ)
        → v.active ≡ true → 0 < v.thread → c < n → EndsPopped n v.log c number
        → Allows (Kept shows n limit) n id (v, slots) (spot n (words.Of fields.Shared c))
        (λ there. (there + (WORD_LIMIT - ONE_COUNT)) % WORD_LIMIT)
        (λ there me. EndedObject shows n v slots (steps.LastDown (lasts.Popped c)) c there
        (takes_block (steps.LastDown (lasts.Popped c)) (cell_told (steps.LastDown (lasts.Popped c)) there)) me) }
    ensures added { (shows : B → ℕ × contents) (n limit id : ℕ) (v : view) (slots : List (ℕ × Option B)) (c : ℕ)
        → v.active ≡ true → 0 < v.thread → c < n → EndsAdded n v.log c
        → Allows (Kept shows n limit) n id (v, slots) (spot n (words.Of fields.Shared c))
        (λ there. (there + (WORD_LIMIT - ONE_COUNT)) % WORD_LIMIT)
        (λ there me. EndedObject shows n v slots (steps.LastDown (lasts.Popped c)) c there
        (takes_block (steps.LastDown (lasts.Popped c)) (cell_told (steps.LastDown (lasts.Popped c)) there)) me) }
    ensures left { (shows : B → ℕ × contents) (n limit id : ℕ) (v : view) (slots : List (ℕ × Option B)) (c : ℕ)
        → v.active ≡ true → 0 < v.thread → c < n → EndsLeft n v.log c
        → Allows (Kept shows n limit) n id (v, slots) (spot n (words.Of fields.Shared c))
        (λ there. (there + (WORD_LIMIT - ONE_COUNT)) % WORD_LIMIT)
        (λ there me. EndedObject shows n v slots (steps.LastDown (lasts.Popped c)) c there
        (takes_block (steps.LastDown (lasts.Popped c)) (cell_told (steps.LastDown (lasts.Popped c)) there)) me) }
    ensures shut { (shows : B → ℕ × contents) (n limit id : ℕ) (v : view) (slots : List (ℕ × Option B)) (c : ℕ)
        → v.active ≡ true → 0 < v.thread → c < n → EndsShut n v.log c
        → Allows (Kept shows n limit) n id (v, slots) (spot n (words.Of fields.Shared c))
        (λ there. (there + (WORD_LIMIT - ONE_COUNT)) % WORD_LIMIT)
        (λ there me. EndedObject shows n v slots (steps.LastDown lasts.Hand) c there
        (takes_block (steps.LastDown lasts.Hand) (cell_told (steps.LastDown lasts.Hand) there)) me) }
    ensures nobodys { (shows : B → ℕ × contents) (n limit id : ℕ) (v : view) (slots : List (ℕ × Option B)) (c : ℕ)
        → v.active ≡ true → 0 < v.thread → c < n → EndsNobodys n v.log c
        → Allows (Kept shows n limit) n id (v, slots) (spot n (words.Of fields.Shared c))
        (λ there. (there + (WORD_LIMIT - ONE_COUNT)) % WORD_LIMIT)
        (λ there me. EndedObject shows n v slots (steps.LastDown lasts.Hand) c there
        (takes_block (steps.LastDown lasts.Hand) (cell_told (steps.LastDown lasts.Hand) there)) me) }
{}

/// A thread that will hand over an own object, which it counts, says so: the object counts as asked for.
#[tactic(auto, using(crate::proofs::steps::Offering_Steps::offers_own))]
pub fn objects_are_offered<B>()
    ensures { (shows : B → ℕ × contents) (n limit id : ℕ) (v : view) (slots : List (ℕ × Option B)) (c : ℕ)
        → v.active ≡ true → 0 < v.thread → c < n → Offers n v.log c
        → Allows (Kept shows n limit) n id (v, slots) (spot n (words.Of fields.Shared c))
        (λ there. bit_or there QUEUED_BITS)
        (λ there me. me ≡ (with_told (told.Stepped (steps.Offer c) there moves.Nothing) v, slots)) }
{}

/// Who merges an object first stores that it is nobody's: at local count 0, to hand it over, or for a popped entry; and
/// then adds the local count that it has looked at. One that is handed over may end with that.
#[tactic(auto, using(crate::proofs::steps::Untying_Steps::unties_over, crate::proofs::steps::Untying_Steps::unties_offered, crate::proofs::steps::Untying_Steps::unties_popped, crate::proofs::steps::Adding_Steps::adds_local, crate::proofs::steps::Adding_Steps::yields_local))]
pub fn objects_are_merged<B>()
    ensures over { (shows : B → ℕ × contents) (n limit id : ℕ) (v : view) (slots : List (ℕ × Option B)) (c : ℕ)
        → v.active ≡ true → 0 < v.thread → c < n → UntiesOver n v.log c
        → Allows (Kept shows n limit) n id (v, slots) (spot n (words.Of fields.Owner c)) (λ there. 0)
        (λ there me. me ≡ (with_told (told.Stepped (steps.Untie c) 0 moves.Nothing) v, slots)) }
    ensures offered { (shows : B → ℕ × contents) (n limit id : ℕ) (v : view) (slots : List (ℕ × Option B)) (c : ℕ)
        → v.active ≡ true → 0 < v.thread → c < n → UntiesOffered n v.log c
        → Allows (Kept shows n limit) n id (v, slots) (spot n (words.Of fields.Owner c)) (λ there. 0)
        (λ there me. me ≡ (with_told (told.Stepped (steps.Untie c) 0 moves.Nothing) v, slots)) }
    ensures popped { (shows : B → ℕ × contents) (n limit id : ℕ) (v : view) (slots : List (ℕ × Option B)) (c number : ℕ)
        → v.active ≡ true → 0 < v.thread → c < n → UntiesPopped n v.log c number
        → Allows (Kept shows n limit) n id (v, slots) (spot n (words.Of fields.Owner c)) (λ there. 0)
        (λ there me. me ≡ (with_told (told.Stepped (steps.Untie c) 0 moves.Nothing) v, slots)) }
    ensures add { (shows : B → ℕ × contents) (n limit id : ℕ) (v : view) (slots : List (ℕ × Option B)) (c local : ℕ)
        → v.active ≡ true → 0 < v.thread → c < n → AddsLocal n v.log c local
        → Allows (Kept shows n limit) n id (v, slots) (spot n (words.Of fields.Shared c))
        (λ there. (there + (local * ONE_COUNT + 1)) % WORD_LIMIT)
        (λ there me. (me ≡ (
          with_told (told.Stepped (steps.MergeAdd c) ((there + (local * ONE_COUNT + 1)) % WORD_LIMIT) moves.Nothing)
              v,
          slots,
        )) × CountsSome ((there + (local * ONE_COUNT + 1)) % WORD_LIMIT)) }
    ensures yields { (shows : B → ℕ × contents) (n limit id : ℕ) (v : view) (slots : List (ℕ × Option B)) (c local : ℕ)
        → v.active ≡ true → 0 < v.thread → c < n → MayYield n v.log c local
        → Allows (Kept shows n limit) n id (v, slots) (spot n (words.Of fields.Shared c))
        (λ there. (there + (local * ONE_COUNT + 1)) % WORD_LIMIT)
        (λ there me. EndedObject shows n v slots (steps.MergeAdd c) c ((there + (local * ONE_COUNT + 1)) % WORD_LIMIT)
        (takes_block (steps.MergeAdd c)
        (cell_told (steps.MergeAdd c) ((there + (local * ONE_COUNT + 1)) % WORD_LIMIT))) me) }
{}

/// An asked reference goes into the merge queue of the thread that was found as the owner, or meets a closed word.
#[tactic(auto, using(crate::proofs::steps::Queueing_Steps::enqueues))]
pub fn asked_references_are_queued<B>()
    ensures { (shows : B → ℕ × contents) (n limit id : ℕ) (v : view) (slots : List (ℕ × Option B)) (c q : ℕ)
        → v.active ≡ true → 0 < v.thread → c < n → Enqueues n v.log c q
        → Allows (Kept shows n limit) n id (v, slots) (spot n (words.Queue q (c / 32)))
        (λ there. bit_or there (2 ^ (c % 32)))
        (λ there me. me ≡ (with_told (told.Stepped (steps.Enqueue c) there moves.Nothing) v, slots)) }
{}
