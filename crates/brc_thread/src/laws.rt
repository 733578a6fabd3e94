//! The law of handles, and what `Rest` gives, as contracts of functions with nothing to do.

ghost use Rattle.std.specs.Prelude.{◌≡◌, ℕ, List, [], ◌∷◌, Option, Some};
ghost use Rattle.brc_count.specs.block.declared.payload.Payload.{Payload};
ghost use Rattle.brc_count.specs.law.declared.rule.told.LogItem.{LogItem as told_data};
ghost use Rattle.brc_count.specs.law.rule.Logs.{Run};
ghost use Rattle.brc_count.specs.table.Rest.{from_block};
ghost use Rattle.brc_thread.specs.Emptied.{blocks_in};
ghost use Rattle.brc_count.specs.table.Seated.{TableSeen};
ghost use Rattle.brc_count.specs.Frames.{FrameSeen, HandleSeen};
ghost use Rattle.brc_thread.specs.Handed.{IsHeldHandle, OwnsIn, Next, Spares};

use std::alloc::Allocator;

/// While a frame owns a handle, from the step that gave it to the one that spends it, no step of any thread at the
/// handle's heap gives its cell back, and none bears another object there: so what the handle names is one object, and
/// its memory is there (PEP 703, "Biased Reference Counting"). It is said of any number of heaps: a handle of another
/// heap is owned by no frame of this one.
#[tactic(auto, using(crate::proofs::Handed::held_where_owned, crate::proofs::Handed::spared))]
pub fn handles_keep_their_objects<A: Allocator>()
    ensures held { (runs : TableSeen → Run) (frame : FrameSeen A) (handle : HandleSeen) (c : ℕ)
        → OwnsIn runs frame handle c → IsHeldHandle runs handle c }
    ensures kept { (runs : TableSeen → Run) (handle : HandleSeen) (c u : ℕ) (told : told_data)
        → IsHeldHandle runs handle c → Next handle.heap (runs handle.heap) u told → Spares c told }
{}

/// By what `Rest::next` answers, it gives the blocks in the slots one after the other, each once, and then nothing.
#[tactic(auto, using(crate::proofs::At_Home::gives_next, crate::proofs::At_Home::gives_none))]
pub fn rest_gives_every_block<A: Allocator>()
    ensures next { (slots others : List (Option (ℕ × Payload A))) (block : ℕ × Payload A)
        → from_block slots ≡ Some block ∷ others → blocks_in slots ≡ block ∷ blocks_in others }
    ensures ended { (slots : List (Option (ℕ × Payload A))) → from_block slots ≡ [] → blocks_in slots ≡ [] }
{}
