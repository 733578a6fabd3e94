//! `print`: what an object is and holds, as a value.

ghost use Rattle.std.specs.Prelude.{◌≡◌, ◌≢◌, ℕ, List, Option, Some, IfErr};
ghost use Rattle.brc_words.specs.declared.fault.Fault.TheVariants as faults;
ghost use Rattle.brc_count.specs.Frames.{IsUnlocked, Owns};
ghost use Rattle.brc_count.specs.Owned.{Keeps};
ghost use Rattle.brc_meaning.specs.declared.state.State.{State as state};
ghost use Rattle.brc_count.specs.law.living.Living.{OwnLog};
ghost use Rattle.brc_count.specs.law.living.Later.{IsLater};
ghost use Rattle.brc_count.specs.Frames.{HandleSeen as handle_seen};
ghost use Rattle.brc_handles.specs.Handles.{slot};
ghost use Rattle.law_isolation.specs.Means.{Means};
ghost use Rattle.brc_instructions.specs.Causes.{WantsNoRoom};
ghost use Rattle.brc_instructions.specs.Printing.{ShownAs};

use crate::shown::Shown;
use brc_count::biased::HasTable;
use brc_count::{Frame, Handle};
use brc_heap::{bytes_of, int_of, kind_of, len_of};
use brc_words::{Fault, Kind};
use std::alloc::Allocator;
use std::sync::Wait;

/// What the object shows. Its kind is read first, which never changes. None, False and True are made by no instruction,
/// and are the wrong kind.
pub(crate) fn show<R: Wait, H: HasTable<A>, A: Allocator>(
    rt: &R,
    alloc: A,
    frame: &mut Frame<H, A>,
    handle: &Handle<A>,
) -> Result<Shown<A>, Fault>
    requires owned { Owns frame.old handle.now }
    requires unlocked { IsUnlocked frame.old }
    ensures keeps { Keeps frame.old frame.new }
    ensures unlocked { IsUnlocked frame.new }
    ensures waits { IfErr result (λ fault. fault ≢ faults.Busy) }
    ensures later { IsLater frame.old.seat.log frame.new.seat.log }
    ensures room { IfErr result WantsNoRoom }
    ensures shows { (base : ℕ) (registers : List (Option handle_seen)) (r : ℕ) (s : state A)
        → OwnLog frame.new.heap.cells frame.new.seat.log
        → slot registers r ≡ Some handle.now → Means base frame.old registers s
        → Means base frame.new registers s × ShownAs r s result }
{
    match kind_of(rt, frame, handle) {
        Kind::Int => Ok(Shown::Integer(int_of(rt, frame, handle)?)),
        Kind::Text => Ok(Shown::Text(bytes_of(rt, alloc, frame, handle)?)),
        Kind::List => Ok(Shown::List(len_of(rt, frame, handle)?)),
        Kind::Dict => Ok(Shown::Dict(len_of(rt, frame, handle)?)),
        Kind::Mailbox => Ok(Shown::Mailbox(len_of(rt, frame, handle)?)),
        Kind::Nothing | Kind::False | Kind::True => Err(Fault::WrongKind),
    }
}
