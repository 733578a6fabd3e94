//! What a container gives: the reference of an entry.

ghost use Rattle.std.specs.Prelude.{◌≡◌, ◌≢◌, ℕ, List, Option, Some, IfOk, IfErr, OnErr};
ghost use Rattle.brc_words.specs.declared.fault.Fault.TheVariants as faults;
ghost use Rattle.brc_count.specs.Frames.{HandleSeen as handle_seen, IsUnlocked, Owns};
ghost use Rattle.brc_count.specs.Owned.{Keeps, Gains};
ghost use Rattle.brc_handles.specs.Handles.{slot};
ghost use Rattle.brc_meaning.specs.declared.state.State.{State as state};
ghost use Rattle.brc_count.specs.law.living.Living.{OwnLog};
ghost use Rattle.brc_count.specs.law.living.Later.{IsLater};
ghost use Rattle.law_isolation.specs.Calls.{HandsMeant};
ghost use Rattle.law_isolation.specs.Means.{Means};
ghost use Rattle.brc_instructions.specs.Calls.{given_by};
ghost use Rattle.brc_instructions.specs.Causes.{Caused};

use brc_count::biased::HasTable;
use brc_count::{Frame, Handle};
use brc_heap::{dict_del, dict_find, list_get, list_pop, recv};
use brc_words::{Fault, Key};
use std::alloc::Allocator;
use std::sync::Wait;

/// Which reference a container gives, and whether the entry stays.
#[derive(Drop)]
pub enum TakingOut<'k, A: Allocator> {
    /// `pop`: a list's last entry comes out.
    Pop,
    /// `get`: the entry of a list at this place stays.
    Get(u32),
    /// `recv`: a mailbox's first letter comes out.
    Receive,
    /// `find`: a dictionary's value beside the key stays.
    Find(&'k Key<A>),
    /// `del`: it comes out, and its pair goes.
    Delete(&'k Key<A>),
}

/// What the object's call gives.
#[inline(always)]
pub(crate) fn take_out<R: Wait, H: HasTable<A>, A: Allocator>(
    rt: &R,
    frame: &mut Frame<H, A>,
    object: &Handle<A>,
    giving: &TakingOut<'_, A>,
) -> Result<Handle<A>, Fault>
    requires owned { Owns frame.old object.now }
    requires unlocked { IsUnlocked frame.old }
    ensures gains { IfOk result (Gains frame.old frame.new) }
    ensures keeps { OnErr result (Keeps frame.old frame.new) }
    ensures unlocked { IsUnlocked frame.new }
    ensures waits { IfErr result (λ fault. fault ≢ faults.Busy) }
    ensures later { IsLater frame.old.seat.log frame.new.seat.log }
    ensures caused { IfErr result (Caused frame.old frame.new) }
    ensures means { (base r : ℕ) (registers : List (Option handle_seen)) (s : state A)
        → OwnLog frame.new.heap.cells frame.new.seat.log
        → slot registers r ≡ Some object.now → Means base frame.old registers s
        → HandsMeant (given_by giving.now) r base frame.new registers s result }
{
    match giving {
        TakingOut::Pop => list_pop(rt, frame, object),
        TakingOut::Get(index) => list_get(rt, frame, object, *index),
        TakingOut::Receive => recv(rt, frame, object),
        TakingOut::Find(key) => dict_find(rt, frame, object, *key),
        TakingOut::Delete(key) => dict_del(rt, frame, object, *key),
    }
}
