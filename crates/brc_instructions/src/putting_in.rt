//! What a container takes: the reference of a value, out of its register.

ghost use Rattle.std.specs.Prelude.{◌≡◌, ◌≢◌, ℕ, MatchOption, IfOk, IfErr};
ghost use Rattle.brc_words.specs.declared.fault.Fault.TheVariants as faults;
ghost use Rattle.brc_meaning.specs.declared.state.State.{State as state};
ghost use Rattle.brc_meaning.specs.declared.reference.Reference.{Reference as reference};
ghost use Rattle.brc_count.specs.law.living.Living.{OwnLog};
ghost use Rattle.brc_count.specs.law.living.Later.{IsLater};
ghost use Rattle.law_isolation.specs.Asked.{PutsAsked};
ghost use Rattle.law_isolation.specs.Means.{MeansBesides};
ghost use Rattle.brc_instructions.specs.Calls.{taken_by};
ghost use Rattle.brc_instructions.specs.Causes.{WantsNoRoom};
ghost use Rattle.brc_instructions.specs.Registers.{OwnsRegisters, OwnsRegistersBeside};

use crate::registers::Registers;
use brc_count::biased::HasTable;
use brc_count::{Frame, HandedBack, Handle};
use brc_heap::{KeyRef, dict_set, list_push, list_set, send};
use brc_script::Register;
use brc_words::{Fault, Key};
use std::alloc::Allocator;
use std::sync::Wait;

/// Where a container takes a reference, and so what it answers: nothing, or what was there.
#[derive(Drop)]
pub enum Putting<'k, A: Allocator> {
    /// `push`: it becomes a list's last entry.
    Push,
    /// `set`: it takes the place of a list's entry, which comes out.
    Set(u32),
    /// `send`: it becomes a mailbox's last letter.
    Send,
    /// `put`: it goes beside the key in a dictionary, and what was there comes out.
    Put(&'k Key<A>),
}

/// The value, which is out of its register, goes by the call, and what was there comes out; or it is handed back.
#[inline(always)]
pub(crate) fn put_in<R: Wait, H: HasTable<A>, A: Allocator + Copy>(
    rt: &R,
    alloc: A,
    frame: &mut Frame<H, A>,
    registers: &Registers<A>,
    container: Register,
    taking: &Putting<'_, A>,
    given: Handle<A>,
) -> Result<Option<Handle<A>>, HandedBack<Handle<A>>>
    requires besides { OwnsRegistersBeside frame.old registers.now given }
    ensures old { IfOk result (λ answer. MatchOption answer
        (OwnsRegisters frame.new registers.now) (OwnsRegistersBeside frame.new registers.now)) }
    ensures back { IfErr result (λ handed. OwnsRegistersBeside frame.new registers.now handed.value) }
    ensures heap { frame.new.heap ≡ frame.old.heap }
    ensures waits { IfErr result (λ handed. handed.fault ≢ faults.Busy) }
    ensures same { IfErr result (λ handed. handed.value ≡ given) }
    ensures later { IsLater frame.old.seat.log frame.new.seat.log }
    ensures room { IfErr result (λ handed. WantsNoRoom handed.fault) }
    ensures asked { (base : ℕ) (s : state A) (reference : reference) → OwnLog frame.new.heap.cells frame.new.seat.log
        → MeansBesides base frame.old registers.now s given reference
        → PutsAsked (taken_by taking.now reference) container base frame.new registers.now s given reference result }
{
    let Some(object) = registers.get(container) else {
        return Err(HandedBack {
            fault: Fault::NoSuchPlace,
            value: given,
        });
    };
    match taking {
        Putting::Push => match list_push(rt, frame, object, given) {
            Ok(()) => Ok(None),
            Err(handed) => Err(handed),
        },
        Putting::Set(index) => match list_set(rt, frame, object, *index, given) {
            Ok(old) => Ok(Some(old)),
            Err(handed) => Err(handed),
        },
        Putting::Send => match send(rt, frame, object, given) {
            Ok(()) => Ok(None),
            Err(handed) => Err(handed),
        },
        Putting::Put(key) => match dict_set(rt, alloc, frame, object, KeyRef::of(*key), given) {
            Ok(old) => Ok(old),
            Err(handed) => Err(handed),
        },
    }
}
