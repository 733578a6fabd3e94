//! What the globals give and take: one try each.

ghost use Rattle.std.specs.Prelude.{◌≡◌, ◌≢◌, MatchOption, IfOk, IfErr, OnErr};
ghost use Rattle.brc_words.specs.declared.fault.Fault.TheVariants as faults;
ghost use Rattle.brc_count.specs.Frames.{IsUnlocked};
ghost use Rattle.brc_count.specs.Owned.{Keeps, Gains};
ghost use Rattle.brc_count.specs.law.living.Later.{IsLater};
ghost use Rattle.brc_instructions.specs.Registers.{OwnsRegisters, OwnsRegistersBeside};

use crate::registers::Registers;
use crate::taking_out::{TakingOut, take_out};
use brc_count::biased::HasTable;
use brc_count::{Frame, HandedBack, Handle};
use brc_heap::dict_put;
use brc_words::{Fault, GLOBALS, Key};
use std::alloc::Allocator;
use std::sync::Wait;

/// What the globals give.
pub(crate) fn given_by_globals<R: Wait, H: HasTable<A>, A: Allocator>(
    rt: &R,
    frame: &mut Frame<H, A>,
    giving: &TakingOut<'_, A>,
) -> Result<Handle<A>, Fault>
    requires unlocked { IsUnlocked frame.old }
    ensures gains { IfOk result (Gains frame.old frame.new) }
    ensures keeps { OnErr result (Keeps frame.old frame.new) }
    ensures unlocked { IsUnlocked frame.new }
    ensures waits { IfErr result (λ fault. fault ≢ faults.Busy) }
    ensures later { IsLater frame.old.seat.log frame.new.seat.log }
{
    let globals = frame.immortal(GLOBALS)?;
    let found = take_out(rt, frame, &globals, giving);
    frame.release(globals);
    found
}

/// The handle goes under the name, and what had it comes out; or the handle is handed back.
pub(crate) fn taken_by_globals<R: Wait, H: HasTable<A>, A: Allocator + Copy>(
    rt: &R,
    frame: &mut Frame<H, A>,
    registers: &Registers<A>,
    name: Key<A>,
    given: Handle<A>,
) -> Result<Option<Handle<A>>, HandedBack<Handle<A>>>
    requires besides { OwnsRegistersBeside frame.old registers.now given }
    ensures old { IfOk result (λ answer. MatchOption answer
        (OwnsRegisters frame.new registers.now) (OwnsRegistersBeside frame.new registers.now)) }
    ensures back { IfErr result (λ handed. OwnsRegistersBeside frame.new registers.now handed.value) }
    ensures heap { frame.new.heap ≡ frame.old.heap }
    ensures waits { IfErr result (λ handed. handed.fault ≢ faults.Busy) }
    ensures later { IsLater frame.old.seat.log frame.new.seat.log }
{
    let globals = match frame.immortal(GLOBALS) {
        Ok(globals) => globals,
        Err(fault) => return Err(HandedBack {
            fault,
            value: given,
        }),
    };
    match dict_put(rt, frame, &globals, name, given) {
        Ok(old) => {
            frame.release(globals);
            Ok(old)
        }
        Err(
            HandedBack {
                fault,
                value: (_name, back),
            },
        ) => {
            frame.release(globals);
            Err(HandedBack { fault, value: back })
        }
    }
}
