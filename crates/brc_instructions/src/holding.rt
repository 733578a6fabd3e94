//! Handles into registers.

ghost use Rattle.std.specs.Prelude.{◌≡◌, ℕ, Some};
ghost use Rattle.brc_meaning.specs.declared.state.State.{State as state};
ghost use Rattle.brc_meaning.specs.declared.reference.Reference.{Reference as reference};
ghost use Rattle.brc_count.specs.law.living.Living.{OwnLog};
ghost use Rattle.brc_count.specs.law.living.Quiet.{Quietly};
ghost use Rattle.brc_meaning.specs.States.{with_register};
ghost use Rattle.law_isolation.specs.Means.{Means, MeansBesides};
ghost use Rattle.brc_instructions.specs.Registers.{OwnsRegisters, OwnsRegistersBeside};

use crate::registers::Registers;
use brc_count::biased::HasTable;
use brc_count::{Frame, Handle};
use brc_script::Register;
use std::alloc::Allocator;

/// The register has this handle from now on; what it had is released.
#[inline(always)]
pub(crate) fn hold<H: HasTable<A>, A: Allocator>(
    frame: &mut Frame<H, A>,
    registers: &mut Registers<A>,
    to: Register,
    handle: Handle<A>,
)
    requires besides { OwnsRegistersBeside frame.old registers.old handle }
    ensures stands { OwnsRegisters frame.new registers.new }
    ensures heap { frame.new.heap ≡ frame.old.heap }
    ensures quiet { Quietly frame.old.seat.log frame.new.seat.log }
    ensures means { (base : ℕ) (s : state A) (reference : reference) → OwnLog frame.new.heap.cells frame.new.seat.log
        → MeansBesides base frame.old registers.old s handle reference
        → Means base frame.new registers.new (with_register to (Some reference) s) }
{
    if let Some(old) = registers.put(to, handle) {
        frame.release(old);
    }
}
