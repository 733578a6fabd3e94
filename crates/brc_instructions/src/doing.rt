//! What an instruction does, said once for all kinds.

ghost use Rattle.std.specs.Prelude.{◌≡◌, ◌≢◌, IfErr};
ghost use Rattle.brc_words.specs.declared.fault.Fault.TheVariants as faults;
ghost use Rattle.brc_count.specs.law.living.Later.{IsLater};
ghost use Rattle.brc_instructions.specs.Doing.{Refusing, Telling};
ghost use Rattle.brc_instructions.specs.Registers.{OwnsRegisters};

use crate::registers::Registers;
use brc_count::Frame;
use brc_count::biased::HasTable;
use brc_words::Fault;
use std::alloc::Allocator;
use std::sync::Wait;

/// That something was done, or why not.
pub type Done = Result<(), Fault>;

/// An instruction that prints nothing, with its registers and what else its line has.
pub trait Execute<R: Wait, H: HasTable<A>, A: Allocator + Copy> {
    // where it leads, by its plain meaning
    ghost follows: { Self → Telling A };

    // why it is refused so
    ghost why: { Self → Refusing A };

    /// Does it. Before and afterwards the frame has the handle of each register that isn't empty, and no other. It waits
    /// while another thread has an object locked, so it never answers Busy.
    fn act(&self, rt: &R, alloc: A, frame: &mut Frame<H, A>, registers: &mut Registers<A>) -> Done
        requires stands { OwnsRegisters frame.old registers.old }
        ensures stands { OwnsRegisters frame.new registers.new }
        ensures heap { frame.new.heap ≡ frame.old.heap }
        ensures waits { IfErr result (λ fault. fault ≢ faults.Busy) }
        ensures later { IsLater frame.old.seat.log frame.new.seat.log }
        ensures why { IfErr result (why self.now frame.old frame.new) }
        ensures follows { follows self.now frame.old frame.new registers.old registers.new result };
}
