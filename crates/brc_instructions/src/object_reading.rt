//! What an instruction reads of objects, said once for all kinds: the number of an integer, the sum of two, and what
//! `print` shows.

ghost use Rattle.std.specs.Prelude.{◌≡◌, ◌≢◌, IfErr};
ghost use Rattle.brc_words.specs.declared.fault.Fault.TheVariants as faults;
ghost use Rattle.brc_meaning.specs.Objects.{number_in};
ghost use Rattle.brc_count.specs.law.living.Later.{IsLater};
ghost use Rattle.law_isolation.specs.Asked.{read as read_off, summed};
ghost use Rattle.brc_instructions.specs.Causes.{WantsNoRoom};
ghost use Rattle.brc_instructions.specs.Doing.{Reading, ReadsAs};
ghost use Rattle.brc_instructions.specs.Printing.{PrintsFrom};
ghost use Rattle.brc_instructions.specs.Registers.{OwnsRegisters};

use crate::printing::show;
use crate::registers::Registers;
use crate::shown::Shown;
use brc_count::Frame;
use brc_count::biased::HasTable;
use brc_heap::int_of;
use brc_script::Register;
use brc_words::Fault;
use std::alloc::Allocator;
use std::sync::Wait;

/// What an instruction reads of objects, of type `T`.
pub trait Reads<T, R: Wait, H: HasTable<A>, A: Allocator + Copy> {
    // what it finds, by its plain meaning
    ghost finds: { Self → Reading T A };

    /// Reads it. No register changes. It waits while another thread has an object locked, so it never answers Busy, and
    /// it wants neither a cell nor a place nor a birth.
    fn read(
        &self,
        rt: &R,
        alloc: A,
        frame: &mut Frame<H, A>,
        registers: &Registers<A>,
    ) -> Result<T, Fault>
        requires stands { OwnsRegisters frame.old registers.now }
        ensures stands { OwnsRegisters frame.new registers.now }
        ensures heap { frame.new.heap ≡ frame.old.heap }
        ensures waits { IfErr result (λ fault. fault ≢ faults.Busy) }
        ensures later { IsLater frame.old.seat.log frame.new.seat.log }
        ensures room { IfErr result WantsNoRoom }
        ensures finds { finds self.now frame.old frame.new registers.now result };
}

/// The number of the register's integer.
#[derive(Clone, Copy)]
struct NumberOf {
    from: Register,
}

impl<R: Wait, H: HasTable<A>, A: Allocator + Copy> Reads<i64, R, H, A> for NumberOf {
    ghost finds = { λ it. ReadsAs (read_off number_in it.from) };

    fn read(
        &self,
        rt: &R,
        _alloc: A,
        frame: &mut Frame<H, A>,
        registers: &Registers<A>,
    ) -> Result<i64, Fault> {
        let Some(handle) = registers.get(self.from) else {
            return Err(Fault::NoSuchPlace);
        };
        int_of(rt, frame, handle)
    }
}

/// The sum of the numbers of two integers; Overflow where it is past what an integer can be.
#[derive(Clone, Copy)]
pub(crate) struct Sum {
    pub(crate) first: Register,
    pub(crate) second: Register,
}

impl<R: Wait, H: HasTable<A>, A: Allocator + Copy> Reads<i64, R, H, A> for Sum {
    ghost finds = { λ it. ReadsAs (summed it.first it.second) };

    fn read(
        &self,
        rt: &R,
        alloc: A,
        frame: &mut Frame<H, A>,
        registers: &Registers<A>,
    ) -> Result<i64, Fault> {
        // Both registers are looked at before either kind is.
        if registers.get(self.first).is_none() || registers.get(self.second).is_none() {
            return Err(Fault::NoSuchPlace);
        }
        let first = NumberOf { from: self.first };
        let number = first.read(rt, alloc, frame, registers)?;
        let second = NumberOf { from: self.second };
        let more = second.read(rt, alloc, frame, registers)?;
        match number.checked_add(more) {
            Some(sum) => Ok(sum),
            None => Err(Fault::Overflow),
        }
    }
}

/// `print`: what the register's object shows.
#[derive(Clone, Copy)]
pub struct Print {
    pub from: Register,
}

impl<R: Wait, H: HasTable<A>, A: Allocator + Copy> Reads<Shown<A>, R, H, A> for Print {
    ghost finds = { λ it. PrintsFrom it.from };

    fn read(
        &self,
        rt: &R,
        alloc: A,
        frame: &mut Frame<H, A>,
        registers: &Registers<A>,
    ) -> Result<Shown<A>, Fault> {
        let Some(handle) = registers.get(self.from) else {
            return Err(Fault::NoSuchPlace);
        };
        show(rt, alloc, frame, handle)
    }
}
