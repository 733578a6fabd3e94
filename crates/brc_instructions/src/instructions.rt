//! The instructions: what each is by its plain meaning, and how it is done.

ghost use Rattle.std.specs.Prelude.{◌≢◌, ⊤};
ghost use Rattle.brc_script.specs.declared.instruction.Instruction.TheVariants as instructions;
ghost use Rattle.law_isolation.specs.Asked.{Follows};
ghost use Rattle.brc_instructions.specs.Calls.{gives, makes, takes};
ghost use Rattle.brc_instructions.specs.Causes.{Caused, WantsNoRoom};

use crate::doing::{Done, Execute};
use crate::globals::{given_by_globals, taken_by_globals};
use crate::holding::hold;
use crate::making::{Empty, new_empty};
use crate::object_reading::{Reads, Sum};
use crate::putting_in::{Putting, put_in};
use crate::registers::Registers;
use crate::taking_out::{TakingOut, take_out};
use brc_count::Frame;
use brc_count::biased::HasTable;
use brc_heap::{len_of, new_int, new_text};
use brc_script::Register;
use brc_words::{Fault, Key, Text};
use std::alloc::Allocator;
use std::sync::Wait;

/// `int`, and the end of `len` and of `add`: an integer.
#[derive(Clone, Copy)]
pub struct MakeInt {
    pub to: Register,
    pub number: i64,
}

impl<R: Wait, H: HasTable<A>, A: Allocator + Copy> Execute<R, H, A> for MakeInt {
    ghost follows = { λ it old new before now. Follows old new before now (instructions.Int it.to it.number) };

    ghost why = { λ _. Caused };

    #[inline(always)]
    fn act(
        &self,
        _rt: &R,
        alloc: A,
        frame: &mut Frame<H, A>,
        registers: &mut Registers<A>,
    ) -> Done {
        let made = new_int(alloc, frame, self.number)?;
        hold(frame, registers, self.to, made);
        Ok(())
    }
}

/// `text`: a text of its own, with these bytes.
#[derive(Drop)]
pub struct MakeText<'t, A: Allocator> {
    pub to: Register,
    pub text: &'t Text<A>,
}

impl<'t, R: Wait, H: HasTable<A>, A: Allocator + Copy> Execute<R, H, A> for MakeText<'t, A> {
    ghost follows = { λ it old new before now. Follows old new before now (instructions.Text it.to it.text.now) };

    ghost why = { λ _. Caused };

    fn act(
        &self,
        _rt: &R,
        alloc: A,
        frame: &mut Frame<H, A>,
        registers: &mut Registers<A>,
    ) -> Done {
        let copy = self.text.copy(alloc)?;
        match new_text(alloc, frame, copy) {
            Ok(made) => {
                hold(frame, registers, self.to, made);
                Ok(())
            }
            Err(handed) => Err(handed.fault),
        }
    }
}

/// `list`, `dict` and `mailbox`: an empty container.
#[derive(Clone, Copy)]
pub struct MakeEmpty {
    pub to: Register,
    pub empty: Empty,
}

impl<R: Wait, H: HasTable<A>, A: Allocator + Copy> Execute<R, H, A> for MakeEmpty {
    ghost follows = { λ it old new before now. Follows old new before now (makes it.empty it.to) };

    ghost why = { λ _. Caused };

    fn act(
        &self,
        _rt: &R,
        alloc: A,
        frame: &mut Frame<H, A>,
        registers: &mut Registers<A>,
    ) -> Done {
        let made = new_empty(alloc, frame, self.empty)?;
        hold(frame, registers, self.to, made);
        Ok(())
    }
}

/// `copy`: one reference more.
#[derive(Clone, Copy)]
pub struct CopyHeld {
    pub to: Register,
    pub from: Register,
}

impl<R: Wait, H: HasTable<A>, A: Allocator + Copy> Execute<R, H, A> for CopyHeld {
    ghost follows = { λ it old new before now. Follows old new before now (instructions.Copy it.to it.from) };

    ghost why = { λ _. Caused };

    fn act(
        &self,
        _rt: &R,
        _alloc: A,
        frame: &mut Frame<H, A>,
        registers: &mut Registers<A>,
    ) -> Done {
        let Some(handle) = registers.get(self.from) else {
            return Err(Fault::NoSuchPlace);
        };
        let more = frame.retain(handle)?;
        hold(frame, registers, self.to, more);
        Ok(())
    }
}

/// `drop`: the reference goes.
#[derive(Clone, Copy)]
pub struct DropHeld {
    pub from: Register,
}

impl<R: Wait, H: HasTable<A>, A: Allocator + Copy> Execute<R, H, A> for DropHeld {
    ghost follows = { λ it old new before now. Follows old new before now (instructions.Drop it.from) };

    ghost why = { λ _ _ _. WantsNoRoom };

    fn act(
        &self,
        _rt: &R,
        _alloc: A,
        frame: &mut Frame<H, A>,
        registers: &mut Registers<A>,
    ) -> Done {
        let Some(handle) = registers.take(self.from) else {
            return Err(Fault::NoSuchPlace);
        };
        frame.release(handle);
        Ok(())
    }
}

/// `pop`, `get`, `find`, `del`, and `recv` where it doesn't wait for a letter: what the container gives goes into a
/// register.
#[derive(Drop)]
pub struct TakeOut<'k, A: Allocator> {
    pub to: Register,
    pub container: Register,
    pub giving: TakingOut<'k, A>,
}

impl<'k, R: Wait, H: HasTable<A>, A: Allocator + Copy> Execute<R, H, A> for TakeOut<'k, A> {
    ghost follows = { λ it old new before now. Follows old new before now (gives it.giving it.to it.container) };

    ghost why = { λ _. Caused };

    #[inline(always)]
    fn act(
        &self,
        rt: &R,
        _alloc: A,
        frame: &mut Frame<H, A>,
        registers: &mut Registers<A>,
    ) -> Done {
        let Some(object) = registers.get(self.container) else {
            return Err(Fault::NoSuchPlace);
        };
        let reference = take_out(rt, frame, object, &self.giving)?;
        hold(frame, registers, self.to, reference);
        Ok(())
    }
}

/// `push`, `set`, `send` and `put`: the container takes the value's reference, and the value's register has what was
/// there, or is empty. Of one register it isn't told.
#[derive(Drop)]
pub struct PutIn<'k, A: Allocator> {
    pub container: Register,
    pub value: Register,
    pub taking: Putting<'k, A>,
}

impl<'k, R: Wait, H: HasTable<A>, A: Allocator + Copy> Execute<R, H, A> for PutIn<'k, A> {
    ghost follows = { λ it old new before now result. it.container ≢ it.value
        → Follows old new before now (takes it.taking it.container it.value) result };

    ghost why = { λ _ _ _. WantsNoRoom };

    #[inline(always)]
    fn act(&self, rt: &R, alloc: A, frame: &mut Frame<H, A>, registers: &mut Registers<A>) -> Done {
        let Some(given) = registers.take(self.value) else {
            return Err(Fault::NoSuchPlace);
        };
        match put_in(
            rt,
            alloc,
            frame,
            registers,
            self.container,
            &self.taking,
            given,
        ) {
            Ok(None) => Ok(()),
            Ok(Some(old)) => {
                hold(frame, registers, self.value, old);
                Ok(())
            }
            Err(handed) => {
                hold(frame, registers, self.value, handed.value);
                Err(handed.fault)
            }
        }
    }
}

/// `len`: the number of entries, as a new integer.
#[derive(Clone, Copy)]
pub struct Len {
    pub to: Register,
    pub container: Register,
}

impl<R: Wait, H: HasTable<A>, A: Allocator + Copy> Execute<R, H, A> for Len {
    ghost follows = { λ it old new before now. Follows old new before now (instructions.Len it.to it.container) };

    ghost why = { λ _. Caused };

    fn act(&self, rt: &R, alloc: A, frame: &mut Frame<H, A>, registers: &mut Registers<A>) -> Done {
        let Some(container) = registers.get(self.container) else {
            return Err(Fault::NoSuchPlace);
        };
        let entries = len_of(rt, frame, container)?;
        // A container has at most 1,048,576 entries: more than an i64 counts would be past all memory.
        match i64::try_from(entries) {
            Ok(number) => {
                let to = self.to;
                MakeInt { to, number }.act(rt, alloc, frame, registers)
            }
            Err(_past) => Err(Fault::OutOfMemory),
        }
    }
}

/// `add`: the sum of two integers, as a new one.
#[derive(Clone, Copy)]
pub struct Add {
    pub to: Register,
    pub first: Register,
    pub second: Register,
}

impl<R: Wait, H: HasTable<A>, A: Allocator + Copy> Execute<R, H, A> for Add {
    ghost follows = { λ it old new before now. Follows old new before now (instructions.Add it.to it.first it.second) };

    ghost why = { λ _. Caused };

    fn act(&self, rt: &R, alloc: A, frame: &mut Frame<H, A>, registers: &mut Registers<A>) -> Done {
        let sum = Sum {
            first: self.first,
            second: self.second,
        };
        let number = sum.read(rt, alloc, frame, registers)?;
        let to = self.to;
        MakeInt { to, number }.act(rt, alloc, frame, registers)
    }
}

/// `share`: the value goes into the globals, under the name; an old one is released. Others may change the globals at any
/// time, so no plain meaning says where it leads.
#[derive(Drop)]
pub struct Share<'k, A: Allocator> {
    pub name: &'k Key<A>,
    pub value: Register,
}

impl<'k, R: Wait, H: HasTable<A>, A: Allocator + Copy> Execute<R, H, A> for Share<'k, A> {
    ghost follows = { λ _ _ _ _ _ _. ⊤ };

    ghost why = { λ _ _ _ _. ⊤ };

    fn act(&self, rt: &R, alloc: A, frame: &mut Frame<H, A>, registers: &mut Registers<A>) -> Done {
        if registers.get(self.value).is_none() {
            return Err(Fault::NoSuchPlace);
        }
        let name = self.name.copy(alloc)?;
        let Some(given) = registers.take(self.value) else {
            return Err(Fault::NoSuchPlace);
        };
        match taken_by_globals(rt, frame, registers, name, given) {
            Ok(None) => Ok(()),
            Ok(Some(old)) => {
                frame.release(old);
                Ok(())
            }
            Err(handed) => {
                hold(frame, registers, self.value, handed.value);
                Err(handed.fault)
            }
        }
    }
}

/// `fetch`, where it doesn't wait, and `unshare`: what the globals give goes into a register. Of the former the name
/// stays (`TakingOut::Find`), of the latter it goes (`TakingOut::Delete`).
#[derive(Drop)]
pub struct TakeOutGlobal<'k, A: Allocator> {
    pub to: Register,
    pub giving: TakingOut<'k, A>,
}

impl<'k, R: Wait, H: HasTable<A>, A: Allocator + Copy> Execute<R, H, A> for TakeOutGlobal<'k, A> {
    ghost follows = { λ _ _ _ _ _ _. ⊤ };

    ghost why = { λ _ _ _ _. ⊤ };

    fn act(
        &self,
        rt: &R,
        _alloc: A,
        frame: &mut Frame<H, A>,
        registers: &mut Registers<A>,
    ) -> Done {
        let found = given_by_globals(rt, frame, &self.giving)?;
        hold(frame, registers, self.to, found);
        Ok(())
    }
}
