//! What one instruction does.

ghost use Rattle.std.specs.Prelude.{◌≡◌, ◌≢◌, ⊤, IfErr};
ghost use Rattle.brc_words.specs.declared.fault.Fault.TheVariants as faults;
ghost use Rattle.brc_script.specs.declared.instruction.Instruction.TheVariants as instructions;
ghost use Rattle.brc_count.specs.law.living.Later.{IsLater};
ghost use Rattle.brc_instructions.specs.Registers.{OwnsRegisters};
ghost use Rattle.brc_section.specs.Lines.{Led};
ghost use Rattle.brc_section.specs.Stepping.{FollowsOwn, WantsOfOwn};

use crate::lines::{
    add_line, copy_line, delete_line, dict_line, drop_line, find_line, get_line, int_line,
    len_line, list_line, mailbox_line, pop_line, push_line, put_line, receive_line, send_line,
    set_line, stirs, text_line,
};
use crate::shared_names::key_of;
use crate::waiting::{Await, AwaitedHere, LookTry, SectionContext};
use brc_count::Frame;
use brc_count::biased::HasTable;
use brc_instructions::{Done, Execute, Registers, Share, TakeOutGlobal, TakingOut};
use brc_script::{Instruction, Register};
use brc_words::{Key, Text};
use std::alloc::Allocator;
use std::sync::Wait;

/// An instruction on the globals, but for the name.
#[derive(Clone, Copy)]
enum OnGlobals {
    Share { value: Register },
    Fetch { to: Register },
    Unshare { to: Register },
}

/// It under this key.
#[derive(Drop)]
struct UnderKey<'i, A: Allocator> {
    shared: OnGlobals,
    key: &'i Key<A>,
    own: &'i SectionContext<'i, A>,
}

impl<'i, R: Wait, H: HasTable<A>, A: Allocator + Copy> Execute<R, H, A> for UnderKey<'i, A> {
    ghost follows = { λ _ _ _ _ _ _. ⊤ };

    ghost why = { λ _ _ _ _. ⊤ };

    fn act(&self, rt: &R, alloc: A, frame: &mut Frame<H, A>, registers: &mut Registers<A>) -> Done {
        match self.shared {
            OnGlobals::Share { value } => {
                let name = self.key;
                Share { name, value }.act(rt, alloc, frame, registers)
            }
            OnGlobals::Fetch { to } => {
                let awaited = AwaitedHere::Name(self.key);
                let wait = Await {
                    look: LookTry { to, awaited },
                    own: self.own,
                };
                wait.act(rt, alloc, frame, registers)
            }
            OnGlobals::Unshare { to } => {
                let giving = TakingOut::Delete(self.key);
                TakeOutGlobal { to, giving }.act(rt, alloc, frame, registers)
            }
        }
    }
}

/// It under this name: by the key that was made of it, or, where none is there, by one that is made now.
#[inline(never)]
fn under_name<R: Wait, H: HasTable<A>, A: Allocator + Copy>(
    rt: &R,
    alloc: A,
    frame: &mut Frame<H, A>,
    registers: &mut Registers<A>,
    shared: OnGlobals,
    name: &Text<A>,
    key: Option<&Key<A>>,
    own: &SectionContext<'_, A>,
) -> Done
    requires stands { OwnsRegisters frame.old registers.old }
    ensures stands { OwnsRegisters frame.new registers.new }
    ensures heap { frame.new.heap ≡ frame.old.heap }
    ensures waits { IfErr result (λ fault. fault ≢ faults.Busy) }
    ensures later { IsLater frame.old.seat.log frame.new.seat.log }
{
    match key {
        Some(key) => {
            let step = UnderKey { shared, key, own };
            step.act(rt, alloc, frame, registers)
        }
        None => {
            let key = key_of(alloc, name)?;
            let step = UnderKey {
                shared,
                key: &key,
                own,
            };
            step.act(rt, alloc, frame, registers)
        }
    }
}

/// `share`: the value goes into the globals, under the name.
#[inline(never)]
fn share_line<R: Wait, H: HasTable<A>, A: Allocator + Copy>(
    rt: &R,
    alloc: A,
    frame: &mut Frame<H, A>,
    registers: &mut Registers<A>,
    name: &Text<A>,
    value: Register,
    key: Option<&Key<A>>,
    own: &SectionContext<'_, A>,
) -> Done
    requires stands { OwnsRegisters frame.old registers.old }
    ensures led { Led frame.old frame.new registers.old registers.new (instructions.Share name.now value) result }
{
    let shared = OnGlobals::Share { value };
    let done = under_name(rt, alloc, frame, registers, shared, name, key, own);
    stirs(rt, done, own)
}

/// `fetch`: one reference more to what has the name. A name that is missing is waited for.
#[inline(never)]
fn fetch_line<R: Wait, H: HasTable<A>, A: Allocator + Copy>(
    rt: &R,
    alloc: A,
    frame: &mut Frame<H, A>,
    registers: &mut Registers<A>,
    to: Register,
    name: &Text<A>,
    key: Option<&Key<A>>,
    own: &SectionContext<'_, A>,
) -> Done
    requires stands { OwnsRegisters frame.old registers.old }
    ensures led { Led frame.old frame.new registers.old registers.new (instructions.Fetch to name.now) result }
{
    let shared = OnGlobals::Fetch { to };
    under_name(rt, alloc, frame, registers, shared, name, key, own)
}

/// `unshare`: what has the name comes out of the globals.
#[inline(never)]
fn unshare_line<R: Wait, H: HasTable<A>, A: Allocator + Copy>(
    rt: &R,
    alloc: A,
    frame: &mut Frame<H, A>,
    registers: &mut Registers<A>,
    to: Register,
    name: &Text<A>,
    key: Option<&Key<A>>,
    own: &SectionContext<'_, A>,
) -> Done
    requires stands { OwnsRegisters frame.old registers.old }
    ensures led { Led frame.old frame.new registers.old registers.new (instructions.Unshare to name.now) result }
{
    let shared = OnGlobals::Unshare { to };
    let done = under_name(rt, alloc, frame, registers, shared, name, key, own);
    stirs(rt, done, own)
}

/// What the instruction of a line says, where it is none that prints.
#[derive(Drop)]
pub(crate) struct Silent<'i, A: Allocator> {
    pub(crate) instruction: &'i Instruction<A>,
    pub(crate) key: Option<&'i Key<A>>,
    pub(crate) own: &'i SectionContext<'i, A>,
}

impl<'i, A: Allocator + Copy> Silent<'i, A> {
    /// The line, by the function of its kind.
    #[inline(always)]
    fn line<R: Wait, H: HasTable<A>>(
        &self,
        rt: &R,
        alloc: A,
        frame: &mut Frame<H, A>,
        registers: &mut Registers<A>,
    ) -> Done
        requires stands { OwnsRegisters frame.old registers.old }
        ensures led { Led frame.old frame.new registers.old registers.new self.now.instruction.now result }
    {
        let (key, own) = (self.key, self.own);
        match self.instruction {
            Instruction::Int { to, number } => {
                int_line(rt, alloc, frame, registers, *to, *number)
            }
            Instruction::Text { to, text } => text_line(rt, alloc, frame, registers, *to, text),
            Instruction::List { to } => list_line(rt, alloc, frame, registers, *to),
            Instruction::Dict { to } => dict_line(rt, alloc, frame, registers, *to),
            Instruction::Mailbox { to } => mailbox_line(rt, alloc, frame, registers, *to),

            Instruction::Copy { to, from } => copy_line(rt, alloc, frame, registers, *to, *from),
            Instruction::Drop { from } => drop_line(rt, alloc, frame, registers, *from),

            Instruction::Push { list, value } => {
                push_line(rt, alloc, frame, registers, *list, *value, own)
            }
            Instruction::Pop { to, list } => {
                pop_line(rt, alloc, frame, registers, *to, *list, own)
            }
            Instruction::Get { to, list, index } => {
                get_line(rt, alloc, frame, registers, *to, *list, *index)
            }
            Instruction::Set { list, index, value } => {
                set_line(rt, alloc, frame, registers, *list, *index, *value, own)
            }
            Instruction::Len { to, container } => {
                len_line(rt, alloc, frame, registers, *to, *container)
            }

            Instruction::Put { dict, key, value } => {
                put_line(rt, alloc, frame, registers, *dict, key, *value, own)
            }
            Instruction::Find { to, dict, key } => {
                find_line(rt, alloc, frame, registers, *to, *dict, key)
            }
            Instruction::Delete { to, dict, key } => {
                delete_line(rt, alloc, frame, registers, *to, *dict, key, own)
            }

            Instruction::Share { name, value } => {
                share_line(rt, alloc, frame, registers, name, *value, key, own)
            }
            Instruction::Fetch { to, name } => {
                fetch_line(rt, alloc, frame, registers, *to, name, key, own)
            }
            Instruction::Unshare { to, name } => {
                unshare_line(rt, alloc, frame, registers, *to, name, key, own)
            }

            Instruction::Send { mailbox, value } => {
                send_line(rt, alloc, frame, registers, *mailbox, *value, own)
            }
            Instruction::Receive { to, mailbox } => {
                receive_line(rt, alloc, frame, registers, *to, *mailbox, own)
            }

            Instruction::Add { to, first, second } => {
                add_line(rt, alloc, frame, registers, *to, *first, *second)
            }
            Instruction::Print { .. } => Ok(()),
        }
    }
}

impl<'i, R: Wait, H: HasTable<A>, A: Allocator + Copy> Execute<R, H, A> for Silent<'i, A> {
    ghost follows = { λ it. FollowsOwn it.instruction.now };

    ghost why = { λ it. WantsOfOwn it.instruction.now };

    #[inline(always)]
    fn act(&self, rt: &R, alloc: A, frame: &mut Frame<H, A>, registers: &mut Registers<A>) -> Done {
        // A call writes its result through a pointer. That is to `done`, so what this returns can stay in registers.
        let done = self.line(rt, alloc, frame, registers);
        done
    }
}
