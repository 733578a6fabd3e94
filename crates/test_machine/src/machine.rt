//! A machine with a value stack, which is written over the frame and the places of a stack alone.

ghost use Rattle.brc_heap.specs.Words.{IsUnlocked, KeepsStanding, OwnsEach};

use crate::instruction::Instruction;
use brc_heap::{Fault, Frame, Heap, KeyRef};
use brc_places::{GiveBy, Make, Stack, Step, TakeBy, Turn};
use std::alloc::Global;
use std::sync::Wait;
use std::sync::atomic::{AtomicBool, Ordering};

/// A program, where the machine is in it, and what it has told. Once all letters that it may wait for are sent, `sent`
/// says so.
#[derive(Drop)]
pub(crate) struct Machine<'p> {
    pub(crate) alloc: Global,
    pub(crate) program: &'p [Instruction],
    pub(crate) sent: &'p AtomicBool,
    pub(crate) next: usize,
    pub(crate) told: Option<i64>,
    pub(crate) fault: Option<Fault>,
}

impl<'p> Machine<'p> {
    /// At the program's first instruction.
    pub(crate) fn new(
        alloc: Global,
        program: &'p [Instruction],
        sent: &'p AtomicBool,
    ) -> Machine<'p> {
        Machine {
            alloc,
            program,
            sent,
            next: 0,
            told: None,
            fault: None,
        }
    }

    /// The number on top, which goes.
    fn number(&self, rt: &impl Wait, frame: &mut Frame, stack: &mut Stack) -> Result<i64, Fault>
        requires each { OwnsEach frame.old stack.old }
        requires unlocked { IsUnlocked frame.old }
        ensures stands { KeepsStanding frame.old frame.new stack.old stack.new }
    {
        let number = stack.int(rt, frame)?;
        stack.release(frame)?;
        Ok(number)
    }

    /// The two numbers on top go, and their sum is on top.
    fn add(&self, rt: &impl Wait, frame: &mut Frame, stack: &mut Stack) -> Result<(), Fault>
        requires each { OwnsEach frame.old stack.old }
        requires unlocked { IsUnlocked frame.old }
        ensures stands { KeepsStanding frame.old frame.new stack.old stack.new }
    {
        let second = self.number(rt, frame, stack)?;
        let first = self.number(rt, frame, stack)?;
        stack.make(self.alloc, frame, Make::Int(first.saturating_add(second)))
    }

    /// An instruction after which the next one follows.
    fn does(
        &self,
        rt: &impl Wait,
        frame: &mut Frame,
        stack: &mut Stack,
        instruction: Instruction,
    ) -> Result<(), Fault>
        requires each { OwnsEach frame.old stack.old }
        requires unlocked { IsUnlocked frame.old }
        ensures stands { KeepsStanding frame.old frame.new stack.old stack.new }
    {
        let alloc = self.alloc;
        match instruction {
            Instruction::Int(number) => stack.make(alloc, frame, Make::Int(number)),
            Instruction::Text(text) => stack.make(alloc, frame, Make::Text(text)),
            Instruction::True => stack.make(alloc, frame, Make::Truth(true)),
            Instruction::List => stack.make(alloc, frame, Make::List),
            Instruction::Dict => stack.make(alloc, frame, Make::Dict),
            Instruction::Mailbox => stack.make(alloc, frame, Make::Mailbox),
            Instruction::Globals => stack.make(alloc, frame, Make::Globals),
            Instruction::Load(place) => stack.load(frame, place),
            Instruction::Duplicate => stack.duplicate(frame),
            Instruction::Swap => stack.swap(frame),
            Instruction::Drop => stack.release(frame),
            Instruction::Store(place) => stack.store(frame, place),
            Instruction::Append => stack.take(rt, alloc, frame, TakeBy::Push),
            Instruction::Put(name) => {
                stack.take(rt, alloc, frame, TakeBy::Put(KeyRef::Text(name.as_bytes())))
            }
            Instruction::Send => stack.take(rt, alloc, frame, TakeBy::Send),
            Instruction::Last => stack.give(rt, frame, GiveBy::Pop),
            Instruction::Get(index) => stack.give(rt, frame, GiveBy::Get(index)),
            Instruction::Find(name) => stack.give(
                rt,
                frame,
                GiveBy::Find(KeyRef::Text(name.as_bytes())),
            ),
            Instruction::Delete(name) => stack.give(
                rt,
                frame,
                GiveBy::Delete(KeyRef::Text(name.as_bytes())),
            ),
            Instruction::Receive => stack.give(rt, frame, GiveBy::Receive),
            Instruction::Add => self.add(rt, frame, stack),
            Instruction::Tell | Instruction::Jump(_) | Instruction::JumpIfZero(_) => Ok(()),
        }
    }

    /// The number of the next instruction, unless a jump says another.
    fn after(&self) -> usize {
        self.next.saturating_add(1)
    }

    /// It is at the next instruction; or the fault ends it.
    fn goes_on(&mut self, done: Result<(), Fault>) -> Turn {
        match done {
            Ok(()) => {
                self.next = self.after();
                Turn::GoesOn
            }
            Err(fault) => {
                self.fault = Some(fault);
                Turn::Ends
            }
        }
    }
}

impl<'p, 'h, R: Wait> Step<R, &'h Heap<Global>, Global> for Machine<'p> {
    /// One instruction. A machine that waits for a letter deals with what other threads asked of its objects. Whether all
    /// letters are sent is asked before the try, so none is missed; after that one that isn't there is a fault.
    fn step(&mut self, rt: &R, frame: &mut Frame<'h>, stack: &mut Stack) -> Turn {
        let Some(instruction) = self.program.get(self.next) else {
            return Turn::Ends;
        };
        match *instruction {
            Instruction::Receive => {
                let all_sent = self.sent.load(Ordering::SeqCst);
                match self.does(rt, frame, stack, Instruction::Receive) {
                    Err(Fault::NoSuchPlace) if !all_sent => {
                        let _told = frame.poll();
                        let _left = frame.work(100);
                        Turn::Waits
                    }
                    done => self.goes_on(done),
                }
            }
            Instruction::Tell => match self.number(rt, frame, stack) {
                Ok(number) => {
                    self.told = Some(number);
                    self.goes_on(Ok(()))
                }
                Err(fault) => self.goes_on(Err(fault)),
            },
            Instruction::Jump(next) => {
                self.next = next;
                Turn::GoesOn
            }
            Instruction::JumpIfZero(next) => match self.number(rt, frame, stack) {
                Ok(0) => {
                    self.next = next;
                    Turn::GoesOn
                }
                Ok(_) => self.goes_on(Ok(())),
                Err(fault) => self.goes_on(Err(fault)),
            },
            other => {
                let done = self.does(rt, frame, stack, other);
                self.goes_on(done)
            }
        }
    }
}
