//! What a thread does by its role: it opens the mailbox, sends letters to it, or receives them.

ghost use Rattle.std.specs.Prelude.{⊤};
ghost use Rattle.brc_heap.specs.Words.{IsUnlocked, Keeps, Owns};

use crate::globals::{New, puts_new};
use brc_heap::{Frame, Handle, KeyRef, Mutator, int_of, new_int, send};
use brc_loops::{Duty, Stop, Waited, fetch_until, recv_until};
use std::alloc::Global;
use std::sync::Wait;
use std::sync::atomic::{AtomicU32, Ordering};

/// The mailbox's key in the globals.
const MAILBOX: i64 = 1;

/// How many turns of work a thread makes between two calls.
const TURNS: usize = 64;

/// How many threads send, and how many letters each.
pub(crate) const SENDERS: u32 = 3;

pub(crate) const LETTERS: i64 = 1_000;

/// More than there are letters.
const MORE: u32 = 4_000;

/// What a thread is there for.
#[derive(Clone, Copy)]
pub(crate) enum Role {
    Opens,
    /// It sends integers from this one on.
    Sends(i64),
    Receives,
}

/// What a thread has sent and received, and the sum of the letters that it received.
#[derive(Clone, Copy)]
pub(crate) struct Counted {
    pub(crate) sent: u32,
    pub(crate) received: u32,
    pub(crate) sum: i64,
}

impl Counted {
    pub(crate) const NOTHING: Counted = Counted {
        sent: 0,
        received: 0,
        sum: 0,
    };

    /// What both have.
    pub(crate) fn and(self, other: Counted) -> Counted {
        Counted {
            sent: self.sent.saturating_add(other.sent),
            received: self.received.saturating_add(other.received),
            sum: self.sum.saturating_add(other.sum),
        }
    }
}

/// So many threads have done their part, so nothing more comes of them.
#[derive(Drop)]
struct AllDone<'d> {
    done: &'d AtomicU32,
    of: u32,
}

impl<'d> Stop for AllDone<'d> {
    ghost may_stop = { λ _. ⊤ };

    fn asked(&self) -> bool {
        self.done.load(Ordering::SeqCst) >= self.of
    }
}

/// What all threads share beside the heap: how many have opened the mailbox, and have sent all of their letters.
#[derive(Drop)]
pub(crate) struct Mailing {
    alloc: Global,
    opened: AtomicU32,
    sent: AtomicU32,
}

impl Mailing {
    /// Nobody has done anything yet.
    pub(crate) fn new(alloc: Global) -> Mailing {
        Mailing {
            alloc,
            opened: AtomicU32::new(0),
            sent: AtomicU32::new(0),
        }
    }

    /// A thread has done its part, or couldn't.
    fn has_done(&self, role: Role) {
        match role {
            Role::Opens => {
                let _before = self.opened.fetch_add(1, Ordering::SeqCst);
            }
            Role::Sends(_) => {
                let _before = self.sent.fetch_add(1, Ordering::SeqCst);
            }
            Role::Receives => {}
        }
    }

    /// A letter goes into the mailbox: whether it does.
    fn sends_one(&self, rt: &impl Wait, frame: &mut Frame, mailbox: &Handle, number: i64) -> bool
        requires owned { Owns frame.old mailbox.now }
        requires unlocked { IsUnlocked frame.old }
        ensures keeps { Keeps frame.old frame.new }
        ensures unlocked { IsUnlocked frame.new }
    {
        let Ok(letter) = new_int(self.alloc, frame, number) else {
            return false;
        };
        match send(rt, frame, mailbox, letter) {
            Ok(()) => true,
            Err(handed) => {
                frame.release(handed.value);
                false
            }
        }
    }

    /// All letters of one sender.
    fn sends(&self, rt: &impl Wait, frame: &mut Frame, mailbox: &Handle, from: i64) -> Counted
        requires owned { Owns frame.old mailbox.now }
        requires unlocked { IsUnlocked frame.old }
        ensures keeps { Keeps frame.old frame.new }
        ensures unlocked { IsUnlocked frame.new }
    {
        let mut counted = Counted::NOTHING;
        for before in 0..LETTERS {
            if self.sends_one(rt, frame, mailbox, from.saturating_add(before)) {
                counted.sent = counted.sent.saturating_add(1);
            }
            let _told = frame.poll();
            let _left = frame.work(TURNS);
        }
        counted
    }

    /// The number of the next letter; None once all senders are done and none is left, or if it is refused.
    fn receives_one(
        &self,
        rt: &impl Wait,
        frame: &mut Frame,
        mailbox: &Handle,
        all_sent: &AllDone<'_>,
    ) -> Option<i64>
        requires owned { Owns frame.old mailbox.now }
        requires unlocked { IsUnlocked frame.old }
        ensures keeps { Keeps frame.old frame.new }
        ensures unlocked { IsUnlocked frame.new }
    {
        match recv_until(rt, frame, mailbox, all_sent, TURNS) {
            Waited::Got(letter) => {
                let number = int_of(rt, frame, &letter).unwrap_or(0);
                frame.release(letter);
                Some(number)
            }
            Waited::Stopped => None,
            Waited::Refused(_) => None,
        }
    }

    /// Letters, one after the other, until all senders are done and none is left.
    fn receives(&self, rt: &impl Wait, frame: &mut Frame, mailbox: &Handle) -> Counted
        requires owned { Owns frame.old mailbox.now }
        requires unlocked { IsUnlocked frame.old }
        ensures keeps { Keeps frame.old frame.new }
        ensures unlocked { IsUnlocked frame.new }
    {
        let all_sent = AllDone {
            done: &self.sent,
            of: SENDERS,
        };
        let mut counted = Counted::NOTHING;
        for _ in 0..MORE {
            let Some(number) = self.receives_one(rt, frame, mailbox, &all_sent) else {
                return counted;
            };
            counted = counted.and(Counted {
                sent: 0,
                received: 1,
                sum: number,
            });
        }
        counted
    }

    /// What a thread does with the mailbox.
    fn mails_by(&self, rt: &impl Wait, frame: &mut Frame, mailbox: &Handle, role: Role) -> Counted
        requires owned { Owns frame.old mailbox.now }
        requires unlocked { IsUnlocked frame.old }
        ensures keeps { Keeps frame.old frame.new }
        ensures unlocked { IsUnlocked frame.new }
    {
        match role {
            Role::Sends(from) => self.sends(rt, frame, mailbox, from),
            _ => self.receives(rt, frame, mailbox),
        }
    }

    /// What a thread does whose role isn't to open the mailbox: it waits for it, unless it can't be opened.
    fn mails(&self, rt: &impl Wait, frame: &mut Frame, globals: &Handle, role: Role) -> Counted
        requires owned { Owns frame.old globals.now }
        requires unlocked { IsUnlocked frame.old }
        ensures keeps { Keeps frame.old frame.new }
        ensures unlocked { IsUnlocked frame.new }
    {
        let opened = AllDone {
            done: &self.opened,
            of: 1,
        };
        match fetch_until(rt, frame, globals, KeyRef::Int(MAILBOX), &opened, TURNS) {
            Waited::Got(mailbox) => {
                let counted = self.mails_by(rt, frame, &mailbox, role);
                frame.release(mailbox);
                counted
            }
            Waited::Stopped => Counted::NOTHING,
            Waited::Refused(_) => Counted::NOTHING,
        }
    }

    /// What a thread does by its role.
    fn plays(&self, rt: &impl Wait, frame: &mut Frame, globals: &Handle, role: Role) -> Counted
        requires owned { Owns frame.old globals.now }
        requires unlocked { IsUnlocked frame.old }
        ensures keeps { Keeps frame.old frame.new }
        ensures unlocked { IsUnlocked frame.new }
    {
        match role {
            Role::Opens => {
                // (if it is refused, no letter is sent)
                let _opened = puts_new(rt, self.alloc, frame, globals, MAILBOX, New::Mailbox);
                Counted::NOTHING
            }
            _ => self.mails(rt, frame, globals, role),
        }
    }
}

impl<R: Wait> Duty<R, Role> for Mailing {
    type Answer = Counted;

    fn serve(&self, rt: &R, mutator: &mut Mutator, role: Role) -> Counted {
        let counted = match mutator.globals() {
            Ok(globals) => {
                let counted = self.plays(rt, mutator.frame(), &globals, role);
                mutator.frame().release(globals);
                counted
            }
            Err(_) => Counted::NOTHING,
        };
        self.has_done(role);
        counted
    }
}
