//! The board of the sections that run at the same time: which of them run, and which wait for the others.
//!
//! A section that finds nothing to fetch or to receive looks again after each change that any section makes. It says
//! that it looks before it does (`tries`), so that a change after its look finds it looking or waiting, and wakes it.
//! Where each section waits or has ended, and nothing has changed since each looked, nothing can change any more, and
//! all that wait give up.
//!
//! Before a section says that it looks it tries for a while (`waiting.rt`). The board takes it for one that runs.

ghost use Rattle.std.specs.Prelude.{◌≡◌, IfOk, IfErr};
ghost use Rattle.brc_words.specs.declared.fault.Fault.TheVariants.{OutOfMemory};

use crate::standings::{SectionStanding, Standings};
use brc_words::Fault;
use std::alloc::Allocator;
use std::sync::atomic::{AtomicU32, Ordering};
use std::sync::{Condvar, Mutex, Wait};

/// What the sections that run at the same time share beside their heap.
#[derive(Drop)]
pub struct Board<A: Allocator> {
    /// How many there are. They are numbered from 1.
    pub sections: u32,
    standings: Mutex<Standings<A>>,
    stirred: Condvar,
    /// How many sections look for something or wait. A change that finds 0 here has nobody to wake.
    looking: AtomicU32,
}

impl<A: Allocator> Board<A> {
    /// A board for so many sections, which all run.
    pub fn new(alloc: A, sections: u32) -> Result<Board<A>, Fault>
        ensures sections { IfOk result (λ board. board.sections ≡ sections) }
        ensures refused { IfErr result (λ fault. fault ≡ OutOfMemory) }
    {
        let standings = Standings::running(alloc, sections)?;
        Ok(Board {
            sections,
            standings: Mutex::new(standings),
            stirred: Condvar::new(),
            looking: AtomicU32::new(0),
        })
    }

    /// The section has ended. Others needn't wait for it.
    pub fn end(&self, rt: &impl Wait, number: u32) {
        let mut standings = self.standings.lock(rt);
        standings.set(number, SectionStanding::Ended);
        if standings.settle() {
            self.stirred.notify_all();
        }
    }

    /// Whether the section has ended.
    pub fn has_ended(&self, rt: &impl Wait, number: u32) -> bool {
        self.standings.lock(rt).of(number) == SectionStanding::Ended
    }

    /// Something has changed that others may look or wait for. It costs one load where nobody does.
    #[inline(always)]
    pub(crate) fn change(&self, rt: &impl Wait) {
        // Who looks raises the number before the look: so it finds what was put before this load, or this load finds
        // the number.
        if self.looking.load(Ordering::SeqCst) != 0 {
            self.wake(rt);
        }
    }

    /// Whoever looks or waits has to look again.
    fn wake(&self, rt: &impl Wait) {
        self.standings.lock(rt).stir();
        self.stirred.notify_all();
    }

    /// The section begins to look for something. It ends by `found` or by `waits`.
    pub(crate) fn looks(&self, rt: &impl Wait, number: u32) {
        self.looking.fetch_add(1, Ordering::SeqCst);
        self.standings.lock(rt).set(number, SectionStanding::Tries);
    }

    /// It found it, or can't have it.
    pub(crate) fn found(&self) {
        self.looking.fetch_sub(1, Ordering::SeqCst);
    }

    /// It found nothing, and waits until something has changed; false where nobody is left who could change anything.
    pub(crate) fn waits(&self, rt: &impl Wait, number: u32) -> bool {
        let is_worth_a_look = self.sleeps(rt, number);
        self.looking.fetch_sub(1, Ordering::SeqCst);
        is_worth_a_look
    }

    fn sleeps(&self, rt: &impl Wait, number: u32) -> bool {
        let mut standings = self.standings.lock(rt);
        // Where something has changed since the look, the section runs again already.
        if standings.of(number) == SectionStanding::Tries {
            standings.set(number, SectionStanding::Waits);
        }
        if standings.settle() {
            self.stirred.notify_all();
        }
        let mut standings = self.stirred.wait_while(
            rt,
            standings,
            |standings| standings.of(number) == SectionStanding::Waits,
        );
        if standings.of(number) == SectionStanding::GivesUp {
            standings.set(number, SectionStanding::Runs);
            return false;
        }
        true
    }
}
