//! How the sections of a board stand.

ghost use Rattle.std.specs.Prelude.{◌≡◌, IfErr};
ghost use Rattle.brc_words.specs.declared.fault.Fault.TheVariants.{OutOfMemory};

use brc_words::Fault;
use std::alloc::Allocator;

/// How a section stands.
#[derive(Clone, Copy, PartialEq, Eq)]
pub(crate) enum SectionStanding {
    Runs,
    /// It looks for something, and nothing has changed since it began to.
    Tries,
    /// It found nothing, and nothing has changed since it looked.
    Waits,
    /// Nobody is left who could change anything.
    GivesUp,
    Ended,
}

/// The standing of each section, by its number, from 1 on.
#[derive(Drop)]
pub(crate) struct Standings<A: Allocator> {
    each: Vec<SectionStanding, A>,
}

impl<A: Allocator> Standings<A> {
    /// So many sections, which all run.
    pub(crate) fn running(alloc: A, sections: u32) -> Result<Standings<A>, Fault>
        ensures refused { IfErr result (λ fault. fault ≡ OutOfMemory) }
    {
        let mut each = Vec::with_capacity(alloc, sections as usize)?;
        for _ in 0..sections {
            each.push(SectionStanding::Runs)?;
        }
        Ok(Standings { each })
    }

    /// How the section stands; one that isn't there has nobody to wait for.
    pub(crate) fn of(&self, number: u32) -> SectionStanding {
        match self.each.get((number as usize).wrapping_sub(1)) {
            Some(standing) => *standing,
            None => SectionStanding::GivesUp,
        }
    }

    /// From now on the section stands so.
    pub(crate) fn set(&mut self, number: u32, standing: SectionStanding) {
        if let Some(slot) = self.each.get_mut((number as usize).wrapping_sub(1)) {
            *slot = standing;
        }
    }

    /// Something has changed: whoever looks for something, or waits, has to look again.
    pub(crate) fn stir(&mut self) {
        for standing in self.each.as_mut_slice() {
            match *standing {
                SectionStanding::Tries | SectionStanding::Waits => *standing =
                    SectionStanding::Runs,
                _ => {}
            }
        }
    }

    /// Whether each that hasn't ended waits.
    fn is_quiet(&self) -> bool {
        for standing in self.each.as_slice() {
            match *standing {
                SectionStanding::Waits | SectionStanding::Ended => {}
                _ => return false,
            }
        }
        true
    }

    /// Where nobody is left who could change anything, all that wait give up; whether that is so.
    pub(crate) fn settle(&mut self) -> bool {
        if !self.is_quiet() {
            return false;
        }
        for standing in self.each.as_mut_slice() {
            if *standing == SectionStanding::Waits {
                *standing = SectionStanding::GivesUp;
            }
        }
        true
    }
}
