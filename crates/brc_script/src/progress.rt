//! What the lines so far have built up.

ghost use Rattle.std.specs.Prelude.{◌≡◌, ◌<◌, ◌≤◌, length, is_some, IfOk, IfErr, Some};
ghost use Rattle.std.specs.Str.{bytes_eq};
ghost use Rattle.brc_words.specs.declared.fault.Fault.TheVariants.{OutOfMemory};
ghost use Rattle.brc_script.specs.Walks.{lines_of, is_closed, sections_of, is_named, begin, open_repeat, close_repeat};
ghost use Rattle.brc_script.specs.Walks.{add, taken, nothing};

use crate::limits::MOST_SECTIONS;
use crate::lines::is_closed;
use crate::row::ScriptRow;
use crate::script::{Line, Piece, Section};
use crate::sequence::Sequence;
use brc_words::{Fault, Text};
use std::alloc::Allocator;

/// The sections that are done; of the one that is being read the name and the pieces; and of an open `repeat` how often
/// its lines are run, and these lines.
#[derive(Drop)]
pub(crate) struct Progress<A: Allocator> {
    pub(crate) done: Sequence<Section<A>, A>,
    pub(crate) name: Option<Text<A>>,
    pub(crate) pieces: Sequence<Piece<A>, A>,
    pub(crate) times: Option<u32>,
    pub(crate) lines: Sequence<Line<A>, A>,
}

fn is_same_name<A: Allocator>(name: &Text<A>, other: &Text<A>) -> bool
    ensures { result ≡ bytes_eq name.now other.now }
{
    name.as_bytes() == other.as_bytes()
}

/// Whether one of the sections has this name.
fn is_named<A: Allocator>(name: &Text<A>, sections: &[Section<A>]) -> bool
    ensures { result ≡ is_named name.now sections.now }
{
    for section in sections {
        if is_same_name(&section.name, name) {
            return true;
        }
    }
    false
}

impl<A: Allocator + Copy> Progress<A> {
    /// No line yet.
    pub(crate) fn new(alloc: A) -> Self
        ensures { result ≡ nothing }
    {
        Progress {
            done: Sequence::empty(alloc),
            name: None,
            pieces: Sequence::empty(alloc),
            times: None,
            lines: Sequence::empty(alloc),
        }
    }

    /// The sections so far, with the one that is being read.
    pub(crate) fn into_sections(self) -> Result<Sequence<Section<A>, A>, Fault>
        ensures all { IfOk result (λ sections. sections ≡ sections_of self) }
        ensures refused { IfErr result (λ fault. fault ≡ OutOfMemory) }
    {
        let Progress {
            done,
            name,
            pieces,
            ..
        } = self;
        match name {
            None => Ok(done),
            Some(name) => {
                let sections = done.with(Section { name, pieces })?;
                Ok(sections)
            }
        }
    }

    #[tactic(auto, unfolding(crate::specs::Walks::begin))]
    fn begin(self, alloc: A, name: Text<A>) -> Result<Option<Self>, Fault>
        ensures begun { IfOk result (λ next. next ≡ begin self name) }
        ensures refused { IfErr result (λ fault. fault ≡ OutOfMemory) }
    {
        if self.times.is_some() {
            return Ok(None);
        }
        let done = self.into_sections()?;
        if done.len() >= MOST_SECTIONS {
            return Ok(None);
        }
        if is_named(&name, done.as_slice()) {
            return Ok(None);
        }
        Ok(Some(Progress {
            done,
            name: Some(name),
            pieces: Sequence::empty(alloc),
            times: None,
            lines: Sequence::empty(alloc),
        }))
    }

    #[tactic(auto, unfolding(crate::specs::Walks::open_repeat))]
    fn open_repeat(self, alloc: A, times: u32, closed: bool) -> Option<Self>
        ensures { result ≡ open_repeat self times closed }
    {
        if self.name.is_none() {
            return None;
        }
        if self.times.is_some() {
            return None;
        }
        if !closed {
            return None;
        }
        let Progress {
            done,
            name,
            pieces,
            ..
        } = self;
        Some(Progress {
            done,
            name,
            pieces,
            times: Some(times),
            lines: Sequence::empty(alloc),
        })
    }

    #[tactic(auto, unfolding(crate::specs::Walks::close_repeat))]
    fn close_repeat(self, alloc: A) -> Result<Option<Self>, Fault>
        ensures closed { IfOk result (λ next. next ≡ close_repeat self) }
        ensures refused { IfErr result (λ fault. fault ≡ OutOfMemory) }
    {
        let Progress {
            done,
            name,
            pieces,
            times,
            lines,
        } = self;
        match times {
            None => Ok(None),
            Some(times) => {
                let pieces = pieces.with(Piece::Repeat { times, lines })?;
                Ok(Some(Progress {
                    done,
                    name,
                    pieces,
                    times: None,
                    lines: Sequence::empty(alloc),
                }))
            }
        }
    }

    #[tactic(auto, unfolding(crate::specs::Walks::add))]
    fn add(self, line: Line<A>) -> Result<Option<Self>, Fault>
        ensures added { IfOk result (λ next. next ≡ add self line) }
        ensures refused { IfErr result (λ fault. fault ≡ OutOfMemory) }
    {
        let Progress {
            done,
            name,
            pieces,
            times,
            lines,
        } = self;
        match times {
            None => {
                if name.is_none() {
                    return Ok(None);
                }
                let pieces = pieces.with(Piece::One(line))?;
                Ok(Some(Progress {
                    done,
                    name,
                    pieces,
                    times,
                    lines,
                }))
            }
            Some(_) => {
                let lines = lines.with(line)?;
                Ok(Some(Progress {
                    done,
                    name,
                    pieces,
                    times,
                    lines,
                }))
            }
        }
    }

    /// With one more line, by what it says and by the text behind it; none where it can't stand there.
    pub(crate) fn take(
        self,
        alloc: A,
        row: ScriptRow<A>,
        behind: &[u8],
    ) -> Result<Option<Self>, Fault>
        ensures taken { IfOk result (λ next. next ≡ taken self row (lines_of behind.now)) }
        ensures refused { IfErr result (λ fault. fault ≡ OutOfMemory) }
    {
        match row {
            ScriptRow::Idle => Ok(Some(self)),
            ScriptRow::Section(name) => {
                let next = self.begin(alloc, name)?;
                Ok(next)
            }
            ScriptRow::Repeat(times) => {
                let closed = is_closed(behind);
                Ok(self.open_repeat(alloc, times, closed))
            }
            ScriptRow::End => {
                let next = self.close_repeat(alloc)?;
                Ok(next)
            }
            ScriptRow::Does(line) => {
                let next = self.add(line)?;
                Ok(next)
            }
        }
    }
}
