//! One object's life: a chain of lists, of which each holds the next, or one long list is made, released, and taken
//! apart to the end.

ghost use Rattle.std.specs.Prelude.{⊤};
ghost use Rattle.brc_count.specs.Frames.{IsUnlocked};
ghost use Rattle.brc_count.specs.Owned.{Keeps};

use crate::containers::{Spot, put_in};
use crate::timing::{Moment, Span, refused, this_moment};
use brc_count::biased::HasTable;
use brc_count::{Frame, Handle};
use brc_loops::{Passing, Source, pass_on};
use brc_things::new_list;
use brc_words::MOST_PLACES;
use std::alloc::Allocator;
use std::io;
use std::rt::Clock;
use std::sync::Wait;
use std::time::CpuClock;

/// A chain, which goes into a new list at each turn.
struct Linking<'r, R, A: Allocator> {
    rt: &'r R,
    alloc: A,
    chain: Handle<A>,
}

impl<'r, R: Wait, H: HasTable<A>, A: Allocator + Copy> Passing<H, A> for Linking<'r, R, A> {
    ghost held = { λ it. it.chain };

    ghost ready = { λ _ _. ⊤ };

    #[inline(always)]
    fn pass(self, frame: &mut Frame<H, A>, _before: u64) -> Option<Self> {
        let Linking { rt, alloc, chain } = self;
        let Ok(list) = new_list(alloc, frame) else {
            frame.release(chain);
            return None;
        };
        if put_in(rt, frame, &list, Spot::End, chain).is_none() {
            frame.release(list);
            return None;
        }
        Some(Linking {
            rt,
            alloc,
            chain: list,
        })
    }
}

/// Chains of so many lists, or of one where that is 0.
#[derive(Drop)]
pub struct Chains<'r, R, A> {
    pub rt: &'r R,
    pub alloc: A,
    pub count: u64,
}

impl<'r, R: Wait, H: HasTable<A>, A: Allocator + Copy> Source<H, A> for Chains<'r, R, A> {
    #[tactic(auto, using(crate::proofs::Chained::chained_gains, crate::proofs::Chained::chained_keeps))]
    fn next(&self, frame: &mut Frame<H, A>, _before: u64) -> Option<Handle<A>> {
        let rt = self.rt;
        let alloc = self.alloc;
        let chain = new_list(alloc, frame).ok()?;
        let linking = Linking { rt, alloc, chain };
        let Linking {
            rt: _rt,
            alloc: _alloc,
            chain,
        } = pass_on(linking, frame, self.count.saturating_sub(1))?;
        // (a place of the frame, but no clause of a trade says so)
        if chain.place() < MOST_PLACES {
            return Some(chain);
        }
        frame.release(chain);
        None
    }
}

/// When the making of an object began, when the object stood, and when nothing was left to take apart of it.
#[derive(Clone, Copy)]
pub struct Life {
    pub began: Moment,
    pub stood: Moment,
    pub gone: Moment,
}

impl Life {
    /// The object's making.
    pub fn making(self) -> Span {
        Span {
            began: self.began,
            ended: self.stood,
        }
    }

    /// Its release, and all that is taken apart after it.
    pub fn end(self) -> Span {
        Span {
            began: self.stood,
            ended: self.gone,
        }
    }
}

/// The life of the source's next object; or why it can't be had.
pub fn life_of<S: Source<H, A>, R: Clock + CpuClock, H: HasTable<A>, A: Allocator>(
    rt: &R,
    source: &S,
    frame: &mut Frame<H, A>,
) -> io::Result<Life>
    requires unlocked { IsUnlocked frame.old }
    ensures keeps { Keeps frame.old frame.new }
    ensures unlocked { IsUnlocked frame.new }
{
    let began = this_moment(rt);
    let made = source.next(frame, 0);
    let stood = this_moment(rt);
    let Some(object) = made else {
        return Err(refused());
    };
    frame.release(object);
    frame.work(1 << 30);
    let gone = this_moment(rt);
    Ok(Life {
        began: began?,
        stood: stood?,
        gone: gone?,
    })
}
