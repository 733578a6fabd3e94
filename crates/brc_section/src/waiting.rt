//! `fetch` and `recv`, which wait where what they look for isn't there.

ghost use Rattle.std.specs.Prelude.{IsTrue};
ghost use Rattle.brc_section.specs.Waiting.{FollowsLetter, FoundNothing, WantsForLetter};

use crate::board::Board;
use brc_count::Frame;
use brc_count::biased::HasTable;
use brc_instructions::{Done, Execute, Registers, TakeOut, TakeOutGlobal, TakingOut};
use brc_script::Register;
use brc_words::{Fault, Key};
use std::alloc::Allocator;
use std::hint;
use std::sync::Wait;

/// How many times a section tries before the board is told that it looks.
const TRIES: u32 = 100;

/// Which section of a board it is, and how much its thread works between two instructions.
#[derive(Drop)]
pub(crate) struct SectionContext<'b, A: Allocator> {
    pub(crate) board: &'b Board<A>,
    pub(crate) number: u32,
    pub(crate) budget: usize,
}

/// What a section waits for: that something has the name, or a letter in the mailbox of a register.
#[derive(Drop)]
pub(crate) enum AwaitedHere<'k, A: Allocator> {
    Name(&'k Key<A>),
    Letter(Register),
}

/// One try.
#[derive(Drop)]
pub(crate) struct LookTry<'k, A: Allocator> {
    pub(crate) to: Register,
    pub(crate) awaited: AwaitedHere<'k, A>,
}

impl<'k, R: Wait, H: HasTable<A>, A: Allocator + Copy> Execute<R, H, A> for LookTry<'k, A> {
    ghost follows = { λ it. FollowsLetter it.awaited it.to };

    ghost why = { λ it. WantsForLetter it.awaited };

    fn act(&self, rt: &R, alloc: A, frame: &mut Frame<H, A>, registers: &mut Registers<A>) -> Done {
        match &self.awaited {
            AwaitedHere::Name(name) => {
                let give = TakeOutGlobal {
                    to: self.to,
                    giving: TakingOut::Find(*name),
                };
                give.act(rt, alloc, frame, registers)
            }
            AwaitedHere::Letter(mailbox) => {
                let give = TakeOut {
                    to: self.to,
                    container: *mailbox,
                    giving: TakingOut::Receive,
                };
                give.act(rt, alloc, frame, registers)
            }
        }
    }
}

/// Whether the try found nothing, so that another may find something.
fn is_nothing(tried: &Done) -> bool
    ensures { IsTrue result → FoundNothing tried.now }
{
    matches!(tried, Err(Fault::NoSuchKey | Fault::NoSuchPlace))
}

/// One try, after a poll and work: what others dropped meanwhile is this thread's to free, and a section that waited
/// without it would keep every cell of theirs. Between two tries the processor pauses, and its time is not given away.
#[derive(Drop)]
struct LookNext<'w, A: Allocator> {
    look: &'w LookTry<'w, A>,
    own: &'w SectionContext<'w, A>,
}

impl<'w, R: Wait, H: HasTable<A>, A: Allocator + Copy> Execute<R, H, A> for LookNext<'w, A> {
    ghost follows = { λ it. FollowsLetter it.look.now.awaited it.look.now.to };

    ghost why = { λ it. WantsForLetter it.look.now.awaited };

    fn act(&self, rt: &R, alloc: A, frame: &mut Frame<H, A>, registers: &mut Registers<A>) -> Done {
        let _told = frame.poll();
        let _left = frame.work(self.own.budget);
        hint::spin_loop();
        self.look.act(rt, alloc, frame, registers)
    }
}

/// `TRIES` tries, up to the first that finds something or is refused.
///
/// A section tries before it sleeps, since to sleep and be woken takes longer than most handovers do. The board
/// doesn't know of these tries. A change that comes meanwhile wakes nobody, and needn't: the next try finds it, and
/// after the last comes one that the board knows of (`LookAgain`). A section that waits so still polls and works.
#[derive(Drop)]
struct LookSoon<'w, A: Allocator> {
    look: &'w LookTry<'w, A>,
    own: &'w SectionContext<'w, A>,
}

impl<'w, R: Wait, H: HasTable<A>, A: Allocator + Copy> Execute<R, H, A> for LookSoon<'w, A> {
    ghost follows = { λ it. FollowsLetter it.look.now.awaited it.look.now.to };

    ghost why = { λ it. WantsForLetter it.look.now.awaited };

    fn act(&self, rt: &R, alloc: A, frame: &mut Frame<H, A>, registers: &mut Registers<A>) -> Done {
        let next = LookNext {
            look: self.look,
            own: self.own,
        };
        for _ in 1..TRIES {
            let tried = next.act(rt, alloc, frame, registers);
            if !is_nothing(&tried) {
                return tried;
            }
        }
        next.act(rt, alloc, frame, registers)
    }
}

/// One round after another: tries that the board doesn't know of, then one that it knows of, and then the section
/// sleeps until something has changed.
#[derive(Drop)]
struct LookAgain<'w, A: Allocator> {
    look: &'w LookTry<'w, A>,
    own: &'w SectionContext<'w, A>,
}

impl<'w, R: Wait, H: HasTable<A>, A: Allocator + Copy> Execute<R, H, A> for LookAgain<'w, A> {
    ghost follows = { λ it. FollowsLetter it.look.now.awaited it.look.now.to };

    ghost why = { λ it. WantsForLetter it.look.now.awaited };

    fn act(&self, rt: &R, alloc: A, frame: &mut Frame<H, A>, registers: &mut Registers<A>) -> Done {
        let own = self.own;
        let tries = LookSoon {
            look: self.look,
            own,
        };
        for _ in rt.forever() {
            let soon = tries.act(rt, alloc, frame, registers);
            if !is_nothing(&soon) {
                return soon;
            }
            let _told = frame.poll();
            let _left = frame.work(own.budget);
            own.board.looks(rt, own.number);
            let tried = self.look.act(rt, alloc, frame, registers);
            if !is_nothing(&tried) {
                own.board.found();
                return tried;
            }
            if !own.board.waits(rt, own.number) {
                return tried;
            }
        }
        unreachable!()
    }
}

/// Where it isn't there, the section waits. One that finds it at once has nothing to do with the board.
#[derive(Drop)]
pub(crate) struct Await<'w, A: Allocator> {
    pub(crate) look: LookTry<'w, A>,
    pub(crate) own: &'w SectionContext<'w, A>,
}

impl<'w, R: Wait, H: HasTable<A>, A: Allocator + Copy> Execute<R, H, A> for Await<'w, A> {
    ghost follows = { λ it. FollowsLetter it.look.awaited it.look.to };

    ghost why = { λ it. WantsForLetter it.look.awaited };

    #[inline(always)]
    fn act(&self, rt: &R, alloc: A, frame: &mut Frame<H, A>, registers: &mut Registers<A>) -> Done {
        // An empty register is no mailbox without letters: nobody can change that.
        if let AwaitedHere::Letter(mailbox) = &self.look.awaited {
            if registers.get(*mailbox).is_none() {
                return Err(Fault::NoSuchPlace);
            }
        }
        let tried = self.look.act(rt, alloc, frame, registers);
        if !is_nothing(&tried) {
            return tried;
        }
        let again = LookAgain {
            look: &self.look,
            own: self.own,
        };
        again.act(rt, alloc, frame, registers)
    }
}
