//! Why `nudge` can't tell whom it tells, and what `close` would leave behind.

ghost use Rattle.std.specs.Prelude.{◌≡◌};
ghost use Rattle.brc_trace.specs.ToldReasons.{nudge_reason as nudge_of, leave_reason as leave_of};
ghost use Rattle.brc_trace.specs.ToldReasons.{told_reason as told_of};

use crate::lowest::{SoughtThread, lowest};
use brc_core::{Edition, Step, World};
use law::world::words_for;
use std::alloc::Allocator;

/// What isn't as `nudge` or `close` needs it, of those that it tells or leaves.
#[derive(Clone, Copy, Debug, PartialEq, Eq)]
pub enum ToldReason {
    /// This thread isn't registered.
    NotRegistered(u32),
    /// This thread has no such queue word.
    NoWord { thread: u32, word: u32 },
    /// In the first edition a cell is still on the thread's worklist: the lowest.
    StillWork(Option<u32>),
    /// In the second the thread still owns an object that isn't dead: in the lowest such cell.
    StillOwns(u32),
}

/// Why the thread can't be told to drain the queue word.
fn nudge_reason<A: Allocator + Copy>(world: &World<A>, thread: u32, word: u32) -> Option<ToldReason>
    ensures { result ≡ nudge_of world.now thread word }
{
    if thread == 0 || thread > world.registered() {
        Some(ToldReason::NotRegistered(thread))
    } else if word as usize >= words_for(world.cells() as usize) {
        Some(ToldReason::NoWord { thread, word })
    } else {
        None
    }
}

/// What of its objects a thread that closes would leave behind.
fn leave_reason<A: Allocator + Copy>(world: &World<A>, thread: u32) -> Option<ToldReason>
    ensures { result ≡ leave_of world.now.edition world.now thread }
{
    match world.edition() {
        Edition::One => {
            if world.has_no_work(thread) {
                None
            } else {
                Some(ToldReason::StillWork(lowest(world, thread, SoughtThread::Work)))
            }
        }
        Edition::Two => match lowest(world, thread, SoughtThread::Owned) {
            Some(cell) => Some(ToldReason::StillOwns(cell)),
            None => None,
        },
    }
}

/// Why the thread's step can't tell or leave what it would; none where it can.
pub(crate) fn told_reason<A: Allocator + Copy>(
    world: &World<A>,
    thread: u32,
    step: Step,
) -> Option<ToldReason>
    ensures { result ≡ told_of world.now thread step }
{
    match step {
        Step::Nudge { thread, word } => nudge_reason(world, thread, word),
        Step::Close(_) => leave_reason(world, thread),
        _ => None,
    }
}
