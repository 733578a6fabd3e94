//! Locking an object once no other thread has it locked, for the forms that wait.

ghost use Rattle.brc_count.specs.Frames.{IsUnlocked, Owns};
ghost use Rattle.brc_things.specs.Waiting.{BeginsLate};

use brc_count::biased::HasTable;
use brc_count::block::Block;
use brc_count::{Frame, Handle};
use std::alloc::Allocator;
use std::sync::Wait;
use std::thread::yield_now;

/// Locks the handle's object and answers its block, once no other thread has it locked, where the first try was lost.
/// Before each further try it gives the processor up.
#[cold]
#[inline(never)]
fn begin_again<H: HasTable<A>, A: Allocator>(
    rt: &impl Wait,
    frame: &mut Frame<H, A>,
    handle: &Handle<A>,
) -> Block<A>
    requires owned { Owns frame.old handle.now }
    requires unlocked { IsUnlocked frame.old }
    ensures { BeginsLate frame.old frame.new handle.now.place result }
{
    for _ in rt.forever() {
        yield_now();
        if let Some(block) = frame.begin(handle) {
            return block;
        }
    }
    unreachable!()
}

/// Locks the handle's object and answers its block, once no other thread has it locked. Between two tries it holds
/// nothing, and gives the processor up.
#[inline(always)]
pub fn begin_late<H: HasTable<A>, A: Allocator>(
    rt: &impl Wait,
    frame: &mut Frame<H, A>,
    handle: &Handle<A>,
) -> Block<A>
    requires owned { Owns frame.old handle.now }
    requires unlocked { IsUnlocked frame.old }
    ensures { BeginsLate frame.old frame.new handle.now.place result }
{
    match frame.begin(handle) {
        Some(block) => block,
        None => begin_again(rt, frame, handle),
    }
}
