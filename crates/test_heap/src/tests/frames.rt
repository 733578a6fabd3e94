//! Steps on a thread's frame, and what is seen of it.

ghost use Rattle.brc_count.specs.Frames.{IsUnlocked};
ghost use Rattle.test_heap.specs.Calls.{Stays};

use crate::tests::calls::OnFrame;
use crate::tests::came::Came;
use crate::tests::steps::Given;
use brc_count::Frame;
use brc_count::biased::HasTable;
use std::alloc::Allocator;
use std::process::Abort;

/// The call, and what is seen then.
pub(super) fn on_frame<H: HasTable<A>, A: Allocator>(
    rt: &impl Abort,
    frame: &mut Frame<H, A>,
    call: OnFrame,
    given: Given<'_>,
) -> Came
    requires unlocked { IsUnlocked frame.old }
    ensures { Stays frame.old frame.new }
{
    match call {
        OnFrame::Handles => Came::Count(frame.len() as u64),
        OnFrame::Ledger => {
            let ledger = frame.ledger();
            Came::Ledger(ledger.allocs, ledger.frees)
        }
        OnFrame::Work => Came::Count(frame.work(given.place(rt)) as u64),
        OnFrame::Poll => Came::Is(frame.poll() > 0),
        OnFrame::IsIdle => Came::Is(frame.is_idle()),
        OnFrame::SparePlace => Came::Is(frame.spare_place().is_some()),
        OnFrame::ClaimFrom => {
            frame.claim_from(given.number(rt));
            Came::Passed
        }
        OnFrame::ClaimNear => {
            frame.claim_near(given.number(rt));
            Came::Passed
        }
    }
}
