//! What of a refused event's condition fails, where the condition has several parts.

ghost use Rattle.std.specs.Prelude.{◌≡◌};
ghost use Rattle.brc_trace.specs.Finer.{finer_of as finer_reason};

use crate::cell_reasons::{CellReason, cell_reason_at};
use crate::own_reasons::{OwnReason, own_reason_at};
use crate::standing::meant_cell;
use crate::told_reasons::{ToldReason, told_reason};
use brc_core::{Event, Refusal, World};
use std::alloc::Allocator;

/// Which part of a condition fails.
#[derive(Clone, Copy, Debug, PartialEq, Eq)]
pub enum Finer {
    /// Of the thread's own part.
    Own(OwnReason),
    /// Of whom it tells, or what it leaves.
    Told(ToldReason),
    /// Of the cell that it means.
    Cell(CellReason),
}

/// Which part of the condition fails that the event is refused for; none of a condition that has one part.
pub(crate) fn finer_of<A: Allocator + Copy>(
    world: &World<A>,
    event: Event,
    refusal: Refusal,
) -> Option<Finer>
    ensures { result ≡ finer_reason world.now event refusal }
{
    match refusal {
        Refusal::OwnPart => match own_reason_at(world, event) {
            Some(reason) => Some(Finer::Own(reason)),
            None => None,
        },
        Refusal::Told => match told_reason(world, event.thread, event.step) {
            Some(reason) => Some(Finer::Told(reason)),
            None => None,
        },
        Refusal::Cell => {
            let means = meant_cell(world, event.thread, event.step);
            match cell_reason_at(world, event.thread, event.step, means) {
                Some(reason) => Some(Finer::Cell(reason)),
                None => None,
            }
        }
        _ => None,
    }
}
