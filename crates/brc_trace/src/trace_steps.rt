//! The world to which a text leads: each event is made as its line is read, so that no list of events is kept.

ghost use Rattle.std.specs.Prelude.{◌≡◌, ◌+◌, ◌≤◌, length, MatchResult};
ghost use Rattle.brc_text.specs.Lines.{pieces};
ghost use Rattle.brc_trace.specs.Traces.{first_number, events_at};
ghost use Rattle.brc_trace.specs.Replaying.{IsReplayed, LeadsNowhere, ReplaysLines, told};

use crate::event_line::read_event;
use crate::trace_reading::{head_number, not_a_line, read_head};
use brc_core::{Edition, StepFault, World};
use brc_text::Words;
use brc_words::{Fault, MOST_INPUT, Reason};
use std::alloc::Allocator;

/// The fault of a trace whose event on this line isn't enabled. A bad line is told before it, so the lines behind are
/// still read, and none of their events is made.
// Apart, since it is made once at most.
#[inline(never)]
fn fault_of_refused(edition: Edition, words: &mut Words, behind: &[u8], refused: u32) -> Fault
    requires { refused + length behind.now ≤ MOST_INPUT + 2 }

    ensures { result ≡ told refused (events_at edition (refused + 1) (pieces behind.now)) }
{
    let mut rest = behind;
    let mut number = refused + 1;
    while !rest.is_empty() {
        let Some((_, later)) = read_event(edition, words, rest) else {
            return not_a_line(number);
        };
        number += 1;
        rest = later;
    }
    Fault::BadTrace {
        line: refused,
        reason: Reason::NotEnabled,
    }
}

/// Makes the events of the lines behind the head.
fn step_lines<A: Allocator + Copy>(
    edition: Edition,
    world: &mut World<A>,
    words: &mut Words,
    text: &[u8],
) -> Result<(), Fault>
    requires { length text.now ≤ MOST_INPUT }

    ensures { ReplaysLines result world.old world.new (first_number edition)
        (events_at edition (first_number edition) (pieces text.now)) }
{
    let mut rest = text;
    let mut number = head_number(edition) + 1;
    while !rest.is_empty() {
        let Some((event, behind)) = read_event(edition, words, rest) else {
            return Err(not_a_line(number));
        };
        match world.step(&event) {
            Ok(()) => {}
            Err(StepFault::NotEnabled) => {
                return Err(fault_of_refused(edition, words, behind, number));
            }
            Err(StepFault::Memory) => return Err(Fault::OutOfMemory),
        }
        number += 1;
        rest = behind;
    }
    Ok(())
}

/// The world to which the text leads.
pub(crate) fn world_of<A: Allocator + Copy>(alloc: A, text: &[u8]) -> Result<World<A>, Fault>
    ensures { MatchResult result (IsReplayed text.now) (λ fault. LeadsNowhere fault text.now) }
{
    let mut words = Words::new();
    let (head, behind) = read_head(&mut words, text)?;
    let mut world = World::opening(alloc, head.cells, head.local_limit, head.edition)?;
    step_lines(head.edition, &mut world, &mut words, behind)?;
    Ok(world)
}
