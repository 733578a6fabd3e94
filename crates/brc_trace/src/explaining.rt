//! Why a text is no trace, or one whose events aren't all enabled: a second look, at the bytes that a replay has
//! refused.

ghost use Rattle.std.specs.Prelude.{◌≡◌, ◌≤◌, ◌+◌, IfOk, IfErr, IfSome, Some, None, take, length, false};
ghost use Rattle.brc_words.specs.declared.limits.TheConstants.{MOST_INPUT};
ghost use Rattle.law.specs.world.Heap.{Heap, opening_in};
ghost use Rattle.law.specs.world.Steps.{enabled};
ghost use Rattle.brc_trace.specs.Explaining.{WhyRefused, ExplainsEvents, Explains, Agrees, fault_of_why, without_why};
ghost use Rattle.brc_trace.specs.Replaying.{IsReplayed, Replays};
ghost use Rattle.brc_trace.specs.Traces.{first_number};
ghost use Rattle.brc_trace.specs.View.{listing};

use crate::causes::{Cause, cause_of};
use crate::finer::{Finer, finer_of};
use crate::replaying::run_replay;
use crate::standing::{Standing, seen};
use crate::trace::Trace;
use crate::trace_reading::{head_number, read_trace};
use brc_core::{Event, Refusal, StepFault, World};
use brc_text::read_input;
use brc_words::{Fault, MOST_INPUT, Reason};
use std::alloc::{AllocError, Allocator};
use std::io::{Read, Write};

/// An event that isn't enabled where it stands.
#[derive(Clone, Copy, Debug, PartialEq, Eq)]
pub struct Refused {
    /// Its line, counted from 1.
    pub line: u32,
    pub event: Event,
    /// Which of its conditions fails first.
    pub refusal: Refusal,
    /// Which part of that condition fails; none of a condition that has one part.
    pub finer: Option<Finer>,
    /// What stands there.
    pub standing: Standing,
}

/// Why a replay refuses a text.
#[derive(Clone, Copy, Debug, PartialEq, Eq)]
pub enum Why {
    /// It has more than 16,777,216 bytes.
    TooLong,
    /// The line is bad, the first one that is.
    Bad { line: u32, cause: Cause },
    /// Each line is one of a trace, and the first event that isn't enabled is this one.
    Refused(Refused),
}

/// Why this event, on this line, isn't made in the world.
fn refused_here<A: Allocator + Copy>(world: &World<A>, event: Event, line: u32) -> Refused
    requires { enabled world.now event ≡ false }

    ensures { WhyRefused world.now event line result }
{
    let refusal = world.refusal(&event).unwrap();
    Refused {
        line,
        event,
        refusal,
        finer: finer_of(world, event, refusal),
        standing: seen(world, event),
    }
}

/// Why the first of these events that isn't enabled isn't; none where each is. The first has this line.
fn explain_events<A: Allocator + Copy>(
    mut world: World<A>,
    events: &[Event],
    first: u32,
) -> Result<Option<Refused>, AllocError>
    requires few { length events.now ≤ MOST_INPUT }
    requires early { first ≤ 3 }

    ensures { IfOk result (ExplainsEvents world first events.now) }
{
    for (at, event) in events.iter().enumerate() {
        match world.step(event) {
            Ok(()) => {}
            Err(StepFault::NotEnabled) => {
                return Ok(Some(refused_here(&world, *event, at as u32 + first)));
            }
            Err(StepFault::Memory) => return Err(AllocError),
        }
    }
    Ok(None)
}

/// Why the trace is refused; none where it isn't.
fn explain_trace<A: Allocator + Copy>(
    alloc: A,
    trace: &Trace<A>,
) -> Result<Option<Refused>, AllocError>
    requires { length trace.now.events.items ≤ MOST_INPUT }

    ensures { IfOk result (ExplainsEvents (opening_in trace.now.edition trace.now.cells trace.now.local_limit)
        (first_number trace.now.edition) trace.now.events.items) }
{
    let first = head_number(trace.edition) + 1;
    match World::opening(alloc, trace.cells, trace.local_limit, trace.edition) {
        Ok(world) => explain_events(world, trace.events.as_slice(), first),
        Err(_) => Err(AllocError),
    }
}

/// Why a replay refuses the text; none where it doesn't.
fn reason_of<A: Allocator + Copy>(alloc: A, text: &[u8]) -> Result<Option<Why>, AllocError>
    ensures { IfOk result (Explains text.now) }
{
    if text.len() > MOST_INPUT {
        return Ok(Some(Why::TooLong));
    }
    let trace = match read_trace(alloc, text) {
        Ok(trace) => trace,
        Err(
            Fault::BadTrace {
                line,
                reason: Reason::NotALine,
            },
        ) => {
            let cause = cause_of(alloc, text, line)?;
            return Ok(Some(Why::Bad { line, cause }));
        }
        Err(_) => return Err(AllocError),
    };
    match explain_trace(alloc, &trace)? {
        Some(refused) => Ok(Some(Why::Refused(refused))),
        None => Ok(None),
    }
}

/// Why a replay refuses the text, and on which line; none exactly where it doesn't, but for want of memory. The text is
/// read and its events are made once more, and the list of them is kept.
pub fn explain<A: Allocator + Copy>(alloc: A, text: &[u8]) -> Result<Option<Why>, AllocError>
    ensures told { IfOk result (Explains text.now) }
    ensures none { (world : Heap) → IsReplayed text.now world → IfOk result (λ why. why ≡ None) }
{
    reason_of(alloc, text)
}

/// A replay that gave no world.
#[derive(Clone, Copy, Debug, PartialEq, Eq)]
pub struct Unreplayed {
    pub fault: Fault,
    /// Why the trace was refused; none of any other fault, or where memory for it is wanting.
    pub why: Option<Why>,
}

/// Why the bytes were refused with this fault.
// Want of memory takes nothing from what the replay has answered, so it is no fault of its own here.
fn why_refused<A: Allocator + Copy>(alloc: A, bytes: &[u8], fault: Fault) -> Option<Why>
    ensures why { IfSome result (λ why. Explains bytes.now (Some why)) }
    ensures agrees { Agrees bytes.now fault result }
{
    match fault {
        Fault::BadTrace { .. } => match explain(alloc, bytes) {
            Ok(why) => why,
            Err(_) => None,
        },
        _ => None,
    }
}

/// The same as `run_replay`, and why a bad trace is refused. The input is kept for that, and read once.
pub fn run_replay_explained<A: Allocator + Copy, R: Read + Drop, W: Write>(
    alloc: A,
    mut reader: R,
    writer: &mut W,
) -> Result<bool, Unreplayed>
    ensures replays { Replays (R.remaining reader) (W.contents writer.old) (W.contents writer.new)
        (without_why result) }
    ensures why { IfErr result (λ told. IfSome told.why (λ why. IfSome (R.remaining reader)
        (λ input. Explains (take (MOST_INPUT + 1) input) (Some why)))) }

    // The reason is that of the fault.
    ensures agrees { IfErr result (λ told. IfSome told.why (λ why. told.fault ≡ fault_of_why why)) }
{
    let input = match read_input(alloc, &mut reader) {
        Ok(input) => input,
        Err(fault) => return Err(Unreplayed { fault, why: None }),
    };
    match run_replay(alloc, input.as_slice(), writer) {
        Ok(live) => Ok(live),
        Err(fault) => {
            let why = why_refused(alloc, input.as_slice(), fault);
            Err(Unreplayed { fault, why })
        }
    }
}
