//! Reading a trace.

ghost use Rattle.std.specs.Prelude.{◌≡◌, ◌≤◌, length, Some, Ok, IfOk, MatchOption, MatchResult};
ghost use Rattle.brc_text.specs.Lines.{pieces};
ghost use Rattle.brc_trace.specs.Traces.{Listing, IsTrace, trace_text, mark_at, head_at, head_number as number_of_head};
ghost use Rattle.brc_trace.specs.Traces.{first_number, events_at, headed_at, lines_at, trace_at, by_line, bad_line};
ghost use Rattle.brc_trace.specs.Traces.{IsHead, RefusesTrace, ReadsTrace, is_size as size_fits};
ghost use Rattle.brc_trace.specs.Traces.{is_limit as limit_fits};
ghost use Rattle.brc_trace.specs.View.{listing};

use crate::event_line::read_event;
use crate::trace::Trace;
use brc_text::{Keyword, Token, Words};
use brc_words::{FEWEST_CELLS, Fault, MOST_CELLS, MOST_INPUT, MOST_LOCAL, Reason};
use law::world::{Edition, Event};
use std::alloc::Allocator;

/// The fault of a line that isn't one of a trace.
pub(crate) fn not_a_line(line: u32) -> Fault
    ensures { result ≡ bad_line line }
{
    Fault::BadTrace {
        line,
        reason: Reason::NotALine,
    }
}

fn is_size(cells: u64) -> bool
    ensures { result ≡ size_fits cells }
{
    FEWEST_CELLS as u64 <= cells && cells <= MOST_CELLS as u64
}

fn is_limit(local_limit: u64) -> bool
    ensures { result ≡ limit_fits local_limit }
{
    1 <= local_limit && local_limit <= MOST_LOCAL as u64
}

/// The number of the head's line: in format 2 a mark stands above it.
#[inline(always)]
pub(crate) fn head_number(edition: Edition) -> u32
    ensures { result ≡ number_of_head edition }
{
    match edition {
        Edition::One => 1,
        Edition::Two => 2,
    }
}

/// The edition that a mark names; none where the words are no mark.
fn mark_of_words(words: &[Token]) -> Option<Edition>
    ensures { result ≡ mark_at words.now }
{
    match words {
        [Token::Word(Keyword::Trace), Token::Number(2)] => Some(Edition::Two),
        _ => None,
    }
}

/// The numbers of cells and the local limit that the head asks for.
fn head_of_words(words: &[Token]) -> Option<(u32, u32)>
    ensures { result ≡ head_at words.now }
{
    match words {
        [
            Token::Word(Keyword::Heap),
            Token::Number(cells),
            Token::Number(local_limit),
        ] if is_size(*cells) && is_limit(*local_limit) => {
            Some((*cells as u32, *local_limit as u32))
        }
        _ => None,
    }
}

/// Reads the head's line, and answers what stands behind it; none where the text begins with none.
fn read_heap<'t>(words: &mut Words, text: &'t [u8]) -> Option<((u32, u32), &'t [u8])>
    ensures { MatchOption result (by_line head_at text.now ≡ None)
        (λ found. by_line head_at text.now ≡ Some (found.0, found.1.now)) }
{
    let Some(behind) = words.read(text) else {
        return None;
    };
    let Some(head) = head_of_words(words.tokens()) else {
        return None;
    };
    Some((head, behind))
}

/// Reads the mark, and answers what stands behind it; none where the text begins with none.
pub(crate) fn read_mark<'t>(words: &mut Words, text: &'t [u8]) -> Option<(Edition, &'t [u8])>
    ensures { MatchOption result (by_line mark_at text.now ≡ None)
        (λ found. by_line mark_at text.now ≡ Some (found.0, found.1.now)) }
{
    let Some(behind) = words.read(text) else {
        return None;
    };
    let Some(edition) = mark_of_words(words.tokens()) else {
        return None;
    };
    Some((edition, behind))
}

/// Reads the mark where there is one; the edition of the trace, and its text from the head on.
fn read_edition<'t>(words: &mut Words, text: &'t [u8]) -> (Edition, &'t [u8])
    ensures lines { lines_at (pieces text.now) ≡ headed_at result.0 (pieces result.1.now) }
    ensures shorter { length result.1.now ≤ length text.now }
{
    match read_mark(words, text) {
        Some((edition, below)) => (edition, below),
        None => (Edition::One, text),
    }
}

/// What a trace begins with: its edition and the heap that it asks for.
#[derive(Clone, Copy, Debug, PartialEq, Eq)]
pub(crate) struct Head {
    pub(crate) edition: Edition,
    pub(crate) cells: u32,
    pub(crate) local_limit: u32,
}

/// Reads the head, with the mark above it where there is one, and answers what stands behind it: the lines of events.
/// Refusals are line 0, for a text of more than 16,777,216 bytes, and the line where the head would stand.
pub(crate) fn read_head<'t>(words: &mut Words, text: &'t [u8]) -> Result<(Head, &'t [u8]), Fault>
    ensures { MatchResult result
        (λ found. IsHead text.now found.0.edition (found.0.cells, found.0.local_limit) found.1.now)
        (λ fault. RefusesTrace fault (trace_at text.now)) }
{
    if text.len() > MOST_INPUT {
        return Err(not_a_line(0));
    }
    let (edition, headed) = read_edition(words, text);
    let Some(((cells, local_limit), behind)) = read_heap(words, headed) else {
        return Err(not_a_line(head_number(edition)));
    };
    let head = Head {
        edition,
        cells,
        local_limit,
    };
    Ok((head, behind))
}

/// The events of the lines behind the head.
fn events_of<A: Allocator>(
    alloc: A,
    edition: Edition,
    words: &mut Words,
    text: &[u8],
) -> Result<Vec<Event, A>, Fault>
    requires { length text.now ≤ MOST_INPUT }

    ensures { ReadsTrace (λ events. events.items) result (events_at edition (first_number edition) (pieces text.now)) }
{
    let mut events = Vec::new(alloc);
    let mut rest = text;
    let mut number = head_number(edition) + 1;
    while !rest.is_empty() {
        let Some((event, behind)) = read_event(edition, words, rest) else {
            return Err(not_a_line(number));
        };
        events.push(event)?;
        number += 1;
        rest = behind;
    }
    Ok(events)
}

/// The trace that the text spells, or its first bad line.
fn trace_of<A: Allocator>(alloc: A, text: &[u8]) -> Result<Trace<A>, Fault>
    ensures { ReadsTrace listing result (trace_at text.now) }
{
    let mut words = Words::new();
    let (head, behind) = read_head(&mut words, text)?;
    let events = events_of(alloc, head.edition, &mut words, behind)?;
    Ok(Trace {
        edition: head.edition,
        cells: head.cells,
        local_limit: head.local_limit,
        events,
    })
}

/// Reads a trace: the whole text, which has one spelling. Refusals are the first bad line, counted from 1 (0 for a text
/// of more than 16,777,216 bytes), and want of memory.
pub fn read_trace<A: Allocator>(alloc: A, text: &[u8]) -> Result<Trace<A>, Fault>
    // What is read is spelled so.
    ensures found { IfOk result (λ trace. IsTrace (listing trace) × (text.now ≡ trace_text (listing trace))) }
    // What is spelled so is read, unless memory runs out.
    ensures only { (trace : Listing) → IsTrace trace → length text.now ≤ MOST_INPUT → text.now ≡ trace_text trace →
        ReadsTrace listing result (Ok trace) }
    // Which line is told.
    ensures exact { ReadsTrace listing result (trace_at text.now) }
{
    trace_of(alloc, text)
}
