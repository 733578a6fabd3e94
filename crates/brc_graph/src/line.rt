//! What one line is, and what is drawn for it.

ghost use Rattle.std.specs.Prelude.{◌≡◌, IfOk, IfErr};
ghost use Rattle.brc_graph.specs.declared.undrawn.Undrawn.TheVariants.{OutOfMemory};
ghost use Rattle.brc_graph.specs.Lines.{lying_at, placed_at, thread_at, hand_at, hand_drawn, entry_at, object_at};
ghost use Rattle.brc_graph.specs.Lines.{remain_at, world_at, ledger_at, counts_at, plain_at, drawn_at, step_at};

use crate::cells::{HIGHEST_CELL, cells_of};
use crate::cutting::cut;
use crate::drawn::Drawn;
use crate::first_word::{FirstWord, first_word_of};
use crate::names::is_printed;
use crate::operands::{
    any_ahead, count_ahead, count_of, local_ahead, number_ahead, number_within, word_ahead,
    word_among,
};
use crate::part::{TextPart, after, may_be_printed};
use crate::undrawn::Undrawn;
use brc_text::{Keyword, number_of};
use brc_words::{FEWEST_CELLS, FIRST_MORTAL, MOST_CELLS, MOST_LOCAL, MOST_THREADS};
use std::alloc::Allocator;

/// The kinds of objects that die.
const KINDS: [Keyword; 5] = [
    Keyword::Int,
    Keyword::Text,
    Keyword::List,
    Keyword::Dict,
    Keyword::Mailbox,
];

/// How far a thread's life is.
const STATUSES: [Keyword; 5] = [
    Keyword::Active,
    Keyword::Closing,
    Keyword::Left,
    Keyword::Gathered,
    Keyword::Opening,
];

/// What a hand is busy with.
const PHASES: [Keyword; 13] = [
    Keyword::Claimed,
    Keyword::Counted,
    Keyword::Ready,
    Keyword::Zero,
    Keyword::Over,
    Keyword::Untied,
    Keyword::Asked,
    Keyword::Shut,
    Keyword::Taking,
    Keyword::Held,
    Keyword::Popping,
    Keyword::Offered,
    Keyword::Yielding,
];

/// The states of an object.
const STATES: [Keyword; 3] = [Keyword::Default, Keyword::Queued, Keyword::Merged];

/// The highest index of an entry.
const HIGHEST_INDEX: u32 = 1_048_575;

/// The highest place of a frame.
const HIGHEST_PLACE: u32 = 65_535;

// ---- operands in a row

/// `T C`.
#[tactic(auto, unfolding(crate::specs::Lines::lying_at))]
fn lying_of(rest: &[u8]) -> Option<(u32, u32)>
    ensures { result ≡ lying_at rest.now }
{
    let Some((thread, rest)) = number_ahead(rest, 1, MOST_THREADS) else {
        return None;
    };
    let Some(cell) = number_within(rest, 0, HIGHEST_CELL) else {
        return None;
    };
    Some((thread, cell))
}

/// `T K C`.
#[tactic(auto, unfolding(crate::specs::Lines::placed_at))]
fn placed_of(rest: &[u8]) -> Option<(u32, u32, u32)>
    ensures { result ≡ placed_at rest.now }
{
    let Some((thread, rest)) = number_ahead(rest, 1, MOST_THREADS) else {
        return None;
    };
    let Some((place, rest)) = number_ahead(rest, 0, HIGHEST_PLACE) else {
        return None;
    };
    let Some(cell) = number_within(rest, 0, HIGHEST_CELL) else {
        return None;
    };
    Some((thread, place, cell))
}

/// `T STATUS`.
#[tactic(auto, unfolding(crate::specs::Lines::thread_at))]
fn thread_of(rest: &[u8]) -> Option<(u32, Keyword)>
    ensures { result ≡ thread_at rest.now }
{
    let Some((thread, rest)) = number_ahead(rest, 1, MOST_THREADS) else {
        return None;
    };
    let Some(status) = word_among(&STATUSES, rest) else {
        return None;
    };
    Some((thread, status))
}

/// `T PHASE C`.
#[tactic(auto, unfolding(crate::specs::Lines::hand_at))]
fn hand_of(rest: &[u8]) -> Option<(u32, Keyword, u32)>
    ensures { result ≡ hand_at rest.now }
{
    let Some((thread, rest)) = number_ahead(rest, 1, MOST_THREADS) else {
        return None;
    };
    let Some((phase, rest)) = word_ahead(&PHASES, rest) else {
        return None;
    };
    let Some(cell) = number_within(rest, 0, HIGHEST_CELL) else {
        return None;
    };
    Some((thread, phase, cell))
}

/// `C I X`.
#[tactic(auto, unfolding(crate::specs::Lines::entry_at))]
fn entry_of(rest: &[u8]) -> Option<(u32, u32, u32)>
    ensures { result ≡ entry_at rest.now }
{
    let Some((cell, rest)) = number_ahead(rest, 0, HIGHEST_CELL) else {
        return None;
    };
    let Some((index, rest)) = number_ahead(rest, 0, HIGHEST_INDEX) else {
        return None;
    };
    let Some(entry) = number_within(rest, 0, HIGHEST_CELL) else {
        return None;
    };
    Some((cell, index, entry))
}

/// `C KIND H`.
#[tactic(auto, unfolding(crate::specs::Lines::remain_at))]
fn remain_of(rest: &[u8]) -> Option<(u32, Keyword, u32)>
    ensures { result ≡ remain_at rest.now }
{
    let Some((cell, rest)) = number_ahead(rest, FIRST_MORTAL, HIGHEST_CELL) else {
        return None;
    };
    let Some((kind, rest)) = word_ahead(&KINDS, rest) else {
        return None;
    };
    let Some(holder) = number_within(rest, 0, HIGHEST_CELL) else {
        return None;
    };
    Some((cell, kind, holder))
}

/// `N L`.
#[tactic(auto, unfolding(crate::specs::Lines::world_at))]
fn world_of(rest: &[u8]) -> Option<(u32, u32)>
    ensures { result ≡ world_at rest.now }
{
    let Some((cells, rest)) = number_ahead(rest, FEWEST_CELLS, MOST_CELLS) else {
        return None;
    };
    let Some(limit) = number_within(rest, 1, MOST_LOCAL) else {
        return None;
    };
    Some((cells, limit))
}

/// `ALLOCS FREES LIVE`: the number of objects that live.
#[tactic(auto, unfolding(crate::specs::Lines::ledger_at))]
fn ledger_of(rest: &[u8]) -> Option<u64>
    ensures { result ≡ ledger_at rest.now }
{
    let Some((_allocs, rest)) = any_ahead(rest) else {
        return None;
    };
    let Some((_frees, rest)) = any_ahead(rest) else {
        return None;
    };
    number_of(rest)
}

/// `OWNER LOCAL COUNT STATE TOTAL`: the total.
#[tactic(auto, unfolding(crate::specs::Lines::counts_at))]
fn counts_of(rest: &[u8]) -> Option<u64>
    ensures { result ≡ counts_at rest.now }
{
    let Some((_owner, rest)) = number_ahead(rest, 0, MOST_THREADS) else {
        return None;
    };
    let Some((_local, rest)) = local_ahead(rest) else {
        return None;
    };
    let Some((_count, rest)) = count_ahead(rest) else {
        return None;
    };
    let Some((_state, rest)) = word_ahead(&STATES, rest) else {
        return None;
    };
    count_of(rest)
}

/// `C KIND OWNER LOCAL COUNT STATE TOTAL`: the cell and its kind.
#[tactic(auto, unfolding(crate::specs::Lines::object_at))]
fn object_of(rest: &[u8]) -> Option<(u32, Keyword)>
    ensures { result ≡ object_at rest.now }
{
    let Some((cell, rest)) = number_ahead(rest, FIRST_MORTAL, HIGHEST_CELL) else {
        return None;
    };
    let Some((kind, rest)) = word_ahead(&KINDS, rest) else {
        return None;
    };
    let Some(_total) = counts_of(rest) else {
        return None;
    };
    Some((cell, kind))
}

// ---- what is drawn

/// Of a hand: the reference that it carries, if its phase has one.
fn hand_drawn<A: Allocator>(thread: u32, phase: Keyword, cell: u32) -> Drawn<A>
    ensures { result ≡ hand_drawn thread phase cell }
{
    match phase {
        Keyword::Asked => Drawn::Held {
            thread,
            by: phase,
            cell,
        },
        Keyword::Shut => Drawn::Held {
            thread,
            by: phase,
            cell,
        },
        Keyword::Taking => Drawn::Held {
            thread,
            by: phase,
            cell,
        },
        Keyword::Held => Drawn::Held {
            thread,
            by: phase,
            cell,
        },
        _ => Drawn::Nothing,
    }
}

/// By the first word of the line and what stands behind it; a cycle's is apart.
fn plain_of<A: Allocator>(word: FirstWord, rest: &[u8]) -> Option<Drawn<A>>
    ensures { result ≡ plain_at word rest.now }
{
    match word {
        FirstWord::Ledger => {
            let _live = ledger_of(rest)?;
            Some(Drawn::Nothing)
        }
        FirstWord::Remain => {
            let (cell, kind, holder) = remain_of(rest)?;
            Some(Drawn::Remain { cell, kind, holder })
        }
        FirstWord::Cycle => None,
        FirstWord::Edition => {
            let _edition = number_within(rest, 2, 2)?;
            Some(Drawn::Nothing)
        }
        FirstWord::World => {
            let (_cells, _limit) = world_of(rest)?;
            Some(Drawn::Nothing)
        }
        FirstWord::Thread => {
            let (thread, status) = thread_of(rest)?;
            Some(Drawn::Thread { thread, status })
        }
        FirstWord::Hand => {
            let (thread, phase, cell) = hand_of(rest)?;
            Some(hand_drawn(thread, phase, cell))
        }
        FirstWord::Locked => {
            let (_thread, _place, _cell) = placed_of(rest)?;
            Some(Drawn::Nothing)
        }
        FirstWord::Frame => {
            let (thread, place, cell) = placed_of(rest)?;
            Some(Drawn::Frame {
                thread,
                place,
                cell,
            })
        }
        FirstWord::Queued => {
            let (thread, cell) = lying_of(rest)?;
            Some(Drawn::Held {
                thread,
                by: Keyword::Queued,
                cell,
            })
        }
        FirstWord::Popped => {
            let (thread, cell) = lying_of(rest)?;
            Some(Drawn::Held {
                thread,
                by: Keyword::Popped,
                cell,
            })
        }
        FirstWord::Work => {
            let (_thread, _cell) = lying_of(rest)?;
            Some(Drawn::Nothing)
        }
        FirstWord::Entry => {
            let (cell, index, entry) = entry_of(rest)?;
            Some(Drawn::Entry { cell, index, entry })
        }
        FirstWord::Object => {
            let (cell, kind) = object_of(rest)?;
            Some(Drawn::Object { cell, kind })
        }
    }
}

/// By the first word of the line and what stands behind it.
fn drawn_of<A: Allocator>(
    alloc: A,
    word: FirstWord,
    rest: &[u8],
) -> Result<Option<Drawn<A>>, Undrawn>
    ensures read { IfOk result (λ drawn. drawn ≡ drawn_at word rest.now) }
    ensures refused { IfErr result (λ undrawn. undrawn ≡ OutOfMemory) }
{
    match word {
        FirstWord::Cycle => match cells_of(alloc, rest)? {
            Some(cells) => Ok(Some(Drawn::Cycle(cells))),
            None => Ok(None),
        },
        _ => Ok(plain_of(word, rest)),
    }
}

/// Where the next line stands, and what is drawn for this one; none if it can't stand here.
#[tactic(auto, unfolding(crate::specs::Lines::step_at, crate::specs::Lines::worded_at))]
pub(crate) fn step<A: Allocator>(
    alloc: A,
    part: TextPart,
    line: &[u8],
) -> Result<Option<(TextPart, Drawn<A>)>, Undrawn>
    ensures read { IfOk result (λ step. step ≡ step_at part line.now) }
    ensures refused { IfErr result (λ undrawn. undrawn ≡ OutOfMemory) }
{
    if may_be_printed(part) && is_printed(line) {
        return Ok(Some((TextPart::Printed, Drawn::Nothing)));
    }
    let (first, Some(rest)) = cut(line, b' ') else {
        return Ok(None);
    };
    let Some(word) = first_word_of(first) else {
        return Ok(None);
    };
    let Some(next) = after(part, word) else {
        return Ok(None);
    };
    match drawn_of(alloc, word, rest)? {
        Some(drawn) => Ok(Some((next, drawn))),
        None => Ok(None),
    }
}
