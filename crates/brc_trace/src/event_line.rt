//! The line of one event: its words read and written.

ghost use Rattle.std.specs.Prelude.{◌≡◌, ◌∷◌, [], Some, None, MatchOption};
ghost use Rattle.brc_text.specs.declared.token.Token.TheVariants as tokens;
ghost use Rattle.brc_text.specs.Lines.{line as spelled};
ghost use Rattle.brc_text.specs.Puts.{PutsText};
ghost use Rattle.brc_text.specs.declared.keyword.Keyword.TheVariants as words;
ghost use Rattle.brc_trace.specs.Operands.{change_words};
ghost use Rattle.brc_trace.specs.Events.{birth_at, step_at, is_root_step as is_of_the_root, made_by, event_at};
ghost use Rattle.brc_trace.specs.Events.{event_words, is_two as has_offers};
ghost use Rattle.brc_trace.specs.Traces.{by_line};

use crate::operands::{
    both, cell_of, change_of, dropped_of, dropped_token, is_bare, is_thread, kind_of, last_of,
    last_token, only, place_of, queue_word_of, source_of, source_token, thread_of, word_of_kind,
};
use brc_text::{Keyword, Token, Words, put_line};
use brc_words::Fault;
use law::world::{Change, Edition, Event, Step};
use std::io::Write;

// ---- reading

#[tactic(auto, unfolding(crate::specs::Events::birth_at))]
fn birth_of(operands: &[Token]) -> Option<Step>
    ensures { result ≡ birth_at operands.now }
{
    match operands {
        [cell, kind, place] => {
            Some(Step::Birth {
                cell: cell_of(*cell)?,
                kind: kind_of(*kind)?,
                place: place_of(*place)?,
            })
        }
        _ => None,
    }
}

/// Whether the edition has offers, and queue words that are opened again.
#[inline(always)]
pub(crate) fn is_two(edition: Edition) -> bool
    ensures { result ≡ has_offers edition }
{
    match edition {
        Edition::One => false,
        Edition::Two => true,
    }
}

/// The step of the edition that a word and the operands behind it spell; none where they spell none.
#[inline(always)]
pub(crate) fn step_of(edition: Edition, word: Keyword, operands: &[Token]) -> Option<Step>
    ensures { result ≡ step_at edition word operands.now }
{
    match word {
        Keyword::Up => {
            let (source, place) = both(operands)?;
            Some(Step::LocalUp {
                source: source_of(source)?,
                place: place_of(place)?,
            })
        }
        Keyword::Down => Some(Step::LocalDown(dropped_of(only(operands)?)?)),
        Keyword::Claim => Some(Step::Claim(cell_of(only(operands)?)?)),
        Keyword::Local => Some(Step::InitLocal(cell_of(only(operands)?)?)),
        Keyword::Shared => Some(Step::InitShared(cell_of(only(operands)?)?)),
        Keyword::Born => birth_of(operands),
        Keyword::See => Some(Step::SeeZero(cell_of(only(operands)?)?)),
        Keyword::Free => Some(Step::Free(cell_of(only(operands)?)?)),
        Keyword::Untie => Some(Step::Untie(cell_of(only(operands)?)?)),
        Keyword::Zero => Some(Step::MergeZero(cell_of(only(operands)?)?)),
        Keyword::Shup => {
            let (source, place) = both(operands)?;
            Some(Step::SharedUp {
                source: source_of(source)?,
                place: place_of(place)?,
            })
        }
        Keyword::Shdown => Some(Step::SharedDown(dropped_of(only(operands)?)?)),
        Keyword::Ask => Some(Step::Ask(dropped_of(only(operands)?)?)),
        Keyword::Last => Some(Step::LastDown(last_of(only(operands)?)?)),
        Keyword::Enq => Some(Step::Enqueue(cell_of(only(operands)?)?)),
        Keyword::Drain => Some(Step::Drain(queue_word_of(only(operands)?)?)),
        Keyword::Add => Some(Step::MergeAdd(cell_of(only(operands)?)?)),
        Keyword::Close => Some(Step::Close(queue_word_of(only(operands)?)?)),
        Keyword::Nudge => {
            let (thread, word) = both(operands)?;
            Some(Step::Nudge {
                thread: thread_of(thread)?,
                word: queue_word_of(word)?,
            })
        }
        Keyword::Wake => {
            if is_bare(operands) {
                Some(Step::Wake)
            } else {
                None
            }
        }
        Keyword::Lock => Some(Step::Lock(place_of(only(operands)?)?)),
        Keyword::Unlock => Some(Step::Unlock(change_of(operands)?)),
        Keyword::Register => Some(Step::Register(thread_of(only(operands)?)?)),
        Keyword::Gather => Some(Step::Gather(thread_of(only(operands)?)?)),
        Keyword::Offer => {
            if is_two(edition) {
                Some(Step::Offer(cell_of(only(operands)?)?))
            } else {
                None
            }
        }
        Keyword::Open => {
            if is_two(edition) {
                Some(Step::Reopen(queue_word_of(only(operands)?)?))
            } else {
                None
            }
        }
        _ => None,
    }
}

/// Whether the root makes the step, and no thread.
fn is_root_step(step: Step) -> bool
    ensures { result ≡ is_of_the_root step }
{
    matches!(step, Step::Register(_) | Step::Gather(_))
}

/// The step by the thread, if that may make such a step.
fn made_by(thread: u64, step: Step) -> Option<Event>
    ensures { result ≡ made_by thread step }
{
    let fits = if is_root_step(step) {
        thread == 0
    } else {
        is_thread(thread)
    };
    if fits {
        Some(Event {
            thread: thread as u32,
            step,
        })
    } else {
        None
    }
}

/// The event of the edition that the words spell; none where they spell none.
#[inline(always)]
fn event_of_words(edition: Edition, words: &[Token]) -> Option<Event>
    ensures { result ≡ event_at edition words.now }
{
    match words {
        [Token::Number(thread), Token::Word(word), operands @ ..] => {
            made_by(*thread, step_of(edition, *word, operands)?)
        }
        _ => None,
    }
}

/// Reads the event of the text's first line, and answers what stands behind that line; none where it is no line of an
/// event of the edition.
#[inline(always)]
pub(crate) fn read_event<'t>(
    edition: Edition,
    words: &mut Words,
    text: &'t [u8],
) -> Option<(Event, &'t [u8])>
    ensures { MatchOption result (by_line (event_at edition) text.now ≡ None)
        (λ found. by_line (event_at edition) text.now ≡ Some (found.0, found.1.now)) }
{
    let Some(behind) = words.read(text) else {
        return None;
    };
    let Some(event) = event_of_words(edition, words.tokens()) else {
        return None;
    };
    Some((event, behind))
}

// ---- writing

/// A number as a word.
fn number(number: u32) -> Token
    ensures { result ≡ tokens.Number number }
{
    Token::Number(number as u64)
}

/// Writes the line of a step with one operand.
fn put_one<W: Write>(
    writer: &mut W,
    thread: u32,
    word: Keyword,
    operand: Token,
) -> Result<(), Fault>
    ensures { PutsText (W.contents writer.old) (W.contents writer.new) result
        (spelled (tokens.Number thread ∷ tokens.Word word ∷ operand ∷ [])) }
{
    put_line(writer, &[number(thread), Token::Word(word), operand])
}

/// Writes the line of a step with two operands.
fn put_two<W: Write>(
    writer: &mut W,
    thread: u32,
    word: Keyword,
    first: Token,
    second: Token,
) -> Result<(), Fault>
    ensures { PutsText (W.contents writer.old) (W.contents writer.new) result
        (spelled (tokens.Number thread ∷ tokens.Word word ∷ first ∷ second ∷ [])) }
{
    put_line(writer, &[number(thread), Token::Word(word), first, second])
}

/// A line of a thread, a word and three operands.
fn put_three<W: Write>(
    writer: &mut W,
    thread: u32,
    word: Keyword,
    first: Token,
    second: Token,
    third: Token,
) -> Result<(), Fault>
    ensures { PutsText (W.contents writer.old) (W.contents writer.new) result
        (spelled (tokens.Number thread ∷ tokens.Word word ∷ first ∷ second ∷ third ∷ [])) }
{
    put_line(
        writer,
        &[number(thread), Token::Word(word), first, second, third],
    )
}

/// Writes the line of an unlock.
fn put_unlock<W: Write>(writer: &mut W, thread: u32, change: Change) -> Result<(), Fault>
    ensures { PutsText (W.contents writer.old) (W.contents writer.new) result
        (spelled (tokens.Number thread ∷ tokens.Word words.Unlock ∷ change_words change)) }
{
    let unlock = Keyword::Unlock;
    match change {
        Change::Keep => put_one(writer, thread, unlock, Token::Word(Keyword::Keep)),
        Change::Put(place) => put_two(
            writer,
            thread,
            unlock,
            Token::Word(Keyword::Put),
            number(place),
        ),
        Change::Take { index, place } => put_three(
            writer,
            thread,
            unlock,
            Token::Word(Keyword::Take),
            number(index),
            number(place),
        ),
        Change::Swap { index, place } => put_three(
            writer,
            thread,
            unlock,
            Token::Word(Keyword::Swap),
            number(index),
            number(place),
        ),
    }
}

/// Writes the line of an event.
pub fn put_event<W: Write>(writer: &mut W, event: Event) -> Result<(), Fault>
    ensures { PutsText (W.contents writer.old) (W.contents writer.new) result (spelled (event_words event)) }
{
    let thread = event.thread;
    match event.step {
        Step::Claim(cell) => put_one(writer, thread, Keyword::Claim, number(cell)),
        Step::InitLocal(cell) => put_one(writer, thread, Keyword::Local, number(cell)),
        Step::InitShared(cell) => put_one(writer, thread, Keyword::Shared, number(cell)),
        Step::Birth { cell, kind, place } => put_three(
            writer,
            thread,
            Keyword::Born,
            number(cell),
            Token::Word(word_of_kind(kind)),
            number(place),
        ),
        Step::LocalUp { source, place } => put_two(
            writer,
            thread,
            Keyword::Up,
            source_token(source),
            number(place),
        ),
        Step::LocalDown(dropped) => {
            put_one(writer, thread, Keyword::Down, dropped_token(dropped))
        }
        Step::SeeZero(cell) => put_one(writer, thread, Keyword::See, number(cell)),
        Step::Free(cell) => put_one(writer, thread, Keyword::Free, number(cell)),
        Step::Untie(cell) => put_one(writer, thread, Keyword::Untie, number(cell)),
        Step::MergeZero(cell) => put_one(writer, thread, Keyword::Zero, number(cell)),
        Step::SharedUp { source, place } => put_two(
            writer,
            thread,
            Keyword::Shup,
            source_token(source),
            number(place),
        ),
        Step::SharedDown(dropped) => {
            put_one(writer, thread, Keyword::Shdown, dropped_token(dropped))
        }
        Step::Ask(dropped) => put_one(writer, thread, Keyword::Ask, dropped_token(dropped)),
        Step::LastDown(dropped) => put_one(writer, thread, Keyword::Last, last_token(dropped)),
        Step::Enqueue(cell) => put_one(writer, thread, Keyword::Enq, number(cell)),
        Step::Drain(word) => put_one(writer, thread, Keyword::Drain, number(word)),
        Step::MergeAdd(cell) => put_one(writer, thread, Keyword::Add, number(cell)),
        Step::Close(word) => put_one(writer, thread, Keyword::Close, number(word)),
        Step::Nudge {
            thread: nudged,
            word,
        } => put_two(writer, thread, Keyword::Nudge, number(nudged), number(word)),
        Step::Wake => put_line(writer, &[number(thread), Token::Word(Keyword::Wake)]),
        Step::Lock(place) => put_one(writer, thread, Keyword::Lock, number(place)),
        Step::Unlock(change) => put_unlock(writer, thread, change),
        Step::Register(registered) => {
            put_one(writer, thread, Keyword::Register, number(registered))
        }
        Step::Gather(gathered) => put_one(writer, thread, Keyword::Gather, number(gathered)),
        Step::Offer(cell) => put_one(writer, thread, Keyword::Offer, number(cell)),
        Step::Reopen(word) => put_one(writer, thread, Keyword::Open, number(word)),
    }
}
