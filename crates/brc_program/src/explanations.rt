//! The second error line of `brc replay --explain`: why a trace is refused.

ghost use Rattle.std.specs.Prelude.{◌≡◌, [], ◌∷◌, codes};
ghost use Rattle.std.specs.List.{flat_map};
ghost use Rattle.brc_text.specs.Puts.{PutsText};
ghost use Rattle.brc_program.specs.Explanations.{together, form_of, cause_text, fact_text, facts_of};
ghost use Rattle.brc_program.specs.Explanations.{why_line, condition_of as condition_told};

use crate::facts::{LineFact, put_facts};
use brc_text::{Excerpt, Keyword, put_bytes, put_parts, put_quoted};
use brc_trace::{Cause, Refused, Why};
use brc_words::Fault;
use std::io::Write;

/// The form of the event with this word, as help has it.
fn form_of(word: Keyword) -> &'static str
    ensures { result.now ≡ form_of word }
{
    match word {
        Keyword::Register => "0 register T",
        Keyword::Gather => "0 gather T",
        Keyword::Claim => "T claim C",
        Keyword::Local => "T local C",
        Keyword::Shared => "T shared C",
        Keyword::Born => "T born C KIND K",
        Keyword::Up => "T up S K",
        Keyword::Down => "T down D",
        Keyword::See => "T see C",
        Keyword::Free => "T free C",
        Keyword::Untie => "T untie C",
        Keyword::Zero => "T zero C",
        Keyword::Shup => "T shup S K",
        Keyword::Shdown => "T shdown D",
        Keyword::Ask => "T ask D",
        Keyword::Last => "T last D",
        Keyword::Enq => "T enq C",
        Keyword::Drain => "T drain W",
        Keyword::Add => "T add C",
        Keyword::Offer => "T offer C",
        Keyword::Open => "T open W",
        Keyword::Close => "T close W",
        Keyword::Nudge => "T nudge U W",
        Keyword::Wake => "T wake",
        Keyword::Lock => "T lock K",
        Keyword::Unlock => "T unlock keep, put K, take I K or swap I K",
        _ => "T EVENT",
    }
}

/// Writes the line of a word that no trace has.
fn put_unknown_word<E: Write>(errors: &mut E, word: &Excerpt) -> Result<(), Fault>
    ensures { PutsText (E.contents errors.old) (E.contents errors.new) result
        (together (codes "brc: why: " ∷ cause_text (Cause.UnknownWord word.now) ∷ (10 ∷ []) ∷ [])) }
{
    put_bytes(errors, b"brc: why: no trace has the word ")?;
    put_quoted(errors, word)?;
    put_bytes(errors, b"\n")
}

/// Writes what is wrong with a bad line.
fn put_cause<E: Write>(errors: &mut E, cause: Cause) -> Result<(), Fault>
    ensures { PutsText (E.contents errors.old) (E.contents errors.new) result
        (together (codes "brc: why: " ∷ cause_text cause ∷ (10 ∷ []) ∷ [])) }
{
    let text = match cause {
        Cause::NoLineFeed => "no line feed ends it",
        Cause::CarriageReturn => "it has a carriage return",
        Cause::Empty => "it is empty",
        Cause::WideSpace => "a space stands at one of its ends or behind another",
        Cause::LeadingZero => "a number begins with a zero",
        Cause::NotAHead =>
            "a head is heap CELLS LIMIT, 512 to 65536 and 1 to 4294967294; above it only trace 2",
        Cause::TooManyWords => "it has more than 8 words",
        Cause::UnknownWord(word) => {
            return put_unknown_word(errors, &word);
        }
        Cause::NotAnEvent => "no event begins so",
        Cause::OutOfRange => "a number is out of its range",
        Cause::NotItsForm(word) => {
            let form = form_of(word).as_bytes();
            return put_parts(errors, &[b"brc: why: its event has the form ", form, b"\n"]);
        }
    };
    put_parts(errors, &[b"brc: why: ", text.as_bytes(), b"\n"])
}

/// The condition that the event fails first, or which part of it, if it has several.
fn condition_of(refused: &Refused) -> LineFact
    ensures { result ≡ condition_told refused.now refused.now.finer }
{
    match refused.finer {
        None => LineFact::Refused(refused.event.step, refused.refusal),
        Some(finer) => LineFact::Finer(finer),
    }
}

/// Writes which condition the event fails first, and what stands there.
fn put_refused<E: Write>(errors: &mut E, refused: &Refused) -> Result<(), Fault>
    ensures { PutsText (E.contents errors.old) (E.contents errors.new) result
        (flat_map fact_text (facts_of refused.now)) }
{
    let standing = refused.standing;
    let condition = condition_of(refused);
    let threads = LineFact::Threads(standing.registered);
    let status = LineFact::Status(standing.thread, standing.status);
    let hand = LineFact::Hand(standing.hand);
    let locked = LineFact::Locked(standing.locked);
    match standing.meant {
        None => put_facts(
            errors,
            &[
                LineFact::Begins,
                condition,
                threads,
                status,
                hand,
                locked,
                LineFact::Ends,
            ],
        ),
        Some(meant) => put_facts(
            errors,
            &[
                LineFact::Begins,
                condition,
                threads,
                status,
                hand,
                locked,
                LineFact::Cell(meant.cell),
                LineFact::Owner(meant.owner),
                LineFact::Kind(meant.kind),
                LineFact::Local(meant.local),
                LineFact::Shared(meant.count),
                LineFact::State(meant.state),
                LineFact::Ends,
            ],
        ),
    }
}

/// Writes the line that says why a trace is refused.
pub(crate) fn put_why<E: Write>(errors: &mut E, why: &Why) -> Result<(), Fault>
    ensures { PutsText (E.contents errors.old) (E.contents errors.new) result (why_line why.now) }
{
    match why {
        Why::TooLong => put_bytes(errors, b"brc: why: it has more than 16777216 bytes\n"),
        Why::Bad { cause, .. } => put_cause(errors, *cause),
        Why::Refused(refused) => put_refused(errors, refused),
    }
}
