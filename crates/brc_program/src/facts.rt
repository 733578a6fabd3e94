//! What the second error line says of where an event is refused, fact by fact.

ghost use Rattle.std.specs.Prelude.{◌≡◌, [], ◌∷◌, decimal};
ghost use Rattle.std.specs.List.{flat_map};
ghost use Rattle.brc_text.specs.Puts.{PutsText};
ghost use Rattle.brc_program.specs.Explanations.{together, told_refusal, refusal_text, kind_name, hand_text};
ghost use Rattle.brc_program.specs.Explanations.{owner_text, fact_text};

use crate::phrases::put_finer;
use brc_core::{Hand, Refusal, Status, Step};
use brc_text::{put_bytes, put_parts};
use brc_trace::{Finer, word_of_phase, word_of_state, word_of_status};
use brc_words::{Fault, Kind, Owner, State};
use itoa::Buffer;
use std::io::Write;

/// A part of the line. One that isn't there takes no room in it.
#[derive(Clone, Copy)]
pub(crate) enum LineFact {
    /// With this the line begins.
    Begins,
    /// The condition that the step fails first.
    Refused(Step, Refusal),
    /// Which part of that condition fails.
    Finer(Finer),
    /// How many threads are registered.
    Threads(u32),
    /// How far the thread's life is.
    Status(u32, Option<Status>),
    /// What the thread carries.
    Hand(Option<Hand>),
    /// The place whose object it has locked.
    Locked(Option<u32>),
    /// The cell that the event means.
    Cell(u32),
    /// The cell's owner.
    Owner(Option<Owner>),
    /// The kind of the object in it.
    Kind(Option<Kind>),
    /// The owner's count.
    Local(Option<u32>),
    /// The shared count.
    Shared(Option<i64>),
    /// The state of the shared word.
    State(Option<State>),
    /// The line feed.
    Ends,
}

/// What `close` or `nudge` lacks of those it leaves or tells.
fn text_of_told(step: Step) -> &'static str
    ensures { result.now ≡ told_refusal step }
{
    match step {
        Step::Close(_) => "the thread has not seen to all that it is to leave behind",
        _ => "whom it tells is not registered, or has no such queue word",
    }
}

/// Which condition of an event fails first.
fn text_of_refusal(step: Step, refusal: Refusal) -> &'static str
    ensures { result.now ≡ refusal_text step refusal }
{
    match refusal {
        Refusal::NotItsOwn => "the root registers and gathers, and threads make all else",
        Refusal::NotNext => "the next thread has another number, or there are 64",
        Refusal::NotRegistered => "the thread is not registered",
        Refusal::Gathered => "the thread is gathered",
        Refusal::Stage => "not at this stage of the thread's life",
        Refusal::Lock => "the thread's lock is not as the event needs it",
        Refusal::Hand => "the thread's hand is not as the event needs it",
        Refusal::OwnPart =>
            "the thread's places, entries, worklist or queue words are not as it needs them",
        Refusal::Told => text_of_told(step),
        Refusal::Edition =>
            "its format has no such event of a thread at this stage, or with this hand",
        Refusal::NoCell => "it means no cell of the heap",
        Refusal::Cell => "its cell is not as the event needs it",
    }
}

fn name_of_kind(kind: Kind) -> &'static str
    ensures { result.now ≡ kind_name kind }
{
    match kind {
        Kind::Nothing => "None",
        Kind::False => "False",
        Kind::True => "True",
        Kind::Int => "int",
        Kind::Text => "text",
        Kind::List => "list",
        Kind::Dict => "dict",
        Kind::Mailbox => "mailbox",
    }
}

/// Writes what the line says of the hand.
fn put_hand<E: Write>(errors: &mut E, hand: Hand) -> Result<(), Fault>
    ensures { PutsText (E.contents errors.old) (E.contents errors.new) result (hand_text hand) }
{
    match hand {
        Hand::Free => put_bytes(errors, b", hand free"),
        Hand::Busy(phase, cell) => put_parts(
            errors,
            &[
                b", hand ",
                word_of_phase(phase).text(),
                b" ",
                Buffer::new().format(cell).as_bytes(),
            ],
        ),
    }
}

/// Writes what the line says of the owner.
fn put_owner<E: Write>(errors: &mut E, owner: Owner) -> Result<(), Fault>
    ensures { PutsText (E.contents errors.old) (E.contents errors.new) result (owner_text owner) }
{
    match owner {
        Owner::Nobody => put_bytes(errors, b", no owner"),
        Owner::Thread(thread) => put_number(errors, b", owner ", thread),
        Owner::Claimed(thread) => put_number(errors, b", claimed by ", thread),
        Owner::Free => put_bytes(errors, b", free"),
    }
}

/// Writes a number behind a text.
fn put_number<E: Write>(errors: &mut E, text: &[u8], number: u32) -> Result<(), Fault>
    ensures { PutsText (E.contents errors.old) (E.contents errors.new) result
        (together (text.now ∷ decimal number ∷ [])) }
{
    put_parts(errors, &[text, Buffer::new().format(number).as_bytes()])
}

/// Writes what the line says of a fact.
fn put_fact<E: Write>(errors: &mut E, fact: LineFact) -> Result<(), Fault>
    ensures { PutsText (E.contents errors.old) (E.contents errors.new) result (fact_text fact) }
{
    match fact {
        LineFact::Begins => put_bytes(errors, b"brc: why: "),
        LineFact::Refused(step, refusal) => {
            put_bytes(errors, text_of_refusal(step, refusal).as_bytes())
        }
        LineFact::Finer(finer) => put_finer(errors, finer),
        LineFact::Threads(count) => put_number(errors, b"; threads ", count),
        LineFact::Status(thread, Some(status)) => put_parts(
            errors,
            &[
                b"; thread ",
                Buffer::new().format(thread).as_bytes(),
                b" ",
                word_of_status(status).text(),
            ],
        ),
        LineFact::Hand(Some(hand)) => put_hand(errors, hand),
        LineFact::Locked(Some(place)) => put_number(errors, b", locked ", place),
        LineFact::Cell(cell) => put_number(errors, b"; cell ", cell),
        LineFact::Owner(Some(owner)) => put_owner(errors, owner),
        LineFact::Kind(Some(kind)) => put_parts(errors, &[b", ", name_of_kind(kind).as_bytes()]),
        LineFact::Local(Some(local)) => put_number(errors, b", local ", local),
        LineFact::Shared(Some(count)) => put_parts(
            errors,
            &[b", shared ", Buffer::new().format(count).as_bytes()],
        ),
        LineFact::State(Some(state)) => put_parts(errors, &[b", ", word_of_state(state).text()]),
        LineFact::Ends => put_bytes(errors, b"\n"),
        _ => Ok(()),
    }
}

/// Writes what the line says of each, in order. The first error ends it.
pub(crate) fn put_facts<E: Write>(errors: &mut E, facts: &[LineFact]) -> Result<(), Fault>
    ensures { PutsText (E.contents errors.old) (E.contents errors.new) result (flat_map fact_text facts.now) }
{
    for fact in facts {
        put_fact(errors, *fact)?;
    }
    Ok(())
}
