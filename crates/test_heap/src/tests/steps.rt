//! The steps of a case, as a row writes them.
//!
//! A case is a text of steps, with a `;` between them. A step is a call, what it is given, and behind a `=` what must
//! come of it. Where nothing is said there, it must pass.
//!
//! - `one: ` or `two: ` or `three: ` in front says which thread takes this step and the next ones. Each thread keeps
//!   its handles in places, from 0 on.
//! - `246 x ` takes the step so often. `n` is how often it was taken before, and afterwards how often in all.
//! - `starved: ` takes all memory that is left away before each of them.
//! - `growths refused: ` gives memory back, a piece after each refusal, until the step passes. Each refusal is
//!   OutOfMemory, leaves what is seen of the thread as it was, and nothing is dead then. There is one or more, or two or
//!   more by `growths refused more than once: `; by `2 growths refused: ` so many of its growths are seen to be refused.
//! - `until refused: ` takes the step until no memory is left for it; then `n` is how often it passed.
//! - `while a place is ready: ` takes it as long as the frame names its next place.
//! - `while one holds 0: ` takes it while the first thread has the object in its place 0 locked, with room and a place.
//!
//! What is made or given goes into a new place, or `to 2` into that one. A value that is given to a container is in a
//! place, or is made for it, as `int 7` and `none` are: then what comes out for it goes again. `try_` in front of a call
//! is its form that never waits. The calls bear the library's own names, and a few others (`calls.rt`).
//!
//! Calls by values bear a note: `3/7` is the scalar with the label 3 and the bits 7, and `int 300 with 3/7` an object that
//! is made for the call, with that note. So it comes out, but an integer without its kind: `300 with 3/7`.
//!
//! Of an object that comes out of a container its number is seen, or its kind; where it is kept, its cell. A step's
//! number, which a failing case tells, counts from the first one of its world.

use crate::tests::calls::Call;
use crate::tests::came::number;
use brc_count::block::KeyRef;
use brc_places::{Make, To};
use brc_words::{Key, Text};
use std::alloc::Allocator;
use std::process::Abort;

/// Which thread takes a step.
#[derive(Clone, Copy)]
pub(super) enum Who {
    One,
    Two,
    Three,
}

/// Which form of a call is meant: the one that never waits, or the one that waits while another thread has the object
/// locked.
#[derive(Clone, Copy, PartialEq, Eq)]
pub(super) enum Way {
    AtOnce,
    Late,
}

/// How often a step is refused that gets more memory after each refusal.
#[derive(Clone, Copy)]
pub(super) enum Growths {
    /// Once or more.
    Some,
    /// Twice or more.
    Several,
    /// At so many of its growths.
    At(u32),
}

/// How a step is taken.
#[derive(Clone, Copy)]
pub(super) enum How {
    Plain,
    Starved,
    /// With more memory after each refusal, until it passes.
    Fed(Growths),
    UntilRefused,
    WhileReady,
    /// While the first thread has the object in this place locked.
    WhileHeld(usize),
}

/// A key: a number, a text, or how often the step was taken before.
#[derive(Clone, Copy)]
pub(super) enum Beside<'s> {
    Int(i64),
    Text(&'s str),
    Count,
}

/// A value for a container: in this place, or made for it.
#[derive(Clone, Copy)]
pub(super) enum Value<'s> {
    Place(usize),
    Made(Make<'s>),
}

/// What a call is given.
#[derive(Clone, Copy)]
pub(super) struct Given<'s> {
    pub(super) way: Way,
    /// A place, a number or a text, as it stands there.
    pub(super) what: &'s str,
    pub(super) into: &'s str,
    pub(super) at: &'s str,
    pub(super) beside: Beside<'s>,
    /// Where a result goes, if it is kept.
    pub(super) to: Option<To>,
    /// What must come of it.
    pub(super) answer: &'s str,
}

/// What a call is made with: what it is given, how often its step was taken before, the memory of objects, and one that
/// is enough for all.
#[derive(Clone, Copy)]
pub(super) struct Asked<'s, A> {
    pub(super) given: Given<'s>,
    pub(super) count: u32,
    pub(super) objects: A,
    pub(super) ample: A,
}

/// A step in its parts.
#[derive(Clone, Copy)]
pub(super) struct Step<'s> {
    pub(super) text: &'s str,
    pub(super) how: How,
    pub(super) times: u32,
    pub(super) call: Call,
    pub(super) given: Given<'s>,
}

/// The text before the word and the one behind it; nothing behind it where the word isn't there.
fn parted<'s>(text: &'s str, word: &str) -> (&'s str, &'s str) {
    text.split_once(word).unwrap_or((text, ""))
}

/// Which thread it is, if this is one's name.
pub(super) fn named(name: &str) -> Option<Who> {
    match name {
        "one" => Some(Who::One),
        "two" => Some(Who::Two),
        "three" => Some(Who::Three),
        _ => None,
    }
}

/// The thread that takes the step, where its text says so, and the rest of the text.
pub(super) fn taker<'s>(text: &'s str) -> (Option<Who>, &'s str) {
    let text = text.trim();
    match text.split_once(": ") {
        Some((name, rest)) => match named(name) {
            Some(who) => (Some(who), rest),
            None => (None, text),
        },
        None => (None, text),
    }
}

/// How it is taken.
fn how_of(rt: &impl Abort, words: &str) -> How {
    match words {
        "starved" => How::Starved,
        "growths refused" => How::Fed(Growths::Some),
        "growths refused more than once" => How::Fed(Growths::Several),
        "until refused" => How::UntilRefused,
        "while a place is ready" => How::WhileReady,
        _ => {
            if let Some(place) = words.strip_prefix("while one holds ") {
                return How::WhileHeld(number(rt, place) as usize);
            }
            How::Fed(Growths::At(number(rt, parted(words, " growth").0)))
        }
    }
}

/// The key of this text.
fn key_of<'s>(rt: &impl Abort, text: &'s str) -> Beside<'s> {
    match text {
        "" | "n" => Beside::Count,
        _ => match text.strip_prefix("text ") {
            Some(text) => Beside::Text(text),
            None => match text.parse::<i64>() {
                Ok(number) => Beside::Int(number),
                Err(_) => panic!(rt; "{text} is no key"),
            },
        },
    }
}

/// Where a result goes.
fn to_of(rt: &impl Abort, text: &str) -> Option<To> {
    match text {
        "" => None,
        "last" => Some(To::Last),
        _ => Some(To::Place(number(rt, text) as usize)),
    }
}

/// What is made.
pub(super) fn make_of<'s>(rt: &impl Abort, text: &'s str) -> Make<'s> {
    let (kind, value) = parted(text, " ");
    match kind {
        "none" => Make::Nothing,
        "false" => Make::Truth(false),
        "true" => Make::Truth(true),
        "globals" => Make::Globals,
        "text" => Make::Text(value),
        "list" => Make::List,
        "dict" => Make::Dict,
        "mailbox" => Make::Mailbox,
        _ => match value.parse::<i64>() {
            Ok(number) if kind == "int" => Make::Int(number),
            _ => panic!(rt; "{text} is no thing"),
        },
    }
}

impl<'s> Given<'s> {
    /// What stands behind the call's name.
    fn read(rt: &impl Abort, way: Way, text: &'s str, answer: &'s str) -> Given<'s> {
        let (text, to) = parted(text, " to ");
        let (text, beside) = parted(text, " beside ");
        let (text, at) = parted(text, " at ");
        let (what, into) = parted(text, " into ");
        Given {
            way,
            what,
            into,
            at,
            beside: key_of(rt, beside),
            to: to_of(rt, to),
            answer,
        }
    }

    /// The number that it is given.
    pub(super) fn number(self, rt: &impl Abort) -> u32 {
        number(rt, self.what)
    }

    /// The place that it is given.
    pub(super) fn place(self, rt: &impl Abort) -> usize {
        number(rt, self.what) as usize
    }

    /// The place of the container that a value is given to.
    pub(super) fn container(self, rt: &impl Abort) -> usize {
        number(rt, self.into) as usize
    }

    /// The place of the object that the call is made on: the one that a value is given to, if there is one.
    pub(super) fn object(self, rt: &impl Abort) -> usize {
        if self.into.is_empty() {
            return number(rt, self.what) as usize;
        }
        number(rt, self.into) as usize
    }

    /// The index of an entry.
    pub(super) fn index(self, rt: &impl Abort) -> u32 {
        number(rt, self.at)
    }

    /// The value that a container is given.
    pub(super) fn value(self, rt: &impl Abort) -> Value<'s> {
        match self.what.parse::<usize>() {
            Ok(place) => Value::Place(place),
            Err(_) => Value::Made(make_of(rt, self.what)),
        }
    }
}

impl<'s, A: Allocator + Copy> Asked<'s, A> {
    /// The key that is lent.
    pub(super) fn key_ref(&self) -> KeyRef<'s> {
        match self.given.beside {
            Beside::Int(number) => KeyRef::Int(number),
            Beside::Text(text) => KeyRef::Text(text.as_bytes()),
            Beside::Count => KeyRef::Int(i64::from(self.count)),
        }
    }

    /// A key of its own, of memory that is enough for all.
    pub(super) fn key(&self, rt: &impl Abort) -> Key<A> {
        let (ample, key) = (self.ample, self.key_ref());
        match key {
            KeyRef::Int(number) => Key::Int(number),
            KeyRef::Text(bytes) => {
                Key::Text(Text::of_bytes(Vec::from_slice(ample, bytes).expect(rt, "memory")))
            }
        }
    }

    /// Whether this is the key.
    pub(super) fn is_key(&self, key: &Key<A>) -> bool {
        KeyRef::of(key) == self.key_ref()
    }
}

impl<'s> Step<'s> {
    /// The step of this text, in which no thread is named.
    pub(super) fn read(rt: &impl Abort, text: &'s str) -> Step<'s> {
        let (times, rest) = text.split_once(" x ").unwrap_or(("1", text));
        let (how, rest) = match rest.split_once(": ") {
            Some((words, rest)) => (how_of(rt, words), rest),
            None => (How::Plain, rest),
        };
        let (asked, answer) = parted(rest, " = ");
        let (call, given) = parted(asked, " ");
        let (call, way) = match call.strip_prefix("try_") {
            Some(call) => (call, Way::AtOnce),
            None => (call, Way::Late),
        };
        let Some(call) = Call::named(call) else {
            panic!(rt; "{text} is no step")
        };
        Step {
            text,
            how,
            times: number(rt, times),
            call,
            given: Given::read(rt, way, given, answer),
        }
    }
}
