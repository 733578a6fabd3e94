//! A world that is made line by line, and what it says in between. A text is the head of a trace, then events and
//! questions: a question has `? ` in front.

use crate::cases::no_case;
use brc_core::{Edition, Event, World};
use brc_trace::read_trace;
use brc_words::Fault;
use std::alloc::Global;
use std::fmt::Debug;
use std::io::{self, Write};

/// A line, and what came of it.
fn tells<T: Debug>(out: &mut Vec<u8>, line: &str, found: &T) -> io::Result<()> {
    writeln!(out, "{line}: {found:?}")
}

fn number(word: &str) -> io::Result<u32> {
    match word.parse::<u32>() {
        Ok(number) => Ok(number),
        Err(_) => no_case(),
    }
}

/// The opening world of the heap that the head names: of the second edition, if it says so.
fn opening(alloc: Global, head: &str) -> io::Result<Result<World<Global>, Fault>> {
    let Some(sizes) = head.strip_prefix("heap ") else {
        return no_case();
    };
    let Some((cells, rest)) = sizes.split_once(' ') else {
        return no_case();
    };
    let cells = number(cells)?;
    match rest.strip_suffix(" of edition 2") {
        Some(limit) => Ok(World::opening(alloc, cells, number(limit)?, Edition::Two)),
        None => Ok(World::new(alloc, cells, number(rest)?)),
    }
}

/// The event of a line.
fn event_of(alloc: Global, line: &str) -> io::Result<Event> {
    let text = format!(in alloc; "heap 512 1\n{line}\n")?;
    let Ok(trace) = read_trace(alloc, text.as_bytes()) else {
        return no_case();
    };
    match trace.events.as_slice() {
        [event] => Ok(*event),
        _ => no_case(),
    }
}

/// What is asked of a thread or of a cell.
fn of_one(
    alloc: Global,
    world: &World<Global>,
    asked: &str,
    number: u32,
    line: &str,
    out: &mut Vec<u8>,
) -> io::Result<()> {
    match asked {
        "status" => tells(out, line, &world.status(number)),
        "places" => tells(out, line, &world.places(number)),
        "has_nothing_queued" => tells(out, line, &world.has_nothing_queued(number)),
        "has_nothing_popped" => tells(out, line, &world.has_nothing_popped(number)),
        "has_no_work" => tells(out, line, &world.has_no_work(number)),
        "ledger" => tells(out, line, &world.ledger(number)),
        "kind" => tells(out, line, &world.kind(number)),
        "total" => tells(out, line, &world.total(number)),
        "holders" => match world.holders(alloc, number) {
            Ok(holders) => tells(out, line, &holders.as_slice()),
            Err(fault) => tells(out, line, &fault),
        },
        _ => no_case(),
    }
}

/// A question, and what the world says to it.
fn asks(alloc: Global, world: &World<Global>, line: &str, out: &mut Vec<u8>) -> io::Result<()> {
    let (asked, given) = line.split_once(' ').unwrap_or((line, ""));
    match asked {
        "past" => tells(out, line, &world.past()),
        "refusal" => tells(out, line, &world.refusal(&event_of(alloc, given)?)),
        "entry" => {
            let Some((cell, index)) = given.split_once(' ') else {
                return no_case();
            };
            tells(out, line, &world.entry(number(cell)?, number(index)?))
        }
        _ => of_one(alloc, world, asked, number(given)?, line, out),
    }
}

/// Each line in turn: an event that isn't made is told, and a question with what the world says to it.
pub(crate) fn asking(alloc: Global, text: &str, out: &mut Vec<u8>) -> io::Result<()> {
    let Some((head, lines)) = text.split_once('\n') else {
        return no_case();
    };
    let mut world = match opening(alloc, head)? {
        Ok(world) => world,
        Err(fault) => return tells(out, head, &fault),
    };
    for line in lines.lines() {
        if let Some(question) = line.strip_prefix("? ") {
            asks(alloc, &world, question, out)?;
        } else if let Err(fault) = world.step(&event_of(alloc, line)?) {
            tells(out, line, &fault)?;
        }
    }
    Ok(())
}
