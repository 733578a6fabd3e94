//! The lines that the program answers.

use crate::graph::{Graph, MOST_LIVE, Shape};

/// What is asked of a heap.
#[derive(Clone, Copy)]
pub enum Verb {
    /// The time that the report on it takes.
    Run,
    /// What stands in it.
    Count,
}

/// What a line asks for.
#[derive(Clone, Copy)]
pub struct Request {
    pub verb: Verb,
    pub graph: Graph,
}

fn verb_of(name: &str) -> Option<Verb> {
    match name {
        "run" => Some(Verb::Run),
        "count" => Some(Verb::Count),
        _ => None,
    }
}

fn shape_of(name: &str) -> Option<Shape> {
    match name {
        "ring" => Some(Shape::Ring),
        "mixed" => Some(Shape::Mixed),
        _ => None,
    }
}

/// Reads a line: `run` or `count`, a shape, how many live cells, and how many entries each.
pub fn read_request(line: &str) -> Option<Request> {
    let mut words = line.split_whitespace();
    let verb = verb_of(words.next()?)?;
    let shape = shape_of(words.next()?)?;
    let cells = words.next()?.parse::<u32>().ok()?;
    let each = words.next()?.parse::<u32>().ok()?;
    if cells < 1 || cells > MOST_LIVE {
        return None;
    }
    let graph = Graph { shape, cells, each };
    Some(Request { verb, graph })
}
