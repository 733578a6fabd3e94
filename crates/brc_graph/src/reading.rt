//! Reading a text: what is drawn for its lines, or the first of them that can't stand there.

ghost use Rattle.std.specs.Prelude.{◌≡◌, ◌≤◌, [], length, Some, None, MatchOption};
ghost use Rattle.brc_words.specs.declared.limits.TheConstants.{MOST_INPUT};
ghost use Rattle.brc_text.specs.Lines.{cut, pieces};
ghost use Rattle.brc_graph.specs.declared.part.TextPart.TheVariants.{Start};
ghost use Rattle.brc_graph.specs.Reading.{walk, graph_at, ReadsGraph};

use crate::cutting::cut;
use crate::drawn::{Drawn, Graph};
use crate::line::step;
use crate::part::{TextPart, is_whole};
use crate::undrawn::Undrawn;
use brc_words::MOST_INPUT;
use std::alloc::Allocator;

/// The first line without its line feed, and what stands behind it; none if no line feed ends it.
fn ended_line(text: &[u8]) -> Option<(&[u8], &[u8])>
    ensures { MatchOption result ((cut 10 text.now).1 ≡ None)
        (λ found. (found.0.now ≡ (cut 10 text.now).0) × ((cut 10 text.now).1 ≡ Some found.1.now)) }
{
    match cut(text, b'\n') {
        (line, Some(behind)) => Some((line, behind)),
        (_, None) => None,
    }
}

/// What is drawn for the lines.
fn drawn_of_text<A: Allocator + Copy>(alloc: A, text: &[u8]) -> Result<Vec<Drawn<A>, A>, Undrawn>
    requires { length text.now ≤ MOST_INPUT }

    ensures { ReadsGraph (λ drawn. drawn.items) result (walk Start [] 1 (pieces text.now)) }
{
    let mut drawn = Vec::new(alloc);
    let mut part = TextPart::Start;
    let mut number: u32 = 1;
    let mut rest = text;
    while !rest.is_empty() {
        let Some((line, behind)) = ended_line(rest) else {
            return Err(Undrawn::BadLine(number));
        };
        let Some((next, shown)) = step(alloc, part, line)? else {
            return Err(Undrawn::BadLine(number));
        };
        drawn.push(shown)?;
        part = next;
        number += 1;
        rest = behind;
    }
    if !is_whole(part) {
        return Err(Undrawn::BadLine(number));
    }
    Ok(drawn)
}

/// Reads a report, what `brc run` writes, or the text of a world: what is drawn for each of its lines. Refusals are the
/// first line that can't stand there, counted from 1 (0 for a text of more than 16,777,216 bytes, the line behind the
/// last one for a text that ends too early), and want of memory.
pub fn read_graph<A: Allocator + Copy>(alloc: A, text: &[u8]) -> Result<Graph<A>, Undrawn>
    ensures { ReadsGraph (λ graph. graph.drawn.items) result (graph_at text.now) }
{
    if text.len() > MOST_INPUT {
        return Err(Undrawn::BadLine(0));
    }
    match drawn_of_text(alloc, text) {
        Ok(drawn) => Ok(Graph { drawn }),
        Err(undrawn) => Err(undrawn),
    }
}
