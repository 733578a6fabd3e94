//! Where a line stands in a script, by its number.

use brc_script::{Line, Piece, Section};
use std::alloc::Allocator;

/// How often a row of lines can be cut in half.
const HALVES: u32 = 64;

/// A line, where it stands.
#[derive(Drop)]
pub(crate) struct Place<'s, A: Allocator> {
    pub(crate) section: &'s Section<A>,
    pub(crate) line: &'s Line<A>,
    /// Whether it stands in a `repeat`.
    pub(crate) repeats: bool,
}

/// The number of the first line of these pieces, if they have one.
fn first_line<A: Allocator>(pieces: &[Piece<A>]) -> Option<u32> {
    for piece in pieces {
        match piece {
            Piece::One(line) => return Some(line.number()),
            Piece::Repeat { lines, .. } => {
                if let Some(line) = lines.as_slice().first() {
                    return Some(line.number());
                }
            }
        }
    }
    None
}

/// The line of this number, among lines in order.
fn line_among<A: Allocator>(lines: &[Line<A>], number: u32) -> Option<&Line<A>> {
    let mut rest = lines;
    for _ in 0..HALVES {
        if rest.len() < 2 {
            break;
        }
        let (front, back) = rest.split_at(rest.len() / 2);
        rest = match back.first() {
            Some(line) if line.number() <= number => back,
            _ => front,
        };
    }
    match rest.first() {
        Some(line) if line.number() == number => Some(line),
        _ => None,
    }
}

/// The piece of pieces in order that the line of this number would stand in.
fn piece_among<A: Allocator>(pieces: &[Piece<A>], number: u32) -> Option<&Piece<A>> {
    let mut rest = pieces;
    for _ in 0..HALVES {
        if rest.len() < 2 {
            break;
        }
        let (front, back) = rest.split_at(rest.len() / 2);
        rest = match first_line(back) {
            Some(first) if first <= number => back,
            _ => front,
        };
    }
    rest.first()
}

/// The line of this number in the section, if it has one.
fn place_in<A: Allocator>(section: &Section<A>, number: u32) -> Option<Place<'_, A>> {
    match piece_among(section.pieces.as_slice(), number) {
        Some(Piece::One(line)) if line.number() == number => Some(Place {
            section,
            line,
            repeats: false,
        }),
        Some(Piece::Repeat { lines, .. }) => match line_among(lines.as_slice(), number) {
            Some(line) => Some(Place {
                section,
                line,
                repeats: true,
            }),
            None => None,
        },
        _ => None,
    }
}

/// The line of this number in the script, if it has one.
pub(crate) fn place_of<A: Allocator>(sections: &[Section<A>], number: u32) -> Option<Place<'_, A>> {
    for section in sections {
        if let Some(place) = place_in(section, number) {
            return Some(place);
        }
    }
    None
}
