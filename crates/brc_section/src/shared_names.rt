//! The keys of a section's shared names, made once as it starts, so that no instruction makes one for each try.

ghost use Rattle.std.specs.Prelude.{◌≡◌, IfOk, IfErr};
ghost use Rattle.brc_words.specs.declared.fault.Fault.TheVariants.{OutOfMemory};
ghost use Rattle.brc_words.specs.declared.key.Key.TheVariants as keys;

use brc_script::{Instruction, Line, Piece, Section, is_private};
use brc_words::{Fault, Key, Text};
use std::alloc::Allocator;

/// For each piece of the section those of its lines, in their order: a key where the line has a shared name. Where
/// memory was missing some aren't there; then the instruction makes its own.
#[derive(Drop)]
pub(crate) struct Names<A: Allocator> {
    pieces: Vec<Vec<Option<Key<A>>, A>, A>,
}

/// A shared name as a key of the globals.
pub(crate) fn key_of<A: Allocator>(alloc: A, name: &Text<A>) -> Result<Key<A>, Fault>
    ensures made { IfOk result (λ key. key ≡ keys.Text name.now) }
    ensures refused { IfErr result (λ fault. fault ≡ OutOfMemory) }
{
    Ok(Key::Text(name.copy(alloc)?))
}

/// The key of the line's shared name, if it has one.
fn key_in<A: Allocator>(alloc: A, line: &Line<A>) -> Option<Key<A>> {
    match line.instruction() {
        Instruction::Share { name, .. }
        | Instruction::Fetch { name, .. }
        | Instruction::Unshare { name, .. } => key_of(alloc, name).ok(),
        _ => None,
    }
}

/// The keys of these lines, up to the first that can't be kept.
fn keys_in<A: Allocator + Copy>(alloc: A, lines: &[Line<A>]) -> Vec<Option<Key<A>>, A> {
    let mut keys = Vec::new(alloc);
    for line in lines {
        if keys.push(key_in(alloc, line)).is_err() {
            return keys;
        }
    }
    keys
}

impl<A: Allocator + Copy> Names<A> {
    /// Those of the section. A section without shared names takes no memory for them.
    pub(crate) fn of(alloc: A, section: &Section<A>) -> Names<A> {
        let mut pieces = Vec::new(alloc);
        if is_private(section) {
            return Names { pieces };
        }
        for piece in section.pieces.as_slice() {
            let mut keys = match piece {
                Piece::One(_line) => Vec::new(alloc),
                Piece::Repeat { lines, .. } => keys_in(alloc, lines.as_slice()),
            };
            if let Piece::One(line) = piece {
                let _kept = keys.push(key_in(alloc, line)).is_ok();
            }
            if pieces.push(keys).is_err() {
                return Names { pieces };
            }
        }
        Names { pieces }
    }
}

impl<A: Allocator> Names<A> {
    /// Those of one piece.
    #[inline(always)]
    pub(crate) fn piece(&self, index: usize) -> &[Option<Key<A>>] {
        match self.pieces.get(index) {
            Some(keys) => keys.as_slice(),
            None => &[],
        }
    }
}

/// That of one line, if it is there.
#[inline(always)]
pub(crate) fn name_at<A: Allocator>(keys: &[Option<Key<A>>], index: usize) -> Option<&Key<A>> {
    match keys.get(index) {
        Some(key) => key.as_ref(),
        None => None,
    }
}
