//! Whether two texts have the same bytes: piece by piece, with one lock at a time, and without memory.

ghost use Rattle.std.specs.Prelude.{◌≡◌, ◌<◌, ◌+◌, ◌^◌, ℕ, Bool, List, Ok, Some, None, length};
ghost use Rattle.std.specs.Bool.{Decides};
ghost use Rattle.std.specs.declared.alloc.Global.{Global};
ghost use Rattle.brc_count.specs.Frames.{FrameSeen, IsUnlocked, Owns};
ghost use Rattle.brc_count.specs.Owned.{Keeps};
ghost use Rattle.brc_client.specs.Clients.{KeepsNumbers};
ghost use Rattle.brc_client.specs.Equal.{ComparesPiece, Compares, ComparesCells, LooksAtTwo, FindsOnly};

use crate::client::{Client, find};
use crate::status::Status;
use brc_count::{Frame, Handle};
use brc_heap::{Shared, same_object};
use brc_things::try_bytes_shown;
use brc_words::Fault;
use std::alloc::Global;

/// The most bytes of a text that one look takes.
const PIECE: usize = 4096;

/// How many the first look takes. What lies on the stack is set to zero, so short texts want few.
const FIRST_PIECE: usize = 256;

/// Whether both texts are alike from a byte on. None if they are as far as there is room, and more of both is left. The
/// one text is looked at and unlocked before the other is.
fn piece_alike(
    frame: &mut Frame<Shared, Global>,
    one: &Handle<Global>,
    other: &Handle<Global>,
    from: usize,
    room: &mut [u8],
    beside: &mut [u8],
) -> Result<Option<bool>, Fault>
    requires owned { Owns frame.old one.now }
    requires other_owned { Owns frame.old other.now }
    requires unlocked { IsUnlocked frame.old }
    requires rooms { length beside.old ≡ length room.old }
    ensures compared { ComparesPiece frame.old frame.new one.now.place other.now.place from (length room.old) result }
    ensures inside { result ≡ Ok None → from + length room.old < 2 ^ 64 }
    ensures keeps { Keeps frame.old frame.new }
    ensures unlocked { IsUnlocked frame.new }
{
    let len = try_bytes_shown(frame, one, from, room)?;
    let other_len = try_bytes_shown(frame, other, from, beside)?;
    if len != other_len {
        return Ok(Some(false));
    }
    let left = len.saturating_sub(from);
    let shown = left.min(room.len());
    if room[..shown] != beside[..shown] {
        return Ok(Some(false));
    }
    if left > room.len() {
        return Ok(None);
    }
    Ok(Some(true))
}

/// Whether both texts are alike from a byte on, to their ends.
#[inline(never)]
fn rest_alike(
    frame: &mut Frame<Shared, Global>,
    one: &Handle<Global>,
    other: &Handle<Global>,
    from: usize,
) -> Result<bool, Fault>
    requires owned { Owns frame.old one.now }
    requires other_owned { Owns frame.old other.now }
    requires unlocked { IsUnlocked frame.old }
    ensures compared { Compares one.now.place other.now.place from frame.old frame.new result }
    ensures keeps { Keeps frame.old frame.new }
    ensures unlocked { IsUnlocked frame.new }
{
    let mut room = [0u8; PIECE];
    let mut beside = [0u8; PIECE];
    let mut from = from;
    'pieces: loop {
        match piece_alike(frame, one, other, from, &mut room, &mut beside) {
            Ok(Some(is_alike)) => return Ok(is_alike),
            Ok(None) => from += PIECE,
            Err(fault) => return Err(fault),
        }
    }
}

/// Whether both texts are the same. One object is the same as itself, whatever it is, and isn't looked at.
fn cells_alike(
    frame: &mut Frame<Shared, Global>,
    one: &Handle<Global>,
    other: &Handle<Global>,
) -> Result<bool, Fault>
    requires owned { Owns frame.old one.now }
    requires other_owned { Owns frame.old other.now }
    requires unlocked { IsUnlocked frame.old }
    ensures compared { ComparesCells frame.old frame.new one.now.place other.now.place result }
    ensures keeps { Keeps frame.old frame.new }
    ensures unlocked { IsUnlocked frame.new }
{
    if same_object(frame, one, other) {
        return Ok(true);
    }
    let mut room = [0u8; FIRST_PIECE];
    let mut beside = [0u8; FIRST_PIECE];
    match piece_alike(frame, one, other, 0, &mut room, &mut beside) {
        Ok(Some(is_alike)) => Ok(is_alike),
        Ok(None) => rest_alike(frame, one, other, FIRST_PIECE),
        Err(fault) => Err(fault),
    }
}

/// If nobody changes the two texts meanwhile, the answer is whether they are the same: alike pieces are the same text.
pub fn alike_pieces_are_the_same_text()
    ensures same { (one other : ℕ) (old new : FrameSeen Global) (text beside : List ℕ) (is_equal : Bool)
        → Compares one other 0 old new (Ok is_equal) → FindsOnly old new one text → FindsOnly old new other beside
        → Decides is_equal (text ≡ beside) }
{}

impl Client {
    /// Whether two texts have the same bytes. One object is equal at once, whatever it is. Foreign, Stale for the first,
    /// then for the other; then Busy, and WrongKind if one is neither a text nor other bytes, of the first before the other. After Busy the call
    /// can be made again. It takes no memory.
    #[tactic(auto, using(crate::proofs::Placed::keeps))]
    pub fn text_equal(&mut self, one: u64, other: u64) -> Result<bool, Status>
        ensures compared { LooksAtTwo (ComparesCells self.old.frame self.new.frame) self.old self.new one other result }
        ensures keeps { KeepsNumbers self.old self.new }
    {
        let first = find(&self.handles, &self.numbers, one)?;
        let second = find(&self.handles, &self.numbers, other)?;
        match cells_alike(self.mutator.frame(), first, second) {
            Ok(is_equal) => Ok(is_equal),
            Err(fault) => Err(Status::Fault(fault)),
        }
    }
}
