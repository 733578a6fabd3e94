//! The lines of one thread in the text of a world.

ghost use Rattle.std.specs.Prelude.{◌≡◌, length, true};
ghost use Rattle.law.specs.world.Heap.{is_registered, row_at, frame_at};
ghost use Rattle.brc_text.specs.Puts.{PutsText};
ghost use Rattle.brc_trace.specs.Worlds.{over, is_over, thread_line, status_word, phase_word, hand_text, place_text};
ghost use Rattle.brc_trace.specs.Worlds.{frame_text, locked_text, pile_word, lies_on, lying_text, is_empty_pile};
ghost use Rattle.brc_trace.specs.Worlds.{pile_text, holdings_text, thread_text};

use brc_core::{Hand, Phase, Status, World};
use brc_text::{Keyword, Token, put_line};
use brc_words::Fault;
use std::alloc::Allocator;
use std::io::Write;

/// The piles on which cells lie that a thread is to deal with.
#[derive(Clone, Copy, Debug, PartialEq, Eq)]
pub(crate) enum Pile {
    /// Its merge queue.
    Queued,
    /// What it has taken from the queue.
    Popped,
    /// Its worklist.
    Work,
}

/// How far a thread's life is, as texts say it.
pub fn word_of_status(status: Status) -> Keyword
    ensures { result ≡ status_word status }
{
    match status {
        Status::Active => Keyword::Active,
        Status::Closing => Keyword::Closing,
        Status::Left => Keyword::Left,
        Status::Gathered => Keyword::Gathered,
        Status::Opening => Keyword::Opening,
    }
}

/// What a hand is busy with, as texts say it.
pub fn word_of_phase(phase: Phase) -> Keyword
    ensures { result ≡ phase_word phase }
{
    match phase {
        Phase::Claimed => Keyword::Claimed,
        Phase::Counted => Keyword::Counted,
        Phase::Ready => Keyword::Ready,
        Phase::Zero => Keyword::Zero,
        Phase::Over => Keyword::Over,
        Phase::Untied => Keyword::Untied,
        Phase::Asked => Keyword::Asked,
        Phase::Shut => Keyword::Shut,
        Phase::Taking => Keyword::Taking,
        Phase::Held => Keyword::Held,
        Phase::Popping => Keyword::Popping,
        Phase::Offered => Keyword::Offered,
        Phase::Yielding => Keyword::Yielding,
    }
}

fn word_of_pile(pile: Pile) -> Keyword
    ensures { result ≡ pile_word pile }
{
    match pile {
        Pile::Queued => Keyword::Queued,
        Pile::Popped => Keyword::Popped,
        Pile::Work => Keyword::Work,
    }
}

/// Whether the root knows that the thread holds nothing.
fn is_over(status: Status) -> bool
    ensures { result ≡ is_over status }
{
    match status {
        Status::Active => false,
        Status::Closing => false,
        Status::Left => false,
        Status::Gathered => true,
        Status::Opening => false,
    }
}

fn put_status<W: Write>(writer: &mut W, thread: u32, status: Status) -> Result<(), Fault>
    ensures { PutsText (W.contents writer.old) (W.contents writer.new) result (thread_line thread status) }
{
    put_line(
        writer,
        &[
            Token::Word(Keyword::Thread),
            Token::Number(thread as u64),
            Token::Word(word_of_status(status)),
        ],
    )
}

fn put_hand<W: Write>(writer: &mut W, thread: u32, hand: Hand) -> Result<(), Fault>
    ensures { PutsText (W.contents writer.old) (W.contents writer.new) result (hand_text thread hand) }
{
    match hand {
        Hand::Free => Ok(()),
        Hand::Busy(phase, cell) => put_line(
            writer,
            &[
                Token::Word(Keyword::Hand),
                Token::Number(thread as u64),
                Token::Word(word_of_phase(phase)),
                Token::Number(cell as u64),
            ],
        ),
    }
}

/// Writes what stands at a place of a frame.
fn put_place<W: Write>(
    writer: &mut W,
    word: Keyword,
    thread: u32,
    place: u32,
    found: Option<u32>,
) -> Result<(), Fault>
    ensures { PutsText (W.contents writer.old) (W.contents writer.new) result (place_text word thread place found) }
{
    match found {
        None => Ok(()),
        Some(cell) => put_line(
            writer,
            &[
                Token::Word(word),
                Token::Number(thread as u64),
                Token::Number(place as u64),
                Token::Number(cell as u64),
            ],
        ),
    }
}

fn put_locked<A: Allocator + Copy, W: Write>(
    world: &World<A>,
    writer: &mut W,
    thread: u32,
) -> Result<(), Fault>
    ensures { PutsText (W.contents writer.old) (W.contents writer.new) result
        (locked_text world.now thread (row_at world.now thread).locked) }
{
    match world.locked(thread) {
        None => Ok(()),
        Some(place) => {
            let found = world.place(thread, place);
            put_place(writer, Keyword::Locked, thread, place, found)
        }
    }
}

fn put_frame<A: Allocator + Copy, W: Write>(
    world: &World<A>,
    writer: &mut W,
    thread: u32,
) -> Result<(), Fault>
    ensures { PutsText (W.contents writer.old) (W.contents writer.new) result
        (over (frame_text world.now thread) 0 (length (frame_at world.now thread))) }
{
    for place in 0..world.places(thread) {
        put_place(
            writer,
            Keyword::Frame,
            thread,
            place,
            world.place(thread, place),
        )?;
    }
    Ok(())
}

/// Whether the cell lies on this pile of the thread.
fn lies_on<A: Allocator + Copy>(world: &World<A>, thread: u32, pile: Pile, cell: u32) -> bool
    ensures { result ≡ lies_on world.now thread pile cell }
{
    match pile {
        Pile::Queued => world.queued(thread, cell),
        Pile::Popped => world.popped(thread, cell),
        Pile::Work => world.on_worklist(thread, cell),
    }
}

/// Whether no cell lies on this pile of the thread.
fn is_empty_pile<A: Allocator + Copy>(world: &World<A>, thread: u32, pile: Pile) -> bool
    ensures { result ≡ is_empty_pile world.now thread pile }
{
    match pile {
        Pile::Queued => world.has_nothing_queued(thread),
        Pile::Popped => world.has_nothing_popped(thread),
        Pile::Work => world.has_no_work(thread),
    }
}

fn put_lying<A: Allocator + Copy, W: Write>(
    world: &World<A>,
    writer: &mut W,
    thread: u32,
    pile: Pile,
    cell: u32,
) -> Result<(), Fault>
    ensures { PutsText (W.contents writer.old) (W.contents writer.new) result (lying_text world.now thread pile cell) }
{
    if !lies_on(world, thread, pile, cell) {
        return Ok(());
    }
    put_line(
        writer,
        &[
            Token::Word(word_of_pile(pile)),
            Token::Number(thread as u64),
            Token::Number(cell as u64),
        ],
    )
}

fn put_pile<A: Allocator + Copy, W: Write>(
    world: &World<A>,
    writer: &mut W,
    thread: u32,
    pile: Pile,
) -> Result<(), Fault>
    ensures { PutsText (W.contents writer.old) (W.contents writer.new) result (pile_text world.now thread pile) }
{
    if is_empty_pile(world, thread, pile) {
        return Ok(());
    }
    for cell in 0..world.cells() {
        put_lying(world, writer, thread, pile, cell)?;
    }
    Ok(())
}

/// Writes what the thread has.
fn put_holdings<A: Allocator + Copy, W: Write>(
    world: &World<A>,
    writer: &mut W,
    thread: u32,
    hand: Hand,
) -> Result<(), Fault>
    requires { hand ≡ (row_at world.now thread).hand }

    ensures { PutsText (W.contents writer.old) (W.contents writer.new) result (holdings_text world.now thread) }
{
    put_hand(writer, thread, hand)?;
    put_locked(world, writer, thread)?;
    put_frame(world, writer, thread)?;
    put_pile(world, writer, thread, Pile::Queued)?;
    put_pile(world, writer, thread, Pile::Popped)?;
    put_pile(world, writer, thread, Pile::Work)
}

/// Writes the lines of a thread that was registered.
pub(crate) fn put_thread<A: Allocator + Copy, W: Write>(
    world: &World<A>,
    writer: &mut W,
    thread: u32,
) -> Result<(), Fault>
    requires { is_registered world.now thread ≡ true }

    ensures { PutsText (W.contents writer.old) (W.contents writer.new) result (thread_text world.now thread) }
{
    let (Some(status), Some(hand)) = (world.status(thread), world.hand(thread)) else {
        return Ok(());
    };
    put_status(writer, thread, status)?;
    if is_over(status) {
        return Ok(());
    }
    put_holdings(world, writer, thread, hand)
}
