//! Writing the text of a world.

ghost use Rattle.std.specs.Prelude.{◌≡◌, ◌-◌, length, true};
ghost use Rattle.law.specs.world.Heap.{cell_at, entries_at};
ghost use Rattle.law.specs.world.Holding.{lives_at, live_count};
ghost use Rattle.brc_core.specs.Readings.{ledgers_of};
ghost use Rattle.brc_text.specs.Puts.{PutsText};
ghost use Rattle.brc_trace.specs.Worlds.{over, state_word, count_token, owner_number, local_token, entries_text};
ghost use Rattle.brc_trace.specs.Worlds.{object_line, object_text, thread_text, edition_text, world_line, ledger_line};
ghost use Rattle.brc_trace.specs.Worlds.{world_text};

use crate::operands::word_of_kind;
use crate::world_thread::put_thread;
use brc_core::{Edition, World};
use brc_text::{Keyword, Token, put_line};
use brc_words::{Fault, GLOBALS, Kind, Owner, State};
use std::alloc::Allocator;
use std::io::Write;

/// The state of a shared word, as texts say it.
pub fn word_of_state(state: State) -> Keyword
    ensures { result ≡ state_word state }
{
    match state {
        State::Default => Keyword::Default,
        State::Queued => Keyword::Queued,
        State::Merged => Keyword::Merged,
    }
}

fn token_of_count(count: i64) -> Token
    ensures { result ≡ count_token count }
{
    if count < 0 {
        Token::Negative(count.unsigned_abs())
    } else {
        Token::Number(count as u64)
    }
}

fn number_of_owner(owner: Owner) -> u64
    ensures { result ≡ owner_number owner }
{
    match owner {
        Owner::Nobody => 0,
        Owner::Thread(thread) => thread as u64,
        Owner::Claimed(thread) => thread as u64,
        Owner::Free => 0,
    }
}

/// The local count counts until the object is merged.
fn token_of_local(state: State, local: u32) -> Token
    ensures { result ≡ local_token state local }
{
    match state {
        State::Default => Token::Number(local as u64),
        State::Queued => Token::Number(local as u64),
        State::Merged => Token::Word(Keyword::Dash),
    }
}

/// Writes these entries of a cell.
fn put_list<W: Write>(writer: &mut W, cell: u32, entries: &[u32]) -> Result<(), Fault>
    ensures { PutsText (W.contents writer.old) (W.contents writer.new) result (entries_text cell entries.now) }
{
    for index in 0..entries.len() {
        put_line(
            writer,
            &[
                Token::Word(Keyword::Entry),
                Token::Number(cell as u64),
                Token::Number(index as u64),
                Token::Number(entries[index] as u64),
            ],
        )?;
    }
    Ok(())
}

/// Writes the entries of a cell.
fn put_entries<A: Allocator + Copy, W: Write>(
    world: &World<A>,
    writer: &mut W,
    cell: u32,
) -> Result<(), Fault>
    ensures { PutsText (W.contents writer.old) (W.contents writer.new) result
        (entries_text cell (entries_at world.now cell)) }
{
    put_list(writer, cell, world.entries(cell))
}

/// Writes the line of an object that lives.
fn put_object_line<A: Allocator + Copy, W: Write>(
    world: &World<A>,
    writer: &mut W,
    cell: u32,
) -> Result<(), Fault>
    requires { lives_at world.now cell ≡ true }

    ensures { PutsText (W.contents writer.old) (W.contents writer.new) result
        (object_line cell (cell_at world.now cell)) }
{
    let kind = world.kind(cell).unwrap_or(Kind::Nothing);
    let owner = world.owner(cell).unwrap_or(Owner::Free);
    let local = world.local(cell).unwrap_or(0);
    let count = world.count(cell).unwrap_or(0);
    let state = world.state(cell).unwrap_or(State::Default);
    let total = world.total(cell).unwrap_or(0);
    put_line(
        writer,
        &[
            Token::Word(Keyword::Object),
            Token::Number(cell as u64),
            Token::Word(word_of_kind(kind)),
            Token::Number(number_of_owner(owner)),
            token_of_local(state, local),
            token_of_count(count),
            Token::Word(word_of_state(state)),
            token_of_count(total),
        ],
    )
}

/// Writes the object in the cell and its entries, if it is a mortal one that lives.
fn put_object<A: Allocator + Copy, W: Write>(
    world: &World<A>,
    writer: &mut W,
    cell: u32,
) -> Result<(), Fault>
    ensures { PutsText (W.contents writer.old) (W.contents writer.new) result (object_text world.now cell) }
{
    if !world.is_live(cell) {
        return Ok(());
    }
    put_object_line(world, writer, cell)?;
    put_entries(world, writer, cell)
}

fn put_objects<A: Allocator + Copy, W: Write>(world: &World<A>, writer: &mut W) -> Result<(), Fault>
    ensures { PutsText (W.contents writer.old) (W.contents writer.new) result
        (over (object_text world.now) 0 (length world.now.cells)) }
{
    for cell in 0..world.cells() {
        put_object(world, writer, cell)?;
    }
    Ok(())
}

fn put_threads<A: Allocator + Copy, W: Write>(world: &World<A>, writer: &mut W) -> Result<(), Fault>
    ensures { PutsText (W.contents writer.old) (W.contents writer.new) result
        (over (thread_text world.now) 1 (length world.now.rows - 1)) }
{
    for before in 0..world.registered() {
        put_thread(world, writer, before + 1)?;
    }
    Ok(())
}

/// Writes the edition of the heap's events, unless it is the first.
fn put_edition<W: Write>(writer: &mut W, edition: Edition) -> Result<(), Fault>
    ensures { PutsText (W.contents writer.old) (W.contents writer.new) result (edition_text edition) }
{
    match edition {
        Edition::One => Ok(()),
        Edition::Two => put_line(writer, &[Token::Word(Keyword::Edition), Token::Number(2)]),
    }
}

/// Writes how many cells the heap has, and its local limit.
fn put_head<A: Allocator + Copy, W: Write>(world: &World<A>, writer: &mut W) -> Result<(), Fault>
    ensures { PutsText (W.contents writer.old) (W.contents writer.new) result
        (world_line (length world.now.cells) world.now.limit) }
{
    put_line(
        writer,
        &[
            Token::Word(Keyword::World),
            Token::Number(world.cells() as u64),
            Token::Number(world.local_limit() as u64),
        ],
    )
}

/// Writes the births and frees of all threads, and how many objects live.
fn put_ledger<A: Allocator + Copy, W: Write>(world: &World<A>, writer: &mut W) -> Result<(), Fault>
    ensures { PutsText (W.contents writer.old) (W.contents writer.new) result
        (ledger_line (ledgers_of world.now) (live_count world.now)) }
{
    let ledgers = world.ledgers();
    put_line(
        writer,
        &[
            Token::Word(Keyword::Ledger),
            Token::Number(ledgers.allocs),
            Token::Number(ledgers.frees),
            Token::Number(world.live() as u64),
        ],
    )
}

/// Writes the text of the world: all of it, or Io after a front of it. No memory is taken.
pub fn write_world<A: Allocator + Copy, W: Write>(
    world: &World<A>,
    writer: &mut W,
) -> Result<(), Fault>
    ensures { PutsText (W.contents writer.old) (W.contents writer.new) result (world_text world.now) }
{
    put_edition(writer, world.edition())?;
    put_head(world, writer)?;
    put_threads(world, writer)?;
    put_entries(world, writer, GLOBALS)?;
    put_objects(world, writer)?;
    put_ledger(world, writer)
}
