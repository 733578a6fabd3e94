//! Cells and rows as a heap opens and as a thread is registered: plain values, with no memory behind them.

ghost use Rattle.std.specs.Prelude.{◌≡◌};
ghost use Rattle.law.specs.world.Heap.{is_immortal, immortal_kind, opening_cell, no_cell, no_row, new_row, words_for};

use crate::world::cell::Cell;
use crate::world::row::{Hand, Row, Stage};
use brc_words::{FIRST_MORTAL, GLOBALS, IMMORTAL_LOCAL, Kind, Owner, State};

/// Whether the cell never dies.
pub fn is_immortal(cell: u32) -> bool
    ensures { result ≡ is_immortal cell }
{
    cell < FIRST_MORTAL
}

/// What an immortal cell is: None, False, True, an integer from -5 to 256, or the dictionary of globals.
fn immortal_kind(cell: u32) -> Kind
    ensures { result ≡ immortal_kind cell }
{
    if cell == 0 {
        Kind::Nothing
    } else if cell == 1 {
        Kind::False
    } else if cell == 2 {
        Kind::True
    } else if cell == GLOBALS {
        Kind::Dict
    } else {
        Kind::Int
    }
}

/// No object: what is read past the last cell, and what a free cell of the opening world is.
pub fn no_cell() -> Cell
    ensures { result ≡ no_cell }
{
    Cell {
        owner: Owner::Free,
        local: 0,
        count: 0,
        state: State::Default,
        mutex: 0,
        bearer: 0,
        kind: Kind::Nothing,
    }
}

/// A cell as the heap opens: an immortal (PEP 703, "Immortal objects"), or free.
pub fn opening_cell(cell: u32) -> Cell
    ensures { result ≡ opening_cell cell }
{
    if is_immortal(cell) {
        Cell {
            owner: Owner::Nobody,
            local: IMMORTAL_LOCAL,
            count: 0,
            state: State::Default,
            mutex: 0,
            bearer: 0,
            kind: immortal_kind(cell),
        }
    } else {
        no_cell()
    }
}

/// No thread: what is read of a number that isn't registered, and of the root.
pub fn no_row() -> Row
    ensures { result ≡ no_row }
{
    Row {
        stage: Stage::Left,
        hand: Hand::Free,
        locked: None,
        allocs: 0,
        frees: 0,
    }
}

/// A thread as it is registered.
pub fn new_row() -> Row
    ensures { result ≡ new_row }
{
    Row {
        stage: Stage::Active,
        hand: Hand::Free,
        locked: None,
        allocs: 0,
        frees: 0,
    }
}

/// The queue words of a thread: one for 32 cells.
pub fn words_for(cells: usize) -> usize
    ensures { result ≡ words_for cells }
{
    cells.div_ceil(32)
}
