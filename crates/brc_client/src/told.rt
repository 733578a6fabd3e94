//! Looks that None, False, True and the small integers answer without a lock: they keep what the heap was opened with.

ghost use Rattle.std.specs.Prelude.{◌≡◌, ◌<◌};
ghost use Rattle.brc_words.specs.declared.limits.TheConstants.{GLOBALS};
ghost use Rattle.brc_count.specs.law.rule.Logs.{kind_in, opening_contents};
ghost use Rattle.brc_count.specs.Frames.{IsUnlocked, Owns};
ghost use Rattle.brc_count.specs.Owned.{Keeps};
ghost use Rattle.brc_client.specs.Told.{KindTold, IntTold, number_in};

use brc_count::biased::HasTable;
use brc_count::{Frame, Handle};
use brc_things::{try_int_of, try_kind_of};
use brc_words::{Fault, GLOBALS, Kind};
use std::alloc::Global;

/// The cell of the lowest small integer, -5.
const FIRST_INT: u32 = 3;

/// The kind of what is in the cell.
#[inline(always)]
fn kind_in_cell(cell: u32) -> Kind
    requires small { cell < GLOBALS }
    ensures { result ≡ kind_in (opening_contents cell) }
{
    match cell {
        0 => Kind::Nothing,
        1 => Kind::False,
        2 => Kind::True,
        _ => Kind::Int,
    }
}

/// The integer in the cell, -5 to 256; WrongKind for None, False and True.
#[inline(always)]
fn int_in_cell(cell: u32) -> Result<i64, Fault>
    requires small { cell < GLOBALS }
    ensures { result ≡ number_in (opening_contents cell) }
{
    if cell < FIRST_INT {
        return Err(Fault::WrongKind);
    }
    Ok(i64::from(cell) - 8)
}

/// What kind of object it is: by its cell, or by a look, which is refused only as Busy.
#[inline(always)]
pub(crate) fn kind_told<H: HasTable<Global>>(
    frame: &mut Frame<H, Global>,
    object: &Handle<Global>,
) -> Result<Kind, Fault>
    requires owned { Owns frame.old object.now }
    requires unlocked { IsUnlocked frame.old }
    ensures told { KindTold frame.old frame.new object.now.place result }
    ensures keeps { Keeps frame.old frame.new }
    ensures unlocked { IsUnlocked frame.new }
{
    let cell = frame.cell(object);
    if cell >= GLOBALS {
        return try_kind_of(frame, object);
    }
    Ok(kind_in_cell(cell))
}

/// The number of the integer: by its cell, or by a look.
#[inline(always)]
pub(crate) fn int_told<H: HasTable<Global>>(
    frame: &mut Frame<H, Global>,
    object: &Handle<Global>,
) -> Result<i64, Fault>
    requires owned { Owns frame.old object.now }
    requires unlocked { IsUnlocked frame.old }
    ensures told { IntTold frame.old frame.new object.now.place result }
    ensures keeps { Keeps frame.old frame.new }
    ensures unlocked { IsUnlocked frame.new }
{
    let cell = frame.cell(object);
    if cell >= GLOBALS {
        return try_int_of(frame, object);
    }
    int_in_cell(cell)
}
