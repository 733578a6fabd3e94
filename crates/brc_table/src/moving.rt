//! One function for each operation by which a block may move: out of the table with the seat, or home.

ghost use Rattle.std.specs.Prelude.{◌≡◌, ◌+◌, ◌-◌, ◌%◌, ◌==◌, ◌<◌, ◌∷◌, ℕ, Option, Some, None, true, false};
ghost use Rattle.std.specs.Prelude.{IfSome, OnOk, IfErr, IsTrue, IsFalse, bit_or, ◌≢◌};
ghost use Rattle.std.specs.Int.{bit_at};
ghost use prog.Atomic.{either};
ghost use Rattle.atomic_table.specs.Table.{Allows, rest};
ghost use Rattle.law.specs.declared.world.event.Step.{Step as step_data};
ghost use Rattle.law.specs.declared.world.event.Step.TheVariants as steps;
ghost use Rattle.law.specs.world.Lists.{WORD_LIMIT};
ghost use Rattle.law.specs.world.Steps.{takes_block};
ghost use Rattle.law.specs.declared.known.word.Field.TheVariants as fields;
ghost use Rattle.law.specs.declared.known.word.Word.TheVariants as words;
ghost use Rattle.law.specs.known.Items.{IsWord, cell_told};
ghost use Rattle.law.specs.known.Taken.{listed_at};
ghost use Rattle.law.specs.declared.rule.told.Moved.TheVariants as moves;
ghost use Rattle.law.specs.declared.rule.told.LogItem.{LogItem as told_data};
ghost use Rattle.law.specs.declared.rule.told.LogItem.TheVariants as told;
ghost use Rattle.law.specs.rule.Layout.{spot};
ghost use Rattle.law.specs.rule.Rule.{with_told, Kept};
ghost use Rattle.law.specs.rule.Seen.{taken_seen};
ghost use Rattle.law.specs.steps.Taking.{AreCells, EndedObject, Claimed, LockedOrBusy};
ghost use Rattle.brc_table.specs.Knowing.{entries_of};
ghost use Rattle.brc_table.specs.Moving.{MayEnd, MayEndAt, MayClaim, MayLock, MayGive, MayGiveOfFew, MayGiveBy, MayGiveByOfFew};
ghost use Rattle.brc_table.specs.Moving.{FewFrees, found_in, out_with, emptied, put_home, is_there, HasBlock};
ghost use Rattle.brc_table.specs.Shown.{shows, contents_of};

use crate::layout::spot_of;
use crate::machine::{Place, Stored};
use crate::table::HeapTable;
use atomic_table::Play;
use brc_block::Block;
use brc_words::{NO_COUNT, ONE_COUNT};
use law::known::{Field, Word};
use law::rule::View;
use law::world::Step;
use std::alloc::Allocator;
use std::marker::{Brand, PhantomData};

/// What a step found that may end an object: the number of its shared word, and its block where it is dead.
pub struct Found<A: Allocator> {
    pub number: u64,
    pub block: Option<Block<A>>,
}

// ---- steps that end an object where the number found says so

/// Of how many cells the heap is, which step it is, and on which cell. A caller's proof picks it.
pub(crate) trait Ending {
    ghost cells: { ℕ };

    ghost step: { step_data };

    ghost cell: { ℕ };
}

impl Ending for Brand {
    ghost cells = { 0 };

    ghost step = { steps.Wake };

    ghost cell = { 0 };
}

/// The seat's log has the step, and where the object is dead the seat has its block.
pub(crate) struct LogEnds<M> {
    marker: PhantomData<M>,
}

impl<A: Allocator, M: Ending> Play<Option<Block<A>>, View> for LogEnds<M> {
    ghost then = { λ step me number after. EndedObject shows M.cells me.0 me.1 M.step M.cell number
        (takes_block M.step (cell_told M.step number)) after };
}

/// A load.
#[inline(always)]
fn load_ends<A: Allocator, M: Ending>(
    table: &HeapTable<A>,
    seat: &mut Place<A>,
    cell: u32,
    step: Step,
) -> u64
    requires same { seat.old.table_id ≡ table.now.table }
    requires inside { cell < table.now.cells }
    requires allowed { MayEnd table.now.cells table.now.local_limit seat.old.id seat.old.me cell
        (λ there. there) M.cells M.step M.cell }
    ensures same { (seat.new.table_id ≡ seat.old.table_id) × (seat.new.id ≡ seat.old.id) }
    ensures ended { EndedObject shows M.cells seat.old.me.0 seat.old.me.1 M.step M.cell result
        (takes_block M.step (cell_told M.step result)) seat.new.me }
{
    let _step = step;
    let at = spot_of(table.cells, Word::Of(Field::Shared, cell));
    table.table.shared.load::<LogEnds<M>>(seat, at)
}

/// A setting of bits.
#[inline(always)]
fn or_ends<A: Allocator, M: Ending>(
    table: &HeapTable<A>,
    seat: &mut Place<A>,
    cell: u32,
    bits: u64,
    step: Step,
) -> u64
    requires same { seat.old.table_id ≡ table.now.table }
    requires inside { cell < table.now.cells }
    requires allowed { MayEnd table.now.cells table.now.local_limit seat.old.id seat.old.me cell
        (λ there. bit_or there bits) M.cells M.step M.cell }
    ensures same { (seat.new.table_id ≡ seat.old.table_id) × (seat.new.id ≡ seat.old.id) }
    ensures ended { EndedObject shows M.cells seat.old.me.0 seat.old.me.1 M.step M.cell result
        (takes_block M.step (cell_told M.step result)) seat.new.me }
{
    let _step = step;
    let at = spot_of(table.cells, Word::Of(Field::Shared, cell));
    table.table.shared.fetch_or::<LogEnds<M>>(seat, at, bits)
}

/// A subtraction.
#[inline(always)]
fn sub_ends<A: Allocator, M: Ending>(
    table: &HeapTable<A>,
    seat: &mut Place<A>,
    cell: u32,
    less: u64,
    step: Step,
) -> u64
    requires same { seat.old.table_id ≡ table.now.table }
    requires inside { cell < table.now.cells }
    requires allowed { MayEnd table.now.cells table.now.local_limit seat.old.id seat.old.me cell
        (λ there. (there + (WORD_LIMIT - less)) % WORD_LIMIT) M.cells M.step M.cell }
    ensures same { (seat.new.table_id ≡ seat.old.table_id) × (seat.new.id ≡ seat.old.id) }
    ensures ended { EndedObject shows M.cells seat.old.me.0 seat.old.me.1 M.step M.cell result
        (takes_block M.step (cell_told M.step result)) seat.new.me }
{
    let _step = step;
    let at = spot_of(table.cells, Word::Of(Field::Shared, cell));
    table.table.shared.fetch_sub::<LogEnds<M>>(seat, at, less)
}

/// By how much the word was raised, too. A caller's proof picks it.
pub(crate) trait Summing {
    ghost cells: { ℕ };

    ghost step: { step_data };

    ghost cell: { ℕ };

    ghost more: { ℕ };
}

impl Summing for Brand {
    ghost cells = { 0 };

    ghost step = { steps.Wake };

    ghost cell = { 0 };

    ghost more = { 0 };
}

/// The seat's log has the step, which is told the sum, and where the object is dead the seat has its block.
pub(crate) struct LogSumEnds<M> {
    marker: PhantomData<M>,
}

impl<A: Allocator, M: Summing> Play<Option<Block<A>>, View> for LogSumEnds<M> {
    ghost then = { λ step me number after. EndedObject shows M.cells me.0 me.1 M.step M.cell
        ((number + M.more) % WORD_LIMIT)
        (takes_block M.step (cell_told M.step ((number + M.more) % WORD_LIMIT))) after };
}

/// An addition.
#[inline(always)]
fn add_ends<A: Allocator, M: Summing>(
    table: &HeapTable<A>,
    seat: &mut Place<A>,
    cell: u32,
    more: u64,
    step: Step,
) -> u64
    requires same { seat.old.table_id ≡ table.now.table }
    requires inside { cell < table.now.cells }
    requires allowed { MayEndAt table.now.cells table.now.local_limit seat.old.id seat.old.me cell
        (λ there. (there + more) % WORD_LIMIT) (λ there. (there + M.more) % WORD_LIMIT) M.cells M.step M.cell }
    ensures same { (seat.new.table_id ≡ seat.old.table_id) × (seat.new.id ≡ seat.old.id) }
    ensures ended { EndedObject shows M.cells seat.old.me.0 seat.old.me.1 M.step M.cell ((result + M.more) % WORD_LIMIT)
        (takes_block M.step (cell_told M.step ((result + M.more) % WORD_LIMIT))) seat.new.me }
{
    let _step = step;
    let at = spot_of(table.cells, Word::Of(Field::Shared, cell));
    table
        .table
        .shared
        .fetch_add::<LogSumEnds<M>>(seat, at, more)
}

/// Whether the object is dead, by the number that the step found.
#[inline(always)]
fn takes(step: Step, number: u64) -> bool
    ensures { result ≡ takes_block step (cell_told step number) }
{
    match step {
        Step::SeeZero(_) => number == NO_COUNT,
        Step::MergeZero(_) | Step::MergeAdd(_) => number / ONE_COUNT == NO_COUNT / ONE_COUNT,
        Step::LastDown(_) => number % 2 == 1 && number / ONE_COUNT == NO_COUNT / ONE_COUNT + 1,
        _ => false,
    }
}

/// The block of the slot that the seat took last, where the object is dead.
#[inline(always)]
fn take_if<A: Allocator>(
    table: &HeapTable<A>,
    seat: &mut Place<A>,
    cell: u32,
    step: Step,
    number: u64,
) -> Option<Block<A>>
    requires same { seat.old.table_id ≡ table.now.table }
    requires there { takes_block step (cell_told step number) ≡ true → HasBlock cell seat.old.me.1 }
    ensures same { (seat.new.table_id ≡ seat.old.table_id) × (seat.new.id ≡ seat.old.id) }
    ensures when { is_there result ≡ takes_block step (cell_told step number) }
    ensures was { IfSome result (λ block. seat.old.me.1 ≡ (cell, Some block) ∷ rest seat.old.me.1) }
    ensures now { seat.new.me ≡ (seat.old.me.0, emptied cell result seat.old.me.1) }
{
    if takes(step, number) {
        table.table.shared.exchange(seat, cell as usize, None)
    } else {
        None
    }
}

/// A step that loads the shared word.
pub(crate) fn end_by_load<A: Allocator>(
    table: &HeapTable<A>,
    seat: &mut Place<A>,
    cell: u32,
    step: Step,
) -> Found<A>
    requires same { seat.old.table_id ≡ table.now.table }
    requires inside { cell < table.now.cells }
    requires allowed { MayEnd table.now.cells table.now.local_limit seat.old.id seat.old.me cell
        (λ there. there) table.now.cells step cell }
    ensures same { (seat.new.table_id ≡ seat.old.table_id) × (seat.new.id ≡ seat.old.id) }
    ensures of_cell { IfSome result.block (λ block. block.0 ≡ cell) }
    ensures fresh { IfSome result.block
        (λ block. listed_at (taken_seen table.now.cells seat.old.me.0.log) cell ≡ None) }
    ensures entries { AreCells table.now.cells (entries_of result.block) }
    ensures when { is_there result.block ≡ takes_block step (cell_told step result.number) }
    ensures told { seat.new.me ≡ (
      with_told (told.Stepped step result.number (found_in cell result.block)) seat.old.me.0,
      out_with cell result.block seat.old.me.1,
    ) }
{
    let number = load_ends::<A, Brand>(table, seat, cell, step);
    let block = take_if(table, seat, cell, step, number);
    Found { number, block }
}

/// A step that sets bits of it.
pub(crate) fn end_by_or<A: Allocator>(
    table: &HeapTable<A>,
    seat: &mut Place<A>,
    cell: u32,
    bits: u64,
    step: Step,
) -> Found<A>
    requires same { seat.old.table_id ≡ table.now.table }
    requires inside { cell < table.now.cells }
    requires allowed { MayEnd table.now.cells table.now.local_limit seat.old.id seat.old.me cell
        (λ there. bit_or there bits) table.now.cells step cell }
    ensures same { (seat.new.table_id ≡ seat.old.table_id) × (seat.new.id ≡ seat.old.id) }
    ensures of_cell { IfSome result.block (λ block. block.0 ≡ cell) }
    ensures fresh { IfSome result.block
        (λ block. listed_at (taken_seen table.now.cells seat.old.me.0.log) cell ≡ None) }
    ensures entries { AreCells table.now.cells (entries_of result.block) }
    ensures when { is_there result.block ≡ takes_block step (cell_told step result.number) }
    ensures told { seat.new.me ≡ (
      with_told (told.Stepped step result.number (found_in cell result.block)) seat.old.me.0,
      out_with cell result.block seat.old.me.1,
    ) }
{
    let number = or_ends::<A, Brand>(table, seat, cell, bits, step);
    let block = take_if(table, seat, cell, step, number);
    Found { number, block }
}

/// A step that subtracts from it.
pub(crate) fn end_by_sub<A: Allocator>(
    table: &HeapTable<A>,
    seat: &mut Place<A>,
    cell: u32,
    less: u64,
    step: Step,
) -> Found<A>
    requires same { seat.old.table_id ≡ table.now.table }
    requires inside { cell < table.now.cells }
    requires allowed { MayEnd table.now.cells table.now.local_limit seat.old.id seat.old.me cell
        (λ there. (there + (WORD_LIMIT - less)) % WORD_LIMIT) table.now.cells step cell }
    ensures same { (seat.new.table_id ≡ seat.old.table_id) × (seat.new.id ≡ seat.old.id) }
    ensures of_cell { IfSome result.block (λ block. block.0 ≡ cell) }
    ensures fresh { IfSome result.block
        (λ block. listed_at (taken_seen table.now.cells seat.old.me.0.log) cell ≡ None) }
    ensures entries { AreCells table.now.cells (entries_of result.block) }
    ensures when { is_there result.block ≡ takes_block step (cell_told step result.number) }
    ensures told { seat.new.me ≡ (
      with_told (told.Stepped step result.number (found_in cell result.block)) seat.old.me.0,
      out_with cell result.block seat.old.me.1,
    ) }
{
    let number = sub_ends::<A, Brand>(table, seat, cell, less, step);
    let block = take_if(table, seat, cell, step, number);
    Found { number, block }
}

/// A step that adds to it, and is told the sum.
pub(crate) fn end_by_add<A: Allocator>(
    table: &HeapTable<A>,
    seat: &mut Place<A>,
    cell: u32,
    more: u64,
    step: Step,
) -> Found<A>
    requires same { seat.old.table_id ≡ table.now.table }
    requires inside { cell < table.now.cells }
    requires allowed { MayEndAt table.now.cells table.now.local_limit seat.old.id seat.old.me cell
        (λ there. (there + more) % WORD_LIMIT) (λ there. (there + more) % WORD_LIMIT) table.now.cells step cell }
    ensures same { (seat.new.table_id ≡ seat.old.table_id) × (seat.new.id ≡ seat.old.id) }
    ensures of_cell { IfSome result.block (λ block. block.0 ≡ cell) }
    ensures fresh { IfSome result.block
        (λ block. listed_at (taken_seen table.now.cells seat.old.me.0.log) cell ≡ None) }
    ensures entries { AreCells table.now.cells (entries_of result.block) }
    ensures when { is_there result.block ≡ takes_block step (cell_told step result.number) }
    ensures told { seat.new.me ≡ (
      with_told (told.Stepped step result.number (found_in cell result.block)) seat.old.me.0,
      out_with cell result.block seat.old.me.1,
    ) }
{
    let there = add_ends::<A, Brand>(table, seat, cell, more, step);
    let number = there.wrapping_add(more);
    let block = take_if(table, seat, cell, step, number);
    Found { number, block }
}

// ---- steps that take a slot

/// Of how many cells the heap is, on which cell it is, and for a locking which place of the frame has it. A caller's
/// proof picks it.
pub(crate) trait Winning {
    ghost cells: { ℕ };

    ghost cell: { ℕ };

    ghost place: { ℕ };
}

impl Winning for Brand {
    ghost cells = { 0 };

    ghost cell = { 0 };

    ghost place = { 0 };
}

/// The seat has the empty slot of a cell that was free.
pub(crate) struct LogClaims<M> {
    marker: PhantomData<M>,
}

impl<A: Allocator, M: Winning> Play<Option<Block<A>>, View> for LogClaims<M> {
    ghost then = { λ step me number after. Claimed M.cells me.0 me.1 M.cell number
        (bit_at number (M.cell % 64) == 1) after };
}

/// The seat has the block of an object that nobody had locked.
pub(crate) struct LogLocks<M> {
    marker: PhantomData<M>,
}

impl<A: Allocator, M: Winning> Play<Option<Block<A>>, View> for LogLocks<M> {
    ghost then = { λ step me number after. LockedOrBusy shows M.cells me.0 me.1 M.place M.cell number
        (number == 0) after };
}

#[inline(always)]
fn claim_as<A: Allocator, M: Winning>(
    table: &HeapTable<A>,
    seat: &mut Place<A>,
    cell: u32,
    mask: u64,
) -> u64
    requires same { seat.old.table_id ≡ table.now.table }
    requires inside { cell < table.now.cells }
    requires allowed { MayClaim table.now.cells table.now.local_limit seat.old.id seat.old.me cell mask M.cells M.cell }
    ensures same { (seat.new.table_id ≡ seat.old.table_id) × (seat.new.id ≡ seat.old.id) }
    ensures claimed { Claimed M.cells seat.old.me.0 seat.old.me.1 M.cell result (bit_at result (M.cell % 64) == 1)
        seat.new.me }
{
    let at = spot_of(table.cells, Word::FreeWord(cell / 64));
    table.table.shared.fetch_and::<LogClaims<M>>(seat, at, mask)
}

/// The free word of the cell keeps the bits of the mask, and where it had the cell's bit the seat has its empty slot.
#[inline(always)]
pub(crate) fn claim_by<A: Allocator>(
    table: &HeapTable<A>,
    seat: &mut Place<A>,
    cell: u32,
    mask: u64,
) -> u64
    requires same { seat.old.table_id ≡ table.now.table }
    requires inside { cell < table.now.cells }
    requires allowed { MayClaim table.now.cells table.now.local_limit seat.old.id seat.old.me cell mask
        table.now.cells cell }
    ensures same { (seat.new.table_id ≡ seat.old.table_id) × (seat.new.id ≡ seat.old.id) }
    ensures claimed { Claimed table.now.cells seat.old.me.0 seat.old.me.1 cell result (bit_at result (cell % 64) == 1)
        seat.new.me }
{
    claim_as::<A, Brand>(table, seat, cell, mask)
}

#[inline(always)]
fn lock_as<A: Allocator, M: Winning>(
    table: &HeapTable<A>,
    seat: &mut Place<A>,
    place: u32,
    cell: u32,
    new: u64,
) -> u64
    requires same { seat.old.table_id ≡ table.now.table }
    requires inside { cell < table.now.cells }
    requires allowed { MayLock table.now.cells table.now.local_limit seat.old.id seat.old.me cell new M.cells
        M.place M.cell }
    ensures same { (seat.new.table_id ≡ seat.old.table_id) × (seat.new.id ≡ seat.old.id) }
    ensures locked { LockedOrBusy shows M.cells seat.old.me.0 seat.old.me.1 M.place M.cell result
        (result == 0) seat.new.me }
{
    let _place = place;
    let at = spot_of(table.cells, Word::Of(Field::Mutex, cell));
    table
        .table
        .shared
        .compare_exchange::<LogLocks<M>>(seat, at, 0, new)
}

/// The mutex word of an object that nobody has locked becomes this number, and the seat has its block.
#[inline(always)]
pub(crate) fn lock_by<A: Allocator>(
    table: &HeapTable<A>,
    seat: &mut Place<A>,
    place: u32,
    cell: u32,
    new: u64,
) -> u64
    requires same { seat.old.table_id ≡ table.now.table }
    requires inside { cell < table.now.cells }
    requires allowed { MayLock table.now.cells table.now.local_limit seat.old.id seat.old.me cell new table.now.cells
        place cell }
    ensures same { (seat.new.table_id ≡ seat.old.table_id) × (seat.new.id ≡ seat.old.id) }
    ensures locked { LockedOrBusy shows table.now.cells seat.old.me.0 seat.old.me.1 place cell result
        (result == 0) seat.new.me }
{
    lock_as::<A, Brand>(table, seat, place, cell, new)
}

/// The block of the slot that the seat took last.
#[inline(always)]
pub(crate) fn take_out<A: Allocator>(
    table: &HeapTable<A>,
    seat: &mut Place<A>,
    cell: u32,
) -> Block<A>
    requires same { seat.old.table_id ≡ table.now.table }
    requires there { HasBlock cell seat.old.me.1 }
    ensures same { (seat.new.table_id ≡ seat.old.table_id) × (seat.new.id ≡ seat.old.id) }
    ensures was { seat.old.me.1 ≡ (cell, Some result) ∷ rest seat.old.me.1 }
    ensures now { seat.new.me ≡ (seat.old.me.0, (cell, None) ∷ rest seat.old.me.1) }
{
    let slot = table.table.shared.exchange(seat, cell as usize, None);
    match slot {
        Some(block) => block,
        None => unreachable!(),
    }
}

// ---- steps that give the slot that the seat took last back

/// Which item it is, and of how many cells the heap is. A caller's proof picks it.
pub(crate) trait Giving {
    ghost item: { ℕ → told_data };

    ghost cells: { ℕ };
}

impl Giving for Brand {
    ghost item = { λ number. told.Loaded (words.NotifyWord 0) number };

    ghost cells = { 0 };
}

/// The seat's log has the item, and the slot that it took last is home; the thread has given back few enough.
pub(crate) struct LogGives<M> {
    marker: PhantomData<M>,
}

impl<A: Allocator, M: Giving> Play<Option<Block<A>>, View> for LogGives<M> {
    ghost then = { λ step me number after. (after ≡ (with_told (M.item number) me.0, rest me.1))
        × FewFrees M.cells after.0.log };
}

#[inline(always)]
fn give_as<A: Allocator, M: Giving>(
    table: &HeapTable<A>,
    seat: &mut Place<A>,
    word: Word,
    new: u64,
    step: Step,
)
    requires same { seat.old.table_id ≡ table.now.table }
    requires inside { IsWord table.now.cells word }
    requires allowed { MayGiveOfFew table.now.cells table.now.local_limit seat.old.id seat.old.me word new
        (M.item new) M.cells }
    ensures same { (seat.new.table_id ≡ seat.old.table_id) × (seat.new.id ≡ seat.old.id) }
    ensures told { seat.new.me ≡ (with_told (M.item new) seat.old.me.0, rest seat.old.me.1) }
    ensures few { FewFrees M.cells seat.new.me.0.log }
{
    let _step = step;
    let at = spot_of(table.cells, word);
    table.table.shared.store::<LogGives<M>>(seat, at, new)
}

/// The slot that the seat took last goes home with what is in it.
#[inline(always)]
pub(crate) fn give<A: Allocator>(
    table: &HeapTable<A>,
    seat: &mut Place<A>,
    word: Word,
    new: u64,
    step: Step,
)
    requires same { seat.old.table_id ≡ table.now.table }
    requires inside { IsWord table.now.cells word }
    requires allowed { MayGive table.now.cells table.now.local_limit seat.old.id seat.old.me word new
        (told.Stepped step new (put_home seat.old.me.1)) }
    requires active { seat.old.me.0.active ≡ true }
    requires some_thread { 0 < seat.old.me.0.thread }
    ensures same { (seat.new.table_id ≡ seat.old.table_id) × (seat.new.id ≡ seat.old.id) }
    ensures told { seat.new.me ≡ (
      with_told (told.Stepped step new (put_home seat.old.me.1)) seat.old.me.0,
      rest seat.old.me.1,
    ) }
    ensures few { FewFrees table.now.cells seat.new.me.0.log }
{
    give_as::<A, Brand>(table, seat, word, new, step)
}

/// A load that finds the number is the item, by which the slot that the seat took last is home; any other is nothing.
pub(crate) struct LogGivesIfThere<M> {
    marker: PhantomData<M>,
}

impl<A: Allocator, M: Stored> Play<Option<Block<A>>, View> for LogGivesIfThere<M> {
    ghost then = { λ step me number after. (number ≡ M.number → after ≡ (with_told M.item me.0, rest me.1))
        × (number ≢ M.number
        → after ≡ me) };
}

#[inline(always)]
fn give_if_as<A: Allocator, M: Stored>(
    table: &HeapTable<A>,
    seat: &mut Place<A>,
    word: Word,
    new: u64,
    step: Step,
) -> bool
    requires same { seat.old.table_id ≡ table.now.table }
    requires inside { IsWord table.now.cells word }
    requires number { M.number ≡ new }
    requires allowed { MayGive table.now.cells table.now.local_limit seat.old.id seat.old.me word new M.item }
    ensures same { (seat.new.table_id ≡ seat.old.table_id) × (seat.new.id ≡ seat.old.id) }
    ensures told { IsTrue result → seat.new.me ≡ (with_told M.item seat.old.me.0, rest seat.old.me.1) }
    ensures other { IsFalse result → seat.new.me ≡ seat.old.me }
{
    let _step = step;
    let at = spot_of(table.cells, word);
    let found = table.table.shared.load::<LogGivesIfThere<M>>(seat, at);
    found == new
}

/// Whether the word has the number already: then the slot that the seat took last goes home by a load.
#[inline(always)]
fn give_if<A: Allocator>(
    table: &HeapTable<A>,
    seat: &mut Place<A>,
    word: Word,
    new: u64,
    step: Step,
) -> bool
    requires same { seat.old.table_id ≡ table.now.table }
    requires inside { IsWord table.now.cells word }
    requires allowed { MayGive table.now.cells table.now.local_limit seat.old.id seat.old.me word new
        (told.Stepped step new (put_home seat.old.me.1)) }
    ensures same { (seat.new.table_id ≡ seat.old.table_id) × (seat.new.id ≡ seat.old.id) }
    ensures told { IsTrue result → seat.new.me ≡ (
      with_told (told.Stepped step new (put_home seat.old.me.1)) seat.old.me.0,
      rest seat.old.me.1,
    ) }
    ensures other { IsFalse result → seat.new.me ≡ seat.old.me }
{
    give_if_as::<A, Brand>(table, seat, word, new, step)
}

/// A store by which the slot that the seat took last is home, or a load where the word has the number already.
#[inline(always)]
pub(crate) fn give_unless_there<A: Allocator>(
    table: &HeapTable<A>,
    seat: &mut Place<A>,
    word: Word,
    new: u64,
    step: Step,
)
    requires same { seat.old.table_id ≡ table.now.table }
    requires inside { IsWord table.now.cells word }
    requires allowed { MayGive table.now.cells table.now.local_limit seat.old.id seat.old.me word new
        (told.Stepped step new (put_home seat.old.me.1)) }
    requires active { seat.old.me.0.active ≡ true }
    requires some_thread { 0 < seat.old.me.0.thread }
    ensures same { (seat.new.table_id ≡ seat.old.table_id) × (seat.new.id ≡ seat.old.id) }
    ensures told { seat.new.me ≡ (
      with_told (told.Stepped step new (put_home seat.old.me.1)) seat.old.me.0,
      rest seat.old.me.1,
    ) }
{
    if !give_if(table, seat, word, new, step) {
        give(table, seat, word, new, step);
    }
}

#[inline(always)]
fn give_bit_as<A: Allocator, M: Giving>(
    table: &HeapTable<A>,
    seat: &mut Place<A>,
    word: Word,
    bits: u64,
    step: Step,
) -> u64
    requires same { seat.old.table_id ≡ table.now.table }
    requires inside { IsWord table.now.cells word }
    requires allowed { MayGiveByOfFew table.now.cells table.now.local_limit seat.old.id seat.old.me word
        (λ there. bit_or there bits) M.item M.cells }
    ensures same { (seat.new.table_id ≡ seat.old.table_id) × (seat.new.id ≡ seat.old.id) }
    ensures told { seat.new.me ≡ (with_told (M.item result) seat.old.me.0, rest seat.old.me.1) }
    ensures few { FewFrees M.cells seat.new.me.0.log }
{
    let _step = step;
    let at = spot_of(table.cells, word);
    table.table.shared.fetch_or::<LogGives<M>>(seat, at, bits)
}

/// The same by a setting of bits, which tells the word as it was.
#[inline(always)]
pub(crate) fn give_bit<A: Allocator>(
    table: &HeapTable<A>,
    seat: &mut Place<A>,
    word: Word,
    bits: u64,
    step: Step,
) -> u64
    requires same { seat.old.table_id ≡ table.now.table }
    requires inside { IsWord table.now.cells word }
    requires allowed { MayGiveBy table.now.cells table.now.local_limit seat.old.id seat.old.me word
        (λ there. bit_or there bits) (λ there. told.Stepped step there (put_home seat.old.me.1)) }
    requires active { seat.old.me.0.active ≡ true }
    requires some_thread { 0 < seat.old.me.0.thread }
    ensures same { (seat.new.table_id ≡ seat.old.table_id) × (seat.new.id ≡ seat.old.id) }
    ensures told { seat.new.me ≡ (
      with_told (told.Stepped step result (put_home seat.old.me.1)) seat.old.me.0,
      rest seat.old.me.1,
    ) }
    ensures few { FewFrees table.now.cells seat.new.me.0.log }
{
    give_bit_as::<A, Brand>(table, seat, word, bits, step)
}

/// A block is put into the empty slot that the seat took last.
#[inline(always)]
pub(crate) fn put_in<A: Allocator>(
    table: &HeapTable<A>,
    seat: &mut Place<A>,
    cell: u32,
    block: Block<A>,
)
    requires same { seat.old.table_id ≡ table.now.table }
    requires empty { seat.old.me.1 ≡ (cell, None) ∷ rest seat.old.me.1 }
    ensures same { (seat.new.table_id ≡ seat.old.table_id) × (seat.new.id ≡ seat.old.id) }
    ensures now { seat.new.me ≡ (seat.old.me.0, (cell, Some block) ∷ rest seat.old.me.1) }
{
    let slot = table
        .table
        .shared
        .exchange(seat, cell as usize, Some(block));
    let None = slot else { unreachable!() };
}
