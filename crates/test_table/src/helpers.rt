//! What the worked runs share: a table that opens, the blocks of a list and of the globals, and an object's end.

ghost use Rattle.std.specs.Prelude.{◌≡◌, ◌<◌, ◌++◌, [], ◌∷◌, None, IfSome, true};
ghost use Rattle.brc_words.specs.Notes.{bare};
ghost use Rattle.brc_words.specs.declared.key.Key.TheVariants as keys;
ghost use Rattle.brc_block.specs.declared.payload.Payload.TheVariants as payloads;
ghost use Rattle.law.specs.world.Lists.{is_marked};
ghost use Rattle.law.specs.world.Steps.{is_free_hand, stage_ok, lock_ok};
ghost use Rattle.law.specs.declared.world.event.Step.TheVariants as steps;
ghost use Rattle.law.specs.rule.Logs.{entries_in};
ghost use Rattle.law.specs.rule.Opening.{first_view};
ghost use Rattle.law.specs.rule.Seen.{part_seen};
ghost use Rattle.law.specs.declared.rule.contents.Contents.TheVariants as contents;
ghost use Rattle.law.specs.declared.rule.told.Moved.TheVariants as moves;
ghost use Rattle.law.specs.declared.rule.told.LogItem.TheVariants as told;
ghost use Rattle.law.specs.steps.Owing.{MayCarry, MayClaimCell};
ghost use Rattle.brc_table.specs.Seated.{Continues};
ghost use Rattle.brc_table.specs.Shown.{contents_of};
ghost use Rattle.test_table.specs.Parts.{HasTwo, globals_with};

use crate::comparing::is;
use crate::ends::end_all;
use crate::globals::shows;
use crate::holding::Held;
use brc_block::{Block, CellList, Entries, KeyRef, Pairs, Payload};
use brc_table::{HeapTable, RootSeat, ThreadSeat};
use brc_words::{Entry, GLOBALS, Key};
use std::alloc::Allocator;
use std::process::Abort;

/// A table, or the end of the test.
pub(crate) fn opened<A: Allocator + Copy>(
    rt: &impl Abort,
    alloc: A,
    local_limit: u32,
) -> (HeapTable<A>, RootSeat<A>)
    ensures sizes { (result.0.cells ≡ 512) × (result.0.local_limit ≡ local_limit) }
    ensures table { result.1.table ≡ result.0.table }
    ensures view { result.1.view ≡ first_view }
{
    match HeapTable::new(alloc, 512, local_limit) {
        Ok(made) => made,
        Err(_) => panic!(rt; "memory"),
    }
}

/// A table with the seat of its root, and the seats of two threads.
type ForTwo<A> = ((HeapTable<A>, RootSeat<A>), (ThreadSeat<A>, ThreadSeat<A>));

/// A table whose owners count as far as they can, and two threads that have done nothing; or the end of the test.
pub(crate) fn opened_for_two<A: Allocator + Copy>(rt: &impl Abort, alloc: A) -> ForTwo<A>
    ensures sizes { (result.0.0.cells ≡ 512) × (result.0.0.local_limit ≡ 4294967294) }
    ensures root { result.0.1.table ≡ result.0.0.table }
    ensures threads { HasTwo result.0.1 }
    ensures tables { (result.1.0.table ≡ result.0.0.table) × (result.1.1.table ≡ result.0.0.table) }
    ensures first { (result.1.0.log ≡ []) × (result.1.0.slots ≡ []) }
    ensures second { (result.1.1.log ≡ []) × (result.1.1.slots ≡ []) }
{
    let (table, root) = opened(rt, alloc, 4_294_967_294);
    let mut root = root;
    let one = table.split(&mut root);
    let two = table.split(&mut root);
    ((table, root), (one, two))
}

/// The block of a new list.
pub(crate) fn a_list<A: Allocator + Copy>(rt: &impl Abort, alloc: A, cell: u32) -> Block<A>
    ensures cell { result.0 ≡ cell }
    ensures list { contents_of result.1 ≡ contents.«List» [] }
{
    match Block::new(alloc, cell, Payload::List(CellList::new(Vec::new(alloc)))) {
        Ok(block) => block,
        Err((_, payload)) => {
            let _payload = payload;
            panic!(rt; "memory")
        }
    }
}

/// The cell is free, as all mortal cells are, and claimed.
pub(crate) fn claimed<A: Allocator>(
    rt: &impl Abort,
    table: &HeapTable<A>,
    seat: &mut ThreadSeat<A>,
    cell: u32,
)
    requires table { seat.old.table ≡ table.now.table }
    requires inside { cell < table.now.cells }
    requires claims { MayClaimCell table.now.cells seat.old.log cell }
    ensures told { seat.new.log ≡ told.Stepped (steps.Claim cell) 18446744073709550592 moves.Nothing ∷ seat.old.log }
    ensures out { seat.new.slots ≡ (cell, None) ∷ seat.old.slots }
    ensures seat { Continues seat.old seat.new }
{
    match table.claim(seat, cell) {
        Ok(found) => is(rt, found, 18_446_744_073_709_550_592),
        Err(_) => panic!(rt; "the cell is taken"),
    }
}

/// The globals aren't locked, and hold these, and are locked now.
pub(crate) fn locked<A: Allocator>(
    rt: &impl Abort,
    table: &HeapTable<A>,
    seat: &mut ThreadSeat<A>,
    place: u32,
    held: Held,
) -> Block<A>
    requires table { seat.old.table ≡ table.now.table }
    requires inside { 265 < table.now.cells }
    requires carries { MayCarry table.now.cells seat.old.log (steps.Lock place) 265 }
    ensures of_cell { result.0 ≡ 265 }
    ensures contents { contents_of result.1 ≡ globals_with held }
    ensures told { seat.new.log ≡ told.Stepped (steps.Lock place) 0
        (moves.Found 265 (globals_with held)) ∷ seat.old.log }
    ensures out { seat.new.slots ≡ (265, None) ∷ seat.old.slots }
    ensures seat { Continues seat.old seat.new }
{
    match table.lock(seat, place, GLOBALS) {
        Err(_) => panic!(rt; "the globals are locked"),
        Ok(block) => {
            assert!(rt; shows(&block, held));
            block
        }
    }
}

/// A pair more, whose key isn't there yet.
fn put_last<A: Allocator + Copy>(rt: &impl Abort, pairs: &mut Pairs<A>, key: i64, cell: u32)
    ensures { pairs.new.items ≡ pairs.old.items ++ (keys.Int key, bare cell) ∷ [] }
{
    let key = Key::Int(key);
    match pairs.find(KeyRef::of(&key)) {
        Some(_) => panic!(rt; "the key is there"),
        None => assert!(rt; pairs.put(key, Entry::bare(cell)).is_ok()),
    }
}

/// The pairs of a dictionary that holds these.
fn pairs_with<A: Allocator + Copy>(rt: &impl Abort, alloc: A, held: Held) -> Pairs<A>
    ensures { contents_of (payloads.Dict result) ≡ globals_with held }
{
    let mut pairs = Pairs::new(alloc);
    match held {
        Held::Nothing => {}
        Held::One { key, cell } => put_last(rt, &mut pairs, key, cell),
        Held::Two { cell } => {
            put_last(rt, &mut pairs, 1, cell);
            put_last(rt, &mut pairs, 2, cell);
        }
    }
    pairs
}

/// The block of the globals, which holds these now.
pub(crate) fn holding<A: Allocator + Copy>(
    rt: &impl Abort,
    alloc: A,
    block: Block<A>,
    held: Held,
) -> Block<A>
    ensures cell { result.0 ≡ block.0 }
    ensures contents { contents_of result.1 ≡ globals_with held }
{
    let mut block = block;
    *block.payload_mut() = Payload::Dict(pairs_with(rt, alloc, held));
    block
}

/// The object isn't dead.
pub(crate) fn alive<A: Allocator>(rt: &impl Abort, block: Option<Block<A>>)
    ensures { block ≡ None }
{
    match block {
        None => {}
        Some(block) => {
            let _payload = block.into_payload();
            panic!(rt; "the object is dead")
        }
    }
}

/// The object is dead, and was a list without entries: its memory goes back, and its cell is free. It was the only
/// mortal cell that wasn't: cell 266.
pub(crate) fn gone<A: Allocator>(
    rt: &impl Abort,
    table: &HeapTable<A>,
    seat: &mut ThreadSeat<A>,
    block: Option<Block<A>>,
    cell: u32,
)
    requires table { seat.old.table ≡ table.now.table }
    requires inside { cell < table.now.cells }
    requires slot { IfSome block (λ there. seat.old.slots ≡ (cell, None) ∷ []) }
    requires entries { IfSome block (λ there. (part_seen table.now.cells seat.old.log).has cell ≡ entries_in
        (contents_of there.1)) }
    requires marked { IfSome block (λ there. is_marked (part_seen table.now.cells seat.old.log).worklist cell ≡ true) }
    requires hand { is_free_hand (part_seen table.now.cells seat.old.log).row.hand ≡ true }
    requires stage { stage_ok (part_seen table.now.cells seat.old.log).row.stage (steps.Free cell) ≡ true }
    requires lock { lock_ok (part_seen table.now.cells seat.old.log).row.locked (steps.Free cell) ≡ true }
    ensures told { seat.new.log ≡ told.Stepped (steps.Free cell) 18446744073709549568 moves.Nothing ∷ seat.old.log }
    ensures slots { seat.new.slots ≡ [] }
    ensures seat { Continues seat.old seat.new }
{
    let Some(block) = block else {
        panic!(rt; "the object isn't dead")
    };
    match block.into_payload() {
        Payload::List(cells) => assert!(rt; cells.len() == 0),
        _ => panic!(rt; "another payload comes back"),
    }
    is(rt, table.free(seat, cell), 18_446_744_073_709_549_568);
}

/// The memory of a dead list goes back, and its cell is free.
pub(crate) fn ends<A: Allocator>(rt: &impl Abort, table: HeapTable<A>, root: RootSeat<A>)
    requires table { root.table ≡ table.table }
{
    assert_eq!(rt; end_all(rt, table.take_apart(root)), 266);
}
