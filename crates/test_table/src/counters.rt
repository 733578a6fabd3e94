//! Counting through a counter: an owner's references from the birth to the end, below its limit and at it.

ghost use Rattle.std.specs.Prelude.{◌≡◌, ◌<◌, ℕ, [], length, replicate, slice_index};
ghost use Rattle.law.specs.world.Heap.{words_for};
ghost use Rattle.law.specs.declared.world.event.Dropped.TheVariants as drops;
ghost use Rattle.brc_table.specs.Seated.{Continues};
ghost use Rattle.brc_biased.specs.Counter.{first_count};
ghost use Rattle.brc_biased.specs.Standing.{MayDrop};
ghost use Rattle.test_table.specs.Parts.{seven_log};

use crate::comparing::is;
use crate::helpers::{alive, ends, opened};
use brc_biased::{Counter, HasTable, first_counts, no_bits};
use brc_block::{Block, Payload};
use brc_words::Kind;
use law::world::{Dropped, Source};
use std::alloc::{AllocGlobal, Allocator, Global};
use std::process::Abort;

/// The counts of a thread that has counted nothing, or the end of the test.
fn counts_of<A: Allocator>(rt: &impl Abort, alloc: A, cells: u32) -> Vec<u32, A>
    ensures wide { length result.items ≡ cells }
    ensures each { (c : ℕ) → c < cells → slice_index result.items c ≡ first_count c }
{
    match first_counts(alloc, cells) {
        Ok(counts) => counts,
        Err(_) => panic!(rt; "memory"),
    }
}

/// The owned bits of a thread that owns nothing, or the end of the test.
fn bits_of<A: Allocator>(rt: &impl Abort, alloc: A, cells: u32) -> Vec<u64, A>
    ensures { result.items ≡ replicate (words_for cells) 0 }
{
    match no_bits(alloc, cells) {
        Ok(bits) => bits,
        Err(_) => panic!(rt; "memory"),
    }
}

/// The reference in this place is the last to the number: it goes, the number's memory comes back, and its cell is
/// free.
fn last_goes<H: HasTable<A>, A: Allocator>(
    rt: &impl Abort,
    counter: &mut Counter<H, A>,
    place: u32,
    cell: u32,
    number: i64,
)
    requires inside { cell < counter.old.heap.cells }
    requires slots { counter.old.seat.slots ≡ [] }
    requires holds { MayDrop counter.old.heap.cells counter.old.seat.log (drops.Frame place) cell }
    ensures heap { counter.new.heap ≡ counter.old.heap }
    ensures slots { counter.new.seat.slots ≡ [] }
    ensures seat { Continues counter.old.seat counter.new.seat }
{
    let Some(block) = counter.give_up(Dropped::Frame(place), cell, false) else {
        panic!(rt; "the object isn't dead")
    };
    assert_eq!(rt; block.cell(), cell);
    match block.into_payload() {
        Payload::Int(there) => assert_eq!(rt; there, number),
        _ => panic!(rt; "another payload comes back"),
    }
    counter.free(cell);
}

/// What an owner does that has done nothing but make the number 7, at cell 266 and in place 0.
trait OfOwner {
    fn run<R: Abort, H: HasTable<Global>>(&self, rt: &R, counter: &mut Counter<H, Global>)
        requires cells { counter.old.heap.cells ≡ 512 }
        requires made { counter.old.seat.log ≡ seven_log counter.old.seat.thread }
        requires slots { counter.old.seat.slots ≡ [] };
}

/// It makes the number.
fn makes_seven<H: HasTable<Global>>(
    rt: &impl Abort,
    alloc: Global,
    counter: &mut Counter<H, Global>,
)
    requires cells { counter.old.heap.cells ≡ 512 }
    requires new { (counter.old.seat.log ≡ []) × (counter.old.seat.slots ≡ []) }
    ensures heap { counter.new.heap ≡ counter.old.heap }
    ensures made { counter.new.seat.log ≡ seven_log counter.old.seat.thread }
    ensures slots { counter.new.seat.slots ≡ [] }
    ensures seat { Continues counter.old.seat counter.new.seat }
{
    match counter.claim(266) {
        Ok(found) => is(rt, found, 18_446_744_073_709_550_592),
        Err(_) => panic!(rt; "the cell is taken"),
    }
    match Block::new(alloc, 266, Payload::Int(7)) {
        Ok(block) => counter.bear(block, Kind::Int, 0),
        Err((_, payload)) => {
            let _payload = payload;
            panic!(rt; "memory")
        }
    }
}

/// It does so at a new table of this limit, and leaves nothing.
fn for_owner<R: Abort + AllocGlobal>(rt: &R, local_limit: u32, run: &impl OfOwner) {
    let (table, root) = opened(rt, rt.alloc(), local_limit);
    let mut root = root;
    let counts = counts_of(rt, rt.alloc(), table.cells());
    let owned = bits_of(rt, rt.alloc(), table.cells());
    let seat = table.split(&mut root);
    let mut counter = Counter::new(&table, seat, counts, owned);
    makes_seven(rt, rt.alloc(), &mut counter);
    run.run(rt, &mut counter);
    let (_table, seat) = counter.into_parts();
    drop(seat);
    ends(rt, table, root);
}

/// Its two references go, and with the second the number.
struct CountsToTheEnd;

impl OfOwner for CountsToTheEnd {
    fn run<R: Abort, H: HasTable<Global>>(&self, rt: &R, counter: &mut Counter<H, Global>) {
        assert!(rt; !counter.up(Source::Frame(0), 1, 266));
        alive(rt, counter.give_up(Dropped::Frame(0), 266, false));
        last_goes(rt, counter, 1, 266, 7);
    }
}

#[test]
fn an_owner_counts_to_the_end(rt: HostRuntime) {
    for_owner(&rt, 10, &CountsToTheEnd);
}

/// At limit 1 the second reference goes to the shared word; the first one to go is the local count's, and merges.
struct MergesAtItsLimit;

impl OfOwner for MergesAtItsLimit {
    fn run<R: Abort, H: HasTable<Global>>(&self, rt: &R, counter: &mut Counter<H, Global>) {
        assert!(rt; !counter.up(Source::Frame(0), 1, 266));
        alive(rt, counter.give_up(Dropped::Frame(1), 266, false));

        // A third is counted where it is found merged, and so needs no look when it goes.
        assert!(rt; counter.up(Source::Frame(0), 1, 266));
        alive(rt, counter.give_up(Dropped::Frame(1), 266, true));
        last_goes(rt, counter, 0, 266, 7);
    }
}

#[test]
fn an_owner_at_its_limit_merges(rt: HostRuntime) {
    for_owner(&rt, 1, &MergesAtItsLimit);
}
