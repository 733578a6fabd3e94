//! A table that opens, counts an immortal and is taken apart, with ample memory and with none.

use crate::comparing::{is, same};
use crate::ends::end_all;
use crate::seats::{OfOne, Seat, Table, for_one};
use brc_block::Payload;
use brc_table::HeapTable;
use brc_words::{Fault, Kind};
use law::world::{Dropped, Source};
use linked_list_allocator::LocalHeap;
use std::alloc::Global;
use std::process::Abort;

/// A thread that has done nothing counts an immortal up and down, and looks at words that nobody has touched.
struct CountsAnImmortal;

impl OfOne for CountsAnImmortal {
    fn run<R: Abort>(&self, rt: &R, _alloc: Global, table: &Table, seat: &mut Seat) {
        let found = table.immortal_up(seat, Source::Immortal(2), 0, 2);
        is(rt, found, 4_294_967_295);
        let found = table.immortal_down(seat, Dropped::Frame(0), 2);
        is(rt, found, 4_294_967_295);
        is(rt, table.load_shared(seat, 2), 4_398_046_511_104);
        is(rt, table.load_owner(seat, 300), 0);
        is(rt, table.load_free(seat, 3), 0);
        is(rt, table.load_free(seat, 4), 18_446_744_073_709_550_592);
        is(rt, table.load_free(seat, 7), u64::MAX);
        is(rt, table.load_mutex(seat, 300), 0);
        is(rt, table.load_notify(seat), 0);
    }
}

#[test]
fn an_immortal_is_counted_up_and_down(rt: HostRuntime) {
    for_one(&rt, &CountsAnImmortal);
}

#[test]
fn immortals_open_as_they_are(rt: HostRuntime) {
    match HeapTable::new(rt.alloc(), 512, 10) {
        Err(_) => panic!(rt; "memory"),
        Ok((table, root)) => {
            let mut rest = table.take_apart(root);
            let mut sum = 0i64;
            for cell in 0..266 {
                match rest.next() {
                    None => panic!(rt; "a block is missing"),
                    Some((block, left)) => {
                        rest = left;
                        match block.into_payload() {
                            Payload::Nothing => assert_eq!(rt; cell, 0),
                            Payload::Truth(truth) => assert!(rt; cell == if truth { 2 } else { 1 }),
                            Payload::Int(number) => sum = sum.wrapping_add(number),
                            payload => assert!(rt;
                                cell == 265 && payload.kind() == Kind::Dict && payload.len() == 0
                            ),
                        }
                    }
                }
            }
            assert_eq!(rt; sum, 32_881);
            assert_eq!(rt; end_all(&rt, rest), 0);
        }
    }
}

#[test]
fn sizes_of_no_heap_are_refused(rt: HostRuntime) {
    const CASES: &[(&str, u32, u32)] = &[
        ("too few cells", 511, 10),
        ("too many cells", 65_537, 10),
        ("no count", 512, 0),
        ("as immortals have it", 512, 4_294_967_295),
    ];
    for &(case, cells, local_limit) in CASES {
        match HeapTable::new(rt.alloc(), cells, local_limit) {
            Err(fault) => same(&rt, case, fault, Fault::BadOptions),
            Ok((table, root)) => {
                let _blocks = end_all(&rt, table.take_apart(root));
                panic!(rt; "{case}")
            }
        }
    }
}

/// Each size of memory in turn: every growth of a table's opening is refused at some of them, and what was made goes
/// back.
#[test]
fn refused_growths_open_no_table(rt: HostRuntime) -> Result<(), Fault> {
    let mut refused = 0u32;
    let mut opened = 0u32;
    for size in 1_300..3_800usize {
        let heap = LocalHeap::new(rt.alloc(), size * 64)?;
        match HeapTable::new(&heap, 512, 10) {
            Err(fault) => {
                same(&rt, "refused", fault, Fault::OutOfMemory);
                refused = refused.saturating_add(1);
            }
            Ok((table, root)) => {
                same(&rt, "blocks", end_all(&rt, table.take_apart(root)), 266);
                opened = opened.saturating_add(1);
            }
        }
        same(&rt, "memory that is used", heap.used(), 0);
    }
    assert!(rt; refused > 300);
    assert!(rt; opened > 10, "{refused} {opened}");
    Ok(())
}
