//! Reports of small heaps, as values and as texts, and of large ones.

use crate::tests::comparing::{holds, same, same_at};
use crate::tests::memory::{Tried, ends_of, has_come};
use brc_report::{
    Cells, Content, Ledger, Remain, Report, check_report, find_cycles, find_remains, write_report,
};
use brc_words::{Fault, Kind};
use linked_list_allocator::LocalHeap;
use std::alloc::{AllocGlobal, Allocator, Global};
use std::io::{self, Error, ErrorKind, Write};
use std::process::Abort;

/// The kind of this name. The rows of these tests name one of the four.
fn kind_of(name: &str) -> Kind {
    match name {
        "dict" => Kind::Dict,
        "text" => Kind::Text,
        "mailbox" => Kind::Mailbox,
        _ => Kind::List,
    }
}

/// What a cell holds: its number, its kind, and its entries.
type Row = (u32, &'static str, &'static [u32]);

/// The contents of these cells.
fn contents_of<A: Allocator + Copy>(rt: &impl Abort, alloc: A, rows: &[Row]) -> Vec<Content<A>, A> {
    let mut contents = Vec::new(alloc);
    for &(cell, kind, entries) in rows {
        add(rt, alloc, &mut contents, cell, kind, entries);
    }
    contents
}

/// The contents with one cell more.
fn add<A: Allocator + Copy>(
    rt: &impl Abort,
    alloc: A,
    contents: &mut Vec<Content<A>, A>,
    cell: u32,
    kind: &str,
    entries: &[u32],
) {
    let list = Vec::from_slice(alloc, entries).expect(rt, "memory");
    let content = Content {
        cell,
        kind: kind_of(kind),
        entries: Cells::new(list),
    };
    contents.push(content).expect(rt, "memory");
}

/// A remain: its cell, its kind, and what holds it.
type Left = (u32, &'static str, u32);

/// One remain more.
fn leave(rt: &impl Abort, remains: &mut Vec<Remain>, cell: u32, kind: &str, held_by: u32) {
    let kind = kind_of(kind);
    remains
        .push(Remain {
            cell,
            kind,
            held_by,
        })
        .expect(rt, "memory");
}

/// These remains.
fn remains_of(rt: &impl Abort, alloc: Global, rows: &[Left]) -> Vec<Remain> {
    let mut remains = Vec::new(alloc);
    for &(cell, kind, held_by) in rows {
        leave(rt, &mut remains, cell, kind, held_by);
    }
    remains
}

/// The text of the report on these contents, of a heap that made so many objects and freed none.
fn report_of(
    rt: &impl Abort,
    alloc: Global,
    contents: Vec<Content<Global>>,
    allocs: u64,
) -> Vec<u8> {
    let remains = find_remains(alloc, contents.as_slice())
        .expect(rt, "memory")
        .expect(rt, "a remain without a holder");
    let cycles = find_cycles(alloc, remains.as_slice()).expect(rt, "memory");
    assert!(rt;
        check_report(
            alloc,
            remains.as_slice(),
            cycles.as_slice(),
            contents.as_slice()
        ) == Ok(true)
    );
    let ledger = Ledger { allocs, frees: 0 };
    let report = Report::new(ledger, allocs, remains, cycles, contents).expect(
        rt,
        "a report that no text spells",
    );
    let mut text = Vec::new(alloc);
    assert!(rt; write_report(&report, &mut text).is_ok());
    text
}

/// The globals without entries, two lists that hold each other, and a text that the first holds.
const TWO_LISTS: &[Row] = &[
    (265, "dict", &[]),
    (266, "list", &[268, 267]),
    (267, "list", &[266]),
    (268, "text", &[]),
];

#[test]
fn reports_are_written(rt: HostRuntime) {
    const CASES: &[(&str, &[Row], u64, &str)] = &[
        (
            "a list that holds itself is a cycle",
            &[(265, "dict", &[]), (266, "list", &[266])],
            1,
            "ledger 1 0 1\nremain 266 list 266\ncycle 266\n",
        ),
        (
            "what the globals hold is no cycle",
            &[(265, "dict", &[266]), (266, "text", &[])],
            1,
            "ledger 1 0 1\nremain 266 text 265\n",
        ),
        (
            "two lists hold each other and a text",
            TWO_LISTS,
            3,
            "ledger 3 0 3\nremain 266 list 267\nremain 267 list 266\nremain 268 text 266\ncycle 266 267\n",
        ),
    ];
    for &(case, rows, allocs, wanted) in CASES {
        let contents = contents_of(&rt, rt.alloc(), rows);
        let text = report_of(&rt, rt.alloc(), contents, allocs);
        same(&rt, case, text.as_slice(), wanted.as_bytes());
    }
}

/// Two lists that hold each other.
const EACH_OTHER: &[Left] = &[(266, "list", 267), (267, "list", 266)];

/// What the check of a report says of these.
fn is_report(
    rt: &impl Abort,
    alloc: Global,
    remains: &[Left],
    cycle: &[u32],
    contents: &[Content<Global>],
) -> bool {
    let cells = Vec::from_slice(alloc, cycle).expect(rt, "memory");
    let cycles = [Cells::new(cells)];
    let remains = remains_of(rt, alloc, remains);
    check_report(alloc, remains.as_slice(), &cycles, contents).expect(rt, "memory")
}

/// What remains of the two lists and the text.
const REMAINS: &[Left] = &[(266, "list", 267), (267, "list", 266), (268, "text", 266)];

#[test]
fn a_report_is_checked(rt: HostRuntime) {
    const CASES: &[(&str, &[Left], &[u32], bool)] = &[
        ("right", REMAINS, &[266, 267], true),
        ("a remain too few", EACH_OTHER, &[266, 267], false),
        ("the cycle's second cell first", REMAINS, &[267, 266], false),
    ];
    let contents = contents_of(&rt, rt.alloc(), TWO_LISTS);
    for &(case, remains, cycle, wanted) in CASES {
        let is = is_report(&rt, rt.alloc(), remains, cycle, contents.as_slice());
        holds(&rt, case, is == wanted);
    }
    let remains = remains_of(&rt, rt.alloc(), REMAINS);
    let is = check_report(rt.alloc(), remains.as_slice(), &[], contents.as_slice());
    same(&rt, "no cycle", is, Ok(false));
}

#[test]
fn cycles_stand_by_their_first_cells(rt: HostRuntime) {
    // 266 leads into the cycle of 268 and 270, which is met at 270; 267 and 269 are a cycle of their own.
    const REMAINS: &[Left] = &[
        (266, "list", 270),
        (267, "list", 269),
        (268, "list", 270),
        (269, "list", 267),
        (270, "list", 268),
        (271, "list", 265),
    ];
    let remains = remains_of(&rt, rt.alloc(), REMAINS);
    let cycles = find_cycles(rt.alloc(), remains.as_slice()).expect(&rt, "memory");
    assert_eq!(rt; cycles.len(), 2);
    same(
        &rt,
        "the first",
        cycles[0].as_slice(),
        [267, 269].as_slice(),
    );
    same(
        &rt,
        "the second",
        cycles[1].as_slice(),
        [268, 270].as_slice(),
    );
}

/// The contents alone, without a remain and a cycle, are a report or none.
#[test]
fn contents_that_do_not_rise_are_no_report(rt: HostRuntime) {
    const CASES: &[(&str, &[Row], bool)] = &[
        ("no globals", &[], false),
        ("globals", &[(265, "dict", &[])], true),
        (
            "a remain too few",
            &[(265, "dict", &[]), (266, "text", &[])],
            false,
        ),
        (
            "a cell twice",
            &[
                (265, "dict", &[]),
                (266, "text", &[]),
                (266, "list", &[266]),
            ],
            false,
        ),
    ];
    for &(case, rows, wanted) in CASES {
        let contents = contents_of(&rt, rt.alloc(), rows);
        let is = check_report(rt.alloc(), &[], &[], contents.as_slice());
        same(&rt, case, is, Ok(wanted));
    }
}

/// So many cycles are found, and the first has so many cells.
fn has_cycles(rt: &impl Abort, alloc: Global, remains: &[Remain], count: usize, cells: usize) {
    let cycles = find_cycles(alloc, remains).expect(rt, "memory");
    same(rt, "cycles", cycles.len(), count);
    if let Some(first) = cycles.as_slice().first() {
        same(rt, "the first", first.as_slice().len(), cells);
    }
}

#[test]
fn a_long_chain_is_walked_once(rt: HostRuntime) {
    let mut remains = Vec::new(rt.alloc());
    for cell in 266..60_266u32 {
        leave(&rt, &mut remains, cell, "list", cell + 1);
    }
    has_cycles(&rt, rt.alloc(), remains.as_slice(), 0, 0);
    leave(&rt, &mut remains, 60_266, "list", 266);
    has_cycles(&rt, rt.alloc(), remains.as_slice(), 1, 60_001);
}

#[test]
fn a_thousand_cycles_are_found(rt: HostRuntime) {
    let mut remains = Vec::new(rt.alloc());
    for pair in 0..1_000u32 {
        let (low, high) = (266 + 2 * pair, 267 + 2 * pair);
        leave(&rt, &mut remains, low, "list", high);
        leave(&rt, &mut remains, high, "list", low);
    }
    has_cycles(&rt, rt.alloc(), remains.as_slice(), 1_000, 2);
}

#[test]
fn a_million_entries_have_their_holders(rt: HostRuntime) {
    let mut contents = Vec::new(rt.alloc());
    let mut many = Vec::new(rt.alloc());
    for entry in 0..1_000_000u32 {
        many.push(266 + entry % 100).expect(&rt, "memory");
    }
    add(&rt, rt.alloc(), &mut contents, 265, "dict", many.as_slice());
    for cell in 266..366 {
        add(&rt, rt.alloc(), &mut contents, cell, "list", &[266]);
    }
    let remains = find_remains(rt.alloc(), contents.as_slice())
        .expect(&rt, "memory")
        .expect(&rt, "held");
    assert_eq!(rt; remains.len(), 100);
    assert!(rt; remains[0].held_by == 265 && remains[99].held_by == 265);
}

#[test]
fn a_refused_growth_is_told(rt: HostRuntime) {
    let remains = remains_of(&rt, rt.alloc(), EACH_OTHER);
    for (size, refused) in [(16, Some(Fault::OutOfMemory)), (100_000, None)] {
        let heap = LocalHeap::new(rt.alloc(), size).expect(&rt, "memory");
        let found = find_cycles(&heap, remains.as_slice()).err();
        same_at(&rt, size, found, refused);
    }
}

/// A right report is checked, which was made in ample memory.
#[derive(Drop)]
struct IsRight<'r> {
    ample: &'r LocalHeap,
    remains: &'r [Remain],
}

impl<'r> Tried for IsRight<'r> {
    fn comes_to<R: Abort + AllocGlobal>(&self, rt: &R, size: usize, heap: &LocalHeap) -> u32 {
        let contents = contents_of(rt, self.ample, TWO_LISTS);
        let cells = Vec::from_slice(self.ample, &[266, 267]).expect(rt, "memory");
        let mut cycles = Vec::new(self.ample);
        cycles.push(Cells::new(cells)).expect(rt, "memory");
        let right = check_report(heap, self.remains, cycles.as_slice(), contents.as_slice());
        has_come(rt, size, right, true)
    }
}

/// Every growth of the remains, of the cycles and of the check is refused at some of the sizes.
#[test]
fn a_check_without_memory_is_refused(rt: HostRuntime) {
    let remains = remains_of(&rt, rt.alloc(), REMAINS);
    let ample = LocalHeap::new(rt.alloc(), 10_000).expect(&rt, "memory");
    let is_right = IsRight {
        ample: &ample,
        remains: remains.as_slice(),
    };
    assert_eq!(rt; ends_of(&rt, &is_right, 1..1_000, 16), 2);
    assert_eq!(rt; ample.used(), 0);
}

/// Two texts that remain, and a cycle of 60 cells: its line has 246 bytes.
const LONG: &str =
    "ledger 9 2 7\nremain 266 text 265\nremain 267 mailbox 265\ncycle 300 301 302 303 304 305 306 307 308 309 310 311 312 313 314 315 316 317 318 319 320 321 322 323 324 325 326 327 328 329 330 331 332 333 334 335 336 337 338 339 340 341 342 343 344 345 346 347 348 349 350 351 352 353 354 355 356 357 358 359\n";

/// The report whose text that is.
fn long_report(rt: &impl Abort, alloc: Global) -> Report<Global> {
    let remains = remains_of(rt, alloc, &[(266, "text", 265), (267, "mailbox", 265)]);
    let mut cells = Vec::new(alloc);
    for cell in 300..360u32 {
        cells.push(cell).expect(rt, "memory");
    }
    let mut cycles = Vec::new(alloc);
    cycles.push(Cells::new(cells)).expect(rt, "memory");
    let ledger = Ledger {
        allocs: 9,
        frees: 2,
    };
    Report::new(ledger, 7, remains, cycles, Vec::new(alloc)).expect(
        rt,
        "a report that no text spells",
    )
}

/// Takes each write whole and counts it, until it has no more room.
#[derive(Drop)]
struct Counting {
    taken: Vec<u8>,
    writes: u32,
    room: usize,
}

impl Write for Counting {
    fn write(&mut self, buf: &[u8]) -> io::Result<usize> {
        let count = buf.len().min(self.room);
        if count == 0 {
            return Err(Error::from(ErrorKind::Other));
        }
        self.taken.extend_from_slice(&buf[..count])?;
        self.room -= count;
        self.writes = self.writes.saturating_add(1);
        Ok(count)
    }

    fn flush(&mut self) -> io::Result<()> {
        Ok(())
    }
}

/// The report goes to a stream with this room, which has the front of its text then. This is answered; how often it
/// wrote.
fn writes_to(
    rt: &impl Abort,
    alloc: Global,
    report: &Report<Global>,
    room: usize,
    answer: Result<(), Fault>,
) -> u32 {
    let mut out = Counting {
        taken: Vec::new(alloc),
        writes: 0,
        room,
    };
    same_at(rt, room, write_report(report, &mut out), answer);
    let front = LONG.as_bytes().get(..room).unwrap_or(LONG.as_bytes());
    same_at(rt, room, out.taken.as_slice(), front);
    out.writes
}

#[test]
fn a_line_is_written_once(rt: HostRuntime) {
    let report = long_report(&rt, rt.alloc());
    let writes = writes_to(&rt, rt.alloc(), &report, 1_000, Ok(()));
    // The ledger, each remain, 38 cells of the cycle, and its other 22.
    assert_eq!(rt; writes, 5);
}

#[test]
fn a_report_that_is_cut_off(rt: HostRuntime) {
    let report = long_report(&rt, rt.alloc());
    for room in [0, 30, 100, 250] {
        let _writes = writes_to(&rt, rt.alloc(), &report, room, Err(Fault::Io));
    }
}
