//! What a replay answers, and each growth refused. What a step does and what the readers of a world say stands in a file of
//! `test_texts` (`worlds`), and whole runs are replayed there as texts.

use crate::tests::comparing::{comes, holds, same_at, shows};
use crate::tests::memory::{Tried, ends_of, has_come};
use brc_core::{Event, Hand, ReplayFault, World, replay};
use brc_trace::read_trace;
use brc_words::Fault;
use linked_list_allocator::LocalHeap;
use std::alloc::{AllocGlobal, Allocator, Global};
use std::process::Abort;

/// How many threads there are behind the events of a trace in a heap of so many cells, or why there is no world.
fn registered(alloc: Global, lines: &[u8], cells: u32) -> Result<Result<u32, ReplayFault>, Fault> {
    let trace = read_trace(alloc, lines)?;
    match replay(alloc, trace.events.as_slice(), cells, 7) {
        Ok(world) => Ok(Ok(world.registered())),
        Err(fault) => Ok(Err(fault)),
    }
}

#[test]
fn a_replay_answers_a_world_or_a_fault(rt: HostRuntime) -> Result<(), Fault> {
    const REGISTERED: &str = "heap 512 7\n0 register 1\n1 wake\n";
    const CASES: &[(&str, &str, u32, &str)] = &[
        ("a world", REGISTERED, 512, "Ok(1)"),
        (
            "no thread",
            "heap 512 7\n1 wake\n",
            512,
            "Err(NotEnabled { at: 0 })",
        ),
        ("no heap", REGISTERED, 511, "Err(Options)"),
    ];
    for &(case, lines, cells, wanted) in CASES {
        let found = registered(rt.alloc(), lines.as_bytes(), cells)?;
        shows(&rt, case, &found, wanted);
    }
    Ok(())
}

/// What is read of a world on both sides of a step.
type Seen = (u32, Option<Hand>, Option<u32>, Option<i64>, Option<u32>);

fn seen<A: Allocator + Copy>(world: &World<A>) -> Seen {
    (
        world.registered(),
        world.hand(1),
        world.local(266),
        world.count(266),
        world.locked(1),
    )
}

/// What a world needs more memory for, one after the other: the events up to the one that needs it.
const GROWTHS: &[(&str, &[u8])] = &[
    ("a thread is registered", b"heap 512 2\n0 register 1\n"),
    (
        "a list is born into the first place",
        b"heap 512 2\n1 claim 266\n1 local 266\n1 shared 266\n1 born 266 list 0\n",
    ),
    (
        "the list gets its first entry",
        b"heap 512 2\n1 claim 267\n1 local 267\n1 shared 267\n1 born 267 list 1\n1 lock 0\n1 unlock put 1\n",
    ),
    (
        "the entry is taken to place 20",
        b"heap 512 2\n1 lock 0\n1 unlock take 0 20\n",
    ),
    (
        "the list is counted up for place 90",
        b"heap 512 2\n1 up f0 90\n",
    ),
    (
        "at its limit it is counted up for place 400",
        b"heap 512 2\n1 shup f0 400\n",
    ),
];

/// The events are made. Memory may be refused for the last, and the world is then as it was: whether it is made.
fn takes_events<R: Abort + AllocGlobal, A: Allocator + Copy>(
    rt: &R,
    world: &mut World<A>,
    step: &str,
    lines: &[u8],
) -> bool {
    const CASE: &str = "a world grows";
    let trace = read_trace(rt.alloc(), lines).expect(rt, "a trace");
    let Some((last, others)) = trace.events.as_slice().split_last() else {
        panic!(rt; "a trace without an event")
    };
    for event in others {
        comes(rt, CASE, step, &world.step(event), "Ok(())");
    }
    let before = seen(world);
    match world.step(last) {
        Ok(()) => true,
        Err(fault) => {
            comes(rt, CASE, step, &fault, "Memory");
            holds(rt, step, seen(world) == before);
            false
        }
    }
}

/// A world is made, and grows: how often it does before memory is refused.
struct Grows;

impl Tried for Grows {
    fn comes_to<R: Abort + AllocGlobal>(&self, rt: &R, size: usize, heap: &LocalHeap) -> u32 {
        let mut world = match World::new(heap, 512, 2) {
            Ok(world) => world,
            Err(fault) => {
                same_at(rt, size, fault, Fault::OutOfMemory);
                return u32::MAX;
            }
        };
        let mut growths = 0u32;
        for &(step, lines) in GROWTHS {
            if !takes_events(rt, &mut world, step, lines) {
                return growths;
            }
            growths = growths.saturating_add(1);
        }
        growths
    }
}

/// Every growth is refused at some of the sizes.
#[test]
fn refused_growths_change_nothing(rt: HostRuntime) {
    assert_eq!(rt; ends_of(&rt, &Grows, 4_000..5_500, 8), 7);
}

/// The world that a trace leads to.
fn world_behind(alloc: Global, lines: &[u8]) -> Result<World<Global>, Fault> {
    let trace = read_trace(alloc, lines)?;
    Ok(replay(
        alloc,
        trace.events.as_slice(),
        trace.cells,
        trace.local_limit,
    )?)
}

/// Thread 1 holds two lists. A text of its is dead, on its worklist, and another was freed. Thread 2 gave up a
/// reference to each list: one lies in the queue of thread 1, one is popped. Thread 1 has the globals locked, and
/// thread 2 has a dictionary in its hand that nothing holds any more.
const BUSY: &[u8] =
    b"heap 512 7\n0 register 1\n0 register 2\n1 claim 267\n1 local 267\n1 shared 267\n1 born 267 text 1\n1 down f1\n1 see 267\n1 free 267\n1 claim 266\n1 local 266\n1 shared 266\n1 born 266 list 0\n1 claim 300\n1 local 300\n1 shared 300\n1 born 300 list 1\n1 claim 267\n1 local 267\n1 shared 267\n1 born 267 text 5\n1 up f0 2\n1 up i265 3\n1 lock 3\n1 unlock put 2\n1 lock 3\n1 unlock put 1\n2 up i265 0\n2 lock 0\n2 unlock take 0 1\n2 ask f1\n2 enq 266\n2 lock 0\n2 unlock take 0 1\n2 ask f1\n2 enq 300\n1 drain 9\n1 down f5\n1 see 267\n1 lock 3\n2 claim 301\n2 local 301\n2 shared 301\n2 born 301 dict 1\n2 down f1\n";

/// How many objects live behind these events, replayed in this memory.
fn live_in<A: Allocator + Copy>(heap: A, events: &[Event]) -> Result<u32, Fault> {
    let world = replay(heap, events, 512, 7)?;
    Ok(world.live())
}

/// How many holders an object has, listed in this memory.
fn holders_in<A: Allocator + Copy>(heap: A, world: &World<Global>) -> Result<usize, Fault> {
    let holders = world.holders(heap, 266)?;
    Ok(holders.len())
}

/// The events are replayed; and the holders in the world behind them are listed, for which less memory is enough.
#[derive(Drop)]
struct Answers<'w> {
    world: &'w World<Global>,
    events: &'w [Event],
}

impl<'w> Tried for Answers<'w> {
    fn comes_to<R: Abort + AllocGlobal>(&self, rt: &R, size: usize, heap: &LocalHeap) -> u32 {
        let replayed = has_come(rt, size, live_in(heap, self.events), 4);
        same_at(rt, size, heap.used(), 0);
        let listed = has_come(rt, size, holders_in(heap, self.world), 2);
        replayed.saturating_add(listed)
    }
}

#[test]
fn refused_growths_answer_no_world(rt: HostRuntime) -> Result<(), Fault> {
    let trace = read_trace(rt.alloc(), BUSY)?;
    let world = world_behind(rt.alloc(), BUSY)?;
    let answers = Answers {
        world: &world,
        events: trace.events.as_slice(),
    };
    assert_eq!(rt; ends_of(&rt, &answers, 1..4_000, 16), 3);
    Ok(())
}
