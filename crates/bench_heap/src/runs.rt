//! The cases: threads on one heap, each with what it is to do.

ghost use Rattle.std.specs.Prelude.{◌≡◌, IfOk};
ghost use Rattle.std.specs.List.{All};

use crate::globals::Giving;
use crate::leavers::{Timing, clears, times_of_lives};
use crate::letters::{Post, SENDERS};
use crate::lives::{Asked, CELLS, Timed};
use crate::request::Case;
use crate::timing::{Span, Times, refused, times_of};
use brc_loops::{Ended, end_all, rest_more, run_all};
use brc_thread::{Heap, Options, Resting, Root, give_back, take_apart};
use std::alloc::Global;
use std::io;
use std::rt::Clock;
use std::sync::Wait;
use std::thread::Threads;
use std::time::CpuClock;

/// The threads, each of which has given what it gives and is at rest.
fn rested<R: Wait>(
    rt: &R,
    alloc: Global,
    heap: &Heap<Global>,
    root: &mut Root<Global>,
    asked: Asked,
) -> io::Result<Vec<Resting<Global>>>
    requires heap { root.old.table ≡ heap.now.table }
    ensures heap { IfOk result (λ all. All (λ resting. resting.heap ≡ heap.now) all.items) }
    ensures root { root.new.table ≡ root.old.table }
{
    let mut all = Vec::new(alloc);
    let task = Giving { rt, alloc, asked };
    match rest_more(rt, alloc, heap, root, &task, asked.threads as u64, &mut all) {
        Some(()) => Ok(all),
        None => {
            end_all(rt, root, heap, all);
            Err(refused())
        }
    }
}

/// What a run answers.
#[derive(Clone, Copy)]
pub struct Answer {
    pub times: Times,
    /// How many objects all threads together have made.
    pub allocs: u64,
    /// How many cells they have given back.
    pub frees: u64,
}

/// What all threads together found.
fn answer_of(alloc: Global, all: Vec<Ended<io::Result<Option<Span>>>>) -> io::Result<Answer> {
    let mut spans = Vec::new(alloc);
    let mut allocs: u64 = 0;
    let mut frees: u64 = 0;
    for one in all {
        let Ended { answer, retired } = one;
        if let Some(span) = answer? {
            spans.push(span)?;
        }
        let ledger = retired.ledger();
        allocs = allocs.wrapping_add(ledger.allocs);
        frees = frees.wrapping_add(ledger.frees);
    }
    Ok(Answer {
        times: times_of(spans.as_slice()),
        allocs,
        frees,
    })
}

/// They live; where memory is missing for that, they end here.
fn lived<R: Threads + Wait + Clock + CpuClock + Sync>(
    rt: &R,
    heap: &Heap<Global>,
    root: &mut Root<Global>,
    timed: &Timed<'_>,
    all: Vec<Resting<Global>>,
) -> io::Result<Vec<Ended<io::Result<Option<Span>>>>>
    requires heap { root.old.table ≡ heap.now.table }
    requires all { All (λ resting. resting.heap ≡ heap.now) all.items }
    ensures root { root.new.table ≡ root.old.table }
{
    match run_all(rt, heap, timed, all) {
        Ok(ended) => Ok(ended),
        Err(all) => {
            end_all(rt, root, heap, all);
            Err(refused())
        }
    }
}

/// The busy threads live, and the idle ones after them.
fn answer_of_both<R: Threads + Wait + Clock + CpuClock + Sync>(
    rt: &R,
    alloc: Global,
    heap: &Heap<Global>,
    root: &mut Root<Global>,
    asked: Asked,
    busy: Vec<Resting<Global>>,
    owning: Asked,
    idle: Vec<Resting<Global>>,
) -> io::Result<Answer>
    requires heap { root.old.table ≡ heap.now.table }
    requires busy { All (λ resting. resting.heap ≡ heap.now) busy.items }
    requires idle { All (λ resting. resting.heap ≡ heap.now) idle.items }
    ensures root { root.new.table ≡ root.old.table }
{
    let post = Post::new();
    let timed = Timed {
        alloc,
        post: &post,
        asked,
    };
    let idling = Timed {
        alloc,
        post: &post,
        asked: owning,
    };
    match lived(rt, heap, root, &timed, busy) {
        Ok(mut all) => {
            for one in lived(rt, heap, root, &idling, idle)? {
                all.push(one)?;
            }
            answer_of(alloc, all)
        }
        Err(error) => {
            end_all(rt, root, heap, idle);
            Err(error)
        }
    }
}

/// Runs a case on this heap: the busy threads do, and the idle ones end after them.
fn answer_on<R: Threads + Wait + Clock + CpuClock + Sync>(
    rt: &R,
    alloc: Global,
    heap: &Heap<Global>,
    root: &mut Root<Global>,
    asked: Asked,
) -> io::Result<Answer>
    requires heap { root.old.table ≡ heap.now.table }
    ensures root { root.new.table ≡ root.old.table }
{
    let owners = match asked.case {
        Case::PairForeign => asked.threads,
        _ => 0,
    };
    let owning = Asked {
        idle: true,
        threads: owners,
        ..asked
    };
    let idle = rested(rt, alloc, heap, root, owning)?;
    match rested(rt, alloc, heap, root, asked) {
        Ok(busy) => answer_of_both(rt, alloc, heap, root, asked, busy, owning, idle),
        Err(error) => {
            end_all(rt, root, heap, idle);
            Err(error)
        }
    }
}

/// How many threads a case has.
fn threads_of(case: Case, threads: u32) -> u32 {
    match case {
        Case::Mail | Case::MailValue => SENDERS + 1,
        Case::Chain | Case::MakeChain | Case::MakeChainNear | Case::Wide => 1,
        Case::ClaimFull | Case::ClaimFullNear => 1,
        Case::ThreadLife { .. } | Case::Leave { .. } => 1,
        _ => threads,
    }
}

/// Runs lives of threads on this heap, one after the other; one thread more clears up after them.
fn answer_of_lives<R: Wait + Clock + CpuClock>(
    rt: &R,
    alloc: Global,
    heap: &Heap<Global>,
    root: &mut Root<Global>,
    timing: Timing,
    objects: u32,
    n: u64,
) -> io::Result<Answer>
    requires heap { root.old.table ≡ heap.now.table }
    ensures root { root.new.table ≡ root.old.table }
{
    let times = times_of_lives(rt, alloc, heap, root, timing, objects, n)?;
    match clears(rt, alloc, heap, root) {
        None => Err(refused()),
        Some(()) => {
            let ledger = root.ledger();
            Ok(Answer {
                times,
                allocs: ledger.allocs,
                frees: ledger.frees,
            })
        }
    }
}

/// How many cells the heap of a case has.
fn cells_of(case: Case) -> u32 {
    match case {
        Case::ThreadLife {
            objects: _objects,
            cells,
        } => cells,
        _ => CELLS,
    }
}

/// Runs a case on a heap of its own.
pub fn run_case<R: Threads + Wait + Clock + CpuClock + Sync>(
    rt: &R,
    alloc: Global,
    case: Case,
    threads: u32,
    n: u64,
) -> io::Result<Answer> {
    let options = Options {
        cells: cells_of(case),
        local_limit: 4_294_967_294,
    };
    let asked = Asked {
        case,
        idle: false,
        threads: threads_of(case, threads),
        n,
    };
    match Heap::new(alloc, options) {
        Err(_) => Err(refused()),
        Ok((heap, root)) => {
            let mut root = root;
            let answer = match case {
                Case::ThreadLife { objects, .. } => {
                    answer_of_lives(rt, alloc, &heap, &mut root, Timing::Lives, objects, n)
                }
                Case::Leave { objects } => {
                    answer_of_lives(rt, alloc, &heap, &mut root, Timing::Leaving, objects, n)
                }
                _ => answer_on(rt, alloc, &heap, &mut root, asked),
            };
            give_back(take_apart(heap, root));
            answer
        }
    }
}
