//! A small runtime in six steps, as `docs/TUTORIAL.md` tells them: an object, a list, a dictionary, the globals, a
//! second thread, and a pool. Each step is a file of its own. At the end the heap is closed, and its report has no object left.
#![tactic(auto)]

mod dictionary;
mod globals;
mod list;
mod object;
mod pool;
mod threads;

ghost use Rattle.std.specs.Prelude.{◌≡◌};
ghost use Rattle.brc_heap.specs.Words.{IsUnlocked};

use brc_heap::{Heap, Mutator, Options, Root, close_or_end};
use std::alloc::Global;
use std::io;
use std::sync::Wait;

/// What the first three steps came to, and whether the fourth left its list in the globals.
#[derive(Clone, Copy, Debug)]
struct Alone {
    measured: Option<usize>,
    popped: Option<i64>,
    looked_up: Option<i64>,
    left: Option<()>,
}

/// The steps for which one thread is enough.
fn works_alone(rt: &impl Wait, alloc: Global, mutator: &mut Mutator) -> Alone
    requires bare { mutator.old.len ≡ 0 }
    requires unlocked { IsUnlocked mutator.old }
    ensures heap { mutator.new.heap ≡ mutator.old.heap }
    ensures bare { mutator.new.len ≡ 0 }
    ensures unlocked { IsUnlocked mutator.new }
{
    let frame = mutator.frame();
    Alone {
        measured: object::measures(rt, alloc, frame, "a small runtime"),
        popped: list::pushes_and_pops(rt, alloc, frame),
        looked_up: dictionary::puts_and_finds(rt, alloc, frame),
        left: globals::leaves(rt, alloc, frame, 0, 4_000),
    }
}

/// The first thread works alone, and leaves.
fn begins(rt: &impl Wait, alloc: Global, heap: &Heap, root: &mut Root) -> Option<Alone>
    requires root { root.old.table ≡ heap.now.table }
    ensures root { root.new.table ≡ root.old.table }
{
    let Ok(mut first) = root.register(alloc, heap) else {
        return None;
    };
    let alone = works_alone(rt, alloc, &mut first);
    let _ledger = first.settle_and_join(rt, root, heap);
    Some(alone)
}

/// The last thread clears the globals, and with them all that hangs on them.
fn ends(rt: &impl Wait, alloc: Global, heap: &Heap, root: &mut Root)
    requires root { root.old.table ≡ heap.now.table }
    ensures root { root.new.table ≡ root.old.table }
{
    if let Ok(mut last) = root.register(alloc, heap) {
        let _cleared = last.clear_globals();
        let _ledger = last.settle_and_join(rt, root, heap);
    }
}

fn main(rt: HostRuntime) -> io::Result<()> {
    let Ok((heap, mut root)) = Heap::new(rt.alloc(), Options::DEFAULT) else {
        return println!(rt; "no heap can be had");
    };
    let alone = begins(&rt, rt.alloc(), &heap, &mut root);
    let second = threads::second_thread(&rt, rt.alloc(), &heap, &mut root);
    let served = pool::serves(&rt, rt.alloc(), &heap, &mut root);
    ends(&rt, rt.alloc(), &heap, &mut root);
    let closed = close_or_end(rt.alloc(), heap, root);
    println!(rt; "{alone:?}")?;
    println!(rt; "the second thread found {second:?}")?;
    println!(rt; "the pool served {served}")?;
    match closed {
        Ok(report) => {
            let ledger = report.ledger;
            println!(rt;
                "made {}, freed {}, left {}",
                ledger.allocs, ledger.frees, report.live
            )
        }
        Err(reason) => println!(rt; "no report: {reason:?}"),
    }
}
