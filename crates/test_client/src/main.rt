//! A thread of a runtime: a number goes into a list, and the list goes with it.
#![tactic(auto)]

ghost use Rattle.brc_heap.specs.Words.{IsUnlocked, Keeps};

use brc_heap::{Frame, Heap, Options, close_or_end, list_push, new_int, new_list};
use std::alloc::Global;
use std::io;
use std::sync::Wait;

/// What the thread does with its frame: it has the same handles before and afterwards.
fn works(rt: &impl Wait, alloc: Global, frame: &mut Frame<'_>) -> Option<()>
    requires unlocked { IsUnlocked frame.old }
    ensures keeps { Keeps frame.old frame.new }
    ensures unlocked { IsUnlocked frame.new }
{
    let list = new_list(alloc, frame).ok()?;
    let Ok(number) = new_int(alloc, frame, 1_000) else {
        frame.release(list);
        return None;
    };
    if let Err(handed) = list_push(rt, frame, &list, number) {
        frame.release(handed.value); // a refused call hands back what it took
        frame.release(list);
        return None;
    }
    frame.release(list);
    Some(())
}

fn main(rt: HostRuntime) -> io::Result<()> {
    let Ok((heap, mut root)) = Heap::new(rt.alloc(), Options::DEFAULT) else {
        return println!(rt; "no heap can be had");
    };
    if let Ok(mut mutator) = root.register(rt.alloc(), &heap) {
        let _done = works(&rt, rt.alloc(), mutator.frame());
        let _ledger = mutator.settle_and_join(&rt, &mut root, &heap);
    }
    match close_or_end(rt.alloc(), heap, root) {
        Ok(report) => println!(rt; "made {}, left {}", report.ledger.allocs, report.live),
        Err(reason) => println!(rt; "no report: {reason:?}"),
    }
}
