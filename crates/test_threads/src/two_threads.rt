//! Two threads of a runtime push a number each onto one list, which they find in the globals; a third takes it out, and
//! all dies with it.

ghost use Rattle.std.specs.Prelude.{◌≡◌};

use crate::globals::{New, puts_new, writes_to};
use brc_heap::{Heap, Key, Ledger, Mutator, Options, Root, dict_del, give_back, take_apart};
use brc_loops::{Ended, Life, Nothing, end_all, gather_all, rest_more, run_all};
use std::alloc::{AllocGlobal, Global};
use std::io;
use std::sync::Wait;
use std::thread::Threads;

const LIST: i64 = 1; // the list's key in the globals

/// What a thread of the machine does: it finds the list in the globals, and pushes a number of its own.
#[derive(Drop)]
struct Pushing {
    alloc: Global,
}

impl<R: Wait> Life<R> for Pushing {
    type Answer = ();

    fn live(&self, rt: &R, mutator: &mut Mutator) {
        let number = 1_000 * mutator.thread() as i64 + 1;
        if let Ok(globals) = mutator.globals() {
            let frame = mutator.frame();
            let _written = writes_to(rt, self.alloc, frame, &globals, LIST, number);
            frame.release(globals);
        }
    }
}

/// The ledgers of two threads.
fn ledgers_of(ended: &[Ended<()>]) -> Option<(Ledger, Ledger)> {
    match ended {
        [one, two] => Some((one.retired.ledger(), two.retired.ledger())),
        _ => None,
    }
}

/// Two threads are registered, do their work, each on a thread of the machine, and are gathered: their ledgers.
fn two_work<R>(rt: &R, alloc: Global, heap: &Heap, root: &mut Root) -> Option<(Ledger, Ledger)>
where
    R: Threads + Wait + Sync,
    requires root { root.old.table ≡ heap.now.table }
    ensures root { root.new.table ≡ root.old.table }
{
    let mut two = Vec::new(alloc);
    let _registered = rest_more(rt, alloc, heap, root, &Nothing, 2, &mut two);
    match run_all(rt, heap, &Pushing { alloc }, two) {
        Ok(ended) => {
            let ledgers = ledgers_of(ended.as_slice());
            gather_all(root, heap, ended);
            ledgers
        }
        Err(two) => {
            end_all(rt, root, heap, two); // memory is missing: none has lived
            None
        }
    }
}

/// A heap is opened, the threads live on it, and their ledgers are printed.
pub(crate) fn says<R: AllocGlobal + Print + Threads + Wait + Sync>(rt: &R) -> io::Result<()> {
    let Ok((heap, mut root)) = Heap::new(rt.alloc(), Options::DEFAULT) else {
        return println!(rt; "no heap can be had");
    };
    let mut ledgers = (None, None);
    if let Ok(mut last) = root.register(rt.alloc(), &heap) {
        if let Ok(globals) = last.globals() {
            let _put = puts_new(rt, rt.alloc(), last.frame(), &globals, LIST, New::List);
            ledgers.0 = two_work(rt, rt.alloc(), &heap, &mut root);
            if let Ok(list) = dict_del(rt, last.frame(), &globals, &Key::Int(LIST)) {
                last.frame().release(list);
            }
            last.frame().release(globals);
        }
        ledgers.1 = Some(last.settle_and_join(rt, &mut root, &heap));
    }
    give_back(take_apart(heap, root));
    println!(rt; "{ledgers:?}")
}
