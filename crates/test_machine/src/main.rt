//! A stack machine over a frame and the places of its stack: two threads run programs on one heap, and hand values over a
//! mailbox. At the end the heap's report has no object left.
#![tactic(auto)]

mod instruction;
mod machine;
mod programs;

ghost use Rattle.std.specs.Prelude.{◌≡◌};
ghost use Rattle.brc_heap.specs.Words.{IsUnlocked};

use brc_heap::{
    CloseFault, Fault, Heap, Mutator, Options, Root, close, give_back, take_apart, write_report,
};
use brc_loops::{Duty, Ended, end_each, gather_all, rest_each, run_each};
use brc_places::{Stack, run_steps};
use instruction::Instruction;
use machine::Machine;
use programs::{ADDS, ENDS, OPENS, SENDS};
use std::alloc::Global;
use std::io;
use std::sync::Wait;
use std::sync::atomic::{AtomicBool, Ordering};
use std::thread::Threads;

/// What a machine told last, and why it ended, if for a fault.
#[derive(Clone, Copy, Debug)]
struct Told {
    number: Option<i64>,
    fault: Option<Fault>,
}

/// A machine with a stack of its own runs a program. Who waits for letters does so until all are sent.
fn runs(
    rt: &impl Wait,
    alloc: Global,
    mutator: &mut Mutator,
    program: &[Instruction],
    sent: &AtomicBool,
) -> Told
    requires bare { mutator.old.len ≡ 0 }
    requires unlocked { IsUnlocked mutator.old }
    ensures heap { mutator.new.heap ≡ mutator.old.heap }
    ensures bare { mutator.new.len ≡ 0 }
    ensures unlocked { IsUnlocked mutator.new }
{
    let frame = mutator.frame();
    let mut machine = Machine::new(alloc, program, sent);
    let mut stack = Stack::new(alloc);
    run_steps(rt, &mut machine, frame, &mut stack);
    stack.release_all(frame);
    Told {
        number: machine.told,
        fault: machine.fault,
    }
}

/// What a thread of the machine does: one of the two sends, and the other adds up, until the first has ended, whatever it
/// came to.
#[derive(Drop)]
struct Working {
    alloc: Global,
    sent: AtomicBool,
}

/// Which of the two a thread does.
#[derive(Clone, Copy)]
enum Job {
    Sends,
    AddsUp,
}

impl<R: Wait> Duty<R, Job> for Working {
    type Answer = Told;

    fn serve(&self, rt: &R, mutator: &mut Mutator, job: Job) -> Told {
        match job {
            Job::AddsUp => runs(rt, self.alloc, mutator, &ADDS, &self.sent),
            Job::Sends => {
                let told = runs(rt, self.alloc, mutator, &SENDS, &self.sent);
                self.sent.store(true, Ordering::SeqCst);
                told
            }
        }
    }
}

/// What two threads told.
fn told_by(ended: &[Ended<Told>]) -> Option<(Told, Told)> {
    match ended {
        [one, two] => Some((one.answer, two.answer)),
        _ => None,
    }
}

/// Two threads are registered, work side by side, and are gathered: what each told.
fn two_work<R>(rt: &R, alloc: Global, heap: &Heap, root: &mut Root) -> Option<(Told, Told)>
where
    R: Threads + Wait + Sync,
    requires root { root.old.table ≡ heap.now.table }
    ensures root { root.new.table ≡ root.old.table }
{
    // Who waits for letters comes last: where the machine has no thread for it, the sender lives first.
    let jobs = Vec::from_slice(alloc, &[Job::Sends, Job::AddsUp]).ok()?;
    let mut two = Vec::new(alloc);
    let _registered = rest_each(alloc, heap, root, jobs, &mut two);
    let working = Working {
        alloc,
        sent: AtomicBool::new(false),
    };
    match run_each(rt, heap, &working, two) {
        Ok(ended) => {
            let told = told_by(ended.as_slice());
            gather_all(root, heap, ended);
            told
        }
        Err(two) => {
            end_each(rt, root, heap, two); // memory is missing: none has lived
            None
        }
    }
}

/// The report of the heap, which is closed, as a text.
fn ends(rt: &HostRuntime, heap: Heap, root: Root) -> io::Result<()>
    requires root { root.table ≡ heap.table }
{
    match close(rt.alloc(), heap, root) {
        Ok(report) => match write_report(&report, &mut rt.stdout()) {
            Ok(()) => Ok(()),
            Err(_) => println!(rt; "not written"),
        },
        Err(CloseFault::Memory) => println!(rt; "no memory for a report"),
        Err(
            CloseFault::Missing {
                registered: _registered,
                gathered: _gathered,
                heap,
                root,
            },
        ) => {
            give_back(take_apart(heap, root));
            println!(rt; "a thread is missing")
        }
    }
}

fn main(rt: HostRuntime) -> io::Result<()> {
    let Ok((heap, mut root)) = Heap::new(rt.alloc(), Options::DEFAULT) else {
        return println!(rt; "no heap can be had");
    };
    let mut told = None;
    let nobody = AtomicBool::new(true); // nobody sends to the first
    if let Ok(mut first) = root.register(rt.alloc(), &heap) {
        let opened = runs(&rt, rt.alloc(), &mut first, &OPENS, &nobody);
        let worked = two_work(&rt, rt.alloc(), &heap, &mut root);
        let ended = runs(&rt, rt.alloc(), &mut first, &ENDS, &nobody);
        let _cleared = first.clear_globals(); // where a program ended early, the mailbox is there still
        let _ledger = first.settle_and_join(&rt, &mut root, &heap);
        told = Some((opened, worked, ended));
    }
    let said = println!(rt; "{told:?}");
    ends(&rt, heap, root)?;
    said
}
