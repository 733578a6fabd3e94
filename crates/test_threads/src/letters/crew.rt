//! All threads: who they are, how they live at the same time, and what they counted together.

ghost use Rattle.std.specs.Prelude.{◌≡◌};

use crate::letters::mail::{Counted, LETTERS, Mailing, Role, SENDERS};
use brc_heap::{Heap, Root};
use brc_loops::{end_each, gather_all, gather_answers, rest_each, run_each};
use std::alloc::{AllocError, Global};
use std::sync::Wait;
use std::thread::Threads;

/// How many receive.
const RECEIVERS: u32 = 3;

/// The role of each thread: the senders' letters are all different. Who opens the mailbox comes first, and who waits
/// for letters comes last. So each waits for earlier ones alone, and all ends too where the machine has one thread for
/// several of them (`run_each`).
fn roles(alloc: Global) -> Result<Vec<Role>, AllocError> {
    let mut roles = Vec::new(alloc);
    roles.push(Role::Opens)?;
    for sender in 0..SENDERS {
        roles.push(Role::Sends(1_000 + LETTERS * i64::from(sender)))?;
    }
    for _ in 0..RECEIVERS {
        roles.push(Role::Receives)?;
    }
    Ok(roles)
}

/// What all counted.
fn total(all: &[Counted]) -> Counted {
    let mut counted = Counted::NOTHING;
    for one in all {
        counted = counted.and(*one);
    }
    counted
}

/// All threads are registered, live, and are gathered: what they counted. None if memory was missing.
pub(crate) fn all_live<R>(rt: &R, alloc: Global, heap: &Heap, root: &mut Root) -> Option<Counted>
where
    R: Threads + Wait + Sync,
    requires root { root.old.table ≡ heap.now.table }
    ensures root { root.new.table ≡ root.old.table }
{
    let roles = roles(alloc).ok()?;
    let mut jobs = Vec::new(alloc);
    let _all = rest_each(alloc, heap, root, roles, &mut jobs);
    match run_each(rt, heap, &Mailing::new(alloc), jobs) {
        Ok(ended) => match gather_answers(alloc, root, heap, ended) {
            Ok(answers) => Some(total(answers.as_slice())),
            Err(ended) => {
                gather_all(root, heap, ended);
                None
            }
        },
        Err(jobs) => {
            end_each(rt, root, heap, jobs);
            None
        }
    }
}
