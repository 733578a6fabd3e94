//! What the variable of a thread leads to.

ghost use Rattle.std.specs.Option.{option_copied_mut};
ghost use Rattle.std.specs.Prelude.{◌≡◌, IfOk, IfErr, OnOk, OnErr};
ghost use Rattle.brc_client.specs.declared.thread.Stage.TheVariants as stages;
ghost use Rattle.brc_client.specs.declared.status.Status.TheVariants as statuses;
ghost use Rattle.brc_client.specs.Ends.{client_of, desk_of, seen_at, RegistersAt, RegisteredAt, RegisterRefused};
ghost use Rattle.brc_client.specs.Ends.{SameStage, HasReference, LeavesAs, LeaveRefused, IsOver, LedgerOf};

use brc_client::{Client, Ledger, Owner, Status, Thread};
use std::alloc::Global;

/// Room for a thread. It is filled before C gets it, and stays so until it is dropped.
#[derive(Drop)]
pub(crate) struct Held {
    thread: Thread,
}

impl Held {
    ghost use Rattle.std.specs.Borrow.{sem};
    ghost use Rattle.brc_c.specs.HeldLends.{lends_client};

    /// Room for a thread.
    pub(crate) fn empty() -> Held
        ensures { result.thread ≡ stages.Gone }
    {
        Held {
            thread: Thread::gone(),
        }
    }

    /// The thread goes into the room.
    pub(crate) fn fill(&mut self, thread: Thread)
        ensures { self.new.thread ≡ thread }
    {
        self.thread = thread;
    }

    /// The calls of the thread; None if it has left.
    #[inline(always)]
    pub(crate) fn client(&mut self) -> Option<&mut Client>
        ensures* lends { sem 𝓛 (lends_client self.entry result) }
        ensures value { option_copied_mut result ≡ client_of self.old.thread }
    {
        self.thread.client()
    }

    /// The next thread of the same heap.
    pub(crate) fn fork(&mut self, alloc: Global) -> Result<Thread, Status>
        ensures registers { IfOk result (λ made. RegistersAt (desk_of self.old.thread) made) }
        ensures registered { OnOk result (RegisteredAt (desk_of self.old.thread) (seen_at self.new.thread)) }
        ensures refused { IfErr result (RegisterRefused (desk_of self.old.thread) (seen_at self.new.thread)) }
        ensures same { SameStage self.old.thread self.new.thread }
    {
        self.thread.fork(alloc)
    }

    /// The thread goes on with its way out.
    pub(crate) fn leave(&mut self) -> Result<(), Status>
        ensures gathered { OnOk result (LeavesAs self.old.thread self.new.thread) }
        ensures bare { OnOk result (HasReference self.old.thread → ⊥) }
        ensures refused { IfErr result (LeaveRefused self.old.thread self.new.thread) }
    {
        self.thread.leave()
    }

    /// What the thread has made and freed.
    pub(crate) fn ledger(&self) -> Result<Ledger, Status>
        ensures ledger { IfOk result (LedgerOf self.now.thread) }
        ensures gone { OnErr result (IsOver self.now.thread) }
        ensures refused { IfErr result (λ status. status ≡ statuses.Gone) }
    {
        self.thread.ledger()
    }
}

/// C may move its variables between threads of the machine, one call after the other: what they lead to is `Send`.
fn may_be_moved() {
    is_send::<Owner>();
    is_send::<Held>();
}

fn is_send<T: Send>() {}
