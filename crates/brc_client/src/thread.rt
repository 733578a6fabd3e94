//! A thread from its registration to its end.

ghost use Rattle.std.specs.Option.{option_copied_mut};
ghost use Rattle.std.specs.Prelude.{◌≡◌, Some, None, IfOk, IfErr, OnOk, OnErr};
ghost use Rattle.brc_words.specs.declared.fault.Fault.TheVariants as faults;
ghost use Rattle.brc_heap.specs.Shared.{HasRegistered, fault_of};
ghost use Rattle.brc_client.specs.declared.status.Status.TheVariants as statuses;
ghost use Rattle.brc_client.specs.declared.thread.Stage.TheVariants as stages;
ghost use Rattle.brc_handles.specs.Handles.{filled};
ghost use Rattle.brc_client.specs.Clients.{SameClient};
ghost use Rattle.brc_client.specs.Ends.{client_of, desk_of, HasReference, LeavesAs, LeaveRefused, IsOver, SameStage};
ghost use Rattle.brc_client.specs.Ends.{IsRegistered, RegistersAt, RegisteredAt, RefusedAt, RegisterRefused, LedgerOf, seen_at};
ghost use Rattle.brc_client.specs.Ends.{seen_in};

use crate::client::Client;
use crate::numbers::{Numbers, PLACES, Stamp, no_uses};
use crate::status::Status;
use brc_count::Ledger;
use brc_handles::Handles;
use brc_heap::{NotRegistered, Shared, Sight};
use brc_thread::{Leaving, Retired};
use brc_words::Fault;
use std::alloc::Global;
use std::marker::Model;
use std::mem;

/// So many turns of work are done at most in each part of a call that leaves.
const TURNS: usize = 4_096;

/// A thread that has left: it deals with what others asked of it before.
pub struct LeavingThread {
    desk: Shared,
    leaving: Leaving<Shared, Global>,
    ghost same: { leaving.heap ≡ desk.heap },
}

impl Model for LeavingThread {
    ghost use Rattle.std.specs.declared.alloc.Global.{Global};
    ghost use Rattle.brc_count.specs.Frames.{FrameSeen};

    ghost Value = { FrameSeen Global };

    ghost view = { λ l. l.leaving };
}

/// A thread that is done, for its root to gather.
#[derive(Drop)]
pub struct DoneThread {
    desk: Shared,
    retired: Retired<Global>,
    ghost same: { retired.heap ≡ desk.heap },
}

impl Model for DoneThread {
    ghost use Rattle.std.specs.declared.alloc.Global.{Global};
    ghost use Rattle.brc_thread.specs.Threads.{RetiredSeen};

    ghost Value = { RetiredSeen Global };

    ghost view = { λ d. d.retired };
}

/// How far a thread is.
#[derive(Drop)]
pub enum Stage {
    /// It is registered, and works.
    Works(Client),
    /// It has left, and has something to do still.
    Leaves(LeavingThread),
    /// It is done, and isn't gathered.
    Ends(DoneThread),
    /// It is gathered: the heap's root as it was seen then.
    Gathered(Sight),
    /// Room for a thread.
    Gone,
}

/// A thread. One that is dropped releases what it has, and is gathered if that takes no waiting; else it is given up, and
/// its heap can't be closed any more.
pub struct Thread {
    stage: Stage,
}

impl Model for Thread {
    ghost use Rattle.brc_client.specs.declared.thread.Stage.{Stage};

    ghost Value = { Stage };

    ghost view = { λ t. t.stage };
}

impl Drop for LeavingThread {
    fn drop(self) {
        let LeavingThread {
            desk: _desk,
            leaving,
        } = self;
        leaving.abandon();
    }
}

impl DoneThread {
    /// The root gathers the thread, if no other call has the root at this moment.
    #[tactic(auto, using(crate::proofs::Gathered::done_gathered))]
    fn gather(self) -> (Stage, Result<(), Status>)
        ensures gathered { OnOk result.1 (LeavesAs (stages.Ends self) result.0) }
        ensures refused { IfErr result.1 (LeaveRefused (stages.Ends self) result.0) }
    {
        let DoneThread { desk, retired } = self;
        match desk.gather(retired) {
            Ok((_counts, seen)) => (Stage::Gathered(seen), Ok(())),
            Err(retired) => {
                let done = DoneThread { desk, retired };
                (Stage::Ends(done), Err(Status::Fault(Fault::Busy)))
            }
        }
    }
}

impl LeavingThread {
    /// What is left is done, as far as the turns go; then the thread is gathered.
    #[tactic(auto, using(crate::proofs::Gathered::left_gathered))]
    fn finish(self) -> (Stage, Result<(), Status>)
        ensures gathered { OnOk result.1 (LeavesAs (stages.Leaves self) result.0) }
        ensures refused { IfErr result.1 (LeaveRefused (stages.Leaves self) result.0) }
    {
        let LeavingThread { desk, leaving } = self;
        let mut leaving = leaving;
        let _spare = leaving.work(TURNS);
        match leaving.finish() {
            Ok(retired) => DoneThread { desk, retired }.gather(),
            Err(leaving) => {
                let left = LeavingThread { desk, leaving };
                (Stage::Leaves(left), Err(Status::Fault(Fault::Busy)))
            }
        }
    }
}

/// The thread leaves, if it has no reference, nobody has asked it for anything, and no dead object is left.
#[tactic(auto, using(crate::proofs::Gathered::client_gathered))]
fn leave(client: Client) -> (Stage, Result<(), Status>)
    ensures gathered { OnOk result.1 (LeavesAs (stages.Works client) result.0) }
    ensures bare { OnOk result.1 (filled client.handles ≡ 0) }
    ensures refused { IfErr result.1 (LeaveRefused (stages.Works client) result.0) }
{
    let mut client = client;
    if client.count() != 0 {
        return (Stage::Works(client), Err(Status::Fault(Fault::NotIdle)));
    }
    let told = client.poll();
    let spare = client.work(TURNS);
    if told != 0 || spare == 0 {
        return (Stage::Works(client), Err(Status::Fault(Fault::Busy)));
    }
    let Ok(desk) = client.home() else {
        return (Stage::Works(client), Err(Status::Fault(Fault::OutOfMemory)));
    };
    client.let_none_go();
    match client.leave() {
        Ok(leaving) => LeavingThread { desk, leaving }.finish(),
        Err(client) => (Stage::Works(client), Err(Status::Fault(Fault::Busy))),
    }
}

impl Stage {
    ghost use Rattle.std.specs.Borrow.{sem};
    ghost use Rattle.brc_client.specs.Lending.{lends_of_stage};

    /// The client of a thread that hasn't left.
    #[inline(always)]
    fn client(&mut self) -> Option<&mut Client>
        ensures* lends { sem 𝓛 (lends_of_stage self.entry result) }
        ensures value { option_copied_mut result ≡ client_of self.old }
    {
        if let Stage::Works(client) = self {
            Some(client)
        } else {
            None
        }
    }

    /// As far on the way out as it goes without waiting.
    fn end(self) -> (Stage, Result<(), Status>)
        ensures gathered { OnOk result.1 (LeavesAs self result.0) }
        ensures bare { OnOk result.1 (HasReference self → ⊥) }
        ensures refused { IfErr result.1 (LeaveRefused self result.0) }
    {
        match self {
            Stage::Works(client) => leave(client),
            Stage::Leaves(left) => left.finish(),
            Stage::Ends(done) => done.gather(),
            Stage::Gathered(seen) => (Stage::Gathered(seen), Err(Status::Gone)),
            Stage::Gone => (Stage::Gone, Err(Status::Gone)),
        }
    }
}

impl Thread {
    ghost use Rattle.std.specs.Borrow.{sem};
    ghost use Rattle.brc_client.specs.Lending.{lends_of_thread};

    /// Room for a thread.
    pub fn gone() -> Thread
        ensures { result ≡ stages.Gone }
    {
        Thread { stage: Stage::Gone }
    }

    /// Its calls, while it hasn't left. None after that.
    #[inline(always)]
    pub fn client(&mut self) -> Option<&mut Client>
        ensures* lends { sem 𝓛 (lends_of_thread self.entry result) }
        ensures value { option_copied_mut result ≡ client_of self.old }
    {
        self.stage.client()
    }

    /// Registers the next thread of the same heap, for another thread of the machine. Gone once this one has left; then
    /// as `Owner::register`.
    pub fn fork(&mut self, alloc: Global) -> Result<Thread, Status>
        ensures registers { IfOk result (λ made. RegistersAt (desk_of self.old) made) }
        ensures registered { OnOk result (RegisteredAt (desk_of self.old) (seen_at self.new)) }
        ensures refused { IfErr result (RegisterRefused (desk_of self.old) (seen_at self.new)) }
        ensures same { SameStage self.old self.new }
    {
        match &mut self.stage {
            Stage::Works(client) => fork(alloc, client),
            Stage::Leaves(_) => Err(Status::Gone),
            Stage::Ends(_) => Err(Status::Gone),
            Stage::Gathered(_) => Err(Status::Gone),
            Stage::Gone => Err(Status::Gone),
        }
    }

    /// The thread leaves: it deals with what others asked of it, hands over what it owns, and is gathered by its heap's
    /// root. NotIdle, looked at first, while it has a reference. Busy if there is more to do, or another call has the
    /// root at this moment: then it is to be called again. Gone once it is gathered.
    pub fn leave(&mut self) -> Result<(), Status>
        ensures gathered { OnOk result (LeavesAs self.old self.new) }
        ensures bare { OnOk result (HasReference self.old → ⊥) }
        ensures refused { IfErr result (LeaveRefused self.old self.new) }
    {
        // One that is gathered is looked at where it lies: its stage is not moved.
        match &self.stage {
            Stage::Gathered(_) => Err(Status::Gone),
            Stage::Gone => Err(Status::Gone),
            _ => self.go_out(),
        }
    }

    /// As far on the way out as it goes without waiting.
    fn go_out(&mut self) -> Result<(), Status>
        ensures gathered { OnOk result (LeavesAs self.old self.new) }
        ensures bare { OnOk result (HasReference self.old → ⊥) }
        ensures refused { IfErr result (LeaveRefused self.old self.new) }
    {
        let stage = mem::replace(&mut self.stage, Stage::Gone);
        let (stage, result) = stage.end();
        self.stage = stage;
        result
    }

    /// What it has made and given back since it was registered. Gone once it is gathered.
    pub fn ledger(&self) -> Result<Ledger, Status>
        ensures ledger { IfOk result (LedgerOf self.now) }
        ensures gone { OnErr result (IsOver self.now) }
        ensures refused { IfErr result (λ status. status ≡ statuses.Gone) }
    {
        match &self.stage {
            Stage::Works(client) => Ok(client.ledger()),
            Stage::Leaves(left) => Ok(left.leaving.ledger()),
            Stage::Ends(done) => Ok(done.retired.ledger()),
            Stage::Gathered(_) => Err(Status::Gone),
            Stage::Gone => Err(Status::Gone),
        }
    }

    /// The end of what is left of it.
    fn spend(self) {
        let Thread { stage: _stage } = self;
    }
}

impl Drop for Thread {
    fn drop(self) {
        let mut thread = self;
        if let Some(client) = thread.client() {
            client.release_all();
        }
        let _left = thread.leave();
        thread.spend();
    }
}

/// Why nobody was registered, and the heap's root as it was seen, if it was.
#[derive(Drop)]
pub(crate) struct NotMade {
    pub(crate) status: Status,
    pub(crate) seen: Option<Sight>,
}

/// The same of a refusal at the desk.
fn not_made(refused: NotRegistered) -> NotMade
    ensures status { result.status ≡ statuses.Fault (fault_of refused) }
    ensures seen { result.seen ≡ seen_in refused }
{
    let status = Status::Fault(refused.fault());
    match refused {
        NotRegistered::TooManyThreads(seen) => NotMade {
            status,
            seen: Some(seen),
        },
        NotRegistered::Busy | NotRegistered::OutOfMemory => NotMade { status, seen: None },
    }
}

/// There was no memory.
fn no_memory() -> NotMade
    ensures { (result.status ≡ statuses.Fault faults.OutOfMemory) × (result.seen ≡ None) }
{
    NotMade {
        status: Status::Fault(Fault::OutOfMemory),
        seen: None,
    }
}

/// The next thread of a heap. All memory that its numbers want is had before it is registered: OutOfMemory. Then Busy if
/// another call has the root at this moment, and as `Root::register` of `brc_thread`.
#[tactic(auto, using(crate::proofs::Gathered::told_at))]
pub(crate) fn register(alloc: Global, desk: &Shared, first: u32) -> Result<(Thread, Sight), NotMade>
    ensures registers { IfOk result (λ made. IsRegistered (record { heap = desk.now.heap; first = first }) made.0) }
    ensures registered { IfOk result (λ made. HasRegistered desk.now.heap made.1) }
    ensures refused { IfErr result (λ told. RefusedAt desk.now.heap told.seen told.status) }
{
    let Ok(uses) = no_uses(alloc) else {
        return Err(no_memory());
    };
    let Ok(handles) = Handles::with_places(alloc, PLACES) else {
        return Err(no_memory());
    };
    match desk.register(alloc) {
        Ok((mutator, registration, after)) => {
            let numbers = Numbers::stamped(
                uses,
                Stamp {
                    first,
                    registration,
                },
            );
            let client = Client::new(mutator, handles, numbers);
            let thread = Thread {
                stage: Stage::Works(client),
            };
            Ok((thread, after))
        }
        Err(refused) => {
            handles.spend();
            Err(not_made(refused))
        }
    }
}

/// The next thread of a client's heap.
fn fork(alloc: Global, client: &mut Client) -> Result<Thread, Status>
    ensures registers { IfOk result
        (IsRegistered (record { heap = client.old.frame.heap; first = client.old.numbers.of.first })) }
    ensures registered { OnOk result (RegisteredAt
        (Some (record { heap = client.old.frame.heap; first = client.old.numbers.of.first })) client.new.seen) }
    ensures refused { IfErr result (RefusedAt client.old.frame.heap client.new.seen) }
    ensures same { SameClient client.old client.new }
{
    let Ok(desk) = client.home() else {
        return Err(Status::Fault(Fault::OutOfMemory));
    };
    let first = client.first();
    match register(alloc, &desk, first) {
        Ok((thread, seen)) => {
            client.note(Some(seen));
            Ok(thread)
        }
        Err(refused) => {
            let NotMade { status, seen } = refused;
            client.note(seen);
            Err(status)
        }
    }
}
