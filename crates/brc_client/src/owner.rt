//! A heap from its opening to its report.

ghost use Rattle.std.specs.Option.{ForSome};
ghost use Rattle.std.specs.Prelude.{◌≡◌, ◌↔◌, ◌⊎◌, Err, Some, IfSome, IfOk, IfErr, OnOk, OnErr, length};
ghost use Rattle.brc_words.specs.declared.fault.Fault.TheVariants as faults;
ghost use Rattle.brc_count.specs.law.world.Heap.{AreOptions};
ghost use Rattle.brc_things.specs.Looking.{shown_from};
ghost use Rattle.brc_client.specs.declared.status.Status.TheVariants as statuses;
ghost use Rattle.brc_client.specs.declared.owner.OwnerStage.TheVariants as stages;
ghost use Rattle.brc_client.specs.Ends.{OpensWith, IsRegistered, RegistersAt, RegisteredAt, RefusedAt};
ghost use Rattle.brc_client.specs.Ends.{RegisterRefused, SameOwner};
ghost use Rattle.brc_client.specs.Ends.{CountsAt, CountsRefused, open_at, seen_by, ClosedAs, CloseRefused};
ghost use Rattle.brc_client.specs.Ends.{Shows, report_of, text_in, ReportRefused};

use crate::status::Status;
use crate::thread::{NotMade, Thread, register};
use brc_heap::{LastReport, NotClosed, RootCounts, Shared, Sight, Stays, write_report};
use brc_things::show_from;
use brc_thread::Options;
use brc_words::Fault;
use std::alloc::Global;
use std::marker::Model;
use std::mem;

/// A heap that is closed: its report, and the report's text once somebody asked.
#[derive(Drop)]
pub struct Closed {
    last: LastReport,
    text: Option<Vec<u8, Global>>,
    ghost written: { ForSome text (λ bytes. bytes.items ≡ text_in last) },
}

impl Model for Closed {
    ghost use Rattle.brc_heap.specs.Lasting.{LastReportSeen};

    ghost Value = { LastReportSeen };

    ghost view = { λ c. c.last };
}

/// A heap at which threads can be registered.
#[derive(Drop)]
pub struct OpenHeap {
    shared: Shared,
    /// What the stamps of its registrations begin with.
    first: u32,
    /// Its root as it was seen last.
    seen: Option<Sight>,
}

impl Model for OpenHeap {
    ghost use Rattle.brc_client.specs.Desks.{OpenHeapSeen};

    ghost Value = { OpenHeapSeen };

    ghost view = { λ o. record { desk = record { heap = o.shared.heap; first = o.first }; seen = o.seen } };
}

/// How far a heap is.
#[derive(Drop)]
pub enum OwnerStage {
    /// Threads can be registered.
    Open(OpenHeap),
    /// It has ended, with a report.
    Closed(Closed),
    /// It has ended without one: its root as it was seen last.
    Gone(Option<Sight>),
}

/// A heap. One that is dropped before it is closed ends, once its last thread is dropped, without a report.
#[derive(Drop)]
pub struct Owner {
    stage: OwnerStage,
}

impl Model for Owner {
    ghost use Rattle.brc_client.specs.declared.owner.OwnerStage.{OwnerStage};

    ghost Value = { OwnerStage };

    ghost view = { λ o. o.stage };
}

/// What a closed heap left.
#[derive(Clone, Copy, Debug)]
pub struct Left {
    /// How many objects were made.
    pub allocs: u64,
    /// How many cells were given back.
    pub frees: u64,
    /// How many objects are left.
    pub live: u64,
    /// How many circles of references are among them.
    pub cycles: u64,
}

impl Closed {
    /// The report's numbers.
    fn left(&self) -> Left
        ensures { Shows self.now result }
    {
        let report = self.last.report();
        Left {
            allocs: report.ledger.allocs,
            frees: report.ledger.frees,
            live: report.live,
            cycles: report.cycles.len() as u64,
        }
    }

    /// The report's text from a byte on, as much as there is room for; the answer is how long all of it is. OutOfMemory if
    /// the text isn't to be had. It is written once, and kept.
    fn show(&mut self, alloc: Global, from: usize, to: &mut [u8]) -> Result<usize, Status>
        ensures same { self.new ≡ self.old }
        ensures len { IfOk result (λ len. len ≡ length (text_in self.old)) }
        ensures shown { OnOk result (to.new ≡ shown_from (text_in self.old) from to.old) }
        ensures refused { IfErr result (λ status. status ≡ statuses.Fault faults.OutOfMemory) }
        ensures unchanged { OnErr result (to.new ≡ to.old) }
    {
        if let Some(text) = &self.text {
            return Ok(show_from(text.as_slice(), from, to));
        }
        let text = written(alloc, &self.last)?;
        let len = show_from(text.as_slice(), from, to);
        self.text = Some(text);
        Ok(len)
    }
}

/// The report as a text. OutOfMemory if it isn't to be had.
fn written(alloc: Global, last: &LastReport) -> Result<Vec<u8, Global>, Status>
    ensures text { IfOk result (λ text. text.items ≡ text_in last.now) }
    ensures refused { IfErr result (λ status. status ≡ statuses.Fault faults.OutOfMemory) }
{
    let mut text = Vec::new(alloc);
    match write_report(last.report(), &mut text) {
        Ok(()) => Ok(text),
        Err(_fault) => Err(Status::Fault(Fault::OutOfMemory)),
    }
}

impl OpenHeap {
    /// The next thread.
    fn register(&mut self, alloc: Global) -> Result<Thread, Status>
        ensures registers { IfOk result (IsRegistered self.old.desk) }
        ensures registered { OnOk result (RegisteredAt (Some self.old.desk) self.new.seen) }
        ensures refused { IfErr result (RefusedAt self.old.desk.heap self.new.seen) }
        ensures same { self.new.desk ≡ self.old.desk }
    {
        match register(alloc, &self.shared, self.first) {
            Ok((thread, seen)) => {
                self.seen = Some(seen);
                Ok(thread)
            }
            Err(refused) => {
                let NotMade { status, seen } = refused;
                self.seen = seen;
                Err(status)
            }
        }
    }

    /// What its root has counted.
    fn counts(&mut self) -> Result<RootCounts, Status>
        ensures counts { IfOk result (CountsAt (Some self.old.desk) self.new.seen) }
        ensures refused { IfErr result (λ status. status ≡ statuses.Fault faults.Busy) }
        ensures same { self.new.desk ≡ self.old.desk }
    {
        match self.shared.counts() {
            Some((counts, seen)) => {
                self.seen = Some(seen);
                Ok(counts)
            }
            None => Err(Status::Fault(Fault::Busy)),
        }
    }

    /// The heap is closed, or is open still; or it has ended, and memory for its report was missing.
    fn close(self, alloc: Global) -> (OwnerStage, Result<(), Status>)
        ensures closed { OnOk result.1 (ClosedAs (stages.Open self) result.0) }
        ensures refused { IfErr result.1 (CloseRefused (stages.Open self) result.0) }
    {
        let OpenHeap {
            shared,
            first,
            seen: _seen,
        } = self;
        match shared.close(alloc) {
            Ok(last) => (OwnerStage::Closed(Closed { last, text: None }), Ok(())),
            Err(Stays::Memory(seen)) => (
                OwnerStage::Gone(Some(seen)),
                Err(Status::Fault(Fault::OutOfMemory)),
            ),
            Err(Stays::Open(shared, why, seen)) => {
                let fault = match why {
                    NotClosed::Missing {
                        registered,
                        gathered,
                    } => Fault::Missing {
                        registered,
                        gathered,
                    },
                    NotClosed::Busy | NotClosed::Held => Fault::Busy,
                };
                let opened = OpenHeap {
                    shared,
                    first,
                    seen,
                };
                (OwnerStage::Open(opened), Err(Status::Fault(fault)))
            }
        }
    }
}

impl OwnerStage {
    fn end(self, alloc: Global) -> (OwnerStage, Result<(), Status>)
        ensures closed { OnOk result.1 (ClosedAs self result.0) }
        ensures refused { IfErr result.1 (CloseRefused self result.0) }
    {
        match self {
            OwnerStage::Open(opened) => opened.close(alloc),
            OwnerStage::Closed(closed) => (OwnerStage::Closed(closed), Ok(())),
            OwnerStage::Gone(seen) => (OwnerStage::Gone(seen), Err(Status::Gone)),
        }
    }
}

impl Owner {
    /// A new heap. BadOptions, looked at first, if a size is out of its range; then OutOfMemory. The stamps of its
    /// registrations begin behind `first`: heaps of one process whose threads shall not take each other's numbers for
    /// their own begin with 0, 1024, ..
    pub fn new(alloc: Global, cells: u32, local_limit: u32, first: u32) -> Result<Owner, Status>
        ensures opens { IfOk result (OpensWith cells local_limit first) }
        ensures options { (result ≡ Err (statuses.Fault faults.BadOptions)) ↔ ¬ (AreOptions cells local_limit) }
        ensures refused { IfErr result (λ status. (status ≡ statuses.Fault faults.BadOptions)
            ⊎ (status ≡ statuses.Fault faults.OutOfMemory)) }
    {
        match Shared::new(alloc, Options { cells, local_limit }) {
            Ok(shared) => Ok(Owner {
                stage: OwnerStage::Open(OpenHeap {
                    shared,
                    first,
                    seen: None,
                }),
            }),
            Err(fault) => Err(Status::Fault(fault)),
        }
    }

    /// The next thread. Gone once the heap has ended. OutOfMemory for what its numbers want; then Busy if another call
    /// has the root at this moment, TooManyThreads, and OutOfMemory.
    pub fn register(&mut self, alloc: Global) -> Result<Thread, Status>
        ensures registers { IfOk result (λ made. RegistersAt (open_at self.old) made) }
        ensures registered { OnOk result (RegisteredAt (open_at self.old) (seen_by self.new)) }
        ensures refused { IfErr result (RegisterRefused (open_at self.old) (seen_by self.new)) }
        ensures same { SameOwner self.old self.new }
    {
        match &mut self.stage {
            OwnerStage::Open(opened) => opened.register(alloc),
            OwnerStage::Closed(_) => Err(Status::Gone),
            OwnerStage::Gone(_) => Err(Status::Gone),
        }
    }

    /// What its root has counted. Gone once the heap has ended; Busy if another call has the root at this moment.
    pub fn counts(&mut self) -> Result<RootCounts, Status>
        ensures counts { IfOk result (CountsAt (open_at self.old) (seen_by self.new)) }
        ensures refused { IfErr result (CountsRefused (open_at self.old)) }
        ensures same { SameOwner self.old self.new }
    {
        match &mut self.stage {
            OwnerStage::Open(opened) => opened.counts(),
            OwnerStage::Closed(_) => Err(Status::Gone),
            OwnerStage::Gone(_) => Err(Status::Gone),
        }
    }

    /// Closes the heap, with its report; a heap that is closed stays so. Busy if another call has the root at this moment;
    /// then Missing if a thread that was registered isn't gathered; Busy too while a thread that was gathered a moment ago
    /// lets go of the heap. With OutOfMemory the heap has ended without a report, and is Gone.
    pub fn close(&mut self, alloc: Global) -> Result<Left, Status>
        ensures closed { OnOk result (ClosedAs self.old self.new) }
        ensures left { IfOk result (λ left. IfSome (report_of self.new) (λ last. Shows last left)) }
        ensures refused { IfErr result (CloseRefused self.old self.new) }
    {
        let stage = mem::replace(&mut self.stage, OwnerStage::Gone(None));
        let (stage, result) = stage.end(alloc);
        self.stage = stage;
        result?;
        match &self.stage {
            OwnerStage::Closed(closed) => Ok(closed.left()),
            _ => Err(Status::Gone),
        }
    }

    /// The report's text from a byte on, as much as there is room for; the answer is how long all of it is. NotIdle while
    /// the heap is open, Gone if it has ended without a report, and OutOfMemory.
    pub fn report(&mut self, alloc: Global, from: usize, to: &mut [u8]) -> Result<usize, Status>
        ensures same { self.new ≡ self.old }
        ensures len { IfOk result (λ len. IfSome (report_of self.old) (λ report. len ≡ length (text_in report))) }
        ensures shown { OnOk result (IfSome (report_of self.old) (λ report.
            to.new ≡ shown_from (text_in report) from to.old)) }
        ensures refused { IfErr result (ReportRefused self.old) }
        ensures unchanged { OnErr result (to.new ≡ to.old) }
    {
        match &mut self.stage {
            OwnerStage::Open(_) => Err(Status::Fault(Fault::NotIdle)),
            OwnerStage::Gone(_) => Err(Status::Gone),
            OwnerStage::Closed(closed) => closed.show(alloc, from, to),
        }
    }
}
