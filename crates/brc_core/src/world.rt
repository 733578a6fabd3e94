//! The world of the heap: made open, and changed by one event at a time.

ghost use Rattle.std.specs.Prelude.{◌≡◌, ◌↔◌, ◌⊎◌, true, false, None, Err, IfOk, IfErr, OnOk, OnErr};
ghost use Rattle.brc_core.specs.Moves.{MovesOn};
ghost use Rattle.law.specs.world.Heap.{AreOptions, opening, opening_in};
ghost use Rattle.law.specs.world.Steps.{enabled, after};
ghost use Rattle.brc_state.specs.Memory.{needs_memory};
ghost use Rattle.brc_state.specs.Refusals.{refusal_of};

use brc_state::{Refusal, Tables, are_options};
use brc_words::Fault;
use law::world::{Edition, Event, Step};
use std::alloc::Allocator;
use std::marker::Model;

/// A world that some run of events leads to. Contracts see its lists.
#[derive(Drop)]
pub struct World<A: Allocator + Copy> {
    pub(crate) tables: Tables<A>,
}

impl<A: Allocator + Copy> Model for World<A> {
    ghost use Rattle.law.specs.world.Heap.{Heap};
    ghost use Rattle.law.specs.world.Runs.{IsReached};

    ghost Value = { Heap };

    ghost view = { λ w. w.tables };

    ghost invariant = { λ w. IsReached w.tables };
}

/// Why an event wasn't made.
#[derive(Clone, Copy, Debug, PartialEq, Eq)]
pub enum StepFault {
    /// It isn't enabled here.
    NotEnabled,
    /// A growth was refused.
    Memory,
}

/// Which copy of `World::make` a step is made by. The kinds that are most of a run have one each, so that one branch on
/// the kind is made for a step and not ten, and a processor guesses wrong once and not at each; 0 is all others.
#[inline(always)]
fn copy_of(step: Step) -> u8 {
    match step {
        Step::Claim(_) => 1,
        Step::InitLocal(_) => 2,
        Step::InitShared(_) => 3,
        Step::Birth { .. } => 4,
        Step::LocalUp { .. } => 5,
        Step::LocalDown(_) => 6,
        Step::SeeZero(_) => 7,
        Step::Free(_) => 8,
        Step::SharedUp { .. } => 9,
        Step::SharedDown(_) => 10,
        Step::LastDown(_) => 11,
        Step::Lock(_) => 12,
        Step::Unlock(_) => 13,
        _ => 0,
    }
}

impl<A: Allocator + Copy> World<A> {
    /// The opening world of a heap with so many cells and this local limit.
    pub fn new(alloc: A, cells: u32, local_limit: u32) -> Result<World<A>, Fault>
        // The sizes are looked at first, and all else that is refused is memory.
        ensures options { (result ≡ Err Fault.BadOptions) ↔ ¬ (AreOptions cells local_limit) }
        ensures refused { IfErr result
            (λ fault. (fault ≡ Fault.BadOptions) ⊎ (fault ≡ Fault.OutOfMemory)) }

        ensures sizes { OnOk result (AreOptions cells local_limit) }
        ensures world { IfOk result (λ world. world ≡ opening cells local_limit) }
    {
        World::opening(alloc, cells, local_limit, Edition::One)
    }

    /// The opening world of a heap of this edition.
    #[tactic(auto, using(crate::proofs::Reaching::reached_opening))]
    pub fn opening(
        alloc: A,
        cells: u32,
        local_limit: u32,
        edition: Edition,
    ) -> Result<World<A>, Fault>
        ensures options { (result ≡ Err Fault.BadOptions) ↔ ¬ (AreOptions cells local_limit) }
        ensures refused { IfErr result
            (λ fault. (fault ≡ Fault.BadOptions) ⊎ (fault ≡ Fault.OutOfMemory)) }

        ensures sizes { OnOk result (AreOptions cells local_limit) }
        ensures world { IfOk result (λ world. world ≡ opening_in edition cells local_limit) }
    {
        if !are_options(cells, local_limit) {
            return Err(Fault::BadOptions);
        }
        let tables = Tables::opening(alloc, edition, cells, local_limit)?;
        Ok(World { tables })
    }

    /// Makes the event, if it is enabled.
    #[inline(always)]
    fn make(&mut self, event: &Event) -> Result<(), StepFault>
        ensures may { OnOk result (enabled self.old event.now ≡ true) }
        ensures ok { OnOk result (self.new ≡ after self.old event.now) }
        ensures moves { OnOk result (MovesOn self.old event.now self.new) }

        // Whether it is enabled is looked at first.
        ensures not_enabled { (result ≡ Err StepFault.NotEnabled) ↔
            (enabled self.old event.now ≡ false) }
        ensures memory { (result ≡ Err StepFault.Memory) → needs_memory event.now.step ≡ true }
        ensures unchanged { OnErr result (self.new ≡ self.old) }
    {
        let means = self.tables.target(event.thread, event.step);
        if !self.tables.enabled(event, means) {
            return Err(StepFault::NotEnabled);
        }
        match self.tables.apply(event, means) {
            Ok(()) => Ok(()),
            Err(_) => Err(StepFault::Memory),
        }
    }

    /// The same, of a step without a copy.
    #[inline(never)]
    fn make_other(&mut self, event: &Event) -> Result<(), StepFault>
        ensures may { OnOk result (enabled self.old event.now ≡ true) }
        ensures ok { OnOk result (self.new ≡ after self.old event.now) }
        ensures moves { OnOk result (MovesOn self.old event.now self.new) }

        // Whether it is enabled is looked at first.
        ensures not_enabled { (result ≡ Err StepFault.NotEnabled) ↔
            (enabled self.old event.now ≡ false) }
        ensures memory { (result ≡ Err StepFault.Memory) → needs_memory event.now.step ≡ true }
        ensures unchanged { OnErr result (self.new ≡ self.old) }
    {
        self.make(event)
    }

    /// The same, of the steps with this copy.
    // Nothing but the test tells the compiler of which kind the step is; behind it no further look at the kind is left.
    #[inline(never)]
    fn make_one<const COPY: u8>(&mut self, event: &Event) -> Result<(), StepFault>
        ensures may { OnOk result (enabled self.old event.now ≡ true) }
        ensures ok { OnOk result (self.new ≡ after self.old event.now) }
        ensures moves { OnOk result (MovesOn self.old event.now self.new) }

        // Whether it is enabled is looked at first.
        ensures not_enabled { (result ≡ Err StepFault.NotEnabled) ↔
            (enabled self.old event.now ≡ false) }
        ensures memory { (result ≡ Err StepFault.Memory) → needs_memory event.now.step ≡ true }
        ensures unchanged { OnErr result (self.new ≡ self.old) }
    {
        if copy_of(event.step) == COPY {
            self.make(event)
        } else {
            self.make_other(event)
        }
    }

    /// Makes the event, if it is enabled.
    pub fn step(&mut self, event: &Event) -> Result<(), StepFault>
        ensures may { OnOk result (enabled self.old event.now ≡ true) }
        ensures ok { OnOk result (self.new ≡ after self.old event.now) }
        ensures moves { OnOk result (MovesOn self.old event.now self.new) }

        // Whether it is enabled is looked at first.
        ensures not_enabled { (result ≡ Err StepFault.NotEnabled) ↔
            (enabled self.old event.now ≡ false) }
        ensures memory { (result ≡ Err StepFault.Memory) → needs_memory event.now.step ≡ true }
        ensures unchanged { OnErr result (self.new ≡ self.old) }
    {
        match event.step {
            Step::Claim(_) => self.make_one::<1>(event),
            Step::InitLocal(_) => self.make_one::<2>(event),
            Step::InitShared(_) => self.make_one::<3>(event),
            Step::Birth { .. } => self.make_one::<4>(event),
            Step::LocalUp { .. } => self.make_one::<5>(event),
            Step::LocalDown(_) => self.make_one::<6>(event),
            Step::SeeZero(_) => self.make_one::<7>(event),
            Step::Free(_) => self.make_one::<8>(event),
            Step::SharedUp { .. } => self.make_one::<9>(event),
            Step::SharedDown(_) => self.make_one::<10>(event),
            Step::LastDown(_) => self.make_one::<11>(event),
            Step::Lock(_) => self.make_one::<12>(event),
            Step::Unlock(_) => self.make_one::<13>(event),
            _ => self.make_other(event),
        }
    }

    /// Which condition the event fails first, if it isn't enabled. No memory is taken.
    pub fn refusal(&self, event: &Event) -> Option<Refusal>
        ensures which { result ≡ refusal_of self.now event.now }
        ensures none { (result ≡ None) ↔ (enabled self.now event.now ≡ true) }
    {
        self.tables.refusal(event)
    }
}
