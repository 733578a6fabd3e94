//! Replay: the world that a list of events leads to from the opening one.

ghost use Rattle.std.specs.Prelude.{◌≡◌, ◌↔◌, Err, IfOk, IfErr, OnOk, reverse};
ghost use Rattle.brc_core.specs.Replays.{IsRight, IsRightIn, line_of, fault_of};
ghost use Rattle.law.specs.world.Heap.{AreOptions, opening, opening_in};
ghost use Rattle.law.specs.world.Runs.{IsRun, world_after};
ghost use Rattle.law.specs.world.Holding.{Headline, Histories};
ghost use Rattle.law.specs.world.Since.{HistoriesSince};

use crate::world::{StepFault, World};
use brc_words::{Fault, Reason};
use law::world::{Edition, Event};
use std::alloc::Allocator;

/// Why a replay gives no world.
#[derive(Clone, Copy, Debug, PartialEq, Eq)]
pub enum ReplayFault {
    /// A heap can't have these sizes.
    Options,
    /// The event at this index isn't enabled where it stands.
    NotEnabled { at: usize },
    /// A growth was refused.
    Memory,
}

/// The line on which a trace has the event at this index: its head is line 1. Behind the last line that has a number,
/// which is past all lines that a trace can have, it is that one.
fn line_of(at: usize) -> u32
    ensures { result ≡ line_of at }
{
    at.saturating_add(2).min(u32::MAX as usize) as u32
}

impl From<ReplayFault> for Fault {
    ghost from_gives = { λ refused fault. fault ≡ fault_of refused };

    fn from(refused: ReplayFault) -> Fault {
        match refused {
            ReplayFault::Options => Fault::BadOptions,
            ReplayFault::NotEnabled { at } => Fault::BadTrace {
                line: line_of(at),
                reason: Reason::NotEnabled,
            },
            ReplayFault::Memory => Fault::OutOfMemory,
        }
    }
}

/// The world after these events, the oldest first, in a heap of this edition.
#[tactic(auto, using(crate::proofs::Turns::turn, crate::proofs::Turns::first_not_enabled))]
pub fn replay_in<A: Allocator + Copy>(
    alloc: A,
    edition: Edition,
    events: &[Event],
    cells: u32,
    local_limit: u32,
) -> Result<World<A>, ReplayFault>
    // The runs of the definitions have the newest event first.
    ensures sizes { OnOk result (AreOptions cells local_limit) }
    ensures run { OnOk result (IsRun (opening_in edition cells local_limit) (reverse events.now)) }
    ensures world { IfOk result
        (λ world. world ≡ world_after (opening_in edition cells local_limit) (reverse events.now)) }

    // Counts are references and nothing is lost; and lives, ledgers since a number was last registered, and all ledgers
    // together are what the run says.
    ensures headline { IfOk result Headline }
    ensures histories { OnOk result (HistoriesSince (opening_in edition cells local_limit)
        (reverse events.now)) }

    ensures options { (result ≡ Err ReplayFault.Options) ↔ ¬ (AreOptions cells local_limit) }
    ensures refused { IfErr result (λ fault. IsRightIn edition fault cells local_limit events.now) }
{
    let mut world = match World::opening(alloc, cells, local_limit, edition) {
        Ok(world) => world,
        Err(Fault::BadOptions) => return Err(ReplayFault::Options),
        Err(_) => return Err(ReplayFault::Memory),
    };
    for (at, event) in events.iter().enumerate() {
        match world.step(event) {
            Ok(()) => {}
            Err(StepFault::NotEnabled) => {
                return Err(ReplayFault::NotEnabled { at });
            }
            Err(StepFault::Memory) => return Err(ReplayFault::Memory),
        }
    }
    Ok(world)
}

/// The world after these events, the oldest first, in a heap of the first edition.
pub fn replay<A: Allocator + Copy>(
    alloc: A,
    events: &[Event],
    cells: u32,
    local_limit: u32,
) -> Result<World<A>, ReplayFault>
    // The runs of the definitions have the newest event first.
    ensures run { OnOk result (IsRun (opening cells local_limit) (reverse events.now)) }
    ensures world { IfOk result
        (λ world. world ≡ world_after (opening cells local_limit) (reverse events.now)) }

    // Counts are references, nothing is lost, and lives and ledgers are what the run says.
    ensures headline { IfOk result Headline }
    ensures histories { OnOk result (Histories (opening cells local_limit) (reverse events.now)) }

    ensures options { (result ≡ Err ReplayFault.Options) ↔ ¬ (AreOptions cells local_limit) }
    ensures refused { IfErr result (λ fault. IsRight fault cells local_limit events.now) }
{
    replay_in(alloc, Edition::One, events, cells, local_limit)
}
