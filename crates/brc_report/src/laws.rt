//! What the definition of a cycle comes to.

ghost use Rattle.std.specs.Prelude.{◌≡◌, ◌≤◌, ◌++◌, ℕ, List, [], ◌∷◌, Option, Some};
ghost use Rattle.brc_report.specs.Cycles.{holder_in, IsCycle, AreCycles};
ghost use Rattle.brc_report.specs.Reports.{IsReport};
ghost use Rattle.brc_report.specs.Running.{entries_of_first, RunsInto, IsHolder};
ghost use Rattle.brc_report.specs.Walking.{times};
ghost use Rattle.brc_report.specs.declared.content.Content.{Content as TheContent};
ghost use Rattle.brc_report.specs.declared.content.Remain.{Remain as TheRemain};

use std::alloc::Allocator;

/// No cell stands twice in a cycle.
pub fn cycles_repeat_no_cell()
    ensures { (holder : ℕ → Option ℕ) (first : ℕ) (others : List ℕ) → IsCycle holder first others
        → (cell : ℕ) → times (first ∷ others) cell ≤ 1 }
{}

/// Every cycle of the remains is listed.
pub fn every_cycle_is_listed()
    ensures { (remains : List TheRemain) (cycles : List (List ℕ)) (first : ℕ) (others : List ℕ)
        → AreCycles remains cycles → IsCycle (holder_in remains) first others
        → (front : List (List ℕ)) × (back : List (List ℕ)) × (cycles ≡ front ++ (first ∷ others) ∷ back) }
{}

/// The cycles of the remains are one list.
pub fn cycles_are_one_list()
    ensures { (remains : List TheRemain) (one other : List (List ℕ))
        → AreCycles remains one → AreCycles remains other → one ≡ other }
{}

/// Each remain is held by the globals or by a remain; and where the globals hold nothing, each walk along the holders
/// runs into a cycle that is listed.
#[tactic(auto, using(crate::proofs::Coming_Back::runs_into, crate::proofs::Coming_Back::held_well))]
pub fn walks_run_into_cycles<A: Allocator>()
    ensures held { (contents : List (TheContent A)) (remains : List TheRemain) (cycles : List (List ℕ))
        (cell holder : ℕ)
        → IsReport remains cycles contents → holder_in remains cell ≡ Some holder → IsHolder remains holder }
    ensures runs { (contents : List (TheContent A)) (remains : List TheRemain) (cycles : List (List ℕ))
        (from holder : ℕ)
        → IsReport remains cycles contents → entries_of_first contents ≡ [] → holder_in remains from ≡ Some holder
        → RunsInto remains cycles from }
{}
