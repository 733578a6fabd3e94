//! What a table shows at any moment, as the contract of a function with nothing to do.

ghost use Rattle.std.specs.Prelude.{ℕ, Option};
ghost use Rattle.atomic_table.specs.Table.{State};
ghost use Rattle.brc_block.specs.declared.payload.Payload.{Payload};
ghost use Rattle.law.specs.declared.rule.view.View.{View as view};
ghost use Rattle.brc_table.specs.declared.rule.Sizes.{Sizes as sizes};
ghost use Rattle.brc_table.specs.Moment.{ShowsOneRun};

use crate::rule::{HeapRule, Sizes};
use atomic_table::TableRule;
use brc_block::Block;
use law::rule::View;
use std::alloc::Allocator;

/// The rule of a heap's table, which holds between any two steps of any threads (`atomic_table`: that is what a table
/// is), says that what stands there is one run: so it is at any moment, whatever calls the threads are in.
#[tactic(auto, using(crate::proofs::Showing::shows_one_run))]
pub fn at_any_moment_the_words_show_one_run<A: Allocator>()
    ensures { (key : sizes) (s : State (Option (ℕ × Payload A)) view)
        → ⟦<HeapRule<A> as TableRule<Option<Block<A>>, View, Sizes>>⟧.holds key s
        → ShowsOneRun key.cells key.local_limit s }
{}
