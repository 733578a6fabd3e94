//! How a script is run.

ghost use Rattle.std.specs.Prelude.{IsTrue, IsFalse};
ghost use Rattle.brc_run.specs.Options.{AreRunOptions};

use brc_words::{FEWEST_CELLS, MOST_CELLS, MOST_LOCAL};

/// The heap of a run, and how much dead blocks are worked on meanwhile.
#[derive(Clone, Copy, Debug, PartialEq, Eq)]
pub struct RunOptions {
    /// Cells of the heap, 512 to 65,536.
    pub cells: u32,
    /// Turns of work on dead blocks after each instruction, 1 to 1,000,000.
    pub budget: usize,
    /// The most that an owner counts up, 1 to 4,294,967,294.
    pub local_limit: u32,
}

/// The largest budget.
pub const MOST_TURNS: usize = 1_000_000;

impl RunOptions {
    /// 4,096 cells, 64 turns, and the largest limit.
    pub const DEFAULT: RunOptions = RunOptions {
        cells: 4_096,
        budget: 64,
        local_limit: 4_294_967_294,
    };

    /// The name of before of `DEFAULT`.
    pub const USUAL: RunOptions = RunOptions::DEFAULT;

    /// Whether each number is within its limits.
    pub fn are_within(&self) -> bool
        ensures within { IsTrue result → AreRunOptions self.now }
        ensures outside { IsFalse result → ¬ (AreRunOptions self.now) }
    {
        let cells = FEWEST_CELLS <= self.cells && self.cells <= MOST_CELLS;
        let budget = 1 <= self.budget && self.budget <= MOST_TURNS;
        let local_limit = 1 <= self.local_limit && self.local_limit <= MOST_LOCAL;
        cells && budget && local_limit
    }
}

impl Default for RunOptions {
    ghost use Rattle.std.specs.Prelude.{◌≡◌};

    ghost is_default = { λ o. (o.cells ≡ 4096) × (o.budget ≡ 64) × (o.local_limit ≡ 4294967294) };

    fn default() -> RunOptions {
        RunOptions::DEFAULT
    }
}
