//! How far the places reach that were met: from the lowest to the highest.

ghost use Rattle.std.specs.Prelude.{ℕ};
ghost use Rattle.brc_client.specs.Reach.{Reaches, Widened};

use std::marker::Model;

/// The lowest and the highest place that were met. While the lowest is above the highest, none was.
#[derive(Drop)]
pub(crate) struct Reach {
    lowest: usize,
    highest: usize,
}

impl Model for Reach {
    ghost use Rattle.brc_client.specs.Reach.{ReachSeen};

    ghost Value = { ReachSeen };

    ghost view = { λ r. record { lowest = r.lowest; highest = r.highest } };
}

impl Reach {
    /// No place was met.
    #[inline(always)]
    pub(crate) fn new() -> Reach
        ensures none { (place : ℕ) → Reaches result place → ⊥ }
    {
        Reach {
            lowest: 1,
            highest: 0,
        }
    }

    /// The place is met. The answer is whether it lay outside, so that it wasn't met before.
    #[inline(always)]
    pub(crate) fn widen(&mut self, place: usize) -> bool
        ensures widened { Widened self.old self.new place result }
    {
        if self.lowest > self.highest {
            self.lowest = place;
            self.highest = place;
            true
        } else if place > self.highest {
            self.highest = place;
            true
        } else if place < self.lowest {
            self.lowest = place;
            true
        } else {
            false
        }
    }
}
