//! A thread's seat at the table.

ghost use Rattle.std.specs.Prelude.{◌≡◌, ◌<◌, ◌≤◌, true};
ghost use Rattle.brc_words.specs.declared.limits.TheConstants.{MOST_THREADS};

use crate::machine::Place;
use std::alloc::Allocator;
use std::marker::Model;

/// What a thread steps with. It has no bytes but its thread's number.
#[derive(Drop)]
pub struct ThreadSeat<A: Allocator> {
    pub(crate) place: Place<A>,
    pub(crate) thread: u32,
}

impl<A: Allocator> Model for ThreadSeat<A> {
    ghost use Rattle.std.specs.Prelude.{◌≡◌, ◌<◌, ◌≤◌, true};
    ghost use Rattle.brc_words.specs.declared.limits.TheConstants.{MOST_THREADS};
    ghost use Rattle.brc_table.specs.Seated.{SeatSeen};

    ghost Value = { SeatSeen A };

    ghost view = { λ s. record {
      table = s.place.table_id;
      id = s.place.id;
      thread = s.thread;
      log = s.place.me.0.log;
      slots = s.place.me.1;
    } };

    ghost invariant = { λ s. (s.place.me.0.active ≡ true) × (s.place.me.0.thread ≡ s.thread) × (0 < s.thread)
        × (s.thread ≤ MOST_THREADS) };
}
