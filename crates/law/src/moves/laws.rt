//! The law of moves, as the contract of a function with nothing to do.

ghost use Rattle.std.specs.Prelude.{◌≡◌, true};
ghost use Rattle.law.specs.declared.world.event.Event.{Event as event};
ghost use Rattle.law.specs.world.Heap.{Heap};
ghost use Rattle.law.specs.world.Steps.{enabled, after};
ghost use Rattle.law.specs.world.Runs.{IsReached};
ghost use Rattle.law.specs.moves.Moves.{MakesMoves, map_of, moves_by};

/// Each event makes its moves in the holder map of its world, each allowed where it is made.
pub fn events_make_their_moves()
    ensures { (h : Heap) (e : event) → IsReached h → enabled h e ≡ true
        → MakesMoves {A = Unit {0}} (map_of h) (moves_by h e) (map_of (after h e)) }
{}
