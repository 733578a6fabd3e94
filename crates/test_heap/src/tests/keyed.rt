//! What goes into a dictionary by a key that is lent, each growth refused in turn, of the dictionary and of the key's
//! copy; and globals that can't be cleared for want of memory: for the handle to them, and for the one to an entry.

use crate::tests::worlds::{Case, FRAMES, OBJECTS, World, plays_all};

/// A new dictionary, and no memory.
const EMPTY: World = World {
    begins: "make dict; starve",
    ..OBJECTS
};

const CASES: &[Case] = &[
    Case {
        name: "try_dict_set: a text's key goes into an empty dictionary once there is memory, and once more without any",
        on: EMPTY,
        steps: "growths refused more than once: try_dict_set none into 0 beside text a key of its own; len_of 0 = 1; starve;
            try_dict_set none into 0 beside text a key of its own = none;
            release_all; settle; ledger = 1 born, 1 freed",
    },
    Case {
        name: "dict_set: a text's key goes into an empty dictionary once there is memory, and once more without any",
        on: EMPTY,
        steps: "growths refused more than once: dict_set none into 0 beside text a key of its own; len_of 0 = 1; starve;
            dict_set none into 0 beside text a key of its own = none;
            release_all; settle; ledger = 1 born, 1 freed",
    },
    Case {
        name: "try_dict_set: so it goes into a full one",
        on: OBJECTS,
        steps: "make dict; try_dict_set none into 0 beside -1; starve;
            until refused: try_dict_set none into 0 beside n; len_of 0 = 1+n;
            growths refused more than once: try_dict_set none into 0 beside text a key of its own; len_of 0 = 2+n; starve;
            try_dict_set none into 0 beside text a key of its own = none;
            release_all; settle; ledger = 1 born, 1 freed",
    },
    Case {
        name: "dict_set: so it goes into a full one",
        on: OBJECTS,
        steps: "make dict; dict_set none into 0 beside -1; starve;
            until refused: dict_set none into 0 beside n; len_of 0 = 1+n;
            growths refused more than once: dict_set none into 0 beside text a key of its own; len_of 0 = 2+n; starve;
            dict_set none into 0 beside text a key of its own = none;
            release_all; settle; ledger = 1 born, 1 freed",
    },
    // One place serves the handle to the globals then, and none is left for the entry's.
    Case {
        name: "globals without memory are not cleared",
        on: FRAMES,
        steps: "make globals; dict_set none into 0 beside 7; starve; until refused: make none; globals = OutOfMemory;
            handles = 1+n; clear_globals = OutOfMemory; handles = 1+n; len_of 0 = 1;
            release 1 = 0; clear_globals = OutOfMemory; handles = 0+n; len_of 0 = 1;
            growths refused: clear_globals; len_of 0 = 0; release_all; settle; ledger = 0 born, 0 freed",
    },
];

#[test]
fn a_refused_key_changes_nothing(rt: HostRuntime) {
    plays_all(&rt, rt.alloc(), CASES);
}
