//! Each growth of what makes, retains or keeps a handle refused in turn: the call answers OutOfMemory, and what is seen
//! of the thread is as it was. Memory is all taken at first, and the places of the frame are filled; it comes back a
//! piece at a time, so each growth is the one that is refused at some time.

use crate::tests::worlds::{Case, FRAMES, Memory, OBJECTS, World, plays_all};

/// Owners count up to ten references, and the frame has no place left.
const FILLED: World = World {
    local_limit: 10,
    begins: "make none; starve; until refused: make none",
    ..FRAMES
};

/// Places are of scarce memory, and nothing else is.
const PLACES_ALONE: World = World {
    scarce: 1 << 12,
    places: Memory::Scarce,
    ..OBJECTS
};

const CASES: &[Case] = &[
    Case {
        name: "a reference more: it is refused for its place",
        on: FILLED,
        steps: "1 growth refused: retain 0 = 0; release_all; handles = 0; ledger = 0 born, 0 freed;
            work 2 = 2; ledger = 0 born, 0 freed",
    },
    Case {
        name: "none: it is refused for its place",
        on: FILLED,
        steps: "1 growth refused: make none = 0; release_all; handles = 0; ledger = 0 born, 0 freed;
            work 2 = 2; ledger = 0 born, 0 freed",
    },
    Case {
        name: "true: it is refused for its place",
        on: FILLED,
        steps: "1 growth refused: make true = 2; release_all; handles = 0; ledger = 0 born, 0 freed;
            work 2 = 2; ledger = 0 born, 0 freed",
    },
    Case {
        name: "an integer: it is refused for its place and for its block",
        on: FILLED,
        steps: "2 growths refused: make int 257 = 266; release_all; handles = 0; ledger = 1 born, 0 freed;
            work 2 = 1; ledger = 1 born, 1 freed",
    },
    Case {
        name: "a text, which is handed back: it is refused for its place and for its block",
        on: FILLED,
        steps: "2 growths refused: new_text a text = 266; release_all; handles = 0; ledger = 1 born, 0 freed;
            work 2 = 1; ledger = 1 born, 1 freed",
    },
    Case {
        name: "a list: it is refused for its place and for its block",
        on: FILLED,
        steps: "2 growths refused: make list = 266; release_all; handles = 0; ledger = 1 born, 0 freed;
            work 2 = 1; ledger = 1 born, 1 freed",
    },
    Case {
        name: "a dictionary: it is refused for its place and for its block",
        on: FILLED,
        steps: "2 growths refused: make dict = 266; release_all; handles = 0; ledger = 1 born, 0 freed;
            work 2 = 1; ledger = 1 born, 1 freed",
    },
    Case {
        name: "a mailbox: it is refused for its place and for its block",
        on: FILLED,
        steps: "2 growths refused: make mailbox = 266; release_all; handles = 0; ledger = 1 born, 0 freed;
            work 2 = 1; ledger = 1 born, 1 freed",
    },
    Case {
        name: "a stack of handles: none is pushed, kept or retained without memory",
        on: PLACES_ALONE,
        steps: "push_none; starve; with_places 100 = OutOfMemory; until refused: push_none; until refused: keep_none;
            until refused: retain 0 = 0; growths refused: retain 0 = 0; release_all; ledger = 0 born, 0 freed",
    },
];

#[test]
fn a_refused_maker_changes_nothing(rt: HostRuntime) {
    plays_all(&rt, rt.alloc(), CASES);
}
