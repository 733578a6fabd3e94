//! Lives of objects and of references to them: what is made, where, and how it goes.

use crate::tests::worlds::{Case, FRAMES, Memory, SMALL, World, plays_all};

/// Memory for as many handles as a frame takes.
const MANY_HANDLES: World = World {
    ample: 1 << 24,
    ..SMALL
};

const CASES: &[Case] = &[
    Case {
        name: "none, truths and the integers from -5 to 256 are there already, and nobody counts them",
        on: SMALL,
        steps: "make none = 0; release_all; make false = 1; release_all; make true = 2; release_all;
            make int -5 = 3; release_all; make int 0 = 8; release_all;
            make int 256 = 264; retain 0 = 264; release_all; work 5 = 5; ledger = 0 born, 0 freed;
            make int 257 = 266; ledger = 1 born, 0 freed; release_all; work 5 = 4; ledger = 1 born, 1 freed",
    },
    Case {
        name: "objects are read as they are, in both forms",
        on: SMALL,
        steps: "make int -6; kind_of 0 = int; try_kind_of 0 = int; int_of 0 = -6; try_int_of 0 = -6;
            len_of 0 = WrongKind; try_len_of 0 = WrongKind; release_all;
            new_text side; kind_of 0 = text; try_kind_of 0 = text; text_of 0 = side; try_text_of 0 = side;
            int_of 0 = WrongKind; try_int_of 0 = WrongKind; release_all;
            make list; kind_of 0 = list; try_kind_of 0 = list; len_of 0 = 0; try_len_of 0 = 0; release_all;
            work 9 = 6",
    },
    Case {
        name: "a full heap has room again",
        on: SMALL,
        steps: "246 x make list; make list = HeapFull; handles = 246; release 34 = 300; work 2 = 1; make list = 300;
            handles = 246; release_all; work 300 = 54; ledger = 247 born, 247 freed",
    },
    Case {
        name: "a full frame takes no handle",
        on: MANY_HANDLES,
        steps: "65536 x make none; retain 0 = FrameFull; make none = FrameFull; make int 256 = FrameFull;
            make int 257 = FrameFull; new_text a text = FrameFull; make list = FrameFull;
            handles = 65536; release_all; ledger = 0 born, 0 freed",
    },
    Case {
        name: "twenty integers go together",
        on: SMALL,
        steps: "20 x make int 1000; handles = 20; release_all; work 50 = 30; ledger = 20 born, 20 freed",
    },
    Case {
        name: "a copy of a place is refused where there is no list, and given to a list",
        on: SMALL,
        steps: "make list = 266; make int 1000 = 267; retain 1 = 267; poll = no; work 3 = 3; handles = 3;
            list_push 2 into 1 = WrongKind; cell 2 = 267; list_push 2 into 0; int_of 2 = NoSuchPlace; handles = 2;
            release_all; work 9 = 6; ledger = 2 born, 2 freed",
    },
    // Neither an immortal's cell nor one past the last is one to begin with.
    Case {
        name: "claims begin with the 64 cells that were asked for",
        on: SMALL,
        steps: "make list = 266; claim_from 330; make list = 320; make list = 321; claim_from 511; make list = 448;
            claim_from 265; make list = 267; claim_from 512; make list = 268; claim_near 512; make list = 269;
            release_all; work 10 = 3",
    },
    // The heap is full only where all cells are taken.
    Case {
        name: "past the last cell a search goes on with the first mortal one",
        on: SMALL,
        steps: "claim_from 448; 64 x make list; make list = 266; release 52 = 500; work 2 = 1; make list = 500;
            181 x make list; make list = HeapFull; release_all; work 300 = 54",
    },
    // But where its word is below the one that was asked for.
    Case {
        name: "a cell of a lower word that was freed is the next one claimed",
        on: SMALL,
        steps: "make list; claim_near 330; 65 x make list; release 31 = 350; work 2 = 1; make list = 350;
            release 0 = 266; work 2 = 1; make list = 385; release_all; work 100 = 34",
    },
    Case {
        name: "where a search has gone round, the next one begins where that one ended",
        on: SMALL,
        steps: "claim_near 448; 64 x make list; make list = 266; release 52 = 500; work 2 = 1;
            make list = 267; release_all; work 100 = 35",
    },
    Case {
        name: "one of several own counts goes by itself, and the last one is handed back",
        on: SMALL,
        steps: "make list; retain 0; release_counted 1 = yes; handles = 1; ledger = 1 born, 0 freed;
            release_counted 0 = no; handles = 1; ledger = 1 born, 0 freed; work 1 = 1;
            release 0; work 2 = 1; ledger = 1 born, 1 freed",
    },
    Case {
        name: "a count of an immortal is handed back",
        on: SMALL,
        steps: "make none; retain 0; release_counted 1 = no; handles = 2; ledger = 0 born, 0 freed; work 1 = 1;
            release 1; work 2 = 2; release_counted 0 = no; handles = 1; ledger = 0 born, 0 freed; work 1 = 1;
            release 0; work 2 = 2; handles = 0",
    },
    Case {
        name: "a thread with a handle or a dead block stays",
        on: SMALL,
        steps: "make globals; stay; handles = 1; release_all; is_idle = yes;
            make int 256; stay; handles = 1; release_all; is_idle = yes;
            make list; release 0; stay; ledger = 1 born, 0 freed; is_idle = no; work 2 = 1; is_idle = yes;
            leave_after 0 = 1 born, 1 freed",
    },
    // A new frame has no place ready. With memory it gets one, and perhaps more.
    Case {
        name: "a place that is ready takes no memory",
        on: World {
            objects: Memory::Ample,
            ..FRAMES
        },
        steps: "spare_place = no; make none; starve; while a place is ready: make none; make none = OutOfMemory",
    },
];

#[test]
fn objects_live_and_die(rt: HostRuntime) {
    plays_all(&rt, rt.alloc(), CASES);
}
