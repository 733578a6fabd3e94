//! Deaths, asked owners, a hand-over and calls that need no memory, while none is left. What a call gives back is taken
//! at once, so that a release, a poll, turns of work and all that a thread does on its way out take none.

use crate::tests::worlds::{ALL, Case, World, plays_all};

/// Owners count up to ten references.
const SMALL: World = World {
    local_limit: 10,
    ..ALL
};

const CASES: &[Case] = &[
    Case {
        name: "a list of lists dies a turn at a time",
        on: World {
            cells: 4_096,
            scarce: 1 << 22,
            ..SMALL
        },
        steps: "make list; 1000 x list_push list into 0; starve; release 0;
            2001 x starved: work 1 = 0; starved: work 1 = 1; ledger = 1001 born, 1001 freed",
    },
    // The one polls and works, and the other finds the request on its way out.
    Case {
        name: "asked owners take no memory",
        on: SMALL,
        steps: "one: make globals; make list = 266; dict_set 1 into 0 beside 0;
            three: make globals; dict_del_by 0 beside 0 to last = 266;
            two: make globals; make list = 267; dict_set 1 into 0 beside 0;
            three: dict_del_by 0 beside 0 to last = 267; starve; release_all;
            one: starved: poll = yes; work 5 = 4; ledger = 1 born, 1 freed; starve;
            two: leave_after 2 = 1 born, 1 freed; starve",
    },
    // The lists are nobody's then, and the other thread frees them.
    Case {
        name: "a hand-over takes no memory",
        on: SMALL,
        steps: "one: make globals; 100 x dict_put list into 0 beside n;
            two: make globals; 100 x dict_del_by 0 beside n to last = 266+n; starve;
            one: leave_after 0 = 100 born, 0 freed; starve;
            two: release_all; 100 x starved: work 1 = 0; starved: work 1 = 1; ledger = 0 born, 100 freed",
    },
    // What they want was had before: a place of the frame, and room in the list.
    Case {
        name: "reads, exchanges and what is done under guards that were waited for take no memory",
        on: ALL,
        steps: "make list; list_push int 1000 into 0; list_push int 1001 into 0; make int 1002; make none; release 2;
            starve; try_kind_of 0 = list; kind_of 0 = list; try_len_of 0 = 2; len_of 0 = 2; try_int_of 1 = 1002;
            int_of 1 = 1002; guard_entry 0 at 1 = 1001; guard_swap none into 0 at 1 = 1001;
            try_list_set 1 into 0 at 1 = none; list_set 1 into 0 at 0 = 1000; guard_put none into 0; len_of 0 = 3;
            guard_take 0 at 2 = none; int_of 1 = 1000; release_all; settle; is_idle = yes; starve;
            ledger = 4 born, 4 freed",
    },
    Case {
        name: "so it is under guards that were had at once",
        on: ALL,
        steps: "make list; list_push int 1000 into 0; list_push int 1001 into 0; make int 1002; make none; release 2;
            starve; try_kind_of 0 = list; kind_of 0 = list; try_len_of 0 = 2; len_of 0 = 2; try_int_of 1 = 1002;
            int_of 1 = 1002; try_guard_entry 0 at 1 = 1001; try_guard_swap none into 0 at 1 = 1001;
            try_list_set 1 into 0 at 1 = none; list_set 1 into 0 at 0 = 1000; try_guard_put none into 0; len_of 0 = 3;
            try_guard_take 0 at 2 = none; int_of 1 = 1000; release_all; settle; is_idle = yes; starve;
            ledger = 4 born, 4 freed",
    },
];

/// Such a heap takes a while to be made and to end.
const LONG: &[Case] = &[
    // Each list but the innermost has an entry to be released, and each gives its cell back.
    Case {
        name: "a long chain dies a turn at a time",
        on: World {
            cells: 65_536,
            scarce: 26_000_000,
            ..SMALL
        },
        steps: "make list; 59999 x nest 0; starve; release 0;
            119999 x starved: work 1 = 0; starved: work 1 = 1; ledger = 60000 born, 60000 freed",
    },
];

#[test]
fn a_long_chain_dies_a_turn_at_a_time(rt: HostRuntime) {
    plays_all(&rt, rt.alloc(), LONG);
}

#[test]
fn what_needs_no_memory_takes_none(rt: HostRuntime) {
    plays_all(&rt, rt.alloc(), CASES);
}
