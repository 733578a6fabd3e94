//! Dictionaries: the order of their pairs, one that is filled under a guard, and globals that another thread has locked.

use crate::tests::worlds::{Case, WIDE, plays_all};

const CASES: &[Case] = &[
    // The second key goes and comes again, and is the last then. The first gets another integer, and keeps its place.
    Case {
        name: "pairs stand in the order in which their keys came",
        on: WIDE,
        steps: "make dict; dict_put int 1001 into 0 beside 1; dict_put int 1002 into 0 beside 2;
            dict_put int 1003 into 0 beside 3; dict_del 0 beside 2 = 1002; dict_put int 1004 into 0 beside 2;
            dict_put int 1005 into 0 beside 1 = 1001; len_of 0 = 3; dict_pair 0 at 0 beside 1 = 1005;
            dict_pair 0 at 1 beside 3 = 1003; dict_pair 0 at 2 beside 2 = 1004;
            release 0; settle; ledger = 6 born, 6 freed",
    },
    Case {
        name: "so they do by the calls that never wait, in cells that were used before",
        on: WIDE,
        steps: "make dict; 5 x dict_put int 1000 into 0 beside n; release_all; settle; ledger = 6 born, 6 freed;
            make dict; try_dict_put int 1001 into 0 beside 1; try_dict_put int 1002 into 0 beside 2;
            try_dict_put int 1003 into 0 beside 3; try_dict_del 0 beside 2 = 1002;
            try_dict_put int 1004 into 0 beside 2; try_dict_put int 1005 into 0 beside 1 = 1001; len_of 0 = 3;
            try_dict_pair 0 at 0 beside 1 = 1005; try_dict_pair 0 at 1 beside 3 = 1003;
            try_dict_pair 0 at 2 beside 2 = 1004; release 0; settle; ledger = 12 born, 12 freed",
    },
    Case {
        name: "a pair goes in under a guard that was waited for",
        on: WIDE,
        steps: "make dict; guard_pair int 1000 into 0 beside 7; len_of 0 = 1; dict_find 0 beside 7 = 1000;
            release 0; settle; ledger = 2 born, 2 freed",
    },
    Case {
        name: "a pair goes in under a guard that was had at once",
        on: WIDE,
        steps: "make dict; try_guard_pair int 1000 into 0 beside 7; len_of 0 = 1; try_dict_find 0 beside 7 = 1000;
            release 0; settle; ledger = 2 born, 2 freed",
    },
    // It can use its own empty list, which has nothing to pop, and no number.
    Case {
        name: "what another thread has locked is busy, and nothing else is",
        on: WIDE,
        steps: "one: make globals; two: make globals; make list;
            while one holds 0: try_len_of 0 = Busy;
            while one holds 0: try_dict_set 1 into 0 beside 7 = Busy;
            while one holds 0: try_dict_put none into 0 beside 7 = Busy;
            while one holds 0: try_list_pop 1 = NoSuchPlace;
            while one holds 0: try_int_of 1 = WrongKind;
            try_dict_set 1 into 0 beside 7; try_dict_find 0 beside 7 = list; try_dict_del 0 beside 7 = list;
            settle; ledger = 1 born, 1 freed",
    },
];

#[test]
fn dictionaries_do_what_they_should(rt: HostRuntime) {
    plays_all(&rt, rt.alloc(), CASES);
}
