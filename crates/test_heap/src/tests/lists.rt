//! Lists: calls that never wait, entries under a guard, and a list that passes from the thread that made it to another
//! one, which lets it go.

use crate::tests::worlds::{Case, SMALL, WIDE, plays_all};

const CASES: &[Case] = &[
    Case {
        name: "calls that never wait find what is there in a list",
        on: WIDE,
        steps: "make list; try_list_push int 1000 into 0; try_list_push int 1001 into 0; try_list_get 0 at 0 = 1000;
            try_list_get 0 at 2 = NoSuchPlace; try_list_set int 1002 into 0 at 0 = 1000;
            list_take 0 at 2 = NoSuchPlace; list_take 0 at 0 = 1002; try_list_take 0 at 1 = NoSuchPlace;
            try_list_pop 0 = 1001; try_list_pop 0 = NoSuchPlace;
            release 0; settle; ledger = 4 born, 4 freed",
    },
    Case {
        name: "a list is edited under guards that were waited for",
        on: WIDE,
        steps: "make list; guard_put int 1000 into 0; guard_put int 1001 into 0; len_of 0 = 2;
            guard_entry 0 at 1 = 1001; len_of 0 = 2; guard_swap int 1002 into 0 at 1 = 1001;
            guard_take 0 at 0 = 1000; len_of 0 = 1; guard_entry 0 at 0 = 1002;
            release 0; settle; ledger = 4 born, 4 freed",
    },
    Case {
        name: "a list is edited under guards that were had at once",
        on: WIDE,
        steps: "make list; try_guard_put int 1000 into 0; try_guard_put int 1001 into 0; len_of 0 = 2;
            try_guard_entry 0 at 1 = 1001; len_of 0 = 2; try_guard_swap int 1002 into 0 at 1 = 1001;
            try_guard_take 0 at 0 = 1000; len_of 0 = 1; try_guard_entry 0 at 0 = 1002;
            release 0; settle; ledger = 4 born, 4 freed",
    },
    Case {
        name: "an asked owner merges at its poll, and frees the list",
        on: SMALL,
        steps: "one: make globals; make list = 266; dict_set 1 into 0 beside 0;
            two: make globals; dict_del_by 0 beside 0 to last = 266;
            one: poll = no; two: release 1 = 266; one: poll = yes; work 5 = 4; ledger = 1 born, 1 freed;
            leave_after 0 = 1 born, 1 freed; two: release_all; work 5 = 5; ledger = 0 born, 0 freed",
    },
    // It finds the request in its queue then.
    Case {
        name: "an asked owner merges as it leaves, and frees the list",
        on: SMALL,
        steps: "one: make globals; make list = 266; dict_set 1 into 0 beside 0;
            two: make globals; dict_del_by 0 beside 0 to last = 266; release 1 = 266;
            one: leave_after 2 = 1 born, 1 freed; two: release_all; work 5 = 5; ledger = 0 born, 0 freed",
    },
    Case {
        name: "an owner that left isn't asked, and the other thread frees the list",
        on: SMALL,
        steps: "one: make globals; make list = 266; dict_set 1 into 0 beside 0;
            two: make globals; dict_del_by 0 beside 0 to last = 266;
            one: leave_after 0 = 1 born, 0 freed; two: release_all; work 5 = 4; ledger = 0 born, 1 freed",
    },
    // The one turn is the entry in its queue, and the list lives on.
    Case {
        name: "an owner that leaves merges for who holds on",
        on: SMALL,
        steps: "one: make globals; make list = 266; retain 1 = 266; dict_set 2 into 0 beside 1;
            dict_set 1 into 0 beside 0;
            two: make globals; dict_del_by 0 beside 0 to last = 266; dict_del_by 0 beside 1 to last = 266;
            release 1 = 266; one: leave_after 1 = 1 born, 0 freed;
            two: release_all; work 5 = 4; ledger = 0 born, 1 freed",
    },
    // The maker finds on its way out that it was asked.
    Case {
        name: "a count of another owner is handed back, and the owner is asked in the end",
        on: SMALL,
        steps: "one: make globals; make list = 266; dict_set 1 into 0 beside 0;
            two: make globals; dict_del_by 0 beside 0 to last = 266; release 0; retain 1 = 266;
            release_counted 2 = no; handles = 2; ledger = 0 born, 0 freed; work 1 = 1; release 2; work 2 = 2;
            release_counted 1 = no; handles = 1; ledger = 0 born, 0 freed; work 1 = 1; release 1; work 2 = 2;
            one: leave_after 2 = 1 born, 1 freed",
    },
];

#[test]
fn lists_do_what_they_should(rt: HostRuntime) {
    plays_all(&rt, rt.alloc(), CASES);
}
